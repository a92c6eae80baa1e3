//! Worked rows of the libraries: the grammar of systems, canonical texts, laws, steps, full runs and critical pairs.
#![tactic(auto)]

#[cfg(test)]
mod forms;
#[cfg(test)]
mod grammar;
#[cfg(test)]
mod laws;
#[cfg(test)]
mod pairs;
#[cfg(test)]
mod parts;
#[cfg(test)]
mod reductions;
#[cfg(test)]
mod runs;
#[cfg(test)]
mod states;
#[cfg(test)]
mod steps;
