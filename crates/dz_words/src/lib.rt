//! The words of the command line: a verb, and numbers for its options.
//!
//! [`read_words`] answers what words of a written form ask for, and refuses all others. Words of a
//! written form ask for one thing ([`one_request`]), and their numbers are written without leading
//! zeros ([`numbers_have_digits`]).
#![tactic(auto)]

mod options;
mod shape;
mod verbs;
mod words;

pub use options::Key;
pub use verbs::Verb;
pub use words::{Request, WordsFault, numbers_have_digits, one_request, read_words};
