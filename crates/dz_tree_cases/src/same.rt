//! Whether lines are the same.

use dz_move::{Line, Next};
use dz_step::StepList;

/// Whether two runs have the same steps.
fn same_runs(run: &StepList, other: &StepList) -> bool {
    if run.len() != other.len() {
        return false;
    }
    for k in 0..run.len() {
        if run.get(k) != other.get(k) {
            return false;
        }
    }
    true
}

/// Whether two open ends name the same operation.
fn same_next(next: &Next, other: &Next) -> bool {
    match (next, other) {
        (Next::Reduce { place: i, run }, Next::Reduce { place: j, run: s }) => {
            i == j && same_runs(run, s)
        }
        (Next::Weed { place: i, run }, Next::Weed { place: j, run: s }) => {
            i == j && same_runs(run, s)
        }
        (
            Next::Pair { first, second, run },
            Next::Pair {
                first: i,
                second: j,
                run: s,
            },
        ) => first == i && second == j && same_runs(run, s),
        (
            Next::Divide {
                place: i,
                symbol: u,
            },
            Next::Divide {
                place: j,
                symbol: v,
            },
        ) => { i == j && u == v }
        (Next::Split { place: i, which: u }, Next::Split { place: j, which: v }) => {
            i == j && u == v
        }
        (
            Next::Factor {
                place: i,
                symbol: u,
            },
            Next::Factor {
                place: j,
                symbol: v,
            },
        ) => { i == j && u == v }
        (Next::Separant { place: i }, Next::Separant { place: j }) => i == j,
        _ => false,
    }
}

/// Whether two moves or forks are the same.
fn same_action(line: &Line, other: &Line) -> bool {
    match (line, other) {
        (Line::Reduce { place: i, run }, Line::Reduce { place: j, run: s }) => {
            i == j && same_runs(run, s)
        }
        (Line::Weed { place: i, run }, Line::Weed { place: j, run: s }) => {
            i == j && same_runs(run, s)
        }
        (
            Line::Add { first, second, run },
            Line::Add {
                first: i,
                second: j,
                run: s,
            },
        ) => first == i && second == j && same_runs(run, s),
        (
            Line::Divide {
                place: i,
                symbol: u,
            },
            Line::Divide {
                place: j,
                symbol: v,
            },
        ) => { i == j && u == v }
        (Line::Split { place: i, which: u }, Line::Split { place: j, which: v }) => {
            i == j && u == v
        }
        (
            Line::Factor {
                place: i,
                symbol: u,
            },
            Line::Factor {
                place: j,
                symbol: v,
            },
        ) => { i == j && u == v }
        _ => false,
    }
}

/// Whether two lines are the same.
fn same_line(line: &Line, other: &Line) -> bool {
    match (line, other) {
        (Line::Closed, Line::Closed) => true,
        (Line::Chain, Line::Chain) => true,
        (
            Line::Pair { first, second, run },
            Line::Pair {
                first: i,
                second: j,
                run: s,
            },
        ) => first == i && second == j && same_runs(run, s),
        (Line::Spent(next), Line::Spent(other)) => same_next(next, other),
        (Line::SpentPairs, Line::SpentPairs) => true,
        (Line::Wide(next), Line::Wide(other)) => same_next(next, other),
        (Line::Large(u, next), Line::Large(v, other)) => u == v && same_next(next, other),
        _ => same_action(line, other),
    }
}

/// The number, from 1, of the first line that is another, or is not there in both lists.
pub(crate) fn first_other(lines: &[Line], others: &[Line]) -> Option<usize> {
    for k in 0..lines.len() {
        if k >= others.len() || !same_line(&lines[k], &others[k]) {
            return Some(k + 1);
        }
    }
    if others.len() > lines.len() {
        return Some(lines.len() + 1);
    }
    None
}
