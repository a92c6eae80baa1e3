//! Whether the operators in lines belong to a signature.

ghost use Rattle.std.specs.Prelude.{◌↔◌, IsTrue, map};
ghost use Rattle.dz_rank.specs.Symbols.{IsOperatorOf};
ghost use Rattle.dz_step.specs.StepOperators.{DeriveAlong};
ghost use Rattle.dz_tree.specs.LineOperators.{HaveOperatorsOf, steps_in};
ghost use Rattle.dz_move.specs.Moves.{steps_of};
ghost use Rattle.dz_move.specs.TreeLines.{action_of, line_of};

use dz_move::{Line, Next};
use dz_rank::Operator;
use dz_step::StepList;

/// Whether an operator derives in the first directions alone, of which there are so many.
fn is_operator_of(independents: u8, operator: Operator) -> bool
    ensures { IsTrue result ↔ IsOperatorOf independents operator }
{
    'directions: for k in usize::from(independents)..4 {
        if operator.counts[k] != 0 {
            return false;
        }
    }
    true
}

/// Whether the operators of all steps of a run do.
fn are_steps_of(independents: u8, run: &StepList) -> bool
    ensures { IsTrue result ↔ DeriveAlong independents run.now }
{
    'steps: for k in 0..run.len() {
        if !is_operator_of(independents, run.get(k).operator) {
            return false;
        }
    }
    true
}

/// Whether those of what an open end names do.
fn is_next_of(independents: u8, next: &Next) -> bool
    ensures { IsTrue result ↔ DeriveAlong independents (steps_of (action_of next.now)) }
{
    match next {
        Next::Reduce { place: _, run } | Next::Weed { place: _, run } => {
            are_steps_of(independents, run)
        }
        Next::Pair { run, .. } => are_steps_of(independents, run),
        _ => true,
    }
}

/// Whether those of a line do.
fn is_line_of(independents: u8, line: &Line) -> bool
    ensures { IsTrue result ↔ DeriveAlong independents (steps_in (line_of line.now)) }
{
    match line {
        Line::Reduce { place: _, run } | Line::Weed { place: _, run } => {
            are_steps_of(independents, run)
        }
        Line::Add { run, .. } | Line::Pair { run, .. } => are_steps_of(independents, run),
        Line::Wide(Next::Separant { .. }) => true,
        Line::Spent(next) | Line::Wide(next) | Line::Large(_, next) => {
            is_next_of(independents, next)
        }
        _ => true,
    }
}

/// Whether the operators in lines derive in the directions of so many independents alone, as those
/// of a signature do.
pub fn have_operators_of(independents: u8, lines: &[Line]) -> bool
    ensures { IsTrue result ↔ HaveOperatorsOf independents (map line_of lines.now) }
{
    'lines: for line in lines {
        if !is_line_of(independents, line) {
            return false;
        }
    }
    true
}
