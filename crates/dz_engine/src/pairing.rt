//! The critical pairs of a state, one after the other.

ghost use Rattle.std.specs.Prelude.{◌≡◌, ◌≤◌, ◌-◌, ◌+◌, ℕ, List, Some, Ok, IfOk, IfSome, [], ◌∷◌, map};
ghost use Rattle.dz_rank.specs.Rankings.{RankingValue};
ghost use Rattle.dz_terms.specs.Entries.{IsEntry};
ghost use Rattle.dz_monomials.specs.Ranked.{symbols_under};
ghost use Rattle.dz_diff.specs.Operations.{Setting, setting_of};
ghost use Rattle.dz_diff.specs.State.{State as DefinedState};
ghost use Rattle.dz_diff.specs.States.{StandsIn, state_in};
ghost use Rattle.dz_step.specs.Divisors.{AreDivisors};
ghost use Rattle.dz_step.specs.FullRun.{Course};
ghost use Rattle.dz_step.specs.declared.Role.TheVariants.{Free};
ghost use Rattle.dz_move.specs.Lines.{Evidence, pair};
ghost use Rattle.dz_move.specs.TreeLines.{line_of};
ghost use Rattle.dz_engine.specs.Facts.{AreKnown, names_of};
ghost use Rattle.dz_engine.specs.Halting.{IsHalt};
ghost use Rattle.dz_engine.specs.Naming.{HasEntry, IsNamed, IsOnward, IsPairAt, IsPairCourse, IsPairStop};
ghost use Rattle.dz_engine.specs.Naming.{IsSoFar, PairHasEntry, line_weight, states_below};
ghost use Rattle.dz_engine.specs.Order.{delta_at, with_evidence};

use crate::deltas::delta_at;
use crate::facts::Facts;
use crate::halting::{Halt, halted};
use crate::naming::{Named, ended};
use dz_move::{ActionEnd, Line, Next};
use dz_pair::pairs;
use dz_poly::{Book, Limit, PolyStop};
use dz_step::{Divisor, FullRun, Role, RunEnd, State, StepList, member_at, run_with};
use dz_terms::{Entry, into_norm};
use std::alloc::{AllocError, Global};

/// The run of a critical pair: to zero, with its weight; past the budget; to an end that is not
/// zero, which is known; or up to an operation that is refused.
#[derive(Drop)]
pub(crate) enum PairCourse {
    Zero(StepList, u32),
    Spent(StepList),
    Grown(StepList, ActionEnd),
    Wide(StepList),
    Large(Limit, StepList),
}

/// A run of a pair that stops before its end.
fn pair_halt(halt: Halt) -> PairCourse
    ensures stop { (course : Course) → IsHalt halt course → IsPairStop result course }
    ensures entry { (r : RankingValue) → PairHasEntry r result }
{
    match halt {
        Halt::Passed(run) => PairCourse::Spent(run),
        Halt::Wide(run) => PairCourse::Wide(run),
        Halt::Large(limit, run) => PairCourse::Large(limit, run),
    }
}

/// The run of a pair from its Delta-polynomial on, where `left` of the budget is left.
fn delta_course(
    book: &Book,
    state: &State,
    delta: Entry,
    left: u32,
    table: &mut Vec<Option<Divisor>>,
) -> Result<PairCourse, AllocError>
    requires stands { StandsIn book.now state.now }
    requires table { AreDivisors book.now.ranking (state_in book.now state.now) Free table.old.items }
    requires delta { IsEntry book.now.ranking delta }
    ensures table { AreDivisors book.now.ranking (state_in book.now state.now) Free table.new.items }
    ensures course { IfOk result (λ x. (budget w i j : ℕ) → w ≤ budget → left ≡ budget - w
        → delta_at (setting_of book.now.ranking) (state_in book.now state.now) (i, j)
        ≡ Ok delta.terms
        → IsPairAt (symbols_under book.now.ranking) (state_in book.now state.now) i j
        → IsPairCourse (setting_of book.now.ranking) budget w (state_in book.now state.now)
        (i, j) x) }
    ensures entry { IfOk result (λ x. PairHasEntry book.now.ranking x) }
{
    let terms = delta.term_count();
    if terms >= left as usize {
        return Ok(PairCourse::Spent(StepList::new(book.allocator())));
    }
    let rest = left - 1 - terms as u32;
    match run_with(
        book.allocator(),
        book,
        into_norm(delta),
        state,
        Role::Free,
        rest,
        table,
    ) {
        Ok(FullRun { run, end, count }) => {
            if !end.is_zero() {
                let count = count as usize;
                let ran = RunEnd { end, count };
                let known = ActionEnd { terms, run: ran };
                return Ok(PairCourse::Grown(run, known));
            }
            Ok(PairCourse::Zero(run, 1 + terms as u32 + count))
        }
        Err(attempt) => {
            let halt = halted(attempt)?;
            Ok(pair_halt(halt))
        }
    }
}

/// The run of the critical pair at two places, where `left` of the budget is left.
fn pair_course(
    book: &Book,
    state: &State,
    facts: &mut Vec<Facts>,
    first: u16,
    second: u16,
    left: u32,
    table: &mut Vec<Option<Divisor>>,
) -> Result<PairCourse, AllocError>
    requires stands { StandsIn book.now state.now }
    requires table { AreDivisors book.now.ranking (state_in book.now state.now) Free table.old.items }
    requires pair { IsPairAt (symbols_under book.now.ranking) (state_in book.now state.now)
        first second }
    requires known { AreKnown book.now facts.old.items }
    requires names { names_of facts.old.items ≡ state.now.equations }
    ensures known { AreKnown book.now facts.new.items }
    ensures names { names_of facts.new.items ≡ state.now.equations }
    ensures table { AreDivisors book.now.ranking (state_in book.now state.now) Free table.new.items }
    ensures course { IfOk result (λ x. (budget w : ℕ) → w ≤ budget → left ≡ budget - w
        → IsPairCourse (setting_of book.now.ranking) budget w (state_in book.now state.now)
        (first, second) x) }
    ensures entry { IfOk result (λ x. PairHasEntry book.now.ranking x) }
{
    let Some(q) = member_at(state.equations(), second) else {
        unreachable!()
    };
    match delta_at(book, facts, first as usize - 1, q) {
        Ok(delta) => delta_course(book, state, delta, left, table),
        Err(PolyStop::Memory) => Err(AllocError),
        Err(PolyStop::Wide) => Ok(PairCourse::Wide(StepList::new(book.allocator()))),
        Err(PolyStop::Large(limit)) => {
            Ok(PairCourse::Large(limit, StepList::new(book.allocator())))
        }
    }
}

/// The evidence of the pairs so far, and the running weight with it.
#[derive(Drop)]
struct SoFar {
    lines: Vec<Line>,
    spent: u32,
}

/// An end with evidence.
fn headed(
    alloc: Global,
    head: Line,
    evidence: &mut Vec<Line>,
    weight: u32,
) -> Result<Named, AllocError>
    ensures entry { IfOk result (λ x. (r : RankingValue) → HasEntry r x) }
    ensures named { IfOk result (λ x. (g : Setting) (budget w : ℕ) (s : DefinedState) (es : List Evidence)
        → map line_of evidence.old.items ≡ map pair es
        → weight ≡ line_weight g s (line_of head) es → states_below g s (line_of head) ≡ []
        → IsNamed g budget w s x (with_evidence (line_of head) es)) }
{
    let mut lines = Vec::new(alloc);
    lines.push(head)?;
    lines.append(evidence)?;
    Ok(Named::End(lines, weight))
}

/// What is named by the critical pair at two places, after those before it; nothing where its run
/// ends at zero.
fn one_pair(
    book: &Book,
    state: &State,
    facts: &mut Vec<Facts>,
    first: u16,
    second: u16,
    budget: u32,
    so_far: &mut SoFar,
    table: &mut Vec<Option<Divisor>>,
) -> Result<Option<Named>, AllocError>
    requires stands { StandsIn book.now state.now }
    requires table { AreDivisors book.now.ranking (state_in book.now state.now) Free table.old.items }
    requires pair { IsPairAt (symbols_under book.now.ranking) (state_in book.now state.now)
        first second }
    requires within { so_far.old.spent ≤ budget }
    requires known { AreKnown book.now facts.old.items }
    requires names { names_of facts.old.items ≡ state.now.equations }
    ensures known { AreKnown book.now facts.new.items }
    ensures names { names_of facts.new.items ≡ state.now.equations }
    ensures table { AreDivisors book.now.ranking (state_in book.now state.now) Free table.new.items }
    ensures within { so_far.new.spent ≤ budget }
    ensures entry { IfOk result (λ o. IfSome o (λ x. HasEntry book.now.ranking x)) }
    ensures onward { IfOk result (λ o. (weight : ℕ) (ps : List (ℕ × ℕ))
        → IsSoFar (setting_of book.now.ranking) budget weight (state_in book.now state.now)
        so_far.old.lines.items so_far.old.spent ((first, second) ∷ ps)
        → IsOnward (setting_of book.now.ranking) budget weight (state_in book.now state.now)
        so_far.new.lines.items so_far.new.spent ps o) }
{
    let alloc = book.allocator();
    let left = budget - so_far.spent;
    match pair_course(book, state, facts, first, second, left, table)? {
        PairCourse::Zero(run, cost) => {
            so_far.lines.push(Line::Pair { first, second, run })?;
            so_far.spent += cost;
            Ok(None)
        }
        PairCourse::Spent(run) => {
            so_far.lines.push(Line::Pair { first, second, run })?;
            let spent = headed(alloc, Line::SpentPairs, &mut so_far.lines, 0)?;
            Ok(Some(spent))
        }
        PairCourse::Grown(run, end) => {
            Ok(Some(Named::Known(Next::Pair { first, second, run }, end)))
        }
        PairCourse::Wide(run) => {
            let wide = ended(alloc, Line::Wide(Next::Pair { first, second, run }))?;
            Ok(Some(wide))
        }
        PairCourse::Large(limit, run) => {
            let large = ended(alloc, Line::Large(limit, Next::Pair { first, second, run }))?;
            Ok(Some(large))
        }
    }
}

/// What is named where only the critical pairs are left, if its entry holds.
pub(crate) fn pairs_named(
    book: &Book,
    state: &State,
    facts: &mut Vec<Facts>,
    weight: u32,
    budget: u32,
    table: &mut Vec<Option<Divisor>>,
) -> Result<Named, AllocError>
    requires stands { StandsIn book.now state.now }
    requires table { AreDivisors book.now.ranking (state_in book.now state.now) Free table.old.items }
    requires within { weight ≤ budget }
    requires known { AreKnown book.now facts.old.items }
    requires names { names_of facts.old.items ≡ state.now.equations }
    ensures known { AreKnown book.now facts.new.items }
    ensures entry { IfOk result (λ x. HasEntry book.now.ranking x) }
    ensures named { IfOk result (λ x. IsOnward (setting_of book.now.ranking) budget weight
        (state_in book.now state.now) [] weight [] (Some x)) }
{
    let found = pairs(book.allocator(), book, state)?;
    let mut so_far = SoFar {
        lines: Vec::new(book.allocator()),
        spent: weight,
    };
    'pairs: for k in 0..found.len() {
        let (first, second) = found[k];
        let named = one_pair(
            book,
            state,
            facts,
            first,
            second,
            budget,
            &mut so_far,
            table,
        )?;
        if let Some(named) = named {
            return Ok(named);
        }
    }
    headed(
        book.allocator(),
        Line::Chain,
        &mut so_far.lines,
        so_far.spent - weight,
    )
}
