//! Preparation.

ghost use Rattle.std.specs.Prelude.{◌≡◌, ◌≢◌, ◌↔◌, ◌<◌, ◌+◌, ℕ, IsTrue, true, [], ◌∷◌, pos, map, slice_index_or, Some, Ok, IfOk, IfErr, IfSome, OnOk};
ghost use Rattle.dz_algebra.specs.Polynomial.{Polynomial};
ghost use Rattle.dz_rank.specs.Rankings.{RankingValue};
ghost use Rattle.dz_rank.specs.declared.symbols.Symbol.{Symbol};
ghost use Rattle.dz_poly.specs.Books.{IsKept, Lives, Means, polynomial};
ghost use Rattle.dz_terms.specs.Entries.{IsEntry};
ghost use Rattle.dz_monomials.specs.Ranked.{symbols_under};
ghost use Rattle.dz_diff.specs.Operations.{setting_of};
ghost use Rattle.dz_diff.specs.State.{State as Chain};
ghost use Rattle.dz_diff.specs.States.{MeanAll, StandsIn, state_in};
ghost use Rattle.dz_step.specs.Divisors.{AreDivisors};
ghost use Rattle.dz_step.specs.declared.Role.TheVariants.{Free};
ghost use Rattle.dz_step.specs.declared.attempts.AttemptStop.TheVariants.{Memory};
ghost use Rattle.dz_step.specs.declared.stepping.StepStop.TheVariants.{NotStep};
ghost use Rattle.dz_ask.specs.AnswerOperators.{PreparationDerivesAlong, PrepareAttemptDerivesAlong};
ghost use Rattle.dz_ask.specs.Attempts.{IsPreparationAnswer, IsPreparationAttempt, IsPreparationIn};
ghost use Rattle.dz_ask.specs.Attempts.{IsStoppedIn, IsWithoutMemory, LiveTerms, LivesPreparation};
ghost use Rattle.dz_ask.specs.Attempts.{power_in, prepared_in, term_in};
ghost use Rattle.dz_ask.specs.Preparation.{IsPartialPreparation, IsPreparation};
ghost use Rattle.dz_ask.specs.Progress.{AreFactors, AreWorking, IsAdvance, IsAt, IsHalt, IsInside};
ghost use Rattle.dz_ask.specs.Progress.{IsOutcome, IsTurnFault, attempt_stop, polynomials_of, working_in};
ghost use Rattle.dz_ask.specs.Turns.{coefficient_terms, preparation, turned_terms, unprepared};
ghost use Rattle.dz_ask.specs.Turns.{with_factor};
ghost use Rattle.dz_ask.specs.Working.{AreEntries, IsNextTurn, terms_in, turn_by};
ghost use Rattle.dz_ask.specs.declared.working.WorkingTerm.{WorkingTerm};

use crate::turns::{AfterTurn, next_turn, turned};
use crate::working::{WorkingTerm, leave_out_zeros, left_after};
use dz_poly::{Book, Poly};
use dz_rank::{Operator, Ranking};
use dz_step::{AttemptStop, Divisor, Role, State, Step, StepStop, divisors_of};
use dz_terms::{Entry, copied, number, same_entries};
use std::alloc::{AllocError, Global};

/// A power of the derivative that an operator makes of the equation at a place, counted from 1.
#[derive(Clone, Copy, Debug, PartialEq, Eq)]
pub struct Power {
    pub place: u16,
    pub operator: Operator,
    pub exponent: u16,
}

/// A product of powers, ordered by place and operator, with its coefficient.
#[derive(Drop)]
pub struct PreparedTerm {
    pub product: Vec<Power>,
    pub coefficient: Poly,
}

/// The product of the factors times a polynomial is the sum of the terms.
#[derive(Drop)]
pub struct Preparation {
    pub factors: Vec<Poly>,
    pub terms: Vec<PreparedTerm>,
}

/// A preparation that stops: the identity so far, the product whose coefficient admits the step
/// that is named in `stop`, and why. Where memory runs out, the three lists are empty.
#[derive(Drop)]
pub struct PrepareAttempt {
    pub partial: Preparation,
    pub product: Vec<Power>,
    pub stop: AttemptStop,
}

/// How far a preparation has come, and what is left of the budget.
#[derive(Drop)]
pub(crate) struct Working {
    pub(crate) factors: Vec<Entry>,
    pub(crate) terms: Vec<WorkingTerm>,
    pub(crate) left: u32,
}

/// Why a turn stops, and the index of its term.
#[derive(Clone, Copy, Debug, PartialEq, Eq)]
pub(crate) struct TurnStop {
    pub(crate) index: usize,
    pub(crate) stop: AttemptStop,
}

/// A turn for which memory runs out.
const NO_MEMORY: TurnStop = TurnStop {
    index: 0,
    stop: AttemptStop::Memory,
};

/// Whether a polynomial is one.
fn is_one(alloc: Global, ranking: &Ranking, entry: &Entry) -> Result<bool, AllocError>
    ensures { IfOk result (λ one. IsTrue one ↔ (entry.now.terms ≡ ([], pos 1) ∷ [])) }
{
    let one = number(alloc, 1)?;
    Ok(same_entries(ranking, entry, &one))
}

/// Appends a factor, unless it is one.
fn push_factor(
    alloc: Global,
    ranking: &Ranking,
    factors: &mut Vec<Entry>,
    factor: Entry,
) -> Result<(), AllocError>
    ensures pushed { (r : RankingValue) → OnOk result (polynomials_of factors.new.items
        ≡ with_factor (symbols_under r) factor.terms (polynomials_of factors.old.items)) }
    ensures entries { (r : RankingValue) → IsEntry r factor
        → AreFactors r factors.old.items → AreFactors r factors.new.items }
{
    if !is_one(alloc, ranking, &factor)? {
        factors.push(factor)?;
    }
    Ok(())
}

/// Why the step that is next has no result, as the stop of its turn.
fn stop_of(stop: StepStop, step: Step) -> AttemptStop
    requires { stop ≢ NotStep }
    ensures { result ≡ attempt_stop step stop }
{
    match stop {
        StepStop::Wide => AttemptStop::Wide(step),
        StepStop::Large(limit) => AttemptStop::Large(limit, step),
        StepStop::Memory => AttemptStop::Memory,
        StepStop::NotStep => unreachable!(),
    }
}

/// What the turn that is next makes, at the term with an index, and what it leaves of the budget.
fn made(
    alloc: Global,
    book: &Book,
    chain: &State,
    working: &Working,
    index: usize,
    step: Step,
) -> Result<(AfterTurn, u32), AttemptStop>
    requires stands { StandsIn book.now chain.now }
    requires terms { AreEntries book.now.ranking working.now.terms.items }
    requires next { IsNextTurn (setting_of book.now.ranking) (state_in book.now chain.now)
        working.now.terms.items (Some (index, step)) }
    ensures ok { IfOk result (λ x. (t : WorkingTerm)
        → t ≡ slice_index_or working.now.terms.items index t
        → turned_terms (setting_of book.now.ranking) (state_in book.now chain.now)
        (turn_by working.now.terms.items index t step)
        ≡ Ok (x.0.factor.terms, terms_in x.0.terms.items)) }
    ensures factor { IfOk result (λ x.
        IsEntry book.now.ranking x.0.factor) }
    ensures entries { IfOk result (λ x. AreEntries book.now.ranking x.0.terms.items) }
    ensures left { IfOk result (λ x.
        x.1 + 1 + coefficient_terms (terms_in x.0.terms.items) ≡ working.now.left) }
    ensures stopped { IfErr result (λ stop. (t : WorkingTerm)
        → t ≡ slice_index_or working.now.terms.items index t
        → IsTurnFault working.now.left step (turned_terms (setting_of book.now.ranking)
        (state_in book.now chain.now) (turn_by working.now.terms.items index t step)) stop) }
{
    // The facts of all books are known of this one.
    book.opened();
    match turned(alloc, book, chain, &working.terms, index, step) {
        Ok(after) => match left_after(&after.terms, working.left) {
            Some(left) => Ok((after, left)),
            None => Err(AttemptStop::Spent(step)),
        },
        Err(stop) => Err(stop_of(stop, step)),
    }
}

/// One turn: whether there was one, or why it stops here.
fn advance(
    alloc: Global,
    book: &Book,
    chain: &State,
    table: &mut Vec<Option<Divisor>>,
    working: &mut Working,
) -> Result<bool, TurnStop>
    requires stands { StandsIn book.now chain.now }
    requires table { AreDivisors book.now.ranking (state_in book.now chain.now) Free
        table.old.items }
    requires working { AreWorking book.now.ranking working.old }
    ensures table { AreDivisors book.now.ranking (state_in book.now chain.now) Free
        table.new.items }
    ensures working { AreWorking book.now.ranking working.new }
    ensures less { IfOk result (λ taken. taken ≡ true → working.new.left < working.old.left) }
    ensures inside { IfErr result (λ stop. IsInside working.new stop) }
    ensures advance { (budget : ℕ) (f : Polynomial Symbol)
        → IsAt book.now.ranking (state_in book.now chain.now) budget f working.old
        → IsAdvance book.now.ranking (state_in book.now chain.now) budget f working.new result }
{
    let Ok(next) = next_turn(book, chain, table, &working.terms) else {
        return Err(NO_MEMORY);
    };
    let Some((index, step)) = next else {
        return Ok(false);
    };
    match made(alloc, book, chain, working, index, step) {
        Ok((after, left)) => {
            let ranking = book.ranking();
            let Ok(_) = push_factor(alloc, ranking, &mut working.factors, after.factor) else {
                return Err(NO_MEMORY);
            };
            working.terms = after.terms;
            working.left = left;
            Ok(true)
        }
        Err(stop) => Err(TurnStop { index, stop }),
    }
}

/// The identity f = f, with the empty product; without a term where f is zero.
fn begun(alloc: Global, book: &Book, f: Poly, budget: u32) -> Result<Working, AllocError>
    requires { Lives book.now f }
    ensures working { IfOk result (λ w. AreWorking book.now.ranking w) }
    ensures begun { IfOk result (λ w. working_in w ≡ unprepared (polynomial book.now f)) }
    ensures left { IfOk result (λ w. w.left ≡ budget) }
{
    let coefficient = copied(alloc, book.entry(f))?;
    let mut terms = Vec::new(alloc);
    terms.push(WorkingTerm {
        product: Vec::new(alloc),
        coefficient,
    })?;
    leave_out_zeros(&mut terms);
    Ok(Working {
        factors: Vec::new(alloc),
        terms,
        left: budget,
    })
}

/// The turns from where a preparation is, and why they stop, if they do before its end.
fn run_turns(
    alloc: Global,
    book: &Book,
    chain: &State,
    table: Vec<Option<Divisor>>,
    first: Working,
) -> (Working, Option<TurnStop>)
    requires stands { StandsIn book.now chain.now }
    requires table { AreDivisors book.now.ranking (state_in book.now chain.now) Free table.items }
    requires working { AreWorking book.now.ranking first }
    ensures working { AreWorking book.now.ranking result.0 }
    ensures inside { IfSome result.1 (λ stop. IsInside result.0 stop) }
    ensures outcome { (budget : ℕ) (f : Polynomial Symbol)
        → IsAt book.now.ranking (state_in book.now chain.now) budget f first
        → IsOutcome book.now.ranking (state_in book.now chain.now) budget f result.0 result.1 }
{
    let mut table = table;
    let mut working = first;
    'turns: loop {
        match advance(alloc, book, chain, &mut table, &mut working) {
            Ok(true) => {}
            Ok(false) => return (working, None),
            Err(stop) => return (working, Some(stop)),
        }
    }
}

/// All turns of the preparation of `f`, and why they stop, if they do before its end.
fn all_turns(
    alloc: Global,
    book: &Book,
    f: Poly,
    chain: &State,
    budget: u32,
) -> Result<(Working, Option<TurnStop>), AllocError>
    requires stands { StandsIn book.now chain.now }
    requires f { Lives book.now f }
    ensures working { IfOk result (λ x. AreWorking book.now.ranking x.0) }
    ensures inside { IfOk result (λ x. IfSome x.1 (λ stop. IsInside x.0 stop)) }
    ensures outcome { IfOk result (λ x. IsOutcome book.now.ranking (state_in book.now chain.now)
        budget (polynomial book.now f) x.0 x.1) }
{
    let table = divisors_of(book, chain, Role::Free)?;
    let first = begun(alloc, book, f, budget)?;
    Ok(run_turns(alloc, book, chain, table, first))
}

/// The powers of a product.
fn powers(alloc: Global, product: &[(Step, u16)]) -> Result<Vec<Power>, AllocError>
    ensures { IfOk result (λ all. map power_in all.items ≡ product.now) }
{
    let mut all = Vec::with_capacity(alloc, product.len())?;
    for power in product {
        let (step, exponent) = *power;
        all.push(Power {
            place: step.place,
            operator: step.operator,
            exponent,
        })?;
    }
    Ok(all)
}

/// Puts a copy of a polynomial into the book.
fn keep_copy(book: &mut Book, entry: &Entry) -> Result<Poly, AllocError>
    requires { IsEntry book.old.ranking entry.now }
    ensures means { IfOk result (λ p. Means book.new p entry.now.terms) }
    ensures kept { IsKept book.old book.new }
{
    let copy = copied(book.allocator(), entry)?;
    let kept = book.keep(copy)?;
    Ok(kept)
}

/// Puts polynomials into the book.
fn kept_polys(alloc: Global, book: &mut Book, entries: &[Entry]) -> Result<Vec<Poly>, AllocError>
    requires { AreFactors book.old.ranking entries.now }
    ensures means { IfOk result (λ ps. MeanAll book.new ps.items (polynomials_of entries.now)) }
    ensures kept { IsKept book.old book.new }
{
    let mut all = Vec::with_capacity(alloc, entries.len())?;
    'entries: for entry in entries {
        let p = keep_copy(book, entry)?;
        all.push(p)?;
    }
    Ok(all)
}

/// Puts the polynomial of a term into the book.
fn kept_term(alloc: Global, book: &mut Book, term: &WorkingTerm) -> Result<PreparedTerm, AllocError>
    requires { IsEntry book.old.ranking term.now.coefficient }
    ensures live { IfOk result (λ t. Lives book.new t.coefficient) }
    ensures means { IfOk result (λ t. term_in book.new t
        ≡ (term.now.product.items, term.now.coefficient.terms)) }
    ensures kept { IsKept book.old book.new }
{
    let product = powers(alloc, term.product.as_slice())?;
    let coefficient = keep_copy(book, &term.coefficient)?;
    Ok(PreparedTerm {
        product,
        coefficient,
    })
}

/// Puts the polynomials of terms into the book.
fn kept_terms(
    alloc: Global,
    book: &mut Book,
    terms: &[WorkingTerm],
) -> Result<Vec<PreparedTerm>, AllocError>
    requires { AreEntries book.old.ranking terms.now }
    ensures live { IfOk result (λ all. LiveTerms book.new all.items) }
    ensures means { IfOk result (λ all. map (term_in book.new) all.items ≡ terms_in terms.now) }
    ensures kept { IsKept book.old book.new }
{
    let mut all = Vec::with_capacity(alloc, terms.len())?;
    'terms: for term in terms {
        let kept = kept_term(alloc, book, term)?;
        all.push(kept)?;
    }
    Ok(all)
}

/// Puts the polynomials of a preparation into the book.
fn kept(alloc: Global, book: &mut Book, working: &Working) -> Result<Preparation, AllocError>
    requires { AreWorking book.old.ranking working.now }
    ensures live { IfOk result (λ p. LivesPreparation book.new p) }
    ensures means { IfOk result (λ p. prepared_in book.new p ≡ working_in working.now) }
    ensures kept { IsKept book.old book.new }
{
    let factors = kept_polys(alloc, book, &working.factors)?;
    let terms = kept_terms(alloc, book, &working.terms)?;
    Ok(Preparation { factors, terms })
}

/// An attempt for which memory runs out.
fn nothing(alloc: Global) -> PrepareAttempt
    ensures { IsWithoutMemory result }
{
    PrepareAttempt {
        partial: Preparation {
            factors: Vec::new(alloc),
            terms: Vec::new(alloc),
        },
        product: Vec::new(alloc),
        stop: AttemptStop::Memory,
    }
}

/// The attempt that a stop makes of what a preparation has come to, with its polynomials in the
/// book.
fn attempt(
    alloc: Global,
    book: &mut Book,
    working: &Working,
    stop: TurnStop,
) -> Result<PrepareAttempt, AllocError>
    requires working { AreWorking book.old.ranking working.now }
    requires inside { IsInside working.now stop }
    ensures stopped { IfOk result (λ a. (r : RankingValue) (s : Chain) (budget : ℕ)
        (f : Polynomial Symbol) → IsHalt r s budget f working.now stop stop.stop
        → IsStoppedIn (setting_of r) s book.new (preparation (setting_of r) s budget f) a) }
    ensures kept { IsKept book.old book.new }
{
    if let AttemptStop::Memory = stop.stop {
        return Err(AllocError);
    }
    let here = &working.terms[stop.index];
    let product = powers(alloc, here.product.as_slice())?;
    let partial = kept(alloc, book, working)?;
    Ok(PrepareAttempt {
        partial,
        product,
        stop: stop.stop,
    })
}

/// The preparation of `f` by a chain, where what memory ran out for stays in the book.
fn prepared(
    alloc: Global,
    book: &mut Book,
    f: Poly,
    chain: &State,
    budget: u32,
) -> Result<Result<Preparation, PrepareAttempt>, AllocError>
    requires stands { StandsIn book.old chain.now }
    requires f { Lives book.old f }
    ensures answer { IfOk result (λ x. IsPreparationAnswer book.new
        (setting_of book.old.ranking) (state_in book.old chain.now)
        (preparation (setting_of book.old.ranking) (state_in book.old chain.now) budget
        (polynomial book.old f)) x) }
    ensures kept { IsKept book.old book.new }
{
    let (working, stop) = all_turns(alloc, book, f, chain, budget)?;
    match stop {
        None => Ok(Ok(kept(alloc, book, &working)?)),
        Some(stop) => Ok(Err(attempt(alloc, book, &working, stop)?)),
    }
}

#[tactic(auto, using(dz_poly::proofs::Books::kept_itself))]
/// The preparation of `f` by a chain.
///
/// It goes by turns, as long as some coefficient admits a step. A turn takes the first such term,
/// and on its coefficient the step at the greatest derivative at which there is one, with the least
/// place. The coefficient becomes the rest of this reduction; every other coefficient is multiplied
/// by the factor of the reduction, which becomes a factor unless it is 1; the shift is added at the
/// product with one more of the step's derivative; and coefficients that have become zero are
/// dropped. A turn counts 1 and the terms of all coefficients after it. Where it stops, the turns so
/// far have made a partial preparation; where memory runs out, nothing is told.
pub fn prepare(
    alloc: Global,
    book: &mut Book,
    f: Poly,
    chain: &State,
    budget: u32,
) -> Result<Preparation, PrepareAttempt>
    requires stands { StandsIn book.old chain.now }
    requires f { Lives book.old f }
    ensures prepared { IfOk result (λ p. IsPreparationIn book.new
        (preparation (setting_of book.old.ranking) (state_in book.old chain.now) budget
        (polynomial book.old f)) p) }
    ensures stopped { IfErr result (λ a. IsPreparationAttempt
        (setting_of book.old.ranking) (state_in book.old chain.now) book.new
        (preparation (setting_of book.old.ranking) (state_in book.old chain.now) budget
        (polynomial book.old f)) a) }
    ensures holds { IfOk result (λ p. IsPreparation (setting_of book.old.ranking)
        (state_in book.old chain.now) (polynomial book.old f) (prepared_in book.new p)) }
    ensures partial { IfErr result (λ a. a.stop ≢ Memory
        → IsPartialPreparation (setting_of book.old.ranking) (state_in book.old chain.now)
        (polynomial book.old f) (prepared_in book.new a.partial)) }
    ensures derives { IfOk result (λ p.
        PreparationDerivesAlong book.old.ranking.signature.independents p) }
    ensures attempt { IfErr result (λ a.
        PrepareAttemptDerivesAlong book.old.ranking.signature.independents a) }
    ensures kept { IsKept book.old book.new }
    ensures restored { IfErr result (λ a. a.stop ≡ Memory → book.new ≡ book.old) }
{
    // The facts of all books are known of this one: its polynomials are over the ranking.
    book.opened();
    let _ = book.ranking().signature();
    let mark = book.mark();
    match prepared(alloc, book, f, chain, budget) {
        Ok(answer) => answer,
        Err(_) => {
            book.restore(mark);
            Err(nothing(alloc))
        }
    }
}
