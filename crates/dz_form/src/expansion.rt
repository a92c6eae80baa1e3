//! The value of an item.
//!
//! The values that are not used yet stand on a stack, the latest last: what a step uses is taken
//! from it, and what it makes comes on top. The book is touched once, when the value is kept.

ghost use Rattle.std.specs.Prelude.{◌≡◌, ◌<◌, ◌∷◌, ◌++◌, [], length, Ok, IfOk, IfErr, OnOk};
ghost use Rattle.dz_algebra.specs.Size.{operation};
ghost use Rattle.dz_poly.specs.Books.{Makes};
ghost use Rattle.dz_rank.specs.Rankings.{RankingValue};
ghost use Rattle.dz_syntax.specs.Postfix.{IsExpression, IsStep};
ghost use Rattle.dz_syntax.specs.declared.expression.Op.TheVariants as ops;
ghost use Rattle.dz_terms.specs.Answers.{Answers};
ghost use Rattle.dz_terms.specs.Entries.{IsEntry};
ghost use Rattle.dz_monomials.specs.Ranked.{symbols_under};
ghost use Rattle.dz_monomials.specs.Signs.{with_sign};
ghost use Rattle.dz_monomials.specs.Stops.{IsStop};
ghost use Rattle.dz_form.specs.Values.{AreEntries, HasValues, item_answer, power_answer};
ghost use Rattle.dz_form.specs.Values.{step_answer, times, values_of};

use dz_poly::{Book, Poly, PolyStop};
use dz_rank::Ranking;
use dz_syntax::{Item, Op};
use dz_terms::{Entry, Sign, copied, negative, number, power, product, sum, sum_in_place};
use std::alloc::Global;

#[tactic(auto, using(crate::proofs::Stacks::values_more, crate::proofs::Stacks::entry_taken, crate::proofs::Stacks::entries_left))]
/// Takes the latest value from the stack.
fn take_latest(values: &mut Vec<Entry>) -> Entry
    requires { 0 < length values.old.items }
    ensures items { values.old.items ≡ values.new.items ++ result ∷ [] }
    ensures value { values_of values.old.items
        ≡ result.terms ∷ values_of values.new.items }
    ensures entry { (r : RankingValue) → AreEntries r values.old.items
        → IsEntry r result }
    ensures entries { (r : RankingValue) → AreEntries r values.old.items
        → AreEntries r values.new.items }
{
    match values.pop() {
        Some(value) => value,
        None => unreachable!(),
    }
}

/// Takes the latest value; nothing is copied to make its negative.
fn negate_latest(values: &mut Vec<Entry>) -> Entry
    requires { 0 < length values.old.items }
    ensures made { (r : RankingValue) → step_answer (symbols_under r) ops.Negate
        (values_of values.old.items) ≡ Ok (result.terms ∷ values_of values.new.items) }
    ensures entry { (r : RankingValue) → AreEntries r values.old.items
        → IsEntry r result }
    ensures entries { (r : RankingValue) → AreEntries r values.old.items
        → AreEntries r values.new.items }
{
    negative(take_latest(values))
}

#[tactic(auto, using(dz_terms::proofs::Answered::answered, dz_terms::proofs::Answered::stopped))]
/// The sum of two polynomials, the second taken with a sign. A term more is put into the first in
/// place, so that a long sum is not copied at each of its terms.
fn summed(
    alloc: Global,
    ranking: &Ranking,
    first: Entry,
    sign: Sign,
    second: Entry,
) -> Result<Entry, PolyStop>
    requires first { IsEntry ranking.now first }
    requires second { IsEntry ranking.now second }
    ensures { Answers ranking.now result
        (operation (symbols_under ranking.now) (first.terms ++ with_sign sign second.terms)) }
{
    if second.term_count() == 1 {
        return sum_in_place(alloc, ranking, first, sign, second);
    }
    sum(alloc, ranking, &first, sign, &second)
}

/// Takes the two latest values, and makes their sum.
fn add_latest(alloc: Global, ranking: &Ranking, values: &mut Vec<Entry>) -> Result<Entry, PolyStop>
    requires enough { 1 < length values.old.items }
    requires entries { AreEntries ranking.now values.old.items }
    ensures made { IfOk result (λ e. step_answer (symbols_under ranking.now) ops.Add
        (values_of values.old.items) ≡ Ok (e.terms ∷ values_of values.new.items)) }
    ensures entry { IfOk result (λ e. IsEntry ranking.now e) }
    ensures entries { AreEntries ranking.now values.new.items }
    ensures refused { IfErr result (λ stop. IsStop stop
        (step_answer (symbols_under ranking.now) ops.Add (values_of values.old.items))) }
{
    let second = take_latest(values);
    let first = take_latest(values);
    let sum = summed(alloc, ranking, first, Sign::Plus, second)?;
    Ok(sum)
}

#[tactic(auto, using(crate::proofs::Stacks::difference_made, crate::proofs::Stacks::difference_refused))]
/// Takes the two latest values, and makes the first less the second.
fn subtract_latest(
    alloc: Global,
    ranking: &Ranking,
    values: &mut Vec<Entry>,
) -> Result<Entry, PolyStop>
    requires enough { 1 < length values.old.items }
    requires entries { AreEntries ranking.now values.old.items }
    ensures made { IfOk result (λ e. step_answer (symbols_under ranking.now) ops.Sub
        (values_of values.old.items) ≡ Ok (e.terms ∷ values_of values.new.items)) }
    ensures entry { IfOk result (λ e. IsEntry ranking.now e) }
    ensures entries { AreEntries ranking.now values.new.items }
    ensures refused { IfErr result (λ stop. IsStop stop
        (step_answer (symbols_under ranking.now) ops.Sub (values_of values.old.items))) }
{
    let second = take_latest(values);
    let first = take_latest(values);
    let difference = summed(alloc, ranking, first, Sign::Minus, second)?;
    Ok(difference)
}

#[tactic(auto, using(crate::proofs::Stacks::product_made, crate::proofs::Stacks::product_refused))]
/// Takes the two latest values, and makes their product.
fn multiply_latest(
    alloc: Global,
    ranking: &Ranking,
    values: &mut Vec<Entry>,
) -> Result<Entry, PolyStop>
    requires enough { 1 < length values.old.items }
    requires entries { AreEntries ranking.now values.old.items }
    ensures made { IfOk result (λ e. step_answer (symbols_under ranking.now) ops.Mul
        (values_of values.old.items) ≡ Ok (e.terms ∷ values_of values.new.items)) }
    ensures entry { IfOk result (λ e. IsEntry ranking.now e) }
    ensures entries { AreEntries ranking.now values.new.items }
    ensures refused { IfErr result (λ stop. IsStop stop
        (step_answer (symbols_under ranking.now) ops.Mul (values_of values.old.items))) }
{
    let second = take_latest(values);
    let first = take_latest(values);
    let product = product(alloc, ranking, &first, &second)?;
    Ok(product)
}

#[tactic(auto, using(dz_terms::proofs::Answered::answered, dz_terms::proofs::Answered::stopped, crate::proofs::Times::times_more, crate::proofs::Times::times_done, crate::proofs::Times::times_refused))]
/// A polynomial times itself, so often, from left to right.
fn times(alloc: Global, ranking: &Ranking, base: &Entry, count: u16) -> Result<Entry, PolyStop>
    requires { IsEntry ranking.now base.now }
    ensures { Answers ranking.now result
        (times (symbols_under ranking.now) base.now.terms count base.now.terms) }
{
    let mut all = copied(alloc, base)?;
    'factors: for _ in 0..count {
        all = product(alloc, ranking, &all, base)?;
    }
    Ok(all)
}

#[tactic(auto, using(dz_terms::proofs::Answered::answered, dz_terms::proofs::Answered::stopped, crate::proofs::Times::power_is, crate::proofs::Times::one_power))]
/// The power of a polynomial.
fn raised(alloc: Global, ranking: &Ranking, base: &Entry, exponent: u16) -> Result<Entry, PolyStop>
    requires { IsEntry ranking.now base.now }
    ensures { Answers ranking.now result
        (power_answer (symbols_under ranking.now) base.now.terms exponent) }
{
    if exponent == 0 {
        let one = number(alloc, 1)?;
        return Ok(one);
    }
    let power = times(alloc, ranking, base, exponent - 1)?;
    Ok(power)
}

#[tactic(auto, using(crate::proofs::Stacks::power_made, crate::proofs::Stacks::power_refused))]
/// Takes the latest value, and makes its power.
fn raise_latest(
    alloc: Global,
    ranking: &Ranking,
    values: &mut Vec<Entry>,
    exponent: u16,
) -> Result<Entry, PolyStop>
    requires enough { 0 < length values.old.items }
    requires entries { AreEntries ranking.now values.old.items }
    ensures made { IfOk result (λ e. step_answer (symbols_under ranking.now) (ops.Power exponent)
        (values_of values.old.items) ≡ Ok (e.terms ∷ values_of values.new.items)) }
    ensures entry { IfOk result (λ e. IsEntry ranking.now e) }
    ensures entries { AreEntries ranking.now values.new.items }
    ensures refused { IfErr result (λ stop. IsStop stop (step_answer (symbols_under ranking.now)
        (ops.Power exponent) (values_of values.old.items))) }
{
    let base = take_latest(values);
    let power = raised(alloc, ranking, &base, exponent)?;
    Ok(power)
}

/// What a step makes of the latest values, which are taken.
fn made(
    alloc: Global,
    ranking: &Ranking,
    values: &mut Vec<Entry>,
    op: Op,
) -> Result<Entry, PolyStop>
    requires fits { IsStep ranking.now.signature op }
    requires enough { HasValues op (length values.old.items) }
    requires entries { AreEntries ranking.now values.old.items }
    ensures made { IfOk result (λ e. step_answer (symbols_under ranking.now) op
        (values_of values.old.items) ≡ Ok (e.terms ∷ values_of values.new.items)) }
    ensures entry { IfOk result (λ e. IsEntry ranking.now e) }
    ensures entries { AreEntries ranking.now values.new.items }
    ensures refused { IfErr result (λ stop. IsStop stop
        (step_answer (symbols_under ranking.now) op (values_of values.old.items))) }
{
    match op {
        Op::Number(value) => {
            let constant = number(alloc, value)?;
            Ok(constant)
        }
        Op::Symbol(symbol) => {
            let variable = power(alloc, 1, symbol, 1)?;
            Ok(variable)
        }
        Op::Negate => Ok(negate_latest(values)),
        Op::Power(exponent) => raise_latest(alloc, ranking, values, exponent),
        Op::Add => add_latest(alloc, ranking, values),
        Op::Sub => subtract_latest(alloc, ranking, values),
        Op::Mul => multiply_latest(alloc, ranking, values),
    }
}

#[tactic(auto, using(crate::proofs::Stacks::values_more, crate::proofs::Stacks::entries_more))]
/// Does one step.
fn step(alloc: Global, ranking: &Ranking, values: &mut Vec<Entry>, op: Op) -> Result<(), PolyStop>
    requires fits { IsStep ranking.now.signature op }
    requires enough { HasValues op (length values.old.items) }
    requires entries { AreEntries ranking.now values.old.items }
    ensures made { OnOk result (step_answer (symbols_under ranking.now) op
        (values_of values.old.items) ≡ Ok (values_of values.new.items)) }
    ensures entries { OnOk result (AreEntries ranking.now values.new.items) }
    ensures refused { IfErr result (λ stop. IsStop stop
        (step_answer (symbols_under ranking.now) op (values_of values.old.items))) }
{
    let value = made(alloc, ranking, values, op)?;
    values.push(value)?;
    Ok(())
}

#[tactic(auto, using(dz_terms::proofs::Answered::answered, dz_terms::proofs::Answered::stopped))]
/// The value of an item as an entry.
fn value_of(alloc: Global, ranking: &Ranking, item: &Item) -> Result<Entry, PolyStop>
    requires { IsExpression ranking.now.signature item.now }
    ensures { Answers ranking.now result (item_answer (symbols_under ranking.now) item.now) }
{
    let mut values = Vec::new(alloc);
    'steps: for op in item.steps() {
        step(alloc, ranking, &mut values, *op)?;
    }
    Ok(take_latest(&mut values))
}

#[tactic(auto, using(dz_poly::proofs::Makings::made, dz_poly::proofs::Makings::stopped, dz_poly::proofs::Makings::no_memory,))]
/// The value of an item, or the refusal of the first of its operations that is refused.
pub fn expand(alloc: Global, book: &mut Book, item: &Item) -> Result<Poly, PolyStop>
    requires { IsExpression book.old.ranking.signature item.now }
    ensures { Makes book.old book.new result (item_answer (symbols_under book.old.ranking) item.now) }
{
    let value = value_of(alloc, book.ranking(), item)?;
    Ok(book.keep(value)?)
}
