//! Polynomials with functions put for the dependents.

ghost use Rattle.std.specs.Prelude.{◌≡◌, ◌<◌, length, IfOk};
ghost use Rattle.dz_poly.specs.Books.{Lives, Makes, Means, polynomial, term_at};
ghost use Rattle.dz_rank.specs.Symbols.{BelongsTo};
ghost use Rattle.dz_terms.specs.Answers.{Answers};
ghost use Rattle.dz_terms.specs.Entries.{IsEntry};
ghost use Rattle.dz_monomials.specs.Ranked.{symbols_under};
ghost use Rattle.dz_diff.specs.Operations.{setting_of};
ghost use Rattle.dz_diff.specs.States.{polynomials};
ghost use Rattle.dz_solution.specs.Evaluation.{
  multiplied,
  power_answer,
  powers_answer,
  substitution_answer,
  symbol_answer,
  with_term,
};
ghost use Rattle.dz_solution.specs.Substitution.{AreFunctions, substitution};

use dz_diff::applied;
use dz_poly::{Book, Poly, PolyStop, coefficient_at, power_at, power_count, term_count};
use dz_rank::{Ranking, Symbol};
use dz_terms::{Entry, Sign, number, power, product, sum};
use std::alloc::Global;

#[tactic(auto, using(dz_terms::proofs::Answered::answered, dz_terms::proofs::Answered::stopped, crate::proofs::Steps::factors_end, crate::proofs::Steps::factor_goes_on))]
/// A polynomial multiplied by another so many times.
fn multiplied(
    alloc: Global,
    ranking: &Ranking,
    entry: Entry,
    value: &Entry,
    times: u16,
) -> Result<Entry, PolyStop>
    requires entry { IsEntry ranking.now entry }
    requires value { IsEntry ranking.now value.now }
    ensures { Answers ranking.now result
        (multiplied (symbols_under ranking.now) value.now.terms times entry.terms) }
{
    let mut multiple = entry;
    let mut left = times;
    while left > 0 {
        multiple = product(alloc, ranking, &multiple, value)?;
        left -= 1;
    }
    Ok(multiple)
}

#[tactic(auto, using(dz_terms::proofs::Answered::answered, dz_terms::proofs::Answered::stopped))]
/// What is put for a symbol.
fn put_for(book: &Book, functions: &[Poly], symbol: Symbol) -> Result<Entry, PolyStop>
    requires functions { AreFunctions book.now functions.now }
    requires belongs { BelongsTo book.now.ranking.signature symbol }
    ensures { Answers book.now.ranking result (symbol_answer (setting_of book.now.ranking)
        (polynomials book.now functions.now) symbol) }
{
    match symbol {
        Symbol::Independent(_) => Ok(power(book.allocator(), 1, symbol, 1)?),
        Symbol::Derivative {
            dependent,
            operator,
        } => {
            let function = book.entry(functions[dependent as usize]);
            applied(book.allocator(), book.ranking(), function, operator)
        }
    }
}

#[tactic(auto, using(dz_terms::proofs::Answered::answered, dz_terms::proofs::Answered::stopped, crate::proofs::Steps::goes_on, dz_step::proofs::StepParts::stop_first, crate::proofs::Steps::stops_later))]
/// A polynomial multiplied by what is put for a symbol, as often as the exponent says.
fn times_power(
    book: &Book,
    functions: &[Poly],
    entry: Entry,
    symbol: Symbol,
    exponent: u16,
) -> Result<Entry, PolyStop>
    requires functions { AreFunctions book.now functions.now }
    requires belongs { BelongsTo book.now.ranking.signature symbol }
    requires entry { IsEntry book.now.ranking entry }
    ensures { Answers book.now.ranking result (power_answer (setting_of book.now.ranking)
        (polynomials book.now functions.now) (symbol, exponent) entry.terms) }
{
    let value = put_for(book, functions, symbol)?;
    multiplied(book.allocator(), book.ranking(), entry, &value, exponent)
}

#[tactic(auto, using(dz_terms::proofs::Answered::answered, dz_terms::proofs::Answered::stopped))]
/// A polynomial multiplied so for each symbol of the term at a position.
fn times_powers(
    book: &Book,
    functions: &[Poly],
    p: Poly,
    k: usize,
    entry: Entry,
) -> Result<Entry, PolyStop>
    requires functions { AreFunctions book.now functions.now }
    requires lives { Lives book.now p }
    requires inside { k < length (polynomial book.now p) }
    requires entry { IsEntry book.now.ranking entry }
    ensures { Answers book.now.ranking result (powers_answer (setting_of book.now.ranking)
        (polynomials book.now functions.now) (term_at (polynomial book.now p) k).0 entry.terms) }
{
    // The symbols of a polynomial belong to the signature.
    book.opened();
    let mut multiple = entry;
    for j in 0..power_count(book, p, k) {
        let (symbol, exponent) = power_at(book, p, k, j);
        multiple = times_power(book, functions, multiple, symbol, exponent)?;
    }
    Ok(multiple)
}

#[tactic(auto, using(dz_terms::proofs::Answered::answered, dz_terms::proofs::Answered::stopped))]
/// A sum and the term at a position with the functions put in.
fn with_term(
    book: &Book,
    functions: &[Poly],
    p: Poly,
    k: usize,
    so_far: &Entry,
) -> Result<Entry, PolyStop>
    requires functions { AreFunctions book.now functions.now }
    requires lives { Lives book.now p }
    requires inside { k < length (polynomial book.now p) }
    requires so_far { IsEntry book.now.ranking so_far.now }
    ensures { Answers book.now.ranking result (with_term (setting_of book.now.ranking)
        (polynomials book.now functions.now) (term_at (polynomial book.now p) k)
        so_far.now.terms) }
{
    let coefficient = number(book.allocator(), coefficient_at(book, p, k))?;
    let term = times_powers(book, functions, p, k, coefficient)?;
    let sum = sum(book.allocator(), book.ranking(), so_far, Sign::Plus, &term)?;
    Ok(sum)
}

#[tactic(auto, using(dz_terms::proofs::Answered::answered, dz_terms::proofs::Answered::stopped))]
/// A polynomial with the functions put in.
pub(crate) fn substituted(book: &Book, p: Poly, functions: &[Poly]) -> Result<Entry, PolyStop>
    requires functions { AreFunctions book.now functions.now }
    requires lives { Lives book.now p }
    ensures answer { Answers book.now.ranking result (substitution_answer
        (setting_of book.now.ranking) (polynomials book.now functions.now)
        (polynomial book.now p)) }
    ensures value { IfOk result (λ x. x.terms ≡ substitution book.now.ranking
        (polynomials book.now functions.now) (polynomial book.now p)) }
{
    // The functions are canonical.
    book.opened();
    let mut so_far = number(book.allocator(), 0)?;
    for k in 0..term_count(book, p) {
        so_far = with_term(book, functions, p, k, &so_far)?;
    }
    Ok(so_far)
}

#[tactic(auto, using(dz_poly::proofs::Makings::made, dz_poly::proofs::Makings::stopped, dz_poly::proofs::Makings::no_memory))]
/// The substitution of a polynomial: for each derivative, what its operator makes of the function of
/// its dependent.
///
/// The operations are, term by term, the greatest first: the coefficient times what is put for each
/// symbol, the greatest first, as often as its exponent says; then the sum with what came before.
pub fn value_at(book: &mut Book, p: Poly, functions: &[Poly]) -> Result<Poly, PolyStop>
    requires lives { Lives book.old p }
    requires functions { AreFunctions book.old functions.now }
    ensures answer { Makes book.old book.new result (substitution_answer
        (setting_of book.old.ranking) (polynomials book.old functions.now)
        (polynomial book.old p)) }
    ensures value { IfOk result (λ q. Means book.new q (substitution book.old.ranking
        (polynomials book.old functions.now) (polynomial book.old p))) }
{
    let value = substituted(book, p, functions)?;
    Ok(book.keep(value)?)
}
