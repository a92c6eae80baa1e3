//! The tests of a chain at the values that are given.

ghost use Rattle.std.specs.Prelude.{◌≡◌, ◌≤◌, IfErr, IfOk, Ok, Result, length};
ghost use Rattle.dz_algebra.specs.Parts.{leader};
ghost use Rattle.dz_algebra.specs.Polynomial.{Polynomial};
ghost use Rattle.dz_algebra.specs.Size.{Refusal};
ghost use Rattle.dz_rank.specs.declared.symbols.Symbol.{Symbol};
ghost use Rattle.dz_poly.specs.Books.{IsKept, Lives, polynomial};
ghost use Rattle.dz_monomials.specs.Ranked.{symbols_under};
ghost use Rattle.dz_monomials.specs.Stops.{IsStop};
ghost use Rattle.dz_algebra.specs.Outcome.{told_as};
ghost use Rattle.dz_diff.specs.States.{LiveAll, polynomials};
ghost use Rattle.dz_jet.specs.declared.faults.JetFault.TheVariants as faults;
ghost use Rattle.dz_jet.specs.Jets.{separant_refused, test_all_multipliers, test_equations, test_inequations};
ghost use Rattle.dz_jet.specs.Jets.{test_multipliers, test_part, value_answer, value_in};
ghost use Rattle.dz_jet.specs.Stops.{IsFault};
ghost use Rattle.dz_jet.specs.Tables.{IsTable};

use crate::faults::{At, JetFault, Part};
use crate::folds::evaluate;
use dz_diff::{initial, leader, separant};
use dz_int::Frac;
use dz_poly::{Book, Poly, PolyStop};
use dz_rank::Symbol;
use std::alloc::Global;

/// The value of a polynomial at a place.
fn value_at(book: &Book, p: Poly, at: At, values: &[(Symbol, Frac)]) -> Result<Frac, JetFault>
    requires lives { Lives book.now p }
    requires table { IsTable book.now.ranking values.now }
    ensures { result ≡ value_answer (faults.Wide at)
        (value_in (symbols_under book.now.ranking) values.now) (polynomial book.now p) }
{
    match evaluate(book, p, values) {
        Some(value) => Ok(value),
        None => Err(JetFault::Wide(at)),
    }
}

/// Tests that the equations have value zero.
pub(crate) fn test_equations(
    book: &Book,
    equations: &[Poly],
    values: &[(Symbol, Frac)],
) -> Result<(), JetFault>
    requires live { LiveAll book.now equations.now }
    requires few { length equations.now ≤ 256 }
    requires table { IsTable book.now.ranking values.now }
    ensures { result ≡ test_equations (value_in (symbols_under book.now.ranking) values.now) 1
        (polynomials book.now equations.now) }
{
    for i in 0..equations.len() {
        let place = (i + 1) as u16;
        let value = value_at(book, equations[i], At::Part(Part::Equation(place)), values)?;
        if value.numerator() != 0 {
            return Err(JetFault::OffChain(place, value));
        }
    }
    Ok(())
}

/// The value of a part, which is not zero.
fn test_part(book: &Book, p: Poly, part: Part, values: &[(Symbol, Frac)]) -> Result<Frac, JetFault>
    requires lives { Lives book.now p }
    requires table { IsTable book.now.ranking values.now }
    ensures { result ≡ test_part (value_in (symbols_under book.now.ranking) values.now) part
        (polynomial book.now p) }
{
    let value = value_at(book, p, At::Part(part), values)?;
    if value.numerator() == 0 {
        return Err(JetFault::Vanishes(part));
    }
    Ok(value)
}

/// Tests that the inequations do not have value zero.
pub(crate) fn test_inequations(
    book: &Book,
    inequations: &[Poly],
    values: &[(Symbol, Frac)],
) -> Result<(), JetFault>
    requires live { LiveAll book.now inequations.now }
    requires few { length inequations.now ≤ 256 }
    requires table { IsTable book.now.ranking values.now }
    ensures { result ≡ test_inequations (value_in (symbols_under book.now.ranking) values.now) 1
        (polynomials book.now inequations.now) }
{
    for i in 0..inequations.len() {
        let part = Part::Inequation((i + 1) as u16);
        test_part(book, inequations[i], part, values)?;
    }
    Ok(())
}

/// A refused separant of the equation at a place, as a fault.
fn separant_fault(place: u16, lead: Symbol, stop: PolyStop) -> JetFault
    ensures { (answer : Result (Polynomial Symbol) Refusal) → IsStop stop answer
        → IsFault result (told_as (separant_refused place lead) answer) }
{
    match stop {
        PolyStop::Memory => JetFault::Memory,
        PolyStop::Wide => JetFault::Wide(At::Part(Part::Separant(place))),
        PolyStop::Large(limit) => JetFault::Large(lead, limit),
    }
}

/// Tests that the initial and the separant of an equation do not have value zero; the value of
/// the separant.
fn test_multipliers(
    book: &mut Book,
    p: Poly,
    place: u16,
    values: &[(Symbol, Frac)],
) -> Result<Frac, JetFault>
    requires lives { Lives book.old p }
    requires table { IsTable book.old.ranking values.now }
    ensures value { IfOk result (λ v. test_multipliers (symbols_under book.old.ranking)
        (value_in (symbols_under book.old.ranking) values.now) place (polynomial book.old p)
        (leader (symbols_under book.old.ranking) (polynomial book.old p)) ≡ Ok v) }
    ensures fault { IfErr result (λ e. IsFault e (test_multipliers
        (symbols_under book.old.ranking) (value_in (symbols_under book.old.ranking) values.now)
        place (polynomial book.old p)
        (leader (symbols_under book.old.ranking) (polynomial book.old p)))) }
    ensures kept { IsKept book.old book.new }
{
    let Some(lead) = leader(book, p) else {
        return Ok(Frac::new(1, 1));
    };
    let Ok(initial) = initial(book, p) else {
        return Err(JetFault::Memory);
    };
    test_part(book, initial, Part::Initial(place), values)?;
    match separant(book, p) {
        Ok(separant) => test_part(book, separant, Part::Separant(place), values),
        Err(stop) => Err(separant_fault(place, lead, stop)),
    }
}

/// Tests that the initials and the separants of the equations do not have value zero; the values
/// of the separants.
pub(crate) fn test_all_multipliers(
    alloc: Global,
    book: &mut Book,
    equations: &[Poly],
    values: &[(Symbol, Frac)],
) -> Result<Vec<Frac>, JetFault>
    requires live { LiveAll book.old equations.now }
    requires few { length equations.now ≤ 256 }
    requires table { IsTable book.old.ranking values.now }
    ensures values { IfOk result (λ vs. test_all_multipliers (symbols_under book.old.ranking)
        (value_in (symbols_under book.old.ranking) values.now) 1
        (polynomials book.old equations.now) ≡ Ok vs.items) }
    ensures fault { IfErr result (λ e. IsFault e (test_all_multipliers
        (symbols_under book.old.ranking) (value_in (symbols_under book.old.ranking) values.now) 1
        (polynomials book.old equations.now))) }
    ensures kept { IsKept book.old book.new }
{
    let mut separants = Vec::new(alloc);
    for i in 0..equations.len() {
        let value = test_multipliers(book, equations[i], (i + 1) as u16, values)?;
        separants.push(value)?;
    }
    Ok(separants)
}
