//! Whether functions solve a system, or lie on a chain.

ghost use Rattle.std.specs.Prelude.{◌≡◌, ◌⊎◌, ◌↔◌, ◌+◌, ◌≤◌, Err, IfErr, IfOk, IsTrue, Ok, length, true, false};
ghost use Rattle.dz_poly.specs.Books.{Lives, polynomial};
ghost use Rattle.dz_diff.specs.Operations.{setting_of};
ghost use Rattle.dz_diff.specs.States.{LiveAll, StandsIn, polynomials, state_in};
ghost use Rattle.dz_move.specs.Systems.{IsSystemIn, system_in};
ghost use Rattle.dz_solution.specs.Solutions.{AreSolvedBy, member_answer, members_answer, place_of, solution_answer};
ghost use Rattle.dz_solution.specs.Substitution.{AreFunctions};
ghost use Rattle.dz_solution.specs.declared.stops.SolveStop.TheVariants.{Memory};

use crate::evaluating::substituted;
use crate::stops::{Place, SolveStop};
use dz_diff::State;
use dz_move::System;
use dz_poly::{Book, Poly, PolyStop};
use std::alloc::Global;

/// The place of an equation, or of an inequation.
fn place_of(equation: bool, k: u16) -> Place
    ensures { result ≡ place_of equation k }
{
    if equation {
        Place::Equation(k)
    } else {
        Place::Inequation(k)
    }
}

/// Whether the substitution of an equation is zero, or that of an inequation is not.
fn passes(
    book: &Book,
    functions: &[Poly],
    equation: bool,
    k: u16,
    p: Poly,
) -> Result<bool, SolveStop>
    requires functions { AreFunctions book.now functions.now }
    requires lives { Lives book.now p }
    ensures ok { IfOk result (λ b. member_answer (setting_of book.now.ranking)
        (polynomials book.now functions.now) equation k (polynomial book.now p) ≡ Ok b) }
    ensures refused { IfErr result (λ e. (e ≡ Memory) ⊎ (member_answer (setting_of book.now.ranking)
        (polynomials book.now functions.now) equation k (polynomial book.now p) ≡ Err e)) }
{
    let place = place_of(equation, k);
    match substituted(book, p, functions) {
        Ok(value) => Ok(value.is_zero() == equation),
        Err(PolyStop::Memory) => Err(SolveStop::Memory),
        Err(PolyStop::Wide) => Err(SolveStop::Wide(place)),
        Err(PolyStop::Large(limit)) => Err(SolveStop::Large(place, limit)),
    }
}

/// Whether the substitutions of equations are all zero, or those of inequations all not; up to the
/// first of which it is not so.
fn all_pass(
    book: &Book,
    functions: &[Poly],
    equations: bool,
    members: &[Poly],
) -> Result<bool, SolveStop>
    requires functions { AreFunctions book.now functions.now }
    requires live { LiveAll book.now members.now }
    requires few { length members.now ≤ 256 }
    ensures ok { IfOk result (λ b. members_answer (setting_of book.now.ranking)
        (polynomials book.now functions.now) equations 0 (polynomials book.now members.now)
        ≡ Ok b) }
    ensures refused { IfErr result (λ e. (e ≡ Memory) ⊎ (members_answer (setting_of book.now.ranking)
        (polynomials book.now functions.now) equations 0 (polynomials book.now members.now)
        ≡ Err e)) }
{
    for k in 0..members.len() {
        if !passes(book, functions, equations, k as u16 + 1, members[k])? {
            return Ok(false);
        }
    }
    Ok(true)
}

#[tactic(auto, using(crate::proofs::Members::equations_fail, crate::proofs::Members::equations_stop, crate::proofs::Members::equations_pass))]
/// Whether the substitution of every equation is zero and that of no inequation is.
fn solves_members(
    book: &Book,
    equations: &[Poly],
    inequations: &[Poly],
    functions: &[Poly],
) -> Result<bool, SolveStop>
    requires equations_live { LiveAll book.now equations.now }
    requires inequations_live { LiveAll book.now inequations.now }
    requires few { length equations.now + length inequations.now ≤ 256 }
    requires functions { AreFunctions book.now functions.now }
    ensures ok { IfOk result (λ b. solution_answer (setting_of book.now.ranking)
        (polynomials book.now functions.now) (polynomials book.now equations.now)
        (polynomials book.now inequations.now) ≡ Ok b) }
    ensures refused { IfErr result (λ e. (e ≡ Memory) ⊎ (solution_answer
        (setting_of book.now.ranking) (polynomials book.now functions.now)
        (polynomials book.now equations.now) (polynomials book.now inequations.now) ≡ Err e)) }
    ensures meaning { IfOk result (λ b. IsTrue b ↔ AreSolvedBy book.now.ranking
        (polynomials book.now functions.now) (polynomials book.now equations.now)
        (polynomials book.now inequations.now)) }
{
    // The functions are canonical.
    book.opened();
    if !all_pass(book, functions, true, equations)? {
        return Ok(false);
    }
    let solved = all_pass(book, functions, false, inequations)?;
    Ok(solved)
}

/// Whether functions solve a system: whether the substitution of every equation is zero and that of
/// no inequation is. The members are looked at in order, the equations first, up to the first that
/// decides.
pub fn solves(
    alloc: Global,
    book: &mut Book,
    system: &System,
    functions: &[Poly],
) -> Result<bool, SolveStop>
    requires system { IsSystemIn book.old system.now }
    requires functions { AreFunctions book.old functions.now }
    ensures ok { IfOk result (λ b. solution_answer (setting_of book.old.ranking)
        (polynomials book.old functions.now) (system_in book.old system.now).equations
        (system_in book.old system.now).inequations ≡ Ok b) }
    ensures refused { IfErr result (λ e. (e ≡ Memory) ⊎ (solution_answer
        (setting_of book.old.ranking) (polynomials book.old functions.now)
        (system_in book.old system.now).equations (system_in book.old system.now).inequations
        ≡ Err e)) }
    ensures meaning { IfOk result (λ b. IsTrue b ↔ AreSolvedBy book.old.ranking
        (polynomials book.old functions.now) (system_in book.old system.now).equations
        (system_in book.old system.now).inequations) }
    ensures book { book.new ≡ book.old }
{
    // Values are made with the book's allocator, and none is kept.
    let _ = alloc;
    solves_members(book, system.equations(), system.inequations(), functions)
}

/// Whether functions lie on a chain: whether they solve its equations and inequations.
pub fn lies_on(
    alloc: Global,
    book: &mut Book,
    chain: &State,
    functions: &[Poly],
) -> Result<bool, SolveStop>
    requires chain { StandsIn book.old chain.now }
    requires functions { AreFunctions book.old functions.now }
    ensures ok { IfOk result (λ b. solution_answer (setting_of book.old.ranking)
        (polynomials book.old functions.now) (state_in book.old chain.now).equations
        (state_in book.old chain.now).inequations ≡ Ok b) }
    ensures refused { IfErr result (λ e. (e ≡ Memory) ⊎ (solution_answer
        (setting_of book.old.ranking) (polynomials book.old functions.now)
        (state_in book.old chain.now).equations (state_in book.old chain.now).inequations
        ≡ Err e)) }
    ensures meaning { IfOk result (λ b. IsTrue b ↔ AreSolvedBy book.old.ranking
        (polynomials book.old functions.now) (state_in book.old chain.now).equations
        (state_in book.old chain.now).inequations) }
    ensures book { book.new ≡ book.old }
{
    // Values are made with the book's allocator, and none is kept.
    let _ = alloc;
    solves_members(book, chain.equations(), chain.inequations(), functions)
}
