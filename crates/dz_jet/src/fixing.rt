//! The values of a jet.

ghost use Rattle.std.specs.Prelude.{◌≡◌, ◌≢◌, ◌++◌, ◌∷◌, [], All, IfErr, IfOk, OnOk, Ok, Result, pos};
ghost use Rattle.dz_algebra.specs.Size.{Refusal};
ghost use Rattle.dz_algebra.specs.Polynomial.{Polynomial};
ghost use Rattle.dz_poly.specs.Books.{IsKept, Lives, polynomial};
ghost use Rattle.dz_rank.specs.Symbols.{BelongsTo};
ghost use Rattle.dz_rank.specs.declared.symbols.Symbol.{Symbol};
ghost use Rattle.dz_monomials.specs.Ranked.{symbols_under};
ghost use Rattle.dz_monomials.specs.Stops.{IsStop};
ghost use Rattle.dz_diff.specs.Operations.{setting_of};
ghost use Rattle.dz_algebra.specs.Outcome.{told_as};
ghost use Rattle.dz_diff.specs.States.{LiveAll, StandsIn, polynomials, state_in};
ghost use Rattle.dz_jet.specs.Fixing.{AreSeparants, solution};
ghost use Rattle.dz_jet.specs.Jets.{leading_to, refused_at, value_in, with_value, with_values};
ghost use Rattle.dz_jet.specs.Making.{IsMade};
ghost use Rattle.dz_jet.specs.Stops.{IsFault};
ghost use Rattle.dz_jet.specs.Tables.{IsBegun, IsTable};

use crate::derivatives::{Made, derivative};
use crate::faults::{At, JetFault};
use crate::folds::evaluate_without;
use crate::leading::leading_to;
use crate::tables::value_of;
use dz_diff::State;
use dz_int::Frac;
use dz_poly::{Book, Poly, PolyStop};
use dz_rank::Symbol;
use std::alloc::Global;

/// A refused derivative that fixes a symbol, as a fault.
fn derivative_fault(w: Symbol, stop: PolyStop) -> JetFault
    ensures { (answer : Result (Polynomial Symbol) Refusal) → IsStop stop answer
        → IsFault result (told_as (refused_at w) answer) }
{
    match stop {
        PolyStop::Memory => JetFault::Memory,
        PolyStop::Wide => JetFault::Wide(At::Derivative(w)),
        PolyStop::Large(limit) => JetFault::Large(w, limit),
    }
}

/// The value -r/s of a symbol: s is the separant's, r that of a derivative's terms without the
/// symbol.
fn solution(
    book: &Book,
    p: Poly,
    w: Symbol,
    values: &[(Symbol, Frac)],
    separant: Frac,
) -> Result<Frac, JetFault>
    requires lives { Lives book.now p }
    requires table { IsTable book.now.ranking values.now }
    requires nonzero { separant.numerator ≢ pos 0 }
    ensures { result ≡ solution (symbols_under book.now.ranking) values.now w separant
        (polynomial book.now p) }
{
    let wide = JetFault::Wide(At::Derivative(w));
    let Some(rest) = evaluate_without(book, p, w, values) else {
        return Err(wide);
    };
    // Both are in lowest terms.
    let _ = (rest.numerator(), separant.numerator());
    match rest.negative().div(separant) {
        Some(value) => Ok(value),
        None => Err(wide),
    }
}

/// The value of the next symbol of a jet, which is given or fixed by an equation.
fn next_value(
    book: &mut Book,
    equations: &[Poly],
    known: &[(Symbol, Frac)],
    separants: &[Frac],
    values: &[(Symbol, Frac)],
    made: &mut Vec<Made>,
    w: Symbol,
) -> Result<Frac, JetFault>
    requires live { LiveAll book.old equations.now }
    requires known { IsTable book.old.ranking known.now }
    requires separants { AreSeparants (symbols_under book.old.ranking)
        (value_in (symbols_under book.old.ranking) known.now)
        (polynomials book.old equations.now) separants.now }
    requires table { IsTable book.old.ranking values.now }
    requires made { All (IsMade book.old equations.now) made.old.items }
    requires belongs { BelongsTo book.old.ranking.signature w }
    ensures value { IfOk result (λ v. with_value (setting_of book.old.ranking)
        (value_in (symbols_under book.old.ranking) known.now) values.now w
        (leading_to (symbols_under book.old.ranking) w 1 (polynomials book.old equations.now))
        ≡ Ok (values.now ++ (w, v) ∷ [])) }
    ensures fault { IfErr result (λ e. IsFault e (with_value (setting_of book.old.ranking)
        (value_in (symbols_under book.old.ranking) known.now) values.now w
        (leading_to (symbols_under book.old.ranking) w 1
        (polynomials book.old equations.now)))) }
    ensures made { OnOk result (All (IsMade book.new equations.now) made.new.items) }
    ensures kept { IsKept book.old book.new }
{
    // The leaders belong to the signature.
    book.opened();
    let Some(fixing) = leading_to(book, equations, w) else {
        return Ok(value_of(book.ranking(), known, w));
    };
    let derivative = match derivative(book, equations, made.as_slice(), w, fixing) {
        Ok(derivative) => derivative,
        Err(stop) => return Err(derivative_fault(w, stop)),
    };
    made.push(Made {
        symbol: w,
        index: fixing.index,
        operator: fixing.operator,
        derivative,
    })?;
    solution(book, derivative, w, values, separants[fixing.index])
}

/// Adds the values of symbols to those of a jet.
pub(crate) fn add_values(
    book: &mut Book,
    chain: &State,
    known: &[(Symbol, Frac)],
    separants: &[Frac],
    values: &mut Vec<(Symbol, Frac)>,
    symbols: &[Symbol],
) -> Result<(), JetFault>
    requires stands { StandsIn book.old chain.now }
    requires known { IsTable book.old.ranking known.now }
    requires separants { AreSeparants (symbols_under book.old.ranking)
        (value_in (symbols_under book.old.ranking) known.now)
        (state_in book.old chain.now).equations separants.now }
    requires begun { IsBegun book.old.ranking values.old.items symbols.now }
    requires belong { All (BelongsTo book.old.ranking.signature) symbols.now }
    ensures values { OnOk result (with_values (setting_of book.old.ranking)
        (state_in book.old chain.now) (value_in (symbols_under book.old.ranking) known.now)
        values.old.items symbols.now ≡ Ok values.new.items) }
    ensures fault { IfErr result (λ e. IsFault e (with_values (setting_of book.old.ranking)
        (state_in book.old chain.now) (value_in (symbols_under book.old.ranking) known.now)
        values.old.items symbols.now)) }
    ensures kept { IsKept book.old book.new }
{
    let mut made = Vec::new(book.allocator());
    for k in 0..symbols.len() {
        let w = symbols[k];
        let equations = chain.equations();
        let value = next_value(
            book,
            equations,
            known,
            separants,
            values.as_slice(),
            &mut made,
            w,
        )?;
        values.push((w, value))?;
    }
    Ok(())
}
