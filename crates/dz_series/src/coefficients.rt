//! The coefficients of series.

ghost use Rattle.std.specs.Prelude.{◌≡◌, IfErr, IfOk, OnOk, Ok, Some, map};
ghost use Rattle.dz_rank.specs.declared.rankings.Signature.{Signature};
ghost use Rattle.dz_syntax.specs.Names.{Declared};
ghost use Rattle.dz_series.specs.Series.{by_factorial, by_factorials, coefficient_answer, series_answer};
ghost use Rattle.dz_series.specs.SeriesStops.{IsStopOf};
ghost use Rattle.dz_series.specs.Writing.{lines_text};

use crate::faults::SeriesFault;
use dz_int::Frac;
use dz_rank::{Operator, Symbol};
use std::alloc::Global;

/// `x` divided by 1, 2 and so on up to `k`, in turn, where each quotient fits.
fn divide_by_factorial(x: Frac, k: u8) -> Option<Frac>
    ensures { result ≡ by_factorial k x }
{
    // A fraction is in lowest terms.
    let _ = x.numerator();
    let mut quotient = x;
    for i in 0..k {
        let divisor = Frac::new(i128::from(i + 1), 1);
        let _ = (quotient.numerator(), divisor.numerator());
        quotient = quotient.div(divisor)?;
    }
    Some(quotient)
}

/// `x` divided by the factorials of an operator's exponents, where each quotient fits.
fn divide_by_factorials(x: Frac, operator: Operator) -> Option<Frac>
    ensures { result ≡ by_factorials operator.counts x }
{
    let [i, j, k, l] = operator.counts;
    let x = divide_by_factorial(x, i)?;
    let x = divide_by_factorial(x, j)?;
    let x = divide_by_factorial(x, k)?;
    divide_by_factorial(x, l)
}

/// The coefficient of a symbol with its value, where it fits.
fn coefficient(symbol: Symbol, value: Frac) -> Option<Frac>
    ensures { result ≡ coefficient_answer (symbol, value) }
{
    match symbol {
        Symbol::Independent(_) => Some(value),
        Symbol::Derivative { operator, .. } => divide_by_factorials(value, operator),
    }
}

/// The coefficients of symbols with their values, where all fit.
pub(crate) fn coefficients(
    alloc: Global,
    values: &[(Symbol, Frac)],
) -> Result<Vec<Frac>, SeriesFault>
    ensures coefficients { IfOk result (λ cs. map coefficient_answer values.now
        ≡ map Some cs.items) }
    ensures lines { (names : Declared) (g : Signature)
        → OnOk result (series_answer names g values.now ≡ Ok (lines_text names g values.now)) }
    ensures fault { (names : Declared) (g : Signature)
        → IfErr result (λ e. IsStopOf e (series_answer names g values.now)) }
{
    let mut made = Vec::new(alloc);
    for k in 0..values.len() {
        let (symbol, value) = values[k];
        let Some(coefficient) = coefficient(symbol, value) else {
            return Err(SeriesFault::Wide(symbol));
        };
        made.push(coefficient)?;
    }
    Ok(made)
}
