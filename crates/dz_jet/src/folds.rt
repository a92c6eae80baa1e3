//! Values of polynomials, as folds of fractions.

ghost use Rattle.std.specs.Prelude.{◌≡◌, ◌<◌, length, pos};
ghost use Rattle.dz_algebra.specs.Parts.{coefficient_of};
ghost use Rattle.dz_poly.specs.Books.{Lives, polynomial, term_at};
ghost use Rattle.dz_rank.specs.Rankings.{ranking_cmp};
ghost use Rattle.dz_monomials.specs.Ranked.{symbols_under};
ghost use Rattle.dz_jet.specs.Fractions.{whole};
ghost use Rattle.dz_jet.specs.Jets.{multiplied, term_value, value_from, value_in};
ghost use Rattle.dz_jet.specs.Tables.{IsTable, with_term};

use crate::tables::value_of;
use dz_int::Frac;
use dz_poly::{Book, Poly, coefficient_at, exponent_at, power_at, power_count, term_count};
use dz_rank::Symbol;

/// `x` multiplied by `v` as often as `k` says, where each product fits.
pub(crate) fn multiply_often(x: Frac, v: Frac, k: u16) -> Option<Frac>
    ensures { result ≡ multiplied k v x }
{
    // A fraction is in lowest terms.
    let _ = (x.numerator(), v.numerator());
    let mut product = x;
    let mut left = k;
    while left > 0 {
        product = product.mul(v)?;
        left -= 1;
    }
    Some(product)
}

/// `x` multiplied by the values of the symbols of a term, as often as their exponents say, where
/// each product fits.
fn multiply_by_powers(
    book: &Book,
    p: Poly,
    k: usize,
    values: &[(Symbol, Frac)],
    x: Frac,
) -> Option<Frac>
    requires lives { Lives book.now p }
    requires inside { k < length (polynomial book.now p) }
    requires table { IsTable book.now.ranking values.now }
    ensures { result ≡ term_value (value_in (symbols_under book.now.ranking) values.now)
        (term_at (polynomial book.now p) k).0 x }
{
    let mut product = x;
    for j in 0..power_count(book, p, k) {
        let (symbol, exponent) = power_at(book, p, k, j);
        let value = value_of(book.ranking(), values, symbol);
        product = multiply_often(product, value, exponent)?;
    }
    Some(product)
}

/// A sum and the value of the term at a position, where each product and the sum fit.
fn add_term(book: &Book, p: Poly, k: usize, values: &[(Symbol, Frac)], sum: Frac) -> Option<Frac>
    requires lives { Lives book.now p }
    requires inside { k < length (polynomial book.now p) }
    requires table { IsTable book.now.ranking values.now }
    ensures { result ≡ with_term (value_in (symbols_under book.now.ranking) values.now)
        (term_at (polynomial book.now p) k) sum }
{
    let coefficient = Frac::new(coefficient_at(book, p, k), 1);
    let term = multiply_by_powers(book, p, k, values, coefficient)?;
    // Both are in lowest terms.
    let _ = (sum.numerator(), term.numerator());
    sum.add(term)
}

/// The value of a polynomial at a table, where each product and each sum fits.
pub(crate) fn evaluate(book: &Book, p: Poly, values: &[(Symbol, Frac)]) -> Option<Frac>
    requires lives { Lives book.now p }
    requires table { IsTable book.now.ranking values.now }
    ensures { result ≡ value_from (value_in (symbols_under book.now.ranking) values.now)
        (polynomial book.now p) (whole (pos 0)) }
{
    let mut sum = Frac::new(0, 1);
    for k in 0..term_count(book, p) {
        sum = add_term(book, p, k, values, sum)?;
    }
    Some(sum)
}

/// The value of the terms of a polynomial without a symbol.
pub(crate) fn evaluate_without(
    book: &Book,
    p: Poly,
    w: Symbol,
    values: &[(Symbol, Frac)],
) -> Option<Frac>
    requires lives { Lives book.now p }
    requires table { IsTable book.now.ranking values.now }
    ensures { result ≡ value_from (value_in (symbols_under book.now.ranking) values.now)
        (coefficient_of (ranking_cmp book.now.ranking) w 0 (polynomial book.now p))
        (whole (pos 0)) }
{
    let mut sum = Frac::new(0, 1);
    for k in 0..term_count(book, p) {
        if exponent_at(book, p, k, w) == 0 {
            sum = add_term(book, p, k, values, sum)?;
        }
    }
    Some(sum)
}
