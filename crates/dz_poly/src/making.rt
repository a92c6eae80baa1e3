//! Polynomials of at most one term.

ghost use Rattle.std.specs.Prelude.{◌≤◌, [], unsigned_abs, Ok};
ghost use Rattle.dz_algebra.specs.Amount.{greatest};
ghost use Rattle.dz_algebra.specs.Polynomial.{symbol_polynomial};
ghost use Rattle.dz_poly.specs.Books.{Makes};
ghost use Rattle.dz_monomials.specs.Terms.{constant_polynomial};
ghost use Rattle.dz_rank.specs.Symbols.{BelongsTo, total_order};

use crate::PolyStop;
use crate::book::{Book, Poly};
use dz_rank::Symbol;
use dz_terms::{number, power};

#[tactic(auto, using(crate::proofs::Makings::made, crate::proofs::Makings::stopped, crate::proofs::Makings::no_memory,))]
/// The polynomial zero.
pub fn zero(book: &mut Book) -> Result<Poly, PolyStop>
    ensures { Makes book.old book.new result (Ok []) }
{
    let zero = number(book.allocator(), 0)?;
    Ok(book.keep(zero)?)
}

#[tactic(auto, using(crate::proofs::Makings::made, crate::proofs::Makings::stopped, crate::proofs::Makings::no_memory,))]
/// A number, from `-(2^127 - 1)` to `2^127 - 1`, as a polynomial; 0 is the polynomial zero.
pub fn constant(book: &mut Book, value: i128) -> Result<Poly, PolyStop>
    requires in_range { unsigned_abs value ≤ greatest }
    ensures { Makes book.old book.new result (Ok (constant_polynomial value)) }
{
    let constant = number(book.allocator(), value)?;
    Ok(book.keep(constant)?)
}

#[tactic(auto, using(crate::proofs::Makings::made, crate::proofs::Makings::stopped, crate::proofs::Makings::no_memory,))]
/// A symbol as a polynomial.
pub fn symbol_poly(book: &mut Book, s: Symbol) -> Result<Poly, PolyStop>
    requires belongs { BelongsTo book.old.ranking.signature s }
    requires small { total_order s ≤ 60 }
    ensures { Makes book.old book.new result (Ok (symbol_polynomial s)) }
{
    let symbol = power(book.allocator(), 1, s, 1)?;
    Ok(book.keep(symbol)?)
}
