//! The operations on polynomials of a book.

ghost use Rattle.std.specs.Prelude.{◌≢◌, ◌≤◌, ◌++◌, pos, unsigned_abs};
ghost use Rattle.dz_algebra.specs.Amount.{greatest};
ghost use Rattle.dz_algebra.specs.Size.{operation, sum_answer, difference_answer, product_answer};
ghost use Rattle.dz_poly.specs.Books.{Lives, Makes, polynomial};
ghost use Rattle.dz_monomials.specs.Ranked.{symbols_under};
ghost use Rattle.dz_monomials.specs.Signs.{with_sign};
ghost use Rattle.dz_monomials.specs.Terms.{power_term};
ghost use Rattle.dz_rank.specs.Symbols.{BelongsTo};

use crate::PolyStop;
use crate::book::{Book, Poly};
use crate::making::zero;
use dz_rank::Symbol;
use dz_terms::{Sign, factor, product, sum};

#[tactic(auto, using(crate::proofs::Makings::made, crate::proofs::Makings::stopped, crate::proofs::Makings::no_memory,))]
/// The sum of two polynomials, the second taken with a sign.
fn keep_sum(book: &mut Book, a: Poly, sign: Sign, b: Poly) -> Result<Poly, PolyStop>
    requires first { Lives book.old a }
    requires second { Lives book.old b }
    ensures { Makes book.old book.new result (operation (symbols_under book.old.ranking)
        (polynomial book.old a ++ with_sign sign (polynomial book.old b))) }
{
    let sum = sum(
        book.allocator(),
        book.ranking(),
        book.entry(a),
        sign,
        book.entry(b),
    )?;
    Ok(book.keep(sum)?)
}

#[tactic(auto, using(crate::proofs::Makings::made, crate::proofs::Makings::stopped, crate::proofs::Makings::no_memory, dz_monomials::proofs::Summing::plus_same))]
/// The sum.
pub fn add(book: &mut Book, a: Poly, b: Poly) -> Result<Poly, PolyStop>
    requires first { Lives book.old a }
    requires second { Lives book.old b }
    ensures { Makes book.old book.new result (sum_answer (symbols_under book.old.ranking)
        (polynomial book.old a) (polynomial book.old b)) }
{
    keep_sum(book, a, Sign::Plus, b)
}

#[tactic(auto, using(crate::proofs::Makings::made, crate::proofs::Makings::stopped, crate::proofs::Makings::no_memory, dz_monomials::proofs::Summing::minus_negates))]
/// The difference.
pub fn sub(book: &mut Book, a: Poly, b: Poly) -> Result<Poly, PolyStop>
    requires first { Lives book.old a }
    requires second { Lives book.old b }
    ensures { Makes book.old book.new result (difference_answer (symbols_under book.old.ranking)
        (polynomial book.old a) (polynomial book.old b)) }
{
    keep_sum(book, a, Sign::Minus, b)
}

#[tactic(auto, using(crate::proofs::Makings::made, crate::proofs::Makings::stopped, crate::proofs::Makings::no_memory,))]
/// The product.
pub fn mul(book: &mut Book, a: Poly, b: Poly) -> Result<Poly, PolyStop>
    requires first { Lives book.old a }
    requires second { Lives book.old b }
    ensures { Makes book.old book.new result (product_answer (symbols_under book.old.ranking)
        (polynomial book.old a) (polynomial book.old b)) }
{
    let product = product(
        book.allocator(),
        book.ranking(),
        book.entry(a),
        book.entry(b),
    )?;
    Ok(book.keep(product)?)
}

#[tactic(auto, using(crate::proofs::Makings::made, crate::proofs::Makings::stopped, crate::proofs::Makings::no_memory, dz_monomials::proofs::Multiplying::times_zero, dz_monomials::proofs::Multiplying::order_refused,))]
/// The product with `c * s^k`, where `c` is in range and not zero.
pub fn mul_term(book: &mut Book, a: Poly, c: i128, s: Symbol, k: u16) -> Result<Poly, PolyStop>
    requires lives { Lives book.old a }
    requires nonzero { c ≢ pos 0 }
    requires in_range { unsigned_abs c ≤ greatest }
    requires belongs { BelongsTo book.old.ranking.signature s }
    ensures { Makes book.old book.new result (product_answer (symbols_under book.old.ranking)
        (power_term c s k) (polynomial book.old a)) }
{
    if book.entry(a).is_zero() {
        return zero(book);
    }
    let factor = factor(book.allocator(), c, s, k)?;
    let product = product(book.allocator(), book.ranking(), &factor, book.entry(a))?;
    Ok(book.keep(product)?)
}
