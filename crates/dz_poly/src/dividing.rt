//! Division of all coefficients by a number.

ghost use Rattle.std.specs.Prelude.{◌≤◌, pos, Ok};
ghost use Rattle.dz_algebra.specs.Norm.{divided, norm};
ghost use Rattle.dz_poly.specs.Books.{Lives, Makes, polynomial};
ghost use Rattle.dz_monomials.specs.Divisions.{DividesAll};

use crate::PolyStop;
use crate::book::{Book, Poly};
use dz_terms::{copied, into_norm, quotient_by};

#[tactic(auto, using(crate::proofs::Makings::made, crate::proofs::Makings::stopped, crate::proofs::Makings::no_memory,))]
/// The norm: divided by the greatest common divisor of the coefficients, with the first positive.
pub fn normalise(book: &mut Book, a: Poly) -> Result<Poly, PolyStop>
    requires { Lives book.old a }
    ensures { Makes book.old book.new result (Ok (norm (polynomial book.old a))) }
{
    let copy = copied(book.allocator(), book.entry(a))?;
    Ok(book.keep(into_norm(copy))?)
}

#[tactic(auto, using(crate::proofs::Makings::made, crate::proofs::Makings::stopped, crate::proofs::Makings::no_memory,))]
/// The coefficients divided by `k`, which divides all of them.
pub fn exact_div_int(book: &mut Book, a: Poly, k: u128) -> Result<Poly, PolyStop>
    requires lives { Lives book.old a }
    requires positive { 1 ≤ k }
    requires divides { DividesAll k (polynomial book.old a) }
    ensures { Makes book.old book.new result (Ok (divided (pos k) (polynomial book.old a))) }
{
    let copy = copied(book.allocator(), book.entry(a))?;
    Ok(book.keep(quotient_by(copy, k))?)
}
