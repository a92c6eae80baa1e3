//! Coefficients of powers of a symbol.

ghost use Rattle.std.specs.Prelude.{Ok};
ghost use Rattle.dz_algebra.specs.Parts.{coefficient_of as coefficient};
ghost use Rattle.dz_poly.specs.Books.{Lives, Makes, polynomial};
ghost use Rattle.dz_rank.specs.Rankings.{ranking_cmp};

use crate::PolyStop;
use crate::book::{Book, Poly};
use dz_rank::Symbol;
use dz_terms::coefficient_entry;

#[tactic(auto, using(crate::proofs::Makings::made, crate::proofs::Makings::stopped, crate::proofs::Makings::no_memory,))]
/// The coefficient of `s^k`: the terms with that power of `s`, each without `s`.
pub fn coefficient_of(book: &mut Book, a: Poly, s: Symbol, k: u16) -> Result<Poly, PolyStop>
    requires { Lives book.old a }
    ensures { Makes book.old book.new result
        (Ok (coefficient (ranking_cmp book.old.ranking) s k (polynomial book.old a))) }
{
    let coefficient = coefficient_entry(book.allocator(), book.ranking(), book.entry(a), s, k)?;
    Ok(book.keep(coefficient)?)
}
