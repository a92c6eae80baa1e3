//! Members of lists in a book: norms, and the tests by which they are kept or left out.

ghost use Rattle.std.specs.Prelude.{◌≡◌, IfOk};
ghost use Rattle.dz_algebra.specs.Norm.{norm};
ghost use Rattle.dz_poly.specs.Books.{Lives, polynomial};
ghost use Rattle.dz_rank.specs.Rankings.{RankingValue};
ghost use Rattle.dz_terms.specs.Entries.{IsEntry};
ghost use Rattle.dz_monomials.specs.Ranked.{symbols_under};
ghost use Rattle.dz_diff.specs.State.{without_place};
ghost use Rattle.dz_diff.specs.States.{LiveAll, polynomials};
ghost use Rattle.dz_diff.specs.Tests.{is_member, is_unit};

use crate::parts::leader_of;
use dz_poly::{Book, Poly};
use dz_terms::{Entry, copied, into_norm, same_entries};
use std::alloc::AllocError;

/// The norm of a polynomial of a book; the book keeps the polynomial.
pub fn norm_entry(book: &Book, p: Poly) -> Result<Entry, AllocError>
    requires { Lives book.now p }
    ensures terms { IfOk result (λ x. x.terms ≡ norm (polynomial book.now p)) }
    ensures entry { IfOk result (λ x. IsEntry book.now.ranking x) }
{
    let copy = copied(book.allocator(), book.entry(p))?;
    Ok(into_norm(copy))
}

/// Whether an entry is of a polynomial in a list, the one at the place `left_out` not looked
/// at. Places count from 1; 0 leaves out none.
pub fn is_among(book: &Book, polys: &[Poly], left_out: usize, entry: &Entry) -> bool
    requires { LiveAll book.now polys.now }
    ensures { result ≡ is_member (symbols_under book.now.ranking) entry.now.terms
        (without_place left_out (polynomials book.now polys.now)) }
{
    'places: for k in 0..polys.len() {
        let other = book.entry(polys[k]);
        if k + 1 != left_out && same_entries(book.ranking(), entry, other) {
            return true;
        }
    }
    false
}

/// Whether an entry is ground and not zero.
pub fn is_unit(entry: &Entry) -> bool
    ensures { (r : RankingValue) → IsEntry r entry.now
        → result ≡ is_unit (symbols_under r) entry.now.terms }
{
    match leader_of(entry) {
        Some(_) => false,
        None => !entry.is_zero(),
    }
}
