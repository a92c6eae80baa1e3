//! Copies.

ghost use Rattle.std.specs.Prelude.{◌≡◌, IfOk};

use crate::entry::Entry;
use dz_monomials::Term;
use smallvec::SmallVec;
use std::alloc::{AllocError, Global};

/// The same terms.
fn copied_terms(alloc: Global, terms: &[Term]) -> Result<Vec<Term>, AllocError>
    ensures { IfOk result (λ all. all.items ≡ terms.now) }
{
    let mut all = Vec::with_capacity(alloc, terms.len())?;
    for term in terms {
        let powers = SmallVec::from_slice(alloc, term.powers())?;
        all.push(Term::new(powers, term.coefficient()))?;
    }
    Ok(all)
}

/// The same polynomial.
pub fn copied(alloc: Global, entry: &Entry) -> Result<Entry, AllocError>
    ensures terms { IfOk result (λ all. all.terms ≡ entry.now.terms) }
    ensures degrees { IfOk result (λ all. all.degrees ≡ entry.now.degrees) }
{
    let terms = copied_terms(alloc, entry.terms.as_slice())?;
    let degrees = SmallVec::from_slice(alloc, entry.degrees.as_slice())?;
    Ok(Entry { terms, degrees })
}
