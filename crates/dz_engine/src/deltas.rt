//! Delta-polynomials of critical pairs, each made once.

ghost use Rattle.std.specs.Prelude.{◌≡◌, ◌<◌, true, Ok, IfOk, IfErr, IfSome, length, slice_index_or};
ghost use Rattle.dz_poly.specs.Books.{BookValue, Lives, polynomial};
ghost use Rattle.dz_terms.specs.Entries.{IsEntry};
ghost use Rattle.dz_monomials.specs.Ranked.{symbols_under};
ghost use Rattle.dz_monomials.specs.Stops.{IsStop};
ghost use Rattle.dz_diff.specs.Operations.{setting_of};
ghost use Rattle.dz_pair.specs.Pair.{delta_answer, is_pair};
ghost use Rattle.dz_engine.specs.Facts.{AreKnown, IsDeltaBy, IsKnown, names_of};

use crate::facts::{Delta, Facts};
use dz_pair::delta_entry;
use dz_poly::{Book, Poly, PolyStop};
use dz_terms::{Entry, copied};

/// The Delta-polynomial with another equation that was made before.
fn kept_delta<'a>(facts: &'a Facts, other: Poly) -> Option<&'a Entry>
    ensures { IfSome result (λ e. (book : BookValue) → IsKnown book facts.now
        → IsDeltaBy book facts.now.poly other e.now.terms e.now.degrees) }
{
    'deltas: for k in 0..facts.deltas.len() {
        if facts.deltas[k].other == other {
            return Some(&facts.deltas[k].entry);
        }
    }
    None
}

/// The Delta-polynomial of an equation with another one, which make a critical pair.
pub(crate) fn delta_of(book: &Book, facts: &mut Facts, other: Poly) -> Result<Entry, PolyStop>
    requires known { IsKnown book.now facts.old }
    requires lives { Lives book.now other }
    requires pair { is_pair (symbols_under book.now.ranking) (polynomial book.now facts.old.poly)
        (polynomial book.now other) ≡ true }
    ensures known { IsKnown book.now facts.new }
    ensures name { facts.new.poly ≡ facts.old.poly }
    ensures ok { IfOk result (λ x. delta_answer (setting_of book.now.ranking)
        (polynomial book.now facts.old.poly) (polynomial book.now other) ≡ Ok x.terms) }
    ensures entry { IfOk result (λ x. IsEntry book.now.ranking x) }
    ensures refused { IfErr result (λ stop. IsStop stop (delta_answer (setting_of book.now.ranking)
        (polynomial book.now facts.old.poly) (polynomial book.now other))) }
{
    let alloc = book.allocator();
    if let Some(entry) = kept_delta(facts, other) {
        return Ok(copied(alloc, entry)?);
    }
    let poly = facts.poly;
    let delta = delta_entry(alloc, book.ranking(), book.entry(poly), book.entry(other))?;
    let entry = copied(alloc, &delta)?;
    facts.deltas.push(Delta { other, entry })?;
    Ok(delta)
}

/// The same for the equation at an index, counted from 0.
pub(crate) fn delta_at(
    book: &Book,
    facts: &mut Vec<Facts>,
    k: usize,
    other: Poly,
) -> Result<Entry, PolyStop>
    requires inside { k < length facts.old.items }
    requires known { AreKnown book.now facts.old.items }
    requires lives { Lives book.now other }
    requires pair { is_pair (symbols_under book.now.ranking)
        (polynomial book.now (slice_index_or (names_of facts.old.items) k 0))
        (polynomial book.now other) ≡ true }
    ensures known { AreKnown book.now facts.new.items }
    ensures names { names_of facts.new.items ≡ names_of facts.old.items }
    ensures ok { IfOk result (λ x. delta_answer (setting_of book.now.ranking)
        (polynomial book.now (slice_index_or (names_of facts.old.items) k 0))
        (polynomial book.now other) ≡ Ok x.terms) }
    ensures entry { IfOk result (λ x. IsEntry book.now.ranking x) }
    ensures refused { IfErr result (λ stop. IsStop stop (delta_answer (setting_of book.now.ranking)
        (polynomial book.now (slice_index_or (names_of facts.old.items) k 0))
        (polynomial book.now other))) }
{
    delta_of(book, &mut facts[k], other)
}
