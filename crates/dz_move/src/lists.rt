//! Lists of members, and their places. Places count from 1.

ghost use Rattle.std.specs.Prelude.{◌≡◌, ◌≤◌, ◌++◌, [], ◌∷◌, IfOk, length};
ghost use Rattle.dz_algebra.specs.Polynomial.{symbol_polynomial};
ghost use Rattle.dz_poly.specs.Books.{IsKept};
ghost use Rattle.dz_terms.specs.Entries.{IsEntry};
ghost use Rattle.dz_monomials.specs.Ranked.{symbols_under};
ghost use Rattle.dz_diff.specs.State.{replaced, without_place};
ghost use Rattle.dz_diff.specs.States.{LiveAll, MeanAll, polynomials};
ghost use Rattle.dz_diff.specs.Tests.{is_member};
ghost use Rattle.dz_move.specs.Members.{put_at};

use crate::roots::{Members, is_left_out};
use dz_diff::is_among;
use dz_poly::{Book, Poly};
use dz_rank::Symbol;
use dz_terms::{Entry, power};
use std::alloc::{AllocError, Global};

/// A copy of the names in a list.
pub(crate) fn names(alloc: Global, polys: &[Poly]) -> Result<Vec<Poly>, AllocError>
    ensures { IfOk result (λ all. all.items ≡ polys.now) }
{
    polys.to_vec(alloc)
}

/// A list without one of its places.
fn without_place(alloc: Global, polys: &[Poly], place: u16) -> Result<Vec<Poly>, AllocError>
    requires counts { 1 ≤ place }
    requires inside { place ≤ length polys.now }
    ensures { IfOk result (λ all. all.items ≡ without_place place polys.now) }
{
    let mut all = names(alloc, polys)?;
    all.remove(place as usize - 1);
    Ok(all)
}

/// A list with another name at one of its places.
fn replaced(alloc: Global, polys: &[Poly], place: u16, p: Poly) -> Result<Vec<Poly>, AllocError>
    requires counts { 1 ≤ place }
    requires inside { place ≤ length polys.now }
    ensures { IfOk result (λ all. all.items ≡ replaced place p polys.now) }
{
    let mut all = names(alloc, polys)?;
    all[place as usize - 1] = p;
    Ok(all)
}

/// A list with a norm put at one of its places: the place goes where the norm is left out of such
/// lists or stands at another place.
pub(crate) fn put(
    book: &mut Book,
    members: Members,
    polys: &[Poly],
    place: u16,
    norm: Entry,
) -> Result<Vec<Poly>, AllocError>
    requires live { LiveAll book.old polys.now }
    requires norm { IsEntry book.old.ranking norm }
    requires counts { 1 ≤ place }
    requires inside { place ≤ length polys.now }
    ensures put { IfOk result (λ all. MeanAll book.new all.items
        (put_at (symbols_under book.old.ranking) members place norm.terms
        (polynomials book.old polys.now))) }
    ensures kept { IsKept book.old book.new }
{
    let alloc = book.allocator();
    if is_left_out(members, &norm) {
        return without_place(alloc, polys, place);
    }
    if is_among(book, polys, place as usize, &norm) {
        return without_place(alloc, polys, place);
    }
    let p = book.keep(norm)?;
    replaced(alloc, polys, place, p)
}

/// A list with a name behind the others.
pub(crate) fn appended(alloc: Global, polys: &[Poly], p: Poly) -> Result<Vec<Poly>, AllocError>
    ensures { IfOk result (λ all. all.items ≡ polys.now ++ p ∷ []) }
{
    let mut all = names(alloc, polys)?;
    all.push(p)?;
    Ok(all)
}

/// Whether a symbol is one of the polynomials in a list.
#[tactic(auto, using(dz_diff::proofs::MemberTests::none_left_out))]
pub(crate) fn has_symbol(book: &Book, polys: &[Poly], v: Symbol) -> Result<bool, AllocError>
    requires { LiveAll book.now polys.now }
    ensures { IfOk result (λ b. b ≡ is_member (symbols_under book.now.ranking)
        (symbol_polynomial v) (polynomials book.now polys.now)) }
{
    let symbol = power(book.allocator(), 1, v, 1)?;
    Ok(is_among(book, polys, 0, &symbol))
}
