//! Where a state can be split on an initial or a separant.

ghost use Rattle.std.specs.Prelude.{◌≡◌, ◌||◌, Result};
ghost use Rattle.dz_algebra.specs.Polynomial.{Polynomial};
ghost use Rattle.dz_algebra.specs.Size.{Refusal};
ghost use Rattle.dz_rank.specs.declared.symbols.Symbol.{Symbol};
ghost use Rattle.dz_terms.specs.Entries.{IsEntry};
ghost use Rattle.dz_monomials.specs.Ranked.{symbols_under};
ghost use Rattle.dz_diff.specs.States.{StandsIn, state_in};
ghost use Rattle.dz_diff.specs.Tests.{is_member};
ghost use Rattle.dz_engine.specs.Facts.{AreFactsOf, AreKnown, IsAnswer, names_of};
ghost use Rattle.dz_engine.specs.Finding.{splittable, to_split, to_split_on};

use crate::facts::{Facts, Multiplier};
use dz_diff::{is_among, leader_of};
use dz_poly::Book;
use dz_step::{State, Which};
use dz_terms::Entry;

/// Whether a multiplier is ground, or its norm is an equation or an inequation.
#[tactic(auto, using(dz_diff::proofs::MemberTests::none_left_out))]
fn is_settled(book: &Book, state: &State, multiplier: &Multiplier) -> bool
    requires { StandsIn book.now state.now }
    ensures { result ≡ (multiplier.now.is_ground
        || is_member (symbols_under book.now.ranking) multiplier.now.norm.terms
        (state_in book.now state.now).equations
        || is_member (symbols_under book.now.ranking) multiplier.now.norm.terms
        (state_in book.now state.now).inequations) }
{
    let norm = &multiplier.norm;
    multiplier.is_ground
        || is_among(book, state.equations(), 0, norm)
        || is_among(book, state.inequations(), 0, norm)
}

/// Whether a state can be split on a multiplier, or the multiplier does not fit.
fn to_split_on(
    book: &Book,
    state: &State,
    multiplier: &Option<Multiplier>,
    which: Which,
) -> Option<Option<Which>>
    requires { StandsIn book.now state.now }
    ensures { (answer : Result (Polynomial Symbol) Refusal)
        → IsAnswer book.now.ranking answer multiplier.now
        → result ≡ to_split_on (symbols_under book.now.ranking) (state_in book.now state.now)
        which answer }
{
    let Some(multiplier) = multiplier else {
        return Some(None);
    };
    if is_settled(book, state, multiplier) {
        return None;
    }
    Some(Some(which))
}

/// Which multiplier of an entry a state can be split on, the initial first; `Some(None)` where the
/// separant does not fit.
fn to_split(book: &Book, state: &State, entry: &Entry, facts: &Facts) -> Option<Option<Which>>
    requires stands { StandsIn book.now state.now }
    requires entry { IsEntry book.now.ranking entry.now }
    requires facts { AreFactsOf book.now.ranking entry.now.terms facts.now }
    ensures { result ≡ to_split (symbols_under book.now.ranking) (state_in book.now state.now)
        entry.now.terms }
{
    let Some(_) = leader_of(entry) else {
        return None;
    };
    let initial = to_split_on(book, state, &facts.initial, Which::Initial);
    if initial.is_some() {
        return initial;
    }
    to_split_on(book, state, &facts.separant, Which::Separant)
}

/// The first equation with such a multiplier.
pub(crate) fn splittable(
    book: &Book,
    state: &State,
    facts: &[Facts],
) -> Option<(u16, Option<Which>)>
    requires stands { StandsIn book.now state.now }
    requires known { AreKnown book.now facts.now }
    requires names { names_of facts.now ≡ state.now.equations }
    ensures { result ≡ splittable (symbols_under book.now.ranking)
        (state_in book.now state.now) }
{
    let polys = state.equations();
    'places: for k in 0..polys.len() {
        if let Some(found) = to_split(book, state, book.entry(polys[k]), &facts[k]) {
            return Some(((k + 1) as u16, found));
        }
    }
    None
}
