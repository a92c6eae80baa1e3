//! Chains: their inequations have no proper derivative of a leader.

ghost use Rattle.std.specs.Prelude.{◌≡◌};
ghost use Rattle.std.specs.List.{list_all};
ghost use Rattle.dz_terms.specs.Entries.{IsEntry};
ghost use Rattle.dz_monomials.specs.Ranked.{symbols_under};
ghost use Rattle.dz_diff.specs.States.{LiveAll, StandsIn, polynomials, state_in};
ghost use Rattle.dz_tree.specs.Chain.{is_free_of, is_reduced};

use dz_diff::{State, leader_of};
use dz_poly::{Book, Poly};
use dz_rank::Ranking;
use dz_step::has_proper_derivative;
use dz_terms::Entry;

/// Whether an entry has no proper derivative of the leader of an equation, which has one.
#[tactic(auto, using(crate::proofs::ChainParts::free_is, crate::proofs::ChainParts::unled_not_free, dz_step::proofs::Regularity::leader_has_four))]
fn is_free_of(ranking: &Ranking, h: &Entry, p: &Entry) -> bool
    requires h { IsEntry ranking.now h.now }
    requires p { IsEntry ranking.now p.now }
    ensures { result ≡ is_free_of (symbols_under ranking.now) h.now.terms p.now.terms }
{
    let Some(lead) = leader_of(p) else {
        return false;
    };
    !has_proper_derivative(ranking, h, lead)
}

/// Whether an entry has no proper derivative of the leader of any polynomial in a list.
fn is_free_of_all(book: &Book, polys: &[Poly], h: &Entry) -> bool
    requires live { LiveAll book.now polys.now }
    requires h { IsEntry book.now.ranking h.now }
    ensures { result ≡ list_all (is_free_of (symbols_under book.now.ranking) h.now.terms)
        (polynomials book.now polys.now) }
{
    'polys: for p in polys {
        if !is_free_of(book.ranking(), h, book.entry(*p)) {
            return false;
        }
    }
    true
}

/// Whether an inequation is not zero, and has no proper derivative of the leader of an equation.
#[tactic(auto, using(crate::proofs::ChainParts::zero_not_reduced, crate::proofs::ChainParts::reduced_is))]
fn is_reduced(book: &Book, state: &State, h: &Entry) -> bool
    requires stands { StandsIn book.now state.now }
    requires h { IsEntry book.now.ranking h.now }
    ensures { result ≡ is_reduced (symbols_under book.now.ranking) (state_in book.now state.now)
        h.now.terms }
{
    if h.is_zero() {
        return false;
    }
    is_free_of_all(book, state.equations(), h)
}

/// Whether so is every inequation of a state.
pub(crate) fn are_reduced(book: &Book, state: &State) -> bool
    requires { StandsIn book.now state.now }
    ensures { result ≡ list_all (is_reduced (symbols_under book.now.ranking)
        (state_in book.now state.now)) (state_in book.now state.now).inequations }
{
    'polys: for p in state.inequations() {
        if !is_reduced(book, state, book.entry(*p)) {
            return false;
        }
    }
    true
}
