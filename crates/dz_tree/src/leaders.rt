//! Chains: the leaders of their equations.

ghost use Rattle.std.specs.Prelude.{◌≡◌, ◌≤◌, drop, length};
ghost use Rattle.std.specs.List.{list_any};
ghost use Rattle.dz_algebra.specs.Parts.{leader};
ghost use Rattle.dz_rank.specs.Rankings.{RankingValue};
ghost use Rattle.dz_terms.specs.Entries.{IsEntry};
ghost use Rattle.dz_monomials.specs.Ranked.{symbols_under};
ghost use Rattle.dz_diff.specs.States.{LiveAll, polynomials};
ghost use Rattle.dz_diff.specs.Tests.{same_symbol};
ghost use Rattle.dz_tree.specs.Chain.{has_leaders, passes};

use dz_diff::leader_of;
use dz_poly::{Book, Poly};
use dz_rank::{Ranking, Symbol};
use dz_terms::Entry;
use std::cmp::Ordering;

/// Whether an entry has this leader.
fn has_leader(ranking: &Ranking, entry: &Entry, lead: Symbol) -> bool
    requires { IsEntry ranking.now entry.now }
    ensures { result ≡ passes (same_symbol (symbols_under ranking.now) lead)
        (leader (symbols_under ranking.now) entry.now.terms) }
{
    match leader_of(entry) {
        Some(other) => ranking.compare(lead, other) == Ordering::Equal,
        None => false,
    }
}

/// Whether a polynomial of a list, from an index on, has this leader.
fn is_led(book: &Book, polys: &[Poly], from: usize, lead: Symbol) -> bool
    requires live { LiveAll book.now polys.now }
    requires inside { from ≤ length polys.now }
    ensures { result ≡ list_any (λ q. passes (same_symbol (symbols_under book.now.ranking) lead)
        (leader (symbols_under book.now.ranking) q)) (polynomials book.now (drop from polys.now)) }
{
    'places: for k in from..polys.len() {
        if has_leader(book.ranking(), book.entry(polys[k]), lead) {
            return true;
        }
    }
    false
}

/// Whether every polynomial in a list has a leader, and no two the same.
pub(crate) fn has_leaders(book: &Book, polys: &[Poly]) -> bool
    requires { LiveAll book.now polys.now }
    ensures { result ≡ has_leaders (symbols_under book.now.ranking)
        (polynomials book.now polys.now) }
{
    'places: for k in 0..polys.len() {
        let Some(lead) = leader_of(book.entry(polys[k])) else {
            return false;
        };
        if is_led(book, polys, k + 1, lead) {
            return false;
        }
    }
    true
}
