//! Which polynomials are critical pairs.

ghost use Rattle.std.specs.Prelude.{◌≡◌, ◌<◌, ◌≤◌, true, Some, MatchOption, IsSomeAnd};
ghost use Rattle.dz_poly.specs.Books.{Lives, polynomial};
ghost use Rattle.dz_rank.specs.Symbols.{total_order};
ghost use Rattle.dz_monomials.specs.Ranked.{symbols_under};
ghost use Rattle.dz_diff.specs.Operators.{divides};
ghost use Rattle.dz_pair.specs.Pair.{are_crossing, common, is_pair, leaders_cross};

use dz_diff::leader_of;
use dz_poly::{Book, Poly};
use dz_rank::{Operator, Symbol, least_common};

/// Whether an operator takes no derivation more often than another.
fn divides(divisor: Operator, multiple: Operator) -> bool
    ensures { result ≡ divides divisor.counts multiple.counts }
{
    let [i, j, k, l] = divisor.counts;
    let [m, n, o, p] = multiple.counts;
    i <= m && j <= n && k <= o && l <= p
}

/// Whether two symbols are derivatives of one dependent, neither of which is a derivative of the
/// other or equal to it.
fn are_crossing(l: Symbol, m: Symbol) -> bool
    ensures { result ≡ are_crossing l m }
{
    match (l, m) {
        (
            Symbol::Derivative {
                dependent: u,
                operator: s,
            },
            Symbol::Derivative {
                dependent: v,
                operator: t,
            },
        ) => u == v && !divides(t, s) && !divides(s, t),
        _ => false,
    }
}

/// Whether polynomials with these leaders are a critical pair.
pub(crate) fn leaders_cross(l: Option<Symbol>, m: Option<Symbol>) -> bool
    ensures { result ≡ leaders_cross l m }
{
    match (l, m) {
        (Some(l), Some(m)) => are_crossing(l, m),
        _ => false,
    }
}

/// Whether two polynomials are a critical pair: their leaders are derivatives of one dependent, and
/// neither is a derivative of the other or equal to it. A ground polynomial is in no pair.
pub fn is_pair(book: &Book, p: Poly, q: Poly) -> bool
    requires first { Lives book.now p }
    requires second { Lives book.now q }
    ensures { result ≡ is_pair (symbols_under book.now.ranking)
        (polynomial book.now p) (polynomial book.now q) }
{
    leaders_cross(leader_of(book.entry(p)), leader_of(book.entry(q)))
}

/// The least common derivative of the leaders of a critical pair; `None` where its total order is
/// above 60.
pub fn common(book: &Book, p: Poly, q: Poly) -> Option<Symbol>
    requires first { Lives book.now p }
    requires second { Lives book.now q }
    requires pair { is_pair (symbols_under book.now.ranking)
        (polynomial book.now p) (polynomial book.now q) ≡ true }
    ensures { MatchOption result
        (IsSomeAnd (common (symbols_under book.now.ranking)
        (polynomial book.now p) (polynomial book.now q)) (λ w. 60 < total_order w))
        (λ w. (common (symbols_under book.now.ranking)
        (polynomial book.now p) (polynomial book.now q) ≡ Some w) × (total_order w ≤ 60)) }
{
    let Some(l) = leader_of(book.entry(p)) else {
        unreachable!()
    };
    let Some(m) = leader_of(book.entry(q)) else {
        unreachable!()
    };
    least_common(l, m)
}
