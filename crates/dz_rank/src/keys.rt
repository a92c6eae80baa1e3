//! The keys by which two derivatives of one block are compared.

ghost use Rattle.std.specs.Prelude.{◌≡◌, reverse, sum};
ghost use Rattle.std.specs.Cmp.Lexicographic.{slice_cmp};
ghost use Rattle.std.specs.Ordering.{nat_cmp};
ghost use Rattle.dz_rank.specs.Standings.{by_keys};

use crate::operations::order;
use crate::rankings::Kind;
use crate::symbols::Operator;
use std::cmp::Ordering;

/// The larger total order is greater.
fn by_order(a: Operator, b: Operator) -> Ordering
    ensures { result ≡ nat_cmp (sum a.counts) (sum b.counts) }
{
    order(a).cmp(&order(b))
}

/// At the first independent where the exponents differ, the larger is greater.
fn by_lex(a: Operator, b: Operator) -> Ordering
    ensures { result ≡ slice_cmp nat_cmp a.counts b.counts }
{
    a.counts.cmp(&b.counts)
}

/// At the last independent where the exponents differ, the smaller is greater.
fn by_reverse_lex(a: Operator, b: Operator) -> Ordering
    ensures { result ≡ slice_cmp nat_cmp (reverse b.counts) (reverse a.counts) }
{
    let [i, j, k, l] = a.counts;
    let [m, n, o, p] = b.counts;
    [p, o, n, m].cmp(&[l, k, j, i])
}

/// The order of two derivatives of a block, where `places` is the order of their dependents.
pub(crate) fn compare_in_block(kind: Kind, a: Operator, b: Operator, places: Ordering) -> Ordering
    ensures { result ≡ by_keys kind a.counts b.counts places }
{
    match kind {
        Kind::GrlexA => by_order(a, b).then(by_lex(a, b).then(places)),
        Kind::GrlexB => by_order(a, b).then(places.then(by_lex(a, b))),
        Kind::DegrevA => by_order(a, b).then(by_reverse_lex(a, b).then(places)),
        Kind::DegrevB => by_order(a, b).then(places.then(by_reverse_lex(a, b))),
        Kind::LexA => by_lex(a, b).then(places),
    }
}
