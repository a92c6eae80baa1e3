// Critical pairs and their Delta-polynomials, worked by hand.
ghost use Rattle.std.specs.Prelude.{◌≡◌, IfOk, OnOk};
ghost use Rattle.dz_poly.specs.Books.{IsKept, Lives};
ghost use Rattle.dz_syntax.specs.Names.{signature_of};

use crate::forms::{book, names};
use crate::reductions::{read, written};
use crate::states::{book_of, root_of};
use dz_diff::apply;
use dz_pair::{common, delta, is_pair, pairs};
use dz_poly::{Book, Limit, Poly, PolyStop};
use dz_rank::{Operator, Symbol};
use dz_syntax::{Form, Names, read_system};
use std::alloc::Global;

/// Texts of two polynomials, and whether they are a critical pair.
const CROSSINGS: [(&[u8], &[u8], bool); 9] = [
    (b"u[x]", b"u[y]", true),
    (b"u[y]", b"u[x]", true),
    (b"u[x,x] + v", b"x*u[x,y] - 1", true),
    (b"u[x]", b"u[x] - 1", false),
    (b"u", b"u[y]", false),
    (b"u[x,y]", b"u[x]", false),
    (b"u[x]", b"v[y]", false),
    (b"x", b"u[y]", false),
    (b"u[x]", b"0", false),
];

/// Texts of critical pairs, and of their Delta-polynomials.
const DELTAS: [(&[u8], &[u8], &[u8]); 5] = [
    (b"u[x]", b"u[y] - x", b"1"),
    (b"u[x] - y", b"u[y] - x", b"0"),
    // 1*(2*u[x]*u[x,y] - 4*u[y]) - 2*u[x]*u[x,y] is -4*u[y].
    (b"u[x]^2 - 4*u", b"u[y]", b"u[y]"),
    (b"u[y]", b"u[x]^2 - 4*u", b"u[y]"),
    // x*(v[y]*u[x] + v*u[x,y]) - v*(u[y] + x*u[x,y]) is x*v[y]*u[x] - v*u[y].
    (b"v*u[x] - 1", b"x*u[y]", b"u[x]*v[y]*x - u[y]*v"),
];

/// Systems, and the places of the critical pairs of their roots.
const LISTS: [(&[u8], &[(u16, u16)]); 4] = [
    (
        b"derivations x, y; ranking grlexA [u, v]; equations u[x], v, u[y]; inequations; end",
        &[(1, 3)],
    ),
    (
        b"derivations x, y; ranking grlexA [u]; equations u[x,x], u[x,y], u[y,y];
        inequations; end",
        &[(1, 2), (1, 3), (2, 3)],
    ),
    (
        b"derivations x, y; ranking grlexA [u, v]; equations u[x], v[x], x, u[y], v[y];
        inequations; end",
        &[(1, 4), (2, 5)],
    ),
    (
        b"derivations x; ranking grlexA [u]; equations u, u[x], u[x]^2 - u; inequations; end",
        &[],
    ),
];

/// Whether texts are those of a critical pair.
fn are_pair(alloc: Global, names: &Names, p: &[u8], q: &[u8]) -> Result<bool, PolyStop>
    requires { signature_of names.now ≡ record { independents = 2; dependents = 2 } }
{
    let mut book = book(alloc)?;
    let p = read(alloc, &mut book, names, p)?;
    let q = read(alloc, &mut book, names, q)?;
    Ok(is_pair(&book, p, q))
}

/// The number of the first row, from 0, of which it is not so whether there is a pair.
fn first_other_crossing(
    alloc: Global,
    names: &Names,
    rows: &[(&[u8], &[u8], bool)],
) -> Option<usize>
    requires { signature_of names.now ≡ record { independents = 2; dependents = 2 } }
{
    for i in 0..rows.len() {
        let (p, q, crossing) = rows[i];
        if are_pair(alloc, names, p, q) != Ok(crossing) {
            return Some(i);
        }
    }
    None
}

/// The text of the Delta-polynomial of a pair, none where it is no pair.
fn delta_text(alloc: Global, names: &Names, p: &[u8], q: &[u8]) -> Result<Option<Vec<u8>>, PolyStop>
    requires { signature_of names.now ≡ record { independents = 2; dependents = 2 } }
{
    let mut book = book(alloc)?;
    let p = read(alloc, &mut book, names, p)?;
    let q = read(alloc, &mut book, names, q)?;
    if !is_pair(&book, p, q) {
        return Ok(None);
    }
    let delta = delta(&mut book, p, q)?;
    Ok(Some(written(alloc, &book, names, delta)?))
}

/// The number of the first pair, from 0, that has another Delta-polynomial than was worked.
fn first_other_delta(alloc: Global, names: &Names, rows: &[(&[u8], &[u8], &[u8])]) -> Option<usize>
    requires { signature_of names.now ≡ record { independents = 2; dependents = 2 } }
{
    for i in 0..rows.len() {
        let (p, q, expected) = rows[i];
        let Ok(Some(found)) = delta_text(alloc, names, p, q) else {
            return Some(i);
        };
        if found.as_slice() != expected {
            return Some(i);
        }
    }
    None
}

/// The derivative of u by an operator.
fn derivative(
    alloc: Global,
    book: &mut Book,
    names: &Names,
    counts: [u8; 4],
) -> Result<Poly, PolyStop>
    requires { signature_of names.now ≡ book.old.ranking.signature }
    ensures lives { IfOk result (λ p. Lives book.new p) }
    ensures kept { OnOk result (IsKept book.old book.new) }
{
    let u = read(alloc, book, names, b"u")?;
    apply(book, u, Operator { counts })
}

/// The least common derivative of u derived so often by x and so often by y.
fn common_of_order(alloc: Global, names: &Names, order: u8) -> Result<Option<Symbol>, PolyStop>
    requires { signature_of names.now ≡ record { independents = 2; dependents = 2 } }
{
    let mut book = book(alloc)?;
    let p = derivative(alloc, &mut book, names, [order, 0, 0, 0])?;
    let q = derivative(alloc, &mut book, names, [0, order, 0, 0])?;
    if !is_pair(&book, p, q) {
        return Ok(None);
    }
    Ok(common(&book, p, q))
}

/// The text of the Delta-polynomial of these derivatives.
fn delta_of_order(alloc: Global, names: &Names, order: u8) -> Result<Vec<u8>, PolyStop>
    requires { signature_of names.now ≡ record { independents = 2; dependents = 2 } }
{
    let mut book = book(alloc)?;
    let p = derivative(alloc, &mut book, names, [order, 0, 0, 0])?;
    let q = derivative(alloc, &mut book, names, [0, order, 0, 0])?;
    if !is_pair(&book, p, q) {
        return Ok(Vec::new(alloc));
    }
    let delta = delta(&mut book, p, q)?;
    written(alloc, &book, names, delta)
}

/// The critical pairs of the root of a system.
fn listed(alloc: Global, system: &[u8]) -> Option<Vec<(u16, u16)>> {
    let tree = read_system(alloc, system, Form::Plain).ok()?;
    let mut book = book_of(alloc, &tree)?;
    let state = root_of(alloc, &mut book, &tree)?;
    pairs(alloc, &book, &state).ok()
}

/// The number of the first system, from 0, whose root has other pairs than were worked.
fn first_other_list(alloc: Global, rows: &[(&[u8], &[(u16, u16)])]) -> Option<usize> {
    for i in 0..rows.len() {
        let (system, expected) = rows[i];
        let Some(found) = listed(alloc, system) else {
            return Some(i);
        };
        if found.as_slice() != expected {
            return Some(i);
        }
    }
    None
}

#[test]
fn leaders_that_cross_are_pairs(rt: HostRuntime) {
    let Some(names) = names(rt.alloc()) else {
        panic!(rt; "no names");
    };
    assert!(rt; first_other_crossing(rt.alloc(), &names, &CROSSINGS) == None);
}

#[test]
fn pairs_have_delta_polynomials(rt: HostRuntime) {
    let Some(names) = names(rt.alloc()) else {
        panic!(rt; "no names");
    };
    assert!(rt; first_other_delta(rt.alloc(), &names, &DELTAS) == None);
}

#[test]
fn common_derivatives_have_orders_up_to_60(rt: HostRuntime) -> Result<(), PolyStop> {
    let Some(names) = names(rt.alloc()) else {
        panic!(rt; "no names");
    };
    let common = Symbol::Derivative {
        dependent: 0,
        operator: Operator {
            counts: [30, 30, 0, 0],
        },
    };
    assert!(rt; common_of_order(rt.alloc(), &names, 30)? == Some(common));
    assert!(rt; common_of_order(rt.alloc(), &names, 31)? == None);
    assert!(rt; delta_of_order(rt.alloc(), &names, 30)?.as_slice() == b"0".as_slice());
    let stop = PolyStop::Large(Limit::Order);
    assert!(rt; delta_of_order(rt.alloc(), &names, 31).err() == Some(stop));
    Ok(())
}

#[test]
fn states_list_their_pairs(rt: HostRuntime) {
    assert!(rt; first_other_list(rt.alloc(), &LISTS) == None);
}
