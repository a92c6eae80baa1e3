// Derivatives, separants and steps of polynomials that are read from texts.
ghost use Rattle.std.specs.Prelude.{◌≡◌, IfOk, OnOk};
ghost use Rattle.dz_poly.specs.Books.{IsKept, Lives};
ghost use Rattle.dz_syntax.specs.Names.{signature_of};

use crate::forms::{book, names};
use dz_diff::{apply, leader, separant};
use dz_form::{read_poly, write_poly};
use dz_poly::{Book, Limit, Poly, PolyStop};
use dz_rank::Operator;
use dz_step::StepStop;
use dz_step::stepping::step;
use dz_syntax::Names;
use std::alloc::Global;

const ITSELF: [u8; 4] = [0, 0, 0, 0];

const BY_X: [u8; 4] = [1, 0, 0, 0];

/// Texts of polynomials, exponents of operators, and the derivatives.
const DERIVED: [(&[u8], [u8; 4], &[u8]); 8] = [
    (b"7", BY_X, b"0"),
    (b"x*y", [1, 1, 0, 0], b"1"),
    (b"u^2", BY_X, b"2*u[x]*u"),
    (b"x^3*u", BY_X, b"u[x]*x^3 + 3*u*x^2"),
    (b"u[x]^2 - 4*u", BY_X, b"2*u[x,x]*u[x] - 4*u[x]"),
    (b"u*v", [0, 2, 0, 0], b"u[y,y]*v + v[y,y]*u + 2*u[y]*v[y]"),
    (
        b"x*u - u[x]",
        [2, 0, 0, 0],
        b"-u[x,x,x] + u[x,x]*x + 2*u[x]",
    ),
    (b"u[x]^2 - 4*u", ITSELF, b"u[x]^2 - 4*u"),
];

/// Texts of polynomials, exponents of operators, and why there is no derivative.
const UNDERIVED: [(&[u8], [u8; 4], PolyStop); 4] = [
    (b"u[x]", [60, 0, 0, 0], PolyStop::Large(Limit::Order)),
    (b"u*u[x]^65535", BY_X, PolyStop::Large(Limit::Exponent)),
    (
        b"170141183460469231731687303715884105727*u^2",
        BY_X,
        PolyStop::Wide,
    ),
    (
        b"170141183460469231731687303715884105727*u^2",
        [1, 60, 0, 0],
        PolyStop::Wide,
    ),
];

/// Texts of polynomials and of their separants.
const SEPARANTS: [(&[u8], &[u8]); 4] = [
    (b"u[x]^2 - 4*u", b"2*u[x]"),
    (b"x*u - 3", b"x"),
    (
        b"(v + x)*u[x]^3 + u[x]*v - u",
        b"3*u[x]^2*v + 3*u[x]^2*x + v",
    ),
    (b"v[y]^2*u - u^5", b"2*v[y]*u"),
];

/// Texts of a polynomial and of a divisor, the exponents of an operator, and the result of the step.
const STEPS: [(&[u8], &[u8], [u8; 4], &[u8]); 6] = [
    (b"u[x,x] - 2", b"u[x]^2 - 4*u", BY_X, b"0"),
    (b"u[x]^3", b"u[x]^2 - 4*u", ITSELF, b"u[x]*u"),
    (b"6*u[x]^2", b"4*u[x]^2 - 2", ITSELF, b"1"),
    (b"u[x]*u", b"2*u[x] - v", ITSELF, b"u*v"),
    (b"x*u[x,x] + v", b"u[x] - y*u", BY_X, b"u[x]*x*y + v"),
    (b"-u[x] + 1", b"u[x] + u", ITSELF, b"u + 1"),
];

/// The same, and why there is no result.
const NO_STEPS: [(&[u8], &[u8], [u8; 4], StepStop); 7] = [
    (b"u", b"u[x]^2 - 4*u", BY_X, StepStop::NotStep),
    (b"u[x]", b"u[x]^2 - 4*u", ITSELF, StepStop::NotStep),
    (b"u", b"x - 1", ITSELF, StepStop::NotStep),
    (b"u", b"u", [60, 1, 0, 0], StepStop::NotStep),
    (
        b"u[x] + 170141183460469231731687303715884105727*v",
        b"2*u[x] + 1",
        ITSELF,
        StepStop::Wide,
    ),
    (
        b"u[x]^65535*u[x,x]",
        b"u[x]^2 - u",
        BY_X,
        StepStop::Large(Limit::Exponent),
    ),
    (
        b"u[x,x]",
        b"170141183460469231731687303715884105727*u[x]^2 + v*v[x]^65535",
        BY_X,
        StepStop::Large(Limit::Exponent),
    ),
];

/// The polynomial that a text is read as.
pub(crate) fn read(
    alloc: Global,
    book: &mut Book,
    names: &Names,
    text: &[u8],
) -> Result<Poly, PolyStop>
    requires { signature_of names.now ≡ book.old.ranking.signature }
    ensures lives { IfOk result (λ p. Lives book.new p) }
    ensures kept { OnOk result (IsKept book.old book.new) }
{
    match read_poly(alloc, book, names, text) {
        Ok(p) => Ok(p),
        Err(_) => Err(PolyStop::Memory),
    }
}

/// The text of a polynomial.
pub(crate) fn written(
    alloc: Global,
    book: &Book,
    names: &Names,
    p: Poly,
) -> Result<Vec<u8>, PolyStop>
    requires lives { Lives book.now p }
    requires signature { signature_of names.now ≡ book.now.ranking.signature }
{
    let mut text = Vec::new(alloc);
    write_poly(book, p, names, &mut text)?;
    Ok(text)
}

/// The text of a derivative.
fn derived(alloc: Global, names: &Names, text: &[u8], counts: [u8; 4]) -> Result<Vec<u8>, PolyStop>
    requires { signature_of names.now ≡ record { independents = 2; dependents = 2 } }
{
    let mut book = book(alloc)?;
    let p = read(alloc, &mut book, names, text)?;
    let derivative = apply(&mut book, p, Operator { counts })?;
    written(alloc, &book, names, derivative)
}

/// The text of a separant.
#[tactic(auto, using(dz_diff::proofs::Leading::led_not_ground))]
fn separated(alloc: Global, names: &Names, text: &[u8]) -> Result<Vec<u8>, PolyStop>
    requires { signature_of names.now ≡ record { independents = 2; dependents = 2 } }
{
    let mut book = book(alloc)?;
    let p = read(alloc, &mut book, names, text)?;
    let Some(_) = leader(&book, p) else {
        return Ok(Vec::new(alloc));
    };
    let separant = separant(&mut book, p)?;
    written(alloc, &book, names, separant)
}

/// The text of the result of a step.
fn stepped(
    alloc: Global,
    names: &Names,
    f: &[u8],
    q: &[u8],
    counts: [u8; 4],
) -> Result<Vec<u8>, StepStop>
    requires { signature_of names.now ≡ record { independents = 2; dependents = 2 } }
{
    let mut book = book(alloc)?;
    let f = read(alloc, &mut book, names, f)?;
    let q = read(alloc, &mut book, names, q)?;
    let rest = step(&mut book, f, q, Operator { counts })?;
    Ok(written(alloc, &book, names, rest)?)
}

#[test]
fn polynomials_have_derivatives(rt: HostRuntime) -> Result<(), PolyStop> {
    let Some(names) = names(rt.alloc()) else {
        panic!(rt; "no names");
    };
    for (text, counts, derivative) in DERIVED.iter() {
        let found = derived(rt.alloc(), &names, text, *counts)?;
        assert!(rt; found.as_slice() == *derivative);
    }
    for (text, counts, stop) in UNDERIVED.iter() {
        assert!(rt; derived(rt.alloc(), &names, text, *counts).err() == Some(*stop));
    }
    Ok(())
}

#[test]
fn polynomials_have_separants(rt: HostRuntime) -> Result<(), PolyStop> {
    let Some(names) = names(rt.alloc()) else {
        panic!(rt; "no names");
    };
    for (text, separant) in SEPARANTS.iter() {
        let found = separated(rt.alloc(), &names, text)?;
        assert!(rt; found.as_slice() == *separant);
    }
    Ok(())
}

#[test]
fn steps_have_results(rt: HostRuntime) -> Result<(), StepStop> {
    let Some(names) = names(rt.alloc()) else {
        panic!(rt; "no names");
    };
    for (f, q, counts, rest) in STEPS.iter() {
        let found = stepped(rt.alloc(), &names, f, q, *counts)?;
        assert!(rt; found.as_slice() == *rest);
    }
    for (f, q, counts, stop) in NO_STEPS.iter() {
        assert!(rt; stepped(rt.alloc(), &names, f, q, *counts).err() == Some(*stop));
    }
    Ok(())
}
