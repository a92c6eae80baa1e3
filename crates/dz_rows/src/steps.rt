// Lists of steps, divisions by powers of symbols, and replays on polynomials that are read from texts.
ghost use Rattle.std.specs.Prelude.{◌≡◌};
ghost use Rattle.dz_poly.specs.Books.{Lives};
ghost use Rattle.dz_syntax.specs.Names.{signature_of};
ghost use Rattle.dz_diff.specs.States.{StandsIn};

use crate::forms::{book, names};
use crate::states::{book_of, root_of};
use dz_form::{read_poly, read_symbol, write_poly};
use dz_poly::{Book, Poly};
use dz_rank::Operator;
use dz_step::{ReplayFault, Role, State, Step, StepList, divides_exactly, permitted, replay};
use dz_syntax::{Form, Names, read_system};
use std::alloc::Global;
use std::test::Fail;

/// Texts of a polynomial and of a symbol, the greatest power of it that divides, and the quotient.
const DIVIDED: [(&[u8], &[u8], u16, &[u8]); 5] = [
    (b"u^3*v - u^2", b"u", 2, b"u*v - 1"),
    (b"u^3*v - u^2", b"v", 0, b"u^3*v - u^2"),
    (b"2*x*u + 4*x^2*v", b"x", 1, b"2*u + 4*v*x"),
    (b"u[x]^5", b"u[x]", 5, b"1"),
    (b"0", b"u", 0, b"0"),
];

/// The step by the equation at a place, derived so often by the first independent.
fn step(place: u16, order: u8) -> Step {
    Step {
        place,
        operator: Operator {
            counts: [order, 0, 0, 0],
        },
    }
}

/// The greatest power of a symbol that divides a polynomial, and the text of the quotient.
fn division(alloc: Global, names: &Names, text: &[u8], symbol: &[u8]) -> Option<(u16, Vec<u8>)>
    requires { signature_of names.now ≡ record { independents = 2; dependents = 2 } }
{
    let mut book = book(alloc).ok()?;
    let p = read_poly(alloc, &mut book, names, text).ok()?;
    let symbol = read_symbol(names, symbol)?;
    let (k, quotient) = divides_exactly(&mut book, p, symbol).ok()?;
    let mut written = Vec::new(alloc);
    write_poly(&book, quotient, names, &mut written).ok()?;
    Some((k, written))
}

#[test]
fn polynomials_are_divided_by_powers(rt: HostRuntime) {
    let Some(names) = names(rt.alloc()) else {
        panic!(rt; "no names");
    };
    for (text, symbol, power, quotient) in DIVIDED.iter() {
        let Some((k, written)) = division(rt.alloc(), &names, text, symbol) else {
            panic!(rt; "no quotient");
        };
        assert!(rt; k == *power);
        assert!(rt; written.as_slice() == *quotient);
    }
}

#[test]
fn steps_stay_in_their_order(rt: HostRuntime) -> Result<(), Fail> {
    let mut steps = StepList::new(rt.alloc());
    for place in 1..7u16 {
        steps.push(step(place, 0))?;
        steps.push(step(place, 1))?;
    }
    assert!(rt; steps.len() == 12);
    if steps.len() == 12 {
        assert!(rt; steps.get(0) == step(1, 0));
        assert!(rt; steps.get(3) == step(2, 1));
        assert!(rt; steps.get(4) == step(3, 0));
        assert!(rt; steps.get(11) == step(6, 1));
    }
    Ok(())
}

/// What a replay answers, with the text of the end.
fn end_text(
    alloc: Global,
    book: &mut Book,
    names: &Names,
    f: Poly,
    steps: &StepList,
    state: &State,
    role: Role,
) -> Option<Result<Vec<u8>, ReplayFault>>
    requires signature { signature_of names.now ≡ book.old.ranking.signature }
    requires f { Lives book.old f }
    requires state { StandsIn book.old state.now }
{
    match replay(book, f, steps, state, role) {
        Ok(end) => {
            let mut written = Vec::new(alloc);
            write_poly(book, end, names, &mut written).ok()?;
            Some(Ok(written))
        }
        Err(fault) => Some(Err(fault)),
    }
}

/// A state with a separant that is permitted, and one without.
const SPLIT: &[u8] =
    b"derivations x; ranking grlexA [u]; equations u[x]^2 - 4*u; inequations u[x]; end";

const WHOLE: &[u8] = b"derivations x; ranking grlexA [u]; equations u[x]^2 - 4*u; inequations; end";

/// What a replay of these steps on `u[x,x] - 2` at the root of a system answers, with the text of
/// the end.
fn replayed(
    alloc: Global,
    system: &[u8],
    steps: &StepList,
    role: Role,
) -> Option<Result<Vec<u8>, ReplayFault>> {
    let tree = read_system(alloc, system, Form::Plain).ok()?;
    let mut book = book_of(alloc, &tree)?;
    let state = root_of(alloc, &mut book, &tree)?;
    let f = read_poly(alloc, &mut book, &tree.names, b"u[x,x] - 2").ok()?;
    end_text(alloc, &mut book, &tree.names, f, steps, &state, role)
}

#[test]
fn a_step_needs_permission(rt: HostRuntime) -> Result<(), Fail> {
    let alloc = rt.alloc();
    let mut steps = StepList::new(alloc);
    steps.push(step(1, 1))?;
    let Some(Ok(end)) = replayed(alloc, SPLIT, &steps, Role::Free) else {
        panic!(rt; "no end");
    };
    assert!(rt; end.as_slice() == b"0".as_slice());
    let refused = replayed(alloc, WHOLE, &steps, Role::Free);
    assert!(rt; matches!(refused, Some(Err(ReplayFault::NotStep(1)))));
    let own = replayed(alloc, SPLIT, &steps, Role::Equation(1));
    assert!(rt; matches!(own, Some(Err(ReplayFault::NotStep(1)))));
    let left_out = replayed(alloc, SPLIT, &steps, Role::Inequation(1));
    assert!(rt; matches!(left_out, Some(Err(ReplayFault::NotStep(1)))));
    Ok(())
}

/// Whether the multiplier of the step at a place with so many derivations is permitted at the root
/// of a system.
fn permits(alloc: Global, system: &[u8], place: u16, order: u8) -> Option<bool> {
    let tree = read_system(alloc, system, Form::Plain).ok()?;
    let mut book = book_of(alloc, &tree)?;
    let state = root_of(alloc, &mut book, &tree)?;
    let operator = step(place, order).operator;
    permitted(&book, &state, Role::Free, place, operator).ok()
}

#[test]
fn a_separant_is_permitted_by_its_norm(rt: HostRuntime) {
    let alloc = rt.alloc();
    assert!(rt; permits(alloc, SPLIT, 1, 1) == Some(true));
    assert!(rt; permits(alloc, WHOLE, 1, 1) == Some(false));
    assert!(rt; permits(alloc, WHOLE, 1, 0) == Some(true));
    assert!(rt; permits(alloc, SPLIT, 2, 1) == Some(false));
}
