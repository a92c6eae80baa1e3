// Leaders and initials of polynomials that are read from texts, and states.
ghost use Rattle.std.specs.Prelude.{◌≡◌};
ghost use Rattle.dz_syntax.specs.Names.{signature_of};

use crate::forms::{book, names};
use dz_diff::{State, initial, leader};
use dz_form::{read_poly, write_poly};
use dz_rank::{Operator, Symbol};
use dz_syntax::Names;
use std::alloc::Global;
use std::test::Fail;

/// Texts of polynomials, the leader of each by its dependent and exponents, and its initial.
const LED: [(&[u8], u8, [u8; 4], &[u8]); 4] = [
    (b"2*x*u - 6", 0, [0, 0, 0, 0], b"2*x"),
    (b"u*v - v^3", 0, [0, 0, 0, 0], b"v"),
    (
        b"(v + x)*u[x]^2 + u[x]*u^7 + y^9",
        0,
        [1, 0, 0, 0],
        b"v + x",
    ),
    (b"u[x]^3*v[y,y] - v[x]^5", 1, [0, 2, 0, 0], b"u[x]^3"),
];

/// Texts of ground polynomials.
const GROUND: [&[u8]; 3] = [b"0", b"7", b"x^2*y - 1"];

/// The leader of the polynomial that a text is read as, and the text of its initial.
#[tactic(auto, using(dz_diff::proofs::Leading::led_not_ground))]
fn parts(alloc: Global, names: &Names, text: &[u8]) -> Option<(Symbol, Vec<u8>)>
    requires { signature_of names.now ≡ record { independents = 2; dependents = 2 } }
{
    let mut book = book(alloc).ok()?;
    let p = read_poly(alloc, &mut book, names, text).ok()?;
    let leader = leader(&book, p)?;
    let initial = initial(&mut book, p).ok()?;
    let mut written = Vec::new(alloc);
    write_poly(&book, initial, names, &mut written).ok()?;
    Some((leader, written))
}

#[test]
fn a_polynomial_has_a_leader_and_an_initial(rt: HostRuntime) {
    let Some(names) = names(rt.alloc()) else {
        panic!(rt; "no names");
    };
    for (text, dependent, counts, initial) in LED.iter() {
        let Some((found, written)) = parts(rt.alloc(), &names, text) else {
            panic!(rt; "no leader");
        };
        let leader = Symbol::Derivative {
            dependent: *dependent,
            operator: Operator { counts: *counts },
        };
        assert!(rt; found == leader);
        assert!(rt; written.as_slice() == *initial);
    }
    for text in GROUND.iter() {
        assert!(rt; parts(rt.alloc(), &names, text).is_none());
    }
}

#[test]
fn a_state_may_be_empty(rt: HostRuntime) -> Result<(), Fail> {
    let alloc = rt.alloc();
    let book = book(alloc)?;
    let state = State::new(&book, Vec::new(alloc), Vec::new(alloc), 0);
    assert!(rt; state.equations().is_empty());
    assert!(rt; state.inequations().is_empty());
    assert!(rt; state.splits() == 0);
    Ok(())
}
