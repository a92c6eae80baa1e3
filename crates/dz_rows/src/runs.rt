// Full runs at the roots of systems, worked by hand.
ghost use Rattle.std.specs.Prelude.{◌≡◌};
ghost use Rattle.dz_poly.specs.Books.{Lives};
ghost use Rattle.dz_syntax.specs.Names.{signature_of};
ghost use Rattle.dz_diff.specs.States.{StandsIn};

use crate::states::{book_of, root_of};
use dz_form::{read_poly, write_poly};
use dz_poly::{Book, Limit, Poly};
use dz_rank::Operator;
use dz_step::{AttemptStop, Role, State, Step, StepList, reduce_fully};
use dz_syntax::{Form, Names, read_system};
use std::alloc::Global;

/// The first state of `u[x]^2 = 4*u` split by its separant, and the equations of the second.
const PARABOLA: &[u8] =
    b"derivations x, y; ranking grlexA [u, v]; equations u[x]^2 - 4*u; inequations u[x]; end";

const SINGULAR: &[u8] =
    b"derivations x; ranking grlexA [u]; equations u[x]^2 - 4*u, u[x]; inequations; end";

const DERIVED: &[u8] = b"derivations x; ranking grlexA [u]; equations u, u[x]; inequations; end";

const ZERO: &[u8] = b"derivations x; ranking grlexA [u]; equations u; inequations; end";

/// Two equations in two independents, with a critical pair.
const GRADIENT: &[u8] =
    b"derivations x, y; ranking grlexA [u]; equations u[x] - y, u[y] - x; inequations; end";

/// A Lotka-Volterra model that is observed through y, at the states of its decomposition.
const MODEL: &[u8] = b"derivations t; ranking grlexA [a, b] grlexA [y];
    equations a[t] - a + a*b, b[t] + b - a*b, a - y; inequations; end";

const OBSERVED: &[u8] = b"derivations t; ranking grlexA [a, b] grlexA [y];
    equations b*y + y[t] - y, b[t] + b - a*b, a - y; inequations; end";

const ALIVE: &[u8] = b"derivations t; ranking grlexA [a, b] grlexA [y];
    equations b*y + y[t] - y, b[t] - b*y + b, a - y; inequations y; end";

const EXTINCT: &[u8] = b"derivations t; ranking grlexA [a, b] grlexA [y];
    equations b*y + y[t] - y, b[t] - b*y + b, a - y, y; inequations; end";

const EXTINCT_TWO: &[u8] = b"derivations t; ranking grlexA [a, b] grlexA [y];
    equations b[t] - b*y + b, a - y, y; inequations; end";

const EXTINCT_THREE: &[u8] = b"derivations t; ranking grlexA [a, b] grlexA [y];
    equations b[t] + b, a - y, y; inequations; end";

/// Three equations in two unknowns and two independents, at the states of their decomposition.
const WAVE: &[u8] = b"derivations x, y; ranking grlexA [v, u];
    equations u[x]^2 - 4*u, u[x,y]*v[y] - u + 1, v[x,x] - u[x]; inequations u[x]; end";

const WAVE_TWO: &[u8] = b"derivations x, y; ranking grlexA [v, u];
    equations u[x]^2 - 4*u, u[x]*u - u[x] - 2*v[y]*u[y], v[x,x] - u[x];
    inequations u[x], u - 1; end";

const WAVE_THREE: &[u8] = b"derivations x, y; ranking grlexA [v, u];
    equations v[y]^2*u[y]^2 - u^3 + 2*u^2 - u, u[x]*u - u[x] - 2*v[y]*u[y], v[x,x] - u[x];
    inequations u[x], u - 1; end";

const WAVE_FOUR: &[u8] = b"derivations x, y; ranking grlexA [v, u];
    equations v[y]^2*u[y]^2 - u^3 + 2*u^2 - u, u[x]*u - u[x] - 2*v[y]*u[y],
    v[x,x]*u - v[x,x] - 2*v[y]*u[y], u[y]^2; inequations u[x], u - 1; end";

/// An inequation that an equation reduces.
const WEED: &[u8] =
    b"derivations x; ranking grlexA [u]; equations u[x] - u; inequations u[x,x]; end";

/// A system whose second step is too wide.
const POWER: &[u8] =
    b"derivations; ranking grlexA [u, v]; equations 10^25*u - 1, u^6 - v; inequations; end";

/// Operators by their exponents.
const ITSELF: [u8; 4] = [0, 0, 0, 0];

const ONCE: [u8; 4] = [1, 0, 0, 0];

const TWICE: [u8; 4] = [2, 0, 0, 0];

const BY_SECOND: [u8; 4] = [0, 1, 0, 0];

const E1: Role = Role::Equation(1);

const E2: Role = Role::Equation(2);

const E3: Role = Role::Equation(3);

/// Systems, roles, and polynomials; the places and operators of the steps of their full runs; the
/// ends, and the numbers of the steps and of the terms of all results together.
const FULL_RUNS: [(&[u8], Role, &[u8], &[(u16, [u8; 4])], &[u8], u32); 25] = [
    (PARABOLA, Role::Free, b"u[x,x] - 2", &[(1, ONCE)], b"0", 1),
    (
        PARABOLA,
        Role::Free,
        b"u[x]^3",
        &[(1, ITSELF)],
        b"u[x]*u",
        2,
    ),
    (
        PARABOLA,
        Role::Free,
        b"u[x,x,x]",
        &[(1, TWICE), (1, ONCE)],
        b"0",
        4,
    ),
    (PARABOLA, Role::Free, b"3*u[x] - 6*v", &[], b"u[x] - 2*v", 0),
    (
        PARABOLA,
        Role::Free,
        b"v[x]*u[x,x]^2",
        &[(1, ONCE), (1, ONCE), (1, ITSELF)],
        b"v[x]*u",
        6,
    ),
    (SINGULAR, E1, b"u[x]^2 - 4*u", &[(2, ITSELF)], b"u", 2),
    (DERIVED, E2, b"u[x]", &[(1, ONCE)], b"0", 1),
    (ZERO, Role::Free, b"u[x,x] - 2", &[(1, TWICE)], b"1", 2),
    (
        ZERO,
        Role::Free,
        b"u[x,x]*u[x] - 2*u[x]",
        &[(1, TWICE), (1, ONCE)],
        b"0",
        3,
    ),
    (GRADIENT, Role::Free, b"u[x,y]", &[(1, BY_SECOND)], b"1", 2),
    (GRADIENT, E1, b"u[x,y]", &[(2, ONCE)], b"1", 2),
    (GRADIENT, E1, b"u[x] - y", &[], b"u[x] - y", 0),
    (
        GRADIENT,
        Role::Free,
        b"u[x]*u[y]",
        &[(1, ITSELF), (2, ITSELF)],
        b"x*y",
        4,
    ),
    (
        GRADIENT,
        Role::Free,
        b"u[x,x] + u[y,y]",
        &[(1, ONCE), (2, BY_SECOND)],
        b"0",
        3,
    ),
    (
        MODEL,
        E1,
        b"a[t] - a + a*b",
        &[(3, ONCE), (3, ITSELF)],
        b"b*y + y[t] - y",
        8,
    ),
    (
        OBSERVED,
        E2,
        b"b[t] + b - a*b",
        &[(3, ITSELF)],
        b"b[t] - b*y + b",
        4,
    ),
    (
        ALIVE,
        E2,
        b"b[t] - b*y + b",
        &[(1, ONCE), (1, ITSELF)],
        b"y[t,t]*y - y[t]^2 - y[t]*y^2 + y[t]*y + y^3 - y^2",
        13,
    ),
    (
        EXTINCT,
        E1,
        b"b*y + y[t] - y",
        &[(4, ONCE), (4, ITSELF)],
        b"0",
        4,
    ),
    (
        EXTINCT_TWO,
        E1,
        b"b[t] - b*y + b",
        &[(3, ITSELF)],
        b"b[t] + b",
        3,
    ),
    (EXTINCT_THREE, E2, b"a - y", &[(3, ITSELF)], b"a", 2),
    (
        WAVE,
        E2,
        b"u[x,y]*v[y] - u + 1",
        &[(1, BY_SECOND)],
        b"u[x]*u - u[x] - 2*v[y]*u[y]",
        4,
    ),
    (
        WAVE_TWO,
        E1,
        b"u[x]^2 - 4*u",
        &[(2, ITSELF), (2, ITSELF)],
        b"v[y]^2*u[y]^2 - u^3 + 2*u^2 - u",
        9,
    ),
    (
        WAVE_THREE,
        E3,
        b"v[x,x] - u[x]",
        &[(2, ITSELF)],
        b"v[x,x]*u - v[x,x] - 2*v[y]*u[y]",
        4,
    ),
    (
        WAVE_FOUR,
        E1,
        b"v[y]^2*u[y]^2 - u^3 + 2*u^2 - u",
        &[(4, ITSELF)],
        b"u^3 - 2*u^2 + u",
        4,
    ),
    (
        WEED,
        Role::Inequation(1),
        b"u[x,x]",
        &[(1, ONCE), (1, ITSELF)],
        b"u",
        4,
    ),
];

/// Systems, roles, polynomials and budgets; the steps up to where the full runs stop, and why.
const CUT_RUNS: [(&[u8], Role, &[u8], u32, &[(u16, [u8; 4])], AttemptStop); 5] = [
    (
        PARABOLA,
        Role::Free,
        b"u[x,x] - 2",
        0,
        &[],
        AttemptStop::Spent(SECOND),
    ),
    (
        PARABOLA,
        Role::Free,
        b"u[x,x,x]",
        2,
        &[],
        AttemptStop::Spent(THIRD),
    ),
    (
        PARABOLA,
        Role::Free,
        b"u[x,x] + 170141183460469231731687303715884105727*v",
        100,
        &[],
        AttemptStop::Wide(SECOND),
    ),
    (
        PARABOLA,
        Role::Free,
        b"u[x,x]*u[x]^65535",
        100,
        &[],
        AttemptStop::Large(Limit::Exponent, SECOND),
    ),
    (
        POWER,
        E2,
        b"u^6 - v",
        100,
        &[(1, ITSELF)],
        AttemptStop::Wide(FIRST),
    ),
];

/// The steps by the first equation and its first and second derivative.
const FIRST: Step = Step {
    place: 1,
    operator: Operator { counts: ITSELF },
};

const SECOND: Step = Step {
    place: 1,
    operator: Operator { counts: ONCE },
};

const THIRD: Step = Step {
    place: 1,
    operator: Operator { counts: TWICE },
};

/// How a full run ends: the steps, and the text of its end or why it stops before.
#[derive(Drop)]
struct Ending {
    steps: StepList,
    end: Result<Vec<u8>, AttemptStop>,
}

/// How a full run at a state ends.
fn ended(
    alloc: Global,
    book: &mut Book,
    names: &Names,
    f: Poly,
    state: &State,
    role: Role,
    budget: u32,
) -> Option<Ending>
    requires signature { signature_of names.now ≡ book.old.ranking.signature }
    requires f { Lives book.old f }
    requires state { StandsIn book.old state.now }
{
    match reduce_fully(alloc, book, f, state, role, budget) {
        Ok((steps, end)) => {
            let mut written = Vec::new(alloc);
            write_poly(book, end, names, &mut written).ok()?;
            Some(Ending {
                steps,
                end: Ok(written),
            })
        }
        Err(attempt) => Some(Ending {
            steps: attempt.run,
            end: Err(attempt.stop),
        }),
    }
}

/// How the full run on a polynomial ends, at the root of a system.
fn full_run(alloc: Global, system: &[u8], role: Role, text: &[u8], budget: u32) -> Option<Ending> {
    let tree = read_system(alloc, system, Form::Plain).ok()?;
    let mut book = book_of(alloc, &tree)?;
    let state = root_of(alloc, &mut book, &tree)?;
    let f = read_poly(alloc, &mut book, &tree.names, text).ok()?;
    ended(alloc, &mut book, &tree.names, f, &state, role, budget)
}

/// Whether steps have these places and operators.
fn are_steps(steps: &StepList, expected: &[(u16, [u8; 4])]) -> bool {
    if steps.len() != expected.len() {
        return false;
    }
    for k in 0..expected.len() {
        let (place, counts) = expected[k];
        let operator = Operator { counts };
        if k < steps.len() && steps.get(k) != (Step { place, operator }) {
            return false;
        }
    }
    true
}

/// Whether a full run stops at the last of its steps where the budget is one less than its count.
fn stops_at_last(
    alloc: Global,
    system: &[u8],
    role: Role,
    text: &[u8],
    expected: &[(u16, [u8; 4])],
    count: u32,
) -> bool {
    let [before @ .., last] = expected else {
        return true;
    };
    let budget = count.saturating_sub(1);
    let Some(Ending { steps, end }) = full_run(alloc, system, role, text, budget) else {
        return false;
    };
    let (place, counts) = *last;
    let operator = Operator { counts };
    are_steps(&steps, before) && end.err() == Some(AttemptStop::Spent(Step { place, operator }))
}

/// The number of the first system, from 0, whose full run does not come to its end as worked within
/// its count, or comes there within less.
fn first_other_end(
    alloc: Global,
    rows: &[(&[u8], Role, &[u8], &[(u16, [u8; 4])], &[u8], u32)],
) -> Option<usize> {
    for i in 0..rows.len() {
        let (system, role, text, expected, end, count) = rows[i];
        let Some(Ending { steps, end: found }) = full_run(alloc, system, role, text, count) else {
            return Some(i);
        };
        let Ok(written) = found else {
            return Some(i);
        };
        if !are_steps(&steps, expected) || written.as_slice() != end {
            return Some(i);
        }
        if !stops_at_last(alloc, system, role, text, expected, count) {
            return Some(i);
        }
    }
    None
}

/// The number of the first system, from 0, whose full run does not stop as worked.
fn first_other_stop(
    alloc: Global,
    rows: &[(&[u8], Role, &[u8], u32, &[(u16, [u8; 4])], AttemptStop)],
) -> Option<usize> {
    for i in 0..rows.len() {
        let (system, role, text, budget, expected, stop) = rows[i];
        let Some(Ending { steps, end }) = full_run(alloc, system, role, text, budget) else {
            return Some(i);
        };
        if !are_steps(&steps, expected) || end.err() != Some(stop) {
            return Some(i);
        }
    }
    None
}

#[test]
fn full_runs_come_to_their_ends(rt: HostRuntime) {
    assert!(rt; first_other_end(rt.alloc(), &FULL_RUNS) == None);
}

#[test]
fn full_runs_stop_at_named_steps(rt: HostRuntime) {
    assert!(rt; first_other_stop(rt.alloc(), &CUT_RUNS) == None);
}
