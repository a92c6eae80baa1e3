//! The cones of operators, direction by direction.

ghost use Rattle.std.specs.Prelude.{◌≡◌, ◌<◌, ◌≤◌, ◌+◌, ◌-◌, ◌++◌, Err, IfOk, OnOk, length, map, nat_le, slice_index_or, slice_set, drop, ◌==◌};
ghost use Rattle.std.specs.List.{filter, list_all};
ghost use Rattle.dz_parametric.specs.Cones.{cones_of_exponents, greatest_first, has_identity};
ghost use Rattle.dz_parametric.specs.Dividing.{completed, tails};
ghost use Rattle.dz_parametric.specs.declared.listing.ConeFault.TheVariants.{TooMany};

use crate::listing::{Cone, ConeFault};
use dz_rank::Operator;
use std::alloc::{AllocError, Global};

/// The greatest number of cones.
const MOST_CONES: usize = 4096;

/// Whether an operator takes no derivation in the directions from a position on.
fn is_identity_from(operator: Operator, i: u8) -> bool
    requires { i ≤ 4 }
    ensures { result ≡ list_all (λ k. k == 0) (drop i operator.counts) }
{
    for j in i..4 {
        if operator.counts[j as usize] != 0 {
            return false;
        }
    }
    true
}

/// Whether one of the operators takes none.
fn has_identity_from(operators: &[Operator], i: u8) -> bool
    requires { i ≤ 4 }
    ensures { result ≡ has_identity (tails i operators.now) }
{
    for operator in operators {
        if is_identity_from(*operator, i) {
            return true;
        }
    }
    false
}

/// The greatest exponent of the operators in a direction.
fn greatest(operators: &[Operator], i: u8) -> u8
    requires { i < 4 }
    ensures { result ≡ greatest_first (tails i operators.now) }
{
    let mut most = 0;
    for operator in operators {
        most = most.max(operator.counts[i as usize]);
    }
    most
}

/// The operators whose exponent in a direction is at most `most`.
fn operators_to(
    alloc: Global,
    operators: &[Operator],
    i: u8,
    most: u8,
) -> Result<Vec<Operator>, AllocError>
    requires { i < 4 }
    ensures { IfOk result (λ ts. ts.items
        ≡ filter (λ t. nat_le (slice_index_or t.counts i 0) most) operators.now) }
{
    let mut kept = Vec::new(alloc);
    for operator in operators {
        if operator.counts[i as usize] <= most {
            kept.push(*operator)?;
        }
    }
    Ok(kept)
}

/// A cone with a direction.
fn with_direction(cone: Cone, i: u8, exponent: u8, free: bool) -> Cone
    requires { i < 4 }
    ensures { result ≡ record {
      dependent = cone.dependent;
      operator = record { counts = slice_set cone.operator.counts i exponent };
      free = slice_set cone.free i free;
    } }
{
    let mut cone = cone;
    cone.operator.counts[i as usize] = exponent;
    cone.free[i as usize] = free;
    cone
}

/// Adds the cones of operators in the directions from a position on, each with the directions that
/// `cone` has before it. A call that is not at the end adds a cone, or ends at once: so there are
/// no more than some 300 calls for a cone, none of them longer than the list of operators.
pub(crate) fn add_cones(
    alloc: Global,
    found: &mut Vec<Cone>,
    operators: &[Operator],
    independents: u8,
    cone: Cone,
    i: u8,
) -> Result<(), ConeFault>
    requires within { i ≤ independents }
    requires few { independents ≤ 4 }
    requires room { length found.old.items ≤ 4096 }
    ensures added { OnOk result (found.new.items ≡ found.old.items
        ++ map (completed i independents cone)
        (cones_of_exponents (independents - i) (tails i operators.now))) }
    ensures room { OnOk result (length found.new.items ≤ 4096) }
    ensures too_many { result ≡ Err TooMany → 4096 < length found.old.items
        + length (cones_of_exponents (independents - i) (tails i operators.now)) }
{
    if i == independents {
        if operators.is_empty() {
            if found.len() == MOST_CONES {
                return Err(ConeFault::TooMany);
            }
            found.push(cone)?;
        }
        return Ok(());
    }
    if has_identity_from(operators, i) {
        return Ok(());
    }
    let most = greatest(operators, i);
    for k in 0..most {
        let reached = operators_to(alloc, operators, i, k)?;
        let part = with_direction(cone, i, k, false);
        add_cones(alloc, found, reached.as_slice(), independents, part, i + 1)?;
    }
    let last = with_direction(cone, i, most, true);
    add_cones(alloc, found, operators, independents, last, i + 1)
}
