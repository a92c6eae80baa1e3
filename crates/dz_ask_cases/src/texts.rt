//! The texts of runs, products and stops.

use dz_ask::Power;
use dz_form::limit_word;
use dz_rank::Operator;
use dz_step::{AttemptStop, Step, StepList};
use itoa::Buffer;
use std::alloc::AllocError;

/// Appends a number.
pub(crate) fn write_number(into: &mut Vec<u8>, number: usize) -> Result<(), AllocError> {
    let mut buffer = Buffer::new();
    into.extend_from_slice(buffer.format(number).as_bytes())
}

/// Appends a letter so many times, with commas between; whether nothing stands before it still.
fn write_letters(
    into: &mut Vec<u8>,
    letter: &[u8],
    count: u8,
    is_first: bool,
) -> Result<bool, AllocError> {
    let mut is_first = is_first;
    for _ in 0..count {
        if !is_first {
            into.extend_from_slice(b",")?;
        }
        into.extend_from_slice(letter)?;
        is_first = false;
    }
    Ok(is_first)
}

/// Appends an operator.
fn write_operator(into: &mut Vec<u8>, operator: Operator) -> Result<(), AllocError> {
    let [i, j, k, l] = operator.counts;
    let is_first = write_letters(into, b"x", i, true)?;
    let is_first = write_letters(into, b"y", j, is_first)?;
    let is_first = write_letters(into, b"z", k, is_first)?;
    let is_first = write_letters(into, b"w", l, is_first)?;
    if is_first {
        into.extend_from_slice(b"-")?;
    }
    Ok(())
}

/// Appends a step.
fn write_step(into: &mut Vec<u8>, step: Step) -> Result<(), AllocError> {
    write_number(into, step.place as usize)?;
    into.extend_from_slice(b":")?;
    write_operator(into, step.operator)
}

/// Appends the steps of a run, each with a blank before it.
pub(crate) fn write_run(into: &mut Vec<u8>, run: &StepList) -> Result<(), AllocError> {
    into.extend_from_slice(b"run")?;
    for k in 0..run.len() {
        into.extend_from_slice(b" ")?;
        write_step(into, run.get(k))?;
    }
    into.extend_from_slice(b"\n")
}

/// Appends why a run or a preparation stops, with its step; want of memory is told as that.
pub(crate) fn write_stop(into: &mut Vec<u8>, stop: AttemptStop) -> Result<(), AllocError> {
    match stop {
        AttemptStop::Memory => Err(AllocError),
        AttemptStop::Wide(step) => {
            into.extend_from_slice(b"stopped wide ")?;
            write_step(into, step)
        }
        AttemptStop::Large(limit, step) => {
            into.extend_from_slice(b"stopped large ")?;
            into.extend_from_slice(limit_word(limit))?;
            into.extend_from_slice(b" ")?;
            write_step(into, step)
        }
        AttemptStop::Spent(step) => {
            into.extend_from_slice(b"stopped spent ")?;
            write_step(into, step)
        }
    }
}

/// Appends a product.
pub(crate) fn write_product(into: &mut Vec<u8>, product: &[Power]) -> Result<(), AllocError> {
    if product.is_empty() {
        return into.extend_from_slice(b" -");
    }
    for power in product {
        into.extend_from_slice(b" ")?;
        write_number(into, power.place as usize)?;
        into.extend_from_slice(b":")?;
        write_operator(into, power.operator)?;
        into.extend_from_slice(b"^")?;
        write_number(into, power.exponent as usize)?;
    }
    Ok(())
}
