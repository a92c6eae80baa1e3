//! One run of the program over objects in memory.

use crate::cases::{At, Case};
use dz_case::CaseStop;
use dz_domain::{Adjoin, Coefficients, Domain, Point, Whole};
use dz_outside::{MemSink, MemSource};
use dz_run::blad_run;
use std::alloc::{AllocError, Global};

/// The most bytes of a message.
const MESSAGE_ROOM: usize = 1000;

/// The status of a run, what its output holds, and its message.
#[derive(Drop)]
pub(crate) struct Ran {
    pub(crate) status: u8,
    pub(crate) output: Vec<u8>,
    pub(crate) message: Vec<u8>,
}

/// The words as the program gets them.
fn words_of(alloc: Global, case: &Case<'_>) -> Result<Vec<String>, CaseStop> {
    let mut words = Vec::new(alloc);
    for word in case.words.iter() {
        let Ok(word) = str::from_utf8(word) else {
            return Err(CaseStop::NoCase);
        };
        words.push(String::from_str(alloc, word)?)?;
    }
    Ok(words)
}

/// Runs the program on a case, and tells it a point.
fn run_at<D: Domain>(alloc: Global, case: Case<'_>, at: &Point<D>) -> Result<Ran, CaseStop> {
    let words = words_of(alloc, &case)?;
    let gives = (case.gives as usize).max(1);
    let mut input = MemSource::new(case.bytes, gives, case.failing_reads);
    let mut out = MemSink::new(
        alloc,
        case.room as usize,
        case.takes as usize,
        case.failing_writes,
    )?;
    let mut err = MemSink::new(alloc, MESSAGE_ROOM, MESSAGE_ROOM, case.failing_messages)?;
    let status = blad_run(alloc, &words, &mut input, &mut out, &mut err, at);
    Ok(Ran {
        status,
        output: out.bytes().to_vec(alloc)?,
        message: err.bytes().to_vec(alloc)?,
    })
}

/// The point over polynomials in x at which the first independent is x, and the first unknown its
/// square.
fn square(alloc: Global) -> Result<Point<Adjoin<Whole>>, AllocError> {
    let x = Coefficients::new(vec![in alloc; 0i128, 1]?);
    let u = Coefficients::new(vec![in alloc; 0i128, 0, 1]?);
    let at = Point::new(
        Adjoin::new(Whole::new()),
        vec![in alloc; x]?,
        vec![in alloc; u]?,
    );
    Ok(at)
}

/// The point over polynomials in x and y at which the first independent is x, and the first unknown
/// the square of x, and y.
fn square_and_constant(alloc: Global) -> Result<Point<Adjoin<Adjoin<Whole>>>, AllocError> {
    // The coefficients are polynomials in x, and the last variable is y.
    let x = Coefficients::new(vec![in alloc; Coefficients::new(vec![in alloc; 0i128, 1]?)]?);
    let square = Coefficients::new(vec![in alloc; 0i128, 0, 1]?);
    let one = Coefficients::new(vec![in alloc; 1i128]?);
    let u = Coefficients::new(vec![in alloc; square, one]?);
    let at = Point::new(
        Adjoin::new(Adjoin::new(Whole::new())),
        vec![in alloc; x]?,
        vec![in alloc; u]?,
    );
    Ok(at)
}

/// Runs the program on a case.
pub(crate) fn run(alloc: Global, case: Case<'_>) -> Result<Ran, CaseStop> {
    match case.at {
        At::Nothing => run_at(alloc, case, &Point::empty(alloc, Whole::new())),
        At::Square => run_at(alloc, case, &square(alloc)?),
        At::SquareAndConstant => run_at(alloc, case, &square_and_constant(alloc)?),
    }
}
