//! The rows at which a run begins.

ghost use Rattle.std.specs.Prelude.{◌≡◌, ◌<◌, ◌≤◌, ◌+◌, ◌∷◌, length, set, negsuc, IfOk};
ghost use Rattle.dz_poly.specs.Books.{Lives, polynomial};
ghost use Rattle.dz_rank.specs.Rankings.{RankingValue};
ghost use Rattle.dz_monomials.specs.Terms.{constant_polynomial};
ghost use Rattle.dz_diff.specs.States.{LiveAll, polynomials};
ghost use Rattle.dz_regular.specs.Rows.{equation_row, inequation_row, zeros};
ghost use Rattle.dz_regular.specs.Working.{AreEntries, IsRow, polynomials_of, row_in};

use dz_poly::{Book, Poly};
use dz_terms::{Entry, copied, number};
use std::alloc::{AllocError, Global};

/// A row while a run goes on: its rest, its cofactor and its parts, in this order.
#[derive(Drop)]
pub(crate) struct WorkingRow {
    pub(crate) number: u32,
    pub(crate) components: Vec<Entry>,
}

/// So many polynomials that are zero.
fn zeros(alloc: Global, count: usize) -> Result<Vec<Entry>, AllocError>
    ensures zeros { IfOk result (λ all. polynomials_of all.items ≡ zeros count) }
    ensures entries { IfOk result (λ all. (r : RankingValue) → AreEntries r all.items) }
    ensures width { IfOk result (λ all. length all.items ≡ count) }
{
    let mut all = Vec::with_capacity(alloc, count)?;
    for _ in 0..count {
        let zero = number(alloc, 0)?;
        all.push(zero)?;
    }
    Ok(all)
}

/// The parts of the equation with an index: -1 there, and zero elsewhere.
fn unit_parts(alloc: Global, count: usize, i: usize) -> Result<Vec<Entry>, AllocError>
    requires { i < count }
    ensures parts { IfOk result (λ all. polynomials_of all.items
        ≡ set (zeros count) i (constant_polynomial (negsuc 0))) }
    ensures entries { IfOk result (λ all. (r : RankingValue) → AreEntries r all.items) }
    ensures width { IfOk result (λ all. length all.items ≡ count) }
{
    let mut all = zeros(alloc, count)?;
    let unit = number(alloc, -1)?;
    all[i] = unit;
    Ok(all)
}

/// A row with these components.
fn row_of(
    alloc: Global,
    number: u32,
    rest: Entry,
    cofactor: Entry,
    parts: Vec<Entry>,
) -> Result<WorkingRow, AllocError>
    ensures number { IfOk result (λ row. row.number ≡ number) }
    ensures components { IfOk result (λ row.
        row.components.items ≡ rest ∷ cofactor ∷ parts.items) }
{
    let mut parts = parts;
    let mut components = Vec::with_capacity(alloc, parts.len())?;
    components.push(rest)?;
    components.push(cofactor)?;
    components.append(&mut parts)?;
    Ok(WorkingRow { number, components })
}

/// Row 0 of an inequation.
pub(crate) fn inequation_row(
    alloc: Global,
    book: &Book,
    equations: &[Poly],
    h: Poly,
) -> Result<WorkingRow, AllocError>
    requires { Lives book.now h }
    ensures row { IfOk result (λ row. row_in row ≡ record {
      number = 0;
      components = inequation_row (polynomials book.now equations.now) (polynomial book.now h);
    }) }
    ensures entries { IfOk result (λ row.
        IsRow book.now.ranking (length equations.now) row) }
{
    let rest = copied(alloc, book.entry(h))?;
    let cofactor = number(alloc, 1)?;
    let parts = zeros(alloc, equations.len())?;
    let row = row_of(alloc, 0, rest, cofactor, parts)?;
    Ok(row)
}

/// The row of the equation with an index, and its number.
pub(crate) fn equation_row(
    alloc: Global,
    book: &Book,
    equations: &[Poly],
    i: usize,
) -> Result<WorkingRow, AllocError>
    requires live { LiveAll book.now equations.now }
    requires inside { i < length equations.now }
    requires few { length equations.now ≤ 65535 }
    ensures row { IfOk result (λ row. row_in row ≡ record {
      number = i + 1;
      components = equation_row (polynomials book.now equations.now) i;
    }) }
    ensures entries { IfOk result (λ row.
        IsRow book.now.ranking (length equations.now) row) }
{
    let rest = copied(alloc, book.entry(equations[i]))?;
    let cofactor = number(alloc, 0)?;
    let parts = unit_parts(alloc, equations.len(), i)?;
    let row = row_of(alloc, i as u32 + 1, rest, cofactor, parts)?;
    Ok(row)
}
