//! The polynomial that cells make.

ghost use Rattle.std.specs.Prelude.{◌≡◌, ◌++◌, [], ◌∷◌, cond, length, Some, None, IsTrue, false};
ghost use Rattle.dz_algebra.specs.Whole.{whole_is_zero};
ghost use Rattle.dz_arena.specs.Stacks.{HasRoomFor, with_cells};
ghost use Rattle.dz_cells.specs.Rows.{AreRows, rows_with, kept_rows};
ghost use Rattle.dz_cells.specs.Runs.{added, cells_of, IsExtended};

use crate::tally::Tally;
use dz_arena::Stack;

/// Appends a row with its total, if that is not zero.
fn put_kept(row: &[u16], total: i128, rows: &mut Stack<u16>, coefficients: &mut Stack<i128>)
    requires room_for_rows { HasRoomFor (length row.now) rows.old }
    requires room_for_coefficients { HasRoomFor 1 coefficients.old }
    ensures rows { rows.new ≡ with_cells rows.old
        (rows.old.cells ++ cond (whole_is_zero total) [] row.now) }
    ensures coefficients { coefficients.new ≡ with_cells coefficients.old
        (coefficients.old.cells ++ cond (whole_is_zero total) [] (total ∷ [])) }
{
    if total != 0 {
        rows.push_all(row);
        coefficients.push(total);
    }
}

/// Appends the rows with totals that are not zero to the begun runs of two stacks. It answers false
/// where a cell does not fit.
pub fn put_finished(
    width: usize,
    from_rows: &[u16],
    from_tallies: &[Tally],
    rows: &mut Stack<u16>,
    coefficients: &mut Stack<i128>,
) -> bool
    requires are_rows { AreRows width from_rows.now from_tallies.now }
    requires room_for_rows { HasRoomFor (length from_rows.now) rows.old }
    requires room_for_coefficients { HasRoomFor (length from_tallies.now) coefficients.old }
    ensures rows { IsExtended rows.old rows.new }
    ensures coefficients { IsExtended coefficients.old coefficients.new }
    ensures are_rows { AreRows width (added rows.old rows.new)
        (added coefficients.old coefficients.new) }
    ensures kept { IsTrue result → kept_rows (cells_of width from_rows.now from_tallies.now)
        ≡ Some (rows_with width (added rows.old rows.new)
        (added coefficients.old coefficients.new)) }
    ensures wide { result ≡ false
        → kept_rows (cells_of width from_rows.now from_tallies.now) ≡ None }
{
    let mut from_rows = from_rows;
    let mut from_tallies = from_tallies;
    'cells: while !from_tallies.is_empty() {
        let (row, rest) = from_rows.split_at(width);
        let Some(total) = from_tallies[0].total() else {
            return false;
        };
        put_kept(row, total, rows, coefficients);
        from_rows = rest;
        from_tallies = &from_tallies[1..];
    }
    true
}
