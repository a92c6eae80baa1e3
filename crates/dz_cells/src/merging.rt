//! One pass over two falling runs of cells.

ghost use Rattle.std.specs.Prelude.{◌≡◌, ◌+◌, length};
ghost use Rattle.std.specs.Ordering.{nat_cmp};
ghost use Rattle.std.specs.Cmp.Lexicographic.{slice_cmp};
ghost use Rattle.dz_algebra.specs.Gather.{merge};
ghost use Rattle.dz_arena.specs.Stacks.{HasRoomFor};
ghost use Rattle.dz_monomials.specs.Cells.{add_capped};
ghost use Rattle.dz_cells.specs.Rows.{AreRows};
ghost use Rattle.dz_cells.specs.Runs.{added, cells_of, IsExtended};

use crate::tally::Tally;
use dz_arena::Stack;
use dz_lane::rows_compare;
use std::cmp::Ordering;

/// Appends the cells of both runs to the begun runs of two stacks, the greatest row first, with
/// both tallies at each row that both have.
pub fn put_merged(
    width: usize,
    a_rows: &[u16],
    a_tallies: &[Tally],
    b_rows: &[u16],
    b_tallies: &[Tally],
    rows: &mut Stack<u16>,
    tallies: &mut Stack<Tally>,
)
    requires first { AreRows width a_rows.now a_tallies.now }
    requires second { AreRows width b_rows.now b_tallies.now }
    requires room_for_rows { HasRoomFor (length a_rows.now + length b_rows.now) rows.old }
    requires room_for_tallies { HasRoomFor (length a_tallies.now + length b_tallies.now) tallies.old }
    ensures rows { IsExtended rows.old rows.new }
    ensures tallies { IsExtended tallies.old tallies.new }
    ensures are_rows { AreRows width (added rows.old rows.new) (added tallies.old tallies.new) }
    ensures merged { cells_of width (added rows.old rows.new) (added tallies.old tallies.new)
        ≡ merge (slice_cmp nat_cmp) add_capped
        (cells_of width a_rows.now a_tallies.now) (cells_of width b_rows.now b_tallies.now) }
{
    let mut a_rows = a_rows;
    let mut a_tallies = a_tallies;
    let mut b_rows = b_rows;
    let mut b_tallies = b_tallies;
    'cells: loop {
        if a_tallies.is_empty() {
            rows.push_all(b_rows);
            tallies.push_all(b_tallies);
            return;
        }
        if b_tallies.is_empty() {
            rows.push_all(a_rows);
            tallies.push_all(a_tallies);
            return;
        }
        let (a_row, a_rest) = a_rows.split_at(width);
        let (b_row, b_rest) = b_rows.split_at(width);
        match rows_compare(b_row, a_row) {
            Ordering::Less => {
                rows.push_all(a_row);
                tallies.push(a_tallies[0]);
                a_rows = a_rest;
                a_tallies = &a_tallies[1..];
            }
            Ordering::Greater => {
                rows.push_all(b_row);
                tallies.push(b_tallies[0]);
                b_rows = b_rest;
                b_tallies = &b_tallies[1..];
            }
            Ordering::Equal => {
                rows.push_all(a_row);
                tallies.push(a_tallies[0].join(b_tallies[0]));
                a_rows = a_rest;
                a_tallies = &a_tallies[1..];
                b_rows = b_rest;
                b_tallies = &b_tallies[1..];
            }
        }
    }
}
