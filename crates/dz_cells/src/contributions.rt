//! What terms contribute.

ghost use Rattle.std.specs.Prelude.{◌≡◌, ◌≤◌, length, map, not, true, IsTrue};
ghost use Rattle.dz_algebra.specs.Amount.{amount};
ghost use Rattle.dz_arena.specs.Stacks.{HasRoomFor};
ghost use Rattle.dz_monomials.specs.Cells.{capped};
ghost use Rattle.dz_monomials.specs.Signs.{signed};
ghost use Rattle.dz_cells.specs.Rows.{AreRows, rows_with, row_times, sums_pass};
ghost use Rattle.dz_cells.specs.Runs.{added, cells_of, IsExtended};
ghost use Rattle.dz_cells.specs.Tallies.{tallied};

use crate::tally::Tally;
use dz_arena::Stack;
use dz_lane::rows_add;
use dz_terms::Sign;

/// The most symbols that occur in a polynomial.
const MOST_SYMBOLS: usize = 64;

/// Appends each coefficient, taken with a sign, as one contribution to a begun run.
pub fn put_signed(sign: Sign, coefficients: &[i128], tallies: &mut Stack<Tally>)
    requires { HasRoomFor (length coefficients.now) tallies.old }
    ensures extended { IsExtended tallies.old tallies.new }
    ensures contributions { map tallied (added tallies.old tallies.new)
        ≡ map (λ c. capped (amount (signed sign c))) coefficients.now }
{
    for i in 0..coefficients.len() {
        tallies.push(Tally::signed(sign, coefficients[i]));
    }
}

/// Appends the products of a term with all terms of a polynomial to the begun runs of two stacks,
/// the greatest row first. It answers false where a sum of exponents passes 65,535.
pub fn put_products(
    row: &[u16],
    coefficient: i128,
    b_rows: &[u16],
    b_coefficients: &[i128],
    rows: &mut Stack<u16>,
    tallies: &mut Stack<Tally>,
) -> bool
    requires width { length row.now ≤ 64 }
    requires are_rows { AreRows (length row.now) b_rows.now b_coefficients.now }
    requires room_for_rows { HasRoomFor (length b_rows.now) rows.old }
    requires room_for_tallies { HasRoomFor (length b_coefficients.now) tallies.old }
    ensures rows { IsExtended rows.old rows.new }
    ensures tallies { IsExtended tallies.old tallies.new }
    ensures high { result ≡ not (sums_pass row.now
        (rows_with (length row.now) b_rows.now b_coefficients.now)) }
    ensures are_rows { IsTrue result
        → AreRows (length row.now) (added rows.old rows.new) (added tallies.old tallies.new) }
    ensures products { IsTrue result
        → cells_of (length row.now) (added rows.old rows.new) (added tallies.old tallies.new)
        ≡ row_times row.now coefficient
        (rows_with (length row.now) b_rows.now b_coefficients.now) }
{
    let mut sums = [0u16; MOST_SYMBOLS];
    let mut b_rows = b_rows;
    let mut b_coefficients = b_coefficients;
    'terms: while !b_coefficients.is_empty() {
        let (other, rest) = b_rows.split_at(row.len());
        if !rows_add(row, other, &mut sums[..row.len()]) {
            return false;
        }
        rows.push_all(&sums[..row.len()]);
        tallies.push(Tally::of_product(coefficient, b_coefficients[0]));
        b_rows = rest;
        b_coefficients = &b_coefficients[1..];
    }
    true
}
