//! Sums of absolute values that stay in range.

ghost use Rattle.std.specs.Prelude.{◌≡◌, ◌<◌, ◌≤◌, ◌+◌, ◌*◌, unsigned_abs, MatchBool};
ghost use Rattle.dz_int.specs.Numbers.{greatest};

use crate::divisors::GREATEST;
use std::marker::Model;

/// A sum of absolute values of products, at most `2^127 - 1`.
///
/// Such a sum bounds every sum of some of its products, in whatever order they are added.
#[derive(Clone, Copy, Debug, PartialEq, Eq)]
pub struct Majorant {
    sum: u128,
}

impl Model for Majorant {
    ghost use Rattle.std.specs.Prelude.{ℕ, ◌≤◌};
    ghost use Rattle.dz_int.specs.Numbers.{greatest};

    ghost Value = { ℕ };

    ghost view = { λ m. m.sum };

    ghost inverse = { λ n. record { sum = n } };

    ghost invariant = { λ m. m.sum ≤ greatest };
}

impl Majorant {
    /// The empty sum, 0.
    pub fn new() -> Majorant
        ensures { result ≡ 0 }
    {
        Majorant { sum: 0 }
    }

    /// Adds the absolute value of `a * b`, and answers true; where the sum would pass `2^127 - 1`,
    /// changes nothing, and answers false.
    pub fn add_product(&mut self, a: i128, b: i128) -> bool
        ensures { MatchBool result
            ((self.new ≡ self.old + unsigned_abs a * unsigned_abs b) × (self.new ≤ greatest))
            ((self.new ≡ self.old) × (greatest < self.old + unsigned_abs a * unsigned_abs b)) }
    {
        let Some(product) = a.unsigned_abs().checked_mul(b.unsigned_abs()) else {
            return false;
        };
        if GREATEST - self.sum < product {
            return false;
        }
        self.sum += product;
        true
    }

    /// The sum so far.
    pub fn value(self) -> u128
        ensures value { result ≡ self }
        ensures in_range { result ≤ greatest }
    {
        self.sum
    }
}
