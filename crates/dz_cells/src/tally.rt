//! What is added up at a monomial.

ghost use Rattle.std.specs.Prelude.{◌≡◌, ◌*ℤ◌};
ghost use Rattle.dz_algebra.specs.Amount.{amount};
ghost use Rattle.dz_monomials.specs.Cells.{add_capped, capped};
ghost use Rattle.dz_monomials.specs.Signs.{signed};
ghost use Rattle.dz_cells.specs.Tallies.{tallied};

use dz_terms::Sign;

/// The greatest absolute value of a coefficient, `2^127 - 1`.
const GREATEST: u128 = 170141183460469231731687303715884105727;

/// What is added up at a monomial: the sum of the positive contributions, and the sum of the
/// absolute values of the negative ones. A sum that is too great stays so, since it grows no
/// further than to the greatest number; so two of them are added without a test.
#[derive(Clone, Copy)]
pub struct Tally {
    pub plus: u128,
    pub minus: u128,
}

impl Tally {
    ghost use Rattle.std.specs.Prelude.{◌≡◌, ◌*ℤ◌};
    ghost use Rattle.std.specs.Option.{option_map};
    ghost use Rattle.dz_monomials.specs.Signs.{signed};
    ghost use Rattle.dz_algebra.specs.Amount.{amount};
    ghost use Rattle.dz_monomials.specs.Cells.{add_capped, capped};
    ghost use Rattle.dz_cells.specs.Tallies.{tallied};

    /// One contribution.
    pub fn new(coefficient: i128) -> Tally
        ensures { tallied result ≡ capped (amount coefficient) }
    {
        if coefficient < 0 {
            Tally {
                plus: 0,
                minus: coefficient.unsigned_abs(),
            }
        } else {
            Tally {
                plus: coefficient.unsigned_abs(),
                minus: 0,
            }
        }
    }

    /// The product of two numbers as one contribution.
    pub fn of_product(a: i128, b: i128) -> Tally
        ensures { tallied result ≡ capped (amount (a *ℤ b)) }
    {
        let size = a.unsigned_abs().saturating_mul(b.unsigned_abs());
        if (a < 0) == (b < 0) {
            Tally {
                plus: size,
                minus: 0,
            }
        } else {
            Tally {
                plus: 0,
                minus: size,
            }
        }
    }

    /// One contribution, taken with a sign.
    pub fn signed(sign: Sign, coefficient: i128) -> Tally
        ensures { tallied result ≡ capped (amount (signed sign coefficient)) }
    {
        let tally = Tally::new(coefficient);
        match sign {
            Sign::Plus => tally,
            Sign::Minus => Tally {
                plus: tally.minus,
                minus: tally.plus,
            },
        }
    }

    /// The sum of the contributions, where the sum of their absolute values fits.
    pub fn total(self) -> Option<i128>
        ensures { result ≡ option_map (λ a. a.total) (tallied self) }
    {
        if self.plus > GREATEST || self.minus > GREATEST - self.plus {
            return None;
        }
        Some(self.plus as i128 - self.minus as i128)
    }

    /// The contributions of both.
    pub fn join(self, other: Tally) -> Tally
        ensures { tallied result ≡ add_capped (tallied other) (tallied self) }
    {
        Tally {
            plus: self.plus.saturating_add(other.plus),
            minus: self.minus.saturating_add(other.minus),
        }
    }
}
