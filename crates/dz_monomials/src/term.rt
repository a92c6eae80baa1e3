//! Terms of polynomials.

ghost use Rattle.std.specs.Prelude.{◌≡◌};

use crate::powers::Powers;
use dz_rank::Symbol;
use std::marker::Model;

/// A monomial with a coefficient in range.
#[derive(Drop)]
pub struct Term {
    powers: Powers,
    coefficient: i128,
}

impl Model for Term {
    ghost use Rattle.std.specs.Prelude.{◌≤◌, unsigned_abs, ℤ};
    ghost use Rattle.dz_algebra.specs.Amount.{greatest};
    ghost use Rattle.dz_algebra.specs.Monomial.{Monomial};
    ghost use Rattle.dz_rank.specs.declared.symbols.Symbol.{Symbol};

    ghost Value = { Monomial Symbol × ℤ };

    ghost view = { λ t. (t.powers.items, t.coefficient) };

    ghost invariant = { λ t. unsigned_abs t.coefficient ≤ greatest };
}

impl Term {
    ghost use Rattle.std.specs.Prelude.{◌≡◌, ◌≤◌, unsigned_abs};
    ghost use Rattle.dz_algebra.specs.Amount.{greatest};

    pub fn new(powers: Powers, coefficient: i128) -> Term
        requires { unsigned_abs coefficient ≤ greatest }
        ensures { result ≡ (powers.items, coefficient) }
    {
        Term {
            powers,
            coefficient,
        }
    }

    pub fn powers(&self) -> &[(Symbol, u16)]
        ensures { result.now ≡ self.now.0 }
    {
        self.powers.as_slice()
    }

    pub fn coefficient(&self) -> i128
        ensures value { result ≡ self.now.1 }
        ensures in_range { unsigned_abs result ≤ greatest }
    {
        self.coefficient
    }

    /// Puts another coefficient in place of the one that stands there.
    pub fn set_coefficient(&mut self, coefficient: i128)
        requires { unsigned_abs coefficient ≤ greatest }
        ensures { self.new ≡ (self.old.0, coefficient) }
    {
        self.coefficient = coefficient;
    }
}
