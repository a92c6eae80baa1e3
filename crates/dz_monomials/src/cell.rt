//! Monomials with what contributions make there.

ghost use Rattle.std.specs.Prelude.{◌≡◌, ◌≤◌, ◌*ℤ◌, unsigned_abs, Some, None};
ghost use Rattle.std.specs.Option.{option_map};
ghost use Rattle.dz_algebra.specs.Amount.{amount, greatest};
ghost use Rattle.dz_monomials.specs.Cells.{add_capped, capped};

use crate::powers::Powers;
use crate::term::Term;
use dz_rank::Symbol;
use std::marker::Model;

/// The greatest absolute value of a coefficient, `2^127 - 1`.
const GREATEST: u128 = 170141183460469231731687303715884105727;

/// A monomial with the sum of contributions and the sum of their absolute values, or with the mark
/// that the latter is too great.
#[derive(Drop)]
pub struct Cell {
    powers: Powers,
    total: i128,
    majorant: u128,
    wide: bool,
}

impl Model for Cell {
    ghost use Rattle.std.specs.Prelude.{◌≤◌, unsigned_abs, Option, Some, None, cond};
    ghost use Rattle.dz_algebra.specs.Amount.{Amount, greatest};
    ghost use Rattle.dz_algebra.specs.Monomial.{Monomial};
    ghost use Rattle.dz_rank.specs.declared.symbols.Symbol.{Symbol};

    ghost Value = { Monomial Symbol × Option Amount };

    ghost view = { λ c. (
      c.powers.items,
      cond c.wide None
          (Some (record { total = c.total; majorant = c.majorant })),
    ) };

    ghost invariant = { λ c. (unsigned_abs c.total ≤ c.majorant) × (c.majorant ≤ greatest) };
}

impl Cell {
    ghost use Rattle.std.specs.Prelude.{◌≡◌, ◌≤◌, ◌*ℤ◌, unsigned_abs, Some, None};
    ghost use Rattle.std.specs.Option.{option_map};
    ghost use Rattle.dz_algebra.specs.Amount.{amount, greatest};
    ghost use Rattle.dz_monomials.specs.Cells.{add_capped, capped};

    /// A monomial with one contribution.
    pub fn new(powers: Powers, coefficient: i128) -> Cell
        requires { unsigned_abs coefficient ≤ greatest }
        ensures { result ≡ (powers.items, capped (amount coefficient)) }
    {
        Cell {
            powers,
            total: coefficient,
            majorant: coefficient.unsigned_abs(),
            wide: false,
        }
    }

    /// A monomial with the mark that its contributions are too great.
    fn too_wide(powers: Powers) -> Cell
        ensures { result ≡ (powers.items, None) }
    {
        Cell {
            powers,
            total: 0,
            majorant: 0,
            wide: true,
        }
    }

    /// A monomial with the product of two coefficients.
    pub fn of_product(powers: Powers, a: i128, b: i128) -> Cell
        ensures { result ≡ (powers.items, capped (amount (a *ℤ b))) }
    {
        match a.checked_mul(b) {
            Some(product) if product.unsigned_abs() <= GREATEST => Cell::new(powers, product),
            _ => Cell::too_wide(powers),
        }
    }

    pub fn powers(&self) -> &[(Symbol, u16)]
        ensures { result.now ≡ self.now.0 }
    {
        self.powers.as_slice()
    }

    /// The term with the sum, where the cell fits.
    pub fn into_term(self) -> Option<Term>
        ensures { result ≡ option_map (λ a. (self.0, a.total)) self.1 }
    {
        let Cell {
            powers,
            total,
            majorant: _,
            wide,
        } = self;
        if wide {
            None
        } else {
            Some(Term::new(powers, total))
        }
    }

    /// The cell with a further sum at its monomial, of contributions with the sum `by` of absolute
    /// values.
    fn with_sums(self, more: i128, by: u128) -> Cell
        requires bounded { unsigned_abs more ≤ by }
        requires fits { by ≤ greatest }
        ensures { result ≡ (
          self.0,
          add_capped (Some (record { total = more; majorant = by })) self.1,
        ) }
    {
        let Cell {
            powers,
            total,
            majorant,
            wide,
        } = self;
        if wide || GREATEST - majorant < by {
            return Cell::too_wide(powers);
        }
        Cell {
            powers,
            total: total + more,
            majorant: majorant + by,
            wide: false,
        }
    }

    /// The cell with one more contribution at its monomial.
    pub fn plus(self, coefficient: i128) -> Cell
        requires { unsigned_abs coefficient ≤ greatest }
        ensures { result ≡ (self.0, add_capped (capped (amount coefficient)) self.1) }
    {
        self.with_sums(coefficient, coefficient.unsigned_abs())
    }

    /// The cell with the amount of another cell at the same monomial.
    pub fn join(self, other: Cell) -> Cell
        ensures { result ≡ (self.0, add_capped other.1 self.1) }
    {
        let Cell {
            powers: _,
            total,
            majorant,
            wide,
        } = other;
        if wide {
            return Cell::too_wide(self.powers);
        }
        self.with_sums(total, majorant)
    }
}
