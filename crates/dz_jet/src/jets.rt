//! Jets of chains.

ghost use Rattle.std.specs.Prelude.{◌≡◌};

use dz_int::Frac;
use dz_rank::Symbol;
use std::marker::Model;

/// The values of a chain's symbols up to an order: those of the independents in declared order,
/// and those of the derivatives in increasing order.
#[derive(Drop)]
pub struct Jet {
    order: u8,
    values: Vec<(Symbol, Frac)>,
}

impl Model for Jet {
    ghost use Rattle.dz_jet.specs.Jets.{JetValue};

    ghost Value = { JetValue };

    ghost view = { λ j. record { order = j.order; values = j.values.items } };
}

impl Jet {
    ghost use Rattle.std.specs.Prelude.{◌≡◌, ◌<◌, length, slice_get, Some};

    /// The jet of an order with these values.
    pub(crate) fn new(order: u8, values: Vec<(Symbol, Frac)>) -> Jet
        ensures { result ≡ record { order = order; values = values.items } }
    {
        Jet { order, values }
    }

    /// The order up to which there are values.
    pub fn order(&self) -> u8
        ensures { result ≡ self.now.order }
    {
        self.order
    }

    /// The values with their symbols.
    pub fn values(&self) -> &[(Symbol, Frac)]
        ensures { result.now ≡ self.now.values }
    {
        self.values.as_slice()
    }

    /// The number of values.
    pub fn len(&self) -> usize
        ensures { result ≡ length self.now.values }
    {
        self.values.len()
    }

    /// The symbol and the value at a position.
    pub fn at(&self, k: usize) -> (Symbol, Frac)
        requires { k < length self.now.values }
        ensures { slice_get self.now.values k ≡ Some result }
    {
        self.values[k]
    }
}
