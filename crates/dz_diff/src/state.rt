//! States by the names of their polynomials.

ghost use Rattle.std.specs.Prelude.{◌≡◌};

use dz_poly::{Book, Poly};
use std::marker::Model;

/// Equations and inequations of a book, at most 256 together, and the number of forks above them.
#[derive(Drop)]
pub struct State {
    equations: Vec<Poly>,
    inequations: Vec<Poly>,
    splits: u16,
}

impl Model for State {
    ghost use Rattle.std.specs.Prelude.{◌≤◌, ◌+◌, length};
    ghost use Rattle.dz_diff.specs.States.{StateValue};

    ghost Value = { StateValue };

    ghost view = { λ s. record {
      equations = s.equations.items;
      inequations = s.inequations.items;
      splits = s.splits;
    } };

    ghost invariant = { λ s. length s.equations.items + length s.inequations.items ≤ 256 };
}

impl State {
    ghost use Rattle.std.specs.Prelude.{◌≡◌, ◌≤◌, ◌+◌, length};
    ghost use Rattle.dz_diff.specs.States.{IsStateOf, StandsIn, state_in};
    ghost use Rattle.dz_monomials.specs.Ranked.{symbols_under};

    /// The state with these lists, which have the facts of a state.
    pub fn new(book: &Book, equations: Vec<Poly>, inequations: Vec<Poly>, splits: u16) -> State
        requires lives { StandsIn book.now (record {
          equations = equations.items;
          inequations = inequations.items;
          splits = splits;
        }) }
        requires facts { IsStateOf (symbols_under book.now.ranking) (state_in book.now (record {
          equations = equations.items;
          inequations = inequations.items;
          splits = splits;
        })) }
        ensures { result ≡ record {
          equations = equations.items;
          inequations = inequations.items;
          splits = splits;
        } }
    {
        // The book is for the contract alone.
        let _ = book;
        State {
            equations,
            inequations,
            splits,
        }
    }

    /// The equations, in their order. There are at most 256 members.
    pub fn equations(&self) -> &[Poly]
        ensures items { result.now ≡ self.now.equations }
        ensures few { length result.now + length self.now.inequations ≤ 256 }
    {
        self.equations.as_slice()
    }

    /// The inequations, in their order. There are at most 256 members.
    pub fn inequations(&self) -> &[Poly]
        ensures items { result.now ≡ self.now.inequations }
        ensures few { length self.now.equations + length result.now ≤ 256 }
    {
        self.inequations.as_slice()
    }

    /// The number of forks above.
    pub fn splits(&self) -> u16
        ensures { result ≡ self.now.splits }
    {
        self.splits
    }
}
