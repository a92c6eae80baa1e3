//! Zero sets of the trees and states of a book, in every domain, at every point that fits the
//! book's signature. The calls do nothing when they run: each states a law for contracts above.

ghost use Rattle.std.specs.Prelude.{◌↔◌};
ghost use Rattle.dz_poly.specs.Books.{Lives, polynomial};
ghost use Rattle.dz_domain.specs.Point.{FitsSignature};
ghost use Rattle.dz_monomials.specs.Lists.{SomeOf};
ghost use Rattle.dz_diff.specs.Operations.{setting_of};
ghost use Rattle.dz_diff.specs.States.{StandsIn, state_in};
ghost use Rattle.dz_check.specs.Certified.{IsCertified};
ghost use Rattle.dz_move.specs.Systems.{IsSystemIn, system_in};
ghost use Rattle.dz_check.specs.Walk.{ends_in, ends_of};
ghost use Rattle.dz_zeros.specs.Runs.{RunsToZero};
ghost use Rattle.dz_zeros.specs.Solves.{HasValueZero, Solves, SolvesState};

use dz_diff::State;
use dz_domain::{Domain, Point};
use dz_move::System;
use dz_poly::{Book, Poly};
use dz_tree::Tree;

/// The point solves a system exactly when it solves the state at some chain or open end of a
/// certified tree for it.
pub fn zero_sets<D: Domain>(book: &Book, system: &System, tree: &Tree, at: &Point<D>)
    requires system { IsSystemIn book.now system.now }
    requires certified { IsCertified (setting_of book.now.ranking) (system_in book.now system.now)
        tree.now }
    requires fits { FitsSignature book.now.ranking.signature at.now }
    ensures { Solves D.operations at.now (system_in book.now system.now).equations
        (system_in book.now system.now).inequations
        ↔ SomeOf (λ e. SolvesState D.operations at.now e.state)
        (ends_in (ends_of (setting_of book.now.ranking) (system_in book.now system.now) tree.now)) }
{
    book.opened();
    at.is_point();
}

/// A polynomial from which some free run by a state goes to zero has value zero where the point
/// solves this state.
pub fn run_to_zero<D: Domain>(book: &Book, f: Poly, chain: &State, at: &Point<D>)
    requires stands { StandsIn book.now chain.now }
    requires lives { Lives book.now f }
    requires runs { RunsToZero (setting_of book.now.ranking) (state_in book.now chain.now)
        (polynomial book.now f) }
    requires fits { FitsSignature book.now.ranking.signature at.now }
    requires solved { SolvesState D.operations at.now (state_in book.now chain.now) }
    ensures { HasValueZero D.operations at.now (polynomial book.now f) }
{
    book.opened();
    at.is_point();
}
