//! Closed states.

ghost use Rattle.std.specs.Prelude.{◌≡◌};
ghost use Rattle.dz_monomials.specs.Ranked.{symbols_under};
ghost use Rattle.dz_move.specs.Root.{is_closed};
ghost use Rattle.dz_diff.specs.Tests.{has_unit, has_zero};
ghost use Rattle.dz_diff.specs.States.{LiveAll, StandsIn, polynomials, state_in};

use dz_diff::{State, is_unit};
use dz_poly::{Book, Poly};

/// Whether a polynomial in a list is ground and not zero.
fn has_unit(book: &Book, polys: &[Poly]) -> bool
    requires { LiveAll book.now polys.now }
    ensures { result ≡ has_unit (symbols_under book.now.ranking) (polynomials book.now polys.now) }
{
    'polys: for p in polys {
        if is_unit(book.entry(*p)) {
            return true;
        }
    }
    false
}

/// Whether a polynomial in a list is zero.
fn has_zero(book: &Book, polys: &[Poly]) -> bool
    requires { LiveAll book.now polys.now }
    ensures { result ≡ has_zero (polynomials book.now polys.now) }
{
    'polys: for p in polys {
        if book.entry(*p).is_zero() {
            return true;
        }
    }
    false
}

/// Whether a state is closed: an equation is ground and not zero, or an inequation is zero.
pub fn is_closed(book: &Book, state: &State) -> bool
    requires { StandsIn book.now state.now }
    ensures { result ≡ is_closed (symbols_under book.now.ranking) (state_in book.now state.now) }
{
    has_unit(book, state.equations()) || has_zero(book, state.inequations())
}
