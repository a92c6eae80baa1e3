//! The leaders of a chain.

ghost use Rattle.std.specs.Prelude.{◌≡◌, IfOk, map};
ghost use Rattle.dz_diff.specs.States.{StandsIn, state_in};
ghost use Rattle.dz_parametric.specs.Cones.{operators_of};
ghost use Rattle.dz_parametric.specs.Parametric.{leaders_in};

use dz_diff::{State, leader};
use dz_poly::Book;
use dz_rank::{Operator, Symbol};
use std::alloc::{AllocError, Global};

/// The leaders of the equations of a state, in their order.
pub(crate) fn leaders(alloc: Global, book: &Book, state: &State) -> Result<Vec<Symbol>, AllocError>
    requires { StandsIn book.now state.now }
    ensures { IfOk result (λ ls. ls.items
        ≡ leaders_in book.now.ranking (state_in book.now state.now)) }
{
    let mut leaders = Vec::new(alloc);
    for p in state.equations() {
        if let Some(lead) = leader(book, *p) {
            leaders.push(lead)?;
        }
    }
    Ok(leaders)
}

/// The operators of the symbols that are derivatives of a dependent.
pub(crate) fn operators_of(
    alloc: Global,
    leaders: &[Symbol],
    dependent: u8,
) -> Result<Vec<Operator>, AllocError>
    ensures { IfOk result (λ ts. map (λ t. t.counts) ts.items
        ≡ operators_of dependent leaders.now) }
{
    let mut operators = Vec::new(alloc);
    for symbol in leaders {
        if let Symbol::Derivative {
            dependent: other,
            operator,
        } = *symbol
        {
            if other == dependent {
                operators.push(operator)?;
            }
        }
    }
    Ok(operators)
}
