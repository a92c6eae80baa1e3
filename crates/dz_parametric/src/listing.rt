//! The cones of a chain.

ghost use Rattle.std.specs.Prelude.{◌≡◌, ◌<◌, ◌≤◌, Err, IfOk, length};
ghost use Rattle.dz_diff.specs.States.{StandsIn, state_in};
ghost use Rattle.dz_parametric.specs.Cones.{cones_of};
ghost use Rattle.dz_parametric.specs.declared.listing.ConeFault.TheVariants.{TooMany};

use crate::dividing::add_cones;
use crate::leaders::{leaders, operators_of};
use dz_diff::State;
use dz_poly::Book;
use dz_rank::Operator;
use std::alloc::{AllocError, AllocFailed, Global};

/// The derivatives of a dependent whose exponents are those of the operator, and in the free
/// directions also greater ones. No direction from the number of independents on is free.
#[derive(Clone, Copy, Debug, PartialEq, Eq)]
pub struct Cone {
    pub dependent: u8,
    pub operator: Operator,
    pub free: [bool; 4],
}

/// Why there is no list of cones.
#[derive(Clone, Copy, Debug, PartialEq, Eq)]
pub enum ConeFault {
    Memory,
    /// There are more than 4,096 cones.
    TooMany,
}

impl From<AllocError> for ConeFault {
    ghost use Rattle.std.specs.Prelude.{◌≡◌};
    ghost use Rattle.dz_parametric.specs.declared.listing.ConeFault.TheVariants.{Memory};

    ghost from_gives = { λ _ e. e ≡ Memory };

    fn from(_error: AllocError) -> ConeFault {
        ConeFault::Memory
    }
}

impl<T: Drop> From<AllocFailed<T>> for ConeFault {
    ghost use Rattle.std.specs.Prelude.{◌≡◌};
    ghost use Rattle.dz_parametric.specs.declared.listing.ConeFault.TheVariants.{Memory};

    ghost from_gives = { λ _ e. e ≡ Memory };

    fn from(_error: AllocFailed<T>) -> ConeFault {
        ConeFault::Memory
    }
}

/// The cones of a chain, per dependent in order, at most 4,096.
pub fn cones(alloc: Global, book: &Book, chain: &State) -> Result<Vec<Cone>, ConeFault>
    requires { StandsIn book.now chain.now }
    ensures cones { IfOk result (λ cs. cs.items
        ≡ cones_of book.now.ranking (state_in book.now chain.now)) }
    ensures few { IfOk result (λ cs. length cs.items ≤ 4096) }
    ensures too_many { result ≡ Err TooMany
        → 4096 < length (cones_of book.now.ranking (state_in book.now chain.now)) }
{
    let signature = book.ranking().signature();
    let leaders = leaders(alloc, book, chain)?;
    let mut found = Vec::new(alloc);
    for u in 0..signature.dependents {
        let operators = operators_of(alloc, leaders.as_slice(), u)?;
        let whole = Cone {
            dependent: u,
            operator: Operator { counts: [0; 4] },
            free: [false; 4],
        };
        add_cones(
            alloc,
            &mut found,
            operators.as_slice(),
            signature.independents,
            whole,
            0,
        )?;
    }
    Ok(found)
}
