//! A number times a power of a symbol, as a factor.

ghost use Rattle.std.specs.Prelude.{◌≡◌, ◌≢◌, ◌≤◌, ◌<◌, ◌⊎◌, pos, unsigned_abs, IfOk, IfErr};
ghost use Rattle.dz_algebra.specs.Amount.{greatest};
ghost use Rattle.dz_algebra.specs.declared.Limit.TheVariants.{Order};
ghost use Rattle.dz_terms.specs.Entries.{IsEntry};
ghost use Rattle.dz_monomials.specs.Terms.{power_term};
ghost use Rattle.dz_monomials.specs.declared.PolyStop.TheVariants.{Memory, Large};
ghost use Rattle.dz_rank.specs.Rankings.{RankingValue};
ghost use Rattle.dz_rank.specs.Symbols.{BelongsTo, total_order};

use crate::entry::Entry;
use crate::making::{number, power};
use dz_algebra::Limit;
use dz_monomials::PolyStop;
use dz_rank::Symbol;
use std::alloc::Global;

/// The greatest total order of a derivative in a polynomial.
const MOST_ORDER: u16 = 60;

/// The total order of a derivative, and 0 for an independent.
fn order_of(symbol: Symbol) -> u16
    ensures { result ≡ total_order symbol }
{
    match symbol {
        Symbol::Independent(_) => 0,
        Symbol::Derivative {
            dependent: _,
            operator,
        } => {
            let [i, j, k, l] = operator.counts;
            u16::from(i) + u16::from(j) + u16::from(k) + u16::from(l)
        }
    }
}

#[tactic(auto, using(dz_monomials::proofs::OneTerm::number_as_power))]
/// A number times a power of a symbol, whose total order may be too high.
pub fn factor(
    alloc: Global,
    coefficient: i128,
    symbol: Symbol,
    exponent: u16,
) -> Result<Entry, PolyStop>
    requires nonzero { coefficient ≢ pos 0 }
    requires in_range { unsigned_abs coefficient ≤ greatest }
    ensures terms { IfOk result (λ entry.
        entry.terms ≡ power_term coefficient symbol exponent) }
    ensures entry { IfOk result (λ entry. (r : RankingValue) → BelongsTo r.signature symbol
        → IsEntry r entry) }
    ensures refused { IfErr result (λ e. (e ≡ Memory)
        ⊎ ((e ≡ Large Order) × (0 < exponent) × (60 < total_order symbol))) }
{
    if exponent == 0 {
        return Ok(number(alloc, coefficient)?);
    }
    if order_of(symbol) > MOST_ORDER {
        return Err(PolyStop::Large(Limit::Order));
    }
    Ok(power(alloc, coefficient, symbol, exponent)?)
}
