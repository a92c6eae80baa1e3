//! What derivations make of symbols.

ghost use Rattle.std.specs.Prelude.{◌≡◌, ◌<◌, ◌⊎◌, ◌++◌, [], ◌∷◌, false, true, IfOk, IfErr, OnOk};
ghost use Rattle.std.specs.List.{list_any};
ghost use Rattle.dz_algebra.specs.Monomial.{MonomialIn};
ghost use Rattle.dz_algebra.specs.declared.Limit.TheVariants.{Order};
ghost use Rattle.dz_rank.specs.Symbols.{HasFourExponents, raised, total_order};
ghost use Rattle.dz_monomials.specs.Ranked.{symbol_rate};
ghost use Rattle.dz_monomials.specs.declared.PolyStop.TheVariants.{Memory, Large};
ghost use Rattle.dz_monomials.specs.Rows.{is_high_rate, meant_if, rates_of, with_rate};

use crate::PolyStop;
use dz_algebra::Limit;
use dz_rank::{Operator, Symbol, raise};
use std::alloc::{AllocError, Global};

/// What a derivation makes of a symbol, where that is not zero.
#[derive(Clone, Copy)]
pub enum Rate {
    One,
    Next(Symbol),
}

#[tactic(auto, using(crate::proofs::RateTables::set_is_raised))]
/// The operator of one derivation.
fn derivation(i: u8) -> Operator
    requires { i < 4 }
    ensures { result.counts ≡ raised i (0 ∷ 0 ∷ 0 ∷ 0 ∷ []) }
{
    let mut counts = [0; 4];
    counts[i as usize] = 1;
    Operator { counts }
}

#[tactic(auto, using(crate::proofs::RateTables::sums_raised), unfolding(crate::specs::Ranked::symbol_rate))]
/// What the derivation by an independent makes of a symbol, where that is not zero.
fn rate_of(symbol: Symbol, i: u8) -> Result<Option<Rate>, PolyStop>
    requires in_reach { i < 4 }
    requires four { HasFourExponents symbol }
    ensures ok { IfOk result (λ found. meant_if found ≡ symbol_rate i symbol) }
    ensures low { OnOk result (is_high_rate total_order (symbol_rate i symbol) ≡ false) }
    ensures refused { IfErr result (λ e. (e ≡ Large Order)
        × (is_high_rate total_order (symbol_rate i symbol) ≡ true)) }
{
    match symbol {
        Symbol::Independent(j) if i == j => Ok(Some(Rate::One)),
        Symbol::Independent(_) => Ok(None),
        Symbol::Derivative { .. } => match raise(symbol, derivation(i)) {
            Some(next) => Ok(Some(Rate::Next(next))),
            None => Err(PolyStop::Large(Limit::Order)),
        },
    }
}

/// Appends the rate of a symbol where there is one.
fn push_rate(
    rates: &mut Vec<(Symbol, Rate)>,
    symbol: Symbol,
    found: Option<Rate>,
) -> Result<(), AllocError>
    ensures { OnOk result (rates.new.items
        ≡ rates.old.items ++ with_rate symbol (meant_if found) []) }
{
    if let Some(rate) = found {
        rates.push((symbol, rate))?;
    }
    Ok(())
}

/// What the derivation by an independent makes of the symbols of a table, where that is not zero.
/// An order that is too high is told here, before any limit that the rows may pass.
pub fn table_rates(
    alloc: Global,
    table: &[(Symbol, u16)],
    i: u8,
) -> Result<Vec<(Symbol, Rate)>, PolyStop>
    requires in_reach { i < 4 }
    requires four { MonomialIn HasFourExponents table.now }
    ensures ok { IfOk result (λ rates. rates.items ≡ rates_of (symbol_rate i) table.now) }
    ensures low { OnOk result
        (list_any (λ q. is_high_rate total_order (symbol_rate i q.0)) table.now ≡ false) }
    ensures refused { IfErr result (λ e. (e ≡ Memory) ⊎ ((e ≡ Large Order)
        × (list_any (λ q. is_high_rate total_order (symbol_rate i q.0)) table.now ≡ true))) }
{
    let mut rates = Vec::new(alloc);
    for j in 0..table.len() {
        let symbol = table[j].0;
        push_rate(&mut rates, symbol, rate_of(symbol, i)?)?;
    }
    Ok(rates)
}
