//! What an entry has of the derivatives of a leader.

ghost use Rattle.std.specs.Prelude.{◌≡◌, ℕ};
ghost use Rattle.std.specs.List.{list_any};
ghost use Rattle.dz_algebra.specs.Parts.{degree, leader};
ghost use Rattle.dz_algebra.specs.Polynomial.{Polynomial};
ghost use Rattle.dz_algebra.specs.Symbols.{Symbols};
ghost use Rattle.dz_rank.specs.Rankings.{ranking_cmp};
ghost use Rattle.dz_rank.specs.Symbols.{HasFourExponents};
ghost use Rattle.dz_rank.specs.declared.symbols.Symbol.{Symbol};
ghost use Rattle.dz_terms.specs.Entries.{IsEntry};
ghost use Rattle.dz_monomials.specs.Ranked.{symbols_under};
ghost use Rattle.dz_diff.specs.Operators.{quotient};
ghost use Rattle.dz_step.specs.FullRun.{derivatives_of};
ghost use Rattle.dz_step.specs.Multiples.{has_proper_derivative, is_enough_by, is_proper_one};
ghost use Rattle.dz_step.specs.Multiples.{is_reducible_at, is_reducible_by};

use crate::stepping::takes_derivation;
use dz_diff::leader_of;
use dz_rank::{Ranking, Symbol, quotient};
use dz_terms::Entry;

/// Whether a degree in a derivative is enough for a step by what has this leader and this degree.
fn is_enough(v: Symbol, d: u16, lead: Symbol, least: u16) -> bool
    requires derivative { HasFourExponents v }
    requires leader { HasFourExponents lead }
    ensures { (g : Symbols Symbol) (q : Polynomial Symbol) → least ≡ degree g.cmp lead q
        → result ≡ is_enough_by g lead q d (quotient v lead) }
{
    let Some(operator) = quotient(v, lead) else {
        return false;
    };
    if takes_derivation(operator) {
        return d >= 1;
    }
    d >= least
}

/// Whether an entry has, in some derivative of a leader, enough for a step by what has this leader
/// and this degree.
fn has_enough(ranking: &Ranking, f: &Entry, lead: Symbol, least: u16) -> bool
    requires f { IsEntry ranking.now f.now }
    requires leader { HasFourExponents lead }
    ensures { (q : Polynomial Symbol) → least ≡ degree (ranking_cmp ranking.now) lead q
        → result ≡ list_any (is_reducible_at (symbols_under ranking.now) f.now.terms q lead)
        (derivatives_of (symbols_under ranking.now) f.now.terms) }
{
    // The ranking is for the contract alone.
    let _ = ranking;
    let table = f.symbol_degrees();
    'powers: for k in 0..table.len() {
        let (v, d) = table[k];
        if let Symbol::Independent(_) = v {
            return false;
        }
        if is_enough(v, d, lead, least) {
            return true;
        }
    }
    false
}

/// Whether `f` has, in some derivative of the leader of `q`, at least the degree that this
/// derivative of `q` has in it; no, where `q` is ground.
#[tactic(auto, using(crate::proofs::Regularity::leader_has_four))]
pub fn is_reducible(ranking: &Ranking, f: &Entry, q: &Entry) -> bool
    requires f { IsEntry ranking.now f.now }
    requires q { IsEntry ranking.now q.now }
    ensures { result ≡ is_reducible_by (symbols_under ranking.now) f.now.terms
        q.now.terms (leader (symbols_under ranking.now) q.now.terms) }
{
    let Some(lead) = leader_of(q) else {
        return false;
    };
    has_enough(ranking, f, lead, q.degree(ranking, lead))
}

/// Whether a derivative is a proper one of a leader.
fn is_above(v: Symbol, lead: Symbol) -> bool
    requires derivative { HasFourExponents v }
    requires leader { HasFourExponents lead }
    ensures { result ≡ is_proper_one (quotient v lead) }
{
    let Some(operator) = quotient(v, lead) else {
        return false;
    };
    takes_derivation(operator)
}

/// Whether an entry has a proper derivative of a leader.
pub fn has_proper_derivative(ranking: &Ranking, f: &Entry, lead: Symbol) -> bool
    requires f { IsEntry ranking.now f.now }
    requires leader { HasFourExponents lead }
    ensures { result ≡ has_proper_derivative (symbols_under ranking.now) lead f.now.terms }
{
    // The ranking is for the contract alone.
    let _ = ranking;
    let table = f.symbol_degrees();
    'powers: for k in 0..table.len() {
        let v = table[k].0;
        if let Symbol::Independent(_) = v {
            return false;
        }
        if is_above(v, lead) {
            return true;
        }
    }
    false
}
