//! Monomials: symbols with their exponents, the greatest symbol first.

ghost use Rattle.std.specs.Prelude.{◌≡◌, ◌<◌, ◌⊎◌, ◌||◌, ◌+◌, ◌++◌, [], ◌∷◌, max, false, true, IsTrue, IfOk, IfErr, OnOk, MatchOption};
ghost use Rattle.std.specs.Ordering.{nat_cmp, ordering_then};
ghost use Rattle.dz_algebra.specs.Gather.{merge};
ghost use Rattle.dz_algebra.specs.Monomial.{IsMonomial, exponent, monomial_cmp};
ghost use Rattle.dz_algebra.specs.declared.Limit.TheVariants.{Exponent};
ghost use Rattle.dz_monomials.specs.Degrees.{has_high_exponent};
ghost use Rattle.dz_monomials.specs.Joinings.{joined_by};
ghost use Rattle.dz_monomials.specs.Terms.{with_exponent};
ghost use Rattle.dz_monomials.specs.declared.PolyStop.TheVariants.{Memory, Large};
ghost use Rattle.dz_rank.specs.Rankings.{ranking_cmp};

use crate::PolyStop;
use dz_algebra::Limit;
use dz_rank::{Ranking, Symbol};
use smallvec::SmallVec;
use std::alloc::{AllocError, Global};
use std::cmp::Ordering;

/// The powers of a monomial, kept inline where they are few.
pub type Powers = SmallVec<(Symbol, u16), 4>;

/// Whether two symbols are the same, without a look at the ranking.
fn is_same(a: Symbol, b: Symbol) -> bool
    ensures { IsTrue result → a ≡ b }
{
    match (a, b) {
        (Symbol::Independent(i), Symbol::Independent(j)) => i == j,
        (
            Symbol::Derivative {
                dependent: u,
                operator: s,
            },
            Symbol::Derivative {
                dependent: v,
                operator: t,
            },
        ) => u == v && s.counts == t.counts,
        _ => false,
    }
}

#[tactic(auto, using(crate::proofs::MonomialPasses::equal_powers))]
/// Compares by the symbol, and then by the exponent; most powers that are compared are equal.
fn compare_powers(ranking: &Ranking, p: (Symbol, u16), q: (Symbol, u16)) -> Ordering
    ensures { result ≡ ordering_then (ranking_cmp ranking.now p.0 q.0) (nat_cmp p.1 q.1) }
{
    if p.1 == q.1 && is_same(p.0, q.0) {
        return Ordering::Equal;
    }
    ranking.compare(p.0, q.0).then(p.1.cmp(&q.1))
}

/// Compares by the exponent of the greatest symbol at which the monomials differ.
pub fn compare_monomials(ranking: &Ranking, a: &[(Symbol, u16)], b: &[(Symbol, u16)]) -> Ordering
    ensures { result ≡ monomial_cmp (ranking_cmp ranking.now) a.now b.now }
{
    let mut i = 0;
    while i < a.len() && i < b.len() {
        let order = compare_powers(ranking, a[i], b[i]);
        if order != Ordering::Equal {
            return order;
        }
        i += 1;
    }
    a.len().cmp(&b.len())
}

#[tactic(auto, using(crate::proofs::MonomialPasses::found, crate::proofs::MonomialPasses::passed, crate::proofs::MonomialPasses::skipped))]
/// The exponent of a symbol, zero where it does not occur.
pub fn exponent_of(ranking: &Ranking, powers: &[(Symbol, u16)], symbol: Symbol) -> u16
    requires { IsMonomial (ranking_cmp ranking.now) powers.now }
    ensures { result ≡ exponent (ranking_cmp ranking.now) symbol powers.now }
{
    let mut rest = powers;
    while let [power, more @ ..] = rest {
        match ranking.compare(symbol, power.0) {
            Ordering::Less => rest = more,
            Ordering::Equal => return power.1,
            Ordering::Greater => return 0,
        }
    }
    0
}

/// How the exponents of a symbol that occurs in two monomials become one.
#[derive(Clone, Copy)]
pub(crate) enum Joining {
    Sum,
    Greatest,
}

/// The exponent that two exponents become, where it is in range.
fn joined(joining: Joining, p: u16, q: u16) -> Option<u16>
    ensures { MatchOption result (65535 < joined_by joining p q) (λ e. e ≡ joined_by joining p q) }
{
    match joining {
        Joining::Sum => p.checked_add(q),
        Joining::Greatest => Some(p.max(q)),
    }
}

#[tactic(auto, using(crate::proofs::MonomialPasses::ended, crate::proofs::MonomialPasses::exceeds, crate::proofs::MonomialPasses::high_rest, crate::proofs::MonomialPasses::high_push, crate::proofs::MonomialPasses::high_first, crate::proofs::MonomialPasses::high_second))]
/// Two monomials in one pass, with one exponent for each symbol of both.
fn merged(
    alloc: Global,
    ranking: &Ranking,
    joining: Joining,
    m: &[(Symbol, u16)],
    n: &[(Symbol, u16)],
) -> Result<Powers, PolyStop>
    ensures powers { IfOk result (λ all.
        all.items ≡ merge (ranking_cmp ranking.now) (joined_by joining) n.now m.now) }
    ensures high { IfOk result (λ all. has_high_exponent all.items
        ≡ (has_high_exponent m.now || has_high_exponent n.now)) }
    ensures refused { IfErr result (λ e. (e ≡ Memory) ⊎ ((e ≡ Large Exponent)
        × (has_high_exponent (merge (ranking_cmp ranking.now) (joined_by joining) n.now m.now) ≡ true))) }
{
    let mut all = SmallVec::new(alloc);
    let mut m = m;
    let mut n = n;
    'powers: loop {
        match (n, m) {
            ([], _) => {
                all.extend_from_slice(m)?;
                return Ok(all);
            }
            (_, []) => {
                all.extend_from_slice(n)?;
                return Ok(all);
            }
            ([q, ns @ ..], [p, ms @ ..]) => {
                let power = match ranking.compare(p.0, q.0) {
                    Ordering::Less => {
                        n = ns;
                        *q
                    }
                    Ordering::Greater => {
                        m = ms;
                        *p
                    }
                    Ordering::Equal => {
                        let Some(exponent) = joined(joining, p.1, q.1) else {
                            return Err(PolyStop::Large(Limit::Exponent));
                        };
                        n = ns;
                        m = ms;
                        (q.0, exponent)
                    }
                };
                all.push(power)?;
            }
        }
    }
}

/// The product of two monomials, where its exponents are in range.
pub fn multiply(
    alloc: Global,
    ranking: &Ranking,
    m: &[(Symbol, u16)],
    n: &[(Symbol, u16)],
) -> Result<Powers, PolyStop>
    requires first { has_high_exponent m.now ≡ false }
    requires second { has_high_exponent n.now ≡ false }
    ensures ok { IfOk result (λ all. all.items ≡ merge (ranking_cmp ranking.now) ◌+◌ n.now m.now) }
    ensures fits { IfOk result (λ all. has_high_exponent all.items ≡ false) }
    ensures refused { IfErr result (λ e. (e ≡ Memory) ⊎ ((e ≡ Large Exponent)
        × (has_high_exponent (merge (ranking_cmp ranking.now) ◌+◌ n.now m.now) ≡ true))) }
{
    merged(alloc, ranking, Joining::Sum, m, n)
}

/// The least common multiple of two monomials. The greater of two exponents is in range, so that
/// memory alone can be short.
pub fn common_multiple(
    alloc: Global,
    ranking: &Ranking,
    m: &[(Symbol, u16)],
    n: &[(Symbol, u16)],
) -> Result<Powers, AllocError>
    ensures { IfOk result (λ all. all.items ≡ merge (ranking_cmp ranking.now) max n.now m.now) }
{
    match merged(alloc, ranking, Joining::Greatest, m, n) {
        Ok(all) => Ok(all),
        Err(_) => Err(AllocError),
    }
}

/// Appends a power; one of the symbol with the exponent `left`, and not at all where that is zero.
fn push_power(
    ranking: &Ranking,
    all: &mut Powers,
    power: (Symbol, u16),
    symbol: Symbol,
    left: u16,
) -> Result<(), AllocError>
    ensures { OnOk result (all.new.items
        ≡ all.old.items ++ with_exponent (ranking_cmp ranking.now) symbol left (power ∷ [])) }
{
    match ranking.compare(symbol, power.0) {
        Ordering::Equal => {
            if left != 0 {
                all.push((power.0, left))?;
            }
        }
        Ordering::Less => all.push(power)?,
        Ordering::Greater => all.push(power)?,
    }
    Ok(())
}

/// The monomial with another exponent of a symbol that occurs in it.
pub fn with_exponent(
    alloc: Global,
    ranking: &Ranking,
    powers: &[(Symbol, u16)],
    symbol: Symbol,
    left: u16,
) -> Result<Powers, AllocError>
    ensures { IfOk result (λ all.
        all.items ≡ with_exponent (ranking_cmp ranking.now) symbol left powers.now) }
{
    let mut all = SmallVec::new(alloc);
    for power in powers {
        push_power(ranking, &mut all, *power, symbol, left)?;
    }
    Ok(all)
}
