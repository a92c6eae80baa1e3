// The equations that are made from a seed.
ghost use Rattle.std.specs.Prelude.{◌≡◌, ◌≤◌, ◌++◌, ◌-ℤ◌, ℕ, All, IfOk, OnOk};
ghost use Rattle.std.specs.Prelude.{length, pos, unsigned_abs};
ghost use Rattle.std.specs.Int.{int_pow};
ghost use Rattle.dz_sample.specs.Draws.{drawn_number, next_state, state_after, state_of};
ghost use Rattle.dz_sample.specs.Equations.{IsEquationOf};
ghost use Rattle.dz_sample.specs.Ranking.{sample_signature};
ghost use Rattle.dz_sample.specs.Sample.{AreSmall, derived_equation, drawn_equation, first_equations};
ghost use Rattle.dz_sample.specs.Sample.{first_rates, further_equations, operator, sample};

use crate::draws::Draws;
use dz_rank::Operator;
use std::alloc::{AllocError, Global};

/// An equation: the derivative of the dependent by the operator, less the coefficient times the
/// dependent. Dependents count from 0.
#[derive(Clone, Copy, Debug, PartialEq, Eq)]
pub struct SampleEquation {
    pub dependent: u8,
    pub operator: Operator,
    pub coefficient: i128,
}

/// Draws a number from -9 to 9.
fn draw_rate(draws: &mut Draws) -> i128
    ensures state { state_of draws.new ≡ next_state (state_of draws.old) }
    ensures rate { result ≡ pos (drawn_number 19 (state_of draws.new)) -ℤ pos 9 }
    ensures small { unsigned_abs result ≤ 9 }
{
    i128::from(draws.draw(19)) - 9
}

/// The power of a small number, for small exponents.
fn small_power(rate: i128, exponent: u32) -> i128
    requires small { unsigned_abs rate ≤ 9 }
    requires few { exponent ≤ 8 }
    ensures power { result ≡ int_pow rate exponent }
    ensures bound { unsigned_abs result ≤ 43046721 }
{
    rate.pow(exponent)
}

/// With what a dependent is multiplied when it is derived by the first independent, and by the
/// second.
#[derive(Clone, Copy, Debug, PartialEq, Eq)]
struct Rates {
    first: i128,
    second: i128,
}

/// Draws the rates of a dependent.
fn draw_rates(draws: &mut Draws) -> Rates
    ensures state { state_of draws.new ≡ next_state (next_state (state_of draws.old)) }
    ensures first { result.first ≡ pos (drawn_number 19 (next_state (state_of draws.old))) -ℤ pos 9 }
    ensures second { result.second
        ≡ pos (drawn_number 19 (next_state (next_state (state_of draws.old)))) -ℤ pos 9 }
{
    let first = draw_rate(draws);
    let second = draw_rate(draws);
    Rates { first, second }
}

/// The derivative of a dependent, p times by the first independent and q times by the second, less
/// so many times the dependent.
fn equation(dependent: u8, p: u8, q: u8, coefficient: i128) -> SampleEquation
    ensures { result ≡ record {
      dependent = dependent;
      operator = operator p q;
      coefficient = coefficient;
    } }
{
    SampleEquation {
        dependent,
        operator: Operator {
            counts: [p, q, 0, 0],
        },
        coefficient,
    }
}

/// The equation of a dependent that follows from its two.
fn derived_equation(dependent: u8, rates: Rates, p: u8, q: u8) -> SampleEquation
    requires small { AreSmall rates }
    requires few { (p ≤ 8) × (q ≤ 8) }
    ensures { result ≡ derived_equation dependent rates p q }
{
    let first = small_power(rates.first, u32::from(p));
    let second = small_power(rates.second, u32::from(q));
    equation(dependent, p, q, first * second)
}

/// Draws the dependent and the operator of an equation that follows from those of the dependent.
fn draw_derived(draws: &mut Draws, rates: &[Rates]) -> SampleEquation
    requires all { length rates.now ≡ 8 }
    requires small { All (λ r. AreSmall r) rates.now }
    ensures state { state_of draws.new ≡ next_state (next_state (next_state (state_of draws.old))) }
    ensures derived { result ≡ drawn_equation rates.now (state_of draws.old) }
{
    let dependent = draws.draw(8) as u8;
    let p = draws.draw(8) as u8 + 1;
    let q = draws.draw(9) as u8;
    derived_equation(dependent, rates[usize::from(dependent)], p, q)
}

/// The rates of the dependents, and their equations.
#[derive(Drop)]
struct First {
    rates: Vec<Rates>,
    equations: Vec<SampleEquation>,
}

/// Draws the rates of the dependents, and makes their equations.
fn draw_first(alloc: Global, draws: &mut Draws) -> Result<First, AllocError>
    ensures rates { IfOk result (λ first. first.rates.items ≡ first_rates (state_of draws.old) 8) }
    ensures equations { IfOk result (λ first.
        first.equations.items ≡ first_equations (state_of draws.old) 8) }
    ensures state { OnOk result (state_of draws.new ≡ state_after (state_of draws.old) 16) }
{
    let mut rates = Vec::new(alloc);
    let mut equations = Vec::new(alloc);
    'dependents: for dependent in 0..8u8 {
        let own = draw_rates(draws);
        rates.push(own)?;
        equations.push(equation(dependent, 1, 0, own.first))?;
        equations.push(equation(dependent, 0, 1, own.second))?;
    }
    Ok(First { rates, equations })
}

/// Appends equations that follow from those of the dependents.
fn push_derived(
    draws: &mut Draws,
    rates: &[Rates],
    size: u32,
    equations: &mut Vec<SampleEquation>,
) -> Result<(), AllocError>
    requires all { length rates.now ≡ 8 }
    requires small { All (λ r. AreSmall r) rates.now }
    ensures { (seed : ℕ) → rates.now ≡ first_rates seed 8
        → state_of draws.old ≡ state_after seed 16
        → OnOk result (equations.new.items
        ≡ equations.old.items ++ further_equations seed size) }
{
    'more: for done in 0..size {
        equations.push(draw_derived(draws, rates))?;
    }
    Ok(())
}

/// The equations that a seed makes: two of each of the eight dependents, in order, and as many that
/// follow from these as the size says. A further equation is the derivative of its dependent, p times
/// by the first independent and q times by the second, with p from 1 to 8 and q from 0 to 8.
#[tactic(auto, using(crate::proofs::Ranges::sample_fits))]
pub fn sample_equations(
    alloc: Global,
    seed: u32,
    size: u32,
) -> Result<Vec<SampleEquation>, AllocError>
    ensures value { IfOk result (λ equations. equations.items ≡ sample seed size) }
    ensures each { IfOk result (λ equations.
        All (λ e. IsEquationOf sample_signature e) equations.items) }
{
    let mut draws = Draws::new(seed);
    let mut first = draw_first(alloc, &mut draws)?;
    push_derived(&mut draws, &first.rates, size, &mut first.equations)?;
    Ok(first.equations)
}
