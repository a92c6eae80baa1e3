//! Reduced fractions.

ghost use Rattle.std.specs.Prelude.{◌≡◌, ◌<◌, ◌≤◌, ◌+◌, ◌*◌, ℤ, pos, neg_ℤ, ◌+ℤ◌, ◌*ℤ◌, ◌<ℤ◌};
ghost use Rattle.std.specs.Prelude.{unsigned_abs, MatchOption};
ghost use Rattle.dz_int.specs.Numbers.{greatest, signed};
ghost use Rattle.dz_int.specs.Fractions.{SumPasses};
ghost use Rattle.dz_algebra.specs.Norm.{gcd};
ghost use Rattle.dz_int.specs.Euclid.{IsCrossReduced, AreParts, HasNoParts, AreSumParts};

use crate::divisors::{GREATEST, divisor};
use crate::majorants::Majorant;
use std::marker::Model;

/// A reduced fraction: a numerator from `-(2^127 - 1)` to `2^127 - 1` over a denominator from 1 to
/// `2^127 - 1`, which have no common divisor but 1.
#[derive(Clone, Copy, Debug, PartialEq, Eq)]
pub struct Frac {
    numerator: i128,
    denominator: u128,
}

impl Model for Frac {
    ghost use Rattle.dz_int.specs.Fractions.{Fraction, IsFraction};

    ghost Value = { Fraction };

    ghost view = { λ f. record { numerator = f.numerator; denominator = f.denominator } };

    ghost inverse = { λ f. record { numerator = f.numerator; denominator = f.denominator } };

    ghost invariant = { λ f.
        IsFraction (record { numerator = f.numerator; denominator = f.denominator }) };
}

/// The number with an absolute value and a sign.
fn with_sign(absolute: u128, negative: bool) -> i128
    requires { absolute ≤ greatest }
    ensures { result ≡ signed negative absolute }
{
    if negative {
        -(absolute as i128)
    } else {
        absolute as i128
    }
}

/// The product of two numbers, where it is in range.
fn product_in_range(a: u128, b: u128) -> Option<u128>
    ensures { MatchOption result
        (greatest < a * b)
        (λ product. (product ≡ a * b) × (a * b ≤ greatest)) }
{
    match a.checked_mul(b) {
        Some(product) if product <= GREATEST => Some(product),
        _ => None,
    }
}

/// The sum of `a * x` and `b * y`, where that of their absolute values is in range.
fn sum_in_range(a: i128, x: u128, b: i128, y: u128) -> Option<i128>
    requires first { x ≤ greatest }
    requires second { y ≤ greatest }
    ensures { MatchOption result
        (greatest < unsigned_abs a * x + unsigned_abs b * y)
        (λ sum. (sum ≡ a *ℤ pos x +ℤ b *ℤ pos y)
        × (unsigned_abs a * x + unsigned_abs b * y ≤ greatest)) }
{
    let (x, y) = (x as i128, y as i128);
    let mut majorant = Majorant::new();
    if majorant.add_product(a, x) && majorant.add_product(b, y) {
        Some(a * x + b * y)
    } else {
        None
    }
}

/// The divisors by which two reduced fractions `a/b` and `c/d` are reduced crosswise.
fn cross_divisors(a: u128, b: u128, c: u128, d: u128) -> (u128, u128)
    requires b_positive { 0 < b }
    requires d_positive { 0 < d }
    requires first_reduced { gcd a b ≡ 1 }
    requires second_reduced { gcd c d ≡ 1 }
    ensures { IsCrossReduced a b c d result.0 result.1 }
{
    (divisor(a, d), divisor(c, b))
}

/// The numerator and the denominator of the reduced product of two reduced fractions `a/b` and
/// `c/d`, where both are in range.
#[tactic(auto, using(crate::proofs::Cross::are_parts, crate::proofs::Cross::no_numerator, crate::proofs::Cross::no_denominator))]
fn product_parts(a: u128, b: u128, c: u128, d: u128) -> Option<(u128, u128)>
    requires b_positive { 0 < b }
    requires d_positive { 0 < d }
    requires first_reduced { gcd a b ≡ 1 }
    requires second_reduced { gcd c d ≡ 1 }
    ensures { MatchOption result
        (HasNoParts (a * c) (b * d))
        (λ parts. AreParts (a * c) (b * d) parts.0 parts.1) }
{
    let (first, second) = cross_divisors(a, b, c, d);
    let numerator = product_in_range(a / first, c / second)?;
    let denominator = product_in_range(b / second, d / first)?;
    Some((numerator, denominator))
}

/// The numerator and the denominator of the sum of `a/b` and `c/d` over their least common
/// denominator, where both are in range, the numerator also with absolute values.
#[tactic(auto, using(crate::proofs::Sums::divisor_is_positive, crate::proofs::Sums::are_sum_parts, crate::proofs::Sums::majorant_passes, crate::proofs::Sums::denominator_passes))]
fn sum_parts(a: i128, b: u128, c: i128, d: u128) -> Option<(i128, u128)>
    requires b_positive { 0 < b }
    requires d_positive { 0 < d }
    requires b_in_range { b ≤ greatest }
    requires d_in_range { d ≤ greatest }
    ensures { MatchOption result
        (SumPasses (record { numerator = a; denominator = b })
        (record { numerator = c; denominator = d }))
        (λ parts. AreSumParts (record { numerator = a; denominator = b })
        (record { numerator = c; denominator = d }) parts.0 parts.1) }
{
    let common = divisor(b, d);
    let (first, second) = (d / common, b / common);
    let denominator = product_in_range(b, first)?;
    let numerator = sum_in_range(a, first, c, second)?;
    Some((numerator, denominator))
}

impl Frac {
    ghost use Rattle.std.specs.Prelude.{◌≡◌, ◌≢◌, ◌<◌, ◌≤◌, ◌<ℤ◌, pos, neg_ℤ, unsigned_abs};
    ghost use Rattle.dz_int.specs.Numbers.{greatest, signed};
    ghost use Rattle.dz_int.specs.Fractions.{IsFraction, HasValue, IsProduct, IsSum, inverse_of};
    ghost use Rattle.dz_algebra.specs.Norm.{gcd};

    /// The reduced fraction with these absolute value of the numerator, denominator and sign.
    fn from_parts(absolute: u128, denominator: u128, negative: bool) -> Frac
        requires numerator_in_range { absolute ≤ greatest }
        requires positive { 0 < denominator }
        requires denominator_in_range { denominator ≤ greatest }
        requires coprime { gcd absolute denominator ≡ 1 }
        ensures value { result ≡ record {
          numerator = signed negative absolute;
          denominator = denominator;
        } }
        ensures fraction { IsFraction result }
    {
        Frac {
            numerator: with_sign(absolute, negative),
            denominator,
        }
    }

    /// The fraction with a numerator in range, of this absolute value and sign, and a denominator.
    #[tactic(auto, using(crate::proofs::Reduced::common_positive, crate::proofs::Reduced::quotients_coprime, crate::proofs::Reduced::quotient_of_denominator, crate::proofs::Reduced::reduced_value))]
    fn reduced(absolute: u128, denominator: u128, negative: bool) -> Frac
        requires numerator_in_range { absolute ≤ greatest }
        requires positive { 0 < denominator }
        requires denominator_in_range { denominator ≤ greatest }
        ensures value { HasValue result (signed negative absolute) denominator }
        ensures fraction { IsFraction result }
    {
        let common = divisor(absolute, denominator);
        Frac::from_parts(absolute / common, denominator / common, negative)
    }

    /// The fraction `numerator / denominator`, reduced.
    pub fn new(numerator: i128, denominator: i128) -> Frac
        requires numerator_in_range { unsigned_abs numerator ≤ greatest }
        requires positive { pos 0 <ℤ denominator }
        ensures value { HasValue result numerator (unsigned_abs denominator) }
        ensures fraction { IsFraction result }
    {
        Frac::reduced(
            numerator.unsigned_abs(),
            denominator.unsigned_abs(),
            numerator.is_negative(),
        )
    }

    /// The numerator of the reduced fraction.
    pub fn numerator(self) -> i128
        ensures value { result ≡ self.numerator }
        ensures fraction { IsFraction self }
    {
        self.numerator
    }

    /// The denominator of the reduced fraction.
    pub fn denominator(self) -> i128
        ensures value { result ≡ pos self.denominator }
        ensures fraction { IsFraction self }
    {
        self.denominator as i128
    }

    /// The fraction with the other sign.
    pub fn negative(self) -> Frac
        ensures { result ≡ record {
          numerator = neg_ℤ self.numerator;
          denominator = self.denominator;
        } }
    {
        Frac {
            numerator: -self.numerator,
            denominator: self.denominator,
        }
    }

    /// The inverse of a fraction that is not zero.
    fn inverse(self) -> Frac
        requires { self.numerator ≢ pos 0 }
        ensures { result ≡ inverse_of self }
    {
        Frac::from_parts(
            self.denominator,
            self.numerator.unsigned_abs(),
            self.numerator.is_negative(),
        )
    }

    /// The sum, where its parts over the least common denominator are in range.
    pub fn add(self, other: Frac) -> Option<Frac>
        ensures { IsSum self other result }
    {
        let (numerator, denominator) = sum_parts(
            self.numerator,
            self.denominator,
            other.numerator,
            other.denominator,
        )?;
        Some(Frac::reduced(
            numerator.unsigned_abs(),
            denominator,
            numerator.is_negative(),
        ))
    }

    /// The product, where it is in range once it is reduced.
    pub fn mul(self, other: Frac) -> Option<Frac>
        ensures { IsProduct self other result }
    {
        let (absolute, denominator) = product_parts(
            self.numerator.unsigned_abs(),
            self.denominator,
            other.numerator.unsigned_abs(),
            other.denominator,
        )?;
        let negative = self.numerator.is_negative() != other.numerator.is_negative();
        Some(Frac::from_parts(absolute, denominator, negative))
    }

    /// The product with the inverse of a fraction that is not zero.
    pub fn div(self, other: Frac) -> Option<Frac>
        requires { other.numerator ≢ pos 0 }
        ensures { IsProduct self (inverse_of other) result }
    {
        self.mul(other.inverse())
    }
}
