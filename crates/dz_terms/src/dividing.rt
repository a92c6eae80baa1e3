//! Division of all coefficients by a number.

ghost use Rattle.std.specs.Prelude.{◌≡◌, ◌≤◌, ◌<◌, pos, length, int_div, unsigned_abs};
ghost use Rattle.dz_algebra.specs.Amount.{greatest};
ghost use Rattle.dz_algebra.specs.Norm.{content, divided, gcd, norm, signed_content};
ghost use Rattle.dz_monomials.specs.Divisions.{DividesAll};
ghost use Rattle.dz_terms.specs.Entries.{IsEntry, IsSomeEntry};
ghost use Rattle.dz_monomials.specs.Signs.{signed};
ghost use Rattle.dz_rank.specs.Rankings.{RankingValue};

use crate::entry::Entry;
use dz_int::common_divisor;
use dz_monomials::{Sign, Term};

#[tactic(auto, using(dz_monomials::proofs::Divisibility::size_divided))]
/// The coefficient of a term divided by a number with a sign, rounded toward zero.
fn quotient(term: &Term, sign: Sign, size: u128) -> i128
    requires positive { 0 < size }
    requires in_range { size ≤ greatest }
    ensures value { result ≡ int_div term.now.1 (signed sign (pos size)) }
    ensures in_range { unsigned_abs result ≤ greatest }
{
    let size = size as i128;
    match sign {
        Sign::Plus => term.coefficient() / size,
        Sign::Minus => term.coefficient() / -size,
    }
}

#[tactic(auto, using(dz_monomials::proofs::Contents::none_left, dz_monomials::proofs::Contents::one_more, dz_monomials::proofs::Contents::is_one))]
/// The greatest common divisor of the coefficients, 0 for no terms.
fn content_of(terms: &[Term]) -> u128
    ensures { result ≡ content terms.now }
{
    let mut all = 0;
    for i in 0..terms.len() {
        if all == 1 {
            return 1;
        }
        let coefficient = terms[terms.len() - 1 - i].coefficient();
        all = common_divisor(coefficient.unsigned_abs(), all);
    }
    all
}

/// The sign of the first coefficient.
fn first_sign(terms: &[Term]) -> Sign
    requires { 0 < length terms.now }
    ensures { signed result (pos (content terms.now)) ≡ signed_content terms.now }
{
    if terms[0].coefficient() < 0 {
        Sign::Minus
    } else {
        Sign::Plus
    }
}

#[tactic(auto, using(dz_monomials::proofs::Divisibility::none_divided, dz_monomials::proofs::Divisibility::one_divided, dz_monomials::proofs::Divisibility::all_divided))]
/// Divides the coefficients of terms by a number with a sign.
fn divide(terms: &mut Vec<Term>, sign: Sign, size: u128)
    requires positive { 0 < size }
    requires in_range { size ≤ greatest }
    ensures { terms.new.items ≡ divided (signed sign (pos size)) terms.old.items }
{
    for term in terms.iter_mut() {
        term.set_coefficient(quotient(term, sign, size));
    }
}

/// An entry with its coefficients divided by a number with a sign; nothing is copied.
fn divided(entry: Entry, sign: Sign, size: u128) -> Entry
    requires positive { 0 < size }
    requires in_range { size ≤ greatest }
    ensures terms { result.terms ≡ divided (signed sign (pos size)) entry.terms }
    ensures degrees { result.degrees ≡ entry.degrees }
{
    let mut entry = entry;
    divide(&mut entry.terms, sign, size);
    entry
}

/// The coefficients divided by `k`, which divides all of them; nothing is copied.
pub fn quotient_by(entry: Entry, k: u128) -> Entry
    requires entry { IsSomeEntry entry }
    requires positive { 1 ≤ k }
    requires divides { DividesAll k entry.terms }
    ensures terms { result.terms ≡ divided (pos k) entry.terms }
    ensures entry { (r : RankingValue) → IsEntry r entry → IsEntry r result }
{
    if k == 1 {
        return entry;
    }
    if entry.is_zero() {
        return entry;
    }
    divided(entry, Sign::Plus, k)
}

/// The norm: divided by the greatest common divisor of the coefficients, with the first positive;
/// nothing is copied.
pub fn into_norm(entry: Entry) -> Entry
    requires { IsSomeEntry entry }
    ensures terms { result.terms ≡ norm entry.terms }
    ensures entry { (r : RankingValue) → IsEntry r entry → IsEntry r result }
{
    if entry.is_zero() {
        return entry;
    }
    let sign = first_sign(entry.terms());
    let content = content_of(entry.terms());
    divided(entry, sign, content)
}

/// The greatest common divisor of the coefficients of two polynomials.
pub fn common_content(a: &Entry, b: &Entry) -> u128
    ensures { result ≡ gcd (content a.now.terms) (content b.now.terms) }
{
    common_divisor(content_of(a.terms()), content_of(b.terms()))
}
