//! Greatest common divisors.

ghost use Rattle.std.specs.Prelude.{◌≡◌};
ghost use Rattle.std.specs.Int.{IsGcd};
ghost use Rattle.dz_int.specs.Numbers.{IsContent};
ghost use Rattle.dz_algebra.specs.Norm.{gcd};

/// The greatest absolute value in range, `2^127 - 1`.
pub(crate) const GREATEST: u128 = 170141183460469231731687303715884105727;

/// The greatest common divisor of two numbers of 64 bits.
#[tactic(auto, using(dz_algebra::proofs::Divisors::gcd_zero, dz_algebra::proofs::Divisors::gcd_step))]
fn short_divisor(a: u64, b: u64) -> u64
    ensures { result ≡ gcd a b }
{
    let mut x = a;
    let mut y = b;
    while y != 0 {
        let rest = x % y;
        x = y;
        y = rest;
    }
    x
}

/// The greatest common divisor, in 64 bits as soon as both numbers fit.
#[tactic(auto, using(dz_algebra::proofs::Divisors::gcd_zero, dz_algebra::proofs::Divisors::gcd_step))]
pub(crate) fn divisor(a: u128, b: u128) -> u128
    ensures { result ≡ gcd a b }
{
    let mut x = a;
    let mut y = b;
    while y != 0 {
        if let (Ok(short_x), Ok(short_y)) = (u64::try_from(x), u64::try_from(y)) {
            return u128::from(short_divisor(short_x, short_y));
        }
        let rest = x % y;
        x = y;
        y = rest;
    }
    x
}

/// The greatest common divisor of two numbers; 0 for two zeros.
pub fn common_divisor(a: u128, b: u128) -> u128
    ensures { IsGcd a b result }
{
    divisor(a, b)
}

/// The greatest common divisor of the absolute values; 0 for none or only zeros.
#[tactic(auto, using(crate::proofs::Contents::content_of_none, crate::proofs::Contents::content_of_all))]
pub fn content(values: &[i128]) -> u128
    ensures { IsContent values.now result }
{
    let mut all = 0;
    for value in values {
        if all == 1 {
            return 1;
        }
        all = divisor(value.unsigned_abs(), all);
    }
    all
}
