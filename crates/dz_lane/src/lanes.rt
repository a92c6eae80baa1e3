//! Vectors of four, eight and sixteen exponents.

ghost use Rattle.std.specs.Prelude.{◌≡◌, ◌+◌, ◌-◌, ◌<◌, ◌≤◌, ◌^◌, nat_lt, not, ◌==◌, false};
ghost use Rattle.std.specs.Simd.Lanes.{zip2, sum_l};
ghost use Rattle.dz_lane.specs.Rows.{any_pair};

use std::simd::prelude::*;

/// Whether some sum passes the greatest exponent.
pub(crate) fn sums_pass(a: u16x4, b: u16x4) -> bool
    ensures { result ≡ any_pair (λ x y. nat_lt 65535 (x + y)) a b }
{
    (a + b).simd_lt(a).any()
}

/// Whether some entry is below that of the other.
pub(crate) fn falls_below(a: u16x4, b: u16x4) -> bool
    ensures { result ≡ any_pair (λ x y. nat_lt x y) a b }
{
    a.simd_lt(b).any()
}

/// Whether some entry differs.
pub(crate) fn differs(a: u16x8, b: u16x8) -> bool
    ensures { result ≡ any_pair (λ x y. not (x == y)) a b }
{
    a.simd_ne(b).any()
}

/// The sums, where none passes the greatest exponent.
pub(crate) fn sums(a: u16x4, b: u16x4) -> u16x4
    requires { any_pair (λ x y. nat_lt 65535 (x + y)) a b ≡ false }
    ensures { result ≡ zip2 (λ x y. x + y) a b }
{
    a.strict_add(b)
}

/// The differences, where no entry is below that of the other.
pub(crate) fn differences(a: u16x4, b: u16x4) -> u16x4
    requires { any_pair (λ x y. nat_lt x y) a b ≡ false }
    ensures { result ≡ zip2 (λ x y. x - y) a b }
{
    a.strict_sub(b)
}

/// Sums to which entries are added lane by lane.
pub(crate) fn increased(sums: u32x8, a: u16x8) -> u32x8
    requires { sum_l sums + sum_l a < 2 ^ 32 }
    ensures { sum_l result ≡ sum_l sums + sum_l a }
{
    sums.strict_add(a.cast::<u32>())
}

/// The sum of the lanes.
pub(crate) fn total(sums: u32x8) -> u32
    requires { sum_l sums < 2 ^ 32 }
    ensures { result ≡ sum_l sums }
{
    sums.strict_reduce_sum()
}

/// Whether some sum of a wide vector passes the greatest exponent.
pub(crate) fn wide_sums_pass(a: u16x16, b: u16x16) -> bool
    ensures { result ≡ any_pair (λ x y. nat_lt 65535 (x + y)) a b }
{
    (a + b).simd_lt(a).any()
}

/// Whether some entry of a wide vector is below that of the other.
pub(crate) fn wide_falls_below(a: u16x16, b: u16x16) -> bool
    ensures { result ≡ any_pair (λ x y. nat_lt x y) a b }
{
    a.simd_lt(b).any()
}

/// The sums of wide vectors, where none passes the greatest exponent.
pub(crate) fn wide_sums(a: u16x16, b: u16x16) -> u16x16
    requires { any_pair (λ x y. nat_lt 65535 (x + y)) a b ≡ false }
    ensures { result ≡ zip2 (λ x y. x + y) a b }
{
    a.strict_add(b)
}

/// The differences of wide vectors, where no entry is below that of the other.
pub(crate) fn wide_differences(a: u16x16, b: u16x16) -> u16x16
    requires { any_pair (λ x y. nat_lt x y) a b ≡ false }
    ensures { result ≡ zip2 (λ x y. x - y) a b }
{
    a.strict_sub(b)
}
