//! Rows of exponents.
//!
//! What is left after the vectors is done by plain loops. They are functions of their own that
//! are not inlined, so that rows without such a rest pay nothing for them.

ghost use Rattle.std.specs.Prelude.{◌≡◌, ◌+◌, ◌-◌, ◌<◌, ◌≤◌, length, nat_lt, not, ◌==◌, false, if◌then◌else◌, sum};
ghost use Rattle.std.specs.Simd.Lanes.{zip2};
ghost use Rattle.std.specs.Ordering.{nat_cmp};
ghost use Rattle.std.specs.Cmp.Lexicographic.{slice_cmp};
ghost use Rattle.dz_lane.specs.Rows.{any_pair};

use crate::lanes::{
    differences, differs, falls_below, increased, sums, sums_pass, total, wide_differences,
    wide_falls_below, wide_sums, wide_sums_pass,
};
use std::cmp::Ordering;
use std::simd::prelude::*;

/// The number of lanes of a short vector.
const SHORT: usize = 4;

/// The number of lanes of a vector.
const LANES: usize = 8;

/// The number of lanes of a wide vector.
const WIDE: usize = 16;

/// Whether some sum of a plain loop passes the greatest exponent.
#[inline(never)]
fn plain_sum_passes(a: &[u16], b: &[u16]) -> bool
    requires { length a.now ≡ length b.now }
    ensures { result ≡ any_pair (λ x y. nat_lt 65535 (x + y)) a.now b.now }
{
    'entries: for i in 0..a.len() {
        if u32::from(a[i]) + u32::from(b[i]) > 65535 {
            return true;
        }
    }
    false
}

/// Whether some sum passes the greatest exponent, where there are few.
fn few_sum_passes(a: &[u16], b: &[u16]) -> bool
    requires { length a.now ≡ length b.now }
    ensures { result ≡ any_pair (λ x y. nat_lt 65535 (x + y)) a.now b.now }
{
    let mut i = 0;
    'vectors: while a.len() - i >= SHORT {
        if sums_pass(u16x4::from_slice(&a[i..]), u16x4::from_slice(&b[i..])) {
            return true;
        }
        i += SHORT;
    }
    if i == a.len() {
        return false;
    }
    plain_sum_passes(&a[i..], &b[i..])
}

/// Whether some sum passes the greatest exponent.
fn some_sum_passes(a: &[u16], b: &[u16]) -> bool
    requires { length a.now ≡ length b.now }
    ensures { result ≡ any_pair (λ x y. nat_lt 65535 (x + y)) a.now b.now }
{
    let mut i = 0;
    'vectors: while a.len() - i >= WIDE {
        if wide_sums_pass(u16x16::from_slice(&a[i..]), u16x16::from_slice(&b[i..])) {
            return true;
        }
        i += WIDE;
    }
    few_sum_passes(&a[i..], &b[i..])
}

/// Whether some entry of a plain loop is below that of the other row.
#[inline(never)]
fn plain_falls_below(a: &[u16], b: &[u16]) -> bool
    requires { length a.now ≡ length b.now }
    ensures { result ≡ any_pair (λ x y. nat_lt x y) a.now b.now }
{
    'entries: for i in 0..a.len() {
        if a[i] < b[i] {
            return true;
        }
    }
    false
}

/// Whether some entry is below that of the other row, where there are few.
fn few_falls_below(a: &[u16], b: &[u16]) -> bool
    requires { length a.now ≡ length b.now }
    ensures { result ≡ any_pair (λ x y. nat_lt x y) a.now b.now }
{
    let mut i = 0;
    'vectors: while a.len() - i >= SHORT {
        if falls_below(u16x4::from_slice(&a[i..]), u16x4::from_slice(&b[i..])) {
            return true;
        }
        i += SHORT;
    }
    if i == a.len() {
        return false;
    }
    plain_falls_below(&a[i..], &b[i..])
}

/// Whether some entry is below that of the other row.
fn some_falls_below(a: &[u16], b: &[u16]) -> bool
    requires { length a.now ≡ length b.now }
    ensures { result ≡ any_pair (λ x y. nat_lt x y) a.now b.now }
{
    let mut i = 0;
    'vectors: while a.len() - i >= WIDE {
        if wide_falls_below(u16x16::from_slice(&a[i..]), u16x16::from_slice(&b[i..])) {
            return true;
        }
        i += WIDE;
    }
    few_falls_below(&a[i..], &b[i..])
}

/// Writes the sums by a plain loop.
#[inline(never)]
fn put_plain_sums(a: &[u16], b: &[u16], into: &mut [u16])
    requires lengths { (length a.now ≡ length b.now) × (length a.now ≡ length into.old) }
    requires fit { any_pair (λ x y. nat_lt 65535 (x + y)) a.now b.now ≡ false }
    ensures { into.new ≡ zip2 (λ x y. x + y) a.now b.now }
{
    let mut i = 0;
    'entries: while i < a.len() {
        into[i] = a[i] + b[i];
        i += 1;
    }
}

/// Writes the sums, where there are few.
fn put_few_sums(a: &[u16], b: &[u16], into: &mut [u16])
    requires lengths { (length a.now ≡ length b.now) × (length a.now ≡ length into.old) }
    requires fit { any_pair (λ x y. nat_lt 65535 (x + y)) a.now b.now ≡ false }
    ensures { into.new ≡ zip2 (λ x y. x + y) a.now b.now }
{
    let mut i = 0;
    'vectors: while a.len() - i >= SHORT {
        let both = sums(u16x4::from_slice(&a[i..]), u16x4::from_slice(&b[i..]));
        both.copy_to_slice(&mut into[i..]);
        i += SHORT;
    }
    if i == a.len() {
        return;
    }
    put_plain_sums(&a[i..], &b[i..], &mut into[i..]);
}

/// Writes the sums.
fn put_sums(a: &[u16], b: &[u16], into: &mut [u16])
    requires lengths { (length a.now ≡ length b.now) × (length a.now ≡ length into.old) }
    requires fit { any_pair (λ x y. nat_lt 65535 (x + y)) a.now b.now ≡ false }
    ensures { into.new ≡ zip2 (λ x y. x + y) a.now b.now }
{
    let mut i = 0;
    'vectors: while a.len() - i >= WIDE {
        let both = wide_sums(u16x16::from_slice(&a[i..]), u16x16::from_slice(&b[i..]));
        both.copy_to_slice(&mut into[i..]);
        i += WIDE;
    }
    put_few_sums(&a[i..], &b[i..], &mut into[i..]);
}

/// Writes the differences by a plain loop.
#[inline(never)]
fn put_plain_differences(a: &[u16], b: &[u16], into: &mut [u16])
    requires lengths { (length a.now ≡ length b.now) × (length a.now ≡ length into.old) }
    requires fit { any_pair (λ x y. nat_lt x y) a.now b.now ≡ false }
    ensures { into.new ≡ zip2 (λ x y. x - y) a.now b.now }
{
    let mut i = 0;
    'entries: while i < a.len() {
        into[i] = a[i] - b[i];
        i += 1;
    }
}

/// Writes the differences, where there are few.
fn put_few_differences(a: &[u16], b: &[u16], into: &mut [u16])
    requires lengths { (length a.now ≡ length b.now) × (length a.now ≡ length into.old) }
    requires fit { any_pair (λ x y. nat_lt x y) a.now b.now ≡ false }
    ensures { into.new ≡ zip2 (λ x y. x - y) a.now b.now }
{
    let mut i = 0;
    'vectors: while a.len() - i >= SHORT {
        let both = differences(u16x4::from_slice(&a[i..]), u16x4::from_slice(&b[i..]));
        both.copy_to_slice(&mut into[i..]);
        i += SHORT;
    }
    if i == a.len() {
        return;
    }
    put_plain_differences(&a[i..], &b[i..], &mut into[i..]);
}

/// Writes the differences.
fn put_differences(a: &[u16], b: &[u16], into: &mut [u16])
    requires lengths { (length a.now ≡ length b.now) × (length a.now ≡ length into.old) }
    requires fit { any_pair (λ x y. nat_lt x y) a.now b.now ≡ false }
    ensures { into.new ≡ zip2 (λ x y. x - y) a.now b.now }
{
    let mut i = 0;
    'vectors: while a.len() - i >= WIDE {
        let both = wide_differences(u16x16::from_slice(&a[i..]), u16x16::from_slice(&b[i..]));
        both.copy_to_slice(&mut into[i..]);
        i += WIDE;
    }
    put_few_differences(&a[i..], &b[i..], &mut into[i..]);
}

/// Writes the sums, where none passes 65,535; else answers false and writes nothing. It needs
/// rows of one length, which may be any.
pub fn rows_add(a: &[u16], b: &[u16], into: &mut [u16]) -> bool
    requires { (length a.now ≡ length b.now) × (length a.now ≡ length into.old) }
    ensures value { result ≡ not (any_pair (λ x y. nat_lt 65535 (x + y)) a.now b.now) }
    ensures into { into.new ≡ (if result then zip2 (λ x y. x + y) a.now b.now else into.old) }
{
    if some_sum_passes(a, b) {
        return false;
    }
    put_sums(a, b, into);
    true
}

/// Writes the differences, where no entry of `a` is below that of `b`; else answers false and
/// writes nothing. It needs rows of one length, which may be any.
pub fn rows_divide(a: &[u16], b: &[u16], into: &mut [u16]) -> bool
    requires { (length a.now ≡ length b.now) × (length a.now ≡ length into.old) }
    ensures value { result ≡ not (any_pair (λ x y. nat_lt x y) a.now b.now) }
    ensures into { into.new ≡ (if result then zip2 (λ x y. x - y) a.now b.now else into.old) }
{
    if some_falls_below(a, b) {
        return false;
    }
    put_differences(a, b, into);
    true
}

/// Compares by the first entry of a plain loop that differs.
fn plain_compare(a: &[u16], b: &[u16]) -> Ordering
    requires { length a.now ≡ length b.now }
    ensures { result ≡ slice_cmp nat_cmp a.now b.now }
{
    'places: for i in 0..a.len() {
        if a[i] != b[i] {
            return a[i].cmp(&b[i]);
        }
    }
    Ordering::Equal
}

/// Compares by the first entry that differs. It needs rows of one length, which may be any.
pub fn rows_compare(a: &[u16], b: &[u16]) -> Ordering
    requires { length a.now ≡ length b.now }
    ensures { result ≡ slice_cmp nat_cmp a.now b.now }
{
    let mut i = 0;
    'vectors: while a.len() - i >= LANES {
        if differs(u16x8::from_slice(&a[i..]), u16x8::from_slice(&b[i..])) {
            return plain_compare(&a[i..], &b[i..]);
        }
        i += LANES;
    }
    plain_compare(&a[i..], &b[i..])
}

/// The sum of the entries. It needs at most 64 of them, so that the sum has a bound.
pub fn row_degree(a: &[u16]) -> u32
    requires { length a.now ≤ 64 }
    ensures { result ≡ sum a.now }
{
    let mut sums = u32x8::splat(0);
    let mut i = 0;
    'vectors: while a.len() - i >= LANES {
        sums = increased(sums, u16x8::from_slice(&a[i..]));
        i += LANES;
    }
    let mut degree = total(sums);
    'entries: while i < a.len() {
        degree += u32::from(a[i]);
        i += 1;
    }
    degree
}
