//! The texts of fractions and of displacements.

ghost use Rattle.std.specs.Prelude.{◌≡◌, ◌++◌, [], cond, codes, decimal, not, OnOk};
ghost use Rattle.dz_jet.specs.Fractions.{is_zero_fraction};
ghost use Rattle.dz_series.specs.Series.{displacement_text, fraction_text, is_below_zero, size_text};
ghost use Rattle.dz_series.specs.Writing.{is_unit, power_text};

use dz_int::Frac;
use itoa::Buffer;
use std::alloc::AllocError;

/// Appends a number.
pub(crate) fn push_number(into: &mut Vec<u8>, number: u128) -> Result<(), AllocError>
    ensures { OnOk result (into.new.items ≡ into.old.items ++ decimal number) }
{
    let mut buffer = Buffer::new();
    into.extend_from_slice(buffer.format(number).as_bytes())
}

/// Whether a fraction is zero.
pub(crate) fn is_zero(value: Frac) -> bool
    ensures { result ≡ is_zero_fraction value }
{
    value.numerator() == 0
}

/// Whether a fraction is negative.
pub(crate) fn is_below_zero(value: Frac) -> bool
    ensures { result ≡ is_below_zero value }
{
    value.numerator() < 0
}

/// Whether the absolute value of a fraction is 1.
pub(crate) fn is_unit(value: Frac) -> bool
    ensures { result ≡ is_unit value }
{
    value.numerator().unsigned_abs() == 1 && value.denominator() == 1
}

/// Appends the absolute value of a fraction.
pub(crate) fn push_size(into: &mut Vec<u8>, value: Frac) -> Result<(), AllocError>
    ensures { OnOk result (into.new.items ≡ into.old.items ++ size_text value) }
{
    push_number(into, value.numerator().unsigned_abs())?;
    if value.denominator() == 1 {
        return Ok(());
    }
    into.extend_from_slice(b"/")?;
    push_number(into, value.denominator().unsigned_abs())
}

/// Appends a fraction.
pub(crate) fn push_fraction(into: &mut Vec<u8>, value: Frac) -> Result<(), AllocError>
    ensures { OnOk result (into.new.items ≡ into.old.items ++ fraction_text value) }
{
    if is_below_zero(value) {
        into.extend_from_slice(b"-")?;
    }
    push_size(into, value)
}

/// Appends what joins a term to the terms before it.
pub(crate) fn push_sign(into: &mut Vec<u8>, negative: bool) -> Result<(), AllocError>
    ensures { OnOk result (into.new.items ≡ into.old.items
        ++ cond negative (codes " - ") (codes " + ")) }
{
    if negative {
        into.extend_from_slice(b" - ")
    } else {
        into.extend_from_slice(b" + ")
    }
}

/// Appends the displacement of an independent from its value.
fn push_displacement(into: &mut Vec<u8>, name: &[u8], value: Frac) -> Result<(), AllocError>
    ensures { OnOk result (into.new.items ≡ into.old.items ++ displacement_text name.now value) }
{
    if is_zero(value) {
        return into.extend_from_slice(name);
    }
    into.extend_from_slice(b"(")?;
    into.extend_from_slice(name)?;
    push_sign(into, !is_below_zero(value))?;
    push_size(into, value)?;
    into.extend_from_slice(b")")
}

/// Appends a power of a displacement.
pub(crate) fn push_power(
    into: &mut Vec<u8>,
    name: &[u8],
    value: Frac,
    exponent: u8,
) -> Result<(), AllocError>
    ensures { OnOk result (into.new.items ≡ into.old.items ++ power_text name.now value exponent) }
{
    push_displacement(into, name, value)?;
    if exponent == 1 {
        return Ok(());
    }
    into.extend_from_slice(b"^")?;
    push_number(into, u128::from(exponent))
}
