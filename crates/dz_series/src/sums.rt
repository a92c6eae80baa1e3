//! The sums of series.

ghost use Rattle.std.specs.Prelude.{◌≡◌, ◌++◌, ◌==◌, ◌&&◌, [], cond, codes, length, map};
ghost use Rattle.std.specs.Prelude.{ℕ, IfOk, List, OnOk, Some};
ghost use Rattle.std.specs.List.{flat_map};
ghost use Rattle.dz_int.specs.Fractions.{Fraction};
ghost use Rattle.dz_rank.specs.Symbols.{BelongsTo, IsOperatorOf};
ghost use Rattle.dz_syntax.specs.Names.{signature_of};
ghost use Rattle.dz_form.specs.Texts.{joined};
ghost use Rattle.dz_form.specs.Writing.{marked};
ghost use Rattle.dz_series.specs.Series.{coefficient_answer, displacements, points_of};
ghost use Rattle.dz_series.specs.Series.{size_text, sum_text, summand, summand_text};
ghost use Rattle.dz_jet.specs.Writable.{IsWritable};
ghost use Rattle.dz_series.specs.Writing.{is_unit, powers, terms_text};

use crate::numbers::{is_below_zero, is_unit, is_zero, push_power, push_sign, push_size};
use dz_int::Frac;
use dz_jet::is_proper;
use dz_rank::{Operator, Symbol};
use dz_syntax::Names;
use std::alloc::AllocError;

/// Appends the power of a displacement with an exponent that is not 0, after a star where one was
/// written before it. Answers whether still none was written.
fn push_next_power(
    into: &mut Vec<u8>,
    name: &[u8],
    value: Frac,
    exponent: u8,
    first: bool,
) -> Result<bool, AllocError>
    ensures written { OnOk result (into.new.items ≡ into.old.items
        ++ marked (codes "*") first (powers name.now value exponent)) }
    ensures still { IfOk result (λ next. next ≡ (first && exponent == 0)) }
{
    if exponent == 0 {
        return Ok(first);
    }
    if !first {
        into.extend_from_slice(b"*")?;
    }
    push_power(into, name, value, exponent)?;
    Ok(false)
}

/// Appends the powers of displacements from the points of the independents, with stars between
/// them.
fn push_powers(
    into: &mut Vec<u8>,
    names: &Names,
    points: &[(Symbol, Frac)],
    operator: Operator,
) -> Result<(), AllocError>
    requires points { length points.now ≡ names.now.independents }
    requires operator { IsOperatorOf names.now.independents operator }
    ensures { OnOk result (into.new.items ≡ into.old.items
        ++ joined (codes "*") (displacements names.now 0 points.now operator.counts)) }
{
    let mut first = true;
    'independents: for i in 0..names.signature().independents {
        let exponent = operator.counts[usize::from(i)];
        let point = points[usize::from(i)].1;
        first = push_next_power(into, names.independent(i), point, exponent, first)?;
    }
    Ok(())
}

/// Appends the absolute value of a coefficient and a star, unless that value is 1.
fn push_factor(into: &mut Vec<u8>, coefficient: Frac) -> Result<(), AllocError>
    ensures { OnOk result (into.new.items ≡ into.old.items
        ++ cond (is_unit coefficient) [] (size_text coefficient ++ codes "*")) }
{
    if is_unit(coefficient) {
        return Ok(());
    }
    push_size(into, coefficient)?;
    into.extend_from_slice(b"*")
}

/// Appends the absolute value of a coefficient and the powers of displacements.
fn push_summand(
    into: &mut Vec<u8>,
    names: &Names,
    points: &[(Symbol, Frac)],
    coefficient: Frac,
    operator: Operator,
) -> Result<(), AllocError>
    requires points { length points.now ≡ names.now.independents }
    requires operator { IsOperatorOf names.now.independents operator }
    ensures { OnOk result (into.new.items ≡ into.old.items
        ++ summand_text coefficient (displacements names.now 0 points.now operator.counts)) }
{
    if !is_proper(operator) {
        return push_size(into, coefficient);
    }
    push_factor(into, coefficient)?;
    push_powers(into, names, points, operator)
}

/// Appends the sign of a term: that of the first alone is left out where it is not negative.
fn push_lead(into: &mut Vec<u8>, negative: bool, first: bool) -> Result<(), AllocError>
    ensures { OnOk result (into.new.items ≡ into.old.items
        ++ cond first (cond negative (codes "-") []) (cond negative (codes " - ") (codes " + "))) }
{
    if !first {
        return push_sign(into, negative);
    }
    if negative {
        into.extend_from_slice(b"-")?;
    }
    Ok(())
}

/// Appends the term of a derivative in the sum of a dependent, where there is one. Answers
/// whether still none was written.
fn push_term(
    into: &mut Vec<u8>,
    names: &Names,
    points: &[(Symbol, Frac)],
    dependent: u8,
    value: (Symbol, Frac),
    coefficient: Frac,
    first: bool,
) -> Result<bool, AllocError>
    requires points { length points.now ≡ names.now.independents }
    requires belongs { BelongsTo (signature_of names.now) value.0 }
    requires coefficient { coefficient_answer value ≡ Some coefficient }
    ensures { IfOk result (λ next. (ts : List (Fraction × List (List ℕ)))
        → into.new.items ++ terms_text next ts ≡ into.old.items
        ++ terms_text first (summand names.now points.now dependent value ++ ts)) }
{
    match value {
        (
            Symbol::Derivative {
                dependent: w,
                operator,
            },
            v,
        ) if dependent == w && !is_zero(v) => {
            push_lead(into, is_below_zero(coefficient), first)?;
            push_summand(into, names, points, coefficient, operator)?;
            Ok(false)
        }
        _ => Ok(first),
    }
}

/// Appends the sum of a dependent: a term for each of its derivatives whose value is not zero.
pub(crate) fn push_sum(
    into: &mut Vec<u8>,
    names: &Names,
    values: &[(Symbol, Frac)],
    coefficients: &[Frac],
    dependent: u8,
) -> Result<(), AllocError>
    requires writable { IsWritable (signature_of names.now) values.now }
    requires coefficients { map coefficient_answer values.now ≡ map Some coefficients.now }
    ensures { OnOk result (into.new.items ≡ into.old.items ++ sum_text
        (flat_map (summand names.now (points_of values.now) dependent) values.now)) }
{
    let points = &values[..usize::from(names.signature().independents)];
    let mut first = true;
    'terms: for k in 0..values.len() {
        let coefficient = coefficients[k];
        first = push_term(
            into,
            names,
            points,
            dependent,
            values[k],
            coefficient,
            first,
        )?;
    }
    if first {
        into.extend_from_slice(b"0")?;
    }
    Ok(())
}
