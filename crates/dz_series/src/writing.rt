//! Writing the lines of jets.

ghost use Rattle.std.specs.Prelude.{◌≡◌, ◌<◌, ◌+◌, ◌++◌, codes, map, IfErr, IfOk, OnOk, Ok, Some};
ghost use Rattle.std.specs.List.{flat_map, range_with_len};
ghost use Rattle.dz_rank.specs.Symbols.{BelongsTo};
ghost use Rattle.dz_syntax.specs.Names.{dependents, signature_of};
ghost use Rattle.dz_form.specs.Texts.{name_numbered};
ghost use Rattle.dz_series.specs.Series.{coefficient_answer, series_answer, series_line, value_line};
ghost use Rattle.dz_series.specs.SeriesStops.{IsStopOf};
ghost use Rattle.dz_jet.specs.Writable.{IsWritable};
ghost use Rattle.dz_series.specs.Writing.{lines_text};

use crate::coefficients::coefficients;
use crate::faults::SeriesFault;
use crate::numbers::push_fraction;
use crate::sums::push_sum;
use dz_form::push_symbol;
use dz_int::Frac;
use dz_jet::Jet;
use dz_rank::{Signature, Symbol};
use dz_syntax::Names;
use std::alloc::{AllocError, Global};

/// Appends the line of a derivative's value.
fn push_value_line(
    into: &mut Vec<u8>,
    names: &Names,
    symbol: Symbol,
    value: Frac,
) -> Result<(), AllocError>
    requires { BelongsTo (signature_of names.now) symbol }
    ensures { OnOk result (into.new.items ≡ into.old.items ++ value_line names.now (symbol, value)) }
{
    if let Symbol::Independent(_) = symbol {
        return Ok(());
    }
    into.extend_from_slice(b"value ")?;
    push_symbol(into, names, symbol)?;
    into.extend_from_slice(b" = ")?;
    push_fraction(into, value)?;
    into.extend_from_slice(b"\n")
}

/// Appends the lines of values.
fn push_value_lines(
    into: &mut Vec<u8>,
    names: &Names,
    values: &[(Symbol, Frac)],
) -> Result<(), AllocError>
    requires { IsWritable (signature_of names.now) values.now }
    ensures { OnOk result (into.new.items ≡ into.old.items
        ++ flat_map (value_line names.now) values.now) }
{
    'values: for k in 0..values.len() {
        let (symbol, value) = values[k];
        push_value_line(into, names, symbol, value)?;
    }
    Ok(())
}

/// Appends what stands before the sum of a dependent.
fn push_series_head(into: &mut Vec<u8>, names: &Names, dependent: u8) -> Result<(), AllocError>
    requires { dependent < dependents names.now }
    ensures { OnOk result (into.new.items ≡ into.old.items ++ (codes "series "
        ++ name_numbered names.now (names.now.independents + dependent) ++ codes " = ")) }
{
    into.extend_from_slice(b"series ")?;
    into.extend_from_slice(names.dependent(dependent))?;
    into.extend_from_slice(b" = ")
}

/// Appends the line of a dependent's series.
fn push_series_line(
    into: &mut Vec<u8>,
    names: &Names,
    values: &[(Symbol, Frac)],
    coefficients: &[Frac],
    dependent: u8,
) -> Result<(), AllocError>
    requires declared { dependent < dependents names.now }
    requires writable { IsWritable (signature_of names.now) values.now }
    requires coefficients { map coefficient_answer values.now ≡ map Some coefficients.now }
    ensures { OnOk result (into.new.items ≡ into.old.items
        ++ series_line names.now values.now dependent) }
{
    push_series_head(into, names, dependent)?;
    push_sum(into, names, values, coefficients, dependent)?;
    into.extend_from_slice(b"\n")
}

/// Appends the lines of the series, in the order of the dependents.
fn push_series_lines(
    into: &mut Vec<u8>,
    names: &Names,
    values: &[(Symbol, Frac)],
    coefficients: &[Frac],
    signature: Signature,
) -> Result<(), AllocError>
    requires signature { signature ≡ signature_of names.now }
    requires writable { IsWritable signature values.now }
    requires coefficients { map coefficient_answer values.now ≡ map Some coefficients.now }
    ensures { OnOk result (into.new.items ≡ into.old.items ++ flat_map
        (series_line names.now values.now) (range_with_len 0 signature.dependents)) }
{
    'dependents: for u in 0..signature.dependents {
        push_series_line(into, names, values, coefficients, u)?;
    }
    Ok(())
}

/// Appends the lines of a jet, whose coefficients are these.
pub(crate) fn push_lines(
    into: &mut Vec<u8>,
    names: &Names,
    values: &[(Symbol, Frac)],
    coefficients: &[Frac],
    signature: Signature,
) -> Result<(), AllocError>
    requires signature { signature ≡ signature_of names.now }
    requires writable { IsWritable signature values.now }
    requires coefficients { map coefficient_answer values.now ≡ map Some coefficients.now }
    ensures { OnOk result (into.new.items ≡ into.old.items
        ++ lines_text names.now signature values.now) }
{
    push_value_lines(into, names, values)?;
    push_series_lines(into, names, values, coefficients, signature)
}

/// The text of a jet: a line for the value of each derivative in increasing order, and a line for
/// the series of each dependent in the order of their numbers.
pub fn write_series(
    alloc: Global,
    jet: &Jet,
    names: &Names,
    signature: Signature,
) -> Result<Vec<u8>, SeriesFault>
    requires signature { signature ≡ signature_of names.now }
    requires writable { IsWritable signature jet.now.values }

    // The text is the one that the definition answers, and so is the first symbol whose
    // coefficient does not fit.
    ensures text { IfOk result (λ text. series_answer names.now signature jet.now.values
        ≡ Ok text.items) }
    ensures fault { IfErr result (λ e. IsStopOf e
        (series_answer names.now signature jet.now.values)) }
{
    let coefficients = coefficients(alloc, jet.values())?;
    let mut text = Vec::new(alloc);
    push_lines(
        &mut text,
        names,
        jet.values(),
        coefficients.as_slice(),
        signature,
    )?;
    Ok(text)
}
