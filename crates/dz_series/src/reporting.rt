//! What is printed of a series behind a document.

ghost use Rattle.std.specs.Prelude.{◌≡◌, ◌++◌, All, IfOk, IsErr, Ok, OnErr, OnOk, Some, codes};
ghost use Rattle.std.specs.Prelude.{decimal, map};
ghost use Rattle.dz_rank.specs.Symbols.{BelongsTo};
ghost use Rattle.dz_syntax.specs.Names.{signature_of};
ghost use Rattle.dz_form.specs.Limits.{limit_word};
ghost use Rattle.dz_form.specs.Texts.{symbol_text};
ghost use Rattle.dz_diff.specs.States.{StandsIn, state_in};
ghost use Rattle.dz_syntax.specs.Systems.{AreDistinct};
ghost use Rattle.dz_jet.specs.FaultSymbols.{IsFaultOver};
ghost use Rattle.dz_series.specs.Series.{coefficient_answer, fraction_text, series_answer};
ghost use Rattle.dz_series.specs.SeriesEnds.{ending_of, report_of};
ghost use Rattle.dz_series.specs.SeriesReports.{at_text, fault_report, large, lines_report};
ghost use Rattle.dz_series.specs.SeriesReports.{part_text, series_report, stopped, unprinted, wide};
ghost use Rattle.dz_jet.specs.Writable.{IsWritable};
ghost use Rattle.dz_series.specs.Writing.{lines_text};
ghost use Rattle.dz_jet.specs.declared.faults.JetFault.TheVariants as faults;
ghost use Rattle.dz_jet.specs.declared.faults.Part.TheVariants.{Equation};

use crate::coefficients::coefficients;
use crate::faults::SeriesFault;
use crate::numbers::{push_fraction, push_number};
use crate::writing::push_lines;
use dz_diff::State;
use dz_form::{limit_word, push_symbol};
use dz_int::Frac;
use dz_jet::{At, Jet, JetFault, Part, jet};
use dz_poly::{Book, Limit};
use dz_rank::Symbol;
use dz_syntax::Names;
use std::alloc::{AllocError, Global};

/// How the report of a series ends.
#[derive(Drop)]
pub enum SeriesEnd {
    /// All lines are printed.
    Done,
    /// A value or a coefficient does not fit.
    Wide,
    /// An operation is not small.
    Large,
    /// The point is refused, and nothing is printed: the words that say why.
    Refused(Vec<u8>),
}

/// A report that is still to be printed.
#[derive(Drop)]
struct Report {
    printed: Vec<u8>,
    end: SeriesEnd,
}

/// The word before the place of a part, and the place.
fn part_word(part: Part) -> (&'static [u8], u16)
    ensures { result.0.now ++ decimal result.1 ≡ part_text part }
{
    match part {
        Part::Equation(i) => (b"equation ", i),
        Part::Initial(i) => (b"initial ", i),
        Part::Separant(i) => (b"separant ", i),
        Part::Inequation(i) => (b"inequation ", i),
    }
}

/// Appends the name of a part.
fn push_part(into: &mut Vec<u8>, part: Part) -> Result<(), AllocError>
    ensures { OnOk result (into.new.items ≡ into.old.items ++ part_text part) }
{
    let (word, place) = part_word(part);
    into.extend_from_slice(word)?;
    push_number(into, u128::from(place))
}

/// Appends the name of what is evaluated.
fn push_at(into: &mut Vec<u8>, names: &Names, at: At) -> Result<(), AllocError>
    requires { IsFaultOver (signature_of names.now) (faults.Wide at) }
    ensures { OnOk result (into.new.items ≡ into.old.items ++ at_text names.now at) }
{
    match at {
        At::Part(part) => push_part(into, part),
        At::Derivative(symbol) => push_symbol(into, names, symbol),
    }
}

/// The report of a point that is refused with a message.
fn unprinted(alloc: Global, message: Vec<u8>) -> Report
    ensures { report_of result ≡ unprinted message.items }
{
    Report {
        printed: Vec::new(alloc),
        end: SeriesEnd::Refused(message),
    }
}

/// The report of a point that is refused for a symbol.
fn symbol_refused(
    alloc: Global,
    names: &Names,
    symbol: Symbol,
    why: &[u8],
) -> Result<Report, AllocError>
    requires { BelongsTo (signature_of names.now) symbol }
    ensures { IfOk result (λ r. report_of r ≡ unprinted (symbol_text names.now symbol ++ why.now)) }
{
    let mut message = Vec::new(alloc);
    push_symbol(&mut message, names, symbol)?;
    message.extend_from_slice(why)?;
    Ok(unprinted(alloc, message))
}

/// The report of a point at which an equation has this value.
fn off_chain(alloc: Global, place: u16, value: Frac) -> Result<Report, AllocError>
    ensures { IfOk result (λ r. report_of r ≡ unprinted
        (part_text (Equation place) ++ codes " is " ++ fraction_text value)) }
{
    let mut message = Vec::new(alloc);
    push_part(&mut message, Part::Equation(place))?;
    message.extend_from_slice(b" is ")?;
    push_fraction(&mut message, value)?;
    Ok(unprinted(alloc, message))
}

/// The report of a point at which a part has value zero.
fn vanishes(alloc: Global, part: Part) -> Result<Report, AllocError>
    ensures { IfOk result (λ r. report_of r ≡ unprinted (part_text part ++ codes " vanishes")) }
{
    let mut message = Vec::new(alloc);
    push_part(&mut message, part)?;
    message.extend_from_slice(b" vanishes")?;
    Ok(unprinted(alloc, message))
}

/// The report that is stopped by what does not fit.
fn stopped_wide(alloc: Global, names: &Names, at: At) -> Result<Report, AllocError>
    requires { IsFaultOver (signature_of names.now) (faults.Wide at) }
    ensures { IfOk result (λ r. report_of r ≡ stopped wide (codes "wide " ++ at_text names.now at)) }
{
    let mut printed = Vec::new(alloc);
    printed.extend_from_slice(b"stopped wide ")?;
    push_at(&mut printed, names, at)?;
    printed.extend_from_slice(b"\nend\n")?;
    Ok(Report {
        printed,
        end: SeriesEnd::Wide,
    })
}

/// The report that is stopped by an operation that is not small.
fn stopped_large(
    alloc: Global,
    names: &Names,
    symbol: Symbol,
    limit: Limit,
) -> Result<Report, AllocError>
    requires { BelongsTo (signature_of names.now) symbol }
    ensures { IfOk result (λ r. report_of r ≡ stopped large
        (codes "large " ++ limit_word limit ++ codes " " ++ symbol_text names.now symbol)) }
{
    let mut printed = Vec::new(alloc);
    printed.extend_from_slice(b"stopped large ")?;
    printed.extend_from_slice(limit_word(limit))?;
    printed.extend_from_slice(b" ")?;
    push_symbol(&mut printed, names, symbol)?;
    printed.extend_from_slice(b"\nend\n")?;
    Ok(Report {
        printed,
        end: SeriesEnd::Large,
    })
}

/// The report of a fault, but for want of memory.
fn fault_report(alloc: Global, names: &Names, fault: JetFault) -> Result<Report, AllocError>
    requires { IsFaultOver (signature_of names.now) fault }
    ensures report { IfOk result (λ r. report_of r ≡ fault_report names.now fault) }
    ensures memory { fault ≡ faults.Memory → IsErr result }
{
    match fault {
        JetFault::Memory => Err(AllocError),
        JetFault::NotOrderly => {
            let message = Vec::from_slice(alloc, b"the ranking is not orderly")?;
            Ok(unprinted(alloc, message))
        }
        JetFault::Missing(symbol) => symbol_refused(alloc, names, symbol, b" has no value"),
        JetFault::NotFree(symbol) => symbol_refused(alloc, names, symbol, b" is not free"),
        JetFault::OffChain(place, value) => off_chain(alloc, place, value),
        JetFault::Vanishes(part) => vanishes(alloc, part),
        JetFault::Wide(at) => stopped_wide(alloc, names, at),
        JetFault::Large(symbol, limit) => stopped_large(alloc, names, symbol, limit),
    }
}

/// The report of the lines of a jet, whose coefficients are these, of the chain with a number.
fn lines_report(
    alloc: Global,
    names: &Names,
    number: u32,
    jet: &Jet,
    coefficients: &[Frac],
) -> Result<Report, AllocError>
    requires writable { IsWritable (signature_of names.now) jet.now.values }
    requires coefficients { map coefficient_answer jet.now.values ≡ map Some coefficients.now }
    ensures { IfOk result (λ r. report_of r ≡ lines_report names.now number jet.now.order
        (Ok (lines_text names.now (signature_of names.now) jet.now.values))) }
{
    let mut printed = Vec::new(alloc);
    printed.extend_from_slice(b"series chain ")?;
    push_number(&mut printed, u128::from(number))?;
    printed.extend_from_slice(b" order ")?;
    push_number(&mut printed, u128::from(jet.order()))?;
    printed.extend_from_slice(b"\n")?;
    push_lines(
        &mut printed,
        names,
        jet.values(),
        coefficients,
        names.signature(),
    )?;
    printed.extend_from_slice(b"end\n")?;
    Ok(Report {
        printed,
        end: SeriesEnd::Done,
    })
}

/// The report of a jet of the chain with a number.
fn jet_report(alloc: Global, names: &Names, number: u32, jet: &Jet) -> Result<Report, AllocError>
    requires { IsWritable (signature_of names.now) jet.now.values }
    ensures { IfOk result (λ r. report_of r ≡ lines_report names.now number jet.now.order
        (series_answer names.now (signature_of names.now) jet.now.values)) }
{
    match coefficients(alloc, jet.values()) {
        Ok(coefficients) => lines_report(alloc, names, number, jet, coefficients.as_slice()),
        Err(SeriesFault::Memory) => Err(AllocError),
        Err(SeriesFault::Wide(symbol)) => stopped_wide(alloc, names, At::Derivative(symbol)),
    }
}

/// The report of the chain with a number up to an order, from the values of the symbols that are
/// free.
fn make_report(
    alloc: Global,
    book: &mut Book,
    names: &Names,
    number: u32,
    chain: &State,
    values: &[(Symbol, Frac)],
    order: u8,
) -> Result<Report, AllocError>
    requires stands { StandsIn book.old chain.now }
    requires belong { All (λ p. BelongsTo book.old.ranking.signature p.0) values.now }
    requires distinct { AreDistinct values.now }
    requires signature { signature_of names.now ≡ book.old.ranking.signature }
    ensures report { IfOk result (λ r. report_of r ≡ series_report book.old.ranking names.now
        number (state_in book.old chain.now) values.now order) }
    ensures book { book.new ≡ book.old }
{
    match jet(alloc, book, chain, values, order) {
        Ok(jet) => jet_report(alloc, names, number, &jet),
        Err(fault) => fault_report(alloc, names, fault),
    }
}

/// Appends what is printed of a series behind a document: the lines of the jet of the chain with
/// a number, up to an order, from the values of the symbols that are free; or the line of what
/// does not fit or is not small. Of a point that is refused nothing is appended.
pub fn write_series_report(
    alloc: Global,
    book: &mut Book,
    names: &Names,
    number: u32,
    chain: &State,
    values: &[(Symbol, Frac)],
    order: u8,
    into: &mut Vec<u8>,
) -> Result<SeriesEnd, AllocError>
    requires stands { StandsIn book.old chain.now }
    requires belong { All (λ p. BelongsTo book.old.ranking.signature p.0) values.now }
    requires distinct { AreDistinct values.now }
    requires signature { signature_of names.now ≡ book.old.ranking.signature }

    // What is appended, and how that ends, is what the definition says.
    ensures printed { OnOk result (into.new.items ≡ into.old.items ++ (series_report
        book.old.ranking names.now number (state_in book.old chain.now) values.now order).printed) }
    ensures ending { IfOk result (λ end. ending_of end ≡ (series_report
        book.old.ranking names.now number (state_in book.old chain.now) values.now order).ending) }

    // On a refusal of memory nothing is appended, and the book is always as before.
    ensures refused { OnErr result (into.new.items ≡ into.old.items) }
    ensures book { book.new ≡ book.old }
{
    let report = make_report(alloc, book, names, number, chain, values, order)?;
    into.extend_from_slice(&report.printed)?;
    Ok(report.end)
}
