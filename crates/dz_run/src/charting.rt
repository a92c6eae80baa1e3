// The answers of `series` and `parametric`.
ghost use Rattle.std.specs.Prelude.{◌≡◌, ◌≤◌, ◌-◌, ◌++◌, ℕ, All, IfOk, List, codes, decimal, map, slice_get};
ghost use Rattle.dz_diff.specs.States.{StandsIn, state_in};
ghost use Rattle.dz_jet.specs.Jets.{Values};
ghost use Rattle.dz_parametric.specs.Ends.{is_large};
ghost use Rattle.dz_rank.specs.Symbols.{BelongsTo};
ghost use Rattle.dz_series.specs.SeriesEnds.{ending_of};
ghost use Rattle.dz_series.specs.SeriesReports.{SeriesReport};
ghost use Rattle.dz_syntax.specs.Names.{signature_of};
ghost use Rattle.dz_syntax.specs.Systems.{AreDistinct, HasExpressions, HasValues, tree_of};
ghost use Rattle.dz_move.specs.Systems.{IsSystemIn, system_in};
ghost use Rattle.dz_words.specs.Words.{IsInRange};
ghost use Rattle.dz_run.specs.Answer.{answer_of, continued, point_text, printed, with_system};
ghost use Rattle.dz_run.specs.Charted.{charted, chain_answer, chart_answer, cones_ending, report_answer};
ghost use Rattle.dz_run.specs.System.{ranking_of};
ghost use Rattle.dz_run.specs.declared.charting.Chart.TheVariants.{Parametric, Series};
ghost use Rattle.dz_run.specs.declared.ending.Ending.TheVariants.{Done, Point};

use crate::decomposing::worked_system;
use crate::ending::Ending;
use crate::system::{Stop, system_of};
use crate::told::{Told, refused_answer};
use dz_diff::State;
use dz_int::Frac;
use dz_move::System;
use dz_parametric::{ParametricEnd, write_parametric_report};
use dz_poly::Book;
use dz_rank::Symbol;
use dz_series::{SeriesEnd, write_series_report};
use dz_syntax::{Names, SystemTree};
use dz_words::Request;
use itoa::Buffer;
use std::alloc::{AllocError, Global};

/// What is told of a chain.
#[derive(Clone, Copy, Debug, PartialEq, Eq)]
pub(crate) enum Chart {
    /// Its series at values.
    Series,
    /// Its parametric derivatives and its cones.
    Parametric,
}

/// The message with these words.
fn point_line(alloc: Global, words: &[u8]) -> Result<Vec<u8>, AllocError>
    ensures { IfOk result (λ text. text.items ≡ point_text words.now) }
{
    let mut text = Vec::new(alloc);
    text.extend_from_slice(b"blad: point: ")?;
    text.extend_from_slice(words)?;
    text.extend_from_slice(b"\n")?;
    Ok(text)
}

/// The answer where the chain, the ranking or the point is refused with these words, behind a
/// document.
fn point_told(alloc: Global, document: Vec<u8>, words: &[u8]) -> Result<Told, AllocError>
    ensures { IfOk result (λ told. answer_of told
        ≡ record { output = document.items; ending = Point; point = point_text words.now }) }
{
    let point = point_line(alloc, words)?;
    Ok(Told {
        output: document,
        ending: Ending::Point,
        point,
    })
}

/// The answer where there is no chain with this number.
fn no_chain_told(alloc: Global, document: Vec<u8>, number: u32) -> Result<Told, AllocError>
    ensures { IfOk result (λ told. answer_of told ≡ record {
      output = document.items;
      ending = Point;
      point = point_text (codes "there is no chain " ++ decimal number);
    }) }
{
    let mut buffer = Buffer::new();
    let mut words = Vec::new(alloc);
    words.extend_from_slice(b"there is no chain ")?;
    words.extend_from_slice(buffer.format(number).as_bytes())?;
    point_told(alloc, document, &words)
}

/// The answer of a report on a series, which stands behind a document in this text.
fn end_told(alloc: Global, text: Vec<u8>, end: SeriesEnd) -> Result<Told, AllocError>
    ensures { (document : List ℕ) (report : SeriesReport) → IfOk result (λ told.
        text.items ≡ document ++ report.printed → ending_of end ≡ report.ending
        → answer_of told ≡ continued (printed document Done) (report_answer report)) }
{
    match end {
        SeriesEnd::Done => Ok(Told::printed(alloc, text, Ending::Done)),
        SeriesEnd::Wide => Ok(Told::printed(alloc, text, Ending::Wide)),
        SeriesEnd::Large => Ok(Told::printed(alloc, text, Ending::Large)),
        SeriesEnd::Refused(words) => point_told(alloc, text, &words),
    }
}

/// How the run ends for a report on cones.
fn cones_ending(end: ParametricEnd) -> Ending
    ensures { result ≡ cones_ending (is_large end) }
{
    match end {
        ParametricEnd::Done => Ending::Done,
        ParametricEnd::Large => Ending::Large,
    }
}

/// The answer of `series` for a chain, behind a document.
fn series_told(
    alloc: Global,
    book: &mut Book,
    names: &Names,
    chain: &State,
    values: &[(Symbol, Frac)],
    request: Request,
    document: Vec<u8>,
) -> Result<Told, AllocError>
    requires stands { StandsIn book.old chain.now }
    requires belong { All (λ p. BelongsTo book.old.ranking.signature p.0) values.now }
    requires distinct { AreDistinct values.now }
    requires signature { signature_of names.now ≡ book.old.ranking.signature }
    requires order { request.order ≤ 20 }
    ensures { IfOk result (λ told. answer_of told ≡ continued (printed document.items Done)
        (chart_answer Series book.old.ranking names.now request.chain values.now request.order
        (state_in book.old chain.now))) }
{
    let mut text = document;
    let order = request.order as u8;
    let end = write_series_report(
        alloc,
        book,
        names,
        request.chain,
        chain,
        values,
        order,
        &mut text,
    )?;
    end_told(alloc, text, end)
}

/// The answer of `parametric` for a chain, behind a document.
fn parametric_told(
    alloc: Global,
    book: &Book,
    names: &Names,
    chain: &State,
    request: Request,
    document: Vec<u8>,
) -> Result<Told, AllocError>
    requires stands { StandsIn book.now chain.now }
    requires signature { signature_of names.now ≡ book.now.ranking.signature }
    requires order { request.order ≤ 20 }
    ensures { (values : Values) → IfOk result (λ told. answer_of told
        ≡ continued (printed document.items Done) (chart_answer Parametric book.now.ranking
        names.now request.chain values request.order (state_in book.now chain.now))) }
{
    let mut text = document;
    let order = request.order as u8;
    let end = write_parametric_report(alloc, book, names, request.chain, chain, order, &mut text)?;
    Ok(Told::printed(alloc, text, cones_ending(end)))
}

/// The answer for a chain, behind a document.
fn chart_told(
    alloc: Global,
    book: &mut Book,
    names: &Names,
    what: Chart,
    chain: &State,
    values: &[(Symbol, Frac)],
    request: Request,
    document: Vec<u8>,
) -> Result<Told, AllocError>
    requires stands { StandsIn book.old chain.now }
    requires belong { All (λ p. BelongsTo book.old.ranking.signature p.0) values.now }
    requires distinct { AreDistinct values.now }
    requires signature { signature_of names.now ≡ book.old.ranking.signature }
    requires order { request.order ≤ 20 }
    ensures { IfOk result (λ told. answer_of told ≡ continued (printed document.items Done)
        (chart_answer what book.old.ranking names.now request.chain values.now request.order
        (state_in book.old chain.now))) }
{
    match what {
        Chart::Series => series_told(alloc, book, names, chain, values, request, document),
        Chart::Parametric => parametric_told(alloc, book, names, chain, request, document),
    }
}

/// The answer for the chain with a number, behind a document.
fn chain_told(
    alloc: Global,
    book: &mut Book,
    names: &Names,
    what: Chart,
    chains: &[State],
    values: &[(Symbol, Frac)],
    request: Request,
    document: Vec<u8>,
) -> Result<Told, AllocError>
    requires chains { All (λ s. StandsIn book.old s) chains.now }
    requires belong { All (λ p. BelongsTo book.old.ranking.signature p.0) values.now }
    requires distinct { AreDistinct values.now }
    requires signature { signature_of names.now ≡ book.old.ranking.signature }
    requires request { IsInRange request }
    ensures { IfOk result (λ told. answer_of told ≡ continued (printed document.items Done)
        (chain_answer what book.old.ranking names.now request.chain values.now request.order
        (slice_get (map (λ s. state_in book.old s) chains.now) (request.chain - 1)))) }
{
    match chains.get(request.chain as usize - 1) {
        Some(chain) => chart_told(alloc, book, names, what, chain, values, request, document),
        None => no_chain_told(alloc, document, request.chain),
    }
}

/// The answer to a system and values: where the tree is complete, what is told of a chain follows
/// its document.
#[tactic(auto, unfolding(crate::specs::Charted::charted))]
fn values_told(
    alloc: Global,
    book: &mut Book,
    names: &Names,
    what: Chart,
    system: &System,
    values: &[(Symbol, Frac)],
    request: Request,
) -> Result<Told, AllocError>
    requires system { IsSystemIn book.old system.now }
    requires belong { All (λ p. BelongsTo book.old.ranking.signature p.0) values.now }
    requires distinct { AreDistinct values.now }
    requires signature { signature_of names.now ≡ book.old.ranking.signature }
    requires request { IsInRange request }
    ensures { IfOk result (λ told. answer_of told ≡ charted what book.old.ranking names.now request
        values.now (system_in book.old system.now)) }
{
    let worked = worked_system(alloc, book, names, system, request.budget)?;
    let document = worked.document;
    if !matches!(worked.ending, Ending::Done) {
        return Ok(Told::printed(alloc, document, worked.ending));
    }
    chain_told(
        alloc,
        book,
        names,
        what,
        &worked.chains,
        values,
        request,
        document,
    )
}

/// The answer of `series` or `parametric` for a text.
pub(crate) fn charted(
    alloc: Global,
    book: &mut Book,
    text: &SystemTree,
    what: Chart,
    request: Request,
) -> Result<Told, AllocError>
    requires ranking { book.old.ranking ≡ ranking_of (tree_of text.now) }
    requires expressions { HasExpressions (tree_of text.now) }
    requires values { HasValues (tree_of text.now) }
    requires signature { text.now.signature ≡ signature_of text.now.names }
    requires request { IsInRange request }
    ensures { IfOk result (λ told. answer_of told ≡ with_system (tree_of text.now)
        (charted what (ranking_of (tree_of text.now)) text.now.names request
        (tree_of text.now).values)) }
{
    match system_of(alloc, book, text) {
        Ok(system) => {
            values_told(
                alloc,
                book,
                &text.names,
                what,
                &system,
                &text.values,
                request,
            )
        }
        Err(Stop::Memory) => Err(AllocError),
        Err(Stop::Refused(refused)) => refused_answer(alloc, refused),
    }
}
