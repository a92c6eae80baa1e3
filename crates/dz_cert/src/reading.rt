//! Reading a document line by line.

ghost use Rattle.std.specs.List.{list_all};
ghost use Rattle.std.specs.Option.{option_map};
ghost use Rattle.std.specs.Prelude.{◌≡◌, ◌<◌, ◌^◌, List, Some, codes, length, map, IfOk};
ghost use Rattle.dz_cert.specs.CertFaults.{IsReadAs, Reads, ReadsDocument, line_fault, tree_read};
ghost use Rattle.dz_cert.specs.Documents.{ChainTexts, IsDocument, is_text, is_text_byte};
ghost use Rattle.dz_cert.specs.Readers.{Takes, reading_of, texts_of};
ghost use Rattle.dz_cert.specs.Reading.{behind, budget_taken, chain_begun, document_at, is_done};
ghost use Rattle.dz_cert.specs.Reading.{is_numbered, is_whole, known_taken, line_read, line_taken};
ghost use Rattle.dz_cert.specs.Reading.{member_taken, members_taken, section_taken, tree_taken};
ghost use Rattle.dz_cert.specs.Reading.{unread, with_equation, with_inequation, with_last};
ghost use Rattle.dz_cert.specs.Stops.{Gives};
ghost use Rattle.dz_tree.specs.Forms.{IsTree};
ghost use Rattle.dz_move.specs.Lines.{is_chain_line};
ghost use Rattle.dz_move.specs.TreeLines.{line_of};
ghost use Rattle.dz_tree.specs.Trees.{Tree};

use crate::document::{ChainText, Document, Text};
use crate::line_reading::read_line;
use crate::parts::{number, split_once};
use crate::reader::{Reader, Stage};
use crate::stops::LineStop;
use dz_move::Line;
use dz_syntax::Names;
use dz_tree::{Expected, Tree, expected_after, left_after, may_stand};
use itoa::Buffer;
use std::alloc::Global;

/// Why bytes are read as no document: memory ran out, or the first fault.
#[derive(Clone, Copy, Debug, PartialEq, Eq)]
pub enum CertFault {
    Memory,
    /// The line with this number, counted from 1, may not stand there.
    BadLine(usize),
    /// The bytes end before the last line, and all whole lines may stand where they do.
    EndsEarly,
    /// Bytes come after the last line.
    BytesAfter,
}

/// The fault of a line with a number.
fn line_fault(stop: LineStop, number: usize) -> CertFault
    ensures { result ≡ line_fault stop number }
{
    match stop {
        LineStop::Memory => CertFault::Memory,
        LineStop::Bad => CertFault::BadLine(number),
    }
}

/// Whether the last line was read.
fn is_done(stage: Stage) -> bool
    ensures { result ≡ is_done stage }
{
    stage == Stage::End
}

/// Nothing was read.
fn unread(alloc: Global) -> Reader
    ensures { reading_of result ≡ unread }
{
    Reader {
        stage: Stage::Certificate,
        budget: 0,
        lines: Vec::new(alloc),
        left: 1,
        expected: Expected::NoPair,
        sections: 0,
        chains: Vec::new(alloc),
    }
}

/// Whether a text is a word and a blank, and then a number.
fn is_numbered(front: &[u8], number: usize, text: &[u8]) -> bool
    ensures { result ≡ is_numbered front.now number text.now }
{
    let mut buffer = Buffer::new();
    match text.strip_prefix(front) {
        Some(rest) => rest == buffer.format(number).as_bytes(),
        None => false,
    }
}

/// Whether a byte may stand in the text of a member.
fn is_text_byte(byte: u8) -> bool
    ensures { result ≡ is_text_byte byte }
{
    32 <= byte && byte <= 126
}

/// Whether all bytes may stand in the text of a member.
fn are_text_bytes(text: &[u8]) -> bool
    ensures { result ≡ list_all is_text_byte text.now }
{
    text.iter().all(|byte| is_text_byte(*byte))
}

/// Whether a text may be that of a member: it has one or more bytes, from 32 to 126.
fn is_text(text: &[u8]) -> bool
    ensures { result ≡ is_text text.now }
{
    text.len() > 0 && are_text_bytes(text)
}

/// Reads the line of the budget.
#[tactic(auto, unfolding(crate::specs::Reading::budget_taken))]
fn take_budget(reader: &mut Reader, text: &[u8]) -> Result<(), LineStop>
    ensures { Takes reader.new result (budget_taken (reading_of reader.old) text.now) }
{
    let number_text = text.strip_prefix(b"budget ").ok_or(LineStop::Bad)?;
    reader.budget = number(number_text, 20_000_000).ok_or(LineStop::Bad)?;
    reader.stage = Stage::Tree;
    Ok(())
}

/// Whether a line is a chain.
fn is_chain(line: &Line) -> bool
    ensures { result ≡ is_chain_line (line_of line.now) }
{
    matches!(line, Line::Chain)
}

/// Appends a line of the tree, where it may stand.
fn take_tree_line(reader: &mut Reader, line: Line) -> Result<(), LineStop>
    ensures { Takes reader.new result (line_taken (reading_of reader.old) (Some (line_of line))) }
{
    if !may_stand(&line, reader.left, reader.expected) {
        return Err(LineStop::Bad);
    }
    let left = left_after(&line, reader.left, reader.expected);
    let expected = expected_after(&line);
    let sections = reader.sections + usize::from(is_chain(&line));
    reader.lines.push(line)?;
    reader.left = left;
    reader.expected = expected;
    reader.sections = sections;
    Ok(())
}

/// Reads a line of the tree, or the line behind a tree that is whole.
#[tactic(auto, unfolding(crate::specs::Reading::tree_taken))]
fn take_line(alloc: Global, names: &Names, reader: &mut Reader, text: &[u8]) -> Result<(), LineStop>
    ensures { Takes reader.new result (tree_taken names.now (reading_of reader.old) text.now) }
{
    if is_whole(reader) && is_numbered(b"chains ", reader.sections, text) {
        reader.stage = Stage::Sections;
        return Ok(());
    }
    let line = read_line(alloc, names, text)?;
    take_tree_line(reader, line)
}

/// Whether the tree is whole.
fn is_whole(reader: &Reader) -> bool
    ensures { result ≡ is_whole (reading_of reader.now) }
{
    reader.left == 0 && reader.expected != Expected::SomePair
}

/// Appends an equation to the last chain, where no inequation has come yet.
fn push_equation(chains: &mut Vec<ChainText>, text: Text) -> Result<(), LineStop>
    ensures { Gives (λ _. map texts_of chains.new.items) result
        (with_last (with_equation text) (map texts_of chains.old.items)) }
{
    let Some(mut chain) = chains.pop() else {
        return Err(LineStop::Bad);
    };
    if !chain.inequations.is_empty() {
        return Err(LineStop::Bad);
    }
    chain.equations.push(text)?;
    chains.push(chain)?;
    Ok(())
}

/// Appends an inequation to the last chain.
fn push_inequation(chains: &mut Vec<ChainText>, text: Text) -> Result<(), LineStop>
    ensures { Gives (λ _. map texts_of chains.new.items) result
        (with_last (with_inequation text) (map texts_of chains.old.items)) }
{
    let Some(mut chain) = chains.pop() else {
        return Err(LineStop::Bad);
    };
    chain.inequations.push(text)?;
    chains.push(chain)?;
    Ok(())
}

/// Appends an equation to the last chain, where the text may be that of a member.
fn take_equation(alloc: Global, reader: &mut Reader, text: &[u8]) -> Result<(), LineStop>
    ensures { Takes reader.new result
        (member_taken with_equation (reading_of reader.old) text.now) }
{
    if !is_text(text) {
        return Err(LineStop::Bad);
    }
    let text = Text::new(Vec::from_slice(alloc, text)?);
    push_equation(&mut reader.chains, text)
}

/// Appends an inequation to the last chain, where the text may be that of a member.
fn take_inequation(alloc: Global, reader: &mut Reader, text: &[u8]) -> Result<(), LineStop>
    ensures { Takes reader.new result
        (member_taken with_inequation (reading_of reader.old) text.now) }
{
    if !is_text(text) {
        return Err(LineStop::Bad);
    }
    let text = Text::new(Vec::from_slice(alloc, text)?);
    push_inequation(&mut reader.chains, text)
}

/// Reads a member of the last chain.
fn take_member(alloc: Global, reader: &mut Reader, text: &[u8]) -> Result<(), LineStop>
    ensures { Takes reader.new result (members_taken (reading_of reader.old)
        (behind (codes "equation ") text.now) (behind (codes "inequation ") text.now)) }
{
    if let Some(equation) = text.strip_prefix(b"equation ") {
        return take_equation(alloc, reader, equation);
    }
    match text.strip_prefix(b"inequation ") {
        Some(inequation) => take_inequation(alloc, reader, inequation),
        None => Err(LineStop::Bad),
    }
}

/// Begins a chain.
fn begin_chain(alloc: Global, reader: &mut Reader) -> Result<(), LineStop>
    ensures { Takes reader.new result (Some (chain_begun (reading_of reader.old))) }
{
    reader.chains.push(ChainText {
        equations: Vec::new(alloc),
        inequations: Vec::new(alloc),
    })?;
    Ok(())
}

/// Reads the last line, the first line of a chain, or a member of the last chain.
#[tactic(auto, unfolding(crate::specs::Reading::section_taken))]
fn take_section(alloc: Global, reader: &mut Reader, text: &[u8]) -> Result<(), LineStop>
    ensures { Takes reader.new result (section_taken (reading_of reader.old) text.now) }
{
    let begun = reader.chains.len();
    if begun == reader.sections && text == b"end".as_slice() {
        reader.stage = Stage::End;
        return Ok(());
    }
    if begun < reader.sections && is_numbered(b"chain ", begun + 1, text) {
        return begin_chain(alloc, reader);
    }
    take_member(alloc, reader, text)
}

/// Reads a line that is known, where it stands there.
fn take_known(reader: &mut Reader, line: &[u8], next: Stage, text: &[u8]) -> Result<(), LineStop>
    ensures { Takes reader.new result
        (known_taken line.now next (reading_of reader.old) text.now) }
{
    if text != line {
        return Err(LineStop::Bad);
    }
    reader.stage = next;
    Ok(())
}

/// Reads one line.
#[tactic(auto, unfolding(crate::specs::Reading::line_read))]
fn take(alloc: Global, names: &Names, reader: &mut Reader, text: &[u8]) -> Result<(), LineStop>
    ensures { Takes reader.new result (line_read names.now (reading_of reader.old) text.now) }
{
    match reader.stage {
        Stage::Certificate => take_known(reader, b"blad certificate 1", Stage::Budget, text),
        Stage::Budget => take_budget(reader, text),
        Stage::Tree => take_known(reader, b"tree", Stage::Lines, text),
        Stage::Lines => take_line(alloc, names, reader, text),
        Stage::Sections => take_section(alloc, reader, text),
        Stage::End => Err(LineStop::Bad),
    }
}

/// Reads all lines up to the last, behind which nothing may stand.
#[tactic(auto, unfolding(crate::specs::Reading::document_at))]
pub(crate) fn read_lines(alloc: Global, names: &Names, bytes: &[u8]) -> Result<Reader, CertFault>
    ensures { Reads result (document_at names.now bytes.now) }
{
    let mut reader = unread(alloc);
    let mut rest = bytes;
    let mut number = 1usize;
    'lines: while !is_done(reader.stage) {
        let (line, after) = match split_once(rest, b'\n') {
            Some(parts) => parts,
            None => return Err(CertFault::EndsEarly),
        };
        if let Err(stop) = take(alloc, names, &mut reader, line) {
            return Err(line_fault(stop, number));
        }
        rest = after;
        number += 1;
    }
    if rest.is_empty() {
        Ok(reader)
    } else {
        Err(CertFault::BytesAfter)
    }
}

/// The document of a reader that has read it to the end.
fn document_of(reader: Reader) -> Document
    requires { IsTree (tree_read (reading_of reader)) }
    ensures tree { result.tree ≡ tree_read (reading_of reader) }
    ensures chains { map texts_of result.chains.items ≡ map texts_of reader.chains.items }
{
    let Reader {
        budget,
        lines,
        chains,
        ..
    } = reader;
    match Tree::new(budget, lines) {
        Some(tree) => Document { tree, chains },
        // The lines were read to the end of a tree.
        None => unreachable!(),
    }
}

/// The document with these bytes, by reading them line by line.
fn read_by_lines(alloc: Global, names: &Names, bytes: &[u8]) -> Result<Document, CertFault>
    ensures found { IfOk result (λ d.
        IsDocument names.now d.tree (map texts_of d.chains.items) bytes.now) }
    ensures exact { ReadsDocument result (document_at names.now bytes.now) }
{
    names.opened();
    let reader = read_lines(alloc, names, bytes)?;
    Ok(document_of(reader))
}

/// The document with these bytes, or the first fault.
pub fn read_document(alloc: Global, names: &Names, bytes: &[u8]) -> Result<Document, CertFault>
    // What is read is a document of the bytes.
    ensures found { IfOk result (λ d.
        IsDocument names.now d.tree (map texts_of d.chains.items) bytes.now) }
    // A document of the bytes is read, unless memory runs out.
    ensures only { (tree : Tree) (chains : List ChainTexts)
        → IsDocument names.now tree chains bytes.now → IsReadAs result tree chains }
    // Which fault it is.
    ensures exact { ReadsDocument result (document_at names.now bytes.now) }
{
    names.opened();
    read_by_lines(alloc, names, bytes)
}
