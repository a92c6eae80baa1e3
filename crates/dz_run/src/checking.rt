// The answer of `check`.
ghost use Rattle.std.specs.List.{AllByRecursion};
ghost use Rattle.std.specs.Prelude.{◌≡◌, IfOk, drop, map};
ghost use Rattle.dz_cert.specs.LineTexts.{IsLineOf};
ghost use Rattle.dz_cert.specs.Readers.{texts_of};
ghost use Rattle.dz_cert.specs.Reading.{document_at};
ghost use Rattle.dz_syntax.specs.Names.{signature_of};
ghost use Rattle.dz_syntax.specs.Systems.{HasExpressions, tree_of};
ghost use Rattle.dz_move.specs.Systems.{IsSystemIn, system_in};
ghost use Rattle.dz_run.specs.Answer.{answer_of, with_system};
ghost use Rattle.dz_run.specs.Checked.{checked_document, document_told};
ghost use Rattle.dz_run.specs.Checked.{verdict_ending, verdict_line};
ghost use Rattle.dz_run.specs.System.{ranking_of};

use crate::ending::Ending;
use crate::system::{Stop, system_of};
use crate::told::{Told, refused_answer};
use dz_cert::{CertFault, Document, DocumentVerdict, check_document, read_document};
use dz_move::System;
use dz_poly::Book;
use dz_syntax::{Names, SystemTree};
use itoa::Buffer;
use std::alloc::{AllocError, Global};

/// The line of a verdict.
fn verdict_line(alloc: Global, verdict: DocumentVerdict) -> Result<Vec<u8>, AllocError>
    ensures { IfOk result (λ text. text.items ≡ verdict_line verdict) }
{
    let mut buffer = Buffer::new();
    let mut text = Vec::new(alloc);
    match verdict {
        DocumentVerdict::Accepted => text.extend_from_slice(b"accepted")?,
        DocumentVerdict::Partial => text.extend_from_slice(b"partial")?,
        DocumentVerdict::RejectedTree { place, rule } => {
            text.extend_from_slice(b"rejected tree ")?;
            text.extend_from_slice(buffer.format(place).as_bytes())?;
            text.extend_from_slice(b" ")?;
            text.extend_from_slice(rule.name())?;
        }
        DocumentVerdict::RejectedChain(number) => {
            text.extend_from_slice(b"rejected chain ")?;
            text.extend_from_slice(buffer.format(number).as_bytes())?;
        }
    }
    text.extend_from_slice(b"\n")?;
    Ok(text)
}

/// How the run ends for a verdict.
fn verdict_ending(verdict: DocumentVerdict) -> Ending
    ensures { result ≡ verdict_ending verdict }
{
    match verdict {
        DocumentVerdict::Accepted | DocumentVerdict::Partial => Ending::Done,
        DocumentVerdict::RejectedTree { .. } | DocumentVerdict::RejectedChain(_) => {
            Ending::Rejected
        }
    }
}

/// The verdict on a document for a system.
fn verdict_told(
    alloc: Global,
    book: &mut Book,
    names: &Names,
    system: &System,
    document: &Document,
) -> Result<Told, AllocError>
    requires system { IsSystemIn book.old system.now }
    requires named { AllByRecursion (λ line. IsLineOf names.now line) document.now.tree.lines }
    requires signature { signature_of names.now ≡ book.old.ranking.signature }
    ensures { IfOk result (λ told. answer_of told ≡ checked_document book.old.ranking names.now
        document.now.tree (map texts_of document.now.chains.items)
        (system_in book.old system.now)) }
{
    let verdict = check_document(alloc, book, names, system, document)?;
    let output = verdict_line(alloc, verdict)?;
    let ending = verdict_ending(verdict);
    Ok(Told::printed(alloc, output, ending))
}

/// The answer of `check` for a document that was read.
fn document_checked(
    alloc: Global,
    book: &mut Book,
    text: &SystemTree,
    document: &Document,
) -> Result<Told, AllocError>
    requires ranking { book.old.ranking ≡ ranking_of (tree_of text.now) }
    requires expressions { HasExpressions (tree_of text.now) }
    requires signature { text.now.signature ≡ signature_of text.now.names }
    requires named { AllByRecursion (λ line. IsLineOf text.now.names line)
        document.now.tree.lines }
    ensures { IfOk result (λ told. answer_of told ≡ with_system (tree_of text.now)
        (checked_document (ranking_of (tree_of text.now)) text.now.names document.now.tree
        (map texts_of document.now.chains.items))) }
{
    match system_of(alloc, book, text) {
        Ok(system) => verdict_told(alloc, book, &text.names, &system, document),
        Err(Stop::Memory) => Err(AllocError),
        Err(Stop::Refused(refused)) => refused_answer(alloc, refused),
    }
}

/// The answer of `check` for a text that was read of these bytes. The document is read before the
/// items are expanded.
pub(crate) fn checked(
    alloc: Global,
    book: &mut Book,
    text: &SystemTree,
    bytes: &[u8],
) -> Result<Told, AllocError>
    requires ranking { book.old.ranking ≡ ranking_of (tree_of text.now) }
    requires expressions { HasExpressions (tree_of text.now) }
    requires signature { text.now.signature ≡ signature_of text.now.names }
    ensures { IfOk result (λ told. answer_of told ≡ document_told (tree_of text.now)
        (document_at text.now.names (drop text.now.document bytes.now))) }
{
    let document = bytes.get(text.document..).unwrap_or(&[]);
    match read_document(alloc, &text.names, document) {
        Ok(document) => document_checked(alloc, book, text, &document),
        Err(CertFault::Memory) => Err(AllocError),
        Err(fault) => Ok(Told::silent(alloc, Ending::Document(fault))),
    }
}
