//! Writing documents.

ghost use Rattle.std.specs.List.{AllByRecursion, list_all};
ghost use Rattle.std.specs.Prelude.{◌≡◌, ◌++◌, [], ◌∷◌, true, codes, decimal, map, All, OnOk, IfOk};
ghost use Rattle.dz_cert.specs.Documents.{IsDocument, canonical_texts, chain_lines, chain_texts};
ghost use Rattle.dz_cert.specs.Documents.{document_lines, document_of, document_text, ended_lines};
ghost use Rattle.dz_cert.specs.Documents.{head_lines, member_lines, numbered, section_lines};
ghost use Rattle.dz_cert.specs.Documents.{sections_from};
ghost use Rattle.dz_cert.specs.LineTexts.{IsLineOf, line_text};
ghost use Rattle.dz_diff.specs.Operations.{setting_of};
ghost use Rattle.dz_diff.specs.States.{LiveAll, StandsIn, polynomials, state_in};
ghost use Rattle.dz_form.specs.Texts.{polynomial_text};
ghost use Rattle.dz_poly.specs.Books.{Lives, polynomial};
ghost use Rattle.dz_syntax.specs.Names.{signature_of};
ghost use Rattle.dz_check.specs.Certified.{IsCertified};
ghost use Rattle.dz_tree.specs.Forms.{is_spelled};
ghost use Rattle.dz_move.specs.Systems.{IsSystemIn, system_in};
ghost use Rattle.dz_move.specs.TreeLines.{line_of};

use crate::line_writing::push_line;
use dz_check::chains;
use dz_diff::State;
use dz_form::write_poly;
use dz_move::{Line, System};
use dz_poly::{Book, Poly};
use dz_syntax::Names;
use dz_tree::Tree;
use itoa::Buffer;
use std::alloc::{AllocError, Global};

/// Appends a word, a blank and a number.
pub fn write_numbered(word: &[u8], number: usize, into: &mut Vec<u8>) -> Result<(), AllocError>
    ensures { OnOk result (into.new.items ≡ into.old.items ++ numbered word.now number) }
{
    let mut buffer = Buffer::new();
    into.extend_from_slice(word)?;
    into.extend_from_slice(b" ")?;
    into.extend_from_slice(buffer.format(number).as_bytes())
}

/// Appends a line of a word and a number.
fn push_numbered(into: &mut Vec<u8>, word: &[u8], number: usize) -> Result<(), AllocError>
    ensures { OnOk result (into.new.items ≡ into.old.items
        ++ ended_lines (numbered word.now number ∷ [])) }
{
    write_numbered(word, number, into)?;
    into.extend_from_slice(b"\n")
}

/// Appends the lines before the tree.
fn push_head(into: &mut Vec<u8>, budget: u32) -> Result<(), AllocError>
    ensures { OnOk result (into.new.items ≡ into.old.items ++ ended_lines (head_lines budget)) }
{
    into.extend_from_slice(b"blad certificate 1\n")?;
    push_numbered(into, b"budget", budget as usize)?;
    into.extend_from_slice(b"tree\n")
}

/// Appends the lines of a tree.
fn push_lines(into: &mut Vec<u8>, names: &Names, lines: &[Line]) -> Result<(), AllocError>
    requires spelled { list_all is_spelled (map line_of lines.now) ≡ true }
    requires named { AllByRecursion (λ line. IsLineOf names.now line) (map line_of lines.now) }
    ensures { OnOk result (into.new.items ≡ into.old.items
        ++ ended_lines (map (λ line. line_text names.now line) (map line_of lines.now))) }
{
    'lines: for line in lines {
        push_line(into, names, line)?;
        into.extend_from_slice(b"\n")?;
    }
    Ok(())
}

/// Appends the line of a polynomial, behind a word and a blank.
pub fn write_member(
    word: &[u8],
    book: &Book,
    p: Poly,
    names: &Names,
    into: &mut Vec<u8>,
) -> Result<(), AllocError>
    requires lives { Lives book.now p }
    requires signature { signature_of names.now ≡ book.now.ranking.signature }
    ensures { OnOk result (into.new.items ≡ into.old.items
        ++ ended_lines (member_lines word.now
        (polynomial_text names.now (polynomial book.now p) ∷ []))) }
{
    into.extend_from_slice(word)?;
    into.extend_from_slice(b" ")?;
    write_poly(book, p, names, into)?;
    into.extend_from_slice(b"\n")
}

/// Appends the lines of polynomials, each behind a word and a blank.
pub fn write_members(
    word: &[u8],
    book: &Book,
    polys: &[Poly],
    names: &Names,
    into: &mut Vec<u8>,
) -> Result<(), AllocError>
    requires lives { LiveAll book.now polys.now }
    requires signature { signature_of names.now ≡ book.now.ranking.signature }
    ensures { OnOk result (into.new.items ≡ into.old.items ++ ended_lines
        (member_lines word.now
        (map (λ p. polynomial_text names.now p) (polynomials book.now polys.now)))) }
{
    'members: for p in polys {
        write_member(word, book, *p, names, into)?;
    }
    Ok(())
}

/// Appends the lines of the chain with a number.
fn push_section(
    into: &mut Vec<u8>,
    names: &Names,
    book: &Book,
    number: usize,
    chain: &State,
) -> Result<(), AllocError>
    requires stands { StandsIn book.now chain.now }
    requires signature { signature_of names.now ≡ book.now.ranking.signature }
    ensures { OnOk result (into.new.items ≡ into.old.items ++ ended_lines
        (section_lines number (canonical_texts names.now (state_in book.now chain.now)))) }
{
    push_numbered(into, b"chain", number)?;
    write_members(b"equation", book, chain.equations(), names, into)?;
    write_members(b"inequation", book, chain.inequations(), names, into)?;
    Ok(())
}

/// Appends the sections of chains.
fn push_sections(
    into: &mut Vec<u8>,
    names: &Names,
    book: &Book,
    chains: &[State],
) -> Result<(), AllocError>
    requires stand { All (λ s. StandsIn book.now s) chains.now }
    requires signature { signature_of names.now ≡ book.now.ranking.signature }
    ensures { OnOk result (into.new.items ≡ into.old.items ++ ended_lines (sections_from 1
        (map (λ s. canonical_texts names.now (state_in book.now s)) chains.now))) }
{
    'chains: for k in 0..chains.len() {
        push_section(into, names, book, k + 1, &chains[k])?;
    }
    Ok(())
}

/// The document of a tree, with the canonical texts of these states for its chains, in their order.
/// Whoever has the states of the chains need not walk the tree for them.
#[tactic(auto, unfolding(crate::specs::Documents::document_lines))]
pub fn write_document_with(
    alloc: Global,
    book: &Book,
    names: &Names,
    tree: &Tree,
    chains: &[State],
) -> Result<Vec<u8>, AllocError>
    requires named { AllByRecursion (λ line. IsLineOf names.now line) tree.now.lines }
    requires stand { All (λ s. StandsIn book.now s) chains.now }
    requires signature { signature_of names.now ≡ book.now.ranking.signature }
    ensures { IfOk result (λ text. text.items ≡ document_text names.now tree.now
        (map (λ s. canonical_texts names.now (state_in book.now s)) chains.now)) }
{
    tree.opened();
    let mut text = Vec::new(alloc);
    push_head(&mut text, tree.budget())?;
    push_lines(&mut text, names, tree.lines())?;
    push_numbered(&mut text, b"chains", chains.len())?;
    push_sections(&mut text, names, book, chains)?;
    text.extend_from_slice(b"end\n")?;
    Ok(text)
}

/// The document of a certified tree for a system: its lines, and the canonical texts of the states
/// of its chains.
#[tactic(auto, unfolding(crate::specs::Documents::document_of))]
pub fn write_document(
    alloc: Global,
    book: &mut Book,
    names: &Names,
    system: &System,
    tree: &Tree,
) -> Result<Vec<u8>, AllocError>
    requires system { IsSystemIn book.old system.now }
    requires certified { IsCertified (setting_of book.old.ranking)
        (system_in book.old system.now) tree.now }
    requires named { AllByRecursion (λ line. IsLineOf names.now line) tree.now.lines }
    requires signature { signature_of names.now ≡ book.old.ranking.signature }
    ensures document { IfOk result (λ text. text.items ≡ document_of (setting_of book.old.ranking)
        names.now (system_in book.old system.now) tree.now) }
    // It is a document of the tree, with the canonical texts of its chains.
    ensures spelled { IfOk result (λ text. IsDocument names.now tree.now (chain_texts
        (setting_of book.old.ranking) names.now (system_in book.old system.now) tree.now)
        text.items) }
    ensures book { book.new ≡ book.old }
{
    book.opened();
    names.opened();
    let mark = book.mark();
    let states = chains(alloc, book, system, tree)?;
    let text = write_document_with(alloc, book, names, tree, &states);
    book.restore(mark);
    text
}
