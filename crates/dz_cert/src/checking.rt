//! The check of a document.

ghost use Rattle.std.specs.List.{AllByRecursion};
ghost use Rattle.std.specs.Prelude.{◌≡◌, ℕ, List, true, map, All, IfOk};
ghost use Rattle.std.specs.Str.{bytes_eq};
ghost use Rattle.dz_cert.specs.Documents.{IsDocument, canonical_texts, document_of};
ghost use Rattle.dz_cert.specs.LineTexts.{IsLineOf};
ghost use Rattle.dz_cert.specs.Readers.{texts_of};
ghost use Rattle.dz_cert.specs.Verdicts.{are_same, document_verdict, first_other};
ghost use Rattle.dz_cert.specs.Verdicts.{has_canonical_texts, is_same, judged_by, judged_texts};
ghost use Rattle.dz_diff.specs.Operations.{setting_of};
ghost use Rattle.dz_diff.specs.States.{LiveAll, StandsIn, polynomials, state_in};
ghost use Rattle.dz_form.specs.Texts.{polynomial_text};
ghost use Rattle.dz_poly.specs.Books.{Lives, polynomial};
ghost use Rattle.dz_syntax.specs.Names.{signature_of};
ghost use Rattle.dz_check.specs.Verdicts.{verdict_as};
ghost use Rattle.dz_move.specs.Systems.{IsSystemIn, system_in};

use crate::document::{ChainText, Document, Text};
use dz_check::{Checked, Verdict, check_with_chains};
use dz_diff::State;
use dz_form::write_poly;
use dz_move::{Rule, System};
use dz_poly::{Book, Poly};
use dz_syntax::Names;
use std::alloc::{AllocError, Global};

/// What is told of a document.
#[derive(Clone, Copy, Debug, PartialEq, Eq)]
pub enum DocumentVerdict {
    /// The tree is certified and complete, and the texts of its chains are canonical.
    Accepted,
    /// The tree is certified, an end of it is open, and the texts of its chains are canonical.
    Partial,
    /// The tree is not certified: this rule is the first that fails, at the first line that does
    /// not hold, counted from 1.
    RejectedTree { place: usize, rule: Rule },
    /// The tree is certified, and this is the first chain whose texts are not canonical, counted
    /// from 1.
    RejectedChain(usize),
}

/// Whether a text is the canonical text of a polynomial.
fn is_canonical(
    alloc: Global,
    book: &Book,
    names: &Names,
    p: Poly,
    text: &Text,
) -> Result<bool, AllocError>
    requires lives { Lives book.now p }
    requires signature { signature_of names.now ≡ book.now.ranking.signature }
    ensures { IfOk result (λ is.
        is ≡ bytes_eq text.now (polynomial_text names.now (polynomial book.now p))) }
{
    let mut canonical = Vec::new(alloc);
    write_poly(book, p, names, &mut canonical)?;
    Ok(text.as_slice() == canonical.as_slice())
}

/// Whether texts are the canonical texts of polynomials.
fn are_canonical(
    alloc: Global,
    book: &Book,
    names: &Names,
    polys: &[Poly],
    texts: &[Text],
) -> Result<bool, AllocError>
    requires lives { LiveAll book.now polys.now }
    requires signature { signature_of names.now ≡ book.now.ranking.signature }
    ensures { IfOk result (λ is. is ≡ are_same texts.now
        (map (λ p. polynomial_text names.now p) (polynomials book.now polys.now))) }
{
    if texts.len() != polys.len() {
        return Ok(false);
    }
    'texts: for k in 0..texts.len() {
        if !is_canonical(alloc, book, names, polys[k], &texts[k])? {
            return Ok(false);
        }
    }
    Ok(true)
}

/// Whether the texts of a chain are the canonical texts of its state.
fn is_canonical_chain(
    alloc: Global,
    book: &Book,
    names: &Names,
    state: &State,
    chain: &ChainText,
) -> Result<bool, AllocError>
    requires stands { StandsIn book.now state.now }
    requires signature { signature_of names.now ≡ book.now.ranking.signature }
    ensures { IfOk result (λ is. is ≡ is_same (texts_of chain.now)
        (canonical_texts names.now (state_in book.now state.now))) }
{
    let equations = are_canonical(alloc, book, names, state.equations(), &chain.equations)?;
    let inequations = are_canonical(alloc, book, names, state.inequations(), &chain.inequations)?;
    Ok(equations && inequations)
}

/// The number of the first chain whose texts are not the canonical texts of the state in its place.
fn first_other(
    alloc: Global,
    book: &Book,
    names: &Names,
    states: &[State],
    chains: &[ChainText],
) -> Result<Option<usize>, AllocError>
    requires stand { All (λ s. StandsIn book.now s) states.now }
    requires signature { signature_of names.now ≡ book.now.ranking.signature }
    ensures { IfOk result (λ other. other ≡ first_other 1 (map texts_of chains.now)
        (map (λ s. canonical_texts names.now (state_in book.now s)) states.now)) }
{
    'chains: for k in 0..chains.len() {
        if k == states.len() {
            return Ok(Some(k + 1));
        }
        if !is_canonical_chain(alloc, book, names, &states[k], &chains[k])? {
            return Ok(Some(k + 1));
        }
    }
    if chains.len() < states.len() {
        return Ok(Some(chains.len() + 1));
    }
    Ok(None)
}

/// What is told of a document whose tree is certified, by the first chain with other texts.
fn judged_texts(verdict: DocumentVerdict, other: Option<usize>) -> DocumentVerdict
    ensures { result ≡ judged_texts verdict other }
{
    match other {
        None => verdict,
        Some(number) => DocumentVerdict::RejectedChain(number),
    }
}

/// What is told of a document, by the verdict on its tree and the first chain with other texts.
fn judged_by(verdict: Verdict, other: Option<usize>) -> DocumentVerdict
    ensures { result ≡ judged_by other (verdict_as verdict) }
{
    match verdict {
        Verdict::Accepted => judged_texts(DocumentVerdict::Accepted, other),
        Verdict::Partial => judged_texts(DocumentVerdict::Partial, other),
        Verdict::Rejected { place, rule } => DocumentVerdict::RejectedTree { place, rule },
    }
}

/// The verdict on a document for a system: that on its tree, and where this is certified the first
/// chain whose texts are not the canonical texts of its state.
pub fn check_document(
    alloc: Global,
    book: &mut Book,
    names: &Names,
    system: &System,
    document: &Document,
) -> Result<DocumentVerdict, AllocError>
    requires system { IsSystemIn book.old system.now }
    requires named { AllByRecursion (λ line. IsLineOf names.now line) document.now.tree.lines }
    requires signature { signature_of names.now ≡ book.old.ranking.signature }
    ensures verdict { IfOk result (λ v. v ≡ document_verdict (setting_of book.old.ranking)
        names.now (system_in book.old system.now) document.now.tree
        (map texts_of document.now.chains.items)) }
    // Bytes of a document that is accepted or partial are the document of its tree.
    ensures bytes { IfOk result (λ v. (bytes : List ℕ) → IsDocument names.now document.now.tree
        (map texts_of document.now.chains.items) bytes → has_canonical_texts v ≡ true
        → bytes ≡ document_of (setting_of book.old.ranking) names.now
        (system_in book.old system.now) document.now.tree) }
    ensures book { book.new ≡ book.old }
{
    document.tree.opened();
    let mark = book.mark();
    let Checked { verdict, chains } = check_with_chains(alloc, book, system, &document.tree)?;
    let other = first_other(alloc, book, names, &chains, &document.chains);
    book.restore(mark);
    Ok(judged_by(verdict, other?))
}
