//! The lines of questions and chains.

ghost use Rattle.std.specs.Prelude.{◌≡◌, ◌∷◌, ◌++◌, [], codes, OnOk};
ghost use Rattle.dz_poly.specs.Books.{Lives, polynomial};
ghost use Rattle.dz_syntax.specs.Names.{signature_of};
ghost use Rattle.dz_cert.specs.Documents.{ended_lines, numbered};
ghost use Rattle.dz_report.specs.Reports.{question_line};

use dz_cert::write_numbered;
use dz_form::write_poly;
use dz_poly::{Book, Poly};
use dz_syntax::Names;
use std::alloc::AllocError;

/// Appends the line of the question with a number.
pub(crate) fn push_question(
    into: &mut Vec<u8>,
    names: &Names,
    book: &Book,
    number: usize,
    f: Poly,
) -> Result<(), AllocError>
    requires f { Lives book.now f }
    requires signature { signature_of names.now ≡ book.now.ranking.signature }
    ensures { OnOk result (into.new.items ≡ into.old.items
        ++ ended_lines (question_line names.now number (polynomial book.now f) ∷ [])) }
{
    write_numbered(b"question", number, into)?;
    into.extend_from_slice(b" ")?;
    write_poly(book, f, names, into)?;
    into.extend_from_slice(b"\n")
}

/// Appends the line of the chain with a number.
pub(crate) fn push_chain(into: &mut Vec<u8>, number: usize) -> Result<(), AllocError>
    ensures { OnOk result (into.new.items ≡ into.old.items
        ++ ended_lines (numbered (codes "chain") number ∷ [])) }
{
    write_numbered(b"chain", number, into)?;
    into.extend_from_slice(b"\n")
}
