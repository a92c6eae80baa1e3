//! Reading polynomials.

ghost use Rattle.std.specs.Prelude.{◌≡◌, ◌≢◌, IfOk, OnErr, OnOk, Err, Ok};
ghost use Rattle.dz_algebra.specs.Polynomial.{Polynomial};
ghost use Rattle.dz_rank.specs.declared.symbols.Symbol.{Symbol};
ghost use Rattle.dz_poly.specs.Books.{IsAdded, IsKept};
ghost use Rattle.dz_monomials.specs.Keeping.{IsKeepable};
ghost use Rattle.dz_monomials.specs.Ranked.{symbols_under};
ghost use Rattle.dz_syntax.specs.Names.{signature_of};
ghost use Rattle.dz_syntax.specs.declared.fault.SyntaxFault.{SyntaxFault};
ghost use Rattle.dz_syntax.specs.declared.fault.SyntaxKind.TheVariants as kinds;
ghost use Rattle.dz_form.specs.PolynomialReading.{GivesRead, polynomial_at};
ghost use Rattle.dz_form.specs.Texts.{polynomial_text};
ghost use Rattle.dz_form.specs.declared.polynomials.ReadPolyFault.TheVariants.{Syntax};

use crate::expansion::expand;
use dz_poly::{Book, Limit, Poly, PolyStop};
use dz_syntax::{Names, SyntaxFault, SyntaxKind, read_item};
use std::alloc::Global;
use thiserror::Error;

/// Why no polynomial is read.
#[derive(Clone, Copy, Debug, PartialEq, Eq, Error)]
pub enum ReadPolyFault {
    #[error("out of memory")]
    Memory,
    /// The text is no item, and this is its first fault.
    #[error("the text is no polynomial")]
    Syntax(SyntaxFault),
    /// The first operation that is refused is too wide, as [`PolyStop::Wide`] says.
    #[error("a coefficient is too wide")]
    Wide,
    /// The first operation that is refused passes this limit.
    #[error("the limit {0:?} is passed")]
    Large(Limit),
}

impl From<SyntaxFault> for ReadPolyFault {
    ghost use Rattle.std.specs.Prelude.{◌≡◌};
    ghost use Rattle.dz_form.specs.PolynomialReading.{text_fault};

    ghost from_gives = { λ fault e. e ≡ text_fault fault };

    fn from(fault: SyntaxFault) -> ReadPolyFault {
        match fault.kind {
            SyntaxKind::Memory => ReadPolyFault::Memory,
            _ => ReadPolyFault::Syntax(fault),
        }
    }
}

impl From<PolyStop> for ReadPolyFault {
    ghost use Rattle.std.specs.Prelude.{◌≡◌};
    ghost use Rattle.dz_form.specs.PolynomialReading.{value_fault};

    ghost from_gives = { λ stop e. e ≡ value_fault stop };

    fn from(stop: PolyStop) -> ReadPolyFault {
        match stop {
            PolyStop::Memory => ReadPolyFault::Memory,
            PolyStop::Wide => ReadPolyFault::Wide,
            PolyStop::Large(limit) => ReadPolyFault::Large(limit),
        }
    }
}

/// Reads one item that fills the bytes, and puts its value into the book.
pub fn read_poly(
    alloc: Global,
    book: &mut Book,
    names: &Names,
    bytes: &[u8],
) -> Result<Poly, ReadPolyFault>
    requires { signature_of names.now ≡ book.old.ranking.signature }
    // Which polynomial it is, or why there is none.
    ensures exact { GivesRead book.new result
        (polynomial_at (symbols_under book.old.ranking) names.now bytes.now) }
    // The canonical text of a polynomial that may stand in the book is read as the polynomial.
    ensures canonical { (p : Polynomial Symbol) → IsKeepable book.old.ranking p
        → bytes.now ≡ polynomial_text names.now p → GivesRead book.new result (Ok p) }
    // The kind of a syntax fault is never want of memory.
    ensures kind { (fault : SyntaxFault) → result ≡ Err (Syntax fault)
        → fault.kind ≢ kinds.Memory }
    ensures kept { OnOk result (IsKept book.old book.new) }
    ensures added { IfOk result (λ p. IsAdded book.old book.new p) }
    ensures refused { OnErr result (book.new ≡ book.old) }
{
    names.opened();
    let item = read_item(alloc, names, bytes)?;
    let poly = expand(alloc, book, &item)?;
    Ok(poly)
}
