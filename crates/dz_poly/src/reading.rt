//! What a polynomial of a book is. Positions count from 0, and the greatest comes first.

ghost use Rattle.std.specs.Prelude.{◌≡◌, ◌↔◌, ◌≤◌, ◌<◌, IsTrue, Some, length, slice_get, unsigned_abs};
ghost use Rattle.dz_algebra.specs.Amount.{greatest};
ghost use Rattle.dz_algebra.specs.Monomial.{exponent};
ghost use Rattle.dz_algebra.specs.Parts.{degree};
ghost use Rattle.dz_poly.specs.Books.{Lives, polynomial, symbols_of, term_at};
ghost use Rattle.dz_rank.specs.Rankings.{ranking_cmp};

use crate::book::{Book, Poly};
use dz_rank::Symbol;
use dz_terms::same_entries;

/// The degree in a symbol, 0 where it does not occur.
pub fn degree_in(book: &Book, a: Poly, s: Symbol) -> u16
    requires { Lives book.now a }
    ensures { result ≡ degree (ranking_cmp book.now.ranking) s (polynomial book.now a) }
{
    book.entry(a).degree(book.ranking(), s)
}

/// The number of terms.
pub fn term_count(book: &Book, a: Poly) -> usize
    requires { Lives book.now a }
    ensures { result ≡ length (polynomial book.now a) }
{
    book.entry(a).term_count()
}

/// The number of symbols that occur.
pub fn symbol_count(book: &Book, a: Poly) -> usize
    requires { Lives book.now a }
    ensures { result ≡ length (symbols_of book.now.ranking (polynomial book.now a)) }
{
    book.entry(a).symbol_degrees().len()
}

/// The symbol at a position.
pub fn symbol_at(book: &Book, a: Poly, j: usize) -> Symbol
    requires lives { Lives book.now a }
    requires inside { j < length (symbols_of book.now.ranking (polynomial book.now a)) }
    ensures { slice_get (symbols_of book.now.ranking (polynomial book.now a)) j ≡ Some result }
{
    book.entry(a).symbol_degrees()[j].0
}

/// The coefficient of the term at a position.
pub fn coefficient_at(book: &Book, a: Poly, k: usize) -> i128
    requires lives { Lives book.now a }
    requires inside { k < length (polynomial book.now a) }
    ensures value { result ≡ (term_at (polynomial book.now a) k).1 }
    ensures in_range { unsigned_abs result ≤ greatest }
{
    book.entry(a).coefficient(k)
}

/// The exponent of a symbol in the term at a position, 0 where it does not occur.
pub fn exponent_at(book: &Book, a: Poly, k: usize, s: Symbol) -> u16
    requires lives { Lives book.now a }
    requires inside { k < length (polynomial book.now a) }
    ensures { result ≡ exponent (ranking_cmp book.now.ranking) s
        (term_at (polynomial book.now a) k).0 }
{
    book.entry(a).exponent(book.ranking(), k, s)
}

/// The number of symbols in the term at a position.
pub fn power_count(book: &Book, a: Poly, k: usize) -> usize
    requires lives { Lives book.now a }
    requires inside { k < length (polynomial book.now a) }
    ensures { result ≡ length (term_at (polynomial book.now a) k).0 }
{
    book.entry(a).power_count(k)
}

/// The symbol at a position in the term at a position, with its exponent.
pub fn power_at(book: &Book, a: Poly, k: usize, j: usize) -> (Symbol, u16)
    requires lives { Lives book.now a }
    requires inside { k < length (polynomial book.now a) }
    requires among { j < length (term_at (polynomial book.now a) k).0 }
    ensures { slice_get (term_at (polynomial book.now a) k).0 j ≡ Some result }
{
    book.entry(a).power(k, j)
}

/// Whether two polynomials are equal.
pub fn same(book: &Book, a: Poly, b: Poly) -> bool
    requires first { Lives book.now a }
    requires second { Lives book.now b }
    ensures { IsTrue result ↔ (polynomial book.now a ≡ polynomial book.now b) }
{
    same_entries(book.ranking(), book.entry(a), book.entry(b))
}
