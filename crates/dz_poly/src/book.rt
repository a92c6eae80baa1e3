//! Books of polynomials.

ghost use Rattle.std.specs.Prelude.{◌≡◌};

use dz_rank::Ranking;
use dz_terms::Entry;
use std::alloc::{AllocError, Global};
use std::marker::Model;

/// The name of a polynomial in a book: its number, from 0.
#[derive(Clone, Copy, Debug, PartialEq, Eq)]
pub struct Poly {
    index: usize,
}

impl Model for Poly {
    ghost use Rattle.std.specs.Prelude.{ℕ};

    ghost Value = { ℕ };

    ghost view = { λ p. p.index };

    ghost inverse = { λ n. record { index = n } };
}

/// The place up to which a book is filled.
#[derive(Clone, Copy, Debug, PartialEq, Eq)]
pub struct BookMark {
    count: usize,
}

impl Model for BookMark {
    ghost use Rattle.std.specs.Prelude.{ℕ};

    ghost Value = { ℕ };

    ghost view = { λ m. m.count };

    ghost inverse = { λ n. record { count = n } };
}

/// A ranking, and polynomials under it.
///
/// Every polynomial in a book is canonical under the ranking, its symbols belong to the signature,
/// its coefficients are between `-(2^127 - 1)` and `2^127 - 1`, and it has at most 4,096 terms and
/// 64 symbols, total orders up to 60 and exponents up to 65,535.
#[derive(Drop)]
pub struct Book {
    alloc: Global,
    ranking: Ranking,
    entries: Vec<Entry>,
}

impl Model for Book {
    ghost use Rattle.std.specs.Prelude.{map, All};
    ghost use Rattle.dz_poly.specs.Books.{BookValue};
    ghost use Rattle.dz_terms.specs.Entries.{IsEntry};

    ghost Value = { BookValue };

    ghost view = { λ b. record {
      ranking = b.ranking;
      polynomials = map (λ e. e.terms) b.entries.items;
    } };

    ghost invariant = { λ b.
        All (λ e. IsEntry b.ranking e) b.entries.items };
}

impl Book {
    ghost use Rattle.std.specs.Prelude.{◌≡◌, ◌≤◌, [], length, take};
    ghost use Rattle.std.specs.Prelude.{IfOk, OnOk, OnErr};
    ghost use Rattle.dz_poly.specs.Books.{BookValue, IsAdded, IsBook, IsKept, Lives, Means};
    ghost use Rattle.dz_poly.specs.Books.{polynomial};
    ghost use Rattle.dz_terms.specs.Entries.{IsEntry};

    /// A book without polynomials.
    pub fn new(alloc: Global, ranking: Ranking) -> Book
        ensures { result ≡ record { ranking = ranking; polynomials = [] } }
    {
        Book {
            alloc,
            ranking,
            entries: Vec::new(alloc),
        }
    }

    /// The ranking that was handed to `new`.
    pub fn ranking(&self) -> &Ranking
        ensures { result.now ≡ self.now.ranking }
    {
        &self.ranking
    }

    /// What is true of every book, for contracts: the call does nothing when it runs.
    pub fn opened(&self)
        ensures { IsBook self.now }
    {
        let _ = &self.entries;
    }

    /// The mark of the polynomials that the book has now.
    pub fn mark(&self) -> BookMark
        ensures { result ≡ length self.now.polynomials }
    {
        BookMark {
            count: self.entries.len(),
        }
    }

    /// Gives up the polynomials that were made after the mark; the older ones are as before.
    pub fn restore(&mut self, mark: BookMark)
        requires { mark ≤ length self.old.polynomials }
        ensures { self.new ≡ record {
          ranking = self.old.ranking;
          polynomials = take mark self.old.polynomials;
        } }
    {
        self.entries.truncate(mark.count);
    }

    /// The allocator that was handed to `new`.
    pub fn allocator(&self) -> Global {
        self.alloc
    }

    /// What the book keeps of a polynomial.
    pub fn entry(&self, p: Poly) -> &Entry
        requires { Lives self.now p }
        ensures means { Means self.now p result.now.terms }
        ensures value { result.now.terms ≡ polynomial self.now p }
        ensures entry { IsEntry self.now.ranking result.now }
    {
        &self.entries[p.index]
    }

    /// Puts a polynomial behind the others.
    pub fn keep(&mut self, entry: Entry) -> Result<Poly, AllocError>
        requires { IsEntry self.old.ranking entry }
        ensures ok { IfOk result (λ p. Means self.new p entry.terms) }
        ensures kept { OnOk result (IsKept self.old self.new) }
        ensures added { IfOk result (λ p. IsAdded self.old self.new p) }
        ensures refused { OnErr result (self.new ≡ self.old) }
    {
        let index = self.entries.len();
        self.entries.push(entry)?;
        Ok(Poly { index })
    }
}
