//! What a book keeps of a polynomial.

ghost use Rattle.std.specs.Prelude.{◌≡◌, []};

use dz_monomials::{Powers, Term, exponent_of};
use dz_rank::{Ranking, Symbol};
use smallvec::SmallVec;
use std::alloc::Global;
use std::marker::Model;

/// The terms of a polynomial, the greatest monomial first, and its degree in each symbol that
/// occurs, the greatest symbol first.
///
/// How they are laid out is known in this crate alone.
#[derive(Drop)]
pub struct Entry {
    pub(crate) terms: Vec<Term>,
    pub(crate) degrees: Powers,
}

impl Model for Entry {
    ghost use Rattle.dz_terms.specs.Entries.{EntryValue};

    ghost Value = { EntryValue };

    ghost view = { λ x. record { terms = x.terms.items; degrees = x.degrees.items } };
}

impl Entry {
    ghost use Rattle.std.specs.Prelude.{◌≡◌, ◌==◌, ◌<◌, ◌≤◌, [], length, pos, Some, slice_get, slice_index_or, unsigned_abs};
    ghost use Rattle.dz_algebra.specs.Amount.{greatest};
    ghost use Rattle.dz_algebra.specs.Monomial.{exponent};
    ghost use Rattle.dz_algebra.specs.Parts.{degree};
    ghost use Rattle.dz_rank.specs.Rankings.{ranking_cmp};
    ghost use Rattle.dz_terms.specs.Entries.{IsEntry};

    /// The polynomial zero.
    pub fn zero(alloc: Global) -> Entry
        ensures terms { result.terms ≡ [] }
        ensures degrees { result.degrees ≡ [] }
    {
        Entry {
            terms: Vec::new(alloc),
            degrees: SmallVec::new(alloc),
        }
    }

    /// Whether it is the polynomial zero.
    pub fn is_zero(&self) -> bool
        ensures { result ≡ (length self.now.terms == 0) }
    {
        self.terms.as_slice().is_empty()
    }

    /// The number of its terms.
    pub fn term_count(&self) -> usize
        ensures { result ≡ length self.now.terms }
    {
        self.terms.as_slice().len()
    }

    /// Its terms, the greatest monomial first.
    pub(crate) fn terms(&self) -> &[Term]
        ensures { result.now ≡ self.now.terms }
    {
        self.terms.as_slice()
    }

    /// Its degree in each symbol that occurs, the greatest symbol first.
    pub fn symbol_degrees(&self) -> &[(Symbol, u16)]
        ensures { result.now ≡ self.now.degrees }
    {
        self.degrees.as_slice()
    }

    #[tactic(auto, using(dz_monomials::proofs::EntryFacts::table_is_monomial, dz_monomials::proofs::EntryFacts::degree_stands,))]
    /// Its degree in a symbol, 0 where it does not occur.
    pub fn degree(&self, ranking: &Ranking, symbol: Symbol) -> u16
        requires { IsEntry ranking.now self.now }
        ensures { result ≡ degree (ranking_cmp ranking.now) symbol self.now.terms }
    {
        exponent_of(ranking, self.degrees.as_slice(), symbol)
    }

    /// The coefficient of the term at a place, counted from 0.
    pub fn coefficient(&self, k: usize) -> i128
        requires { k < length self.now.terms }
        ensures value { result ≡ (slice_index_or self.now.terms k ([], pos 0)).1 }
        ensures in_range { unsigned_abs result ≤ greatest }
    {
        self.terms[k].coefficient()
    }

    #[tactic(auto, using(dz_monomials::proofs::EntryFacts::term_is_monomial))]
    /// The exponent of a symbol in the term at a place, 0 where it does not occur.
    pub fn exponent(&self, ranking: &Ranking, k: usize, symbol: Symbol) -> u16
        requires entry { IsEntry ranking.now self.now }
        requires inside { k < length self.now.terms }
        ensures { result ≡ exponent (ranking_cmp ranking.now) symbol
            (slice_index_or self.now.terms k ([], pos 0)).0 }
    {
        exponent_of(ranking, self.terms[k].powers(), symbol)
    }

    /// The number of symbols in the term at a place.
    pub fn power_count(&self, k: usize) -> usize
        requires { k < length self.now.terms }
        ensures { result ≡ length (slice_index_or self.now.terms k ([], pos 0)).0 }
    {
        self.terms[k].powers().len()
    }

    /// The symbol at a place in the term at a place, with its exponent.
    pub fn power(&self, k: usize, j: usize) -> (Symbol, u16)
        requires inside { k < length self.now.terms }
        requires among { j < length (slice_index_or self.now.terms k ([], pos 0)).0 }
        ensures { slice_get (slice_index_or self.now.terms k ([], pos 0)).0 j ≡ Some result }
    {
        self.terms[k].powers()[j]
    }
}
