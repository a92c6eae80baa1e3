//! The laws of rows.
//!
//! The calls do nothing when they run: the clause of each is a law.

ghost use Rattle.std.specs.Prelude.{◌≡◌, ℕ, List, IsTrue};
ghost use Rattle.dz_domain.specs.Point.{FitsSignature};
ghost use Rattle.dz_diff.specs.States.{state_in};
ghost use Rattle.dz_regular.specs.Points.{AreRowsFor, HaveValueZero, NoneHasValueZero, rests_in};
ghost use Rattle.dz_algebra.specs.Domain.{DomainLaws, Operations};
ghost use Rattle.dz_algebra.specs.Polynomial.{Polynomial};
ghost use Rattle.dz_algebra.specs.Symbols.{Symbols};
ghost use Rattle.dz_rank.specs.Rankings.{RankingValue, ranking_cmp};
ghost use Rattle.dz_rank.specs.declared.symbols.Symbol.{Symbol};
ghost use Rattle.dz_monomials.specs.Ranked.{symbols_under};
ghost use Rattle.dz_monomials.specs.Lists.{AllOf};
ghost use Rattle.dz_diff.specs.Over.{IsOver};
ghost use Rattle.dz_diff.specs.Tests.{Polynomials};
ghost use Rattle.dz_regular.specs.Identities.{IsRowFor};
ghost use Rattle.dz_regular.specs.Laws.{RowValues};
ghost use Rattle.dz_regular.specs.Replays.{HoldsCourse};
ghost use Rattle.dz_regular.specs.Rows.{Numbered};
ghost use Rattle.dz_regular.specs.Runs.{finished, regularity_run};
ghost use Rattle.dz_regular.specs.declared.answers.Combine.{Combine};

use crate::answers::Row;
use dz_diff::State;
use dz_domain::{Domain, Point};
use dz_poly::Book;

/// The row at the end of a run is a row for the inequation.
#[tactic(auto, using(crate::proofs::RunRows::row_made))]
pub fn runs_make_rows()
    ensures { (r : RankingValue) (equations : Polynomials) (h : Polynomial Symbol) (budget : ℕ)
        (run : List Combine) (row : Numbered) → AllOf (IsOver r) equations → IsOver r h
        → regularity_run (symbols_under r) equations budget h ≡ finished run row
        → IsRowFor (ranking_cmp r) equations h row.components }
{}

/// The combinations of a run hold, each on the rows of its numbers, and do not weigh more than the
/// budget; the row in hand at its end is the row of its number, and a combination that passes the
/// budget is small and fits.
#[tactic(auto, using(crate::proofs::RunReplays::runs_hold))]
pub fn runs_replay()
    ensures { (g : Symbols Symbol) (equations : Polynomials) (h : Polynomial Symbol) (budget : ℕ)
        → HoldsCourse g equations h budget (regularity_run g equations budget h) }
{}

/// Where the symbols have values in a differential domain, the equations have value zero, and the
/// rest of a row has not, the inequation has not.
#[tactic(auto, using(crate::proofs::RowPoints::row_values))]
pub fn rows_decide<E>()
    ensures { (r : RankingValue) (o : Operations E) → DomainLaws o → (at : Symbol → E)
        → ((s : Symbol) → IsTrue (o.is_value (at s))) → RowValues r o at }
{}

/// In every domain, at every point that fits the book's signature: where the equations of a chain
/// have value zero and no rest has, no inequation has, given one row for each.
pub fn regular_points<D: Domain>(book: &Book, chain: &State, rows: &[Row], at: &Point<D>)
    requires rows { AreRowsFor (ranking_cmp book.now.ranking)
        (state_in book.now chain.now).equations (state_in book.now chain.now).inequations
        book.now rows.now }
    requires fits { FitsSignature book.now.ranking.signature at.now }
    ensures { HaveValueZero D.operations at.now (state_in book.now chain.now).equations
        → NoneHasValueZero D.operations at.now (rests_in book.now rows.now)
        → NoneHasValueZero D.operations at.now (state_in book.now chain.now).inequations }
{
    at.is_point();
}
