//! The leader, the initial and the separant.

ghost use Rattle.std.specs.Prelude.{◌≡◌, false, IfOk, IfErr, IfSome, OnOk, OnErr};
ghost use Rattle.dz_algebra.specs.Parts.{initial, is_ground, leader};
ghost use Rattle.dz_algebra.specs.Size.{separant_answer};
ghost use Rattle.dz_poly.specs.Books.{Gives, IsAdded, IsKept, Lives, Means, polynomial};
ghost use Rattle.dz_rank.specs.Rankings.{RankingValue, ranking_cmp};
ghost use Rattle.dz_terms.specs.Entries.{IsEntry};
ghost use Rattle.dz_monomials.specs.Ranked.{symbols_under};
ghost use Rattle.dz_monomials.specs.declared.PolyStop.TheVariants.{Memory};

use dz_poly::{Book, Poly, PolyStop};
use dz_rank::{Ranking, Symbol};
use dz_terms::{Entry, coefficient_entry, partial_derivative};
use std::alloc::{AllocError, Global};

/// The leader, and `None` where no derivative occurs.
///
/// Every derivative is greater than every independent, so the greatest symbol tells.
pub fn leader_of(entry: &Entry) -> Option<Symbol>
    ensures { (r : RankingValue) → IsEntry r entry.now
        → result ≡ leader (symbols_under r) entry.now.terms }
{
    let table = entry.symbol_degrees();
    if table.is_empty() {
        return None;
    }
    match table[0].0 {
        Symbol::Independent(_) => None,
        derivative => Some(derivative),
    }
}

/// The initial by a symbol: the coefficient of its highest power.
pub fn initial_of(
    alloc: Global,
    ranking: &Ranking,
    entry: &Entry,
    symbol: Symbol,
) -> Result<Entry, AllocError>
    requires { IsEntry ranking.now entry.now }
    ensures terms { IfOk result (λ all. all.terms
        ≡ initial (ranking_cmp ranking.now) symbol entry.now.terms) }
    ensures entry { IfOk result (λ all. IsEntry ranking.now all) }
{
    let degree = entry.degree(ranking, symbol);
    coefficient_entry(alloc, ranking, entry, symbol, degree)
}

/// The leader, and `None` where the polynomial is ground.
pub fn leader(book: &Book, p: Poly) -> Option<Symbol>
    requires { Lives book.now p }
    ensures { result ≡ leader (symbols_under book.now.ranking) (polynomial book.now p) }
{
    leader_of(book.entry(p))
}

#[tactic(auto, using(crate::proofs::Leading::unled_not_led))]
/// The initial of a polynomial that is not ground: the coefficient of the highest power of its
/// leader.
pub fn initial(book: &mut Book, p: Poly) -> Result<Poly, PolyStop>
    requires lives { Lives book.old p }
    requires led { is_ground (symbols_under book.old.ranking) (polynomial book.old p) ≡ false }
    ensures value { IfOk result (λ q.
        IfSome (leader (symbols_under book.old.ranking) (polynomial book.old p)) (λ l.
        Means book.new q (initial (ranking_cmp book.old.ranking) l (polynomial book.old p)))) }
    ensures memory { IfErr result (λ e. e ≡ Memory) }
    ensures kept { OnOk result (IsKept book.old book.new) }
    ensures added { IfOk result (λ q. IsAdded book.old book.new q) }
    ensures refused { OnErr result (book.new ≡ book.old) }
{
    let Some(leader) = leader_of(book.entry(p)) else {
        unreachable!()
    };
    let initial = initial_of(book.allocator(), book.ranking(), book.entry(p), leader)?;
    Ok(book.keep(initial)?)
}

#[tactic(auto, using(crate::proofs::Leading::unled_not_led))]
/// The separant of a polynomial that is not ground: the partial derivative by its leader.
pub fn separant(book: &mut Book, p: Poly) -> Result<Poly, PolyStop>
    requires lives { Lives book.old p }
    requires led { is_ground (symbols_under book.old.ranking) (polynomial book.old p) ≡ false }
    ensures separant { IfSome (leader (symbols_under book.old.ranking) (polynomial book.old p)) (λ l.
        Gives book.new result
        (separant_answer (symbols_under book.old.ranking) l (polynomial book.old p))) }
    ensures kept { OnOk result (IsKept book.old book.new) }
    ensures added { IfOk result (λ q. IsAdded book.old book.new q) }
    ensures refused { OnErr result (book.new ≡ book.old) }
{
    let Some(lead) = leader_of(book.entry(p)) else {
        unreachable!()
    };
    let separant = partial_derivative(book.allocator(), book.ranking(), book.entry(p), lead)?;
    Ok(book.keep(separant)?)
}
