//! The equation that fixes a derivative.

ghost use Rattle.std.specs.Prelude.{◌≡◌, MatchOption, None};
ghost use Rattle.dz_algebra.specs.Parts.{leader};
ghost use Rattle.dz_rank.specs.Symbols.{HasFourExponents};
ghost use Rattle.dz_poly.specs.Books.{Lives, polynomial};
ghost use Rattle.dz_monomials.specs.Ranked.{symbols_under};
ghost use Rattle.dz_diff.specs.Operators.{is_proper};
ghost use Rattle.dz_diff.specs.States.{LiveAll, polynomials};
ghost use Rattle.dz_jet.specs.Jets.{leading_to};
ghost use Rattle.dz_jet.specs.Fixing.{IsLeading, proper_operator};

use dz_diff::leader;
use dz_poly::{Book, Poly};
use dz_rank::{Operator, Symbol, quotient};

/// An equation by its index, and a proper operator that takes its leader to a derivative.
#[derive(Clone, Copy)]
pub(crate) struct Fixing {
    pub(crate) index: usize,
    pub(crate) operator: Operator,
}

/// Whether an operator takes a derivation.
pub fn is_proper(operator: Operator) -> bool
    ensures { result ≡ is_proper operator }
{
    let [i, j, k, l] = operator.counts;
    i != 0 || j != 0 || k != 0 || l != 0
}

/// The proper operator that takes the leader of a polynomial to a symbol.
fn leads(book: &Book, p: Poly, w: Symbol) -> Option<Operator>
    requires lives { Lives book.now p }
    requires four { HasFourExponents w }
    ensures { result ≡ proper_operator
        (leader (symbols_under book.now.ranking) (polynomial book.now p)) w }
{
    // The leader belongs to the signature.
    book.opened();
    let operator = quotient(w, leader(book, p)?)?;
    if is_proper(operator) {
        Some(operator)
    } else {
        None
    }
}

/// The first equation that leads to a symbol.
pub(crate) fn leading_to(book: &Book, equations: &[Poly], w: Symbol) -> Option<Fixing>
    requires live { LiveAll book.now equations.now }
    requires four { HasFourExponents w }
    ensures { MatchOption result
        (leading_to (symbols_under book.now.ranking) w 1
        (polynomials book.now equations.now) ≡ None)
        (λ x. IsLeading (symbols_under book.now.ranking) w
        (polynomials book.now equations.now) x) }
{
    for i in 0..equations.len() {
        if let Some(operator) = leads(book, equations[i], w) {
            return Some(Fixing { index: i, operator });
        }
    }
    None
}
