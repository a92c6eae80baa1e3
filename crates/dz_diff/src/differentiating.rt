//! Derivations of polynomials of a book.

ghost use Rattle.std.specs.Prelude.{◌<◌};
ghost use Rattle.dz_algebra.specs.Size.{derivation_answer};
ghost use Rattle.dz_poly.specs.Books.{Lives, Makes, polynomial};
ghost use Rattle.dz_monomials.specs.Ranked.{symbols_under};
ghost use Rattle.dz_diff.specs.Operations.{operator_answer, setting_of};

use crate::operators::applied;
use dz_poly::{Book, Poly, PolyStop};
use dz_rank::Operator;
use dz_terms::derivative;

#[tactic(auto, using(dz_poly::proofs::Makings::made, dz_poly::proofs::Makings::stopped, dz_poly::proofs::Makings::no_memory,))]
/// The derivative by the independent with a number.
pub fn differentiate(book: &mut Book, p: Poly, i: u8) -> Result<Poly, PolyStop>
    requires lives { Lives book.old p }
    requires within { i < book.old.ranking.signature.independents }
    ensures { Makes book.old book.new result
        (derivation_answer (symbols_under book.old.ranking) i (polynomial book.old p)) }
{
    let derivative = derivative(book.allocator(), book.ranking(), book.entry(p), i)?;
    Ok(book.keep(derivative)?)
}

#[tactic(auto, using(dz_poly::proofs::Makings::made, dz_poly::proofs::Makings::stopped, dz_poly::proofs::Makings::no_memory,))]
/// The derivative by an operator; a further copy of the polynomial where it takes no derivation.
pub fn apply(book: &mut Book, p: Poly, operator: Operator) -> Result<Poly, PolyStop>
    requires { Lives book.old p }
    ensures { Makes book.old book.new result
        (operator_answer (setting_of book.old.ranking) operator (polynomial book.old p)) }
{
    let derivative = applied(book.allocator(), book.ranking(), book.entry(p), operator)?;
    Ok(book.keep(derivative)?)
}
