// The polynomials of the equations that are made from a seed.
ghost use Rattle.std.specs.Prelude.{◌≡◌, IfErr, IfOk};
ghost use Rattle.dz_poly.specs.Books.{IsKept, Means};
ghost use Rattle.dz_rank.specs.Rankings.{ranking_cmp};
ghost use Rattle.dz_sample.specs.Equations.{IsEquationOf, equation_polynomial};
ghost use Rattle.dz_monomials.specs.declared.PolyStop.TheVariants.{Memory};

use crate::equations::SampleEquation;
use dz_poly::{Book, Poly, PolyStop, constant, mul, sub, symbol_poly};
use dz_rank::{Operator, Symbol, order_is_total, raising_grows};

/// The polynomial of an equation of the book's signature: the derivative, less the coefficient times
/// the dependent. What it is made of stays in the book. Want of memory alone refuses it.
pub fn equation_poly(book: &mut Book, equation: SampleEquation) -> Result<Poly, PolyStop>
    requires { IsEquationOf book.old.ranking.signature equation }
    ensures value { IfOk result (λ p. Means book.new p
        (equation_polynomial (ranking_cmp book.old.ranking) equation)) }
    ensures memory { IfErr result (λ e. e ≡ Memory) }
    ensures kept { IsKept book.old book.new }
{
    let derivative = Symbol::Derivative {
        dependent: equation.dependent,
        operator: equation.operator,
    };
    let dependent = Symbol::Derivative {
        dependent: equation.dependent,
        operator: Operator {
            counts: [0, 0, 0, 0],
        },
    };
    // The derivative is the greater of the two symbols, so neither operation cancels anything.
    raising_grows(book.ranking(), dependent, equation.operator);
    order_is_total(book.ranking(), dependent, derivative, derivative);
    let leader = symbol_poly(book, derivative)?;
    let symbol = symbol_poly(book, dependent)?;
    let factor = constant(book, equation.coefficient)?;
    let multiple = mul(book, factor, symbol)?;
    sub(book, leader, multiple)
}
