//! Laws for contracts alone: the calls do nothing when they run.

ghost use Rattle.std.specs.Prelude.{◌≡◌, ◌↔◌, []};
ghost use Rattle.dz_poly.specs.Books.{Lives, polynomial};
ghost use Rattle.dz_diff.specs.States.{polynomials};
ghost use Rattle.dz_domain.specs.Point.{FitsSignature, IsPoint, value_at};
ghost use Rattle.dz_solution.specs.FunctionPoints.{function_point, in_four_variables};
ghost use Rattle.dz_solution.specs.Substitution.{AreFunctions, substitution};

use dz_poly::{Book, Poly};

/// The value of a polynomial at the function point, which is a point of polynomials in four
/// variables over whole numbers that fits the book's signature, is zero exactly where its
/// substitution is zero.
pub fn function_point(book: &Book, p: Poly, functions: &[Poly])
    requires lives { Lives book.now p }
    requires functions { AreFunctions book.now functions.now }
    ensures point { IsPoint in_four_variables (function_point
        book.now.ranking.signature.independents (polynomials book.now functions.now)) }
    ensures fits { FitsSignature book.now.ranking.signature (function_point
        book.now.ranking.signature.independents (polynomials book.now functions.now)) }
    ensures vanishes { (value_at in_four_variables (function_point
        book.now.ranking.signature.independents (polynomials book.now functions.now))
        (polynomial book.now p) ≡ in_four_variables.zero)
        ↔ (substitution book.now.ranking (polynomials book.now functions.now)
        (polynomial book.now p) ≡ []) }
{
    book.opened();
    // A ranking has at most four independents.
    let _ = book.ranking().signature();
}
