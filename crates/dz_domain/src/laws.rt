//! What holds of the values of polynomials in every domain, at every point that fits the book's
//! signature. The calls do nothing when they run: each states a law for contracts above.

ghost use Rattle.std.specs.Prelude.{◌≡◌, ◌≢◌, ◌<◌, [], IsTrue};
ghost use Rattle.dz_algebra.specs.Derivation.{Rate, constant, polynomial_derivative};
ghost use Rattle.dz_algebra.specs.Parts.{is_ground};
ghost use Rattle.dz_algebra.specs.Polynomial.{Polynomial, polynomial_sum, polynomial_product};
ghost use Rattle.dz_rank.specs.declared.symbols.Symbol.{Symbol};
ghost use Rattle.dz_rank.specs.declared.symbols.Symbol.TheVariants.{Independent};
ghost use Rattle.dz_rank.specs.Rankings.{ranking_cmp};
ghost use Rattle.dz_poly.specs.Books.{Lives, polynomial};
ghost use Rattle.dz_monomials.specs.Ranked.{symbol_rate, symbols_under};
ghost use Rattle.dz_domain.specs.Point.{FitsSignature, value_at};

use crate::domain::Domain;
use crate::point::Point;
use dz_poly::{Book, Poly};

/// The value of the sum of two polynomials is the sum of their values.
pub fn value_of_sum<D: Domain>(book: &Book, a: Poly, b: Poly, at: &Point<D>)
    requires a_lives { Lives book.now a }
    requires b_lives { Lives book.now b }
    requires fits { FitsSignature book.now.ranking.signature at.now }
    ensures { value_at D.operations at.now
        (polynomial_sum (ranking_cmp book.now.ranking)
        (polynomial book.now a) (polynomial book.now b))
        ≡ (D.operations).sum (value_at D.operations at.now (polynomial book.now a))
        (value_at D.operations at.now (polynomial book.now b)) }
{
    at.is_point();
}

/// The value of the product of two polynomials is the product of their values.
pub fn value_of_product<D: Domain>(book: &Book, a: Poly, b: Poly, at: &Point<D>)
    requires a_lives { Lives book.now a }
    requires b_lives { Lives book.now b }
    requires fits { FitsSignature book.now.ranking.signature at.now }
    ensures { value_at D.operations at.now
        (polynomial_product (ranking_cmp book.now.ranking)
        (polynomial book.now a) (polynomial book.now b))
        ≡ (D.operations).product (value_at D.operations at.now (polynomial book.now a))
        (value_at D.operations at.now (polynomial book.now b)) }
{
    at.is_point();
}

/// The value of the derivative of a polynomial by the i-th derivation is that derivation of its
/// value: the value of a differential polynomial is a homomorphism of differential rings.
pub fn value_of_derivative<D: Domain>(book: &Book, a: Poly, i: u8, at: &Point<D>)
    requires lives { Lives book.now a }
    requires below { i < book.now.ranking.signature.independents }
    requires fits { FitsSignature book.now.ranking.signature at.now }
    ensures { value_at D.operations at.now
        (polynomial_derivative (ranking_cmp book.now.ranking) (symbol_rate i)
        (polynomial book.now a))
        ≡ (D.operations).derivative i
        (value_at D.operations at.now (polynomial book.now a)) }
{
    at.is_point();
}

/// No derivation of polynomials whose values are the derivatives of the values takes the
/// independent of its number to zero.
pub fn independent_is_not_constant<D: Domain>(book: &Book, i: u8, at: &Point<D>)
    requires below { i < book.now.ranking.signature.independents }
    requires fits { FitsSignature book.now.ranking.signature at.now }
    ensures { (rate : Symbol → Rate Symbol)
        → ((a : Polynomial Symbol) → value_at D.operations at.now
        (polynomial_derivative (ranking_cmp book.now.ranking) rate a)
        ≡ (D.operations).derivative i (value_at D.operations at.now a))
        → rate (Independent i) ≢ constant }
{
    at.is_point();
}

/// A polynomial in independents alone that is not zero vanishes at no point: the independents of a
/// point are algebraically independent over the whole numbers.
pub fn ground_is_nonzero<D: Domain>(book: &Book, p: Poly, at: &Point<D>)
    requires lives { Lives book.now p }
    requires no_derivative { IsTrue
        (is_ground (symbols_under book.now.ranking) (polynomial book.now p)) }
    requires nonzero { polynomial book.now p ≢ [] }
    requires fits { FitsSignature book.now.ranking.signature at.now }
    ensures { value_at D.operations at.now (polynomial book.now p) ≢ (D.operations).zero }
{
    book.opened();
    at.is_point();
}
