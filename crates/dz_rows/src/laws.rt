// The laws of values, called at a point over polynomials with whole coefficients: so their conditions can be met.
ghost use Rattle.std.specs.Prelude.{◌≡◌, IfOk};
ghost use Rattle.dz_domain.specs.Point.{FitsSignature};

use dz_domain::{
    Adjoin, Coefficients, Point, Whole, ground_is_nonzero, independent_is_not_constant,
    value_of_derivative, value_of_product, value_of_sum,
};
use dz_poly::{Book, PolyStop, constant, symbol_poly, term_count};
use dz_rank::{Block, Kind, Ranking, Signature, Symbol};
use std::alloc::{AllocError, Global};
use std::test::Fail;

/// A book in one independent and one unknown.
fn book(alloc: Global) -> Result<Book, AllocError>
    ensures { IfOk result (λ book. book.ranking.signature ≡ record { independents = 1; dependents = 1 }) }
{
    let mut dependents = Vec::new(alloc);
    dependents.push(0)?;
    let blocks = [Block {
        kind: Kind::GrlexA,
        dependents,
    }];
    let signature = Signature {
        independents: 1,
        dependents: 1,
    };
    let ranking = Ranking::new(alloc, signature, &blocks).map_err(|_| AllocError)?;
    Ok(Book::new(alloc, ranking))
}

/// Calls each law on the polynomials x and 2, and answers how many terms they have.
fn laws(book: &mut Book, at: &Point<Adjoin<Whole>>) -> Result<usize, PolyStop>
    requires signature { book.old.ranking.signature ≡ record { independents = 1; dependents = 1 } }
    requires fits { FitsSignature (record { independents = 1; dependents = 1 }) at.now }
{
    let two = constant(book, 2)?;
    let x = symbol_poly(book, Symbol::Independent(0))?;
    value_of_sum(book, x, two, at);
    value_of_product(book, x, two, at);
    value_of_derivative(book, x, 0, at);
    independent_is_not_constant(book, 0, at);
    ground_is_nonzero(book, two, at);
    Ok(term_count(book, x) + term_count(book, two))
}

#[test]
fn the_laws_can_be_called(rt: HostRuntime) -> Result<(), Fail> {
    let alloc = rt.alloc();
    let x = Coefficients::new(vec![in alloc; 0i128, 1]?);
    let u = Coefficients::new(vec![in alloc; 0i128, 0, 1]?);
    let at = Point::new(
        Adjoin::new(Whole::new()),
        vec![in alloc; x]?,
        vec![in alloc; u]?,
    );
    let mut book = book(alloc)?;
    assert_eq!(rt; laws(&mut book, &at)?, 2);
    Ok(())
}
