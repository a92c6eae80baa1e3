//! Worked examples.

ghost use Rattle.std.specs.Prelude.{◌≡◌, ◌≤◌, [], ◌∷◌, unsigned_abs, IfOk, OnOk};
ghost use Rattle.dz_algebra.specs.Amount.{greatest};
ghost use Rattle.dz_poly.specs.Books.{Lives};
ghost use Rattle.dz_rank.specs.declared.symbols.Symbol.TheVariants.{Derivative};

use crate::{
    Book, Limit, Poly, PolyStop, add, coefficient_at, coefficient_of, constant, degree_in, mul,
    mul_term, normalise, sub, symbol_count, symbol_poly, term_count,
};
use dz_rank::{Block, Kind, Operator, Ranking, Signature, Symbol};
use std::alloc::Global;

const X: Symbol = Symbol::Independent(0);

const GREATEST: i128 = 170141183460469231731687303715884105727;

/// The dependent u, derived so often by x.
fn derivative(order: u8) -> Symbol
    ensures { result ≡ Derivative 0 (record { counts = order ∷ 0 ∷ 0 ∷ 0 ∷ [] }) }
{
    Symbol::Derivative {
        dependent: 0,
        operator: Operator {
            counts: [order, 0, 0, 0],
        },
    }
}

/// A book for the independent x and the dependent u.
fn book(alloc: Global) -> Result<Book, PolyStop>
    ensures { IfOk result (λ book.
        book.ranking.signature ≡ record { independents = 1; dependents = 1 }) }
{
    let mut dependents = Vec::new(alloc);
    dependents.push(0)?;
    let mut blocks = Vec::new(alloc);
    blocks.push(Block {
        kind: Kind::GrlexA,
        dependents,
    })?;
    let signature = Signature {
        independents: 1,
        dependents: 1,
    };
    match Ranking::new(alloc, signature, &blocks) {
        Ok(ranking) => Ok(Book::new(alloc, ranking)),
        Err(_) => Err(PolyStop::Memory),
    }
}

/// The coefficient of the greatest monomial, 0 of zero.
fn first_coefficient(book: &Book, p: Poly) -> i128
    requires { Lives book.now p }
{
    if term_count(book, p) == 0 {
        0
    } else {
        coefficient_at(book, p, 0)
    }
}

/// The sum of two numbers, as polynomials.
fn sum_of(book: &mut Book, first: i128, second: i128) -> Result<i128, PolyStop>
    requires first { unsigned_abs first ≤ greatest }
    requires second { unsigned_abs second ≤ greatest }
{
    let a = constant(book, first)?;
    let b = constant(book, second)?;
    let sum = add(book, a, b)?;
    Ok(first_coefficient(book, sum))
}

/// The polynomial `2*u*x^3 - 6*x^3`.
fn sample(book: &mut Book) -> Result<Poly, PolyStop>
    requires { book.old.ranking.signature ≡ record { independents = 1; dependents = 1 } }
    ensures lives { IfOk result (λ p. Lives book.new p) }
    ensures kept { OnOk result (book.new.ranking ≡ book.old.ranking) }
{
    let u = symbol_poly(book, derivative(0))?;
    let three = constant(book, 3)?;
    let difference = sub(book, u, three)?;
    let product = mul_term(book, difference, 2, X, 3)?;
    Ok(product)
}

#[test]
fn worked_polynomials(rt: HostRuntime) -> Result<(), PolyStop> {
    let mut book = book(rt.alloc())?;
    assert!(rt; sum_of(&mut book, 2, 3) == Ok(5));
    assert!(rt; sum_of(&mut book, 3, -3) == Ok(0));
    assert!(rt; sum_of(&mut book, GREATEST - 1, 1) == Ok(GREATEST));
    assert!(rt; sum_of(&mut book, GREATEST, -1) == Err(PolyStop::Wide));
    Ok(())
}

#[test]
fn worked_parts(rt: HostRuntime) -> Result<(), PolyStop> {
    let mut book = book(rt.alloc())?;
    let p = sample(&mut book)?;
    assert!(rt; term_count(&book, p) == 2);
    assert!(rt; symbol_count(&book, p) == 2);
    assert!(rt; degree_in(&book, p, X) == 3);
    assert!(rt; first_coefficient(&book, p) == 2);
    let norm = normalise(&mut book, p)?;
    assert!(rt; first_coefficient(&book, norm) == 1);
    Ok(())
}

#[test]
fn worked_squares(rt: HostRuntime) -> Result<(), PolyStop> {
    let mut book = book(rt.alloc())?;
    let p = sample(&mut book)?;
    let square = mul(&mut book, p, p)?;
    assert!(rt; term_count(&book, square) == 3);
    assert!(rt; first_coefficient(&book, square) == 4);
    let constant_part = coefficient_of(&mut book, square, derivative(0), 0)?;
    assert!(rt; first_coefficient(&book, constant_part) == 36);
    let high = mul_term(&mut book, square, 1, X, 65530);
    assert!(rt; high == Err(PolyStop::Large(Limit::Exponent)));
    Ok(())
}
