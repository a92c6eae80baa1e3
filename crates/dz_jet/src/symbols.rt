//! The symbols of a jet.

ghost use Rattle.std.specs.Prelude.{◌≡◌, ◌<◌, ◌++◌, IfOk, length};
ghost use Rattle.dz_poly.specs.Books.{Lives, polynomial, term_at};
ghost use Rattle.dz_rank.specs.Symbols.{total_order};
ghost use Rattle.dz_monomials.specs.Ranked.{symbols_under};
ghost use Rattle.dz_diff.specs.States.{LiveAll, StandsIn, polynomials, state_in};
ghost use Rattle.dz_parametric.specs.Orders.{derivatives_to};
ghost use Rattle.dz_jet.specs.Jets.{independents_of, jet_order};
ghost use Rattle.dz_jet.specs.Jets.{order_of, order_of_all, order_of_monomial};

use dz_diff::State;
use dz_parametric::derivatives_to;
use dz_poly::{Book, Poly, power_at, power_count, term_count};
use dz_rank::{Ranking, Symbol};
use std::alloc::{AllocError, Global};

/// The total order of a symbol, 0 for an independent.
pub(crate) fn total_order(s: Symbol) -> u16
    ensures { result ≡ total_order s }
{
    match s {
        Symbol::Independent(_) => 0,
        Symbol::Derivative { operator, .. } => {
            let [i, j, k, l] = operator.counts;
            u16::from(i) + u16::from(j) + u16::from(k) + u16::from(l)
        }
    }
}

/// The greatest total order of a derivative in the term at a position, or `least`.
fn order_of_term(book: &Book, p: Poly, k: usize, least: u16) -> u16
    requires lives { Lives book.now p }
    requires inside { k < length (polynomial book.now p) }
    ensures { result ≡ order_of_monomial (symbols_under book.now.ranking)
        (term_at (polynomial book.now p) k).0 least }
{
    let mut order = least;
    for j in 0..power_count(book, p, k) {
        order = order.max(total_order(power_at(book, p, k, j).0));
    }
    order
}

/// The greatest total order of a derivative in a polynomial, or `least`.
fn order_of(book: &Book, p: Poly, least: u16) -> u16
    requires { Lives book.now p }
    ensures { result ≡ order_of (symbols_under book.now.ranking) (polynomial book.now p) least }
{
    let mut order = least;
    for k in 0..term_count(book, p) {
        order = order_of_term(book, p, k, order);
    }
    order
}

/// The greatest total order of a derivative in polynomials, or `least`.
fn order_of_all(book: &Book, polys: &[Poly], least: u16) -> u16
    requires { LiveAll book.now polys.now }
    ensures { result ≡ order_of_all (symbols_under book.now.ranking)
        (polynomials book.now polys.now) least }
{
    let mut order = least;
    for i in 0..polys.len() {
        order = order_of(book, polys[i], order);
    }
    order
}

/// The order of a jet that is asked for up to an order.
pub(crate) fn jet_order(book: &Book, chain: &State, least: u8) -> u8
    requires { StandsIn book.now chain.now }
    ensures { result ≡ jet_order (symbols_under book.now.ranking) (state_in book.now chain.now)
        least }
{
    // No derivative in a book has a total order above 60.
    book.opened();
    let order = order_of_all(book, chain.equations(), u16::from(least));
    order_of_all(book, chain.inequations(), order) as u8
}

/// The symbols of a jet: the independents in declared order, and the derivatives up to its order
/// in increasing order.
pub(crate) fn jet_symbols(
    alloc: Global,
    ranking: &Ranking,
    order: u8,
) -> Result<Vec<Symbol>, AllocError>
    ensures { IfOk result (λ xs. xs.items ≡ independents_of ranking.now.signature
        ++ derivatives_to ranking.now order) }
{
    let mut symbols = Vec::new(alloc);
    for i in 0..ranking.signature().independents {
        symbols.push(Symbol::Independent(i))?;
    }
    let mut derivatives = derivatives_to(alloc, ranking, order)?;
    symbols.append(&mut derivatives)?;
    Ok(symbols)
}
