//! The making of jets.

ghost use Rattle.std.specs.Prelude.{◌≡◌, ◌≤◌, All, Err, IfErr, IfOk, List, Ok};
ghost use Rattle.dz_poly.specs.Books.{IsKept};
ghost use Rattle.dz_rank.specs.Rankings.{IsOrderly};
ghost use Rattle.dz_rank.specs.Symbols.{BelongsTo, total_order};
ghost use Rattle.dz_rank.specs.declared.symbols.Symbol.{Symbol as SymbolValue};
ghost use Rattle.dz_monomials.specs.Ranked.{symbols_under};
ghost use Rattle.dz_diff.specs.States.{StandsIn, state_in};
ghost use Rattle.dz_jet.specs.declared.faults.JetFault.TheVariants.{NotOrderly};
ghost use Rattle.dz_move.specs.Lines.{Evidence};
ghost use Rattle.dz_jet.specs.Clashes.{AgreesAt, IsChain};
ghost use Rattle.dz_jet.specs.FaultSymbols.{IsFaultOver};
ghost use Rattle.dz_jet.specs.Fractions.{fraction_operations};
ghost use Rattle.dz_syntax.specs.Systems.{AreDistinct};
ghost use Rattle.dz_jet.specs.Jets.{jet_answer, jet_order, value_in};
ghost use Rattle.dz_jet.specs.Laws.{AreReduced};
ghost use Rattle.dz_jet.specs.Stops.{IsFault, IsJet};
ghost use Rattle.dz_jet.specs.Writable.{IsWritable};

use crate::faults::JetFault;
use crate::fixing::add_values;
use crate::given::given_table;
use crate::jets::Jet;
use crate::points::{test_all_multipliers, test_equations, test_inequations};
use crate::symbols::{jet_order, jet_symbols};
use dz_diff::State;
use dz_int::Frac;
use dz_poly::Book;
use dz_rank::Symbol;
use std::alloc::Global;

/// What is true of all values, for contracts: each is in lowest terms.
fn read(values: &[(Symbol, Frac)])
    ensures { AreReduced values.now }
{
    for i in 0..values.len() {
        let _ = values[i].1.numerator();
    }
}

/// The jet, with what the work leaves in the book.
fn jet_in_book(
    alloc: Global,
    book: &mut Book,
    chain: &State,
    values: &[(Symbol, Frac)],
    order: u8,
) -> Result<Jet, JetFault>
    requires stands { StandsIn book.old chain.now }
    requires belong { All (λ p. BelongsTo book.old.ranking.signature p.0) values.now }
    requires distinct { AreDistinct values.now }
    ensures jet { IfOk result (IsJet book.old.ranking (state_in book.old chain.now)
        values.now order) }
    ensures fault { IfErr result (λ e. IsFault e (jet_answer book.old.ranking
        (state_in book.old chain.now) values.now order)) }
    ensures kept { IsKept book.old book.new }
{
    let order = jet_order(book, chain, order);
    let symbols = jet_symbols(alloc, book.ranking(), order)?;
    let known = given_table(alloc, book, chain, values, symbols.as_slice(), order)?;
    test_equations(book, chain.equations(), known.as_slice())?;
    let separants = test_all_multipliers(alloc, book, chain.equations(), known.as_slice())?;
    test_inequations(book, chain.inequations(), known.as_slice())?;
    let independents = book.ranking().signature().independents as usize;
    let mut jet = Vec::from_slice(alloc, &known[..independents])?;
    add_values(
        book,
        chain,
        known.as_slice(),
        separants.as_slice(),
        &mut jet,
        &symbols[independents..],
    )?;
    Ok(Jet::new(order, jet))
}

/// The jet of a chain up to an order, from the values of the symbols that are free: under an
/// orderly ranking, the value of each other derivative is fixed by the first equation that leads
/// to it.
pub fn jet(
    alloc: Global,
    book: &mut Book,
    chain: &State,
    values: &[(Symbol, Frac)],
    order: u8,
) -> Result<Jet, JetFault>
    requires stands { StandsIn book.old chain.now }
    requires belong { All (λ p. BelongsTo book.old.ranking.signature p.0) values.now }
    requires distinct { AreDistinct values.now }

    // A jet is the one that the definition answers, and so is a fault but want of memory.
    ensures values { IfOk result (λ jet. jet_answer book.old.ranking
        (state_in book.old chain.now) values.now order ≡ Ok jet.values) }
    ensures order { IfOk result (λ jet. jet.order
        ≡ jet_order (symbols_under book.old.ranking) (state_in book.old chain.now) order) }
    ensures fault { IsOrderly book.old.ranking → IfErr result (λ e. IsFault e (jet_answer
        book.old.ranking (state_in book.old chain.now) values.now order)) }
    ensures not_orderly { (IsOrderly book.old.ranking → ⊥) → result ≡ Err NotOrderly }

    // The text of a jet may be written, and the symbol that a fault names is one of the ranking.
    ensures writable { IfOk result (λ jet. IsWritable book.old.ranking.signature jet.values) }
    ensures over { IfErr result (λ e. IsFaultOver book.old.ranking.signature e) }

    // Of a chain with evidence all derivatives of all equations have value zero at the jet.
    ensures agrees { (evidence : List Evidence)
        → IsChain book.old.ranking (state_in book.old chain.now) evidence
        → IfOk result (λ jet. (w : SymbolValue) → total_order w ≤ jet.order
        → AgreesAt book.old.ranking (state_in book.old chain.now) fraction_operations
        (value_in (symbols_under book.old.ranking) jet.values) w) }

    // The book is as before.
    ensures book { book.new ≡ book.old }
{
    if !book.ranking().is_orderly() {
        return Err(JetFault::NotOrderly);
    }
    read(values);
    // A ranking has at most four independents, and the polynomials of a book are over it.
    let _ = book.ranking().signature();
    book.opened();
    let mark = book.mark();
    let result = jet_in_book(alloc, book, chain, values, order);
    book.restore(mark);
    result
}
