//! The answers to one question.

ghost use Rattle.std.specs.Prelude.{◌≡◌, All};
ghost use Rattle.dz_poly.specs.Books.{Lives};
ghost use Rattle.dz_diff.specs.States.{LiveAll, StandsIn};
ghost use Rattle.dz_syntax.specs.Names.{signature_of};
ghost use Rattle.dz_ask.specs.Attempts.{LiveTerms, LivesPreparation};

use crate::texts::{write_number, write_product, write_run, write_stop};
use dz_ask::{
    Normal, Preparation, PrepareAttempt, PreparedTerm, VanishStop, normal_form, prepare, vanishes,
};
use dz_form::write_poly;
use dz_poly::{Book, Poly};
use dz_step::{Attempt, State};
use dz_syntax::Names;
use std::alloc::{AllocError, Global};

/// Appends whether a polynomial vanishes by the chains.
pub(crate) fn tell_vanishing(
    alloc: Global,
    book: &mut Book,
    f: Poly,
    chains: &[State],
    budget: u32,
    into: &mut Vec<u8>,
) -> Result<(), AllocError>
    requires f { Lives book.old f }
    requires chains { All (λ s. StandsIn book.old s) chains.now }
    ensures { book.new ≡ book.old }
{
    match vanishes(alloc, book, f, chains, budget) {
        Ok(true) => into.extend_from_slice(b"vanishing yes\n"),
        Ok(false) => into.extend_from_slice(b"vanishing no\n"),
        Err(VanishStop { chain, attempt }) => {
            into.extend_from_slice(b"chain ")?;
            write_number(into, chain)?;
            into.extend_from_slice(b"\n")?;
            write_attempt(&attempt, into)
        }
    }
}

/// Appends a normal form.
fn write_normal(
    book: &Book,
    names: &Names,
    normal: &Normal,
    into: &mut Vec<u8>,
) -> Result<(), AllocError>
    requires lives { Lives book.now normal.now.remainder }
    requires signature { signature_of names.now ≡ book.now.ranking.signature }
{
    write_run(into, &normal.run)?;
    into.extend_from_slice(b"remainder ")?;
    write_poly(book, normal.remainder, names, into)?;
    into.extend_from_slice(b"\n")
}

/// Appends a run that stops.
fn write_attempt(attempt: &Attempt, into: &mut Vec<u8>) -> Result<(), AllocError> {
    write_run(into, &attempt.run)?;
    write_stop(into, attempt.stop)?;
    into.extend_from_slice(b"\n")
}

/// Appends the factors of a preparation.
fn write_factors(
    book: &Book,
    names: &Names,
    factors: &[Poly],
    into: &mut Vec<u8>,
) -> Result<(), AllocError>
    requires factors { LiveAll book.now factors.now }
    requires signature { signature_of names.now ≡ book.now.ranking.signature }
{
    for k in 0..factors.len() {
        into.extend_from_slice(b"multiplier ")?;
        write_poly(book, factors[k], names, into)?;
        into.extend_from_slice(b"\n")?;
    }
    Ok(())
}

/// Appends the terms of a preparation.
fn write_terms(
    book: &Book,
    names: &Names,
    terms: &[PreparedTerm],
    into: &mut Vec<u8>,
) -> Result<(), AllocError>
    requires terms { LiveTerms book.now terms.now }
    requires signature { signature_of names.now ≡ book.now.ranking.signature }
{
    'terms: for k in 0..terms.len() {
        let term = &terms[k];
        into.extend_from_slice(b"term")?;
        write_product(into, &term.product)?;
        into.extend_from_slice(b" times ")?;
        write_poly(book, term.coefficient, names, into)?;
        into.extend_from_slice(b"\n")?;
    }
    Ok(())
}

/// Appends a preparation.
fn write_preparation(
    book: &Book,
    names: &Names,
    preparation: &Preparation,
    into: &mut Vec<u8>,
) -> Result<(), AllocError>
    requires lives { LivesPreparation book.now preparation.now }
    requires signature { signature_of names.now ≡ book.now.ranking.signature }
{
    write_factors(book, names, &preparation.factors, into)?;
    write_terms(book, names, &preparation.terms, into)
}

/// Appends a preparation that stops.
fn write_prepare_attempt(
    book: &Book,
    names: &Names,
    attempt: &PrepareAttempt,
    into: &mut Vec<u8>,
) -> Result<(), AllocError>
    requires lives { LivesPreparation book.now attempt.now.partial }
    requires signature { signature_of names.now ≡ book.now.ranking.signature }
{
    write_preparation(book, names, &attempt.partial, into)?;
    write_stop(into, attempt.stop)?;
    into.extend_from_slice(b" at")?;
    write_product(into, &attempt.product)?;
    into.extend_from_slice(b"\n")
}

/// What is told by one chain.
#[derive(Clone, Copy, Debug, PartialEq, Eq)]
pub(crate) enum ByChain {
    Normal,
    Preparation,
}

/// Appends what is told of a polynomial by a chain; the book is as before.
fn tell_by_chain(
    alloc: Global,
    book: &mut Book,
    names: &Names,
    what: ByChain,
    f: Poly,
    chain: &State,
    budget: u32,
    into: &mut Vec<u8>,
) -> Result<(), AllocError>
    requires f { Lives book.old f }
    requires chain { StandsIn book.old chain.now }
    requires signature { signature_of names.now ≡ book.old.ranking.signature }
    ensures { book.new ≡ book.old }
{
    let mark = book.mark();
    let told = match what {
        ByChain::Normal => match normal_form(alloc, book, f, chain, budget) {
            Ok(normal) => write_normal(book, names, &normal, into),
            Err(attempt) => write_attempt(&attempt, into),
        },
        ByChain::Preparation => match prepare(alloc, book, f, chain, budget) {
            Ok(preparation) => write_preparation(book, names, &preparation, into),
            Err(attempt) => write_prepare_attempt(book, names, &attempt, into),
        },
    };
    book.restore(mark);
    told
}

/// Appends what is told of a polynomial by each chain; the book is as before.
pub(crate) fn tell_by_chains(
    alloc: Global,
    book: &mut Book,
    names: &Names,
    what: ByChain,
    f: Poly,
    chains: &[State],
    budget: u32,
    into: &mut Vec<u8>,
) -> Result<(), AllocError>
    requires f { Lives book.old f }
    requires chains { All (λ s. StandsIn book.old s) chains.now }
    requires signature { signature_of names.now ≡ book.old.ranking.signature }
    ensures { book.new ≡ book.old }
{
    'chains: for k in 0..chains.len() {
        into.extend_from_slice(b"chain ")?;
        write_number(into, k + 1)?;
        into.extend_from_slice(b"\n")?;
        tell_by_chain(alloc, book, names, what, f, &chains[k], budget, into)?;
    }
    Ok(())
}
