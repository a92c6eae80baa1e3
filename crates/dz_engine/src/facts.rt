//! What a search finds out of the equations of a state, which is kept until they change.

ghost use Rattle.std.specs.Prelude.{◌≡◌, ◌≤◌, ◌<◌, ◌+◌, ◌++◌, ◌∷◌, [], ℕ, Result, IfOk, OnOk, length, map, take, slice_index_or};
ghost use Rattle.dz_algebra.specs.Polynomial.{Polynomial};
ghost use Rattle.dz_algebra.specs.Size.{Refusal};
ghost use Rattle.dz_poly.specs.Books.{BookValue, Lives, polynomial};
ghost use Rattle.dz_rank.specs.declared.symbols.Symbol.{Symbol};
ghost use Rattle.dz_terms.specs.Entries.{IsEntry};
ghost use Rattle.dz_monomials.specs.Ranked.{symbols_under};
ghost use Rattle.dz_diff.specs.States.{LiveAll, StandsIn, polynomials, state_in};
ghost use Rattle.dz_step.specs.Divisors.{AreDivisors, IsKeptOf};
ghost use Rattle.dz_step.specs.Step.{multiplier_answer, permitted_if};
ghost use Rattle.dz_step.specs.declared.Role.TheVariants.{Free};
ghost use Rattle.dz_engine.specs.Facts.{AreKnown, IsAnswer, IsKnown, IsMultiplier, is_undivided, names_of};

use dz_diff::{is_among, is_unit, leader_of};
use dz_poly::{Book, Poly, PolyStop};
use dz_rank::Symbol;
use dz_step::{Divisor, State, Which, asked_divisor, multiplier};
use dz_terms::{Entry, into_norm, is_divided};
use std::alloc::AllocError;

/// A multiplier that fits: its norm, and whether it is ground, and ground and not zero.
#[derive(Drop)]
pub(crate) struct Multiplier {
    pub(crate) norm: Entry,
    pub(crate) is_ground: bool,
    pub(crate) is_unit: bool,
}

/// The Delta-polynomial of an equation with another one behind it.
#[derive(Drop)]
pub(crate) struct Delta {
    pub(crate) other: Poly,
    pub(crate) entry: Entry,
}

/// What is found out of an equation: its initial and its separant, where it has a leader, `None` for
/// one that does not fit; whether no symbol divides it; and the Delta-polynomials that were made of it.
#[derive(Drop)]
pub(crate) struct Facts {
    pub(crate) poly: Poly,
    pub(crate) initial: Option<Multiplier>,
    pub(crate) separant: Option<Multiplier>,
    pub(crate) is_undivided: bool,
    pub(crate) deltas: Vec<Delta>,
}

/// What is found out of a multiplier that fits.
fn known(book: &Book, multiplier: Entry) -> Multiplier
    requires { IsEntry book.now.ranking multiplier }
    ensures { IsMultiplier book.now.ranking multiplier.terms result }
{
    // The book is for the contract alone.
    let _ = book;
    let is_unit = is_unit(&multiplier);
    let is_ground = leader_of(&multiplier).is_none();
    Multiplier {
        norm: into_norm(multiplier),
        is_ground,
        is_unit,
    }
}

/// A multiplier of an entry with this leader; `None` where it does not fit.
fn asked(
    book: &Book,
    q: &Entry,
    lead: Symbol,
    which: Which,
) -> Result<Option<Multiplier>, AllocError>
    requires { IsEntry book.now.ranking q.now }
    ensures { IfOk result (λ o. IsAnswer book.now.ranking
        (multiplier_answer (symbols_under book.now.ranking) which lead q.now.terms) o) }
{
    match multiplier(book.allocator(), book.ranking(), q, lead, which) {
        Ok(multiplier) => Ok(Some(known(book, multiplier))),
        Err(PolyStop::Memory) => Err(AllocError),
        Err(_) => Ok(None),
    }
}

/// Whether no symbol divides an entry.
fn is_undivided(book: &Book, q: &Entry) -> bool
    requires { IsEntry book.now.ranking q.now }
    ensures { result ≡ is_undivided (symbols_under book.now.ranking) q.now.terms }
{
    let table = q.symbol_degrees();
    'symbols: for k in 0..table.len() {
        if is_divided(book.ranking(), q, table[k].0) {
            return false;
        }
    }
    true
}

/// What is found out of an equation.
fn found_out(book: &Book, poly: Poly) -> Result<Facts, AllocError>
    requires { Lives book.now poly }
    ensures known { IfOk result (λ f. IsKnown book.now f) }
    ensures name { IfOk result (λ f. f.poly ≡ poly) }
{
    let q = book.entry(poly);
    let is_undivided = is_undivided(book, q);
    let Some(lead) = leader_of(q) else {
        return Ok(Facts {
            poly,
            initial: None,
            separant: None,
            is_undivided,
            deltas: Vec::new(book.allocator()),
        });
    };
    let initial = asked(book, q, lead, Which::Initial)?;
    let separant = asked(book, q, lead, Which::Separant)?;
    Ok(Facts {
        poly,
        initial,
        separant,
        is_undivided,
        deltas: Vec::new(book.allocator()),
    })
}

/// Where there are more facts than equations, takes those at an index away that are not of this one.
fn drop_gone(facts: &mut Vec<Facts>, count: usize, k: usize, poly: Poly)
    requires inside { k ≤ length facts.old.items }
    requires counted { k < count }
    ensures known { (book : BookValue) → AreKnown book facts.old.items
        → AreKnown book facts.new.items }
    ensures inside { k ≤ length facts.new.items }
    ensures names { take k (names_of facts.new.items) ≡ take k (names_of facts.old.items) }
{
    if facts.len() > count && facts[k].poly != poly {
        facts.remove(k);
    }
}

/// Makes the facts at an index be those of an equation.
fn renew_at(book: &Book, facts: &mut Vec<Facts>, k: usize, poly: Poly) -> Result<(), AllocError>
    requires lives { Lives book.now poly }
    requires known { AreKnown book.now facts.old.items }
    requires inside { k ≤ length facts.old.items }
    ensures known { OnOk result (AreKnown book.now facts.new.items) }
    ensures inside { OnOk result (k + 1 ≤ length facts.new.items) }
    ensures names { OnOk result (take (k + 1) (names_of facts.new.items)
        ≡ take k (names_of facts.old.items) ++ poly ∷ []) }
{
    if k == facts.len() {
        facts.push(found_out(book, poly)?)?;
        return Ok(());
    }
    if facts[k].poly == poly {
        return Ok(());
    }
    facts[k] = found_out(book, poly)?;
    Ok(())
}

/// Makes facts be those of the equations of a state. What was found out of them is not found out again.
pub(crate) fn renew(book: &Book, state: &State, facts: &mut Vec<Facts>) -> Result<(), AllocError>
    requires stands { StandsIn book.now state.now }
    requires known { AreKnown book.now facts.old.items }
    ensures known { OnOk result (AreKnown book.now facts.new.items) }
    ensures names { OnOk result (names_of facts.new.items ≡ state.now.equations) }
{
    let polys = state.equations();
    'places: for k in 0..polys.len() {
        drop_gone(facts, polys.len(), k, polys[k]);
        renew_at(book, facts, k, polys[k])?;
    }
    facts.truncate(polys.len());
    Ok(())
}

/// Whether a multiplier fits and is permitted by some inequations.
#[tactic(auto, using(dz_diff::proofs::MemberTests::none_left_out, crate::proofs::KnownFacts::none_granted, crate::proofs::KnownFacts::some_granted))]
fn is_granted(book: &Book, inequations: &[Poly], multiplier: &Option<Multiplier>) -> bool
    requires { LiveAll book.now inequations.now }
    ensures { (answer : Result (Polynomial Symbol) Refusal)
        → IsAnswer book.now.ranking answer multiplier.now
        → result ≡ permitted_if (symbols_under book.now.ranking)
        (polynomials book.now inequations.now) answer }
{
    let Some(multiplier) = multiplier else {
        return false;
    };
    multiplier.is_unit || is_among(book, inequations, 0, &multiplier.norm)
}

/// What is kept of an equation as a divisor.
fn divisor_by(book: &Book, state: &State, facts: &Facts) -> Option<Divisor>
    requires stands { StandsIn book.now state.now }
    requires known { IsKnown book.now facts.now }
    ensures { (place : ℕ) → IsKeptOf book.now.ranking (state_in book.now state.now).inequations
        Free place (polynomial book.now facts.now.poly) result }
{
    let initial = is_granted(book, state.inequations(), &facts.initial);
    let separant = is_granted(book, state.inequations(), &facts.separant);
    asked_divisor(book.ranking(), book.entry(facts.poly), initial, separant)
}

/// What is kept of the equations of a state as divisors.
pub(crate) fn divisors_by(
    book: &Book,
    state: &State,
    facts: &[Facts],
) -> Result<Vec<Option<Divisor>>, AllocError>
    requires stands { StandsIn book.now state.now }
    requires known { AreKnown book.now facts.now }
    requires names { names_of facts.now ≡ state.now.equations }
    ensures { IfOk result (λ table.
        AreDivisors book.now.ranking (state_in book.now state.now) Free table.items) }
{
    let mut table = Vec::new(book.allocator());
    for of_one in facts {
        table.push(divisor_by(book, state, of_one))?;
    }
    Ok(table)
}
