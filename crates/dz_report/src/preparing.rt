//! Writing the preparations of one question.

ghost use Rattle.std.specs.Prelude.{◌≡◌, ◌≢◌, ◌∷◌, ◌++◌, [], codes, map, IfOk, OnOk};
ghost use Rattle.dz_rank.specs.Symbols.{IsOperatorOf};
ghost use Rattle.dz_poly.specs.Books.{IsKept, Lives, polynomial};
ghost use Rattle.dz_monomials.specs.Lists.{AllOf};
ghost use Rattle.dz_diff.specs.Operations.{Setting, setting_of};
ghost use Rattle.dz_diff.specs.State.{State as Chain};
ghost use Rattle.dz_diff.specs.States.{StandsIn, state_in};
ghost use Rattle.dz_syntax.specs.Names.{signature_of};
ghost use Rattle.dz_ask.specs.AnswerOperators.{PowersDeriveAlong, PreparationDerivesAlong};
ghost use Rattle.dz_ask.specs.AnswerOperators.{PrepareAttemptDerivesAlong};
ghost use Rattle.dz_ask.specs.Attempts.{IsPreparationAttempt, LiveTerms, LivesPreparation, Names as Named};
ghost use Rattle.dz_ask.specs.Attempts.{power_in, prepared_in, term_in};
ghost use Rattle.dz_ask.specs.declared.preparing.PreparedTerm.{PreparedTerm as TermValue};
ghost use Rattle.dz_ask.specs.Turns.{Course, preparation};
ghost use Rattle.dz_cert.specs.Documents.{ended_lines, numbered};
ghost use Rattle.dz_cert.specs.LineTexts.{behind_blanks, step_text};
ghost use Rattle.dz_step.specs.declared.Step.{Step as StepValue};
ghost use Rattle.dz_step.specs.declared.attempts.AttemptStop.TheVariants.{Memory};
ghost use Rattle.dz_report.specs.Asked.{CanBeAsked};
ghost use Rattle.dz_report.specs.Preparations.{power_text, prepared_lines, prepared_report};
ghost use Rattle.dz_report.specs.Preparations.{product_words, term_line, turns_report};
ghost use Rattle.dz_report.specs.Reports.{◌then◌, told};
ghost use Rattle.dz_report.specs.Writing.{IsReported, stop_report};

use crate::ReportEnd;
use crate::asked::AskedChains;
use crate::lines::push_chain;
use crate::stops::write_why;
use dz_ask::{Power, Preparation, PrepareAttempt, PreparedTerm, prepare};
use dz_cert::{write_members, write_step};
use dz_form::write_poly;
use dz_poly::{Book, Poly};
use dz_step::{State, Step};
use dz_syntax::Names;
use itoa::Buffer;
use std::alloc::{AllocError, Global};

/// Appends a power behind a blank.
fn push_power(into: &mut Vec<u8>, names: &Names, power: Power) -> Result<(), AllocError>
    requires { IsOperatorOf names.now.independents power.operator }
    ensures { OnOk result (into.new.items ≡ into.old.items
        ++ behind_blanks (power_text names.now (power_in power) ∷ [])) }
{
    let mut buffer = Buffer::new();
    let step = Step {
        place: power.place,
        operator: power.operator,
    };
    write_step(step, names, into)?;
    into.extend_from_slice(b"^")?;
    into.extend_from_slice(buffer.format(power.exponent).as_bytes())
}

/// Appends powers, each behind a blank.
fn push_powers(into: &mut Vec<u8>, names: &Names, powers: &[Power]) -> Result<(), AllocError>
    requires { PowersDeriveAlong names.now.independents powers.now }
    ensures { OnOk result (into.new.items ≡ into.old.items
        ++ behind_blanks (map (λ p. power_text names.now p) (map power_in powers.now))) }
{
    'powers: for power in powers {
        push_power(into, names, *power)?;
    }
    Ok(())
}

/// Appends the words of a product, each behind a blank.
fn push_product(into: &mut Vec<u8>, names: &Names, product: &[Power]) -> Result<(), AllocError>
    requires { PowersDeriveAlong names.now.independents product.now }
    ensures { OnOk result (into.new.items ≡ into.old.items
        ++ behind_blanks (product_words names.now (map power_in product.now))) }
{
    if product.is_empty() {
        return into.extend_from_slice(b" -");
    }
    push_powers(into, names, product)
}

/// Appends the line of a term.
fn push_term(
    into: &mut Vec<u8>,
    names: &Names,
    book: &Book,
    term: &PreparedTerm,
) -> Result<(), AllocError>
    requires product { PowersDeriveAlong names.now.independents term.now.product.items }
    requires coefficient { Lives book.now term.now.coefficient }
    requires signature { signature_of names.now ≡ book.now.ranking.signature }
    ensures { OnOk result (into.new.items ≡ into.old.items
        ++ ended_lines (term_line names.now (term_in book.now term.now) ∷ [])) }
{
    into.extend_from_slice(b"term")?;
    push_product(into, names, &term.product)?;
    into.extend_from_slice(b" times ")?;
    write_poly(book, term.coefficient, names, into)?;
    into.extend_from_slice(b"\n")?;
    Ok(())
}

/// Appends the lines of terms.
fn push_terms(
    into: &mut Vec<u8>,
    names: &Names,
    book: &Book,
    terms: &[PreparedTerm],
) -> Result<(), AllocError>
    requires products { AllOf (λ (t : TermValue). PowersDeriveAlong names.now.independents t.product.items)
        terms.now }
    requires coefficients { LiveTerms book.now terms.now }
    requires signature { signature_of names.now ≡ book.now.ranking.signature }
    ensures { OnOk result (into.new.items ≡ into.old.items ++ ended_lines
        (map (λ t. term_line names.now t) (map (term_in book.now) terms.now))) }
{
    'terms: for term in terms {
        push_term(into, names, book, term)?;
    }
    Ok(())
}

/// Appends the lines of the factors and the terms of a preparation.
fn push_identity(
    into: &mut Vec<u8>,
    names: &Names,
    book: &Book,
    prepared: &Preparation,
) -> Result<(), AllocError>
    requires products { PreparationDerivesAlong names.now.independents prepared.now }
    requires lives { LivesPreparation book.now prepared.now }
    requires signature { signature_of names.now ≡ book.now.ranking.signature }
    ensures { OnOk result (into.new.items ≡ into.old.items
        ++ ended_lines (prepared_lines names.now (prepared_in book.now prepared.now))) }
{
    write_members(b"multiplier", book, &prepared.factors, names, into)?;
    push_terms(into, names, book, &prepared.terms)?;
    Ok(())
}

/// Appends the line of the turn at which a preparation stops.
fn push_stop(
    into: &mut Vec<u8>,
    names: &Names,
    attempt: &PrepareAttempt,
) -> Result<ReportEnd, AllocError>
    requires { PrepareAttemptDerivesAlong names.now.independents attempt.now }
    ensures reported { IfOk result (λ end. (st : StepValue) → Named attempt.now.stop st
        → IsReported into.old.items into.new.items end (stop_report attempt.now.stop
        (product_words names.now (map power_in attempt.now.product.items)
        ++ codes "by" ∷ step_text names.now st ∷ []))) }
    ensures named { IfOk result (λ end. attempt.now.stop ≢ Memory) }
{
    let stopped = write_why(attempt.stop, into)?;
    push_product(into, names, &attempt.product)?;
    into.extend_from_slice(b" by")?;
    write_step(stopped.step, names, into)?;
    into.extend_from_slice(b"\n")?;
    Ok(stopped.end)
}

/// Appends the identity at which a preparation stops, and its stop.
fn push_partial(
    into: &mut Vec<u8>,
    names: &Names,
    book: &Book,
    attempt: &PrepareAttempt,
) -> Result<ReportEnd, AllocError>
    requires derives { PrepareAttemptDerivesAlong names.now.independents attempt.now }
    requires lives { LivesPreparation book.now attempt.now.partial }
    requires signature { signature_of names.now ≡ book.now.ranking.signature }
    ensures { IfOk result (λ end. (g : Setting) (s : Chain) (course : Course)
        → IsPreparationAttempt g s book.now course attempt.now
        → IsReported into.old.items into.new.items end (turns_report g s names.now course)) }
{
    push_identity(into, names, book, &attempt.partial)?;
    let end = push_stop(into, names, attempt)?;
    Ok(end)
}

/// Appends the preparation of `f` by a chain, whose polynomials stay in the book.
fn push_kept_preparation(
    alloc: Global,
    book: &mut Book,
    names: &Names,
    f: Poly,
    chain: &State,
    budget: u32,
    into: &mut Vec<u8>,
) -> Result<ReportEnd, AllocError>
    requires f { Lives book.old f }
    requires chain { StandsIn book.old chain.now }
    requires signature { signature_of names.now ≡ book.old.ranking.signature }
    ensures reported { IfOk result (λ end. IsReported into.old.items into.new.items end
        (turns_report (setting_of book.old.ranking) (state_in book.old chain.now) names.now
        (preparation (setting_of book.old.ranking) (state_in book.old chain.now) budget
        (polynomial book.old f)))) }
    ensures kept { IsKept book.old book.new }
{
    match prepare(alloc, book, f, chain, budget) {
        Ok(prepared) => {
            push_identity(into, names, book, &prepared)?;
            Ok(ReportEnd::Done)
        }
        Err(attempt) => push_partial(into, names, book, &attempt),
    }
}

/// Appends the number of a chain, and the preparation of `f` by it; the book is as before.
fn push_preparation_by(
    alloc: Global,
    book: &mut Book,
    names: &Names,
    f: Poly,
    number: usize,
    chain: &State,
    budget: u32,
    into: &mut Vec<u8>,
) -> Result<ReportEnd, AllocError>
    requires f { Lives book.old f }
    requires chain { StandsIn book.old chain.now }
    requires signature { signature_of names.now ≡ book.old.ranking.signature }
    ensures reported { IfOk result (λ end. IsReported into.old.items into.new.items end
        (told (numbered (codes "chain") number ∷ []) then turns_report
        (setting_of book.old.ranking) (state_in book.old chain.now) names.now
        (preparation (setting_of book.old.ranking) (state_in book.old chain.now) budget
        (polynomial book.old f)))) }
    ensures book { book.new ≡ book.old }
{
    push_chain(into, number)?;
    let mark = book.mark();
    let end = push_kept_preparation(alloc, book, names, f, chain, budget, into);
    book.restore(mark);
    end
}

/// Appends the preparations of a question by chains, up to the first that stops.
#[tactic(auto, unfolding(crate::specs::Preparations::prepared_report))]
pub(crate) fn push_preparation(
    alloc: Global,
    book: &mut Book,
    asked: &AskedChains<'_>,
    f: Poly,
    into: &mut Vec<u8>,
) -> Result<ReportEnd, AllocError>
    requires f { Lives book.old f }
    requires asked { CanBeAsked book.old asked.now.names.now asked.now.chains.now }
    ensures reported { IfOk result (λ end. IsReported into.old.items into.new.items end
        (prepared_report (setting_of book.old.ranking) asked.now.names.now
        asked.now.budget (map (λ s. state_in book.old s) asked.now.chains.now)
        (polynomial book.old f))) }
    ensures book { book.new ≡ book.old }
{
    let AskedChains {
        names,
        chains,
        budget,
    } = *asked;
    'chains: for k in 0..chains.len() {
        let end = push_preparation_by(alloc, book, names, f, k + 1, &chains[k], budget, into)?;
        if end.stops() {
            return Ok(end);
        }
    }
    Ok(ReportEnd::Done)
}
