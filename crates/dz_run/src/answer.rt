// What the program answers to its words and its input.
ghost use Rattle.std.specs.Prelude.{◌≡◌, IfOk};
ghost use Rattle.dz_syntax.specs.Names.{signature_of};
ghost use Rattle.dz_syntax.specs.Systems.{HasExpressions, HasValues, system_of, tree_of};
ghost use Rattle.dz_words.specs.Words.{IsInRange};
ghost use Rattle.dz_run.specs.Answer.{answer_of};
ghost use Rattle.dz_run.specs.System.{ranking_of};
ghost use Rattle.dz_run.specs.Verbs.{answer_to, form_of, reading_told, verb_told};

use crate::asking::asked_told;
use crate::charting::{Chart, charted};
use crate::checking::checked;
use crate::decomposing::decomposed;
use crate::ending::Ending;
use crate::sampling::sampled;
use crate::told::Told;
use dz_poly::Book;
use dz_rank::{RankFault, Ranking};
use dz_report::Asked;
use dz_syntax::{Form, SyntaxKind, SystemTree, read_system};
use dz_words::{Request, Verb};
use std::alloc::{AllocError, Global};

/// The form of a verb's input; `sample` makes its system, and reads nothing.
pub(crate) fn form_of(verb: Verb) -> Option<Form>
    ensures { result ≡ form_of verb }
{
    match verb {
        Verb::Decompose | Verb::Parametric => Some(Form::Plain),
        Verb::Check => Some(Form::Document),
        Verb::Reduce | Verb::Prepare => Some(Form::Questions),
        Verb::Series => Some(Form::Values),
        Verb::Sample => None,
    }
}

/// The answer of a verb to a text that was read of these bytes.
fn verb_told(
    alloc: Global,
    request: Request,
    bytes: &[u8],
    book: &mut Book,
    text: &SystemTree,
) -> Result<Told, AllocError>
    requires ranking { book.old.ranking ≡ ranking_of (tree_of text.now) }
    requires expressions { HasExpressions (tree_of text.now) }
    requires values { HasValues (tree_of text.now) }
    requires signature { text.now.signature ≡ signature_of text.now.names }
    requires request { IsInRange request }
    ensures { IfOk result (λ told. answer_of told
        ≡ verb_told request.verb request bytes.now (tree_of text.now)) }
{
    match request.verb {
        Verb::Decompose => decomposed(alloc, book, text, request.budget),
        Verb::Check => checked(alloc, book, text, bytes),
        Verb::Reduce => asked_told(alloc, book, text, Asked::Reductions, request.budget),
        Verb::Prepare => asked_told(alloc, book, text, Asked::Preparations, request.budget),
        Verb::Series => charted(alloc, book, text, Chart::Series, request),
        Verb::Parametric => charted(alloc, book, text, Chart::Parametric, request),
        Verb::Sample => sampled(alloc, request.seed, request.size),
    }
}

/// The answer to the bytes of an input in a form.
fn input_told(alloc: Global, request: Request, bytes: &[u8], form: Form) -> Result<Told, AllocError>
    requires request { IsInRange request }
    ensures { IfOk result (λ told. answer_of told
        ≡ reading_told request bytes.now (system_of form bytes.now)) }
{
    let tree = match read_system(alloc, bytes, form) {
        Ok(tree) => tree,
        Err(fault) => match fault.kind {
            SyntaxKind::Memory => return Err(AllocError),
            _ => return Ok(Told::silent(alloc, Ending::Syntax(fault))),
        },
    };
    let ranking = match Ranking::new(alloc, tree.signature, &tree.blocks) {
        Ok(ranking) => ranking,
        Err(RankFault::Memory) => return Err(AllocError),
        // The blocks name each dependent once.
        Err(RankFault::Twice(_)) => unreachable!(),
        Err(RankFault::Missing(_)) => unreachable!(),
    };
    let mut book = Book::new(alloc, ranking);
    verb_told(alloc, request, bytes, &mut book, &tree)
}

/// The answer to words that ask for this, and to the bytes of an input.
#[tactic(auto, unfolding(crate::specs::Verbs::answer_to))]
pub(crate) fn answer(alloc: Global, request: Request, bytes: &[u8]) -> Result<Told, AllocError>
    requires request { IsInRange request }
    ensures { IfOk result (λ told. answer_of told ≡ answer_to request bytes.now) }
{
    match form_of(request.verb) {
        Some(form) => input_told(alloc, request, bytes, form),
        None => sampled(alloc, request.seed, request.size),
    }
}
