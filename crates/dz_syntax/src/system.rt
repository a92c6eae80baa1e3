//! Whole systems.

ghost use Rattle.std.specs.Prelude.{◌≡◌, [], ℕ, List, IfOk, Ok};
ghost use Rattle.dz_rank.specs.Rankings.{IsRanking, block_values};
ghost use Rattle.dz_syntax.specs.Faults.{Gives};
ghost use Rattle.dz_syntax.specs.Following.{IsFollowed};
ghost use Rattle.dz_syntax.specs.Names.{no_names, signature_of};
ghost use Rattle.dz_syntax.specs.Items.{Answers};
ghost use Rattle.dz_syntax.specs.Systems.{HasExpressions, HasFunctions, HasValues, Tree, header_at};
ghost use Rattle.dz_syntax.specs.Systems.{system_at, system_of, tree_of};
ghost use Rattle.dz_syntax.specs.SystemGrammar.{IsSystem};
ghost use Rattle.dz_syntax.specs.declared.endings.Form.{Form};
ghost use Rattle.dz_syntax.specs.declared.endings.Form.TheVariants.{Plain};

use crate::blocks::{blocks, independents};
use crate::endings::{Form, rest};
use crate::fault::{Stop, SyntaxFault, SyntaxKind};
use crate::item::Item;
use crate::marks::{Section, expected, ranking};
use crate::names::Names;
use crate::sections::section;
use crate::token::skip;
use dz_int::Frac;
use dz_rank::{Block, Signature, Symbol};
use std::alloc::Global;

/// A system of differential polynomials as it is written, and what follows it in its form.
#[derive(Drop)]
pub struct SystemTree {
    pub names: Names,
    /// How many independents and how many dependents are declared.
    pub signature: Signature,
    /// The blocks of the ranking, the greatest first.
    pub blocks: Vec<Block>,
    pub equations: Vec<Item>,
    pub inequations: Vec<Item>,
    /// The questions of the form with questions; else none.
    pub questions: Vec<Item>,
    /// The values of the form with values; else none.
    pub values: Vec<(Symbol, Frac)>,
    /// The functions of the form with functions, by the numbers of their dependents; else none.
    pub functions: Vec<(u8, Item)>,
    /// The place at which the document of the form with a document begins; else 0.
    pub document: usize,
}

// Reads the independents and the blocks.
#[tactic(auto, unfolding(crate::specs::Systems::header_at))]
fn header<'a>(
    alloc: Global,
    names: &mut Names,
    into: &mut Vec<Block>,
    text: &'a [u8],
) -> Result<&'a [u8], Stop>
    requires names { names.old ≡ no_names }
    requires blocks { into.old.items ≡ [] }
    ensures read { Gives (λ t. (names.new, block_values into.new.items, t.now)) result
        (header_at names.old text.now) }
{
    let text = independents(alloc, names, text)?;
    let text = expected(ranking(text), text)?;
    blocks(alloc, names, into, text)
}

// Reads a system and what follows it.
#[tactic(auto, unfolding(crate::specs::Systems::system_at))]
fn system(alloc: Global, bytes: &[u8], form: Form) -> Result<SystemTree, Stop>
    ensures { Gives (λ t. tree_of t) result (system_at form bytes.now) }
{
    let mut names = Names::new(alloc);
    let mut blocks = Vec::new(alloc);
    let text = header(alloc, &mut names, &mut blocks, skip(bytes))?;
    let (equations, text) = section(alloc, Section::Equations, &names, text)?;
    let (inequations, text) = section(alloc, Section::Inequations, &names, text)?;
    let ending = rest(alloc, form, bytes.len(), &names, text)?;
    Ok(SystemTree {
        signature: names.signature(),
        names,
        blocks,
        equations,
        inequations,
        questions: ending.questions,
        values: ending.values,
        functions: ending.functions,
        document: ending.document,
    })
}

// The same, with the place of a fault.
#[tactic(auto, unfolding(crate::specs::Systems::system_of))]
fn placed_system(alloc: Global, bytes: &[u8], form: Form) -> Result<SystemTree, SyntaxFault>
    ensures { Answers (λ t. tree_of t) result (system_of form bytes.now) }
{
    match system(alloc, bytes, form) {
        Ok(tree) => Ok(tree),
        Err(Stop::Memory) => Err(SyntaxFault {
            place: 0,
            kind: SyntaxKind::Memory,
        }),
        Err(Stop::Fault(fault)) => Err(SyntaxFault {
            place: bytes.len().saturating_sub(fault.left),
            kind: fault.kind,
        }),
    }
}

/// Reads a system text in a form: the one tree that the grammar derives from it, or the first
/// fault.
pub fn read_system(alloc: Global, bytes: &[u8], form: Form) -> Result<SystemTree, SyntaxFault>
    // What is read is in the grammar.
    ensures found { IfOk result (λ t. IsSystem form bytes.now (tree_of t)) }
    // What is in the grammar is read, unless memory runs out.
    ensures only { (tree : Tree) → IsSystem form bytes.now tree
        → Answers (λ t. tree_of t) result (Ok tree) }
    // Which fault it is.
    ensures exact { Answers (λ t. tree_of t) result (system_of form bytes.now) }
    // What is read has items that are expressions over the declared names.
    ensures expressions { IfOk result (λ t. HasExpressions (tree_of t)) }
    // What is read has values of distinct symbols of the signature.
    ensures values { IfOk result (λ t. HasValues (tree_of t)) }
    // What is read has functions of distinct dependents, which are expressions in independents alone.
    ensures functions { IfOk result (λ t. HasFunctions (tree_of t)) }
    // The blocks that are read name each dependent of the signature exactly once.
    ensures ranking { IfOk result (λ t. IsRanking
        (record { signature = (tree_of t).signature; blocks = (tree_of t).blocks })) }
    // The signature counts the names.
    ensures signature { IfOk result (λ t. t.signature ≡ signature_of t.names) }
{
    placed_system(alloc, bytes, form)
}

/// A text has at most one tree in a form. The law is for contracts alone: the call does nothing
/// when it runs.
pub fn one_tree()
    ensures { (form : Form) (bytes : List ℕ) (a b : Tree)
        → IsSystem form bytes a → IsSystem form bytes b → a ≡ b }
{}

/// Behind the `end` of a plain system a line feed and any document may stand, and the system means the
/// same. The law is for contracts alone: the call does nothing when it runs.
pub fn documents_follow()
    ensures { (bytes : List ℕ) (tree : Tree) → IsSystem Plain bytes tree → IsFollowed bytes tree }
{}
