//! Items, and one expression that fills a text.

ghost use Rattle.std.specs.Prelude.{◌≡◌, ℕ, List, IfOk, Ok};
ghost use Rattle.dz_syntax.specs.Names.{Declared, signature_of};
ghost use Rattle.dz_syntax.specs.Postfix.{IsExpression};
ghost use Rattle.dz_syntax.specs.declared.expression.Op.{Op};
ghost use Rattle.dz_syntax.specs.Faults.{Gives};
ghost use Rattle.dz_syntax.specs.Items.{Answers, IsItem, item_at, item_of};

use crate::expression::{Op, poly};
use crate::fault::{Stop, SyntaxFault, SyntaxKind, unexpected};
use crate::names::Names;
use crate::token::{Token, next, skip};
use std::alloc::Global;
use std::marker::Model;

/// So many parentheses may stand inside one another.
pub(crate) const LEVELS: u8 = 64;

/// An expression, seen as the list of its steps in postfix order.
#[derive(Drop)]
pub struct Item {
    steps: Vec<Op>,
}

impl Model for Item {
    ghost use Rattle.std.specs.Prelude.{List};
    ghost use Rattle.dz_syntax.specs.declared.expression.Op.{Op};

    ghost Value = { List Op };

    ghost view = { λ item. item.steps.items };
}

impl Item {
    ghost use Rattle.std.specs.Prelude.{◌≡◌};

    pub(crate) fn new(steps: Vec<Op>) -> Item
        ensures { result ≡ steps.items }
    {
        Item { steps }
    }

    /// The steps in postfix order.
    pub fn steps(&self) -> &[Op]
        ensures { result.now ≡ self.now }
    {
        &self.steps
    }
}

// Reads one expression, behind which the bytes end.
#[tactic(auto, unfolding(crate::specs::Items::item_at))]
fn whole_item(alloc: Global, names: &Names, bytes: &[u8]) -> Result<Item, Stop>
    ensures { Gives (λ item. item) result (item_at names.now bytes.now) }
{
    let mut steps = Vec::new(alloc);
    let text = poly(names, LEVELS, &mut steps, skip(bytes))?;
    match next(text) {
        (Token::Nothing, _) => Ok(Item::new(steps)),
        (token, _) => Err(unexpected(text, token)),
    }
}

// The same, with the place of a fault.
#[tactic(auto, unfolding(crate::specs::Items::item_of))]
fn placed_item(alloc: Global, names: &Names, bytes: &[u8]) -> Result<Item, SyntaxFault>
    ensures { Answers (λ item. item) result (item_of names.now bytes.now) }
{
    match whole_item(alloc, names, bytes) {
        Ok(item) => Ok(item),
        Err(Stop::Memory) => Err(SyntaxFault {
            place: 0,
            kind: SyntaxKind::Memory,
        }),
        Err(Stop::Fault(fault)) => Err(SyntaxFault {
            place: bytes.len().saturating_sub(fault.left),
            kind: fault.kind,
        }),
    }
}

/// Reads one expression, a `poly` of the grammar, that fills the bytes.
pub fn read_item(alloc: Global, names: &Names, bytes: &[u8]) -> Result<Item, SyntaxFault>
    // What is read is in the grammar.
    ensures found { IfOk result (λ item. IsItem names.now bytes.now item) }
    // What is in the grammar is read, unless memory runs out.
    ensures only { (steps : List Op) → IsItem names.now bytes.now steps
        → Answers (λ item. item) result (Ok steps) }
    // Which fault it is.
    ensures exact { Answers (λ item. item) result (item_of names.now bytes.now) }
    // What is read is one expression over the declared names.
    ensures expression { IfOk result (λ item. IsExpression (signature_of names.now) item) }
{
    placed_item(alloc, names, bytes)
}

/// A text is at most one expression. The law is for contracts alone: the call does nothing when it
/// runs.
pub fn one_reading()
    ensures { (names : Declared) (bytes : List ℕ) (a b : List Op)
        → IsItem names bytes a → IsItem names bytes b → a ≡ b }
{}
