//! The reading of system text: the one tree that the grammar derives, or the first fault with its
//! place and kind.
#![tactic(auto)]

mod atom;
mod blocks;
mod declaration;
mod endings;
mod expression;
mod fault;
mod functions;
mod item;
mod marks;
mod names;
mod number;
mod sections;
mod system;
mod token;
mod values;

pub use endings::Form;
pub use expression::Op;
pub use fault::{SyntaxFault, SyntaxKind};
pub use item::{Item, one_reading, read_item};
pub use names::Names;
pub use system::{SystemTree, documents_follow, one_tree, read_system};
