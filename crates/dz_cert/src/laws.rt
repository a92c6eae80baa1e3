//! The laws of documents, for contracts alone: the calls do nothing when they run.

ghost use Rattle.std.specs.Prelude.{◌≡◌, true, ℕ, List, Some, ◌↔◌};
ghost use Rattle.dz_cert.specs.Documents.{ChainTexts, IsDocument};
ghost use Rattle.dz_cert.specs.Examples.{DocumentExamples, FaultExamples};
ghost use Rattle.dz_cert.specs.Laws.{DocumentLaws, VerdictLaws};
ghost use Rattle.dz_cert.specs.LineReading.{line_at};
ghost use Rattle.dz_cert.specs.LineTexts.{IsLineOf, line_text};
ghost use Rattle.dz_diff.specs.Operations.{Setting};
ghost use Rattle.dz_syntax.specs.Names.{Declared, IsDeclared};
ghost use Rattle.dz_tree.specs.Forms.{IsTree, is_spelled};
ghost use Rattle.dz_move.specs.Lines.{Line};
ghost use Rattle.dz_move.specs.Root.{System};
ghost use Rattle.dz_tree.specs.Trees.{Tree};

/// A line is read from a text exactly where it is a line of the names with this text.
pub fn lines_are_read()
    ensures { (names : Declared) (text : List ℕ) (line : Line) → IsDeclared names
        → (line_at names text ≡ Some line)
        ↔ ((is_spelled line ≡ true) × IsLineOf names line × (line_text names line ≡ text)) }
{}

/// Two lines that have one text are one line.
pub fn one_line()
    ensures { (names : Declared) (l m : Line) → IsDeclared names
        → is_spelled l ≡ true → IsLineOf names l → is_spelled m ≡ true → IsLineOf names m
        → line_text names l ≡ line_text names m → l ≡ m }
{}

/// Two documents with the same bytes have one tree, and one text for each member of each chain.
pub fn one_document()
    ensures { (names : Declared) (bytes : List ℕ) (t u : Tree) (cs ds : List ChainTexts)
        → IsDeclared names → IsDocument names t cs bytes → IsDocument names u ds bytes
        → (t ≡ u) × (cs ≡ ds) }
{}

/// A document is accepted or partial exactly where its tree is certified and its texts are
/// canonical, and then its bytes are the document of the tree; otherwise the first fault is told.
pub fn documents_are_judged()
    ensures { (g : Setting) (names : Declared) (system : System) (tree : Tree)
        (chains : List ChainTexts) → IsTree tree → VerdictLaws g names system tree chains }
{}

/// The document of a certified tree spells it, and two certified trees with one document are equal.
#[tactic(auto, using(crate::proofs::WrittenDocuments::document_laws))]
pub fn certified_trees_are_spelled()
    ensures { (names : Declared) → IsDeclared names → DocumentLaws names }
{}

/// The documents of two systems, computed.
#[tactic(auto, using(crate::proofs::ExampleProofs::document_examples))]
pub fn worked_documents()
    ensures { DocumentExamples }
{}

/// The first faults of some bytes, computed.
#[tactic(auto, using(crate::proofs::ExampleProofs::fault_examples))]
pub fn worked_faults()
    ensures { FaultExamples }
{}
