// How a run ends.
ghost use Rattle.std.specs.Prelude.{◌≡◌};

use dz_cert::CertFault;
use dz_syntax::SyntaxFault;

/// How a run ends.
#[derive(Clone, Copy, Debug, PartialEq, Eq)]
pub enum Ending {
    /// The whole answer stands on the output.
    Done,
    /// The document is rejected. The output has the verdict.
    Rejected,
    /// The words have no written form.
    NotWritten,
    /// The input is no text of its form, by this first fault.
    Syntax(SyntaxFault),
    /// What follows the system is no document, by this first fault.
    Document(CertFault),
    /// An item does not expand, and the output names it: its first refused operation is wide; or
    /// the first open end of the tree on the output is wide.
    Wide,
    /// The first open end of the tree on the output has spent the budget.
    Spent,
    /// An item does not expand: its first refused operation is too large; or the system has too
    /// many members or terms; or the first open end of the tree on the output is large.
    Large,
    /// The input failed.
    ReadFault,
    /// The output failed.
    WriteFault,
    /// The output took nothing more.
    WriteStuck,
    /// Memory ran out.
    NoMemory,
    /// The input has more bytes than are read.
    TooLong,
    /// There is no series: the chain, the ranking or the point is refused. The output has the
    /// document of the complete tree.
    Point,
}

impl Ending {
    ghost use Rattle.std.specs.Prelude.{◌≡◌};
    ghost use Rattle.dz_run.specs.Ending.{status_of};

    /// The status with which the program ends.
    pub fn status(self) -> u8
        ensures { result ≡ status_of self }
    {
        match self {
            Ending::Done => 0,
            Ending::Rejected => 1,
            Ending::NotWritten => 2,
            Ending::Syntax(_) | Ending::Document(_) => 3,
            Ending::Wide => 4,
            Ending::Spent => 5,
            Ending::Large => 6,
            Ending::ReadFault => 7,
            Ending::WriteFault | Ending::WriteStuck => 8,
            Ending::NoMemory => 9,
            Ending::Point => 10,
            Ending::TooLong => 11,
        }
    }
}
