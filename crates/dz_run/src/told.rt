// An answer to words and an input.
ghost use Rattle.std.specs.Prelude.{◌≡◌, IfOk};
ghost use Rattle.dz_run.specs.Answer.{answer_of, printed, refused_answer, refused_ending, silent};

use crate::ending::Ending;
use crate::system::{Refused, refused_line};
use std::alloc::{AllocError, Global};

/// What is to be printed, how the run ends where the output takes all of it, and the message where a
/// point is refused.
#[derive(Drop)]
pub(crate) struct Told {
    pub output: Vec<u8>,
    pub ending: Ending,
    pub point: Vec<u8>,
}

impl Told {
    ghost use Rattle.std.specs.Prelude.{◌≡◌};
    ghost use Rattle.dz_run.specs.Answer.{answer_of, printed, silent};

    /// This is printed, and no point is refused.
    pub(crate) fn printed(alloc: Global, output: Vec<u8>, ending: Ending) -> Told
        ensures { answer_of result ≡ printed output.items ending }
    {
        Told {
            output,
            ending,
            point: Vec::new(alloc),
        }
    }

    /// Nothing is printed.
    pub(crate) fn silent(alloc: Global, ending: Ending) -> Told
        ensures { answer_of result ≡ silent ending }
    {
        Told::printed(alloc, Vec::new(alloc), ending)
    }
}

/// How the run ends for what is refused.
fn refused_ending(refused: Refused) -> Ending
    ensures { result ≡ refused_ending refused }
{
    match refused {
        Refused::Wide(..) => Ending::Wide,
        Refused::Large(..) | Refused::TooMany(_) => Ending::Large,
    }
}

/// The answer where a text gives no system: the line that names what is refused.
pub(crate) fn refused_answer(alloc: Global, refused: Refused) -> Result<Told, AllocError>
    ensures { IfOk result (λ told. answer_of told ≡ refused_answer refused) }
{
    let output = refused_line(alloc, refused)?;
    Ok(Told::printed(alloc, output, refused_ending(refused)))
}
