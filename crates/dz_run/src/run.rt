// The top call.
ghost use Rattle.std.specs.Prelude.{◌≡◌, ◌⊎◌, ℕ, List, true, false, map, string_bytes, IfOk, IfErr};
ghost use Rattle.dz_words.specs.Words.{IsWritten};
ghost use Rattle.dz_words.specs.declared.verbs.Verb.TheVariants.{Check, Decompose, Parametric, Prepare, Reduce};
ghost use Rattle.dz_words.specs.declared.words.Request.{Request};
ghost use Rattle.dz_run.specs.Answer.{answer_of};
ghost use Rattle.dz_run.specs.Ending.{IsSilent, message_of, status_of};
ghost use Rattle.dz_run.specs.Headline.{HasCones, IsDecomposed, IsPrepared, IsReduced};
ghost use Rattle.dz_run.specs.Headline.{IsAcceptedInput, IsPartialInput, IsPartlyDecomposed, IsRefusedSystem, IsUnreported};
ghost use Rattle.dz_run.specs.Run.{Ends, IsAnswered, IsReadStop, IsReading, IsTaken, IsTold};
ghost use Rattle.dz_run.specs.Run.{Output, WritesAnswer};
ghost use Rattle.dz_run.specs.Verbs.{has_input};

use crate::answer::{answer, form_of};
use crate::ending::Ending;
use crate::message::write_message;
use crate::told::Told;
use dz_domain::{Domain, Point};
use dz_outside::{ReadStop, Sink, Source, WriteStop, read_all, write_all};
use dz_words::{Request, WordsFault, read_words};
use std::alloc::Global;

/// The most bytes of an input.
const MOST_BYTES: usize = 1_048_576;

/// The bytes of the input; none of a verb that has no input, and then nothing is read.
fn input_bytes<S: Source>(alloc: Global, request: Request, input: &mut S) -> Result<Vec<u8>, Ending>
    ensures taken { IfOk result (λ bytes. IsTaken (has_input request.verb)
        (record { rest = S.rest input.old; faults = S.faults input.old })
        (record { rest = S.rest input.new; faults = S.faults input.new }) bytes.items) }
    ensures stopped { IfErr result (λ ending. (has_input request.verb ≡ true) × IsReadStop
        (record { rest = S.rest input.old; faults = S.faults input.old })
        (record { rest = S.rest input.new; faults = S.faults input.new }) ending) }
    ensures unread { has_input request.verb ≡ false → input.new ≡ input.old }
{
    if form_of(request.verb).is_none() {
        return Ok(Vec::new(alloc));
    }
    match read_all(alloc, input, MOST_BYTES) {
        Ok(bytes) => Ok(bytes),
        Err(ReadStop::Memory) => Err(Ending::NoMemory),
        Err(ReadStop::Failed) => Err(Ending::ReadFault),
        Err(ReadStop::TooLong) => Err(Ending::TooLong),
    }
}

/// Reads the input, and makes the answer to it.
#[tactic(auto, using(dz_words::proofs::Written::written_has_shape))]
fn input_answer<S: Source>(alloc: Global, words: &[String], input: &mut S) -> Result<Told, Ending>
    ensures answered { IfOk result (λ told. IsAnswered (map string_bytes words.now)
        (record { rest = S.rest input.old; faults = S.faults input.old })
        (record { rest = S.rest input.new; faults = S.faults input.new }) (answer_of told)) }
    ensures ended { (out : Output) (point : List ℕ) → IfErr result (λ ending. Ends (map string_bytes words.now)
        (record { rest = S.rest input.old; faults = S.faults input.old })
        (record { rest = S.rest input.new; faults = S.faults input.new }) out out ending point) }
    ensures silent { IfErr result (λ ending. IsSilent ending) }
    ensures unread { (IsReading (map string_bytes words.now) → ⊥) → input.new ≡ input.old }
{
    let request = match read_words(alloc, words) {
        Ok(request) => request,
        Err(WordsFault::Memory) => return Err(Ending::NoMemory),
        Err(WordsFault::NotWritten) => return Err(Ending::NotWritten),
    };
    let bytes = input_bytes(alloc, request, input)?;
    match answer(alloc, request, &bytes) {
        Ok(told) => Ok(told),
        Err(_) => Err(Ending::NoMemory),
    }
}

/// Writes the answer on the output, where there is one to write.
fn write_answer<K: Sink>(out: &mut K, output: &[u8]) -> Result<(), Ending>
    ensures { WritesAnswer (record { written = K.written out.old; faults = K.faults out.old; stalls = K.stalls out.old })
        (record { written = K.written out.new; faults = K.faults out.new; stalls = K.stalls out.new }) output.now result }
{
    match write_all(out, output) {
        Ok(()) => Ok(()),
        Err(WriteStop::Failed) => Err(Ending::WriteFault),
        Err(WriteStop::Stuck) => Err(Ending::WriteStuck),
    }
}

/// Does all the work, and says how it ended, and what is told of a point that is refused.
fn run<S: Source, K: Sink>(
    alloc: Global,
    words: &[String],
    input: &mut S,
    out: &mut K,
) -> (Ending, Vec<u8>)
    ensures ends { Ends (map string_bytes words.now)
        (record { rest = S.rest input.old; faults = S.faults input.old })
        (record { rest = S.rest input.new; faults = S.faults input.new })
        (record { written = K.written out.old; faults = K.faults out.old; stalls = K.stalls out.old })
        (record { written = K.written out.new; faults = K.faults out.new; stalls = K.stalls out.new })
        result.0 result.1.items }
    ensures silent { IsSilent result.0 → out.new ≡ out.old }
    ensures unread { (IsReading (map string_bytes words.now) → ⊥) → input.new ≡ input.old }
{
    let told = match input_answer(alloc, words, input) {
        Ok(told) => told,
        Err(ending) => return (ending, Vec::new(alloc)),
    };
    if told.output.is_empty() {
        return (told.ending, told.point);
    }
    match write_answer(out, &told.output) {
        Ok(()) => (told.ending, told.point),
        Err(ending) => (ending, Vec::new(alloc)),
    }
}

/// Tells on the error output how a run ended, and answers its status; `point` is the message where a
/// point is refused.
pub fn tell<L: Sink>(err: &mut L, ending: Ending, point: &[u8]) -> u8
    ensures status { result ≡ status_of ending }
    ensures told { IsTold (record { written = L.written err.old; faults = L.faults err.old; stalls = L.stalls err.old })
        (record { written = L.written err.new; faults = L.faults err.new; stalls = L.stalls err.new }) (message_of ending point.now) }
{
    // A fault of the error output never changes the status.
    let _ = write_message(err, ending, point);
    ending.status()
}

/// Does all that the program does, and answers its status. No code reads the point.
pub fn blad_run<D: Domain, S: Source, K: Sink, L: Sink>(
    alloc: Global,
    words: &[String],
    input: &mut S,
    out: &mut K,
    err: &mut L,
    at: &Point<D>,
) -> u8
    // The status is that of the way in which the run ended, and the error output has its message.
    ensures ended { (ending : Ending) × (point : List ℕ) × (result ≡ status_of ending)
        × Ends (map string_bytes words.now)
        (record { rest = S.rest input.old; faults = S.faults input.old })
        (record { rest = S.rest input.new; faults = S.faults input.new })
        (record { written = K.written out.old; faults = K.faults out.old; stalls = K.stalls out.old })
        (record { written = K.written out.new; faults = K.faults out.new; stalls = K.stalls out.new }) ending point
        × IsTold (record { written = L.written err.old; faults = L.faults err.old; stalls = L.stalls err.old })
        (record { written = L.written err.new; faults = L.faults err.new; stalls = L.stalls err.new }) (message_of ending point) }
    // Where `decompose` ends with status 0, its output is the document of a complete certified tree for the system that was
    // read. In every differential domain of characteristic zero, at every point that fits, the equations of the system have
    // value zero and no inequation has, exactly when for some printed chain its equations have value zero and none of its
    // initials, separants and inequations has. Each printed chain is autoreduced and coherent.
    ensures headline { result ≡ 0 → (request : Request) → IsWritten (map string_bytes words.now) request
        → request.verb ≡ Decompose → IsDecomposed D.operations at.now request.budget
        (record { rest = S.rest input.old; faults = S.faults input.old })
        (record { rest = S.rest input.new; faults = S.faults input.new }) (K.written out.old) (K.written out.new) }
    // Where it ends with the status 4, 5 or 6, an item is refused, or the output is the document of a certified tree with an open
    // end: the system has the solutions of its chains and open ends together.
    ensures partly { (result ≡ 4) ⊎ ((result ≡ 5) ⊎ (result ≡ 6)) → (request : Request) → IsWritten (map string_bytes words.now) request
        → request.verb ≡ Decompose → IsPartlyDecomposed D.operations at.now request.budget
        (record { rest = S.rest input.old; faults = S.faults input.old })
        (record { rest = S.rest input.new; faults = S.faults input.new }) (K.written out.old) (K.written out.new)
        ⊎ IsRefusedSystem (record { rest = S.rest input.old; faults = S.faults input.old })
        (record { rest = S.rest input.new; faults = S.faults input.new }) (K.written out.old) (K.written out.new) }
    // Where `check` ends with status 0, the input is a system and the document of a certified tree for it. With `accepted` the tree
    // is complete, and means what that of `decompose` does; with `partial` the system has the solutions of the chains and open ends
    // together.
    ensures checked { result ≡ 0 → (request : Request) → IsWritten (map string_bytes words.now) request
        → request.verb ≡ Check → IsAcceptedInput D.operations at.now
        (record { rest = S.rest input.old; faults = S.faults input.old })
        (record { rest = S.rest input.new; faults = S.faults input.new }) (K.written out.old) (K.written out.new)
        ⊎ IsPartialInput D.operations at.now (record { rest = S.rest input.old; faults = S.faults input.old })
        (record { rest = S.rest input.new; faults = S.faults input.new }) (K.written out.old) (K.written out.new) }
    // Where `reduce` ends with status 0, its output is such a document for the system that was read, and the report of the full
    // runs on the questions by its chains. A question of which it says `vanishing yes` has value zero at every point that fits
    // and solves the system.
    ensures vanishing { result ≡ 0 → (request : Request) → IsWritten (map string_bytes words.now) request
        → request.verb ≡ Reduce → IsReduced D.operations at.now request.budget
        (record { rest = S.rest input.old; faults = S.faults input.old })
        (record { rest = S.rest input.new; faults = S.faults input.new }) (K.written out.old) (K.written out.new) }
    // Where it ends with the status 4, 5 or 6, the same holds of what is told before the report stops, where there is a report: else
    // an item is refused, or the tree has an open end.
    ensures vanishing_told { (result ≡ 4) ⊎ ((result ≡ 5) ⊎ (result ≡ 6)) → (request : Request) → IsWritten (map string_bytes words.now) request
        → request.verb ≡ Reduce → IsReduced D.operations at.now request.budget
        (record { rest = S.rest input.old; faults = S.faults input.old })
        (record { rest = S.rest input.new; faults = S.faults input.new }) (K.written out.old) (K.written out.new)
        ⊎ IsUnreported request.budget (record { rest = S.rest input.old; faults = S.faults input.old })
        (record { rest = S.rest input.new; faults = S.faults input.new }) (K.written out.old) (K.written out.new) }
    // Where `prepare` ends with status 0, its output is such a document, and the report of the preparations of the questions by its
    // chains. Each identity that is printed holds; also where the status is 4, 5 or 6, of those that are printed before the
    // report stops.
    ensures prepared { result ≡ 0 → (request : Request) → IsWritten (map string_bytes words.now) request
        → request.verb ≡ Prepare → IsPrepared request.budget
        (record { rest = S.rest input.old; faults = S.faults input.old })
        (record { rest = S.rest input.new; faults = S.faults input.new }) (K.written out.old) (K.written out.new) }
    ensures prepared_told { (result ≡ 4) ⊎ ((result ≡ 5) ⊎ (result ≡ 6)) → (request : Request) → IsWritten (map string_bytes words.now) request
        → request.verb ≡ Prepare → IsPrepared request.budget
        (record { rest = S.rest input.old; faults = S.faults input.old })
        (record { rest = S.rest input.new; faults = S.faults input.new }) (K.written out.old) (K.written out.new)
        ⊎ IsUnreported request.budget (record { rest = S.rest input.old; faults = S.faults input.old })
        (record { rest = S.rest input.new; faults = S.faults input.new }) (K.written out.old) (K.written out.new) }
    // Where `parametric` ends with status 0, its output is such a document for the system that was read, and the report on the
    // chain that was asked for: each derivative of the system, of any total order, is parametric exactly where it lies in
    // exactly one of the cones that are printed, and else lies in none.
    ensures described { result ≡ 0 → (request : Request) → IsWritten (map string_bytes words.now) request
        → request.verb ≡ Parametric → HasCones request
        (record { rest = S.rest input.old; faults = S.faults input.old })
        (record { rest = S.rest input.new; faults = S.faults input.new }) (K.written out.old) (K.written out.new) }
    // Where nothing is to be written on the output, no write is called on it.
    ensures silent { (result ≡ 2) ⊎ (result ≡ 3) ⊎ (result ≡ 7) ⊎ (result ≡ 9) ⊎ (result ≡ 11) → out.new ≡ out.old }
    // Words that ask for nothing that has an input are answered without a read.
    ensures unread { (IsReading (map string_bytes words.now) → ⊥) → input.new ≡ input.old }
{
    at.is_point();
    let (ending, point) = run(alloc, words, input, out);
    tell(err, ending, &point)
}
