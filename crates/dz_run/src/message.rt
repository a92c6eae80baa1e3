// What the error output is told of how a run ended.
ghost use Rattle.std.specs.Prelude.{◌≡◌, ◌≤◌, [], map, OnErr, OnOk, IsErrOf};
ghost use Rattle.std.specs.List.{concat};
ghost use Rattle.std.specs.Io.KnownBytes.{Appends};
ghost use Rattle.dz_outside.specs.Causes.{Rose};
ghost use Rattle.dz_outside.specs.Writing.{AppendsPart};
ghost use Rattle.dz_outside.specs.declared.sink.WriteStop.TheVariants as WriteStop;
ghost use Rattle.dz_cert.specs.declared.reading.CertFault.TheVariants.{BadLine};
ghost use Rattle.dz_run.specs.declared.ending.Ending.TheVariants.{Syntax};
ghost use Rattle.dz_run.specs.Ending.{HasFault, IsBadLine, document_message, message_of};

use crate::ending::Ending;
use dz_cert::CertFault;
use dz_outside::{Sink, WriteStop, write_all};
use dz_syntax::SyntaxFault;
use itoa::Buffer;

/// Writes several pieces, one after the other.
fn write_pieces<L: Sink>(sink: &mut L, pieces: &[&[u8]]) -> Result<(), WriteStop>
    ensures ok { OnOk result (Appends (L.written sink.old) (L.written sink.new) (concat (map (λ p. p.now) pieces.now))) }
    ensures err { OnErr result (AppendsPart (L.written sink.old) (L.written sink.new) (concat (map (λ p. p.now) pieces.now))) }
    ensures failed { IsErrOf result WriteStop.Failed → Rose (L.faults sink.old) (L.faults sink.new) }
    ensures stuck { IsErrOf result WriteStop.Stuck → Rose (L.stalls sink.old) (L.stalls sink.new) }
    ensures later { L.faults sink.old ≤ L.faults sink.new }
    ensures stalls_later { L.stalls sink.old ≤ L.stalls sink.new }
{
    'pieces: for piece in pieces {
        write_all(sink, piece)?;
    }
    Ok(())
}

/// The message of a fault of a document that is one and the same line at each run.
fn fixed_document_message(fault: CertFault) -> &'static [u8]
    ensures { (IsBadLine fault → ⊥) → result.now ≡ document_message fault }
{
    match fault {
        CertFault::Memory | CertFault::BadLine(_) => b"blad: no memory\n",
        CertFault::EndsEarly => b"blad: document: ends early\n",
        CertFault::BytesAfter => b"blad: document: bytes after the end\n",
    }
}

/// Writes the line that tells of a line that may not stand in a document.
fn write_line_message<L: Sink>(err: &mut L, number: usize) -> Result<(), WriteStop>
    ensures ok { OnOk result (Appends (L.written err.old) (L.written err.new) (document_message (BadLine number))) }
    ensures err { OnErr result (AppendsPart (L.written err.old) (L.written err.new) (document_message (BadLine number))) }
    ensures failed { IsErrOf result WriteStop.Failed → Rose (L.faults err.old) (L.faults err.new) }
    ensures stuck { IsErrOf result WriteStop.Stuck → Rose (L.stalls err.old) (L.stalls err.new) }
{
    let mut buffer = Buffer::new();
    let line = buffer.format(number);
    write_pieces(err, &[b"blad: document: line ", line.as_bytes(), b"\n"])
}

/// Writes the line that tells of the first fault of a document.
fn write_document_message<L: Sink>(err: &mut L, fault: CertFault) -> Result<(), WriteStop>
    ensures ok { OnOk result (Appends (L.written err.old) (L.written err.new) (document_message fault)) }
    ensures err { OnErr result (AppendsPart (L.written err.old) (L.written err.new) (document_message fault)) }
    ensures failed { IsErrOf result WriteStop.Failed → Rose (L.faults err.old) (L.faults err.new) }
    ensures stuck { IsErrOf result WriteStop.Stuck → Rose (L.stalls err.old) (L.stalls err.new) }
{
    match fault {
        CertFault::BadLine(number) => write_line_message(err, number),
        _ => write_all(err, fixed_document_message(fault)),
    }
}

/// The message of an ending that is one and the same line at each run, or nothing.
fn fixed_message(ending: Ending) -> &'static [u8]
    ensures { (HasFault ending → ⊥) → result.now ≡ message_of ending [] }
{
    match ending {
        Ending::Done | Ending::Rejected | Ending::Syntax(_) | Ending::Document(_) | Ending::Point =>
            b"",
        Ending::NotWritten => b"blad: the words are no written form\n",
        Ending::Wide => b"blad: wide\n",
        Ending::Spent => b"blad: budget spent\n",
        Ending::Large => b"blad: large\n",
        Ending::ReadFault => b"blad: read fault\n",
        Ending::WriteFault => b"blad: write fault\n",
        Ending::WriteStuck => b"blad: write stuck\n",
        Ending::NoMemory => b"blad: no memory\n",
        Ending::TooLong => b"blad: input too long\n",
    }
}

/// Writes the line that tells of the first fault of a text.
fn write_syntax_message<L: Sink>(err: &mut L, fault: SyntaxFault) -> Result<(), WriteStop>
    ensures ok { OnOk result (Appends (L.written err.old) (L.written err.new) (message_of (Syntax fault) [])) }
    ensures err { OnErr result (AppendsPart (L.written err.old) (L.written err.new) (message_of (Syntax fault) [])) }
    ensures failed { IsErrOf result WriteStop.Failed → Rose (L.faults err.old) (L.faults err.new) }
    ensures stuck { IsErrOf result WriteStop.Stuck → Rose (L.stalls err.old) (L.stalls err.new) }
{
    let mut buffer = Buffer::new();
    let place = buffer.format(fault.place);
    write_pieces(
        err,
        &[
            b"blad: syntax: byte ",
            place.as_bytes(),
            b": ",
            fault.kind.text(),
            b"\n",
        ],
    )
}

/// Writes the line that tells of an ending, where there is one; `point` is that of a point that is
/// refused.
pub(crate) fn write_message<L: Sink>(
    err: &mut L,
    ending: Ending,
    point: &[u8],
) -> Result<(), WriteStop>
    ensures ok { OnOk result (Appends (L.written err.old) (L.written err.new) (message_of ending point.now)) }
    ensures err { OnErr result (AppendsPart (L.written err.old) (L.written err.new) (message_of ending point.now)) }
    ensures failed { IsErrOf result WriteStop.Failed → Rose (L.faults err.old) (L.faults err.new) }
    ensures stuck { IsErrOf result WriteStop.Stuck → Rose (L.stalls err.old) (L.stalls err.new) }
{
    match ending {
        Ending::Syntax(fault) => write_syntax_message(err, fault),
        Ending::Document(fault) => write_document_message(err, fault),
        Ending::Point => write_all(err, point),
        _ => write_all(err, fixed_message(ending)),
    }
}
