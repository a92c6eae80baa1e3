ghost use Rattle.std.specs.Prelude.{Some};

use super::*;
use std::io::{Error, ErrorKind, Read, Write};
use std::test::Fail;

/// A source in memory that counts its reads.
#[derive(Drop)]
struct Counted {
    source: MemSource,
    reads: u32,
}

impl Source for Counted {
    ghost rest = { λ s. Some s.source.unread };

    ghost faults = { λ s. s.source.faults };

    fn read(&mut self, into: &mut [u8]) -> Result<usize, Failed> {
        self.reads = self.reads.saturating_add(1);
        self.source.read(into)
    }
}

/// A reading of a source in memory, the answer that it must have, and how many reads it must make.
#[derive(Clone, Copy)]
struct Reading<'a> {
    text: &'a [u8],
    most: usize,
    fails: &'a [u32],
    limit: usize,
    answer: Result<&'a [u8], ReadStop>,
    reads: u32,
}

fn read_row<'a>(
    text: &'a [u8],
    most: usize,
    fails: &'a [u32],
    limit: usize,
    answer: Result<&'a [u8], ReadStop>,
    reads: u32,
) -> Reading<'a> {
    Reading {
        text,
        most,
        fails,
        limit,
        answer,
        reads,
    }
}

#[test]
fn sources_are_read_up_to_the_limit(rt: HostRuntime) -> Result<(), Fail> {
    let alloc = rt.alloc();
    let text = b"abcdef".as_slice();
    let long = vec![in alloc; b' '; 5000]?;
    let size = long.len();
    let rows = [
        read_row(b"", 1, &[], 0, Ok(b""), 1),
        read_row(text, 4, &[], 6, Ok(text), 3),
        read_row(text, 1, &[8], 6, Ok(text), 7),
        read_row(text, 1, &[], 5, Err(ReadStop::TooLong), 6),
        read_row(text, 9, &[], 5, Err(ReadStop::TooLong), 1),
        read_row(text, 2, &[2], 9, Err(ReadStop::Failed), 2),
        read_row(&long, size, &[], size, Ok(&long), 3),
        read_row(&long, size, &[], size - 1, Err(ReadStop::TooLong), 2),
    ];
    for row in rows {
        assert!(rt; row.most > 0 && row.limit < usize::MAX);
        let source = MemSource::new(row.text.to_vec(alloc)?, row.most, row.fails.to_vec(alloc)?);
        let mut counted = Counted { source, reads: 0 };
        let answer = read_all(alloc, &mut counted, row.limit);
        assert_eq!(rt;
            answer
                .as_ref()
                .map(|bytes| bytes.as_slice())
                .map_err(|stop| *stop),
            row.answer
        );
        assert_eq!(rt; counted.reads, row.reads);
    }
    Ok(())
}

/// A writing of a text to a sink in memory, the answer that it must have, and what the sink must hold then.
#[derive(Clone, Copy)]
struct Writing<'a> {
    text: &'a [u8],
    room: usize,
    most: usize,
    fails: &'a [u32],
    answer: Result<(), WriteStop>,
    held: &'a [u8],
}

fn write_row<'a>(
    text: &'a [u8],
    room: usize,
    most: usize,
    fails: &'a [u32],
    answer: Result<(), WriteStop>,
    held: &'a [u8],
) -> Writing<'a> {
    Writing {
        text,
        room,
        most,
        fails,
        answer,
        held,
    }
}

#[test]
fn sinks_keep_the_front_of_a_text(rt: HostRuntime) -> Result<(), Fail> {
    let alloc = rt.alloc();
    let text = b"blad certificate 1\n".as_slice();
    let rows = [
        write_row(text, 1000, 7, &[], Ok(()), text),
        write_row(text, 1000, 10, &[2], Err(WriteStop::Failed), b"blad certi"),
        write_row(text, 1000, 0, &[], Err(WriteStop::Stuck), b""),
        write_row(text, 4, 10, &[], Err(WriteStop::Stuck), b"blad"),
        write_row(b"", 0, 0, &[1], Ok(()), b""),
    ];
    for row in rows {
        let mut sink = MemSink::new(alloc, row.room, row.most, row.fails.to_vec(alloc)?)?;
        assert_eq!(rt; write_all(&mut sink, row.text), row.answer);
        assert_eq!(rt; sink.bytes(), row.held);
    }
    Ok(())
}

/// A reader that fails at its second read.
#[derive(Drop)]
struct Broken {
    reads: u32,
}

impl Read for Broken {
    fn read(&mut self, buf: &mut [u8]) -> std::io::Result<usize> {
        self.reads = self.reads.saturating_add(1);
        if self.reads == 2 || buf.is_empty() {
            return Err(Error::from(ErrorKind::Other));
        }
        buf[0] = b'a';
        Ok(1)
    }
}

#[test]
fn readers_of_std_are_read(rt: HostRuntime) -> Result<(), Fail> {
    let alloc = rt.alloc();
    let bytes = read_all(alloc, &mut StdSource::new(b"abc".as_slice()), 100)?;
    assert_eq!(rt; bytes.as_slice(), b"abc".as_slice());
    let mut broken = StdSource::new(Broken { reads: 0 });
    assert_eq!(rt;
        read_all(alloc, &mut broken, 100).err(),
        Some(ReadStop::Failed)
    );
    Ok(())
}

/// A writer that takes two bytes, then nothing, and then fails.
#[derive(Drop)]
struct Jammed {
    writes: u32,
}

impl Write for Jammed {
    fn write(&mut self, buf: &[u8]) -> std::io::Result<usize> {
        self.writes = self.writes.saturating_add(1);
        match self.writes {
            1 => Ok(buf.len().min(2)),
            2 => Ok(0),
            _ => Err(Error::from(ErrorKind::Other)),
        }
    }

    fn flush(&mut self) -> std::io::Result<()> {
        Ok(())
    }
}

#[test]
fn writers_of_std_are_written(rt: HostRuntime) -> Result<(), Fail> {
    let mut held = Vec::new(rt.alloc());
    write_all(&mut StdSink::new(&mut held), b"blad")?;
    assert_eq!(rt; held.as_slice(), b"blad".as_slice());
    let mut jammed = StdSink::new(Jammed { writes: 0 });
    assert_eq!(rt; write_all(&mut jammed, b"blad"), Err(WriteStop::Stuck));
    assert_eq!(rt; write_all(&mut jammed, b"blad"), Err(WriteStop::Failed));
    Ok(())
}
