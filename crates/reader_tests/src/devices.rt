//! Sources and sinks, each through its trait.

use geo_outside::device::{Failed, Sink, SinkError, Source};
use geo_outside::edge::{ReadSource, WriteSink};
use geo_outside::memory::{MemorySink, MemorySource};
use geo_outside::sure::{SureSink, SureSource};
use geo_text::cut::ascii;
use std::alloc::Global;
use std::io;
use std::io::{ErrorKind, Read, Write};
use std::process::Abort;

/// A reader and writer that is interrupted at its first call and takes no byte at its second. From the third on it takes
/// one byte a call. A read from the second on gives one byte, the number of the call as a digit.
#[derive(Drop)]
struct Shaky {
    calls: u8,
    taken: Vec<u8>,
}

impl Shaky {
    fn new(alloc: Global) -> Shaky {
        Shaky {
            calls: 0,
            taken: Vec::new(alloc),
        }
    }
}

impl Read for Shaky {
    fn read(&mut self, buf: &mut [u8]) -> io::Result<usize> {
        self.calls = self.calls.wrapping_add(1);
        if self.calls == 1 {
            return Err(ErrorKind::Interrupted.into());
        }
        match buf.first_mut() {
            Some(first) => {
                *first = self.calls.wrapping_add(b'0');
                Ok(1)
            }
            None => Ok(0),
        }
    }
}

impl Write for Shaky {
    fn write(&mut self, piece: &[u8]) -> io::Result<usize> {
        self.calls = self.calls.wrapping_add(1);
        if self.calls == 1 {
            return Err(ErrorKind::Interrupted.into());
        }
        match piece.first() {
            Some(first) if self.calls > 2 => {
                self.taken.push(*first)?;
                Ok(1)
            }
            _ => Ok(0),
        }
    }

    fn flush(&mut self) -> io::Result<()> {
        Ok(())
    }
}

/// Reads once into three bytes, and appends what that gives.
fn push_read<S: Source>(rt: &impl Abort, source: &mut S, log: &mut String) {
    let mut buf = *b"...";
    match source.read(&mut buf) {
        Ok(n) => {
            let bytes = ascii(&buf[..n]).expect(rt, "ASCII");
            write!(log, "{bytes}|").expect(rt, "memory");
        }
        Err(Failed) => write!(log, "failed|").expect(rt, "memory"),
    }
}

/// Reads five times.
fn push_reads<S: Source>(rt: &impl Abort, source: &mut S, log: &mut String) {
    for _ in 0..5 {
        push_read(rt, source, log);
    }
    write!(log, "\n").expect(rt, "memory");
}

/// Reads so from a source over a reader, and gives the count of its faults and the reader back.
fn push_reads_of<R: Read>(rt: &impl Abort, reader: R, log: &mut String) -> (u64, R) {
    let mut source = ReadSource::new(reader);
    push_reads(rt, &mut source, log);
    (source.faults(), source.into_reader())
}

/// What the reads give.
const READS: &str = "\
failed|til|failed|es||
til|es||||
til|es||||
failed|2|3|4|5|
";

#[test]
fn a_source_fails_where_it_has_to_and_then_goes_on(rt: HostRuntime) {
    let alloc = rt.alloc();
    let tiles = b"tiles".as_slice();
    let mut log = String::new(alloc);
    let fails = [1, 3].to_vec(alloc).expect(&rt, "memory");
    let mut memory = MemorySource::new(tiles.to_vec(alloc).expect(&rt, "memory"), fails);
    push_reads(&rt, &mut memory, &mut log);
    let mut sure = SureSource::new(tiles.to_vec(alloc).expect(&rt, "memory"));
    push_reads(&rt, &mut sure, &mut log);
    let (no_faults, left) = push_reads_of(&rt, tiles, &mut log);
    let (one_fault, shaky) = push_reads_of(&rt, Shaky::new(alloc), &mut log);
    assert!(rt; log.as_str() == READS);
    assert_eq!(rt;
        (no_faults, left.len(), one_fault, shaky.calls),
        (0, 0, 1, 5)
    );
}

/// Writes a piece, and says how many bytes of it are taken, 99 where the write fails.
fn write_once<K: Sink>(rt: &impl Abort, sink: &mut K, piece: &[u8]) -> usize {
    match sink.write(piece) {
        Ok(n) => n,
        Err(SinkError::Failed) => 99,
        Err(SinkError::Memory) => panic!(rt; "want of memory"),
    }
}

/// Writes four pieces, the third of them empty, and appends what each call answers.
fn push_writes<K: Sink>(rt: &impl Abort, sink: &mut K, log: &mut String) {
    for piece in [b"main".as_slice(), b" hall", b"", b" street"] {
        let count = write_once(rt, sink, piece);
        write!(log, "{count} ").expect(rt, "memory");
    }
    write!(log, "\n").expect(rt, "memory");
}

/// Writes so to a sink over a writer, and gives the count of its faults and the writer back.
fn push_writes_to<W: Write>(rt: &impl Abort, writer: W, log: &mut String) -> (u64, W) {
    let mut sink = WriteSink::new(writer);
    push_writes(rt, &mut sink, log);
    (sink.faults(), sink.into_writer())
}

/// What the writes answer.
const WRITES: &str = "\
4 99 0 7\x20
4 5 0 99\x20
4 5 0 7\x20
4 5 0 7\x20
99 99 0 1\x20
";

#[test]
fn a_sink_fails_where_it_has_to_and_then_goes_on(rt: HostRuntime) {
    let alloc = rt.alloc();
    let mut log = String::new(alloc);
    for (number, wanted) in [(2, "main street"), (4, "main hall")] {
        let fails = [number].to_vec(alloc).expect(&rt, "memory");
        let mut memory = MemorySink::new(alloc, fails);
        push_writes(&rt, &mut memory, &mut log);
        assert!(rt; memory.bytes() == wanted.as_bytes());
    }
    let mut sure = SureSink::new(alloc);
    push_writes(&rt, &mut sure, &mut log);
    let (no_faults, list) = push_writes_to(&rt, Vec::new(alloc), &mut log);
    let (two_faults, shaky) = push_writes_to(&rt, Shaky::new(alloc), &mut log);
    assert!(rt; log.as_str() == WRITES);
    assert!(rt; sure.bytes() == b"main hall street".as_slice());
    assert!(rt; list.as_slice() == b"main hall street".as_slice());
    assert!(rt; shaky.taken.as_slice() == b" ".as_slice());
    assert_eq!(rt; (no_faults, two_faults, shaky.calls), (0, 2, 4));
}
