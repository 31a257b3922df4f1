//! Sessions over sources and sinks that fail, are slow, or count.

use crate::devices::{Comments, CountingSink, FullSink, SlowSink, SlowSource, WatchingSource};
use carmen_cli::program::run_program;
use carmen_cli::top::carmen;
use geo_outside::device::{Sink, Source};
use geo_outside::memory::{MemorySink, MemorySource};
use session_text::status::Status;
use session_text::why::Why;
use std::alloc::{AllocError, Global};
use std::cell::Cell;
use std::test::Fail;

/// A country and a city in it, published.
pub const BASE: &str =
    "carmen 1\nlangs fr\nlayer {\"name\":\"country\",\"zoom\":6}\nlayer {\"name\":\"region\",\"zoom\":6}\nlayer {\"name\":\"place\",\"zoom\":6}\nput 0 {\"id\":1,\"properties\":{\"carmen:text\":\"USA\",\"carmen:zxy\":[\"6/32/32\",\"6/33/32\"]}}\nput 2 {\"type\":\"Feature\",\"id\":2,\"properties\":{\"carmen:text\":\"New York,NYC\",\"carmen:zxy\":[\"6/32/32\"],\"carmen:score\":9}}\npublish\n";

/// What is written for them.
pub const BASE_OUT: &str = "put 0 1 new\nput 2 2 new\npublished 1\n";

/// The words of a command line.
pub fn words_of(alloc: Global, texts: &[&str]) -> Result<Vec<String>, AllocError> {
    let mut words = Vec::new(alloc);
    for text in texts {
        words.push(String::from_str(alloc, text)?)?;
    }
    Ok(words)
}

/// The bytes of a session that goes on so behind the published country and city.
pub fn session_of(alloc: Global, more: &str) -> Result<Vec<u8>, AllocError> {
    let mut session = BASE.as_bytes().to_vec(alloc)?;
    session.extend_from_slice(more.as_bytes())?;
    Ok(session)
}

/// How a session without feeds ends over these devices.
fn run<S: Source, K: Sink>(
    rt: &impl AllocGlobal,
    source: &mut S,
    sink: &mut K,
) -> Result<Status, Fail> {
    let words = words_of(rt.alloc(), &["plain"])?;
    let mut no_feeds = Vec::new(rt.alloc());
    Ok(carmen(rt, &words, source, sink, &mut no_feeds))
}

/// Sessions whose devices fail: what follows the published country and city, the calls that fail, the status, and whether
/// what they are answered with is written.
const FAILURES: [(&str, &[u64], &[u64], Status, bool); 7] = [
    ("end\n", &[1], &[], Status::ReadFault, false),
    ("join\n", &[2], &[], Status::ReadFault, true),
    ("end\n", &[2], &[], Status::Done, true),
    (
        "ask 0 new york usa\nend\n",
        &[],
        &[1],
        Status::WriteFault,
        false,
    ),
    ("join\ndrop 0 9\nend\n", &[], &[2], Status::WriteFault, true),
    ("join\nfly\n", &[], &[1], Status::WriteFault, false),
    ("join\njoin\nend\n", &[], &[2], Status::Done, true),
];

#[test]
fn a_device_that_fails_is_blamed(rt: HostRuntime) -> Result<(), Fail> {
    let alloc = rt.alloc();
    for (more, reads, writes, wanted, written) in FAILURES.as_slice() {
        let mut source = MemorySource::new(session_of(alloc, more)?, reads.to_vec(alloc)?);
        let mut sink = MemorySink::new(alloc, writes.to_vec(alloc)?);
        let status = run(&rt, &mut source, &mut sink)?;
        let text = if *written { BASE_OUT } else { "" };
        assert!(rt; status.is(wanted), "{more}");
        assert!(rt; sink.bytes() == text.as_bytes(), "{more}");
    }
    Ok(())
}

#[test]
fn a_failed_write_is_told(rt: HostRuntime) -> Result<(), Fail> {
    let alloc = rt.alloc();
    for (word, read) in [("--help", false), ("plain", true)] {
        let words = words_of(alloc, &[word])?;
        let mut source = MemorySource::new(session_of(alloc, "end\n")?, Vec::new(alloc));
        let mut sink = MemorySink::new(alloc, [1].to_vec(alloc)?);
        let mut errors = MemorySink::new(alloc, Vec::new(alloc));
        let mut no_feeds = Vec::new(alloc);
        let _ = run_program(
            &rt,
            &words,
            &mut source,
            &mut sink,
            &mut errors,
            &mut no_feeds,
        );
        assert!(rt; sink.bytes().is_empty(), "{word}");
        assert!(rt;
            errors.bytes() == b"carmen: write fault\n".as_slice(),
            "{word}"
        );
        let mut buf = *b".";
        assert_eq!(rt; source.read(&mut buf), Ok(usize::from(!read)));
    }
    Ok(())
}

#[test]
fn slow_devices_change_nothing(rt: HostRuntime) -> Result<(), Fail> {
    let alloc = rt.alloc();
    let unknown_word = Status::BadLine {
        line: 10,
        why: Why::Word,
    };
    for (line, wanted) in [("join\nend\n", Status::Done), ("join\nfly\n", unknown_word)] {
        let mut session = session_of(alloc, line)?;
        session.extend_from_slice(b"more")?;
        let mut source = SlowSource {
            source: MemorySource::new(session, Vec::new(alloc)),
        };
        let mut sink = SlowSink {
            sink: MemorySink::new(alloc, Vec::new(alloc)),
        };
        let status = run(&rt, &mut source, &mut sink)?;
        assert!(rt; status.is(&wanted), "{line}");
        assert!(rt; sink.sink.bytes() == BASE_OUT.as_bytes(), "{line}");
        let mut buf = *b"......";
        assert_eq!(rt; source.source.read(&mut buf), Ok(4));
        assert_eq!(rt; buf, *b"more..");
    }
    Ok(())
}

#[test]
fn a_source_without_an_end_is_too_much(rt: HostRuntime) -> Result<(), Fail> {
    let mut source = Comments { reads: 0 };
    let mut sink = MemorySink::new(rt.alloc(), Vec::new(rt.alloc()));
    let status = run(&rt, &mut source, &mut sink)?;
    assert!(rt; status.is(&Status::TooMuch));
    assert!(rt; sink.bytes().is_empty());
    assert_eq!(rt; source.reads, 4096);
    Ok(())
}

#[test]
fn a_sink_without_room_is_want_of_memory(rt: HostRuntime) -> Result<(), Fail> {
    let alloc = rt.alloc();
    let mut source = MemorySource::new(session_of(alloc, "end\n")?, Vec::new(alloc));
    let status = run(&rt, &mut source, &mut FullSink)?;
    assert!(rt; status.is(&Status::Memory));
    Ok(())
}

#[test]
fn a_round_is_written_before_the_next_block_is_read(rt: HostRuntime) -> Result<(), Fail> {
    let alloc = rt.alloc();
    let mut session = session_of(alloc, "join\n")?;
    for _ in 0..70_000 {
        session.extend_from_slice(b"#\n")?;
    }
    session.extend_from_slice(b"end\n")?;
    let written = Cell::new(0);
    let mut source = WatchingSource {
        source: MemorySource::new(session, Vec::new(alloc)),
        written: &written,
        reads: 0,
        before_second: 0,
    };
    let mut sink = CountingSink {
        sink: MemorySink::new(alloc, Vec::new(alloc)),
        written: &written,
    };
    let status = run(&rt, &mut source, &mut sink)?;
    assert!(rt; status.is(&Status::Done));
    assert_eq!(rt; source.before_second, BASE_OUT.len());
    Ok(())
}
