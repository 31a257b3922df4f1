//! Sources and sinks that try what those in memory can't: one byte a call, no end, no room, and a source that looks at what was written.

ghost use Rattle.std.specs.Prelude.{◌≡◌, ◌≢◌, ◌≤◌, ◌<◌, Some, None, [], Err, IfOk, OnOk, IsErr, length};
ghost use Rattle.std.specs.Io.{ReadsAtMost, WritesAtMost};
ghost use Rattle.std.specs.Io.KnownBytes.{ReadConsumes, WriteAppends};
ghost use Rattle.geo_outside.specs.Device.{Rose};

use geo_outside::device::{Failed, Sink, SinkError, Source};
use geo_outside::memory::{MemorySink, MemorySource};
use std::cell::Cell;

/// A source that gives one byte a call.
#[derive(Drop)]
pub struct SlowSource {
    pub source: MemorySource,
}

impl Source for SlowSource {
    ghost left = { λ s. Some s.source.left };

    ghost faults = { λ s. s.source.faults };

    fn read(&mut self, buf: &mut [u8]) -> Result<usize, Failed>
        ensures count { ReadsAtMost result buf.new }
        ensures bytes { ReadConsumes (Some self.old.source.left) (Some self.new.source.left) result buf.new }
        ensures later { self.old.source.faults ≤ self.new.source.faults }
        ensures kept { OnOk result (self.new.source.faults ≡ self.old.source.faults) }
        ensures cause { IsErr result → Rose self.old.source.faults self.new.source.faults }
    {
        let n = buf.len().min(1);
        self.source.read(&mut buf[..n])
    }
}

/// A sink that takes one byte a call.
#[derive(Drop)]
pub struct SlowSink {
    pub sink: MemorySink,
}

impl Sink for SlowSink {
    ghost contents = { λ s. Some s.sink.contents };

    ghost faults = { λ s. s.sink.faults };

    fn write(&mut self, piece: &[u8]) -> Result<usize, SinkError>
        ensures count { WritesAtMost result piece.now }
        ensures progress { IfOk result (λ n. 0 < length piece.now → 0 < n) }
        ensures bytes { WriteAppends (Some self.old.sink.contents) (Some self.new.sink.contents) result piece.now }
        ensures later { self.old.sink.faults ≤ self.new.sink.faults }
        ensures kept { result ≢ Err SinkError.Failed → self.new.sink.faults ≡ self.old.sink.faults }
        ensures cause { result ≡ Err SinkError.Failed → Rose self.old.sink.faults self.new.sink.faults }
    {
        self.sink.write(&piece[..piece.len().min(1)])
    }
}

/// A source of comments without an end, which doesn't tell its bytes.
#[derive(Drop)]
pub struct Comments {
    pub reads: u64,
}

impl Source for Comments {
    ghost left = { λ s. None };

    ghost faults = { λ s. 0 };

    fn read(&mut self, buf: &mut [u8]) -> Result<usize, Failed> {
        buf.fill(b'#');
        if let Some(last) = buf.last_mut() {
            *last = b'\n';
        }
        self.reads = self.reads.wrapping_add(1);
        Ok(buf.len())
    }
}

/// A sink that has no room.
#[derive(Drop)]
pub struct FullSink;

impl Sink for FullSink {
    ghost contents = { λ s. Some [] };

    ghost faults = { λ s. 0 };

    fn write(&mut self, _: &[u8]) -> Result<usize, SinkError> {
        Err(SinkError::Memory)
    }
}

/// A source that notes how many bytes a sink had taken when it was read for the second time.
#[derive(Drop)]
pub struct WatchingSource<'a> {
    pub source: MemorySource,
    /// The bytes that the sink has taken so far.
    pub written: &'a Cell<usize>,
    pub reads: u64,
    pub before_second: usize,
}

impl Source for WatchingSource<'_> {
    ghost left = { λ s. None };

    ghost faults = { λ s. s.source.faults };

    fn read(&mut self, buf: &mut [u8]) -> Result<usize, Failed> {
        self.reads = self.reads.wrapping_add(1);
        if self.reads == 2 {
            self.before_second = self.written.get();
        }
        self.source.read(buf)
    }
}

/// A sink that counts the bytes that it takes where the source can see it.
#[derive(Drop)]
pub struct CountingSink<'a> {
    pub sink: MemorySink,
    pub written: &'a Cell<usize>,
}

impl Sink for CountingSink<'_> {
    ghost contents = { λ s. None };

    ghost faults = { λ s. s.sink.faults };

    fn write(&mut self, piece: &[u8]) -> Result<usize, SinkError> {
        let n = self.sink.write(piece)?;
        self.written.set(self.written.get().wrapping_add(n));
        Ok(n)
    }
}
