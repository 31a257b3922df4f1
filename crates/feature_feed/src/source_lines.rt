//! The lines of a source, each taken when it has come.

ghost use Rattle.std.specs.Prelude.{◌≡◌, ◌≢◌, ◌≤◌, ◌<◌, ◌+◌, [], Err, IfOk, IfSome, OnOk, OnErr, MatchOption, length};
ghost use Rattle.geo_outside.specs.Device.{Rose, most_bytes};
ghost use Rattle.geo_text.specs.Bytes.{NoLineFeed};
ghost use Rattle.feature_feed.specs.JsonLines.{bytes_left, lines_left, items_left, onto, IsNoneLeft};
ghost use Rattle.feature_feed.specs.declared.feed.FeedItem.TheVariants as item;

use crate::feed::FeedError;
use crate::line_buffer::LineBuffer;
use crate::steady_source::SteadySource;
use geo_base::refusal::Memory;
use geo_outside::device::{MOST_BYTES, Source};
use std::alloc::Global;

/// A source, what has come of it and wasn't taken yet, and how many bytes may be read yet.
#[derive(Drop)]
pub struct SourceLines<S: Source> {
    pub source: SteadySource<S>,
    pub buffer: LineBuffer,
    pub room: usize,
}

/// How many bytes may be read after so many came: none where none came, since the source is at its end.
fn room_after(room: usize, came: usize) -> usize
    requires { came ≤ room }
    ensures ended { came ≡ 0 → result ≡ 0 }
    ensures more { 0 < came → result + came ≡ room }
{
    if came == 0 { 0 } else { room - came }
}

impl<S: Source + Drop> SourceLines<S> {
    /// The lines of a source's first 268,435,456 bytes.
    pub fn new(alloc: Global, source: S) -> Result<SourceLines<S>, Memory>
        ensures buffer { IfOk result (λ l. l.buffer ≡ []) }
        ensures room { IfOk result (λ l. l.room ≡ most_bytes) }
        ensures left { IfOk result (λ l. l.source.left ≡ S.left source) }
        ensures faults { IfOk result (λ l. l.source.faults ≡ S.faults source) }
    {
        let buffer = LineBuffer::new(alloc)?;
        Ok(SourceLines {
            source: SteadySource::new(source),
            buffer,
            room: MOST_BYTES,
        })
    }

    /// Reads more of the source.
    fn read(&mut self) -> Result<(), FeedError>
        requires open { NoLineFeed self.old.buffer }
        requires room { 0 < self.old.room }
        ensures bytes { bytes_left self.new.buffer self.new.room self.new.source.left ≡ bytes_left self.old.buffer self.old.room self.old.source.left }
        ensures fewer { OnOk result ((self.new.room < self.old.room) × (self.new.room + length self.new.buffer ≤ self.old.room + length self.old.buffer)) }
        ensures later { self.old.source.faults ≤ self.new.source.faults }
        ensures kept { result ≢ Err FeedError.Failed → self.new.source.faults ≡ self.old.source.faults }
        ensures cause { result ≡ Err FeedError.Failed → Rose self.old.source.faults self.new.source.faults }
    {
        let came = self.buffer.read(&mut self.source, self.room)?;
        self.room = room_after(self.room, came);
        Ok(())
    }

    /// Takes what has come of a last line that no line feed ends.
    fn last(&mut self) -> Result<Option<Vec<u8>>, FeedError>
        requires open { NoLineFeed self.old.buffer }
        requires room { self.old.room ≡ 0 }
        ensures line { let before = lines_left self.old.buffer self.old.room self.old.source.left in let after = lines_left self.new.buffer self.new.room self.new.source.left in
            IfOk result (λ o. MatchOption o (IsNoneLeft before after) (λ text. before ≡ onto text.items after)) }
        ensures fewer { IfOk result (λ o. IfSome o (λ _. self.new.room + length self.new.buffer < self.old.room + length self.old.buffer)) }
        ensures same { OnErr result ((lines_left self.new.buffer self.new.room self.new.source.left ≡ lines_left self.old.buffer self.old.room self.old.source.left) × (result ≡ Err FeedError.Memory)) }
        ensures faults { self.new.source.faults ≡ self.old.source.faults }
    {
        let Ok(text) = self.buffer.rest() else {
            return Err(FeedError::Memory);
        };
        if text.is_empty() {
            return Ok(None);
        }
        Ok(Some(text))
    }

    /// Takes the first line that is left.
    fn next_line(&mut self) -> Result<Option<Vec<u8>>, FeedError>
        ensures line { let before = lines_left self.old.buffer self.old.room self.old.source.left in let after = lines_left self.new.buffer self.new.room self.new.source.left in
            IfOk result (λ o. MatchOption o (IsNoneLeft before after) (λ text. before ≡ onto text.items after)) }
        ensures fewer { IfOk result (λ o. IfSome o (λ _. self.new.room + length self.new.buffer < self.old.room + length self.old.buffer)) }
        ensures same { OnErr result (lines_left self.new.buffer self.new.room self.new.source.left ≡ lines_left self.old.buffer self.old.room self.old.source.left) }
        ensures later { self.old.source.faults ≤ self.new.source.faults }
        ensures kept { result ≢ Err FeedError.Failed → self.new.source.faults ≡ self.old.source.faults }
        ensures cause { result ≡ Err FeedError.Failed → Rose self.old.source.faults self.new.source.faults }
    {
        loop {
            let Ok(line) = self.buffer.line() else {
                return Err(FeedError::Memory);
            };
            if let Some(text) = line {
                return Ok(Some(text));
            }
            if self.room == 0 {
                return self.last();
            }
            self.read()?;
        }
    }

    /// Takes the lines up to the first that isn't empty, and gives that one.
    pub fn next_text(&mut self) -> Result<Option<Vec<u8>>, FeedError>
        ensures text { let before = items_left self.old.buffer self.old.room self.old.source.left in let after = items_left self.new.buffer self.new.room self.new.source.left in
            IfOk result (λ o. MatchOption o (IsNoneLeft before after) (λ text. before ≡ onto (item.Json text.items) after)) }
        ensures same { OnErr result (items_left self.new.buffer self.new.room self.new.source.left ≡ items_left self.old.buffer self.old.room self.old.source.left) }
        ensures later { self.old.source.faults ≤ self.new.source.faults }
        ensures kept { result ≢ Err FeedError.Failed → self.new.source.faults ≡ self.old.source.faults }
        ensures cause { result ≡ Err FeedError.Failed → Rose self.old.source.faults self.new.source.faults }
    {
        loop {
            let Some(text) = self.next_line()? else {
                return Ok(None);
            };
            if !text.is_empty() {
                return Ok(Some(text));
            }
        }
    }
}
