//! Bytes that come in blocks, and the lines in them.

ghost use Rattle.std.specs.Prelude.{◌≡◌, ◌≢◌, ◌≤◌, ◌<◌, ◌++◌, ◌∷◌, ◌+◌, [], ℕ, List, Some, Err, IfOk, OnOk, OnErr, IsErr, MatchOption, length, take};
ghost use Rattle.std.specs.Str.Lines.{strip_carriage_return};
ghost use Rattle.std.specs.Io.KnownBytes.{Consumes, IsAtEnd, Keeps};
ghost use Rattle.geo_outside.specs.Device.{Rose};
ghost use Rattle.geo_text.specs.Bytes.{NoLineFeed};

use crate::feed::FeedError;
use crate::steady_source::SteadySource;
use geo_base::refusal::Memory;
use geo_outside::device::{Failed, Source};
use geo_text::line_feed::next_line;
use std::alloc::Global;
use std::marker::Model;
use std::mem::replace;

/// How many bytes are read at once, at most.
const BLOCK: usize = 65_536;

/// What has come and wasn't taken yet: what has come of the open line, and behind it what is left of the block that was
/// read last.
#[derive(Drop)]
pub struct LineBuffer {
    alloc: Global,
    begun: Vec<u8>,
    block: Vec<u8>,
    from: usize,
    end: usize,
}

impl Model for LineBuffer {
    ghost use Rattle.std.specs.Prelude.{◌≤◌, ◌<◌, ◌++◌, List, ℕ, length, slice_range};
    ghost use Rattle.geo_text.specs.Bytes.{NoLineFeed};

    ghost Value = { List ℕ };

    ghost view = { λ b. b.begun.items ++ slice_range b.block.items b.from b.end };

    ghost invariant = { λ b. NoLineFeed b.begun.items × (b.from ≤ b.end) × (b.end ≤ length b.block.items) × (0 < length b.block.items) };
}

/// Reads at most so many bytes into the front of a block, and says how many.
fn read_block<S: Source>(
    block: &mut [u8],
    source: &mut SteadySource<S>,
    most: usize,
) -> Result<usize, Failed>
    requires { (0 < most) × (0 < length block.old) }
    ensures front { IfOk result (λ n. (n ≤ most) × (n ≤ length block.new) × Consumes source.old.left source.new.left (take n block.new) × (n ≡ 0 → IsAtEnd source.new.left)) }
    ensures none { OnErr result (Keeps source.old.left source.new.left) }
    ensures told { (bytes : List ℕ) → source.new.left ≡ Some bytes → (before : List ℕ) × (source.old.left ≡ Some before) }
    ensures later { source.old.faults ≤ source.new.faults }
    ensures kept { OnOk result (source.new.faults ≡ source.old.faults) }
    ensures cause { IsErr result → Rose source.old.faults source.new.faults }
{
    let room = block.len().min(most);
    source.read(&mut block[..room])
}

/// A line without one carriage return at its end.
fn without_return(mut line: Vec<u8>) -> Vec<u8>
    ensures { result.items ≡ strip_carriage_return line.items }
{
    if line.last() == Some(&b'\r') {
        let _return = line.pop();
    }
    line
}

impl LineBuffer {
    /// With no bytes.
    pub fn new(alloc: Global) -> Result<LineBuffer, Memory>
        ensures { IfOk result (λ b. b ≡ []) }
    {
        Ok(LineBuffer {
            alloc,
            begun: Vec::new(alloc),
            block: vec![in alloc; 0u8; BLOCK]?,
            from: 0,
            end: 0,
        })
    }

    /// Takes the first line that a line feed ends, and gives it without that and without one carriage return before it; None
    /// where no line feed has come.
    pub fn line(&mut self) -> Result<Option<Vec<u8>>, Memory>
        ensures line { IfOk result (λ o. MatchOption o (NoLineFeed self.old × (self.new ≡ self.old)) (λ text. (line : List ℕ) × NoLineFeed line × (self.old ≡ line ++ 10 ∷ self.new) × (text.items ≡ strip_carriage_return line))) }
        ensures memory { OnErr result (self.new ≡ self.old) }
    {
        let Some((part, _behind)) = next_line(&self.block[self.from..self.end]) else {
            return Ok(None);
        };
        let taken = part.len() + 1;
        self.begun.extend_from_slice(part)?;
        self.from += taken;
        let line = replace(&mut self.begun, Vec::new(self.alloc));
        Ok(Some(without_return(line)))
    }

    /// Takes all bytes.
    pub fn rest(&mut self) -> Result<Vec<u8>, Memory>
        ensures rest { OnOk result (self.new ≡ []) }
        ensures text { IfOk result (λ text. text.items ≡ self.old) }
        ensures memory { OnErr result (self.new ≡ self.old) }
    {
        self.begun
            .extend_from_slice(&self.block[self.from..self.end])?;
        self.from = self.end;
        Ok(replace(&mut self.begun, Vec::new(self.alloc)))
    }

    /// Reads at most so many bytes more of a source, and says how many: none exactly where it has none left.
    pub fn read<S: Source>(
        &mut self,
        source: &mut SteadySource<S>,
        most: usize,
    ) -> Result<usize, FeedError>
        requires open { NoLineFeed self.old }
        requires some { 0 < most }
        ensures more { IfOk result (λ n. (part : List ℕ) × Consumes source.old.left source.new.left part × (self.new ≡ self.old ++ part) × (length part ≡ n) × (n ≤ most) × (n ≡ 0 → IsAtEnd source.new.left)) }
        ensures same { OnErr result ((self.new ≡ self.old) × Keeps source.old.left source.new.left) }
        ensures told { (bytes : List ℕ) → source.new.left ≡ Some bytes → (before : List ℕ) × (source.old.left ≡ Some before) }
        ensures later { source.old.faults ≤ source.new.faults }
        ensures kept { result ≢ Err FeedError.Failed → source.new.faults ≡ source.old.faults }
        ensures cause { result ≡ Err FeedError.Failed → Rose source.old.faults source.new.faults }
    {
        let rest = &self.block[self.from..self.end];
        if self.begun.extend_from_slice(rest).is_err() {
            return Err(FeedError::Memory);
        }
        self.from = 0;
        self.end = 0;
        let Ok(n) = read_block(&mut self.block, source, most) else {
            return Err(FeedError::Failed);
        };
        self.end = n;
        Ok(n)
    }
}
