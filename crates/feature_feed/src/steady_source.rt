//! A source that is followed from its beginning: what it tells counts only where it told it from the beginning on.

ghost use Rattle.std.specs.Prelude.{◌≡◌, ◌≤◌, ℕ, List, Some, IsErr, OnOk};
ghost use Rattle.std.specs.Io.{ReadsAtMost};
ghost use Rattle.std.specs.Io.KnownBytes.{ReadConsumes};
ghost use Rattle.geo_outside.specs.Device.{Rose};

use geo_outside::device::{Failed, Source};
use std::marker::Model;
use std::snapshot::Snapshot;

/// A source, and what it was at the beginning.
#[derive(Drop)]
pub struct SteadySource<S: Source> {
    source: S,
    first: Snapshot<S>,
}

impl<S: Source> Model for SteadySource<S> {
    ghost use Rattle.std.specs.Prelude.{◌≡◌, true, is_some};
    ghost use Rattle.feature_feed.specs.Steady.{SteadyView, steady_left};

    ghost Value = { SteadyView };

    ghost view = { λ s. record { left = steady_left (S.left s.first.value) (S.left s.source); faults = S.faults s.source } };

    ghost invariant = { λ s. is_some (S.left s.first.value) ≡ true → is_some (S.left s.source) ≡ true };
}

impl<S: Source> SteadySource<S> {
    /// Follows a source from here on.
    pub fn new(source: S) -> SteadySource<S>
        ensures left { result.left ≡ S.left source }
        ensures faults { result.faults ≡ S.faults source }
    {
        let first = Snapshot::of(&source);
        SteadySource { source, first }
    }

    /// Reads once, as the source does.
    pub fn read(&mut self, buf: &mut [u8]) -> Result<usize, Failed>
        ensures count { ReadsAtMost result buf.new }
        ensures bytes { ReadConsumes self.old.left self.new.left result buf.new }
        ensures told { (bytes : List ℕ) → self.new.left ≡ Some bytes → (before : List ℕ) × (self.old.left ≡ Some before) }
        ensures later { self.old.faults ≤ self.new.faults }
        ensures kept { OnOk result (self.new.faults ≡ self.old.faults) }
        ensures cause { IsErr result → Rose self.old.faults self.new.faults }
    {
        self.source.read(buf)
    }
}
