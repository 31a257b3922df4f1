//! A feed in memory, which fails at the pulls that it is told.

ghost use Rattle.std.specs.Prelude.{◌≡◌, ◌≢◌, ◌≤◌, ◌↔◌, List, Some, Err, IfOk, OnErr};
ghost use Rattle.geo_outside.specs.Device.{Rose};
ghost use Rattle.geo_outside.specs.Memory.{FailsNext};
ghost use Rattle.feature_feed.specs.Feed.{Gives, given_after};
ghost use Rattle.feature_feed.specs.MemoryFeed.{first_item, after_pull, after_failed_pull};
ghost use Rattle.feature_feed.specs.declared.feed.FeedItem.{FeedItem};

use crate::feed::{Feed, FeedError, FeedItem};
use std::collections::VecDeque;
use std::marker::Model;

/// A feed of these items, whose pulls of these numbers fail. The first pull has the number 1. Each pull raises the count of
/// pulls by one, up to 2^64 - 1.
#[derive(Drop)]
pub struct MemoryFeed {
    items: VecDeque<FeedItem>,
    fails: Vec<u64>,
    pulls: u64,
    given: u64,
    faults: u64,
}

impl Model for MemoryFeed {
    ghost use Rattle.feature_feed.specs.MemoryFeed.{FeedState};

    ghost Value = { FeedState };

    ghost view = { λ f. record { left = f.items.items; fails = f.fails.items; pulls = f.pulls; given = f.given; faults = f.faults } };
}

impl MemoryFeed {
    /// A feed of all these items. The pulls whose numbers are in `fails` fail, from 1 on.
    pub fn new(items: VecDeque<FeedItem>, fails: Vec<u64>) -> MemoryFeed
        ensures { result ≡ record { left = items.items; fails = fails.items; pulls = 0; given = 0; faults = 0 } }
    {
        MemoryFeed {
            items,
            fails,
            pulls: 0,
            given: 0,
            faults: 0,
        }
    }
}

impl Feed for MemoryFeed {
    ghost use Rattle.std.specs.Prelude.{Some};
    ghost use Rattle.feature_feed.specs.Feed.{feed_view};

    ghost shows = { λ f. feed_view (Some f.left) f.given f.faults };

    /// Fails exactly where the number of the pull is in the list, and then no item was taken. It never answers `Memory`.
    fn next(&mut self) -> Result<Option<FeedItem>, FeedError>
        ensures taken { IfOk result (λ o. (items : List FeedItem) → Some self.old.left ≡ Some items → Gives items o (Some self.new.left)) }
        ensures told { (items : List FeedItem) → Some self.new.left ≡ Some items → (before : List FeedItem) × (Some self.old.left ≡ Some before) }
        ensures unchanged { OnErr result ((items : List FeedItem) → Some self.new.left ≡ Some items → Some self.old.left ≡ Some items) }
        ensures count { self.new.given ≡ given_after self.old.given result }
        ensures later { self.old.faults ≤ self.new.faults }
        ensures kept { result ≢ Err FeedError.Failed → self.new.faults ≡ self.old.faults }
        ensures cause { result ≡ Err FeedError.Failed → Rose self.old.faults self.new.faults }

        ensures fails { (result ≡ Err FeedError.Failed) ↔ FailsNext self.old.fails self.old.pulls }
        ensures memory { result ≢ Err FeedError.Memory }
        ensures first { IfOk result (λ o. o ≡ first_item self.old.left) }
        ensures ok { IfOk result (λ o. self.new ≡ after_pull self.old o) }
        ensures err { OnErr result (self.new ≡ after_failed_pull self.old) }
    {
        self.pulls = self.pulls.saturating_add(1);
        if self.fails.contains(&self.pulls) {
            self.faults = self.faults.saturating_add(1);
            return Err(FeedError::Failed);
        }
        let item = self.items.pop_front();
        if item.is_some() {
            self.given = self.given.saturating_add(1);
        }
        Ok(item)
    }
}
