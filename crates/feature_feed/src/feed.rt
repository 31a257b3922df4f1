//! Feeds, their items, and what a pull may answer.

ghost use Rattle.std.specs.Prelude.{◌≡◌, ◌≢◌, ◌≤◌, List, Some, Err, IfOk, OnErr};
ghost use Rattle.geo_outside.specs.Device.{Rose};
ghost use Rattle.feature_feed.specs.Feed.{FeedView, Gives, given_after};
ghost use Rattle.feature_feed.specs.declared.feed.FeedItem.{FeedItem};

use feature_reader::raw::{RawRow, RawText};

/// What may stand for a feature.
#[derive(Drop)]
pub enum FeedItem {
    /// The bytes of a JSON text.
    Json(RawText),
    /// The fields of a row of CSV.
    Row(RawRow),
}

/// Why a pull gave nothing.
#[derive(Clone, Copy, Debug, PartialEq, Eq)]
pub enum FeedError {
    /// What is behind the feed failed, and has counted a fault.
    Failed,
    /// The feed could not get the memory that it wanted. That is no fault, and may come at any pull.
    Memory,
}

/// Where features come from, item by item.
pub trait Feed: Drop {
    /// What it shows: the items that are left, in order, or `None` where it can't tell them; how many items were given so far;
    /// and how many pulls have failed so far. Both counts go up to 2^64 - 1, where they stand still.
    ghost shows: { Self → FeedView };

    /// Gives the first of the items that are left, or `None` exactly where none is left. After an error no item was
    /// taken, and the feed may no longer tell its items. At `Failed` the count of faults has risen; every other answer
    /// leaves it.
    fn next(&mut self) -> Result<Option<FeedItem>, FeedError>
        ensures taken { IfOk result (λ o. (items : List FeedItem) → (shows self.old).left ≡ Some items → Gives items o (shows self.new).left) }
        ensures told { (items : List FeedItem) → (shows self.new).left ≡ Some items → (before : List FeedItem) × ((shows self.old).left ≡ Some before) }
        ensures unchanged { OnErr result ((items : List FeedItem) → (shows self.new).left ≡ Some items → (shows self.old).left ≡ Some items) }
        ensures count { (shows self.new).given ≡ given_after (shows self.old).given result }
        ensures later { (shows self.old).faults ≤ (shows self.new).faults }
        ensures kept { result ≢ Err FeedError.Failed → (shows self.new).faults ≡ (shows self.old).faults }
        ensures cause { result ≡ Err FeedError.Failed → Rose (shows self.old).faults (shows self.new).faults };
}
