//! A feed of lines of JSON.

ghost use Rattle.std.specs.Prelude.{◌≡◌, ◌≢◌, ◌≤◌, List, Some, Err, IfOk, OnErr, take};
ghost use Rattle.std.specs.Option.{option_map};
ghost use Rattle.geo_outside.specs.Device.{Rose, most_bytes};
ghost use Rattle.feature_feed.specs.Feed.{Gives, given_after};
ghost use Rattle.feature_feed.specs.JsonLines.{json_items};
ghost use Rattle.feature_feed.specs.declared.feed.FeedItem.{FeedItem};

use crate::feed::{Feed, FeedError, FeedItem};
use crate::source_lines::SourceLines;
use feature_reader::raw::RawText;
use geo_base::refusal::Memory;
use geo_outside::device::Source;
use std::alloc::Global;
use std::marker::Model;

/// A feed of the lines of a source, each the bytes of a JSON text. A line is taken without its line feed and without one
/// carriage return before it, and one that isn't empty then is an item. A last line that no line feed ends counts too, and
/// keeps its carriage return. Only the first 268,435,456 bytes of the source are read, as if it ended there.
///
/// The bytes are read in blocks of 65,536, and a line may have any length. After an error nothing is lost: the next pull goes
/// on with the same line.
#[derive(Drop)]
pub struct JsonLinesFeed<S: Source> {
    lines: SourceLines<S>,
    given: u64,
}

impl<S: Source> Model for JsonLinesFeed<S> {
    ghost use Rattle.feature_feed.specs.Feed.{FeedView};
    ghost use Rattle.feature_feed.specs.JsonLines.{items_left};

    ghost Value = { FeedView };

    ghost view = { λ f. record { left = items_left f.lines.buffer f.lines.room f.lines.source.left; given = f.given; faults = f.lines.source.faults } };
}

impl<S: Source + Drop> JsonLinesFeed<S> {
    /// A feed of what the source has left.
    pub fn make(alloc: Global, source: S) -> Result<JsonLinesFeed<S>, Memory>
        ensures left { IfOk result (λ f. f.left ≡ option_map (λ bytes. json_items (take most_bytes bytes)) (S.left source)) }
        ensures given { IfOk result (λ f. f.given ≡ 0) }
        ensures faults { IfOk result (λ f. f.faults ≡ S.faults source) }
    {
        let lines = SourceLines::new(alloc, source)?;
        Ok(JsonLinesFeed { lines, given: 0 })
    }
}

impl<S: Source + Drop> Feed for JsonLinesFeed<S> {
    ghost shows = { λ f. f };

    /// Gives the next line that isn't empty. After an error the items that are left are the same.
    fn next(&mut self) -> Result<Option<FeedItem>, FeedError>
        ensures taken { IfOk result (λ o. (items : List FeedItem) → self.old.left ≡ Some items → Gives items o self.new.left) }
        ensures told { (items : List FeedItem) → self.new.left ≡ Some items → (before : List FeedItem) × (self.old.left ≡ Some before) }
        ensures unchanged { OnErr result ((items : List FeedItem) → self.new.left ≡ Some items → self.old.left ≡ Some items) }
        ensures count { self.new.given ≡ given_after self.old.given result }
        ensures later { self.old.faults ≤ self.new.faults }
        ensures kept { result ≢ Err FeedError.Failed → self.new.faults ≡ self.old.faults }
        ensures cause { result ≡ Err FeedError.Failed → Rose self.old.faults self.new.faults }

        ensures same { OnErr result (self.new.left ≡ self.old.left) }
    {
        let Some(text) = self.lines.next_text()? else {
            return Ok(None);
        };
        self.given = self.given.saturating_add(1);
        Ok(Some(FeedItem::Json(RawText::from_vec(text))))
    }
}
