//! A feed of the rows of a source of CSV.

ghost use Rattle.std.specs.Prelude.{◌≡◌, ◌≢◌, ◌≤◌, List, Some, None, Err, IfOk, OnErr, option_map, take};
ghost use Rattle.geo_outside.specs.Device.{Rose, most_bytes};
ghost use Rattle.feature_feed.specs.Csv.{csv_items, row_items};
ghost use Rattle.feature_feed.specs.Feed.{Gives, given_after};
ghost use Rattle.feature_feed.specs.declared.feed.FeedItem.{FeedItem};

use crate::csv_rows::Rows;
use crate::feed::{Feed, FeedError, FeedItem};
use crate::steady_source::SteadySource;
use crate::taking::take_source;
use feature_reader::raw::RawRow;
use geo_base::refusal::Memory;
use geo_outside::device::{MOST_BYTES, Source};
use std::alloc::Global;
use std::marker::Model;
use std::mem::replace;

/// A feed of the rows of a source of CSV, with commas, double quotes and rows of any lengths, and no field trimmed. A first
/// row of the four fields `id`, `text`, `zxy` and `score` is no item.
///
/// The first pull takes the whole source into memory, but at most its first 268,435,456 bytes, as if it ended there. Only
/// that can fail, and a pull after a failed one goes on with it. After a want of memory while rows are read, each pull
/// answers it again.
#[derive(Drop)]
pub struct CsvFeed<S: Source> {
    alloc: Global,
    source: SteadySource<S>,
    taken: Vec<u8>,
    // once all is taken
    opened: Option<Opened>,
}

impl<S: Source> Model for CsvFeed<S> {
    ghost use Rattle.feature_feed.specs.Feed.{FeedView};
    ghost use Rattle.feature_feed.specs.CsvFeed.{left_at, given_at};

    ghost Value = { FeedView };

    ghost view = { λ f. record { left = left_at f.opened f.taken.items f.source.left; given = given_at f.opened; faults = f.source.faults } };
}

/// The rows of what was taken, and how many of them were given.
#[derive(Drop)]
struct Opened {
    rows: Rows,
    given: u64,
}

impl Opened {
    /// The next row. After a want of memory there is none any more, but that answer again.
    fn next(&mut self) -> Result<Option<FeedItem>, FeedError>
        ensures taken { IfOk result (λ o. (items : List FeedItem) → option_map row_items self.old.rows ≡ Some items → Gives items o (option_map row_items self.new.rows)) }
        ensures told { (items : List FeedItem) → option_map row_items self.new.rows ≡ Some items → (before : List FeedItem) × (option_map row_items self.old.rows ≡ Some before) }
        ensures lost { OnErr result (self.new.rows ≡ None) }
        ensures memory { result ≢ Err FeedError.Failed }
        ensures count { self.new.given ≡ given_after self.old.given result }
    {
        match self.rows.next() {
            Ok(Some(row)) => {
                self.given = self.given.saturating_add(1);
                Ok(Some(FeedItem::Row(RawRow::from_record(row))))
            }
            Ok(None) => Ok(None),
            Err(_) => Err(FeedError::Memory),
        }
    }
}

impl<S: Source + Drop> CsvFeed<S> {
    /// A feed of the rows of this source, of which nothing is taken yet.
    pub fn make(alloc: Global, source: S) -> Result<CsvFeed<S>, Memory>
        ensures left { IfOk result (λ f. f.left ≡ option_map (λ bytes. csv_items (take most_bytes bytes)) (S.left source)) }
        ensures given { IfOk result (λ f. f.given ≡ 0) }
        ensures faults { IfOk result (λ f. f.faults ≡ S.faults source) }
    {
        Ok(CsvFeed {
            alloc,
            source: SteadySource::new(source),
            taken: Vec::new(alloc),
            opened: None,
        })
    }

    /// Takes the source, if that isn't done yet.
    fn open(&mut self) -> Result<(), FeedError>
        ensures left { self.new.left ≡ self.old.left }
        ensures taking { result ≡ Err FeedError.Failed → self.old.given ≡ 0 }
        ensures given { self.new.given ≡ self.old.given }
        ensures later { self.old.faults ≤ self.new.faults }
        ensures kept { result ≢ Err FeedError.Failed → self.new.faults ≡ self.old.faults }
        ensures cause { result ≡ Err FeedError.Failed → Rose self.old.faults self.new.faults }
    {
        if self.opened.is_some() {
            return Ok(());
        }
        take_source(&mut self.source, &mut self.taken)?;
        let mut bytes = replace(&mut self.taken, Vec::new(self.alloc));
        bytes.truncate(MOST_BYTES); // cuts nothing off, but `take_source` speaks of these first bytes alone
        self.opened = Some(Opened {
            rows: Rows::new(self.alloc, bytes),
            given: 0,
        });
        Ok(())
    }
}

impl<S: Source + Drop> Feed for CsvFeed<S> {
    ghost shows = { λ f. f };

    /// The next row. `Failed` comes only while the source is taken, before any row is given; the items that are left are the
    /// same then, and the next pull goes on with the taking.
    fn next(&mut self) -> Result<Option<FeedItem>, FeedError>
        ensures taken { IfOk result (λ o. (items : List FeedItem) → self.old.left ≡ Some items → Gives items o self.new.left) }
        ensures told { (items : List FeedItem) → self.new.left ≡ Some items → (before : List FeedItem) × (self.old.left ≡ Some before) }
        ensures unchanged { OnErr result ((items : List FeedItem) → self.new.left ≡ Some items → self.old.left ≡ Some items) }
        ensures count { self.new.given ≡ given_after self.old.given result }
        ensures later { self.old.faults ≤ self.new.faults }
        ensures kept { result ≢ Err FeedError.Failed → self.new.faults ≡ self.old.faults }
        ensures cause { result ≡ Err FeedError.Failed → Rose self.old.faults self.new.faults }

        ensures same { result ≡ Err FeedError.Failed → self.new.left ≡ self.old.left }
        ensures taking { result ≡ Err FeedError.Failed → self.old.given ≡ 0 }
    {
        self.open()?;
        let Some(opened) = &mut self.opened else {
            return Err(FeedError::Memory);
        };
        opened.next()
    }
}
