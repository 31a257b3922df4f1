//! Layers that are filled from feeds whose source fails once.

use crate::features::place;
use feature_feed::csv_feed::CsvFeed;
use feature_feed::drain::drain;
use feature_feed::feed::Feed;
use feature_feed::json_lines_feed::JsonLinesFeed;
use feature_reader::load_report::LoadEnd;
use feature_reader::table::FeatureTable;
use geo_layer::head::Head;
use geo_layer::langs::Langs;
use geo_layer::layers::Layers;
use geo_outside::memory::MemorySource;
use std::alloc::Global;
use std::process::Abort;

/// A source of this text, whose second read fails.
fn failing(rt: &impl Abort, alloc: Global, text: &str) -> MemorySource {
    MemorySource::new(
        Vec::from_slice(alloc, text.as_bytes()).expect(rt, "memory"),
        Vec::from_slice(alloc, &[2]).expect(rt, "memory"),
    )
}

/// Drains a feed into the only layer of a head: how many items were read, how many of them are bad, and how that ended.
fn drained(
    rt: &impl Abort,
    alloc: Global,
    feed: &mut Box<dyn Feed>,
    table: &mut FeatureTable,
) -> (u32, u32, LoadEnd) {
    let mut layers = Layers::new(alloc);
    layers.push(place(rt, alloc)).expect(rt, "memory");
    let head = Head {
        langs: Langs::new(alloc),
        layers,
    };
    assert!(rt; head.layers.len() == 1);
    let report = drain(alloc, feed, 0, &head, table).expect(rt, "memory");
    (report.read, report.bad, report.end)
}

/// Lines of JSON: an empty one, a feature, a text that is none, and a feature without a line feed.
const LINES: &str = "
{\"id\":5,\"properties\":{\"carmen:text\":\"a\",\"carmen:zxy\":[\"6/0/0\"]}}\r
{\"id\":6
{\"id\":7,\"properties\":{\"carmen:text\":\"a\",\"carmen:zxy\":[\"6/0/0\"]}}";

/// Rows of CSV: the header, a feature with two names on two tiles, and a row without an id.
const ROWS: &str = "id,text,zxy,score\r\n3,\"Paris,Lutece\",6/1/1 6/2/1,15\r\nx,Rome,6/1/1,1\r\n";

#[test]
fn a_load_ends_with_the_fault_and_the_next_goes_on(rt: HostRuntime) {
    let alloc = rt.alloc();
    let lines = JsonLinesFeed::make(alloc, failing(&rt, alloc, LINES)).expect(&rt, "memory");
    let rows = CsvFeed::make(alloc, failing(&rt, alloc, ROWS)).expect(&rt, "memory");
    let mut lines: Box<dyn Feed> = Box::new(alloc, lines).expect(&rt, "memory");
    let mut rows: Box<dyn Feed> = Box::new(alloc, rows).expect(&rt, "memory");
    let mut table = FeatureTable::new(alloc);
    assert!(&rt; drained(&rt, alloc, &mut lines, &mut table) == (2, 1, LoadEnd::Fault));
    assert_eq!(&rt; table.len(), 1);
    assert!(&rt; drained(&rt, alloc, &mut lines, &mut table) == (1, 0, LoadEnd::End));
    assert!(&rt; drained(&rt, alloc, &mut rows, &mut table) == (0, 0, LoadEnd::Fault));
    assert_eq!(&rt; table.len(), 2);
    assert!(&rt; drained(&rt, alloc, &mut rows, &mut table) == (2, 1, LoadEnd::End));
    let copy = table.copy().expect(&rt, "memory");
    assert_eq!(&rt; (copy.len(), copy.rows()), (3, 6));
}
