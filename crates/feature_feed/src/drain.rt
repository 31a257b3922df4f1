//! Fills what takes features from a feed.

ghost use Rattle.std.specs.Prelude.{◌≡◌, ◌≢◌, ◌≤◌, ◌<◌, ◌+◌, ◌↔◌, ◌++◌, List, Some, Ok, Err, true, IfOk, OnOk, OnErr, length, slice_get};
ghost use Rattle.geo_base.specs.declared.refusal.Refused.TheVariants as refused;
ghost use Rattle.geo_layer.specs.Layer.{LayerView};
ghost use Rattle.geo_outside.specs.Device.{Rose};
ghost use Rattle.feature_reader.specs.declared.feature.FeatureFault.{FeatureFault};
ghost use Rattle.feature_feed.specs.Feed.{Gives, given_after};
ghost use Rattle.feature_feed.specs.Drain.{feature_of_item, outcome_of, after_item, after_items, with_outcome, Gave, IsLoad};
ghost use Rattle.feature_feed.specs.Load.{Load, IsLoadOf, IsAllOf, report_of};
ghost use Rattle.feature_feed.specs.declared.feed.FeedItem.{FeedItem};
ghost use Rattle.feature_reader.specs.declared.load_report.LoadEnd.TheVariants as at;

use crate::feed::{Feed, FeedError, FeedItem};
use feature_reader::feature::{Feature, FeatureFault};
use feature_reader::load_report::{LoadEnd, LoadReport};
use feature_reader::read_feature::FeatureReader;
use feature_reader::taker::Taker;
use geo_base::refusal::{Memory, Refused};
use geo_layer::head::Head;
use geo_layer::langs::Langs;
use geo_layer::layer::Layer;
use std::alloc::Global;

/// The most items that a load pulls.
const MOST_ITEMS: u32 = 1_048_576;

/// What comes of an item.
#[derive(Clone, Copy, Debug, PartialEq, Eq)]
enum Outcome {
    /// Its feature was put.
    Put,
    /// It stands for no feature.
    Bad,
    /// Its feature was refused for a limit.
    Full,
}

/// One pull.
fn pull(feed: &mut Box<dyn Feed>) -> Result<Option<FeedItem>, FeedError>
    ensures taken { IfOk result (λ o. (items : List FeedItem) → (shows feed.old).left ≡ Some items → Gives items o (shows feed.new).left) }
    ensures told { (items : List FeedItem) → (shows feed.new).left ≡ Some items → (before : List FeedItem) × ((shows feed.old).left ≡ Some before) }
    ensures unchanged { OnErr result ((items : List FeedItem) → (shows feed.new).left ≡ Some items → (shows feed.old).left ≡ Some items) }
    ensures count { (shows feed.new).given ≡ given_after (shows feed.old).given result }
    ensures later { (shows feed.old).faults ≤ (shows feed.new).faults }
    ensures kept { result ≢ Err FeedError.Failed → (shows feed.new).faults ≡ (shows feed.old).faults }
    ensures cause { result ≡ Err FeedError.Failed → Rose (shows feed.old).faults (shows feed.new).faults }
{
    feed.next()
}

/// The feature of a layer that an item stands for, or its first fault.
fn feature_of(
    reader: &mut FeatureReader,
    layer: &Layer,
    langs: &Langs,
    item: &FeedItem,
) -> Result<Feature, Refused<FeatureFault>>
    ensures feature { IfOk result (λ f. feature_of_item layer.now langs.now item.now ≡ Ok f) }
    ensures fault { (e : FeatureFault) → result ≡ Err (refused.Fault e) → feature_of_item layer.now langs.now item.now ≡ Err e }
{
    match item {
        FeedItem::Json(text) => reader.read(layer, langs, text.as_slice()),
        FeedItem::Row(row) => reader.read_row(layer, langs, row),
    }
}

/// Puts the feature of an item into a layer, where it stands for one, and says what came of it; after want of memory all is
/// as before.
fn take_item<T: Taker>(
    reader: &mut FeatureReader,
    item: &FeedItem,
    place: u8,
    layer: &Layer,
    langs: &Langs,
    into: &mut T,
) -> Result<Outcome, Memory>
    requires { T.takes into.old place layer.now.zoom ≡ true }
    ensures layers { T.takes into.new ≡ T.takes into.old }
    ensures rest { T.with_table into.new ≡ T.with_table into.old }
    ensures outcome { IfOk result (λ o. o ≡ outcome_of layer.now langs.now place (T.table into.old) item.now) }
    ensures table { OnOk result (T.table into.new ≡ after_item layer.now langs.now place (T.table into.old) item.now) }
    ensures memory { OnErr result (T.table into.new ≡ T.table into.old) }
{
    match feature_of(reader, layer, langs, item) {
        Ok(feature) => {
            let _tiles = feature.tiles(); // brings the rule of a feature here: it has a tile
            match into.take(place, feature) {
                Ok(_) => Ok(Outcome::Put),
                Err(Refused::Fault(_)) => Ok(Outcome::Full),
                Err(Refused::Memory) => Err(Memory),
            }
        }
        Err(Refused::Fault(_)) => Ok(Outcome::Bad),
        Err(Refused::Memory) => Err(Memory),
    }
}

/// The report of a load that ended so.
fn ended(report: LoadReport, end: LoadEnd) -> LoadReport
    ensures { result ≡ record report { end = end } }
{
    let LoadReport {
        read,
        bad,
        full,
        end: _,
    } = report;
    LoadReport {
        read,
        bad,
        full,
        end,
    }
}

/// The report with one more item, of which this came.
fn with_outcome(report: LoadReport, outcome: Outcome) -> LoadReport
    requires { (report.read < 4294967295) × (report.bad ≤ report.read) × (report.full ≤ report.read) }
    ensures { result ≡ with_outcome report outcome }
{
    let LoadReport {
        read,
        bad,
        full,
        end,
    } = report;
    match outcome {
        Outcome::Put => LoadReport {
            read: read + 1,
            bad,
            full,
            end,
        },
        Outcome::Bad => LoadReport {
            read: read + 1,
            bad: bad + 1,
            full,
            end,
        },
        Outcome::Full => LoadReport {
            read: read + 1,
            bad,
            full: full + 1,
            end,
        },
    }
}

/// Pulls items and puts each that stands for a feature into a layer, up to the limit.
fn fill<T: Taker>(
    alloc: Global,
    feed: &mut Box<dyn Feed>,
    place: u8,
    layer: &Layer,
    langs: &Langs,
    into: &mut T,
) -> Result<LoadReport, Memory>
    requires { T.takes into.old place layer.now.zoom ≡ true }
    ensures layers { T.takes into.new ≡ T.takes into.old }
    ensures rest { T.with_table into.new ≡ T.with_table into.old }
    ensures load { IfOk result (λ r. (gave : List FeedItem) × Gave (shows feed.old).left gave (shows feed.new).left × IsLoad layer.now langs.now place (T.table into.old) (T.table into.new) r gave) }
    ensures count { IfOk result (λ r. (shows feed.new).given < 18446744073709551615 → (shows feed.new).given ≡ (shows feed.old).given + r.read) }
    ensures ended { IfOk result (λ r. r.end ≡ at.End → (r.read < 1048576) × ((items : List FeedItem) → (shows feed.old).left ≡ Some items → r.read ≡ length items)) }
    ensures fault { IfOk result (λ r. r.end ≡ at.Fault → (r.read < 1048576) × Rose (shows feed.old).faults (shows feed.new).faults) }
    ensures limit { IfOk result (λ r. (r.end ≡ at.Limit) ↔ (r.read ≡ 1048576)) }
    ensures later { (shows feed.old).faults ≤ (shows feed.new).faults }
    ensures kept { IfOk result (λ r. r.end ≢ at.Fault → (shows feed.new).faults ≡ (shows feed.old).faults) }
    ensures memory_kept { OnErr result ((shows feed.new).faults ≡ (shows feed.old).faults) }
    ensures memory { OnErr result ((gave more : List FeedItem) × (length more ≤ 1) × Gave (shows feed.old).left (gave ++ more) (shows feed.new).left × (T.table into.new ≡ after_items layer.now langs.now place (T.table into.old) gave) × ((shows feed.new).given < 18446744073709551615 → (shows feed.new).given ≡ (shows feed.old).given + length (gave ++ more))) }
{
    let mut reader = FeatureReader::new(alloc);
    let mut report = LoadReport {
        read: 0,
        bad: 0,
        full: 0,
        end: LoadEnd::Limit,
    };
    for _ in 0..MOST_ITEMS {
        match pull(feed) {
            Ok(Some(item)) => {
                let taken = take_item(&mut reader, &item, place, layer, langs, into);
                let Ok(outcome) = taken else {
                    return Err(Memory);
                };
                report = with_outcome(report, outcome);
            }
            Ok(None) => return Ok(ended(report, LoadEnd::End)),
            Err(FeedError::Failed) => return Ok(ended(report, LoadEnd::Fault)),
            Err(FeedError::Memory) => return Err(Memory),
        }
    }
    Ok(report)
}

/// Loads a layer of the head from a feed: pulls items, reads each and puts each that stands for a feature of the layer into
/// it, until the feed has no more, fails, or has given 1,048,576 items. The report says how many items were given, how many of
/// them stand for no feature, how many features were refused for a limit, and how it ended.
///
/// After a fault the items given before stand. After want of memory so do those given before the one for which there was
/// none, at the most one item was given besides, and no pull failed. The feed is pulled no more after either.
pub fn drain<T: Taker>(
    alloc: Global,
    feed: &mut Box<dyn Feed>,
    layer: u8,
    head: &Head,
    into: &mut T,
) -> Result<LoadReport, Memory>
    requires within { layer < length head.now.layers }
    requires takes { (l : LayerView) → slice_get head.now.layers layer ≡ Some l → T.takes into.old layer l.zoom ≡ true }
    ensures layers { T.takes into.new ≡ T.takes into.old }
    ensures rest { T.with_table into.new ≡ T.with_table into.old }
    ensures load { (l : LayerView) → slice_get head.now.layers layer ≡ Some l → IfOk result (λ r. (load : Load) × IsLoadOf (shows feed.old) (shows feed.new) load × IsAllOf (shows feed.old) (shows feed.new) load
        × (r ≡ report_of l head.now.langs layer (T.table into.old) load) × (T.table into.new ≡ after_items l head.now.langs layer (T.table into.old) load.gave)) }
    ensures later { (shows feed.old).faults ≤ (shows feed.new).faults }
    ensures memory_kept { OnErr result ((shows feed.new).faults ≡ (shows feed.old).faults) }
    ensures memory { (l : LayerView) → slice_get head.now.layers layer ≡ Some l → OnErr result ((gave more : List FeedItem) × (length more ≤ 1) × Gave (shows feed.old).left (gave ++ more) (shows feed.new).left × (T.table into.new ≡ after_items l head.now.langs layer (T.table into.old) gave) × ((shows feed.new).given < 18446744073709551615 → (shows feed.new).given ≡ (shows feed.old).given + length (gave ++ more))) }
{
    fill(
        alloc,
        feed,
        layer,
        head.layers.at(layer as usize),
        &head.langs,
        into,
    )
}
