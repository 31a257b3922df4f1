//! Answers the lines of a round in order, and makes their text.

ghost use Rattle.std.specs.Prelude.{◌≡◌, ◌<◌, ◌≤◌, ℕ, ◌+◌, List, [], ◌∷◌, length, map, slice_get, All, OnOk, OnErr, IfOk, Some, Ok, Err};
ghost use Rattle.std.specs.Arc.{arc_value};
ghost use Rattle.geo_layer.specs.declared.head.Head.{Head};
ghost use Rattle.geo_layer.specs.Layer.{LayerView};
ghost use Rattle.feature_reader.specs.Table.{put, put_answer};
ghost use Rattle.feature_reader.specs.declared.taker.PutFault.{PutFault};
ghost use Rattle.feature_feed.specs.Drain.{after_items};
ghost use Rattle.feature_feed.specs.Load.{Loads, Load, report_of};
ghost use Rattle.search_core.specs.Machine.{worker_of};
ghost use Rattle.session_text.specs.Reading.{feeds_named};
ghost use Rattle.session_text.specs.Session.{named_by};
ghost use Rattle.session_text.specs.declared.body.BodyLine.{BodyLine};
ghost use Rattle.session_text.specs.declared.body.BodyLine.TheVariants as body;
ghost use Rattle.query_server.specs.Generations.{new_builder};
ghost use Rattle.query_server.specs.Plain.{no_asks};
ghost use Rattle.query_server.specs.Running.{Stood, builder_of, IsOfSession, HasPlace, RunLoads, Agrees, IsPulled, MayBePulled, ArePulled, AreLoaded, IsStep, IsAnswered, IsReady};

use crate::answering::{explained_reply, replayed_reply};
use feature_feed::drain::drain;
use feature_feed::feed::Feed;
use feature_reader::feature::Feature;
use feature_reader::load_report::LoadReport;
use feature_reader::taker::{PutFault, Taken, Taker};
use generation::builder::Builder;
use generation::generation::Generation;
use geo_base::refusal::{Memory, Refused};
use geo_layer::head::Head;
use geo_text::text::Text;
use session_text::body::{BodyLine, Round};
use session_text::events::Events;
use session_text::write::{
    write_drop, write_explain, write_limit, write_load, write_published, write_put, write_replay,
    write_reply,
};
use std::alloc::Global;
use std::sync::Arc;

/// What stands while a session is answered: the builder, what was published last, and how often each lane has asked.
#[derive(Drop)]
pub struct Standing {
    /// The features that stand, and what the next generation is made of.
    pub builder: Builder,
    /// The generation that was published last; generation 0 counts as published from the start.
    pub last: Arc<Generation>,
    /// How many asks each lane has had.
    pub asks: [u64; 8],
}

impl Standing {
    /// What stands before the first line of the body: generation 0, which is empty.
    pub fn new(alloc: Global, head: &Head) -> Result<Standing, Memory>
        ensures builder { IfOk result (λ s. builder_of head.now (Some s) ≡ new_builder head.now) }
        ensures asks { IfOk result (λ s. s.asks ≡ no_asks) }
        ensures session { IfOk result (λ s. IsOfSession head.now (Some s)) }
    {
        let mut builder = Builder::new(alloc, head.copy()?)?;
        let last = builder.make()?;
        Ok(Standing {
            builder,
            last,
            asks: [0; 8],
        })
    }
}

/// Takes a feature into a layer, and says what the put answers.
fn take_feature(
    builder: &mut Builder,
    layer: u8,
    feature: Feature,
) -> Result<Result<Taken, PutFault>, Memory>
    requires { HasPlace builder.old.head layer feature }
    ensures answer { IfOk result (λ answer. answer ≡ put_answer builder.old.table layer feature) }
    ensures builder { OnOk result (builder.new ≡ record builder.old { table = put builder.old.table layer feature }) }
    ensures limit { (fault : PutFault) → put_answer builder.old.table layer feature ≡ Err fault → result ≡ Ok (Err fault) }
{
    let _id = feature.id(); // brings the rule of a feature here: it has a tile
    match builder.take(layer, feature) {
        Ok(taken) => Ok(Ok(taken)),
        Err(Refused::Fault(fault)) => Ok(Err(fault)),
        Err(Refused::Memory) => Err(Memory),
    }
}

/// Puts a feature into a layer.
fn put(
    standing: &mut Standing,
    layer: u8,
    feature: Feature,
    out: &mut Vec<u8>,
) -> Result<(), Memory>
    requires { HasPlace standing.old.builder.head layer feature }
    ensures { (loads : Loads) (head : Head) → OnOk result (IsStep loads head (body.Put layer feature) (Some standing.old) (Some standing.new) out.old.items out.new.items) }
{
    let id = feature.id();
    let answer = take_feature(&mut standing.builder, layer, feature)?;
    write_put(out, layer, id, &answer)
}

/// Removes a feature from a layer.
fn drop_feature(
    standing: &mut Standing,
    layer: u8,
    id: u32,
    out: &mut Vec<u8>,
) -> Result<(), Memory>
    ensures { (loads : Loads) (head : Head) → OnOk result (IsStep loads head (body.Drop layer id) (Some standing.old) (Some standing.new) out.old.items out.new.items) }
{
    let gone = standing.builder.drop_feature(layer, id);
    write_drop(out, layer, id, gone)
}

/// Sets the grid limit of later publications.
fn set_limit(standing: &mut Standing, n: u64, out: &mut Vec<u8>) -> Result<(), Memory>
    requires some { 1 ≤ n }
    requires most { n ≤ 8388608 }
    ensures { (loads : Loads) (head : Head) → OnOk result (IsStep loads head (body.Limit n) (Some standing.old) (Some standing.new) out.old.items out.new.items) }
{
    standing.builder.set_limit(n);
    write_limit(out, n)
}

/// Publishes a generation of the features that stand.
fn publish(standing: &mut Standing, out: &mut Vec<u8>) -> Result<(), Memory>
    requires few { standing.old.builder.next < 4294967295 }
    ensures { (loads : Loads) (head : Head) → IsOfSession head (Some standing.old) → OnOk result (IsStep loads head body.Publish (Some standing.old) (Some standing.new) out.old.items out.new.items) }
{
    standing.last = standing.builder.make()?;
    write_published(out, standing.last.number())
}

/// Answers a query.
fn ask(
    alloc: Global,
    standing: &mut Standing,
    lane: u8,
    text: &Text,
    out: &mut Vec<u8>,
) -> Result<(), Memory>
    requires lane { lane < 8 }
    requires few { All (λ n. n < 4294967295) standing.old.asks }
    ensures { (loads : Loads) (head : Head) → IsOfSession head (Some standing.old) → OnOk result (IsStep loads head (body.Ask lane text.now) (Some standing.old) (Some standing.new) out.old.items out.new.items) }
{
    let said = explained_reply(alloc, &standing.last, text.as_str());
    let place = standing.asks[lane as usize];
    write_reply(out, lane, place, &said.reply)?;
    standing.asks[lane as usize] = place + 1;
    Ok(())
}

/// Answers a query, and tells how many partials its search opened and cut.
fn explain(alloc: Global, standing: &Standing, text: &Text, out: &mut Vec<u8>) -> Result<(), Memory>
    ensures { (loads : Loads) (head : Head) → IsOfSession head (Some standing.now) → OnOk result (IsStep loads head (body.Explain text.now) (Some standing.now) (Some standing.now) out.old.items out.new.items) }
{
    let said = explained_reply(alloc, &standing.last, text.as_str());
    write_explain(out, &said.reply, said.opens, said.cuts)
}

/// Answers a query by a search that goes by these events.
fn replay(
    alloc: Global,
    standing: &Standing,
    events: &Events,
    text: &Text,
    out: &mut Vec<u8>,
) -> Result<(), Memory>
    requires { All (λ e. worker_of e < 8) events.now }
    ensures { (loads : Loads) (head : Head) → IsOfSession head (Some standing.now) → OnOk result (IsStep loads head (body.Replay events.now text.now) (Some standing.now) (Some standing.now) out.old.items out.new.items) }
{
    let said = replayed_reply(alloc, &standing.last, events.as_slice(), text.as_str());
    write_replay(out, &said)
}

/// Fills a layer of the builder from a feed that was lent.
fn drain_feed(
    alloc: Global,
    feeds: &mut Vec<Box<dyn Feed>>,
    feed: u32,
    layer: u8,
    head: &Head,
    builder: &mut Builder,
) -> Result<LoadReport, Memory>
    requires feed { feed < length feeds.old.items }
    requires layer { layer < length head.now.layers }
    requires head { builder.old.head ≡ head.now }
    ensures loaded { (l : LayerView) → slice_get head.now.layers layer ≡ Some l
        → IfOk result (λ r. (load : Load) × IsPulled feed load (map (λ b. shows b) feeds.old.items) (map (λ b. shows b) feeds.new.items) × (r ≡ report_of l head.now.langs layer builder.old.table load) × (builder.new ≡ record builder.old { table = after_items l head.now.langs layer builder.old.table load.gave })) }
    ensures stopped { OnErr result (MayBePulled (feed ∷ []) (map (λ b. shows b) feeds.old.items) (map (λ b. shows b) feeds.new.items)) }
    ensures count { length feeds.new.items ≡ length feeds.old.items }
{
    drain(alloc, &mut feeds[feed as usize], layer, head, builder)
}

/// Loads a layer from a feed that was lent.
fn load(
    alloc: Global,
    head: &Head,
    standing: &mut Standing,
    feeds: &mut Vec<Box<dyn Feed>>,
    feed: u32,
    layer: u8,
    out: &mut Vec<u8>,
) -> Result<(), Memory>
    requires feed { feed < length feeds.old.items }
    requires layer { layer < length head.now.layers }
    requires session { IsOfSession head.now (Some standing.old) }
    ensures loaded { OnOk result ((load : Load) × IsPulled feed load (map (λ b. shows b) feeds.old.items) (map (λ b. shows b) feeds.new.items)
        × ((loads : Loads) → loads feed ≡ load → IsStep loads head.now (body.Load feed layer) (Some standing.old) (Some standing.new) out.old.items out.new.items)) }
    ensures stopped { OnErr result (MayBePulled (feed ∷ []) (map (λ b. shows b) feeds.old.items) (map (λ b. shows b) feeds.new.items)) }
    ensures count { length feeds.new.items ≡ length feeds.old.items }
{
    let report = drain_feed(alloc, feeds, feed, layer, head, &mut standing.builder)?;
    write_load(out, feed, layer, &report)
}

/// Answers a line.
fn answer_line(
    alloc: Global,
    head: &Head,
    standing: &mut Standing,
    feeds: &mut Vec<Box<dyn Feed>>,
    line: BodyLine,
    out: &mut Vec<u8>,
) -> Result<(), Memory>
    requires { (bound : ℕ) × (left : List BodyLine) × (bound ≤ 4294967295) × IsReady (length feeds.old.items) head.now bound (line ∷ left) (Some standing.old) }
    ensures answered { OnOk result ((done : RunLoads) × (map (λ d. d.0) done ≡ named_by line) × ArePulled done [] (map (λ b. shows b) feeds.old.items) (map (λ b. shows b) feeds.new.items)
        × ((loads : Loads) → Agrees loads done → IsStep loads head.now line (Some standing.old) (Some standing.new) out.old.items out.new.items)) }
    ensures stopped { OnErr result (MayBePulled (named_by line) (map (λ b. shows b) feeds.old.items) (map (λ b. shows b) feeds.new.items)) }
    ensures count { length feeds.new.items ≡ length feeds.old.items }
{
    match line {
        BodyLine::Put { layer, feature } => put(standing, layer, feature, out),
        BodyLine::Drop { layer, id } => drop_feature(standing, layer, id, out),
        BodyLine::Load { feed, layer } => load(alloc, head, standing, feeds, feed, layer, out),
        BodyLine::Limit { n } => set_limit(standing, n, out),
        BodyLine::Publish => publish(standing, out),
        BodyLine::Ask { lane, text } => ask(alloc, standing, lane, &text, out),
        BodyLine::Explain { text } => explain(alloc, standing, &text, out),
        BodyLine::Replay { events, text } => replay(alloc, standing, &events, &text, out),
    }
}

/// Answers the lines of a round, and gives their text.
fn answer_lines(
    alloc: Global,
    head: &Head,
    standing: &mut Standing,
    feeds: &mut Vec<Box<dyn Feed>>,
    round: Round,
) -> Result<Vec<u8>, Memory>
    requires { (bound : ℕ) × (bound ≤ 4294967295) × IsReady (length feeds.old.items) head.now bound round (Some standing.old) }
    ensures answered { IfOk result (λ text. (done : RunLoads) × AreLoaded round done (map (λ b. shows b) feeds.old.items) (map (λ b. shows b) feeds.new.items)
        × ((loads : Loads) → Agrees loads done → IsAnswered loads head.now round (Some standing.old) (Some standing.new) text.items)) }
    ensures ready { (bound : ℕ) → IsReady (length feeds.old.items) head.now bound round (Some standing.old) → OnOk result (IsReady (length feeds.old.items) head.now bound [] (Some standing.new)) }
    ensures stopped { OnErr result (MayBePulled (feeds_named round) (map (λ b. shows b) feeds.old.items) (map (λ b. shows b) feeds.new.items)) }
    ensures count { length feeds.new.items ≡ length feeds.old.items }
{
    let mut left = round;
    let mut out = Vec::new(alloc);
    while let Some(line) = left.next() {
        answer_line(alloc, head, standing, feeds, line, &mut out)?;
    }
    Ok(out)
}

/// What stands, taken out; before the first round it is generation 0, which is made then.
fn opened(alloc: Global, head: &Head, standing: &mut Option<Standing>) -> Result<Standing, Memory>
    ensures ready { (feeds bound : ℕ) (round : List BodyLine) → IsReady feeds head.now bound round standing.old → IfOk result (λ s. IsReady feeds head.now bound round (Some s)) }
    ensures answered { IfOk result (λ s. (loads : Loads) (round : List BodyLine) (new : Stood) (text : List ℕ) → IsAnswered loads head.now round (Some s) new text → IsAnswered loads head.now round standing.old new text) }
{
    match standing.take() {
        Some(now) => Ok(now),
        None => Standing::new(alloc, head),
    }
}

/// Answers the lines of a round, and gives their text; before the first round generation 0 is made.
pub fn answer_round(
    alloc: Global,
    head: &Head,
    standing: &mut Option<Standing>,
    feeds: &mut Vec<Box<dyn Feed>>,
    round: Round,
) -> Result<Vec<u8>, Memory>
    requires { (bound : ℕ) × (bound ≤ 4294967295) × IsReady (length feeds.old.items) head.now bound round standing.old }
    ensures answered { IfOk result (λ text. (done : RunLoads) × AreLoaded round done (map (λ b. shows b) feeds.old.items) (map (λ b. shows b) feeds.new.items)
        × ((loads : Loads) → Agrees loads done → IsAnswered loads head.now round standing.old standing.new text.items)) }
    ensures ready { (bound : ℕ) → IsReady (length feeds.old.items) head.now bound round standing.old → OnOk result (IsReady (length feeds.old.items) head.now bound [] standing.new) }
    ensures stopped { OnErr result (MayBePulled (feeds_named round) (map (λ b. shows b) feeds.old.items) (map (λ b. shows b) feeds.new.items)) }
    ensures count { length feeds.new.items ≡ length feeds.old.items }
{
    let mut now = opened(alloc, head, standing)?;
    let text = answer_lines(alloc, head, &mut now, feeds, round)?;
    *standing = Some(now);
    Ok(text)
}
