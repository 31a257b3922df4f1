//! A session, line by line.

ghost use Rattle.std.specs.Prelude.{◌≡◌, ◌≢◌, ◌↔◌, ◌==◌, true, false, IsTrue, [], ◌∷◌, Ok, Err, IfOk, OnOk, OnErr, MatchOption};
ghost use Rattle.std.specs.List.{list_any};
ghost use Rattle.geo_base.specs.declared.refusal.Refused.TheVariants as refused;
ghost use Rattle.session_text.specs.Session.{SessionView, start, body_line, head_line, line_at, after_item, step_of, spent, load_line, is_asking, named_by, needs_no_room, Fits};
ghost use Rattle.session_text.specs.declared.item.Item.{Item};
ghost use Rattle.session_text.specs.declared.item.Item.TheVariants.{Body};
ghost use Rattle.session_text.specs.declared.session.Stage.TheVariants as at;
ghost use Rattle.session_text.specs.declared.why.Why.{Why};

use crate::body::{BodyLine, Round};
use crate::body_line::{
    read_ask, read_bare, read_drop, read_explain, read_limit, read_put, read_replay,
};
use crate::fields::{is_skipped, line_text, two_numbers, utf8};
use crate::head_line::{read_langs_line, read_layer_line, read_title};
use crate::item::{Item, Word, word_of};
use crate::why::Why;
use feature_reader::read_feature::FeatureReader;
use geo_base::refusal::{Memory, Refused};
use geo_layer::head::Head;
use geo_layer::langs::Langs;
use geo_layer::layers::Layers;
use geo_text::cut::first_word;
use std::alloc::Global;
use std::marker::Model;

/// The most bytes of a line, with a carriage return at its end.
pub const LONGEST: usize = 1_048_576;

/// Which lines of a session may ask.
#[derive(Clone, Copy, Debug, PartialEq, Eq)]
pub enum Kind {
    /// `ask` alone.
    Asks,
    /// `ask`, `explain` and `replay`.
    Replays,
}

/// Where a session stands.
#[derive(Clone, Copy, Debug, PartialEq, Eq)]
pub enum Stage {
    /// Before its title.
    BeforeHead,
    /// Directly after its title.
    AfterTitle,
    /// In its head, after the languages or a layer.
    InHead,
    /// In its body.
    InBody,
    /// After its end.
    Ended,
    /// A line had this fault.
    Spent(Why),
}

/// What a line does to a session.
#[derive(Drop)]
pub enum Step {
    /// It was taken, and closes no round.
    More,
    /// It closes this round.
    Ready(Round),
    /// It closes the last round, and the session.
    Last(Round),
}

/// A session that is read line by line, seen as where it stands, its head, the lines of the open
/// round, the feeds that were named, how many feeds there are, and which lines may ask.
#[derive(Drop)]
pub struct Session {
    head: Head,
    round: Round,
    /// How many lines of the round ask.
    asks: u64,
    named: Vec<u32>,
    feeds: u32,
    stage: Stage,
    kind: Kind,
    reader: FeatureReader,
    alloc: Global,
}

impl Model for Session {
    ghost use Rattle.std.specs.Prelude.{◌≡◌, count_by};
    ghost use Rattle.session_text.specs.Session.{SessionView, is_asking};

    ghost Value = { SessionView };

    ghost view = { λ s. record { stage = s.stage; head = s.head; round = s.round; named = s.named.items; feeds = s.feeds; kind = s.kind } };

    ghost invariant = { λ s. s.asks ≡ count_by is_asking s.round };
}

impl Session {
    /// A session before its first line, to which so many feeds are handed.
    pub fn new(alloc: Global, feeds: u32, kind: Kind) -> Session
        ensures { result ≡ start feeds kind }
    {
        Session {
            head: Head {
                langs: Langs::new(alloc),
                layers: Layers::new(alloc),
            },
            round: Round::new(alloc),
            asks: 0,
            named: Vec::new(alloc),
            feeds,
            stage: Stage::BeforeHead,
            kind,
            reader: FeatureReader::new(alloc),
            alloc,
        }
    }

    /// The head so far.
    pub fn head(&self) -> &Head
        ensures { result.now ≡ self.now.head }
    {
        &self.head
    }

    /// Whether the session has ended.
    pub fn is_ended(&self) -> bool
        ensures { IsTrue result ↔ (self.now.stage ≡ at.Ended) }
    {
        matches!(self.stage, Stage::Ended)
    }

    /// Takes the next line, without its line feed, and says what it does; or its first fault, with
    /// which the session is spent: it answers that fault to every line from then on. After want of
    /// memory the session is as before. All faults but `Lang`, `Layer` and `Feature` are found before any room is asked
    /// for, and so is the fault of a session that is spent.
    ///
    /// No line is taken after the one that ended the session.
    pub fn line(&mut self, bytes: &[u8]) -> Result<Step, Refused<Why>>
        requires { self.old.stage ≢ at.Ended }
        ensures step { IfOk result (λ step. (item : Item) × (line_at self.old bytes.now ≡ Ok item) × (step ≡ step_of self.old.round item) × (self.new ≡ after_item self.old item)) }
        ensures fault { (why : Why) → result ≡ Err (refused.Fault why) → (line_at self.old bytes.now ≡ Err why) × (self.new ≡ spent why self.old) }
        ensures outright { (why : Why) → needs_no_room why ≡ true → line_at self.old bytes.now ≡ Err why → result ≡ Err (refused.Fault why) }
        ensures again { (why : Why) → self.old.stage ≡ at.Spent why → result ≡ Err (refused.Fault why) }
        ensures memory { result ≡ Err refused.Memory → self.new ≡ self.old }
    {
        match self.read(bytes) {
            Ok(item) => Ok(self.apply(item)?),
            Err(Refused::Fault(why)) => {
                self.stage = Stage::Spent(why);
                Err(Refused::Fault(why))
            }
            Err(Refused::Memory) => Err(Refused::Memory),
        }
    }

    /// What a line says where the session stands, or its first fault.
    fn read(&mut self, bytes: &[u8]) -> Result<Item, Refused<Why>>
        ensures ok { IfOk result (λ item. line_at self.old bytes.now ≡ Ok item) }
        ensures fits { IfOk result (λ item. Fits self.old item) }
        ensures fault { (why : Why) → result ≡ Err (refused.Fault why) → line_at self.old bytes.now ≡ Err why }
        ensures memory { result ≡ Err refused.Memory → (why : Why) → line_at self.old bytes.now ≡ Err why → needs_no_room why ≡ false }
        ensures again { (why : Why) → self.old.stage ≡ at.Spent why → result ≡ Err (refused.Fault why) }
        ensures kept { self.new ≡ self.old }
    {
        if let Stage::Spent(why) = self.stage {
            return Err(Refused::Fault(why));
        }
        if bytes.len() > LONGEST {
            return Err(Refused::Fault(Why::Long));
        }
        let Some(line) = utf8(bytes) else {
            return Err(Refused::Fault(Why::Utf8));
        };
        let text = line_text(line);
        if is_skipped(text.as_bytes()) {
            return Ok(Item::Skipped);
        }
        match self.stage {
            Stage::BeforeHead => told(read_title(text.as_bytes())),
            Stage::AfterTitle => self.read_head(true, text),
            Stage::InHead => self.read_head(false, text),
            Stage::InBody | Stage::Ended => self.read_body(text),
            Stage::Spent(why) => Err(Refused::Fault(why)),
        }
    }

    /// What a line of the head says; languages are listed directly after the title alone.
    fn read_head(&mut self, first: bool, text: &str) -> Result<Item, Refused<Why>>
        ensures ok { IfOk result (λ item. head_line self.old first text.now ≡ Ok item) }
        ensures fits { IfOk result (λ item. Fits self.old item) }
        ensures fault { (why : Why) → result ≡ Err (refused.Fault why) → head_line self.old first text.now ≡ Err why }
        ensures memory { result ≡ Err refused.Memory → (why : Why) → head_line self.old first text.now ≡ Err why → needs_no_room why ≡ false }
        ensures kept { self.new ≡ self.old }
    {
        let bytes = text.as_bytes();
        let word = first_word(bytes);
        if first && word == b"langs".as_slice() {
            return read_langs_line(self.alloc, text);
        }
        if word == b"layer".as_slice() {
            return read_layer_line(self.alloc, &self.head.layers, bytes);
        }
        if self.head.layers.len() == 0 {
            return Err(Refused::Fault(Why::Word));
        }
        self.read_body(text)
    }

    /// What a line of the body says.
    fn read_body(&mut self, text: &str) -> Result<Item, Refused<Why>>
        ensures ok { IfOk result (λ item. body_line self.old text.now ≡ Ok item) }
        ensures fits { IfOk result (λ item. Fits self.old item) }
        ensures fault { (why : Why) → result ≡ Err (refused.Fault why) → body_line self.old text.now ≡ Err why }
        ensures memory { result ≡ Err refused.Memory → (why : Why) → body_line self.old text.now ≡ Err why → needs_no_room why ≡ false }
        ensures kept { self.new ≡ self.old }
    {
        let bytes = text.as_bytes();
        match word_of(self.kind, first_word(bytes)) {
            Some(Word::Put) => read_put(&mut self.reader, &self.head, bytes),
            Some(Word::Drop) => told(read_drop(&self.head, bytes)),
            Some(Word::Load) => told(self.read_load(bytes)),
            Some(Word::Limit) => told(read_limit(bytes)),
            Some(Word::Publish) => told(read_bare(Item::Body(BodyLine::Publish), bytes)),
            Some(Word::Ask) => read_ask(self.alloc, self.asks, text),
            Some(Word::Explain) => read_explain(self.alloc, self.asks, text),
            Some(Word::Replay) => read_replay(self.alloc, self.asks, text),
            Some(Word::Join) => told(read_bare(Item::Join, bytes)),
            Some(Word::End) => told(read_bare(Item::End, bytes)),
            None => Err(Refused::Fault(Why::Word)),
        }
    }

    /// `load F L`.
    fn read_load(&self, text: &[u8]) -> Result<Item, Why>
        ensures { result ≡ load_line self.now text.now }
    {
        let Some((feed, layer)) = two_numbers(text) else {
            return Err(Why::Form);
        };
        if layer >= self.head.layers.len() as u64 {
            return Err(Why::Number);
        }
        if feed >= u64::from(self.feeds) {
            return Err(Why::Feed);
        }
        if is_among(&self.named, feed) {
            return Err(Why::Feed);
        }
        Ok(Item::Body(BodyLine::Load {
            feed: feed as u32,
            layer: layer as u8,
        }))
    }

    /// Goes on after a line that says this, and fits; after want of memory the session is as before.
    fn apply(&mut self, item: Item) -> Result<Step, Memory>
        requires { Fits self.old item }
        ensures step { IfOk result (λ step. step ≡ step_of self.old.round item) }
        ensures ok { OnOk result (self.new ≡ after_item self.old item) }
        ensures err { OnErr result (self.new ≡ self.old) }
    {
        match item {
            Item::Skipped => {}
            Item::Title => self.stage = Stage::AfterTitle,
            Item::Langs(langs) => {
                self.head.langs = langs;
                self.stage = Stage::InHead;
            }
            Item::Layer(layer) => {
                self.head.layers.push(layer)?;
                self.stage = Stage::InHead;
            }
            Item::Body(line) => self.add(line)?,
            Item::Join => return Ok(Step::Ready(self.close(Stage::InBody))),
            Item::End => return Ok(Step::Last(self.close(Stage::Ended))),
        }
        Ok(Step::More)
    }

    /// Adds a line of the body to the open round.
    fn add(&mut self, line: BodyLine) -> Result<(), Memory>
        requires { Fits self.old (Body line) }
        ensures ok { OnOk result (self.new ≡ after_item self.old (Body line)) }
        ensures err { OnErr result (self.new ≡ self.old) }
    {
        let asks = is_asking(&line);
        match named_by(&line) {
            Some(feed) => {
                self.named.push(feed)?;
                if self.round.push(line).is_err() {
                    self.named.pop();
                    return Err(Memory);
                }
            }
            None => self.round.push(line)?,
        }
        if asks {
            self.asks += 1;
        }
        self.stage = Stage::InBody;
        Ok(())
    }

    /// Closes the open round, and gives its lines.
    fn close(&mut self, stage: Stage) -> Round
        ensures round { result ≡ self.old.round }
        ensures session { self.new ≡ record self.old { stage = stage; round = [] } }
    {
        self.stage = stage;
        self.asks = 0;
        std::mem::replace(&mut self.round, Round::new(self.alloc))
    }
}

/// What was read without asking for memory.
fn told(read: Result<Item, Why>) -> Result<Item, Refused<Why>>
    ensures ok { IfOk result (λ item. read ≡ Ok item) }
    ensures fault { (why : Why) → result ≡ Err (refused.Fault why) → read ≡ Err why }
    ensures no_memory { result ≢ Err refused.Memory }
{
    match read {
        Ok(item) => Ok(item),
        Err(why) => Err(Refused::Fault(why)),
    }
}

/// Whether the feed is one of these.
fn is_among(named: &[u32], feed: u64) -> bool
    ensures { result ≡ list_any (λ f. f == feed) named.now }
{
    named.iter().any(|other| u64::from(*other) == feed)
}

/// Whether the line asks something.
fn is_asking(line: &BodyLine) -> bool
    ensures { result ≡ is_asking line.now }
{
    match line {
        BodyLine::Ask { .. } => true,
        BodyLine::Explain { .. } => true,
        BodyLine::Replay { .. } => true,
        _ => false,
    }
}

/// The feed that a line names.
fn named_by(line: &BodyLine) -> Option<u32>
    ensures { MatchOption result (named_by line.now ≡ []) (λ feed. named_by line.now ≡ feed ∷ []) }
{
    match line {
        BodyLine::Load { feed, .. } => Some(*feed),
        _ => None,
    }
}
