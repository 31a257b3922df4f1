//! The lines of a session's body.

ghost use Rattle.std.specs.Prelude.{◌≡◌, List, [], ◌∷◌, ◌++◌, OnOk, OnErr, MatchOption};
ghost use Rattle.session_text.specs.declared.body.BodyLine.{BodyLine};

use crate::events::Events;
use feature_reader::feature::Feature;
use geo_base::refusal::Memory;
use geo_text::text::Text;
use std::alloc::Global;
use std::collections::VecDeque;
use std::marker::Model;

/// A line of a session's body.
#[derive(Drop)]
pub enum BodyLine {
    /// Puts a feature into the layer of this number, counted from 0.
    Put { layer: u8, feature: Feature },
    /// Removes the feature of this layer and id, which is below 2^26.
    Drop { layer: u8, id: u32 },
    /// Puts the features of the feed of this number, counted from 0, into a layer.
    Load { feed: u32, layer: u8 },
    /// Sets the grid limit of later publications, 1 to 8,388,608.
    Limit { n: u64 },
    /// Publishes the next generation.
    Publish,
    /// Asks a query on a lane, 0 to 7.
    Ask { lane: u8, text: Text },
    /// Asks a query, and how many partials its search opens and cuts.
    Explain { text: Text },
    /// Asks a query, whose search goes by these events.
    Replay { events: Events, text: Text },
}

/// What a line says beside the feature, the text and the events that it carries.
#[derive(Clone, Copy)]
enum LineKind {
    Put { layer: u8 },
    Drop { layer: u8, id: u32 },
    Load { feed: u32, layer: u8 },
    Limit { n: u64 },
    Publish,
    Ask { lane: u8 },
    Explain,
    Replay,
}

/// The lines of a body that are answered one after another, seen as a list.
///
/// What lines carry is kept apart, in their order, so a line that carries nothing takes 16 bytes.
#[derive(Drop)]
pub struct Round {
    lines: VecDeque<LineKind>,
    features: VecDeque<Feature>,
    texts: VecDeque<Text>,
    events: VecDeque<Events>,
}

impl Model for Round {
    ghost use Rattle.std.specs.Prelude.{List};
    ghost use Rattle.session_text.specs.declared.body.BodyLine.{BodyLine};
    ghost use Rattle.session_text.specs.Carried.{lines_of, IsCarried};

    ghost Value = { List BodyLine };

    ghost view = { λ r. lines_of r.lines.items r.features.items r.texts.items r.events.items };

    ghost invariant = { λ r. (lines : List BodyLine) × IsCarried lines r.lines.items r.features.items r.texts.items r.events.items };
}

impl Round {
    /// No lines; takes no memory.
    pub fn new(alloc: Global) -> Round
        ensures { result ≡ [] }
    {
        Round {
            lines: VecDeque::new(alloc),
            features: VecDeque::new(alloc),
            texts: VecDeque::new(alloc),
            events: VecDeque::new(alloc),
        }
    }

    /// Adds a line at the end; after want of memory the round is as before.
    pub fn push(&mut self, line: BodyLine) -> Result<(), Memory>
        ensures ok { OnOk result (self.new ≡ self.old ++ line ∷ []) }
        ensures err { OnErr result (self.new ≡ self.old) }
    {
        self.lines.reserve(1)?;
        match line {
            BodyLine::Put { layer, feature } => {
                self.features.push_back(feature)?;
                self.lines.push_back_reserved(LineKind::Put { layer });
            }
            BodyLine::Drop { layer, id } => {
                self.lines.push_back_reserved(LineKind::Drop { layer, id })
            }
            BodyLine::Load { feed, layer } => {
                self.lines
                    .push_back_reserved(LineKind::Load { feed, layer })
            }
            BodyLine::Limit { n } => self.lines.push_back_reserved(LineKind::Limit { n }),
            BodyLine::Publish => self.lines.push_back_reserved(LineKind::Publish),
            BodyLine::Ask { lane, text } => {
                self.texts.push_back(text)?;
                self.lines.push_back_reserved(LineKind::Ask { lane });
            }
            BodyLine::Explain { text } => {
                self.texts.push_back(text)?;
                self.lines.push_back_reserved(LineKind::Explain);
            }
            BodyLine::Replay { events, text } => {
                self.texts.reserve(1)?;
                self.events.push_back(events)?;
                self.texts.push_back_reserved(text);
                self.lines.push_back_reserved(LineKind::Replay);
            }
        }
        Ok(())
    }

    /// The first line, taken out; None where there is none.
    pub fn next(&mut self) -> Option<BodyLine>
        ensures { MatchOption result (self.old ≡ []) (λ line. self.old ≡ line ∷ self.new) }
    {
        match self.lines.pop_front()? {
            LineKind::Put { layer } => {
                let feature = self.features.pop_front()?;
                Some(BodyLine::Put { layer, feature })
            }
            LineKind::Drop { layer, id } => Some(BodyLine::Drop { layer, id }),
            LineKind::Load { feed, layer } => Some(BodyLine::Load { feed, layer }),
            LineKind::Limit { n } => Some(BodyLine::Limit { n }),
            LineKind::Publish => Some(BodyLine::Publish),
            LineKind::Ask { lane } => {
                let text = self.texts.pop_front()?;
                Some(BodyLine::Ask { lane, text })
            }
            LineKind::Explain => {
                let text = self.texts.pop_front()?;
                Some(BodyLine::Explain { text })
            }
            LineKind::Replay => {
                let events = self.events.pop_front()?;
                let text = self.texts.pop_front()?;
                Some(BodyLine::Replay { events, text })
            }
        }
    }
}
