//! Reads the lines of a session's body.

ghost use Rattle.std.specs.Prelude.{◌≡◌, false, List, count_by, Ok, Err, IfOk};
ghost use Rattle.geo_base.specs.declared.refusal.Refused.TheVariants as refused;
ghost use Rattle.session_text.specs.Session.{put_line, drop_line, limit_line, ask_line, explain_line, replay_line, bare_line, is_asking, needs_no_room};
ghost use Rattle.session_text.specs.declared.body.BodyLine.{BodyLine};
ghost use Rattle.session_text.specs.declared.why.Why.{Why};

use crate::body::BodyLine;
use crate::events::{are_events, read_events};
use crate::fields::{has_semicolon, is_bare, next_field, one_number, two_numbers};
use crate::item::Item;
use crate::why::Why;
use feature_reader::read_feature::FeatureReader;
use geo_base::refusal::Refused;
use geo_layer::head::Head;
use geo_text::cut::{after_word_of, before, first_word, skip_spaces_of, text_after};
use geo_text::number::number;
use geo_text::text::Text;
use std::alloc::Global;

/// The most lines of a round that ask.
const MOST_ASKS: u64 = 4096;

/// `put L JSON`.
pub fn read_put(reader: &mut FeatureReader, head: &Head, text: &[u8]) -> Result<Item, Refused<Why>>
    ensures ok { IfOk result (λ item. put_line head.now text.now ≡ Ok item) }
    ensures fault { (why : Why) → result ≡ Err (refused.Fault why) → put_line head.now text.now ≡ Err why }
    ensures memory { result ≡ Err refused.Memory → (why : Why) → put_line head.now text.now ≡ Err why → needs_no_room why ≡ false }
{
    let fields = next_field(text);
    let Some(place) = number(first_word(fields)) else {
        return Err(Refused::Fault(Why::Form));
    };
    if place >= head.layers.len() as u64 {
        return Err(Refused::Fault(Why::Number));
    }
    let layer = head.layers.at(place as usize);
    match reader.read(layer, &head.langs, next_field(fields)) {
        Ok(feature) => Ok(Item::Body(BodyLine::Put {
            layer: place as u8,
            feature,
        })),
        Err(Refused::Fault(fault)) => Err(Refused::Fault(Why::Feature(fault))),
        Err(Refused::Memory) => Err(Refused::Memory),
    }
}

/// `drop L ID`.
pub fn read_drop(head: &Head, text: &[u8]) -> Result<Item, Why>
    ensures { result ≡ drop_line head.now text.now }
{
    let Some((layer, id)) = two_numbers(text) else {
        return Err(Why::Form);
    };
    if layer >= head.layers.len() as u64 {
        return Err(Why::Number);
    }
    if id >= 67_108_864 {
        return Err(Why::Number);
    }
    Ok(Item::Body(BodyLine::Drop {
        layer: layer as u8,
        id: id as u32,
    }))
}

/// `limit N`.
pub fn read_limit(text: &[u8]) -> Result<Item, Why>
    ensures { result ≡ limit_line text.now }
{
    let Some(n) = one_number(text) else {
        return Err(Why::Form);
    };
    if n < 1 {
        return Err(Why::Number);
    }
    if n > 8_388_608 {
        return Err(Why::Number);
    }
    Ok(Item::Body(BodyLine::Limit { n }))
}

/// `ask LANE QUERY`, in a round in which so many lines ask.
pub fn read_ask(alloc: Global, asks: u64, text: &str) -> Result<Item, Refused<Why>>
    ensures ok { (round : List BodyLine) → count_by is_asking round ≡ asks → IfOk result (λ item. ask_line round text.now ≡ Ok item) }
    ensures fault { (round : List BodyLine) → count_by is_asking round ≡ asks → (why : Why) → result ≡ Err (refused.Fault why) → ask_line round text.now ≡ Err why }
    ensures memory { result ≡ Err refused.Memory → (round : List BodyLine) → count_by is_asking round ≡ asks → (why : Why) → ask_line round text.now ≡ Err why → needs_no_room why ≡ false }
{
    let fields = skip_spaces_of(after_word_of(text));
    let Some(lane) = number(first_word(fields.as_bytes())) else {
        return Err(Refused::Fault(Why::Form));
    };
    if lane >= 8 {
        return Err(Refused::Fault(Why::Number));
    }
    if asks >= MOST_ASKS {
        return Err(Refused::Fault(Why::Asks));
    }
    Ok(Item::Body(BodyLine::Ask {
        lane: lane as u8,
        text: Text::of(alloc, after_word_of(fields))?,
    }))
}

/// `explain QUERY`, in a round in which so many lines ask.
pub fn read_explain(alloc: Global, asks: u64, text: &str) -> Result<Item, Refused<Why>>
    ensures ok { (round : List BodyLine) → count_by is_asking round ≡ asks → IfOk result (λ item. explain_line round text.now ≡ Ok item) }
    ensures fault { (round : List BodyLine) → count_by is_asking round ≡ asks → (why : Why) → result ≡ Err (refused.Fault why) → explain_line round text.now ≡ Err why }
    ensures memory { result ≡ Err refused.Memory → (round : List BodyLine) → count_by is_asking round ≡ asks → (why : Why) → explain_line round text.now ≡ Err why → needs_no_room why ≡ false }
{
    if asks >= MOST_ASKS {
        return Err(Refused::Fault(Why::Asks));
    }
    Ok(Item::Body(BodyLine::Explain {
        text: Text::of(alloc, after_word_of(text))?,
    }))
}

/// `replay EVENTS ; QUERY`, in a round in which so many lines ask. All words are tried before room is asked for.
pub fn read_replay(alloc: Global, asks: u64, text: &str) -> Result<Item, Refused<Why>>
    ensures ok { (round : List BodyLine) → count_by is_asking round ≡ asks → IfOk result (λ item. replay_line round text.now ≡ Ok item) }
    ensures fault { (round : List BodyLine) → count_by is_asking round ≡ asks → (why : Why) → result ≡ Err (refused.Fault why) → replay_line round text.now ≡ Err why }
    ensures memory { result ≡ Err refused.Memory → (round : List BodyLine) → count_by is_asking round ≡ asks → (why : Why) → replay_line round text.now ≡ Err why → needs_no_room why ≡ false }
{
    let fields = after_word_of(text);
    if !has_semicolon(fields.as_bytes()) {
        return Err(Refused::Fault(Why::Form));
    }
    let words = before(fields.as_bytes(), b';');
    if !are_events(words) {
        return Err(Refused::Fault(Why::Form));
    }
    if asks >= MOST_ASKS {
        return Err(Refused::Fault(Why::Asks));
    }
    let Some(events) = read_events(alloc, words)? else {
        return Err(Refused::Fault(Why::Form));
    };
    Ok(Item::Body(BodyLine::Replay {
        events,
        text: Text::of(alloc, text_after(fields, b';'))?,
    }))
}

/// A line of one word, which says this.
pub fn read_bare(item: Item, text: &[u8]) -> Result<Item, Why>
    ensures { result ≡ bare_line item text.now }
{
    if !is_bare(text) {
        return Err(Why::Form);
    }
    Ok(item)
}
