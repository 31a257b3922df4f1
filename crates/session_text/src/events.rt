//! Events of a search, in the words of a line.

ghost use Rattle.std.specs.Prelude.{◌≡◌, ◌<◌, ◌++◌, [], ◌∷◌, length, slice_get, is_some, Some, IfOk, OnOk, OnErr};
ghost use Rattle.geo_text.specs.Words.{words_of};
ghost use Rattle.session_text.specs.Events.{event_by, event_of, events_of};

use geo_base::event::Event;
use geo_base::refusal::Memory;
use geo_text::cut::next_word;
use std::alloc::Global;
use std::marker::Model;

/// Events of a search one after another, seen as a list.
#[derive(Drop)]
pub struct Events {
    list: Vec<Event>,
}

impl Model for Events {
    ghost use Rattle.std.specs.Prelude.{List};
    ghost use Rattle.geo_base.specs.declared.event.Event.{Event};

    ghost Value = { List Event };

    ghost view = { λ e. e.list.items };
}

impl Events {
    /// No events.
    pub fn new(alloc: Global) -> Events
        ensures { result ≡ [] }
    {
        Events {
            list: Vec::new(alloc),
        }
    }

    /// Adds an event at the end; after want of memory the list is as before.
    pub fn push(&mut self, event: Event) -> Result<(), Memory>
        ensures ok { OnOk result (self.new ≡ self.old ++ event ∷ []) }
        ensures err { OnErr result (self.new ≡ self.old) }
    {
        self.list.push(event)?;
        Ok(())
    }

    /// The number of events.
    pub fn len(&self) -> usize
        ensures { result ≡ length self.now }
    {
        self.list.len()
    }

    /// The event at a place, counted from 0.
    pub fn at(&self, place: usize) -> Event
        requires { place < length self.now }
        ensures { slice_get self.now place ≡ Some result }
    {
        self.list[place]
    }

    /// The events, in their order. Takes no memory.
    pub fn as_slice(&self) -> &[Event]
        ensures { result.now ≡ self.now }
    {
        self.list.as_slice()
    }
}

/// The event that a letter says of a worker.
fn event_by(letter: u8, worker: u8) -> Option<Event>
    ensures { result ≡ event_by letter worker }
{
    if letter == b'c' {
        Some(Event::Claim(worker))
    } else if letter == b'l' {
        Some(Event::Look(worker))
    } else if letter == b'x' {
        Some(Event::Cut(worker))
    } else if letter == b'o' {
        Some(Event::Open(worker))
    } else if letter == b'r' {
        Some(Event::Raise(worker))
    } else {
        None
    }
}

/// The event that a word is: `c`, `l`, `x`, `o` or `r`, and the digit of a worker, 0 to 7; None for any other word.
pub fn event_of(word: &[u8]) -> Option<Event>
    ensures { result ≡ event_of word.now }
{
    let [letter, digit] = word else {
        return None;
    };
    if *digit < b'0' {
        return None;
    }
    if *digit > b'7' {
        return None;
    }
    event_by(*letter, *digit - b'0')
}

/// Whether each of the words is an event.
pub fn are_events(text: &[u8]) -> bool
    ensures { result ≡ is_some (events_of (words_of text.now)) }
{
    let mut rest = text;
    while let Some((word, more)) = next_word(rest) {
        if event_of(word).is_none() {
            return false;
        }
        rest = more;
    }
    true
}

/// The events that the words are; None where one of them is none.
pub fn read_events(alloc: Global, text: &[u8]) -> Result<Option<Events>, Memory>
    ensures { IfOk result (λ o. o ≡ events_of (words_of text.now)) }
{
    let mut events = Events::new(alloc);
    let mut rest = text;
    while let Some((word, more)) = next_word(rest) {
        let Some(event) = event_of(word) else {
            return Ok(None);
        };
        events.push(event)?;
        rest = more;
    }
    Ok(Some(events))
}
