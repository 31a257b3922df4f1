//! Phrases: the texts under which a feature is found.

ghost use Rattle.std.specs.Prelude.{◌≡◌, List, [], ◌∷◌, ◌++◌, ◌<◌, length, slice_get, Some, OnOk, OnErr, IfOk};
ghost use Rattle.feature_reader.specs.declared.phrase.Phrase.{Phrase};

use geo_base::lang_set::LangSet;
use geo_base::refusal::Memory;
use geo_text::text::Text;
use std::alloc::Global;
use std::marker::Model;

/// A text of a feature, the languages that it speaks for, and how relevant it is.
#[derive(Drop)]
pub struct Phrase {
    /// The languages that it speaks for.
    pub set: LangSet,
    /// The tokens with one space between them.
    pub text: Text,
    /// The relevance: 40, 60, 80 or 100.
    pub relev: u8,
}

impl Phrase {
    /// An equal phrase.
    pub fn copy(&self) -> Result<Phrase, Memory>
        ensures { IfOk result (λ p. p ≡ self.now) }
    {
        Ok(Phrase {
            text: self.text.copy()?,
            set: self.set,
            relev: self.relev,
        })
    }
}

/// Phrases, seen as a list.
#[derive(Drop)]
pub struct Phrases {
    list: Vec<Phrase>,
}

impl Model for Phrases {
    ghost use Rattle.std.specs.Prelude.{List};
    ghost use Rattle.feature_reader.specs.declared.phrase.Phrase.{Phrase};

    ghost Value = { List Phrase };

    ghost view = { λ p. p.list.items };
}

impl Phrases {
    /// No phrases.
    pub fn new(alloc: Global) -> Phrases
        ensures { result ≡ [] }
    {
        Phrases {
            list: Vec::new(alloc),
        }
    }

    /// Adds a phrase at the end; after want of memory the list is as before.
    pub fn push(&mut self, phrase: Phrase) -> Result<(), Memory>
        ensures ok { OnOk result (self.new ≡ self.old ++ phrase ∷ []) }
        ensures err { OnErr result (self.new ≡ self.old) }
    {
        self.list.push(phrase)?;
        Ok(())
    }

    /// The number of phrases.
    pub fn len(&self) -> usize
        ensures { result ≡ length self.now }
    {
        self.list.len()
    }

    /// The phrase at a place, counted from 0.
    pub fn at(&self, place: usize) -> &Phrase
        requires { place < length self.now }
        ensures { slice_get self.now place ≡ Some result.now }
    {
        &self.list[place]
    }

    /// The phrases.
    pub fn as_slice(&self) -> &[Phrase]
        ensures { result.now ≡ self.now }
    {
        self.list.as_slice()
    }

    /// Equal phrases.
    pub fn copy(&self) -> Result<Phrases, Memory>
        ensures { IfOk result (λ p. p ≡ self.now) }
    {
        let mut list = Vec::with_capacity(*self.list.allocator(), self.list.len())?;
        for phrase in &self.list {
            list.push(phrase.copy()?)?;
        }
        Ok(Phrases { list })
    }
}
