//! The layers of a session, and which of them may stand in one context.

ghost use Rattle.std.specs.Prelude.{◌≡◌, ◌<◌, ◌≤◌, ◌∷◌, ◌++◌, [], length, slice_get, Some, OnOk, OnErr, IfOk, option_map, bytes_eq};
ghost use Rattle.std.specs.List.{list_any};
ghost use Rattle.geo_layer.specs.Layer.{AreLayers, compat, are_compatible, share_word};
ghost use Rattle.geo_layer.specs.LayerText.{last_zoom};

use crate::layer::Layer;
use geo_base::refusal::Memory;
use geo_text::text::{Text, Tokens};
use std::alloc::Global;
use std::marker::Model;

/// At most 16 layers, seen as a list, whose zooms never fall. A layer's number is its place, counted from 0.
#[derive(Drop)]
pub struct Layers {
    list: Vec<Layer>,
}

impl Model for Layers {
    ghost use Rattle.std.specs.Prelude.{List};
    ghost use Rattle.geo_layer.specs.Layer.{LayerView, AreLayers};

    ghost Value = { List LayerView };

    ghost view = { λ l. l.list.items };

    ghost invariant = { λ l. AreLayers l.list.items };
}

impl Layers {
    /// No layers.
    pub fn new(alloc: Global) -> Layers
        ensures { result ≡ [] }
    {
        Layers {
            list: Vec::new(alloc),
        }
    }

    /// Adds a layer at the end; after want of memory the layers are as before.
    pub fn push(&mut self, layer: Layer) -> Result<(), Memory>
        requires few { length self.old < 16 }
        requires rising { last_zoom self.old ≤ layer.zoom }
        ensures ok { OnOk result (self.new ≡ self.old ++ layer ∷ []) }
        ensures err { OnErr result (self.new ≡ self.old) }
    {
        let _zoom = layer.zoom();
        self.list.push(layer)?;
        Ok(())
    }

    /// The number of layers, at most 16.
    pub fn len(&self) -> usize
        ensures value { result ≡ length self.now }
        ensures are { AreLayers self.now }
    {
        self.list.len()
    }

    /// The layer of a number.
    pub fn at(&self, number: usize) -> &Layer
        requires { number < length self.now }
        ensures value { slice_get self.now number ≡ Some result.now }
        ensures are { AreLayers self.now }
    {
        &self.list[number]
    }

    /// The zoom of the last layer, 0 where there is none.
    pub fn last_zoom(&self) -> u8
        ensures { result ≡ last_zoom self.now }
    {
        match self.list.last() {
            Some(layer) => layer.zoom(),
            None => 0,
        }
    }

    /// Whether the layers of two numbers are compatible: their names differ, and their stacks
    /// share a word. An absent stack shares with every one, an empty one with an absent one alone.
    pub fn compatible(&self, a: u8, b: u8) -> bool
        requires a { a < length self.now }
        requires b { b < length self.now }
        ensures { result ≡ compat self.now a b }
    {
        are_compatible(&self.list[a as usize], &self.list[b as usize])
    }

    /// Equal layers.
    pub fn copy(&self) -> Result<Layers, Memory>
        ensures { IfOk result (λ l. l ≡ self.now) }
    {
        let mut list = Vec::with_capacity(*self.list.allocator(), self.list.len())?;
        for layer in &self.list {
            list.push(layer.copy()?)?;
        }
        Ok(Layers { list })
    }
}

/// Whether two layers are compatible.
fn are_compatible(a: &Layer, b: &Layer) -> bool
    ensures { result ≡ are_compatible a.now b.now }
{
    a.name() != b.name() && share_word(a.stack(), b.stack())
}

/// Whether the stacks share a word, or one is absent.
fn share_word(a: Option<&Tokens>, b: Option<&Tokens>) -> bool
    ensures { result ≡ share_word (option_map (λ s. s.now) a.entry) (option_map (λ s. s.now) b.entry) }
{
    match (a, b) {
        (Some(a), Some(b)) => have_one(a.as_slice(), b.as_slice()),
        _ => true,
    }
}

/// Whether one of the first words is one of the others.
fn have_one(words: &[Text], others: &[Text]) -> bool
    ensures { result ≡ list_any (λ x. list_any (bytes_eq x) others.now) words.now }
{
    words.iter().any(|word| contains(others, word.as_str()))
}

/// Whether the word is one of these.
fn contains(words: &[Text], word: &str) -> bool
    ensures { result ≡ list_any (bytes_eq word.now) words.now }
{
    words.iter().any(|other| word == other.as_str())
}
