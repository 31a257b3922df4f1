//! Layers of features, and why a text stands for none.

ghost use Rattle.std.specs.Prelude.{◌≡◌, ◌↔◌, IsTrue, ◌≤◌, true, None, [], IfOk, option_map};
ghost use Rattle.geo_layer.specs.Layer.{LayerView, IsLayer, is_name};

use geo_base::refusal::Memory;
use geo_text::text::{Text, Tokens};
use geo_text::token_map::TokenMap;
use std::alloc::Global;
use std::marker::Model;

/// Why a text stands for no layer, in the order in which the faults are tried.
#[derive(Clone, Copy, Debug, PartialEq, Eq)]
pub enum LayerFault {
    /// It isn't JSON, or no object.
    Json,
    /// `name` is no string of 1 to 32 characters out of `a` to `z`, `0` to `9`, `_` and `-`.
    Name,
    /// `zoom` is no whole number from 0 to 16.
    Zoom,
    /// The zoom is below that of the last layer before.
    Falling,
    /// `stack` is there and no list of at most 64 strings of the form of a name.
    Stack,
    /// `tokens` is there and no object of at most 4,096 members whose keys and string values have one token
    /// each, the keys' tokens all different.
    Tokens,
    /// 16 layers stand already.
    TooMany,
    /// `scoremax` is there and no whole number from 1 to 1,000,000,000.
    ScoreMax,
}

impl LayerFault {
    /// Whether the two are the same.
    pub fn is(&self, other: &LayerFault) -> bool
        ensures { IsTrue result ↔ (self.now ≡ other.now) }
    {
        self == other
    }
}

/// A layer of features.
#[derive(Drop)]
pub struct Layer {
    name: Text,
    stack: Option<Tokens>,
    tokens: TokenMap,
    scoremax: u32,
    zoom: u8,
}

impl Model for Layer {
    ghost use Rattle.geo_layer.specs.Layer.{LayerView, IsLayer};

    ghost Value = { LayerView };

    ghost view = { λ l. record { name = l.name; zoom = l.zoom; stack = l.stack; scoremax = l.scoremax; tokens = l.tokens } };

    ghost invariant = { λ l. IsLayer (record { name = l.name; zoom = l.zoom; stack = l.stack; scoremax = l.scoremax; tokens = l.tokens }) };
}

impl Layer {
    /// The layer of this name and zoom, that may be stacked with every other, whose highest score is 15,
    /// and that replaces no tokens.
    pub fn new(alloc: Global, name: Text, zoom: u8) -> Layer
        requires name { is_name name ≡ true }
        requires zoom { zoom ≤ 16 }
        ensures { result ≡ record { name = name; zoom = zoom; stack = None; scoremax = 15; tokens = [] } }
    {
        Layer::from_parts(name, zoom, None, 15, TokenMap::new(alloc))
    }

    /// The layer of these parts, which have to make one (`IsLayer`).
    pub fn from_parts(
        name: Text,
        zoom: u8,
        stack: Option<Tokens>,
        scoremax: u32,
        tokens: TokenMap,
    ) -> Layer
        requires { IsLayer (record { name = name; zoom = zoom; stack = stack; scoremax = scoremax; tokens = tokens }) }
        ensures { result ≡ record { name = name; zoom = zoom; stack = stack; scoremax = scoremax; tokens = tokens } }
    {
        Layer {
            name,
            zoom,
            stack,
            scoremax,
            tokens,
        }
    }

    /// The name: 1 to 32 characters out of `a` to `z`, `0` to `9`, `_` and `-`.
    pub fn name(&self) -> &str
        ensures value { result.now ≡ self.now.name }
        ensures is { IsLayer self.now }
    {
        self.name.as_str()
    }

    /// The zoom of the layer's tiles, 0 to 16.
    pub fn zoom(&self) -> u8
        ensures value { result ≡ self.now.zoom }
        ensures is { IsLayer self.now }
    {
        self.zoom
    }

    /// The words by which the layer may be stacked with others, at most 64; None where it may be
    /// stacked with every other.
    pub fn stack(&self) -> Option<&Tokens>
        ensures value { option_map (λ s. s.now) result ≡ self.now.stack }
        ensures is { IsLayer self.now }
    {
        self.stack.as_ref()
    }

    /// The score that counts as the highest level, 1 to 1,000,000,000.
    pub fn scoremax(&self) -> u32
        ensures value { result ≡ self.now.scoremax }
        ensures is { IsLayer self.now }
    {
        self.scoremax
    }

    /// What tokens are replaced by, in features and in queries, at most 4,096.
    pub fn tokens(&self) -> &TokenMap
        ensures value { result.now ≡ self.now.tokens }
        ensures is { IsLayer self.now }
    {
        &self.tokens
    }

    /// An equal layer.
    pub fn copy(&self) -> Result<Layer, Memory>
        ensures { IfOk result (λ l. l ≡ self.now) }
    {
        let stack = match &self.stack {
            Some(words) => Some(words.copy()?),
            None => None,
        };
        Ok(Layer {
            name: self.name.copy()?,
            zoom: self.zoom,
            stack,
            scoremax: self.scoremax,
            tokens: self.tokens.copy()?,
        })
    }
}
