//! Features, and why a text or a row stands for none.

ghost use Rattle.std.specs.Prelude.{◌≡◌, ◌↔◌, IsTrue, IfOk};
ghost use Rattle.feature_reader.specs.FeatureView.{FeatureView, IsFeature};

use crate::phrase::Phrases;
use crate::tiles::Tiles;
use geo_base::refusal::Memory;
use std::alloc::AllocError;
use std::marker::Model;

/// Why a JSON text or a row of CSV stands for no feature, in the order in which the faults are tried.
#[derive(Clone, Copy, Debug, PartialEq, Eq)]
pub enum FeatureFault {
    /// The text isn't JSON, or no object whose `properties` are an object; the row hasn't four fields, or one of them isn't
    /// UTF-8.
    Json,
    /// `id` is no whole number from 0 to 67,108,863; the first field of the row isn't 1 to 10 digits, or spells more than that.
    Id,
    /// `carmen:text` is absent or no string, or a text in a language, `carmen:text_CODE`, is there and no string;
    /// never of a row.
    Text,
    /// `carmen:zxy` is no list of 1 to 4,096 strings that each name a tile; the third field of the row isn't 1 to 4,096 words
    /// that each name one.
    Zxy,
    /// A tile has another zoom than the layer.
    Zoom,
    /// `carmen:score` is there and no whole number, written without a fraction and an exponent, from -2^63 to 2^64 - 1;
    /// `-0` is none. The fourth field of the row is neither empty nor 1 to 18 digits behind an optional `-`; `-0` is 0 there.
    Score,
    /// `carmen:relev` is there and isn't 40, 60, 80 or 100; never of a row.
    Relev,
}

impl FeatureFault {
    /// Whether the two are the same.
    pub fn is(&self, other: &FeatureFault) -> bool
        ensures { IsTrue result ↔ (self.now ≡ other.now) }
    {
        self == other
    }
}

/// A feature of a layer: what it is found by, and where it lies.
#[derive(Drop)]
pub struct Feature {
    phrases: Phrases,
    tiles: Tiles,
    id: u32,
    score: u8,
}

impl Model for Feature {
    ghost use Rattle.feature_reader.specs.FeatureView.{FeatureView, IsFeature};

    ghost Value = { FeatureView };

    ghost view = { λ f. record { id = f.id; score = f.score; phrases = f.phrases; tiles = f.tiles } };

    ghost invariant = { λ f. IsFeature (record { id = f.id; score = f.score; phrases = f.phrases; tiles = f.tiles }) };
}

impl Feature {
    /// The feature of these parts, which have to make one (`IsFeature`).
    pub fn from_parts(id: u32, score: u8, phrases: Phrases, tiles: Tiles) -> Feature
        requires { IsFeature (record { id = id; score = score; phrases = phrases; tiles = tiles }) }
        ensures { result ≡ record { id = id; score = score; phrases = phrases; tiles = tiles } }
    {
        Feature {
            id,
            score,
            phrases,
            tiles,
        }
    }

    /// The id, below 2^26.
    pub fn id(&self) -> u32
        ensures value { result ≡ self.now.id }
        ensures is { IsFeature self.now }
    {
        self.id
    }

    /// The level of score, 0 to 15.
    pub fn score(&self) -> u8
        ensures value { result ≡ self.now.score }
        ensures is { IsFeature self.now }
    {
        self.score
    }

    /// The phrases, each once.
    pub fn phrases(&self) -> &Phrases
        ensures value { result.now ≡ self.now.phrases }
        ensures is { IsFeature self.now }
    {
        &self.phrases
    }

    /// The 1 to 4,096 tiles, rising by column and then row.
    pub fn tiles(&self) -> &Tiles
        ensures value { result.now ≡ self.now.tiles }
        ensures is { IsFeature self.now }
    {
        &self.tiles
    }

    /// An equal feature.
    pub fn copy(&self) -> Result<Feature, Memory>
        ensures { IfOk result (λ f. f ≡ self.now) }
    {
        Ok(Feature {
            id: self.id,
            score: self.score,
            phrases: self.phrases.copy()?,
            tiles: self.tiles.copy()?,
        })
    }
}

impl Clone for Feature {
    ghost is_clone = { λ f g. g ≡ f };

    fn clone(&self) -> Result<Feature, AllocError> {
        match self.copy() {
            Ok(feature) => Ok(feature),
            Err(_) => Err(AllocError),
        }
    }
}
