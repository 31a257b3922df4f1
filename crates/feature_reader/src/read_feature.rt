//! Reads features from the bytes of JSON texts and from rows of CSV, one after another.

ghost use Rattle.std.specs.Prelude.{◌≡◌, Ok, Err, IfOk};
ghost use Rattle.geo_base.specs.declared.refusal.Refused.TheVariants as refused;
ghost use Rattle.feature_reader.specs.Feature.{feature_of};
ghost use Rattle.feature_reader.specs.Row.{feature_of_row};
ghost use Rattle.feature_reader.specs.declared.feature.FeatureFault.{FeatureFault};

use crate::feature::{Feature, FeatureFault};
use crate::raw::RawRow;
use crate::row::members_of_row;
use crate::rules::feature_of_members;
use feature_json::members::members_of;
use geo_base::refusal::Refused;
use geo_base::tile::Tile;
use geo_layer::langs::Langs;
use geo_layer::layer::Layer;
use geo_text::normalizer::Normalizer;
use json::Scratch;
use std::alloc::Global;
use std::marker::Model;

/// What is needed to read features: room for the tokens of a JSON text, for the tiles that it names and for texts on their
/// way to tokens. It grows to what the longest text needs and is kept, so that a text asks for room for its feature and,
/// where there are any, for its texts in languages and for a look-up of many phrases. It has no value that a caller sees, and serves as before after want of memory.
#[derive(Drop)]
pub struct FeatureReader {
    alloc: Global,
    scratch: Scratch<Global>,
    tiles: Vec<Tile>,
    normalizer: Normalizer,
}

impl Model for FeatureReader {
    ghost Value = { Unit {0} };

    ghost view = { λ r. tt };
}

impl FeatureReader {
    /// No room yet; takes no memory.
    pub fn new(alloc: Global) -> FeatureReader {
        FeatureReader {
            alloc,
            scratch: Scratch::new(alloc),
            tiles: Vec::new(alloc),
            normalizer: Normalizer::new(alloc),
        }
    }

    /// The feature of the layer that the bytes of a JSON text stand for, or the first of its faults: `Json` where the bytes
    /// aren't UTF-8, no JSON text or no object, else as [`feature_of_members`] says. Of equal keys the last value stays,
    /// and members that no rule names play no part.
    ///
    /// Memory may be refused in place of any answer.
    pub fn read(
        &mut self,
        layer: &Layer,
        langs: &Langs,
        text: &[u8],
    ) -> Result<Feature, Refused<FeatureFault>>
        ensures feature { IfOk result (λ f. feature_of layer.now langs.now text.now ≡ Ok f) }
        ensures fault { (e : FeatureFault) → result ≡ Err (refused.Fault e) → feature_of layer.now langs.now text.now ≡ Err e }
    {
        let found = members_of(self.alloc, text, &mut self.scratch, &mut self.tiles)?;
        let Some(members) = found else {
            return Err(Refused::Fault(FeatureFault::Json));
        };
        feature_of_members(
            self.alloc,
            &mut self.normalizer,
            layer,
            langs,
            &members,
            &mut self.tiles,
        )
    }

    /// The feature of the layer that a row of CSV stands for, whose fields are its id, its text, its tiles and its score, or
    /// the first of its faults, in the order of [`FeatureFault`]:
    ///
    /// - `Json` where it hasn't four fields or one of them isn't UTF-8;
    /// - `Id` where the first isn't 1 to 10 digits or spells more than 67,108,863;
    /// - `Zxy` where the third, split at spaces, has no part that isn't empty, more than 4,096, repeats counted, or one that
    ///   names no tile, as `6/33/32` does;
    /// - `Zoom` where a tile has another zoom than the layer;
    /// - `Score` where the fourth is neither empty, which counts as 0, nor 1 to 18 digits behind an optional `-`.
    ///
    /// The second field is the one text, which speaks for all languages, and no relevance is given. So `Text` and `Relev`
    /// never come. The phrases, the level and the tiles are made as [`feature_of_members`] says.
    ///
    /// Memory may be refused in place of any answer.
    pub fn read_row(
        &mut self,
        layer: &Layer,
        langs: &Langs,
        row: &RawRow,
    ) -> Result<Feature, Refused<FeatureFault>>
        ensures feature { IfOk result (λ f. feature_of_row layer.now langs.now row.now ≡ Ok f) }
        ensures fault { (e : FeatureFault) → result ≡ Err (refused.Fault e) → feature_of_row layer.now langs.now row.now ≡ Err e }
    {
        let found = members_of_row(self.alloc, row, &mut self.tiles)?;
        let Some(members) = found else {
            return Err(Refused::Fault(FeatureFault::Json));
        };
        feature_of_members(
            self.alloc,
            &mut self.normalizer,
            layer,
            langs,
            &members,
            &mut self.tiles,
        )
    }
}

/// The feature that [`FeatureReader::read`] gives of one text alone.
pub fn read_feature(
    alloc: Global,
    layer: &Layer,
    langs: &Langs,
    text: &[u8],
) -> Result<Feature, Refused<FeatureFault>>
    ensures feature { IfOk result (λ f. feature_of layer.now langs.now text.now ≡ Ok f) }
    ensures fault { (e : FeatureFault) → result ≡ Err (refused.Fault e) → feature_of layer.now langs.now text.now ≡ Err e }
{
    FeatureReader::new(alloc).read(layer, langs, text)
}

/// The feature that [`FeatureReader::read_row`] gives of one row alone.
pub fn read_row(
    alloc: Global,
    layer: &Layer,
    langs: &Langs,
    row: &RawRow,
) -> Result<Feature, Refused<FeatureFault>>
    ensures feature { IfOk result (λ f. feature_of_row layer.now langs.now row.now ≡ Ok f) }
    ensures fault { (e : FeatureFault) → result ≡ Err (refused.Fault e) → feature_of_row layer.now langs.now row.now ≡ Err e }
{
    FeatureReader::new(alloc).read_row(layer, langs, row)
}
