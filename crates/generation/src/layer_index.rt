//! The index of a layer.

ghost use Rattle.std.specs.Prelude.{◌≡◌, ◌<◌, IfOk};
ghost use Rattle.feature_reader.specs.Table.{features_in};
ghost use Rattle.generation.specs.Index.{index_of};

use crate::entries::grids_of;
use crate::texts::phrases_of;
use feature_reader::table::FeatureTable;
use geo_base::refusal::Memory;
use grid_store::store::GridStore;
use phrase_index::index::PhraseIndex;
use std::alloc::Global;
use std::marker::Model;

/// The phrases of a layer, and its grid entries, whose phrases are named by their places in the list of phrases.
#[derive(Drop)]
pub struct LayerIndex {
    phrases: PhraseIndex,
    grids: GridStore,
}

impl Model for LayerIndex {
    ghost use Rattle.generation.specs.Index.{Index};

    ghost Value = { Index };

    ghost view = { λ i. record { phrases = i.phrases; entries = i.grids } };
}

impl LayerIndex {
    /// The index of the features of a layer, 0 to 15, as they stand in the table. The features are read where they stand;
    /// no text is copied but into the list of phrases.
    pub fn of(alloc: Global, table: &FeatureTable, layer: u8) -> Result<LayerIndex, Memory>
        requires { layer < 16 }
        ensures { IfOk result (λ index. index ≡ index_of (features_in table.now layer)) }
    {
        let phrases = phrases_of(alloc, table, layer)?;
        let grids = grids_of(alloc, table, layer, &phrases)?;
        Ok(LayerIndex { phrases, grids })
    }

    /// The phrases, which rise byte by byte.
    pub fn phrases(&self) -> &PhraseIndex
        ensures { result.now ≡ self.now.phrases }
    {
        &self.phrases
    }

    /// The grid entries: one for each feature, phrase and tile, each once.
    pub fn grids(&self) -> &GridStore
        ensures { result.now ≡ self.now.entries }
    {
        &self.grids
    }
}
