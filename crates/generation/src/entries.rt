//! The grid entries of a layer.

ghost use Rattle.std.specs.Prelude.{◌≡◌, ◌≤◌, ◌<◌, ◌++◌, length, map, All, Contains, IfOk, OnOk};
ghost use Rattle.geo_base.specs.Lists.{rising};
ghost use Rattle.feature_reader.specs.FeatureView.{IsFeature};
ghost use Rattle.feature_reader.specs.Table.{features_in, most_rows};
ghost use Rattle.phrase_index.specs.Phrases.{number_of};
ghost use Rattle.grid_store.specs.Order.{entry_cmp};
ghost use Rattle.grid_store.specs.Entries.{AreRows};
ghost use Rattle.generation.specs.Index.{phrases_of, entry_at, feature_grid, entries_of};

use feature_reader::feature::Feature;
use feature_reader::phrase::Phrase;
use feature_reader::table::FeatureTable;
use geo_base::refusal::Memory;
use grid_row::row::Row;
use grid_store::entry::GridEntry;
use grid_store::store::GridStore;
use phrase_index::index::PhraseIndex;
use std::alloc::Global;

/// How many entries the features of a layer have together.
fn entry_count(table: &FeatureTable, layer: u8) -> usize
    requires { layer < 16 }
{
    let mut count = 0usize;
    for (_, feature) in table.layer(layer) {
        let entries = feature
            .phrases()
            .len()
            .saturating_mul(feature.tiles().len());
        count = count.saturating_add(entries);
    }
    count
}

/// Adds the entries of a phrase with this number, one for each tile of the feature.
fn add_tiles(
    entries: &mut Vec<GridEntry>,
    number: u32,
    feature: &Feature,
    phrase: &Phrase,
) -> Result<(), Memory>
    ensures { OnOk result (entries.new.items ≡ entries.old.items ++ map (entry_at number feature.now phrase.now) feature.now.tiles) }
{
    let (id, score) = (feature.id(), feature.score());
    let tiles = feature.tiles().as_slice();
    for tile in tiles {
        entries.push(GridEntry {
            phrase: number,
            set: phrase.set,
            row: Row {
                relev: phrase.relev,
                score,
                x: tile.x,
                y: tile.y,
                id,
            },
        })?;
    }
    Ok(())
}

/// The number of a text that is a phrase.
fn number_in(phrases: &PhraseIndex, text: &str) -> u32
    requires { Contains phrases.now text.now }
    ensures { result ≡ number_of phrases.now text.now }
{
    match phrases.exact(text) {
        Some(number) => number,
        None => unreachable!(),
    }
}

/// Adds the entries of a feature, whose texts are among the phrases.
fn add_feature(
    entries: &mut Vec<GridEntry>,
    phrases: &PhraseIndex,
    feature: &Feature,
) -> Result<(), Memory>
    requires { All (λ p. Contains phrases.now p.text) feature.now.phrases }
    ensures entries { OnOk result (entries.new.items ≡ entries.old.items ++ feature_grid phrases.now feature.now) }
    ensures is { IsFeature feature.now }
{
    let _id = feature.id(); // brings the rule of a feature here
    for phrase in feature.phrases().as_slice() {
        let number = number_in(phrases, phrase.text.as_str());
        add_tiles(entries, number, feature, phrase)?;
    }
    Ok(())
}

/// The entries of the features of a layer, whose texts are these phrases.
fn entries_of(
    alloc: Global,
    table: &FeatureTable,
    layer: u8,
    phrases: &PhraseIndex,
) -> Result<Vec<GridEntry>, Memory>
    requires layer { layer < 16 }
    requires phrases { phrases.now ≡ phrases_of (features_in table.now layer) }
    ensures entries { IfOk result (λ entries. entries.items ≡ entries_of (features_in table.now layer)) }
    ensures few { IfOk result (λ entries. length entries.items ≤ most_rows) }
    ensures rows { IfOk result (λ entries. AreRows entries.items) }
{
    let mut entries = Vec::with_capacity(alloc, entry_count(table, layer))?;
    for (_, feature) in table.layer(layer) {
        add_feature(&mut entries, phrases, feature)?;
    }
    Ok(entries)
}

/// The store of the entries of the features of a layer, whose texts are these phrases.
pub(crate) fn grids_of(
    alloc: Global,
    table: &FeatureTable,
    layer: u8,
    phrases: &PhraseIndex,
) -> Result<GridStore, Memory>
    requires layer { layer < 16 }
    requires phrases { phrases.now ≡ phrases_of (features_in table.now layer) }
    ensures { IfOk result (λ grids. grids ≡ rising entry_cmp (entries_of (features_in table.now layer))) }
{
    let entries = entries_of(alloc, table, layer, phrases)?;
    let grids = GridStore::build(alloc, entries)?;
    Ok(grids)
}
