//! The phrases of a layer.

ghost use Rattle.std.specs.Prelude.{◌≡◌, ◌≤◌, ◌<◌, ◌++◌, length, map, IfOk, OnOk};
ghost use Rattle.geo_base.specs.Lists.{rising};
ghost use Rattle.feature_reader.specs.Table.{features_in, rows_of, most_rows};
ghost use Rattle.phrase_index.specs.Phrases.{text_cmp};
ghost use Rattle.generation.specs.Index.{texts_of, phrases_of};

use feature_reader::feature::Feature;
use feature_reader::table::FeatureTable;
use geo_base::refusal::Memory;
use phrase_index::index::PhraseIndex;
use std::alloc::Global;

/// How many phrases the features of a layer have together.
fn phrase_count(table: &FeatureTable, layer: u8) -> usize
    requires { layer < 16 }
{
    let mut count = 0usize;
    for (_, feature) in table.layer(layer) {
        count = count.saturating_add(feature.phrases().len());
    }
    count
}

/// Adds the texts of a feature.
fn add_texts<'a>(texts: &mut Vec<&'a str>, feature: &'a Feature) -> Result<(), Memory>
    ensures texts { OnOk result (map (λ t. t.now) texts.new.items ≡ map (λ t. t.now) texts.old.items ++ map (λ p. p.text) feature.now.phrases) }
    ensures few { length feature.now.phrases ≤ rows_of feature.now }
{
    let _tiles = feature.tiles(); // brings the rule of a feature here: at least one tile
    for phrase in feature.phrases().as_slice() {
        texts.push(phrase.text.as_str())?;
    }
    Ok(())
}

/// The texts of the features of a layer, lent.
fn texts_of<'a>(alloc: Global, table: &'a FeatureTable, layer: u8) -> Result<Vec<&'a str>, Memory>
    requires { layer < 16 }
    ensures texts { IfOk result (λ texts. map (λ t. t.now) texts.items ≡ texts_of (features_in table.now layer)) }
    ensures few { IfOk result (λ texts. length texts.items ≤ most_rows) }
{
    let mut texts = Vec::with_capacity(alloc, phrase_count(table, layer))?;
    for (_, feature) in table.layer(layer) {
        add_texts(&mut texts, feature)?;
    }
    Ok(texts)
}

/// Puts the texts into their order, each once.
fn put_in_order(texts: &mut Vec<&str>)
    ensures rising { map (λ t. t.now) texts.new.items ≡ rising text_cmp (map (λ t. t.now) texts.old.items) }
    ensures few { length texts.new.items ≤ length texts.old.items }
{
    texts.sort_unstable();
    texts.dedup();
}

/// The phrases of the features of a layer.
pub(crate) fn phrases_of(
    alloc: Global,
    table: &FeatureTable,
    layer: u8,
) -> Result<PhraseIndex, Memory>
    requires { layer < 16 }
    ensures { IfOk result (λ phrases. phrases ≡ phrases_of (features_in table.now layer)) }
{
    let mut texts = texts_of(alloc, table, layer)?;
    put_in_order(&mut texts);
    PhraseIndex::of(alloc, texts.as_slice())
}
