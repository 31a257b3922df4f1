//! The rules by which a feature is made of the members that count, or is refused.

ghost use Rattle.std.specs.Prelude.{◌≡◌, ◌≢◌, ◌==◌, ◌&&◌, ◌<◌, ◌≤◌, nat_le, true, length, Ok, Err, IfOk, All, AllPairs, option_map, option_and_then};
ghost use Rattle.std.specs.List.{list_all};
ghost use Rattle.geo_base.specs.declared.refusal.Refused.TheVariants as refused;
ghost use Rattle.geo_base.specs.TileView.{is_tile, IsTile};
ghost use Rattle.geo_text.specs.Numbers.{below};
ghost use Rattle.feature_json.specs.Shape.{natural_of, text_of, shape_of};
ghost use Rattle.feature_json.specs.Said.{said_by};
ghost use Rattle.feature_reader.specs.FeatureView.{IsPhraseText, IsRelevance};
ghost use Rattle.feature_reader.specs.Tiles.{rising};
ghost use Rattle.feature_reader.specs.Feature.{feature_in};
ghost use Rattle.feature_reader.specs.declared.feature.FeatureFault.{FeatureFault};

use crate::feature::{Feature, FeatureFault};
use crate::own_texts::are_strings;
use crate::phrase::Phrases;
use crate::relevance::cap_of;
use crate::score::level_of;
use crate::text_phrases::all_phrases;
use crate::tiles::Tiles;
use feature_json::members::FeatureMembers;
use feature_json::number::Number;
use feature_json::seen::Seen;
use geo_base::refusal::{Memory, Refused};
use geo_base::tile::Tile;
use geo_layer::langs::Langs;
use geo_layer::layer::Layer;
use geo_text::normalizer::Normalizer;
use std::alloc::Global;

/// The id of a feature.
fn id_of(seen: Option<Seen<'_>>) -> Option<u32>
    ensures { result ≡ option_and_then (below 67108864) (option_and_then natural_of (option_map shape_of seen.entry)) }
{
    match seen {
        Some(Seen::Number(Number::Unsigned(id))) if id < 67_108_864 => Some(id as u32),
        _ => None,
    }
}

/// The text of a feature.
fn text_of(seen: Option<Seen<'_>>) -> Option<&str>
    ensures { option_map (λ t. t.now) result ≡ option_and_then text_of (option_map shape_of seen.entry) }
{
    match seen {
        Some(Seen::Text(text)) => Some(text),
        _ => None,
    }
}

/// There are 1 to 4,096 tiles.
fn are_some(tiles: &[Tile]) -> bool
    ensures { result ≡ (nat_le 1 (length tiles.now) && nat_le (length tiles.now) 4096) }
{
    !tiles.is_empty() && tiles.len() <= 4096
}

/// The tile has this zoom.
fn is_at_zoom(tile: &Tile, zoom: u8) -> bool
    ensures value { result ≡ (tile.now.z == zoom) }
    ensures is { result ≡ (tile.now.z == zoom && is_tile tile.now.z tile.now.x tile.now.y) }
{
    tile.z == zoom
}

/// Each tile has this zoom. The second clause adds what the type of a tile keeps.
fn are_at_zoom(tiles: &[Tile], zoom: u8) -> bool
    ensures value { result ≡ list_all (λ t. t.z == zoom) tiles.now }
    ensures are { result ≡ list_all (λ t. t.z == zoom && is_tile t.z t.x t.y) tiles.now }
{
    tiles.iter().all(|tile| is_at_zoom(tile, zoom))
}

/// Puts tiles of one zoom into their order, each once.
fn rise(tiles: &mut Vec<Tile>, zoom: u8)
    requires { list_all (λ t. t.z == zoom) tiles.old.items ≡ true }
    ensures { tiles.new.items ≡ rising tiles.old.items }
{
    tiles.sort_unstable_by_key(|tile| (tile.x, tile.y));
    tiles.dedup();
}

/// The feature of these parts.
fn made(
    id: u32,
    score: u8,
    phrases: Phrases,
    tiles: &mut Vec<Tile>,
    zoom: u8,
) -> Result<Feature, Memory>
    requires id { id < 67108864 }
    requires score { score < 16 }
    requires texts { All (λ p. IsPhraseText p.text) phrases }
    requires relevances { All (λ p. IsRelevance p.relev) phrases }
    requires distinct { AllPairs (λ p q. p ≢ q) phrases }
    requires zoom { list_all (λ t. t.z == zoom) tiles.old.items ≡ true }
    requires tiles { All IsTile tiles.old.items }
    requires some { 0 < length tiles.old.items }
    requires few { length tiles.old.items ≤ 4096 }
    ensures { IfOk result (λ f. f ≡ record { id = id; score = score; phrases = phrases; tiles = rising tiles.old.items }) }
{
    rise(tiles, zoom);
    let risen = Vec::from_slice(*tiles.allocator(), tiles)?;
    Ok(Feature::from_parts(id, score, phrases, Tiles::from_vec(risen)))
}

/// The feature of the layer that these members stand for, with the tiles that they name, or the first of their faults in the
/// order `Json`, `Id`, `Text`, `Zxy`, `Zoom`, `Score`, `Relev`: the properties, the id, the texts, the
/// tiles, of which all are named before their zoom is compared, the score, and the relevance. Members
/// that are null count as absent.
///
/// A text has a phrase for each of its pieces between commas that has 1 to 20 tokens, each
/// replaced where the layer replaces it; the first has relevance 100 and the later ones 80, each at
/// most `carmen:relev`. The texts are `carmen:text`, which speaks for all languages but the listed
/// ones that have a text of their own, and the texts in languages `carmen:text_CODE` in the order of
/// the bytes of their names, each for its language alone, or for none where the code isn't listed.
/// Of all of them each phrase stands once, at its first place. The level is 15 times the score's
/// part of the layer's highest score, rounded up, at most 15, and 0 where the score is absent or
/// below 0. Of the tiles each stands once, by column and then row; the limit of 4,096 counts repeats
/// too.
///
/// Memory is asked for by the phrases and the tiles of a feature, and may be refused in its place; each fault is found
/// before. What is left in `tiles` is of no use.
pub fn feature_of_members(
    alloc: Global,
    normalizer: &mut Normalizer,
    layer: &Layer,
    langs: &Langs,
    members: &FeatureMembers<'_>,
    tiles: &mut Vec<Tile>,
) -> Result<Feature, Refused<FeatureFault>>
    ensures feature { IfOk result (λ f. feature_in layer.now langs.now (said_by tiles.old.items members.now) ≡ Ok f) }
    ensures fault { (e : FeatureFault) → result ≡ Err (refused.Fault e) → feature_in layer.now langs.now (said_by tiles.old.items members.now) ≡ Err e }
    ensures outright { (e : FeatureFault) → feature_in layer.now langs.now (said_by tiles.old.items members.now) ≡ Err e → result ≡ Err (refused.Fault e) }
{
    let Some(properties) = &members.properties else {
        return Err(Refused::Fault(FeatureFault::Json));
    };
    let Some(id) = id_of(members.id) else {
        return Err(Refused::Fault(FeatureFault::Id));
    };
    let Some(text) = text_of(properties.text) else {
        return Err(Refused::Fault(FeatureFault::Text));
    };
    if !are_strings(&properties.own) {
        return Err(Refused::Fault(FeatureFault::Text));
    }
    if !properties.tiles_are_named {
        return Err(Refused::Fault(FeatureFault::Zxy));
    }
    if !are_some(tiles) {
        return Err(Refused::Fault(FeatureFault::Zxy));
    }
    let zoom = layer.zoom();
    if !are_at_zoom(tiles, zoom) {
        return Err(Refused::Fault(FeatureFault::Zoom));
    }
    let Some(score) = level_of(properties.score, layer.scoremax()) else {
        return Err(Refused::Fault(FeatureFault::Score));
    };
    let Some(cap) = cap_of(properties.relev) else {
        return Err(Refused::Fault(FeatureFault::Relev));
    };
    let phrases = all_phrases(
        alloc,
        normalizer,
        langs,
        text,
        &properties.own,
        layer.tokens(),
        cap,
    )?;
    Ok(made(id, score, phrases, tiles, zoom)?)
}
