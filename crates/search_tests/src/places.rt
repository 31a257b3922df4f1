//! A head, the features of a table, and the generation of them.

ghost use Rattle.std.specs.Prelude.{◌≡◌, ◌==◌, ◌<◌};
ghost use Rattle.std.specs.List.{list_all};
ghost use Rattle.feature_reader.specs.FeatureView.{zoom_of};
ghost use Rattle.feature_reader.specs.Table.{IsOfHead};
ghost use Rattle.generation.specs.Generation.{takes_of};

use feature_reader::feature::Feature;
use feature_reader::read_feature::read_feature;
use feature_reader::table::FeatureTable;
use feature_reader::taker::Taker;
use generation::builder::Builder;
use generation::generation::Generation;
use geo_base::tile::Tile;
use geo_layer::head::Head;
use geo_layer::langs::read_langs;
use geo_layer::layers::Layers;
use geo_layer::read_layer::read_layer;
use std::alloc::Global;
use std::process::Abort;
use std::sync::Arc;

/// The layers `country` and `place`, the second of which replaces `street`, and two languages.
pub fn two_layers(rt: &impl Abort, alloc: Global) -> Head {
    let mut layers = Layers::new(alloc);
    for text in [
        "{\"name\":\"country\",\"zoom\":6}",
        "{\"name\":\"place\",\"zoom\":6,\"tokens\":{\"street\":\"st\"}}",
    ] {
        let layer = read_layer(alloc, text, &layers).ok().expect(rt, "a layer");
        layers.push(layer).expect(rt, "memory");
    }
    let langs = read_langs(alloc, "fr en").ok().expect(rt, "languages");
    Head { langs, layers }
}

/// The feature that a text stands for in a layer of the head.
fn feature_of(rt: &impl Abort, alloc: Global, head: &Head, layer: u8, text: &str) -> Feature {
    assert!(rt; usize::from(layer) < head.layers.len());
    let layer = head.layers.at(usize::from(layer));
    read_feature(alloc, layer, &head.langs, text.as_bytes())
        .ok()
        .expect(rt, "a feature")
}

/// Whether each tile has this zoom.
fn are_at_zoom(tiles: &[Tile], zoom: u8) -> bool
    ensures { result ≡ list_all (λ t. t.z == zoom) tiles.now }
{
    tiles.iter().all(|tile| tile.z == zoom)
}

/// Puts a feature into a layer of the head, whose zoom its tiles have.
fn add(rt: &impl Abort, head: &Head, table: &mut FeatureTable, layer: u8, f: Feature)
    requires { IsOfHead head.now table.old }
    ensures { IsOfHead head.now table.new }
{
    assert!(rt; usize::from(layer) < head.layers.len());
    let zoom = head.layers.at(usize::from(layer)).zoom();
    if !are_at_zoom(f.tiles().as_slice(), zoom) {
        panic!(rt; "another zoom");
    }
    match table.take(layer, f) {
        Ok(_) => {}
        Err(_) => panic!(rt; "not taken"),
    }
}

/// Features on one tile, by layer.
const PLACES: [(u8, &str); 3] = [
    (
        0,
        "{\"id\":1,\"properties\":{\"carmen:text\":\"France\",\"carmen:zxy\":[\"6/0/0\"]}}",
    ),
    (
        1,
        "{\"id\":2,\"properties\":{\"carmen:text\":\"Main Street\",\"carmen:zxy\":[\"6/0/0\"]}}",
    ),
    (
        1,
        "{\"id\":3,\"properties\":{\"carmen:text\":\"\",\"carmen:text_fr\":\"Paris\",\"carmen:zxy\":[\"6/0/0\"]}}",
    ),
];

/// A table of these features and of 60 towns of one name on six tiles each.
pub fn table_of(rt: &impl Abort, alloc: Global, head: &Head) -> FeatureTable
    ensures { IsOfHead head.now result }
{
    let mut table = FeatureTable::new(alloc);
    for (layer, text) in PLACES {
        let feature = feature_of(rt, alloc, head, layer, text);
        add(rt, head, &mut table, layer, feature);
    }
    for id in 101..161u32 {
        let text = format!(in alloc;
            "{{\"id\":{id},\"properties\":{{\"carmen:text\":\"Springfield\",\"carmen:zxy\":[\"6/0/0\",\"6/1/0\",\"6/2/0\",\"6/3/0\",\"6/4/0\",\"6/5/0\"]}}}}"
        ).expect(rt, "memory");
        let town = feature_of(rt, alloc, head, 1, text.as_str());
        add(rt, head, &mut table, 1, town);
    }
    table
}

/// The zoom of a feature's tiles.
fn zoom(feature: &Feature) -> u8
    ensures { result ≡ zoom_of feature.now }
{
    match feature.tiles().as_slice() {
        [] => 0,
        [first, ..] => first.z,
    }
}

/// Whether a builder takes features of this zoom into this layer.
fn takes(builder: &Builder, layer: u8, zoom: u8) -> bool
    ensures { result ≡ takes_of builder.now.head layer zoom }
{
    let layers = &builder.head().layers;
    let place = usize::from(layer);
    if place >= layers.len() {
        return false;
    }
    layers.at(place).zoom() == zoom
}

/// Generation 0 of a builder: it has the features of a table and this limit.
pub fn generation_of(
    rt: &impl Abort,
    alloc: Global,
    head: &Head,
    table: &FeatureTable,
    limit: u64,
) -> Arc<Generation> {
    let head = head.copy().expect(rt, "memory");
    let mut builder = Builder::new(alloc, head).expect(rt, "memory");
    for (place, feature) in table.entries() {
        let copy = feature.copy().expect(rt, "memory");
        assert!(rt; takes(&builder, place.layer, zoom(&copy)));
        assert!(rt; builder.take(place.layer, copy).is_ok());
    }
    assert!(rt; limit >= 1 && limit <= 8_388_608);
    builder.set_limit(limit);
    assert!(rt; builder.next() < 4_294_967_295);
    builder.make().expect(rt, "memory")
}
