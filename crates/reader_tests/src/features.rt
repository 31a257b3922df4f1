//! Readers of one text and of one row alone.

use feature_reader::feature::Feature;
use feature_reader::raw::RawRow;
use feature_reader::read_feature::{read_feature, read_row};
use geo_layer::langs::Langs;
use geo_layer::layer::Layer;
use geo_text::text::Text;
use std::alloc::Global;
use std::process::Abort;

/// The layer `place`, of zoom 6.
pub fn place(rt: &impl Abort, alloc: Global) -> Layer {
    Layer::new(alloc, Text::of(alloc, "place").expect(rt, "memory"), 6)
}

/// A feature, as a text and as the fields of a row.
const TEXT: &[u8] =
    b"{\"id\":7,\"properties\":{\"carmen:text\":\"Paris,Lutece\",\"carmen:zxy\":[\"6/2/1\",\"6/1/1\"],\"carmen:score\":9}}";

const ROW: [&[u8]; 4] = [b"7", b"Paris,Lutece", b"6/1/1 6/2/1", b"9"];

/// The parts of a feature.
fn told(rt: &impl Abort, alloc: Global, feature: &Feature) -> String {
    let (id, score) = (feature.id(), feature.score());
    let mut out = format!(in alloc; "{id} {score}").expect(rt, "memory");
    for phrase in feature.phrases().as_slice() {
        write!(out, " {} {}", phrase.text.as_str(), phrase.relev).expect(rt, "memory");
    }
    for tile in feature.tiles().as_slice() {
        write!(out, " {}/{}/{}", tile.z, tile.x, tile.y).expect(rt, "memory");
    }
    out
}

#[test]
fn a_text_and_a_row_are_one_feature(rt: HostRuntime) {
    let alloc = rt.alloc();
    let (layer, langs) = (place(&rt, alloc), Langs::new(alloc));
    let of_text = read_feature(alloc, &layer, &langs, TEXT)
        .ok()
        .expect(&rt, "a feature");
    let row = RawRow::of(alloc, ROW.as_slice()).expect(&rt, "memory");
    let of_row = read_row(alloc, &layer, &langs, &row)
        .ok()
        .expect(&rt, "a feature");
    let wanted = "7 9 paris 100 lutece 80 6/1/1 6/2/1";
    assert!(rt; told(&rt, alloc, &of_text).as_str() == wanted);
    let copy = of_row.copy().expect(&rt, "memory");
    assert!(rt; told(&rt, alloc, &copy).as_str() == wanted);
}
