//! What a row of CSV says of a feature.

ghost use Rattle.std.specs.Prelude.{◌≡◌, ◌<◌, ◌^◌, pos, neg_ℤ, option_map, IfOk};
ghost use Rattle.serde_json.specs.Find.{of_integer};
ghost use Rattle.geo_text.specs.Words.{words_of};
ghost use Rattle.geo_layer.specs.Json.{each_of};
ghost use Rattle.feature_json.specs.Numbers.{num_of};
ghost use Rattle.feature_json.specs.Shape.{shape_of};
ghost use Rattle.feature_json.specs.Tiles.{tile_of};
ghost use Rattle.feature_json.specs.Said.{kept, said_by};
ghost use Rattle.feature_reader.specs.Row.{RowFields, row_fields, signed_of, id_said, score_said, row_said};

use crate::raw::RawRow;
use feature_json::members::FeatureMembers;
use feature_json::number::Number;
use feature_json::own_members::OwnMembers;
use feature_json::properties::Properties;
use feature_json::seen::Seen;
use feature_json::tile_text::read_tile;
use geo_base::refusal::Memory;
use geo_base::tile::Tile;
use geo_text::cut::next_word;
use geo_text::number::{digits, number};
use std::alloc::Global;

/// The fields of a row.
#[derive(Clone, Copy, Drop)]
struct Fields<'a> {
    id: &'a str,
    text: &'a str,
    zxy: &'a str,
    score: &'a str,
}

/// The fields of a row, where there are four, each UTF-8.
fn fields_of(row: &RawRow) -> Option<Fields<'_>>
    ensures { option_map (λ f. record { id = f.id.now; text = f.text.now; zxy = f.zxy.now; score = f.score.now }) result ≡ row_fields row.now }
{
    if row.len() != 4 {
        return None;
    }
    Some(Fields {
        id: row.text_at(0)?,
        text: row.text_at(1)?,
        zxy: row.text_at(2)?,
        score: row.text_at(3)?,
    })
}

/// A number below 0 by its amount; 0 of the amount 0.
fn minus(n: u64) -> Number
    requires { n < 10 ^ 18 }
    ensures { num_of result ≡ of_integer (neg_ℤ (pos n)) }
{
    if n == 0 {
        Number::Unsigned(0)
    } else {
        Number::Negative(-(n as i64))
    }
}

/// The whole number that a text writes: an optional `-` and 1 to 18 digits; else None.
fn signed(text: &[u8]) -> Option<Number>
    ensures { option_map num_of result ≡ option_map of_integer (signed_of text.now) }
{
    if let [b'-', more @ ..] = text {
        return Some(minus(digits(more, 18)?));
    }
    Some(Number::Unsigned(digits(text, 18)?))
}

/// What is seen of the id.
fn id_of(text: &str) -> Option<Seen<'_>>
    ensures { option_map shape_of result ≡ id_said text.now }
{
    Some(Seen::Number(Number::Unsigned(number(text.as_bytes())?)))
}

/// What is seen of the score: nothing of an empty text, and of one that is no whole number that it is a text.
fn score_of(text: &str) -> Option<Seen<'_>>
    ensures { option_map shape_of result ≡ score_said text.now }
{
    if text.is_empty() {
        return None;
    }
    match signed(text.as_bytes()) {
        Some(score) => Some(Seen::Number(score)),
        None => Some(Seen::Text(text)),
    }
}

/// Reads the tiles that the words of a text name, and tells whether each names one.
fn read_tiles(text: &[u8], tiles: &mut Vec<Tile>) -> Result<bool, Memory>
    ensures { IfOk result (λ named. kept named tiles.new.items ≡ each_of tile_of (words_of text.now)) }
{
    tiles.clear();
    let mut rest = text;
    while let Some((word, more)) = next_word(rest) {
        let Some(tile) = read_tile(word) else {
            return Ok(false);
        };
        tiles.push(tile)?;
        rest = more;
    }
    Ok(true)
}

/// What a row of CSV says of a feature, in the form of the members of a JSON text: None exactly where it hasn't four fields or
/// one of them isn't UTF-8. The tiles that the third field names are then in `tiles`, in their order, where the properties say
/// that each of its words names one (`tiles_are_named`); else nothing is said of what is in it. What it held before counts for
/// nothing.
///
/// Memory may be refused in place of any answer.
pub(crate) fn members_of_row<'a>(
    alloc: Global,
    row: &'a RawRow,
    tiles: &mut Vec<Tile>,
) -> Result<Option<FeatureMembers<'a>>, Memory>
    ensures { IfOk result (λ o. option_map (said_by tiles.new.items) o ≡ row_said row.now) }
{
    let Some(fields) = fields_of(row) else {
        return Ok(None);
    };
    let tiles_are_named = read_tiles(fields.zxy.as_bytes(), tiles)?;
    Ok(Some(FeatureMembers {
        id: id_of(fields.id),
        properties: Some(Properties {
            text: Some(Seen::Text(fields.text)),
            score: score_of(fields.score),
            relev: None,
            own: OwnMembers::new(alloc),
            tiles_are_named,
        }),
    }))
}
