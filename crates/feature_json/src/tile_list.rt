//! Lists of strings that each name a tile.

ghost use Rattle.std.specs.Prelude.{◌≡◌, ◌<◌, ◌∷◌, ◌++◌, [], List, length, Some, None, IfOk, OnOk, option_and_then};
ghost use Rattle.json.specs.Reads.{token_of};
ghost use Rattle.json.specs.Json.{value, items};
ghost use Rattle.serde_json.specs.Data.{Data, Items};
ghost use Rattle.serde_json.specs.Read.{of_json, of_items, converted};
ghost use Rattle.geo_layer.specs.Json.{list_of, each_of};
ghost use Rattle.feature_json.specs.Shape.{shape, shape_of, text_of};
ghost use Rattle.feature_json.specs.Tiles.{tile_of, tile_in, all_tiles};
ghost use Rattle.feature_json.specs.Said.{kept};
ghost use Rattle.feature_json.specs.Reading.{begins_array, IsInvalid};

use crate::seen::{Seen, see, see_token};
use crate::stop::Stop;
use crate::tile_text::read_tile;
use geo_base::refusal::Memory;
use geo_base::tile::Tile;
use json::{Reader, Token};

/// The tile that a value names.
#[inline(always)]
fn tile_of(seen: Seen<'_>) -> Option<Tile>
    ensures { result ≡ option_and_then tile_of (text_of (shape_of seen.entry)) }
{
    match seen {
        Seen::Text(text) => read_tile(text.as_bytes()),
        _ => None,
    }
}

/// Notes one more value of a list, and whether each so far names a tile.
#[inline(always)]
fn note(good: bool, seen: Seen<'_>, tiles: &mut Vec<Tile>) -> Result<bool, Memory>
    ensures { IfOk result (λ g. (d : Data) (ds : List Data) → shape d ≡ shape_of seen.entry
        → kept good tiles.old.items ≡ each_of tile_in ds
        → kept g tiles.new.items ≡ each_of tile_in (ds ++ d ∷ [])) }
{
    match tile_of(seen) {
        Some(tile) => {
            tiles.push(tile)?;
            Ok(good)
        }
        None => Ok(false),
    }
}

/// The items of a list, whose bracket was taken, and whether each names a tile.
#[inline(never)]
fn read_items(reader: &mut Reader<'_>, depth: usize, tiles: &mut Vec<Tile>) -> Result<bool, Stop>
    ensures ok { IfOk result
        (λ g. (ds : Items) × (converted of_items (items (value depth) (length reader.old) reader.old) ≡ Some (ds, reader.new))
        × (kept g tiles.new.items ≡ each_of tile_in (list_of ds))) }
    ensures shorter { OnOk result (length reader.new < length reader.old) }
    ensures err { IsInvalid result → converted of_items (items (value depth) (length reader.old) reader.old) ≡ None }
{
    tiles.clear();
    let mut good = true;
    'items: while !reader.take_end_array() {
        let seen = see(reader, depth)?;
        good = note(good, seen, tiles)?;
    }
    Ok(good)
}

/// Whether an array begins here.
#[inline(always)]
fn begins_array(token: &Token<'_>) -> bool
    ensures { result ≡ begins_array (token_of token.now) }
{
    matches!(token, Token::BeginArray)
}

/// Reads a value, and tells whether it is a list of strings that each name a tile, which then stand in `tiles`.
#[inline(always)]
pub(crate) fn read_list(
    reader: &mut Reader<'_>,
    depth: usize,
    tiles: &mut Vec<Tile>,
) -> Result<bool, Stop>
    ensures ok { IfOk result
        (λ g. (d : Data) × (converted of_json (value depth reader.old) ≡ Some (d, reader.new))
        × (kept g tiles.new.items ≡ all_tiles (Some d))) }
    ensures shorter { OnOk result (length reader.new < length reader.old) }
    ensures err { IsInvalid result → converted of_json (value depth reader.old) ≡ None }
{
    let token = reader.next().ok_or(Stop::Invalid)?;
    if !begins_array(&token) {
        see_token(token, reader, depth)?;
        return Ok(false);
    }
    if depth == 0 {
        return Err(Stop::Invalid);
    }
    let good = read_items(reader, depth - 1, tiles)?;
    Ok(good)
}
