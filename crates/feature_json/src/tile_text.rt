//! Tiles as texts.

ghost use Rattle.std.specs.Prelude.{◌≡◌, ◌∷◌, []};
ghost use Rattle.feature_json.specs.Tiles.{tile_of, tile_of_numbers};

use geo_base::tile::Tile;
use geo_text::cut::cut;
use geo_text::number::number;

/// The tile of these numbers.
fn tile_at(z: u64, x: u64, y: u64) -> Option<Tile>
    ensures { result ≡ tile_of_numbers (z ∷ x ∷ y ∷ []) }
{
    if z <= 16 && x < 1 << z && y < 1 << z {
        Tile::new(z as u8, x as u32, y as u32)
    } else {
        None
    }
}

/// The tile that a text `z/x/y` names: three numbers with a slash between each two, a zoom of 0
/// to 16 and a column and a row below 2^zoom; else None.
pub fn read_tile(text: &[u8]) -> Option<Tile>
    ensures { result ≡ tile_of text.now }
{
    let (z, rest) = cut(text, b'/')?;
    let (x, y) = cut(rest, b'/')?;
    if let Some(_) = cut(y, b'/') {
        return None;
    }
    tile_at(number(z)?, number(x)?, number(y)?)
}
