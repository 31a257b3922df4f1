//! The box that a query asks for.

ghost use Rattle.std.specs.Prelude.{◌≡◌};
ghost use Rattle.plain_answer.specs.Links.{meets_bounds};

use geo_base::tile::Tile;
use geo_query::query::Query;

/// Whether the tile meets the query's box, where it asks for one; without one each tile does.
pub fn meets_bounds(query: &Query, tile: &Tile) -> bool
    ensures { result ≡ meets_bounds query.now.bounds tile.now }
{
    match query.bounds() {
        Some(bounds) => bounds.meets(tile),
        None => true,
    }
}
