//! Contexts of two pieces, one below the other.

ghost use Rattle.std.specs.Prelude.{◌≡◌, ◌<◌, ◌+◌, [], ◌∷◌};

use coalesce_multi::multi::coalesce_multi;
use coalesce_single::single::coalesce_single;
use geo_base::cells::{Cell, Cells};
use geo_base::job::Piece;
use geo_base::tile::Tile;
use std::alloc::Global;
use std::process::Abort;

/// The cell of a feature on a tile of zoom 6, of value 10,000.
fn cell(rt: &impl Abort, id: u32, x: u32) -> Cell
    ensures { (result.tile.z ≡ 6) × (result.score ≡ 0) }
{
    Cell {
        id,
        tile: Tile::new(6, x, 1).expect(rt, "a tile"),
        value: 10_000,
        score: 0,
    }
}

/// A piece of a layer and a token.
fn piece(layer: u8, token: u8) -> Piece
    requires { token < 20 }
    ensures { (result.layer ≡ layer) × (result.from ≡ token) × (result.to ≡ token + 1) }
{
    Piece {
        layer,
        from: token,
        to: token + 1,
        first: 0,
        last: 1,
        top_value: 10_000,
        top_score: 0,
    }
}

/// One cell.
fn alone(rt: &impl Abort, alloc: Global, cell: Cell) -> Cells
    ensures { result ≡ cell ∷ [] }
{
    let mut cells = Cells::new(alloc);
    cells.push(cell).expect(rt, "memory");
    cells
}

#[test]
fn a_place_goes_on_with_the_country_that_holds_it(rt: HostRuntime) {
    let alloc = rt.alloc();
    let place = alone(&rt, alloc, cell(&rt, 1, 1));
    let single = coalesce_single(alloc, &piece(1, 0), &place).expect(&rt, "memory");
    let here = alone(&rt, alloc, cell(&rt, 2, 1));
    let both = coalesce_multi(alloc, &single, &piece(0, 1), &here).expect(&rt, "memory");
    assert_eq!(&rt; both.len(), 1);
    let context = both.context(0);
    assert_eq!(&rt; context.len(), 2);
    assert_eq!(&rt; context.links()[0].id, 1);
    assert_eq!(&rt; context.links()[1].id, 2);
}

#[test]
fn a_place_beside_a_country_is_left_out(rt: HostRuntime) {
    let alloc = rt.alloc();
    let place = alone(&rt, alloc, cell(&rt, 1, 1));
    let single = coalesce_single(alloc, &piece(1, 0), &place).expect(&rt, "memory");
    let beside = alone(&rt, alloc, cell(&rt, 2, 2));
    let none = coalesce_multi(alloc, &single, &piece(0, 1), &beside).expect(&rt, "memory");
    assert_eq!(&rt; none.len(), 0);
}
