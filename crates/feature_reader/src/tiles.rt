//! Lists of tiles.

ghost use Rattle.std.specs.Prelude.{◌≡◌, List, [], ◌∷◌, ◌++◌, ◌<◌, length, slice_get, Some, OnOk, OnErr, IfOk};
ghost use Rattle.geo_base.specs.TileView.{TileView};

use geo_base::refusal::Memory;
use geo_base::tile::Tile;
use std::alloc::Global;
use std::marker::Model;

/// Tiles, seen as a list.
#[derive(Drop)]
pub struct Tiles {
    list: Vec<Tile>,
}

impl Model for Tiles {
    ghost use Rattle.std.specs.Prelude.{List};
    ghost use Rattle.geo_base.specs.TileView.{TileView};

    ghost Value = { List TileView };

    ghost view = { λ t. t.list.items };
}

impl Tiles {
    /// No tiles.
    pub fn new(alloc: Global) -> Tiles
        ensures { result ≡ [] }
    {
        Tiles {
            list: Vec::new(alloc),
        }
    }

    /// These tiles.
    pub fn from_vec(list: Vec<Tile>) -> Tiles
        ensures { result ≡ list.items }
    {
        Tiles { list }
    }

    /// Adds a tile at the end; after want of memory the list is as before.
    pub fn push(&mut self, tile: Tile) -> Result<(), Memory>
        ensures ok { OnOk result (self.new ≡ self.old ++ tile ∷ []) }
        ensures err { OnErr result (self.new ≡ self.old) }
    {
        self.list.push(tile)?;
        Ok(())
    }

    /// The number of tiles.
    pub fn len(&self) -> usize
        ensures { result ≡ length self.now }
    {
        self.list.len()
    }

    /// The tile at a place, counted from 0.
    pub fn at(&self, place: usize) -> &Tile
        requires { place < length self.now }
        ensures { slice_get self.now place ≡ Some result.now }
    {
        &self.list[place]
    }

    /// The tiles.
    pub fn as_slice(&self) -> &[Tile]
        ensures { result.now ≡ self.now }
    {
        self.list.as_slice()
    }

    /// Equal tiles.
    pub fn copy(&self) -> Result<Tiles, Memory>
        ensures { IfOk result (λ t. t ≡ self.now) }
    {
        Ok(Tiles {
            list: Vec::from_slice(*self.list.allocator(), &self.list)?,
        })
    }
}
