//! Which layers are compatible, as bits.

ghost use Rattle.std.specs.Prelude.{◌≡◌, ◌≢◌, ℕ, ◌<◌, length, cond};
ghost use Rattle.std.specs.Int.{bit_at};
ghost use Rattle.geo_layer.specs.Layer.{compat, AreStacks};

use crate::layers::Layers;

impl Layers {
    /// Which layers are compatible: bit b of the a-th number says whether the layers a and b are. No bit says so of a layer
    /// that isn't there. Takes no memory.
    pub fn stacks(&self) -> [u16; 16]
        ensures { AreStacks self.now result }
    {
        let mut stacks = [0; 16];
        for a in 0..self.len() {
            stacks[a] = row_of(self, a);
        }
        stacks
    }
}

/// The bits of the layers that a layer is compatible with.
fn row_of(layers: &Layers, a: usize) -> u16
    requires { a < length layers.now }
    ensures { (b : ℕ) → b < 16 → bit_at result b ≡ cond (compat layers.now a b) 1 0 }
{
    let mut row = 0;
    for b in 0..layers.len() {
        row = with_bit(row, b, layers.compatible(a as u8, b as u8));
    }
    row
}

/// The row with one bit set where it is asked for.
fn with_bit(row: u16, bit: usize, on: bool) -> u16
    requires few { bit < 16 }
    requires unset { bit_at row bit ≡ 0 }
    ensures here { bit_at result bit ≡ cond on 1 0 }
    ensures others { (k : ℕ) → k ≢ bit → bit_at result k ≡ bit_at row k }
{
    if on { row | 1 << bit } else { row }
}
