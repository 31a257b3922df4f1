//! What a partial leaves to pieces below it.

ghost use Rattle.std.specs.Prelude.{◌≡◌, ℕ, ◌-◌, ◌^◌, ◌<◌, ◌≤◌, ◌==◌, length, if◌then◌else◌};
ghost use Rattle.std.specs.Int.RustNames.{bit_and, bit_or};
ghost use Rattle.geo_base.specs.Job.{IsPieceOf, IsJob};
ghost use Rattle.stackable.specs.Partial.{IsPartial, piece_at};
ghost use Rattle.stackable.specs.Room.{run_bits, admits, IsRoom};

use crate::partial::Partial;
use geo_base::job::{Job, Piece};

/// A piece of the job.
pub fn piece(job: &Job, k: usize) -> Piece
    requires { k < length job.now.pieces }
    ensures { result ≡ piece_at job.now k }
{
    job.pieces.as_slice()[k]
}

/// The tokens of a piece's run: bit t says whether token t is one of them.
pub fn run_bits(p: &Piece) -> u32
    requires { IsPieceOf 20 p.now }
    ensures value { result ≡ run_bits p.now }
    ensures few { result < 2 ^ 20 }
{
    (1 << p.to) - (1 << p.from)
}

/// The tokens and the layers that a partial leaves to pieces below it.
#[derive(Clone, Copy)]
pub struct Room {
    /// Bit t says whether token t lies in the run of a piece of the partial.
    pub taken: u32,
    /// Bit b says whether layer b is smaller than that of each piece of the partial, and compatible with it.
    pub layers: u16,
}

impl Room {
    /// All tokens and layers.
    fn whole() -> Room
        ensures taken { result.taken ≡ 0 }
        ensures layers { result.layers ≡ 2 ^ 16 - 1 }
    {
        Room {
            taken: 0,
            layers: u16::MAX,
        }
    }

    /// What is left below one more piece.
    pub fn below(&self, p: &Piece, stacks: u16) -> Room
        requires { IsPieceOf 20 p.now }
        ensures taken { result.taken ≡ bit_or self.now.taken (run_bits p.now) }
        ensures layers { result.layers ≡ bit_and self.now.layers (bit_and stacks (2 ^ p.now.layer - 1)) }
    {
        Room {
            taken: self.taken | run_bits(p),
            layers: self.layers & (stacks & ((1 << p.layer) - 1)),
        }
    }

    /// What the partial leaves.
    pub fn of(job: &Job, p: &Partial) -> Room
        requires job { IsJob job.now }
        requires partial { IsPartial job.now p.now }
        ensures { IsRoom job.now p.now result.taken result.layers }
    {
        let mut room = Room::whole();
        for k in p.pieces() {
            let piece = piece(job, *k as usize);
            room = room.below(&piece, job.stacks[piece.layer as usize]);
        }
        room
    }

    /// Whether the piece has one of the layers, and none of the tokens taken.
    pub fn admits(&self, q: &Piece) -> bool
        requires { IsPieceOf 20 q.now }
        ensures { result ≡ admits self.now.taken self.now.layers q.now }
    {
        self.layers >> q.layer & 1 == 1 && self.taken & run_bits(q) == 0
    }

    /// The tokens of the piece's run where there is room for it, else none.
    pub fn tokens_of(&self, q: &Piece) -> u32
        requires { IsPieceOf 20 q.now }
        ensures { result ≡ (if admits self.now.taken self.now.layers q.now then run_bits q.now else 0) }
    {
        if self.admits(q) { run_bits(q) } else { 0 }
    }
}
