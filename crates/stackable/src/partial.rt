//! Partials.

ghost use Rattle.std.specs.Prelude.{◌≡◌, ℕ, ◌+◌, ◌<◌, ◌≤◌, List, [], ◌∷◌, ◌++◌, length, take};
ghost use Rattle.std.proofs.Common.{ap₂, sym, subst, length-take-le};
ghost use Rattle.stackable.specs.FilledNumbers.{filled, IsFilled};

use std::marker::Model;

/// One to sixteen piece numbers, from deep to shallow. Each is below 2^16: a job has at most 3,360 pieces, one for each of 16 layers and 210 runs.
#[derive(Clone, Copy)]
pub struct Partial {
    // the first number stands in the places from `len` on
    pieces: [u16; 16],
    len: u8,
}

impl Model for Partial {
    ghost Value = { List ℕ };

    ghost view = { λ p. take p.len p.pieces };

    ghost inverse = { λ ks. record { pieces = filled ks; len = length ks } };

    ghost invariant = { λ p. IsFilled p.pieces p.len };

    ghost inverse_ok = { λ p h. ap₂ (λ (xs : List ℕ) (n : ℕ). record { pieces = xs; len = n }) h.filled
        (length-take-le p.len p.pieces (subst (λ (n : ℕ). p.len ≤ n) (sym h.full) h.within)) };
}

impl Partial {
    /// The partial of one piece.
    pub fn new(first: u16) -> Partial
        ensures { result ≡ first ∷ [] }
    {
        Partial {
            pieces: [first; 16],
            len: 1,
        }
    }

    /// Adds a piece below the others, of which there are at most 15.
    pub fn push(&mut self, piece: u16)
        requires { length self.old < 16 }
        ensures { self.new ≡ self.old ++ piece ∷ [] }
    {
        self.pieces[self.len as usize] = piece;
        self.len += 1;
    }

    /// The piece numbers, from deep to shallow.
    pub fn pieces(&self) -> &[u16]
        ensures value { result.now ≡ self.now }
        ensures some { 0 < length self.now }
        ensures few { length self.now ≤ 16 }
    {
        &self.pieces[..self.len as usize]
    }
}
