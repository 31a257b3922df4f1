//! The packed rows of a record.

ghost use Rattle.std.specs.Prelude.{◌≡◌, ◌++◌, ◌∷◌, [], ◌<◌, ℕ, List, length, IfOk, OnOk, OnErr, Some, slice_get};
ghost use Rattle.grid_row.specs.Rows.{IsRowNumbers};

use geo_base::refusal::Memory;
use std::alloc::Global;
use std::marker::Model;

/// 1 to 8,388,608 packed rows, strictly falling.
#[derive(Debug, Drop)]
pub struct RowNumbers {
    pub(crate) list: Vec<u64>,
}

impl Model for RowNumbers {
    ghost use Rattle.std.specs.Prelude.{ℕ, List};
    ghost use Rattle.grid_row.specs.Rows.{IsRowNumbers};

    ghost Value = { List ℕ };

    ghost view = { λ r. r.list.items };

    ghost invariant = { λ r. IsRowNumbers r.list.items };
}

impl RowNumbers {
    /// The list of one row.
    pub fn new(alloc: Global, first: u64) -> Result<RowNumbers, Memory>
        ensures { IfOk result (λ r. r ≡ first ∷ []) }
    {
        let mut list = Vec::new(alloc);
        list.push(first)?;
        Ok(RowNumbers { list })
    }

    /// Adds a row, which has to lie below the last one. Want of memory leaves the list as it was.
    pub fn push(&mut self, row: u64) -> Result<(), Memory>
        requires { IsRowNumbers (self.old ++ row ∷ []) }
        ensures ok { OnOk result (self.new ≡ self.old ++ row ∷ []) }
        ensures err { OnErr result (self.new ≡ self.old) }
    {
        self.list.push(row)?;
        Ok(())
    }

    /// The number of rows.
    #[allow(clippy::len_without_is_empty)]
    pub fn len(&self) -> usize
        ensures { result ≡ length self.now }
    {
        self.list.len()
    }

    /// A row by its place, counted from 0.
    pub fn at(&self, place: usize) -> u64
        requires { place < length self.now }
        ensures { slice_get self.now place ≡ Some result }
    {
        self.list[place]
    }

    /// The rows, the greatest first.
    pub fn as_slice(&self) -> &[u64]
        ensures value { result.now ≡ self.now }
        ensures rows { IsRowNumbers result.now }
    {
        self.list.as_slice()
    }
}
