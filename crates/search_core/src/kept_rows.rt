//! Rows that fetch each piece once.

ghost use Rattle.std.specs.Prelude.{◌≡◌, [], List, slice_index_or, IfOk, IfSome};
ghost use Rattle.std.specs.Arc.{arc_value};
ghost use Rattle.geo_base.specs.declared.cells.Cell.{Cell};
ghost use Rattle.search_core.specs.KeptCells.{AreKeptCells};

use crate::slots::empty_slots;
use geo_base::cells::Cells;
use geo_base::job::Job;
use geo_base::refusal::Memory;
use geo_base::rows::Rows;
use std::alloc::Global;
use std::marker::Model;
use std::sync::Arc;

/// Rows over others, which keep the cells of each piece once they were fetched, so that a piece is fetched once from the rows
/// below, as long as there are slots for it.
#[derive(Drop)]
pub struct KeptRows<R: Rows> {
    rows: R,
    // the cells of each piece, once they were fetched
    kept: Vec<Option<Arc<Cells>>>,
}

impl<R: Rows> Model for KeptRows<R> {
    ghost use Rattle.std.specs.Arc.{arc_value};
    ghost use Rattle.search_core.specs.KeptCells.{AreKeptCells};

    ghost Value = { R };

    ghost view = { λ k. k.rows };

    ghost invariant = { λ k. AreKeptCells (λ c. arc_value c) (R.cells k.rows) k.kept.items };
}

impl<R: Rows + Drop> KeptRows<R> {
    /// Rows over these, with slots for so many pieces; those of a greater number are fetched each time.
    pub fn new(alloc: Global, rows: R, pieces: usize) -> Result<KeptRows<R>, Memory>
        ensures { IfOk result (λ k. k ≡ rows) }
    {
        let kept = empty_slots(alloc, pieces)?;
        Ok(KeptRows { rows, kept })
    }

    /// The rows below.
    pub fn rows(&self) -> &R
        ensures { result.now ≡ self.now }
    {
        &self.rows
    }
}

impl<R: Rows> Rows for KeptRows<R> {
    ghost pieces = { λ r. R.pieces r };

    ghost cells = { λ r. R.cells r };

    ghost origin = { λ r. R.origin r };

    fn fetch(&mut self, job: &Job, piece: usize) -> Result<Arc<Cells>, Memory> {
        if let Some(cells) = held(self.kept.as_slice(), piece)? {
            return Ok(cells);
        }
        let cells = self.rows.fetch(job, piece)?;
        keep(&mut self.kept, piece, cells.clone()?);
        Ok(cells)
    }
}

/// A share of what is kept for a piece, if anything is.
fn held(kept: &[Option<Arc<Cells>>], piece: usize) -> Result<Option<Arc<Cells>>, Memory>
    ensures { IfOk result (λ o. IfSome o (λ c. (cells : List (List Cell)) → AreKeptCells (λ x. arc_value x) cells kept.now → arc_value c ≡ slice_index_or cells piece [])) }
{
    match kept.get(piece) {
        Some(Some(cells)) => Ok(Some(cells.clone()?)),
        _ => Ok(None),
    }
}

/// Keeps the cells of a piece, where there is a slot for it.
fn keep(kept: &mut Vec<Option<Arc<Cells>>>, piece: usize, fetched: Arc<Cells>)
    ensures { (cells : List (List Cell)) → AreKeptCells (λ x. arc_value x) cells kept.old.items → arc_value fetched ≡ slice_index_or cells piece [] → AreKeptCells (λ x. arc_value x) cells kept.new.items }
{
    if piece < kept.len() {
        kept[piece] = Some(fetched);
    }
}
