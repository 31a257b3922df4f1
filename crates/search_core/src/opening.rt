//! The contexts of one piece.

ghost use Rattle.std.specs.Prelude.{◌≡◌, ◌<◌, [], ◌∷◌, length, map, IfOk};
ghost use Rattle.stackable.specs.Partial.{links_at};

use coalesce_single::single::coalesce_single;
use geo_base::job::Job;
use geo_base::refusal::Memory;
use geo_base::rows::Rows;
use geo_base::survivors::Survivors;
use std::alloc::Global;

/// The contexts of one piece.
pub fn of_one<R: Rows>(
    alloc: Global,
    job: &Job,
    piece: usize,
    rows: &mut R,
) -> Result<Survivors, Memory>
    requires own { R.pieces rows.old ≡ job.now.pieces }
    requires within { piece < length job.now.pieces }
    ensures single { IfOk result (λ s. s ≡ map (λ l. l ∷ []) (links_at job.now (R.cells rows.old) piece)) }
    ensures same_pieces { R.pieces rows.new ≡ R.pieces rows.old }
    ensures same_cells { R.cells rows.new ≡ R.cells rows.old }
    ensures same_origin { R.origin rows.new ≡ R.origin rows.old }
{
    let cells = rows.fetch(job, piece)?;
    coalesce_single(alloc, &job.pieces.as_slice()[piece], &cells)
}
