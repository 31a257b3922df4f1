//! The contexts of one piece.

ghost use Rattle.std.specs.Prelude.{◌≡◌, List, [], ◌∷◌, map, IfOk};
ghost use Rattle.geo_base.specs.Job.{piece_links};

use geo_base::cells::Cells;
use geo_base::job::Piece;
use geo_base::refusal::Memory;
use geo_base::survivors::Survivors;
use std::alloc::Global;

/// The contexts of one link, one for each cell of the piece.
pub fn coalesce_single(alloc: Global, p: &Piece, cells: &Cells) -> Result<Survivors, Memory>
    ensures { IfOk result (λ s. s ≡ map (λ l. l ∷ []) (piece_links p.now cells.now)) }
{
    let mut survivors = Survivors::new(alloc);
    for cell in cells.as_slice() {
        survivors.push(&[], p.link(cell))?;
    }
    Ok(survivors)
}
