//! The answer of a job, plain and slow.

ghost use Rattle.std.specs.Prelude.{◌≡◌, ◌++◌, ℕ, List, map, OnOk, IfOk};
ghost use Rattle.geo_base.specs.declared.link.Link.{Link};
ghost use Rattle.geo_base.specs.declared.cells.Cell.{Cell};
ghost use Rattle.geo_base.specs.declared.job.Piece.{Piece};
ghost use Rattle.geo_base.specs.Job.{cell_link, job_best, Fits};

use crate::chains::best_contexts;
use geo_base::answer::Answer;
use geo_base::cells::Cell;
use geo_base::job::{Job, Piece};
use geo_base::link::Link;
use geo_base::refusal::Memory;
use geo_base::rows::Rows;
use std::alloc::Global;

/// Adds the links of a piece and its cells.
fn add_cells(links: &mut Vec<Link>, piece: &Piece, cells: &[Cell]) -> Result<(), Memory>
    ensures { OnOk result (links.new.items ≡ links.old.items ++ map (cell_link piece.now) cells.now) }
{
    for cell in cells {
        links.push(piece.link(cell))?;
    }
    Ok(())
}

/// The answer of a job: the 40 best contexts of the links of its pieces with their cells, one per target, the best first; fewer
/// where there are fewer targets.
///
/// The cells of each piece are fetched once. It is plain and slow: it follows each list of links that may stand together. After
/// want of memory, too, what gives the cells is as before.
pub fn answer_job<R: Rows>(alloc: Global, job: &Job, rows: &mut R) -> Result<Answer, Memory>
    requires own { R.pieces rows.old ≡ job.now.pieces }
    requires fits { Fits job.now (R.cells rows.old) }
    ensures answer { IfOk result (λ a. a ≡ record { tokens = job.now.tokens; contexts = job_best job.now (R.cells rows.old) }) }
    ensures same_pieces { R.pieces rows.new ≡ R.pieces rows.old }
    ensures same_cells { R.cells rows.new ≡ R.cells rows.old }
    ensures same_origin { R.origin rows.new ≡ R.origin rows.old }
{
    let pieces = job.pieces.as_slice();
    let mut links = Vec::new(alloc);
    for number in 0..pieces.len() {
        let piece = &pieces[number];
        let cells = rows.fetch(job, number)?;
        add_cells(&mut links, piece, cells.as_slice())?;
    }
    let top = best_contexts(alloc, &job.stacks, &links)?;
    Ok(top.into_answer(job.tokens))
}
