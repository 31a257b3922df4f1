//! Contexts with one more piece.

ghost use Rattle.std.specs.Prelude.{◌≡◌, ◌+◌, ◌<◌, List, [], ◌∷◌, ◌++◌, length, All, Contains, IfOk, OnOk, option_to_list};
ghost use Rattle.geo_base.specs.declared.link.Link.{Link};
ghost use Rattle.geo_base.specs.Context.{Agree};
ghost use Rattle.geo_base.specs.Job.{piece_links};
ghost use Rattle.geo_base.specs.Context.{IsStack};
ghost use Rattle.geo_base.specs.Parents.{with_parent, with_parents, FitsBelow};

use crate::ready::ReadyCells;
use geo_base::cells::Cells;
use geo_base::job::Piece;
use geo_base::link::Link;
use geo_base::refusal::Memory;
use geo_base::survivors::Survivors;
use std::alloc::Global;

/// The contexts whose target's tile lies in the tile of a cell of the piece, each with the best of these cells below it:
/// the one of the greatest value, and of these the one of the smallest feature. The other contexts are left out.
///
/// The piece's links have to fit below the contexts: their layer is smaller than each of a context's, their run shares no
/// token with its runs, their tiles are no deeper than its tiles, and it has fewer than 16 links. And they have to agree:
/// their tiles have one zoom, and those of one feature one score.
pub fn coalesce_multi(
    alloc: Global,
    s: &Survivors,
    p: &Piece,
    cells: &Cells,
) -> Result<Survivors, Memory>
    requires below { All (FitsBelow (piece_links p.now cells.now)) s.now }
    requires agree { Agree (piece_links p.now cells.now) }
    ensures { IfOk result (λ r. r ≡ with_parents (piece_links p.now cells.now) s.now) }
{
    let ready = ReadyCells::new(alloc, p, cells)?;
    coalesce_ready(s, &ready, Survivors::new(alloc))
}

/// The same with cells that were made ready before, in the room of contexts that aren't needed any more, under the same condition.
pub fn coalesce_ready(
    s: &Survivors,
    ready: &ReadyCells,
    room: Survivors,
) -> Result<Survivors, Memory>
    requires { All (FitsBelow ready.now) s.now }
    ensures { IfOk result (λ r. r ≡ with_parents ready.now s.now) }
{
    let mut longer = room;
    longer.clear();
    for place in 0..s.len() {
        join(ready, s.at(place), &mut longer)?;
    }
    Ok(longer)
}

/// Adds a context with its best parent below it, if it has one.
fn join(ready: &ReadyCells, context: &[Link], longer: &mut Survivors) -> Result<(), Memory>
    requires stack { IsStack context.now }
    requires below { FitsBelow ready.now context.now }
    requires even { All (λ c. length c ≡ length context.now + 1) longer.old }
    ensures { OnOk result (longer.new ≡ longer.old ++ option_to_list (with_parent ready.now context.now)) }
{
    match ready.parent_of(&context[0].tile) {
        Some(parent) => longer.push(context, parent),
        None => Ok(()),
    }
}
