//! What openings leave for later ones: the survivors of partials whose children are still to be opened,
//! and the cells of pieces, made ready to be asked for parents.

ghost use Rattle.std.specs.Prelude.{◌≡◌, ℕ, true, ◌<◌, ◌≤◌, ◌-◌, List, [], ◌∷◌, ◌++◌, length, take, All, IfOk, IfSome, OnOk, vec_len, slice_get, Some, None};
ghost use Rattle.geo_base.specs.declared.link.Link.{Link};
ghost use Rattle.geo_base.specs.declared.cells.Cell.{Cell};
ghost use Rattle.geo_base.specs.Context.{Agree};
ghost use Rattle.geo_base.specs.Job.{Fits};
ghost use Rattle.geo_base.specs.Parents.{with_parents, FitsBelow};
ghost use Rattle.stackable.specs.Partial.{IsPartial, links_at, survivors};
ghost use Rattle.search_core.specs.declared.fronts.Front.{Front as SomeFront};
ghost use Rattle.search_core.specs.Kept.{IsReadyOf, AreReady, AreFronts, EndsWith, Kept, AreKept};

use crate::opening::of_one;
use crate::slots::empty_slots;
use coalesce_multi::multi::coalesce_ready;
use coalesce_multi::ready::ReadyCells;
use geo_base::job::Job;
use geo_base::refusal::Memory;
use geo_base::rows::Rows;
use geo_base::survivors::Survivors;
use stackable::partial::Partial;
use std::alloc::Global;
use std::marker::Model;

/// A partial and its survivors.
#[derive(Drop)]
pub struct Front {
    partial: Partial,
    survivors: Survivors,
}

/// What is kept of the openings of one job, with the same rows, for later ones.
///
/// A worker goes through all that stands below a partial before it leaves it. So when a partial is opened,
/// the survivors of the one without its last piece are still kept, and get one piece more. In any other order
/// of openings the survivors are the same, and are made again where they weren't kept.
#[derive(Drop)]
pub struct Fronts {
    alloc: Global,
    // fronts of the partial that was opened last, the longest last
    list: Vec<Front>,
    // for each piece its cells made ready, once they were asked for
    ready: Vec<Option<ReadyCells>>,
    // survivors that were let go, whose room is used again
    spare: Vec<Survivors>,
}

impl Model for Fronts {
    ghost Value = { Kept };

    ghost view = { λ f. record { fronts = f.list.items; ready = f.ready.items } };
}

impl Fronts {
    /// Nothing is kept yet.
    pub fn new(alloc: Global, job: &Job) -> Result<Fronts, Memory>
        ensures { IfOk result (λ f. (cells : List (List Cell)) → AreKept job.now cells f) }
    {
        let ready = empty_slots(alloc, job.pieces.as_slice().len())?;
        Ok(Fronts {
            alloc,
            list: Vec::new(alloc),
            ready,
            spare: Vec::new(alloc),
        })
    }

    /// Goes on from the longest front that is kept, piece by piece, until the survivors of the partial are kept last. After
    /// want of memory what is kept is still of this job and these cells.
    pub fn reach<R: Rows>(
        &mut self,
        job: &Job,
        partial: &Partial,
        rows: &mut R,
    ) -> Result<(), Memory>
        requires own { R.pieces rows.old ≡ job.now.pieces }
        requires fits { Fits job.now (R.cells rows.old) }
        requires partial { IsPartial job.now partial.now }
        requires kept { AreKept job.now (R.cells rows.old) self.old }
        ensures kept { AreKept job.now (R.cells rows.old) self.new }
        ensures reached { OnOk result (EndsWith self.new.fronts partial.now) }
        ensures same_pieces { R.pieces rows.new ≡ R.pieces rows.old }
        ensures same_cells { R.cells rows.new ≡ R.cells rows.old }
        ensures same_origin { R.origin rows.new ≡ R.origin rows.old }
    {
        let pieces = partial.pieces();
        let mut front = self.begin(job, partial, rows)?;
        for i in front.pieces().len()..pieces.len() {
            self.grow(job, &front, pieces[i], rows)?;
            front.push(pieces[i]);
        }
        Ok(())
    }

    /// The survivors that are kept last.
    pub fn found(&self) -> &Survivors
        requires { 0 < length self.now.fronts }
        ensures { (f : SomeFront) → slice_get self.now.fronts (length self.now.fronts - 1) ≡ Some f → result.now ≡ f.survivors }
    {
        &self.list[self.list.len() - 1].survivors
    }

    /// Drops what isn't a front of the partial, and then has at least the survivors of its first piece. Tells the last front.
    fn begin<R: Rows>(
        &mut self,
        job: &Job,
        partial: &Partial,
        rows: &mut R,
    ) -> Result<Partial, Memory>
        requires own { R.pieces rows.old ≡ job.now.pieces }
        requires partial { IsPartial job.now partial.now }
        requires kept { AreKept job.now (R.cells rows.old) self.old }
        ensures kept { AreKept job.now (R.cells rows.old) self.new }
        ensures last { IfOk result (λ f. EndsWith self.new.fronts f) }
        ensures front { IfOk result (λ f. f ≡ take (length f) partial.now) }
        ensures some { IfOk result (λ f. 0 < length f) }
        ensures few { IfOk result (λ f. length f ≤ length partial.now) }
        ensures same_pieces { R.pieces rows.new ≡ R.pieces rows.old }
        ensures same_cells { R.cells rows.new ≡ R.cells rows.old }
        ensures same_origin { R.origin rows.new ≡ R.origin rows.old }
    {
        let pieces = partial.pieces();
        let n = last_front(self.list.as_slice(), pieces);
        let_go(&mut self.list, n, &mut self.spare);
        if 0 < n {
            return Ok(self.list[n - 1].partial);
        }
        let survivors = of_one(self.alloc, job, pieces[0] as usize, rows)?;
        let first = Partial::new(pieces[0]);
        self.list.push(Front {
            partial: first,
            survivors,
        })?;
        Ok(first)
    }

    /// Keeps the survivors of the last front with one piece more.
    fn grow<R: Rows>(
        &mut self,
        job: &Job,
        front: &Partial,
        piece: u16,
        rows: &mut R,
    ) -> Result<(), Memory>
        requires own { R.pieces rows.old ≡ job.now.pieces }
        requires fits { Fits job.now (R.cells rows.old) }
        requires partial { IsPartial job.now (front.now ++ piece ∷ []) }
        requires last { EndsWith self.old.fronts front.now }
        requires some { 0 < length front.now }
        requires kept { AreKept job.now (R.cells rows.old) self.old }
        ensures kept { AreKept job.now (R.cells rows.old) self.new }
        ensures longer { OnOk result (EndsWith self.new.fronts (front.now ++ piece ∷ [])) }
        ensures same_pieces { R.pieces rows.new ≡ R.pieces rows.old }
        ensures same_cells { R.cells rows.new ≡ R.cells rows.old }
        ensures same_origin { R.origin rows.new ≡ R.origin rows.old }
    {
        let n = self.list.len();
        let room = room_again(self.alloc, &mut self.spare);
        let survivors = of_one_more(
            self.alloc,
            job,
            &self.list[n - 1].survivors,
            piece as usize,
            rows,
            &mut self.ready,
            room,
        )?;
        let mut partial = *front;
        partial.push(piece);
        self.list.push(Front { partial, survivors })?;
        Ok(())
    }
}

/// Whether one list of pieces begins another.
fn begins(front: &[u16], pieces: &[u16]) -> bool
    ensures { result ≡ true → (length front.now ≤ length pieces.now) × (take (length front.now) pieces.now ≡ front.now) }
{
    pieces.starts_with(front)
}

/// How many are kept up to the last that is of the first of these pieces.
fn last_front(list: &[Front], pieces: &[u16]) -> usize
    ensures within { result ≤ length list.now }
    ensures front { 0 < result → (f : SomeFront) × (slice_get list.now (result - 1) ≡ Some f) × (0 < length f.partial) × (length f.partial ≤ length pieces.now) × (take (length f.partial) pieces.now ≡ f.partial) }
{
    let mut n = list.len();
    while 0 < n {
        if begins(list[n - 1].partial.pieces(), pieces) {
            return n;
        }
        n -= 1;
    }
    0
}

/// Keeps the first so many fronts, and the room of the others' survivors.
fn let_go(list: &mut Vec<Front>, n: usize, spare: &mut Vec<Survivors>)
    ensures { list.new.items ≡ take n list.old.items }
{
    while n < list.len() {
        let Front {
            partial: _,
            survivors,
        } = list.take_last();
        // Where there is no place to keep it, the room is given back.
        let _kept = spare.push(survivors);
    }
}

/// Survivors that were let go, if there are any, else new ones.
fn room_again(alloc: Global, spare: &mut Vec<Survivors>) -> Survivors {
    match spare.pop() {
        Some(survivors) => survivors,
        None => Survivors::new(alloc),
    }
}

/// Contexts with the best parent of one piece more, in the room of others.
fn of_one_more<R: Rows>(
    alloc: Global,
    job: &Job,
    found: &Survivors,
    piece: usize,
    rows: &mut R,
    ready: &mut Vec<Option<ReadyCells>>,
    room: Survivors,
) -> Result<Survivors, Memory>
    requires own { R.pieces rows.old ≡ job.now.pieces }
    requires within { piece < length job.now.pieces }
    requires below { All (FitsBelow (links_at job.now (R.cells rows.old) piece)) found.now }
    requires agree { Agree (links_at job.now (R.cells rows.old) piece) }
    requires sized { vec_len ready.old ≡ length job.now.pieces }
    requires ready { AreReady job.now (R.cells rows.old) ready.old.items }
    ensures longer { IfOk result (λ s. s ≡ with_parents (links_at job.now (R.cells rows.old) piece) found.now) }
    ensures sized { vec_len ready.new ≡ vec_len ready.old }
    ensures ready { AreReady job.now (R.cells rows.old) ready.new.items }
    ensures same_pieces { R.pieces rows.new ≡ R.pieces rows.old }
    ensures same_cells { R.cells rows.new ≡ R.cells rows.old }
    ensures same_origin { R.origin rows.new ≡ R.origin rows.old }
{
    let held = ready[piece].take();
    let cells = ready_of(alloc, job, piece, held, rows)?;
    let longer = coalesce_ready(found, &cells, room);
    ready[piece] = Some(cells);
    longer
}

/// The cells of a piece made ready, where they aren't at hand.
fn ready_of<R: Rows>(
    alloc: Global,
    job: &Job,
    piece: usize,
    held: Option<ReadyCells>,
    rows: &mut R,
) -> Result<ReadyCells, Memory>
    requires own { R.pieces rows.old ≡ job.now.pieces }
    requires within { piece < length job.now.pieces }
    requires agree { Agree (links_at job.now (R.cells rows.old) piece) }
    requires held { IfSome held (IsReadyOf job.now (R.cells rows.old) piece) }
    ensures ready { IfOk result (IsReadyOf job.now (R.cells rows.old) piece) }
    ensures same_pieces { R.pieces rows.new ≡ R.pieces rows.old }
    ensures same_cells { R.cells rows.new ≡ R.cells rows.old }
    ensures same_origin { R.origin rows.new ≡ R.origin rows.old }
{
    if let Some(ready) = held {
        return Ok(ready);
    }
    let cells = rows.fetch(job, piece)?;
    ReadyCells::new(alloc, &job.pieces.as_slice()[piece], &cells)
}
