//! A worker of a search: what it has in hand, and what it does.

ghost use Rattle.std.specs.Prelude.{◌≡◌, ℕ, true, is_none, is_ok, ◌+◌, ◌<◌, ◌≤◌, List, [], ◌∷◌, ◌++◌, length, map, reverse, vec_capacity, IfOk, OnOk, OnErr, if◌then◌else◌, slice_get, option_copied, Some};
ghost use Rattle.std.specs.List.{list_any};
ghost use Rattle.geo_base.specs.Job.{Fits, IsJob};
ghost use Rattle.stackable.specs.Partial.{IsPartial, roots as all_roots, survivors};
ghost use Rattle.stackable.specs.Bounded.{with_bound};
ghost use Rattle.search_core.specs.Machine.{is_of_root, top_partial, may_cut, may_open, claimed, looked, cut, opened, children_of};
ghost use Rattle.top_list.specs.Merged.{merged, floor_of};
ghost use Rattle.search_core.specs.Hand.{as_worker};
ghost use Rattle.search_core.specs.Kept.{AreKept};

use crate::fronts::Fronts;
use geo_base::job::Job;
use geo_base::refusal::Memory;
use geo_base::rows::Rows;
use geo_base::steps::Steps;
use geo_base::survivors::Survivors;
use stackable::bounded::{Bounded, push_children};
use stackable::partial::Partial;
use std::alloc::Global;
use std::marker::Model;
use std::snapshot::Snapshot;
use std::sync::ledger::Ledger;
use top_list::TopList;

/// A worker of a search: its stack of partials, the greatest floor that it has seen, and the best contexts that it found.
/// Each call is an event of the search machine. What it has claimed whoever hands it roots keeps account of.
#[derive(Drop)]
pub struct Worker {
    // each partial with its bound, the top partial last
    stack: Vec<Bounded>,
    seen: u64,
    top: TopList,
    // for contracts alone, without room
    job: Snapshot<Job>,
}

impl Model for Worker {
    ghost use Rattle.std.specs.Prelude.{◌<◌, map, reverse, All, vec_capacity};
    ghost use Rattle.geo_base.specs.Job.{IsJob};
    ghost use Rattle.stackable.specs.Bounded.{IsBounded};
    ghost use Rattle.search_core.specs.Hand.{Hand};

    ghost Value = { Hand };

    ghost view = { λ w. record { job = w.job.value; stack = reverse (map (λ b. b.partial) w.stack.items); seen = w.seen; top = w.top } };

    ghost invariant = { λ w. (0 < vec_capacity w.stack) × IsJob w.job.value × All (IsBounded w.job.value) w.stack.items };
}

impl Worker {
    /// A worker of a job that has nothing in hand, with room for a root and for its list.
    pub fn new(alloc: Global, job: &Job) -> Result<Worker, Memory>
        requires { IsJob job.now }
        ensures { IfOk result (λ w. w ≡ record { job = job.now; stack = []; seen = 0; top = [] }) }
    {
        let top = TopList::new(alloc)?;
        match Vec::with_capacity(alloc, 1) {
            Ok(stack) => Ok(Worker {
                stack,
                seen: 0,
                top,
                job: Snapshot::of(job),
            }),
            Err(_) => Err(Memory),
        }
    }

    /// Whether the worker has no partial.
    pub fn idle(&self) -> bool
        ensures { result ≡ is_none (top_partial self.now.stack) }
    {
        self.stack.is_empty()
    }

    /// The top partial.
    pub fn next(&self) -> Option<&Partial>
        ensures { option_copied result ≡ top_partial self.now.stack }
    {
        match self.stack.as_slice().last() {
            Some(top) => Some(&top.partial),
            None => None,
        }
    }

    /// The worker's best contexts.
    pub fn top(&self) -> &TopList
        ensures { result.now ≡ self.now.top }
    {
        &self.top
    }

    /// The worker's best contexts, taken out.
    pub fn into_top(self) -> TopList
        ensures { result ≡ self.top }
    {
        self.top
    }

    /// The floor of the worker's list.
    pub fn raise(&self) -> u64
        ensures { result ≡ floor_of self.now.top }
    {
        self.top.floor()
    }

    /// Whether the worker has a partial that begins with this root's piece.
    pub fn has_of(&self, root: &Partial) -> bool
        ensures { result ≡ list_any (is_of_root (Some root.now)) self.now.stack }
    {
        has_any(self.stack.as_slice(), root)
    }

    /// Takes the root of this number, counted from 0, if there is one. The worker has to be idle, and the roots are those of its
    /// job, with their bounds. Takes no memory.
    pub fn claim(&mut self, roots: &[Bounded], k: u64)
        requires idle { self.old.stack ≡ [] }
        requires roots { roots.now ≡ map (with_bound self.old.job) (all_roots self.old.job) }
        ensures claimed { (claims : List ℕ) → as_worker (claimed (as_worker claims self.old) k (slice_get (all_roots self.old.job) k)).claims self.new ≡ claimed (as_worker claims self.old) k (slice_get (all_roots self.old.job) k) }
        ensures job { self.new.job ≡ self.old.job }
    {
        if k < roots.len() as u64 {
            self.stack.push_reserved(roots[k as usize]);
        }
    }

    /// Sees a floor: from now on a partial whose bound is below it may be cut. A smaller one than was seen changes nothing.
    pub fn look(&mut self, floor: u64)
        ensures job { self.new.job ≡ self.old.job }
        ensures seen { (claims : List ℕ) → as_worker claims self.new ≡ looked (as_worker claims self.old) floor }
    {
        if self.seen < floor {
            self.seen = floor;
        }
    }

    /// Whether the bound of the top partial is below the floor that was seen. The worker has to have a partial.
    pub fn low(&self) -> bool
        requires { 0 < length self.now.stack }
        ensures { result ≡ may_cut self.now.job (as_worker [] self.now) }
    {
        self.stack[self.stack.len() - 1].bound < self.seen
    }

    /// Takes the top partial away, where its bound is below the floor that was seen. `true` where it did; else all is as before.
    /// The worker has to have a partial.
    pub fn cut(&mut self) -> bool
        requires { 0 < length self.old.stack }
        ensures value { result ≡ may_cut self.old.job (as_worker [] self.old) }
        ensures gone { (claims : List ℕ) → as_worker claims self.new ≡ (if result then cut (as_worker claims self.old) else as_worker claims self.old) }
        ensures job { self.new.job ≡ self.old.job }
    {
        if !self.low() {
            return false;
        }
        let _top = self.stack.take_last();
        true
    }

    /// Opens the top partial, whose bound isn't below the floor that was seen: its survivors are offered to the list, and
    /// where there are any its children take its place, the first on top. The job is the worker's. Ticks once. After want of
    /// memory the worker and the count of steps are as before.
    pub fn open_top<R: Rows, L: Ledger>(
        &mut self,
        job: &Job,
        rows: &mut R,
        fronts: &mut Fronts,
        steps: &mut Steps<L>,
    ) -> Result<(), Memory>
        requires job { self.old.job ≡ job.now }
        requires own { R.pieces rows.old ≡ job.now.pieces }
        requires fits { Fits job.now (R.cells rows.old) }
        requires may { may_open job.now (as_worker [] self.old) ≡ true }
        requires kept { AreKept job.now (R.cells rows.old) fronts.old }
        ensures opened { OnOk result ((claims : List ℕ) → as_worker claims self.new ≡ opened job.now (R.cells rows.old) (as_worker claims self.old)) }
        ensures job { self.new.job ≡ self.old.job }
        ensures refused { OnErr result (self.new ≡ self.old) }
        ensures ticks { steps.new ≡ (if is_ok result then steps.old + 1 else steps.old) }
        ensures kept { AreKept job.now (R.cells rows.old) fronts.new }
        ensures same_pieces { R.pieces rows.new ≡ R.pieces rows.old }
        ensures same_cells { R.cells rows.new ≡ R.cells rows.old }
        ensures same_origin { R.origin rows.new ≡ R.origin rows.old }
    {
        let top = self.stack.take_last();
        match open_partial(
            job,
            &top.partial,
            rows,
            fronts,
            &mut self.stack,
            &mut self.top,
        ) {
            Ok(()) => {
                steps.tick();
                Ok(())
            }
            Err(Memory) => {
                self.stack.push_reserved(top);
                Err(Memory)
            }
        }
    }
}

/// Offers the survivors of a partial to a list, and puts its children on a stack whose top is its last, the first on top, where there are survivors.
fn open_partial<R: Rows>(
    job: &Job,
    partial: &Partial,
    rows: &mut R,
    fronts: &mut Fronts,
    stack: &mut Vec<Bounded>,
    top: &mut TopList,
) -> Result<(), Memory>
    requires own { R.pieces rows.old ≡ job.now.pieces }
    requires fits { Fits job.now (R.cells rows.old) }
    requires partial { IsPartial job.now partial.now }
    requires kept { AreKept job.now (R.cells rows.old) fronts.old }
    ensures pushed { OnOk result (stack.new.items ≡ stack.old.items ++ reverse (map (with_bound job.now) (children_of job.now (survivors job.now (R.cells rows.old) partial.now) partial.now))) }
    ensures offered { OnOk result (top.new ≡ merged top.old (survivors job.now (R.cells rows.old) partial.now)) }
    ensures same_stack { OnErr result (stack.new.items ≡ stack.old.items) }
    ensures same_top { OnErr result (top.new ≡ top.old) }
    ensures capacity { vec_capacity stack.old ≤ vec_capacity stack.new }
    ensures kept { AreKept job.now (R.cells rows.old) fronts.new }
    ensures same_pieces { R.pieces rows.new ≡ R.pieces rows.old }
    ensures same_cells { R.cells rows.new ≡ R.cells rows.old }
    ensures same_origin { R.origin rows.new ≡ R.origin rows.old }
{
    fronts.reach(job, partial, rows)?;
    let found = fronts.found();
    push_below(job, partial, found, stack)?;
    top.offer_all(found);
    Ok(())
}

/// Puts the children of a partial on a stack whose top is its last, the first on top, where some context was found.
fn push_below(
    job: &Job,
    partial: &Partial,
    found: &Survivors,
    stack: &mut Vec<Bounded>,
) -> Result<(), Memory>
    requires job { IsJob job.now }
    requires partial { IsPartial job.now partial.now }
    ensures ok { OnOk result (stack.new.items ≡ stack.old.items ++ reverse (map (with_bound job.now) (children_of job.now found.now partial.now))) }
    ensures err { OnErr result (stack.new.items ≡ stack.old.items) }
    ensures capacity { vec_capacity stack.old ≤ vec_capacity stack.new }
{
    if found.len() == 0 {
        return Ok(());
    }
    push_children(job, partial, stack)
}

/// Whether a partial begins with the root's piece.
fn begins(partial: &Partial, root: &Partial) -> bool
    ensures { result ≡ is_of_root (Some root.now) partial.now }
{
    partial.pieces()[0] == root.pieces()[0]
}

/// Whether one of the partials begins with the root's piece.
fn has_any(partials: &[Bounded], root: &Partial) -> bool
    ensures { result ≡ list_any (λ b. is_of_root (Some root.now) b.partial) partials.now }
{
    for bounded in partials {
        if begins(&bounded.partial, root) {
            return true;
        }
    }
    false
}
