//! A search that goes by a list of events.

ghost use Rattle.std.specs.Prelude.{◌≡◌, ℕ, Bool, ◌+◌, ◌-◌, ◌^◌, ◌<◌, ◌≤◌, max, map, List, [], ◌∷◌, length, All, vec_len, IfOk, IfErr, OnOk, OnErr, if◌then◌else◌, replicate, slice_get, Some};
ghost use Rattle.geo_base.specs.declared.cells.Cell.{Cell};
ghost use Rattle.geo_base.specs.declared.job.Job.{Job as SomeJob};
ghost use Rattle.geo_base.specs.Job.{Fits, IsJob, job_best};
ghost use Rattle.stackable.specs.Partial.{roots as all_roots};
ghost use Rattle.stackable.specs.Bounded.{with_bound};
ghost use Rattle.search_core.specs.Machine.{is_allowed, happens, first_state, worker_of, is_of_root, is_done, replayed, Found};
ghost use Rattle.std.specs.List.{list_any};
ghost use Rattle.search_core.specs.Merging.{merged_tops};
ghost use Rattle.search_core.specs.Saying.{as_said, HasCause};
ghost use Rattle.search_core.specs.Hand.{as_worker, AreOf};
ghost use Rattle.search_core.specs.Shown.{shown};
ghost use Rattle.search_core.specs.Staged.{staged};
ghost use Rattle.search_core.specs.Kept.{AreKept};

use crate::fronts::Fronts;
use crate::worker::Worker;
use geo_base::event::{Event, ReplayFault};
use geo_base::job::Job;
use geo_base::refusal::{Memory, Refused};
use geo_base::rows::Rows;
use geo_base::steps::{Steps, open as open_steps};
use stackable::bounded::{Bounded, bounded_roots};
use stackable::partial::Partial;
use std::alloc::Global;
use std::marker::Brand;
use std::sync::ledger::{Blank, Ledger};
use top_list::TopList;

/// The workers of a replay, the next root and the floor.
#[derive(Drop)]
struct Stage {
    workers: Vec<Worker>,
    next: u64,
    floor: u64,
}

/// A claim, where it may happen.
fn claim(stage: &mut Stage, w: u8, roots: &[Bounded]) -> bool
    requires inside { w < vec_len stage.old.workers }
    requires room { stage.old.next < 2 ^ 64 - 1 }
    requires roots { All (λ h. roots.now ≡ map (with_bound h.job) (all_roots h.job)) stage.old.workers.items }
    ensures test { (job : SomeJob) → result ≡ is_allowed job (staged stage.old.next stage.old.floor stage.old.workers.items) (Event.Claim w) }
    ensures event { (job : SomeJob) (cells : List (List Cell)) → AreOf job stage.old.workers.items → staged stage.new.next stage.new.floor stage.new.workers.items ≡ (if result then shown (happens job cells (staged stage.old.next stage.old.floor stage.old.workers.items) (Event.Claim w)) else staged stage.old.next stage.old.floor stage.old.workers.items) }
    ensures jobs { (job : SomeJob) → AreOf job stage.old.workers.items → AreOf job stage.new.workers.items }
    ensures workers { vec_len stage.new.workers ≡ vec_len stage.old.workers }
    ensures next { stage.new.next ≤ stage.old.next + 1 }
{
    if !stage.workers[w as usize].idle() {
        return false;
    }
    stage.workers[w as usize].claim(roots, stage.next);
    stage.next += 1;
    true
}

/// A look.
fn look(stage: &mut Stage, w: u8)
    requires inside { w < vec_len stage.old.workers }
    ensures event { (job : SomeJob) (cells : List (List Cell)) → staged stage.new.next stage.new.floor stage.new.workers.items ≡ shown (happens job cells (staged stage.old.next stage.old.floor stage.old.workers.items) (Event.Look w)) }
    ensures jobs { (job : SomeJob) → AreOf job stage.old.workers.items → AreOf job stage.new.workers.items }
    ensures workers { vec_len stage.new.workers ≡ vec_len stage.old.workers }
    ensures next { stage.new.next ≡ stage.old.next }
{
    let floor = stage.floor;
    stage.workers[w as usize].look(floor);
}

/// A cut, where it may happen.
fn cut(stage: &mut Stage, w: u8) -> bool
    requires inside { w < vec_len stage.old.workers }
    ensures test { (job : SomeJob) → AreOf job stage.old.workers.items → result ≡ is_allowed job (staged stage.old.next stage.old.floor stage.old.workers.items) (Event.Cut w) }
    ensures event { (job : SomeJob) (cells : List (List Cell)) → staged stage.new.next stage.new.floor stage.new.workers.items ≡ (if result then shown (happens job cells (staged stage.old.next stage.old.floor stage.old.workers.items) (Event.Cut w)) else staged stage.old.next stage.old.floor stage.old.workers.items) }
    ensures jobs { (job : SomeJob) → AreOf job stage.old.workers.items → AreOf job stage.new.workers.items }
    ensures workers { vec_len stage.new.workers ≡ vec_len stage.old.workers }
    ensures next { stage.new.next ≡ stage.old.next }
{
    if stage.workers[w as usize].idle() {
        return false;
    }
    stage.workers[w as usize].cut()
}

/// An open, where it may happen.
fn open<R: Rows, L: Ledger>(
    stage: &mut Stage,
    w: u8,
    job: &Job,
    rows: &mut R,
    fronts: &mut Fronts,
    steps: &mut Steps<L>,
) -> Result<bool, Memory>
    requires inside { w < vec_len stage.old.workers }
    requires own { R.pieces rows.old ≡ job.now.pieces }
    requires fits { Fits job.now (R.cells rows.old) }
    requires jobs { AreOf job.now stage.old.workers.items }
    requires kept { AreKept job.now (R.cells rows.old) fronts.old }
    ensures test { IfOk result (λ may. may ≡ is_allowed job.now (staged stage.old.next stage.old.floor stage.old.workers.items) (Event.Open w)) }
    ensures event { IfOk result (λ may. staged stage.new.next stage.new.floor stage.new.workers.items ≡ (if may then shown (happens job.now (R.cells rows.old) (staged stage.old.next stage.old.floor stage.old.workers.items) (Event.Open w)) else staged stage.old.next stage.old.floor stage.old.workers.items)) }
    ensures jobs { (job : SomeJob) → AreOf job stage.old.workers.items → AreOf job stage.new.workers.items }
    ensures workers { vec_len stage.new.workers ≡ vec_len stage.old.workers }
    ensures next { stage.new.next ≡ stage.old.next }
    ensures kept { AreKept job.now (R.cells rows.old) fronts.new }
    ensures same_pieces { R.pieces rows.new ≡ R.pieces rows.old }
    ensures same_cells { R.cells rows.new ≡ R.cells rows.old }
    ensures same_origin { R.origin rows.new ≡ R.origin rows.old }
{
    if stage.workers[w as usize].idle() {
        return Ok(false);
    }
    if stage.workers[w as usize].low() {
        return Ok(false);
    }
    stage.workers[w as usize].open_top(job, rows, fronts, steps)?;
    Ok(true)
}

/// A raise.
fn raise(stage: &mut Stage, w: u8)
    requires inside { w < vec_len stage.old.workers }
    ensures event { (job : SomeJob) (cells : List (List Cell)) → staged stage.new.next stage.new.floor stage.new.workers.items ≡ shown (happens job cells (staged stage.old.next stage.old.floor stage.old.workers.items) (Event.Raise w)) }
    ensures jobs { (job : SomeJob) → AreOf job stage.old.workers.items → AreOf job stage.new.workers.items }
    ensures workers { vec_len stage.new.workers ≡ vec_len stage.old.workers }
    ensures next { stage.new.next ≡ stage.old.next }
{
    stage.floor = stage.floor.max(stage.workers[w as usize].raise());
}

/// An event, where it may happen.
fn happen<R: Rows, L: Ledger>(
    stage: &mut Stage,
    event: Event,
    roots: &[Bounded],
    job: &Job,
    rows: &mut R,
    fronts: &mut Fronts,
    steps: &mut Steps<L>,
) -> Result<bool, Memory>
    requires inside { worker_of event < vec_len stage.old.workers }
    requires room { stage.old.next < 2 ^ 64 - 1 }
    requires roots { roots.now ≡ map (with_bound job.now) (all_roots job.now) }
    requires own { R.pieces rows.old ≡ job.now.pieces }
    requires fits { Fits job.now (R.cells rows.old) }
    requires jobs { AreOf job.now stage.old.workers.items }
    requires kept { AreKept job.now (R.cells rows.old) fronts.old }
    ensures test { IfOk result (λ may. may ≡ is_allowed job.now (staged stage.old.next stage.old.floor stage.old.workers.items) event) }
    ensures event { IfOk result (λ may. staged stage.new.next stage.new.floor stage.new.workers.items ≡ (if may then shown (happens job.now (R.cells rows.old) (staged stage.old.next stage.old.floor stage.old.workers.items) event) else staged stage.old.next stage.old.floor stage.old.workers.items)) }
    ensures jobs { (job : SomeJob) → AreOf job stage.old.workers.items → AreOf job stage.new.workers.items }
    ensures workers { vec_len stage.new.workers ≡ vec_len stage.old.workers }
    ensures next { stage.new.next ≤ stage.old.next + 1 }
    ensures kept { AreKept job.now (R.cells rows.old) fronts.new }
    ensures same_pieces { R.pieces rows.new ≡ R.pieces rows.old }
    ensures same_cells { R.cells rows.new ≡ R.cells rows.old }
    ensures same_origin { R.origin rows.new ≡ R.origin rows.old }
{
    match event {
        Event::Claim(w) => Ok(claim(stage, w, roots)),
        Event::Look(w) => {
            look(stage, w);
            Ok(true)
        }
        Event::Cut(w) => Ok(cut(stage, w)),
        Event::Open(w) => open(stage, w, job, rows, fronts, steps),
        Event::Raise(w) => {
            raise(stage, w);
            Ok(true)
        }
    }
}

/// Eight workers of a job that have nothing in hand, no root claimed, and no floor.
fn first_stage(alloc: Global, job: &Job) -> Result<Stage, Memory>
    requires { IsJob job.now }
    ensures state { IfOk result (λ s. staged s.next s.floor s.workers.items ≡ first_state) }
    ensures jobs { IfOk result (λ s. AreOf job.now s.workers.items) }
    ensures eight { IfOk result (λ s. vec_len s.workers ≡ 8) }
    ensures next { IfOk result (λ s. s.next ≡ 0) }
{
    let mut workers = Vec::new(alloc);
    for _ in 0..8u8 {
        let worker = Worker::new(alloc, job)?;
        if workers.push(worker).is_err() {
            return Err(Memory);
        }
    }
    Ok(Stage {
        workers,
        next: 0,
        floor: 0,
    })
}

/// Whether no worker has a partial of a root, and its number is below the next root's.
fn is_done(stage: &Stage, root: &Bounded, k: usize) -> bool
    ensures { (job : SomeJob) → slice_get (all_roots job) k ≡ Some root.now.partial → result ≡ is_done job (staged stage.now.next stage.now.floor stage.now.workers.items) k }
{
    if k as u64 >= stage.next {
        return false;
    }
    !is_held(stage.workers.as_slice(), &root.partial)
}

/// Whether a worker has a partial of a root.
fn is_held(workers: &[Worker], root: &Partial) -> bool
    ensures { result ≡ list_any (λ w. list_any (is_of_root (Some root.now)) w.stack) workers.now }
{
    for worker in workers {
        if worker.has_of(root) {
            return true;
        }
    }
    false
}

/// The lists of the workers merged in turn.
fn merged(alloc: Global, workers: &[Worker]) -> Result<TopList, Memory>
    ensures { IfOk result (λ t. t ≡ merged_tops [] (map (as_worker []) workers.now)) }
{
    let mut top = TopList::new(alloc)?;
    for worker in workers {
        top.merge(worker.top());
    }
    Ok(top)
}

/// What a replay says.
#[derive(Drop)]
pub enum Said {
    /// Every event is allowed, and every root is done.
    Found(TopList),
    /// The place of the first event that isn't allowed.
    Illegal(u64),
    /// The first root that isn't done.
    Unfinished(u32),
}

/// Takes the events in turn, and then looks whether every root is done.
fn play<R: Rows, L: Ledger>(
    alloc: Global,
    job: &Job,
    events: &[Event],
    rows: &mut R,
    blank: Blank,
) -> Result<Said, Memory>
    requires blank { (blank.name ≡ L.name) × (blank.parts ≡ L.parts) × (L.parts ≡ 1) }
    requires own { R.pieces rows.old ≡ job.now.pieces }
    requires fits { Fits job.now (R.cells rows.old) }
    requires workers { All (λ e. worker_of e < 8) events.now }
    ensures said { IfOk result (λ s. replayed job.now (R.cells rows.old) events.now ≡ as_said s) }
    ensures same_pieces { R.pieces rows.new ≡ R.pieces rows.old }
    ensures same_cells { R.cells rows.new ≡ R.cells rows.old }
    ensures same_origin { R.origin rows.new ≡ R.origin rows.old }
{
    let kept = bounded_roots(alloc, job)?;
    let roots = kept.as_slice();
    let mut stage = first_stage(alloc, job)?;
    let mut fronts = Fronts::new(alloc, job)?;
    let mut steps = open_steps::<L>(blank);
    for i in 0..events.len() {
        let event = events[i];
        if !happen(&mut stage, event, roots, job, rows, &mut fronts, &mut steps)? {
            return Ok(Said::Illegal(i as u64));
        }
    }
    for k in 0..roots.len() {
        if !is_done(&stage, &roots[k], k) {
            return Ok(Said::Unfinished(k as u32));
        }
    }
    Ok(Said::Found(merged(alloc, stage.workers.as_slice())?))
}

/// The job's best contexts by a search that goes by these events of workers 0 to 7, or the place of the first event that
/// isn't allowed, or else the first root that isn't done, both counted from 0. After want of memory the rows are as before.
pub fn replay<R: Rows>(
    alloc: Global,
    job: &Job,
    events: &[Event],
    rows: &mut R,
) -> Result<TopList, Refused<ReplayFault>>
    requires own { R.pieces rows.old ≡ job.now.pieces }
    requires fits { Fits job.now (R.cells rows.old) }
    requires workers { All (λ e. worker_of e < 8) events.now }
    ensures found { IfOk result (λ top. replayed job.now (R.cells rows.old) events.now ≡ Found top) }
    ensures best { IfOk result (λ top. top ≡ job_best job.now (R.cells rows.old)) }
    ensures refused { IfErr result (HasCause (replayed job.now (R.cells rows.old) events.now)) }
    ensures same_pieces { R.pieces rows.new ≡ R.pieces rows.old }
    ensures same_cells { R.cells rows.new ≡ R.cells rows.old }
    ensures same_origin { R.origin rows.new ≡ R.origin rows.old }
{
    match play::<R, Brand>(alloc, job, events, rows, Blank::new(1)) {
        Ok(Said::Found(top)) => Ok(top),
        Ok(Said::Illegal(place)) => Err(Refused::Fault(ReplayFault::Illegal { place })),
        Ok(Said::Unfinished(root)) => Err(Refused::Fault(ReplayFault::Unfinished { root })),
        Err(Memory) => Err(Refused::Memory),
    }
}
