//! The search by one worker.

ghost use Rattle.std.specs.Prelude.{◌≡◌, ℕ, Bool, ◌+◌, ◌-◌, ◌*◌, ◌^◌, ◌<◌, ◌≤◌, min, max, not, List, [], ◌∷◌, length, is_ok, IfOk, OnOk, OnErr, if◌then◌else◌};
ghost use Rattle.geo_base.specs.Job.{Fits, job_best};
ghost use Rattle.search_core.specs.Machine.{top_partial, is_low, looked, cut, opened, opens, cuts};
ghost use Rattle.top_list.specs.Merged.{floor_of};
ghost use Rattle.search_core.specs.Hand.{as_worker};
ghost use Rattle.search_core.specs.Alone.{one_if};
ghost use Rattle.search_core.specs.Kept.{AreKept};

use crate::fronts::Fronts;
use crate::worker::Worker;
use geo_base::job::Job;
use geo_base::refusal::Memory;
use geo_base::rows::Rows;
use geo_base::steps::{Steps, open as open_steps};
use stackable::bounded::bounded_roots;
use std::alloc::Global;
use std::marker::Brand;
use std::sync::ledger::{Blank, Ledger};
use top_list::TopList;

/// What a search found, and how many partials it opened and cut. A number above 2^64 - 1 is told as 2^64 - 1.
#[derive(Drop)]
pub struct SearchResult {
    /// The best contexts of the job.
    pub top: TopList,
    /// The number of partials that were opened.
    pub opens: u64,
    /// The number of partials that were cut.
    pub cuts: u64,
}

/// One turn of a worker that has a partial: it raises the floor and looks, and then cuts where it may, else opens. Says whether it cut.
fn take_turn<R: Rows, L: Ledger>(
    worker: &mut Worker,
    floor: &mut u64,
    job: &Job,
    rows: &mut R,
    fronts: &mut Fronts,
    steps: &mut Steps<L>,
) -> Result<bool, Memory>
    requires own { R.pieces rows.old ≡ job.now.pieces }
    requires fits { Fits job.now (R.cells rows.old) }
    requires job { worker.old.job ≡ job.now }
    requires some { 0 < length worker.old.stack }
    requires kept { AreKept job.now (R.cells rows.old) fronts.old }
    ensures job { worker.new.job ≡ worker.old.job }
    ensures floor { floor.new ≡ max floor.old (floor_of worker.old.top) }
    ensures test { IfOk result (λ was_cut. was_cut ≡ is_low job.now (max worker.old.seen floor.new) (top_partial worker.old.stack)) }
    ensures worker { IfOk result (λ was_cut. (claims : List ℕ) → as_worker claims worker.new ≡ (if was_cut then cut (looked (as_worker claims worker.old) floor.new) else opened job.now (R.cells rows.old) (looked (as_worker claims worker.old) floor.new))) }
    ensures ticks { IfOk result (λ was_cut. steps.new ≡ (if was_cut then steps.old else steps.old + 1)) }
    ensures refused { OnErr result (steps.new ≡ steps.old) }
    ensures kept { AreKept job.now (R.cells rows.old) fronts.new }
    ensures same_pieces { R.pieces rows.new ≡ R.pieces rows.old }
    ensures same_cells { R.cells rows.new ≡ R.cells rows.old }
    ensures same_origin { R.origin rows.new ≡ R.origin rows.old }
{
    *floor = (*floor).max(worker.raise());
    worker.look(*floor);
    if worker.cut() {
        return Ok(true);
    }
    worker.open_top(job, rows, fronts, steps)?;
    Ok(false)
}

/// One more, where it is so, up to the greatest number.
fn counted(count: u64, more: bool) -> u64
    ensures { result ≡ min (count + one_if more) (2 ^ 64 - 1) }
{
    if more { count.saturating_add(1) } else { count }
}

/// The job's best contexts, by one worker: it claims root after root, and takes turns while it has a partial. One step is ticked for each partial that is opened.
/// After want of memory the rows are as before, and as many steps were ticked as partials were opened till then.
pub fn search_one<R: Rows, L: Ledger>(
    alloc: Global,
    job: &Job,
    rows: &mut R,
    steps: &mut Steps<L>,
) -> Result<SearchResult, Memory>
    requires own { R.pieces rows.old ≡ job.now.pieces }
    requires fits { Fits job.now (R.cells rows.old) }
    ensures top { IfOk result (λ r. r.top ≡ job_best job.now (R.cells rows.old)) }
    ensures opens { IfOk result (λ r. r.opens ≡ min (opens job.now (R.cells rows.old)) (2 ^ 64 - 1)) }
    ensures cuts { IfOk result (λ r. r.cuts ≡ min (cuts job.now (R.cells rows.old)) (2 ^ 64 - 1)) }
    ensures ticks { OnOk result (steps.new ≡ steps.old + opens job.now (R.cells rows.old)) }
    ensures no_less { OnErr result (steps.old ≤ steps.new) }
    ensures no_more { OnErr result (steps.new ≤ steps.old + opens job.now (R.cells rows.old)) }
    ensures same_pieces { R.pieces rows.new ≡ R.pieces rows.old }
    ensures same_cells { R.cells rows.new ≡ R.cells rows.old }
    ensures same_origin { R.origin rows.new ≡ R.origin rows.old }
{
    let kept = bounded_roots(alloc, job)?;
    let roots = kept.as_slice();
    let mut worker = Worker::new(alloc, job)?;
    let mut fronts = Fronts::new(alloc, job)?;
    let mut floor = 0u64;
    let mut opens = 0u64;
    let mut cuts = 0u64;
    for k in 0..roots.len() {
        worker.claim(roots, k as u64);
        while !worker.idle() {
            let was_cut = take_turn(&mut worker, &mut floor, job, rows, &mut fronts, steps)?;
            opens = counted(opens, !was_cut);
            cuts = counted(cuts, was_cut);
        }
    }
    Ok(SearchResult {
        top: worker.into_top(),
        opens,
        cuts,
    })
}

/// The job's best contexts, by one worker that counts its steps for itself.
pub fn search_alone<R: Rows>(alloc: Global, job: &Job, rows: &mut R) -> Result<SearchResult, Memory>
    requires own { R.pieces rows.old ≡ job.now.pieces }
    requires fits { Fits job.now (R.cells rows.old) }
    ensures top { IfOk result (λ r. r.top ≡ job_best job.now (R.cells rows.old)) }
    ensures opens { IfOk result (λ r. r.opens ≡ min (opens job.now (R.cells rows.old)) (2 ^ 64 - 1)) }
    ensures cuts { IfOk result (λ r. r.cuts ≡ min (cuts job.now (R.cells rows.old)) (2 ^ 64 - 1)) }
    ensures same_pieces { R.pieces rows.new ≡ R.pieces rows.old }
    ensures same_cells { R.cells rows.new ≡ R.cells rows.old }
    ensures same_origin { R.origin rows.new ≡ R.origin rows.old }
{
    with_steps::<R, Brand>(alloc, job, rows, Blank::new(1))
}

/// The search by one worker with a new counter.
fn with_steps<R: Rows, L: Ledger>(
    alloc: Global,
    job: &Job,
    rows: &mut R,
    blank: Blank,
) -> Result<SearchResult, Memory>
    requires blank { (blank.name ≡ L.name) × (blank.parts ≡ L.parts) × (L.parts ≡ 1) }
    requires own { R.pieces rows.old ≡ job.now.pieces }
    requires fits { Fits job.now (R.cells rows.old) }
    ensures top { IfOk result (λ r. r.top ≡ job_best job.now (R.cells rows.old)) }
    ensures opens { IfOk result (λ r. r.opens ≡ min (opens job.now (R.cells rows.old)) (2 ^ 64 - 1)) }
    ensures cuts { IfOk result (λ r. r.cuts ≡ min (cuts job.now (R.cells rows.old)) (2 ^ 64 - 1)) }
    ensures same_pieces { R.pieces rows.new ≡ R.pieces rows.old }
    ensures same_cells { R.cells rows.new ≡ R.cells rows.old }
    ensures same_origin { R.origin rows.new ≡ R.origin rows.old }
{
    let mut steps = open_steps::<L>(blank);
    search_one(alloc, job, rows, &mut steps)
}
