//! The order of the roots of a job's tree of partials.

ghost use Rattle.std.specs.Prelude.{◌≡◌, [], ◌∷◌, map, IfOk};
ghost use Rattle.std.specs.List.Sorted.{IsPermutation, IsSorted};
ghost use Rattle.geo_base.specs.Job.{IsJob};
ghost use Rattle.stackable.specs.Partial.{piece_numbers, roots};
ghost use Rattle.stackable.specs.Bounded.{with_bound};
ghost use Rattle.stackable.specs.RootOrder.{root_of, by_bound};

use crate::partial::Partial;
use crate::tree::bound;
use geo_base::job::Job;
use geo_base::refusal::Memory;
use std::alloc::Global;
use std::cmp::Ordering;

/// A piece, with the bound of the partial that it alone is.
#[derive(Clone, Copy)]
pub struct Root {
    /// The bound.
    pub bound: u64,
    /// The number of the piece.
    pub piece: u16,
}

/// The pieces with their bounds, in the order of the roots.
pub fn ordered_roots(alloc: Global, job: &Job) -> Result<Vec<Root>, Memory>
    requires { IsJob job.now }
    ensures pieces { IfOk result (λ r. map (λ r. r.piece ∷ []) r.items ≡ roots job.now) }
    ensures bounds { IfOk result (λ r. map (λ r. record { partial = r.piece ∷ []; bound = r.bound }) r.items ≡ map (with_bound job.now) (roots job.now)) }
{
    let mut order = bounds_of(alloc, job)?;
    put_in_order(&mut order);
    Ok(order)
}

/// Each piece with its bound, in the order of the pieces.
fn bounds_of(alloc: Global, job: &Job) -> Result<Vec<Root>, Memory>
    requires { IsJob job.now }
    ensures { IfOk result (λ r. r.items ≡ map (root_of job.now) (piece_numbers job.now)) }
{
    let pieces = job.pieces.as_slice().len();
    let mut list = Vec::with_capacity(alloc, pieces)?;
    for k in 0..pieces {
        let piece = k as u16;
        let bound = bound(job, &Partial::new(piece));
        list.push(Root { bound, piece })?;
    }
    Ok(list)
}

/// The order of roots: greater bound, then smaller piece number.
fn compare(a: &Root, b: &Root) -> Ordering
    ensures { result ≡ by_bound a.now b.now }
{
    b.bound.cmp(&a.bound).then(a.piece.cmp(&b.piece))
}

/// Puts roots in order.
fn put_in_order(list: &mut Vec<Root>)
    ensures permutation { IsPermutation list.old.items list.new.items }
    ensures sorted { IsSorted by_bound list.new.items }
{
    list.sort_unstable_by(|a, b| compare(a, b));
}
