//! Roots and children with their bounds.

ghost use Rattle.std.specs.Prelude.{◌≡◌, ◌≤◌, [], ◌∷◌, ◌++◌, ◌*◌, ◌^◌, map, reverse, sum_by, vec_capacity, IfOk, OnOk, OnErr};
ghost use Rattle.geo_base.specs.Job.{IsJob};
ghost use Rattle.stackable.specs.Partial.{IsPartial, piece_at, roots, children};
ghost use Rattle.stackable.specs.Room.{IsRoom};
ghost use Rattle.stackable.specs.Bounded.{with_bound};

use crate::partial::Partial;
use crate::room::{Room, piece};
use crate::roots::ordered_roots;
use crate::tree::{bound_in, is_candidate, last_piece, top_values};
use geo_base::job::Job;
use geo_base::refusal::Memory;
use std::alloc::Global;

/// A partial and its bound.
#[derive(Clone, Copy)]
pub struct Bounded {
    /// The partial.
    pub partial: Partial,
    /// No context under it has a greater key.
    pub bound: u64,
}

/// Each piece as a partial of its own with its bound, by greater bound, then by smaller piece number.
pub fn bounded_roots(alloc: Global, job: &Job) -> Result<Vec<Bounded>, Memory>
    requires { IsJob job.now }
    ensures { IfOk result (λ r. r.items ≡ map (with_bound job.now) (roots job.now)) }
{
    let order = ordered_roots(alloc, job)?;
    let mut list = Vec::with_capacity(alloc, order.len())?;
    for root in &order {
        list.push(Bounded {
            partial: Partial::new(root.piece),
            bound: root.bound,
        })?;
    }
    Ok(list)
}

/// The partial with a candidate at its end, and its bound. The partial leaves this room, and its pieces' top values have this sum.
fn child(job: &Job, p: &Partial, room: &Room, sum: u64, candidate: usize) -> Bounded
    requires job { IsJob job.now }
    requires partial { IsPartial job.now (p.now ++ candidate ∷ []) }
    requires room { IsRoom job.now p.now room.now.taken room.now.layers }
    requires sum { sum ≡ sum_by (λ k. (piece_at job.now k).top_value) p.now }
    requires few { sum ≤ 16 * 2 ^ 32 }
    ensures { result ≡ with_bound job.now (p.now ++ candidate ∷ []) }
{
    let piece = piece(job, candidate);
    let below = room.below(&piece, job.stacks[piece.layer as usize]);
    let number = candidate as u16;
    let mut partial = *p;
    partial.push(number);
    let bound = bound_in(job, &partial, &below, sum + piece.top_value as u64);
    Bounded { partial, bound }
}

/// Puts the children of a partial with their bounds at the end of a list, the one of the greatest piece number first.
/// After want of memory the list is as before.
pub fn push_children(job: &Job, p: &Partial, list: &mut Vec<Bounded>) -> Result<(), Memory>
    requires job { IsJob job.now }
    requires partial { IsPartial job.now p.now }
    ensures ok { OnOk result (list.new.items ≡ list.old.items ++ reverse (map (with_bound job.now) (children job.now p.now))) }
    ensures err { OnErr result (list.new.items ≡ list.old.items) }
    ensures capacity { vec_capacity list.old ≤ vec_capacity list.new }
{
    let before = list.len();
    let room = Room::of(job, p);
    let sum = top_values(job, p);
    let mut k = last_piece(job, p);
    while 0 < k {
        k -= 1;
        if is_candidate(job, p, &room, k) {
            if list.push(child(job, p, &room, sum, k)).is_err() {
                list.truncate(before);
                return Err(Memory);
            }
        }
    }
    Ok(())
}
