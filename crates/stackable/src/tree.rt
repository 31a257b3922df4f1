//! What stands below a partial, and how good it can be.

ghost use Rattle.std.specs.Prelude.{◌≡◌, ℕ, ◌*◌, ◌^◌, ◌<◌, ◌≤◌, List, length, filter, sum_by};
ghost use Rattle.std.specs.List.{list_any, list_all};
ghost use Rattle.geo_base.specs.Job.{IsJob};
ghost use Rattle.stackable.specs.Partial.{IsPartial, piece_at, piece_below, numbers_below, candidates, has_token, open_tokens, bound};
ghost use Rattle.stackable.specs.Room.{has_bit, IsRoom};

use crate::partial::Partial;
use crate::room::{Room, piece};
use geo_base::job::Job;

/// The partial's last piece. Only pieces before it may stand below the partial, since pieces rise by layer.
pub(crate) fn last_piece(job: &Job, p: &Partial) -> usize
    requires job { IsJob job.now }
    requires partial { IsPartial job.now p.now }
    ensures inside { result < length job.now.pieces }
    ensures before { candidates job.now p.now ≡ filter (λ k. list_all (λ j. piece_below job.now j k) p.now) (numbers_below result) }
{
    let pieces = p.pieces();
    pieces[pieces.len() - 1] as usize
}

/// The tokens that lie in the run of a piece that may stand below the partial, which leaves this room: bit t says whether token t does.
fn open_bits(job: &Job, p: &Partial, room: &Room) -> u32
    requires job { IsJob job.now }
    requires partial { IsPartial job.now p.now }
    requires room { IsRoom job.now p.now room.now.taken room.now.layers }
    ensures bits { (t : ℕ) → has_bit result t ≡ list_any (λ k. has_token (piece_at job.now k) t) (candidates job.now p.now) }
    ensures few { result < 2 ^ job.now.tokens }
{
    let mut tokens = 0u32;
    for q in &job.pieces.as_slice()[..last_piece(job, p)] {
        tokens |= room.tokens_of(q);
    }
    tokens
}

/// How many tokens lie in the run of a piece that may stand below the partial, which leaves this room.
fn count_open(job: &Job, p: &Partial, room: &Room) -> u32
    requires job { IsJob job.now }
    requires partial { IsPartial job.now p.now }
    requires room { IsRoom job.now p.now room.now.taken room.now.layers }
    ensures value { result ≡ open_tokens job.now p.now }
    ensures few { result ≤ 32 }
{
    open_bits(job, p, room).count_ones()
}

/// The sum of the top values of the partial's pieces.
pub(crate) fn top_values(job: &Job, p: &Partial) -> u64
    requires partial { IsPartial job.now p.now }
    ensures value { result ≡ sum_by (λ k. (piece_at job.now k).top_value) p.now }
    ensures few { result ≤ 16 * 2 ^ 32 }
{
    let mut sum = 0u64;
    for k in p.pieces() {
        sum += piece(job, *k as usize).top_value as u64;
    }
    sum
}

/// The bound of a partial, which leaves this room and whose pieces' top values have this sum.
pub(crate) fn bound_in(job: &Job, p: &Partial, room: &Room, sum: u64) -> u64
    requires job { IsJob job.now }
    requires partial { IsPartial job.now p.now }
    requires room { IsRoom job.now p.now room.now.taken room.now.layers }
    requires sum { sum ≡ sum_by (λ k. (piece_at job.now k).top_value) p.now }
    requires few { sum ≤ 17 * 2 ^ 32 }
    ensures { result ≡ bound job.now p.now }
{
    let root = piece(job, p.pieces()[0] as usize).top_score as u64;
    16 * (sum + 10000 * count_open(job, p, room) as u64) + root
}

/// What no key of a context under the partial exceeds: 16 times the sum of the top values of the partial's pieces and of
/// 10,000 for each token that lies in the run of a piece that may stand below it, plus the top score of its first piece.
/// A key is 16 times the sum of the values plus the target's score, a link's value is at most 10,000 for each token of its
/// run, and the runs of a context share no token. Where the top values are such values too, the bound is at most 3,200,015.
/// Takes no memory.
pub fn bound(job: &Job, p: &Partial) -> u64
    requires job { IsJob job.now }
    requires partial { IsPartial job.now p.now }
    ensures { result ≡ bound job.now p.now }
{
    bound_in(job, p, &Room::of(job, p), top_values(job, p))
}

/// Whether a piece may stand below each piece of the partial, which leaves this room.
pub(crate) fn is_candidate(job: &Job, p: &Partial, room: &Room, k: usize) -> bool
    requires job { IsJob job.now }
    requires room { IsRoom job.now p.now room.now.taken room.now.layers }
    requires piece { k < length job.now.pieces }
    ensures { result ≡ list_all (λ j. piece_below job.now j k) p.now }
{
    room.admits(&job.pieces.as_slice()[k])
}
