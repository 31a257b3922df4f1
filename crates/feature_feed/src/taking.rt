//! Takes what a source has left into memory, up to a limit.

ghost use Rattle.std.specs.Prelude.{◌≡◌, ◌≢◌, ◌≤◌, ◌<◌, ◌+◌, ◌++◌, ℕ, List, Some, Err, IfOk, OnOk, length, take};
ghost use Rattle.std.specs.Io.KnownBytes.{IsAtEnd};
ghost use Rattle.geo_outside.specs.Device.{Rose, most_bytes};
ghost use Rattle.feature_feed.specs.Taking.{all_bytes};

use crate::feed::FeedError;
use crate::steady_source::SteadySource;
use geo_outside::device::{MOST_BYTES, Source};

/// How many bytes a read asks for at most.
const BLOCK: usize = 65_536;

/// One read, into a block and then behind what was taken. At an error nothing was taken.
fn take_some<S: Source>(
    source: &mut SteadySource<S>,
    taken: &mut Vec<u8>,
    block: &mut [u8],
) -> Result<usize, FeedError>
    requires { 0 < length block.old }
    ensures bytes { all_bytes taken.new.items source.new.left ≡ all_bytes taken.old.items source.old.left }
    ensures count { IfOk result (λ n. length taken.new.items ≡ length taken.old.items + n) }
    ensures end { IfOk result (λ n. n ≡ 0 → IsAtEnd source.new.left) }
    ensures later { source.old.faults ≤ source.new.faults }
    ensures kept { result ≢ Err FeedError.Failed → source.new.faults ≡ source.old.faults }
    ensures cause { result ≡ Err FeedError.Failed → Rose source.old.faults source.new.faults }
{
    if taken.reserve(block.len()).is_err() {
        return Err(FeedError::Memory);
    }
    let Ok(n) = source.read(block) else {
        return Err(FeedError::Failed);
    };
    if taken.extend_from_slice(&block[..n]).is_err() {
        return Err(FeedError::Memory); // there is room
    }
    Ok(n)
}

/// Takes what the source has left behind what was taken, until that is as long as the limit. At an error what was taken
/// stays, and a later call goes on.
pub(crate) fn take_source<S: Source>(
    source: &mut SteadySource<S>,
    taken: &mut Vec<u8>,
) -> Result<(), FeedError>
    ensures bytes { all_bytes taken.new.items source.new.left ≡ all_bytes taken.old.items source.old.left }
    ensures whole { OnOk result ((rest : List ℕ) → source.old.left ≡ Some rest → take most_bytes taken.new.items ≡ take most_bytes (taken.old.items ++ rest)) }
    ensures later { source.old.faults ≤ source.new.faults }
    ensures kept { result ≢ Err FeedError.Failed → source.new.faults ≡ source.old.faults }
    ensures cause { result ≡ Err FeedError.Failed → Rose source.old.faults source.new.faults }
{
    let mut block = [0u8; BLOCK];
    while taken.len() < MOST_BYTES {
        let room = BLOCK.min(MOST_BYTES - taken.len());
        let n = take_some(source, taken, &mut block[..room])?;
        if n == 0 {
            return Ok(());
        }
    }
    Ok(())
}
