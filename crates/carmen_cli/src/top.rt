//! The top call: the words of a command line, a source, a sink and feeds.

ghost use Rattle.std.specs.Prelude.{◌≡◌, ◌≢◌, ◌↔◌, ◌≤◌, length, map, string_bytes, Some, None};
ghost use Rattle.std.specs.Io.KnownBytes.{Keeps};
ghost use Rattle.geo_outside.specs.Device.{Rose, most_bytes};
ghost use Rattle.query_server.specs.Promise.{EndsAs, IsDecided};
ghost use Rattle.session_text.specs.declared.session.Kind.{Kind};
ghost use Rattle.carmen_cli.specs.TopCall.{kind_asked};

use crate::words::kind_asked;
use feature_feed::feed::Feed;
use geo_outside::device::{Sink, Source};
use query_server::run::run_plain;
use session_text::status::Status;

/// Reads a session from the source, answers it and writes the answers to the sink, where the words are a command, `plain` or
/// `replay`, and at most 16 feed words, `json:PATH` or `csv:PATH`. In a session of `replay` lines may also `explain` a query,
/// with how many partials its search opens and cuts, and `replay` one by given events. It goes round by round: a round is
/// answered once its `join` or `end` line was taken, and its text is written before more is read; nothing is read behind the
/// `end` line but what came with its block. Nothing taken is given back, and nothing written is undone. What is said of bytes
/// and of items holds where the source, the sink and the feeds tell theirs.
///
/// A `load` line names a feed by its number, counted from 0 in the order of `feeds`, of which there are fewer than 2^32. What
/// counts is how many feeds are lent; that they are those of the words is the caller's. The feed is pulled when the line's
/// round is answered, once, for at most 1,048,576 items; then no line names it again. A feed that no line of a closed round
/// names is as before, so where a round stays open, the feeds of its lines aren't pulled. A feed that fails ends its load
/// with `fault`, and the session goes on; a feed that wants memory ends the call.
///
/// - `Done`: the `end` line was read; what was written is a text of all rounds.
/// - `Usage`: the words aren't a command and at most 16 feed words. Nothing was taken and nothing written, no call has failed,
///   and the feeds are as before.
/// - `BadLine`: this line is the first that is refused, for this reason; what was written is a text of the closed rounds.
/// - `Unended`: the source has nothing left, and no line is refused or `end`; likewise.
/// - `TooMuch`: 268,435,456 bytes were taken, and no line of them is refused or `end`; likewise.
/// - `ReadFault`: a read of this call failed, and the source has counted it; no line taken before is refused or `end`;
///   likewise.
/// - `WriteFault`: a write of this call failed, and the sink has counted it; a front of a text of the closed rounds was
///   written, and not all of it.
/// - `Memory`: room was asked for and refused, which no clause says; a front of such a text was written.
///
/// No fault is passed over: any other status than `ReadFault` leaves the source's count of faults, and any other than
/// `WriteFault` the sink's. Where neither count of faults rose, the words, the bytes of the source and the number of feeds
/// alone decide the status, but for `Memory`: what the feeds give or how they fail decides no status.
pub fn carmen<R: AllocGlobal, S: Source, K: Sink>(
    rt: &R,
    words: &[String],
    source: &mut S,
    sink: &mut K,
    feeds: &mut Vec<Box<dyn Feed>>,
) -> Status
    requires feeds { length feeds.old.items ≤ 4294967295 }
    ensures session { (kind : Kind) → kind_asked (map string_bytes words.now) ≡ Some kind
        → EndsAs most_bytes kind (S.left source.old) (S.left source.new) (K.contents sink.old) (K.contents sink.new)
        (map (λ b. shows b) feeds.old.items) (map (λ b. shows b) feeds.new.items) result }
    ensures usage { (result ≡ Status.Usage) ↔ (kind_asked (map string_bytes words.now) ≡ None) }
    ensures untouched { result ≡ Status.Usage → Keeps (S.left source.old) (S.left source.new) × Keeps (K.contents sink.old) (K.contents sink.new)
        × (S.faults source.new ≡ S.faults source.old) × (K.faults sink.new ≡ K.faults sink.old)
        × (map (λ b. shows b) feeds.new.items ≡ map (λ b. shows b) feeds.old.items) }
    ensures read_fault { result ≡ Status.ReadFault → Rose (S.faults source.old) (S.faults source.new) }
    ensures write_fault { result ≡ Status.WriteFault → Rose (K.faults sink.old) (K.faults sink.new) }
    ensures decided { (kind : Kind) → kind_asked (map string_bytes words.now) ≡ Some kind
        → ¬ (Rose (S.faults source.old) (S.faults source.new)) → ¬ (Rose (K.faults sink.old) (K.faults sink.new))
        → IsDecided most_bytes kind (length feeds.old.items) (S.left source.old) result }
    ensures later { (S.faults source.old ≤ S.faults source.new) × (K.faults sink.old ≤ K.faults sink.new) }
    ensures kept { (result ≢ Status.ReadFault → S.faults source.new ≡ S.faults source.old) × (result ≢ Status.WriteFault → K.faults sink.new ≡ K.faults sink.old) }
{
    let Some(kind) = kind_asked(words) else {
        return Status::Usage;
    };
    run_plain(rt.alloc(), kind, source, sink, feeds)
}
