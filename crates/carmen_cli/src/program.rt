//! A run of the program: what its words ask for, what is told of how it ends, and its exit status.

ghost use Rattle.std.specs.Prelude.{◌≡◌, ◌⊎◌, ◌≤◌, length, map, string_bytes, IfErr};
ghost use Rattle.std.specs.Process.{exit_status};
ghost use Rattle.session_text.specs.Status.{exit_number};
ghost use Rattle.session_text.specs.declared.status.Status.{Status};
ghost use Rattle.carmen_cli.specs.Program.{IsTold, IsRunAs, IsBegun, told_of, unopened_text, unopened_exit};

use crate::about::{about_of, about_text};
use crate::top::carmen;
use arrayvec::ArrayString;
use feature_feed::feed::Feed;
use geo_outside::device::{Sink, SinkError, Source};
use itoa::Buffer;
use query_server::transfer::put_all;
use session_text::status::{Status, status_text};
use std::env;
use std::env::Env;
use std::io::ErrorKind;
use std::process::ExitCode;

/// Writes a text that the program tells of itself.
fn tell<K: Sink>(sink: &mut K, text: &str) -> Status
    ensures { IsTold text.now (K.contents sink.old) (K.contents sink.new) (K.faults sink.old) (K.faults sink.new) result }
{
    match put_all(sink, text.as_bytes()) {
        Ok(()) => Status::Done,
        Err(SinkError::Failed) => Status::WriteFault,
        Err(SinkError::Memory) => Status::Memory,
    }
}

/// The words of the command line after the program's name, or the status that the run ends with where they can't be had.
pub fn words_after_name<R: Env + AllocGlobal>(rt: &R) -> Result<Vec<String>, Status>
    ensures { IfErr result (λ status. (status ≡ Status.Memory) ⊎ (status ≡ Status.Usage)) }
{
    let mut arguments = match env::args(rt) {
        Ok(arguments) => arguments,
        Err(error) => return Err(status_without_words(error.kind())),
    };
    let _name = arguments.next();
    let mut words = Vec::new(rt.alloc());
    for word in arguments {
        if words.push(word).is_err() {
            return Err(Status::Memory);
        }
    }
    Ok(words)
}

/// The status that a run ends with where its words can't be had: want of memory is `Memory`, and anything else, as a word
/// that is no text, a faulty command line.
fn status_without_words(kind: ErrorKind) -> Status
    ensures memory { kind ≡ ErrorKind.OutOfMemory → result ≡ Status.Memory }
    ensures usage { ¬ (kind ≡ ErrorKind.OutOfMemory) → result ≡ Status.Usage }
{
    match kind {
        ErrorKind::OutOfMemory => Status::Memory,
        _ => Status::Usage,
    }
}

/// What is told of a status where errors go: its text and a line feed, and nothing of `Done`.
fn told_of(status: &Status) -> ArrayString<256>
    ensures { result.bytes ≡ told_of status.now }
{
    let mut line = ArrayString::new();
    if let Status::Done = status {
        return line;
    }
    let text = status_text(status);
    line.push_str(text.as_str());
    line.push('\n');
    line
}

/// Tells a status where errors go. The exit status is the status's number, whether that can be written or not.
pub fn end<E: Sink>(status: Status, errors: &mut E) -> ExitCode
    ensures exit { exit_status result ≡ exit_number status }
    ensures told { IsBegun (E.contents errors.old) (E.contents errors.new) (told_of status) }
{
    let line = told_of(&status);
    let _ = put_all(errors, line.as_str().as_bytes());
    ExitCode::from(status.number())
}

/// What is told where the file of the feed of this number can't be opened, with a line feed.
fn unopened_text(n: usize) -> ArrayString<64>
    ensures { result.bytes ≡ unopened_text n }
{
    let mut buffer = Buffer::new();
    let mut line = ArrayString::new();
    line.push_str("carmen: feed ");
    line.push_str(buffer.format(n));
    line.push_str(" cannot be opened\n");
    line
}

/// Tells where errors go that the file of the feed of this number, counted from 0, can't be opened. The exit status is 9,
/// whether that can be written or not.
pub fn end_unopened<E: Sink>(n: usize, errors: &mut E) -> ExitCode
    ensures exit { exit_status result ≡ unopened_exit }
    ensures told { IsBegun (E.contents errors.old) (E.contents errors.new) (unopened_text n) }
{
    let line = unopened_text(n);
    let _ = put_all(errors, line.as_str().as_bytes());
    ExitCode::from(9)
}

/// Runs the program on the words after its name. Where the first word asks for its help or its version, that is written to
/// the sink, nothing is read and no feed is pulled; else it is one call of [`carmen`], with these feeds, fewer than 2^32. How
/// that ends is told by [`end`].
pub fn run_program<R: AllocGlobal, S: Source, K: Sink, E: Sink>(
    rt: &R,
    words: &[String],
    source: &mut S,
    sink: &mut K,
    errors: &mut E,
    feeds: &mut Vec<Box<dyn Feed>>,
) -> ExitCode
    requires feeds { length feeds.old.items ≤ 4294967295 }
    ensures { (status : Status) × (exit_status result ≡ exit_number status) × IsBegun (E.contents errors.old) (E.contents errors.new) (told_of status)
        × IsRunAs (map string_bytes words.now) (S.left source.old) (S.left source.new) (K.contents sink.old) (K.contents sink.new)
        (map (λ b. shows b) feeds.old.items) (map (λ b. shows b) feeds.new.items)
        (S.faults source.old) (S.faults source.new) (K.faults sink.old) (K.faults sink.new) status }
{
    let status = match about_of(words) {
        Some(about) => tell(sink, about_text(about)),
        None => carmen(rt, words, source, sink, feeds),
    };
    end(status, errors)
}
