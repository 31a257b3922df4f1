//! The geocoder's program: it opens the files of the feeds, and hands the words of its command line, the three standard
//! streams and the feeds to the library.
#![tactic(auto)]

use carmen_cli::program::{end, end_unopened, run_program, words_after_name};
use carmen_cli::words::{FeedFormat, feed_files};
use feature_feed::csv_feed::CsvFeed;
use feature_feed::feed::Feed;
use feature_feed::json_lines_feed::JsonLinesFeed;
use geo_base::refusal::Memory;
use geo_outside::device::{Sink, Source};
use geo_outside::edge::{ReadSource, WriteSink};
use session_text::status::Status;
use std::fs::File;
use std::io::ErrorKind;
use std::process::ExitCode;

/// Opens the files of the feeds in order, and runs the program with them. Where one can't be opened, nothing is read; where
/// that is for want of memory, this is the answer.
fn run<S: Source, K: Sink, E: Sink>(
    rt: &HostRuntime,
    words: &[String],
    source: &mut S,
    sink: &mut K,
    errors: &mut E,
) -> Result<ExitCode, Memory> {
    let alloc = rt.alloc();
    let files = feed_files(alloc, words)?;
    let mut feeds: Vec<Box<dyn Feed>> = Vec::new(alloc);
    for (n, file) in files.iter().enumerate() {
        let opened = match File::open(rt, file.path) {
            Ok(opened) => opened,
            Err(error) if error.kind() == ErrorKind::OutOfMemory => return Err(Memory),
            Err(_) => return Ok(end_unopened(n, errors)),
        };
        let bytes = ReadSource::new(opened);
        match file.format {
            FeedFormat::Json => feeds.push(Box::new(alloc, JsonLinesFeed::make(alloc, bytes)?)?)?,
            FeedFormat::Csv => feeds.push(Box::new(alloc, CsvFeed::make(alloc, bytes)?)?)?,
        }
    }
    Ok(run_program(rt, words, source, sink, errors, &mut feeds))
}

fn main(rt: HostRuntime) -> ExitCode {
    let mut source = ReadSource::new(rt.stdin());
    let mut sink = WriteSink::new(rt.stdout());
    let mut errors = WriteSink::new(rt.stderr());
    let code = match words_after_name(&rt) {
        Ok(words) => match run(&rt, &words, &mut source, &mut sink, &mut errors) {
            Ok(code) => code,
            Err(Memory) => end(Status::Memory, &mut errors),
        },
        Err(status) => end(status, &mut errors),
    };
    let _ = (
        source.into_reader(),
        sink.into_writer(),
        errors.into_writer(),
    );
    code
}
