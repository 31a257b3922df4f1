//! Reads the words of a command line.

ghost use Rattle.std.specs.Prelude.{◌≡◌, ◌≤◌, map, string_bytes, length, IfOk};
ghost use Rattle.std.specs.List.{list_all, filter_map};
ghost use Rattle.carmen_cli.specs.TopCall.{file_at, feed_word, is_feed_word, kind_named, kind_asked, files_of};

use session_text::session::Kind;
use std::alloc::{AllocError, Global};
use std::marker::Model;

/// The most feeds that the words may name.
const MOST_FEEDS: usize = 16;

/// What the file of a feed holds.
#[derive(Clone, Copy, Debug, PartialEq, Eq)]
pub enum FeedFormat {
    /// Lines of JSON.
    Json,
    /// Rows of CSV.
    Csv,
}

/// A file that is to be lent as a feed, as a word of the command line names it.
#[derive(Drop)]
pub struct FeedFile<'a> {
    /// What it holds.
    pub format: FeedFormat,
    /// Where it is.
    pub path: &'a str,
}

impl<'a> Model for FeedFile<'a> {
    ghost use Rattle.carmen_cli.specs.TopCall.{FileView};

    ghost Value = { FileView };

    ghost view = { λ f. record { format = f.format; path = f.path.now } };
}

/// The file of this format at a path; None where the path is empty.
fn file_at<'a>(format: FeedFormat, path: &'a str) -> Option<FeedFile<'a>>
    ensures { result ≡ file_at format path.now }
{
    if path.is_empty() {
        return None;
    }
    Some(FeedFile { format, path })
}

/// The file that a word names: `json:` or `csv:`, and its path, which isn't empty; None for any other word.
pub fn feed_word(word: &str) -> Option<FeedFile<'_>>
    ensures { result ≡ feed_word word.now }
{
    if let Some(path) = word.strip_prefix("json:") {
        return file_at(FeedFormat::Json, path);
    }
    if let Some(path) = word.strip_prefix("csv:") {
        return file_at(FeedFormat::Csv, path);
    }
    None
}

/// Each of the words names a file.
fn are_feed_words(words: &[String]) -> bool
    ensures { result ≡ list_all is_feed_word (map string_bytes words.now) }
{
    words.iter().all(|word| feed_word(word.as_str()).is_some())
}

/// The kind of session that a command reads: `plain` one whose lines ask, `replay` one whose lines also explain and replay;
/// None for any other word.
fn kind_named(word: &str) -> Option<Kind>
    ensures { result ≡ kind_named word.now }
{
    if word == "plain" {
        return Some(Kind::Asks);
    }
    if word == "replay" {
        return Some(Kind::Replays);
    }
    None
}

/// The kind of session that the words ask for: they are a command, and at most 16 words behind it, each of which names a
/// file; None where the words are refused.
pub fn kind_asked(words: &[String]) -> Option<Kind>
    ensures { result ≡ kind_asked (map string_bytes words.now) }
{
    let Some((first, feeds)) = words.split_first() else {
        return None;
    };
    if feeds.len() > MOST_FEEDS {
        return None;
    }
    if !are_feed_words(feeds) {
        return None;
    }
    kind_named(first.as_str())
}

/// The files that these words name, in order.
fn files_named<'a>(alloc: Global, words: &'a [String]) -> Result<Vec<FeedFile<'a>>, AllocError>
    ensures { IfOk result (λ files. files.items ≡ filter_map feed_word (map string_bytes words.now)) }
{
    words
        .iter()
        .filter_map(|word| feed_word(word.as_str()))
        .collect(alloc)
}

/// The files of the feeds, in order: those that the words behind the command name; none where the words are refused.
pub fn feed_files<'a>(alloc: Global, words: &'a [String]) -> Result<Vec<FeedFile<'a>>, AllocError>
    ensures files { IfOk result (λ files. files.items ≡ files_of (map string_bytes words.now)) }
    ensures few { IfOk result (λ files. length files.items ≤ 16) }
{
    if kind_asked(words).is_none() {
        return Ok(Vec::new(alloc));
    }
    files_named(alloc, &words[1..])
}
