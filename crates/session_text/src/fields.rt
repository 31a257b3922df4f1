//! The fields of a line.

ghost use Rattle.std.specs.Prelude.{◌≡◌, ◌==◌, true, false, length, Some, None, MatchOption, ok_or, nat_lt};
ghost use Rattle.std.specs.List.{list_all, list_any};
ghost use Rattle.std.specs.Str.{is_utf8};
ghost use Rattle.geo_text.specs.Words.{words_of};
ghost use Rattle.session_text.specs.Lines.{line_text, is_skipped, next_field};
ghost use Rattle.session_text.specs.Session.{one_number, two_numbers};
ghost use Rattle.session_text.specs.declared.why.Why.TheVariants as why;

use geo_text::cut::{after_word, next_word, skip_spaces};
use geo_text::number::number;

/// The bytes as a text; None where they aren't UTF-8.
pub fn utf8(bytes: &[u8]) -> Option<&str>
    ensures { MatchOption result (is_utf8 bytes.now ≡ false) (λ text. (is_utf8 bytes.now ≡ true) × (text.now ≡ bytes.now)) }
{
    match std::str::from_utf8(bytes) {
        Ok(text) => Some(text),
        Err(_) => None,
    }
}

/// The line without one carriage return at its end.
pub fn line_text(line: &str) -> &str
    ensures { result.now ≡ line_text line.now }
{
    match line.strip_suffix('\r') {
        Some(text) => text,
        None => line,
    }
}

/// Whether each byte is a space.
pub fn are_spaces(text: &[u8]) -> bool
    ensures { result ≡ list_all (λ b. b == 32) text.now }
{
    text.iter().all(|b| *b == b' ')
}

/// Whether the line is skipped: it is empty, of spaces alone, or begins with `#`.
pub fn is_skipped(text: &[u8]) -> bool
    ensures { result ≡ is_skipped text.now }
{
    are_spaces(text) || text.first() == Some(&b'#')
}

/// Whether the text has a semicolon.
pub fn has_semicolon(text: &[u8]) -> bool
    ensures { result ≡ list_any (λ b. b == 59) text.now }
{
    text.iter().any(|b| *b == b';')
}

/// What follows the first word and its spaces.
pub fn next_field(text: &[u8]) -> &[u8]
    ensures { result.now ≡ next_field text.now }
{
    skip_spaces(after_word(text))
}

/// The one number that follows the word of a line; None where another thing does.
pub fn one_number(text: &[u8]) -> Option<u64>
    ensures { ok_or result why.Form ≡ one_number text.now }
{
    let (first, rest) = next_word(after_word(text))?;
    if next_word(rest).is_some() {
        return None;
    }
    number(first)
}

/// The two numbers that follow the word of a line; None where another thing does.
pub fn two_numbers(text: &[u8]) -> Option<(u64, u64)>
    ensures { ok_or result why.Form ≡ two_numbers text.now }
{
    let (first, rest) = next_word(after_word(text))?;
    let (second, rest) = next_word(rest)?;
    if next_word(rest).is_some() {
        return None;
    }
    Some((number(first)?, number(second)?))
}

/// Whether the line has at most one word.
pub fn is_bare(text: &[u8]) -> bool
    ensures { result ≡ nat_lt (length (words_of text.now)) 2 }
{
    match next_word(text) {
        Some((_, rest)) => next_word(rest).is_none(),
        None => true,
    }
}
