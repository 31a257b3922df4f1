//! The options of a query: the words before the bar.

ghost use Rattle.std.specs.Prelude.{◌≡◌, ◌==◌, ◌∷◌, false, true, [], codes, bytes_eq, None, Some, option_map, option_and_then, MatchOption};
ghost use Rattle.std.specs.List.{list_all, list_any, before_first};
ghost use Rattle.geo_base.specs.LangCode.{is_code};
ghost use Rattle.geo_text.specs.Words.{words_of};
ghost use Rattle.geo_query.specs.Query.{name_part, value_part, is_option, names_differ, options_fit, option_value, box_of_numbers, box_of, box_fits, is_auto};

use geo_base::lang_code::LangCode;
use geo_base::tile_box::TileBox;
use geo_text::cut::{after, ascii, before, cut, next_word};
use geo_text::number::number;

/// The code that a value is.
fn code_of(value: &[u8]) -> Option<LangCode>
    ensures { MatchOption result (is_code value.now ≡ false) (λ code. (is_code value.now ≡ true) × (code ≡ value.now)) }
{
    LangCode::new(ascii(value)?)
}

/// Whether the word is an option.
fn is_option(word: &[u8]) -> bool
    ensures { result ≡ is_option word.now }
{
    if !word.contains(&b'=') {
        return false;
    }
    if word == b"auto=0".as_slice() {
        return true;
    }
    if word == b"auto=1".as_slice() {
        return true;
    }
    let name = before(word, b'=');
    if name == b"lang".as_slice() {
        return code_of(after(word, b'=')).is_some();
    }
    name == b"box".as_slice()
}

/// Whether one of these words has this name.
fn has_name(words: &[u8], name: &[u8]) -> bool
    ensures { result ≡ list_any (λ word. bytes_eq (name_part word) name.now) (words_of words.now) }
{
    let mut rest = words;
    while let Some((word, more)) = next_word(rest) {
        if before(word, b'=') == name {
            return true;
        }
        rest = more;
    }
    false
}

/// Whether each of these words is an option, and no name stands twice.
pub fn options_fit(words: &[u8]) -> bool
    ensures { result ≡ options_fit (words_of words.now) }
{
    let mut rest = words;
    while let Some((word, more)) = next_word(rest) {
        if !is_option(word) {
            return false;
        }
        if has_name(more, before(word, b'=')) {
            return false;
        }
        rest = more;
    }
    true
}

/// The value of the option of this name.
fn option_value<'a>(words: &'a [u8], name: &[u8]) -> Option<&'a [u8]>
    ensures { option_map (λ v. v.now) result ≡ option_value name.now (words_of words.now) }
{
    let mut rest = words;
    while let Some((word, more)) = next_word(rest) {
        if before(word, b'=') == name {
            return Some(after(word, b'='));
        }
        rest = more;
    }
    None
}

/// The box of these numbers.
fn box_at(z: u64, x0: u64, y0: u64, x1: u64, y1: u64) -> Option<TileBox>
    ensures { result ≡ box_of_numbers (z ∷ x0 ∷ y0 ∷ x1 ∷ y1 ∷ []) }
{
    if z <= 16 && x0 <= x1 && y0 <= y1 && x1 < 1 << z && y1 < 1 << z {
        TileBox::new(z as u8, x0 as u32, y0 as u32, x1 as u32, y1 as u32)
    } else {
        None
    }
}

/// The box that a text `z/x0/y0/x1/y1` names: five numbers with a slash between each two.
fn read_box(text: &[u8]) -> Option<TileBox>
    ensures { result ≡ box_of text.now }
{
    let (z, rest) = cut(text, b'/')?;
    let (x0, rest) = cut(rest, b'/')?;
    let (y0, rest) = cut(rest, b'/')?;
    let (x1, y1) = cut(rest, b'/')?;
    if let Some(_) = cut(y1, b'/') {
        return None;
    }
    box_at(
        number(z)?,
        number(x0)?,
        number(y0)?,
        number(x1)?,
        number(y1)?,
    )
}

/// The box that the options ask for, if any; None where there is no such box.
pub fn bounds_in(words: &[u8]) -> Option<Option<TileBox>>
    ensures { MatchOption result (box_fits (option_value (codes "box") (words_of words.now)) ≡ false)
        (λ bounds. (box_fits (option_value (codes "box") (words_of words.now)) ≡ true)
        × (bounds ≡ option_and_then box_of (option_value (codes "box") (words_of words.now)))) }
{
    match option_value(words, b"box".as_slice()) {
        Some(value) => Some(Some(read_box(value)?)),
        None => Some(None),
    }
}

/// Whether the options let the last run be the beginning of a phrase.
pub fn auto_in(words: &[u8]) -> bool
    ensures { result ≡ is_auto (option_value (codes "auto") (words_of words.now)) }
{
    match option_value(words, b"auto".as_slice()) {
        Some(value) => value == b"1".as_slice(),
        None => true,
    }
}

/// The language that the options ask for.
pub fn lang_in(words: &[u8]) -> Option<LangCode>
    requires { options_fit (words_of words.now) ≡ true }
    ensures { result ≡ option_value (codes "lang") (words_of words.now) }
{
    code_of(option_value(words, b"lang".as_slice())?)
}
