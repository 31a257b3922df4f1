//! The normal form and the tokens of texts, one after another.

ghost use Rattle.std.specs.Prelude.{◌≡◌, List, ℕ, ◌++◌, ◌∷◌, [], filter, map, not, chars, encode_utf8_all, string_bytes, IfOk, OnOk, IsAscii};
ghost use Rattle.std.specs.Char.{to_ascii_lowercase};
ghost use Rattle.unicode_normalization.specs.Forms.{nfd};
ghost use Rattle.caseless.specs.Caseless.{default_case_fold, canonical_key};
ghost use Rattle.geo_text.specs.Normal.{normal, is_combining, is_token_char};
ghost use Rattle.geo_text.specs.Tokens.{tokens_of, replaced, phrase_of, runs};
ghost use Rattle.geo_text.specs.Words.{is_not_empty};

use crate::Memory;
use crate::text::{Text, Tokens};
use crate::token_map::TokenMap;
use crate::token_sink::{JoinedTokens, TokenSink};
use caseless::Caseless;
use std::alloc::Global;
use std::marker::Model;
use unicode::properties::{GeneralCategory, GeneralCategoryGroup};
use unicode_normalization::slice::extend_nfd;

/// Room in which texts are normalised. It grows to what the longest text needs and is kept, so that many texts ask for
/// room for their answers only. It has no value that a caller sees, and serves as before after want of memory.
#[derive(Drop)]
pub struct Normalizer {
    alloc: Global,
    room: Room,
    phrase: JoinedTokens,
}

impl Model for Normalizer {
    ghost Value = { Unit {0} };

    ghost view = { λ n. tt };
}

impl Normalizer {
    /// No room yet; takes no memory.
    pub fn new(alloc: Global) -> Normalizer {
        Normalizer {
            alloc,
            room: Room {
                characters: Vec::new(alloc),
                decomposed: Vec::new(alloc),
                token: String::new(alloc),
            },
            phrase: JoinedTokens::new(alloc),
        }
    }

    /// The normal form of a text. Memory may be refused in place of any answer.
    pub fn normal(&mut self, text: &str) -> Result<Text, Memory>
        ensures { IfOk result (λ t. t ≡ normal text.now) }
    {
        if text.is_ascii() {
            return ascii_normal(self.alloc, text.as_bytes());
        }
        let room = &mut self.room;
        make_key(text, &mut room.characters, &mut room.decomposed)?;
        without_marks(self.alloc, room.decomposed.as_slice())
    }

    /// The tokens of a text, each replaced where the map replaces it. Memory may be refused in place of any answer.
    pub fn tokens(&mut self, text: &str, replace: &TokenMap) -> Result<Tokens, Memory>
        ensures { IfOk result (λ list. list ≡ replaced replace.now (tokens_of text.now)) }
    {
        let mut tokens = Tokens::new(self.alloc);
        self.room.give(text, replace, &mut tokens)?;
        Ok(tokens)
    }

    /// Those tokens as one text, with one space between them; None exactly where there is none or more than 20. Memory may
    /// be refused in place of any answer. Room is asked for that text alone.
    pub fn phrase(&mut self, text: &str, replace: &TokenMap) -> Result<Option<Text>, Memory>
        ensures { IfOk result (λ o. o ≡ phrase_of (replaced replace.now (tokens_of text.now))) }
    {
        self.phrase.clear();
        self.room.give(text, replace, &mut self.phrase)?;
        self.phrase.text(self.alloc)
    }
}

/// The lists in which a text is put into its normal form, and the token at hand.
#[derive(Drop)]
struct Room {
    characters: Vec<char>,
    decomposed: Vec<char>,
    token: String,
}

impl Room {
    /// Gives the tokens of a text, each replaced where the map replaces it.
    fn give<S: TokenSink>(
        &mut self,
        text: &str,
        replace: &TokenMap,
        sink: &mut S,
    ) -> Result<(), Memory>
        ensures { OnOk result ((tokens : List (List ℕ)) → S.has sink.old tokens → S.has sink.new (tokens ++ replaced replace.now (tokens_of text.now))) }
    {
        if text.is_ascii() {
            return ascii_tokens(text.as_bytes(), &mut self.token, replace, sink);
        }
        make_key(text, &mut self.characters, &mut self.decomposed)?;
        key_tokens(self.decomposed.as_slice(), &mut self.token, replace, sink)
    }
}

/// Makes the key of a text's canonical caseless match in the list `key`, by way of the other list.
fn make_key(text: &str, characters: &mut Vec<char>, key: &mut Vec<char>) -> Result<(), Memory>
    ensures { OnOk result (key.new.items ≡ canonical_key (chars text.now)) }
{
    read_characters(text, characters)?;
    decompose(characters.as_slice(), key)?;
    fold_case(key.as_slice(), characters)?;
    decompose(characters.as_slice(), key)
}

/// Fills the list with the characters of a text.
fn read_characters(text: &str, list: &mut Vec<char>) -> Result<(), Memory>
    ensures { OnOk result (list.new.items ≡ chars text.now) }
{
    list.clear();
    list.extend(text.chars())
}

/// Fills the list with the characters, decomposed.
fn decompose(from: &[char], list: &mut Vec<char>) -> Result<(), Memory>
    ensures { OnOk result (list.new.items ≡ nfd from.now) }
{
    list.clear();
    extend_nfd(list, from)
}

/// Fills the list with the characters, case folded.
fn fold_case(from: &[char], list: &mut Vec<char>) -> Result<(), Memory>
    ensures { OnOk result (list.new.items ≡ default_case_fold from.now) }
{
    list.clear();
    list.extend(from.iter().copied().default_case_fold())
}

/// The text of these characters without combining diacritical marks. Memory may be refused in place of any answer.
fn without_marks(alloc: Global, key: &[char]) -> Result<Text, Memory>
    ensures { IfOk result (λ text. text ≡ encode_utf8_all (filter (λ c. not (is_combining c)) key.now)) }
{
    let mut string = String::new(alloc);
    for c in key {
        if !is_combining(*c) {
            string.push(*c)?;
        }
    }
    Ok(Text::from_string(string))
}

/// Gives the tokens of these characters, combining diacritical marks left out, each replaced where the map replaces it; each
/// is put together in `token`.
fn key_tokens<S: TokenSink>(
    key: &[char],
    token: &mut String,
    replace: &TokenMap,
    sink: &mut S,
) -> Result<(), Memory>
    ensures { OnOk result ((tokens : List (List ℕ)) → S.has sink.old tokens → S.has sink.new (tokens ++ replaced replace.now (map encode_utf8_all (runs is_token_char (filter (λ c. not (is_combining c)) key.now))))) }
{
    token.clear();
    for c in key {
        if !is_combining(*c) {
            if is_in_token(*c) {
                token.push(*c)?;
            } else {
                end_token(token, replace, sink)?;
            }
        }
    }
    end_token(token, replace, sink)
}

/// The normal form of ASCII bytes, which is the text in lower case. Memory may be refused in place of any answer.
fn ascii_normal(alloc: Global, text: &[u8]) -> Result<Text, Memory>
    requires { IsAscii text.now }
    ensures { IfOk result (λ t. t ≡ normal text.now) }
{
    let mut string = String::new(alloc);
    lower_case(text, &mut string)?;
    Ok(Text::from_string(string))
}

/// Gives the tokens of ASCII bytes, the runs of letters and digits in lower case, each replaced where the map replaces it;
/// each is put together in `token`.
fn ascii_tokens<S: TokenSink>(
    text: &[u8],
    token: &mut String,
    replace: &TokenMap,
    sink: &mut S,
) -> Result<(), Memory>
    requires { IsAscii text.now }
    ensures { OnOk result ((tokens : List (List ℕ)) → S.has sink.old tokens → S.has sink.new (tokens ++ replaced replace.now (tokens_of text.now))) }
{
    token.clear();
    for b in text {
        if b.is_ascii_alphanumeric() {
            token.push(char::from(b.to_ascii_lowercase()))?;
        } else {
            end_token(token, replace, sink)?;
        }
    }
    end_token(token, replace, sink)
}

/// Gives the token that was put together, or what it is replaced by, if it has a byte, and empties it.
fn end_token<S: TokenSink>(
    token: &mut String,
    replace: &TokenMap,
    sink: &mut S,
) -> Result<(), Memory>
    ensures given { OnOk result ((tokens : List (List ℕ)) → S.has sink.old tokens → S.has sink.new (tokens ++ replaced replace.now (filter is_not_empty (string_bytes token.old ∷ [])))) }
    ensures empty { OnOk result (string_bytes token.new ≡ []) }
{
    if !token.is_empty() {
        sink.add(replace.replaced(token.as_str()))?;
        token.clear();
    }
    Ok(())
}

/// Fills the string with the characters that are these bytes in lower case.
fn lower_case(bytes: &[u8], string: &mut String) -> Result<(), Memory>
    ensures { OnOk result (string_bytes string.new ≡ encode_utf8_all (map to_ascii_lowercase bytes.now)) }
{
    string.clear();
    for b in bytes {
        string.push(char::from(b.to_ascii_lowercase()))?;
    }
    Ok(())
}

/// The character is a combining diacritical mark, U+0300 to U+036F.
fn is_combining(c: char) -> bool
    ensures { result ≡ is_combining c }
{
    ('\u{300}'..='\u{36f}').contains(&c)
}

/// The character stands in a token: a letter, a mark or a number.
fn is_in_token(c: char) -> bool
    ensures { result ≡ is_token_char c }
{
    if c.is_ascii() {
        return c.is_ascii_alphanumeric(); // most characters, without a look at a table
    }
    let category = GeneralCategory::for_char(c);
    GeneralCategoryGroup::Letter.contains(category)
        || GeneralCategoryGroup::Mark.contains(category)
        || GeneralCategoryGroup::Number.contains(category)
}
