//! What tokens are replaced by.

ghost use Rattle.std.specs.Prelude.{◌≡◌, ◌<◌, [], length, slice_get, IfOk, OnOk, OnErr, option_map, unwrap_or, bytes_eq, Option, Some, ℕ, List, if◌then◌else◌};
ghost use Rattle.std.specs.BTreeMap.{insert_entry};
ghost use Rattle.std.specs.Cmp.Lexicographic.{slice_cmp};
ghost use Rattle.std.specs.Ordering.{nat_cmp};
ghost use Rattle.geo_text.specs.Tokens.{replacement, AreWords, Rise};
ghost use Rattle.geo_text.specs.Words.{IsWord};

use crate::Memory;
use crate::text::Text;
use std::alloc::Global;
use std::collections::BTreeMap;
use std::marker::Model;

/// What tokens are replaced by, seen as the list of tokens and their replacements, rising by the
/// bytes of the token. Each is a word: not empty, and without a space.
#[derive(Drop)]
pub struct TokenMap {
    words: BTreeMap<String, String>,
}

impl Model for TokenMap {
    ghost use Rattle.std.specs.Prelude.{map, string_bytes};
    ghost use Rattle.geo_text.specs.Tokens.{Replacements, AreWords};

    ghost Value = { Replacements };

    ghost view = { λ m. map (λ e. (string_bytes e.0, string_bytes e.1)) m.words.entries };

    ghost invariant = { λ m. AreWords (map (λ e. (string_bytes e.0, string_bytes e.1)) m.words.entries) };
}

impl TokenMap {
    /// No replacement; takes no memory.
    pub fn new(alloc: Global) -> TokenMap
        ensures { result ≡ [] }
    {
        TokenMap {
            words: BTreeMap::new(alloc),
        }
    }

    /// The number of tokens that are replaced.
    pub fn len(&self) -> usize
        ensures value { result ≡ length self.now }
        ensures rises { Rise self.now }
        ensures is { AreWords self.now }
    {
        self.words.len()
    }

    /// The token at a place in the order of their bytes, counted from 0, and what it is replaced by. It goes past those
    /// before it.
    pub fn at(&self, place: usize) -> (&str, &str)
        requires { place < length self.now }
        ensures { slice_get self.now place ≡ Some (result.0.now, result.1.now) }
    {
        match self.words.iter().nth(place) {
            Some((token, text)) => (token.as_str(), text.as_str()),
            None => unreachable!(),
        }
    }

    /// What the token is replaced by; None where it stays as it is.
    pub fn get(&self, token: &str) -> Option<&str>
        ensures { option_map (λ t. t.now) result ≡ replacement self.now token.now }
    {
        match self.words.get(token) {
            Some(text) => Some(text.as_str()),
            None => None,
        }
    }

    /// What the token is replaced by, or the token itself where it stays as it is.
    pub fn replaced<'a>(&'a self, token: &'a str) -> &'a str
        ensures { result.now ≡ unwrap_or (replacement self.now token.now) token.now }
    {
        match self.get(token) {
            Some(text) => text,
            None => token,
        }
    }

    /// From now on the token `from` is replaced by `to`, whatever it was replaced by before; the
    /// other tokens are replaced as before. The pair stands at its place in the order of the tokens. After want of
    /// memory the map is as before.
    pub fn insert(&mut self, from: Text, to: Text) -> Result<(), Memory>
        requires token { IsWord from }
        requires text { IsWord to }
        ensures ok { OnOk result ((q : List ℕ) → replacement self.new q ≡ (if bytes_eq from q then Some to else replacement self.old q)) }
        ensures list { OnOk result (self.new ≡ insert_entry (slice_cmp nat_cmp) self.old from to) }
        ensures err { OnErr result (self.new ≡ self.old) }
    {
        self.words.insert(from.into_string(), to.into_string())?;
        Ok(())
    }

    /// An equal map.
    pub fn copy(&self) -> Result<TokenMap, Memory>
        ensures { IfOk result (λ m. m ≡ self.now) }
    {
        Ok(TokenMap {
            words: self.words.clone()?,
        })
    }
}
