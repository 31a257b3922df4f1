//! The listed languages, and their reading.

ghost use Rattle.std.specs.Prelude.{◌≡◌, ◌<◌, ◌≤◌, ◌∷◌, ◌++◌, [], List, ℕ, length, slice_get, true, false, None, Some, Err, OnOk, OnErr, IfOk, IfSome, MatchOption, bytes_eq, position};
ghost use Rattle.std.specs.List.{list_any};
ghost use Rattle.geo_base.specs.LangCode.{is_code};
ghost use Rattle.geo_text.specs.Words.{words_of};
ghost use Rattle.geo_base.specs.declared.refusal.Refused.TheVariants as refused;
ghost use Rattle.geo_layer.specs.Langs.{are_langs, langs_of, bit_of};
ghost use Rattle.geo_layer.specs.declared.langs.LangFault.{LangFault};

use geo_base::lang_code::LangCode;
use geo_base::refusal::{Memory, Refused};
use geo_text::cut::{ascii, next_word};
use std::alloc::Global;
use std::marker::Model;

/// Why a line lists no languages.
#[derive(Clone, Copy, Debug, PartialEq, Eq)]
pub enum LangFault {
    /// There is no code or more than 127, a word is no code, or one stands twice.
    Lang,
}

/// At most 127 codes of languages, all different, seen as the list of their bytes. The k-th,
/// counted from 0, has bit k in a set of languages.
#[derive(Drop)]
pub struct Langs {
    list: Vec<LangCode>,
}

impl Model for Langs {
    ghost use Rattle.std.specs.Prelude.{◌≡◌, true, List, ℕ};
    ghost use Rattle.geo_layer.specs.Langs.{are_langs};

    ghost Value = { List (List ℕ) };

    ghost view = { λ l. l.list.items };

    ghost invariant = { λ l. are_langs l.list.items ≡ true };
}

impl Langs {
    /// No languages.
    pub fn new(alloc: Global) -> Langs
        ensures { result ≡ [] }
    {
        Langs {
            list: Vec::new(alloc),
        }
    }

    /// Adds a code at the end; after want of memory the list is as before.
    pub fn push(&mut self, code: LangCode) -> Result<(), Memory>
        requires { are_langs (self.old ++ code ∷ []) ≡ true }
        ensures ok { OnOk result (self.new ≡ self.old ++ code ∷ []) }
        ensures err { OnErr result (self.new ≡ self.old) }
    {
        self.list.push(code)?;
        Ok(())
    }

    /// The number of codes, at most 127.
    pub fn len(&self) -> usize
        ensures value { result ≡ length self.now }
        ensures are { are_langs self.now ≡ true }
    {
        self.list.len()
    }

    /// The code at a place, counted from 0.
    pub fn at(&self, place: usize) -> &LangCode
        requires { place < length self.now }
        ensures { slice_get self.now place ≡ Some result.now }
    {
        &self.list[place]
    }

    /// Whether the code is listed.
    pub fn has(&self, code: &LangCode) -> bool
        ensures { result ≡ list_any (bytes_eq code.now) self.now }
    {
        self.list
            .iter()
            .any(|listed| code.as_str() == listed.as_str())
    }

    /// The bit of a language: its place in the list, or 127 where it isn't listed.
    pub fn bit(&self, code: &LangCode) -> u8
        ensures value { result ≡ bit_of self.now code.now }
        ensures few { result < 128 }
    {
        match self.place(code) {
            Some(place) => place as u8,
            None => 127,
        }
    }

    /// The place of the code in the list, where it is listed.
    fn place(&self, code: &LangCode) -> Option<usize>
        ensures place { result ≡ position (bytes_eq code.now) self.now }
        ensures few { IfSome result (λ place. place < 127) }
    {
        self.list
            .iter()
            .position(|listed| code.as_str() == listed.as_str())
    }

    /// Equal languages.
    pub fn copy(&self) -> Result<Langs, Memory>
        ensures { IfOk result (λ langs. langs ≡ self.now) }
    {
        let mut list = Vec::with_capacity(*self.list.allocator(), self.list.len())?;
        for code in &self.list {
            list.push(code.copy())?;
        }
        Ok(Langs { list })
    }
}

/// The code that a word is.
fn code_of(word: &[u8]) -> Option<LangCode>
    ensures { MatchOption result (is_code word.now ≡ false) (λ code. (is_code word.now ≡ true) × (code ≡ word.now)) }
{
    LangCode::new(ascii(word)?)
}

/// The words as codes, where they are at most 127 codes, all different.
fn codes_of(alloc: Global, text: &[u8]) -> Result<Option<Langs>, Memory>
    ensures { IfOk result (λ o. MatchOption o (are_langs (words_of text.now) ≡ false) (λ langs. langs ≡ words_of text.now)) }
{
    let mut langs = Langs::new(alloc);
    let mut rest = text;
    while let Some((word, after)) = next_word(rest) {
        let Some(code) = code_of(word) else {
            return Ok(None);
        };
        if langs.len() == 127 {
            return Ok(None);
        }
        if langs.has(&code) {
            return Ok(None);
        }
        langs.push(code)?;
        rest = after;
    }
    Ok(Some(langs))
}

/// The languages that a line lists: its words, which are separated by spaces, are 1 to 127 codes,
/// all different; else the fault `Lang`.
///
/// Memory may be refused in place of any answer.
pub fn read_langs(alloc: Global, line: &str) -> Result<Langs, Refused<LangFault>>
    ensures ok { IfOk result (λ langs. langs_of line.now ≡ Some langs) }
    ensures fault { (e : LangFault) → result ≡ Err (refused.Fault e) → langs_of line.now ≡ None }
{
    let Some(langs) = codes_of(alloc, line.as_bytes())? else {
        return Err(Refused::Fault(LangFault::Lang));
    };
    if langs.len() == 0 {
        return Err(Refused::Fault(LangFault::Lang));
    }
    Ok(langs)
}
