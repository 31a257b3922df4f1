//! Texts and lists of texts that own their bytes.

ghost use Rattle.std.specs.Prelude.{◌≡◌, ℕ, ◌<◌, List, [], ◌∷◌, ◌++◌, length, slice_get, Some, IfOk, OnOk, OnErr, string_bytes};

use crate::Memory;
use std::alloc::Global;
use std::marker::Model;

/// A text, seen as the list of its bytes, which are UTF-8.
#[derive(Drop)]
pub struct Text {
    string: String,
}

impl Model for Text {
    ghost use Rattle.std.specs.Prelude.{List, ℕ, string_bytes};

    ghost Value = { List ℕ };

    ghost view = { λ t. string_bytes t.string };
}

impl Text {
    /// The empty text.
    pub fn new(alloc: Global) -> Text
        ensures { result ≡ [] }
    {
        Text {
            string: String::new(alloc),
        }
    }

    /// The text that this string has.
    pub fn from_string(string: String) -> Text
        ensures { result ≡ string_bytes string }
    {
        Text { string }
    }

    /// A text with these bytes.
    pub fn of(alloc: Global, text: &str) -> Result<Text, Memory>
        ensures { IfOk result (λ t. t ≡ text.now) }
    {
        Ok(Text {
            string: String::from_str(alloc, text)?,
        })
    }

    /// Adds a text at the end; after want of memory the text is as before.
    pub fn push(&mut self, text: &str) -> Result<(), Memory>
        ensures ok { OnOk result (self.new ≡ self.old ++ text.now) }
        ensures err { OnErr result (self.new ≡ self.old) }
    {
        self.string.push_str(text)?;
        Ok(())
    }

    /// The number of bytes.
    pub fn len(&self) -> usize
        ensures { result ≡ length self.now }
    {
        self.string.len()
    }

    /// The byte at a place, counted from 0.
    pub fn at(&self, place: usize) -> u8
        requires { place < length self.now }
        ensures { slice_get self.now place ≡ Some result }
    {
        self.string.as_bytes()[place]
    }

    /// The text.
    pub fn as_str(&self) -> &str
        ensures { result.now ≡ self.now }
    {
        self.string.as_str()
    }

    /// An equal text.
    pub fn copy(&self) -> Result<Text, Memory>
        ensures { IfOk result (λ t. t ≡ self.now) }
    {
        Ok(Text {
            string: self.string.clone()?,
        })
    }

    /// The string with the bytes of the text.
    pub fn into_string(self) -> String
        ensures { string_bytes result ≡ self }
    {
        self.string
    }
}

/// Tokens, seen as a list of texts.
#[derive(Drop)]
pub struct Tokens {
    list: Vec<Text>,
}

impl Model for Tokens {
    ghost use Rattle.std.specs.Prelude.{List, ℕ};

    ghost Value = { List (List ℕ) };

    ghost view = { λ t. t.list.items };
}

impl Tokens {
    /// No tokens.
    pub fn new(alloc: Global) -> Tokens
        ensures { result ≡ [] }
    {
        Tokens {
            list: Vec::new(alloc),
        }
    }

    /// Adds a token at the end; after want of memory the list is as before.
    pub fn push(&mut self, token: Text) -> Result<(), Memory>
        ensures ok { OnOk result (self.new ≡ self.old ++ token ∷ []) }
        ensures err { OnErr result (self.new ≡ self.old) }
    {
        self.list.push(token)?;
        Ok(())
    }

    /// Adds a copy of a token at the end; after want of memory the list is as before.
    pub fn push_copy(&mut self, token: &str) -> Result<(), Memory>
        ensures ok { OnOk result (self.new ≡ self.old ++ token.now ∷ []) }
        ensures err { OnErr result (self.new ≡ self.old) }
    {
        let copy = Text::of(*self.list.allocator(), token)?;
        self.push(copy)
    }

    /// The number of tokens.
    pub fn len(&self) -> usize
        ensures { result ≡ length self.now }
    {
        self.list.len()
    }

    /// The token at a place, counted from 0.
    pub fn at(&self, place: usize) -> &Text
        requires { place < length self.now }
        ensures { slice_get self.now place ≡ Some result.now }
    {
        &self.list[place]
    }

    /// The tokens.
    pub fn as_slice(&self) -> &[Text]
        ensures { result.now ≡ self.now }
    {
        self.list.as_slice()
    }

    /// Equal tokens.
    pub fn copy(&self) -> Result<Tokens, Memory>
        ensures { IfOk result (λ t. t ≡ self.now) }
    {
        let mut list = Vec::with_capacity(*self.list.allocator(), self.list.len())?;
        for token in &self.list {
            list.push(token.copy()?)?;
        }
        Ok(Tokens { list })
    }
}
