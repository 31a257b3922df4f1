//! What takes the tokens of a text, one after another.

ghost use Rattle.std.specs.Prelude.{◌≡◌, ◌++◌, ◌∷◌, [], List, ℕ, OnOk, IfOk};
ghost use Rattle.geo_text.specs.Tokens.{phrase_of};
ghost use Rattle.geo_text.specs.Joined.{IsJoined};

use crate::Memory;
use crate::text::{Text, Tokens};
use std::alloc::Global;

/// What takes tokens.
pub trait TokenSink {
    /// It has taken these tokens.
    ghost has: { Self → List (List ℕ) → Type 0 };

    /// Takes one more token.
    fn add(&mut self, token: &str) -> Result<(), Memory>
        ensures { OnOk result ((tokens : List (List ℕ)) → has self.old tokens → has self.new (tokens ++ token.now ∷ [])) };
}

impl TokenSink for Tokens {
    ghost use Rattle.std.specs.Prelude.{◌≡◌};

    ghost has = { λ s tokens. s ≡ tokens };

    fn add(&mut self, token: &str) -> Result<(), Memory> {
        self.push_copy(token)
    }
}

/// Tokens as one text, with one space between them.
#[derive(Drop)]
pub struct JoinedTokens {
    text: String,
    /// How many there are, up to 21.
    count: usize,
}

impl JoinedTokens {
    /// No tokens; takes no memory.
    pub fn new(alloc: Global) -> JoinedTokens
        ensures { IsJoined result [] }
    {
        JoinedTokens {
            text: String::new(alloc),
            count: 0,
        }
    }

    /// No tokens, and the room is kept.
    pub fn clear(&mut self)
        ensures { IsJoined self.new [] }
    {
        self.text.clear();
        self.count = 0;
    }

    /// The text of 1 to 20 tokens, else None.
    pub fn text(&self, alloc: Global) -> Result<Option<Text>, Memory>
        ensures { (tokens : List (List ℕ)) → IsJoined self.now tokens → IfOk result (λ o. o ≡ phrase_of tokens) }
    {
        if self.count == 0 {
            return Ok(None);
        }
        if self.count > 20 {
            return Ok(None);
        }
        Ok(Some(Text::of(alloc, self.text.as_str())?))
    }
}

impl TokenSink for JoinedTokens {
    ghost use Rattle.geo_text.specs.Joined.{IsJoined};

    ghost has = { λ s tokens. IsJoined s tokens };

    fn add(&mut self, token: &str) -> Result<(), Memory> {
        if self.count == 0 {
            self.text.push_str(token)?;
            self.count = 1;
            return Ok(());
        }
        self.text.push_str(" ")?;
        self.text.push_str(token)?;
        if self.count < 21 {
            self.count += 1;
        }
        Ok(())
    }
}
