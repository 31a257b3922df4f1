//! Queries, and why a line spells none.

ghost use Rattle.std.specs.Prelude.{◌≡◌, ◌↔◌, IsTrue, option_map};
ghost use Rattle.geo_query.specs.QueryView.{QueryView, IsQuery};

use geo_base::lang_code::LangCode;
use geo_base::tile_box::TileBox;
use geo_text::text::Tokens;
use std::marker::Model;

/// Why a line spells no query, in the order in which the faults are tried.
#[derive(Clone, Copy, Debug, PartialEq, Eq)]
pub enum QueryFault {
    /// A word of the options has no `=`, an unknown name, a name that stands twice, or a value that `auto` or
    /// `lang` can't have.
    WrongOption,
    /// The value of `box` isn't five numbers with a slash between each two, or there is no such box.
    Box,
    /// The text has more than 256 characters.
    Long,
    /// The text has no token.
    Empty,
    /// The text has more than 20 tokens.
    Tokens,
}

impl QueryFault {
    /// Whether the two are the same.
    pub fn is(&self, other: &QueryFault) -> bool
        ensures { IsTrue result ↔ (self.now ≡ other.now) }
    {
        self == other
    }
}

/// A query: 1 to 20 tokens, none of them replaced yet, and what its options ask for.
#[derive(Drop)]
pub struct Query {
    tokens: Tokens,
    bounds: Option<TileBox>,
    lang: Option<LangCode>,
    auto: bool,
}

impl Model for Query {
    ghost use Rattle.geo_query.specs.QueryView.{QueryView, IsQuery};

    ghost Value = { QueryView };

    ghost view = { λ q. record { tokens = q.tokens; auto = q.auto; lang = q.lang; bounds = q.bounds } };

    ghost invariant = { λ q. IsQuery (record { tokens = q.tokens; auto = q.auto; lang = q.lang; bounds = q.bounds }) };
}

impl Query {
    /// The query of these parts.
    pub(crate) fn from_parts(
        tokens: Tokens,
        auto: bool,
        lang: Option<LangCode>,
        bounds: Option<TileBox>,
    ) -> Query
        requires { IsQuery (record { tokens = tokens; auto = auto; lang = lang; bounds = bounds }) }
        ensures { result ≡ record { tokens = tokens; auto = auto; lang = lang; bounds = bounds } }
    {
        Query {
            tokens,
            auto,
            lang,
            bounds,
        }
    }

    /// The tokens, 1 to 20.
    pub fn tokens(&self) -> &Tokens
        ensures value { result.now ≡ self.now.tokens }
        ensures is { IsQuery self.now }
    {
        &self.tokens
    }

    /// Whether the last run of tokens may be the beginning of a phrase.
    pub fn auto(&self) -> bool
        ensures { result ≡ self.now.auto }
    {
        self.auto
    }

    /// The language that is asked for; None where any is as good.
    pub fn lang(&self) -> Option<&LangCode>
        ensures { option_map (λ code. code.now) result ≡ self.now.lang }
    {
        self.lang.as_ref()
    }

    /// The box in which all tiles of a context lie; None where there is none.
    pub fn bounds(&self) -> Option<TileBox>
        ensures { result ≡ self.now.bounds }
    {
        self.bounds
    }
}
