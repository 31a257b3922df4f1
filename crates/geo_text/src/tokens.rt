//! The normal form of a text and its tokens.

ghost use Rattle.std.specs.Prelude.{◌≡◌, ◌<◌, ◌≤◌, length, slice_range, IfOk};
ghost use Rattle.geo_text.specs.Normal.{normal};
ghost use Rattle.geo_text.specs.Tokens.{tokens_of, replaced, joined};

use crate::Memory;
use crate::normalizer::Normalizer;
use crate::text::{Text, Tokens};
use crate::token_map::TokenMap;
use std::alloc::Global;

/// The normal form of a text, for callers that need no other after it. Memory may be refused in place of any answer.
pub fn normal(alloc: Global, text: &str) -> Result<Text, Memory>
    ensures { IfOk result (λ t. t ≡ normal text.now) }
{
    let mut normalizer = Normalizer::new(alloc);
    normalizer.normal(text)
}

/// The tokens of a text, each replaced where the map replaces it, for callers that need no other after it. Memory may be
/// refused in place of any answer.
pub fn tokens(alloc: Global, text: &str, replace: &TokenMap) -> Result<Tokens, Memory>
    ensures { IfOk result (λ list. list ≡ replaced replace.now (tokens_of text.now)) }
{
    let mut normalizer = Normalizer::new(alloc);
    normalizer.tokens(text, replace)
}

/// The same tokens, each replaced where the map replaces it. Memory may be refused in place of
/// any answer.
pub fn replaced(alloc: Global, list: &Tokens, replace: &TokenMap) -> Result<Tokens, Memory>
    ensures { IfOk result (λ tokens. tokens ≡ replaced replace.now list.now) }
{
    let mut tokens = Tokens::new(alloc);
    for token in list.as_slice() {
        tokens.push_copy(replace.replaced(token.as_str()))?;
    }
    Ok(tokens)
}

/// The tokens of a run, from `from` up to but not `to`, with one space between them. Memory
/// may be refused in place of any answer.
pub fn joined(alloc: Global, list: &Tokens, from: usize, to: usize) -> Result<Text, Memory>
    requires some { from < to }
    requires within { to ≤ length list.now }
    ensures { IfOk result (λ text. text ≡ joined (slice_range list.now from to)) }
{
    let mut text = list.at(from).copy()?;
    for token in &list.as_slice()[from + 1..to] {
        text.push(" ")?;
        text.push(token.as_str())?;
    }
    Ok(text)
}
