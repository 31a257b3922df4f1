//! The query that a line spells.

ghost use Rattle.std.specs.Prelude.{◌≡◌, true, IfOk, Ok, Err, length, chars};
ghost use Rattle.geo_base.specs.declared.refusal.Refused.TheVariants as refused;
ghost use Rattle.geo_query.specs.Query.{query_of, option_words, needs_no_room};
ghost use Rattle.geo_text.specs.Words.{words_of};
ghost use Rattle.geo_query.specs.declared.query.QueryFault.{QueryFault};

use crate::options::{auto_in, bounds_in, lang_in, options_fit};
use crate::query::{Query, QueryFault};
use geo_base::refusal::Refused;
use geo_text::cut::{before, text_after};
use geo_text::token_map::TokenMap;
use geo_text::tokens::tokens;
use std::alloc::Global;

/// The most characters that the text of a query has.
const MOST_CHARACTERS: usize = 256;

/// The most tokens that a query has.
const MOST_TOKENS: usize = 20;

/// The number of characters of a text.
fn count_characters(text: &str) -> usize
    ensures { result ≡ length (chars text.now) }
{
    text.chars().count()
}

/// The words of a line's options, which stand before its first bar; no text where it has none.
fn options_of(line: &[u8]) -> &[u8]
    ensures { words_of result.now ≡ option_words line.now }
{
    if line.contains(&b'|') {
        before(line, b'|')
    } else {
        &line[..0]
    }
}

/// The query that a line spells, which is what follows the lane of an ask, or the first of its
/// faults in the order `WrongOption`, `Box`, `Long`, `Empty`, `Tokens`. Where the line holds a
/// bar, the words before the first one are the options, and what follows it is the text; else
/// the whole line is the text.
///
/// Memory may be refused in place of any answer but the faults `WrongOption`, `Box` and `Long`, which are found before
/// any room is asked for.
pub fn read_query(alloc: Global, line: &str) -> Result<Query, Refused<QueryFault>>
    ensures ok { IfOk result (λ q. query_of line.now ≡ Ok q) }
    ensures fault { (fault : QueryFault) → result ≡ Err (refused.Fault fault) → query_of line.now ≡ Err fault }
    ensures outright { (fault : QueryFault) → needs_no_room fault ≡ true → query_of line.now ≡ Err fault → result ≡ Err (refused.Fault fault) }
{
    let words = options_of(line.as_bytes());
    if !options_fit(words) {
        return Err(Refused::Fault(QueryFault::WrongOption));
    }
    let Some(bounds) = bounds_in(words) else {
        return Err(Refused::Fault(QueryFault::Box));
    };
    let text = text_after(line, b'|');
    if count_characters(text) > MOST_CHARACTERS {
        return Err(Refused::Fault(QueryFault::Long));
    }
    let tokens = tokens(alloc, text, &TokenMap::new(alloc))?;
    if tokens.len() < 1 {
        return Err(Refused::Fault(QueryFault::Empty));
    }
    if tokens.len() > MOST_TOKENS {
        return Err(Refused::Fault(QueryFault::Tokens));
    }
    Ok(Query::from_parts(tokens, auto_in(words), lang_in(words), bounds))
}
