//! Which runs of a query match a phrase.

ghost use Rattle.std.specs.Prelude.{◌≡◌, ◌<◌, ◌≤◌, ◌++◌, ℕ, List, length, MatchOption};
ghost use Rattle.geo_text.specs.Tokens.{joined};
ghost use Rattle.plain_answer.specs.Match.{matches};

use geo_text::text::Text;

/// What follows these bytes in a text; None where it doesn't begin with them.
fn after<'a>(text: &'a [u8], front: &[u8]) -> Option<&'a [u8]>
    ensures { MatchOption result ((rest : List ℕ) → text.now ≡ front.now ++ rest → ⊥) (λ rest. text.now ≡ front.now ++ rest.now) }
{
    text.strip_prefix(front)
}

/// What follows the text of a run in a phrase, which is its tokens with one space between each two; None where the phrase
/// doesn't begin with it.
fn after_run<'a>(phrase: &'a [u8], tokens: &[Text]) -> Option<&'a [u8]>
    ensures { MatchOption result ((rest : List ℕ) → phrase.now ≡ joined tokens.now ++ rest → ⊥) (λ rest. phrase.now ≡ joined tokens.now ++ rest.now) }
{
    match tokens {
        [] => Some(phrase),
        [last] => after(phrase, last.as_str().as_bytes()),
        [first, more @ ..] => {
            let rest = after(phrase, first.as_str().as_bytes())?;
            after_run(after(rest, b" ")?, more)
        }
    }
}

/// Whether the run of tokens from `from` up to but not `to` matches the phrase; `auto` says
/// whether one that ends the tokens may be the beginning of a phrase.
pub fn is_match(tokens: &[Text], auto: bool, from: usize, to: usize, phrase: &str) -> bool
    requires some { from < to }
    requires within { to ≤ length tokens.now }
    ensures { result ≡ matches tokens.now auto from to phrase.now }
{
    match after_run(phrase.as_bytes(), &tokens[from..to]) {
        Some(rest) => rest.is_empty() || auto && to == tokens.len(),
        None => false,
    }
}
