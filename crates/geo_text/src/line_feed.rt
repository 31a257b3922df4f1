//! Line feeds, and the bytes before and behind them.

ghost use Rattle.std.specs.Prelude.{◌≡◌, ◌∷◌, ◌++◌, ◌==◌, position, MatchOption};
ghost use Rattle.geo_text.specs.Bytes.{NoLineFeed};

use memchr::memchr;

/// The place of the first line feed.
fn place_of(bytes: &[u8]) -> Option<usize>
    ensures { result ≡ position (λ b. b == 10) bytes.now }
{
    memchr(b'\n', bytes)
}

/// What stands before the first line feed, and what stands behind it; None where there is none.
pub fn next_line(bytes: &[u8]) -> Option<(&[u8], &[u8])>
    ensures { MatchOption result (NoLineFeed bytes.now) (λ p. NoLineFeed p.0.now × (bytes.now ≡ p.0.now ++ 10 ∷ p.1.now)) }
{
    match place_of(bytes) {
        Some(at) => Some((&bytes[..at], &bytes[at + 1..])),
        None => None,
    }
}
