//! The level of a feature's score.

ghost use Rattle.std.specs.Prelude.{◌≡◌, ◌≤◌, option_map};
ghost use Rattle.feature_json.specs.Shape.{present, shape_of};
ghost use Rattle.feature_reader.specs.Feature.{level, score_of};

use feature_json::number::Number;
use feature_json::seen::Seen;

/// The level of a score: 15 times its part of `scoremax`, rounded up, at most 15; 0 of a score
/// below 0.
fn level(score: i128, scoremax: u32) -> u8
    requires { 1 ≤ scoremax }
    ensures { result ≡ level scoremax score }
{
    if score < 0 {
        return 0;
    }
    if score >= i128::from(scoremax) {
        return 15;
    }
    let scoremax = u64::from(scoremax);
    ((15 * (score as u64) + (scoremax - 1)) / scoremax) as u8
}

/// The score: 0 where it is absent or null, None exactly where it is there and no whole number.
fn score_of(seen: Option<Seen<'_>>) -> Option<i128>
    ensures { result ≡ score_of (present (option_map shape_of seen.entry)) }
{
    match seen {
        None => Some(0),
        Some(Seen::Null) => Some(0),
        Some(Seen::Number(Number::Unsigned(n))) => Some(i128::from(n)),
        Some(Seen::Number(Number::Negative(n))) => Some(i128::from(n)),
        Some(_) => None,
    }
}

/// The level of the score of a feature, 0 to 15, on a scale whose highest score is `scoremax`: 0
/// where the score is absent or null, None exactly where it is there and no whole number.
pub fn level_of(seen: Option<Seen<'_>>, scoremax: u32) -> Option<u8>
    requires { 1 ≤ scoremax }
    ensures { result ≡ option_map (level scoremax) (score_of (present (option_map shape_of seen.entry))) }
{
    let score = score_of(seen)?;
    Some(level(score, scoremax))
}
