//! The most that a phrase of a feature is relevant.

ghost use Rattle.std.specs.Prelude.{◌≡◌, IfSome, option_map};
ghost use Rattle.feature_json.specs.Shape.{present, shape_of};
ghost use Rattle.feature_reader.specs.FeatureView.{IsRelevance};
ghost use Rattle.feature_reader.specs.Feature.{relevance_of};

use feature_json::number::Number;
use feature_json::seen::Seen;

/// The relevance that no phrase of a feature is above: 40, 60, 80 or 100; 100 where it is absent or null, None exactly
/// where it is there and none of them.
pub fn cap_of(seen: Option<Seen<'_>>) -> Option<u8>
    ensures value { result ≡ relevance_of (present (option_map shape_of seen.entry)) }
    ensures is { IfSome result IsRelevance }
{
    match seen {
        None => Some(100),
        Some(Seen::Null) => Some(100),
        Some(Seen::Number(Number::Unsigned(40))) => Some(40),
        Some(Seen::Number(Number::Unsigned(60))) => Some(60),
        Some(Seen::Number(Number::Unsigned(80))) => Some(80),
        Some(Seen::Number(Number::Unsigned(100))) => Some(100),
        Some(_) => None,
    }
}
