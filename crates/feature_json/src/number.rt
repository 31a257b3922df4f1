//! The number that a token of JSON writes.

ghost use Rattle.std.specs.Prelude.{◌≡◌, ◌<◌, ◌==◌, IsTrue, length, slice_index, option_map, true, false};
ghost use Rattle.serde_json.specs.Read.{number_of, number_from, float_of};
ghost use Rattle.feature_json.specs.Numbers.{num_of};

use fast_float::Numeral;

/// A number as JSON writes it: a whole one of 64 bits exactly, and any other as the nearest float.
#[derive(Clone, Copy, Debug, PartialEq, Drop)]
pub enum Number {
    /// A whole number from 0 on, written without a fraction and an exponent.
    Unsigned(u64),
    /// A whole number below 0, written likewise.
    Negative(i64),
    /// Another number, which is finite; `-0` is one.
    Float(f64),
}

impl Number {
    /// The number that the text of a token of JSON writes; None where it is too large for a float.
    #[inline(always)]
    pub fn parse(text: &str) -> Option<Number>
        ensures { option_map num_of result ≡ number_of text.now }
    {
        let bytes = text.as_bytes();
        if has_minus(bytes) {
            Number::negative(&Numeral::scan(&bytes[1..]))
        } else {
            Number::unsigned(&Numeral::scan(bytes))
        }
    }

    /// The number of a text without a minus.
    #[inline(always)]
    fn unsigned(numeral: &Numeral<'_>) -> Option<Number>
        ensures { option_map num_of result ≡ number_from false numeral.now }
    {
        match numeral.to_u64() {
            Some(n) => Some(Number::Unsigned(n)),
            None => Number::nearest(false, numeral),
        }
    }

    /// The number of a text behind its minus.
    #[inline(always)]
    fn negative(numeral: &Numeral<'_>) -> Option<Number>
        ensures { option_map num_of result ≡ number_from true numeral.now }
    {
        if let Some(n) = numeral.to_i64(true) {
            if n < 0 {
                return Some(Number::Negative(n));
            }
        }
        Number::nearest(true, numeral)
    }

    /// The nearest float, where it is finite.
    #[inline(always)]
    fn nearest(negative: bool, numeral: &Numeral<'_>) -> Option<Number>
        ensures { option_map num_of result ≡ float_of negative numeral.now }
    {
        let x = numeral.to_float::<f64>(negative);
        if x.is_finite() {
            Some(Number::Float(x))
        } else {
            None
        }
    }
}

/// Whether the text begins with a minus.
fn has_minus(bytes: &[u8]) -> bool
    ensures value { result ≡ (slice_index bytes.now 0 == 45) }
    ensures len { IsTrue result → 0 < length bytes.now }
{
    !bytes.is_empty() && bytes[0] == b'-'
}
