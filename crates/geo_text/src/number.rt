//! Numbers as digits.

ghost use Rattle.std.specs.Prelude.{◌≡◌, ◌≤◌, ◌<◌, ◌^◌, IfSome};
ghost use Rattle.geo_text.specs.Numbers.{digits_of, number_of};

/// The number that a text of 1 to `most` digits spells, leading zeros allowed, which is below 10^most; else None.
pub fn digits(text: &[u8], most: usize) -> Option<u64>
    requires { most ≤ 18 }
    ensures value { result ≡ digits_of most text.now }
    ensures below { IfSome result (λ n. n < 10 ^ most) }
{
    if text.is_empty() || text.len() > most {
        return None;
    }
    let mut n: u64 = 0;
    for b in text {
        if !b.is_ascii_digit() {
            return None;
        }
        n = n * 10 + u64::from(*b - b'0');
    }
    Some(n)
}

/// The number that a text spells: 1 to 10 digits, leading zeros allowed; else None.
pub fn number(text: &[u8]) -> Option<u64>
    ensures { result ≡ number_of text.now }
{
    digits(text, 10)
}
