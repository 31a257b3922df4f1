//! Cutting bytes and texts: at the first of a mark, and into words.

ghost use Rattle.std.specs.Prelude.{◌≡◌, ◌∷◌, [], ◌+◌, ◌<◌, ◌==◌, length, drop, position, IfSome, IsAscii, MatchOption, Decides, true, false};
ghost use Rattle.std.specs.List.{slice_split, before_first, after_first};
ghost use Rattle.std.specs.Str.{IsCharBoundary};
ghost use Rattle.geo_text.specs.Tokens.{is_ascii};
ghost use Rattle.geo_text.specs.Words.{words_of, first_word, after_word, after_or_all, skip_spaces, IsWord};

/// The place of the first of these bytes.
fn place_of(text: &[u8], mark: u8) -> Option<usize>
    ensures { result ≡ position (λ b. b == mark) text.now }
{
    text.iter().position(|b| *b == mark)
}

/// The place of the first of these marks of ASCII; the text may be cut before it and behind it.
fn place_in(text: &str, mark: u8) -> Option<usize>
    requires { mark < 128 }
    ensures value { result ≡ position (λ b. b == mark) text.now }
    ensures before { IfSome result (λ at. IsCharBoundary text.now at) }
    ensures behind { IfSome result (λ at. IsCharBoundary text.now (at + 1)) }
{
    place_of(text.as_bytes(), mark)
}

/// What stands before the first of these bytes and what stands after it; None where there is none.
pub fn cut(text: &[u8], mark: u8) -> Option<(&[u8], &[u8])>
    ensures parts { MatchOption result (slice_split (λ b. b == mark) text.now ≡ text.now ∷ [])
        (λ p. slice_split (λ b. b == mark) text.now ≡ p.0.now ∷ slice_split (λ b. b == mark) p.1.now) }
    ensures shorter { IfSome result (λ p. length p.1.now < length text.now) }
{
    match place_of(text, mark) {
        Some(at) => Some((&text[..at], &text[at + 1..])),
        None => None,
    }
}

/// What stands in a text from a place on; nothing where the text is shorter.
pub fn from(text: &[u8], place: usize) -> &[u8]
    ensures { result.now ≡ drop place text.now }
{
    text.get(place..).unwrap_or_default()
}

/// What stands in a text before the first of these bytes, or all of it where there is none.
pub fn before(text: &[u8], mark: u8) -> &[u8]
    ensures { result.now ≡ before_first (λ b. b == mark) text.now }
{
    match place_of(text, mark) {
        Some(at) => &text[..at],
        None => text,
    }
}

/// What stands in a text after the first of these bytes; nothing where there is none.
pub fn after(text: &[u8], mark: u8) -> &[u8]
    ensures { result.now ≡ after_first (λ b. b == mark) text.now }
{
    match place_of(text, mark) {
        Some(at) => &text[at + 1..],
        None => &text[text.len()..],
    }
}

/// The text without the spaces at its beginning.
pub fn skip_spaces(text: &[u8]) -> &[u8]
    ensures { result.now ≡ skip_spaces text.now }
{
    let mut rest = text;
    while let [b' ', more @ ..] = rest {
        rest = more;
    }
    rest
}

/// What stands in a text before the first space, or all of it where there is none.
pub fn first_word(text: &[u8]) -> &[u8]
    ensures { result.now ≡ first_word text.now }
{
    before(text, b' ')
}

/// What stands in a text after the first space; nothing where there is none.
pub fn after_word(text: &[u8]) -> &[u8]
    ensures { result.now ≡ after_word text.now }
{
    after(text, b' ')
}

/// What stands in a text before the first of these marks of ASCII and what stands after it; None where there is none.
pub fn cut_text(text: &str, mark: u8) -> Option<(&str, &str)>
    requires { mark < 128 }
    ensures parts { MatchOption result (slice_split (λ b. b == mark) text.now ≡ text.now ∷ [])
        (λ p. slice_split (λ b. b == mark) text.now ≡ p.0.now ∷ slice_split (λ b. b == mark) p.1.now) }
    ensures shorter { IfSome result (λ p. length p.1.now < length text.now) }
{
    match place_in(text, mark) {
        Some(at) => Some((&text[..at], &text[at + 1..])),
        None => None,
    }
}

/// What stands in a text after the first of these marks of ASCII, or the whole text where there is none.
pub fn text_after(text: &str, mark: u8) -> &str
    requires { mark < 128 }
    ensures { result.now ≡ after_or_all mark text.now }
{
    match place_in(text, mark) {
        Some(at) => &text[at + 1..],
        None => text,
    }
}

/// The text without the spaces at its beginning.
pub fn skip_spaces_of(text: &str) -> &str
    ensures { result.now ≡ skip_spaces text.now }
{
    let mut rest = text;
    while let Some(more) = rest.strip_prefix(' ') {
        rest = more;
    }
    rest
}

/// What stands in a text after the first space; nothing where there is none.
pub fn after_word_of(text: &str) -> &str
    ensures { result.now ≡ after_word text.now }
{
    match place_in(text, b' ') {
        Some(at) => &text[at + 1..],
        None => &text[text.len()..],
    }
}

/// The first word of a text, whose words are separated by spaces, and what follows it; None where
/// there is no word.
pub fn next_word(text: &[u8]) -> Option<(&[u8], &[u8])>
    ensures words { MatchOption result (words_of text.now ≡ []) (λ p. words_of text.now ≡ p.0.now ∷ words_of p.1.now) }
    ensures shorter { IfSome result (λ p. length p.1.now < length text.now) }
    ensures word { IfSome result (λ p. IsWord p.0.now) }
{
    let text = skip_spaces(text);
    if text.is_empty() {
        return None;
    }
    Some((first_word(text), after_word(text)))
}

/// The bytes are a word: not empty, and without a space.
pub fn is_word(text: &[u8]) -> bool
    ensures { Decides result (IsWord text.now) }
{
    if text.is_empty() {
        return false;
    }
    !text.contains(&b' ')
}

/// The bytes as a text, where they are ASCII; else None.
pub fn ascii(bytes: &[u8]) -> Option<&str>
    ensures { MatchOption result (is_ascii bytes.now ≡ false) (λ text. (is_ascii bytes.now ≡ true) × (text.now ≡ bytes.now) × IsAscii bytes.now) }
{
    if !bytes.is_ascii() {
        return None;
    }
    match std::str::from_utf8(bytes) {
        Ok(text) => Some(text),
        Err(_) => None,
    }
}
