//! What a line of a session says.

ghost use Rattle.std.specs.Prelude.{◌≡◌};
ghost use Rattle.session_text.specs.Session.{word_of, search_word_of};

use crate::body::BodyLine;
use crate::session::Kind;
use geo_layer::langs::Langs;
use geo_layer::layer::Layer;

/// What a line says.
#[derive(Drop)]
pub enum Item {
    /// Nothing: it is empty, of spaces, or a comment.
    Skipped,
    /// That the head begins.
    Title,
    /// The listed languages.
    Langs(Langs),
    /// The next layer.
    Layer(Layer),
    /// A line of the body.
    Body(BodyLine),
    /// That the round ends.
    Join,
    /// That the last round and the session end.
    End,
}

/// The first word of a line of the body.
#[derive(Clone, Copy, Debug, PartialEq, Eq)]
pub enum Word {
    /// `put`
    Put,
    /// `drop`
    Drop,
    /// `load`
    Load,
    /// `limit`
    Limit,
    /// `publish`
    Publish,
    /// `ask`
    Ask,
    /// `explain`
    Explain,
    /// `replay`
    Replay,
    /// `join`
    Join,
    /// `end`
    End,
}

/// The word of a line that tells of a search, where these bytes are one, and a session of this kind has such lines.
fn search_word_of(kind: Kind, word: &[u8]) -> Option<Word>
    ensures { result ≡ search_word_of kind word.now }
{
    match kind {
        Kind::Asks => None,
        Kind::Replays => {
            if word == b"explain".as_slice() {
                return Some(Word::Explain);
            }
            if word == b"replay".as_slice() {
                return Some(Word::Replay);
            }
            None
        }
    }
}

/// The word that these bytes are; None where no line of the body begins with them in a session of this kind.
pub fn word_of(kind: Kind, word: &[u8]) -> Option<Word>
    ensures { result ≡ word_of kind word.now }
{
    if word == b"put".as_slice() {
        Some(Word::Put)
    } else if word == b"drop".as_slice() {
        Some(Word::Drop)
    } else if word == b"load".as_slice() {
        Some(Word::Load)
    } else if word == b"limit".as_slice() {
        Some(Word::Limit)
    } else if word == b"publish".as_slice() {
        Some(Word::Publish)
    } else if word == b"ask".as_slice() {
        Some(Word::Ask)
    } else if word == b"join".as_slice() {
        Some(Word::Join)
    } else if word == b"end".as_slice() {
        Some(Word::End)
    } else {
        search_word_of(kind, word)
    }
}
