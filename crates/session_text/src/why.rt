//! Why a line of a session is refused.

ghost use Rattle.std.specs.Prelude.{◌≡◌, ◌↔◌, IsTrue};

use feature_reader::feature::FeatureFault;
use geo_layer::layer::LayerFault;

/// Why a line is refused, in the order in which the faults are tried.
#[derive(Clone, Copy, Debug, PartialEq, Eq)]
pub enum Why {
    /// With a carriage return at its end it has more than 1,048,576 bytes.
    Long,
    /// It isn't UTF-8.
    Utf8,
    /// It is the first line that isn't skipped, and not `carmen 1`.
    Head,
    /// No line with this word may stand here.
    Word,
    /// It hasn't the fields of its word, or a field that is a number isn't one.
    Form,
    /// It lists no languages: no code or more than 127, a word that is no code, or a code twice.
    Lang,
    /// Its JSON stands for no layer.
    Layer(LayerFault),
    /// The layer isn't one of the head, the lane is over 7, the id is 2^26 or more, or the limit isn't 1 to 8,388,608.
    Number,
    /// The feed isn't there, or a line before named it.
    Feed,
    /// Its JSON stands for no feature of the layer.
    Feature(FeatureFault),
    /// It is the 4,097th line of its round that asks.
    Asks,
}

impl Why {
    /// Whether the two are the same.
    pub fn is(&self, other: &Why) -> bool
        ensures { IsTrue result ↔ (self.now ≡ other.now) }
    {
        self == other
    }
}
