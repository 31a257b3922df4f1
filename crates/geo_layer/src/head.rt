//! The head of a session.

ghost use Rattle.std.specs.Prelude.{◌≡◌, IfOk};

use crate::langs::Langs;
use crate::layers::Layers;
use geo_base::refusal::Memory;

/// The listed languages and the layers of a session.
#[derive(Drop)]
pub struct Head {
    /// The listed languages.
    pub langs: Langs,
    /// The layers.
    pub layers: Layers,
}

impl Head {
    /// An equal head.
    pub fn copy(&self) -> Result<Head, Memory>
        ensures { IfOk result (λ head. head ≡ self.now) }
    {
        Ok(Head {
            langs: self.langs.copy()?,
            layers: self.layers.copy()?,
        })
    }
}
