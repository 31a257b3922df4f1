//! Why a reading stopped.

use geo_base::refusal::Memory;
use json::Invalid;

/// The text is no JSON, or memory was refused.
#[derive(Clone, Copy, Debug, Drop)]
pub(crate) enum Stop {
    /// The text is no JSON, or nests too deep.
    Invalid,
    /// Room was asked for and refused; nothing is said of the text.
    Memory,
}

impl From<Invalid> for Stop {
    ghost use Rattle.feature_json.specs.declared.stop.Stop.TheVariants.{Invalid};
    ghost use Rattle.std.specs.Prelude.{◌≡◌};

    ghost from_gives = { λ _ e. e ≡ Invalid };

    fn from(_: Invalid) -> Stop {
        Stop::Invalid
    }
}

impl From<Memory> for Stop {
    ghost use Rattle.feature_json.specs.declared.stop.Stop.TheVariants.{Memory};
    ghost use Rattle.std.specs.Prelude.{◌≡◌};

    ghost from_gives = { λ _ e. e ≡ Memory };

    fn from(_: Memory) -> Stop {
        Stop::Memory
    }
}
