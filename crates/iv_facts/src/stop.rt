use iv_text::{Pos, Want};
use std::alloc::AllocError;

/// Why nothing was read.
#[derive(Clone, Copy, Debug, PartialEq, Eq)]
pub enum Stop {
    /// No form goes on with the tokens.
    Syntax,
    /// A part has more levels than it may have; where it begins.
    Deep(Pos),
    /// Memory, or room in a count of owners, ran out.
    Memory,
}

impl From<Want> for Stop {
    ghost use Rattle.std.specs.Prelude.{◌≡◌};
    ghost use Rattle.iv_facts.specs.declared.stop.Stop.TheVariants.{Memory};

    ghost from_gives = { λ _ e. e ≡ Memory };

    /// Reading makes no number, so memory is all that it may lack.
    fn from(_lack: Want) -> Stop {
        Stop::Memory
    }
}

impl From<AllocError> for Stop {
    ghost use Rattle.std.specs.Prelude.{◌≡◌};
    ghost use Rattle.iv_facts.specs.declared.stop.Stop.TheVariants.{Memory};

    ghost from_gives = { λ _ e. e ≡ Memory };

    fn from(_lack: AllocError) -> Stop {
        Stop::Memory
    }
}
