ghost use Rattle.std.specs.Prelude.{◌≡◌};

use std::alloc::{AllocError, AllocFailed};

/// What a call may lack: memory, or room for a number that it makes.
#[derive(Clone, Copy, Debug, PartialEq, Eq)]
pub enum Want {
    /// Memory, or room in a count of owners.
    Memory,
    /// A number of 4,294,967,295 or more was to be made.
    Number,
}

/// A result that fails only by a [`Want`].
pub type Mem<T> = Result<T, Want>;

impl From<AllocError> for Want {
    ghost use Rattle.std.specs.Prelude.{◌≡◌};
    ghost use Rattle.iv_text.specs.declared.want.Want.TheVariants.{Memory};

    ghost from_gives = { λ _ w. w ≡ Memory };

    fn from(_e: AllocError) -> Want {
        Want::Memory
    }
}

impl<T: Drop> From<AllocFailed<T>> for Want {
    ghost use Rattle.std.specs.Prelude.{◌≡◌};
    ghost use Rattle.iv_text.specs.declared.want.Want.TheVariants.{Memory};

    ghost from_gives = { λ _ w. w ≡ Memory };

    fn from(_e: AllocFailed<T>) -> Want {
        Want::Memory
    }
}
