//! How a run ends.

ghost use Rattle.std.specs.Prelude.{◌≡◌};
ghost use Rattle.lzk_cmd_files.specs.declared.ending.Halt.TheVariants.{Memory};

use std::alloc::{AllocError, AllocFailed};

/// The status of a run, and all that it prints.
#[derive(Drop)]
pub struct Ending {
    pub status: u8,
    pub text: String,
}

/// Why a walk over the files goes no further: there is no memory, or the run ends here.
#[derive(Drop)]
pub enum Halt {
    Memory,
    End(Ending),
}

impl From<AllocError> for Halt {
    ghost from_gives = { λ _ e. e ≡ Memory };

    fn from(_: AllocError) -> Halt {
        Halt::Memory
    }
}

impl<T: Drop> From<AllocFailed<T>> for Halt {
    ghost from_gives = { λ _ e. e ≡ Memory };

    fn from(_: AllocFailed<T>) -> Halt {
        Halt::Memory
    }
}
