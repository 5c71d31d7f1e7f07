ghost use Rattle.std.specs.Prelude.{◌≡◌};
ghost use Rattle.script.specs.declared.fault.Fault.TheVariants.{Memory};

use hex::FromHexError;
use std::alloc::{AllocError, AllocFailed};

// Why a line gets no answer of its own.
#[derive(Debug, Drop)]
pub enum Fault {
    // No known command, a wrong word, or a call that the types forbid: answered by `error`.
    Wrong,
    // No memory is left: the console ends.
    Memory,
}

impl From<AllocError> for Fault {
    ghost from_gives = { λ _ r. r ≡ Memory };

    fn from(_e: AllocError) -> Fault {
        Fault::Memory
    }
}

impl<T: Drop> From<AllocFailed<T>> for Fault {
    ghost from_gives = { λ _ r. r ≡ Memory };

    fn from(_e: AllocFailed<T>) -> Fault {
        Fault::Memory
    }
}

impl From<FromHexError> for Fault {
    ghost use Rattle.script.specs.Bytes.{fault_of};

    ghost from_gives = { λ e r. r ≡ fault_of e };

    fn from(e: FromHexError) -> Fault {
        match e {
            FromHexError::OutOfMemory => Fault::Memory,
            _ => Fault::Wrong,
        }
    }
}
