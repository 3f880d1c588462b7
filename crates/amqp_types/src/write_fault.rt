//! Why a value is not written.

ghost use Rattle.std.specs.Prelude.{◌≡◌};
ghost use Rattle.amqp_types.specs.declared.write_fault.WriteFault.TheVariants.{NoMemory};

use std::alloc::{AllocError, AllocFailed};

/// Why a value has no canonical spelling, or that memory was refused.
#[derive(Clone, Copy, Debug, PartialEq, Eq)]
pub enum WriteFault {
    /// A size or a count would be above 2^32 - 1.
    TooLong,
    /// An array holds an item that is not of its kind.
    WrongElement,
    /// A map holds two equal keys.
    DuplicateKey,
    /// Memory for the spelling, or for finding equal keys, was refused.
    NoMemory,
}

impl From<AllocError> for WriteFault {
    ghost from_gives = { λ _ e. e ≡ NoMemory };

    fn from(_e: AllocError) -> WriteFault {
        WriteFault::NoMemory
    }
}

impl<T: Drop> From<AllocFailed<T>> for WriteFault {
    ghost from_gives = { λ _ e. e ≡ NoMemory };

    fn from(_e: AllocFailed<T>) -> WriteFault {
        WriteFault::NoMemory
    }
}
