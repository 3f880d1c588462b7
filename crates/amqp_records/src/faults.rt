//! Why a file of records was not printed to its end.

ghost use Rattle.std.specs.Prelude.{◌≡◌};
ghost use Rattle.amqp_records.specs.declared.faults.RecordsFault.TheVariants.{NoMemory};

use std::alloc::AllocError;
use thiserror::Error;

/// Why a file of records was not printed to its end. A place is where the record begins, in bytes from the start
/// of the file.
#[derive(Debug, Drop, Error)]
pub enum RecordsFault {
    /// The input could not be read.
    #[error("Read")]
    Read,
    /// What was printed could not be written.
    #[error("Write")]
    Write,
    /// The input ends inside the record at this place.
    #[error("{0} Cut")]
    Cut(u64),
    /// The message of the record at this place is longer than is allowed.
    #[error("{0} TooLong")]
    TooLong(u64),
    /// The input has 2^64 bytes or more.
    #[error("Endless")]
    Endless,
    /// Memory was refused.
    #[error("NoMemory")]
    NoMemory,
}

impl From<AllocError> for RecordsFault {
    ghost from_gives = { λ _ e. e ≡ NoMemory };

    fn from(_e: AllocError) -> RecordsFault {
        RecordsFault::NoMemory
    }
}

/// Why a file of blocks was not read to its end. A place is in bytes from the start of the file.
#[derive(Debug, Drop, Error)]
pub enum BlocksFault {
    /// The input could not be read.
    #[error("Read")]
    Read,
    /// What was printed could not be written.
    #[error("Write")]
    Write,
    /// The bytes at this place are no block, nor the beginning of one.
    #[error("{0} Block")]
    Block(u64),
    /// The input ends inside the block at this place.
    #[error("{0} Cut")]
    Cut(u64),
    /// The input has 2^64 bytes or more.
    #[error("Endless")]
    Endless,
    /// Memory was refused.
    #[error("NoMemory")]
    NoMemory,
}

impl From<AllocError> for BlocksFault {
    ghost use Rattle.amqp_records.specs.declared.faults.BlocksFault.TheVariants as blocks;

    ghost from_gives = { λ _ e. e ≡ blocks.NoMemory };

    fn from(_e: AllocError) -> BlocksFault {
        BlocksFault::NoMemory
    }
}
