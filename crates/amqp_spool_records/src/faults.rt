//! Why a spool was not read to its end.

ghost use Rattle.std.specs.Prelude.{◌≡◌, ◌≢◌};
ghost use Rattle.std.specs.IoError.{error_kind};
ghost use Rattle.amqp_spool_records.specs.declared.faults.SpoolFault.TheVariants.{NoMemory};

use amqp_spool::{FileName, Refusal};
use std::alloc::AllocError;
use std::io::{self, ErrorKind};
use thiserror::Error;

/// Why a spool was not read to its end. What is damaged is no such fault.
#[derive(Debug, Drop, Error)]
pub enum SpoolFault {
    /// The system has refused to read a file, or the directory, which is named `.`.
    #[error("{0}")]
    Refused(Refusal),
    /// The directory has no segments. One that a gateway has begun has at least one.
    #[error("NoSegments")]
    NoSegments,
    /// The directory has more segments than a gateway makes.
    #[error("TooManySegments")]
    TooManySegments,
    /// The directory has another spool than the one that is followed: its numbers stand for other records.
    #[error("OtherSpool")]
    OtherSpool,
    /// What was printed could not be written.
    #[error("Write")]
    Write,
    /// Memory was refused.
    #[error("NoMemory")]
    NoMemory,
}

impl SpoolFault {
    /// Returns the fault of a call on a file.
    pub(crate) fn of(name: FileName, reason: io::Error) -> SpoolFault
        ensures memory { error_kind reason ≡ ErrorKind.OutOfMemory → result ≡ NoMemory }
    {
        if reason.kind() == ErrorKind::OutOfMemory {
            SpoolFault::NoMemory
        } else {
            SpoolFault::Refused(Refusal(name, reason))
        }
    }
}

impl From<AllocError> for SpoolFault {
    ghost from_gives = { λ _ e. e ≡ NoMemory };

    fn from(_: AllocError) -> SpoolFault {
        SpoolFault::NoMemory
    }
}
