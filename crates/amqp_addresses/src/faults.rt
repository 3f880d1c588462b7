//! Why a file of addresses is refused.
ghost use Rattle.std.specs.Prelude.{◌≡◌};

use std::alloc::{AllocError, AllocFailed};
use thiserror::Error;

/// What is wrong with a line.
#[derive(Clone, Copy, Debug, PartialEq, Eq, Drop, Error)]
pub enum LineFault {
    /// It has more than 4096 bytes.
    #[error("TooLong")]
    TooLong,
    /// It begins with a space.
    #[error("NoAddress")]
    NoAddress,
    /// What is behind its first space is no number from 1 to 4294967295 in decimal digits alone.
    #[error("BadCredit")]
    BadCredit,
    /// Its address has a control character.
    #[error("BadCharacter")]
    BadCharacter,
    /// Its address has a backslash without `x` and two hex digits behind it.
    #[error("BadEscape")]
    BadEscape,
    /// The bytes of its address are no text in UTF-8.
    #[error("NotText")]
    NotText,
    /// 1024 lines before it have an address.
    #[error("TooMany")]
    TooMany,
    /// A line before it says something of the same address, or of the same prefix.
    #[error("Twice")]
    Twice,
}

/// Why a file of addresses is refused.
#[derive(Clone, Copy, Debug, PartialEq, Eq, Drop, Error)]
pub enum AddressesFault {
    /// It has more than 1048576 bytes.
    #[error("TooLarge")]
    TooLarge,
    /// Memory was refused.
    #[error("NoMemory")]
    NoMemory,
    /// This is its first bad line, counted from 1 on, and what is wrong with it.
    #[error("line {0}: {1}")]
    Line(usize, LineFault),
}

impl From<AllocError> for AddressesFault {
    ghost use Rattle.amqp_addresses.specs.declared.faults.AddressesFault.TheVariants.{NoMemory};

    ghost from_gives = { λ _ e. e ≡ NoMemory };

    fn from(_e: AllocError) -> AddressesFault {
        AddressesFault::NoMemory
    }
}

/// Why a line can't be read.
#[derive(Clone, Copy, Debug, PartialEq, Eq, Drop)]
pub enum ReadFault {
    NoMemory,
    Bad(LineFault),
}

impl From<AllocError> for ReadFault {
    ghost use Rattle.amqp_addresses.specs.declared.faults.ReadFault.TheVariants.{NoMemory};

    ghost from_gives = { λ _ e. e ≡ NoMemory };

    fn from(_e: AllocError) -> ReadFault {
        ReadFault::NoMemory
    }
}

impl<T: Drop> From<AllocFailed<T>> for ReadFault {
    ghost use Rattle.amqp_addresses.specs.declared.faults.ReadFault.TheVariants.{NoMemory};

    ghost from_gives = { λ _ e. e ≡ NoMemory };

    fn from(_e: AllocFailed<T>) -> ReadFault {
        ReadFault::NoMemory
    }
}

impl From<LineFault> for ReadFault {
    ghost use Rattle.amqp_addresses.specs.declared.faults.ReadFault.TheVariants.{Bad};

    ghost from_gives = { λ fault e. e ≡ Bad fault };

    fn from(fault: LineFault) -> ReadFault {
        ReadFault::Bad(fault)
    }
}

impl ReadFault {
    ghost use Rattle.amqp_addresses.specs.Reads.{at_line};

    /// Returns this fault of the line with this number.
    pub fn at(self, line: usize) -> AddressesFault
        ensures { result ≡ at_line line self }
    {
        match self {
            ReadFault::NoMemory => AddressesFault::NoMemory,
            ReadFault::Bad(fault) => AddressesFault::Line(line, fault),
        }
    }
}
