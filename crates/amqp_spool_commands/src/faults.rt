//! How a command on a spool ends that did not come to its end: its exit status, and its fault.

ghost use Rattle.std.specs.Prelude.{◌≡◌};
ghost use Rattle.amqp_spool_commands.specs.declared.faults.CommandFault.TheVariants.{NoMemory};

use std::alloc::AllocError;
use std::fmt::Display;
use std::process::ExitCode;
use thiserror::Error;

/// The exit status of a command that has found damage in a spool.
pub const DAMAGED: u8 = 3;

/// Why a command on a spool did not come to its end, if that is no fault of the spool.
#[derive(Clone, Copy, Debug, PartialEq, Eq, Error)]
pub enum CommandFault {
    #[error("NoMemory")]
    NoMemory,
    /// Standard output takes nothing.
    #[error("Write")]
    Write,
    /// The system does not report whether standard input is ready.
    #[error("Poll")]
    Poll,
}

impl From<AllocError> for CommandFault {
    ghost from_gives = { λ _ e. e ≡ NoMemory };

    fn from(_e: AllocError) -> CommandFault {
        CommandFault::NoMemory
    }
}

/// Tells a fault of the spool in a directory on standard error, and returns the exit status.
pub fn refused<R: Eprint>(rt: &R, dir: &str, fault: impl Display + Drop) -> ExitCode {
    let _ = eprintln!(rt; "fault: {dir}: {fault}");
    ExitCode::FAILURE
}
