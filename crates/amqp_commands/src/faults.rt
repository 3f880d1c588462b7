//! How a command ends that did not come to its end: its exit status, and its fault.

ghost use Rattle.std.specs.Prelude.{◌≡◌};
ghost use Rattle.amqp_commands.specs.declared.faults.Fault.TheVariants.{NoMemory};

use amqp_dump::DumpFault;
use amqp_gateway::GatewayFault;
use amqp_records::{BlocksFault, RecordsFault};
use amqp_script::ScriptFault;
use amqp_send_file::FileFault;
use amqp_spool_commands::CommandFault;
use std::alloc::AllocError;
use thiserror::Error;

/// The exit status of a command line that asks for no command.
pub const USAGE: u8 = 2;

/// Why a command did not come to its end.
#[derive(Debug, Drop, Error)]
pub enum Fault {
    #[error("Open")]
    Open,
    #[error("NoMemory")]
    NoMemory,
    #[error(transparent)]
    Dump(DumpFault),
    /// There is no record of the number that was requested.
    #[error("Absent")]
    Absent,
    #[error(transparent)]
    Records(RecordsFault),
    #[error(transparent)]
    Blocks(BlocksFault),
    #[error(transparent)]
    Spool(CommandFault),
    #[error(transparent)]
    Gateway(GatewayFault),
    #[error(transparent)]
    Script(ScriptFault),
    #[error(transparent)]
    Send(FileFault),
}

impl From<AllocError> for Fault {
    ghost from_gives = { λ _ e. e ≡ NoMemory };

    fn from(_e: AllocError) -> Fault {
        Fault::NoMemory
    }
}
