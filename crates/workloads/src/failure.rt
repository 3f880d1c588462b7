//! Why a job was not done.

use amqp_dump::DumpFault;
use amqp_endpoint::{CallFault, End};
use amqp_script::ScriptFault;
use amqp_serve::ServeFault;
use std::alloc::{AllocError, AllocFailed};
use std::io;

/// Why a job was not done.
#[derive(Debug, Drop)]
pub enum Failure {
    /// Printing failed, or memory was refused.
    Io(io::Error),
    /// The command line asks for what there is not.
    NoSuchJob,
    /// The settings of an endpoint were refused.
    Settings,
    /// A sender did not take a message.
    Sender,
    /// A connection was not closed by its peer.
    Ended(End),
    /// Not all that was sent is recorded.
    Lost,
    /// A capture has a fault.
    Fault,
    Serve(ServeFault),
    Dump(DumpFault),
    Script(ScriptFault),
    Call(CallFault),
}

impl From<io::Error> for Failure {
    fn from(error: io::Error) -> Failure {
        Failure::Io(error)
    }
}

impl From<AllocError> for Failure {
    fn from(error: AllocError) -> Failure {
        Failure::Io(error.into())
    }
}

impl<T: Drop> From<AllocFailed<T>> for Failure {
    fn from(error: AllocFailed<T>) -> Failure {
        Failure::Io(error.into())
    }
}

impl From<CallFault> for Failure {
    fn from(fault: CallFault) -> Failure {
        Failure::Call(fault)
    }
}
