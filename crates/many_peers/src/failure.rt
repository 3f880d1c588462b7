//! Why it was not done.

use amqp_hub::HubFault;
use std::alloc::{AllocError, AllocFailed};
use std::io;

/// Why it was not done.
#[derive(Debug, Drop)]
pub enum Failure {
    /// Printing failed, or memory was refused.
    Io(io::Error),
    /// The command line is not `SEED TURNS`.
    Words,
    /// The settings of the endpoints were refused.
    Settings,
    /// A frame is longer than the room for one.
    Frame,
    Hub(HubFault),
}

impl From<io::Error> for Failure {
    fn from(error: io::Error) -> Failure {
        Failure::Io(error)
    }
}

impl From<AllocError> for Failure {
    fn from(error: AllocError) -> Failure {
        Failure::Io(error.into())
    }
}

impl<T: Drop> From<AllocFailed<T>> for Failure {
    fn from(error: AllocFailed<T>) -> Failure {
        Failure::Io(error.into())
    }
}

impl From<HubFault> for Failure {
    fn from(fault: HubFault) -> Failure {
        Failure::Hub(fault)
    }
}
