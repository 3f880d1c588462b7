//! Why no more lists are made.

use std::alloc::{AllocError, AllocFailed};
use std::fmt::{self, Display, Formatter};
use std::io;

#[derive(Debug, Drop)]
pub enum Failure {
    /// The endpoint and the model differ, or a bound is passed, at a step of the list.
    Differs { step: usize, what: String },
    NoMemory,
    Io(io::Error),
    /// The words are no count and seed.
    Usage,
}

impl Failure {
    /// Returns this failure, at a step of the list.
    pub fn at(self, step: usize) -> Failure {
        match self {
            Failure::Differs { what, .. } => Failure::Differs { step, what },
            other => other,
        }
    }
}

impl Display for Failure {
    fn fmt<W: fmt::Write>(&self, f: &mut Formatter<W>) -> fmt::Result {
        match self {
            Failure::Differs { step, what } => write!(f, "step {step}: {what}"),
            Failure::NoMemory => f.write_str("no memory"),
            Failure::Io(_) => f.write_str("a device failed"),
            Failure::Usage => f.write_str("usage: test_endpoint_fuzz [COUNT SEED]"),
        }
    }
}

impl From<AllocError> for Failure {
    fn from(_error: AllocError) -> Failure {
        Failure::NoMemory
    }
}

impl<T: Drop> From<AllocFailed<T>> for Failure {
    fn from(_error: AllocFailed<T>) -> Failure {
        Failure::NoMemory
    }
}

impl From<io::Error> for Failure {
    fn from(error: io::Error) -> Failure {
        Failure::Io(error)
    }
}
