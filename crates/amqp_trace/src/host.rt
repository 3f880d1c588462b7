//! What runs a trace.

use std::fmt::{self, Display, Formatter};
use thiserror::Error;

/// What is shown: frames with what happened, or only what happened.
#[derive(Clone, Copy, Debug, PartialEq, Eq, Drop)]
pub enum View {
    Frames,
    Events,
}

impl Display for View {
    fn fmt<W: fmt::Write>(&self, f: &mut Formatter<W>) -> fmt::Result {
        f.write_str(match self {
            View::Frames => "trace",
            View::Events => "events",
        })
    }
}

/// Why nothing more is shown.
#[derive(Clone, Copy, Debug, PartialEq, Eq, Drop, Error)]
pub enum TraceFault {
    /// A line could not be written.
    #[error("Write")]
    Write,
    /// Memory was refused.
    #[error("NoMemory")]
    NoMemory,
}

/// What runs a trace: it has the clock, and hears of failures.
pub trait Host {
    /// Returns the milliseconds since some fixed moment.
    fn millis(&self) -> u64;

    /// Takes the news that nothing more is shown in this view, and why.
    fn lost(&self, view: View, fault: TraceFault);
}
