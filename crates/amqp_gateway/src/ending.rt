//! How a connection ended.

ghost use Rattle.std.specs.Prelude.{◌≡◌, ◌<◌};
ghost use Rattle.amqp_gateway.specs.Counts.{place_of};
ghost use Rattle.amqp_gateway.specs.Gateways.{ending_of};

use amqp_endpoint::End;
use std::fmt::{self, Display, Formatter};

/// How a connection ended.
#[derive(Clone, Copy, Debug, PartialEq, Eq)]
pub enum Ending {
    /// The peer closed it.
    Closed,
    /// This side ended it with an error, or refused its header.
    Failed,
    /// The input ended between two frames.
    Between,
    /// The input ended inside a frame.
    Inside,
    /// It could not be read.
    Read,
    /// It could not be written to.
    Write,
    /// A record could not be written.
    Sink,
    /// Memory was refused.
    NoMemory,
    /// The peer said nothing for too long.
    Idle,
    /// The peer took none of its answers for too long.
    Slow,
    /// The gateway stopped.
    Stopped,
    /// The system does not report when its socket is ready.
    Poll,
}

impl Ending {
    /// All of them, in the order of [`Ending::place`].
    pub const ALL: [Ending; 12] = [
        Ending::Closed,
        Ending::Failed,
        Ending::Between,
        Ending::Inside,
        Ending::Read,
        Ending::Write,
        Ending::Sink,
        Ending::NoMemory,
        Ending::Idle,
        Ending::Slow,
        Ending::Stopped,
        Ending::Poll,
    ];

    /// Returns how a connection ended whose endpoint stood so at the end of its input.
    pub fn of(end: End) -> Ending
        ensures { result ≡ ending_of end }
    {
        match end {
            End::Closed => Ending::Closed,
            End::Failed => Ending::Failed,
            End::Between => Ending::Between,
            End::Inside(_) => Ending::Inside,
        }
    }

    /// Returns its place in [`Ending::ALL`].
    pub fn place(self) -> usize
        ensures place { result ≡ place_of self }
        ensures within { result < 12 }
    {
        match self {
            Ending::Closed => 0,
            Ending::Failed => 1,
            Ending::Between => 2,
            Ending::Inside => 3,
            Ending::Read => 4,
            Ending::Write => 5,
            Ending::Sink => 6,
            Ending::NoMemory => 7,
            Ending::Idle => 8,
            Ending::Slow => 9,
            Ending::Stopped => 10,
            Ending::Poll => 11,
        }
    }
}

impl Display for Ending {
    fn fmt<W: fmt::Write>(&self, f: &mut Formatter<W>) -> fmt::Result {
        f.write_str(match self {
            Ending::Closed => "Closed",
            Ending::Failed => "Failed",
            Ending::Between => "Between",
            Ending::Inside => "Inside",
            Ending::Read => "Read",
            Ending::Write => "Write",
            Ending::Sink => "Sink",
            Ending::NoMemory => "NoMemory",
            Ending::Idle => "Idle",
            Ending::Slow => "Slow",
            Ending::Stopped => "Stopped",
            Ending::Poll => "Poll",
        })
    }
}
