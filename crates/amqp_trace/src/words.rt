//! What happened, in words for people.

use amqp_endpoint::End;
use amqp_perform::{Condition, Outcome};
use amqp_serve::ServeFault;
use std::fmt::{self, Display, Formatter};

/// Returns what a condition says, in the words of the standard. [2.8.15 to 2.8.18]
pub fn meaning(condition: Condition) -> &'static str {
    match condition {
        Condition::FramingError => {
            "a valid frame cannot be formed from the incoming bytes, or its channel or handle is above the highest that was agreed"
        }
        Condition::DecodeError => "data could not be decoded",
        Condition::InvalidField => "an invalid field was passed in a frame body",
        Condition::IllegalState =>
            "the peer sent a frame that is not permitted in the current state",
        Condition::NotImplemented => {
            "the peer tried to use functionality that is not implemented here"
        }
        Condition::ResourceLimitExceeded => {
            "the name, or the source and target, of a link are longer than this side takes"
        }
        Condition::FrameSizeTooSmall => "the answer is larger than the peer's largest frame",
        Condition::WindowViolation => "the peer violated the incoming window of the session",
        Condition::HandleInUse => {
            "an attach came with a handle that is already in use for an attached link"
        }
        Condition::UnattachedHandle => {
            "a frame other than attach came with a handle that is not in use for an attached link"
        }
        Condition::TransferLimitExceeded => {
            "the peer sent more message transfers than its credit on the link allows"
        }
        Condition::MessageSizeExceeded => {
            "the peer sent a larger message than is supported on the link"
        }
        Condition::Other => "no condition of the standard",
    }
}

/// Returns why the first eight bytes of a peer are refused. [2.2, 5.2.1, 5.3.1]
pub fn refusal(header: &[u8]) -> &'static str {
    match *header {
        [b'A', b'M', b'Q', b'P', 3, ..] => "the peer begins with SASL, which is not spoken here",
        [b'A', b'M', b'Q', b'P', 2, ..] | [0x16, 3, ..] => {
            "the peer begins with TLS, which is not spoken here"
        }
        [b'A', b'M', b'Q', b'P', ..] => "the peer begins with another protocol or version of AMQP",
        _ => "the peer does not begin with a header of AMQP",
    }
}

/// Returns the name of an outcome. [3.4.2 to 3.4.5]
pub fn fate(outcome: Outcome) -> &'static str {
    match outcome {
        Outcome::Accepted => "accepted",
        Outcome::Rejected => "rejected",
        Outcome::Released => "released",
        Outcome::Modified { .. } => "modified",
    }
}

/// How a connection was served, in the words of `recv`.
#[derive(Clone, Copy, Drop)]
pub struct Ending(pub Result<End, ServeFault>);

impl Display for Ending {
    fn fmt<W: fmt::Write>(&self, f: &mut Formatter<W>) -> fmt::Result {
        match self.0 {
            Ok(end) => write!(f, "end {end}"),
            Err(ServeFault::Read) => f.write_str("end Read"),
            Err(ServeFault::Write) => f.write_str("end Write"),
            Err(ServeFault::Sink) => f.write_str("end Sink"),
            Err(ServeFault::NoMemory) => f.write_str("end NoMemory"),
        }
    }
}

/// How a connection was served, as a sentence.
#[derive(Clone, Copy, Drop)]
pub struct HowItEnded(pub Result<End, ServeFault>);

impl Display for HowItEnded {
    fn fmt<W: fmt::Write>(&self, f: &mut Formatter<W>) -> fmt::Result {
        f.write_str(match self.0 {
            Ok(End::Closed) => "the connection was closed by the peer",
            Ok(End::Failed) => "the connection was ended by this side",
            Ok(End::Between) => "the peer left without a close, between two frames",
            Ok(End::Inside(count)) => {
                return write!(
                    f,
                    "the peer left without a close, {count} bytes into a frame"
                );
            }
            Err(ServeFault::Read) => "the connection could not be accepted, or not be read",
            Err(ServeFault::Write) => "the connection could not be written to",
            Err(ServeFault::Sink) => "a record could not be written",
            Err(ServeFault::NoMemory) => "memory was refused",
        })
    }
}

/// Why a host ended a connection before its peer did.
#[derive(Clone, Copy, Debug, PartialEq, Eq, Drop)]
pub enum Cause {
    /// The peer said nothing for too long.
    Idle,
    /// The peer's socket took nothing for too long.
    Deaf,
    /// The peer took none of its answers for too long.
    Slow,
    /// The host stopped.
    Stopped,
}

impl Cause {
    /// Returns the cause as a sentence.
    pub fn sentence(self) -> &'static str {
        match self {
            Cause::Idle => "the peer said nothing for too long",
            Cause::Deaf => "the peer took nothing for too long",
            Cause::Slow => "the peer took none of its answers for too long",
            Cause::Stopped => "this side stopped",
        }
    }
}

impl Display for Cause {
    fn fmt<W: fmt::Write>(&self, f: &mut Formatter<W>) -> fmt::Result {
        f.write_str(match self {
            Cause::Idle | Cause::Deaf => "end Idle",
            Cause::Slow => "end Slow",
            Cause::Stopped => "end Stopped",
        })
    }
}
