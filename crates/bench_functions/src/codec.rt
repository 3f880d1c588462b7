//! The codec: what is read and written of values and performatives.

mod body;
mod calls;

use crate::codec::body::spelling;
use crate::codec::calls::{read_often, write_often};
use crate::measure::{Failure, Measured, Mode};
pub use calls::Stopped;
use std::alloc::Global;
use std::rt::Clock;
use std::time::Instant;

/// The call that is timed.
#[derive(Clone, Copy)]
pub enum Call {
    Skip,
    Decode,
    ReadBody,
    WriteFrame,
}

/// The value that the call reads, or writes.
#[derive(Clone, Copy)]
pub enum Subject {
    Transfer,
    Flow,
    Attach,
    Disposition,
    /// A list of this many small values.
    List(u16),
    /// A map of this many distinct keys to null.
    Map(u16),
}

/// A call on a value, and how often it is timed if the command line doesn't say.
#[derive(Clone, Copy)]
pub struct Case {
    name: &'static str,
    call: Call,
    subject: Subject,
    rounds: u32,
}

impl Measured for Case {
    const GROUP: &'static str = "codec";

    fn name(&self) -> &'static str {
        self.name
    }

    fn about(&self) -> &'static str {
        match self.call {
            Call::Skip => "the length of a value is found, with no memory",
            Call::Decode => "a value is read, and dropped",
            Call::ReadBody => "the body of a frame is read as its performative",
            Call::WriteFrame => "the frame of a performative is written",
        }
    }

    /// It prints the bytes of the value, and those of all that was read or written.
    fn run(&self, rt: &(impl Print + Clock), alloc: Global, mode: Mode) -> Result<(), Failure> {
        let rounds = mode.rounds(self.rounds);
        let mut bytes = spelling(alloc, self.subject)?;
        let len = bytes.len();
        // A byte behind the value, to be changed in each round.
        bytes.push(0)?;
        let start = Instant::now(rt)?;
        let moved = match self.call {
            Call::WriteFrame => write_often(rounds, &bytes)?,
            call => read_often(alloc, call, rounds, &mut bytes)?,
        };
        let time = mode.time_of(rt, &start, u128::from(rounds))?;
        println!(rt; "rounds={rounds} bytes={len} moved={moved}{time}")?;
        Ok(())
    }
}

const fn timed(name: &'static str, call: Call, subject: Subject, rounds: u32) -> Case {
    Case {
        name,
        call,
        subject,
        rounds,
    }
}

/// Returns every case, in the order in which they are measured.
pub fn cases() -> [Case; 15] {
    [
        timed("skip-transfer", Call::Skip, Subject::Transfer, 1_000_000),
        timed("decode-transfer", Call::Decode, Subject::Transfer, 200_000),
        timed("skip-flow", Call::Skip, Subject::Flow, 1_000_000),
        timed("decode-flow", Call::Decode, Subject::Flow, 200_000),
        timed("skip-attach", Call::Skip, Subject::Attach, 1_000_000),
        timed("decode-attach", Call::Decode, Subject::Attach, 200_000),
        timed(
            "read-transfer",
            Call::ReadBody,
            Subject::Transfer,
            1_000_000,
        ),
        timed("read-flow", Call::ReadBody, Subject::Flow, 1_000_000),
        timed(
            "read-disposition",
            Call::ReadBody,
            Subject::Disposition,
            1_000_000,
        ),
        timed(
            "write-transfer",
            Call::WriteFrame,
            Subject::Transfer,
            1_000_000,
        ),
        timed("write-flow", Call::WriteFrame, Subject::Flow, 1_000_000),
        timed(
            "write-disposition",
            Call::WriteFrame,
            Subject::Disposition,
            1_000_000,
        ),
        timed("skip-list-10000", Call::Skip, Subject::List(10_000), 1_000),
        timed("skip-list-20000", Call::Skip, Subject::List(20_000), 1_000),
        timed("decode-map-32768", Call::Decode, Subject::Map(32_768), 10),
    ]
}
