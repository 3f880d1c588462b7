//! Calls, made often.

use crate::codec::Call;
use crate::measure::Failure;
use amqp_perform::{BodyFault, read_body, write_frame};
use amqp_types::{Limits, ReadFault, decode, skip};
use std::alloc::Global;

/// Limits that every value measured is within.
const LIMITS: Limits = Limits {
    depth: 32,
    nodes: 1_000_000,
};

/// Why a call did not come through.
#[derive(Debug, Drop)]
pub enum Stopped {
    /// A value was not read.
    Read(ReadFault),
    /// A body was not read.
    Body(BodyFault),
    /// A frame did not fit.
    Full,
}

impl From<ReadFault> for Stopped {
    fn from(fault: ReadFault) -> Stopped {
        Stopped::Read(fault)
    }
}

impl From<BodyFault> for Stopped {
    fn from(fault: BodyFault) -> Stopped {
        Stopped::Body(fault)
    }
}

impl From<Stopped> for Failure {
    fn from(stopped: Stopped) -> Failure {
        Failure::Codec(stopped)
    }
}

/// Reads the value this many times, and returns how many bytes were read together. The last byte changes in
/// each round, so that no answer can be kept for the next one.
pub fn read_often(
    alloc: Global,
    call: Call,
    rounds: u32,
    bytes: &mut [u8],
) -> Result<u64, Stopped> {
    let mut read: u64 = 0;
    for _ in 0..rounds {
        if let Some(last) = bytes.last_mut() {
            *last = last.wrapping_add(1);
        }
        read = read.wrapping_add(read_once(alloc, call, bytes)? as u64);
    }
    Ok(read)
}

fn read_once(alloc: Global, call: Call, bytes: &[u8]) -> Result<usize, Stopped> {
    match call {
        Call::Skip => Ok(skip(bytes, LIMITS.depth)?),
        Call::Decode => {
            let (_, len) = decode(alloc, bytes, LIMITS)?;
            Ok(len)
        }
        Call::ReadBody | Call::WriteFrame => {
            let (_, len) = read_body(bytes)?;
            Ok(len)
        }
    }
}

/// Writes the frame of the performative that the bytes spell this many times, each time on another channel,
/// and returns how many bytes were written together.
pub fn write_often(rounds: u32, bytes: &[u8]) -> Result<u64, Stopped> {
    let (performative, _) = read_body(bytes)?;
    let mut out = [0; 64];
    let mut written: u64 = 0;
    for round in 0..rounds {
        let channel = (round % 65536) as u16;
        let len = write_frame(channel, &performative, &[], &mut out).ok_or(Stopped::Full)?;
        written = written.wrapping_add(len as u64);
    }
    Ok(written)
}
