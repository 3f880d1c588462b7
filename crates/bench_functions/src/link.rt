//! One link: deliveries one after the other, beside a plain copy of the same bytes.

mod delivery;

use crate::link::delivery::{copied, deliver, link_awaiting, link_with, settle_and_deliver};
use crate::measure::{Failure, Measured, Mode, change};
pub use delivery::Stopped;
use std::alloc::Global;
use std::rt::Clock;
use std::time::Instant;

/// The deliveries that stay open on the link while others come and go, 1,000 of them or none.
#[derive(Clone, Copy)]
pub enum Open {
    /// No other.
    No,
    /// They are whole, and were not handed up: the first of them is handed up for each that comes.
    Ready,
    /// They were handed up, and are not settled.
    Taken,
}

/// What is done with the frames of a message.
#[derive(Clone, Copy)]
pub enum Way {
    /// A link is granted credit, takes the frames and hands the message up, which its sender has settled.
    Link(Open),
    /// The receiver settles one of this many deliveries that were handed up, in the middle of them, and the
    /// message that then comes is handed up in its place, not settled.
    Settle(u32),
    /// The payloads are copied into a new vector.
    Copy,
}

/// A message of this many frames with this many bytes each, and how often it comes if the command line doesn't
/// say.
#[derive(Clone, Copy)]
pub struct Case {
    pub name: &'static str,
    pub way: Way,
    pub frames: u32,
    pub payload: u16,
    pub rounds: u32,
}

impl Measured for Case {
    const GROUP: &'static str = "link";

    fn name(&self) -> &'static str {
        self.name
    }

    fn about(&self) -> &'static str {
        match self.way {
            Way::Link(Open::No) => "a message is granted, received and handed up",
            Way::Link(Open::Ready) => "the same, with 1,000 others that are ready",
            Way::Link(Open::Taken) => "the same, with 1,000 others that were handed up",
            Way::Settle(_) =>
                "one in the middle of so many that were handed up is settled, and another comes",
            Way::Copy => "a plain copy of the same bytes into a new vector",
        }
    }

    /// It prints the frames and the bytes of one message, and the bytes of all that were handed up. The time is that of
    /// a frame.
    fn run(&self, rt: &(impl Print + Clock), alloc: Global, mode: Mode) -> Result<(), Failure> {
        let rounds = mode.rounds(self.rounds);
        let mut payload = Vec::from_elem(alloc, 0, usize::from(self.payload))?;
        let start = Instant::now(rt)?;
        let moved = match self.way {
            Way::Link(open) => deliver_often(alloc, open, self.frames, rounds, &mut payload)?,
            Way::Settle(open) => settle_often(alloc, open, rounds, &mut payload)?,
            Way::Copy => copy_often(alloc, self.frames, rounds, &mut payload)?,
        };
        let frames = u128::from(rounds) * u128::from(self.frames);
        let time = mode.time_of(rt, &start, frames)?;
        let bytes = u64::from(self.frames) * u64::from(self.payload);
        let frames = self.frames;
        println!(rt; "rounds={rounds} frames={frames} bytes={bytes} moved={moved}{time}")?;
        Ok(())
    }
}

/// Returns a message of one frame with 100 bytes.
const fn small(name: &'static str, way: Way) -> Case {
    Case {
        name,
        way,
        frames: 1,
        payload: 100,
        rounds: 10_000_000,
    }
}

/// Returns a message of 1,000,000 bytes in frames of 4,000.
const fn large(name: &'static str, way: Way) -> Case {
    Case {
        name,
        way,
        frames: 250,
        payload: 4_000,
        rounds: 10_000,
    }
}

/// Returns every case, in the order in which they are measured.
pub fn cases() -> [Case; 8] {
    [
        small("small", Way::Link(Open::No)),
        small("small-1000-ready", Way::Link(Open::Ready)),
        small("small-1000-taken", Way::Link(Open::Taken)),
        small("settle-1", Way::Settle(1)),
        small("settle-1000", Way::Settle(1000)),
        large("large", Way::Link(Open::No)),
        small("copy-small", Way::Copy),
        large("copy-large", Way::Copy),
    ]
}

/// One delivery a round on one link. Returns how many bytes were handed up.
fn deliver_often(
    alloc: Global,
    open: Open,
    frames: u32,
    rounds: u32,
    payload: &mut [u8],
) -> Result<u64, Failure> {
    let mut link = link_with(alloc, open, payload)?;
    let mut moved: u64 = 0;
    for round in 0..rounds {
        change(payload);
        moved = moved.wrapping_add(deliver(&mut link, round, frames, payload)?);
    }
    Ok(moved)
}

/// One delivery settled and one more handed up a round, on one link. Returns how many bytes were handed up.
fn settle_often(alloc: Global, open: u32, rounds: u32, payload: &mut [u8]) -> Result<u64, Failure> {
    let mut link = link_awaiting(alloc, open, payload)?;
    let mut moved: u64 = 0;
    for round in 0..rounds {
        change(payload);
        moved = moved.wrapping_add(settle_and_deliver(&mut link, open, round, payload)?);
    }
    Ok(moved)
}

/// One copy a round. Returns how many bytes were copied.
fn copy_often(alloc: Global, frames: u32, rounds: u32, payload: &mut [u8]) -> Result<u64, Failure> {
    let mut moved: u64 = 0;
    for _ in 0..rounds {
        change(payload);
        moved = moved.wrapping_add(copied(alloc, frames, payload)?);
    }
    Ok(moved)
}
