//! One session: deliveries one after the other.

mod delivery;

use crate::measure::{Failure, Measured, Mode, change};
use crate::session::delivery::{deliver, session_with};
pub use delivery::{Stopped, arrive, begin, send};
use std::alloc::Global;
use std::rt::Clock;
use std::time::Instant;

/// How many bytes a message has.
const PAYLOAD: u16 = 100;

/// A session on which one delivery after the other comes in one transfer, is handed up and settled, and how often
/// that is if the command line doesn't say.
#[derive(Clone, Copy)]
pub struct Case {
    name: &'static str,
    about: &'static str,
    /// Its links; the deliveries come on the last.
    links: u32,
    /// The deliveries on the first link that stay open, handed up and not settled.
    open: u32,
    rounds: u32,
}

impl Measured for Case {
    const GROUP: &'static str = "session";

    fn name(&self) -> &'static str {
        self.name
    }

    fn about(&self) -> &'static str {
        self.about
    }

    /// It prints the bytes of one message, and of all that were handed up. The time is that of a delivery.
    fn run(&self, rt: &(impl Print + Clock), alloc: Global, mode: Mode) -> Result<(), Failure> {
        let rounds = mode.rounds(self.rounds);
        let mut payload = Vec::from_elem(alloc, 0, usize::from(PAYLOAD))?;
        let start = Instant::now(rt)?;
        let moved = deliver_often(alloc, *self, rounds, &mut payload)?;
        let time = mode.time_of(rt, &start, u128::from(rounds))?;
        println!(rt; "rounds={rounds} bytes={PAYLOAD} moved={moved}{time}")?;
        Ok(())
    }
}

/// Returns every case, in the order in which they are measured.
pub fn cases() -> [Case; 3] {
    [
        Case {
            name: "one-link",
            about: "a message of 100 bytes is granted, received, handed up and settled",
            links: 1,
            open: 0,
            rounds: 5_000_000,
        },
        Case {
            name: "200-links",
            about: "the same on the last of 200 links",
            links: 200,
            open: 0,
            rounds: 500_000,
        },
        Case {
            name: "1000-open",
            about: "the same on the second of two links, with 1,000 others open on the first",
            links: 2,
            open: 1_000,
            rounds: 500_000,
        },
    ]
}

/// One delivery a round. Returns how many bytes were handed up.
fn deliver_often(
    alloc: Global,
    case: Case,
    rounds: u32,
    payload: &mut [u8],
) -> Result<u64, Failure> {
    let mut session = session_with(alloc, case, payload)?;
    let mut moved: u64 = 0;
    for round in 0..rounds {
        change(payload);
        moved = moved.wrapping_add(deliver(&mut session, case, round, payload)?);
    }
    Ok(moved)
}
