//! Dispositions over the open deliveries of a session: those of the sender, and the receiver's own settlement of a range.

use crate::measure::{Failure, Measured, Mode};
use crate::session::{Stopped, arrive, begin, send};
use amqp_perform::{Disposition, Outcome, Role};
use amqp_session::{Report, Session};
use std::alloc::Global;
use std::rt::Clock;
use std::time::Instant;

/// How many deliveries are open.
const OPEN: u32 = 1_000;

/// How many bytes each has.
const PAYLOAD: usize = 100;

/// What the disposition of a round meets.
#[derive(Clone, Copy)]
enum Meets {
    /// Deliveries that came in this round and were handed up, which it closes.
    HandedUp,
    /// Deliveries that came in this round and were handed up, which the receiver settles itself.
    SettledHere,
    /// Deliveries that are ready, which it settled in the first round.
    Settled,
    /// None, among as many ids as it can name, while others are open.
    Nothing,
}

/// A disposition a round, and how often that is if the command line doesn't say.
#[derive(Clone, Copy)]
pub struct Case {
    name: &'static str,
    about: &'static str,
    meets: Meets,
    rounds: u32,
}

impl Measured for Case {
    const GROUP: &'static str = "disposition";

    fn name(&self) -> &'static str {
        self.name
    }

    fn about(&self) -> &'static str {
        self.about
    }

    /// It prints how many deliveries are open, and how many were settled. The time is that of a round.
    fn run(&self, rt: &(impl Print + Clock), alloc: Global, mode: Mode) -> Result<(), Failure> {
        let rounds = mode.rounds(self.rounds);
        let payload = Vec::from_elem(alloc, 0x78, PAYLOAD)?;
        let start = Instant::now(rt)?;
        let settled = dispose_often(alloc, self.meets, rounds, &payload)?;
        let time = mode.time_of(rt, &start, u128::from(rounds))?;
        println!(rt; "rounds={rounds} open={OPEN} settled={settled}{time}")?;
        Ok(())
    }
}

/// Returns every case, in the order in which they are measured.
pub fn cases() -> [Case; 4] {
    [
        Case {
            name: "1000-at-once",
            about: "1,000 messages of 100 bytes are granted, received and handed up, and their sender settles them at once",
            meets: Meets::HandedUp,
            rounds: 5_000,
        },
        Case {
            name: "1000-here",
            about: "the same, but the receiver settles them, by one range",
            meets: Meets::SettledHere,
            rounds: 5_000,
        },
        Case {
            name: "1000-again",
            about: "the sender settles 1,000 ready ones, which it settled before",
            meets: Meets::Settled,
            rounds: 5_000,
        },
        Case {
            name: "none",
            about: "it settles 2^31 ids of which none is open, while 1,000 others are",
            meets: Meets::Nothing,
            rounds: 5_000_000,
        },
    ]
}

/// One disposition a round. Returns how many deliveries they settled.
fn dispose_often(alloc: Global, meets: Meets, rounds: u32, payload: &[u8]) -> Result<u64, Stopped> {
    let mut session = begin(alloc, 1)?;
    let mut settled: u64 = 0;
    let mut first = come(&mut session, meets, 0, payload)?;
    for _ in 0..rounds {
        settled = settled.saturating_add(u64::from(dispose(&mut session, meets, first)));
        if let Meets::HandedUp | Meets::SettledHere = meets {
            first = come(&mut session, meets, first.wrapping_add(OPEN), payload)?;
        }
    }
    Ok(settled)
}

/// Lets the deliveries of a round come. Returns the first id.
fn come(session: &mut Session, meets: Meets, first: u32, payload: &[u8]) -> Result<u32, Stopped> {
    for index in 0..OPEN {
        let id = first.wrapping_add(index);
        match meets {
            Meets::Settled => send(session, 0, id, payload)?,
            _ => {
                arrive(session, 0, id, payload)?;
            }
        }
    }
    Ok(first)
}

/// Makes the disposition of a round. Returns how many deliveries it settled.
fn dispose(session: &mut Session, meets: Meets, first: u32) -> u32 {
    let (first, count) = match meets {
        Meets::Nothing => (first.wrapping_add(OPEN), 1 << 31),
        _ => (first, OPEN),
    };
    let last = first.wrapping_add(count - 1);
    if let Meets::SettledHere = meets {
        return match session.settle_range(first, last, Outcome::Accepted) {
            Ok((_, count)) => count,
            Err(_) => 0,
        };
    }
    let disposition = Disposition {
        role: Role::Sender,
        first,
        last: Some(last),
        settled: true,
        state: &[],
        batchable: &[],
    };
    match session.disposition(&disposition) {
        Report::Settled { count } => count,
        _ => 0,
    }
}
