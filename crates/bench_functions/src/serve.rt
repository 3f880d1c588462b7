//! A server: messages one after the other on one connection, each recorded, settled and its place of credit given back.

mod connection;

use crate::measure::{Failure, Measured, Mode};
use crate::serve::connection::serve_all;
pub use connection::Stopped;
use std::alloc::Global;
use std::rt::Clock;
use std::time::Instant;

/// The bytes of a message.
const MESSAGE: u32 = 100;

/// A connection of one session, on whose links messages come in turn, and how many do if the command line doesn't
/// say.
#[derive(Clone, Copy)]
pub struct Case {
    name: &'static str,
    links: u16,
    /// The credit that each link is kept at.
    credit: u32,
    /// At how much credit, or less, it is topped up to that by steps; if none is said it is served at once, and
    /// kept there.
    mark: Option<u32>,
    rounds: u32,
}

impl Measured for Case {
    const GROUP: &'static str = "serve";

    fn name(&self) -> &'static str {
        self.name
    }

    fn about(&self) -> &'static str {
        match (self.credit, self.mark) {
            (_, Some(_)) =>
                "the same by steps, on one link that is topped up where its credit is at most so much",
            (CREDIT, None) =>
                "messages of 100 bytes on so many links in turn, recorded and settled",
            (_, None) => "the same on one link that is kept at so much credit",
        }
    }

    /// It prints the messages that came, in blocks, the bytes of one, and those of all answers and of all records. The time is
    /// that of a message.
    fn run(&self, rt: &(impl Print + Clock), alloc: Global, mode: Mode) -> Result<(), Failure> {
        let start = Instant::now(rt)?;
        let served = serve_all(alloc, *self, mode.rounds(self.rounds))?;
        let time = mode.time_of(rt, &start, u128::from(served.messages))?;
        let messages = served.messages;
        let (answered, recorded) = (served.answered, served.recorded);
        println!(rt;
            "messages={messages} bytes={MESSAGE} answered={answered} recorded={recorded}{time}"
        )?;
        Ok(())
    }
}

/// The credit of links if nothing else is said.
const CREDIT: u32 = 100;

const fn on(name: &'static str, links: u16, credit: u32) -> Case {
    Case {
        name,
        links,
        credit,
        mark: None,
        rounds: 1_000_000,
    }
}

const fn by_steps(name: &'static str, mark: u32) -> Case {
    Case {
        name,
        links: 1,
        credit: 16,
        mark: Some(mark),
        rounds: 1_000_000,
    }
}

/// Returns every case, in the order in which they are measured.
pub fn cases() -> [Case; 8] {
    [
        on("1-link", 1, CREDIT),
        on("8-links", 8, CREDIT),
        on("64-links", 64, CREDIT),
        on("256-links", 256, CREDIT),
        on("credit-1", 1, 1),
        on("credit-16", 1, 16),
        by_steps("mark-15-of-16", 15),
        by_steps("mark-8-of-16", 8),
    ]
}
