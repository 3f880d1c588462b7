//! An endpoint: messages one after the other, from the bytes of a peer.

mod delivery;

use crate::endpoint::delivery::Run;
use crate::measure::{Failure, Measured, Mode};
use crate::stream::{Block, Shape};
pub use delivery::Stopped;
use std::alloc::Global;
use std::rt::Clock;
use std::time::Instant;

/// How the bytes come to the endpoint.
#[derive(Clone, Copy)]
pub enum By {
    /// Fed in pieces of this many.
    Pieces(u32),
    /// Read into its room, as many as it asks for.
    Fills,
}

/// Messages that come one after the other, are handed up and settled, and how many do if the command line doesn't
/// say.
#[derive(Clone, Copy)]
pub struct Case {
    name: &'static str,
    shape: Shape,
    by: By,
    /// The first deliveries, which stay open, handed up and not settled.
    open: u32,
    rounds: u32,
}

impl Measured for Case {
    const GROUP: &'static str = "endpoint";

    fn name(&self) -> &'static str {
        self.name
    }

    fn about(&self) -> &'static str {
        match (self.shape.sessions, self.shape.links, self.open) {
            (1, 1, 0) =>
                "messages of so many bytes, fed in pieces of 4096, of so many `by`, or by fills",
            (1, 1, _) => "messages of 100 bytes, while so many others are open",
            (1, _, _) => "messages of 100 bytes on so many links in turn",
            _ => "messages of 100 bytes on so many sessions in turn",
        }
    }

    /// It prints the messages that came, in blocks, and the bytes of one and of all. The time is that of a message.
    fn run(&self, rt: &(impl Print + Clock), alloc: Global, mode: Mode) -> Result<(), Failure> {
        let wanted = mode.rounds(self.rounds);
        let mut block = Block::new(alloc, self.shape)?;
        let mut run = Run::new(alloc, *self)?;
        self.run_over(rt, mode, wanted, &mut run, &mut block)
    }
}

impl Case {
    /// Runs it over this endpoint until this many messages came.
    // The body borrows what it uses: one that may drop it at each exit takes minutes to prove.
    fn run_over(
        &self,
        rt: &(impl Print + Clock),
        mode: Mode,
        wanted: u32,
        run: &mut Run,
        block: &mut Block,
    ) -> Result<(), Failure> {
        receive(run, block, self.by, self.open)?;
        let (before, moved) = (run.messages, run.moved);
        let start = Instant::now(rt)?;
        receive(run, block, self.by, wanted)?;
        let messages = run.messages.wrapping_sub(before);
        let time = mode.time_of(rt, &start, u128::from(messages))?;
        let moved = run.moved.wrapping_sub(moved);
        let message = self.shape.message;
        println!(rt; "messages={messages} bytes={message} moved={moved}{time}")?;
        Ok(())
    }
}

/// One link, and nothing else open.
const fn one_link(name: &'static str, message: u32, by: By, rounds: u32) -> Case {
    let shape = Shape {
        message,
        sessions: 1,
        links: 1,
    };
    Case {
        name,
        shape,
        by,
        open: 0,
        rounds,
    }
}

/// Returns the case with this many others open.
const fn open(case: Case, name: &'static str, open: u32) -> Case {
    Case { name, open, ..case }
}

/// Returns the case on this many links of this many sessions.
const fn on(case: Case, name: &'static str, sessions: u16, links: u16) -> Case {
    let shape = Shape {
        sessions,
        links,
        ..case.shape
    };
    Case {
        name,
        shape,
        ..case
    }
}

/// Returns every case, in the order in which they are measured.
pub fn cases() -> [Case; 19] {
    let short = By::Pieces(4096);
    let long = By::Pieces(65536);
    let small = one_link("100", 100, short, 1_000_000);
    [
        small,
        one_link("100-by-65536", 100, long, 1_000_000),
        one_link("100-by-fills", 100, By::Fills, 1_000_000),
        one_link("10000", 10_000, short, 200_000),
        one_link("10000-by-65536", 10_000, long, 200_000),
        one_link("10000-by-fills", 10_000, By::Fills, 200_000),
        one_link("1000000", 1_000_000, short, 2_000),
        one_link("1000000-by-65536", 1_000_000, long, 2_000),
        one_link("1000000-by-fills", 1_000_000, By::Fills, 2_000),
        open(small, "1-open", 1),
        open(small, "10-open", 10),
        open(small, "100-open", 100),
        open(small, "1000-open", 1_000),
        on(small, "8-links", 1, 8),
        on(small, "64-links", 1, 64),
        on(small, "128-links", 1, 128),
        on(small, "256-links", 1, 256),
        on(small, "8-sessions", 8, 1),
        on(small, "256-sessions", 256, 1),
    ]
}

/// Feeds blocks of messages until at least this many came.
fn receive(run: &mut Run, block: &mut Block, by: By, messages: u32) -> Result<(), Failure> {
    let first = run.messages;
    for _ in 0..messages {
        let came = run.messages.wrapping_sub(first);
        if came >= messages {
            break;
        }
        block.number(run.messages.wrapping_add(1 << 16));
        run.feed(&block.bytes, by)?;
    }
    Ok(())
}
