//! What measuring takes, whatever is measured.

use crate::{codec, endpoint, link, serve, session};
use std::alloc::{AllocError, AllocFailed, Global};
use std::fmt::{self, Display, Formatter};
use std::io;
use std::rt::Clock;
use std::time::Instant;

/// Why nothing more was measured.
#[derive(Debug, Drop)]
pub enum Failure {
    /// Printing or the clock failed, or memory was refused.
    Io(io::Error),
    /// The command line asks for what there is not.
    NoSuchCase,
    Codec(codec::Stopped),
    Link(link::Stopped),
    Session(session::Stopped),
    Endpoint(endpoint::Stopped),
    Serve(serve::Stopped),
}

impl From<io::Error> for Failure {
    fn from(error: io::Error) -> Failure {
        Failure::Io(error)
    }
}

impl From<AllocError> for Failure {
    fn from(error: AllocError) -> Failure {
        Failure::Io(error.into())
    }
}

impl<T: Drop> From<AllocFailed<T>> for Failure {
    fn from(error: AllocFailed<T>) -> Failure {
        Failure::Io(error.into())
    }
}

/// How a case is run.
#[derive(Clone, Copy)]
pub enum Mode {
    /// In one round, not timed.
    Once,
    /// In this many rounds, or in as many as it has by itself.
    Timed(Option<u32>),
}

impl Mode {
    /// Returns the rounds of a case that has this many by itself.
    pub fn rounds(self, own: u32) -> u32 {
        match self {
            Mode::Once => 1,
            Mode::Timed(rounds) => rounds.unwrap_or(own),
        }
    }

    /// Returns the time since the start for each of this many, if it is requested.
    pub fn time_of(self, rt: &impl Clock, start: &Instant, count: u128) -> io::Result<Time> {
        match self {
            Mode::Once => Ok(Time(None)),
            Mode::Timed(_) => {
                let nanoseconds = start.elapsed(rt)?.as_nanos();
                Ok(Time(Some(nanoseconds.checked_div(count).unwrap_or(0))))
            }
        }
    }
}

/// The end of a line: the nanoseconds of one round or of one message, if they were measured.
#[derive(Clone, Copy)]
pub struct Time(Option<u128>);

impl Display for Time {
    fn fmt<W: fmt::Write>(&self, f: &mut Formatter<W>) -> fmt::Result {
        match self.0 {
            None => Ok(()),
            Some(each) => write!(f, " ns={each}"),
        }
    }
}

/// Something that is measured.
pub trait Measured: Copy {
    /// The group that it is of.
    const GROUP: &'static str;

    /// The name that the command line calls it by.
    fn name(&self) -> &'static str;

    /// Returns what it is, in a sentence.
    fn about(&self) -> &'static str;

    /// Runs it, and prints its rounds, its bytes and its time.
    fn run(&self, rt: &(impl Print + Clock), alloc: Global, mode: Mode) -> Result<(), Failure>;
}

/// Prints the name of each case, and what it is.
pub fn list<C: Measured>(rt: &impl Print, cases: &[C]) -> io::Result<()> {
    for case in cases {
        let (group, name, about) = (C::GROUP, case.name(), case.about());
        println!(rt; "{group} {name}: {about}")?;
    }
    Ok(())
}

/// Runs the cases, or the one of this name, and returns how many.
pub fn run_named<C: Measured>(
    rt: &(impl Print + Clock),
    alloc: Global,
    cases: &[C],
    wanted: Option<&str>,
    mode: Mode,
) -> Result<u32, Failure> {
    let mut count: u32 = 0;
    for case in cases {
        let (group, name) = (C::GROUP, case.name());
        if wanted.unwrap_or(name) == name {
            print!(rt; "{group} {name} ")?;
            case.run(rt, alloc, mode)?;
            count = count.saturating_add(1);
        }
    }
    Ok(count)
}

/// Another byte in the payload, so that no answer can be kept for the next round.
pub fn change(payload: &mut [u8]) {
    if let Some(first) = payload.first_mut() {
        *first = first.wrapping_add(1);
    }
}
