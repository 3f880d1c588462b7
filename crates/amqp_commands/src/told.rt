//! Where the lines about what is served go: files or standard error, and the clock of the
//! lines.

use amqp_spool_commands::Stderr;
use amqp_trace::{Host, TraceFault, View};
use std::fs;
use std::io::{self, Write};
use std::rt::Files;
use std::time::{Clock, Instant};

/// The name that stands for standard error.
const STDERR: &str = "-";

/// Where lines go.
#[derive(Drop)]
pub enum Told<'a, R: Files> {
    File(R::File),
    Stderr(Stderr<'a, R>),
}

impl<'a, R: Files> Told<'a, R> {
    /// Opens a new file, or standard error for `-`.
    pub fn open(rt: &'a R, path: &str) -> io::Result<Self> {
        if path == STDERR {
            return Ok(Told::Stderr(Stderr(rt)));
        }
        Ok(Told::File(fs::create(rt, path)?))
    }
}

impl<R: Files + Eprint> Write for Told<'_, R> {
    fn write(&mut self, buf: &[u8]) -> io::Result<usize> {
        match self {
            Told::File(file) => file.write(buf),
            Told::Stderr(stderr) => stderr.write(buf),
        }
    }

    fn flush(&mut self) -> io::Result<()> {
        match self {
            Told::File(file) => file.flush(),
            Told::Stderr(stderr) => stderr.flush(),
        }
    }
}

/// The host of a trace: it has a clock, and says on standard error that a trace is lost.
#[derive(Drop)]
pub struct Desk<'a, R> {
    rt: &'a R,
    began: Option<Instant>,
}

impl<'a, R: Clock> Desk<'a, R> {
    pub fn new(rt: &'a R) -> Self {
        Desk {
            rt,
            began: Instant::now(rt).ok(),
        }
    }
}

impl<R: Clock + Eprint> Host for Desk<'_, R> {
    /// Returns the milliseconds since it was made, or 0 if the clock fails.
    fn millis(&self) -> u64 {
        let Some(began) = self.began else {
            return 0;
        };
        match began.elapsed(self.rt) {
            Ok(age) => u64::try_from(age.as_millis()).unwrap_or(u64::MAX),
            Err(_) => 0,
        }
    }

    fn lost(&self, view: View, fault: TraceFault) {
        let _ = eprintln!(self.rt; "{view}: {fault}, nothing more is told there");
    }
}
