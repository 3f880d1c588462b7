//! The lines on standard input by which a consumer acknowledges records.

use crate::gate::Gate;
use crate::line::Line;
use crate::pipes::Pipes;
use amqp_spool::consumers::Consumer;
use amqp_spool::{DirFiles, END, End, FileName};
use std::io::Input;
use std::mem;
use std::rt::Files;
use std::time::{Clock, Duration, Instant};

/// How many bytes are read at once.
const PIECE: usize = 4096;

/// How many pieces are read at most before the largest number in them is acknowledged.
const PIECES: u32 = 16;

/// How long a wait is at most, in milliseconds.
const WAIT: u64 = 1000;

/// How long it takes at least from one acknowledgement to the next while more is printed, in milliseconds: each is two
/// syncs.
const PAUSE: u64 = 100;

/// That no more is acknowledged. Standard error was told why.
#[derive(Clone, Copy, Debug, PartialEq, Eq)]
struct Stopped;

/// What a consumer acknowledges on standard input.
#[derive(Drop)]
pub struct Acks<'a, R: Input, F: Files + Drop> {
    rt: &'a R,
    files: DirFiles<F>,
    consumer: Consumer<F>,
    pipes: Pipes<R::Reader>,
    line: Line,
    /// The largest number that came and is not acknowledged yet.
    pending: Option<u64>,
    /// When it was acknowledged last.
    settled: Option<Instant>,
    /// Up to which number records are known to be published.
    published: u64,
    has_stopped: bool,
    /// What has the descriptor of standard output once that is closed.
    in_place: Option<F::File>,
}

impl<'a, R: Input + Eprint + Clock, F: Files + Drop> Acks<'a, R, F> {
    /// Takes what comes through these pipes for a consumer of the spool in this directory.
    pub fn new(
        rt: &'a R,
        files: DirFiles<F>,
        consumer: Consumer<F>,
        pipes: Pipes<R::Reader>,
    ) -> Self {
        Acks {
            rt,
            files,
            consumer,
            pipes,
            line: Line::EMPTY,
            pending: None,
            settled: None,
            published: 0,
            has_stopped: false,
            in_place: None,
        }
    }

    /// Returns up to which number the consumer has acknowledged.
    pub fn number(&self) -> u64 {
        self.consumer.number()
    }

    /// Returns whether it has ended at something that could not be acknowledged, of which standard error was told.
    pub fn has_stopped(&self) -> bool {
        self.has_stopped
    }

    /// Waits for lines at most so long, and acknowledges what they say. Returns whether more may come.
    pub fn wait(&mut self, most: Duration) -> bool {
        if !self.has_stopped {
            self.has_stopped = self.take_all(most).is_err();
        }
        !self.has_stopped && !self.pipes.has_ended()
    }

    /// Waits until a pipe is ready, at most so long, and acknowledges what standard input has.
    fn take_all(&mut self, most: Duration) -> Result<(), Stopped> {
        if !self.pipes.has_ended() {
            self.look(most)?;
        }
        self.settle()
    }

    /// Takes what standard input has while more is printed, and acknowledges it from time to time.
    fn take_meanwhile(&mut self, most: Duration) -> Result<(), Stopped> {
        self.look(most)?;
        if self.was_settled_now() {
            return Ok(());
        }
        self.settle()
    }

    /// Returns whether it was acknowledged not long ago.
    fn was_settled_now(&self) -> bool {
        match self.settled {
            Some(settled) => settled
                .elapsed(self.rt)
                .is_ok_and(|age| age.as_millis() < u128::from(PAUSE)),
            None => false,
        }
    }

    /// Acknowledges all that comes up to the end of standard input. Standard output is closed before, so that its
    /// reader sees its end.
    pub fn take_rest(&mut self) {
        if self.pipes.close_output() {
            // No file that is written gets its number.
            self.in_place = self.files.open_read(FileName::Dir).ok();
        }
        for _ in 0..u64::MAX {
            if !self.wait(Duration::from_millis(WAIT)) {
                break;
            }
        }
    }

    /// Waits until a pipe is ready, at most so long, and takes what standard input has.
    fn look(&mut self, most: Duration) -> Result<(), Stopped> {
        if !self.pipes.can_read() {
            self.watch(most)?;
        }
        for _ in 0..PIECES {
            if !self.pipes.can_read() {
                break;
            }
            self.take_piece()?;
            self.watch(Duration::ZERO)?;
        }
        Ok(())
    }

    /// Waits until a pipe is ready, at most so long.
    fn watch(&mut self, most: Duration) -> Result<(), Stopped> {
        match self.pipes.wait(most) {
            Ok(()) => Ok(()),
            Err(error) => {
                let _ = eprintln!(self.rt; "ack: {error}");
                Err(Stopped)
            }
        }
    }

    /// Reads a piece of standard input, and takes the lines of it.
    fn take_piece(&mut self) -> Result<(), Stopped> {
        let mut room = [0; PIECE];
        let count = self.pipes.read(&mut room);
        for byte in room.get(..count).unwrap_or(&[]) {
            if *byte == b'\n' || self.line.push(*byte) {
                self.take_line()?;
            }
        }
        if self.pipes.has_ended() && !self.line.is_empty() {
            self.take_line()?;
        }
        Ok(())
    }

    /// Takes the line that came.
    fn take_line(&mut self) -> Result<(), Stopped> {
        let line = mem::replace(&mut self.line, Line::EMPTY);
        if let Some(number) = line.number() {
            return self.take_number(number);
        }
        self.settle()?;
        let _ = eprintln!(self.rt; "ack: {line}: no number");
        Err(Stopped)
    }

    /// Keeps a number to be acknowledged with those that come after it. One that will be refused is tried at once,
    /// after those before it.
    fn take_number(&mut self, number: u64) -> Result<(), Stopped> {
        if number > self.published {
            self.published = last_published(&self.files).unwrap_or(self.published);
        }
        let least = self.pending.unwrap_or(self.consumer.number());
        if number < least || number > self.published {
            self.settle()?;
            return self.acknowledge(number);
        }
        self.pending = Some(number);
        Ok(())
    }

    /// Acknowledges up to the largest number that came.
    fn settle(&mut self) -> Result<(), Stopped> {
        let Some(number) = self.pending.take() else {
            return Ok(());
        };
        self.settled = Instant::now(self.rt).ok();
        self.acknowledge(number)
    }

    fn acknowledge(&mut self, number: u64) -> Result<(), Stopped> {
        match self.consumer.acknowledge(&self.files, number) {
            Ok(()) => Ok(()),
            Err(fault) => {
                let _ = eprintln!(self.rt; "ack: {number}: {fault}");
                Err(Stopped)
            }
        }
    }
}

impl<R: Input + Eprint + Clock, F: Files + Drop> Gate for Acks<'_, R, F> {
    /// Acknowledges what comes meanwhile, from time to time. Standard input that needs no wait is read when all was
    /// printed.
    fn make_way(&mut self) -> bool {
        if !self.pipes.is_awaited() {
            return true;
        }
        let mut most = Duration::ZERO;
        for _ in 0..u64::MAX {
            if !self.has_stopped {
                self.has_stopped = self.take_meanwhile(most).is_err();
            }
            if self.has_stopped || self.pipes.can_write() {
                break;
            }
            most = Duration::from_millis(PAUSE);
        }
        !self.has_stopped
    }

    fn wrote(&mut self) {
        self.pipes.wrote();
    }
}

/// Returns the number of the last record that was published, if that can be read.
fn last_published<R: Files + Drop>(files: &DirFiles<R>) -> Option<u64> {
    let mut bytes = [0; END];
    files.read(FileName::End, 0, &mut bytes).ok()?;
    Some(End::read(&bytes)?.next.saturating_sub(1))
}
