//! A trace, and the reader and the writer that report to it what passes.

ghost use Rattle.std.specs.Prelude.{◌≡◌, ◌≤◌};
ghost use Rattle.amqp_trace.specs.Wires.{traced_reader, traced_writer};

use crate::Host;
use crate::outlets::Outlets;
use crate::teller::Teller;
use crate::words::Cause;
use amqp_endpoint::End;
use amqp_frame::{AtHand, HoldsBack};
use amqp_perform::Outcome;
use amqp_serve::{ServeFault, Stepped, Watch};
use std::alloc::{AllocError, Global};
use std::cell::RefCell;
use std::fmt::Display;
use std::io::{self, Read, Write};

/// Shows connections that are served one after the other, in lines.
///
/// A [`TracedReader`], a [`TracedWriter`] and `serve_watched` report to it what passes. A host with a loop of its
/// own calls [`Trace::came`], [`Trace::went`] and [`Trace::did`] for each step, in this order, and
/// [`Trace::waits`] before it waits.
///
/// It holds at most 43,008 bytes of what peers sent and were sent, and 32,768 of lines. The former are the first
/// 4,096 bytes of the frame that is due in each direction, 16,384 of answers, and the names of 72 links. If the
/// answers of a step are longer, some of them are shown before the step. If a writer fails, or memory is refused,
/// the host is told so, and nothing more goes there. What is served does not change then.
#[derive(Drop)]
pub struct Trace<W: Write + Drop, H: Host + Drop> {
    teller: RefCell<Teller<W, H>>,
}

impl<W: Write + Drop, H: Host + Drop> Trace<W, H> {
    /// Makes a trace. Frames and events go to these writers, if there are any. `outcome` is the outcome of
    /// messages. Returns `AllocError` if memory is refused.
    pub fn new(
        alloc: Global,
        host: H,
        frames: Option<W>,
        events: Option<W>,
        outcome: Outcome,
    ) -> Result<Self, AllocError> {
        let outlets = Outlets::new(alloc, host, frames, events)?;
        Ok(Trace {
            teller: RefCell::new(Teller::new(alloc, outlets, outcome)?),
        })
    }

    /// Returns how many bytes of peers it holds.
    pub fn held(&self) -> usize
        ensures { result ≤ 43008 }
    {
        match self.teller.try_borrow() {
            Ok(teller) => teller.held(),
            Err(_) => 0,
        }
    }

    /// Shows the connection with this number from here on.
    pub fn begin(&self, number: u64) {
        if let Ok(mut teller) = self.teller.try_borrow_mut() {
            teller.begin(number);
        }
    }

    /// Shows that the connection was accepted, and who its peer is. Its age counts from here.
    pub fn met<P: Display + Drop>(&self, peer: P) {
        if let Ok(mut teller) = self.teller.try_borrow_mut() {
            teller.met(peer);
        }
    }

    /// Shows how the connection was served.
    pub fn end(&self, served: Result<End, ServeFault>) {
        if let Ok(mut teller) = self.teller.try_borrow_mut() {
            teller.end(served);
        }
    }

    /// Shows that the host gave the connection up, and why.
    pub fn give_up(&self, cause: Cause) {
        if let Ok(mut teller) = self.teller.try_borrow_mut() {
            teller.give_up(cause);
        }
    }

    /// Shows a step: what came before it, what it resulted in, and what was sent.
    pub fn did(&self, stepped: &Stepped) {
        if let Ok(mut teller) = self.teller.try_borrow_mut() {
            teller.did(stepped);
        }
    }

    /// Takes the bytes that came, as far as the next step uses them.
    pub fn came(&self, bytes: &[u8]) {
        if let Ok(mut teller) = self.teller.try_borrow_mut() {
            teller.came(bytes);
        }
    }

    /// Shows bytes that are sent in no step.
    pub fn said(&self, bytes: &[u8]) {
        if let Ok(mut teller) = self.teller.try_borrow_mut() {
            teller.said(bytes);
        }
    }

    /// Takes the bytes that are sent in the next step.
    pub fn went(&self, bytes: &[u8]) {
        if let Ok(mut teller) = self.teller.try_borrow_mut() {
            teller.went(bytes);
        }
    }

    /// Flushes the lines that were written.
    pub fn waits(&self) {
        if let Ok(mut teller) = self.teller.try_borrow_mut() {
            teller.waits();
        }
    }
}

impl<W: Write + Drop, H: Host + Drop> Watch for &Trace<W, H> {
    fn did(&mut self, stepped: &Stepped) {
        Trace::did(self, stepped);
    }
}

/// A reader that reports what it gave to a trace, and that it waits for its peer before that.
// There may be no trace, so that a program which traces or not serves by one body: of two the compiler would
// inline less, which costs some 200 instructions for each message.
#[derive(Drop)]
pub struct TracedReader<'a, R, W: Write + Drop, H: Host + Drop> {
    reader: R,
    trace: Option<&'a Trace<W, H>>,
}

impl<'a, R, W: Write + Drop, H: Host + Drop> TracedReader<'a, R, W, H> {
    /// Makes a reader of this one that reports to a trace, if there is one.
    pub fn new(reader: R, trace: Option<&'a Trace<W, H>>) -> Self
        ensures { traced_reader result ≡ reader }
    {
        TracedReader { reader, trace }
    }
}

impl<R: Read, W: Write + Drop, H: Host + Drop> Read for TracedReader<'_, R, W, H> {
    ghost remaining = { λ r. R.remaining (traced_reader r) };

    fn read(&mut self, buf: &mut [u8]) -> io::Result<usize> {
        if let Some(trace) = self.trace {
            trace.waits();
        }
        let answer = self.reader.read(buf);
        if let Some(trace) = self.trace {
            if let Ok(count) = &answer {
                trace.came(&buf[..*count]);
            }
        }
        answer
    }
}

impl<R: AtHand, W: Write + Drop, H: Host + Drop> AtHand for TracedReader<'_, R, W, H> {
    ghost hand = { λ r. R.hand (traced_reader r) };

    #[inline(always)]
    fn at_hand(&self) -> &[u8] {
        self.reader.at_hand()
    }

    #[inline(always)]
    fn took(&mut self, n: usize) {
        if let Some(trace) = self.trace {
            trace.came(&self.reader.at_hand()[..n]);
        }
        self.reader.took(n);
    }

    fn fill(&mut self) -> io::Result<Option<usize>> {
        if let Some(trace) = self.trace {
            trace.waits();
        }
        self.reader.fill()
    }
}

/// A writer that reports what it took to a trace.
#[derive(Drop)]
pub struct TracedWriter<'a, S, W: Write + Drop, H: Host + Drop> {
    writer: S,
    trace: Option<&'a Trace<W, H>>,
}

impl<'a, S, W: Write + Drop, H: Host + Drop> TracedWriter<'a, S, W, H> {
    /// Makes a writer of this one that reports to a trace, if there is one.
    pub fn new(writer: S, trace: Option<&'a Trace<W, H>>) -> Self
        ensures { traced_writer result ≡ writer }
    {
        TracedWriter { writer, trace }
    }

    /// Returns the writer itself.
    pub fn into_inner(self) -> S
        ensures { result ≡ traced_writer self.entry }
    {
        self.writer
    }
}

impl<S: Write, W: Write + Drop, H: Host + Drop> Write for TracedWriter<'_, S, W, H> {
    ghost contents = { λ w. S.contents (traced_writer w) };

    #[inline(always)]
    fn write(&mut self, buf: &[u8]) -> io::Result<usize> {
        let Some(trace) = self.trace else {
            return self.writer.write(buf);
        };
        let answer = self.writer.write(buf);
        if let Ok(count) = &answer {
            trace.went(&buf[..*count]);
        }
        answer
    }

    fn flush(&mut self) -> io::Result<()> {
        self.writer.flush()
    }
}

impl<S: HoldsBack, W: Write + Drop, H: Host + Drop> HoldsBack for TracedWriter<'_, S, W, H> {
    ghost room = { λ w. S.room (traced_writer w) };

    fn holds_back(&self) -> usize {
        self.writer.holds_back()
    }
}
