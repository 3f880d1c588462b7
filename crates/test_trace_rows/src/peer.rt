//! A peer that sends pieces, and the paper that lines are written to.

use amqp_trace::{Host, Trace, TraceFault, View};
use std::cell::{Cell, RefCell};
use std::io::{self, ErrorKind, Read, Write};

/// Where lines are written, up to this many bytes.
#[derive(Drop)]
pub struct Paper {
    pub lines: RefCell<Vec<u8>>,
    pub most: usize,
}

impl Paper {
    /// Returns how many bytes were written.
    pub fn len(&self) -> usize {
        match self.lines.try_borrow() {
            Ok(lines) => lines.len(),
            Err(_) => 0,
        }
    }
}

impl Write for &Paper {
    fn write(&mut self, buf: &[u8]) -> io::Result<usize> {
        let Ok(mut lines) = self.lines.try_borrow_mut() else {
            return Err(io::Error::from(ErrorKind::Other));
        };
        if lines.len().saturating_add(buf.len()) > self.most {
            return Err(io::Error::from(ErrorKind::StorageFull));
        }
        match lines.extend_from_slice(buf) {
            Ok(()) => Ok(buf.len()),
            Err(_) => Err(io::Error::from(ErrorKind::OutOfMemory)),
        }
    }

    fn flush(&mut self) -> io::Result<()> {
        Ok(())
    }
}

/// A clock, and what the trace says when it is lost.
#[derive(Drop)]
pub struct Desk {
    pub millis: Cell<u64>,
    pub lost: Cell<&'static str>,
}

impl Host for &Desk {
    fn millis(&self) -> u64 {
        self.millis.get()
    }

    fn lost(&self, view: View, fault: TraceFault) {
        self.lost.set(match (view, fault) {
            (View::Frames, TraceFault::Write) => "trace-write",
            (View::Events, TraceFault::Write) => "events-write",
            (_, TraceFault::NoMemory) => "memory",
        });
    }
}

/// The trace of a test.
pub type Traced<'a> = Trace<&'a Paper, &'a Desk>;

/// How a socket behaves.
#[derive(Clone, Copy, PartialEq, Eq, Drop)]
pub enum Manner {
    /// It ends after the pieces.
    Leaves,
    /// It fails after them.
    Breaks,
    /// It takes nothing.
    IsDeaf,
}

/// What is served and told of, and what was seen of it.
#[derive(Drop)]
pub struct Scene {
    pub pieces: Vec<Vec<u8>>,
    pub manner: Manner,
    pub desk: Desk,
    pub paper: Paper,
    /// How many bytes of lines stood there when the last piece was waited for.
    pub mark: Cell<usize>,
    /// The most that was held.
    pub held: Cell<usize>,
}

/// A peer that sends the pieces of a scene, each by a read of its own.
#[derive(Drop)]
pub struct Peer<'s, 't> {
    pub scene: &'s Scene,
    pub pieces: &'s [Vec<u8>],
    /// How many bytes of the first piece were sent.
    pub sent: usize,
    pub trace: &'t Traced<'s>,
}

impl Read for Peer<'_, '_> {
    fn read(&mut self, buf: &mut [u8]) -> io::Result<usize> {
        let Scene {
            manner,
            desk,
            paper,
            mark,
            held,
            ..
        } = self.scene;
        held.set(held.get().max(self.trace.held()));
        desk.millis.set(desk.millis.get().saturating_add(5));
        let Some((piece, rest)) = self.pieces.split_first() else {
            return match *manner {
                Manner::Breaks => Err(io::Error::from(ErrorKind::ConnectionReset)),
                _ => Ok(0),
            };
        };
        if self.sent == 0 && rest.is_empty() {
            mark.set(paper.len());
        }
        let left = &piece[self.sent.min(piece.len())..];
        let count = left.len().min(buf.len());
        buf[..count].copy_from_slice(&left[..count]);
        self.sent = self.sent.saturating_add(count);
        if self.sent >= piece.len() {
            self.pieces = rest;
            self.sent = 0;
        }
        Ok(count)
    }
}

/// What the peer takes.
#[derive(Drop)]
pub struct Ear {
    pub manner: Manner,
}

impl Write for Ear {
    fn write(&mut self, buf: &[u8]) -> io::Result<usize> {
        match self.manner {
            Manner::IsDeaf => Err(io::Error::from(ErrorKind::BrokenPipe)),
            _ => Ok(buf.len()),
        }
    }

    fn flush(&mut self) -> io::Result<()> {
        Ok(())
    }
}

/// A sink that takes all.
#[derive(Drop)]
pub struct Nowhere;

impl Write for Nowhere {
    fn write(&mut self, buf: &[u8]) -> io::Result<usize> {
        Ok(buf.len())
    }

    fn flush(&mut self) -> io::Result<()> {
        Ok(())
    }
}
