//! Standard output, to which something is written only while that may be.

use std::cell::RefCell;
use std::io::{self, ErrorKind, Write};

/// How many bytes are written at once. A pipe that is ready takes as many without a wait.
const PIECE: usize = 4096;

/// What is asked before a piece goes to standard output.
pub trait Gate {
    /// Waits until standard output takes a piece. Returns `false` if none is to be written any more.
    fn make_way(&mut self) -> bool;

    /// Notes that a piece was written.
    fn wrote(&mut self);
}

/// Standard output, through a gate.
#[derive(Drop)]
pub struct Output<'a, R, G> {
    rt: &'a R,
    gate: &'a RefCell<G>,
}

impl<'a, R, G> Output<'a, R, G> {
    pub fn new(rt: &'a R, gate: &'a RefCell<G>) -> Self {
        Output { rt, gate }
    }
}

impl<R: Print, G: Gate> Write for Output<'_, R, G> {
    /// Writes a piece. It fails if none is to be written.
    fn write(&mut self, buf: &[u8]) -> io::Result<usize> {
        let Ok(mut gate) = self.gate.try_borrow_mut() else {
            return Err(io::Error::from(ErrorKind::Other));
        };
        if !gate.make_way() {
            return Err(io::Error::from(ErrorKind::Other));
        }
        let wrote = io::writer(self.rt).write(buf.get(..PIECE).unwrap_or(buf));
        gate.wrote();
        wrote
    }

    fn flush(&mut self) -> io::Result<()> {
        Ok(())
    }
}
