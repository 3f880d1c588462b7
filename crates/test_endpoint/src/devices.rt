//! A reader and a writer in memory that give and take this many bytes at a time, and fail at one
//! call.

use std::alloc::Global;
use std::io::{self, Read, Write};

/// A number of a call that never comes, and of bytes that never are too many.
pub const NEVER: usize = usize::MAX;

/// Counts calls, of which the one of a number fails, from 0 on.
#[derive(Drop)]
pub struct Calls {
    made: usize,
    failing: usize,
}

impl Calls {
    pub fn new(failing: usize) -> Calls {
        Calls { made: 0, failing }
    }

    fn make(&mut self) -> io::Result<()> {
        let call = self.made;
        self.made = self.made.saturating_add(1);
        if call == self.failing {
            return Err(io::Error::from(io::ErrorKind::Other));
        }
        Ok(())
    }
}

/// Gives at most this many bytes at a time.
#[derive(Drop)]
pub struct Source<'a> {
    pub rest: &'a [u8],
    pub most: usize,
    pub calls: Calls,
}

impl Read for Source<'_> {
    fn read(&mut self, buf: &mut [u8]) -> io::Result<usize> {
        self.calls.make()?;
        let count = buf.len().min(self.rest.len()).min(self.most);
        buf[..count].copy_from_slice(&self.rest[..count]);
        self.rest = &self.rest[count..];
        Ok(count)
    }
}

/// Keeps what is written to it, at most this many bytes at a time. Its flushes are calls too.
#[derive(Drop)]
pub struct Kept {
    pub bytes: Vec<u8>,
    most: usize,
    calls: Calls,
}

impl Kept {
    /// One that takes all and never fails.
    pub fn all(alloc: Global) -> Kept {
        Kept::failing(alloc, NEVER, NEVER)
    }

    /// One that takes at most this many bytes at a time, and fails at the call of a number.
    pub fn failing(alloc: Global, most: usize, call: usize) -> Kept {
        Kept {
            bytes: Vec::new(alloc),
            most,
            calls: Calls::new(call),
        }
    }
}

impl Write for Kept {
    fn write(&mut self, buf: &[u8]) -> io::Result<usize> {
        self.calls.make()?;
        let count = buf.len().min(self.most);
        match self.bytes.extend_from_slice(&buf[..count]) {
            Ok(()) => Ok(count),
            Err(_) => Err(io::Error::from(io::ErrorKind::OutOfMemory)),
        }
    }

    fn flush(&mut self) -> io::Result<()> {
        self.calls.make()
    }
}
