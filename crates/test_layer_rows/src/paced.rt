//! A writer that takes a few bytes a call.

use std::alloc::Global;
use std::io::{self, ErrorKind, Write};

/// Keeps what it is given, at most this many bytes of a call, and may fail at one call.
#[derive(Drop)]
pub struct PacedWriter {
    bytes: Vec<u8>,
    most: usize,
    calls: u32,
    failure: Option<(u32, ErrorKind)>,
}

impl PacedWriter {
    /// One that fails at the call of this number, from 1 on, and at no other.
    pub fn new(alloc: Global, most: usize, failure: Option<(u32, ErrorKind)>) -> PacedWriter {
        PacedWriter {
            bytes: Vec::new(alloc),
            most,
            calls: 0,
            failure,
        }
    }

    /// Returns what it was given so far.
    pub fn kept(&self) -> &[u8] {
        self.bytes.as_slice()
    }

    /// Returns how often it was called.
    pub fn calls(&self) -> u32 {
        self.calls
    }
}

impl Write for PacedWriter {
    fn write(&mut self, buf: &[u8]) -> io::Result<usize> {
        self.calls = self.calls.saturating_add(1);
        if let Some((call, kind)) = self.failure {
            if call == self.calls {
                return Err(io::Error::from(kind));
            }
        }
        let count = buf.len().min(self.most);
        self.bytes.extend_from_slice(&buf[..count])?;
        Ok(count)
    }

    fn flush(&mut self) -> io::Result<()> {
        Ok(())
    }
}
