//! Standard error, as what text is written to.

use std::io::{self, ErrorKind, Write};
use std::str;

/// Standard error. It takes text.
#[derive(Clone, Copy)]
pub struct Stderr<'a, R>(pub &'a R);

impl<R: Eprint> Write for Stderr<'_, R> {
    fn write(&mut self, buf: &[u8]) -> io::Result<usize> {
        match str::from_utf8(buf) {
            Ok(text) => {
                self.0.eprint(text)?;
                Ok(buf.len())
            }
            Err(_) => Err(io::Error::from(ErrorKind::InvalidData)),
        }
    }

    fn flush(&mut self) -> io::Result<()> {
        Ok(())
    }
}
