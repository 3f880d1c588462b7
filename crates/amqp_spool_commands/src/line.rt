//! A line of standard input by which a consumer acknowledges.

use std::fmt::{self, Formatter};
use std::{ascii, str};

/// The most digits that a line has.
const DIGITS: usize = 20;

/// What came of a line so far. It is displayed in printable ASCII, with `..` if it is longer.
#[derive(Clone, Copy)]
pub struct Line {
    text: [u8; DIGITS],
    len: usize,
    is_long: bool,
}

impl Line {
    pub const EMPTY: Line = Line {
        text: [0; DIGITS],
        len: 0,
        is_long: false,
    };

    pub fn is_empty(&self) -> bool {
        self.len == 0
    }

    /// Takes a byte more. Returns whether it is one too many.
    pub fn push(&mut self, byte: u8) -> bool {
        match self.text.get_mut(self.len) {
            Some(place) => {
                *place = byte;
                self.len = self.len.saturating_add(1);
            }
            None => self.is_long = true,
        }
        self.is_long
    }

    /// Returns the number whose decimal digits it is.
    pub fn number(&self) -> Option<u64> {
        let digits = self.as_bytes();
        if self.is_long || !digits.iter().all(|byte| byte.is_ascii_digit()) {
            return None;
        }
        str::from_utf8(digits).ok()?.parse::<u64>().ok()
    }

    fn as_bytes(&self) -> &[u8] {
        self.text.get(..self.len).unwrap_or(&[])
    }
}

impl fmt::Display for Line {
    fn fmt<W: fmt::Write>(&self, f: &mut Formatter<W>) -> fmt::Result {
        for byte in self.as_bytes() {
            write!(f, "{}", ascii::escape_default(*byte))?;
        }
        if self.is_long {
            f.write_str("..")?;
        }
        Ok(())
    }
}
