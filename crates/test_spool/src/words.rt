//! The words of a row, and of its answer.

use std::alloc::{AllocError, Global};
use std::fmt::{self, Display, Formatter};
use test_row_files::Miss;
use test_row_files::words::{name_of, number};

/// The words of a text, parted by spaces, taken one after the other.
#[derive(Clone, Copy)]
pub struct Words<'t> {
    rest: &'t str,
}

impl<'t> Words<'t> {
    pub fn of(text: &'t str) -> Words<'t> {
        Words { rest: text.trim() }
    }

    /// Takes the next word.
    pub fn word(&mut self) -> Result<&'t str, Miss> {
        match self.word_or("") {
            "" => Err(Miss::Unread("too few words")),
            word => Ok(word),
        }
    }

    /// Takes the next word. If there is none it is this one.
    pub fn word_or(&mut self, word: &'t str) -> &'t str {
        let (next, rest) = name_of(self.rest);
        self.rest = rest;
        if next.is_empty() { word } else { next }
    }

    /// Takes a number below 2^32.
    pub fn number(&mut self) -> Result<u32, Miss> {
        number(self.word()?)
    }

    /// Takes a number below 2^64.
    pub fn long(&mut self) -> Result<u64, Miss> {
        long(self.word()?)
    }

    /// Takes a hex text; `-` is that of no bytes.
    pub fn bytes(&mut self, alloc: Global) -> Result<Vec<u8>, Miss> {
        bytes_in(alloc, self.word()?)
    }

    /// Takes the hex text of 16 bytes.
    pub fn sixteen(&mut self) -> Result<[u8; 16], Miss> {
        sixteen(self.word()?)
    }

    /// Takes no more words. Refuses if there are any.
    pub fn end(self) -> Result<(), Miss> {
        if self.rest.is_empty() {
            Ok(())
        } else {
            Err(Miss::Unread("too many words"))
        }
    }
}

/// Returns a number below 2^64.
pub fn long(word: &str) -> Result<u64, Miss> {
    word.parse::<u64>().ok().ok_or(Miss::Unread("no number"))
}

/// Returns the 16 bytes of a hex text.
pub fn sixteen(word: &str) -> Result<[u8; 16], Miss> {
    let mut bytes = [0; 16];
    match hex::decode_to_slice(word, &mut bytes) {
        Ok(()) => Ok(bytes),
        Err(_) => Err(Miss::Unread("no 16 bytes")),
    }
}

/// Returns the bytes of a hex text; `-` is that of none.
pub fn bytes_in(alloc: Global, word: &str) -> Result<Vec<u8>, Miss> {
    let hex = if word == "-" { "" } else { word };
    hex::decode(alloc, hex).ok().ok_or(Miss::Unread("no hex"))
}

/// Bytes, displayed in hex, and as `-` if there are none.
#[derive(Clone, Copy)]
pub struct Hex<'a>(pub &'a [u8]);

impl Display for Hex<'_> {
    fn fmt<W: fmt::Write>(&self, f: &mut Formatter<W>) -> fmt::Result {
        if self.0.is_empty() {
            return f.write_str("-");
        }
        for byte in self.0 {
            write!(f, "{byte:02x}")?;
        }
        Ok(())
    }
}

/// Bytes, displayed as the characters that they are in Latin-1.
#[derive(Clone, Copy)]
pub struct Text<'a>(pub &'a [u8]);

impl Display for Text<'_> {
    fn fmt<W: fmt::Write>(&self, f: &mut Formatter<W>) -> fmt::Result {
        for byte in self.0 {
            f.write_char(char::from(*byte))?;
        }
        Ok(())
    }
}

/// Returns the word for what holds or doesn't.
pub fn word_of(holds: bool) -> &'static str {
    if holds { "true" } else { "false" }
}

/// Puts these characters, if something stands before them.
pub fn part(out: &mut String, between: &str) -> Result<(), AllocError> {
    if out.is_empty() {
        Ok(())
    } else {
        out.push_str(between)
    }
}
