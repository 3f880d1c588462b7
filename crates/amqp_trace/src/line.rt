//! A line of a trace.

ghost use Rattle.std.specs.Prelude.{◌≡◌, ◌++◌, [], IfOk};
ghost use Rattle.amqp_trace.specs.Lines.{IsPrintable, end_of, IsLine};

use amqp_dump::{Page, put_quoted};
use std::alloc::{AllocError, Global};
use std::fmt::{self, Write};
use std::marker::Model;

/// How many bytes a line has at most. A line that had more ends with `..`.
pub const MOST: usize = 4096;

/// What replaces a byte that is not printable ASCII.
const REPLACEMENT: u8 = b'?';

/// A line of printable ASCII that has no end yet. It takes all its memory at once, and puts into it are never
/// refused.
#[derive(Drop)]
pub struct Line {
    text: Vec<u8>,
    is_cut: bool,
}

impl Model for Line {
    ghost use Rattle.std.specs.Prelude.{◌≤◌, length, All};
    ghost use Rattle.amqp_trace.specs.Lines as lines;

    ghost Value = { lines.Line };

    ghost view = { λ line. record { text = line.text.items; is_cut = line.is_cut } };

    ghost invariant = { λ line. All lines.IsPrintable line.text.items × (length line.text.items ≤ 4096) };
}

impl Line {
    /// Makes an empty line.
    pub fn new(alloc: Global) -> Result<Line, AllocError>
        ensures { IfOk result (λ line. line.text ≡ []) }
    {
        Ok(Line {
            text: Vec::with_capacity(alloc, MOST)?,
            is_cut: false,
        })
    }

    /// Drops what was put.
    pub fn clear(&mut self)
        ensures { self.new.text ≡ [] }
    {
        self.text.clear();
        self.is_cut = false;
    }

    /// Returns whether nothing was put.
    pub fn is_empty(&self) -> bool {
        self.text.is_empty()
    }

    /// Puts a text, with `?` for each byte that is not printable ASCII. So no control character of a peer reaches
    /// a terminal, and none breaks a line. What finds no room is left out.
    pub fn put(&mut self, text: &[u8]) {
        for byte in text {
            if self.is_cut {
                break;
            }
            self.put_byte(*byte);
        }
    }

    /// Puts a byte.
    fn put_byte(&mut self, byte: u8) {
        if self.text.len() >= MOST || self.text.push(printable(byte)).is_err() {
            self.is_cut = true;
        }
    }

    /// Puts bytes of a peer in quotes, escaped as `dump` escapes them.
    pub fn put_quoted(&mut self, page: &mut Page, bytes: &[u8]) {
        page.clear();
        put_quoted(page, bytes);
        self.put(page.begun());
    }

    /// Puts another line.
    pub fn put_line(&mut self, line: &Line) {
        self.put(line.text());
        if line.is_cut {
            self.is_cut = true;
        }
    }

    /// Returns what was put.
    pub fn text(&self) -> &[u8]
        ensures { result.now ≡ self.now.text }
    {
        &self.text
    }

    /// Returns what follows the text: a newline, after `..` if the line was cut.
    pub fn end(&self) -> &'static [u8]
        ensures end { result.now ≡ end_of self.now.is_cut }
        ensures line { IsLine (self.now.text ++ result.now) }
    {
        if self.is_cut { b"..\n" } else { b"\n" }
    }
}

impl Write for Line {
    fn write_str(&mut self, s: &str) -> fmt::Result {
        self.put(s.as_bytes());
        Ok(())
    }
}

/// Returns the byte, or `?` if it is not printable ASCII.
fn printable(byte: u8) -> u8
    ensures { IsPrintable result }
{
    match byte {
        b' '..=b'~' => byte,
        _ => REPLACEMENT,
    }
}
