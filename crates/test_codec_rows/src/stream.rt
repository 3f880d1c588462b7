//! A stream cut into units.

use crate::bytes::{bytes_of, put_digits};
use crate::words::parsed;
use amqp_frame::{Frame, FrameFault, Splitter};
use std::alloc::{AllocError, Global};
use std::io::Read;
use test_row_files::words::cut;
use test_row_files::{Heap, Miss};

/// A splitter, and the units that it lets go.
#[derive(Drop)]
pub struct Stream<'a> {
    splitter: Splitter<Heap<'a>>,
}

impl<'a> Stream<'a> {
    /// Returns a stream whose frames have at most this many bytes, which is at least 8.
    pub fn new(heap: Heap<'a>, max: usize) -> Result<Stream<'a>, Miss> {
        Ok(Stream {
            splitter: Splitter::new(heap, max.max(8))?,
        })
    }

    /// Makes a call on the splitter.
    pub fn call(&mut self, alloc: Global, name: &str, words: &str) -> Result<String, Miss> {
        match name {
            "push" => self.push(alloc, words),
            "fill" => self.fill(alloc, words),
            "each" => self.push_each(alloc, words),
            "drop" => self.drop_frame(alloc),
            "finish" => self.finish(alloc),
            _ => Err(Miss::Unread("no such call")),
        }
    }

    /// Returns how many bytes of these are taken.
    fn push(&mut self, alloc: Global, words: &str) -> Result<String, Miss> {
        let bytes = bytes_of(alloc, words)?;
        let used = self.splitter.push(&bytes);
        Ok(format!(in alloc; "{used}")?)
    }

    /// Returns how many of these are read at a time into the room that is lent, until it is empty or none
    /// is left.
    fn fill(&mut self, alloc: Global, words: &str) -> Result<String, Miss> {
        let bytes = bytes_of(alloc, words)?;
        let mut rest = bytes.as_slice();
        let mut taken = String::new(alloc);
        for _ in 0..bytes.len() {
            let Ok(count) = rest.read(self.splitter.spare()) else {
                return Err(Miss::Unread("no read"));
            };
            if count == 0 {
                break;
            }
            self.splitter.filled(count);
            if !taken.is_empty() {
                taken.push(' ')?;
            }
            write!(taken, "{count}")?;
        }
        Ok(taken)
    }

    /// Returns how many are taken of each byte.
    fn push_each(&mut self, alloc: Global, words: &str) -> Result<String, Miss> {
        let mut taken = String::new(alloc);
        for byte in bytes_of(alloc, words)? {
            let used = self.splitter.push(&[byte]);
            if !taken.is_empty() {
                taken.push(' ')?;
            }
            write!(taken, "{used}")?;
        }
        Ok(taken)
    }

    fn drop_frame(&mut self, alloc: Global) -> Result<String, Miss> {
        self.splitter.drop_frame();
        Ok(String::from_str(alloc, "()")?)
    }

    fn finish(&mut self, alloc: Global) -> Result<String, Miss> {
        let rest = self.splitter.finish();
        Ok(format!(in alloc; "{rest:?}")?)
    }

    /// Returns the unit that waits, and how many bytes there are.
    pub fn shown(&self, alloc: Global) -> Result<String, AllocError> {
        let len = self.splitter.len();
        let mut shown = format!(in alloc; "len={len} header=")?;
        put_header(&mut shown, self.splitter.header())?;
        shown.push_str(" frame=")?;
        match self.splitter.frame() {
            None => shown.push_str("none")?,
            Some(unit) => put_frame(&mut shown, unit)?,
        }
        Ok(shown)
    }
}

fn put_header(shown: &mut String, header: Option<[u8; 8]>) -> Result<(), AllocError> {
    match header {
        None => shown.push_str("none"),
        Some(bytes) => put_digits(shown, &bytes),
    }
}

/// A frame's channel and body, or a fault.
fn put_frame(shown: &mut String, unit: Result<Frame<'_>, FrameFault>) -> Result<(), AllocError> {
    match unit {
        Err(fault) => write!(shown, "{fault:?}"),
        Ok(frame) => {
            write!(shown, "{}:", frame.channel)?;
            put_digits(shown, frame.body)
        }
    }
}

/// Returns the units of a stream that comes in pieces: the longest frame, the size of a piece, and the
/// bytes.
pub fn split(alloc: Global, heap: Heap<'_>, words: &str) -> Result<String, Miss> {
    let (max, words) = cut(words, ' ')?;
    let (size, words) = cut(words, ' ')?;
    let size: usize = parsed(size)?;
    let bytes = bytes_of(alloc, words)?;
    let mut stream = Stream::new(heap, parsed(max)?)?;
    let mut units = String::new(alloc);
    for piece in bytes.chunks(size.max(1)) {
        stream.feed(piece, &mut units)?;
    }
    if let Some(count) = stream.splitter.finish() {
        write!(units, " / rest {count}")?;
    }
    Ok(units)
}

impl Stream<'_> {
    /// Pushes a piece, and lets each unit go that it ends.
    fn feed(&mut self, piece: &[u8], units: &mut String) -> Result<(), AllocError> {
        let mut rest = piece;
        for _ in 0..piece.len() {
            let used = self.splitter.push(rest);
            rest = rest.get(used..).unwrap_or(&[]);
            if !self.put_unit(units)? {
                break;
            }
            self.splitter.drop_frame();
        }
        Ok(())
    }

    /// Appends the unit that waits, and returns whether there is one.
    fn put_unit(&self, units: &mut String) -> Result<bool, AllocError> {
        if let Some(header) = self.splitter.header() {
            units.push_str("header ")?;
            put_digits(units, &header)?;
            return Ok(true);
        }
        match self.splitter.frame() {
            Some(unit) if !self.splitter.is_empty() => {
                units.push_str(" / ")?;
                put_frame(units, unit)?;
                Ok(true)
            }
            _ => Ok(false),
        }
    }
}
