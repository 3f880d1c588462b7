//! The unit that is due in one direction of a connection. Its front is kept.

ghost use Rattle.std.specs.Prelude.{◌≡◌, ◌≤◌, length, IfOk};

use amqp_frame::FrameFault;
use std::alloc::{AllocError, Global};
use std::marker::Model;

/// How many bytes of a unit are kept.
pub const KEPT: usize = 4096;

/// The length of the header of a connection, and of the header of a frame. [2.2, 2.3.1]
pub const HEAD: usize = 8;

/// How many bytes of a frame give its size. [2.3.1]
const SIZE: usize = 4;

/// The unit that is due: the header of a connection, or a frame. Its first [`KEPT`] bytes are kept, the others are counted.
#[derive(Drop)]
pub struct Unit {
    kept: Vec<u8>,
    /// How many bytes of it came.
    count: usize,
    /// Where it begins, in bytes from the start of the stream.
    place: usize,
}

impl Model for Unit {
    ghost use Rattle.std.specs.Prelude.{List, ℕ, ◌≤◌, length};

    ghost Value = { List ℕ };

    ghost view = { λ unit. unit.kept.items };

    ghost invariant = { λ unit. length unit.kept.items ≤ 4096 };
}

impl Unit {
    /// Makes a unit that is the header, of which nothing came. It takes memory for what is kept, and none after
    /// that.
    pub fn new(alloc: Global) -> Result<Unit, AllocError> {
        Ok(Unit {
            kept: Vec::with_capacity(alloc, KEPT)?,
            count: 0,
            place: 0,
        })
    }

    /// Begins anew, with the header of another connection.
    pub fn restart(&mut self) {
        self.kept.clear();
        self.count = 0;
        self.place = 0;
    }

    /// Goes on to the unit after this one.
    pub fn go_on(&mut self) {
        self.kept.clear();
        self.place = self.place.saturating_add(self.count);
        self.count = 0;
    }

    /// Takes bytes up to the end of the unit, or all if they are fewer, and returns how many it took.
    pub fn take(&mut self, bytes: &[u8]) -> Result<usize, AllocError>
        ensures { IfOk result (λ n. n ≤ length bytes.now) }
    {
        let first = self.take_to(bytes, if self.is_header() { HEAD } else { SIZE })?;
        let rest = self.take_to(&bytes[first..], self.size())?;
        Ok(first + rest)
    }

    /// Takes bytes until `end` bytes of the unit came, and returns how many it took.
    fn take_to(&mut self, bytes: &[u8], end: usize) -> Result<usize, AllocError>
        ensures { IfOk result (λ n. n ≤ length bytes.now) }
    {
        let count = bytes.len().min(end.saturating_sub(self.count));
        let room = KEPT.saturating_sub(self.kept.len());
        self.kept.extend_from_slice(&bytes[..count.min(room)])?;
        self.count = self.count.saturating_add(count);
        Ok(count)
    }

    /// Returns whether it is the header of the connection. [2.2]
    pub fn is_header(&self) -> bool {
        self.place == 0
    }

    /// Returns whether no byte of it came.
    pub fn is_empty(&self) -> bool {
        self.count == 0
    }

    /// Returns whether all of it came.
    pub fn is_whole(&self) -> bool {
        self.count >= HEAD && self.count == self.size()
    }

    /// Returns how long it is in bytes, as it says itself, or how much of it came if it doesn't say it yet.
    /// [2.3.1]
    pub fn size(&self) -> usize {
        match self.kept.first_chunk::<SIZE>() {
            _ if self.is_header() => HEAD,
            Some(size) => u32::from_be_bytes(*size) as usize,
            None => self.count,
        }
    }

    pub fn place(&self) -> usize {
        self.place
    }

    /// Returns its first bytes, as many as are kept.
    pub fn kept(&self) -> &[u8]
        ensures { result.now ≡ self.now }
    {
        &self.kept
    }

    /// Returns how many bytes are kept.
    pub fn kept_len(&self) -> usize
        ensures { result ≤ 4096 }
    {
        self.kept.len()
    }

    /// Returns how many bytes of the whole unit are not kept.
    pub fn left_out(&self) -> usize {
        self.size().saturating_sub(self.kept.len())
    }

    /// Returns the channel of a frame. [2.3.1]
    pub fn channel(&self) -> u16 {
        match self.kept.get(6..HEAD) {
            Some([high, low]) => u16::from_be_bytes([*high, *low]),
            _ => 0,
        }
    }

    /// Returns where the body of a frame begins. [2.3.1]
    fn body_place(&self) -> usize {
        match self.kept.get(4) {
            Some(offset) => 4 * usize::from(*offset),
            None => 0,
        }
    }

    /// Returns the body of a frame, as far as it is kept. [2.3.1]
    pub fn body(&self) -> &[u8]
        ensures { length result.now ≤ length self.now }
    {
        self.kept.get(self.body_place()..).unwrap_or(&[])
    }

    /// Returns whether a frame has a body. [2.3.1]
    pub fn has_body(&self) -> bool {
        self.body_place() < self.size()
    }

    /// Returns why this is no frame, if its first bytes say so. [2.3.1]
    pub fn fault(&self) -> Option<FrameFault> {
        let size = self.size();
        if self.is_header() || self.kept.len() < SIZE {
            return None;
        }
        if size < HEAD {
            return Some(FrameFault::TooSmall);
        }
        let offset = *self.kept.get(4)?;
        let kind = *self.kept.get(5)?;
        if offset < 2 || self.body_place() > size {
            return Some(FrameFault::BadOffset);
        }
        if kind == 0 {
            None
        } else {
            Some(FrameFault::BadType)
        }
    }
}
