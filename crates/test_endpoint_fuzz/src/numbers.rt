//! Bytes that follow from a number, and choices that follow from bytes.

use std::alloc::{AllocError, Global};

/// Numbers that follow from a first one (xorshift).
#[derive(Clone, Copy)]
pub struct Numbers {
    last: u64,
}

impl Numbers {
    pub fn of(seed: u64) -> Numbers {
        Numbers {
            last: seed.wrapping_mul(0x9e37_79b9_7f4a_7c15) | 1,
        }
    }

    fn next(&mut self) -> u64 {
        let mut next = self.last;
        next ^= next << 13;
        next ^= next >> 7;
        next ^= next << 17;
        self.last = next;
        next
    }

    /// Returns this many bytes.
    pub fn bytes(&mut self, alloc: Global, count: usize) -> Result<Vec<u8>, AllocError> {
        let mut bytes = Vec::with_capacity(alloc, count)?;
        for _ in 0..count {
            let byte = (self.next() >> 32) % 256;
            bytes.push(byte as u8)?;
        }
        Ok(bytes)
    }

    /// Returns a number below `end`, which is not 0.
    pub fn below(&mut self, end: u64) -> u64 {
        (self.next() >> 16).checked_rem(end).unwrap_or(0)
    }
}

/// Numbers at which something turns.
const EDGES: [u32; 8] = [
    0,
    1,
    2,
    0x7fff_ffff,
    0x8000_0000,
    0xffff_fffd,
    0xffff_fffe,
    0xffff_ffff,
];

/// Choices, each made by the next byte; a list that is at its end chooses 0.
#[derive(Clone, Copy, Drop)]
pub struct Choices<'a> {
    rest: &'a [u8],
}

impl<'a> Choices<'a> {
    pub fn new(bytes: &'a [u8]) -> Choices<'a> {
        Choices { rest: bytes }
    }

    pub fn is_over(&self) -> bool {
        self.rest.is_empty()
    }

    pub fn byte(&mut self) -> u8 {
        match self.rest.split_first() {
            Some((first, rest)) => {
                self.rest = rest;
                *first
            }
            None => 0,
        }
    }

    /// Returns a number below `end`, which is at most 256; 0 if that is 0.
    pub fn below(&mut self, end: u32) -> u32 {
        u32::from(self.byte()).checked_rem(end).unwrap_or(0)
    }

    /// Returns whether a draw of one in `count` succeeds, at most 256.
    pub fn is_one_of(&mut self, count: u32) -> bool {
        self.below(count) == 1
    }

    /// Returns one of these.
    pub fn of<T: Copy + Drop>(&mut self, all: &[T], other: T) -> T {
        let at = self.below((all.len() as u64).min(256) as u32);
        all.get(at as usize).copied().unwrap_or(other)
    }

    /// Returns a number of 32 bits, mostly one at which something turns.
    pub fn number(&mut self) -> u32 {
        if self.is_one_of(4) {
            let bytes = [self.byte(), self.byte(), self.byte(), self.byte()];
            return u32::from_be_bytes(bytes);
        }
        self.of(&EDGES, 0)
    }
}
