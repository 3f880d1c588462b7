//! A peer that makes its bytes as they are requested.

ghost use Rattle.std.specs.Prelude.{◌≤◌, length};

use std::io::{self, Read};

/// Where a unit has a number, big-endian in this many bytes.
#[derive(Clone, Copy)]
pub struct Number {
    pub at: usize,
    pub width: usize,
    pub next: u32,
}

/// Sends an opening, and then a unit this many times, each time with the next number in it.
#[derive(Drop)]
pub struct Peer<'a> {
    opening: &'a [u8],
    unit: Vec<u8>,
    number: Option<Number>,
    /// How often the unit is still to come, besides the one that is on its way.
    left: u32,
    /// How much of it was given.
    at: usize,
    /// How many bytes are given at a time, at most.
    most: usize,
    given: u64,
}

impl<'a> Peer<'a> {
    pub fn new(
        opening: &'a [u8],
        unit: Vec<u8>,
        number: Option<Number>,
        times: u32,
        most: usize,
    ) -> Peer<'a> {
        let at = unit.len();
        Peer {
            opening,
            unit,
            number,
            left: times,
            at,
            most,
            given: 0,
        }
    }

    /// Returns how many bytes it gave.
    pub fn given(&self) -> u64 {
        self.given
    }

    /// Begins the unit once more, if it is to come.
    fn turn(&mut self) {
        if self.left == 0 || self.at < self.unit.len() {
            return;
        }
        self.left -= 1;
        self.at = 0;
        if let Some(number) = &mut self.number {
            let bytes = number.next.to_be_bytes();
            let low = bytes.iter().skip(4_usize.saturating_sub(number.width));
            for (to, from) in self.unit.iter_mut().skip(number.at).zip(low) {
                *to = *from;
            }
            number.next = number.next.wrapping_add(1);
        }
    }
}

impl Peer<'_> {
    /// Gives of the opening.
    fn give_opening(&mut self, buf: &mut [u8]) -> usize
        ensures { result ≤ length buf.old }
    {
        let count = give(buf, self.opening, self.most);
        self.opening = self.opening.get(count..).unwrap_or(&[]);
        count
    }

    /// Gives of the unit.
    fn give_unit(&mut self, buf: &mut [u8]) -> usize
        ensures { result ≤ length buf.old }
    {
        self.turn();
        let count = give(buf, self.unit.get(self.at..).unwrap_or(&[]), self.most);
        self.at = self.at.saturating_add(count);
        count
    }
}

/// Copies the first bytes, as many as are there and have room, at most this many.
fn give(buf: &mut [u8], source: &[u8], most: usize) -> usize
    ensures { result ≤ length buf.old }
{
    let count = buf.len().min(source.len()).min(most);
    buf[..count].copy_from_slice(&source[..count]);
    count
}

impl Read for Peer<'_> {
    fn read(&mut self, buf: &mut [u8]) -> io::Result<usize> {
        let count = if self.opening.is_empty() {
            self.give_unit(buf)
        } else {
            self.give_opening(buf)
        };
        self.given = self.given.saturating_add(count as u64);
        Ok(count)
    }
}
