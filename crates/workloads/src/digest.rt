//! A number that tells results apart.

use byteorder::{ByteOrder, LittleEndian};
use std::alloc::{AllocError, Global};
use std::io::{self, Write};

/// An odd number with many bits, which each step multiplies by.
const FACTOR: u64 = 0x9fb2_1c65_1e98_df25;

/// This many bytes are added at once, whatever the pieces are in which they come.
const BLOCK: usize = 65536;

/// A digest of all bytes that were added, in their order.
#[derive(Drop)]
pub struct Digest {
    lanes: [u64; 4],
    bytes: u64,
    /// The last ones, fewer than a block.
    block: Vec<u8>,
}

impl Digest {
    pub fn new(alloc: Global) -> Result<Digest, AllocError> {
        Ok(Digest {
            lanes: [1, 2, 3, 4],
            bytes: 0,
            block: Vec::with_capacity(alloc, BLOCK)?,
        })
    }

    /// Returns how many bytes were added.
    pub fn bytes(&self) -> u64 {
        self.bytes
    }

    /// Returns the digest of all.
    pub fn value(&mut self) -> u64 {
        self.add_block();
        let [a, b, c, d] = self.lanes;
        step(step(step(a, b), c), d)
    }

    /// Adds bytes.
    pub fn add(&mut self, bytes: &[u8]) -> Result<(), AllocError> {
        self.bytes = self.bytes.wrapping_add(bytes.len() as u64);
        let mut rest = bytes;
        for _ in 0..=bytes.len() {
            let room = BLOCK.saturating_sub(self.block.len());
            let (front, behind) = rest.split_at(room.min(rest.len()));
            self.block.extend_from_slice(front)?;
            if self.block.len() >= BLOCK {
                self.add_block();
            }
            rest = behind;
            if rest.is_empty() {
                break;
            }
        }
        Ok(())
    }

    /// Adds a number.
    pub fn number(&mut self, number: u64) -> Result<(), AllocError> {
        self.add(&number.to_le_bytes())
    }

    fn add_block(&mut self) {
        let [mut a, mut b, mut c, mut d] = self.lanes;
        let (chunks, rest) = self.block.as_chunks::<32>();
        for chunk in chunks {
            a = step(a, LittleEndian::read_u64(chunk));
            b = step(b, LittleEndian::read_u64(&chunk[8..]));
            c = step(c, LittleEndian::read_u64(&chunk[16..]));
            d = step(d, LittleEndian::read_u64(&chunk[24..]));
        }
        for byte in rest {
            a = step(a, *byte as u64);
        }
        self.lanes = [step(a, self.block.len() as u64), b, c, d];
        self.block.clear();
    }
}

impl Write for Digest {
    fn write(&mut self, buf: &[u8]) -> io::Result<usize> {
        self.add(buf)?;
        Ok(buf.len())
    }

    fn flush(&mut self) -> io::Result<()> {
        Ok(())
    }
}

fn step(lane: u64, number: u64) -> u64 {
    (lane ^ number).wrapping_mul(FACTOR).rotate_left(29)
}
