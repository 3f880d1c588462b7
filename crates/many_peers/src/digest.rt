//! A number that tells results apart.

use byteorder::{ByteOrder, LittleEndian};

/// An odd number with many bits, which each step multiplies by.
const FACTOR: u64 = 0x9fb2_1c65_1e98_df25;

/// A digest of the pieces that were added, in their order.
#[derive(Clone, Copy)]
pub struct Digest {
    pub value: u64,
    /// How many bytes were added.
    pub bytes: u64,
}

impl Digest {
    pub const NONE: Digest = Digest { value: 1, bytes: 0 };

    /// Adds a piece.
    pub fn add(&mut self, piece: &[u8]) {
        self.bytes = self.bytes.wrapping_add(piece.len() as u64);
        let (chunks, rest) = piece.as_chunks::<8>();
        for chunk in chunks {
            self.step(LittleEndian::read_u64(chunk));
        }
        for byte in rest {
            self.step(*byte as u64);
        }
    }

    fn step(&mut self, number: u64) {
        self.value = (self.value ^ number).wrapping_mul(FACTOR).rotate_left(29);
    }
}
