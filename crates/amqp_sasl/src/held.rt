//! Bytes that are kept in memory of fixed size, with zeros behind them.
ghost use Rattle.std.specs.Prelude.{◌≡◌, ◌<◌, ◌≤◌, ◌-◌, ◌++◌, [], ◌∷◌, length, replicate};

use std::marker::Model;

/// How many bytes may be kept: those of the largest frame. [5.3.1]
pub const MOST_KEPT: usize = 512;

/// Bytes that are kept. What lies behind them is zero, so nothing of what was kept before is left.
#[derive(Drop)]
pub struct Held {
    len: usize,
    bytes: [u8; MOST_KEPT],
}

impl Model for Held {
    ghost use Rattle.std.specs.Prelude.{ℕ, List, ◌≡◌, ◌≤◌, ◌-◌, take, drop, replicate};

    ghost Value = { List ℕ };

    ghost view = { λ a. take a.len a.bytes };

    ghost invariant = { λ a. (a.len ≤ 512) × (drop a.len a.bytes ≡ replicate (512 - a.len) 0) };
}

impl Held {
    /// Makes one that keeps nothing.
    pub fn new() -> Self
        ensures { result ≡ [] }
    {
        Held {
            len: 0,
            bytes: [0; MOST_KEPT],
        }
    }

    /// Returns how many bytes are kept.
    pub fn len(&self) -> usize
        ensures value { result ≡ length self.now }
        ensures most { result ≤ 512 }
    {
        self.len
    }

    /// Keeps one more byte.
    pub fn push(&mut self, byte: u8)
        requires { length self.old < 512 }
        ensures { self.new ≡ self.old ++ byte ∷ [] }
    {
        self.bytes[self.len] = byte;
        self.len += 1;
    }

    /// Overwrites all that is kept by zeros, and keeps nothing.
    pub fn wipe(&mut self)
        ensures { self.new ≡ [] }
    {
        self.bytes = [0; MOST_KEPT];
        self.len = 0;
    }

    /// Returns the bytes that are kept.
    pub fn as_slice(&self) -> &[u8]
        ensures value { result.now ≡ self.now }
        ensures most { length result.now ≤ 512 }
    {
        &self.bytes[..self.len]
    }

    /// Returns all of the memory: the bytes that are kept, and zeros.
    pub fn memory(&self) -> &[u8]
        ensures { result.now ≡ self.now ++ replicate (512 - length self.now) 0 }
    {
        self.bytes.as_slice()
    }
}
