//! The bytes of the header that are kept.
ghost use Rattle.std.specs.Prelude.{◌≡◌, ◌<◌, ◌≤◌, ◌++◌, [], ◌∷◌, length};

use std::marker::Model;

/// How many bytes may be kept: those of the longest header.
pub const MOST_KEPT: usize = 536;

/// Bytes that are kept.
#[derive(Drop)]
pub struct Held {
    len: usize,
    bytes: [u8; MOST_KEPT],
}

impl Model for Held {
    ghost use Rattle.std.specs.Prelude.{ℕ, List, ◌≤◌, take};

    ghost Value = { List ℕ };

    ghost view = { λ a. take a.len a.bytes };

    ghost invariant = { λ a. a.len ≤ 536 };
}

impl Held {
    /// Makes one that keeps nothing.
    pub fn new() -> Self
        ensures { result ≡ [] }
    {
        Held {
            len: 0,
            bytes: [0; MOST_KEPT],
        }
    }

    /// Returns how many bytes are kept.
    pub fn len(&self) -> usize
        ensures value { result ≡ length self.now }
        ensures most { result ≤ 536 }
    {
        self.len
    }

    /// Keeps one more byte.
    pub fn push(&mut self, byte: u8)
        requires { length self.old < 536 }
        ensures { self.new ≡ self.old ++ byte ∷ [] }
    {
        self.bytes[self.len] = byte;
        self.len += 1;
    }

    /// Keeps nothing any more.
    pub fn clear(&mut self)
        ensures { self.new ≡ [] }
    {
        self.len = 0;
    }

    /// Returns the bytes that are kept.
    pub fn as_slice(&self) -> &[u8]
        ensures value { result.now ≡ self.now }
        ensures most { length result.now ≤ 536 }
    {
        &self.bytes[..self.len]
    }
}
