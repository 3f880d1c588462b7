//! What was written to the peer in one step.

ghost use Rattle.std.specs.Prelude.{◌≡◌, ◌≤◌, [], IfOk};

use std::alloc::{AllocError, Global};
use std::marker::Model;

/// How many bytes of a step's answers are kept.
pub const MOST: usize = 16_384;

/// Bytes that were written and not yet shown.
#[derive(Drop)]
pub struct Answers {
    bytes: Vec<u8>,
}

impl Model for Answers {
    ghost use Rattle.std.specs.Prelude.{List, ℕ, ◌≤◌, length};

    ghost Value = { List ℕ };

    ghost view = { λ answers. answers.bytes.items };

    ghost invariant = { λ answers. length answers.bytes.items ≤ 16384 };
}

impl Answers {
    /// Makes an empty buffer. It takes memory for all bytes that may be kept, and none after that.
    pub fn new(alloc: Global) -> Result<Answers, AllocError>
        ensures { IfOk result (λ answers. answers ≡ []) }
    {
        Ok(Answers {
            bytes: Vec::with_capacity(alloc, MOST)?,
        })
    }

    /// Returns whether there is room for `count` more.
    pub fn has_room(&self, count: usize) -> bool {
        count <= MOST.saturating_sub(self.bytes.len())
    }

    /// Keeps bytes, as far as there is room for them.
    pub fn put(&mut self, bytes: &[u8]) -> Result<(), AllocError> {
        let count = bytes.len().min(MOST.saturating_sub(self.bytes.len()));
        self.bytes.extend_from_slice(&bytes[..count])
    }

    /// Drops all.
    pub fn clear(&mut self)
        ensures { self.new ≡ [] }
    {
        self.bytes.clear();
    }

    /// Returns how many bytes are kept.
    pub fn len(&self) -> usize
        ensures { result ≤ 16384 }
    {
        self.bytes.len()
    }

    pub fn as_slice(&self) -> &[u8]
        ensures { result.now ≡ self.now }
    {
        &self.bytes
    }
}
