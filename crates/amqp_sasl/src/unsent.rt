//! The bytes that wait for the peer.
ghost use Rattle.std.specs.Prelude.{◌≡◌, ◌<◌, ◌≤◌, ◌+◌, ◌++◌, [], min, length, take, drop};

use std::marker::Model;

/// How many bytes may wait: a header, the mechanisms, a challenge and an outcome. No more is ever written.
pub const MOST_UNSENT: usize = 83;

/// Bytes that wait to be moved out.
#[derive(Drop)]
pub struct Unsent {
    len: usize,
    bytes: [u8; MOST_UNSENT],
}

impl Model for Unsent {
    ghost use Rattle.std.specs.Prelude.{ℕ, List, ◌≤◌, take};

    ghost Value = { List ℕ };

    ghost view = { λ a. take a.len a.bytes };

    ghost invariant = { λ a. a.len ≤ 83 };
}

impl Unsent {
    /// Makes one in which nothing waits.
    pub fn new() -> Self
        ensures { result ≡ [] }
    {
        Unsent {
            len: 0,
            bytes: [0; MOST_UNSENT],
        }
    }

    /// Returns how many bytes wait.
    pub fn len(&self) -> usize
        ensures value { result ≡ length self.now }
        ensures most { result ≤ 83 }
    {
        self.len
    }

    /// Appends bytes, which have to fit.
    pub fn put(&mut self, piece: &[u8])
        requires { length self.old + length piece.now ≤ 83 }
        ensures { self.new ≡ self.old ++ piece.now }
    {
        let end = self.len + piece.len();
        self.bytes[self.len..end].copy_from_slice(piece);
        self.len = end;
    }

    /// Moves the first bytes that wait into `out`, as many as it holds, and returns how many.
    pub fn read_into(&mut self, out: &mut [u8]) -> usize
        ensures count { result ≡ min (length out.old) (length self.old) }
        ensures read { out.new ≡ take result self.old ++ drop result out.old }
        ensures left { self.new ≡ drop result self.old }
    {
        let count = out.len().min(self.len);
        out[..count].copy_from_slice(&self.bytes[..count]);
        self.bytes.copy_within(count..self.len, 0);
        self.len -= count;
        count
    }
}
