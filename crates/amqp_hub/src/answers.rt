//! Answers that wait in memory.
ghost use Rattle.std.specs.Prelude.{◌≡◌, ◌^◌, ◌-◌, Some};
ghost use Rattle.amqp_hub.specs.Members.{answered};

use amqp_frame::HoldsBack;
use std::alloc::{Allocator, Global};
use std::io::{self, Write};

/// A writer to memory. It passes nothing on, so no record needs to be flushed before a write to it.
#[derive(Drop)]
pub struct Answers<A: Allocator = Global> {
    bytes: Vec<u8, A>,
}

impl<A: Allocator> Answers<A> {
    /// Makes a writer that holds these bytes.
    pub fn new(bytes: Vec<u8, A>) -> Self
        ensures { answered result ≡ bytes.items }
    {
        Answers { bytes }
    }

    /// Returns all bytes that it holds.
    pub fn into_bytes(self) -> Vec<u8, A>
        ensures { result.items ≡ answered self }
    {
        self.bytes
    }
}

impl<A: Allocator> Write for Answers<A> {
    ghost contents = { λ w. Some (answered w) };

    fn write(&mut self, buf: &[u8]) -> io::Result<usize> {
        self.bytes.write(buf)
    }

    fn flush(&mut self) -> io::Result<()> {
        Ok(())
    }
}

impl<A: Allocator> HoldsBack for Answers<A> {
    ghost room = { λ _. 2 ^ 64 - 1 };

    fn holds_back(&self) -> usize {
        usize::MAX
    }
}
