//! Bytes that wait in memory until their host moves them out.
ghost use Rattle.std.specs.Prelude.{◌≡◌, ◌==◌, ◌++◌, ◌^◌, ◌-◌, [], min, length, take, drop, Some, IfOk, OnErr, IsOk};
ghost use Rattle.std.specs.Io.{WritesAtMost};
ghost use Rattle.std.specs.Io.KnownBytes.{Keeps, WriteAppends};
ghost use Rattle.wuleshomia.specs.Waiting.{gathered, NeedsMemory};

use amqp_frame::HoldsBack;
use std::alloc::Global;
use std::io::{self, Write};
use std::marker::Model;
use std::mem;

/// How many bytes of memory are kept once what was in them was moved out; more is given back.
const KEPT: usize = 8192;

/// Bytes that wait.
#[derive(Drop)]
pub struct Waiting {
    bytes: Vec<u8>,
    /// How many of them were moved out.
    at: usize,
}

impl Model for Waiting {
    ghost use Rattle.std.specs.Prelude.{ℕ, List, ◌≤◌, length, drop};

    ghost Value = { List ℕ };

    ghost view = { λ w. drop w.at w.bytes.items };

    ghost invariant = { λ w. w.at ≤ length w.bytes.items };
}

impl Waiting {
    /// Makes bytes that wait.
    pub fn of(bytes: Vec<u8>) -> Self
        ensures { result ≡ bytes.items }
    {
        Waiting { bytes, at: 0 }
    }

    /// Returns how many they are.
    pub fn len(&self) -> usize
        ensures { result ≡ length self.now }
    {
        self.bytes.len() - self.at
    }

    /// Moves the first of them into `room`, as many as fit, and returns how many.
    pub fn move_into(&mut self, alloc: Global, room: &mut [u8]) -> usize
        ensures count { result ≡ min (length room.old) (length self.old) }
        ensures room { room.new ≡ take result self.old ++ drop result room.old }
        ensures left { self.new ≡ drop result self.old }
    {
        let count = room.len().min(self.len());
        room[..count].copy_from_slice(&self.bytes[self.at..self.at + count]);
        self.at += count;
        if self.at == self.bytes.len() {
            *self = Waiting::of(self.emptied(alloc));
        }
        count
    }

    /// Drops what waits, and returns an empty vector, with the memory of these bytes if that is little.
    pub fn emptied(&mut self, alloc: Global) -> Vec<u8>
        ensures room { result.items ≡ [] }
        ensures left { self.new ≡ [] }
    {
        let mut bytes = mem::replace(&mut self.bytes, Vec::new(alloc));
        self.at = 0;
        if bytes.capacity() > KEPT {
            return Vec::new(alloc);
        }
        bytes.clear();
        bytes
    }
}

/// A writer to memory. It passes nothing on, so no record needs to be flushed before a write to it.
#[derive(Drop)]
pub struct Gathered {
    bytes: Vec<u8>,
}

impl Gathered {
    /// Makes a writer that holds these bytes.
    pub fn new(bytes: Vec<u8>) -> Self
        ensures { gathered result ≡ bytes.items }
    {
        Gathered { bytes }
    }

    /// Returns all bytes that it holds.
    pub fn into_bytes(self) -> Vec<u8>
        ensures { result.items ≡ gathered self }
    {
        self.bytes
    }
}

impl Write for Gathered {
    ghost contents = { λ w. Some (gathered w) };

    /// Writes all bytes, or none if memory for them is refused.
    fn write(&mut self, buf: &[u8]) -> io::Result<usize>
        ensures bound { WritesAtMost result buf.now }
        ensures bytes { WriteAppends (Some (gathered self.old)) (Some (gathered self.new)) result buf.now }
        ensures all { IfOk result (λ n. n ≡ length buf.now) }
        ensures refused { OnErr result (NeedsMemory self.old buf.now) }
    {
        self.bytes.extend_from_slice(buf)?;
        Ok(buf.len())
    }

    fn flush(&mut self) -> io::Result<()>
        ensures bytes { Keeps (Some (gathered self.old)) (Some (gathered self.new)) }
        ensures ok { IsOk result }
    {
        Ok(())
    }
}

impl HoldsBack for Gathered {
    ghost room = { λ _. 2 ^ 64 - 1 };

    fn holds_back(&self) -> usize {
        usize::MAX
    }
}
