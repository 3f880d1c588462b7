//! The bytes of the peer that are kept: the frame of its `sasl-init` once it is whole, and what came of a header or a frame since.
ghost use Rattle.std.specs.Prelude.{◌≡◌, ◌<◌, ◌≤◌, ◌+◌, ◌-◌, ◌++◌, [], ◌∷◌, length, replicate};

use crate::held::{Held, MOST_KEPT};
use std::marker::Model;

/// Bytes that are kept.
#[derive(Drop)]
pub struct Kept {
    /// How many of them are the frame of the `sasl-init`.
    split: usize,
    held: Held,
}

impl Model for Kept {
    ghost use Rattle.std.specs.Prelude.{◌≤◌, length, take, drop};
    ghost use Rattle.amqp_sasl.specs.Frames.{KeptState};

    ghost Value = { KeptState };

    ghost view = { λ a. record { init = take a.split a.held; rest = drop a.split a.held } };

    ghost invariant = { λ a. a.split ≤ length a.held };
}

impl Kept {
    /// Makes one that keeps nothing.
    pub fn new() -> Self
        ensures init { result.init ≡ [] }
        ensures rest { result.rest ≡ [] }
    {
        Kept {
            split: 0,
            held: Held::new(),
        }
    }

    /// Returns how many bytes are kept.
    pub fn len(&self) -> usize
        ensures value { result ≡ length self.now.init + length self.now.rest }
        ensures most { result ≤ 512 }
    {
        self.held.len()
    }

    /// Returns how many bytes may still be kept.
    pub fn room(&self) -> usize
        ensures { result ≡ 512 - length self.now.init }
    {
        MOST_KEPT - self.init().len()
    }

    /// Keeps one more byte.
    pub fn push(&mut self, byte: u8)
        requires { length self.old.init + length self.old.rest < 512 }
        ensures init { self.new.init ≡ self.old.init }
        ensures rest { self.new.rest ≡ self.old.rest ++ byte ∷ [] }
    {
        self.held.push(byte);
    }

    /// Takes all that is kept as the frame of the `sasl-init`.
    pub fn split_off(&mut self)
        requires { self.old.init ≡ [] }
        ensures init { self.new.init ≡ self.old.rest }
        ensures rest { self.new.rest ≡ [] }
    {
        self.split = self.held.len();
    }

    /// Overwrites all that is kept by zeros, and keeps nothing.
    pub fn wipe(&mut self)
        ensures init { self.new.init ≡ [] }
        ensures rest { self.new.rest ≡ [] }
    {
        self.held.wipe();
        self.split = 0;
    }

    /// Returns the frame of the `sasl-init`.
    pub fn init(&self) -> &[u8]
        ensures value { result.now ≡ self.now.init }
        ensures most { length result.now ≤ 512 }
    {
        &self.held.as_slice()[..self.split]
    }

    /// Returns the other bytes.
    pub fn rest(&self) -> &[u8]
        ensures { result.now ≡ self.now.rest }
    {
        &self.held.as_slice()[self.split..]
    }

    /// Returns all of the memory: the bytes that are kept, and zeros.
    pub fn memory(&self) -> &[u8]
        ensures { result.now ≡ (self.now.init ++ self.now.rest) ++ replicate (512 - (length self.now.init + length self.now.rest)) 0 }
    {
        self.held.memory()
    }
}
