//! A message, while it comes and after it was handed up.
ghost use Rattle.std.specs.Prelude.{◌≡◌, ◌<◌, ◌^◌, ◌++◌, ℕ, List, length, drop, IfOk, IsErr, IsOk, OnOk, OnErr, IsTrue, ◌↔◌, [], false, take};
ghost use Rattle.std.specs.Io.KnownBytes.{Appends};
ghost use Rattle.amqp_frame.specs.Devices.{device_inner, has_failed, has_ended, is_flushed, reads_left, AppendsFront};

use crate::blocks::{Blocks, PIECE};
use amqp_frame::Device;
use std::alloc::{AllocError, Allocator, Global};
use std::io::{self, Write};
use std::marker::Model;

/// The bytes of a message, joined from the payloads of its transfers [2.6.14].
#[derive(Drop)]
pub struct Message<A: Allocator + Copy = Global> {
    blocks: Blocks<A>,
}

impl<A: Allocator + Copy> Model for Message<A> {
    ghost use Rattle.std.specs.Prelude.{ℕ, List, ◌<◌, ◌^◌, length};

    ghost Value = { List ℕ };

    ghost view = { λ a. a.blocks.bytes };
}

impl<A: Allocator + Copy> Message<A> {
    /// Returns an empty message.
    pub(crate) fn new(alloc: A) -> Self
        ensures { result ≡ [] }
    {
        Message {
            blocks: Blocks::new(alloc),
        }
    }

    /// Makes a message of these bytes. It is an error if memory is refused.
    pub(crate) fn of(alloc: A, bytes: &[u8]) -> Result<Self, AllocError>
        ensures { IfOk result (λ message. message ≡ bytes.now) }
    {
        let blocks = Blocks::of(alloc, bytes)?;
        Ok(Message { blocks })
    }

    /// Returns the length of the message, in bytes.
    pub fn len(&self) -> usize
        ensures { result ≡ length self.now }
    {
        self.blocks.len()
    }

    /// Returns the length of the message, in bytes. It is below 2^63, so that a sum with others fits.
    pub(crate) fn size(&self) -> u64
        ensures value { result ≡ length self.now }
        ensures most { result < 2 ^ 63 }
    {
        self.blocks.len() as u64
    }

    /// Returns whether the message is empty.
    pub fn is_empty(&self) -> bool
        ensures { IsTrue result ↔ (self.now ≡ []) }
    {
        self.blocks.len() == 0
    }

    /// Appends a payload. If memory is refused, nothing has changed. An empty payload needs none.
    pub(crate) fn extend(&mut self, payload: &[u8]) -> Result<(), AllocError>
        ensures ok { OnOk result (self.new ≡ self.old ++ payload.now) }
        ensures err { OnErr result (self.new ≡ self.old) }
        ensures empty { payload.now ≡ [] → IsOk result }
    {
        self.blocks.extend(payload)
    }

    /// Returns the message's bytes from `at` on, as many as lie in one piece. There is at least one if `at` is
    /// before the end, else none.
    pub fn piece(&self, at: usize) -> &[u8]
        ensures front { (behind : List ℕ) × (drop at self.now ≡ result.now ++ behind) }
        ensures some { at < length self.now → 0 < length result.now }
    {
        first(self.blocks.from(at), PIECE - at % PIECE)
    }

    /// Returns the message's bytes in a new vector. It is an error if memory is refused.
    pub fn to_vec<B: Allocator>(&self, alloc: B) -> Result<Vec<u8, B>, AllocError>
        ensures { IfOk result (λ v. v.items ≡ self.now) }
    {
        let mut bytes = Vec::with_capacity(alloc, self.len())?;
        for index in 0..self.blocks.followed() {
            bytes.extend_from_slice(self.blocks.block(index))?;
        }
        bytes.extend_from_slice(self.blocks.last())?;
        Ok(bytes)
    }

    /// Writes the message's bytes to the device.
    ///
    /// It is an error exactly if the device is then marked as failed: a write failed, was interrupted, or took
    /// no byte. The writer is then not called again, and what was written is a beginning of the message.
    pub fn write_to<W: Write>(&self, writer: &mut Device<W>) -> io::Result<()>
        ensures marked { IsErr result ↔ IsTrue (has_failed writer.new) }
        ensures ok { OnOk result (Appends (W.contents (device_inner writer.old)) (W.contents (device_inner writer.new)) self.now) }
        ensures err { OnErr result (AppendsFront (W.contents (device_inner writer.old)) (W.contents (device_inner writer.new)) self.now) }
        ensures unflushed { 0 < length self.now → OnOk result (is_flushed writer.new ≡ false) }
        ensures ended { has_ended writer.new ≡ has_ended writer.old }
        ensures reads { reads_left writer.new ≡ reads_left writer.old }
        ensures still { IsTrue (has_failed writer.old) → writer.new ≡ writer.old }
        ensures empty { length self.now ≡ 0 → writer.new ≡ writer.old }
    {
        for index in 0..self.blocks.followed() {
            writer.write_all(self.blocks.block(index))?;
        }
        writer.write_all(self.blocks.last())
    }
}

/// Returns the first `most` of these bytes, or all if they are fewer.
fn first(bytes: &[u8], most: usize) -> &[u8]
    ensures { result.now ≡ take most bytes.now }
{
    bytes.get(..most).unwrap_or(bytes)
}
