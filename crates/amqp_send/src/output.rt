//! What waits to be sent.
ghost use Rattle.std.specs.Prelude.{◌≡◌, ◌≤◌, ◌+◌, ◌++◌, [], true, min, length, take, drop, IfOk, IfSome};
ghost use Rattle.std.specs.Option.{SomeIff};
ghost use Rattle.amqp_perform.specs.Said.{said, said_frame};
ghost use Rattle.amqp_send.specs.Sendings as spec;
ghost use Rattle.amqp_send.specs.Sendings.{pipe_size, frame, later_said, fits};
ghost use Rattle.byteorder.specs.Endian.{big_bytes};

use crate::flow_state::MAX_FRAME_SIZE;
use crate::laws::lengths_of_frames;
use amqp_perform::{Performative, write_frame};
use circular_buffer::HeapCircularBuffer;
use std::alloc::{AllocError, Allocator, Global};
use std::marker::Model;

/// How many bytes may wait.
const PIPE_SIZE: usize = 8192;

/// The frame of a transfer that goes on with a message and that more follow, without its payload.
pub const CONTINUATION_HEAD: [u8; 20] = [
    0, 0, 0, 20, 2, 0, 0, 0, 0, 0x53, 0x14, 0xc0, 7, 6, 0x43, 0x40, 0x40, 0x40, 0x40, 0x41,
];

/// The bytes that wait to be sent, at most 8192, and room in which one frame is put together up to its
/// payload. Only `new` takes memory.
#[derive(Drop)]
pub struct Output<A: Allocator + Copy = Global> {
    pipe: HeapCircularBuffer<u8, A>,
    scratch: Vec<u8, A>,
}

impl<A: Allocator + Copy> Model for Output<A> {
    ghost use Rattle.std.specs.Prelude.{ℕ, List, ◌≡◌, ◌≤◌, length};

    ghost Value = { List ℕ };

    ghost view = { λ a. a.pipe.items };

    ghost invariant = { λ a. (a.pipe.capacity ≡ 8192) × (length a.pipe.items ≤ 8192) × (length a.scratch.items ≡ 4096) };
}

impl<A: Allocator + Copy> Output<A> {
    /// Makes an output in which nothing waits. An error says that memory was refused.
    pub fn new(alloc: A) -> Result<Self, AllocError>
        ensures { IfOk result (λ a. a ≡ []) }
    {
        Ok(Output {
            pipe: HeapCircularBuffer::with_capacity(alloc, PIPE_SIZE)?,
            scratch: Vec::from_elem(alloc, 0, MAX_FRAME_SIZE as usize)?,
        })
    }

    /// Returns how many more bytes may wait.
    pub fn room(&self) -> usize
        ensures { length self.now + result ≡ pipe_size }
    {
        PIPE_SIZE - self.pipe.len()
    }

    /// Appends bytes to those that wait.
    pub fn put_bytes(&mut self, bytes: &[u8])
        requires { length self.old + length bytes.now ≤ pipe_size }
        ensures { self.new ≡ self.old ++ bytes.now }
    {
        self.pipe.fill_from_slice(bytes);
    }

    /// Returns how long a frame would be, if that is at most `most`.
    pub fn measure(
        &mut self,
        performative: &Performative<'_>,
        payload: &[u8],
        most: usize,
    ) -> Option<usize>
        requires { most ≤ 4096 }
        ensures len { SomeIff result (length (said_frame 0 (said performative.now) payload.now) ≤ most) (length (said_frame 0 (said performative.now) payload.now)) }
        ensures same { self.new ≡ self.old }
    {
        lengths_of_frames();
        let head_len = write_head(performative, payload, most, self.scratch.as_mut_slice())?;
        Some(head_len + payload.len())
    }

    /// Appends a frame to the bytes that wait, if there is room for all of it, and returns whether there
    /// is. Without room nothing changes.
    pub fn put(&mut self, performative: &Performative<'_>, payload: &[u8]) -> bool
        requires { length (said_frame 0 (said performative.now) payload.now) ≤ 4096 }
        ensures fits { result ≡ fits self.old (said_frame 0 (said performative.now) payload.now) }
        ensures new { self.new ≡ spec.put self.old (said_frame 0 (said performative.now) payload.now) }
    {
        let most = (PIPE_SIZE - self.pipe.len()).min(MAX_FRAME_SIZE as usize);
        match write_head(performative, payload, most, self.scratch.as_mut_slice()) {
            Some(head_len) => {
                self.pipe.fill_from_slice(&self.scratch[..head_len]);
                self.pipe.fill_from_slice(payload);
                true
            }
            None => false,
        }
    }

    /// Appends a transfer that goes on with a message and that more follow, if there is room for all of it, and
    /// returns whether there is, as [`Output::put`] does. Most frames of a long message are such.
    pub fn put_continuation(&mut self, payload: &[u8]) -> bool
        requires { length (said_frame 0 (later_said true) payload.now) ≤ 4096 }
        ensures fits { result ≡ fits self.old (said_frame 0 (later_said true) payload.now) }
        ensures new { self.new ≡ spec.put self.old (said_frame 0 (later_said true) payload.now) }
    {
        lengths_of_frames();
        let size = CONTINUATION_HEAD.len() + payload.len();
        if size > PIPE_SIZE - self.pipe.len() {
            return false;
        }
        self.pipe.fill_from_slice(&continuation_head(size as u32));
        self.pipe.fill_from_slice(payload);
        true
    }

    /// Appends a frame without payload, for which there is room, to the bytes that wait.
    pub fn append(&mut self, performative: &Performative<'_>)
        requires short { length (frame (said performative.now)) ≤ 4096 }
        requires room { length self.old + length (frame (said performative.now)) ≤ pipe_size }
        ensures { self.new ≡ self.old ++ frame (said performative.now) }
    {
        self.put(performative, &[]);
    }

    /// Moves the first bytes that wait into `out`, as many as it holds, and returns how many.
    pub fn read_into(&mut self, out: &mut [u8]) -> usize
        ensures count { result ≡ min (length out.old) (length self.old) }
        ensures read { out.new ≡ take result self.old ++ drop result out.old }
        ensures left { self.new ≡ drop result self.old }
    {
        self.pipe.read_into(out)
    }
}

/// Returns [`CONTINUATION_HEAD`] for a frame of `size` bytes.
fn continuation_head(size: u32) -> [u8; 20]
    ensures { result ≡ big_bytes 4 size ++ drop 4 (frame (later_said true)) }
{
    let mut head = CONTINUATION_HEAD;
    head[..4].copy_from_slice(&size.to_be_bytes());
    head
}

/// Writes a frame up to its payload at the front of `out`, and returns how many bytes that is; `None` if the
/// frame with its payload is longer than `most`. No byte of the payload is read.
fn write_head(
    performative: &Performative<'_>,
    payload: &[u8],
    most: usize,
    out: &mut [u8],
) -> Option<usize>
    requires most { most ≤ 4096 }
    requires room { 4096 ≤ length out.old }
    ensures len { SomeIff result (length (said_frame 0 (said performative.now) payload.now) ≤ most) (length (frame (said performative.now))) }
    ensures written { IfSome result (λ n. take n out.new ++ payload.now ≡ said_frame 0 (said performative.now) payload.now) }
{
    lengths_of_frames();
    if payload.len() > most {
        return None;
    }
    match write_frame(0, performative, &[], out) {
        Some(head_len) if head_len + payload.len() <= most => {
            let size = (head_len + payload.len()) as u32;
            out[..4].copy_from_slice(&size.to_be_bytes());
            Some(head_len)
        }
        _ => None,
    }
}
