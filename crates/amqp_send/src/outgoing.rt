//! The message that is being sent, frame by frame [2.6.14].
ghost use Rattle.std.specs.Prelude.{◌≡◌, ◌≤◌, ◌+◌, ◌++◌, length, min, drop, take, Some, None, if◌then◌else◌, IsFalse, true, false};
ghost use Rattle.amqp_perform.specs.Said.{said_frame};
ghost use Rattle.amqp_send.specs.Flows as flows;
ghost use Rattle.amqp_send.specs.Sendings as spec;
ghost use Rattle.amqp_send.specs.Sendings.{Message, frame, is_last, next_frame, left_of, heads_of, may_go, transfer_said};

use crate::flow_state::FlowState;
use crate::frames::transfer;
use crate::laws::lengths_of_frames;
use crate::output::{CONTINUATION_HEAD, Output};
use std::alloc::{Allocator, Global};
use std::marker::Model;

/// No transfer is longer than this without its payload, in bytes.
const HEAD_MOST: usize = 64;

/// A message, and how much of it is in frames.
#[derive(Drop)]
pub struct Outgoing<A: Allocator + Copy = Global> {
    bytes: Vec<u8, A>,
    /// This many bytes are in frames.
    at: usize,
    /// The first frame is written.
    begun: bool,
}

impl<A: Allocator + Copy> Model for Outgoing<A> {
    ghost use Rattle.std.specs.Prelude.{◌≤◌, length, drop};
    ghost use Rattle.amqp_send.specs.Sendings.{Message};

    ghost Value = { Message };

    ghost view = { λ a. record { rest = drop a.at a.bytes.items; begun = a.begun } };

    ghost invariant = { λ a. a.at ≤ length a.bytes.items };
}

/// How much of a message goes into its next frame.
#[derive(Clone, Copy)]
pub struct Part {
    pub len: usize,
    /// No frame follows.
    pub last: bool,
}

impl<A: Allocator + Copy> Outgoing<A> {
    /// Makes a message of which no frame is written.
    pub fn new(bytes: Vec<u8, A>) -> Self
        ensures { result ≡ record { rest = bytes.items; begun = false } }
    {
        Outgoing {
            bytes,
            at: 0,
            begun: false,
        }
    }

    /// Returns what is in no frame yet.
    fn rest(&self) -> &[u8]
        ensures { result.now ≡ self.now.rest }
    {
        &self.bytes[self.at..]
    }

    /// Returns whether its first frame is written.
    fn is_begun(&self) -> bool
        ensures { result ≡ self.now.begun }
    {
        self.begun
    }

    /// Counts `len` more bytes as written in a frame.
    fn advance(&mut self, len: usize)
        requires { len ≤ length self.old.rest }
        ensures { self.new ≡ record { rest = drop len self.old.rest; begun = true } }
    {
        self.at += len;
        self.begun = true;
    }
}

/// Whether what is left of the message fits one frame.
fn is_last<A: Allocator + Copy>(
    message: &Outgoing<A>,
    flow: FlowState,
    output: &mut Output<A>,
) -> bool
    ensures value { result ≡ is_last flow message.now }
    ensures same { output.new ≡ output.old }
{
    lengths_of_frames();
    let most = flow.most();
    if message.rest().len() + HEAD_MOST <= most {
        return true;
    }
    let tag = flow.delivery_id.to_be_bytes();
    let last = transfer(flow.delivery_id, &tag, message.is_begun(), false);
    output.measure(&last, message.rest(), most).is_some()
}

/// Returns how long the next frame is without its payload, if more follow; at most the longest frame.
fn head_len_of<A: Allocator + Copy>(
    message: &Outgoing<A>,
    flow: FlowState,
    output: &mut Output<A>,
) -> usize
    ensures len { result ≡ min (length (frame (transfer_said flow.delivery_id message.now.begun true))) (flows.most flow) }
    ensures same { output.new ≡ output.old }
{
    let most = flow.most();
    if message.is_begun() {
        return CONTINUATION_HEAD.len().min(most);
    }
    let tag = flow.delivery_id.to_be_bytes();
    let head = transfer(flow.delivery_id, &tag, false, true);
    output.measure(&head, &[], most).unwrap_or(most)
}

/// Returns how much of the message goes into its next frame: all that is left if that fits one, and else as much
/// as fills one that more follow.
fn share<A: Allocator + Copy>(
    message: &Outgoing<A>,
    flow: FlowState,
    output: &mut Output<A>,
) -> Part
    ensures len { result.len ≡ spec.share flow message.now }
    ensures last { result.last ≡ is_last flow message.now }
    ensures same { output.new ≡ output.old }
{
    if is_last(message, flow, output) {
        return Part {
            len: message.rest().len(),
            last: true,
        };
    }
    let most = flow.most();
    let head_len = head_len_of(message, flow, output);
    Part {
        len: most - head_len,
        last: false,
    }
}

/// Whether there may be room for the next frame: a frame that more follow is as long as a frame may be, and the last
/// one is no shorter than what is left.
fn may_fit<A: Allocator + Copy>(message: &Outgoing<A>, flow: FlowState, output: &Output<A>) -> bool
    requires { 512 ≤ flow.max_frame_size }
    ensures { IsFalse result → spec.fits output.now (next_frame flow message.now) ≡ false }
{
    lengths_of_frames();
    let least = flow.most().min(message.rest().len());
    least <= output.room()
}

/// Appends the frame with this share of the message to the output, if there is room; returns whether there is.
fn put_part<A: Allocator + Copy>(
    message: &Outgoing<A>,
    flow: FlowState,
    part: Part,
    output: &mut Output<A>,
) -> bool
    requires least { 512 ≤ flow.max_frame_size }
    requires len { part.len ≡ spec.share flow message.now }
    requires last { part.last ≡ is_last flow message.now }
    ensures fits { result ≡ spec.fits output.old (next_frame flow message.now) }
    ensures new { output.new ≡ spec.put output.old (next_frame flow message.now) }
{
    lengths_of_frames();
    let payload = &message.rest()[..part.len];
    let begun = message.is_begun();
    if begun && !part.last {
        return output.put_continuation(payload);
    }
    let tag = flow.delivery_id.to_be_bytes();
    let frame = transfer(flow.delivery_id, &tag, begun, !part.last);
    output.put(&frame, payload)
}

/// Writes the next frame of the message into the output, if it may be written.
///
/// It may be if there is a place in the window, room in the output and, for a first frame, credit. Returns whether
/// that is so, and whether the whole message is in frames now. If it is not so, nothing changes.
pub fn write_frame_of<A: Allocator + Copy>(
    message: &mut Outgoing<A>,
    flow: &mut FlowState,
    output: &mut Output<A>,
) -> (bool, bool)
    requires { 512 ≤ flow.old.max_frame_size }
    ensures goes { result.0 ≡ may_go flow.old output.old message.old }
    ensures output { output.new ≡ spec.output_behind flow.old output.old message.old }
    ensures flow { flow.new ≡ spec.flow_behind flow.old output.old message.old }
    ensures left { (if result.1 then None else Some message.new) ≡ spec.message_behind flow.old output.old message.old }
{
    lengths_of_frames();
    let begun = message.is_begun();
    if !begun && flow.credit() == 0 || flow.window() == 0 {
        return (false, false);
    }
    if !may_fit(message, *flow, output) {
        return (false, false);
    }
    let part = share(message, *flow, output);
    if !put_part(message, *flow, part, output) {
        return (false, false);
    }
    *flow = flow.transferred(if begun { 0 } else { 1 });
    if part.last {
        return (true, true);
    }
    message.advance(part.len);
    (true, false)
}
