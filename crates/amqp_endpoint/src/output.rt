//! The bytes that wait to be moved out.
ghost use Rattle.std.specs.Prelude.{◌≡◌, ◌<◌, ◌≤◌, ◌+◌, ◌++◌, ◌↔◌, ℕ, List, [], min, length, take, drop, IfOk, IsTrue};
ghost use Rattle.amqp_perform.specs.Said.{said, said_frame};
ghost use Rattle.amqp_endpoint.specs.Sayings.{said_of};
ghost use Rattle.amqp_endpoint.specs.Lengths.{said_most};
ghost use Rattle.circular_buffer.specs.Buffer.{buffer};
ghost use Rattle.amqp_endpoint.specs.Calls.{output_size, reply_room, has_room, heartbeat};
ghost use Rattle.amqp_perform.specs.Frames.{IsWritten};

use crate::laws::frames_are_as_long;
use amqp_link::LinkBounds;
use amqp_perform::{
    Attach, Detach, Flow, LinkFlow, Outcome, Performative, write_flow, write_frame,
    write_link_flow, write_settlement,
};
use amqp_session::write_attach_reply;
use circular_buffer::HeapCircularBuffer;
use std::alloc::{AllocError, Allocator, Global};
use std::marker::Model;

/// The most bytes that may wait.
const OUTPUT_SIZE: usize = 8192;

/// The number of bytes that have to be free before an answer is begun. No answer is longer.
const REPLY_ROOM: usize = 2560;

/// An empty frame on channel 0 [2.4.5].
const HEARTBEAT: [u8; 8] = [0, 0, 0, 8, 2, 0, 0, 0];

/// The bytes that wait to be moved out, at most 8192, and room in which a frame is built. Only `new` takes
/// memory.
#[derive(Drop)]
pub struct Output<A: Allocator + Copy = Global> {
    pipe: HeapCircularBuffer<u8, A>,
    scratch: [u8; REPLY_ROOM],
}

impl<A: Allocator + Copy> Model for Output<A> {
    ghost use Rattle.std.specs.Prelude.{ℕ, List, ◌≡◌, ◌≤◌, length};

    ghost Value = { List ℕ };

    ghost view = { λ a. a.pipe.items };

    ghost invariant = { λ a. (a.pipe.capacity ≡ 8192) × (length a.pipe.items ≤ 8192) };
}

impl<A: Allocator + Copy> Output<A> {
    /// Makes an output in which nothing waits. It is an error if memory is refused.
    pub fn new(alloc: A) -> Result<Self, AllocError>
        ensures { IfOk result (λ a. a ≡ []) }
    {
        Ok(Output {
            pipe: HeapCircularBuffer::with_capacity(alloc, OUTPUT_SIZE)?,
            scratch: [0; REPLY_ROOM],
        })
    }

    /// Returns how many bytes wait.
    pub fn len(&self) -> usize
        ensures value { result ≡ length self.now }
        ensures most { result ≤ output_size }
    {
        let Output { pipe, scratch: _ } = self;
        pipe.len()
    }

    /// Returns whether no bytes wait.
    pub fn is_empty(&self) -> bool
        ensures { IsTrue result ↔ (self.now ≡ []) }
    {
        self.pipe.is_empty()
    }

    /// Returns whether there is room for any answer: 2560 free bytes.
    pub fn has_room(&self) -> bool
        ensures value { result ≡ has_room self.now }
        ensures room { IsTrue result ↔ (length self.now + reply_room ≤ output_size) }
    {
        self.pipe.len() <= OUTPUT_SIZE - REPLY_ROOM
    }

    /// Appends bytes to those that wait.
    pub fn put_bytes(&mut self, bytes: &[u8])
        requires { length self.old + length bytes.now ≤ output_size }
        ensures { self.new ≡ self.old ++ bytes.now }
    {
        self.pipe.fill_from_slice(bytes);
    }

    /// Appends the frame of a performative without payload.
    pub fn say(&mut self, channel: u16, performative: &Performative<'_>)
        requires short { said_most (said performative.now) ≤ reply_room }
        requires room { length self.old + said_most (said performative.now) ≤ output_size }
        ensures new { self.new ≡ self.old ++ said_frame channel (said performative.now) [] }
        ensures most { length self.new ≤ length self.old + said_most (said performative.now) }
    {
        frames_are_as_long();
        self.put(channel, &Saying::Performative(performative));
    }

    /// Appends the frame of what is said, which has to fit. Every frame is written here but an empty one, for
    /// which there is [`Output::beat`].
    // Inlined for `telemetry` and `gateway` (docs/PERF.md).
    #[inline(always)]
    pub fn put(&mut self, channel: u16, saying: &Saying<'_>)
        requires short { length (said_frame channel (said_of saying.now) []) ≤ reply_room }
        requires room { length self.old + length (said_frame channel (said_of saying.now) []) ≤ output_size }
        ensures { self.new ≡ self.old ++ said_frame channel (said_of saying.now) [] }
    {
        if let Some(len) = saying.write(channel, &mut self.scratch) {
            put_front(&mut self.pipe, &self.scratch, len);
        }
    }

    /// Appends an empty frame.
    pub fn beat(&mut self)
        requires { length self.old + 8 ≤ output_size }
        ensures { self.new ≡ self.old ++ heartbeat }
    {
        self.pipe.fill_from_slice(HEARTBEAT.as_slice());
    }

    /// Returns the first bytes that wait, as many as lie in one piece: at least one if any wait.
    pub fn front(&self) -> &[u8]
        ensures front { (behind : List ℕ) × (self.now ≡ result.now ++ behind) }
        ensures some { 0 < length self.now → 0 < length result.now }
    {
        let (front, behind) = self.pipe.as_slices();
        if front.is_empty() { behind } else { front }
    }

    /// Drops the first `n` bytes that wait.
    pub fn drop_front(&mut self, n: usize)
        requires { n ≤ length self.old }
        ensures { self.new ≡ drop n self.old }
    {
        let left = self.pipe.len() - n;
        // Nearly always all were sent, and a cleared ring begins at its front again.
        if left == 0 {
            self.pipe.clear();
        } else {
            self.pipe.truncate_front(left);
        }
    }

    /// Moves the first bytes that wait into `out`, as many as it holds, and returns how many.
    pub fn read_into(&mut self, out: &mut [u8]) -> usize
        ensures count { result ≡ min (length out.old) (length self.old) }
        ensures read { out.new ≡ take result self.old ++ drop result out.old }
        ensures left { self.new ≡ drop result self.old }
    {
        self.pipe.read_into(out)
    }
}

/// Appends the first `len` bytes of `scratch` to those that wait. The ring copies 32 bytes at a time, and a
/// rest in small steps. So the length is rounded up to a multiple of 32, and the excess is dropped again.
fn put_front<A: Allocator>(
    pipe: &mut HeapCircularBuffer<u8, A>,
    scratch: &[u8; REPLY_ROOM],
    len: usize,
)
    requires short { len ≤ reply_room }
    requires room { length pipe.old.items + len ≤ pipe.old.capacity }
    ensures { pipe.new ≡ buffer (pipe.old.items ++ take len scratch.now) pipe.old.capacity }
{
    let end = pipe.len() + len;
    let rounded = (len + 31) / 32 * 32;
    pipe.fill_from_slice(&scratch[..rounded]);
    pipe.truncate_back(end);
}

/// What is said in one frame. The variants that come with each message have only numbers, so that no
/// performative is made of them.
#[derive(Clone, Copy)]
pub enum Saying<'a> {
    /// Any performative.
    Performative(&'a Performative<'a>),
    /// The answer to an accepted attach, whose link has these bounds [2.6.3].
    Attached(&'a Attach<'a>, LinkBounds),
    /// A flow [2.7.4].
    Flow(Flow<'static>),
    /// The flow that states a link's credit [2.6.7].
    Credit(LinkFlow),
    /// The disposition that says what became of the deliveries with the ids from `first` to `last` [2.7.6].
    Settled {
        first: u32,
        last: u32,
        settled: bool,
        outcome: Outcome,
    },
    /// A detach [2.7.7].
    Detach(Detach<'static>),
}

impl<'a> Saying<'a> {
    /// Writes the frame at the front of `out`. Returns its length in bytes; `None`, with `out` unchanged, if it
    /// does not fit.
    // Inlined: the match falls away if the variant is known.
    #[inline(always)]
    fn write(&self, channel: u16, out: &mut [u8]) -> Option<usize>
        ensures { IsWritten (said_frame channel (said_of self.now) []) result out.old out.new }
    {
        match self {
            Saying::Performative(performative) => write_frame(channel, performative, &[], out),
            Saying::Attached(attach, bounds) => write_attach_reply(channel, attach, *bounds, out),
            Saying::Flow(flow) => write_flow(channel, flow, &[], out),
            Saying::Credit(flow) => write_link_flow(channel, *flow, out),
            Saying::Settled {
                first,
                last,
                settled,
                outcome,
            } => write_settlement(channel, *first, *last, *settled, *outcome, out),
            Saying::Detach(detach) => {
                write_frame(channel, &Performative::Detach(*detach), &[], out)
            }
        }
    }
}
