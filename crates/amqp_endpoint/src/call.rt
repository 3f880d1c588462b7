//! Calls of an endpoint and their answers, as data.
use crate::event::{End, Fed};
use crate::fault::CallFault;
use amqp_link::Taken;
use amqp_perform::Outcome;
use amqp_reason::Reason;
use std::alloc::{Allocator, Global};

/// A call of an [`Endpoint`](crate::Endpoint).
#[derive(Clone, Copy, Debug)]
pub enum Call<'a> {
    /// The peer's bytes.
    Feed(&'a [u8]),
    /// The link gets `n` more places of credit.
    Grant {
        channel: u16,
        handle: u32,
        n: u32,
    },
    /// The session's window gets `n` more places.
    Widen {
        channel: u16,
        n: u32,
    },
    /// The link's sender is asked to use its credit up.
    Drain {
        channel: u16,
        handle: u32,
    },
    /// The link's first ready delivery is handed up.
    Take {
        channel: u16,
        handle: u32,
    },
    /// A delivery is settled with this outcome.
    Settle {
        channel: u16,
        id: u32,
        outcome: Outcome,
    },
    /// The deliveries with the ids from `first` to `last` are settled with this outcome.
    SettleRange {
        channel: u16,
        first: u32,
        last: u32,
        outcome: Outcome,
    },
    /// The link is ended.
    Detach {
        channel: u16,
        handle: u32,
    },
    /// The link is ended with an error.
    Refuse {
        channel: u16,
        handle: u32,
        reason: Reason<'a>,
    },
    /// A delivery is rejected with an error.
    SettleWith {
        channel: u16,
        id: u32,
        reason: Reason<'a>,
    },
    /// The deliveries with the ids from `first` to `last` are rejected with an error.
    SettleRangeWith {
        channel: u16,
        first: u32,
        last: u32,
        reason: Reason<'a>,
    },
    /// The connection is closed.
    Close,
    /// The connection is closed with an error.
    CloseWith(Reason<'a>),
    /// An empty frame is written.
    Heartbeat,
    /// At most this many bytes are moved out.
    Output(u32),
    /// The bytes held.
    Held,
    /// The input has ended.
    Finish,
}

/// The answer to a [`Call`].
#[derive(Drop)]
pub enum Answer<A: Allocator + Copy = Global> {
    /// The answer to a feed.
    Fed(Fed),
    /// The answer to a grant, a widening, a drain, a settle and a heartbeat that is not refused.
    Accepted,
    /// The answer to a detach, a refusal of a link and a close that is not refused: how many ready deliveries were
    /// dropped.
    Dropped(u32),
    /// The answer to a settle of a range that is not refused: how many deliveries were named.
    Named(u32),
    /// The answer to a take that is not refused.
    HandedUp(Taken<A>),
    /// The call was refused, and nothing has changed.
    Refused(CallFault),
    /// The bytes that were moved out.
    MovedOut(Vec<u8, A>),
    /// The bytes held.
    Holds(u64),
    /// How the connection stood at the end of its input.
    Ended(End),
}
