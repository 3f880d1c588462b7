//! Turns of a hub whose keeper is a ledger, and their answers, as data.
use crate::HubFault;
use crate::keeper::Progress;
use amqp_endpoint::End;
use amqp_serve::{Rule, Stepped};
use std::alloc::{Allocator, Global};

/// One turn of a hub.
#[derive(Clone, Copy, Debug)]
pub enum Turn<'a> {
    /// Opens a connection.
    Open,
    /// These bytes came from the peer of the connection under this key.
    Hear { key: usize, piece: &'a [u8] },
    /// Hands out at most `room` of the bytes that wait for this peer.
    Hand { key: usize, room: usize },
    /// Requests an empty frame for this peer [2.4.5].
    Heartbeat { key: usize },
    /// The input of the connection under this key has ended.
    Finish { key: usize },
    /// Closes the connection under this key [2.4.3].
    Close { key: usize },
    /// Removes the connection under this key, and frees the key.
    Remove { key: usize },
    /// Serves the connection under this key by another rule from its next step on.
    Rule { key: usize, rule: Rule },
    /// Settles the ledger, which takes at most so many records for good; at `None` it fails.
    Settle { most: Option<usize> },
    /// Requests how many bytes all connections hold.
    Held,
    /// Requests how many connections are open.
    Count,
}

/// The answer to a [`Turn`].
#[derive(Drop)]
pub enum TurnAnswer<A: Allocator + Copy = Global> {
    /// The new connection has this key.
    Opened(usize),
    /// A step was made with what came. `due` bytes wait for the peer then, and `noted` was put into the ledger. If
    /// serving broke off, the connection is removed, and nothing was put.
    Heard {
        stepped: Stepped,
        due: usize,
        noted: Vec<u8, A>,
    },
    /// These bytes are for the peer.
    Handed(Vec<u8, A>),
    /// These bytes are for the peer, before all that waits later.
    Beat([u8; 8]),
    /// The input has ended, and the connection stood so.
    Ended(End),
    /// The close waits for the peer.
    Closed,
    /// The connection is removed.
    Removed,
    /// It goes by the other rule.
    Changed,
    /// The ledger has come so far.
    Settled(Progress),
    /// All connections hold this many bytes.
    Holds(u64),
    /// This many connections are open.
    Counts(usize),
    /// The turn is refused for this reason, and nothing has changed.
    Refused(HubFault),
}
