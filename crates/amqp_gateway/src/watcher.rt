//! Watching what passes at each peer.

use crate::ending::Ending;
use amqp_endpoint::End;
use amqp_serve::Stepped;
use std::net::SocketAddr;

/// Gets a report of what passes at each peer. A peer is named by its place, below [`crate::Settings::peers`].
/// Until it is gone no other peer has that place.
pub trait Watcher {
    /// A peer came.
    fn met(&mut self, at: usize, number: u64, address: SocketAddr);

    /// A step took these bytes of the peer, and answered with these.
    fn stepped(&mut self, at: usize, taken: &[u8], stepped: &Stepped, answers: &[u8]);

    /// The peer is sent this besides.
    fn said(&mut self, at: usize, answers: &[u8]);

    /// No more of the peer is heard in this turn: what was reported may be passed on.
    fn waits(&mut self, at: usize);

    /// The peer is gone: how it ended, and how its endpoint stood at the end of its input, if it was brought
    /// there.
    fn ended(&mut self, at: usize, ending: Ending, end: Option<End>);
}

/// A watcher that does nothing.
#[derive(Clone, Copy, Debug, Drop)]
pub struct Unwatched;

impl Watcher for Unwatched {
    fn met(&mut self, _at: usize, _number: u64, _address: SocketAddr) {}

    fn stepped(&mut self, _at: usize, _taken: &[u8], _stepped: &Stepped, _answers: &[u8]) {}

    fn said(&mut self, _at: usize, _answers: &[u8]) {}

    fn waits(&mut self, _at: usize) {}

    fn ended(&mut self, _at: usize, _ending: Ending, _end: Option<End>) {}
}
