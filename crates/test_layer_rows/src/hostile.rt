//! Rows of hostile peers: how a connection with each of them ends, what the peer was sent, and how much memory it took.

mod attack;
mod bytes;
mod peer;
mod replaced;
mod settings;
mod tally;
mod unread;

pub use attack::Attack;
