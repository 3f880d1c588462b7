//! What a keeper holds up.

/// What a gateway can't do now because its keeper can't go on.
#[derive(Clone, Copy, Debug, PartialEq, Eq)]
pub enum HeldUp {
    /// Links get no more credit: there is no room for what they would send.
    Credit,
    /// No peer is heard: there is no room for another record.
    Peers,
    /// Records wait to be taken, and their senders for an answer.
    Records,
}
