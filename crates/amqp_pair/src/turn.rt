//! Turns of a pair, and their answers, as data.
use amqp_endpoint::{CallFault, Fed};
use amqp_perform::Outcome;
use amqp_send::{News, OfferFault};

/// One turn of a pair. The calls of the endpoint are for the link at handle 0 of the session on channel 0.
#[derive(Clone, Copy, Debug)]
pub enum Turn<'a> {
    /// The sender is offered a message.
    Offer(&'a [u8]),
    /// At most this many bytes, as many as there are and fit, go from the sender into its pipe. Then the whole pipe is
    /// fed to the endpoint, once, and the bytes that it takes leave the pipe.
    ToEndpoint(usize),
    /// At most this many bytes, as many as there are and fit, go from the endpoint into its pipe. Then the whole pipe is
    /// fed to the sender, once, and the bytes that it takes leave the pipe.
    ToSender(usize),
    /// The link gets this much more credit.
    Grant(u32),
    /// The session's window gets this many more places.
    Widen(u32),
    /// The sender is asked to use its credit up.
    Drain,
    /// The first ready delivery is handed up.
    Take,
    /// A delivery is settled with an outcome.
    Settle { id: u32, outcome: Outcome },
}

/// The answer to a [`Turn`].
#[derive(Clone, Copy, Debug)]
pub enum TurnAnswer {
    /// The sender took the message over.
    TakenOver,
    /// The sender did not take the message over.
    NotTakenOver(OfferFault),
    /// What the endpoint's feed returned.
    EndpointFed(Fed),
    /// How many bytes the sender took, and what they brought.
    SenderFed { used: usize, news: Option<News> },
    /// A grant, a widening, a drain or a settlement was accepted.
    Accepted,
    /// A message was handed up.
    HandedUp,
    /// The call of the endpoint was refused, and nothing has changed.
    Refused(CallFault),
}
