//! What a sender reports to its caller.

use amqp_perform::{Condition, Outcome};
use thiserror::Error;

/// What a unit of the receiver's bytes brought.
#[derive(Clone, Copy, Debug, PartialEq, Eq)]
pub enum News {
    /// The receiver reported what became of the deliveries from `first` to `last`: an outcome, or `None` if
    /// it settled them without one [2.7.6, 3.4].
    Disposition {
        first: u32,
        last: u32,
        outcome: Option<Outcome>,
    },
    /// The sender ended: by a detach, an end or a close, with the condition of its error, or `Other` if it
    /// has none; or by a header or bytes that can't be read, with `Other`.
    Ended(Condition),
}

/// Why a message is not taken over.
#[derive(Clone, Copy, Debug, PartialEq, Eq, Drop, Error)]
pub enum OfferFault {
    /// The last frame of another message is not yet in the pipe.
    #[error("the last frame of another message is not yet in the pipe")]
    Busy,
    /// The sender ended, or it was closed, which has the condition `Other`.
    #[error("the sender has ended: {0:?}")]
    Ended(Condition),
}
