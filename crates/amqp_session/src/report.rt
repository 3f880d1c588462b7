//! What a session reports of a frame.

use amqp_perform::Condition;

/// What a frame that was accepted did.
#[derive(Clone, Copy, Debug, PartialEq, Eq)]
pub enum Report {
    /// Nothing that has to be reported.
    Nothing,
    /// A link attached [2.6.3].
    Attached {
        handle: u32,
    },
    /// A delivery goes on [2.6.14].
    Unfinished {
        handle: u32,
    },
    /// A delivery is whole, and can be taken [2.6.14].
    Ready {
        handle: u32,
    },
    /// The sender gave a delivery up [2.7.5].
    Aborted {
        handle: u32,
    },
    /// The sender used its credit up, as it was asked to [2.6.7].
    Drained {
        handle: u32,
    },
    /// The sender settled `count` deliveries, at least one [2.7.6].
    Settled {
        count: u32,
    },
    /// The peer detached the link, and `dropped` ready deliveries were dropped [2.6.4, 2.6.6].
    Detached {
        handle: u32,
        dropped: u32,
    },
    /// This side ended the link with an error, and `dropped` ready deliveries were dropped
    /// [2.6.5].
    Failed {
        handle: u32,
        condition: Condition,
        dropped: u32,
    },
}
