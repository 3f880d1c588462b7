//! What the endpoint reports of what came, and what it returns.
use amqp_perform::Condition;

/// What ended with an error.
#[derive(Clone, Copy, Debug, PartialEq, Eq)]
pub enum Scope {
    Connection,
    /// The session on a channel.
    Session { channel: u16 },
    /// The link with a handle, of the session on a channel.
    Link { channel: u16, handle: u32 },
}

/// What a unit that was acted upon resulted in.
#[derive(Clone, Copy, Debug, PartialEq, Eq)]
pub enum Event {
    /// The peer's open came, and the connection is open [2.4.1].
    Opened,
    /// A session began [2.5.1].
    Begun {
        channel: u16,
    },
    /// A link attached [2.6.3].
    Attached {
        channel: u16,
        handle: u32,
    },
    /// A delivery goes on [2.6.14].
    Unfinished {
        channel: u16,
        handle: u32,
    },
    /// A delivery is whole, and can be taken [2.6.14].
    Ready {
        channel: u16,
        handle: u32,
    },
    /// The sender gave a delivery up [2.7.5].
    Aborted {
        channel: u16,
        handle: u32,
    },
    /// The sender used its credit up, as it was asked to [2.6.7].
    Drained {
        channel: u16,
        handle: u32,
    },
    /// The sender settled `count` deliveries, at least one [2.7.6].
    Settled {
        channel: u16,
        count: u32,
    },
    /// The peer detached a link, and `dropped` ready deliveries were dropped [2.6.4].
    Detached {
        channel: u16,
        handle: u32,
        dropped: u32,
    },
    /// The peer ended a session, and `dropped` ready deliveries were dropped [2.5.3].
    Ended {
        channel: u16,
        dropped: u32,
    },
    /// The peer closed the connection, and `dropped` ready deliveries were dropped [2.4.3].
    Closed {
        dropped: u32,
    },
    /// This side ended something with an error, and `dropped` ready deliveries were dropped [2.4.6, 2.5.4,
    /// 2.6.5].
    Failed {
        scope: Scope,
        condition: Condition,
        dropped: u32,
    },
}

/// What a `feed` resulted in.
#[derive(Clone, Copy, Debug, PartialEq, Eq)]
pub enum Outcome {
    /// There is no event: more bytes are needed.
    More,
    /// A unit was acted upon, and resulted in this event.
    Event(Event),
    /// A whole unit waits, since the output has too little room for a possible answer.
    Blocked,
    /// A whole unit waits, since memory was refused. Nothing else has changed.
    NoMemory,
    /// The connection is over. This comes at the unit that ended it without an event, and at each later feed,
    /// which takes no byte.
    Dead,
}

/// How many bytes of a piece were taken, and what that resulted in.
#[derive(Clone, Copy, Debug, PartialEq, Eq)]
pub struct Fed {
    pub used: usize,
    pub outcome: Outcome,
}

/// How a connection stood at the end of its input.
#[derive(Clone, Copy, Debug, PartialEq, Eq)]
pub enum End {
    /// This side ended it with an error, or the header was not acceptable.
    Failed,
    /// The peer closed it [2.4.3].
    Closed,
    /// This many bytes of a unit, at least one, waited in the frame buffer.
    Inside(usize),
    /// No unit had begun.
    Between,
}
