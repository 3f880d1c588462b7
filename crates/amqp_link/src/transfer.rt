//! What a transfer results in.
ghost use Rattle.std.specs.Prelude.{◌≡◌, false, unwrap_or};
ghost use Rattle.amqp_link.specs.declared.transfer.LinkFault.TheVariants.{NoMemory};

use amqp_perform::Transfer;
use std::alloc::AllocError;

/// Why a link refuses a transfer or a flow. The link is unchanged.
#[derive(Clone, Copy, Debug, PartialEq, Eq)]
pub enum LinkFault {
    /// The sender goes beyond its credit.
    TransferLimit,
    /// The message is longer than the link allows.
    MessageSize,
    /// A field is missing, too long, or differs from the delivery's first transfer; or mode second is requested
    /// on a link of mode first.
    InvalidField,
    /// A delivery is resumed.
    NotImplemented,
    /// The memory that the delivery needs was refused. The same transfer may be tried again.
    NoMemory,
}

/// What an accepted transfer did.
#[derive(Clone, Copy, Debug, PartialEq, Eq)]
pub enum Step {
    /// The delivery goes on.
    Unfinished,
    /// The delivery is whole, and can be taken.
    Ready,
    /// The sender gave the delivery up, and it is gone.
    Aborted,
}

/// What a transfer results in on its link, before anything is done [2.6.14].
#[derive(Clone, Copy, Debug, PartialEq, Eq)]
pub enum Verdict {
    /// It begins a delivery, which will be stored under this key: a hint, as from [`crate::Link::next_key`].
    Begins(usize),
    /// It goes on with the unfinished delivery, or ends it.
    GoesOn,
    /// It begins a delivery and gives it up at once.
    Passes,
    /// It gives up the unfinished delivery, which has this id.
    GivesUp(u32),
    /// It is refused with this fault, which is never `NoMemory`.
    Fails(LinkFault),
}

impl From<AllocError> for LinkFault {
    ghost from_gives = { λ _ e. e ≡ NoMemory };

    fn from(_e: AllocError) -> LinkFault {
        LinkFault::NoMemory
    }
}

/// Returns whether a transfer says that its sender settled the delivery.
pub fn is_settled(transfer: &Transfer<'_>) -> bool
    ensures { result ≡ unwrap_or transfer.now.settled false }
{
    transfer.settled.unwrap_or(false)
}
