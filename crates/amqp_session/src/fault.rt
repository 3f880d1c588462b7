//! Why a frame or a call is refused.
ghost use Rattle.std.specs.Prelude.{◌≡◌};
ghost use Rattle.amqp_session.specs.declared.fault.SessionFault.TheVariants.{NoMemory};

use std::alloc::AllocError;

/// Why a session refuses a frame. The session is unchanged.
#[derive(Clone, Copy, Debug, PartialEq, Eq)]
pub enum SessionFault {
    /// A transfer came and the incoming window had no place left [2.5.6].
    WindowViolation,
    /// A link attaches at a handle that is in use [2.6.2].
    HandleInUse,
    /// A frame is for a handle that is not in use [2.6.2].
    UnattachedHandle,
    /// The name of a link is too long.
    ResourceLimit,
    /// A sender attaches without initial-delivery-count [2.7.3].
    InvalidField,
    /// The memory that the frame needs was refused. The same frame may be tried again.
    NoMemory,
}

impl From<AllocError> for SessionFault {
    ghost from_gives = { λ _ e. e ≡ NoMemory };

    fn from(_e: AllocError) -> SessionFault {
        SessionFault::NoMemory
    }
}

/// Why a session refuses a call. The session is unchanged.
#[derive(Clone, Copy, Debug, PartialEq, Eq)]
pub enum CallFault {
    /// No link is live at the handle.
    NoLink,
    /// No open delivery has the id, or one end of the range; or the last id is before the first.
    NoDelivery,
    /// The delivery, or one of them, was not handed up.
    NotTaken,
    /// The sender was already told what became of the delivery, or of one of them, and has to settle it.
    AlreadyTold,
    /// One of the deliveries is in mode first, and another in mode second. A disposition says either of all
    /// that they are settled, or of none [2.7.6, 2.8.3].
    MixedModes,
    /// No delivery of the link is ready.
    NothingReady,
    /// Credit and open deliveries would be more than the link allows.
    TooMuchCredit,
    /// The window would pass 2147483647 places.
    WindowTooWide,
    /// The words of an error are not valid [2.8.14].
    BadError,
}
