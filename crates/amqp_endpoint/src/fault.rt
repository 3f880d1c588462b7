//! Why a call is refused.
use thiserror::Error;

/// Why the endpoint refuses a call of its application. Nothing has changed.
///
/// The first fault is returned, in this order: `Dead`, `NotOpen`, `NoSession`, `NoLink`, `NoDelivery`,
/// `NotTaken`, `AlreadyTold`, `MixedModes`, `NothingReady`, `TooMuchCredit`, `WindowTooWide`, `BadError`, `Full`.
#[derive(Clone, Copy, Debug, PartialEq, Eq, Drop, Error)]
pub enum CallFault {
    /// No session is live on the channel. One that this side has ended is not live.
    #[error("no session is live on this channel")]
    NoSession,
    /// No link is live at the handle. One that this side has detached or refused is not live.
    #[error("no link is live at this handle")]
    NoLink,
    /// Credit and open deliveries would be more than the link allows.
    #[error("credit and open deliveries would be more than the link allows")]
    TooMuchCredit,
    /// The window would pass 2147483647 places.
    #[error("the window would pass 2147483647 places")]
    WindowTooWide,
    /// The output has fewer than 2560 free bytes.
    #[error("the output has less than 2560 free bytes")]
    Full,
    /// No delivery of the link is ready.
    #[error("no delivery of the link is ready")]
    NothingReady,
    /// No open delivery has the id, or one end of the range; or the last id is before the first.
    #[error("no open delivery has this id, or the last id of the range is behind its first")]
    NoDelivery,
    /// The delivery, or one of those that a range names, was not handed up.
    #[error("a delivery that is named was not handed up")]
    NotTaken,
    /// The sender was already told what became of the delivery, or of one that the range names, and has to
    /// settle it.
    #[error("the sender was told what became of a delivery that is named, and has to settle it")]
    AlreadyTold,
    /// The range names deliveries in mode first and in mode second [2.8.3].
    #[error("deliveries of the modes first and second cannot be settled at once")]
    MixedModes,
    /// The connection is over, or this side has closed it.
    #[error("the connection is over, or this side has closed it")]
    Dead,
    /// The connection is not open.
    #[error("the connection is not open")]
    NotOpen,
    /// The condition of an error is not 1 to 64 printable characters of ASCII, or its description is not at most
    /// 255 bytes of UTF-8 [2.8.14].
    #[error("the condition is not 1 to 64 printable characters, or the description is not at most 255 bytes of UTF-8")]
    BadError,
}
