//! How far the talk of a connection has come.

use amqp_perform::Condition;

/// How far the talk has come [2.4].
#[derive(Clone, Copy, Debug, PartialEq, Eq)]
pub enum Talk {
    /// The receiver's header has not come.
    Silent,
    /// The opening was written.
    Talking,
    /// The sender's own close was written, and the receiver's has not come [2.4.3].
    Closing,
    /// It ended: the receiver said so, or its bytes can't be read.
    Ended(Condition),
}
