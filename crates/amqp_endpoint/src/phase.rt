//! How far a connection has come.

/// How far a connection has come [2.4.6].
///
/// ```text
///                   the peer's open
///      Unopened ----------------------> Open
///       |   |                          |   |
///       |   | this side ends it        |   | this side ends it
///       |   | with an error            |   | with an error, or `close`
///       |   +---------> Closing <------+   |
///       |                  |               |
///       | another header,  | the peer's    | the peer's close,
///       | malformed frame, | close,        | malformed frame,
///       | end of input     | malformed     | end of input
///       |                  | frame, end    |
///       |                  | of input      |
///       +--------------> Dead <------------+
/// ```
///
/// All else that comes in `Closing` is dropped. No byte is taken in `Dead`.
#[derive(Clone, Copy, Debug, PartialEq, Eq)]
pub enum Phase {
    /// The peer's open has not come.
    Unopened,
    /// Both sides have opened it.
    Open {
        /// The peer's max-frame-size [2.7.1].
        max_frame_size: u32,
        /// The highest channel: the lesser of both sides' channel-max.
        channel_max: u8,
    },
    /// This side has closed it, and the peer's close has not come.
    Closing,
    /// It is over, and takes no bytes.
    Dead,
}
