//! A place of a table, at which one life follows another.

/// What is at a place: in a session a link by its handle, in a connection a session by its channel.
///
/// ```text
///            a begin, or an attach that this side accepts
///      Free --------------------------------------------> Live
///      ^ ^ |                                              | |
///      | | |           the peer's end or detach           | |
///      | +-|----------------------------------------------+ |
///      |   |                                                | this side ends
///      |   | an attach that this side refuses               | or detaches it
///      |   +-------------------> Waits <--------------------+
///      |                           |
///      +---------------------------+
///         the peer's end or detach
/// ```
///
/// If the connection is over, or closed by this side, all channels are `Free`. A session that ends takes its links
/// along.
#[derive(Drop)]
pub enum Slot<T> {
    /// Nothing; a life may begin here.
    Free,
    /// What lives here.
    Live(T),
    /// This side has ended what lived here, and the peer has not yet answered: the place is still in use.
    Waits,
}
