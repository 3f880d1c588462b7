//! What a header said.
use std::net::SocketAddr;

/// What a header said.
#[derive(Clone, Copy)]
pub struct Said<'a> {
    /// Where the connection comes from. Without it the socket's own address serves.
    pub source: Option<SocketAddr>,
    /// The common name in the client's certificate, which the proxy has verified: 1 to 255 bytes.
    pub name: Option<&'a str>,
}
