//! What a gateway is set up with, besides the settings of its endpoints.

/// What a gateway is set up with. Times are in milliseconds.
#[derive(Clone, Copy, Debug, PartialEq, Eq)]
pub struct Settings {
    /// How many peers are served at a time. The others wait to be accepted.
    pub peers: usize,
    /// How many are served before the gateway ends; 0 means without end.
    pub connections: u64,
    /// A peer that said nothing for this long is closed [2.4.5]; 0 means never.
    pub idle: u64,
    /// A peer that took none of its answers for this long is dropped.
    pub slow: u64,
    /// How long what waits may still go out once the gateway is to end.
    pub grace: u64,
}
