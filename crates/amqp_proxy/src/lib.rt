//! The header of haproxy's PROXY protocol, version 2, for the side that is connected to: a front of an endpoint,
//! without sockets.
//!
//! Begin with [`Proxy`]. [`Proxy::feed`] takes bytes of the connection, cut anywhere, up to the end of the header.
//! After [`Outcome::Past`] all bytes that it has not taken are for the endpoint, and [`Proxy::said`] shows where the
//! connection comes from and who the client is by its certificate. After [`Outcome::Failed`] nothing more is taken. No
//! memory is taken. `specs/Headers.antt` and `specs/Tlvs.antt` define what a header says, `specs/Streams.antt` what is
//! done with all bytes of a connection, and `specs/Writers.antt` how a proxy writes a header.
//!
//! - A header has at most 536 bytes. One that announces more fails once its length is read.
//! - LOCAL says nothing: the proxy speaks for itself. All that the length covers is skipped.
//! - PROXY over TCP with IPv4 or IPv6 gives the source. Of another family or transport the addresses are skipped.
//! - The name is taken from an SSL TLV if the client sent a certificate and `verify` is 0. Other TLVs are skipped, and
//!   so is a name that is not taken.
//! - A second SSL TLV, or a second name, is refused: which of two counts would be a guess about who the client is.
#![tactic(auto)]

mod faults;
mod header;
mod held;
pub mod laws;
mod name;
mod progress;
mod proxy;
mod replays;
mod said;
mod tlvs;

pub use faults::ProxyFault;
pub use proxy::{Fed, Outcome, Proxy};
pub use replays::{Replay, proxy_replay};
pub use said::Said;
