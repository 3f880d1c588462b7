//! Many peers at once, on one thread: sockets before an [`amqp_hub::Hub`].
//!
//! Begin reading at [`Gateway::turn`], one turn of the loop. It takes what the ready peers sent, has a keeper take the
//! records of all of them for good, then sends the answers, and ends the peers whose time is up.
//! [`Gateway::wait`] waits for what comes next. Time is a number that the caller brings, so that a test can let it
//! pass. An [`Outlet`] is a keeper that writes blocks to a [`Sink`], and a [`Watcher`] is told what passes at each peer.
//! An [`Admission`] is asked before a link gets credit.
//!
//! What each peer is sent and what is recorded of it is the hub's part. This layer has the order of the calls,
//! which the sockets give, and the time-outs [2.4.5]. The tests are in `test_gateway`.
#![tactic(auto)]

mod admission;
mod bound;
mod counts;
mod ending;
mod gateway;
mod held_up;
mod outlet;
mod passed;
mod peer;
mod settings;
mod watcher;

pub use admission::{Admission, Unasked, Verdict};
pub use bound::{link_most, outlet_most, peer_most};
pub use counts::Counts;
pub use ending::Ending;
pub use gateway::{Gateway, GatewayFault};
pub use held_up::HeldUp;
pub use outlet::{Outlet, Sink, Unsynced};
pub use settings::Settings;
pub use watcher::{Unwatched, Watcher};
