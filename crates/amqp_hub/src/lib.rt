//! Many connections, served in turn by one thread, and one keeper of their records: no sockets, no clock.
//!
//! A [`Hub`] has a server under a key for each connection. Its host brings what came from each peer by
//! [`Hub::hear`], at most one unit a call. What that records is put into the [`Keeper`] under the number of the
//! connection. The host has the keeper take all records for good by [`Hub::settle`]. Only then does [`Hub::lend`]
//! lend what waits for each peer, so that no sender hears of a record that may still be lost. [`Hub::sent`] says what
//! was written of that.
//!
//! A peer is heard while less than [`ANSWERS`] bytes wait for it. So one that does not read holds up itself alone, and
//! what waits for it is bounded. After the end of its input ([`Hub::finish`]), or a close by this side ([`Hub::close`]),
//! a connection hears nothing any more. Its last bytes are lent, and [`Hub::remove`] frees its key.
//!
//! Begin reading at [`Hub`]. `Lives` of `amqp_serve` has what a connection's own calls alone give. [`hub_replay`] has
//! the theorem over all lists of turns, with a keeper in memory ([`Ledger`]).
#![tactic(auto)]

mod answers;
mod fault;
mod hub;
mod keeper;
pub mod laws;
mod ledger;
mod member;
mod replays;
mod servers;
mod turn;

pub use fault::{AskFault, HubFault};
pub use hub::Hub;
pub use keeper::{Keeper, Origin, Progress};
pub use ledger::{Ledger, Record};
pub use member::ANSWERS;
pub use replays::{Replayed, hub_replay};
pub use turn::{Turn, TurnAnswer};
