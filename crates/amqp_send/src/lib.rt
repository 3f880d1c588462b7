//! A sender for tests: one connection, one session and one link, over which it sends one message at a time
//! [AMQP 1.0, part 2].
//!
//! Begin with [`Sender`]. [`Sender::new`] writes the protocol header. After that [`Sender::offer`] takes a
//! message over, [`Sender::feed`] takes the receiver's bytes and reports what they bring, and
//! [`Sender::output`] moves out what is to be sent. `specs/Sendings.antt` defines its state, the frames that it
//! writes and what each event does to it; `specs/Tellings.antt` what the receiver's units tell it;
//! `specs/Runs.antt` what holds of every list of its calls. The tests are in `test_layer_rows`.
#![tactic(auto)]

mod config;
mod flow_state;
mod frames;
pub mod laws;
mod news;
mod outgoing;
mod output;
mod sender;
mod sending;
mod talk;
mod telling;

pub use config::SendConfig;
pub use flow_state::MAX_FRAME_SIZE;
pub use news::{News, OfferFault};
pub use sender::Sender;
