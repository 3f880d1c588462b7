//! A sender and an endpoint, joined by two pipes, under a list of turns.
//!
//! Begin with [`joined`]. It makes the turns on a new [`Sender`](amqp_send::Sender) and a new
//! [`Endpoint`](amqp_endpoint::Endpoint). `specs/Turns.antt` defines what a turn does, `specs/Spoken.antt` the units on their
//! way, and `specs/Reading.antt` and `specs/Replying.antt` what the frames of either end are to the other. `specs/World.antt`
//! is the same pair with frames and flows in place of bytes, and `specs/Paired.antt` relates the bytes to it.
//! `specs/Served.antt` has what is promised of the messages.
#![tactic(auto)]

pub mod laws;
mod pair;
mod runs;
mod turn;

pub use pair::{Joined, Pair};
pub use runs::joined;
pub use turn::{Turn, TurnAnswer};
