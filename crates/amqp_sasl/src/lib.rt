//! The SASL layer of AMQP 1.0, for the side that is connected to: in front of an endpoint, without sockets. [5.3]
//!
//! Begin with [`Sasl`]. [`Sasl::feed`] takes bytes of the peer, cut anywhere, up to the end of the exchange. When it says
//! [`Outcome::Ask`], [`Sasl::asked`] shows who the peer says it is, and the host answers by [`Sasl::admit`]. After [`Outcome::Past`]
//! what follows is for the endpoint: [`Sasl::handed`], and then all that `feed` has not taken. [`Sasl::output`] moves out the bytes for
//! the peer. No memory is taken.
//!
//! `specs/Exchanges.antt` defines what the layer does with a whole list of bytes, `specs/Verdicts.antt` what is done about a frame,
//! `specs/Inits.antt` and `specs/Claims.antt` what a `sasl-init` and a `sasl-response` say, and `specs/Answers.antt` what is written.
#![tactic(auto)]

mod answers;
mod claim;
mod composite;
mod fields;
mod frame;
mod header;
mod held;
mod kept;
pub mod laws;
mod layer;
mod offer;
mod replays;
mod sasl_init;
mod unsent;
mod verdict;

pub use claim::Login;
pub use header::SASL_HEADER;
pub use layer::{Fed, Outcome, Sasl};
pub use offer::Offer;
pub use replays::{Replay, sasl_replay};
pub use verdict::Init;
