//! The receiving endpoint of one connection. Bytes of the peer and calls of the application go in; bytes for
//! the peer, events and whole messages come out.
//!
//! Begin with `endpoint.rt`. [`Endpoint::new`] takes a [`Config`]. Call [`Endpoint::feed`] until a piece is
//! used up, then what its [`Event`]s ask for, and [`Endpoint::output`] for the peer. [`replay`] makes a list of
//! calls; its contract is the theorem over all such lists. `amqp_serve` does all of this over a reader, a
//! writer and a sink.
//!
//! A frame goes through `endpoint`, `units` and `sessions` to `amqp_session`; `reports` makes an event of a
//! report. A call goes through `requests`, `reasons` or `closing`, and `output` writes all frames. `specs/Lines.antt` has
//! what a unit results in, and `specs/Traces.antt` what holds for every run. The tests are in `test_layer_rows`
//! and `test_endpoint`.
#![tactic(auto)]

mod call;
mod closing;
mod config;
mod connection;
mod endpoint;
mod event;
mod fault;
mod frames;
mod introduction;
pub mod laws;
mod limits;
mod opening;
mod output;
mod phase;
mod reasons;
mod replays;
mod reports;
mod requests;
mod sessions;
mod units;
mod words;

pub use call::{Answer, Call};
pub use config::Config;
pub use endpoint::Endpoint;
pub use event::{End, Event, Fed, Outcome, Scope};
pub use fault::CallFault;
pub use introduction::{FirstText, Introduction};
pub use limits::{LimitFault, LinkLimit};
pub use phase::Phase;
pub use replays::replay;
