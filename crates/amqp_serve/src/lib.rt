//! Serves a connection: runs an endpoint over a reader, a writer and a sink.
//!
//! [`serve`] reads what a peer sends into an [`amqp_endpoint::Endpoint`]. It takes each message, writes its record
//! to the sink and settles it by a [`Policy`]. It tops up windows and credit, and writes the endpoint's answers.
//! [`Server`] does so step by step, for a host with a loop of its own. Both use the endpoint's public contracts
//! alone, as any application does.
//!
//! Begin reading at [`serve`]. `specs/Serving.antt` defines what it does step by step, and `specs/Cuts.antt` what
//! serving a stream unit by unit results in. The tests are in `test_layer_rows` and `test_endpoint`.
#![tactic(auto)]

pub mod laws;
pub mod life_laws;
mod links;
mod note;
mod records;
mod rules;
mod sending;
mod server;
mod serving;
pub mod step_laws;
mod steps;
mod supplies;
mod supplying;
mod watch;

pub use links::LinkFault;
pub use note::Note;
pub use rules::Rule;
pub use server::{Server, ServerFault, Status};
pub use serving::{Policy, ServeFault, serve, serve_watched};
pub use steps::{Course, Done, Receipt, Received, Stepped, serve_piece, serve_read};
pub use supplies::{Supply, Topped};
pub use supplying::supply_session;
pub use watch::{Unwatched, Watch};
