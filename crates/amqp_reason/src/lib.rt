//! Why an application refuses a link or a message, or closes a connection, in its own words: a condition and a description, which
//! the peer gets as an error (AMQP 1.0, part 2, section 2.8.14).
//!
//! Begin with [`Reason`]. It borrows its words, and nothing here takes memory. `conditions` has those of the standard by name.
//! `specs/Reasons.antt` defines which words are valid, and how an error and the outcome rejected are spelled.
#![tactic(auto)]

pub mod conditions;
pub mod laws;
mod reason;
mod spelling;

pub use reason::Reason;
pub use spelling::{Spelled, error, rejected};
