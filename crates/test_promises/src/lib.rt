//! What each layer promises to its callers. Each function passes a public call on, with the clauses
//! that the call has in its crate.
//!
//! Each module is named after the crate, or the part of it, whose calls it has. Begin with `link.rt`.
#![tactic(auto)]

pub mod config;
pub mod endpoint;
pub mod hub;
pub mod laws;
pub mod link;
pub mod pair;
pub mod perform;
pub mod send;
pub mod serve;
pub mod session;
pub mod types;
