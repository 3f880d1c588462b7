//! What the program `amqp` does.
//!
//! Begin reading at [`run`], which does what the command line asks for; `amqp_command_line` reads that. `dump` is done
//! by `amqp_dump`, `records` by `amqp_records`, or of a spool by `amqp_spool_commands` as all commands on a spool,
//! `replay` by `amqp_script`, `recv` by `amqp_receive` and `send` by `amqp_send_file`. `amqp_trace` shows what passes
//! (`told`). `gateway` is done by `amqp_gateway` (`gateway`), with its records in a spool (`spool`), and its counts
//! (`metrics`) and how far consumers are behind ([`lags`]) in a file, and admits links by a file of
//! addresses (`addresses`); `serving` has the settings of `recv` and `gateway`. The tests are in `test_amqp`.
#![tactic(auto)]

mod addresses;
mod faults;
mod gateway;
pub mod lags;
mod metrics;
pub mod recv;
pub mod run;
pub mod send;
mod serving;
mod spool;
mod told;
mod traces;

pub use amqp_spool::Exclusive;
pub use amqp_spool_commands::AwaitInput;
