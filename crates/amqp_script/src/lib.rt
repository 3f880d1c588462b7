//! `amqp replay`: a script of calls, run on a new endpoint, with a line for each answer.
//!
//! Begin with `replay.rt`. [`replay_script`] reads a whole script and checks each of its lines before it runs
//! the first. `docs/COMMANDS.md` has the format of the lines. The tests are in `test_layer_rows` and
//! `test_endpoint`.
#![tactic(auto)]

mod answers;
mod digits;
mod limits;
mod lines;
mod replay;
mod texts;

pub use limits::read_limits;
pub use replay::{ScriptFault, replay_script};
