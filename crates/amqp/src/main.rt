//! The program `amqp`. Its commands are in `amqp_commands`; begin reading at `amqp_commands::run`.
#![tactic(auto)]

use std::process::ExitCode;

fn main(rt: HostRuntime) -> ExitCode {
    amqp_commands::run::run(&rt)
}
