//! Measures the codec, a link, a session, dispositions, an endpoint and a server, each in several cases.
//!
//! `bench_functions GROUP [CASE [ROUNDS]]` times the cases of a group, or one of them. With no words each case is run once and
//! not timed, so that the same is printed each time.
#![tactic(auto)]

mod codec;
mod disposition;
mod endpoint;
mod frames;
mod link;
mod measure;
mod order;
mod serve;
mod session;
mod stream;

use crate::measure::{Failure, Mode, list, run_named};
use crate::order::{GROUPS, Group, Order, order_of};
use std::alloc::Global;
use std::env;
use std::rt::Clock;

/// How the program is run.
const USAGE: &str = "usage: bench_functions [GROUP [CASE [ROUNDS]]]
With no words each case is run once and not timed. A group and its cases:
";

fn main(rt: HostRuntime) -> Result<(), Failure> {
    let words: Vec<String> = env::args(&rt)?.skip(1).collect(rt.alloc())?;
    match order_of(&words) {
        Some(Order::Once) => run_all(&rt, rt.alloc()),
        Some(Order::Help) => help(&rt),
        Some(
            Order::Timed {
                group,
                case,
                rounds,
            },
        ) => {
            let count = run_group(&rt, rt.alloc(), group, case, Mode::Timed(rounds))?;
            if count == 0 {
                Err(Failure::NoSuchCase)
            } else {
                Ok(())
            }
        }
        None => Err(Failure::NoSuchCase),
    }
}

fn run_all(rt: &(impl Print + Clock), alloc: Global) -> Result<(), Failure> {
    for group in GROUPS {
        let _ = run_group(rt, alloc, group, None, Mode::Once)?;
    }
    Ok(())
}

/// Runs the cases of a group, or the one of a name, and returns how many.
fn run_group(
    rt: &(impl Print + Clock),
    alloc: Global,
    group: Group,
    name: Option<&str>,
    mode: Mode,
) -> Result<u32, Failure> {
    match group {
        Group::Codec => run_named(rt, alloc, &codec::cases(), name, mode),
        Group::Link => run_named(rt, alloc, &link::cases(), name, mode),
        Group::Session => run_named(rt, alloc, &session::cases(), name, mode),
        Group::Disposition => run_named(rt, alloc, &disposition::cases(), name, mode),
        Group::Endpoint => run_named(rt, alloc, &endpoint::cases(), name, mode),
        Group::Serve => run_named(rt, alloc, &serve::cases(), name, mode),
    }
}

fn help(rt: &impl Print) -> Result<(), Failure> {
    print!(rt; "{USAGE}")?;
    list(rt, &codec::cases())?;
    list(rt, &link::cases())?;
    list(rt, &session::cases())?;
    list(rt, &disposition::cases())?;
    list(rt, &endpoint::cases())?;
    list(rt, &serve::cases())?;
    Ok(())
}
