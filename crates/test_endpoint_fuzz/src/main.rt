//! Lists of calls and pieces, made on an endpoint and on a naive model beside it: each answer, each byte for the peer, the
//! bytes held, windows, links and messages are the same, and what is held stays within its bound.
//!
//! With no words, as many lists as the gate runs are made. `test_endpoint_fuzz COUNT SEED` makes this many from a
//! number of one's own; the lists of a seed are those of the numbers from it on, so `test_endpoint_fuzz 1 SEED`
//! makes one of them again.
#![tactic(auto)]

mod came;
mod failure;
mod model;
mod numbers;
mod peer;
mod run;

use crate::came::Came;
use crate::failure::Failure;
use crate::numbers::{Choices, Numbers};
use crate::run::Run;
use std::alloc::Global;
use std::env;

/// The lists of the gate.
const COUNT: u64 = 100_000;

const SEED: u64 = 100_001;

fn main(rt: HostRuntime) -> Result<(), Failure> {
    let words: Vec<String> = env::args(&rt)?.skip(1).collect(rt.alloc())?;
    let (count, seed) = match words.as_slice() {
        [] => (COUNT, SEED),
        [count, seed] => (number(count)?, number(seed)?),
        _ => return Err(Failure::Usage),
    };
    let mut came = Came::new();
    for index in 0..count {
        let number = seed.wrapping_add(index);
        if let Err(failure) = list(rt.alloc(), number, &mut came) {
            println!(rt; "list {number}: {failure}")?;
            return Err(failure);
        }
    }
    println!(rt; "{count} lists: the same")?;
    println!(rt; "{came}")?;
    Ok(())
}

fn number(word: &String) -> Result<u64, Failure> {
    word.as_str().parse::<u64>().map_err(|_| Failure::Usage)
}

/// Makes the list of a number.
fn list(alloc: Global, number: u64, came: &mut Came) -> Result<(), Failure> {
    let mut numbers = Numbers::of(number);
    let length = numbers.below(240).saturating_add(60);
    let bytes = numbers.bytes(alloc, length as usize)?;
    let mut choices = Choices::new(&bytes);
    let mut run = Run::new(alloc, &mut choices, came)?;
    for step in 0..bytes.len() {
        if choices.is_over() {
            break;
        }
        if let Err(failure) = run.step(&mut choices) {
            return Err(failure.at(step));
        }
    }
    run.finish()
}
