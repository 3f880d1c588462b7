//! A hub of 200 peers in turn, one of them hostile, for `bench/run`.
//!
//! `many_peers SEED TURNS` has each peer send eight messages of 50 to 150 bytes a turn, which follow from the seed, and the hostile one
//! attach and detach a link as often as its piece has room for. It prints a digest of all that was answered and recorded. With no
//! words there are few turns, so that the same is printed each time.
#![tactic(auto)]

mod digest;
mod failure;
mod hosting;
mod pieces;

use crate::digest::Digest;
use crate::failure::Failure;
use crate::hosting::Host;
use crate::pieces::{Messages, hostile_opening, hostile_piece, opening};
use std::alloc::Global;
use std::env;

/// How many peers there are, with the hostile one.
const PEERS: usize = 200;

/// The hostile one's place.
const HOSTILE: usize = 77;

/// This many kinds of pieces are made a turn, and handed out to the peers in turn.
const KINDS: usize = 4;

fn main(rt: HostRuntime) -> Result<(), Failure> {
    let words: Vec<String> = env::args(&rt)?.skip(1).collect(rt.alloc())?;
    let (seed, turns) = numbers_of(&words)?;
    let mut host = Host::new(rt.alloc(), PEERS)?;
    serve(rt.alloc(), &mut host, seed, turns)?;
    show(&rt, &host.answers, &host.records())
}

/// Returns the seed and how many turns the words after the program's name ask for.
// The body borrows what it uses: one that may drop it at each exit takes minutes to prove.
fn numbers_of(words: &[String]) -> Result<(u64, u64), Failure> {
    match words {
        [] => Ok((1, 3)),
        [seed, turns] => Ok((number_of(seed)?, number_of(turns)?)),
        _ => Err(Failure::Words),
    }
}

/// Prints the digests of all that was answered and recorded.
fn show(rt: &impl Print, answers: &Digest, records: &Digest) -> Result<(), Failure> {
    println!(rt;
        "many answers={} {:016x} records={} {:016x}",
        answers.bytes, answers.value, records.bytes, records.value
    )?;
    Ok(())
}

fn number_of(word: &String) -> Result<u64, Failure> {
    word.parse::<u64>().ok().ok_or(Failure::Words)
}

/// Serves all peers, turn by turn.
fn serve(alloc: Global, host: &mut Host, seed: u64, turns: u64) -> Result<(), Failure> {
    for at in 0..PEERS {
        if at == HOSTILE {
            host.hear(at, hostile_opening(alloc)?.as_slice())?;
        } else {
            host.hear(at, opening(alloc)?.as_slice())?;
        }
    }
    let mut messages = Messages::new(alloc, seed)?;
    let hostile = hostile_piece(alloc)?;
    let mut kinds: [Vec<u8>; KINDS] = [
        Vec::new(alloc),
        Vec::new(alloc),
        Vec::new(alloc),
        Vec::new(alloc),
    ];
    for _ in 0..turns {
        messages.make(&mut kinds)?;
        for at in 0..PEERS {
            if at == HOSTILE {
                host.hear(at, &hostile)?;
            } else if let Some(piece) = kinds.get(at % KINDS) {
                host.hear(at, piece)?;
            }
        }
    }
    Ok(())
}
