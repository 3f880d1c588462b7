//! Schedules of a sender and an endpoint, joined by two pipes, made also by a naive model of them: each turn is to have the answer
//! that the model gives, and the messages that were taken are to be those of the model.
//!
//! `test_pair_rows FILE COUNT SEED` makes the schedules that are the lines of a file, and prints a line for each, and then so many that
//! follow from numbers, from this one on. The first that differs is printed as a line that may stand in a file, and ends the program.
#![tactic(auto)]

mod naive;
mod random;
mod report;
mod schedule;

use crate::report::{Came, difference, line};
use crate::schedule::Schedule;
use amqp_pair::Joined;
use std::alloc::{AllocGlobal, Global};
use std::io::Print;
use std::rt::Files;
use std::{env, fs};
use test_row_files::Miss;
use test_row_files::words::number;

fn main(rt: HostRuntime) -> Result<(), Miss> {
    let words: Vec<String> = env::args(&rt)?.skip(1).collect(rt.alloc())?;
    let [file, count, seed] = words.as_slice() else {
        return Err(Miss::Unread("usage: test_pair_rows FILE COUNT SEED"));
    };
    let bytes = pattern(rt.alloc())?;
    of_file(&rt, file.as_str(), &bytes)?;
    of_numbers(&rt, number(count.as_str())?, number(seed.as_str())?, &bytes)
}

/// Makes the schedules of a file, and prints a line for each.
// Each borrows what another holds: one function that may drop all of it at each exit takes minutes to prove.
fn of_file<R: Files + Print + AllocGlobal>(rt: &R, file: &str, bytes: &[u8]) -> Result<(), Miss> {
    let text = fs::read_to_string(rt, file)?;
    let mut came = Came::default();
    for text in text.lines() {
        of_line(rt, text, bytes, &mut came)?;
    }
    println!(rt; "{came}")?;
    Ok(())
}

fn of_line<R: Print + AllocGlobal>(
    rt: &R,
    text: &str,
    bytes: &[u8],
    came: &mut Came,
) -> Result<(), Miss> {
    let schedule = Schedule::read(rt.alloc(), bytes, text)?;
    tell(rt, &schedule, came)
}

fn tell<R: Print + AllocGlobal>(
    rt: &R,
    schedule: &Schedule<'_>,
    came: &mut Came,
) -> Result<(), Miss> {
    let joined = made(rt, schedule, came)?;
    rt.print(line(rt.alloc(), schedule, &joined)?.as_str())?;
    Ok(())
}

/// Makes so many schedules that follow from numbers, from this one on.
fn of_numbers<R: Print + AllocGlobal>(
    rt: &R,
    count: u32,
    seed: u32,
    bytes: &[u8],
) -> Result<(), Miss> {
    let mut came = Came::default();
    for index in 0..count {
        let number = u64::from(seed).saturating_add(u64::from(index));
        of_number(rt, number, bytes, &mut came)?;
    }
    println!(rt; "{came}")?;
    Ok(())
}

fn of_number<R: Print + AllocGlobal>(
    rt: &R,
    number: u64,
    bytes: &[u8],
    came: &mut Came,
) -> Result<(), Miss> {
    let schedule = random::schedule(rt.alloc(), bytes, number)?;
    let _joined = made(rt, &schedule, came)?;
    Ok(())
}

/// Returns the bytes of which messages are cut: 0 to 250, and again.
fn pattern(alloc: Global) -> Result<Vec<u8>, Miss> {
    let mut bytes = Vec::new(alloc);
    for i in 0..31_000_u32 {
        bytes.push((i % 251) as u8)?;
    }
    Ok(bytes)
}

/// Makes the turns, by the pair and by the naive model.
fn made<R: Print + AllocGlobal>(
    rt: &R,
    schedule: &Schedule<'_>,
    came: &mut Came,
) -> Result<Joined, Miss> {
    let joined = schedule.joined(rt.alloc())?;
    compare(rt, schedule, &joined, came)?;
    Ok(joined)
}

/// Prints where the naive model differs from the pair, if it does.
fn compare<R: Print + AllocGlobal>(
    rt: &R,
    schedule: &Schedule<'_>,
    joined: &Joined,
    came: &mut Came,
) -> Result<(), Miss> {
    if let Some(difference) = difference(rt.alloc(), schedule, joined, came)? {
        println!(rt; "{schedule}\n{difference}")?;
        return Err(Miss::Unread("the pair and its naive model differ"));
    }
    Ok(())
}
