//! The jobs that a user of this repository waits for, on inputs that they make themselves, for `bench/run`.
//!
//! `workloads NAME SEED ROUNDS` does a job this many times, each time on another input that follows from the seed,
//! and prints a digest of all that came of it. With no words each job is done once on a small input, so that the
//! same is printed each time. `workloads texts SEED ROUNDS PART [LENGTH]` makes the capture of one part of that
//! job once, and dumps it this many times.
#![tactic(auto)]

mod awkward;
mod desk;
mod digest;
mod documents;
mod dumped;
mod failure;
mod gateway;
mod large;
mod numbers;
mod one_at_a_time;
mod peer;
mod receiving;
mod replayed;
mod telemetry;
mod texts;

use crate::desk::Desk;
use crate::failure::Failure;
use crate::texts::part_of;
use std::alloc::Global;
use std::env;

/// How much of a job is done at a time.
#[derive(Clone, Copy, PartialEq, Eq)]
pub enum Size {
    /// Enough to see that it is done.
    Small,
    /// As much as a user has.
    Full,
}

impl Size {
    /// Returns `full`, or `small` for a small job.
    pub fn of(self, full: u32, small: u32) -> u32 {
        match self {
            Size::Full => full,
            Size::Small => small,
        }
    }
}

/// What is done.
#[derive(Clone, Copy)]
enum Job {
    Telemetry,
    Documents,
    Gateway,
    Dump,
    Replay,
    Awkward,
    Texts,
    Large,
    /// With credit of 1, and of 16.
    OneAtATime1,
    OneAtATime16,
}

/// Every job, in the order in which they are done.
const JOBS: [Job; 10] = [
    Job::Telemetry,
    Job::Documents,
    Job::Gateway,
    Job::Dump,
    Job::Replay,
    Job::Awkward,
    Job::Texts,
    Job::Large,
    Job::OneAtATime1,
    Job::OneAtATime16,
];

impl Job {
    fn name(self) -> &'static str {
        match self {
            Job::Telemetry => "telemetry",
            Job::Documents => "documents",
            Job::Gateway => "gateway",
            Job::Dump => "dump",
            Job::Replay => "replay",
            Job::Awkward => "awkward",
            Job::Texts => "texts",
            Job::Large => "large",
            Job::OneAtATime1 => "one-at-a-time-1",
            Job::OneAtATime16 => "one-at-a-time-16",
        }
    }

    /// Does it this many times.
    fn run(self, alloc: Global, seed: u64, rounds: u32, size: Size) -> Result<Desk, Failure> {
        let mut desk = Desk::new(alloc, seed, size)?;
        for _ in 0..rounds {
            desk.peer.bytes.clear();
            self.run_once(&mut desk)?;
        }
        Ok(desk)
    }

    // The body borrows what it uses: one that may drop it at each exit takes minutes to prove.
    fn run_once(self, desk: &mut Desk) -> Result<(), Failure> {
        match self {
            Job::Telemetry => telemetry::run(desk),
            Job::Documents => documents::run(desk),
            Job::Gateway => gateway::run(desk),
            Job::Dump => dumped::run(desk),
            Job::Replay => replayed::run(desk),
            Job::Awkward => awkward::run(desk),
            Job::Texts => texts::run(desk),
            Job::Large => large::run(desk),
            Job::OneAtATime1 => one_at_a_time::run(desk, 1),
            Job::OneAtATime16 => one_at_a_time::run(desk, 16),
        }
    }
}

fn main(rt: HostRuntime) -> Result<(), Failure> {
    let words: Vec<String> = env::args(&rt)?.skip(1).collect(rt.alloc())?;
    follow(&rt, rt.alloc(), &words)
}

/// Does what the words after the program's name ask for.
fn follow(rt: &impl Print, alloc: Global, words: &[String]) -> Result<(), Failure> {
    match words {
        [] => run_all(rt, alloc),
        [name, seed, rounds] => {
            let job = job_of(name.as_str()).ok_or(Failure::NoSuchJob)?;
            let (seed, rounds) = numbers_of(seed, rounds)?;
            show(rt, job, job.run(alloc, seed, rounds, Size::Full)?)
        }
        [name, seed, rounds, part] if name.as_str() == "texts" => {
            show_part(rt, alloc, numbers_of(seed, rounds)?, part, 0)
        }
        [name, seed, rounds, part, length] if name.as_str() == "texts" => {
            let length = length.parse::<u32>().ok().ok_or(Failure::NoSuchJob)?;
            show_part(rt, alloc, numbers_of(seed, rounds)?, part, length)
        }
        _ => Err(Failure::NoSuchJob),
    }
}

/// Returns a seed and how many rounds.
fn numbers_of(seed: &String, rounds: &String) -> Result<(u64, u32), Failure> {
    let seed = seed.parse::<u64>().ok().ok_or(Failure::NoSuchJob)?;
    let rounds = rounds.parse::<u32>().ok().ok_or(Failure::NoSuchJob)?;
    Ok((seed, rounds))
}

/// Does a part of the texts this many times, and prints the result of it.
fn show_part(
    rt: &impl Print,
    alloc: Global,
    (seed, rounds): (u64, u32),
    part: &String,
    length: u32,
) -> Result<(), Failure> {
    let part = part_of(part.as_str(), length).ok_or(Failure::NoSuchJob)?;
    let mut desk = Desk::new(alloc, seed, Size::Full)?;
    texts::run_part(&mut desk, part, rounds)?;
    show(rt, Job::Texts, desk)
}

fn job_of(name: &str) -> Option<Job> {
    for job in JOBS {
        if job.name() == name {
            return Some(job);
        }
    }
    None
}

fn run_all(rt: &impl Print, alloc: Global) -> Result<(), Failure> {
    for job in JOBS {
        show(rt, job, job.run(alloc, 1, 2, Size::Small)?)?;
    }
    Ok(())
}

/// Prints the result of a job.
fn show(rt: &impl Print, job: Job, mut desk: Desk) -> Result<(), Failure> {
    let name = job.name();
    let (answered, answers) = (desk.answers.bytes(), desk.answers.value());
    let (recorded, records) = (desk.records.bytes(), desk.records.value());
    println!(rt; "{name} answers={answered} {answers:016x} records={recorded} {records:016x}")?;
    Ok(())
}
