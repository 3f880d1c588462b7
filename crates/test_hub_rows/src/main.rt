//! Tests of a hub from outside.
//!
//! `test_hub_rows FILE COUNT SEED` makes the turns that are the rows of a file, whose format `test_row_files` has,
//! replays a list, and makes then this many lists of turns that follow from numbers, from this one on. After each
//! list what each connection was told and what was recorded of it is compared with what a server alone makes of
//! its own bytes. In each fourth list a request for memory is refused; the first ten are made again with each of
//! their requests refused in turn. The first list that differs ends the program.
#![tactic(auto)]

mod alone;
mod lists;
mod numbers;
mod peers;
mod rows;

use crate::lists::{Came, difference};
use crate::numbers::Numbers;
use crate::rows::{LIMIT, ROOM, RULE, Rows, settings, text_of};
use amqp_endpoint::Config;
use amqp_hub::{Replayed, Turn, TurnAnswer, hub_replay};
use std::alloc::{AllocError, AllocGlobal, Allocator, Global};
use std::io::Print;
use std::{env, fs};
use test_heap::TestHeap;
use test_row_files::words::number;
use test_row_files::{Heap, Miss, RowFile};

/// How many lists are made with each request refused in turn, and how many requests they have at most.
const LISTS: u64 = 10;

const MOST: u64 = 10_000;

fn main(rt: HostRuntime) -> Result<(), Miss> {
    let words: Vec<String> = env::args(&rt)?.skip(1).collect(rt.alloc())?;
    let [file, count, seed] = words.as_slice() else {
        return Err(Miss::Unread("usage: test_hub_rows FILE COUNT SEED"));
    };
    let heap = TestHeap::new(rt.alloc(), 0);
    tested(&rt, &heap, file.as_str(), count.as_str(), seed.as_str())
}

/// Makes the rows, the replay and the lists, and prints what came.
// The body borrows what it uses: one that may drop it at each exit takes minutes to prove.
fn tested(
    rt: &HostRuntime,
    heap: Heap<'_>,
    file: &str,
    count: &str,
    seed: &str,
) -> Result<(), Miss> {
    run_rows(rt, heap, file)?;
    replay(rt, heap)?;
    let seed = u64::from(number(seed)?);
    let mut came = Came::default();
    make_lists(rt, heap, number(count)?, seed, &mut came)?;
    make_refused(rt, heap, seed, &mut came)?;
    print_counts(rt, came)
}

/// Makes the turns that are the rows of a file, and prints the report.
fn run_rows(rt: &HostRuntime, heap: Heap<'_>, file: &str) -> Result<(), Miss> {
    let text = fs::read_to_string(rt, file)?;
    let report = report_of(rt.alloc(), heap, text.as_str())?;
    rt.print(report.as_str())?;
    Ok(())
}

/// Returns the report of the rows of a text.
fn report_of(alloc: Global, heap: Heap<'_>, text: &str) -> Result<String, Miss> {
    let file = RowFile::read(alloc, text)?;
    file.run(alloc, heap, &mut Rows::new(heap))
}

/// Makes this many lists, some with a request refused.
fn make_lists<R: Print + AllocGlobal>(
    rt: &R,
    heap: Heap<'_>,
    count: u32,
    seed: u64,
    came: &mut Came,
) -> Result<(), Miss> {
    for index in 0..count {
        let number = seed.saturating_add(u64::from(index));
        let mut numbers = Numbers::of(!number);
        let refused = match numbers.below(4) {
            0 => u64::from(numbers.below(200)).saturating_add(1),
            _ => 0,
        };
        made(rt, heap, number, refused, came)?;
    }
    Ok(())
}

/// Makes the first lists with each of their requests refused in turn.
fn make_refused<R: Print + AllocGlobal>(
    rt: &R,
    heap: Heap<'_>,
    seed: u64,
    came: &mut Came,
) -> Result<(), Miss> {
    for number in seed..seed.saturating_add(LISTS) {
        for refused in 1..MOST {
            made(rt, heap, number, refused, came)?;
            if heap.is_waiting() {
                break;
            }
        }
    }
    Ok(())
}

/// Prints how often each came.
fn print_counts<R: Print>(rt: &R, came: Came) -> Result<(), Miss> {
    let Came {
        turns,
        refused,
        starved,
        compared,
    } = came;
    println!(rt;
        "{turns} turns: {refused} were refused, and {starved} units waited for memory; {compared} connections are what their own bytes give"
    )?;
    Ok(())
}

/// Replays a list, and prints its answers.
fn replay<R: Print + AllocGlobal>(rt: &R, heap: Heap<'_>) -> Result<(), Miss> {
    let turns = [
        Turn::Open,
        Turn::Hear {
            key: 0,
            piece: b"AMQP\0\x01\0\0",
        },
        Turn::Hand { key: 0, room: 100 },
        Turn::Close { key: 1 },
        Turn::Count,
    ];
    let replayed = replayed(heap, &settings(heap)?, &turns)?;
    print_answers(rt, &replayed.answers)
}

/// Makes these turns on a new hub.
fn replayed<A: Allocator + Copy>(
    alloc: A,
    config: &Config<A>,
    turns: &[Turn<'_>],
) -> Result<Replayed<A>, AllocError> {
    hub_replay(alloc, config, RULE, LIMIT, ROOM, turns)
}

fn print_answers<R: Print + AllocGlobal>(
    rt: &R,
    answers: &[TurnAnswer<Heap<'_>>],
) -> Result<(), Miss> {
    for answer in answers {
        let text = text_of(rt.alloc(), answer)?;
        println!(rt; "{text}")?;
    }
    Ok(())
}

/// Makes the list of turns of a number, with a request refused, or none.
fn made<R: Print + AllocGlobal>(
    rt: &R,
    heap: Heap<'_>,
    number: u64,
    refused: u64,
    came: &mut Came,
) -> Result<(), Miss> {
    if let Some(difference) = difference(rt.alloc(), heap, number, refused, came)? {
        println!(rt; "list {number}, request {refused} refused: {difference}")?;
        return Err(Miss::Unread("a connection differs from what its own bytes give"));
    }
    Ok(())
}
