//! Lists of turns that follow from a number.

use crate::alone::Life;
use crate::numbers::Numbers;
use crate::peers::stream;
use crate::rows::{LIMIT, ROOM, RULE, settings};
use amqp_endpoint::Config;
use amqp_hub::{Hub, Ledger, Turn, TurnAnswer};
use std::alloc::{AllocError, Global};
use test_row_files::{Heap, Miss};

/// How often each came, so that lists that reach too little are seen.
#[derive(Clone, Copy, Default)]
pub struct Came {
    pub turns: u64,
    pub refused: u64,
    pub starved: u64,
    pub compared: u64,
}

/// A hub beside what its turns say.
#[derive(Drop)]
struct Bench<'a> {
    hub: Hub<Ledger<Heap<'a>>, Heap<'a>>,
    opened: u64,
    config: Config<Heap<'a>>,
    lives: Vec<Option<Life>>,
}

/// Makes the list of turns of a number, with a request for memory refused, and returns what differs first, if
/// anything does.
pub fn difference(
    alloc: Global,
    heap: Heap<'_>,
    number: u64,
    refused: u64,
    came: &mut Came,
) -> Result<Option<&'static str>, Miss> {
    let mut numbers = Numbers::of(number);
    let lives = Vec::with_capacity(alloc, LIMIT)?;
    heap.restart(0);
    let config = settings(heap)?;
    heap.restart(refused);
    let mut bench = Bench {
        hub: Hub::new(heap, LIMIT, Ledger::new(heap, ROOM)),
        opened: 0,
        config,
        lives,
    };
    difference_in(alloc, &mut bench, &mut numbers, came)
}

/// Makes the turns that follow from these numbers, and returns what differs first, if anything does.
fn difference_in(
    alloc: Global,
    bench: &mut Bench<'_>,
    numbers: &mut Numbers,
    came: &mut Came,
) -> Result<Option<&'static str>, Miss> {
    for _ in 0..LIMIT {
        bench.lives.push(None)?;
    }
    for _ in 0..20_u32.saturating_add(numbers.below(80)) {
        came.turns = came.turns.saturating_add(1);
        let key = if numbers.is_one_of(16) {
            LIMIT
        } else {
            numbers.below(3) as usize
        };
        if let Some(difference) = turn(alloc, bench, key, numbers, came)? {
            return Ok(Some(difference));
        }
    }
    for key in 0..LIMIT {
        if let Some(difference) = compared(alloc, bench, key, came)? {
            return Ok(Some(difference));
        }
    }
    Ok(None)
}

/// One turn.
fn turn(
    alloc: Global,
    bench: &mut Bench<'_>,
    key: usize,
    numbers: &mut Numbers,
    came: &mut Came,
) -> Result<Option<&'static str>, Miss> {
    let choice = numbers.below(64);
    let most = match numbers.below(4) {
        0 => numbers.below(10),
        _ => 4096,
    } as usize;
    if choice == 61
        && let Some(difference) = compared(alloc, bench, key, came)?
    {
        return Ok(Some(difference));
    }
    let answer = match choice {
        0..=7 => open(bench),
        8..=31 => hear(bench, key, most),
        56..=58 => make(bench, &Turn::Heartbeat { key }),
        59 => make(bench, &Turn::Finish { key }),
        60 => make(bench, &Turn::Close { key }),
        61 => make(bench, &Turn::Remove { key }),
        _ => hand(bench, key, most),
    };
    match answer {
        Ok(answer) => note(alloc, bench, key, answer, numbers, came),
        Err(AllocError) => Ok(forget(bench, key)),
    }
}

fn make<'a>(bench: &mut Bench<'a>, turn: &Turn<'_>) -> Result<TurnAnswer<Heap<'a>>, AllocError> {
    bench.hub.make(&bench.config, RULE, bench.opened, turn)
}

/// Opens a connection, whose number no other has.
fn open<'a>(bench: &mut Bench<'a>) -> Result<TurnAnswer<Heap<'a>>, AllocError> {
    bench.opened = bench.opened.saturating_add(1);
    make(bench, &Turn::Open)
}

/// Hands out at most this many bytes, once the ledger has taken all records for good.
fn hand<'a>(
    bench: &mut Bench<'a>,
    key: usize,
    room: usize,
) -> Result<TurnAnswer<Heap<'a>>, AllocError> {
    let _ = make(bench, &Turn::Settle { most: Some(ROOM) })?;
    make(bench, &Turn::Hand { key, room })
}

/// Hears this many bytes at most of those that are to come.
fn hear<'a>(
    bench: &mut Bench<'a>,
    key: usize,
    most: usize,
) -> Result<TurnAnswer<Heap<'a>>, AllocError> {
    let rest = match bench.lives.get(key) {
        Some(Some(life)) => life.rest(),
        _ => &[],
    };
    let piece = &rest[..rest.len().min(most)];
    bench.hub.make(
        &bench.config,
        RULE,
        bench.opened,
        &Turn::Hear { key, piece },
    )
}

/// Removes a connection whose answer is not known, since memory for it was refused.
fn forget(bench: &mut Bench<'_>, key: usize) -> Option<&'static str> {
    let _ = make(bench, &Turn::Remove { key });
    if let Some(place) = bench.lives.get_mut(key) {
        *place = None;
    }
    None
}

/// Notes an answer in the life of its connection.
fn note(
    alloc: Global,
    bench: &mut Bench<'_>,
    key: usize,
    answer: TurnAnswer<Heap<'_>>,
    numbers: &mut Numbers,
    came: &mut Came,
) -> Result<Option<&'static str>, Miss> {
    let key = match answer {
        TurnAnswer::Refused(_) => {
            came.refused = came.refused.saturating_add(1);
            return Ok(None);
        }
        TurnAnswer::Opened(key) => key,
        _ => key,
    };
    let Some(place) = bench.lives.get_mut(key) else {
        return Ok(Some("a key beyond the limit"));
    };
    match (answer, place.as_mut()) {
        (TurnAnswer::Opened(_), None) => {
            *place = Some(Life::new(alloc, stream(alloc, numbers)?));
        }
        (TurnAnswer::Removed, Some(_)) => *place = None,
        (TurnAnswer::Opened(_), Some(_)) => return Ok(Some("a key that is not free")),
        (answer, Some(life)) => {
            if !life.goes_on(answer, came)? {
                *place = None;
            }
        }
        (_, None) => return Ok(Some("an answer without a connection")),
    }
    Ok(None)
}

/// Returns what a connection was told and recorded beside what its own bytes give. All that waits for its peer is
/// handed out before.
fn compared(
    alloc: Global,
    bench: &mut Bench<'_>,
    key: usize,
    came: &mut Came,
) -> Result<Option<&'static str>, Miss> {
    let Some(life) = bench.lives.get_mut(key).and_then(|life| life.as_mut()) else {
        return Ok(None);
    };
    came.compared = came.compared.saturating_add(1);
    // What waits lies in two pieces at most, and one request is refused.
    for _ in 0..3 {
        let settle = Turn::Settle { most: Some(ROOM) };
        bench.hub.make(&bench.config, RULE, bench.opened, &settle)?;
        let turn = Turn::Hand { key, room: 10_000 };
        let answer = bench.hub.make(&bench.config, RULE, bench.opened, &turn)?;
        life.goes_on(answer, came)?;
    }
    life.difference(alloc)
}
