//! A peer that asks for answers and reads none: they wait, up to a bound, and then what it sends waits too.

use crate::hostile::settings::Settings;
use amqp_endpoint::{Endpoint, Fed, Outcome};
use std::alloc::{Allocator, Global};
use test_row_files::{Heap, Miss};

/// The bytes of the answers to an opening, at most.
const ANSWERS: usize = 1000;

/// Feeds an opening, whose answers are read, and then a unit this many times, and asks after each what is held. It
/// tells how many units were acted upon, the most that was held, and that no memory was requested; and what
/// becomes of the unit that waits once ten bytes are read, and then one more.
pub fn unread(
    alloc: Global,
    heap: Heap<'_>,
    settings: Settings,
    opening: &[u8],
    unit: &[u8],
    times: u32,
) -> Result<String, Miss> {
    let mut endpoint = Endpoint::new(heap, settings.config(heap)?)?;
    feed_opening(&mut endpoint, opening);
    told(alloc, heap, &mut endpoint, unit, times)
}

// It borrows the endpoint: one function that may drop it at each exit takes a minute to prove.
fn told(
    alloc: Global,
    heap: Heap<'_>,
    endpoint: &mut Endpoint<Heap<'_>>,
    unit: &[u8],
    times: u32,
) -> Result<String, Miss> {
    let requested = heap.requested();
    let (acted, most) = feed_units(endpoint, unit, times);
    let memory = heap.requested().saturating_sub(requested);
    let waiting = outcome_behind(endpoint, &mut [0; 10]);
    let last = outcome_behind(endpoint, &mut [0; 1]);
    Ok(format!(in alloc;
        "{acted} of {times}, held {most}, memory {memory}, {waiting:?}, {last:?}"
    )?)
}

/// Feeds an opening, and reads its answers.
fn feed_opening(endpoint: &mut Endpoint<Heap<'_>>, opening: &[u8]) {
    let mut rest = opening;
    for _ in 0..opening.len() {
        let fed = feed(endpoint, rest);
        rest = rest.get(fed.used..).unwrap_or(&[]);
    }
    let mut room = [0; ANSWERS];
    endpoint.output(&mut room);
}

/// Feeds a unit this many times, and returns how often it was acted upon, and the most that was held after it.
fn feed_units(endpoint: &mut Endpoint<Heap<'_>>, unit: &[u8], times: u32) -> (u32, u64) {
    let (mut acted, mut most) = (0_u32, 0_u64);
    for _ in 0..times {
        let fed = feed(endpoint, unit);
        acted = acted.saturating_add(u32::from(fed.outcome == Outcome::More));
        most = most.max(endpoint.held());
    }
    (acted, most)
}

/// Reads answers into the room, and returns what becomes of the unit that waits.
fn outcome_behind<A: Allocator + Copy>(endpoint: &mut Endpoint<A>, room: &mut [u8]) -> Outcome {
    endpoint.output(room);
    feed(endpoint, &[]).outcome
}

fn feed<A: Allocator + Copy>(endpoint: &mut Endpoint<A>, piece: &[u8]) -> Fed {
    endpoint.feed(piece)
}
