//! A stream of which each byte is replaced in turn.

use crate::hostile::settings::Settings;
use crate::hostile::tally::Tally;
use amqp_endpoint::{Endpoint, Event, Outcome};
use amqp_frame::{Device, Direct};
use amqp_perform::Outcome as Settlement;
use amqp_serve::{Policy, serve};
use std::alloc::Global;
use test_row_files::{Heap, Miss};

/// Replaces each byte by 0, by 255 and by the next number, and returns how many of these streams come to their
/// end, with no more held after any call than may be.
pub fn count_kept(
    alloc: Global,
    heap: Heap<'_>,
    settings: Settings,
    stream: &[u8],
) -> Result<u32, Miss> {
    let mut kept = 0_u32;
    let mut bytes = Vec::from_slice(alloc, stream)?;
    for (at, byte) in stream.iter().enumerate() {
        for new in [0x00, 0xff, byte.wrapping_add(1)] {
            put(&mut bytes, at, new);
            let is_kept = is_bounded(heap, settings, &bytes)?
                && is_served(alloc, heap, settings, &bytes)?;
            kept = kept.saturating_add(u32::from(is_kept));
        }
        put(&mut bytes, at, *byte);
    }
    Ok(kept)
}

fn put(bytes: &mut Vec<u8>, at: usize, byte: u8) {
    if let Some(replaced) = bytes.get_mut(at) {
        *replaced = byte;
    }
}

/// Returns whether an application that takes and settles what comes finds no more held than may be with one
/// session and two links, after each of its calls.
fn is_bounded(heap: Heap<'_>, settings: Settings, stream: &[u8]) -> Result<bool, Miss> {
    let mut endpoint = Endpoint::new(heap, settings.config(heap)?)?;
    let bound = settings.bound(1, 2);
    let (mut rest, mut room, mut most) = (stream, [0; 64], 0);
    for _ in 0..stream.len() {
        let fed = endpoint.feed(rest);
        rest = rest.get(fed.used..).unwrap_or(&[]);
        most = endpoint.held().max(most);
        most = follow(&mut endpoint, fed.outcome).max(most);
        endpoint.output(&mut room);
    }
    let is_over = rest.is_empty() || endpoint.is_over();
    endpoint.finish();
    Ok(is_over && most.max(endpoint.held()) <= bound)
}

/// Grants to a link that is attached, and takes and settles a message that is ready. Returns the most that was
/// held after one of the calls.
fn follow(endpoint: &mut Endpoint<Heap<'_>>, outcome: Outcome) -> u64 {
    let mut most = 0;
    match outcome {
        Outcome::Event(Event::Attached { channel, handle }) => {
            let _ = endpoint.grant(channel, handle, 1);
        }
        Outcome::Event(Event::Ready { channel, handle }) => {
            if let Ok(taken) = endpoint.take(channel, handle) {
                most = endpoint.held();
                let _ = endpoint.settle(channel, taken.delivery_id, Settlement::Accepted);
                most = endpoint.held().max(most);
            }
            let _ = endpoint.grant(channel, handle, 1);
        }
        _ => {}
    }
    endpoint.held().max(most)
}

/// Returns whether a server comes to the end of it, and its peer is sent whole frames.
fn is_served(
    alloc: Global,
    heap: Heap<'_>,
    settings: Settings,
    stream: &[u8],
) -> Result<bool, Miss> {
    let mut endpoint = Endpoint::new(heap, settings.config(heap)?)?;
    let (mut reader, mut tally) = (stream, Tally::new(alloc, u64::MAX)?);
    let mut records = Vec::new(alloc);
    let policy = Policy {
        credit: 1,
        outcome: Settlement::Accepted,
    };
    let end = serve(
        &mut endpoint,
        &mut Device::new(Direct::new(&mut reader)),
        &mut Device::new(Direct::new(&mut tally)),
        &mut Device::new(&mut records),
        policy,
    );
    Ok(end.is_ok() && tally.is_whole() && endpoint.held() == 0)
}
