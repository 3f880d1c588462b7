//! A capture, dumped.

use crate::desk::Desk;
use crate::digest::Digest;
use crate::failure::Failure;
use crate::numbers::Numbers;
use crate::peer::{Head, Peer};
use amqp_dump::dump;
use amqp_frame::Device;
use amqp_perform::{Flow, Performative, ReceiverSettleMode};
use std::alloc::Global;

/// Dumps a capture: mostly transfers, flows and dispositions, one frame in thirty an attach or an open with a map of properties.
pub fn run(desk: &mut Desk) -> Result<(), Failure> {
    let (alloc, numbers, peer) = (desk.alloc, &mut desk.numbers, &mut desk.peer);
    peer.open(&map(alloc, numbers, 5)?)?;
    peer.begin(0, numbers.word())?;
    let mut id = numbers.word();
    for _ in 0..desk.size.of(4096, 60) {
        put_frame(alloc, peer, numbers, id)?;
        id = id.wrapping_add(1);
    }
    peer.close()?;
    dump_bytes(alloc, &peer.bytes, &mut desk.answers)
}

/// Appends a frame.
fn put_frame(
    alloc: Global,
    peer: &mut Peer,
    numbers: &mut Numbers,
    id: u32,
) -> Result<(), Failure> {
    let channel = (numbers.below(8) & 0xff) as u16;
    let handle = (numbers.below(8) & 0xff) as u8;
    match numbers.below(60) {
        0 => {
            let keys = numbers.between(5, 30);
            let properties = map(alloc, numbers, keys)?;
            peer.attach(channel, handle, ReceiverSettleMode::First, &properties)
        }
        1 => peer.open_frame(&map(alloc, numbers, 8)?),
        2..10 => peer.put(channel, &flow(numbers, handle)),
        10..20 => peer.settle(channel, id.wrapping_sub(numbers.below(100)), id),
        _ => {
            let head = Head {
                channel,
                handle,
                id,
                settled: numbers.is_one_of(3),
                more: false,
            };
            let payload = if numbers.is_one_of(40) {
                numbers.between(2_000, 20_000)
            } else {
                numbers.between(50, 300)
            };
            peer.transfer(head, numbers, payload)
        }
    }
}

fn flow(numbers: &mut Numbers, handle: u8) -> Performative<'static> {
    Performative::Flow(Flow {
        next_incoming_id: Some(numbers.word()),
        incoming_window: 2048,
        next_outgoing_id: numbers.word(),
        outgoing_window: 2048,
        handle: Some(handle as u32),
        delivery_count: Some(numbers.word()),
        link_credit: Some(numbers.below(1000)),
        available: None,
        drain: false,
        echo: numbers.is_one_of(50),
        properties: &[],
    })
}

/// Returns a map of symbols to strings, numbers and times.
pub fn map(alloc: Global, numbers: &mut Numbers, keys: u32) -> Result<Vec<u8>, Failure> {
    let mut items = Vec::new(alloc);
    for number in 0..keys {
        items.extend_from_slice(b"\xa3\x0cproperty")?;
        for shift in [12, 8, 4, 0] {
            let digit = (number >> shift & 0xf) as u8;
            items.push(0x61 + digit)?;
        }
        put_value(&mut items, numbers)?;
    }
    let size = ((items.len() as u64).wrapping_add(4) & 0xffff_ffff) as u32;
    let mut map = Vec::from_slice(alloc, &[0xd1])?;
    map.extend_from_slice(&size.to_be_bytes())?;
    map.extend_from_slice(&keys.wrapping_mul(2).to_be_bytes())?;
    map.extend_from_slice(&items)?;
    Ok(map)
}

fn put_value(items: &mut Vec<u8>, numbers: &mut Numbers) -> Result<(), Failure> {
    match numbers.below(3) {
        0 => {
            let length = (numbers.between(1, 40) & 0xff) as u8;
            items.extend_from_slice(&[0xa1, length])?;
            for _ in 0..length {
                items.push(0x61 + (numbers.below(26) & 0x1f) as u8)?;
            }
        }
        1 => {
            items.push(0x70)?;
            items.extend_from_slice(&numbers.word().to_be_bytes())?;
        }
        _ => {
            items.push(0x83)?;
            items.extend_from_slice(&(numbers.next() >> 20).to_be_bytes())?;
        }
    }
    Ok(())
}

/// Dumps these bytes, and adds what was printed.
pub fn dump_bytes(alloc: Global, bytes: &[u8], printed: &mut Digest) -> Result<(), Failure> {
    match dump(alloc, &mut Device::new(bytes), &mut Device::new(printed)) {
        Ok(true) => Ok(()),
        Ok(false) => Err(Failure::Fault),
        Err(fault) => Err(Failure::Dump(fault)),
    }
}

/// Dumps these bytes, which must have a fault, and adds what was printed.
pub fn dump_faulty(alloc: Global, bytes: &[u8], printed: &mut Digest) -> Result<(), Failure> {
    match dump_bytes(alloc, bytes, printed) {
        Err(Failure::Fault) => Ok(()),
        other => other,
    }
}
