//! What few senders do, and some do: long messages in short frames on many links at once, pieces of one byte, ids that fall and
//! are settled by the hundred, deliveries that are given up, and a map of many keys.

use crate::desk::Desk;
use crate::digest::Digest;
use crate::dumped::{dump_bytes, map};
use crate::failure::Failure;
use crate::gateway::{empty, is_closed, new_endpoint};
use crate::peer::Head;
use crate::receiving::{Reads, Receiver};
use crate::telemetry::begin;
use amqp_endpoint::{Endpoint, Event, Outcome};
use amqp_perform::{Outcome as Settlement, ReceiverSettleMode};

/// The payload of a frame of 512 bytes.
const SHORT: u32 = 480;

/// All of these, once.
pub fn run(desk: &mut Desk) -> Result<(), Failure> {
    interleaved(desk)?;
    desk.peer.bytes.clear();
    byte_by_byte(desk)?;
    desk.peer.bytes.clear();
    falling(desk)?;
    desk.peer.bytes.clear();
    given_up(desk)?;
    desk.peer.bytes.clear();
    let keys = desk.size.of(8192, 64);
    let properties = map(desk.alloc, &mut desk.numbers, keys)?;
    desk.peer.open(&properties)?;
    dump_bytes(desk.alloc, &desk.peer.bytes, &mut desk.answers)
}

/// Messages of 4,800 bytes in frames of 512, on each of 64 links at the same time.
fn interleaved(desk: &mut Desk) -> Result<(), Failure> {
    let (numbers, peer) = (&mut desk.numbers, &mut desk.peer);
    peer.open(&[])?;
    for channel in 0..8 {
        begin(peer, channel, 8)?;
    }
    let mut id = numbers.word();
    for _ in 0..desk.size.of(8, 1) {
        for frame in 0..10 {
            for channel in 0..8 {
                for handle in 0..8 {
                    if frame == 0 {
                        let head = Head {
                            channel,
                            handle,
                            id,
                            settled: false,
                            more: true,
                        };
                        peer.transfer(head, numbers, SHORT)?;
                        id = id.wrapping_add(1);
                    } else {
                        peer.goes_on(channel, handle, frame < 9, numbers, SHORT)?;
                    }
                }
            }
        }
    }
    peer.close()?;
    let receiver = Receiver {
        reads: Reads::AtMost(65536),
        credit: 16,
    };
    receiver.serve(desk)
}

/// Messages that come one byte at a time.
fn byte_by_byte(desk: &mut Desk) -> Result<(), Failure> {
    let (numbers, peer) = (&mut desk.numbers, &mut desk.peer);
    peer.open(&[])?;
    begin(peer, 0, 1)?;
    let mut id = numbers.word();
    for _ in 0..desk.size.of(200, 2) {
        let head = Head {
            channel: 0,
            handle: 0,
            id,
            settled: numbers.is_one_of(3),
            more: false,
        };
        let payload = numbers.between(50, 300);
        peer.transfer(head, numbers, payload)?;
        id = id.wrapping_add(1);
    }
    peer.close()?;
    let receiver = Receiver {
        reads: Reads::AtMost(1),
        credit: 16,
    };
    receiver.serve(desk)
}

/// Deliveries whose ids fall, of which the sender settles some hundreds at a time.
fn falling(desk: &mut Desk) -> Result<(), Failure> {
    let (numbers, peer) = (&mut desk.numbers, &mut desk.peer);
    peer.open(&[])?;
    peer.begin(0, 0)?;
    peer.attach(0, 0, ReceiverSettleMode::Second, &[])?;
    let mut id = numbers.word();
    for _ in 0..desk.size.of(6, 1) {
        let last = id;
        let count = numbers.between(100, 900);
        for _ in 0..count {
            id = id.wrapping_sub(1);
            let head = Head {
                channel: 0,
                handle: 0,
                id,
                settled: false,
                more: false,
            };
            let payload = numbers.between(50, 300);
            peer.transfer(head, numbers, payload)?;
        }
        peer.settle(0, id, last)?;
    }
    peer.close()?;
    hear(desk)
}

/// Deliveries of two frames that are given up by the hundred.
fn given_up(desk: &mut Desk) -> Result<(), Failure> {
    let (numbers, peer) = (&mut desk.numbers, &mut desk.peer);
    peer.open(&[])?;
    begin(peer, 0, 8)?;
    let mut id = numbers.word();
    for _ in 0..desk.size.of(2000, 20) {
        let handle = (numbers.below(8) & 0xff) as u8;
        let head = Head {
            channel: 0,
            handle,
            id,
            settled: false,
            more: true,
        };
        let payload = numbers.between(50, 300);
        peer.transfer(head, numbers, payload)?;
        if numbers.is_one_of(4) {
            peer.goes_on(0, handle, false, numbers, payload)?;
        } else {
            peer.abort(0, handle)?;
        }
        id = id.wrapping_add(1);
    }
    peer.close()?;
    let receiver = Receiver {
        reads: Reads::AtMost(4096),
        credit: 100,
    };
    receiver.serve(desk)
}

/// Feeds what the desk has to an application that takes each message and tells its sender.
fn hear(desk: &mut Desk) -> Result<(), Failure> {
    let mut endpoint = new_endpoint(desk.alloc, 1024)?;
    let mut room = Vec::from_elem(desk.alloc, 0, 8192)?;
    hear_by(&mut endpoint, &mut room, desk)
}

/// Feeds it to this endpoint, and moves out what answers it by this room.
// The body borrows what it uses: one that may drop it at each exit takes minutes to prove.
fn hear_by(endpoint: &mut Endpoint, room: &mut [u8], desk: &mut Desk) -> Result<(), Failure> {
    let mut rest = desk.peer.bytes.as_slice();
    for number in 0..desk.peer.bytes.len() {
        let fed = endpoint.feed(rest);
        rest = rest.get(fed.used..).unwrap_or(&[]);
        hear_of(endpoint, fed.outcome, &mut desk.records)?;
        if number % 16 == 15 {
            empty(endpoint, room, &mut desk.answers)?;
        }
        if rest.is_empty() {
            break;
        }
    }
    empty(endpoint, room, &mut desk.answers)?;
    is_closed(endpoint)
}

fn hear_of(endpoint: &mut Endpoint, outcome: Outcome, records: &mut Digest) -> Result<(), Failure> {
    match outcome {
        Outcome::Event(Event::Attached { channel, handle }) => {
            endpoint.grant(channel, handle, 1024)?;
        }
        Outcome::Event(Event::Ready { channel, handle }) => {
            let taken = endpoint.take(channel, handle)?;
            records.add(taken.message.piece(0))?;
            endpoint.settle(channel, taken.delivery_id, Settlement::Accepted)?;
        }
        Outcome::Event(Event::Settled { channel, count }) => {
            records.number(count as u64)?;
            endpoint.grant(channel, 0, count)?;
            if let Some(places) = endpoint.window(channel) {
                endpoint.widen(channel, 2048u32.saturating_sub(places))?;
            }
        }
        Outcome::Event(_) | Outcome::More => {}
        _ => records.number(11)?,
    }
    Ok(())
}
