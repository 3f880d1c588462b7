//! A message of many transfers, of which each request for memory is refused in turn.

use crate::peer::{OPENING, READY, UNFINISHED};
use amqp_endpoint::{Config, Endpoint, Outcome};
use amqp_link::Message;
use std::alloc::{Allocator, Global};
use std::process::Abort;
use std::test::Fail;
use test_heap::TestHeap;

/// The first transfer of a delivery, one that another follows, and the last one, of one byte each.
const FIRST: &[u8] =
    b"\x00\x00\x00\x17\x02\x00\x00\x00\x00\x53\x14\xc0\x09\x06\x43\x43\xa0\x01t\x40\x40\x41x";

const NEXT: &[u8] =
    b"\x00\x00\x00\x15\x02\x00\x00\x00\x00\x53\x14\xc0\x07\x06\x43\x40\x40\x40\x40\x41x";

const LAST: &[u8] = b"\x00\x00\x00\x10\x02\x00\x00\x00\x00\x53\x14\xc0\x02\x01\x43x";

/// An endpoint whose heap refuses a request.
type Refused<'a> = Endpoint<&'a TestHeap<Global>>;

/// Returns a new one, with frames of 8,192 bytes and messages of 10,000. None if memory is refused.
fn endpoint<A: Allocator + Copy>(alloc: A) -> Option<Endpoint<A>> {
    let name = String::from_str(alloc, "r").ok()?;
    let config = Config::checked(name, 8192, 0, 1, 4, 10000, 5000)?;
    Endpoint::new(alloc, config).ok()
}

/// Returns what becomes of a unit, which may wait first, whole, for memory that was refused.
fn fed(endpoint: &mut Refused<'_>, unit: &[u8]) -> Result<Outcome, Fail> {
    let held = endpoint.held();
    let fed = endpoint.feed(unit);
    if fed.used != unit.len() {
        return Err(Fail::from("not all of a unit was used"));
    }
    if fed.outcome != Outcome::NoMemory {
        return Ok(fed.outcome);
    }
    if endpoint.held() != held.saturating_add(unit.len() as u64) {
        return Err(Fail::from("a unit that waits is not all that was added"));
    }
    Ok(endpoint.feed(&[]).outcome)
}

/// Returns the first transfer of a delivery, which another follows, with this many bytes.
fn first_of(alloc: Global, count: u32) -> Result<Vec<u8>, Fail> {
    let (head, _) = FIRST.split_at(22);
    let mut unit = Vec::from_slice(alloc, &count.saturating_add(22).to_be_bytes())?;
    unit.extend_from_slice(head.get(4..).unwrap_or(&[]))?;
    for _ in 0..count {
        unit.push(b'x')?;
    }
    Ok(unit)
}

/// Returns how many bytes were granted for the first transfer of a link when its request of this number was
/// refused. None if it makes no such request.
fn granted_before(alloc: Global, number: u64, unit: &[u8]) -> Result<Option<u64>, Fail> {
    let heap = TestHeap::new(alloc, 0);
    let mut endpoint = endpoint(&heap).ok_or("no endpoint")?;
    for unit in OPENING {
        let _ = fed(&mut endpoint, unit)?;
    }
    let _ = endpoint.grant(0, 0, 1);
    heap.restart(number);
    match endpoint.feed(unit).outcome {
        Outcome::NoMemory => Ok(Some(heap.requested())),
        outcome if outcome == UNFINISHED => Ok(None),
        _ => Err(Fail::from("another outcome")),
    }
}

/// Receives a message of 5,000 transfers, if there is memory for an endpoint.
// The body borrows what it uses: one that may drop it at each exit takes minutes to prove.
fn receive(rt: &impl Abort, heap: &TestHeap<Global>) -> Result<(), Fail> {
    match endpoint(heap) {
        Some(mut endpoint) => receive_by(rt, heap, &mut endpoint),
        None => Ok(()),
    }
}

/// Receives it by this endpoint.
fn receive_by(
    rt: &impl Abort,
    heap: &TestHeap<Global>,
    endpoint: &mut Refused<'_>,
) -> Result<(), Fail> {
    feed_all(rt, endpoint)?;
    match endpoint.take(0, 0) {
        Ok(taken) => assert_whole(rt, heap, &taken.message),
        Err(_) => Err(Fail::from("nothing taken")),
    }
}

/// Feeds all of its transfers.
fn feed_all(rt: &impl Abort, endpoint: &mut Refused<'_>) -> Result<(), Fail> {
    for unit in OPENING {
        let _ = fed(endpoint, unit)?;
    }
    assert_eq!(rt; endpoint.grant(0, 0, 1), Ok(()));
    assert_eq!(rt; fed(endpoint, FIRST)?, UNFINISHED);
    for _ in 0..4998 {
        assert_eq!(rt; fed(endpoint, NEXT)?, UNFINISHED);
    }
    assert_eq!(rt; fed(endpoint, LAST)?, READY);
    Ok(())
}

/// Asserts that the message is whole, in two pieces.
fn assert_whole(
    rt: &impl Abort,
    heap: &TestHeap<Global>,
    message: &Message<&TestHeap<Global>>,
) -> Result<(), Fail> {
    assert_eq!(rt;
        (message.piece(0).len(), message.piece(4096).len()),
        (4096, 904)
    );
    let copy = message.to_vec(heap).or_else(|_| message.to_vec(heap))?;
    assert!(rt; copy.len() == 5000 && copy.iter().all(|byte| *byte == b'x'));
    Ok(())
}

/// The endpoint asks for its name, the table of channels, the buffer and the pipe; for a session; for the table of handles, the
/// name, source and target of a link and the link; for the delivery, its place, room of 1 byte, 2, 4 and so on to 4,096, a list
/// of pieces and the second piece; and the copy for itself.
#[test]
fn each_growth_of_a_long_message_is_refused_in_turn(rt: HostRuntime) -> Result<(), Fail> {
    let mut refused = 0;
    for number in 1..100 {
        let heap = TestHeap::new(rt.alloc(), number);
        receive(&rt, &heap)?;
        assert_eq!(rt; heap.live(), 0, "at {number}");
        if heap.is_waiting() {
            break;
        }
        refused = number;
    }
    assert_eq!(rt; refused, 4 + 1 + 5 + 2 + 13 + 2 + 1);
    Ok(())
}

/// The delivery and its place are requested, and its payload last: what was granted before does not depend on the
/// payload.
#[test]
fn a_delivery_has_its_place_before_its_payload_is_copied(rt: HostRuntime) -> Result<(), Fail> {
    let alloc = rt.alloc();
    let [short, long] = [first_of(alloc, 1)?, first_of(alloc, 4000)?];
    for number in 1..4 {
        let granted = granted_before(alloc, number, &short)?;
        assert!(rt; granted.is_some(), "{number}");
        assert_eq!(rt; granted_before(alloc, number, &long)?, granted, "{number}");
    }
    assert_eq!(rt; granted_before(alloc, 4, &long)?, None);
    Ok(())
}
