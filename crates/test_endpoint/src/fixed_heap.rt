//! An endpoint on a heap of fixed size.

use crate::peer::{OPENING, READY};
use amqp_endpoint::{Config, Endpoint, Outcome};
use amqp_perform::Outcome as Settlement;
use linked_list_allocator::LocalHeap;
use std::alloc::{AllocError, Global};
use std::process::Abort;
use std::test::Fail;

/// What an endpoint with one link counts as held at most, with frames of 2,048 bytes and four deliveries of 1,000.
const COUNTED: usize = 2048 + 8192 + 64 + (1407 + 4 * (1000 + 96));

/// The bytes of the frame of a delivery.
const DELIVERY: usize = 1020;

type Fixed<'a> = Endpoint<&'a LocalHeap>;

fn endpoint(heap: &LocalHeap) -> Result<Fixed<'_>, AllocError> {
    let name = String::from_str(heap, "r")?;
    let config = Config::checked(name, 2048, 0, 0, 4, 1000, 100).ok_or(AllocError)?;
    Endpoint::new(heap, config)
}

/// Returns a new one with a session and a link, which has all its credit.
fn attached<'a>(rt: &impl Abort, heap: &'a LocalHeap) -> Result<Fixed<'a>, Fail> {
    let mut endpoint = endpoint(heap)?;
    for unit in OPENING {
        assert!(rt; endpoint.feed(unit).outcome != Outcome::NoMemory);
    }
    assert_eq!(rt; endpoint.grant(0, 0, 4), Ok(()));
    Ok(endpoint)
}

/// Returns a delivery of 1,000 bytes in one transfer, with this id.
fn delivery(alloc: Global, id: u8) -> Result<Vec<u8>, AllocError> {
    let head = b"\x00\x00\x03\xfc\x02\x00\x00\x00\x00\x53\x14\xc0\x07\x03\x43\x52";
    let mut frame = Vec::from_slice(alloc, head.as_slice())?;
    frame.push(id)?;
    frame.extend_from_slice(b"\xa0\x01t".as_slice())?;
    frame.resize(DELIVERY, b'x')?;
    Ok(frame)
}

/// Hands a delivery up, and settles it.
fn receive(rt: &impl Abort, endpoint: &mut Fixed<'_>, id: u8) -> Result<(), Fail> {
    let taken = endpoint.take(0, 0).ok().ok_or("nothing taken")?;
    assert_eq!(rt;
        (taken.delivery_id, taken.message.len()),
        (u32::from(id), 1000)
    );
    drop(taken);
    assert_eq!(rt;
        endpoint.settle(0, u32::from(id), Settlement::Accepted),
        Ok(())
    );
    let mut room = [0; 64];
    endpoint.output(&mut room);
    Ok(())
}

/// Four deliveries are open at once.
#[test]
fn what_is_counted_is_enough(rt: HostRuntime) -> Result<(), Fail> {
    let heap = LocalHeap::new(rt.alloc(), COUNTED)?;
    let mut endpoint = attached(&rt, &heap)?;
    for id in 0..4 {
        let fed = endpoint.feed(&delivery(rt.alloc(), id)?);
        assert_eq!(rt; (fed.used, fed.outcome), (DELIVERY, READY), "{id}");
    }
    for id in 0..4 {
        receive(&rt, &mut endpoint, id)?;
    }
    drop(endpoint);
    assert_eq!(rt; heap.used(), 0);
    Ok(())
}

/// A delivery that finds no memory waits until another is handed up.
#[test]
fn with_less_a_delivery_waits(rt: HostRuntime) -> Result<(), Fail> {
    let heap = LocalHeap::new(rt.alloc(), COUNTED - 2000)?;
    receive_on(&rt, rt.alloc(), &heap)?;
    assert_eq!(rt; heap.used(), 0);
    Ok(())
}

/// Receives deliveries on this heap by an endpoint, which is dropped then.
fn receive_on(rt: &impl Abort, alloc: Global, heap: &LocalHeap) -> Result<(), Fail> {
    let mut endpoint = attached(rt, heap)?;
    receive_late(rt, alloc, &mut endpoint)
}

/// Receives deliveries, the last of which waits until the first is handed up.
// The body borrows what it uses: one that may drop it at each exit takes minutes to prove.
fn receive_late(rt: &impl Abort, alloc: Global, endpoint: &mut Fixed<'_>) -> Result<(), Fail> {
    let waiting = first_to_wait(rt, alloc, endpoint)?.ok_or("none waits")?;
    receive(rt, endpoint, 0)?;
    let fed = endpoint.feed(&[]);
    assert_eq!(rt; (fed.used, fed.outcome), (0, READY));
    for id in 1..waiting.saturating_add(1) {
        receive(rt, endpoint, id)?;
    }
    Ok(())
}

/// Feeds deliveries up to the first one that waits for memory, and returns its id.
fn first_to_wait(
    rt: &impl Abort,
    alloc: Global,
    endpoint: &mut Fixed<'_>,
) -> Result<Option<u8>, Fail> {
    for id in 0..4 {
        let held = endpoint.held();
        let fed = endpoint.feed(&delivery(alloc, id)?);
        assert_eq!(rt; fed.used, DELIVERY, "{id}");
        if fed.outcome == Outcome::NoMemory {
            assert_eq!(rt; endpoint.held(), held.saturating_add(DELIVERY as u64));
            return Ok(Some(id));
        }
        assert_eq!(rt; fed.outcome, READY, "{id}");
    }
    Ok(None)
}

#[test]
fn where_the_pipe_does_not_fit_there_is_no_endpoint(rt: HostRuntime) -> Result<(), Fail> {
    let heap = LocalHeap::new(rt.alloc(), 8192)?;
    assert!(rt; endpoint(&heap).is_err());
    assert_eq!(rt; heap.used(), 0);
    Ok(())
}
