//! Vectors on a heap that counts them.

use std::alloc::{AllocError, Allocator, Global};
use std::process::Abort;
use std::test::Fail;
use test_heap::TestHeap;

/// Returns a vector of two elements, at 16 bytes.
fn pair<'a>(heap: &'a TestHeap<Global>) -> Result<Vec<u64, &'a TestHeap<Global>>, AllocError> {
    let mut pair = Vec::with_capacity(heap, 2)?;
    pair.push(1)?;
    pair.push(2)?;
    Ok(pair)
}

/// Asserts that this many bytes were granted, and that this many live.
fn assert_bytes<B: Allocator>(rt: &impl Abort, heap: &TestHeap<B>, granted: u64, live: u64) {
    assert_eq!(rt; (heap.requested(), heap.live()), (granted, live));
}

#[test]
fn refuses_the_request_of_a_number(rt: HostRuntime) {
    for number in 0..6 {
        let heap = TestHeap::new(rt.alloc(), number);
        for request in 1..5 {
            assert_request(&rt, &heap, request, number);
        }
        assert_bytes(
            &rt,
            &heap,
            if (1..5).contains(&number) { 48 } else { 64 },
            0,
        );
        assert_eq!(rt; heap.is_waiting(), number == 5, "{number}");
    }
}

/// Makes the request of a number, on a heap that refuses one.
fn assert_request(rt: &impl Abort, heap: &TestHeap<Global>, request: u64, refused: u64) {
    assert_eq!(rt;
        heap.is_waiting(),
        request <= refused,
        "{request} of {refused}"
    );
    assert_eq!(rt;
        pair(heap).is_err(),
        request == refused,
        "{request} of {refused}"
    );
}

#[test]
fn counts_what_is_requested_and_what_lives(rt: HostRuntime) -> Result<(), Fail> {
    let heap = TestHeap::new(rt.alloc(), 0);
    assert_bytes(&rt, &heap, 0, 0);
    let first = pair(&heap)?;
    assert_bytes(&rt, &heap, 16, 16);
    let second = pair(&heap)?;
    assert_bytes(&rt, &heap, 32, 32);
    drop(first);
    assert_bytes(&rt, &heap, 32, 16);
    drop(second);
    assert_bytes(&rt, &heap, 32, 0);
    Ok(())
}

/// What lives when the heap is started anew is the most that did.
#[test]
fn keeps_the_most_that_lived(rt: HostRuntime) -> Result<(), Fail> {
    let heap = TestHeap::new(rt.alloc(), 0);
    assert_eq!(rt; heap.peak(), 0);
    let first = pair(&heap)?;
    let second = pair(&heap)?;
    assert_eq!(rt; heap.peak(), 32);
    drop(first);
    assert_eq!(rt; (heap.live(), heap.peak()), (16, 32));
    let third = pair(&heap)?;
    assert_eq!(rt; (heap.live(), heap.peak()), (32, 32));
    drop(third);
    heap.restart(0);
    assert_eq!(rt; (heap.requested(), heap.peak()), (0, 16));
    let mut fourth = pair(&heap)?;
    fourth.reserve_exact(8)?; // the old block lives until the new one is filled
    assert_eq!(rt; (heap.live(), heap.peak()), (96, 112));
    drop(second);
    drop(fourth);
    assert_eq!(rt; (heap.live(), heap.peak()), (0, 112));
    Ok(())
}

/// A growth is one request, of the whole new block. If it is refused, the old block lives on.
#[test]
fn counts_a_growth_as_a_request(rt: HostRuntime) -> Result<(), Fail> {
    for (number, requested, live) in [(0, 16 + 80, 80), (2, 16, 16)] {
        let heap = TestHeap::new(rt.alloc(), number);
        let mut pair = pair(&heap)?;
        assert_eq!(rt; pair.reserve_exact(8).is_err(), number == 2, "{number}");
        assert_bytes(&rt, &heap, requested, live);
        assert_eq!(rt; pair.as_slice(), [1, 2].as_slice(), "{number}");
        drop(pair);
        assert_bytes(&rt, &heap, requested, 0);
    }
    Ok(())
}

#[test]
fn counts_no_byte_that_the_inner_allocator_refuses(rt: HostRuntime) {
    let heap = TestHeap::new(TestHeap::new(rt.alloc(), 1), 2);
    for is_waiting in [true, false] {
        assert!(rt; Vec::<u64, _>::with_capacity(&heap, 2).is_err());
        assert_eq!(rt; heap.is_waiting(), is_waiting);
        assert_bytes(&rt, &heap, 0, 0);
    }
}
