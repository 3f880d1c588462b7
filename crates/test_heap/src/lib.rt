//! The allocator of the tests: it refuses a chosen request for memory, and counts the bytes of the others.
#![tactic(auto)]

use std::alloc::{AllocError, Allocator};
use std::cell::Cell;

/// Passes each request for memory on to another allocator, but refuses one, and counts the bytes that were requested
/// and those that live.
///
/// To make a block larger or smaller is a request of a new block, after which the old one is given back.
pub struct TestHeap<B: Allocator> {
    inner: B,
    counts: Counts,
}

/// What a `TestHeap` counts. A count of bytes stays at its end rather than go beyond it.
#[derive(Drop)]
struct Counts {
    /// The requests up to the one to be refused, which is among them.
    left: Cell<u64>,
    requested: Cell<u64>,
    live: Cell<u64>,
    /// The most that lived at a time.
    peak: Cell<u64>,
}

impl<B: Allocator> TestHeap<B> {
    /// Refuses the request of this number, from 1 on, and none after it; at 0 none at all. What it grants comes from
    /// `inner`, which can refuse too: such a request has its number, but no byte of it is counted.
    pub fn new(inner: B, number: u64) -> TestHeap<B> {
        TestHeap {
            inner,
            counts: Counts {
                left: Cell::new(number),
                requested: Cell::new(0),
                live: Cell::new(0),
                peak: Cell::new(0),
            },
        }
    }

    /// Counts requests and their bytes anew, and refuses the request of this number from here on, as a new heap would.
    /// What lives is counted on, and is the most that did so far.
    pub fn restart(&self, number: u64) {
        self.counts.left.set(number);
        self.counts.requested.set(0);
        self.counts.peak.set(self.counts.live.get());
    }

    /// Returns whether a request is still to be refused.
    pub fn is_waiting(&self) -> bool {
        self.counts.left.get() > 0
    }

    /// Returns the bytes of all requests that were granted so far.
    pub fn requested(&self) -> u64 {
        self.counts.requested.get()
    }

    /// Returns the bytes that were granted and not given back.
    pub fn live(&self) -> u64 {
        self.counts.live.get()
    }

    /// Returns the most of them at a time.
    pub fn peak(&self) -> u64 {
        self.counts.peak.get()
    }
}

impl<B: Allocator> Drop for TestHeap<B> {
    fn drop(self) {
        let Self {
            inner: _,
            counts: _,
        } = self;
    }
}

impl Counts {
    /// Counts a request, and returns whether it is the one to be refused.
    fn note_request(&self) -> bool {
        let before = self.left.get();
        self.left.set(before.saturating_sub(1));
        before == 1
    }

    fn note_granted(&self, size: usize) {
        let size = size as u64;
        self.requested
            .set(self.requested.get().saturating_add(size));
        let live = self.live.get().saturating_add(size);
        self.live.set(live);
        self.peak.set(self.peak.get().max(live));
    }

    fn note_freed(&self, size: usize) {
        self.live.set(self.live.get().saturating_sub(size as u64));
    }
}

unsafe impl<B: Allocator> Allocator for TestHeap<B> {
    ghost dealloc_token = { λ heap ty ptr. B.dealloc_token heap.inner ty ptr };

    fn allocate(&self, size: usize, align: usize) -> Result<*mut u8, AllocError> {
        if self.counts.note_request() {
            return Err(AllocError);
        }
        match self.inner.allocate(size, align) {
            Ok(block) => {
                self.counts.note_granted(size);
                Ok(block)
            }
            Err(error) => Err(error),
        }
    }

    unsafe fn deallocate(&self, ptr: *mut u8, size: usize, align: usize) {
        self.counts.note_freed(size);
        self.inner.deallocate(ptr, size, align);
    }
}
