//! What is on its way from one end to the other.

use std::alloc::{AllocError, Global};
use std::collections::VecDeque;

/// How many bytes wait at an end, and how many lie in a pipe, at most.
const MOST: usize = 8192;

/// The units that one end wrote and the other has not acted upon, and where their bytes lie: after those that the
/// reader took come those in the pipe, then those that wait at the writer.
#[derive(Drop)]
pub struct Way<T: Copy + Drop> {
    units: VecDeque<Unit<T>>,
    /// The bytes of the first unit that the reader took.
    taken: usize,
    pipe: usize,
    unsent: usize,
    /// How often the pipe was full when it was fed.
    pub times_full: u64,
}

#[derive(Clone, Copy, Drop)]
struct Unit<T: Copy + Drop> {
    says: T,
    len: usize,
}

impl<T: Copy + Drop> Way<T> {
    pub fn new(alloc: Global) -> Way<T> {
        Way {
            units: VecDeque::new(alloc),
            taken: 0,
            pipe: 0,
            unsent: 0,
            times_full: 0,
        }
    }

    /// Returns how many bytes more the writer may write.
    pub fn room(&self) -> usize {
        MOST.saturating_sub(self.unsent)
    }

    pub fn write(&mut self, says: T, len: usize) -> Result<(), AllocError> {
        self.unsent = self.unsent.saturating_add(len);
        self.units.push_back(Unit { says, len })?;
        Ok(())
    }

    /// Moves the first unsent bytes into the pipe: this many, or as many as there are and fit.
    pub fn fill(&mut self, n: usize) {
        let moved = n.min(self.unsent).min(MOST.saturating_sub(self.pipe));
        self.unsent = self.unsent.saturating_sub(moved);
        self.pipe = self.pipe.saturating_add(moved);
        if self.pipe == MOST {
            self.times_full = self.times_full.saturating_add(1);
        }
    }

    /// Feeds the pipe to the reader, which takes bytes to the end of the first unit, and none if that waits.
    pub fn feed(&mut self) -> usize {
        let len = match self.units.front() {
            Some(unit) => unit.len,
            None => 0,
        };
        let used = len.saturating_sub(self.taken).min(self.pipe);
        self.pipe = self.pipe.saturating_sub(used);
        self.taken = self.taken.saturating_add(used);
        used
    }

    /// Returns the first unit, where the reader took all of it.
    pub fn waiting(&self) -> Option<T> {
        let unit = self.units.front()?;
        if self.taken == unit.len {
            Some(unit.says)
        } else {
            None
        }
    }

    /// The first unit is acted upon.
    pub fn pass(&mut self) {
        let _unit = self.units.pop_front();
        self.taken = 0;
    }
}
