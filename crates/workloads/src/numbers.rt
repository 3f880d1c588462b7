//! Numbers that follow from a seed.

/// Numbers that follow from a first one (xorshift).
#[derive(Clone, Copy)]
pub struct Numbers {
    last: u64,
}

impl Numbers {
    pub fn of(seed: u64) -> Numbers {
        let mixed = seed.wrapping_add(0x9e37_79b9_7f4a_7c15);
        let mixed = (mixed ^ (mixed >> 30)).wrapping_mul(0xbf58_476d_1ce4_e5b9);
        Numbers {
            last: (mixed ^ (mixed >> 27)) | 1,
        }
    }

    /// Returns the next one.
    pub fn next(&mut self) -> u64 {
        let mut next = self.last;
        next ^= next << 13;
        next ^= next >> 7;
        next ^= next << 17;
        self.last = next;
        next
    }

    /// Returns a number of 32 bits.
    pub fn word(&mut self) -> u32 {
        ((self.next() >> 16) & 0xffff_ffff) as u32
    }

    /// Returns a number below `end`, or 0 if that is 0.
    pub fn below(&mut self, end: u32) -> u32 {
        let wide = (self.word() as u64).wrapping_mul(end as u64);
        (wide >> 32 & 0xffff_ffff) as u32
    }

    /// Returns a number from `low` to `high`.
    pub fn between(&mut self, low: u32, high: u32) -> u32 {
        let count = high.wrapping_sub(low).wrapping_add(1);
        low.wrapping_add(self.below(count))
    }

    /// Returns whether a draw of one in `count` succeeds.
    pub fn is_one_of(&mut self, count: u32) -> bool {
        self.below(count) == 0
    }

    /// Returns one of these.
    pub fn of_these(&mut self, all: &[u32]) -> u32 {
        let count = (all.len() as u64 & 0xffff) as u32;
        all.get(self.below(count) as usize).copied().unwrap_or(0)
    }
}
