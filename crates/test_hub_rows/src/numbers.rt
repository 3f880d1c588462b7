//! Numbers that follow from a first one (xorshift).

#[derive(Drop)]
pub struct Numbers {
    last: u64,
}

impl Numbers {
    pub fn of(seed: u64) -> Numbers {
        Numbers {
            last: seed.wrapping_mul(0x9e37_79b9_7f4a_7c15) | 1,
        }
    }

    /// Returns a number below `end`; 0 if that is 0.
    pub fn below(&mut self, end: u32) -> u32 {
        let mut next = self.last;
        next ^= next << 13;
        next ^= next >> 7;
        next ^= next << 17;
        self.last = next;
        let high = (next >> 32) % (1 << 32);
        (high as u32).checked_rem(end).unwrap_or(0)
    }

    /// Returns whether a draw of one in `count` succeeds.
    pub fn is_one_of(&mut self, count: u32) -> bool {
        self.below(count) == 0
    }
}
