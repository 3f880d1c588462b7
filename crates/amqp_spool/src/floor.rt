//! The floor of a spool: up to which number its segments may be missing.
ghost use Rattle.std.specs.Prelude.{◌≡◌, ◌≢◌, None, IfSome};
ghost use Rattle.amqp_spool.specs.Floors.{IsFloor, floor_front, floor_text};

use crate::head::{number_at, put, sixteen_at};
use crate::sum::sum_of;

/// How many bytes the floor has.
pub const FLOOR: usize = 40;

/// Up to which number the segments of a spool may be missing.
#[derive(Clone, Copy, Debug, PartialEq, Eq)]
pub struct Floor {
    /// The spool.
    pub spool: [u8; 16],
    /// The last number whose segment may be missing.
    pub number: u64,
    /// The last number that was dropped unread; 0 if none was.
    pub dropped: u64,
}

impl Floor {
    /// Returns its bytes.
    #[tactic(auto, unfolding(crate::specs::Floors::floor_text))]
    pub fn to_bytes(&self) -> [u8; FLOOR]
        ensures { result ≡ floor_text self.now }
    {
        let mut bytes = [0; FLOOR];
        let front = self.front();
        put(&mut bytes, 0, &front);
        put(
            &mut bytes,
            32,
            &sum_of(&self.spool, &front, &[]).to_be_bytes(),
        );
        bytes
    }

    /// Reads a floor. Returns `None` if these bytes are none.
    pub fn read(bytes: &[u8]) -> Option<Floor>
        ensures some { IfSome result (λ floor. bytes.now ≡ floor_text floor) }
        ensures none { result ≡ None → (f : Floor) → IsFloor f → bytes.now ≢ floor_text f }
    {
        if bytes.len() != FLOOR {
            return None;
        }
        let floor = Floor {
            spool: sixteen_at(bytes, 0),
            number: number_at(bytes, 16),
            dropped: number_at(bytes, 24),
        };
        if floor.to_bytes().as_slice() == bytes {
            Some(floor)
        } else {
            None
        }
    }

    /// Returns its bytes without their sum.
    #[tactic(auto, unfolding(crate::specs::Floors::floor_front))]
    fn front(&self) -> [u8; 32]
        ensures { result ≡ floor_front self.now }
    {
        let mut bytes = [0; 32];
        put(&mut bytes, 0, &self.spool);
        put(&mut bytes, 16, &self.number.to_be_bytes());
        put(&mut bytes, 24, &self.dropped.to_be_bytes());
        bytes
    }
}
