//! The published end of a spool: how far it may be read.
ghost use Rattle.std.specs.Prelude.{◌≡◌, ◌≢◌, None, IfSome};
ghost use Rattle.amqp_spool.specs.Ends.{IsEnd, end_front, end_text};

use crate::head::{number_at, put, sixteen_at};
use crate::sum::sum_of;

/// How many bytes the published end has.
pub const END: usize = 56;

/// How far a spool may be read: its newest segment has this place on the disk.
#[derive(Clone, Copy, Debug, PartialEq, Eq)]
pub struct End {
    /// The spool.
    pub spool: [u8; 16],
    /// The number of the first record of the newest segment.
    pub first: u64,
    /// The sum of that segment's head: which segment of that name it is.
    pub mark: u64,
    /// How many of its bytes may be read.
    pub place: u64,
    /// The number of the next record.
    pub next: u64,
}

impl End {
    /// Returns its bytes.
    #[tactic(auto, unfolding(crate::specs::Ends::end_text))]
    pub fn to_bytes(&self) -> [u8; END]
        ensures { result ≡ end_text self.now }
    {
        let mut bytes = [0; END];
        let front = self.front();
        put(&mut bytes, 0, &front);
        put(
            &mut bytes,
            48,
            &sum_of(&self.spool, &front, &[]).to_be_bytes(),
        );
        bytes
    }

    /// Reads an end. Returns `None` if these bytes are none.
    pub fn read(bytes: &[u8]) -> Option<End>
        ensures some { IfSome result (λ end. bytes.now ≡ end_text end) }
        ensures none { result ≡ None → (e : End) → IsEnd e → bytes.now ≢ end_text e }
    {
        if bytes.len() != END {
            return None;
        }
        let end = End {
            spool: sixteen_at(bytes, 0),
            first: number_at(bytes, 16),
            mark: number_at(bytes, 24),
            place: number_at(bytes, 32),
            next: number_at(bytes, 40),
        };
        if end.to_bytes().as_slice() == bytes {
            Some(end)
        } else {
            None
        }
    }

    /// Returns its bytes without their sum.
    #[tactic(auto, unfolding(crate::specs::Ends::end_front))]
    fn front(&self) -> [u8; 48]
        ensures { result ≡ end_front self.now }
    {
        let mut bytes = [0; 48];
        put(&mut bytes, 0, &self.spool);
        put(&mut bytes, 16, &self.first.to_be_bytes());
        put(&mut bytes, 24, &self.mark.to_be_bytes());
        put(&mut bytes, 32, &self.place.to_be_bytes());
        put(&mut bytes, 40, &self.next.to_be_bytes());
        bytes
    }
}
