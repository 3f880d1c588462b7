//! The head of a batch.
ghost use Rattle.std.specs.Prelude.{◌≡◌, ◌≤◌, ◌+◌, ℕ, List, take, drop, length, None, IfSome};
ghost use Rattle.std.specs.Int.{w32, from_be_bytes};
ghost use Rattle.amqp_spool.specs.declared.batch_head.BatchHead.{BatchHead};
ghost use Rattle.amqp_spool.specs.Heads.{BeginsBatch, batch_front, batch_head};

use crate::head::{number_at, put};
use crate::sum::sum_of;

/// How many bytes the head of a batch has.
pub const BATCH_HEAD: usize = 32;

/// What a batch says of itself.
#[derive(Clone, Copy, Debug, PartialEq, Eq)]
pub struct BatchHead {
    /// How many bytes its body has.
    pub size: u32,
    /// How many records it has.
    pub count: u32,
    /// The number of the first.
    pub first: u64,
    /// When they arrived, in milliseconds since 1970.
    pub arrived: u64,
}

impl BatchHead {
    /// Returns the bytes of the head of a batch with this body, in a segment with this secret.
    #[tactic(auto, unfolding(crate::specs::Heads::batch_head))]
    pub fn to_bytes(&self, secret: &[u8; 16], body: &[u8]) -> [u8; BATCH_HEAD]
        ensures { result ≡ batch_head secret.now self.now body.now }
    {
        let mut bytes = [0; BATCH_HEAD];
        let front = self.front();
        put(&mut bytes, 0, &front);
        put(&mut bytes, 24, &sum_of(secret, &front, body).to_be_bytes());
        bytes
    }

    /// Reads a whole batch that these bytes begin with, in a segment with this secret, and returns its head and its body.
    /// Returns `None` if they begin with none.
    pub fn read<'a>(secret: &[u8; 16], bytes: &'a [u8]) -> Option<(BatchHead, &'a [u8])>
        ensures some { IfSome result (λ x. BeginsBatch secret.now bytes.now x.0 x.1.now) }
        ensures none { result ≡ None → (head : BatchHead) (body : List ℕ) → BeginsBatch secret.now bytes.now head body → ⊥ }
    {
        let Some(text) = bytes.get(..BATCH_HEAD) else {
            return None;
        };
        let head = BatchHead {
            size: small_at(text, 0),
            count: small_at(text, 4),
            first: number_at(text, 8),
            arrived: number_at(text, 16),
        };
        let Some(body) = bytes.get(BATCH_HEAD..BATCH_HEAD + head.size as usize) else {
            return None;
        };
        if head.to_bytes(secret, body).as_slice() == text {
            Some((head, body))
        } else {
            None
        }
    }

    /// Returns how many bytes the body has, by a head that these bytes are. Whether they are one is seen once the body is
    /// there too.
    pub fn size_said(bytes: &[u8; BATCH_HEAD]) -> u32
        ensures { result ≡ from_be_bytes w32 (take 4 bytes.now) }
    {
        small_at(bytes, 0)
    }

    /// Returns the bytes of the head without the sum.
    #[tactic(auto, unfolding(crate::specs::Heads::batch_front))]
    fn front(&self) -> [u8; 24]
        ensures { result ≡ batch_front self.now }
    {
        let mut bytes = [0; 24];
        put(&mut bytes, 0, &self.size.to_be_bytes());
        put(&mut bytes, 4, &self.count.to_be_bytes());
        put(&mut bytes, 8, &self.first.to_be_bytes());
        put(&mut bytes, 16, &self.arrived.to_be_bytes());
        bytes
    }
}

/// Returns the number of 4 bytes at `at`.
fn small_at(text: &[u8], at: usize) -> u32
    requires { at + 4 ≤ length text.now }
    ensures { result ≡ from_be_bytes w32 (take 4 (drop at text.now)) }
{
    let mut bytes = [0; 4];
    bytes.copy_from_slice(&text[at..at + 4]);
    u32::from_be_bytes(bytes)
}
