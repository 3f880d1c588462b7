//! Going through the batches of a segment.
ghost use Rattle.std.specs.Prelude.{◌≡◌, ◌<◌, ◌^◌, None, IfSome};
ghost use Rattle.amqp_spool.specs.Batches.{Batch, Follows, EndsAt, IsScanned};
ghost use Rattle.amqp_spool.specs.Heads.{BeginsBatch};

use crate::batch_head::{BATCH_HEAD, BatchHead};

/// How far a segment has whole batches.
#[derive(Clone, Copy, Debug, PartialEq, Eq)]
pub struct Scanned {
    /// How many bytes they have.
    pub end: usize,
    /// The number of the next record.
    pub next: u64,
}

/// Returns the batch that these bytes begin with, if it is whole and its records have the numbers from `number` on.
pub fn next_batch<'a>(
    secret: &[u8; 16],
    number: u64,
    bytes: &'a [u8],
) -> Option<(BatchHead, &'a [u8])>
    ensures some { IfSome result (λ x. Follows number (record { head = x.0; body = x.1.now }) × BeginsBatch secret.now bytes.now x.0 x.1.now) }
    ensures none { result ≡ None → EndsAt secret.now number bytes.now }
{
    let (head, body) = BatchHead::read(secret, bytes)?;
    if head.first != number || head.count == 0 || number.checked_add(head.count as u64).is_none() {
        return None;
    }
    Some((head, body))
}

/// Goes through the bytes of a segment after its head, whose first record has the number `first`. Returns how far
/// there are whole batches, one after the other.
pub fn scan(secret: &[u8; 16], first: u64, bytes: &[u8]) -> Scanned
    ensures { IsScanned secret.now first bytes.now result }
{
    let mut scanned = Scanned {
        end: 0,
        next: first,
    };
    'batches: while let Some((head, body)) = next_batch(
        secret,
        scanned.next,
        &bytes[scanned.end..],
    ) {
        scanned.end += BATCH_HEAD + body.len();
        scanned.next += head.count as u64;
    }
    scanned
}
