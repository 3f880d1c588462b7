//! The sizes of a spool, within a bound on the bytes of all its files.

ghost use Rattle.std.specs.Prelude.{◌≡◌, ◌+◌, ◌*◌, IfOk, IfErr, IfSome};
ghost use Rattle.amqp_spool_keeper.specs.Sizing.{AreSizes, IsUnfit};

use amqp_spool::reserve_for;

/// How many bytes the small files of a spool have together at most: its floor, its end and the positions of its readers.
pub const SMALL_FILES: u64 = 65_536;

/// How many bytes a record has at most besides its message: its introduction, and what it says of itself.
pub const BESIDES: u32 = 1_923;

/// How many bytes a message has at most, whatever the settings are.
const MAX_MESSAGE: u32 = 1 << 30;

/// How many bytes the heads of a segment and of a batch have.
const HEADS: u64 = 112;

/// How many bytes a batch may have, unless a record has more.
const BATCH: u32 = 1_048_576;

/// The sizes of a spool, in bytes.
#[derive(Clone, Copy, Debug, PartialEq, Eq)]
pub struct Sizes {
    /// The longest record with its introduction.
    pub room: u32,
    /// A batch.
    pub batch: u32,
    /// A segment.
    pub segment: u64,
    /// All segments.
    pub limit: u64,
    /// What has to be free for links to be granted credit.
    pub reserve: u64,
}

/// Why there are no sizes.
#[derive(Clone, Copy, Debug, PartialEq, Eq)]
pub enum SizeFault {
    /// A segment is too small for a batch. This would do.
    Segment(u64),
    /// The bound is too small for these segments and this credit. This would do.
    Bytes(u64),
}

impl Sizes {
    /// Returns the sizes of a spool whose files have together at most `bytes` bytes. Its segments have at most `segment`
    /// bytes, and messages at most `message`. `reserve` bytes have to be free for links to be granted credit; if none are
    /// given, as many as `messages` of the longest messages take, each in a segment of its own.
    ///
    /// There is room for the credit and for two segments more, so that links are granted credit again once what the
    /// spool has was read.
    ///
    /// # Errors
    ///
    /// `Segment` or `Bytes`, with the least number that would do, or `u64::MAX` if none would.
    pub fn within(
        bytes: u64,
        segment: u64,
        message: u32,
        messages: u64,
        reserve: Option<u64>,
    ) -> Result<Sizes, SizeFault>
        ensures sizes { IfOk result (AreSizes bytes segment message) }
        ensures unfit { IfErr result (IsUnfit bytes segment) }
    {
        let room = message.min(MAX_MESSAGE) + BESIDES;
        let batch = room.max(BATCH);
        let shortest = batch as u64 + HEADS;
        if segment < shortest {
            return Err(SizeFault::Segment(shortest));
        }
        let reserve = reserve.unwrap_or(messages.saturating_mul(room as u64 + HEADS));
        let Some(least) = least_of(segment, batch, reserve) else {
            return Err(SizeFault::Bytes(u64::MAX));
        };
        if bytes < least {
            return Err(SizeFault::Bytes(least));
        }
        Ok(Sizes {
            room,
            batch,
            segment,
            limit: bytes - segment - reserve_for(batch) - SMALL_FILES,
            reserve,
        })
    }
}

/// Returns the least bound of a spool with such a segment, batch and credit. Returns `None` if no number is so high.
fn least_of(segment: u64, batch: u32, reserve: u64) -> Option<u64>
    ensures { IfSome result (λ least. least ≡ 3 * segment + reserve + (batch + 112 + 32768) + 65536) }
{
    segment
        .checked_mul(3)?
        .checked_add(reserve)?
        .checked_add(reserve_for(batch))?
        .checked_add(SMALL_FILES)
}
