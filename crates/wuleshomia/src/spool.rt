//! What bytes of a spool's files say. These exports have no endpoint and no state.
ghost use Rattle.std.specs.Prelude.{◌≡◌, ◌+◌, ◌++◌, nat_le, if◌then◌else◌, length, take, drop};
ghost use Rattle.std.specs.Int.{w32, from_be_bytes};
ghost use Rattle.amqp_spool.specs.Positions.{position_text};
ghost use Rattle.wuleshomia.specs.Spools.{Told, HasHead, HasNoHead, HasBatch, HasNoBatch, HasEntry, HasNoEntry, HasEnd, HasNoEnd, HasFloor, HasNoFloor, HasPosition, HasNoPosition, position_in};

use crate::codes::{NOT_WHOLE, OK};
use crate::data::{SpoolBatch, SpoolEnd, SpoolEntry, SpoolFloor, SpoolHead, SpoolPosition};
use crate::messages::put;
use crate::spool_entries::of_entry;
use amqp_spool::{BATCH_HEAD, BatchHead, End, Floor, Head, Position, next_batch, next_entry};

/// Stores in `head` the head of a segment that these bytes begin with. Returns `OK`, or `NOT_WHOLE` with `head` unchanged
/// if they begin with none.
#[unsafe(no_mangle)]
pub extern "C" fn wuleshomia_spool_read_head(bytes: &[u8], head: &mut SpoolHead) -> u32
    ensures { Told result (HasHead bytes.now) (HasNoHead bytes.now) head.old head.new }
{
    let Some(read) = Head::read(bytes) else {
        return NOT_WHOLE;
    };
    *head = SpoolHead {
        spool: read.spool,
        secret: read.secret,
        first: read.first,
        before: read.before,
        counted: read.counted,
        life: read.life,
        sum: read.sum(),
    };
    OK
}

/// Returns how many bytes a batch has, with its head, by the head that these bytes begin with, which is not checked: 0
/// if they are fewer than a head has.
#[unsafe(no_mangle)]
pub extern "C" fn wuleshomia_spool_batch_size(bytes: &[u8]) -> u64
    ensures { result ≡ (if nat_le 32 (length bytes.now) then 32 + from_be_bytes w32 (take 4 bytes.now) else 0) }
{
    match bytes.first_chunk::<BATCH_HEAD>() {
        Some(head) => BATCH_HEAD as u64 + BatchHead::size_said(head) as u64,
        None => 0,
    }
}

/// Stores in `batch` what the batch says of itself that these bytes begin with, if it is whole and its records have the
/// numbers from `number` on. Returns `OK`, or `NOT_WHOLE` with `batch` unchanged.
#[unsafe(no_mangle)]
pub extern "C" fn wuleshomia_spool_read_batch(
    head: &SpoolHead,
    number: u64,
    bytes: &[u8],
    batch: &mut SpoolBatch,
) -> u32
    ensures { Told result (HasBatch head.now.secret number bytes.now) (HasNoBatch head.now.secret number bytes.now) batch.old batch.new }
{
    let Some((read, _)) = next_batch(&head.secret, number, bytes) else {
        return NOT_WHOLE;
    };
    *batch = SpoolBatch {
        len: BATCH_HEAD as u64 + read.size as u64,
        first: read.first,
        arrived: read.arrived,
        count: read.count,
        reserved: 0,
    };
    OK
}

/// Stores in `entry` where the parts are of the entry that these bytes begin with. Returns `OK`, or `NOT_WHOLE` with
/// `entry` unchanged if they begin with none.
#[unsafe(no_mangle)]
pub extern "C" fn wuleshomia_spool_read_entry(bytes: &[u8], entry: &mut SpoolEntry) -> u32
    ensures { Told result (HasEntry bytes.now) (HasNoEntry bytes.now) entry.old entry.new }
{
    let Some((read, _)) = next_entry(bytes) else {
        return NOT_WHOLE;
    };
    *entry = of_entry(&read);
    OK
}

/// Stores in `end` how far a spool may be read, by the bytes of that file. Returns `OK`, or `NOT_WHOLE` with `end`
/// unchanged.
#[unsafe(no_mangle)]
pub extern "C" fn wuleshomia_spool_read_end(bytes: &[u8], end: &mut SpoolEnd) -> u32
    ensures { Told result (HasEnd bytes.now) (HasNoEnd bytes.now) end.old end.new }
{
    let Some(read) = End::read(bytes) else {
        return NOT_WHOLE;
    };
    let spool = read.spool;
    *end = SpoolEnd {
        spool,
        first: read.first,
        mark: read.mark,
        place: read.place,
        next: read.next,
    };
    OK
}

/// Stores in `floor` up to which number segments may be missing, by the bytes of that file. Returns `OK`, or `NOT_WHOLE`
/// with `floor` unchanged.
#[unsafe(no_mangle)]
pub extern "C" fn wuleshomia_spool_read_floor(bytes: &[u8], floor: &mut SpoolFloor) -> u32
    ensures { Told result (HasFloor bytes.now) (HasNoFloor bytes.now) floor.old floor.new }
{
    let Some(read) = Floor::read(bytes) else {
        return NOT_WHOLE;
    };
    let spool = read.spool;
    *floor = SpoolFloor {
        spool,
        number: read.number,
        dropped: read.dropped,
    };
    OK
}

/// Stores in `position` up to which number a consumer has acknowledged, by the bytes of that file. Returns `OK`, or
/// `NOT_WHOLE` with `position` unchanged.
#[unsafe(no_mangle)]
pub extern "C" fn wuleshomia_spool_read_position(bytes: &[u8], position: &mut SpoolPosition) -> u32
    ensures { Told result (HasPosition bytes.now) (HasNoPosition bytes.now) position.old position.new }
{
    let Some(read) = Position::read(bytes) else {
        return NOT_WHOLE;
    };
    let spool = read.spool;
    *position = SpoolPosition {
        spool,
        number: read.number,
    };
    OK
}

/// Writes the bytes of a position into `room`, and returns how many: 71, or 0 with nothing written if there is less room.
#[unsafe(no_mangle)]
pub extern "C" fn wuleshomia_spool_write_position(
    position: &SpoolPosition,
    room: &mut [u8],
) -> usize
    ensures count { result ≡ (if nat_le 71 (length room.old) then 71 else 0) }
    ensures bytes { room.new ≡ take result (position_text (position_in position.now)) ++ drop result room.old }
{
    let written = Position {
        spool: position.spool,
        number: position.number,
    };
    let text = written.to_bytes();
    if room.len() < text.len() {
        return 0;
    }
    put(&text, room, 0)
}
