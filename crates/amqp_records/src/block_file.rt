//! How far a file of blocks is whole.

ghost use Rattle.std.specs.Prelude.{◌≡◌, ◌≢◌, ◌↔◌, false, ℕ, List, ◌+◌, ◌<◌, ◌≤◌, length, take, drop, IsTrue, IfOk, OnOk, OnErr, Err};
ghost use Rattle.std.specs.Io.KnownBytes.{Consumes, Keeps};
ghost use Rattle.amqp_frame.specs.Devices.{device_inner, has_failed, has_ended, reads_ahead};
ghost use Rattle.amqp_records.specs.Blocks.{IsTorn, BeginsNoBlock, FileBlock, HoldsBlocks, IsWholeTo};

use crate::blocks::{BLOCK_HEAD, BlockFront, block_front};
use crate::faults::BlocksFault;
use crate::printer::drop_front;
use amqp_frame::Device;
use std::alloc::Global;
use std::io::Read;

/// How many bytes are read at a time.
const PIECE: usize = 65536;

/// How far a file of blocks is whole.
#[derive(Clone, Copy, Debug, PartialEq, Eq)]
pub struct Whole {
    /// How many bytes its whole blocks have.
    pub blocks: u64,
    /// How many bytes follow them, of a block that was not written to its end.
    pub torn: u64,
}

/// Reads a file of blocks to its end, and returns how far it is whole. A message has at most `max_message` bytes.
/// Between two reads it keeps less than one block. The reader must not have failed before.
///
/// # Errors
///
/// `Block` with the place of the first bytes that are no block and begin none. `Read` if the reader fails,
/// `Endless` if it gives 2^64 bytes or more, and `NoMemory` if memory is refused.
pub fn whole_blocks<R: Read + Drop>(
    alloc: Global,
    reader: &mut Device<R>,
    max_message: u32,
) -> Result<Whole, BlocksFault>
    requires { ¬ (IsTrue (has_failed reader.old)) }
    ensures read { (result ≡ Err BlocksFault.Read) ↔ IsTrue (has_failed reader.new) }
    ensures ended { OnOk result (IsTrue (has_ended reader.new)) }
    ensures whole { IfOk result (λ whole. (bytes : List ℕ) × Consumes (R.remaining (device_inner reader.old)) (R.remaining (device_inner reader.new)) bytes
        × IsWholeTo max_message bytes whole.blocks × IsTorn max_message (drop whole.blocks bytes) × (length bytes ≡ whole.blocks + whole.torn)) }
    ensures block { (place : ℕ) → result ≡ Err (BlocksFault.Block place) → (bytes : List ℕ) × Consumes (R.remaining (device_inner reader.old)) (R.remaining (device_inner reader.new)) bytes
        × IsWholeTo max_message bytes place × ¬ (IsTorn max_message (drop place bytes)) }
    ensures cut { (place : ℕ) → result ≢ Err (BlocksFault.Cut place) }
{
    let mut piece = vec![in alloc; 0u8; PIECE]?;
    read_through(alloc, reader, &mut piece, max_message)
}

/// Reads into `piece` until the reader ends or the bytes are no block.
fn read_through<R: Read + Drop>(
    alloc: Global,
    reader: &mut Device<R>,
    piece: &mut [u8],
    max_message: u32,
) -> Result<Whole, BlocksFault>
    requires reads { ¬ (IsTrue (has_failed reader.old)) }
    requires some { 0 < length piece.old }
    ensures read { (result ≡ Err BlocksFault.Read) ↔ IsTrue (has_failed reader.new) }
    ensures ended { OnOk result (IsTrue (has_ended reader.new)) }
    ensures whole { IfOk result (λ whole. (bytes : List ℕ) × Consumes (R.remaining (device_inner reader.old)) (R.remaining (device_inner reader.new)) bytes
        × IsWholeTo max_message bytes whole.blocks × IsTorn max_message (drop whole.blocks bytes) × (length bytes ≡ whole.blocks + whole.torn)) }
    ensures block { (place : ℕ) → result ≡ Err (BlocksFault.Block place) → (bytes : List ℕ) × Consumes (R.remaining (device_inner reader.old)) (R.remaining (device_inner reader.new)) bytes
        × IsWholeTo max_message bytes place × ¬ (IsTorn max_message (drop place bytes)) }
    ensures cut { (place : ℕ) → result ≢ Err (BlocksFault.Cut place) }
{
    let mut arrived = Vec::new(alloc);
    let mut blocks: u64 = 0;
    while !reader.ended() {
        let count = read_piece(reader, piece)?;
        arrived.extend_from_slice(&piece[..count])?;
        let len = whole_len(&arrived, max_message);
        blocks = further(blocks, len)?;
        drop_front(&mut arrived, len);
        if let BlockFront::NoBlock = block_front(&arrived, max_message) {
            return Err(BlocksFault::Block(blocks));
        }
    }
    Ok(Whole {
        blocks,
        torn: arrived.len() as u64,
    })
}

/// Reads into the front of `piece`, and returns how many bytes came.
pub fn read_piece<R: Read + Drop>(
    reader: &mut Device<R>,
    piece: &mut [u8],
) -> Result<usize, BlocksFault>
    requires unmarked { ¬ (IsTrue (has_failed reader.old)) }
    requires some { 0 < length piece.old }
    requires going { has_ended reader.old ≡ false }
    ensures read { OnErr result (result ≡ Err BlocksFault.Read) }
    ensures failed { (result ≡ Err BlocksFault.Read) ↔ IsTrue (has_failed reader.new) }
    ensures bound { IfOk result (λ n. n ≤ length piece.new) }
    ensures bytes { IfOk result (λ n. Consumes (R.remaining (device_inner reader.old)) (R.remaining (device_inner reader.new)) (take n piece.new)) }
    ensures kept { OnErr result (Keeps (R.remaining (device_inner reader.old)) (R.remaining (device_inner reader.new))) }
    ensures fewer { OnOk result (reads_ahead reader.new < reads_ahead reader.old) }
{
    match reader.read(piece) {
        Ok(count) => Ok(count),
        Err(_) => Err(BlocksFault::Read),
    }
}

/// Returns how many bytes the whole blocks at the front have.
fn whole_len(bytes: &[u8], max_message: u32) -> usize
    ensures within { result ≤ length bytes.now }
    ensures blocks { (blocks : List FileBlock) × HoldsBlocks max_message bytes.now blocks (drop result bytes.now) }
    ensures none { BeginsNoBlock max_message (drop result bytes.now) }
{
    let mut at = 0;
    while let BlockFront::Whole(size) = block_front(&bytes[at..], max_message) {
        at += BLOCK_HEAD + size;
    }
    at
}

/// Returns the place that is `len` bytes after another, or `Endless` if it is 2^64 or more.
pub fn further(place: u64, len: usize) -> Result<u64, BlocksFault>
    ensures fault { OnErr result (result ≡ Err BlocksFault.Endless) }
    ensures place { IfOk result (λ n. n ≡ place + len) }
{
    match place.checked_add(len as u64) {
        Some(place) => Ok(place),
        None => Err(BlocksFault::Endless),
    }
}
