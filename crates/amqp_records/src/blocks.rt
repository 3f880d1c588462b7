//! Blocks of records: those of many connections in one file.

ghost use Rattle.std.specs.Prelude.{◌≡◌, ◌↔◌, ◌+◌, ◌^◌, ◌<◌, ◌≤◌, ◌++◌, ◌==◌, ◌&&◌, nat_le, [], List, length, take, drop, Some, IsTrue, OnOk, OnErr};
ghost use Rattle.byteorder.specs.Endian.{big_bytes};
ghost use Rattle.amqp_records.specs.Blocks.{Block, AreBlocks, with_records, block_text, block_most, head_front, number_of, may_have, may_begin, IfWhole, AllRecords, IsTorn, BeginsNoBlock, BeginsBlock};

use crate::record::{Front, HEAD, front_of, message_len};
use byteorder::{BigEndian, ByteOrder};
use std::alloc::{AllocError, Allocator, Global};
use std::marker::Model;

/// How many bytes the head of a block has: the number of the connection (8) and how many bytes of records follow
/// (4), both big-endian.
pub const BLOCK_HEAD: usize = 12;

/// How many bytes of records a block has at most, unless it is one longer record.
pub const BLOCK_MOST: usize = 262_144;

/// Where the size is in a head.
const SIZE: usize = 8;

/// The last of some blocks: its connection, where it begins, and how many bytes of records it has.
#[derive(Clone, Copy)]
struct Last {
    number: u64,
    from: usize,
    held: usize,
}

/// Blocks that wait to be written, one after another.
#[derive(Drop)]
pub struct Blocks<A: Allocator + Copy = Global> {
    bytes: Vec<u8, A>,
    last: Option<Last>,
}

impl<A: Allocator + Copy> Model for Blocks<A> {
    ghost use Rattle.std.specs.Prelude.{length};
    ghost use Rattle.amqp_records.specs.Blocks.{BlocksState, IsRoomy};

    ghost Value = { BlocksState };

    ghost view = { λ a. record { bytes = a.bytes.items; last = a.last } };

    ghost invariant = { λ a. IsRoomy a.last (length a.bytes.items) };
}

impl<A: Allocator + Copy> Blocks<A> {
    /// Makes an empty list of blocks.
    pub fn new(alloc: A) -> Self
        ensures { AreBlocks result [] }
    {
        Blocks {
            bytes: Vec::new(alloc),
            last: None,
        }
    }

    /// Returns the bytes of all blocks.
    pub fn as_bytes(&self) -> &[u8]
        ensures { result.now ≡ self.now.bytes }
    {
        &self.bytes
    }

    /// Drops all blocks, since they were written. The memory stays.
    pub fn clear(&mut self)
        ensures { AreBlocks self.new [] }
    {
        self.bytes.clear();
        self.last = None;
    }

    /// Adds whole records of a connection: to the last block if that is this connection's and has room for them,
    /// else as one more block. They must have fewer than 2^32 bytes. If they have more than [`BLOCK_MOST`], the
    /// block can be read only if they are one record.
    ///
    /// # Errors
    ///
    /// `AllocError` if memory is refused. Nothing has changed then.
    pub fn put(&mut self, number: u64, records: &[u8]) -> Result<(), AllocError>
        requires { length records.now < 2 ^ 32 }
        ensures put { (blocks : List Block) → AreBlocks self.old blocks → OnOk result (AreBlocks self.new (with_records (record { number = number; records = records.now }) blocks)) }
        ensures err { OnErr result (self.new ≡ self.old) }
    {
        match self.last {
            Some(last) if goes_on(last, number, records) => self.put_behind(last, records),
            _ => self.put_block(number, records),
        }
    }

    /// Adds one more block.
    fn put_block(&mut self, number: u64, records: &[u8]) -> Result<(), AllocError>
        requires { length records.now < 2 ^ 32 }
        ensures bytes { OnOk result (self.new.bytes ≡ self.old.bytes ++ block_text (record { number = number; records = records.now })) }
        ensures last { OnOk result (self.new.last ≡ Some (record { number = number; from = length self.old.bytes; held = length records.now })) }
        ensures err { OnErr result (self.new ≡ self.old) }
    {
        let from = self.bytes.len();
        self.bytes
            .extend_from_slice(&head_of(number, records.len() as u32))?;
        if let Err(error) = self.bytes.extend_from_slice(records) {
            self.bytes.truncate(from);
            return Err(error);
        }
        self.last = Some(Last {
            number,
            from,
            held: records.len(),
        });
        Ok(())
    }

    /// Adds records to the last block.
    fn put_behind(&mut self, last: Last, records: &[u8]) -> Result<(), AllocError>
        requires last { self.old.last ≡ Some last }
        requires few { last.held + length records.now ≤ BLOCK_MOST }
        ensures bytes { OnOk result (self.new.bytes ≡ take (last.from + 8) (self.old.bytes ++ records.now)
            ++ (big_bytes 4 (last.held + length records.now) ++ drop (last.from + 8 + 4) (self.old.bytes ++ records.now))) }
        ensures last { OnOk result (self.new.last ≡ Some (record last { held = last.held + length records.now })) }
        ensures err { OnErr result (self.new ≡ self.old) }
    {
        self.bytes.extend_from_slice(records)?;
        let held = last.held + records.len();
        let size = last.from + SIZE;
        put_at(
            self.bytes.as_mut_slice(),
            size,
            &(held as u32).to_be_bytes(),
        );
        self.last = Some(Last { held, ..last });
        Ok(())
    }
}

/// Returns whether these records go into the last block.
fn goes_on(last: Last, number: u64, records: &[u8]) -> bool
    ensures value { result ≡ ((last.number == number) && nat_le (last.held + length records.now) block_most) }
    ensures few { IsTrue result → last.held + length records.now ≤ BLOCK_MOST }
{
    last.number == number && last.held <= BLOCK_MOST && records.len() <= BLOCK_MOST - last.held
}

/// Replaces the four bytes at `at`.
fn put_at(out: &mut [u8], at: usize, bytes: &[u8; 4])
    requires { at + 4 ≤ length out.old }
    ensures { out.new ≡ take at out.old ++ (bytes.now ++ drop (at + 4) out.old) }
{
    out[at..at + 4].copy_from_slice(bytes);
}

/// Returns the head of a block.
fn head_of(number: u64, size: u32) -> [u8; BLOCK_HEAD]
    ensures { result ≡ big_bytes 8 number ++ big_bytes 4 size }
{
    let [a, b, c, d, e, f, g, h] = number.to_be_bytes();
    let [i, j, k, l] = size.to_be_bytes();
    [a, b, c, d, e, f, g, h, i, j, k, l]
}

/// What is at the front of the bytes of a file of blocks.
#[derive(Clone, Copy, Debug, PartialEq, Eq)]
pub enum BlockFront {
    /// A block, with this many bytes of records.
    Whole(usize),
    /// Less than a block.
    Partial,
    /// Bytes that are no block and begin none.
    NoBlock,
}

/// Returns what is at the front of the bytes, if messages have at most `max_message` bytes.
pub fn block_front(bytes: &[u8], max_message: u32) -> BlockFront
    ensures within { IfWhole result (λ n. BLOCK_HEAD + n ≤ length bytes.now) }
    ensures whole { IfWhole result (λ n. BeginsBlock max_message bytes.now n) }
    ensures torn { result ≡ BlockFront.Partial → IsTorn max_message bytes.now }
    ensures none { result ≡ BlockFront.NoBlock → BeginsNoBlock max_message bytes.now }
    ensures untorn { result ≡ BlockFront.NoBlock → ¬ (IsTorn max_message bytes.now) }
{
    match head_front(bytes, max_message) {
        BlockFront::Whole(size) => {
            if are_records(&bytes[BLOCK_HEAD..BLOCK_HEAD + size], max_message) {
                BlockFront::Whole(size)
            } else {
                BlockFront::NoBlock
            }
        }
        BlockFront::Partial => BlockFront::Partial,
        BlockFront::NoBlock => BlockFront::NoBlock,
    }
}

/// Returns what is at the front, by the block's head and that of its first record alone.
fn head_front(bytes: &[u8], max_message: u32) -> BlockFront
    ensures value { result ≡ head_front max_message bytes.now }
    ensures within { IfWhole result (λ n. BLOCK_HEAD + n ≤ length bytes.now) }
{
    if bytes.len() < BLOCK_HEAD {
        return BlockFront::Partial;
    }
    let size = BigEndian::read_u32(&bytes[SIZE..]) as usize;
    if !may_have(max_message, size) {
        return BlockFront::NoBlock;
    }
    if bytes.len() < BLOCK_HEAD + HEAD {
        return BlockFront::Partial;
    }
    let message = message_len(&bytes[BLOCK_HEAD..]);
    if !may_begin(max_message, size, message) {
        return BlockFront::NoBlock;
    }
    if bytes.len() < BLOCK_HEAD + size {
        return BlockFront::Partial;
    }
    BlockFront::Whole(size)
}

/// Returns whether a block may have `size` bytes of records.
fn may_have(max_message: u32, size: usize) -> bool
    ensures { result ≡ may_have max_message size }
{
    HEAD <= size && (size <= BLOCK_MOST || size <= HEAD + max_message as usize)
}

/// Returns whether a block with `size` bytes of records may begin with a record whose message has `message` bytes.
fn may_begin(max_message: u32, size: usize, message: u32) -> bool
    ensures { result ≡ may_begin max_message size message }
{
    let first = HEAD + message as usize;
    message <= max_message && (size == first || first <= size && size <= BLOCK_MOST)
}

/// Returns whether these bytes are records, one after another.
fn are_records(bytes: &[u8], max_message: u32) -> bool
    ensures { IsTrue result ↔ AllRecords max_message bytes.now }
{
    let mut at = 0;
    while let Front::Whole(len) = front_of(&bytes[at..], max_message) {
        at += len;
    }
    at == bytes.len()
}

/// Returns the number of the connection that a block's head gives.
pub fn number_of(bytes: &[u8]) -> u64
    requires { BLOCK_HEAD ≤ length bytes.now }
    ensures { result ≡ number_of bytes.now }
{
    BigEndian::read_u64(bytes)
}
