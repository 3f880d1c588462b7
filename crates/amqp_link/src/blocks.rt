//! The blocks of memory that the bytes of a message lie in.
ghost use Rattle.std.specs.Prelude.{◌≡◌, ◌<◌, ◌^◌, ◌++◌, ◌∷◌, ℕ, List, length, drop, take, IfOk, IsErr, IsOk, OnOk, OnErr, [], ◌≤◌, ◌+◌, ◌-◌, ◌%◌};
ghost use Rattle.std.specs.List.{AllWithin};
ghost use Rattle.amqp_link.specs.Pieces.{joined, lengths_of, total, lacking_of, nothing, in_one_block, with_payload, AreBlocks, ArePieces};

use std::alloc::{AllocError, Allocator};
use std::marker::Model;
use std::mem;

/// The most bytes that fit into memory.
const MOST: usize = usize::MAX / 2;

/// The size of a whole piece, in bytes.
pub const PIECE: usize = 4096;

/// Bytes that are stored in pieces of 4,096 bytes; only the last piece may be shorter. What a payload brings beyond
/// the last piece is stored in one block, piece after piece, so that memory is requested once. Bytes no longer than
/// a piece are stored in one block, with little spare room.
#[derive(Drop)]
pub struct Blocks<A: Allocator + Copy> {
    len: usize,
    /// All blocks but the last one. Only the last one may end with a piece that isn't whole.
    whole: Vec<Block<A>, A>,
    last: Vec<u8, A>,
}

/// A block that another one follows: one or more whole pieces.
#[derive(Drop)]
struct Block<A: Allocator + Copy> {
    /// How many bytes lie before the end of this block, with its own.
    end: usize,
    bytes: Vec<u8, A>,
}

impl<A: Allocator + Copy> Model for Blocks<A> {
    ghost use Rattle.std.specs.Prelude.{ℕ, List, ◌≡◌, ◌<◌, ◌^◌, ◌++◌, length};
    ghost use Rattle.amqp_link.specs.Pieces.{Lying, lying, joined, ArePieces};

    ghost Value = { Lying };

    ghost view = { λ a. lying a.whole.items a.last.items };

    ghost invariant = { λ a. (a.len ≡ length (joined a.whole.items ++ a.last.items)) × (a.len < 2 ^ 63) × ArePieces a.whole.items a.last.items };
}

impl<A: Allocator + Copy> Blocks<A> {
    /// Returns blocks without bytes.
    pub fn new(alloc: A) -> Self
        ensures { result ≡ nothing }
    {
        Blocks {
            len: 0,
            whole: Vec::new(alloc),
            last: Vec::new(alloc),
        }
    }

    /// Stores these bytes in one block. It is an error if memory is refused.
    pub fn of(alloc: A, bytes: &[u8]) -> Result<Self, AllocError>
        ensures { IfOk result (λ blocks. blocks ≡ in_one_block bytes.now) }
    {
        let len = bytes.len();
        let last = if len <= PIECE {
            Vec::from_slice(alloc, bytes)?
        } else {
            block_of(alloc, bytes)?
        };
        Ok(Blocks {
            len,
            whole: Vec::new(alloc),
            last,
        })
    }

    /// Returns how many bytes there are. That is below 2^63.
    pub fn len(&self) -> usize
        ensures value { result ≡ length self.now.bytes }
        ensures most { result < 2 ^ 63 }
    {
        self.len
    }

    /// Appends a payload. All memory is taken before anything changes: for a new block, the list of blocks, and
    /// the last piece. If memory is refused, nothing has changed. An empty payload needs none.
    pub fn extend(&mut self, payload: &[u8]) -> Result<(), AllocError>
        ensures ok { OnOk result (self.new ≡ with_payload self.old payload.now) }
        ensures err { OnErr result (self.new ≡ self.old) }
        ensures empty { payload.now ≡ [] → IsOk result }
    {
        if payload.is_empty() {
            return Ok(());
        }
        if self.len == 0 {
            *self = Blocks::of(*self.last.allocator(), payload)?;
            return Ok(());
        }
        let len = self.len + payload.len();
        if len > MOST {
            return Err(AllocError);
        }
        let room = lacking(self.last.len());
        if payload.len() <= room {
            extend_last(&mut self.last, payload)?;
        } else {
            let (front, rest) = payload.split_at(room);
            let new = block_of(*self.last.allocator(), rest)?;
            let end = self.len + room;
            add_block(&mut self.whole, &mut self.last, end, front, new)?;
        }
        self.len = len;
        Ok(())
    }

    /// Returns how many blocks another one follows.
    pub fn followed(&self) -> usize
        ensures { result ≡ length self.now.before }
    {
        self.whole.len()
    }

    /// Returns the bytes of the block with this index, which another one follows.
    pub fn block(&self, index: usize) -> &[u8]
        requires { index < length self.now.before }
        ensures lies { (behind : List ℕ) × (drop (total (take index self.now.before)) self.now.bytes ≡ result.now ++ behind) }
        ensures len { total (take (index + 1) self.now.before) ≡ total (take index self.now.before) + length result.now }
    {
        &self.whole[index].bytes
    }

    /// Returns the bytes of the last block. There are some, unless there are no bytes at all.
    pub fn last(&self) -> &[u8]
        ensures lies { drop (total self.now.before) self.now.bytes ≡ result.now }
        ensures some { 0 < length self.now.bytes → 0 < length result.now }
    {
        &self.last
    }

    /// Returns the bytes from `at` on, as many as lie in one block. There is at least one if `at` is before the end,
    /// else none.
    pub fn from(&self, at: usize) -> &[u8]
        ensures front { (behind : List ℕ) × (drop at self.now.bytes ≡ result.now ++ behind) }
        ensures some { at < length self.now.bytes → 0 < length result.now }
    {
        match self.whole.get(block_at(&self.whole, at)) {
            Some(block) => tail(&block.bytes, at - (block.end - block.bytes.len())),
            None => tail(&self.last, at - (self.len - self.last.len())),
        }
    }
}

/// Returns these bytes in a new block with room to make its last piece whole. It is an error if memory is
/// refused.
fn block_of<A: Allocator + Copy>(alloc: A, bytes: &[u8]) -> Result<Vec<u8, A>, AllocError>
    ensures { IfOk result (λ block. block.items ≡ bytes.now) }
{
    let mut block = Vec::with_capacity(alloc, bytes.len().div_ceil(PIECE) * PIECE)?;
    block.extend_from_slice(bytes)?;
    Ok(block)
}

/// Returns how many bytes the last piece of a block of `len` bytes lacks to be whole. An empty block has no
/// piece, and lacks none.
fn lacking(len: usize) -> usize
    ensures value { result ≡ lacking_of len }
    ensures whole { (len + result) % 4096 ≡ 0 }
{
    (PIECE - len % PIECE) % PIECE
}

/// Returns the index of the first block that ends after `at`, or the number of blocks if none does. There may
/// be very many.
fn block_at<A: Allocator + Copy>(blocks: &[Block<A>], at: usize) -> usize
    requires { AreBlocks 0 blocks.now }
    ensures bound { result ≤ length blocks.now }
    ensures before { AllWithin (λ block. block.end ≤ at) blocks.now 0 result }
    ensures behind { AllWithin (λ block. at < block.end) blocks.now result (length blocks.now) }
{
    blocks.partition_point(|block| block.end <= at)
}

/// Returns the bytes of a block from `at` on.
fn tail(block: &[u8], at: usize) -> &[u8]
    ensures { result.now ≡ drop at block.now }
{
    block.get(at..).unwrap_or(&[])
}

/// Appends to the last piece at most what it lacks. A block that was not made by [`block_of`] grows by
/// doubling, and takes the room of a whole piece once it is past half of one.
fn extend_last<A: Allocator + Copy>(last: &mut Vec<u8, A>, payload: &[u8]) -> Result<(), AllocError>
    requires { length payload.now ≤ lacking_of (length last.old.items) }
    ensures ok { OnOk result (last.new.items ≡ last.old.items ++ payload.now) }
    ensures err { OnErr result (last.new.items ≡ last.old.items) }
    ensures empty { payload.now ≡ [] → IsOk result }
{
    let wanted = last.len() + payload.len();
    if wanted > last.capacity() {
        let room = if wanted <= PIECE / 2 {
            wanted.max(2 * last.capacity())
        } else {
            wanted.div_ceil(PIECE) * PIECE
        };
        last.reserve_exact(room - last.len())?;
    }
    last.extend_from_slice(payload)
}

/// Makes the last piece whole, and puts a new block after it. All memory is taken before anything changes. If
/// memory is refused, nothing has changed.
fn add_block<A: Allocator + Copy>(
    blocks: &mut Vec<Block<A>, A>,
    last: &mut Vec<u8, A>,
    end: usize,
    front: &[u8],
    new: Vec<u8, A>,
) -> Result<(), AllocError>
    requires pieces { ArePieces blocks.old.items last.old.items }
    requires end { end ≡ length (joined blocks.old.items) + length last.old.items + length front.now }
    requires whole { (length last.old.items + length front.now) % 4096 ≡ 0 }
    requires some { 0 < length last.old.items }
    requires new { 0 < length new.items }
    ensures ok { OnOk result (joined blocks.new.items ++ last.new.items ≡ joined blocks.old.items ++ last.old.items ++ front.now ++ new.items) }
    ensures lengths { OnOk result (lengths_of blocks.new.items ≡ lengths_of blocks.old.items ++ (length last.old.items + length front.now) ∷ []) }
    ensures last { OnOk result (last.new.items ≡ new.items) }
    ensures err { OnErr result ((blocks.new.items ≡ blocks.old.items) × (last.new.items ≡ last.old.items)) }
    ensures pieces { ArePieces blocks.new.items last.new.items }
{
    blocks.reserve(1)?;
    last.reserve_exact(front.len())?;
    last.extend_from_slice(front)?;
    let bytes = mem::replace(last, new);
    blocks.push_reserved(Block { end, bytes });
    Ok(())
}
