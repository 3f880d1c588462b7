//! The buffer of a splitter. Room for the longest frame is reserved at once, and its bytes are zeroed when they are first lent. Its front
//! is filled.
ghost use Rattle.std.specs.Prelude.{◌≡◌, ℕ, ◌+◌, ◌-◌, ◌<◌, ◌≤◌, slice_index, ◌++◌, [], length, take, drop, replicate, IfOk};
ghost use Rattle.std.specs.Vec.{vec_capacity};
ghost use Rattle.std.specs.Borrow.{sem};
ghost use Rattle.amqp_frame.specs.Rooms.{Filled, whole_length};
ghost use Rattle.amqp_frame.specs.RoomLends.{LendsSpare};

use std::alloc::{AllocError, Allocator, Global};
use std::marker::Model;

/// A buffer whose front is filled.
#[derive(Drop)]
pub struct Room<A: Allocator + Copy = Global> {
    max: usize,
    mark: usize,
    /// The bytes that were lent or filled before, in a block of `max`.
    bytes: Vec<u8, A>,
}

impl<A: Allocator + Copy> Model for Room<A> {
    ghost use Rattle.std.specs.Prelude.{◌≤◌, ◌-◌, ◌++◌, length, take, drop, replicate};
    ghost use Rattle.std.specs.Vec.{vec_capacity};
    ghost use Rattle.amqp_frame.specs.Rooms.{Filled};

    ghost Value = { Filled };

    ghost view = { λ a. record { filled = take a.mark a.bytes.items; spare = drop a.mark a.bytes.items ++ replicate (a.max - length a.bytes.items) 0; reach = length a.bytes.items - a.mark } };

    ghost invariant = { λ a. (a.mark ≤ length a.bytes.items) × (length a.bytes.items ≤ a.max) × (a.max ≤ vec_capacity a.bytes) };
}

impl<A: Allocator + Copy> Room<A> {
    /// Makes a buffer for `max` bytes, which are reserved at once; an error if they are refused.
    pub fn new(alloc: A, max: usize) -> Result<Self, AllocError>
        ensures { IfOk result (λ b. (b.filled ≡ []) × (whole_length b ≡ max)) }
    {
        Ok(Room {
            max,
            mark: 0,
            bytes: Vec::with_capacity(alloc, max)?,
        })
    }

    /// Lends the first `n` bytes after the filled ones. Those that were never lent or filled are zeroed.
    pub fn spare(&mut self, n: usize) -> &mut [u8]
        requires { n ≤ length self.old.spare }
        ensures* writes_back { sem 𝓛 (LendsSpare A.row A.Allocator self.entry result) }
        ensures value { result.now ≡ take n self.old.spare }
    {
        let mark = self.mark;
        reach(&mut self.bytes, mark + n);
        self.bytes.slice_mut(mark..mark + n)
    }

    /// Counts the first `n` bytes after the filled ones as filled.
    pub fn fill(&mut self, n: usize)
        requires { n ≤ length self.old.spare }
        ensures filled { self.new.filled ≡ self.old.filled ++ take n self.old.spare }
        ensures spare { self.new.spare ≡ drop n self.old.spare }
        ensures whole { whole_length self.new ≡ whole_length self.old }
    {
        reach(&mut self.bytes, self.mark + n);
        self.mark += n;
    }

    /// Appends a piece to the filled bytes.
    pub fn extend(&mut self, piece: &[u8])
        requires { length piece.now ≤ length self.old.spare }
        ensures filled { self.new.filled ≡ self.old.filled ++ piece.now }
        ensures whole { whole_length self.new ≡ whole_length self.old }
    {
        self.spare(piece.len()).copy_from_slice(piece);
        self.fill(piece.len());
    }

    /// Empties it: no byte is filled.
    pub fn clear(&mut self)
        ensures filled { self.new.filled ≡ [] }
        ensures whole { whole_length self.new ≡ whole_length self.old }
    {
        self.mark = 0;
    }

    /// Returns the filled bytes.
    pub fn as_slice(&self) -> &[u8]
        ensures { result.now ≡ self.now.filled }
    {
        &self.bytes[..self.mark]
    }

    /// A law: each byte after the filled ones is below 256.
    pub fn spare_is_bytes(&self)
        ensures { (i : ℕ) → slice_index self.now.spare i < 256 }
    {
        are_bytes(&self.bytes[self.mark..]);
    }

    /// Returns how many bytes are filled. All fields are named, so a new one does not compile until it is counted.
    pub fn len(&self) -> usize
        ensures { result ≡ length self.now.filled }
    {
        let Room {
            max: _,
            mark,
            bytes: _,
        } = self;
        *mark
    }
}

/// Appends zeros until there are `end` bytes.
fn reach<A: Allocator>(bytes: &mut Vec<u8, A>, end: usize)
    requires { end ≤ vec_capacity bytes.old }
    ensures items { bytes.new.items ≡ bytes.old.items ++ replicate (end - length bytes.old.items) 0 }
    ensures capacity { vec_capacity bytes.old ≤ vec_capacity bytes.new }
{
    if bytes.len() < end {
        lengthen(bytes, end);
    }
}

/// The part of `reach` that writes. It is apart so that the test is inlined.
#[cold]
#[inline(never)]
fn lengthen<A: Allocator>(bytes: &mut Vec<u8, A>, end: usize)
    requires fits { end ≤ vec_capacity bytes.old }
    requires longer { length bytes.old.items ≤ end }
    ensures items { bytes.new.items ≡ bytes.old.items ++ replicate (end - length bytes.old.items) 0 }
    ensures capacity { vec_capacity bytes.old ≤ vec_capacity bytes.new }
{
    if bytes.resize(end, 0).is_err() {
        unreachable!();
    }
}

/// A law: each byte is below 256.
fn are_bytes(piece: &[u8])
    ensures { (i : ℕ) → slice_index piece.now i < 256 }
{}
