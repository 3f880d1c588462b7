//! What links may hold, by the bytes with which their names begin.
ghost use Rattle.std.specs.Prelude.{◌≡◌, ◌↔◌, ◌<◌, length, Option, IfSome, IfNone, IfOk, IsTrue, slice_get, Some, if◌then◌else◌};
ghost use Rattle.std.specs.Option.{option_map};
ghost use Rattle.amqp_link.specs.Bounds.{IsBounded};
ghost use Rattle.amqp_endpoint.specs.Limits.{Limit, begins_with, longest, longer, IsGood, IsRepeated, IsFault, IsTable};

use amqp_link::LinkBounds;
use std::alloc::{AllocError, Allocator, Global};
use std::marker::Model;
use thiserror::Error;

/// The most rows of a table.
const MAX_LIMITS: usize = 16;

/// The longest prefix, in bytes. No name is longer.
const MAX_PREFIX: usize = 255;

/// What each link whose name begins with `prefix` may hold. Credit and open deliveries are together at most
/// `allowed`, and no message is longer than `max_message` bytes.
#[derive(Drop)]
pub struct LinkLimit<A: Allocator + Copy = Global> {
    /// 1 to 255 bytes.
    pub prefix: Vec<u8, A>,
    /// 1 to 1024 deliveries.
    pub allowed: u32,
    /// 1 to 2^30 bytes.
    pub max_message: u32,
}

/// Why a table of limits is refused. Its rows are counted from 0.
#[derive(Clone, Copy, Debug, PartialEq, Eq, Drop, Error)]
pub enum LimitFault {
    /// It has more than 16 rows.
    #[error("the table of limits has more than 16 rows")]
    TooMany,
    /// The prefix of this row is empty or longer than 255 bytes, or one of its numbers is outside its range.
    #[error("row {0} of the limits: the prefix has 1 to 255 bytes, and it allows 1 to 1024 deliveries of 1 to 1073741824 bytes")]
    BadRow(usize),
    /// This row has the prefix of an earlier one.
    #[error("row {0} of the limits has the prefix of an earlier one")]
    SamePrefix(usize),
}

impl<A: Allocator + Copy> Model for LinkLimit<A> {
    ghost use Rattle.amqp_endpoint.specs.Limits.{Limit};

    ghost Value = { Limit };

    ghost view = { λ a. record { prefix = a.prefix.items; bounds = record { allowed = a.allowed; max_message_size = a.max_message } } };
}

impl<A: Allocator + Copy> LinkLimit<A> {
    /// Returns an equal limit. It is an error if memory is refused.
    fn copy(&self, alloc: A) -> Result<Self, AllocError>
        ensures { IfOk result (λ c. c ≡ self.now) }
    {
        Ok(LinkLimit {
            prefix: Vec::from_slice(alloc, &self.prefix)?,
            allowed: self.allowed,
            max_message: self.max_message,
        })
    }

    /// Returns the bounds of the limit.
    pub fn bounds(&self) -> LinkBounds
        requires { IsBounded self.now.bounds.allowed self.now.bounds.max_message_size }
        ensures { result ≡ self.now.bounds }
    {
        match LinkBounds::new(self.allowed, self.max_message) {
            Some(bounds) => bounds,
            None => unreachable!(),
        }
    }

    /// Returns whether the limit is valid as a row of a table.
    fn is_good(&self) -> bool
        ensures { IsTrue result ↔ IsGood self.now }
    {
        let is_prefix = !self.prefix.is_empty() && self.prefix.len() <= MAX_PREFIX;
        is_prefix && LinkBounds::new(self.allowed, self.max_message).is_some()
    }

    /// Returns whether the limit has the prefix of another.
    fn has_prefix_of(&self, other: &LinkLimit<A>) -> bool
        ensures { IsTrue result ↔ (self.now.prefix ≡ other.now.prefix) }
    {
        self.prefix.as_slice() == other.prefix.as_slice()
    }

    /// Returns whether a name begins with the prefix.
    fn begins(&self, name: &[u8]) -> bool
        ensures { result ≡ begins_with self.now.prefix name.now }
    {
        name.starts_with(&self.prefix)
    }
}

/// Returns the row of the longest prefix with which a name begins; `None` if it begins with none.
pub fn longest<'a, A: Allocator + Copy>(
    limits: &'a [LinkLimit<A>],
    name: &[u8],
) -> Option<&'a LinkLimit<A>>
    ensures { option_map (λ r. r.now) result ≡ longest name.now limits.now }
{
    let mut found: Option<&'a LinkLimit<A>> = None;
    for limit in limits {
        if limit.begins(name) && is_longer(limit, found) {
            found = Some(limit);
        }
    }
    found
}

/// Returns whether the prefix of a row is longer than that of the row found so far, or none was found.
fn is_longer<A: Allocator + Copy>(limit: &LinkLimit<A>, found: Option<&LinkLimit<A>>) -> bool
    ensures { longer (option_map (λ r. r.now) found.entry) (Some limit.now) ≡ (if result then Some limit.now else option_map (λ r. r.now) found.entry) }
{
    match found {
        None => true,
        Some(other) => other.prefix.len() < limit.prefix.len(),
    }
}

/// Returns the first fault of a table; `None` if it has none.
pub fn fault<A: Allocator + Copy>(limits: &[LinkLimit<A>]) -> Option<LimitFault>
    ensures some { IfSome result (λ e. IsFault limits.now e) }
    ensures none { IfNone result (IsTable limits.now) }
{
    if limits.len() > MAX_LIMITS {
        return Some(LimitFault::TooMany);
    }
    for i in 0..limits.len() {
        if !limits[i].is_good() {
            return Some(LimitFault::BadRow(i));
        }
        if is_repeated(limits, i) {
            return Some(LimitFault::SamePrefix(i));
        }
    }
    None
}

/// Returns whether a row has the prefix of an earlier one.
fn is_repeated<A: Allocator + Copy>(limits: &[LinkLimit<A>], row: usize) -> bool
    requires { row < length limits.now }
    ensures { (r : Limit) → slice_get limits.now row ≡ Some r → (IsTrue result ↔ IsRepeated limits.now row r) }
{
    for earlier in 0..row {
        if limits[earlier].has_prefix_of(&limits[row]) {
            return true;
        }
    }
    false
}

/// Returns an equal table. It is an error if memory is refused.
pub fn copies<A: Allocator + Copy>(
    alloc: A,
    limits: &[LinkLimit<A>],
) -> Result<Vec<LinkLimit<A>, A>, AllocError>
    ensures { IfOk result (λ copies. copies.items ≡ limits.now) }
{
    let mut copies = Vec::with_capacity(alloc, limits.len())?;
    for limit in limits {
        copies.push(limit.copy(alloc)?)?;
    }
    Ok(copies)
}
