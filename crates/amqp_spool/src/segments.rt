//! The segments of a spool, as it counts them.
ghost use Rattle.std.specs.Prelude.{◌≡◌, ◌≢◌, ◌<◌, ◌≤◌, ◌+◌, ◌-◌, ◌^◌, ◌∷◌, ◌++◌, min, length, List, [], Some, None, IfSome, OnOk};
ghost use Rattle.std.specs.Vec.{vec_len, vec_capacity};
ghost use Rattle.amqp_spool.specs.declared.segments.Named.{Named};
ghost use Rattle.amqp_spool.specs.Counting.{total, grown, put, freed, IsNewestAt};

use std::alloc::AllocError;

/// A segment: the number of its first record, and how many bytes count for it.
#[derive(Clone, Copy, Debug, PartialEq, Eq)]
pub struct Named {
    pub first: u64,
    pub bytes: u64,
}

/// The segments, the newest first.
#[derive(Debug, Drop)]
pub struct Segments {
    pub list: Vec<Named>,
}

impl Segments {
    /// Counts so many bytes more for the newest.
    pub fn grow(&mut self, bytes: u64)
        requires { total self.old.list.items + bytes < 2 ^ 64 }
        ensures { self.new.list.items ≡ grown bytes self.old.list.items }
    {
        if let Some(newest) = self.list.first_mut() {
            newest.bytes += bytes;
        }
    }

    /// Makes room for one more.
    pub fn reserve(&mut self) -> Result<(), AllocError>
        ensures list { self.new.list.items ≡ self.old.list.items }
        ensures room { OnOk result (vec_len self.new.list < vec_capacity self.new.list) }
    {
        self.list.reserve(1)
    }

    /// Puts one before the newest, or in its place if it has the same name. Returns how many bytes counted for that
    /// one, else 0.
    pub fn put(&mut self, first: u64, bytes: u64) -> u64
        requires { vec_len self.old.list < vec_capacity self.old.list }
        ensures list { self.new.list.items ≡ put (record { first = first; bytes = bytes }) self.old.list.items }
        ensures freed { result ≡ freed first self.old.list.items }
    {
        let named = Named { first, bytes };
        if let Some(newest) = self.list.first_mut()
            && newest.first == first
        {
            let freed = newest.bytes;
            *newest = named;
            return freed;
        }
        let _ = self.list.insert(0, named);
        0
    }

    /// Returns the first number of the one that is newer than the oldest.
    pub fn after_oldest(&self) -> Option<u64>
        ensures some { IfSome result (λ first. (front : List Named) × (a : Named) × (b : Named) × (self.now.list.items ≡ front ++ a ∷ b ∷ []) × (a.first ≡ first)) }
        ensures none { result ≡ None → (front : List Named) (a b : Named) → self.now.list.items ≢ front ++ a ∷ b ∷ [] }
    {
        match self.list.as_slice() {
            [.., newer, _] => Some(newer.first),
            _ => None,
        }
    }

    /// Takes the oldest away. Returns how many bytes counted for it.
    pub fn pop(&mut self) -> u64
        ensures { (front : List Named) (oldest : Named) → self.old.list.items ≡ front ++ oldest ∷ [] → (self.new.list.items ≡ front) × (result ≡ oldest.bytes) }
    {
        match self.list.pop() {
            Some(oldest) => oldest.bytes,
            None => 0,
        }
    }

    /// Returns `passed`, or less, so that at most `most` of them are passed.
    pub fn few(&self, passed: u64, most: usize) -> u64
        ensures low { result ≤ passed }
        ensures all { vec_len self.now.list ≤ most → result ≡ passed }
        ensures some { (front back : List Named) (stays : Named) → self.now.list.items ≡ front ++ stays ∷ back → length back ≡ most → result ≡ min passed (stays.first - 1) }
    {
        let count = self.list.len();
        if count <= most {
            return passed;
        }
        match self.list.get(count - 1 - most) {
            Some(stays) => passed.min(stays.first.saturating_sub(1)),
            None => passed,
        }
    }

    /// Returns the greatest first number that is at most one above `passed`.
    pub fn newest_at(&self, passed: u64) -> Option<u64>
        ensures { IsNewestAt passed self.now.list.items result }
    {
        let mut newest: Option<u64> = None;
        for segment in &self.list {
            if segment.first.saturating_sub(1) <= passed {
                newest = Some(newest.unwrap_or(0).max(segment.first));
            }
        }
        newest
    }
}
