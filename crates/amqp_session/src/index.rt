//! The open deliveries of a session by their ids.

ghost use Rattle.std.specs.Prelude.{◌≡◌, ℕ, ◌<◌, ◌≤◌, ◌^◌, [], OnOk, OnErr, IfSome, Some, None, is_some, true, ◌++◌, ◌↔◌, false, length, nat_le, slice_get, IsTrue};
ghost use Rattle.amqp_session.specs.Indexes.{found, closed_of, gone_of, told_of, is_before, ids_of, IsPut, IsNext};
ghost use Rattle.amqp_session.specs.Recents.{FindsAlike, open_of, has_id_at, is_lesser_at, is_closed_at, AreBelow, IsPlaceOf, IsClosed, IsNotOpen};
ghost use Rattle.amqp_session.specs.declared.index.Begun.{Begun};

use crate::report::Report;
use crate::state::KeptLink;
use std::alloc::{AllocError, Allocator, Global};
use std::collections::{BTreeMap, VecDeque};
use std::marker::Model;

/// Where an open delivery is stored.
#[derive(Clone, Copy, Drop)]
pub struct Kept {
    /// The handle of its link.
    pub handle: u32,
    /// Its key in that link.
    pub key: usize,
}

/// The open deliveries of a session by their ids.
///
/// The delivery that began last is stored beside the others while it is open. So it takes no memory and no
/// search if it is closed before the next one begins.
#[derive(Drop)]
pub struct Index<A: Allocator + Copy = Global> {
    /// The delivery that began last, if it is open, with its id.
    newest: Option<(u32, Kept)>,
    /// The others.
    older: Older<A>,
}

impl<A: Allocator + Copy> Model for Index<A> {
    ghost use Rattle.std.specs.Prelude.{ℕ, List};
    ghost use Rattle.amqp_session.specs.declared.index.Kept.{Kept};

    ghost Value = { List (ℕ × Kept) };

    ghost use Rattle.amqp_session.specs.Indexes.{beside, IsBeside};

    ghost view = { λ a. beside a.newest a.older };

    ghost invariant = { λ a. IsBeside a.newest a.older };
}

impl<A: Allocator + Copy> Index<A> {
    /// Returns an index with no open delivery.
    pub fn new(alloc: A) -> Self
        ensures { result ≡ [] }
    {
        Index {
            newest: None,
            older: Older::new(alloc),
        }
    }

    /// Returns where the delivery with this id is stored; `None` if there is none.
    // Inlined for `telemetry` and `gateway` (docs/PERF.md).
    #[inline(always)]
    pub fn get(&self, id: u32) -> Option<Kept>
        ensures { result ≡ found self.now id }
    {
        if let Some((newest, kept)) = self.newest {
            if newest == id {
                return Some(kept);
            }
        }
        self.older.get(id)
    }

    /// Returns whether an open delivery has this id. For an id above all others the answer needs no search.
    pub fn has(&self, id: u32) -> bool
        ensures { result ≡ is_some (found self.now id) }
    {
        if let Some((newest, _)) = self.newest {
            if newest == id {
                return true;
            }
        }
        !self.older.all_below(id) && self.older.get(id).is_some()
    }

    /// Updates the index after a flow: the ids of a link that failed go. `ended` is that link.
    pub fn flowed(&mut self, report: Report, ended: Option<KeptLink<A>>)
        ensures { (id : ℕ) → id < 2 ^ 32 → found self.new id ≡ told_of report ended id (found self.old id) }
    {
        if let Report::Failed { .. } = report {
            self.forget_link(ended);
        }
    }

    /// Adds a delivery that begins; the one that began before it goes to the others. If memory is refused,
    /// nothing has changed.
    pub fn insert(&mut self, id: u32, kept: Kept) -> Result<(), AllocError>
        requires { found self.old id ≡ None }
        ensures ok { OnOk result (IsPut self.old self.new id (Some kept)) }
        ensures err { OnErr result (self.new ≡ self.old) }
    {
        if let Some((newest, at)) = self.newest {
            self.older.insert(newest, at)?;
        }
        self.newest = Some((id, kept));
        Ok(())
    }

    /// Removes the delivery with this id, if there is one: it is open no longer.
    // Inlined for `telemetry` and `gateway` (docs/PERF.md).
    #[inline(always)]
    pub fn remove(&mut self, id: u32)
        ensures { IsPut self.old self.new id None }
    {
        if let Some((newest, _)) = self.newest {
            if newest == id {
                self.newest = None;
                return;
            }
        }
        self.older.remove(id);
    }

    /// Removes the delivery with this id if `closed` is true.
    pub fn close(&mut self, id: u32, closed: bool)
        ensures { (q : ℕ) → q < 2 ^ 32 → found self.new q ≡ closed_of closed id q (found self.old q) }
    {
        if closed {
            self.remove(id);
        }
    }

    /// Removes the deliveries of a link that ended, if one ended.
    pub fn forget_link(&mut self, ended: Option<KeptLink<A>>)
        ensures { (id : ℕ) → id < 2 ^ 32 → found self.new id ≡ gone_of (ids_of ended) id (found self.old id) }
    {
        let Some(kept) = ended else {
            return;
        };
        let mut ids = kept.link().open_ids();
        while let Some(id) = ids.next() {
            self.remove(id);
        }
    }

    /// Returns the delivery with the least id from `from` to `last`; `None` if there is none.
    pub fn next(&self, from: u32, last: u32) -> Option<(u32, Kept)>
        requires { from ≤ last }
        ensures { IsNext self.now from last result }
    {
        let older = self.older.next(from, last);
        let Some((id, kept)) = self.newest else {
            return older;
        };
        if from <= id && id <= last && is_before(id, older) {
            Some((id, kept))
        } else {
            older
        }
    }
}

/// Returns whether an id is less than that of another delivery, if there is another.
pub fn is_before(id: u32, other: Option<(u32, Kept)>) -> bool
    ensures { result ≡ is_before id other }
{
    match other {
        Some((next, _)) => id < next,
        None => true,
    }
}

/// Open deliveries by their ids.
///
/// Those that began with rising ids are stored in a queue, about as many as one link can have, so that most are
/// found and gone through without a search. The others are in a tree.
#[derive(Drop)]
pub struct Older<A: Allocator + Copy = Global> {
    recent: Recent<A>,
    rest: Tree<A>,
}

impl<A: Allocator + Copy> Model for Older<A> {
    ghost use Rattle.std.specs.Prelude.{ℕ, List, ◌++◌};
    ghost use Rattle.amqp_session.specs.declared.index.Kept.{Kept};

    ghost Value = { List (ℕ × Kept) };

    ghost use Rattle.amqp_session.specs.Recents.{open_of, AreApart};

    ghost view = { λ a. open_of a.recent ++ a.rest };

    ghost invariant = { λ a. AreApart (open_of a.recent) a.rest };
}

impl<A: Allocator + Copy> Older<A> {
    /// Returns an empty one. Takes no memory.
    pub fn new(alloc: A) -> Self
        ensures { result ≡ [] }
    {
        Older {
            recent: Recent::new(alloc),
            rest: Tree::new(alloc),
        }
    }

    /// Returns where the delivery with this id is stored; `None` if there is none.
    pub fn get(&self, id: u32) -> Option<Kept>
        ensures { result ≡ found self.now id }
    {
        match self.recent.get(id) {
            Some(kept) => Some(kept),
            None => self.rest.get(id),
        }
    }

    /// Returns true only if all ids are below this one. It looks at no id but the last, so it may miss that
    /// this is so.
    pub fn all_below(&self, id: u32) -> bool
        ensures { result ≡ true → found self.now id ≡ None }
    {
        self.recent.is_above(id) && self.rest.is_empty()
    }

    /// Adds a delivery whose id is not there. If memory is refused, nothing has changed.
    pub fn insert(&mut self, id: u32, kept: Kept) -> Result<(), AllocError>
        requires { found self.old id ≡ None }
        ensures ok { OnOk result (IsPut self.old self.new id (Some kept)) }
        ensures err { OnErr result (self.new ≡ self.old) }
    {
        if !self.recent.is_above(id) {
            return self.rest.insert(id, kept);
        }
        self.recent.push(id, kept)?;
        self.make_room();
        Ok(())
    }

    /// Removes the delivery with this id, if there is one.
    pub fn remove(&mut self, id: u32)
        ensures { IsPut self.old self.new id None }
    {
        if !self.recent.remove(id) {
            self.rest.remove(id);
        }
    }

    /// Returns the delivery with the least id from `from` to `last`; `None` if there is none.
    pub fn next(&self, from: u32, last: u32) -> Option<(u32, Kept)>
        requires { from ≤ last }
        ensures { IsNext self.now from last result }
    {
        if let Some(kept) = self.recent.guessed(from) {
            return Some((from, kept));
        }
        let other = self.rest.next(from, last);
        let Some((id, kept)) = self.recent.next(from, last) else {
            return other;
        };
        if is_before(id, other) {
            Some((id, kept))
        } else {
            other
        }
    }

    /// Moves the first of the recent deliveries to the rest if there are as many as allowed, and if there is
    /// memory for that.
    fn make_room(&mut self)
        ensures { FindsAlike self.old self.new }
    {
        if !self.recent.is_full() {
            return;
        }
        let Some((id, kept)) = self.recent.next(0, u32::MAX) else {
            return;
        };
        if self.rest.insert(id, kept).is_ok() {
            self.recent.remove(id);
        }
    }
}

/// The most places that the queue should have: as many as one link can have open.
const MOST: usize = 1_024;

/// A delivery that began, and where it is stored while it is open.
#[derive(Clone, Copy, Drop)]
struct Begun {
    id: u32,
    kept: Option<Kept>,
}

/// The last deliveries that began with rising ids, in that order.
///
/// A delivery that closes leaves its place closed, so that the others don't move. Closed places at the front
/// are given back at once, and all memory with the last place.
#[derive(Drop)]
pub struct Recent<A: Allocator + Copy = Global> {
    begun: VecDeque<Begun, A>,
}

impl<A: Allocator + Copy> Model for Recent<A> {
    ghost use Rattle.std.specs.Prelude.{List};
    ghost use Rattle.amqp_session.specs.declared.index.Begun.{Begun};

    ghost Value = { List Begun };

    ghost view = { λ a. a.begun.items };

    ghost use Rattle.amqp_session.specs.Recents.{IsRising};

    ghost invariant = { λ a. IsRising a.begun.items };
}

impl<A: Allocator + Copy> Recent<A> {
    /// Returns an empty one. Takes no memory.
    pub fn new(alloc: A) -> Self
        ensures { result ≡ [] }
    {
        Recent {
            begun: VecDeque::new(alloc),
        }
    }

    /// Returns whether an id is greater than all that have a place.
    pub fn is_above(&self, id: u32) -> bool
        ensures { IsTrue result ↔ AreBelow id (length self.now) self.now }
    {
        match self.begun.back() {
            Some(last) => last.id < id,
            None => true,
        }
    }

    /// Returns whether no place is left.
    pub fn is_full(&self) -> bool
        ensures { result ≡ nat_le MOST (length self.now) }
    {
        self.len() >= MOST
    }

    /// Returns where the open delivery with this id is stored; `None` if there is none.
    pub fn get(&self, id: u32) -> Option<Kept>
        ensures { result ≡ found (open_of self.now) id }
    {
        let _ = &self.begun; // the invariant: the ids rise
        let begun = self.begun_at(self.place_of(id))?;
        if begun.id == id { begun.kept } else { None }
    }

    /// Returns where the open delivery with this id is stored, if it is at the guessed place.
    fn guessed(&self, id: u32) -> Option<Kept>
        ensures { IfSome result (λ kept. found (open_of self.now) id ≡ Some kept) }
    {
        let _ = &self.begun; // the invariant: the ids rise
        let begun = self.begun_at(self.guess(id))?;
        if begun.id == id { begun.kept } else { None }
    }

    /// Adds a delivery that begins. If memory is refused, nothing has changed.
    pub fn push(&mut self, id: u32, kept: Kept) -> Result<(), AllocError>
        requires { AreBelow id (length self.old) self.old }
        ensures ok { OnOk result (IsPut (open_of self.old) (open_of self.new) id (Some kept)) }
        ensures err { OnErr result (self.new ≡ self.old) }
    {
        self.begun.push_back(Begun {
            id,
            kept: Some(kept),
        })?;
        Ok(())
    }

    /// Removes the open delivery with this id. Returns whether there was one.
    pub fn remove(&mut self, id: u32) -> bool
        ensures left { IsPut (open_of self.old) (open_of self.new) id None }
        ensures was { result ≡ is_some (found (open_of self.old) id) }
    {
        let _ = &self.begun; // the invariant: the ids rise
        let place = self.place_of(id);
        if !self.close(place, id) {
            return false;
        }
        self.give_back();
        true
    }

    /// Returns the open delivery with the least id from `from` to `last`; `None` if there is none.
    pub fn next(&self, from: u32, last: u32) -> Option<(u32, Kept)>
        ensures { IsNext (open_of self.now) from last result }
    {
        let _ = &self.begun; // the invariant: the ids rise
        let mut place = self.place_of(from);
        while let Some(begun) = self.begun_at(place) {
            if last < begun.id {
                return None;
            }
            if let Some(kept) = begun.kept {
                return Some((begun.id, kept));
            }
            place += 1;
        }
        None
    }

    /// Returns how many places are in use.
    fn len(&self) -> usize
        ensures { result ≡ length self.now }
    {
        self.begun.len()
    }

    /// Returns what is at a place; `None` after the last place.
    fn begun_at(&self, place: usize) -> Option<Begun>
        ensures { result ≡ slice_get self.now place }
    {
        self.begun.get(place).copied()
    }

    /// Closes the place if it has this id and is open. Returns whether it did; else nothing has changed.
    fn close(&mut self, place: usize, id: u32) -> bool
        ensures closed { result ≡ true → IsClosed self.old self.new place id }
        ensures same { result ≡ false → self.new ≡ self.old }
        ensures not_open { result ≡ false → IsNotOpen self.old place id }
    {
        let Some(begun) = self.begun.get_mut(place) else {
            return false;
        };
        if begun.id != id || begun.kept.is_none() {
            return false;
        }
        begun.kept = None;
        true
    }

    /// Gives back the closed places at the front, and all memory with the last place.
    fn give_back(&mut self)
        ensures { open_of self.new ≡ open_of self.old }
    {
        while self.starts_closed() {
            self.begun.pop_front();
        }
        if self.begun.is_empty() {
            self.begun.shrink_to(0);
        }
    }

    /// Returns whether the first place is closed.
    fn starts_closed(&self) -> bool
        ensures { result ≡ is_closed_at (slice_get self.now 0) }
    {
        match self.begun.front() {
            Some(first) => first.kept.is_none(),
            None => false,
        }
    }

    /// Returns the first place whose id is this one or greater. If the ids came one after the other, the guess
    /// finds it.
    fn place_of(&self, id: u32) -> usize
        ensures { IsPlaceOf id self.now result }
    {
        let _ = &self.begun; // the invariant: the ids rise
        let guess = self.guess(id);
        if self.has_at(guess, id) {
            return guess;
        }
        if self.is_above(id) {
            return self.len();
        }
        self.search(id)
    }

    /// Guesses the place of an id: its distance from the first id.
    fn guess(&self, id: u32) -> usize {
        match self.begun.front() {
            Some(first) => id.saturating_sub(first.id) as usize,
            None => 0,
        }
    }

    /// Returns whether the place has this id.
    fn has_at(&self, place: usize, id: u32) -> bool
        ensures { result ≡ has_id_at id (slice_get self.now place) }
    {
        match self.begun_at(place) {
            Some(begun) => begun.id == id,
            None => false,
        }
    }

    /// Returns the first place whose id is this one or greater, by a binary search.
    fn search(&self, id: u32) -> usize
        ensures { IsPlaceOf id self.now result }
    {
        let _ = &self.begun; // the invariant: the ids rise
        let (mut low, mut high) = (0, self.len());
        while low < high {
            let middle = low + (high - low) / 2;
            if self.is_below(middle, id) {
                low = middle + 1;
            } else {
                high = middle;
            }
        }
        low
    }

    /// Returns whether the place has a lesser id.
    fn is_below(&self, place: usize, id: u32) -> bool
        ensures { result ≡ is_lesser_at id (slice_get self.now place) }
    {
        match self.begun_at(place) {
            Some(begun) => begun.id < id,
            None => false,
        }
    }
}

/// Open deliveries in the order of their ids as plain numbers.
#[derive(Drop)]
pub struct Tree<A: Allocator + Copy = Global> {
    entries: BTreeMap<u32, Kept, A>,
}

impl<A: Allocator + Copy> Model for Tree<A> {
    ghost use Rattle.std.specs.Prelude.{ℕ, List};
    ghost use Rattle.amqp_session.specs.declared.index.Kept.{Kept};

    ghost Value = { List (ℕ × Kept) };

    ghost view = { λ a. a.entries.entries };
}

impl<A: Allocator + Copy> Tree<A> {
    /// Returns an empty one. Takes no memory.
    pub fn new(alloc: A) -> Self
        ensures { result ≡ [] }
    {
        Tree {
            entries: BTreeMap::new(alloc),
        }
    }

    /// Returns where the delivery with this id is stored; `None` if there is none.
    pub fn get(&self, id: u32) -> Option<Kept>
        ensures { result ≡ found self.now id }
    {
        self.entries.get(&id).copied()
    }

    /// Returns whether there is none.
    pub fn is_empty(&self) -> bool
        ensures { IsTrue result ↔ (self.now ≡ []) }
    {
        self.entries.is_empty()
    }

    /// Adds a delivery, in place of one with the same id. If memory is refused, nothing has changed.
    pub fn insert(&mut self, id: u32, kept: Kept) -> Result<(), AllocError>
        ensures ok { OnOk result (IsPut self.old self.new id (Some kept)) }
        ensures err { OnErr result (self.new ≡ self.old) }
    {
        self.entries.insert(id, kept)?;
        Ok(())
    }

    /// Removes the delivery with this id, if there is one.
    pub fn remove(&mut self, id: u32)
        ensures { IsPut self.old self.new id None }
    {
        self.entries.remove(&id);
    }

    /// Returns the delivery with the least id from `from` to `last`; `None` if there is none.
    pub fn next(&self, from: u32, last: u32) -> Option<(u32, Kept)>
        requires { from ≤ last }
        ensures { IsNext self.now from last result }
    {
        if self.entries.is_empty() {
            return None;
        }
        let (id, kept) = self.entries.range(from..=last).next()?;
        Some((*id, *kept))
    }
}
