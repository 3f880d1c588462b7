//! The batch that waits in memory until it is synced.

ghost use Rattle.std.specs.Prelude.{◌≡◌, ◌+◌, ◌<◌, ◌≤◌, ◌^◌, ◌↔◌, ◌++◌, [], length, vec_len, vec_capacity, IfOk, IfErr, OnOk, OnErr, IsTrue};
ghost use Rattle.amqp_spool.specs.Entries.{Recorded, record_entry};
ghost use Rattle.amqp_spool.specs.EntryReading.{IsWhole};
ghost use Rattle.amqp_spool.specs.Waitings.{IsCleared, IsMarked, AddsRecord, batch_len};
ghost use Rattle.amqp_spool.specs.PutFaults.{Refuses, RefusesToAppend, IsPut, IsAppended};

use crate::entry::{TAG_MOST, whole_front};
use crate::links::Links;
use std::alloc::{AllocError, Global};
use std::marker::Model;

/// How many bytes an entry of a record has besides its tag and the record.
const RECORD_FRONT: usize = 6;

/// Why a record is not put.
#[derive(Clone, Copy, Debug, PartialEq, Eq)]
pub enum PutFault {
    /// No link has the number.
    NotOpen,
    /// The delivery-tag has more than 32 bytes.
    LongTag,
    /// The bytes are no record.
    NoRecord,
    /// The batch would be longer than its limit.
    Full,
    /// The batch would have more records than its head can count.
    TooMany,
    /// Memory was refused.
    NoMemory,
}

impl From<AllocError> for PutFault {
    ghost use Rattle.amqp_spool.specs.declared.waiting.PutFault.TheVariants.{NoMemory};

    ghost from_gives = { λ _ e. e ≡ NoMemory };

    fn from(_: AllocError) -> PutFault {
        PutFault::NoMemory
    }
}

/// The batch that waits.
#[derive(Drop)]
pub struct Waiting {
    /// Its entries: all records, and the introductions that the active segment needs.
    here: Vec<u8>,
    /// The introductions that a new segment needs besides, before all entries.
    again: Vec<u8>,
    /// How many records it has.
    count: u32,
    /// How many bytes it has at most.
    most: u32,
}

impl Model for Waiting {
    ghost use Rattle.std.specs.Prelude.{◌+◌, ◌≤◌, vec_len};
    ghost use Rattle.amqp_spool.specs.Waitings.{WaitingState};

    ghost Value = { WaitingState };

    ghost view = { λ a. record { here = a.here.items; again = a.again.items; count = a.count; most = a.most } };

    ghost invariant = { λ a. vec_len a.again + vec_len a.here ≤ a.most };
}

impl Waiting {
    /// Makes a batch of no record yet, which has at most `most` bytes. It takes no memory.
    pub fn new(alloc: Global, most: u32) -> Waiting
        ensures { result ≡ record { here = []; again = []; count = 0; most = most } }
    {
        Waiting {
            here: Vec::new(alloc),
            again: Vec::new(alloc),
            count: 0,
            most,
        }
    }

    /// Puts a record of a link, and its introduction where it is needed before it. `first` is the number of the first
    /// record of the active segment, and `next` that of the first record of this batch.
    ///
    /// # Errors
    ///
    /// `NotOpen` if no link has the number, `LongTag` if the tag has more than 32 bytes, `NoRecord` if the bytes are no
    /// record, `Full` if the batch would be longer than its limit, `TooMany` if it would have 2³² records, and
    /// `NoMemory` if memory is refused. Neither the batch nor a link has changed then.
    pub fn put(
        &mut self,
        links: &mut Links,
        first: u64,
        next: u64,
        link: u32,
        tag: &[u8],
        bytes: &[u8],
    ) -> Result<(), PutFault>
        ensures put { let r : Recorded = record { link = link; tag = tag.now; «record» = bytes.now } in OnOk result (IsPut first next links.old self.old self.new r) }
        ensures links { OnOk result (IsMarked links.old links.new link next) }
        ensures waits { let r : Recorded = record { link = link; tag = tag.now; «record» = bytes.now } in OnOk result (AddsRecord first next links.old links.new r self.old self.new) }
        ensures reason { let r : Recorded = record { link = link; tag = tag.now; «record» = bytes.now } in IfErr result (λ fault. Refuses first next links.old self.old r fault) }
        ensures same { OnErr result (self.new ≡ self.old) }
        ensures links_same { OnErr result (links.new ≡ links.old) }
    {
        let Some(known) = links.get(link) else {
            return Err(PutFault::NotOpen);
        };
        if tag.len() > TAG_MOST as usize {
            return Err(PutFault::LongTag);
        }
        if !is_record(bytes) {
            return Err(PutFault::NoRecord);
        }
        let here = known.told_here(first);
        let again = known.told_again(first, next);
        self.append(here, again, link, tag, bytes)?;
        links.mark(link, next);
        Ok(())
    }

    /// Appends a record, and what is told before it, there and in the introductions for a new segment. Changes nothing
    /// if it returns an error.
    fn append(
        &mut self,
        here: &[u8],
        again: &[u8],
        link: u32,
        tag: &[u8],
        bytes: &[u8],
    ) -> Result<(), PutFault>
        requires { length tag.now ≤ 32 }
        ensures appended { let r : Recorded = record { link = link; tag = tag.now; «record» = bytes.now } in OnOk result (IsAppended here.now again.now r self.old self.new) }
        ensures reason { let r : Recorded = record { link = link; tag = tag.now; «record» = bytes.now } in IfErr result (λ fault. RefusesToAppend here.now again.now r self.old fault) }
        ensures same { OnErr result (self.new ≡ self.old) }
    {
        let told = here.len().saturating_add(again.len());
        let entry = RECORD_FRONT + tag.len() + bytes.len();
        if told.saturating_add(entry) > self.most as usize - self.len() {
            return Err(PutFault::Full);
        }
        let Some(count) = self.count.checked_add(1) else {
            return Err(PutFault::TooMany);
        };
        self.again.reserve(again.len())?;
        append_record(&mut self.here, here, link, tag, bytes)?;
        fill(&mut self.again, again);
        self.count = count;
        Ok(())
    }

    /// Empties it, and keeps its room.
    pub fn clear(&mut self)
        ensures { IsCleared self.old self.new }
    {
        self.here.clear();
        self.again.clear();
        self.count = 0;
    }

    /// Returns how many bytes it has, as it goes into a new segment.
    pub fn len(&self) -> usize
        ensures is { result ≡ batch_len self.now }
        ensures within { result ≤ self.now.most }
    {
        self.again.len() + self.here.len()
    }

    /// Returns whether it has no record.
    pub fn is_empty(&self) -> bool
        ensures { IsTrue result ↔ (self.now.count ≡ 0) }
    {
        self.count == 0
    }

    /// Returns how many bytes it has at most.
    pub fn most(&self) -> u32
        ensures { result ≡ self.now.most }
    {
        self.most
    }

    /// Returns how many records it has.
    pub fn count(&self) -> u32
        ensures { result ≡ self.now.count }
    {
        self.count
    }

    /// Returns its body as it goes to the end of the active segment.
    pub fn here(&self) -> &[u8]
        ensures is { result.now ≡ self.now.here }
        ensures within { length result.now ≤ self.now.most }
    {
        &self.here
    }

    /// Returns its body as it goes into a new segment.
    pub fn anew(&self, alloc: Global) -> Result<Vec<u8>, AllocError>
        ensures is { IfOk result (λ body. body.items ≡ self.now.again ++ self.now.here) }
        ensures within { IfOk result (λ body. vec_len body ≤ self.now.most) }
    {
        let mut body = Vec::with_capacity(alloc, self.len())?;
        body.extend_from_slice(&self.again)?;
        body.extend_from_slice(&self.here)?;
        Ok(body)
    }
}

/// Returns whether bytes are a record: 18 bytes, the last 4 of which are the length of the message, and the message.
fn is_record(bytes: &[u8]) -> bool
    ensures { IsTrue result ↔ IsWhole bytes.now }
{
    match whole_front(bytes) {
        Some((_, rest)) => rest.is_empty(),
        None => false,
    }
}

/// Appends an entry of a record, whose bytes these are, on a link, and before it what is told. Appends nothing if it
/// returns an error.
fn append_record(
    out: &mut Vec<u8>,
    told: &[u8],
    link: u32,
    tag: &[u8],
    bytes: &[u8],
) -> Result<(), AllocError>
    requires tag { length tag.now ≤ 32 }
    requires short { length told.now + length bytes.now < 2 ^ 32 }
    ensures appended { OnOk result (out.new.items ≡ out.old.items ++ told.now ++ record_entry (record { link = link; tag = tag.now; «record» = bytes.now })) }
    ensures same { OnErr result (out.new.items ≡ out.old.items) }
{
    out.reserve(told.len() + RECORD_FRONT + tag.len() + bytes.len())?;
    fill(out, told);
    fill(out, &[2]);
    fill(out, &link.to_be_bytes());
    fill(out, &[tag.len() as u8]);
    fill(out, tag);
    fill(out, bytes);
    Ok(())
}

/// Appends bytes for which there is room.
fn fill(out: &mut Vec<u8>, bytes: &[u8])
    requires { vec_len out.old + length bytes.now ≤ vec_capacity out.old }
    ensures items { out.new.items ≡ out.old.items ++ bytes.now }
    ensures len { vec_len out.new ≡ vec_len out.old + length bytes.now }
    ensures capacity { vec_capacity out.old ≤ vec_capacity out.new }
{
    let _ = out.extend_from_slice(bytes);
}
