//! The batches of a segment, one after the other.

ghost use Rattle.std.specs.Prelude.{◌≡◌, ◌≤◌, ◌<◌, ◌-◌, ◌+◌, ◌^◌, length, OnOk};
ghost use Rattle.amqp_spool_records.specs.Tellings.{MayComeFrom};
ghost use Rattle.amqp_spool_records.specs.Stops.{may_have, stop_at, end_at};

use crate::extents::Extent;
use crate::faults::SpoolFault;
use crate::numbers::after;
use crate::visiting::{Found, Visitor};
use amqp_records::HEAD as RECORD_HEAD;
use amqp_spool::{
    BATCH_HEAD, BatchHead, Entries, Entry, FileName, HEAD, Head, Names, ReadFault, Record,
    next_batch, next_entry,
};
use std::io::{self, ErrorKind, Read};

/// Where the next batch begins in a segment.
#[derive(Clone, Copy, Debug)]
pub struct At {
    /// In bytes from the begin of the segment.
    pub place: u64,
    /// How many bytes are left that may count.
    pub left: u64,
    /// The number of its first record.
    pub number: u64,
}

/// Why no more batches of a segment are read.
#[derive(Clone, Copy, Debug, PartialEq, Eq)]
pub enum Stop {
    /// All that counts was read.
    End,
    /// What counts breaks off at this place, before the record of this number.
    Broken { place: u64, number: u64 },
}

impl At {
    /// Returns the place of the first batch of a segment with this head, of which nothing counts yet.
    pub fn first(head: &Head) -> At {
        At {
            place: HEAD as u64,
            left: 0,
            number: head.first,
        }
    }

    /// Returns the place after a batch.
    fn after(self, batch: &BatchHead) -> At
        ensures { result.left ≡ self.left - (32 + batch.now.size) }
    {
        let len = BATCH_HEAD as u64 + batch.size as u64;
        At {
            place: self.place.saturating_add(len),
            left: self.left.saturating_sub(len),
            number: self.number.saturating_add(batch.count as u64),
        }
    }
}

/// Reads the batches of a segment from a place on, and tells the visitor each record from the number `due` on. `due` is
/// the number after the last that was told then, and `at` the place after the last batch that was read whole. `bytes`
/// is room for a batch.
pub fn read_batches<F: Read + Drop, V: Visitor>(
    file: &mut F,
    head: &Head,
    at: &mut At,
    extent: &Extent,
    names: &mut Names,
    bytes: &mut Vec<u8>,
    due: &mut u64,
    visitor: &mut V,
) -> Result<Stop, SpoolFault>
    requires { MayComeFrom (V.may_come visitor.old) due.old }
    ensures rises { due.old ≤ due.new }
    ensures may { MayComeFrom (V.may_come visitor.new) due.new }
{
    'batches: while at.left > 0 && may_have(extent, at.number) {
        let Some(batch) = read_batch(file, head, *at, bytes)? else {
            return Ok(stop_at(extent, *at));
        };
        let body = bytes.get(BATCH_HEAD..).unwrap_or(&[]);
        let told = tell_batch(head, &batch, body, names, due, visitor)?;
        if let Some(number) = told {
            let place = at.place;
            return Ok(Stop::Broken { place, number });
        }
        *at = at.after(&batch);
    }
    Ok(end_at(extent, *at))
}

/// Returns whether a segment may have the record of this number. One whose bytes are counted ends where they do.
fn may_have(extent: &Extent, number: u64) -> bool
    ensures { result ≡ may_have extent.now number }
{
    match extent.next {
        Some(next) if extent.bytes.is_none() => number < next,
        _ => true,
    }
}

/// Returns why no more is read at a place where no whole batch begins: of bytes that count it should.
fn stop_at(extent: &Extent, at: At) -> Stop
    ensures { result ≡ stop_at extent.now at.place at.number }
{
    let At { place, number, .. } = at;
    if extent.bytes.is_some() {
        Stop::Broken { place, number }
    } else {
        Stop::End
    }
}

/// Returns why no more is read at the end of what counts: there should be the record before the next one.
fn end_at(extent: &Extent, at: At) -> Stop
    ensures { result ≡ end_at extent.now at.place at.number }
{
    match extent.next {
        Some(next) if at.number < next => stop_at(extent, at),
        _ => Stop::End,
    }
}

/// Reads the next batch of a segment into `bytes`, and returns its head. Returns `None` if no whole one is there, or its
/// body is not as many records as it says.
fn read_batch<F: Read + Drop>(
    file: &mut F,
    head: &Head,
    at: At,
    bytes: &mut Vec<u8>,
) -> Result<Option<BatchHead>, SpoolFault> {
    let name = FileName::Segment(head.first);
    let is_filled = fill(file, at.left, bytes).map_err(|reason| SpoolFault::of(name, reason))?;
    if !is_filled {
        return Ok(None);
    }
    let Some((batch, body)) = next_batch(&head.secret, at.number, bytes) else {
        return Ok(None);
    };
    if count_in(body) == Some(batch.count) {
        Ok(Some(batch))
    } else {
        Ok(None)
    }
}

/// Reads as many bytes as the head of a batch says that it has, with that head. Returns `false` if fewer than those are
/// left.
fn fill<F: Read + Drop>(file: &mut F, left: u64, bytes: &mut Vec<u8>) -> io::Result<bool> {
    let mut front = [0; BATCH_HEAD];
    if left < BATCH_HEAD as u64 || !is_read(file, &mut front)? {
        return Ok(false);
    }
    let size = BatchHead::size_said(&front);
    if left - (BATCH_HEAD as u64) < size as u64 {
        return Ok(false);
    }
    bytes.clear();
    bytes.extend_from_slice(&front)?;
    bytes.resize(BATCH_HEAD + size as usize, 0)?;
    is_read(file, &mut bytes.as_mut_slice()[BATCH_HEAD..])
}

/// Fills `out` from a file. Returns `false` if that ends before.
pub fn is_read<F: Read + Drop>(file: &mut F, out: &mut [u8]) -> io::Result<bool>
    ensures { length out.new ≡ length out.old }
{
    match file.read_exact(out) {
        Ok(()) => Ok(true),
        Err(reason) if reason.kind() == ErrorKind::UnexpectedEof => Ok(false),
        Err(reason) => Err(reason),
    }
}

/// Returns how many records a body has. Returns `None` if it is not entries, one after the other.
fn count_in(body: &[u8]) -> Option<u32> {
    let mut rest = body;
    let mut count = 0_u32;
    'entries: while let Some((entry, behind)) = next_entry(rest) {
        count = count.saturating_add(records_of(&entry));
        rest = behind;
    }
    if rest.is_empty() { Some(count) } else { None }
}

/// Returns how many records an entry is.
fn records_of(entry: &Entry<'_>) -> u32 {
    match entry {
        Entry::Introduction(_) => 0,
        Entry::Record(_) => 1,
    }
}

/// Tells the visitor the records of a batch from the number `due` on. Returns the number of the first that can't be told,
/// since it is not known who sent it.
fn tell_batch<V: Visitor>(
    head: &Head,
    batch: &BatchHead,
    body: &[u8],
    names: &mut Names,
    due: &mut u64,
    visitor: &mut V,
) -> Result<Option<u64>, SpoolFault>
    requires { MayComeFrom (V.may_come visitor.old) due.old }
    ensures rises { due.old ≤ due.new }
    ensures may { MayComeFrom (V.may_come visitor.new) due.new }
{
    let mut entries = Entries::new(body);
    let next = batch.first.saturating_add(batch.count as u64);
    'records: for number in batch.first..next {
        let Some(sent) = next_record(names, &mut entries)? else {
            return Ok(Some(number));
        };
        let Some(from) = names.of(sent.link) else {
            return Ok(Some(number));
        };
        if sent.record.len() < RECORD_HEAD {
            return Ok(Some(number));
        }
        let found = Found {
            spool: head.spool,
            number,
            time: batch.arrived,
            life: head.life,
            from,
            sent,
        };
        tell_due(&found, due, visitor)?;
    }
    Ok(None)
}

/// Tells the visitor a record if its number is due, or above the one that is. The number after it is due then.
fn tell_due<V: Visitor>(found: &Found<'_>, due: &mut u64, visitor: &mut V) -> Result<(), SpoolFault>
    requires whole { RECORD_HEAD ≤ length found.now.sent.«record».now }
    requires small { found.now.number < 2 ^ 64 - 1 }
    requires may { MayComeFrom (V.may_come visitor.old) due.old }
    ensures rises { due.old ≤ due.new }
    ensures may { MayComeFrom (V.may_come visitor.new) due.new }
    ensures below { found.now.number < due.old → (due.new ≡ due.old) × (visitor.new ≡ visitor.old) }
    ensures told { due.old ≤ found.now.number → OnOk result (due.new ≡ found.now.number + 1) }
{
    if found.number >= *due {
        visitor.record(found)?;
        *due = after(found.number);
    }
    Ok(())
}

/// Reads the next record of a body, and takes the introductions before it. Returns `None` if there is none.
fn next_record<'a>(
    names: &mut Names,
    entries: &mut Entries<'a>,
) -> Result<Option<Record<'a>>, SpoolFault> {
    match names.next(entries) {
        Ok(record) => Ok(record),
        Err(ReadFault::Damaged) => Ok(None),
        Err(ReadFault::NoMemory) => Err(SpoolFault::NoMemory),
    }
}
