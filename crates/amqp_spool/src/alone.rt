//! Going through the batches of a segment that read alone: each is entries, and each record has its link introduced
//! before it.
ghost use Rattle.std.specs.Prelude.{◌≡◌, ℕ, ◌<◌, List, [], None, Ok, true, false, IfOk, IfSome};
ghost use Rattle.amqp_spool.specs.Alone.{ReadsAlone, EndsAlone, IsScannedAlone, HasKnown, HasReadAlone};
ghost use Rattle.amqp_spool.specs.Batches.{Batch, Follows};
ghost use Rattle.amqp_spool.specs.Entries.{Entry as BatchEntry, IsBody, count_of};
ghost use Rattle.amqp_spool.specs.Heads.{BeginsBatch};
ghost use Rattle.amqp_spool.specs.Names.{named};
ghost use Rattle.amqp_spool.specs.NamesRead.{names_of};
ghost use Rattle.amqp_spool.specs.Waitings.{AreKnown};

use crate::batch_head::{BATCH_HEAD, BatchHead};
use crate::entry::Entries;
use crate::names::{Names, ReadFault};
use crate::scanning::{Scanned, next_batch};
use std::alloc::{AllocError, Global};

/// Goes through the bytes of a segment after its head, whose first record has the number `first`. Returns how far
/// there are batches that read alone, one after the other.
pub(crate) fn scan_alone(
    alloc: Global,
    secret: &[u8; 16],
    first: u64,
    bytes: &[u8],
) -> Result<Scanned, AllocError>
    ensures { IfOk result (λ scanned. IsScannedAlone secret.now first bytes.now scanned) }
{
    let mut names = Names::new(alloc);
    let mut scanned = Scanned {
        end: 0,
        next: first,
    };
    'batches: while let Some((head, body)) = next_alone(
        &mut names,
        secret,
        scanned.next,
        &bytes[scanned.end..],
    )? {
        scanned.end += BATCH_HEAD + body.len();
        scanned.next += head.count as u64;
    }
    Ok(scanned)
}

/// Returns the batch that these bytes begin with, if it is whole, its records have the numbers from `number` on, and it
/// reads alone after these names. Its introductions are taken then.
fn next_alone<'a>(
    names: &mut Names,
    secret: &[u8; 16],
    number: u64,
    bytes: &'a [u8],
) -> Result<Option<(BatchHead, &'a [u8])>, AllocError>
    ensures some { IfOk result (λ o. IfSome o (λ x. Follows number (record { head = x.0; body = x.1.now }) × BeginsBatch secret.now bytes.now x.0 x.1.now × HasReadAlone names.old names.new x.1.now x.0.count)) }
    ensures none { result ≡ Ok None → EndsAlone (names_of names.old) secret.now number bytes.now }
{
    let Some((head, body)) = next_batch(secret, number, bytes) else {
        return Ok(None);
    };
    if reads_alone(names, body, head.count)? {
        Ok(Some((head, body)))
    } else {
        Ok(None)
    }
}

/// Reads a body, and takes its introductions. Returns whether it is entries with so many records, each with a link that
/// was introduced before it.
fn reads_alone(names: &mut Names, body: &[u8], count: u32) -> Result<bool, AllocError>
    ensures yes { result ≡ Ok true → HasReadAlone names.old names.new body.now count }
    ensures no { result ≡ Ok false → (es : List BatchEntry) → ReadsAlone (names_of names.old) body.now count es → ⊥ }
{
    let mut entries = Entries::new(body);
    let mut left = count;
    'records: while left > 0 {
        if !next_is_known(names, &mut entries)? {
            return Ok(false);
        }
        left -= 1;
    }
    has_none_left(names, &mut entries)
}

/// Reads the next record of a body, and takes the introductions before it. Returns whether there is one, and its link
/// was introduced.
fn next_is_known(names: &mut Names, entries: &mut Entries) -> Result<bool, AllocError>
    ensures yes { result ≡ Ok true → HasKnown names.old names.new entries.old.rest.now entries.new.rest.now 1 }
    ensures no { result ≡ Ok false → (es : List BatchEntry) → IsBody entries.old.rest.now es → AreKnown (named (names_of names.old) es) → count_of es ≡ 0 }
{
    let next = match names.next(entries) {
        Ok(next) => next,
        Err(ReadFault::Damaged) => return Ok(false),
        Err(ReadFault::NoMemory) => return Err(AllocError),
    };
    let Some(record) = next else {
        return Ok(false);
    };
    Ok(names.of(record.link).is_some())
}

/// Takes the introductions that are left of a body. Returns whether nothing else is.
fn has_none_left(names: &mut Names, entries: &mut Entries) -> Result<bool, AllocError>
    ensures yes { result ≡ Ok true → HasKnown names.old names.new entries.old.rest.now [] 0 }
    ensures no { result ≡ Ok false → (es : List BatchEntry) → IsBody entries.old.rest.now es → 0 < count_of es }
{
    let next = match names.next(entries) {
        Ok(next) => next,
        Err(ReadFault::Damaged) => return Ok(false),
        Err(ReadFault::NoMemory) => return Err(AllocError),
    };
    Ok(next.is_none())
}
