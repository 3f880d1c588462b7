//! Segments whose last batch is cut, or has a bit turned.

use crate::segment::{Segment, after_head};
use amqp_spool::{HEAD, Head, Scanned, scan};
use test_row_files::Miss;

/// Where the last batch of a segment begins and ends.
#[derive(Clone, Copy)]
struct Last {
    place: usize,
    end: usize,
    /// The number of its first record.
    first: u64,
}

/// Cuts a segment before each byte of its last batch, and turns a bit of each of them, and scans what is left. Puts how
/// many of these found the batches before it and no more, and where those end.
pub fn put_found(bytes: &mut [u8], out: &mut String) -> Result<(), Miss> {
    let last = last_of(bytes)?;
    let head = Head::read(bytes).ok_or("no head")?;
    let wanted = Scanned {
        end: last.place.saturating_sub(HEAD),
        next: last.first,
    };
    let cuts = cuts_found(&head, bytes, last, wanted);
    let bits = bits_found(&head, bytes, last, wanted);
    let (place, first) = (last.place, last.first);
    write!(out, "{cuts} cuts {bits} bits {place} {first}")?;
    Ok(())
}

fn last_of(bytes: &[u8]) -> Result<Last, Miss> {
    let mut segment = Segment::read(bytes)?;
    let mut last = None;
    for _ in 0..segment.most() {
        let Some(batch) = segment.next() else {
            break;
        };
        last = Some(Last {
            place: batch.place,
            end: batch.end,
            first: batch.head.first,
        });
    }
    last.ok_or(Miss::Unread("no batch"))
}

/// Cuts a segment before each byte of its last batch. Returns how many scans found what is wanted.
fn cuts_found(head: &Head, bytes: &[u8], last: Last, wanted: Scanned) -> usize {
    let mut count = 0usize;
    for at in last.place..last.end {
        let cut = bytes.get(..at).unwrap_or(&[]);
        if scan(&head.secret, head.first, after_head(cut)) == wanted {
            count = count.saturating_add(1);
        }
    }
    count
}

/// Turns a bit of each byte of the last batch of a segment, and turns it back. Returns how many scans found what is
/// wanted.
fn bits_found(head: &Head, bytes: &mut [u8], last: Last, wanted: Scanned) -> usize {
    let mut count = 0usize;
    for at in last.place..last.end {
        turn(bytes, at);
        if scan(&head.secret, head.first, after_head(bytes)) == wanted {
            count = count.saturating_add(1);
        }
        turn(bytes, at);
    }
    count
}

/// Turns a bit of the byte at a place, another for each of eight neighbours.
pub fn turn(bytes: &mut [u8], at: usize) {
    if let Some(byte) = bytes.get_mut(at) {
        *byte ^= 1u8.wrapping_shl((at % 8) as u32);
    }
}
