//! `amqp spool list`: the segments of a spool.

ghost use Rattle.std.specs.Prelude.{◌≡◌, string_bytes, IfOk};
ghost use Rattle.amqp_spool_records.specs.Listings.{number_text};

use crate::faults::SpoolFault;
use crate::printing::write_out;
use crate::survey::{Survey, head_in};
use amqp_spool::{DirFiles, End, FileName, Head};
use std::alloc::{AllocError, Global};
use std::fs::Files;
use std::io::{ErrorKind, Write};

/// What a line tells of a segment.
#[derive(Clone, Copy, Debug, PartialEq, Eq)]
pub struct Listed {
    /// The number in its name.
    pub first: u64,
    /// How many bytes its file has.
    pub bytes: u64,
    /// How many records it has: up to the first of the next segment, or up to the published end, if that speaks of it.
    pub records: Option<u64>,
    /// How often the gateway was started when it was made, if its head can be read.
    pub life: Option<u64>,
}

/// What the last line tells of all segments.
#[derive(Clone, Copy, Debug, PartialEq, Eq)]
pub struct Sum {
    pub segments: u64,
    pub bytes: u64,
    pub records: u64,
    /// The published end: a segment, how far it may be read, and the number of the next record.
    pub end: Option<(u64, u64, u64)>,
    pub floor: u64,
}

/// Lists the segments of the spool in this directory, the oldest first, by their heads alone: a line `FIRST bytes=B
/// records=N life=L` for each, with `none` for what can't be told. The last line is `M segments bytes=B records=N
/// end=FIRST:PLACE next=N floor=F`, in which `end` and `next` are `none` if no end can be read.
///
/// # Errors
///
/// As those of [`print_spool`](crate::print_spool).
pub fn list_spool<R: Files + Drop, W: Write + Drop>(
    rt: R,
    alloc: Global,
    dir: &str,
    out: W,
) -> Result<(), SpoolFault> {
    let files = DirFiles::new(rt, alloc, dir)?;
    let survey = Survey::of(&files)?;
    let mut out = out;
    list_in(&files, alloc, &survey, &mut out)
}

/// Lists the segments of a survey.
fn list_in<R: Files + Drop, W: Write>(
    files: &DirFiles<R>,
    alloc: Global,
    survey: &Survey,
    out: &mut W,
) -> Result<(), SpoolFault> {
    let mut sum = Sum {
        segments: 0,
        bytes: 0,
        records: 0,
        end: survey.end.map(|end| (end.first, end.place, end.next)),
        floor: survey.floor,
    };
    for (index, first) in survey.firsts.iter().enumerate() {
        let newer = survey.firsts.get(index.saturating_add(1)).copied();
        let listed = look_at(files, *first, newer, survey.end)?;
        sum = with(sum, &listed);
        write_out(out, line_text(alloc, &listed)?.as_bytes())?;
    }
    write_out(out, sum_text(alloc, &sum)?.as_bytes())
}

/// Returns what there is to tell of a segment.
fn look_at<R: Files + Drop>(
    files: &DirFiles<R>,
    first: u64,
    newer: Option<u64>,
    end: Option<End>,
) -> Result<Listed, SpoolFault> {
    let name = FileName::Segment(first);
    let bytes = match files.len(name) {
        Ok(bytes) => bytes.unwrap_or(0),
        Err(reason) if reason.kind() == ErrorKind::NotFound => 0,
        Err(reason) => return Err(SpoolFault::of(name, reason)),
    };
    let head = head_in(files, first)?;
    Ok(Listed {
        first,
        bytes,
        records: next_of(first, head, newer, end).map(|next| next.saturating_sub(first)),
        life: head.map(|head| head.life),
    })
}

/// Returns the number of the record after the last of a segment, if it is known without its batches.
fn next_of(first: u64, head: Option<Head>, newer: Option<u64>, end: Option<End>) -> Option<u64> {
    if newer.is_some() {
        return newer;
    }
    let mark = head?.sum();
    let end = end?;
    if end.first == first && end.mark == mark {
        Some(end.next)
    } else {
        None
    }
}

/// Returns a sum with one segment more.
fn with(sum: Sum, listed: &Listed) -> Sum {
    Sum {
        segments: sum.segments.saturating_add(1),
        bytes: sum.bytes.saturating_add(listed.bytes),
        records: sum.records.saturating_add(listed.records.unwrap_or(0)),
        ..sum
    }
}

/// Returns the line of a segment.
fn line_text(alloc: Global, listed: &Listed) -> Result<String, AllocError> {
    let Listed { first, bytes, .. } = *listed;
    let records = number_text(alloc, listed.records)?;
    let life = number_text(alloc, listed.life)?;
    let (records, life) = (records.as_str(), life.as_str());
    format!(in alloc; "{first} bytes={bytes} records={records} life={life}\n")
}

/// Returns the last line.
fn sum_text(alloc: Global, sum: &Sum) -> Result<String, AllocError> {
    let Sum {
        segments,
        bytes,
        records,
        floor,
        ..
    } = *sum;
    match sum.end {
        Some((first, place, next)) => format!(in alloc;
            "{segments} segments bytes={bytes} records={records} end={first}:{place} next={next} floor={floor}\n"
        ),
        None => format!(in alloc;
            "{segments} segments bytes={bytes} records={records} end=none next=none floor={floor}\n"
        ),
    }
}

/// Returns the text of a number; `none` if it is not known.
fn number_text(alloc: Global, number: Option<u64>) -> Result<String, AllocError>
    ensures { IfOk result (λ text. string_bytes text ≡ number_text number) }
{
    match number {
        Some(number) => format!(in alloc; "{number}"),
        None => String::from_str(alloc, "none"),
    }
}
