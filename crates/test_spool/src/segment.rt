//! A segment, read by the parts of `amqp_spool` that take its bytes.

use crate::words::{Hex, Text, part};
use amqp_spool::{
    BATCH_HEAD, BatchHead, Entries, Entry, HEAD, Head, Introduction, Names, Record, next_batch,
};
use std::alloc::{AllocError, Global};
use test_row_files::Miss;

/// A segment whose batches are read one after the other.
#[derive(Clone, Copy)]
pub struct Segment<'a> {
    pub head: Head,
    /// Where the next batch begins.
    place: usize,
    /// The number of its first record.
    number: u64,
    /// The bytes from there on.
    rest: &'a [u8],
}

/// A whole batch.
#[derive(Clone, Copy)]
pub struct Batch<'a> {
    /// Where it begins in its segment.
    pub place: usize,
    /// Where it ends.
    pub end: usize,
    pub head: BatchHead,
    pub body: &'a [u8],
}

impl<'a> Segment<'a> {
    /// Reads the head of a segment. Its batches come next.
    pub fn read(bytes: &'a [u8]) -> Result<Segment<'a>, Miss> {
        let head = Head::read(bytes).ok_or("no head")?;
        Ok(Segment {
            head,
            place: HEAD,
            number: head.first,
            rest: after_head(bytes),
        })
    }

    /// Reads the next batch. Returns `None` if no whole one is there.
    pub fn next(&mut self) -> Option<Batch<'a>> {
        let (head, body) = next_batch(&self.head.secret, self.number, self.rest)?;
        let len = BATCH_HEAD.saturating_add(body.len());
        let place = self.place;
        self.place = place.saturating_add(len);
        self.number = self.number.saturating_add(u64::from(head.count));
        self.rest = self.rest.get(len..).unwrap_or(&[]);
        Some(Batch {
            place,
            end: self.place,
            head,
            body,
        })
    }

    /// Returns how many batches it can have at most.
    pub fn most(&self) -> usize {
        self.rest.len()
    }
}

/// Returns the bytes of a segment after its head.
pub fn after_head(bytes: &[u8]) -> &[u8] {
    bytes.get(HEAD..).unwrap_or(&[])
}

/// The form of a record in an answer, and what stands between two.
#[derive(Clone, Copy)]
pub enum Form {
    /// Its number, the connection, the name of the link, the tag and the message, in hex.
    Hex,
    /// Its number, the name of the link and the message.
    Brief,
    /// A line: its number, the connection, its peer and container, the name and the target of the link, the tag and the
    /// message.
    Line,
}

impl Form {
    fn between(self) -> &'static str {
        match self {
            Form::Hex => " / ",
            Form::Brief => " ",
            Form::Line => "\n",
        }
    }
}

/// Puts the records of the batches of a segment that end at most at `until`, each with the link that put it.
pub fn put_records(
    alloc: Global,
    bytes: &[u8],
    until: u64,
    form: Form,
    out: &mut String,
) -> Result<(), Miss> {
    let mut segment = Segment::read(bytes)?;
    put_batches(&mut segment, until, &mut Names::new(alloc), form, out)
}

fn put_batches(
    segment: &mut Segment<'_>,
    until: u64,
    names: &mut Names,
    form: Form,
    out: &mut String,
) -> Result<(), Miss> {
    for _ in 0..segment.most() {
        let Some(batch) = segment.next() else {
            break;
        };
        if batch.end as u64 > until {
            break;
        }
        put_batch(&batch, names, form, out)?;
    }
    Ok(())
}

/// Puts the records of a batch.
fn put_batch(
    batch: &Batch<'_>,
    names: &mut Names,
    form: Form,
    out: &mut String,
) -> Result<(), Miss> {
    let mut entries = Entries::new(batch.body);
    let mut number = batch.head.first;
    for _ in 0..batch.body.len() {
        let Some(record) = names.next(&mut entries).ok().ok_or("no entry")? else {
            break;
        };
        let from = names.of(record.link).ok_or("nobody")?;
        part(out, form.between())?;
        put_record(number, &from, &record, form, out)?;
        number = number.saturating_add(1);
    }
    Ok(())
}

fn put_record(
    number: u64,
    from: &Introduction<'_>,
    record: &Record<'_>,
    form: Form,
    out: &mut String,
) -> Result<(), AllocError> {
    let message = record.record.get(18..).unwrap_or(&[]);
    let Introduction {
        connection,
        peer,
        container,
        name,
        target,
        ..
    } = *from;
    match form {
        Form::Hex => {
            let (name, tag, message) = (Hex(name), Hex(record.tag), Hex(message));
            write!(out, "{number} {connection} {name} {tag} {message}")
        }
        Form::Brief => {
            let (name, message) = (Text(name), Text(message));
            write!(out, "{number}:{name}:{message}")
        }
        Form::Line => {
            let (peer, container) = (Text(peer), Text(container));
            let (name, target) = (Text(name), Text(target));
            let (tag, message) = (Text(record.tag), Text(message));
            write!(
                out,
                "{number} {connection} {peer} {container} {name} {target} {tag} {message}"
            )
        }
    }
}

/// Puts the entries of the batches of a segment. A record has its number, and the link that put it.
pub fn put_entries(alloc: Global, bytes: &[u8], out: &mut String) -> Result<(), Miss> {
    let mut segment = Segment::read(bytes)?;
    put_all_entries(&mut segment, &mut Names::new(alloc), out)
}

fn put_all_entries(
    segment: &mut Segment<'_>,
    names: &mut Names,
    out: &mut String,
) -> Result<(), Miss> {
    for _ in 0..segment.most() {
        let Some(batch) = segment.next() else {
            break;
        };
        put_batch_entries(&batch, names, out)?;
    }
    Ok(())
}

/// Puts the entries of a batch.
fn put_batch_entries(
    batch: &Batch<'_>,
    names: &mut Names,
    out: &mut String,
) -> Result<(), AllocError> {
    let mut entries = Entries::new(batch.body);
    let mut number = batch.head.first;
    for _ in 0..batch.body.len() {
        match entries.next() {
            Some(Entry::Introduction(link)) => {
                names.take(&link)?;
                put_link(&link, out)?;
            }
            Some(Entry::Record(record)) => {
                put_owned(number, &record, names.of(record.link), out)?;
                number = number.saturating_add(1);
            }
            None => break,
        }
    }
    if !entries.is_at_end() {
        out.push_str(" / bad")?;
    }
    Ok(())
}

/// Puts an introduction.
pub fn put_link(link: &Introduction<'_>, out: &mut String) -> Result<(), AllocError> {
    let (number, connection, kind) = (link.link, link.connection, link.kind);
    let (peer, container) = (Hex(link.peer), Hex(link.container));
    let (name, user, target) = (Hex(link.name), Hex(link.user), Hex(link.target));
    part(out, " / ")?;
    write!(
        out,
        "link {number} {connection} {peer} {container} {name} {user} {kind} {target}"
    )
}

/// Puts a record, its number, and who sends on its link.
fn put_owned(
    number: u64,
    record: &Record<'_>,
    from: Option<Introduction<'_>>,
    out: &mut String,
) -> Result<(), AllocError> {
    let (link, tag, bytes) = (record.link, Hex(record.tag), Hex(record.record));
    part(out, " / ")?;
    match from {
        Some(from) => {
            let (connection, name) = (from.connection, Hex(from.name));
            write!(
                out,
                "record {number} {link} {connection} {name} {tag} {bytes}"
            )
        }
        None => write!(out, "record {number} {link} nobody {tag} {bytes}"),
    }
}
