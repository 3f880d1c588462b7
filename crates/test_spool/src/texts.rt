//! Rows of the bytes of segments and small files: what is read of them, and what is written.

ghost use Rattle.amqp_spool.specs.Entries.{IsIntroduced};
ghost use Rattle.amqp_spool.specs.EntryReading.{introduced_in};
ghost use Rattle.std.specs.Prelude.{IsTrue};

use crate::segment::{Form, Segment, after_head, put_entries, put_link, put_records};
use crate::torn;
use crate::words::{Hex, Words, bytes_in, long, part, word_of};
use amqp_spool::{
    BatchHead, End, Entries, Entry, Floor, HEAD, Head, Introduction, Names, Position, ReadFault,
    Record, holds_entries, is_name, put_introduction, put_record, scan,
};
use std::alloc::{AllocError, Global};
use test_row_files::words::name_of;
use test_row_files::{Miss, Subject};

/// Calls of which none leaves anything.
#[derive(Drop)]
pub struct Texts;

impl Subject for Texts {
    fn begin(&mut self) {}

    fn call(&mut self, alloc: Global, words: &str) -> Result<String, Miss> {
        let mut out = String::new(alloc);
        answer(alloc, words, &mut out)?;
        Ok(out)
    }

    fn shown(&self, alloc: Global) -> Result<String, Miss> {
        Ok(String::new(alloc))
    }
}

fn answer(alloc: Global, words: &str, out: &mut String) -> Result<(), Miss> {
    let (name, words) = name_of(words);
    if name == "name" {
        Ok(out.push_str(word_of(is_name(words)))?)
    } else if name.starts_with("put-") {
        write(alloc, name, Words::of(words), out)
    } else {
        read_hex(alloc, name, words, out)
    }
}

/// Puts what is read of the bytes of a hex text, which is the last word.
fn read_hex(alloc: Global, name: &str, words: &str, out: &mut String) -> Result<(), Miss> {
    let (place, hex) = words.rsplit_once(' ').unwrap_or(("", words));
    let mut bytes = bytes_in(alloc, hex)?;
    read(alloc, name, place, &mut bytes, out)
}

/// Puts what is read of bytes.
fn read(
    alloc: Global,
    name: &str,
    place: &str,
    bytes: &mut [u8],
    out: &mut String,
) -> Result<(), Miss> {
    match name {
        "head" => put_head(bytes, out),
        "published" => Ok(put_end(End::read(bytes), out)?),
        "floor" => Ok(put_floor(Floor::read(bytes), out)?),
        "position" => Ok(put_position(Position::read(bytes), out)?),
        "scan" => put_scanned(bytes, out),
        "batches" => put_batches(bytes, out),
        "entries" => put_entries(alloc, bytes, out),
        "body" => Ok(put_body(bytes, out)?),
        "senders" => Ok(put_senders(bytes, &mut Names::new(alloc), out)?),
        "read" => put_records(alloc, bytes, long(place)?, Form::Hex, out),
        "torn" => torn::put_found(bytes, out),
        _ => Err(Miss::Unread("no such call")),
    }
}

/// Puts what the head of a segment says, and its sum.
fn put_head(bytes: &[u8], out: &mut String) -> Result<(), Miss> {
    let Some(head) = Head::read(bytes) else {
        return Ok(out.push_str("None")?);
    };
    let (spool, secret) = (Hex(&head.spool), Hex(&head.secret));
    let (first, before, counted, life) = (head.first, head.before, head.counted, head.life);
    let mark = mark_of(bytes)?;
    write!(
        out,
        "{spool} {secret} {first} {before} {counted} {life} {mark}"
    )?;
    Ok(())
}

/// Returns the sum of the head of a segment.
fn mark_of(bytes: &[u8]) -> Result<u64, Miss> {
    let (mark, _) = bytes
        .get(72..)
        .unwrap_or(&[])
        .split_first_chunk::<8>()
        .ok_or("no sum")?;
    Ok(u64::from_be_bytes(*mark))
}

/// Puts what the end of a spool says.
pub fn put_end(end: Option<End>, out: &mut String) -> Result<(), AllocError> {
    let Some(end) = end else {
        return out.push_str("None");
    };
    let spool = Hex(&end.spool);
    let (first, mark, place, next) = (end.first, end.mark, end.place, end.next);
    write!(out, "{spool} {first} {mark} {place} {next}")
}

fn put_floor(floor: Option<Floor>, out: &mut String) -> Result<(), AllocError> {
    let Some(floor) = floor else {
        return out.push_str("None");
    };
    let (spool, number, dropped) = (Hex(&floor.spool), floor.number, floor.dropped);
    write!(out, "{spool} {number} {dropped}")
}

fn put_position(position: Option<Position>, out: &mut String) -> Result<(), AllocError> {
    let Some(position) = position else {
        return out.push_str("None");
    };
    let (spool, number) = (Hex(&position.spool), position.number);
    write!(out, "{spool} {number}")
}

/// Puts where the last whole batch of a segment ends, and the number after it.
fn put_scanned(bytes: &[u8], out: &mut String) -> Result<(), Miss> {
    let head = Head::read(bytes).ok_or("no head")?;
    let scanned = scan(&head.secret, head.first, after_head(bytes));
    let (place, next) = (HEAD.saturating_add(scanned.end), scanned.next);
    write!(out, "{place} {next}")?;
    Ok(())
}

/// Puts the batches of a segment: where each begins, the size of its body, how many records it has, the number of the
/// first, and when they arrived.
fn put_batches(bytes: &[u8], out: &mut String) -> Result<(), Miss> {
    let mut segment = Segment::read(bytes)?;
    for _ in 0..segment.most() {
        let Some(batch) = segment.next() else {
            break;
        };
        let BatchHead {
            size,
            count,
            first,
            arrived,
        } = batch.head;
        let place = batch.place;
        part(out, " / ")?;
        write!(out, "{place} {size} {count} {first} {arrived}")?;
    }
    Ok(())
}

/// Puts the entries of a body, how many bytes of it are left after them, and whether it is whole.
fn put_body(body: &[u8], out: &mut String) -> Result<(), AllocError> {
    let mut entries = Entries::new(body);
    for _ in 0..body.len() {
        match entries.next() {
            Some(Entry::Introduction(link)) => put_link(&link, out)?,
            Some(Entry::Record(record)) => put_recorded(&record, out)?,
            None => break,
        }
    }
    let left = entries.rest.len();
    let whole = word_of(holds_entries(body));
    part(out, " / ")?;
    write!(out, "left {left} whole {whole}")
}

fn put_recorded(record: &Record<'_>, out: &mut String) -> Result<(), AllocError> {
    let (link, tag, bytes) = (record.link, Hex(record.tag), Hex(record.record));
    part(out, " / ")?;
    write!(out, "record {link} {tag} {bytes}")
}

/// Puts the records of a body, each with who sends on its link by then, and what is answered after the last, twice.
fn put_senders(body: &[u8], names: &mut Names, out: &mut String) -> Result<(), AllocError> {
    let mut entries = Entries::new(body);
    for _ in 0..body.len() {
        let Ok(Some(record)) = names.next(&mut entries) else {
            break;
        };
        put_recorded(&record, out)?;
        match names.of(record.link) {
            Some(from) => put_link(&from, out)?,
            None => out.push_str(" / nobody")?,
        }
    }
    for _ in 0..2 {
        part(out, " / ")?;
        out.push_str(end_of(names.next(&mut entries)))?;
    }
    Ok(())
}

fn end_of(next: Result<Option<Record<'_>>, ReadFault>) -> &'static str {
    match next {
        Ok(Some(_)) => "another",
        Ok(None) => "end",
        Err(ReadFault::Damaged) => "Damaged",
        Err(ReadFault::NoMemory) => "NoMemory",
    }
}

/// Puts the bytes that are written for a part of a segment, or for a small file.
fn write(alloc: Global, name: &str, words: Words<'_>, out: &mut String) -> Result<(), Miss> {
    match name {
        "put-head" => write_head(words, out),
        "put-end" => write_end(words, out),
        "put-floor" => write_floor(words, out),
        "put-position" => write_position(words, out),
        "put-batch" => write_batch(alloc, words, out),
        "put-link" => write_link(alloc, words, out),
        "put-record" => write_record(alloc, words, out),
        _ => Err(Miss::Unread("no such call")),
    }
}

fn write_head(mut words: Words<'_>, out: &mut String) -> Result<(), Miss> {
    let head = Head {
        spool: words.sixteen()?,
        secret: words.sixteen()?,
        first: words.long()?,
        before: words.long()?,
        counted: words.long()?,
        life: words.long()?,
    };
    words.end()?;
    put_hex(&head.to_bytes(), out)
}

fn write_end(words: Words<'_>, out: &mut String) -> Result<(), Miss> {
    let mut words = words;
    let spool = words.sixteen()?;
    put_hex(&end_in(spool, words)?.to_bytes(), out)
}

/// Returns the end of a spool that these words say: FIRST MARK PLACE NEXT.
pub fn end_in(spool: [u8; 16], mut words: Words<'_>) -> Result<End, Miss> {
    let end = End {
        spool,
        first: words.long()?,
        mark: words.long()?,
        place: words.long()?,
        next: words.long()?,
    };
    words.end()?;
    Ok(end)
}

fn write_floor(mut words: Words<'_>, out: &mut String) -> Result<(), Miss> {
    let floor = Floor {
        spool: words.sixteen()?,
        number: words.long()?,
        dropped: words.long()?,
    };
    words.end()?;
    put_hex(&floor.to_bytes(), out)
}

fn write_position(mut words: Words<'_>, out: &mut String) -> Result<(), Miss> {
    let position = Position {
        spool: words.sixteen()?,
        number: words.long()?,
    };
    words.end()?;
    put_hex(&position.to_bytes(), out)
}

fn write_batch(alloc: Global, mut words: Words<'_>, out: &mut String) -> Result<(), Miss> {
    let secret = words.sixteen()?;
    let count = words.number()?;
    let first = words.long()?;
    let arrived = words.long()?;
    let hex = words.word()?;
    words.end()?;
    let body = bytes_in(alloc, hex)?;
    put_batch(&secret, count, first, arrived, &body, out)
}

fn put_batch(
    secret: &[u8; 16],
    count: u32,
    first: u64,
    arrived: u64,
    body: &[u8],
    out: &mut String,
) -> Result<(), Miss> {
    let head = BatchHead {
        size: u32::try_from(body.len()).ok().ok_or("too long")?,
        count,
        first,
        arrived,
    };
    put_hex(&head.to_bytes(secret, body), out)?;
    if body.is_empty() {
        return Ok(());
    }
    put_hex(body, out)
}

fn write_link(alloc: Global, words: Words<'_>, out: &mut String) -> Result<(), Miss> {
    let mut link = Link::new(alloc);
    link.read(alloc, words)?;
    let mut bytes = Vec::new(alloc);
    link.put(&mut bytes)?;
    put_hex(&bytes, out)
}

/// An introduction with its texts.
#[derive(Drop)]
struct Link {
    link: u32,
    connection: u64,
    peer: Vec<u8>,
    container: Vec<u8>,
    name: Vec<u8>,
    user: Vec<u8>,
    kind: u8,
    target: Vec<u8>,
}

impl Link {
    fn new(alloc: Global) -> Link {
        Link {
            link: 0,
            connection: 0,
            peer: Vec::new(alloc),
            container: Vec::new(alloc),
            name: Vec::new(alloc),
            user: Vec::new(alloc),
            kind: 0,
            target: Vec::new(alloc),
        }
    }

    fn read(&mut self, alloc: Global, mut words: Words<'_>) -> Result<(), Miss> {
        self.link = words.number()?;
        self.connection = words.long()?;
        self.peer = words.bytes(alloc)?;
        self.container = words.bytes(alloc)?;
        self.name = words.bytes(alloc)?;
        self.user = words.bytes(alloc)?;
        self.kind = u8::try_from(words.number()?).ok().ok_or("no kind")?;
        self.target = words.bytes(alloc)?;
        words.end()
    }

    /// Appends it as an entry. Refuses it if a text is too long.
    fn put(&self, out: &mut Vec<u8>) -> Result<(), Miss> {
        let link = Introduction {
            link: self.link,
            connection: self.connection,
            peer: &self.peer,
            container: &self.container,
            name: &self.name,
            user: &self.user,
            kind: self.kind,
            target: &self.target,
        };
        if !is_short(link) {
            return Err(Miss::Unread("a long name"));
        }
        put_introduction(out, &link)?;
        Ok(())
    }
}

fn write_record(alloc: Global, mut words: Words<'_>, out: &mut String) -> Result<(), Miss> {
    let link = words.number()?;
    let tag = words.bytes(alloc)?;
    let record = words.bytes(alloc)?;
    words.end()?;
    let mut bytes = Vec::new(alloc);
    put_message(link, &tag, &record, &mut bytes)?;
    put_hex(&bytes, out)
}

fn put_message(link: u32, tag: &[u8], record: &[u8], out: &mut Vec<u8>) -> Result<(), Miss> {
    if tag.len() > 32 {
        return Err(Miss::Unread("a long tag"));
    }
    put_record(out, link, tag, record)?;
    Ok(())
}

/// Puts bytes in hex.
fn put_hex(bytes: &[u8], out: &mut String) -> Result<(), Miss> {
    write!(out, "{}", Hex(bytes))?;
    Ok(())
}

/// Returns whether all that an introduction has is as short as it has to be.
fn is_short(link: Introduction<'_>) -> bool
    ensures { IsTrue result → IsIntroduced (introduced_in link.entry) }
{
    link.peer.len() <= 58
        && link.container.len() <= 255
        && link.name.len() <= 255
        && link.user.len() <= 255
        && link.kind <= 3
        && link.target.len() <= 1024
}
