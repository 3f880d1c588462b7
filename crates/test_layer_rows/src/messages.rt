//! A message that was handed up, read in each way.

use crate::paced::PacedWriter;
use crate::words::{told, two_words};
use amqp_frame::Device;
use amqp_link::{Message, Taken};
use std::alloc::{Allocator, Global};
use std::io::{self, ErrorKind};
use test_row_files::words::{name_of, number};
use test_row_files::{Heap, Miss};

/// Returns what was handed up: its id, tag, message-format, whether it was settled, its length and its message.
pub fn shown_taken<A: Allocator + Copy>(alloc: Global, taken: &Taken<A>) -> Result<String, Miss> {
    let (id, format) = (taken.delivery_id, taken.message_format);
    let tag = str::from_utf8(taken.delivery_tag.as_bytes()).map_err(|_| Miss::Unread(
        "the tag is no text",
    ))?;
    let settled = if taken.settled {
        "settled"
    } else {
        "unsettled"
    };
    let len = taken.message.len();
    let bytes = taken.message.to_vec(alloc)?;
    let message = told(alloc, bytes.as_slice())?;
    Ok(format!(in alloc; "{id} {tag} {format} {settled} {len} {message}")?)
}

/// Returns the bytes of a message, in a new vector of the heap.
pub fn copied<A: Allocator + Copy>(
    alloc: Global,
    heap: Heap<'_>,
    message: &Message<A>,
) -> Result<String, Miss> {
    match message.to_vec(heap) {
        Err(_) => Ok(String::from_str(alloc, "Err(NoMemory)")?),
        Ok(bytes) => told(alloc, bytes.as_slice()),
    }
}

/// Returns the bytes of a message from this place on, as far as they are one piece.
pub fn piece<A: Allocator + Copy>(
    alloc: Global,
    message: &Message<A>,
    at: &str,
) -> Result<String, Miss> {
    let at = at.parse::<usize>().map_err(|_| Miss::Unread("no place"))?;
    told(alloc, message.piece(at))
}

/// Returns the pieces of a message, one after the other, up to one that is empty.
pub fn joined<A: Allocator + Copy>(alloc: Global, message: &Message<A>) -> Result<String, Miss> {
    let mut bytes = Vec::new(alloc);
    for _ in 0..message.len() {
        let piece = message.piece(bytes.len());
        if piece.is_empty() {
            break;
        }
        bytes.extend_from_slice(piece)?;
    }
    told(alloc, bytes.as_slice())
}

/// Returns how many bytes each piece of a message has, in their order; `none` if there is none.
pub fn sizes<A: Allocator + Copy>(alloc: Global, message: &Message<A>) -> Result<String, Miss> {
    let mut text = String::new(alloc);
    let mut at = 0_usize;
    for _ in 0..message.len() {
        let len = message.piece(at).len();
        if len == 0 {
            break;
        }
        let mark = if at == 0 { "" } else { " " };
        text.push_str(&format!(in alloc; "{mark}{len}")?)?;
        at = at.saturating_add(len);
    }
    if at == 0 {
        return Ok(String::from_str(alloc, "none")?);
    }
    Ok(text)
}

/// Writes a message to a vector for `whole`, and else in pieces of at most this many bytes, as `2`, to a writer
/// that may fail at a call, as in `2 failing 3 Other`.
pub fn written<A: Allocator + Copy>(
    alloc: Global,
    message: &Message<A>,
    words: &str,
) -> Result<String, Miss> {
    let (most, failing) = name_of(words);
    if most == "whole" {
        let mut writer = Device::new(Vec::new(alloc));
        let answer = told_answer(alloc, message.write_to(&mut writer))?;
        let bytes = told(alloc, writer.into_inner().as_slice())?;
        return Ok(format!(in alloc; "{answer} {bytes}")?);
    }
    let paced = PacedWriter::new(alloc, number(most)? as usize, failure_of(failing)?);
    let mut writer = Device::new(paced);
    let answer = told_answer(alloc, message.write_to(&mut writer))?;
    let writer = writer.into_inner();
    let (calls, kept) = (writer.calls(), told(alloc, writer.kept())?);
    Ok(format!(in alloc; "{answer} calls={calls} {kept}")?)
}

fn told_answer(alloc: Global, answer: io::Result<()>) -> Result<String, Miss> {
    match answer {
        Ok(()) => Ok(String::from_str(alloc, "Ok(())")?),
        Err(error) => Ok(format!(in alloc; "Err({:?})", error.kind())?),
    }
}

fn failure_of(words: &str) -> Result<Option<(u32, ErrorKind)>, Miss> {
    if words.is_empty() {
        return Ok(None);
    }
    match two_words(words)? {
        ("failing", call, "Other") => Ok(Some((number(call)?, ErrorKind::Other))),
        ("failing", call, "Interrupted") => Ok(Some((number(call)?, ErrorKind::Interrupted))),
        _ => Err(Miss::Unread("no such failure")),
    }
}
