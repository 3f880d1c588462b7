//! The records of a file, told apart from how they were made.

use crate::printed;
use amqp_dump::dump;
use amqp_frame::Device;
use amqp_records::Output;
use sha2::{Digest, Sha256};
use std::alloc::Global;
use test_row_files::Miss;

/// The longest message of the file.
const MAX_MESSAGE: u32 = 1 << 20;

/// A header, and the head of a frame but for its size.
const HEADER: &[u8; 8] = b"AMQP\0\x01\0\0";

const FRAME: &[u8; 4] = b"\x02\0\0\0";

/// How many bytes a frame has before its body.
const FRAME_HEAD: usize = 8;

/// How the lines of a dump begin that tells of a section, with their descriptors, and the names of these.
const DESCRIPTORS: [(&str, &str, &str); 9] = [
    ("@ulong:112(", "@symbol:\"amqp:header:list\"(", "header"),
    (
        "@ulong:113(",
        "@symbol:\"amqp:delivery-annotations:map\"(",
        "delivery-annotations",
    ),
    (
        "@ulong:114(",
        "@symbol:\"amqp:message-annotations:map\"(",
        "message-annotations",
    ),
    (
        "@ulong:115(",
        "@symbol:\"amqp:properties:list\"(",
        "properties",
    ),
    (
        "@ulong:116(",
        "@symbol:\"amqp:application-properties:map\"(",
        "application-properties",
    ),
    ("@ulong:117(", "@symbol:\"amqp:data:binary\"(", "data"),
    (
        "@ulong:118(",
        "@symbol:\"amqp:amqp-sequence:list\"(",
        "amqp-sequence",
    ),
    (
        "@ulong:119(",
        "@symbol:\"amqp:amqp-value:*\"(",
        "amqp-value",
    ),
    ("@ulong:120(", "@symbol:\"amqp:footer:map\"(", "footer"),
];

/// Returns the digest of the JSON lines of the hundred records after this many others.
pub fn digest(alloc: Global, file: &[u8], words: &str) -> Result<String, Miss> {
    let hundred = hundred_behind(file, words)?;
    let (written, _) = printed(alloc, hundred, Output::Json, MAX_MESSAGE)?;
    Ok(hex::encode(alloc, Sha256::digest(&written).as_slice())?)
}

/// Returns how many of the lines of the hundred records after this many others show each section of the
/// message as it stands in a dump.
pub fn as_dumped(alloc: Global, file: &[u8], words: &str) -> Result<String, Miss> {
    let mut rest = hundred_behind(file, words)?;
    let (written, _) = printed(alloc, rest, Output::Text, MAX_MESSAGE)?;
    let mut count = 0u64;
    for line in text_of(&written)?.lines() {
        let (message, behind) = message_of(rest)?;
        rest = behind;
        if is_as_dumped(alloc, message, line)? {
            count = count.saturating_add(1);
        }
    }
    Ok(format!(in alloc; "{count} lines")?)
}

/// Returns the hundred records after this many others, which the words say.
fn hundred_behind<'a>(file: &'a [u8], words: &str) -> Result<&'a [u8], Miss> {
    let count = words.parse::<u32>().ok().ok_or("no number")?;
    let mut rest = file;
    for _ in 0..count {
        rest = message_of(rest)?.1;
    }
    let hundred = rest;
    for _ in 0..100 {
        rest = message_of(rest)?.1;
    }
    hundred
        .get(..hundred.len().saturating_sub(rest.len()))
        .ok_or(Miss::Unread("no hundred"))
}

/// Returns the message of the record at the front, and what is after it.
fn message_of(file: &[u8]) -> Result<(&[u8], &[u8]), Miss> {
    let Some((head, rest)) = file.split_first_chunk::<18>() else {
        return Err(Miss::Unread("no record"));
    };
    let len = u32::from_be_bytes([head[14], head[15], head[16], head[17]]) as usize;
    rest.split_at_checked(len).ok_or(Miss::Unread("cut"))
}

/// Returns whether a line shows each section of its message as a dump does that has the message for its body.
fn is_as_dumped(alloc: Global, message: &[u8], line: &str) -> Result<bool, Miss> {
    let Some((_, mut shown)) = line.split_once(" size=") else {
        return Ok(false);
    };
    shown = shown.trim_start_matches(|c: char| c.is_ascii_digit());
    if let Some(bytes) = shown.strip_prefix(" bytes binary:") {
        return Ok(hex::encode(alloc, message)?.as_str() == bytes);
    }
    let mut rest = message;
    for _ in 0..message.len() {
        if rest.is_empty() {
            break;
        }
        let dumped = dumped(alloc, rest)?;
        let Some((name, text, payload)) = section_in(dumped.as_str()) else {
            return Ok(false);
        };
        let Some(behind) = behind_section(shown, name, text) else {
            return Ok(false);
        };
        shown = behind;
        rest = rest
            .get(rest.len().saturating_sub(payload)..)
            .unwrap_or(&[]);
    }
    Ok(rest.is_empty() && shown.is_empty())
}

/// Returns what a line shows after a section of this name and text. Data stand there as text, and are passed
/// over.
fn behind_section<'a>(shown: &'a str, name: &str, text: &str) -> Option<&'a str> {
    let value = shown
        .strip_prefix(' ')?
        .strip_prefix(name)?
        .strip_prefix(' ')?;
    if name != "data" {
        return value.strip_prefix(text);
    }
    match value.strip_prefix('"') {
        Some(quoted) => Some(quoted.split_once('"')?.1),
        None => value.strip_prefix(text),
    }
}

/// The name and the text of the section that a line of a dump tells of, and how many bytes are after it.
fn section_in(line: &str) -> Option<(&'static str, &str, usize)> {
    let (_, value) = line.split_once(" value ")?;
    let (value, payload) = value.rsplit_once(" payload=")?;
    let payload = payload.parse::<usize>().ok()?;
    for (by_code, by_symbol, name) in &DESCRIPTORS {
        if let Some(text) = value
            .strip_prefix(*by_code)
            .or(value.strip_prefix(*by_symbol))
        {
            return Some((*name, text.strip_suffix(')')?, payload));
        }
    }
    None
}

/// Returns the line of a dump for a frame with this body.
fn dumped(alloc: Global, body: &[u8]) -> Result<String, Miss> {
    let size = u32::try_from(FRAME_HEAD.saturating_add(body.len()))
        .ok()
        .ok_or("too long")?;
    let mut stream = Vec::from_slice(alloc, HEADER)?;
    stream.extend_from_slice(&size.to_be_bytes())?;
    stream.extend_from_slice(FRAME)?;
    stream.extend_from_slice(body)?;
    let mut stream = stream.as_slice();
    let mut written = Vec::new(alloc);
    let told = dump(
        alloc,
        &mut Device::new(&mut stream),
        &mut Device::new(&mut written),
    );
    told.ok().ok_or("no dump")?;
    let text = text_of(&written)?;
    let line = text.lines().nth(1).ok_or("no frame")?;
    Ok(String::from_str(alloc, line)?)
}

/// Returns what was written, as text.
fn text_of(written: &[u8]) -> Result<&str, Miss> {
    str::from_utf8(written).ok().ok_or(Miss::Unread("no text"))
}
