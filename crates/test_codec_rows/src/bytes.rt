//! Bytes as words: hex digits in pairs; `78*252`, a byte this many times; `"text"`, the bytes of a text without
//! spaces; and `keys*300`, this many entries of a map, each a number in its full form, and null.

use crate::words::parsed;
use std::alloc::{AllocError, Global};
use test_row_files::Miss;

/// Returns the bytes that the words stand for.
pub fn bytes_of(alloc: Global, words: &str) -> Result<Vec<u8>, Miss> {
    let mut bytes = Vec::new(alloc);
    for word in words.split_whitespace() {
        put_word(alloc, &mut bytes, word)?;
    }
    Ok(bytes)
}

fn put_word(alloc: Global, bytes: &mut Vec<u8>, word: &str) -> Result<(), Miss> {
    if let Some(text) = word.strip_prefix('"') {
        let text = text.strip_suffix('"').ok_or("no bytes")?;
        return Ok(bytes.extend_from_slice(text.as_bytes())?);
    }
    match word.split_once('*') {
        None => put_hex(alloc, bytes, word),
        Some(("keys", count)) => put_entries(bytes, parsed(count)?),
        Some((byte, count)) => {
            let byte = u8::from_str_radix(byte, 16).ok().ok_or("no byte")?;
            put_run(bytes, byte, parsed(count)?)
        }
    }
}

fn put_hex(alloc: Global, bytes: &mut Vec<u8>, digits: &str) -> Result<(), Miss> {
    match hex::decode(alloc, digits) {
        Ok(decoded) => Ok(bytes.extend_from_slice(&decoded)?),
        Err(_) => Err(Miss::Unread("no bytes")),
    }
}

fn put_entries(bytes: &mut Vec<u8>, count: u32) -> Result<(), Miss> {
    for key in 0..count {
        bytes.push(0x70)?;
        bytes.extend_from_slice(&key.to_be_bytes())?;
        bytes.push(0x40)?;
    }
    Ok(())
}

fn put_run(bytes: &mut Vec<u8>, byte: u8, count: usize) -> Result<(), Miss> {
    Ok(bytes.resize(bytes.len().saturating_add(count), byte)?)
}

/// The shortest run of equal bytes that is written as one word.
const RUN: usize = 17;

/// Returns the words for the bytes.
pub fn words_of(alloc: Global, bytes: &[u8]) -> Result<String, AllocError> {
    let mut words = String::new(alloc);
    let mut rest = bytes;
    for _ in 0..bytes.len() {
        let Some(first) = rest.first() else {
            break;
        };
        let run = rest.iter().take_while(|byte| *byte == first).count();
        let shown = if run < RUN { 1 } else { run };
        put_shown(&mut words, *first, shown)?;
        rest = rest.get(shown..).unwrap_or(&[]);
    }
    Ok(words)
}

fn put_shown(words: &mut String, byte: u8, count: usize) -> Result<(), AllocError> {
    if !words.is_empty() {
        words.push(' ')?;
    }
    if count == 1 {
        write!(words, "{byte:02x}")
    } else {
        write!(words, "{byte:02x}*{count}")
    }
}

/// Appends the hex digits of the bytes.
pub fn put_digits(text: &mut String, bytes: &[u8]) -> Result<(), AllocError> {
    for byte in bytes {
        write!(text, "{byte:02x}")?;
    }
    Ok(())
}
