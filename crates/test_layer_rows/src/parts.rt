//! Bytes in parts: a hex text, `600*78` for this many of a byte, and `#7` for a number in four bytes. Texts of
//! many letters.

use std::alloc::Global;
use test_row_files::Miss;
use test_row_files::words::{bytes_of, hex_of, number};

/// More bytes than these that are the same are told as `600*78`.
const MANY: usize = 16;

/// Returns the bytes of all parts, which are parted by spaces.
pub fn bytes_of_parts(alloc: Global, words: &str) -> Result<Vec<u8>, Miss> {
    let mut bytes = Vec::new(alloc);
    for part in words.split_whitespace() {
        bytes.extend_from_slice(&bytes_of_part(alloc, part)?)?;
    }
    Ok(bytes)
}

fn bytes_of_part(alloc: Global, part: &str) -> Result<Vec<u8>, Miss> {
    if let Some(digits) = part.strip_prefix('#') {
        return Ok(Vec::from_slice(alloc, &number(digits)?.to_be_bytes())?);
    }
    let Some((count, hex)) = part.split_once('*') else {
        return bytes_of(alloc, part);
    };
    let bytes = bytes_of(alloc, hex)?;
    let [byte] = bytes.as_slice() else {
        return Err(Miss::Unread("not one byte"));
    };
    Ok(Vec::from_elem(alloc, *byte, number(count)? as usize)?)
}

/// Returns bytes in parts: as `600*78` where this many follow each other that are the same, and as hex text
/// between.
pub fn parts_of(alloc: Global, bytes: &[u8]) -> Result<String, Miss> {
    let mut text = String::new(alloc);
    let mut rest = bytes;
    for _ in 0..bytes.len() {
        let Some(first) = rest.first() else {
            break;
        };
        let count = run_of(*first, rest);
        put_run(alloc, rest.get(..count).unwrap_or(rest), &mut text)?;
        rest = rest.get(count..).unwrap_or(&[]);
    }
    Ok(String::from_str(alloc, text.trim_end())?)
}

/// Returns how many bytes at the front are this one.
fn run_of(byte: u8, bytes: &[u8]) -> usize {
    let other = bytes.iter().position(|other| *other != byte);
    other.unwrap_or(bytes.len())
}

/// Appends bytes that are the same.
fn put_run(alloc: Global, run: &[u8], text: &mut String) -> Result<(), Miss> {
    match run {
        [byte, ..] if run.len() > MANY => {
            let space = if text.is_empty() || text.ends_with(' ') {
                ""
            } else {
                " "
            };
            let hex = hex_of(alloc, &[*byte])?;
            write!(text, "{space}{}*{hex} ", run.len())?;
        }
        _ => text.push_str(hex_of(alloc, run)?.as_str())?,
    }
    Ok(())
}

/// Returns a text, or one of this many times the same: `255*r`.
pub fn text_of(alloc: Global, word: &str) -> Result<String, Miss> {
    let Some((count, part)) = word.split_once('*') else {
        return Ok(String::from_str(alloc, word)?);
    };
    let mut text = String::new(alloc);
    for _ in 0..number(count)? {
        text.push_str(part)?;
    }
    Ok(text)
}
