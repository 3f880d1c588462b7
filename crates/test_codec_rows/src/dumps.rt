//! The lines that `dump` prints, parted by ` / `.

use crate::bytes::bytes_of;
use amqp_dump::dump;
use amqp_frame::{Device, HEADER};
use std::alloc::Global;
use test_row_files::Miss;

/// The line of a header.
const HEADER_LINE: &str = "header id=0 version=1.0.0";

/// Returns the lines of a stream.
pub fn stream(alloc: Global, words: &str) -> Result<String, Miss> {
    lines_of(alloc, &bytes_of(alloc, words)?)
}

/// Returns the lines of what stands after a header.
pub fn behind(alloc: Global, words: &str) -> Result<String, Miss> {
    lines_behind(alloc, &bytes_of(alloc, words)?)
}

/// Returns the text of a value, which is a frame's whole body.
pub fn value(alloc: Global, words: &str) -> Result<String, Miss> {
    let body = bytes_of(alloc, words)?;
    let size = u32::try_from(body.len())
        .ok()
        .ok_or("too long")?
        .saturating_add(8);
    let line = framed(alloc, size, &body)?;
    let front = format!(in alloc; "8 size={size} channel=0 value ")?;
    let text = line.strip_prefix(front.as_str());
    match text.and_then(|text| text.strip_suffix(" payload=0")) {
        Some(text) => Ok(String::from_str(alloc, text)?),
        None => Ok(line),
    }
}

/// Returns the line of a frame of this size and body.
fn framed(alloc: Global, size: u32, body: &[u8]) -> Result<String, Miss> {
    let mut frame = Vec::from_slice(alloc, &size.to_be_bytes())?;
    frame.extend_from_slice(&[2, 0, 0, 0])?;
    frame.extend_from_slice(body)?;
    lines_behind(alloc, &frame)
}

fn lines_behind(alloc: Global, bytes: &[u8]) -> Result<String, Miss> {
    let mut stream = Vec::from_slice(alloc, HEADER.as_slice())?;
    stream.extend_from_slice(bytes)?;
    let lines = lines_of(alloc, &stream)?;
    let behind = lines.strip_prefix(HEADER_LINE);
    match behind.and_then(|lines| lines.strip_prefix(" / ")) {
        Some(lines) => Ok(String::from_str(alloc, lines)?),
        None => Ok(lines),
    }
}

fn lines_of(alloc: Global, bytes: &[u8]) -> Result<String, Miss> {
    let mut bytes = bytes;
    let mut printed = Vec::new(alloc);
    let told = dump(
        alloc,
        &mut Device::new(&mut bytes),
        &mut Device::new(&mut printed),
    );
    if let Err(fault) = told {
        return Ok(format!(in alloc; "{fault:?}")?);
    }
    let text = str::from_utf8(&printed).ok().ok_or("no text")?;
    parted(alloc, text.strip_suffix('\n').ok_or("no end of a line")?)
}

fn parted(alloc: Global, text: &str) -> Result<String, Miss> {
    let mut lines = text.split('\n');
    let mut parted = String::from_str(alloc, lines.next().unwrap_or(""))?;
    for line in lines {
        parted.push_str(" / ")?;
        parted.push_str(line)?;
    }
    Ok(parted)
}
