//! Rows of blocks.

use crate::bytes_of;
use amqp_frame::Device;
use amqp_records::{Blocks, BlocksFault, Output, print_blocks, whole_blocks};
use std::alloc::Global;
use std::str;
use test_row_files::Miss;
use test_row_files::words::name_of;

/// Returns how far a file is whole.
pub fn whole(alloc: Global, words: &str) -> Result<String, Miss> {
    let (max, words) = name_of(words);
    let max = max.parse::<u32>().ok().ok_or("no number")?;
    let bytes = bytes_of(alloc, words)?;
    let mut file = bytes.as_slice();
    Ok(
        match whole_blocks(alloc, &mut Device::new(&mut file), max) {
            Ok(whole) => format!(in alloc; "whole={} torn={}", whole.blocks, whole.torn)?,
            Err(fault) => format!(in alloc; "fault: {fault}")?,
        },
    )
}

/// Returns what is written of a file, and how it ends.
pub fn printed(alloc: Global, words: &str) -> Result<String, Miss> {
    let (form, words) = name_of(words);
    let (max, words) = name_of(words);
    let max = max.parse::<u32>().ok().ok_or("no number")?;
    let bytes = bytes_of(alloc, words)?;
    let output = match form {
        "TEXT" => Output::Text,
        "JSON" => Output::Json,
        _ => Output::Only(form.parse::<u64>().ok().ok_or("no number")?),
    };
    let mut written = Vec::new(alloc);
    let end = ended(alloc, &bytes, &mut written, output, max)?;
    if let Output::Only(_) = output {
        let text = hex::encode(alloc, &written).ok().ok_or("no hex")?;
        return Ok(format!(in alloc; "message={text} / {end}")?);
    }
    let mut lines = String::new(alloc);
    for line in str::from_utf8(&written)
        .ok()
        .ok_or("no text")?
        .split_terminator('\n')
    {
        lines.push_str(line)?;
        lines.push_str(" / ")?;
    }
    lines.push_str(&end)?;
    Ok(lines)
}

fn ended(
    alloc: Global,
    bytes: &[u8],
    written: &mut Vec<u8>,
    output: Output,
    max_message: u32,
) -> Result<String, Miss> {
    let mut file = bytes;
    let told: Result<u64, BlocksFault> = print_blocks(
        alloc,
        &mut Device::new(&mut file),
        &mut Device::new(written),
        output,
        max_message,
    );
    Ok(match told {
        Ok(count) => format!(in alloc; "{count}")?,
        Err(fault) => format!(in alloc; "fault: {fault}")?,
    })
}

/// Returns the blocks that records come to which are put one after the other: `7:RECORDS` is those of connection
/// 7, `7*N:RECORDS` N times.
pub fn put(alloc: Global, words: &str) -> Result<String, Miss> {
    let mut blocks = Blocks::new(alloc);
    for word in words.split_whitespace() {
        let (head, records) = word.split_once(':').ok_or("no records")?;
        let (number, times) = head.split_once('*').unwrap_or((head, "1"));
        let number = number.parse::<u64>().ok().ok_or("no number")?;
        let times = times.parse::<u32>().ok().ok_or("no number")?;
        let records = bytes_of(alloc, records)?;
        if records.len() > u32::MAX as usize {
            return Err(Miss::Unread("too long"));
        }
        for _ in 0..times {
            blocks.put(number, &records)?;
        }
    }
    let bytes = blocks.as_bytes();
    if bytes.len() > 200 {
        return heads(alloc, bytes);
    }
    hex::encode(alloc, bytes).map_err(|_| Miss::Unread("no hex"))
}

/// Returns the heads of blocks that are long.
fn heads(alloc: Global, bytes: &[u8]) -> Result<String, Miss> {
    let mut text = String::new(alloc);
    let mut rest = bytes;
    for _ in 0..bytes.len() {
        let Some((head, behind)) = rest.split_at_checked(12) else {
            break;
        };
        let (number, size) = head.split_at(8);
        let size_text = hex::encode(alloc, size).ok().ok_or("no hex")?;
        let size = u32::from_str_radix(size_text.as_str(), 16)
            .ok()
            .ok_or("no number")?;
        if !text.is_empty() {
            text.push_str(" ")?;
        }
        text.push_str(hex::encode(alloc, number).ok().ok_or("no hex")?.as_str())?;
        let line = format!(in alloc; ":{size}")?;
        text.push_str(line.as_str())?;
        rest = behind.get(size as usize..).unwrap_or(&[]);
    }
    Ok(text)
}
