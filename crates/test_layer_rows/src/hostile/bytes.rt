//! Bytes that a row spells.

use std::alloc::Global;
use test_row_files::Miss;
use test_row_files::words::{bytes_of, number};

/// Returns the bytes of words that are hex text each, or a byte this many times, as `00*40`.
pub fn bytes_in(alloc: Global, words: &str) -> Result<Vec<u8>, Miss> {
    let mut bytes = Vec::new(alloc);
    for word in words.split(' ') {
        match word.split_once('*') {
            Some((hex, count)) => {
                let one = bytes_of(alloc, hex)?;
                let byte = one.first().copied().ok_or("no byte")?;
                let end = bytes.len().saturating_add(number(count)? as usize);
                bytes.resize(end, byte)?;
            }
            None => bytes.extend_from_slice(&bytes_of(alloc, word)?)?,
        }
    }
    Ok(bytes)
}
