//! Bytes as words.

use std::alloc::Global;
use test_row_files::Miss;
use test_row_files::words::number;

/// Returns the bytes that a word stands for: hex digits, and `41*300` for what stands before the star this many
/// times, parted by `+`.
pub fn bytes_of(alloc: Global, word: &str) -> Result<Vec<u8>, Miss> {
    let mut bytes = Vec::new(alloc);
    for part in word.split('+') {
        let (digits, count) = match part.split_once('*') {
            None => (part, 1),
            Some((digits, count)) => (digits, number(count)?),
        };
        let run = hex::decode(alloc, digits).ok().ok_or("no bytes")?;
        for _ in 0..count {
            bytes.extend_from_slice(&run)?;
        }
    }
    Ok(bytes)
}
