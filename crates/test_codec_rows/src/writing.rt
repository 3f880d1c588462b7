//! Values, written by `encode`.

use crate::bytes::{bytes_of, words_of};
use crate::hands::{placed, value_of};
use crate::values::{answer_of, value_at};
use amqp_types::{Value, WriteFault};
use std::alloc::Global;
use test_row_files::Miss;
use test_row_files::words::cut;

/// Bytes that stand before what is written.
const BEFORE: [u8; 2] = [7, 0xff];

/// Returns what `encode` does, with nothing of its contract: calls are checked faster.
fn put(value: &Value, out: &mut Vec<u8>) -> Result<(), WriteFault> {
    amqp_types::encode(value, out)
}

/// Returns the canonical spelling of the value that the bytes spell.
pub fn encode(alloc: Global, words: &str) -> Result<String, Miss> {
    let value = value_at(alloc, &bytes_of(alloc, words)?)?;
    written(alloc, &value)
}

/// Returns the spelling of a value in hand.
pub fn make(alloc: Global, words: &str) -> Result<String, Miss> {
    written(alloc, &value_of(alloc, words)?)
}

/// Returns the spelling of a value that is inside another one.
pub fn make_in(alloc: Global, words: &str) -> Result<String, Miss> {
    let (place, words) = cut(words, ' ')?;
    let value = value_of(alloc, words)?;
    written(alloc, &placed(alloc, place, value)?)
}

/// Returns what is written of the value after what stands there, or the fault with which nothing
/// is.
fn written(alloc: Global, value: &Value) -> Result<String, Miss> {
    let mut out = Vec::from_slice(alloc, &BEFORE)?;
    let answer = put(value, &mut out);
    let Some(spelling) = out.as_slice().strip_prefix(BEFORE.as_slice()) else {
        return Ok(String::from_str(alloc, "what stood there is lost")?);
    };
    match answer {
        Ok(()) => read_back(alloc, value, spelling),
        Err(WriteFault::NoMemory) => Err(Miss::NoMemory),
        Err(fault) if spelling.is_empty() => Ok(format!(in alloc; "{fault:?}")?),
        Err(fault) => Ok(format!(in alloc; "{fault:?} behind {spelling:?}")?),
    }
}

/// Returns the spelling, and if it is not read as the value, what it is read as.
fn read_back(alloc: Global, value: &Value, spelling: &[u8]) -> Result<String, Miss> {
    let words = words_of(alloc, spelling)?;
    let found = answer_of(alloc, spelling)?.text;
    let len = spelling.len();
    if found.as_str() == format!(in alloc; "{value:?} {len}")?.as_str() {
        Ok(words)
    } else {
        Ok(format!(in alloc; "{words}, which is {found}")?)
    }
}
