//! The words of a transfer, and bytes as words.

use amqp_perform::{ReceiverSettleMode, Transfer};
use std::alloc::Global;
use test_row_files::Miss;
use test_row_files::words::{cut, number};

/// Messages that are longer are told by their pattern.
const LONG: usize = 64;

pub fn mode_of(word: &str) -> Result<ReceiverSettleMode, Miss> {
    match word {
        "first" => Ok(ReceiverSettleMode::First),
        "second" => Ok(ReceiverSettleMode::Second),
        _ => Err(Miss::Unread("no mode")),
    }
}

/// Returns a transfer whose fields these words state: `id=0 tag=t more`, say. It leaves the others away.
pub fn transfer_of(words: &str) -> Result<Transfer<'_>, Miss> {
    let mut transfer = Transfer {
        handle: 0,
        delivery_id: None,
        delivery_tag: None,
        message_format: None,
        settled: None,
        more: false,
        rcv_settle_mode: None,
        state: &[],
        resume: false,
        aborted: false,
        batchable: &[],
    };
    for word in words.split_whitespace() {
        match word.split_once('=') {
            Some((name, value)) => set(&mut transfer, name, value)?,
            None => flag(&mut transfer, word)?,
        }
    }
    Ok(transfer)
}

fn set<'a>(transfer: &mut Transfer<'a>, name: &str, value: &'a str) -> Result<(), Miss> {
    match name {
        "id" => transfer.delivery_id = Some(number(value)?),
        "tag" => transfer.delivery_tag = Some(value.as_bytes()),
        "format" => transfer.message_format = Some(number(value)?),
        "mode" => transfer.rcv_settle_mode = Some(mode_of(value)?),
        _ => return Err(Miss::Unread("no field")),
    }
    Ok(())
}

fn flag(transfer: &mut Transfer<'_>, name: &str) -> Result<(), Miss> {
    match name {
        "more" => transfer.more = true,
        "resume" => transfer.resume = true,
        "aborted" => transfer.aborted = true,
        "settled" => transfer.settled = Some(true),
        "unsettled" => transfer.settled = Some(false),
        _ => return Err(Miss::Unread("no flag")),
    }
    Ok(())
}

/// Returns the bytes of a payload: those of the text; after a `*` this many zeros; or those of a pattern, as
/// `%7..9`, where the byte at `i` is the rest of `i` by 251.
pub fn payload_of(alloc: Global, text: &str) -> Result<Vec<u8>, Miss> {
    if let Some(count) = text.strip_prefix('*') {
        return Ok(Vec::from_elem(alloc, 0, number(count)? as usize)?);
    }
    if let Some(range) = text.strip_prefix('%') {
        let (first, end) = range.split_once("..").ok_or("no range")?;
        return pattern(alloc, number(first)?, number(end)?);
    }
    Ok(Vec::from_slice(alloc, text.as_bytes())?)
}

fn pattern(alloc: Global, first: u32, end: u32) -> Result<Vec<u8>, Miss> {
    let mut bytes = Vec::new(alloc);
    for i in first..end {
        bytes.push((i % 251) as u8)?;
    }
    Ok(bytes)
}

/// Returns bytes as a word: their text, `empty` if there are none, and `%0..LEN` if they are many and follow the
/// pattern.
pub fn told(alloc: Global, bytes: &[u8]) -> Result<String, Miss> {
    let len = bytes.len();
    if len == 0 {
        return Ok(String::from_str(alloc, "empty")?);
    }
    if len <= LONG {
        let text = str::from_utf8(bytes).map_err(|_| Miss::Unread("the bytes are no text"))?;
        return Ok(String::from_str(alloc, text)?);
    }
    if is_pattern(bytes) {
        return Ok(format!(in alloc; "%0..{len}")?);
    }
    Ok(format!(in alloc; "{len} other bytes")?)
}

fn is_pattern(bytes: &[u8]) -> bool {
    bytes
        .iter()
        .enumerate()
        .all(|(i, byte)| *byte == (i % 251) as u8)
}

/// Returns the two words of a pair, and what stands after them.
pub fn two_words(words: &str) -> Result<(&str, &str, &str), Miss> {
    let (first, behind) = cut(words, ' ')?;
    match behind.split_once(' ') {
        Some((second, rest)) => Ok((first, second, rest.trim())),
        None => Ok((first, behind, "")),
    }
}
