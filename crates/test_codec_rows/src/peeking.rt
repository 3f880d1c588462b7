//! The outermost cases of values, and scalars that are put into a buffer.

use crate::bytes::{bytes_of, words_of};
use crate::words::parsed;
use amqp_types::{Kind, Peek, skip};
use std::alloc::Global;
use test_row_files::Miss;

/// Returns the outermost case of the value that the bytes begin with, if one stands there.
fn case_of(bytes: &[u8]) -> Option<Peek<'_>> {
    match skip(bytes, 32) {
        Ok(_) => Some(amqp_types::peek(bytes)),
        Err(_) => None,
    }
}

pub fn peek(alloc: Global, words: &str) -> Result<String, Miss> {
    let bytes = bytes_of(alloc, words)?;
    let case = case_of(&bytes).ok_or("no such case")?;
    Ok(format!(in alloc; "{case:?}")?)
}

/// Returns what `put` answers, with nothing of its contract: calls are checked faster.
fn put_into(case: &Peek<'_>, out: &mut [u8]) -> Option<usize> {
    amqp_types::put(case, out)
}

/// Returns the bytes that are put of a case: its kind, and its number, text or bytes.
pub fn put(alloc: Global, words: &str) -> Result<String, Miss> {
    let (name, rest) = words.split_once(' ').unwrap_or((words, ""));
    match name {
        "symbol" | "binary" | "described" => put_bytes(alloc, name, &bytes_of(alloc, rest)?),
        _ => put_plain(alloc, name, rest),
    }
}

fn put_bytes(alloc: Global, name: &str, bytes: &[u8]) -> Result<String, Miss> {
    match name {
        "symbol" => put_case(alloc, &Peek::Symbol(bytes)),
        "binary" => put_case(alloc, &Peek::Binary(bytes)),
        _ => put_described(alloc, bytes),
    }
}

fn put_plain(alloc: Global, name: &str, rest: &str) -> Result<String, Miss> {
    match name {
        "string" => put_case(alloc, &Peek::String(rest)),
        "null" => put_case(alloc, &Peek::Null),
        "boolean" => put_case(alloc, &Peek::Boolean(rest == "true")),
        "list" => put_case(alloc, &Peek::List(0, &[])),
        "other" => put_case(alloc, &Peek::Other),
        _ => put_case(alloc, &Peek::Unsigned(kind_of(name)?, parsed(rest)?)),
    }
}

/// Returns a descriptor of one byte, and the value after it.
fn put_described(alloc: Global, bytes: &[u8]) -> Result<String, Miss> {
    let (descriptor, value) = bytes.split_at_checked(1).ok_or("no such case")?;
    put_case(alloc, &Peek::Described(descriptor, value))
}

fn kind_of(name: &str) -> Result<Kind, Miss> {
    match name {
        "ubyte" => Ok(Kind::Ubyte),
        "ushort" => Ok(Kind::Ushort),
        "uint" => Ok(Kind::Uint),
        "ulong" => Ok(Kind::Ulong),
        "long" => Ok(Kind::Long),
        _ => Err(Miss::Unread("no such case")),
    }
}

/// Returns what is put into a room of eight bytes 07, whose other bytes stay. Where one byte is missing nothing
/// is put.
fn put_case(alloc: Global, case: &Peek<'_>) -> Result<String, Miss> {
    let mut out = [7; 8];
    let len = put_into(case, &mut out);
    let (front, behind) = out
        .split_at_checked(len.unwrap_or(0))
        .ok_or("no such case")?;
    if behind.iter().any(|byte| *byte != 7) {
        return Ok(String::from_str(alloc, "what is behind is changed")?);
    }
    match len {
        None => Ok(String::from_str(alloc, "None")?),
        Some(len) if is_put_into_less(case, len) => {
            Ok(format!(in alloc; "put into less than {len}")?)
        }
        Some(_) => Ok(words_of(alloc, front)?),
    }
}

/// Returns whether anything is put where one of this many bytes is missing.
fn is_put_into_less(case: &Peek<'_>, len: usize) -> bool {
    let mut out = [7; 8];
    let Some(room) = out.get_mut(..len.wrapping_sub(1)) else {
        return true;
    };
    put_into(case, room).is_some() || out != [7; 8]
}
