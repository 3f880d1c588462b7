//! Bytes and texts in quotes.

use std::alloc::Global;
use test_row_files::Miss;

/// Returns the bytes that stand between quotes, in which `\n`, `\r`, `\t` and `\xff` are one byte
/// each.
pub fn bytes_in_quotes(alloc: Global, text: &str) -> Result<Vec<u8>, Miss> {
    let inner = text
        .strip_prefix('"')
        .and_then(|rest| rest.strip_suffix('"'))
        .ok_or("no quotes")?;
    let mut parts = inner.split('\\');
    let mut bytes = Vec::from_slice(alloc, parts.next().unwrap_or("").as_bytes())?;
    for part in parts {
        let (byte, behind) = escaped(part)?;
        bytes.push(byte)?;
        bytes.extend_from_slice(behind.as_bytes())?;
    }
    Ok(bytes)
}

/// Returns the byte that is spelled after a backslash, and what follows it.
fn escaped(text: &str) -> Result<(u8, &str), Miss> {
    let (name, behind) = text.split_at_checked(1).ok_or("no escape")?;
    let byte = match name {
        "n" => b'\n',
        "r" => b'\r',
        "t" => b'\t',
        "x" => return hex_byte(behind),
        _ => return Err(Miss::Unread("no such escape")),
    };
    Ok((byte, behind))
}

fn hex_byte(text: &str) -> Result<(u8, &str), Miss> {
    let (digits, behind) = text.split_at_checked(2).ok_or("no hex digits")?;
    let byte = u8::from_str_radix(digits, 16).or(Err("no hex digits"))?;
    Ok((byte, behind))
}

/// Returns a text in quotes, with `\n` for the end of each line.
pub fn in_quotes(alloc: Global, text: &str) -> Result<String, Miss> {
    let inner = text.replace(alloc, "\n", "\\n")?;
    Ok(format!(in alloc; "\"{inner}\"")?)
}
