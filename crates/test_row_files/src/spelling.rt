//! Rows in which names stand for bytes, and `{n}` for a number.

use crate::Miss;
use crate::words::number;
use std::alloc::Global;

/// A name, and the hex text that it stands for.
pub type Name<'t> = (&'t str, &'t str);

/// Returns a row with what its names and numbers stand for.
pub fn spelled(alloc: Global, names: &[Name<'_>], n: u32, row: &str) -> Result<String, Miss> {
    let counted = with_numbers(alloc, n, row)?;
    with_names(alloc, names, counted.as_str())
}

pub fn is_in_name(byte: u8) -> bool {
    byte.is_ascii_uppercase() || byte == b'_'
}

fn with_names(alloc: Global, names: &[Name<'_>], row: &str) -> Result<String, Miss> {
    let mut parts = row.split('@');
    let mut text = String::from_str(alloc, parts.next().unwrap_or(""))?;
    for part in parts {
        let end = part
            .bytes()
            .position(|byte| !is_in_name(byte))
            .unwrap_or(part.len());
        match part.get(..end).unwrap_or("") {
            "" => text.push('@')?,
            name => text.push_str(hex_of_name(names, name)?)?,
        }
        text.push_str(part.get(end..).unwrap_or(""))?;
    }
    Ok(text)
}

fn hex_of_name<'t>(names: &[Name<'t>], name: &str) -> Result<&'t str, Miss> {
    for (known, hex) in names {
        if *known == name {
            return Ok(*hex);
        }
    }
    Err(Miss::Unread("no such name"))
}

fn with_numbers(alloc: Global, n: u32, row: &str) -> Result<String, Miss> {
    let mut parts = row.split("{n");
    let mut text = String::from_str(alloc, parts.next().unwrap_or(""))?;
    for part in parts {
        let (distance, behind) = part.split_once('}').ok_or("no end of a number")?;
        let number = moved(n, distance)?;
        text.push_str(&format!(in alloc; "{number}{behind}")?)?;
    }
    Ok(text)
}

/// Returns the number at such a distance from `n`: none, `+1`, `-1` and so on.
fn moved(n: u32, distance: &str) -> Result<u32, Miss> {
    if distance.is_empty() {
        return Ok(n);
    }
    if let Some(by) = distance.strip_prefix('+') {
        return Ok(n.wrapping_add(number(by)?));
    }
    let by = distance.strip_prefix('-').ok_or("no distance")?;
    Ok(n.wrapping_sub(number(by)?))
}
