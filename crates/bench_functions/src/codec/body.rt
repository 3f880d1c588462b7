//! The bytes of the values that are measured.

use crate::codec::Subject;
use std::alloc::{AllocError, Global};

/// A transfer of one message: handle 0, delivery-id 0, tag `t`, more to come.
const TRANSFER: [u8; 14] = [
    0x00, 0x53, 0x14, 0xc0, 0x09, 0x06, 0x43, 0x43, 0xa0, 0x01, 0x74, 0x40, 0x40, 0x41,
];

/// A flow of a session that asks for an echo.
const FLOW: [u8; 18] = [
    0x00, 0x53, 0x13, 0xc0, 0x0d, 0x0a, 0x43, 0x52, 0x64, 0x43, 0x52, 0x64, 0x40, 0x40, 0x40, 0x40,
    0x40, 0x41,
];

/// An attach of a sender with an empty source and target.
const ATTACH: [u8; 24] = [
    0x00, 0x53, 0x12, 0xc0, 0x13, 0x0a, 0xa1, 0x01, 0x6c, 0x43, 0x42, 0x40, 0x40, 0x00, 0x53, 0x28,
    0x45, 0x00, 0x53, 0x29, 0x45, 0x40, 0x40, 0x43,
];

/// A receiver's disposition of one delivery: accepted and settled.
const DISPOSITION: [u8; 14] = [
    0x00, 0x53, 0x15, 0xc0, 0x09, 0x05, 0x41, 0x43, 0x40, 0x41, 0x00, 0x53, 0x24, 0x45,
];

/// Returns the spelling of the value.
pub fn spelling(alloc: Global, subject: Subject) -> Result<Vec<u8>, AllocError> {
    match subject {
        Subject::Transfer => Vec::from_slice(alloc, &TRANSFER),
        Subject::Flow => Vec::from_slice(alloc, &FLOW),
        Subject::Attach => Vec::from_slice(alloc, &ATTACH),
        Subject::Disposition => Vec::from_slice(alloc, &DISPOSITION),
        Subject::List(count) => list_of(alloc, count),
        Subject::Map(count) => map_of(alloc, count),
    }
}

/// Returns a list of this many small numbers, two bytes each.
fn list_of(alloc: Global, count: u16) -> Result<Vec<u8>, AllocError> {
    let wide = u32::from(count);
    let mut bytes = head(alloc, 0xd0, 4 + 2 * wide, wide)?;
    for number in 0..count {
        bytes.extend_from_slice(&[0x52, (number % 256) as u8])?;
    }
    Ok(bytes)
}

/// Returns a map of this many numbers, each to null. A key is five bytes.
fn map_of(alloc: Global, count: u16) -> Result<Vec<u8>, AllocError> {
    let wide = u32::from(count);
    let mut bytes = head(alloc, 0xd1, 4 + 6 * wide, 2 * wide)?;
    for number in 0..count {
        put_entry(&mut bytes, u32::from(number))?;
    }
    Ok(bytes)
}

/// Returns a constructor with a size and a count of four bytes.
fn head(alloc: Global, code: u8, size: u32, count: u32) -> Result<Vec<u8>, AllocError> {
    let mut bytes = Vec::from_slice(alloc, &[code])?;
    bytes.extend_from_slice(&size.to_be_bytes())?;
    bytes.extend_from_slice(&count.to_be_bytes())?;
    Ok(bytes)
}

/// Appends a key in its full form, and null.
fn put_entry(bytes: &mut Vec<u8>, key: u32) -> Result<(), AllocError> {
    bytes.extend_from_slice(&[0x70])?;
    bytes.extend_from_slice(&key.to_be_bytes())?;
    bytes.extend_from_slice(&[0x40])
}
