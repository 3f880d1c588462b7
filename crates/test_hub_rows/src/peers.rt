//! What peers send.
use crate::numbers::Numbers;
use std::alloc::Global;
use test_row_files::Miss;

/// Header, open, begin and attach of a sender, whose channel is 0 and whose link has handle 0.
pub const FRONT: [&[u8]; 4] = [
    b"AMQP\x00\x01\x00\x00",
    b"\x00\x00\x00\x11\x02\x00\x00\x00\x00S\x10\xc0\x04\x01\xa1\x01a",
    b"\x00\x00\x00\x14\x02\x00\x00\x00\x00S\x11\xc0\x07\x04@CRdRd",
    b"\x00\x00\x00 \x02\x00\x00\x00\x00S\x12\xc0\x13\x0a\xa1\x01lCB@@\x00S(E\x00S)E@@C",
];

const CLOSE: &[u8] = b"\x00\x00\x00\x0c\x02\x00\x00\x00\x00S\x18E";

const DETACH: &[u8] = b"\x00\x00\x00\x10\x02\x00\x00\x00\x00S\x16\xc0\x03\x02CA";

const EMPTY: &[u8] = b"\x00\x00\x00\x08\x02\x00\x00\x00";

const WRONG: &[u8] = b"\x00\x00\x00\x04\x02\x00\x00\x00";

const OTHER: &[u8] = b"AMQP\x03\x01\x00\x00";

/// Returns the bytes of a peer that follow from numbers: deliveries with their ids, and what goes
/// wrong.
pub fn stream(alloc: Global, numbers: &mut Numbers) -> Result<Vec<u8>, Miss> {
    let mut bytes = Vec::new(alloc);
    if numbers.is_one_of(16) {
        bytes.extend_from_slice(OTHER)?;
        return Ok(bytes);
    }
    for part in FRONT {
        bytes.extend_from_slice(part)?;
        if numbers.is_one_of(24) {
            bytes.extend_from_slice(WRONG)?;
        }
    }
    let mut id: u8 = 0;
    for _ in 0..numbers.below(8) {
        match numbers.below(10) {
            0 => bytes.extend_from_slice(EMPTY)?,
            1 if numbers.is_one_of(3) => {
                bytes.extend_from_slice(DETACH)?;
                bytes.extend_from_slice(FRONT[3])?;
            }
            2 if numbers.is_one_of(3) => bytes.extend_from_slice(WRONG)?,
            _ => {
                let length = numbers.below(120);
                transfer(&mut bytes, id, length, numbers.is_one_of(4))?;
                id = id.wrapping_add(1);
            }
        }
    }
    if !numbers.is_one_of(3) {
        bytes.extend_from_slice(CLOSE)?;
    }
    Ok(bytes)
}

/// A delivery in one transfer [2.7.5], settled or not.
fn transfer(bytes: &mut Vec<u8>, id: u8, length: u32, settled: bool) -> Result<(), Miss> {
    let length = (length % 128) as u8;
    let size = length.saturating_add(22);
    bytes.extend_from_slice(&[0, 0, 0, size, 2, 0, 0, 0, 0, 0x53, 0x14, 0xc0, 9, 5])?;
    let is_settled = if settled { 0x41 } else { 0x42 };
    bytes.extend_from_slice(&[0x43, 0x52, id, 0xa0, 1, b't', 0x43, is_settled])?;
    for _ in 0..length {
        bytes.push(b'x')?;
    }
    Ok(())
}
