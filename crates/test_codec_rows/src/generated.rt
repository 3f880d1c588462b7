//! Bytes that are made from a number, of which most spell a value or nearly one.

use std::alloc::{AllocError, Global};

/// The codes of values that hold no others, then of those that do.
const CODES: [u8; 40] =
    *b"\x40\x41\x42\x43\x44\x45\x50\x51\x52\x53\x54\x55\x56\x60\x61\x70\x71\x72\x73\x74\x80\x81\x82\x83\x84\x94\x98\xa0\xa1\xa3\xb0\xb1\xb3\x00\xc0\xd0\xc1\xd1\xe0\xf0";

/// How many of the codes make values that hold no others.
const SCALARS: u32 = 33;

/// Numbers that follow from a first one.
#[derive(Clone, Copy)]
pub struct Numbers {
    last: u64,
}

impl Numbers {
    /// Returns the numbers that follow from this one.
    pub fn of(first: u64) -> Numbers {
        Numbers { last: first }
    }

    /// Returns a number below `end`; 0 if that is 0.
    pub fn below(&mut self, end: u32) -> u32 {
        self.last = self
            .last
            .wrapping_mul(6364136223846793005)
            .wrapping_add(1442695040888963407);
        let high = (self.last >> 33) as u32;
        if end == 0 { 0 } else { high % end }
    }

    /// Returns whether a draw of one in `count` succeeds.
    pub fn is_one_of(&mut self, count: u32) -> bool {
        self.below(count) == 0
    }

    fn byte(&mut self) -> u8 {
        (self.below(256) % 256) as u8
    }

    fn code(&mut self, depth: u32) -> u8 {
        let known = if depth == 0 { SCALARS } else { 40 };
        if self.is_one_of(400) {
            return self.byte();
        }
        CODES
            .get(self.below(known) as usize)
            .copied()
            .unwrap_or(0x40)
    }
}

/// Returns bytes that begin with a value, in most cases, of at most this many levels; sometimes one is cut off
/// or changed.
pub fn body(alloc: Global, numbers: &mut Numbers, depth: u32) -> Result<Vec<u8>, AllocError> {
    let mut bytes = Vec::new(alloc);
    put_value(alloc, numbers, depth, &mut bytes)?;
    put_random(numbers, 2, &mut bytes)?;
    if numbers.is_one_of(4) {
        let place = numbers.below(short_len(&bytes));
        let byte = numbers.byte();
        if let Some(changed) = bytes.get_mut(place as usize) {
            *changed = byte;
        }
    }
    if numbers.is_one_of(8) {
        let len = numbers.below(short_len(&bytes));
        bytes.truncate(len as usize);
    }
    Ok(bytes)
}

/// Appends a value.
#[cycle(put)]
fn put_value(
    alloc: Global,
    numbers: &mut Numbers,
    depth: u32,
    bytes: &mut Vec<u8>,
) -> Result<(), AllocError> {
    let code = numbers.code(depth);
    bytes.push(code)?;
    put_data(alloc, numbers, depth, code, bytes)
}

/// Appends the data of a code.
#[cycle(put)]
fn put_data(
    alloc: Global,
    numbers: &mut Numbers,
    depth: u32,
    code: u8,
    bytes: &mut Vec<u8>,
) -> Result<(), AllocError> {
    match code {
        0x00 | 0xc0 | 0xd0 | 0xc1 | 0xd1 | 0xe0 | 0xf0 => match depth.checked_sub(1) {
            Some(less) => put_holder(alloc, numbers, less, code, bytes),
            None => Ok(()),
        },
        0x56 => put_small(numbers, 2, bytes),
        0x73 => {
            bytes.extend_from_slice(b"\x00\x00")?;
            put_random(numbers, 2, bytes)
        }
        0xa0 | 0xa1 | 0xa3 | 0xb0 | 0xb1 | 0xb3 => put_octets(numbers, code, bytes),
        _ => put_random(numbers, width(code), bytes),
    }
}

/// Appends the data of a described value, a list, a map or an array.
#[cycle(put)]
fn put_holder(
    alloc: Global,
    numbers: &mut Numbers,
    depth: u32,
    code: u8,
    bytes: &mut Vec<u8>,
) -> Result<(), AllocError> {
    let count = numbers.below(5);
    let mut parts = Vec::new(alloc);
    match code {
        0x00 => {
            put_value(alloc, numbers, depth, bytes)?;
            return put_value(alloc, numbers, depth, bytes);
        }
        0xc0 | 0xd0 => put_values(alloc, numbers, depth, count, &mut parts)?,
        0xc1 | 0xd1 => put_entries(alloc, numbers, depth, count, &mut parts)?,
        _ => put_items(alloc, numbers, depth, count, &mut parts)?,
    }
    let is_map = code == 0xc1 || code == 0xd1;
    put_block(
        numbers,
        code,
        if is_map {
            count.saturating_mul(2)
        } else {
            count
        },
        &parts,
        bytes,
    )
}

#[cycle(put)]
fn put_values(
    alloc: Global,
    numbers: &mut Numbers,
    depth: u32,
    count: u32,
    bytes: &mut Vec<u8>,
) -> Result<(), AllocError> {
    for _ in 0..count {
        put_value(alloc, numbers, depth, bytes)?;
    }
    Ok(())
}

/// Appends keys, each a number of few, and values.
#[cycle(put)]
fn put_entries(
    alloc: Global,
    numbers: &mut Numbers,
    depth: u32,
    count: u32,
    bytes: &mut Vec<u8>,
) -> Result<(), AllocError> {
    for _ in 0..count {
        bytes.push(0x52)?;
        put_small(numbers, 16, bytes)?;
        put_value(alloc, numbers, depth, bytes)?;
    }
    Ok(())
}

/// Appends an element constructor, after a descriptor in some cases, and the data of items.
#[cycle(put)]
fn put_items(
    alloc: Global,
    numbers: &mut Numbers,
    depth: u32,
    count: u32,
    bytes: &mut Vec<u8>,
) -> Result<(), AllocError> {
    if numbers.is_one_of(4) {
        bytes.push(0)?;
        put_value(alloc, numbers, depth, bytes)?;
    }
    let code = numbers.code(depth);
    bytes.push(code)?;
    for _ in 0..count {
        put_data(alloc, numbers, depth, code, bytes)?;
    }
    Ok(())
}

/// Appends a size, a count and the parts; in some cases the size or the count is another.
fn put_block(
    numbers: &mut Numbers,
    code: u8,
    count: u32,
    parts: &[u8],
    bytes: &mut Vec<u8>,
) -> Result<(), AllocError> {
    let is_wide = code & 0x10 == 0x10;
    let width = if is_wide { 4_u32 } else { 1 };
    let more = if numbers.is_one_of(50) {
        numbers.below(3)
    } else {
        1
    };
    let size = short_len(parts)
        .saturating_add(width)
        .saturating_add(more)
        .saturating_sub(1);
    let count = if numbers.is_one_of(50) {
        count.saturating_add(1)
    } else {
        count
    };
    put_number(is_wide, size, bytes)?;
    put_number(is_wide, count, bytes)?;
    bytes.extend_from_slice(parts)
}

/// Appends a size or a count.
fn put_number(is_wide: bool, number: u32, bytes: &mut Vec<u8>) -> Result<(), AllocError> {
    if is_wide {
        return bytes.extend_from_slice(&number.to_be_bytes());
    }
    bytes.push((number % 256) as u8)?;
    Ok(())
}

/// Appends a size and as many bytes, most of them ASCII.
fn put_octets(numbers: &mut Numbers, code: u8, bytes: &mut Vec<u8>) -> Result<(), AllocError> {
    let len = numbers.below(12);
    put_number(code & 0x10 == 0x10, len, bytes)?;
    for _ in 0..len {
        put_small(numbers, 129, bytes)?;
    }
    Ok(())
}

/// Appends a number below `end` as a byte.
fn put_small(numbers: &mut Numbers, end: u32, bytes: &mut Vec<u8>) -> Result<(), AllocError> {
    let byte = (numbers.below(end) % 256) as u8;
    bytes.push(byte)?;
    Ok(())
}

fn put_random(numbers: &mut Numbers, len: u32, bytes: &mut Vec<u8>) -> Result<(), AllocError> {
    for _ in 0..len {
        put_small(numbers, 256, bytes)?;
    }
    Ok(())
}

/// Returns how many bytes stand after a code of fixed width. [1.2]
fn width(code: u8) -> u32 {
    match code >> 4 {
        5 => 1,
        6 => 2,
        7 => 4,
        8 => 8,
        9 => 16,
        _ => 0,
    }
}

/// Returns how many bytes there are, if that fits.
fn short_len(bytes: &[u8]) -> u32 {
    u32::try_from(bytes.len()).unwrap_or(0)
}
