//! How long frames are: the shortest constructors, and no nulls at the end of a list [1.6, 2.3, 2.7].

/// A field that is absent, or has its default.
pub const ABSENT: usize = 0;

/// A field of one byte: true, or a uint of 0, or an empty list.
pub const BYTE: usize = 1;

/// A ubyte, a ushort, and a uint that is at least 256.
pub const UBYTE: usize = 2;

pub const USHORT: usize = 3;

/// A described empty list, as an outcome, a source or a target.
pub const EMPTY: usize = 4;

/// A binary of four bytes, as a delivery-tag.
pub const TAG: usize = 6;

pub fn uint(n: u64) -> usize {
    match n {
        0 => 1,
        1..=255 => 2,
        _ => 5,
    }
}

pub fn ulong(n: u64) -> usize {
    match n {
        0 => 1,
        1..=255 => 2,
        _ => 9,
    }
}

/// Returns a flag whose default is false.
pub fn flag(is_set: bool) -> usize {
    if is_set { BYTE } else { ABSENT }
}

/// Returns a text of at most 255 bytes.
pub fn text(len: usize) -> usize {
    len.saturating_add(2)
}

fn list(fields: &[usize]) -> usize {
    let mut len = 0_usize;
    let mut to_last = 0;
    for field in fields.iter() {
        len = len.saturating_add((*field).max(1));
        if *field != ABSENT {
            to_last = len;
        }
    }
    match to_last {
        0 => 1,
        1..=254 => to_last.saturating_add(3),
        _ => to_last.saturating_add(9),
    }
}

/// Returns a list with a descriptor of one byte.
pub fn described(fields: &[usize]) -> usize {
    list(fields).saturating_add(3)
}

/// Returns a frame with these fields and no payload.
pub fn frame(fields: &[usize]) -> usize {
    described(fields).saturating_add(8)
}
