//! The text of values, as `dump` prints it.
//!
//! A value is printed from its bytes, which are known to spell one; nothing is promised for other bytes. Each call
//! returns the bytes after what it printed. Whole lines that wait are unchanged. If memory was refused for some of
//! the line, the parts of a value that are left are not visited.

ghost use Rattle.std.specs.Prelude.{◌≡◌, ◌≤◌, length};

use crate::digits::{number_in, put_hex, put_number, put_quoted, put_signed, put_uuid};
use crate::page::Page;

/// Appends the text of the value at the front.
///
/// A value that holds no others is the name of its kind, a colon and its content: numbers are decimal,
/// floats, decimals and binaries are lower-case hex, a char is eight hex digits, a uuid has its hyphenated
/// form, and strings and symbols are in quotes. Null, true and false have no name. A list is `[a, b]`, a
/// map `{k=v, k=v}`, an array `array:KIND[a, b]` with `@D ` before KIND for each descriptor D, outermost
/// first, and a described value `@D(V)`.
#[cycle(text)]
#[inline(always)]
pub fn put_value<'a>(out: &mut Page, depth: usize, bytes: &'a [u8]) -> &'a [u8]
    ensures { out.new.whole ≡ out.old.whole }
{
    let Some((code, rest)) = bytes.split_first() else {
        return bytes;
    };
    if *code == 0 {
        return put_described(out, depth, rest);
    }
    put_data(out, depth, *code, rest)
}

/// Appends `@D(V)`.
#[cycle(text)]
fn put_described<'a>(out: &mut Page, depth: usize, bytes: &'a [u8]) -> &'a [u8]
    ensures { out.new.whole ≡ out.old.whole }
{
    if depth == 0 {
        return bytes;
    }
    out.put_byte(b'@');
    let described = put_value(out, depth - 1, bytes);
    out.put_byte(b'(');
    let rest = put_value(out, depth - 1, described);
    out.put_byte(b')');
    rest
}

/// Appends the text of the value whose data come after the code. [1.6]
#[cycle(text)]
fn put_data<'a>(out: &mut Page, depth: usize, code: u8, bytes: &'a [u8]) -> &'a [u8]
    ensures { out.new.whole ≡ out.old.whole }
{
    match code {
        0x40..=0xbf => put_plain(out, code, bytes),
        _ => put_parts(out, depth, code, width_of(code), bytes),
    }
}

/// Appends the text of a value that holds no others; its data come after the code.
fn put_plain<'a>(out: &mut Page, code: u8, bytes: &'a [u8]) -> &'a [u8]
    ensures { out.new.whole ≡ out.old.whole }
{
    match code {
        0x40..=0x4f => {
            put_empty(out, code);
            bytes
        }
        0x56 => put_boolean(out, bytes),
        _ => put_scalar(out, code, bytes),
    }
}

/// Returns how many bytes the data after a code have, or their size field if that differs. [1.2]
fn width_of(code: u8) -> usize {
    match code >> 4 {
        6 => 2,
        7 | 0xb | 0xd | 0xf => 4,
        8 => 8,
        9 => 16,
        _ => 1,
    }
}

/// Appends the text of a list, a map or an array, whose size and count have `width` bytes each.
#[cycle(text)]
fn put_parts<'a>(out: &mut Page, depth: usize, code: u8, width: usize, bytes: &'a [u8]) -> &'a [u8]
    ensures { out.new.whole ≡ out.old.whole }
{
    if depth == 0 {
        return bytes;
    }
    let (_size, body) = front(bytes, width);
    let (count, parts) = front(body, width);
    let count = number_in(count) as usize;
    match code {
        0xc0 | 0xd0 => put_items(out, depth - 1, None, count, parts),
        0xc1 | 0xd1 => put_map(out, depth - 1, count / 2, parts),
        _ => put_array(out, depth - 1, count, parts),
    }
}

/// Appends `{k=v, k=v}`.
#[cycle(text)]
fn put_map<'a>(out: &mut Page, depth: usize, count: usize, bytes: &'a [u8]) -> &'a [u8]
    ensures { out.new.whole ≡ out.old.whole }
{
    out.put_byte(b'{');
    let mut rest = bytes;
    for i in 0..count {
        if out.lacks() {
            break;
        }
        if i > 0 {
            out.put(b", ");
        }
        let value = put_value(out, depth, rest);
        out.put_byte(b'=');
        rest = put_value(out, depth, value);
    }
    out.put_byte(b'}');
    rest
}

/// Appends `array:`, `@D ` for each descriptor, the name of the items' kind and `[a, b]`.
#[cycle(text)]
fn put_array<'a>(out: &mut Page, depth: usize, count: usize, bytes: &'a [u8]) -> &'a [u8]
    ensures { out.new.whole ≡ out.old.whole }
{
    out.put(b"array:");
    let element = put_descriptors(out, depth, bytes);
    let Some((code, items)) = element.split_first() else {
        return element;
    };
    put_kind(out, *code);
    put_items(out, depth, Some(*code), count, items)
}

/// Appends `@D ` for each descriptor before an element constructor.
#[cycle(text)]
fn put_descriptors<'a>(out: &mut Page, depth: usize, bytes: &'a [u8]) -> &'a [u8]
    ensures { out.new.whole ≡ out.old.whole }
{
    let mut rest = bytes;
    for _ in 0..bytes.len() {
        let Some((0, descriptor)) = rest.split_first() else {
            break;
        };
        out.put_byte(b'@');
        rest = put_value(out, depth, descriptor);
        out.put_byte(b' ');
    }
    rest
}

/// Appends `[a, b]`. The items of an array have no codes of their own: they share one.
#[cycle(text)]
fn put_items<'a>(
    out: &mut Page,
    depth: usize,
    code: Option<u8>,
    count: usize,
    bytes: &'a [u8],
) -> &'a [u8]
    ensures { out.new.whole ≡ out.old.whole }
{
    out.put_byte(b'[');
    let mut rest = bytes;
    for i in 0..count {
        if out.lacks() {
            break;
        }
        if i > 0 {
            out.put(b", ");
        }
        rest = match code {
            Some(code) => put_data(out, depth, code, rest),
            None => put_value(out, depth, rest),
        };
    }
    out.put_byte(b']');
    rest
}

/// Appends the text of a value that has no data.
#[inline(always)]
fn put_empty(out: &mut Page, code: u8)
    ensures { out.new.whole ≡ out.old.whole }
{
    let (text, len) = match code {
        0x41 => (b"true    ", 4),
        0x42 => (b"false   ", 5),
        0x43 => (b"uint:0  ", 6),
        0x44 => (b"ulong:0 ", 7),
        0x45 => (b"[]      ", 2),
        _ => (b"null    ", 4),
    };
    out.put_front(text, len);
}

/// Appends the text of a boolean in a byte.
fn put_boolean<'a>(out: &mut Page, bytes: &'a [u8]) -> &'a [u8]
    ensures { out.new.whole ≡ out.old.whole }
{
    let (data, rest) = front(bytes, 1);
    put_empty(out, if number_in(data) == 1 { 0x41 } else { 0x42 });
    rest
}

/// Appends the name of a value's kind, a colon and its content. After the code come the data, or their size.
#[inline(always)]
fn put_scalar<'a>(out: &mut Page, code: u8, bytes: &'a [u8]) -> &'a [u8]
    ensures { out.new.whole ≡ out.old.whole }
{
    let (name, len) = kind_of(code);
    out.put_front(name, len.saturating_add(1));
    let (data, rest) = front(bytes, width_of(code));
    if code < 0xa0 {
        put_fixed(out, code, data);
        return rest;
    }
    let (octets, rest) = front(rest, number_in(data) as usize);
    match code {
        0xa0 | 0xb0 => put_hex(out, octets),
        _ => put_quoted(out, octets),
    }
    rest
}

/// Appends the content of a value whose data are of fixed width.
#[inline(always)]
fn put_fixed(out: &mut Page, code: u8, data: &[u8])
    ensures { out.new.whole ≡ out.old.whole }
{
    match code {
        0x72 | 0x73 | 0x74 | 0x82 | 0x84 | 0x94 => put_hex(out, data),
        0x98 => put_uuid(out, data),
        0x51 | 0x54 | 0x55 | 0x61 | 0x71 | 0x81 | 0x83 => {
            put_signed(out, data.len(), number_in(data))
        }
        _ => put_number(out, number_in(data)),
    }
}

/// Appends the name of the kind that a code makes.
fn put_kind(out: &mut Page, code: u8)
    ensures { out.new.whole ≡ out.old.whole }
{
    let (name, len) = kind_of(code);
    out.put_front(name, len);
}

/// Returns the name of the kind that a code makes, with a colon after it, and how many bytes the name has. [1.6]
fn kind_of(code: u8) -> (&'static [u8; 16], usize) {
    match code {
        0x40 => (b"null:           ", 4),
        0x41 | 0x42 | 0x56 => (b"boolean:        ", 7),
        0x50 => (b"ubyte:          ", 5),
        0x60 => (b"ushort:         ", 6),
        0x43 | 0x52 | 0x70 => (b"uint:           ", 4),
        0x44 | 0x53 | 0x80 => (b"ulong:          ", 5),
        0x51 => (b"byte:           ", 4),
        0x61 => (b"short:          ", 5),
        0x54 | 0x71 => (b"int:            ", 3),
        0x55 | 0x81 => (b"long:           ", 4),
        0x72 => (b"float:          ", 5),
        0x82 => (b"double:         ", 6),
        0x74 => (b"decimal32:      ", 9),
        0x84 => (b"decimal64:      ", 9),
        0x94 => (b"decimal128:     ", 10),
        0x73 => (b"char:           ", 4),
        0x83 => (b"timestamp:      ", 9),
        0x98 => (b"uuid:           ", 4),
        0xa0 | 0xb0 => (b"binary:         ", 6),
        0xa1 | 0xb1 => (b"string:         ", 6),
        0xa3 | 0xb3 => (b"symbol:         ", 6),
        0x45 | 0xc0 | 0xd0 => (b"list:           ", 4),
        0xc1 | 0xd1 => (b"map:            ", 3),
        0xe0 | 0xf0 => (b"array:          ", 5),
        _ => (b":               ", 0),
    }
}

/// Returns the first `n` bytes, or all if there are fewer, and the bytes after them.
fn front(bytes: &[u8], n: usize) -> (&[u8], &[u8])
    ensures { length result.0.now ≤ n }
{
    bytes.split_at(n.min(bytes.len()))
}
