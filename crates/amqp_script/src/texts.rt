//! Texts in lines: hex, or bytes in quotes, as `amqp dump` prints a string.

use crate::digits::{hex_digit, is_hex, read_hex};
use std::alloc::AllocError;

/// What the next byte within quotes is part of.
#[derive(Clone, Copy)]
enum Within {
    /// A byte that stands for itself, or a backslash.
    Text,
    /// The `x` behind a backslash.
    Escape,
    /// The first digit of an escape.
    High,
    /// Its second digit, behind the first with this value.
    Low(u8),
}

/// Returns what comes after a byte within quotes, and the byte that is whole with it, if one is; `None` if the
/// byte may not stand there.
fn step(within: Within, byte: u8) -> Option<(Within, Option<u8>)> {
    match within {
        Within::Text if byte == b'\\' => Some((Within::Escape, None)),
        Within::Text if byte == b'"' || byte < 0x20 || 0x7e < byte => None,
        Within::Text => Some((Within::Text, Some(byte))),
        Within::Escape if byte == b'x' => Some((Within::High, None)),
        Within::Escape => None,
        Within::High => Some((Within::Low(hex_digit(byte)?), None)),
        Within::Low(high) => Some((Within::Text, Some(high << 4 | hex_digit(byte)?))),
    }
}

/// Returns what stands between the quotes of a text; `None` if it is in none.
fn in_quotes(text: &[u8]) -> Option<&[u8]> {
    text.strip_prefix(b"\"".as_slice())?
        .strip_suffix(b"\"".as_slice())
}

/// Returns whether these bytes may stand between quotes.
fn is_quoted(inner: &[u8]) -> bool {
    let mut within = Within::Text;
    for byte in inner {
        match step(within, *byte) {
            Some((next, _)) => within = next,
            None => return false,
        }
    }
    matches!(within, Within::Text)
}

/// Returns whether a word is a text: one or more pairs of hex digits, or in quotes.
pub fn is_text(word: &[u8]) -> bool {
    match in_quotes(word) {
        Some(inner) => is_quoted(inner),
        None => is_hex(word),
    }
}

/// Makes `out` the bytes of a text. If memory is refused, it is an error.
pub fn read_text(out: &mut Vec<u8>, word: &[u8]) -> Result<(), AllocError> {
    match in_quotes(word) {
        Some(inner) => read_quoted(out, inner),
        None => read_hex(out, word),
    }
}

fn read_quoted(out: &mut Vec<u8>, inner: &[u8]) -> Result<(), AllocError> {
    out.clear();
    let mut within = Within::Text;
    for byte in inner {
        if let Some((next, whole)) = step(within, *byte) {
            within = next;
            if let Some(whole) = whole {
                out.push(whole)?;
            }
        }
    }
    Ok(())
}
