//! How an address is spelled.
ghost use Rattle.std.specs.Prelude.{◌≡◌, ◌+◌, ◌≤◌, ◌<◌, length, drop, slice_index, Ok, Err, IfOk, IfErr, IfSome};
ghost use Rattle.hex.specs.Hex.{hex_digit_value};
ghost use Rattle.amqp_addresses.specs.Spelling.{is_plain, escaped, byte_of, more_of, spelled, address_of};
ghost use Rattle.amqp_addresses.specs.Reads.{Gives};

use crate::faults::{LineFault, ReadFault};
use std::alloc::Global;
use std::str;

/// Returns the address that a text spells.
pub fn address_in(alloc: Global, text: &[u8]) -> Result<Vec<u8>, ReadFault>
    ensures { Gives (λ v. v.items) result (address_of text.now) }
{
    let address = spelled(alloc, text)?;
    match str::from_utf8(&address) {
        Ok(_) => Ok(address),
        Err(_) => Err(ReadFault::Bad(LineFault::NotText)),
    }
}

/// Returns the bytes that a text spells.
fn spelled(alloc: Global, text: &[u8]) -> Result<Vec<u8>, ReadFault>
    ensures { Gives (λ v. v.items) result (spelled text.now) }
{
    let mut bytes = Vec::with_capacity(alloc, text.len())?;
    let mut at = 0;
    while at < text.len() {
        let (byte, len) = first_byte(&text[at..])?;
        bytes.push(byte)?;
        at += len;
    }
    Ok(bytes)
}

/// Returns the byte that the front of a text spells, and how many characters do so.
fn first_byte(text: &[u8]) -> Result<(u8, usize), LineFault>
    requires { 1 ≤ length text.now }
    ensures byte { IfOk result (λ r. byte_of (slice_index text.now 0) (drop 1 text.now) ≡ Ok r.0) }
    ensures len { IfOk result (λ r. r.1 ≡ 1 + more_of (slice_index text.now 0)) }
    ensures within { IfOk result (λ r. r.1 ≤ length text.now) }
    ensures err { IfErr result (λ f. byte_of (slice_index text.now 0) (drop 1 text.now) ≡ Err f) }
{
    let first = text[0];
    if first == b'\\' {
        let byte = escaped(&text[1..])?;
        Ok((byte, 4))
    } else if is_plain(first) {
        Ok((first, 1))
    } else {
        Err(LineFault::BadCharacter)
    }
}

/// Returns whether a byte that is no backslash stands for itself.
fn is_plain(byte: u8) -> bool
    ensures { result ≡ is_plain byte }
{
    byte > b' ' && byte != 0x7f
}

/// Returns the byte of an escape, by what follows its backslash.
fn escaped(text: &[u8]) -> Result<u8, LineFault>
    ensures value { result ≡ escaped text.now }
    ensures long { IfOk result (λ _. 3 ≤ length text.now) }
{
    if text.len() < 3 || text[0] != b'x' {
        return Err(LineFault::BadEscape);
    }
    match (hex_digit(text[1]), hex_digit(text[2])) {
        (Some(high), Some(low)) => Ok(16 * high + low),
        _ => Err(LineFault::BadEscape),
    }
}

/// Returns the number that a byte stands for as a hex digit; `None` if it is none.
fn hex_digit(byte: u8) -> Option<u8>
    ensures value { result ≡ hex_digit_value byte }
    ensures small { IfSome result (λ v. v < 16) }
{
    match byte {
        b'A'..=b'F' => Some(byte - 55),
        b'a'..=b'f' => Some(byte - 87),
        b'0'..=b'9' => Some(byte - 48),
        _ => None,
    }
}
