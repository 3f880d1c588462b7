//! Bytes as pairs of hexadecimal digits. Each byte and each pair is handled by arithmetic only, so that the
//! compiler can handle several at once.

ghost use Rattle.std.specs.Prelude.{◌≡◌, ◌≤◌, ◌<◌, ◌++◌, ◌*◌, ◌/◌, ◌↔◌, ℕ, List, [], length, slice_index, IsTrue, IsOk, OnOk, OnErr, Ok, Some};
ghost use Rattle.std.specs.List.{list_all};
ghost use Rattle.hex.specs.Hex.{decode_of, encode_lower, hex_digit_value, is_hex_digit, lower_digits};

use std::alloc::AllocError;

/// Returns whether a text is one or more pairs of digits, in upper or lower case.
pub fn is_hex(text: &[u8]) -> bool
    ensures { IsTrue result ↔ (1 ≤ length text.now) × IsOk (decode_of text.now) }
{
    !text.is_empty() && text.len() % 2 == 0 && are_digits(text)
}

/// Returns whether all bytes are digits. It looks at all of them, without an early exit at the first that is
/// none.
fn are_digits(text: &[u8]) -> bool
    ensures { result ≡ list_all is_hex_digit text.now }
{
    let mut all = true;
    for byte in text {
        all &= is_digit(*byte);
    }
    all
}

fn is_digit(byte: u8) -> bool
    ensures { result ≡ is_hex_digit byte }
{
    (byte.wrapping_sub(b'0') < 10) | ((byte | 0x20).wrapping_sub(b'a') < 6)
}

/// Returns the number that a byte stands for as a digit; `None` if it is none.
pub fn hex_digit(byte: u8) -> Option<u8> {
    if is_digit(byte) {
        Some(value_of(byte))
    } else {
        None
    }
}

/// Returns the number that a digit stands for.
fn value_of(digit: u8) -> u8
    ensures { (v : ℕ) → hex_digit_value digit ≡ Some v → result ≡ v }
{
    (digit & 0xf).wrapping_add((digit >> 6).wrapping_mul(9)) & 0xf
}

/// Returns the lower-case digit of a number below 16.
fn digit_of(number: u8) -> u8
    ensures { number < 16 → result ≡ slice_index lower_digits number }
{
    let behind = if number > 9 { b'a' - b'0' - 10 } else { 0 };
    number.wrapping_add(b'0').wrapping_add(behind)
}

/// Makes `out` the bytes that the pairs of digits in `text` stand for. If memory is refused, `out` is empty.
pub fn read_hex(out: &mut Vec<u8>, text: &[u8]) -> Result<(), AllocError>
    ensures read { (bytes : List ℕ) → decode_of text.now ≡ Ok bytes → OnOk result (out.new.items ≡ bytes) }
    ensures len { OnOk result (length out.new.items ≡ length text.now / 2) }
    ensures emptied { OnErr result (out.new.items ≡ []) }
{
    out.clear();
    out.resize(text.len() / 2, 0)?;
    read_pairs(out, text);
    Ok(())
}

/// Reads a pair of digits for each place of `out`.
fn read_pairs(out: &mut [u8], text: &[u8])
    requires { length out.old ≡ length text.now / 2 }
    ensures len { length out.new ≡ length out.old }
    ensures read { (bytes : List ℕ) → decode_of text.now ≡ Ok bytes → out.new ≡ bytes }
{
    let (pairs, _) = text.as_chunks::<2>();
    // Pairs from an iterator are loaded many at once. By index, as in `pairs[index]`, each byte would be loaded
    // by itself.
    for (index, pair) in (0..out.len()).zip(pairs) {
        let [high, low] = *pair;
        out[index] = value_of(high) << 4 | value_of(low);
    }
}

/// Appends the digits of bytes. If memory is refused, nothing is appended.
pub fn put_hex(out: &mut Vec<u8>, bytes: &[u8]) -> Result<(), AllocError>
    ensures put { OnOk result (out.new.items ≡ out.old.items ++ encode_lower bytes.now) }
    ensures kept { OnErr result (out.new.items ≡ out.old.items) }
{
    let start = out.len();
    out.resize(start.saturating_add(bytes.len().saturating_mul(2)), 0)?;
    put_pairs(&mut out[start..], bytes);
    Ok(())
}

/// Writes a pair of digits for each byte.
fn put_pairs(out: &mut [u8], bytes: &[u8])
    requires { length out.old ≡ 2 * length bytes.now }
    ensures { out.new ≡ encode_lower bytes.now }
{
    for index in 0..bytes.len() {
        out[2 * index] = digit_of(bytes[index] >> 4);
        out[2 * index + 1] = digit_of(bytes[index] & 0xf);
    }
}
