//! Numbers and bytes, as `dump` prints them. Whole lines that wait are unchanged.

ghost use Rattle.std.specs.Prelude.{◌≡◌, ◌≤◌, length};

use crate::page::Page;
use uuid::Uuid;

/// The most bytes of a binary whose digits are put four bytes at a time.
const FEW: usize = 16;

/// How many bytes of a longer binary are turned into digits at a time.
const RUN: usize = 64;

/// The digit zero in each of eight bytes.
const ZEROS: u64 = 0x3030_3030_3030_3030;

/// A one, a space, and the high bit in each of eight bytes.
const ONES: u64 = 0x0101_0101_0101_0101;

const SPACES: u64 = 0x2020_2020_2020_2020;

const HIGH_BITS: u64 = 0x8080_8080_8080_8080;

/// Numbers below this have at most eight digits.
const EIGHT_DIGITS: u64 = 100_000_000;

/// Numbers below this have at most sixteen digits.
const SIXTEEN_DIGITS: u64 = 10_000_000_000_000_000;

/// Appends a number in decimal digits.
#[inline(always)]
pub fn put_number(out: &mut Page, number: u64)
    ensures { out.new.whole ≡ out.old.whole }
{
    if number < 10 {
        out.put_byte(b'0' + (number % 10) as u8);
    } else if number < EIGHT_DIGITS {
        put_eight(out, number);
    } else {
        put_digits(out, number);
    }
}

/// Appends a number of at most eight digits, other than 0, in decimal digits.
fn put_eight(out: &mut Page, number: u64)
    ensures { out.new.whole ≡ out.old.whole }
{
    let digits = digits_of(number);
    let zeros = (digits.trailing_zeros() / 8).min(7);
    let text = (digits | ZEROS) >> (8 * zeros);
    out.put_front(&text.to_le_bytes(), (8 - zeros) as usize);
}

/// Appends a longer number in decimal digits: of at most sixteen, or of more before the last sixteen.
fn put_digits(out: &mut Page, number: u64)
    ensures { out.new.whole ≡ out.old.whole }
{
    if number >= SIXTEEN_DIGITS {
        put_eight(out, number / SIXTEEN_DIGITS);
        out.put(&sixteen_of(number % SIXTEEN_DIGITS, 0).to_le_bytes());
        return;
    }
    let zeros = (digits_of(number / EIGHT_DIGITS).trailing_zeros() / 8).min(7);
    out.put_front(
        &sixteen_of(number, zeros).to_le_bytes(),
        (16 - zeros) as usize,
    );
}

/// Returns the text of sixteen digits, its first byte the lowest, without the first `zeros` of them.
fn sixteen_of(number: u64, zeros: u32) -> u128
    requires { zeros ≤ 7 }
{
    let front = digits_of(number / EIGHT_DIGITS) | ZEROS;
    let last = digits_of(number % EIGHT_DIGITS) | ZEROS;
    (u128::from(front) | u128::from(last) << 64) >> (8 * zeros)
}

/// Returns the eight digits of a number below [`EIGHT_DIGITS`], one a byte, the first in the lowest. The number is
/// cut into halves, both halves at once into pairs, and all pairs into digits. `10_486 >> 20` and `103 >> 10` stand
/// for a hundredth and a tenth.
fn digits_of(number: u64) -> u64 {
    let halves = number / 10_000 | (number % 10_000) << 32;
    let hundreds = (halves.wrapping_mul(10_486) >> 20) & 0x0000_007f_0000_007f;
    let pairs = hundreds | halves.wrapping_sub(hundreds.wrapping_mul(100)) << 16;
    let tens = (pairs.wrapping_mul(103) >> 10) & 0x000f_000f_000f_000f;
    tens | pairs.wrapping_sub(tens.wrapping_mul(10)) << 8
}

/// Appends a number of `width` bytes in two's complement.
pub fn put_signed(out: &mut Page, width: usize, number: u64)
    ensures { out.new.whole ≡ out.old.whole }
{
    let half = match width {
        1 => 0x80,
        2 => 0x8000,
        4 => 0x8000_0000,
        _ => 0x8000_0000_0000_0000_u64,
    };
    if number < half {
        put_number(out, number);
    } else {
        out.put_byte(b'-');
        put_number(out, half.saturating_sub(number - half));
    }
}

/// Appends bytes in lower-case hex.
pub fn put_hex(out: &mut Page, bytes: &[u8])
    ensures { out.new.whole ≡ out.old.whole }
{
    if bytes.len() <= FEW {
        put_few(out, bytes);
        return;
    }
    for run in bytes.chunks(RUN) {
        if out.lacks() {
            break;
        }
        put_run(out, run);
    }
}

/// Appends two digits for each byte, four bytes at a time.
fn put_few(out: &mut Page, bytes: &[u8])
    ensures { out.new.whole ≡ out.old.whole }
{
    for four in bytes.chunks(4) {
        put_four(out, four);
    }
}

/// Appends two digits for each of at most four bytes.
#[inline(always)]
fn put_four(out: &mut Page, bytes: &[u8])
    ensures { out.new.whole ≡ out.old.whole }
{
    let four = match *bytes {
        [a, b, c, d] => [a, b, c, d],
        [a, b, c] => [a, b, c, 0],
        [a, b] => [a, b, 0, 0],
        [a] => [a, 0, 0, 0],
        _ => return,
    };
    out.put_front(&hex_of(four), bytes.len().saturating_mul(2));
}

/// Appends two digits for each of at most [`RUN`] bytes.
fn put_run(out: &mut Page, bytes: &[u8])
    requires { length bytes.now ≤ RUN }
    ensures { out.new.whole ≡ out.old.whole }
{
    let mut room = [0u8; 2 * RUN];
    let digits = &mut room[..2 * bytes.len()];
    match hex::encode_to_slice(bytes, digits) {
        Ok(()) => out.put(digits),
        Err(_) => unreachable!(),
    }
}

/// Appends the hyphenated form of a uuid's 16 bytes; nothing for any other number of bytes.
pub fn put_uuid(out: &mut Page, bytes: &[u8])
    ensures { out.new.whole ≡ out.old.whole }
{
    let Ok(id) = Uuid::from_slice(bytes) else {
        return;
    };
    let mut room = Uuid::encode_buffer();
    out.put(id.hyphenated().encode_lower(&mut room).as_bytes());
}

/// Appends `"bytes"`. Printable ASCII stands for itself, but a quote, a backslash and every other byte are
/// written as `\x` and two hex digits.
pub fn put_quoted(out: &mut Page, bytes: &[u8])
    ensures { out.new.whole ≡ out.old.whole }
{
    out.put_byte(b'"');
    let plain = plain_len(bytes);
    if plain == bytes.len() {
        out.put(bytes);
    } else {
        put_escaped(out, bytes, plain);
    }
    out.put_byte(b'"');
}

/// Appends bytes of which the first `plain` stand for themselves, in runs of such bytes and of others.
#[inline(never)]
fn put_escaped(out: &mut Page, bytes: &[u8], plain: usize)
    requires { plain ≤ length bytes.now }
    ensures { out.new.whole ≡ out.old.whole }
{
    put_plain(out, bytes, plain);
    let mut at = plain;
    while at < bytes.len() && !out.lacks() {
        at += put_escapes(out, &bytes[at..]);
        let rest = &bytes[at..];
        let plain = plain_len(rest);
        put_plain(out, rest, plain);
        at += plain;
    }
}

/// Appends the first `len` bytes, which stand for themselves.
// Without `inline`, `texts` takes 1.6 in 100 more instructions.
#[inline(always)]
fn put_plain(out: &mut Page, bytes: &[u8], len: usize)
    requires { len ≤ length bytes.now }
    ensures { out.new.whole ≡ out.old.whole }
{
    // Eight bytes are copied without a call.
    match bytes.first_chunk::<8>() {
        Some(eight) if len <= 8 => out.put_front(eight, len),
        _ => out.put(&bytes[..len]),
    }
}

/// Appends the bytes at the front that don't stand for themselves, the first included, and returns how many these are.
fn put_escapes(out: &mut Page, bytes: &[u8]) -> usize
    ensures within { result ≤ length bytes.now }
    ensures some { 1 ≤ length bytes.now → 1 ≤ result }
    ensures whole { out.new.whole ≡ out.old.whole }
{
    for (index, byte) in bytes.iter().enumerate() {
        if index > 0 && is_plain(*byte) {
            return index;
        }
        out.put(&escaped(*byte));
    }
    bytes.len()
}

/// Returns how many bytes at the front stand for themselves.
fn plain_len(bytes: &[u8]) -> usize
    ensures { result ≤ length bytes.now }
{
    let (words, rest) = bytes.as_chunks::<8>();
    for (index, word) in words.iter().enumerate() {
        let flags = flags_of(u64::from_le_bytes(*word));
        if flags != 0 {
            return (8 * index + flags.trailing_zeros() as usize / 8).min(bytes.len());
        }
    }
    let word = rest
        .iter()
        .rev()
        .fold(SPACES, |word, byte| word << 8 | u64::from(*byte));
    let plain = flags_of(word).trailing_zeros() as usize / 8;
    8 * words.len() + plain.min(rest.len())
}

/// Whether a byte stands for itself.
fn is_plain(byte: u8) -> bool {
    flags_of(u64::from(byte) | SPACES << 8) == 0
}

/// Returns the escape of a byte that doesn't stand for itself.
fn escaped(byte: u8) -> [u8; 4] {
    let [high, low, ..] = hex_of([byte, 0, 0, 0]);
    [b'\\', b'x', high, low]
}

/// Returns which of eight bytes don't stand for themselves: those that are no printable ASCII, a quote and a backslash. It is 0
/// if all do. The lowest bit set is the high bit of the first such byte. Those above it may flag others too, since what is taken
/// from one byte is borrowed from the next.
fn flags_of(word: u64) -> u64 {
    let controls = word.wrapping_sub(SPACES);
    let delete = word.wrapping_add(ONES);
    let quotes = (word ^ (ONES * 0x22)).wrapping_sub(ONES);
    let backslashes = (word ^ (ONES * 0x5c)).wrapping_sub(ONES);
    (controls | delete | quotes | backslashes | word) & HIGH_BITS
}

/// Returns the eight hex digits of four bytes: their halves, the first in the lowest byte; those above 9 become letters.
fn hex_of(bytes: [u8; 4]) -> [u8; 8] {
    let word = u32::from_le_bytes(bytes) as u64;
    let pairs = (word | word << 16) & 0x0000_ffff_0000_ffff;
    let bytes = (pairs | pairs << 8) & 0x00ff_00ff_00ff_00ff;
    let halves = (bytes >> 4 | bytes << 8) & 0x0f0f_0f0f_0f0f_0f0f;
    let letters = (halves.wrapping_add(0x0606_0606_0606_0606) >> 4) & 0x0101_0101_0101_0101;
    let digits = halves | ZEROS;
    digits
        .wrapping_add(letters.wrapping_mul(0x27))
        .to_le_bytes()
}

/// Returns the number in the bytes, big-endian; of more than eight bytes the last ones count.
pub fn number_in(bytes: &[u8]) -> u64 {
    match *bytes {
        [a] => u64::from(a),
        [a, b] => u64::from(u16::from_be_bytes([a, b])),
        [a, b, c, d] => u64::from(u32::from_be_bytes([a, b, c, d])),
        [a, b, c, d, e, f, g, h] => u64::from_be_bytes([a, b, c, d, e, f, g, h]),
        _ => bytes
            .iter()
            .fold(0u64, |number, byte| (number << 8) | u64::from(*byte)),
    }
}
