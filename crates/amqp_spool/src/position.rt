//! The position of a consumer: up to which number it has acknowledged the records of a spool.
ghost use Rattle.std.specs.Prelude.{◌≡◌, ◌≢◌, ◌+◌, ◌*◌, ◌≤◌, ◌<◌, ◌^◌, ◌++◌, ℕ, List, length, take, None, Some, IfSome, IsTrue, ◌↔◌};
ghost use Rattle.hex.specs.Hex.{IsBytes, encode_lower};
ghost use Rattle.amqp_spool.specs.Digits.{last_digits};
ghost use Rattle.amqp_spool.specs.Positions.{IsPosition, position_front, position_text, IsName, is_letter_or_digit, is_name_char};

use crate::head::put;
use crate::sum::sum_of;
use std::str;

/// How many bytes the text of a position has.
pub const POSITION: usize = 71;

/// How many bytes of it the sum is of.
const FRONT: usize = 53;

/// How many decimal digits a number has in it.
const DIGITS: usize = 20;

/// The most characters that the name of a consumer has.
const NAME_MOST: usize = 64;

/// Up to which number a consumer has acknowledged the records of a spool.
#[derive(Clone, Copy, Debug, PartialEq, Eq)]
pub struct Position {
    /// The spool.
    pub spool: [u8; 16],
    /// The number of the last record that was acknowledged; 0 if none was.
    pub number: u64,
}

impl Position {
    /// Returns its text, a line: the spool in lower-case hex, the number in 20 decimal digits, and the sum in hex.
    #[tactic(auto, unfolding(crate::specs::Positions::position_text))]
    pub fn to_bytes(&self) -> [u8; POSITION]
        ensures { result ≡ position_text self.now }
    {
        let mut bytes = [0; POSITION];
        let front = self.front();
        let sum = sum_of(&self.spool, &front, &[]).to_be_bytes();
        put(&mut bytes, 0, &front);
        put(&mut bytes, FRONT, b" ");
        put_hex(&mut bytes, FRONT + 1, &sum);
        put(&mut bytes, POSITION - 1, b"\n");
        bytes
    }

    /// Reads a position. Returns `None` if these bytes are the text of none.
    pub fn read(bytes: &[u8]) -> Option<Position>
        ensures some { IfSome result (λ p. bytes.now ≡ position_text p) }
        ensures none { result ≡ None → (p : Position) → IsPosition p → bytes.now ≢ position_text p }
    {
        if bytes.len() != POSITION {
            return None;
        }
        let spool = spool_in(&bytes[..32])?;
        let number = number_in(&bytes[33..FRONT])?;
        let position = Position { spool, number };
        if position.to_bytes().as_slice() == bytes {
            Some(position)
        } else {
            None
        }
    }

    /// Returns its text up to the sum, without the space before that.
    #[tactic(auto, unfolding(crate::specs::Positions::position_front))]
    fn front(&self) -> [u8; FRONT]
        ensures { result ≡ position_front self.now }
    {
        let mut bytes = [0; FRONT];
        put_hex(&mut bytes, 0, &self.spool);
        put(&mut bytes, 32, b" ");
        put(&mut bytes, 33, &digits_of(self.number));
        bytes
    }
}

/// Copies the text of some bytes in lower-case hex into `out`, from `at` on.
fn put_hex(out: &mut [u8], at: usize, bytes: &[u8])
    requires { at + 2 * length bytes.now ≤ length out.old }
    ensures length { length out.new ≡ length out.old }
    ensures written { take (at + 2 * length bytes.now) out.new ≡ take at out.old ++ encode_lower bytes.now }
{
    match hex::encode_to_slice(bytes, &mut out[at..at + 2 * bytes.len()]) {
        Ok(()) => {}
        Err(_) => unreachable!(),
    }
}

/// Returns a number in 20 decimal digits, with zeros in front.
fn digits_of(number: u64) -> [u8; DIGITS]
    ensures { result ≡ last_digits 20 number }
{
    let mut digits = [0; DIGITS];
    let mut front = number;
    let mut place = DIGITS;
    'digits: while place > 0 {
        place -= 1;
        digits[place] = b'0' + (front % 10) as u8;
        front /= 10;
    }
    digits
}

/// Returns the spool whose text in hex this is. The letters may be upper-case too.
fn spool_in(text: &[u8]) -> Option<[u8; 16]>
    ensures { (id : List ℕ) → length id ≡ 16 → IsBytes id → text.now ≡ encode_lower id → result ≡ Some id }
{
    let mut id = [0; 16];
    hex::decode_to_slice(text, &mut id).ok()?;
    Some(id)
}

/// Returns the number whose decimal digits these are. There may be a plus in front.
fn number_in(digits: &[u8]) -> Option<u64>
    ensures { (n : ℕ) → n < 2 ^ 64 → digits.now ≡ last_digits 20 n → result ≡ Some n }
{
    str::from_utf8(digits).ok()?.parse::<u64>().ok()
}

/// Returns whether this may be the name of a consumer: 1 to 64 characters of `a-z`, `0-9`, `-` and `_`, the first a
/// letter or a digit.
pub fn is_name(name: &str) -> bool
    ensures { IsTrue result ↔ IsName name.now }
{
    let bytes = name.as_bytes();
    match bytes.first() {
        Some(first) => {
            bytes.len() <= NAME_MOST
                && is_letter_or_digit(*first)
                && bytes.iter().all(|byte| is_name_char(*byte))
        }
        None => false,
    }
}

fn is_letter_or_digit(byte: u8) -> bool
    ensures { result ≡ is_letter_or_digit byte }
{
    matches!(byte, b'a'..=b'z' | b'0'..=b'9')
}

/// Returns whether a name may have this byte after the first.
fn is_name_char(byte: u8) -> bool
    ensures { result ≡ is_name_char byte }
{
    is_letter_or_digit(byte) || byte == b'-' || byte == b'_'
}
