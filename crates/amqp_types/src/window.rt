//! Where the bytes at hand end, and which fault it is to reach past them.

ghost use Rattle.std.specs.Prelude.{◌≡◌, ◌≤◌, length};
ghost use Rattle.byteorder.specs.Endian.{big_number};

use crate::fault::ReadFault;
use byteorder::{BigEndian, ByteOrder};

/// A part that reaches past the bytes has the fault `short`; the bytes end at place `end`.
#[derive(Clone, Copy)]
pub struct Window {
    pub short: ReadFault,
    pub end: usize,
}

impl Window {
    ghost use Rattle.std.specs.Prelude.{◌≡◌, ◌+◌, ◌≤◌, ◌<◌, ◌^◌, length, IfOk};
    ghost use Rattle.amqp_types.specs.InHand.{outermost, place};
    ghost use Rattle.amqp_types.specs.Reading.{Is, octets_at, big_at};

    pub fn of(bytes: &[u8]) -> Window
        ensures { result ≡ outermost bytes.now }
    {
        Window {
            short: ReadFault::Truncated(bytes.len()),
            end: bytes.len(),
        }
    }

    /// Returns the place where the bytes that are left begin.
    pub fn place(self, bytes: &[u8]) -> usize
        requires { length bytes.now ≤ self.end }
        ensures { result ≡ place self bytes.now }
    {
        self.end - bytes.len()
    }

    /// Returns the next `n` bytes, and the bytes after them.
    pub fn octets(self, n: usize, bytes: &[u8]) -> Result<(&[u8], &[u8]), ReadFault>
        ensures read { Is (λ x. (x.0.now, x.1.now)) result (octets_at self n bytes.now) }
        ensures parts { IfOk result (λ x. (length x.0.now ≡ n) × (length x.1.now + n ≡ length bytes.now)) }
    {
        if bytes.len() < n {
            return Err(self.short);
        }
        Ok(bytes.split_at(n))
    }

    /// Returns the number in the next `n` bytes, big-endian, and the bytes after them.
    pub fn big(self, n: usize, bytes: &[u8]) -> Result<(u64, &[u8]), ReadFault>
        requires some { 1 ≤ n }
        requires eight { n ≤ 8 }
        ensures read { Is (λ x. (x.0, x.1.now)) result (big_at self n bytes.now) }
        ensures fits { IfOk result (λ x. x.0 < 256 ^ n) }
        ensures rest { IfOk result (λ x. length x.1.now + n ≡ length bytes.now) }
    {
        if bytes.len() < n {
            return Err(self.short);
        }
        Ok((front_number(n, bytes), &bytes[n..]))
    }
}

/// Returns the number in the first `n` bytes, big-endian. Most are sizes and counts of 1 or 4
/// bytes.
fn front_number(n: usize, bytes: &[u8]) -> u64
    requires some { 1 ≤ n }
    requires eight { n ≤ 8 }
    requires within { n ≤ length bytes.now }
    ensures { result ≡ big_number n bytes.now }
{
    match n {
        1 => u64::from(bytes[0]),
        4 => u64::from(BigEndian::read_u32(bytes)),
        _ => BigEndian::read_uint(bytes, n),
    }
}
