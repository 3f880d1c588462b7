//! How far a header has come.
ghost use Rattle.std.specs.Prelude.{◌≡◌, ◌≤◌, length};
ghost use Rattle.amqp_proxy.specs.Headers.{is_signed, rest_len, progress_of};

use crate::faults::ProxyFault;
use byteorder::{BigEndian, ByteOrder};

/// How each header begins.
pub const SIGNATURE: [u8; 12] = *b"\r\n\r\n\x00\r\nQUIT\n";

/// How many bytes of the header's fixed part stand before what its length covers.
pub const FIXED_LEN: usize = 16;

/// The most bytes that may follow them.
const MOST_REST: usize = 520;

/// How far a header has come.
#[derive(Clone, Copy)]
pub enum Progress {
    /// It is not whole.
    Short,
    /// It is none.
    Bad(ProxyFault),
    /// It is whole.
    Whole,
}

/// Returns whether these bytes, up to the twelfth, are those of the signature.
fn is_signed(bytes: &[u8]) -> bool
    ensures { result ≡ is_signed bytes.now }
{
    let len = bytes.len().min(SIGNATURE.len());
    &bytes[..len] == &SIGNATURE[..len]
}

/// Returns how many bytes follow the fixed part, which is there.
#[tactic(auto, unfolding(crate::specs::Headers::rest_len))]
fn rest_len(bytes: &[u8]) -> usize
    requires { 16 ≤ length bytes.now }
    ensures { result ≡ rest_len bytes.now }
{
    BigEndian::read_u16(&bytes[14..]) as usize
}

/// Returns how far the header has come that these bytes begin with.
#[tactic(auto, unfolding(crate::specs::Headers::progress_of))]
pub fn progress_of(bytes: &[u8]) -> Progress
    ensures value { result ≡ progress_of bytes.now }
    ensures whole { result ≡ Progress.Whole → 16 ≤ length bytes.now }
{
    if !is_signed(bytes) {
        return Progress::Bad(ProxyFault::Signature);
    }
    if bytes.len() < 13 {
        return Progress::Short;
    }
    if bytes[12] / 16 != 2 {
        return Progress::Bad(ProxyFault::Version);
    }
    if bytes[12] % 16 > 1 {
        return Progress::Bad(ProxyFault::Command);
    }
    if bytes.len() < FIXED_LEN {
        return Progress::Short;
    }
    let rest = rest_len(bytes);
    if rest > MOST_REST {
        return Progress::Bad(ProxyFault::TooLong);
    }
    if bytes.len() < FIXED_LEN + rest {
        return Progress::Short;
    }
    Progress::Whole
}
