//! The TLVs of a header.
ghost use Rattle.std.specs.Prelude.{◌≡◌, ◌≤◌, length, None, MatchOption};
ghost use Rattle.amqp_proxy.specs.Tlvs.{only, tlvs_of, Gives, IsFirst};

use crate::faults::ProxyFault;
use byteorder::{BigEndian, ByteOrder};

/// How many bytes of a TLV stand before its value: its type, and its length.
const TLV_LEN: usize = 3;

/// Returns the value of the only TLV of this type, if there is one.
///
/// # Errors
///
/// `Malformed` if there are two of them, or a TLV goes beyond the end.
pub fn only(kind: u8, bytes: &[u8]) -> Result<Option<&[u8]>, ProxyFault>
    ensures { Gives result (only kind bytes.now) }
{
    let mut found: Option<&[u8]> = None;
    let mut at = 0;
    while at < bytes.len() {
        let Some((first, value)) = first_tlv(&bytes[at..]) else {
            return Err(ProxyFault::Malformed);
        };
        if first == kind {
            if found.is_some() {
                return Err(ProxyFault::Malformed);
            }
            found = Some(value);
        }
        at += TLV_LEN + value.len();
    }
    Ok(found)
}

/// Returns the type and the value of the first TLV, unless it goes beyond the end.
fn first_tlv(bytes: &[u8]) -> Option<(u8, &[u8])>
    requires { 1 ≤ length bytes.now }
    ensures { MatchOption result (tlvs_of bytes.now ≡ None) (λ r. IsFirst bytes.now r.0 r.1.now) }
{
    if bytes.len() < TLV_LEN {
        return None;
    }
    let len = BigEndian::read_u16(&bytes[1..]) as usize;
    if bytes.len() < TLV_LEN + len {
        return None;
    }
    Some((bytes[0], &bytes[TLV_LEN..TLV_LEN + len]))
}
