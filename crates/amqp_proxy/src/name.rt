//! The name in the client's certificate.
ghost use Rattle.std.specs.Prelude.{◌≡◌, ◌≤◌, length};
ghost use Rattle.amqp_proxy.specs.Headers.{is_vouched, judged, name_in_ssl};
ghost use Rattle.amqp_proxy.specs.Tlvs.{Gives};

use crate::faults::ProxyFault;
use crate::tlvs::only;
use byteorder::{BigEndian, ByteOrder};
use std::str;

/// The type of the TLV with the common name, within an SSL TLV.
const COMMON_NAME: u8 = 0x22;

/// The client sent a certificate, on this connection or in this session.
const CLIENT_CERT: u8 = 0x02 | 0x04;

/// How many bytes of an SSL TLV stand before its own TLVs: the flags of the client, and `verify`.
const SSL_LEN: usize = 5;

/// The most bytes of a name.
const MOST_NAME: usize = 255;

/// Returns the name in the value of an SSL TLV, if the client sent a certificate that was verified.
///
/// # Errors
///
/// - `Malformed` if it has less than 5 bytes, two names, or a TLV that goes beyond its end.
/// - `NameEmpty`, `NameTooLong` or `NameNotText` if the name that it would return is so.
#[tactic(auto, unfolding(crate::specs::Headers::name_in_ssl))]
pub fn name_in_ssl(value: &[u8]) -> Result<Option<&str>, ProxyFault>
    ensures { Gives result (name_in_ssl value.now) }
{
    if value.len() < SSL_LEN {
        return Err(ProxyFault::Malformed);
    }
    match only(COMMON_NAME, &value[SSL_LEN..]) {
        Err(fault) => Err(fault),
        Ok(Some(name)) if is_vouched(value) => judged(name),
        Ok(_) => Ok(None),
    }
}

/// Returns whether the client sent a certificate that was verified.
fn is_vouched(value: &[u8]) -> bool
    requires { 5 ≤ length value.now }
    ensures { result ≡ is_vouched value.now }
{
    value[0] & CLIENT_CERT != 0 && BigEndian::read_u32(&value[1..]) == 0
}

/// Returns a name as text.
fn judged(name: &[u8]) -> Result<Option<&str>, ProxyFault>
    ensures { Gives result (judged name.now) }
{
    if name.is_empty() {
        return Err(ProxyFault::NameEmpty);
    }
    if name.len() > MOST_NAME {
        return Err(ProxyFault::NameTooLong);
    }
    match str::from_utf8(name) {
        Ok(text) => Ok(Some(text)),
        Err(_) => Err(ProxyFault::NameNotText),
    }
}
