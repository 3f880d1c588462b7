//! What a whole header says.
ghost use Rattle.std.specs.Prelude.{◌≡◌, ◌≤◌, List, length, take, drop, ℕ, Option, Ok};
ghost use Rattle.byteorder.specs.Endian.{big_number};
ghost use Rattle.amqp_proxy.specs.Headers.{addresses_len, is_local, source_in, source_of, saying, name_behind, name_of, Four, Six, IsAt, IsSource};
ghost use Rattle.amqp_proxy.specs.Streams.{Passed, FaultIs, IsSaid};
ghost use Rattle.amqp_proxy.specs.Tlvs.{Gives};

use crate::faults::ProxyFault;
use crate::name::name_in_ssl;
use crate::progress::FIXED_LEN;
use crate::said::Said;
use crate::tlvs::only;
use byteorder::{BigEndian, ByteOrder};
use std::net::{IpAddr, SocketAddr};

/// The family and the transport: TCP over IPv4.
const TCP_4: u8 = 0x11;

/// TCP over IPv6.
const TCP_6: u8 = 0x21;

/// The type of an SSL TLV.
const SSL: u8 = 0x20;

/// Returns how many bytes the addresses of a family are.
fn addresses_len(family: u8) -> usize
    ensures value { result ≡ addresses_len family }
    ensures most { result ≤ 216 }
{
    match family / 16 {
        1 => 12,
        2 => 36,
        3 => 216,
        _ => 0,
    }
}

/// Returns whether the proxy speaks for itself.
fn is_local(header: &[u8]) -> bool
    requires { 16 ≤ length header.now }
    ensures { result ≡ is_local header.now }
{
    header[12] % 16 == 0
}

/// Returns where the connection comes from; `None` if the header doesn't say it.
#[tactic(auto, unfolding(crate::specs::Headers::source_of))]
pub fn source_of(header: &[u8]) -> Option<SocketAddr>
    requires { 16 ≤ length header.now }
    ensures { IsSource result (source_of header.now) }
{
    if is_local(header) {
        return None;
    }
    source_in(header[13], &header[FIXED_LEN..])
}

/// Returns the source among the addresses.
fn source_in(family: u8, addresses: &[u8]) -> Option<SocketAddr>
    ensures { IsSource result (source_in family addresses.now) }
{
    if addresses.len() < addresses_len(family) {
        return None;
    }
    match family {
        TCP_4 => Some(source_of_four(addresses)),
        TCP_6 => Some(source_of_six(addresses)),
        _ => None,
    }
}

/// Returns the source among addresses of IPv4.
fn source_of_four(addresses: &[u8]) -> SocketAddr
    requires { 12 ≤ length addresses.now }
    ensures { IsAt result (Four (take 4 addresses.now) (big_number 2 (drop 8 addresses.now))) }
{
    let mut octets = [0; 4];
    octets.copy_from_slice(&addresses[..4]);
    SocketAddr::new(IpAddr::from(octets), BigEndian::read_u16(&addresses[8..]))
}

/// Returns the source among addresses of IPv6.
fn source_of_six(addresses: &[u8]) -> SocketAddr
    requires { 36 ≤ length addresses.now }
    ensures { IsAt result (Six (take 16 addresses.now) (big_number 2 (drop 32 addresses.now))) }
{
    let mut octets = [0; 16];
    octets.copy_from_slice(&addresses[..16]);
    SocketAddr::new(IpAddr::from(octets), BigEndian::read_u16(&addresses[32..]))
}

/// Returns the name in the client's certificate, if the header says one and vouches for it.
///
/// # Errors
///
/// - `Malformed` if the addresses or a TLV go beyond the end, or there are two SSL TLVs.
/// - All errors of [`name_in_ssl`].
#[tactic(auto, unfolding(crate::specs::Headers::name_of))]
pub fn name_of(header: &[u8]) -> Result<Option<&str>, ProxyFault>
    requires { 16 ≤ length header.now }
    ensures { Gives result (name_of header.now) }
{
    if is_local(header) {
        return Ok(None);
    }
    name_behind(header[13], &header[FIXED_LEN..])
}

/// Returns the name in what follows the fixed part of a header.
fn name_behind(family: u8, body: &[u8]) -> Result<Option<&str>, ProxyFault>
    ensures { Gives result (name_behind family body.now) }
{
    let len = addresses_len(family);
    if body.len() < len {
        return Err(ProxyFault::Malformed);
    }
    match only(SSL, &body[len..]) {
        Err(fault) => Err(fault),
        Ok(None) => Ok(None),
        Ok(Some(value)) => name_in_ssl(value),
    }
}

/// Returns what is wrong with a header; `None` if nothing is.
pub fn fault_of(header: &[u8]) -> Option<ProxyFault>
    requires { 16 ≤ length header.now }
    ensures { FaultIs result (name_of header.now) }
{
    match name_of(header) {
        Ok(_) => None,
        Err(fault) => Some(fault),
    }
}

/// Returns what a header says that has nothing wrong.
pub fn said_by(header: &[u8]) -> Said<'_>
    requires { 16 ≤ length header.now }
    ensures { (name : Option (List ℕ)) → name_of header.now ≡ Ok name → IsSaid result (Passed (saying (source_of header.now) name)) }
{
    Said {
        source: source_of(header),
        name: name_of(header).unwrap_or(None),
    }
}
