//! Texts in what a peer sent: its own errors, and its open.

use amqp_types::skip;

/// How deep a descriptor may be.
const DEPTH: usize = 32;

/// An error that the peer gave. [2.8.14]
#[derive(Clone, Copy, Debug, PartialEq, Eq)]
pub struct PeerError<'a> {
    pub condition: &'a [u8],
    pub description: Option<&'a [u8]>,
}

/// Returns the error that the bytes spell, or `None` if they spell none. It is a described list that begins with a
/// symbol, and may go on with a string. [2.8.14]
pub fn error_in(bytes: &[u8]) -> Option<PeerError<'_>> {
    let (condition, rest) = text_at(described_items(bytes)?)?;
    Some(PeerError {
        condition,
        description: text_in(rest),
    })
}

/// Returns the error of the state rejected, or `None` if it has none. Such a state is a described list that begins with
/// an error. [3.4.3]
pub fn rejection_in(state: &[u8]) -> Option<PeerError<'_>> {
    error_in(described_items(state)?)
}

/// Returns the items of the described list at the front.
fn described_items(bytes: &[u8]) -> Option<&[u8]> {
    let (0, descriptor) = bytes.split_first()? else {
        return None;
    };
    let len = skip(descriptor, DEPTH).ok()?;
    items_in(&descriptor[len..])
}

/// Returns the items of the list at the front. [1.6.22]
fn items_in(list: &[u8]) -> Option<&[u8]> {
    match list.first()? {
        0xc0 => list.get(3..),
        0xd0 => list.get(9..),
        _ => None,
    }
}

/// Returns the bytes of the string or the symbol at the front, if there is one. [1.6.20, 1.6.21]
pub fn text_in(bytes: &[u8]) -> Option<&[u8]> {
    Some(text_at(bytes)?.0)
}

/// Returns the bytes of the string or the symbol at the front, if there is one, and the bytes after it. [1.6.20,
/// 1.6.21]
fn text_at(bytes: &[u8]) -> Option<(&[u8], &[u8])> {
    let (code, rest) = bytes.split_first()?;
    let (len, rest) = match *code {
        0xa1 | 0xa3 => {
            let (len, rest) = rest.split_first()?;
            (usize::from(*len), rest)
        }
        0xb1 | 0xb3 => {
            let (len, rest) = rest.split_first_chunk::<4>()?;
            (u32::from_be_bytes(*len) as usize, rest)
        }
        _ => return None,
    };
    if rest.len() < len {
        return None;
    }
    Some(rest.split_at(len))
}
