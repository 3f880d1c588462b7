//! What the target of a link is, as a spool keeps it.

use amqp_spool::Introduction;

/// What the target of a link is.
#[derive(Clone, Copy, Debug, PartialEq, Eq)]
pub enum Target<'a> {
    /// Its address.
    Address(&'a [u8]),
    /// The sender asks for a node to be made.
    Dynamic,
    /// There is no target, or it has no address.
    None,
    /// Anything else, encoded.
    Other(&'a [u8]),
}

/// Returns the target of an introduction.
pub fn target_of<'a>(from: &Introduction<'a>) -> Target<'a> {
    match from.kind {
        0 => Target::Address(from.target),
        1 => Target::Dynamic,
        2 => Target::None,
        _ => Target::Other(from.target),
    }
}

/// Returns whether the target has this address. Without one each does.
pub fn is_at(from: &Introduction<'_>, address: Option<&str>) -> bool {
    match address {
        None => true,
        Some(address) => target_of(from) == Target::Address(address.as_bytes()),
    }
}
