//! The first header of the peer.
ghost use Rattle.std.specs.Prelude.{◌≡◌};
ghost use Rattle.amqp_sasl.specs.Frames.{opening_of};

use crate::offer::Offer;

/// The protocol header of the SASL layer. [5.3]
pub const SASL_HEADER: [u8; 8] = [0x41, 0x4d, 0x51, 0x50, 3, 1, 0, 0];

/// How a header of AMQP itself begins: its name, and protocol id 0. [2.2]
pub const BARE_START: [u8; 5] = [0x41, 0x4d, 0x51, 0x50, 0];

/// What the first bytes of a peer are.
#[derive(Clone, Copy)]
pub enum Opening {
    /// Less than a header.
    Short,
    /// The header of the SASL layer.
    Secured,
    /// A header of AMQP itself, where SASL may be left out.
    Bare,
    /// Any other eight bytes.
    Other,
}

/// Returns what the first bytes of a peer are.
#[tactic(auto, unfolding(crate::specs::Frames::opening_of))]
pub fn opening_of(offer: Offer, bytes: &[u8]) -> Opening
    ensures { result ≡ opening_of offer bytes.now }
{
    if bytes.len() < 8 {
        return Opening::Short;
    }
    if &bytes[..8] == SASL_HEADER.as_slice() {
        return Opening::Secured;
    }
    if offer.optional && &bytes[..5] == BARE_START.as_slice() {
        return Opening::Bare;
    }
    Opening::Other
}
