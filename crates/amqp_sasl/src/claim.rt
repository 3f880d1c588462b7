//! Who the peer says it is. [5.3.3.2]
ghost use Rattle.std.specs.Prelude.{◌≡◌};
ghost use Rattle.std.specs.List.{position, list_any};
ghost use Rattle.std.specs.Option.{option_map, option_copied};
ghost use Rattle.amqp_sasl.specs.Claims.{IsClaim, IsStated, is_nul, cut, plain_in, plain_stated, stated_by};

use crate::offer::Offer;
use crate::sasl_init::SaslInit;

/// The names of the mechanisms. [RFC 4505, RFC 4616, RFC 4422]
pub const ANONYMOUS: [u8; 9] = *b"ANONYMOUS";

pub const PLAIN: [u8; 5] = *b"PLAIN";

pub const EXTERNAL: [u8; 8] = *b"EXTERNAL";

/// Who the peer says it is, borrowed from the bytes that are kept.
#[derive(Clone, Copy)]
pub enum Login<'a> {
    /// It does not say. What it calls itself may be empty. [RFC 4505]
    Anonymous {
        trace: &'a [u8],
    },
    /// A user with a password. It wants to act as `authzid`, or as the user if that is empty. [RFC 4616]
    Plain {
        authzid: &'a [u8],
        user: &'a [u8],
        password: &'a [u8],
    },
    /// The host knows who it is. It wants to act as `authzid`, or as itself if that is empty. [RFC 4422]
    External {
        authzid: &'a [u8],
    },
}

/// What a `sasl-init` says of its peer.
#[derive(Clone, Copy)]
pub enum Said<'a> {
    /// Its mechanism is not offered, or its response is not one of the mechanism.
    Unfit,
    /// Its mechanism needs a response, which is due.
    Lacks,
    Claims(Login<'a>),
}

/// Returns the place of the first NUL.
fn nul_in(bytes: &[u8]) -> Option<usize>
    ensures { result ≡ position is_nul bytes.now }
{
    bytes.iter().position(|b| *b == 0)
}

/// Whether there is a NUL.
fn has_nul(bytes: &[u8]) -> bool
    ensures { result ≡ list_any is_nul bytes.now }
{
    bytes.iter().any(|b| *b == 0)
}

/// Returns the bytes before the first NUL and those after it.
fn cut(bytes: &[u8]) -> Option<(&[u8], &[u8])>
    ensures { option_map (λ parts. (parts.0.now, parts.1.now)) result ≡ cut bytes.now }
{
    match nul_in(bytes) {
        Some(place) => Some((&bytes[..place], &bytes[place + 1..])),
        None => None,
    }
}

/// Reads the response of PLAIN: an identity, NUL, a user, NUL, and a password; only the identity may be empty. [RFC 4616]
pub fn plain_in(response: &[u8]) -> Option<Login<'_>>
    ensures { IsClaim result (plain_in response.now) }
{
    let (authzid, rest) = cut(response)?;
    let (user, password) = cut(rest)?;
    if user.is_empty() || password.is_empty() || has_nul(password) {
        return None;
    }
    Some(Login::Plain {
        authzid,
        user,
        password,
    })
}

/// Returns what PLAIN says, whose response may come later. [5.3.3.3]
fn said_by_plain(response: Option<&[u8]>) -> Said<'_>
    ensures { IsStated result (plain_stated (option_copied response.entry)) }
{
    match response {
        Some(bytes) => match plain_in(bytes) {
            Some(login) => Said::Claims(login),
            None => Said::Unfit,
        },
        None => Said::Lacks,
    }
}

/// Returns what a `sasl-init` says. An absent response of ANONYMOUS or EXTERNAL is empty.
pub fn said_by<'a>(offer: Offer, init: SaslInit<'a>) -> Said<'a>
    ensures { IsStated result (stated_by offer init.entry) }
{
    if init.mechanism == ANONYMOUS.as_slice() && offer.anonymous {
        return Said::Claims(Login::Anonymous {
            trace: init.response.unwrap_or(&[]),
        });
    }
    if init.mechanism == PLAIN.as_slice() && offer.plain {
        return said_by_plain(init.response);
    }
    if init.mechanism == EXTERNAL.as_slice() && offer.external {
        return Said::Claims(Login::External {
            authzid: init.response.unwrap_or(&[]),
        });
    }
    Said::Unfit
}
