//! Whether links are admitted.

use amqp_endpoint::Endpoint;
use amqp_reason::Reason;

/// What an admission says of a link.
#[derive(Clone, Copy, Debug, PartialEq, Eq)]
pub enum Verdict<'a> {
    /// It gets credit, up to this much.
    Admit { most: u32 },
    /// It is refused for this reason. One that is not valid ([`Reason::is_valid`]) leaves the link without credit.
    Refuse(Reason<'a>),
}

/// Says of each link whether it is admitted, and how much credit it gets, before it gets any.
pub trait Admission {
    /// Returns whether it is asked. If not, the rule of the gateway gives each link credit.
    fn asks(&self) -> bool {
        true
    }

    /// Returns what becomes of the link at a handle of the session on a channel, which is live. The endpoint has what
    /// the peer said of itself and of the link. It is asked when the link attached, and again whenever the link may lack
    /// credit, as after each of its messages. A link that it refuses then ends too.
    fn verdict(&mut self, endpoint: &Endpoint, channel: u16, handle: u32) -> Verdict<'_>;
}

/// An admission that is not asked.
#[derive(Clone, Copy, Debug, Drop)]
pub struct Unasked;

impl Admission for Unasked {
    fn asks(&self) -> bool {
        false
    }

    fn verdict(&mut self, _endpoint: &Endpoint, _channel: u16, _handle: u32) -> Verdict<'_> {
        Verdict::Admit { most: 0 }
    }
}
