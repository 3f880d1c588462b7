//! What the attach fixes for the life of the link.
ghost use Rattle.std.specs.Prelude.{◌≡◌, ◌↔◌, IsSome, IfSome};
ghost use Rattle.amqp_link.specs.Bounds.{IsBounded};

use amqp_perform::ReceiverSettleMode;
use std::marker::Model;

/// The highest value of `allowed`: credit and open deliveries together.
pub const MAX_ALLOWED: u32 = 1024;

/// The longest message that can be allowed, in bytes.
pub const MAX_MESSAGE_SIZE: u32 = 1 << 30;

/// What a link may hold, whatever its sender does. Credit and open deliveries are together at most
/// `allowed`, and no message is longer than `max_message_size` bytes.
#[derive(Clone, Copy, Debug)]
pub struct LinkBounds {
    allowed: u32,
    max_message_size: u32,
}

impl Model for LinkBounds {
    ghost use Rattle.amqp_link.specs.Bounds.{Bounds, IsBounded};
    ghost use Rattle.std.specs.Prelude.{refl};

    ghost Value = { Bounds };

    ghost view = { λ a. record { allowed = a.allowed; max_message_size = a.max_message_size } };

    ghost invariant = { λ a. IsBounded a.allowed a.max_message_size };

    ghost inverse = { λ v. record { allowed = v.allowed; max_message_size = v.max_message_size } };

    ghost inverse_ok = { λ a h. refl };
}

impl LinkBounds {
    /// Makes bounds of these numbers. Returns `None` if `allowed` is not 1 to [`MAX_ALLOWED`], or
    /// `max_message_size` is not 1 to [`MAX_MESSAGE_SIZE`].
    pub fn new(allowed: u32, max_message_size: u32) -> Option<LinkBounds>
        ensures some { IsSome result ↔ IsBounded allowed max_message_size }
        ensures is { IfSome result (λ bounds. bounds ≡ record { allowed = allowed; max_message_size = max_message_size }) }
    {
        let is_allowed = 1 <= allowed && allowed <= MAX_ALLOWED;
        let is_size = 1 <= max_message_size && max_message_size <= MAX_MESSAGE_SIZE;
        if is_allowed && is_size {
            Some(LinkBounds {
                allowed,
                max_message_size,
            })
        } else {
            None
        }
    }

    /// Returns how many deliveries are allowed, credit and open ones together.
    pub fn allowed(self) -> u32
        ensures value { result ≡ self.allowed }
        ensures within { IsBounded self.allowed self.max_message_size }
    {
        self.allowed
    }

    /// Returns how long a message may be, in bytes [2.7.3].
    pub fn max_message_size(self) -> u32
        ensures { result ≡ self.max_message_size }
    {
        self.max_message_size
    }
}

/// What the attach fixes [2.7.3].
#[derive(Clone, Copy, Debug)]
pub struct Terms {
    /// The delivery-count that the sender began with.
    pub initial_delivery_count: u32,
    /// The rcv-settle-mode of deliveries that state none [2.8.3].
    pub rcv_settle_mode: ReceiverSettleMode,
    /// What the link may hold.
    pub bounds: LinkBounds,
}
