//! The ends of a link, and how deliveries on it are settled. [2.8.1 to 2.8.3]

ghost use Rattle.std.specs.Prelude.{◌≡◌, ◌≤◌};

/// An end of a link. [2.8.1]
#[derive(Clone, Copy, Debug, PartialEq, Eq)]
pub enum Role {
    Sender,
    Receiver,
}

impl Role {
    ghost use Rattle.amqp_perform.specs.Performatives.{is_receiver};

    /// Returns the role that a boolean spells.
    pub(crate) fn of(receiver: bool) -> Role
        ensures { is_receiver result ≡ receiver }
    {
        if receiver {
            Role::Receiver
        } else {
            Role::Sender
        }
    }

    /// Returns the boolean that spells the role.
    pub(crate) fn is_receiver(self) -> bool
        ensures { result ≡ is_receiver self }
    {
        match self {
            Role::Sender => false,
            Role::Receiver => true,
        }
    }
}

/// How a sender settles its deliveries. [2.8.2]
#[derive(Clone, Copy, Debug, PartialEq, Eq)]
pub enum SenderSettleMode {
    Unsettled,
    Settled,
    Mixed,
}

impl SenderSettleMode {
    ghost use Rattle.amqp_perform.specs.Performatives.{sender_mode};

    /// Returns the mode that a number spells.
    pub(crate) fn of(number: u8) -> SenderSettleMode
        requires { number ≤ 2 }
        ensures { sender_mode result ≡ number }
    {
        match number {
            0 => SenderSettleMode::Unsettled,
            1 => SenderSettleMode::Settled,
            _ => SenderSettleMode::Mixed,
        }
    }

    /// Returns the number that spells the mode.
    pub(crate) fn number(self) -> u8
        ensures { result ≡ sender_mode self }
    {
        match self {
            SenderSettleMode::Unsettled => 0,
            SenderSettleMode::Settled => 1,
            SenderSettleMode::Mixed => 2,
        }
    }
}

/// Whether a receiver settles a delivery first, or once its sender has. [2.8.3]
#[derive(Clone, Copy, Debug, PartialEq, Eq)]
pub enum ReceiverSettleMode {
    First,
    Second,
}

impl ReceiverSettleMode {
    ghost use Rattle.amqp_perform.specs.Performatives.{receiver_mode};

    /// Returns the mode that a number spells.
    pub(crate) fn of(number: u8) -> ReceiverSettleMode
        requires { number ≤ 1 }
        ensures { receiver_mode result ≡ number }
    {
        match number {
            0 => ReceiverSettleMode::First,
            _ => ReceiverSettleMode::Second,
        }
    }

    /// Returns the number that spells the mode.
    pub(crate) fn number(self) -> u8
        ensures { result ≡ receiver_mode self }
    {
        match self {
            ReceiverSettleMode::First => 0,
            ReceiverSettleMode::Second => 1,
        }
    }
}
