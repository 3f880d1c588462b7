//! Why a call is refused.
use amqp_endpoint::CallFault;
use amqp_serve::{LinkFault, ServerFault};
use thiserror::Error;

/// Why a call of a hub is refused. Nothing has changed then, of this connection or of any other.
#[derive(Clone, Copy, Debug, PartialEq, Eq, Drop, Error)]
pub enum HubFault {
    /// There is no connection under that key.
    #[error("there is no such connection")]
    NoKey,
    /// As many connections are open as may be.
    #[error("as many connections are open as may be")]
    Full,
    /// Memory was refused.
    #[error("memory was refused")]
    NoMemory,
    /// The keeper of records takes none now.
    #[error("no record is taken now")]
    NoRoom,
    /// Bytes wait for the peer, and must be sent first.
    #[error("bytes wait for the peer")]
    Unsent,
    /// The connection hears nothing any more: it is over, its input has ended, or this side has
    /// closed it.
    #[error("the connection is over")]
    Over,
    /// The connection is not open [2.4.6]: its peer's open has not come, it is over, its input has
    /// ended, or this side has closed it.
    #[error("the connection is not open")]
    NotOpen,
    /// A unit waits, and memory was refused for it.
    #[error("a unit waits for memory")]
    Starved,
}

impl From<ServerFault> for HubFault {
    ghost use Rattle.std.specs.Prelude.{◌≡◌};
    ghost use Rattle.amqp_hub.specs.Members.{fault_of};

    ghost from_gives = { λ f e. e ≡ fault_of f };

    fn from(fault: ServerFault) -> HubFault {
        match fault {
            ServerFault::NotOpen => HubFault::NotOpen,
            ServerFault::Over => HubFault::Over,
            ServerFault::Starved => HubFault::Starved,
        }
    }
}

/// Why what is asked for a link of a connection is not done.
#[derive(Clone, Copy, Debug, PartialEq, Eq, Drop, Error)]
pub enum AskFault {
    /// There is no connection under that key. Nothing has changed.
    #[error("there is no such connection")]
    NoKey,
    /// The connection hears nothing any more: its input has ended, or this side has closed it. Nothing has changed.
    #[error("the connection is over")]
    Over,
    /// The endpoint refuses the call. Nothing that counts has changed.
    #[error("{0}")]
    Call(CallFault),
    /// Memory was refused for the answer. The call was made. The connection hears nothing any more, and stays for what
    /// waits for its peer.
    #[error("memory was refused")]
    NoMemory,
}

impl From<LinkFault> for AskFault {
    ghost use Rattle.std.specs.Prelude.{◌≡◌};
    ghost use Rattle.amqp_hub.specs.Links.{ask_fault_of};

    ghost from_gives = { λ f e. e ≡ ask_fault_of f };

    fn from(fault: LinkFault) -> AskFault {
        match fault {
            LinkFault::Over => AskFault::Over,
            LinkFault::Call(fault) => AskFault::Call(fault),
            LinkFault::Lost(_) => AskFault::NoMemory,
        }
    }
}
