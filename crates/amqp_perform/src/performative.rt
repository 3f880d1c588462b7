//! The performatives, with the fields as a body has them. [2.7]
//!
//! A typed field with a default is its value; one without is an `Option`, unless it is mandatory. A span of
//! bytes is the spelling of the field's value, of any type, and it is empty if the field is absent. Its default
//! (of batchable and incomplete-unsettled) and its shortest spelling are up to the caller.

use crate::descriptor::Descriptor;
use crate::modes::{ReceiverSettleMode, Role, SenderSettleMode};

/// Negotiates the parameters of a connection. [2.7.1]
#[derive(Clone, Copy, Debug, PartialEq, Eq)]
pub struct Open<'a> {
    pub container_id: &'a str,
    pub hostname: &'a [u8],
    /// At least 512.
    pub max_frame_size: u32,
    pub channel_max: u16,
    pub idle_time_out: &'a [u8],
    pub outgoing_locales: &'a [u8],
    pub incoming_locales: &'a [u8],
    pub offered_capabilities: &'a [u8],
    pub desired_capabilities: &'a [u8],
    pub properties: &'a [u8],
}

/// Begins a session on a channel. [2.7.2]
#[derive(Clone, Copy, Debug, PartialEq, Eq)]
pub struct Begin<'a> {
    pub remote_channel: Option<u16>,
    pub next_outgoing_id: u32,
    pub incoming_window: u32,
    pub outgoing_window: u32,
    pub handle_max: u32,
    pub offered_capabilities: &'a [u8],
    pub desired_capabilities: &'a [u8],
    pub properties: &'a [u8],
}

/// Attaches a link to a session. [2.7.3]
#[derive(Clone, Copy, Debug, PartialEq, Eq)]
pub struct Attach<'a> {
    pub name: &'a str,
    pub handle: u32,
    /// The end that attaches.
    pub role: Role,
    pub snd_settle_mode: SenderSettleMode,
    pub rcv_settle_mode: ReceiverSettleMode,
    pub source: &'a [u8],
    pub target: &'a [u8],
    pub unsettled: &'a [u8],
    pub incomplete_unsettled: &'a [u8],
    pub initial_delivery_count: Option<u32>,
    pub max_message_size: &'a [u8],
    pub offered_capabilities: &'a [u8],
    pub desired_capabilities: &'a [u8],
    pub properties: &'a [u8],
}

/// Updates the flow state of a session or of a link. [2.7.4]
#[derive(Clone, Copy, Debug, PartialEq, Eq)]
pub struct Flow<'a> {
    pub next_incoming_id: Option<u32>,
    pub incoming_window: u32,
    pub next_outgoing_id: u32,
    pub outgoing_window: u32,
    pub handle: Option<u32>,
    pub delivery_count: Option<u32>,
    pub link_credit: Option<u32>,
    pub available: Option<u32>,
    pub drain: bool,
    pub echo: bool,
    pub properties: &'a [u8],
}

/// Transfers a part of a message, which is in the payload. [2.7.5]
#[derive(Clone, Copy, Debug, PartialEq, Eq)]
pub struct Transfer<'a> {
    pub handle: u32,
    pub delivery_id: Option<u32>,
    pub delivery_tag: Option<&'a [u8]>,
    pub message_format: Option<u32>,
    pub settled: Option<bool>,
    pub more: bool,
    pub rcv_settle_mode: Option<ReceiverSettleMode>,
    pub state: &'a [u8],
    pub resume: bool,
    pub aborted: bool,
    pub batchable: &'a [u8],
}

impl<'a> Transfer<'a> {
    /// Returns a transfer of handle 0 that states nothing more, to be read into.
    pub fn blank() -> Transfer<'a> {
        Transfer {
            handle: 0,
            delivery_id: None,
            delivery_tag: None,
            message_format: None,
            settled: None,
            more: false,
            rcv_settle_mode: None,
            state: &[],
            resume: false,
            aborted: false,
            batchable: &[],
        }
    }
}

/// Reports the state of deliveries. [2.7.6]
#[derive(Clone, Copy, Debug, PartialEq, Eq)]
pub struct Disposition<'a> {
    /// The end that reports.
    pub role: Role,
    pub first: u32,
    /// If it is absent, the last is the first.
    pub last: Option<u32>,
    pub settled: bool,
    pub state: &'a [u8],
    pub batchable: &'a [u8],
}

/// Detaches a link from its session. [2.7.7]
#[derive(Clone, Copy, Debug, PartialEq, Eq)]
pub struct Detach<'a> {
    pub handle: u32,
    pub closed: bool,
    pub error: &'a [u8],
}

/// Ends a session. [2.7.8]
#[derive(Clone, Copy, Debug, PartialEq, Eq)]
pub struct End<'a> {
    pub error: &'a [u8],
}

/// Closes a connection. [2.7.9]
#[derive(Clone, Copy, Debug, PartialEq, Eq)]
pub struct Close<'a> {
    pub error: &'a [u8],
}

/// What the body of a frame says. [2.7]
#[derive(Clone, Copy, Debug, PartialEq, Eq)]
pub enum Performative<'a> {
    Open(Open<'a>),
    Begin(Begin<'a>),
    Attach(Attach<'a>),
    Flow(Flow<'a>),
    Transfer(Transfer<'a>),
    Disposition(Disposition<'a>),
    Detach(Detach<'a>),
    End(End<'a>),
    Close(Close<'a>),
}

impl Performative<'_> {
    ghost use Rattle.std.specs.Prelude.{◌≡◌};
    ghost use Rattle.amqp_perform.specs.Performatives.{type_of};

    /// Returns the descriptor of its list. [2.7]
    pub fn descriptor(&self) -> Descriptor
        ensures { result ≡ type_of self.now }
    {
        match self {
            Performative::Open(_) => Descriptor::Open,
            Performative::Begin(_) => Descriptor::Begin,
            Performative::Attach(_) => Descriptor::Attach,
            Performative::Flow(_) => Descriptor::Flow,
            Performative::Transfer(_) => Descriptor::Transfer,
            Performative::Disposition(_) => Descriptor::Disposition,
            Performative::Detach(_) => Descriptor::Detach,
            Performative::End(_) => Descriptor::End,
            Performative::Close(_) => Descriptor::Close,
        }
    }
}
