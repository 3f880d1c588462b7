//! The numbers of a session and a link that send.
ghost use Rattle.std.specs.Prelude.{◌≡◌, ◌≤◌};
ghost use Rattle.amqp_send.specs.Flows as spec;

use crate::telling::Limits;
use amqp_serial::Serial;

/// The sender's own max-frame-size, in bytes [2.7.1].
pub const MAX_FRAME_SIZE: u32 = 4096;

/// What the receiver's max-frame-size is taken to be until its open has come: what each container accepts
/// [2.7.1].
const LEAST_FRAME_SIZE: u32 = 512;

/// What a sender knows of its session and its link. The numbers wrap around at `2^32` [2.8.10].
#[derive(Clone, Copy, Debug, PartialEq, Eq)]
pub struct FlowState {
    /// The longest frame that the receiver accepts [2.7.1].
    pub max_frame_size: u32,
    /// The receiver's next-outgoing-id, once its begin has come [2.7.2].
    pub peer_next_outgoing_id: Option<u32>,
    /// A flow has come.
    pub flowed: bool,
    /// The number of the first transfer beyond the window [2.5.6].
    pub window_end: u32,
    /// The delivery-count at which no credit is left [2.6.7].
    pub credit_end: u32,
    /// The number of the next transfer [2.5.6].
    pub next_outgoing_id: u32,
    /// The id of the next delivery [2.6.12].
    pub delivery_id: u32,
    /// The delivery-count [2.6.7].
    pub delivery_count: u32,
}

impl FlowState {
    /// Returns the state before the receiver tells anything.
    pub fn new() -> FlowState
        ensures { result ≡ spec.flow_begins }
    {
        FlowState {
            max_frame_size: LEAST_FRAME_SIZE,
            peer_next_outgoing_id: None,
            flowed: false,
            window_end: 0,
            credit_end: 0,
            next_outgoing_id: 0,
            delivery_id: 0,
            delivery_count: 0,
        }
    }

    /// Returns how many transfers may be sent [2.5.6].
    pub fn window(self) -> u32
        ensures { result ≡ spec.window self }
    {
        ahead(self.next_outgoing_id, self.window_end)
    }

    /// Returns how many deliveries may be begun [2.6.7].
    pub fn credit(self) -> u32
        ensures { result ≡ spec.credit self }
    {
        ahead(self.delivery_count, self.credit_end)
    }

    /// Returns the length in bytes of the longest frame that is written.
    pub fn most(self) -> usize
        ensures value { result ≡ spec.most self }
        ensures within { result ≤ 4096 }
    {
        if self.max_frame_size < MAX_FRAME_SIZE {
            self.max_frame_size as usize
        } else {
            MAX_FRAME_SIZE as usize
        }
    }

    /// Returns the state after the receiver's open, which states its max-frame-size [2.7.1].
    pub fn opened(self, max_frame_size: u32) -> FlowState
        ensures { result ≡ spec.opened max_frame_size self }
    {
        FlowState {
            max_frame_size,
            ..self
        }
    }

    /// Returns the state after the receiver's begin, which states its next-outgoing-id and, until a flow
    /// does, its window [2.7.2].
    pub fn begun(self, next_outgoing_id: u32, incoming_window: u32) -> FlowState
        ensures { result ≡ spec.begun next_outgoing_id incoming_window self }
    {
        let window_end = if self.flowed {
            self.window_end
        } else {
            incoming_window
        };
        FlowState {
            peer_next_outgoing_id: Some(next_outgoing_id),
            window_end,
            ..self
        }
    }

    /// Returns the state after a flow, which states where the window ends and, if it is of the link, where
    /// the credit does [2.5.6, 2.6.7].
    pub fn limited(self, limits: Limits) -> FlowState
        ensures { result ≡ spec.limited limits self }
    {
        let window_end = Serial(limits.next_incoming_id)
            .add(limits.incoming_window)
            .0;
        let credit_end = if limits.of_link {
            Serial(limits.delivery_count).add(limits.link_credit).0
        } else {
            self.credit_end
        };
        FlowState {
            flowed: true,
            window_end,
            credit_end,
            ..self
        }
    }

    /// Returns the state after the credit was used up without deliveries [2.6.7].
    pub fn drained(self) -> FlowState
        ensures { result ≡ spec.drained self }
    {
        let delivery_count = Serial(self.delivery_count).add(self.credit()).0;
        FlowState {
            delivery_count,
            ..self
        }
    }

    /// Returns the state after a transfer that began `heads` deliveries [2.5.6, 2.6.7].
    pub fn transferred(self, heads: u32) -> FlowState
        ensures { result ≡ spec.transferred heads self }
    {
        FlowState {
            next_outgoing_id: Serial(self.next_outgoing_id).add(1).0,
            delivery_id: Serial(self.delivery_id).add(heads).0,
            delivery_count: Serial(self.delivery_count).add(heads).0,
            ..self
        }
    }
}

/// Returns how far an end is ahead of a number; 0 if it is behind [2.8.10].
fn ahead(own: u32, end: u32) -> u32
    ensures { result ≡ spec.ahead own end }
{
    let steps = Serial(own).distance(Serial(end));
    if steps < 1 << 31 { steps } else { 0 }
}
