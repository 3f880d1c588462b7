//! The bytes of a sender.

use crate::frames::{attach, last, whole};
use amqp_perform::{Begin, Open, Performative, Transfer, write_frame};
use std::alloc::{AllocError, Global};

/// The longest frame of the sender.
pub const MAX_FRAME: u32 = 65536;

/// No transfer without its payload is longer.
const OVERHEAD: u32 = 64;

/// Messages of one round, as their frames.
#[derive(Drop)]
pub struct Block {
    pub bytes: Vec<u8>,
    /// Where each message's delivery-id stands, in four bytes.
    ids: Vec<usize>,
}

/// What messages come, and where.
#[derive(Clone, Copy)]
pub struct Shape {
    /// The bytes of a message.
    pub message: u32,
    /// The sessions, and the links of each, on which they come in turn.
    pub sessions: u16,
    pub links: u16,
}

impl Shape {
    /// Returns how many messages come in a block: about 64 kB.
    fn messages(self) -> u32 {
        (MAX_FRAME / self.message.max(1)).clamp(1, 256)
    }
}

/// Appends a frame.
fn push(
    bytes: &mut Vec<u8>,
    channel: u16,
    performative: &Performative<'_>,
    payload: &[u8],
) -> Result<(), AllocError> {
    let start = bytes.len();
    let room = payload.len().saturating_add(256);
    bytes.resize(start.saturating_add(room), 0)?;
    let (_, out) = bytes.as_mut_slice().split_at_mut(start);
    let written = write_frame(channel, performative, payload, out).unwrap_or(0);
    bytes.truncate(start.saturating_add(written));
    Ok(())
}

/// Returns what a sender says before its messages.
pub fn opening(alloc: Global, sessions: u16, links: u16) -> Result<Vec<u8>, AllocError> {
    let mut bytes = Vec::from_slice(alloc, b"AMQP\x00\x01\x00\x00")?;
    let open = Performative::Open(Open {
        container_id: "sender",
        hostname: &[],
        max_frame_size: MAX_FRAME,
        channel_max: 255,
        idle_time_out: &[],
        outgoing_locales: &[],
        incoming_locales: &[],
        offered_capabilities: &[],
        desired_capabilities: &[],
        properties: &[],
    });
    push(&mut bytes, 0, &open, &[])?;
    for channel in 0..sessions {
        begin(&mut bytes, channel, links)?;
    }
    Ok(bytes)
}

/// Returns what it says to begin a session with its links.
fn begin(bytes: &mut Vec<u8>, channel: u16, links: u16) -> Result<(), AllocError> {
    let begin = Performative::Begin(Begin {
        remote_channel: None,
        next_outgoing_id: 0,
        incoming_window: 100,
        outgoing_window: 100,
        handle_max: 255,
        offered_capabilities: &[],
        desired_capabilities: &[],
        properties: &[],
    });
    push(bytes, channel, &begin, &[])?;
    for handle in 0..links {
        let attach = Performative::Attach(attach(handle as u32));
        push(bytes, channel, &attach, &[])?;
    }
    Ok(())
}

impl Block {
    /// Returns the messages of one round, on the links and sessions in turn.
    pub fn new(alloc: Global, shape: Shape) -> Result<Block, AllocError> {
        let payload = Vec::from_elem(alloc, 0x78, shape.message as usize)?;
        let mut block = Block {
            bytes: Vec::new(alloc),
            ids: Vec::new(alloc),
        };
        for index in 0..shape.messages() {
            let handle = index.checked_rem(shape.links as u32).unwrap_or(0);
            let round = index.checked_div(shape.links as u32).unwrap_or(0);
            let channel = round.checked_rem(shape.sessions as u32).unwrap_or(0);
            block.push_message(channel as u16, handle, &payload)?;
        }
        Ok(block)
    }

    /// Appends a message in frames that are as long as they may be.
    fn push_message(
        &mut self,
        channel: u16,
        handle: u32,
        payload: &[u8],
    ) -> Result<(), AllocError> {
        let most = (MAX_FRAME - OVERHEAD) as usize;
        // Behind the frame's header, the list's, the handle and the code of the id.
        let behind = if handle == 0 { 16 } else { 17 };
        self.ids.push(self.bytes.len().saturating_add(behind))?;
        let mut rest = payload;
        let mut transfer = head(handle);
        for _ in 0..payload.len() {
            transfer.more = rest.len() > most;
            let (piece, behind) = rest.split_at(rest.len().min(most));
            let transfer_frame = Performative::Transfer(transfer);
            push(&mut self.bytes, channel, &transfer_frame, piece)?;
            if behind.is_empty() {
                break;
            }
            rest = behind;
            transfer = last(handle);
        }
        Ok(())
    }

    /// Returns how many messages it has.
    pub fn messages(&self) -> u32 {
        u32::try_from(self.ids.len()).unwrap_or(u32::MAX)
    }

    /// Gives the messages ids from this one on.
    pub fn number(&mut self, first: u32) {
        let mut id = first;
        for place in &self.ids {
            let mut at = *place;
            for byte in id.to_be_bytes() {
                if let Some(written) = self.bytes.get_mut(at) {
                    *written = byte;
                }
                at = at.saturating_add(1);
            }
            id = id.wrapping_add(1);
        }
    }
}

/// Returns the first frame of a delivery, with an id that is written in four bytes.
fn head(handle: u32) -> Transfer<'static> {
    whole(handle, u32::MAX)
}
