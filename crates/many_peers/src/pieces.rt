//! What peers send.

use crate::failure::Failure;
use amqp_frame::HEADER;
use amqp_perform::{
    Attach, Begin, Detach, Open, Performative, ReceiverSettleMode, Role, SenderSettleMode,
    write_frame,
};
use std::alloc::Global;

/// Longer than each frame here that is no transfer.
const ROOM: usize = 512;

/// How many bytes a gateway reads of a peer at a time.
const PIECE: usize = 8192;

/// Messages in each piece.
const MESSAGES: u32 = 8;

/// Returns the header, the open, a session and a link.
pub fn opening(alloc: Global) -> Result<Vec<u8>, Failure> {
    let mut bytes = hostile_opening(alloc)?;
    put(&mut bytes, &attach())?;
    Ok(bytes)
}

/// Returns the header, the open and a session, without a link.
pub fn hostile_opening(alloc: Global) -> Result<Vec<u8>, Failure> {
    let mut bytes = Vec::new(alloc);
    bytes.extend_from_slice(&HEADER)?;
    let open = Open {
        container_id: "sender",
        hostname: &[],
        max_frame_size: 65536,
        channel_max: 1,
        idle_time_out: &[],
        outgoing_locales: &[],
        incoming_locales: &[],
        offered_capabilities: &[],
        desired_capabilities: &[],
        properties: &[],
    };
    put(&mut bytes, &Performative::Open(open))?;
    let begin = Begin {
        remote_channel: None,
        next_outgoing_id: 0,
        incoming_window: 2048,
        outgoing_window: 2048,
        handle_max: 1,
        offered_capabilities: &[],
        desired_capabilities: &[],
        properties: &[],
    };
    put(&mut bytes, &Performative::Begin(begin))?;
    Ok(bytes)
}

/// Returns a piece full of links that begin and end.
pub fn hostile_piece(alloc: Global) -> Result<Vec<u8>, Failure> {
    let mut piece = Vec::new(alloc);
    let detach = Detach {
        handle: 0,
        closed: true,
        error: &[],
    };
    for _ in 0..PIECE {
        if piece.len() >= PIECE - ROOM {
            break;
        }
        put(&mut piece, &attach())?;
        put(&mut piece, &Performative::Detach(detach))?;
    }
    Ok(piece)
}

fn attach() -> Performative<'static> {
    Performative::Attach(Attach {
        name: "telemetry/of/a/device",
        handle: 0,
        role: Role::Sender,
        snd_settle_mode: SenderSettleMode::Mixed,
        rcv_settle_mode: ReceiverSettleMode::First,
        source: b"\x00\x53\x28\x45",
        target: b"\x00\x53\x29\x45",
        unsettled: &[],
        incomplete_unsettled: &[],
        initial_delivery_count: Some(0),
        max_message_size: &[],
        offered_capabilities: &[],
        desired_capabilities: &[],
        properties: &[],
    })
}

/// Appends a frame on channel 0.
fn put(bytes: &mut Vec<u8>, performative: &Performative<'_>) -> Result<(), Failure> {
    let mut room = [0; ROOM];
    let count = write_frame(0, performative, &[], &mut room).ok_or(Failure::Frame)?;
    bytes.extend_from_slice(room.get(..count).unwrap_or(&[]))?;
    Ok(())
}

/// The messages of each turn, which follow from a seed.
#[derive(Drop)]
pub struct Messages {
    number: u64,
    next_id: u32,
    payload: Vec<u8>,
}

impl Messages {
    pub fn new(alloc: Global, seed: u64) -> Result<Messages, Failure> {
        let mut messages = Messages {
            number: seed | 1,
            next_id: 0,
            payload: Vec::new(alloc),
        };
        for _ in 0..32 {
            let bytes = messages.draw().to_le_bytes();
            messages.payload.extend_from_slice(&bytes)?;
        }
        Ok(messages)
    }

    /// Returns the next number (xorshift).
    fn draw(&mut self) -> u64 {
        let mut next = self.number;
        next ^= next << 13;
        next ^= next >> 7;
        next ^= next << 17;
        self.number = next;
        next
    }

    /// Makes the next piece of each kind: transfers of the same ids and of other messages.
    pub fn make(&mut self, kinds: &mut [Vec<u8>]) -> Result<(), Failure> {
        for piece in kinds {
            piece.clear();
            for number in 0..MESSAGES {
                self.put_transfer(piece, self.next_id.wrapping_add(number))?;
            }
        }
        self.next_id = self.next_id.wrapping_add(MESSAGES);
        Ok(())
    }

    fn put_transfer(&mut self, piece: &mut Vec<u8>, id: u32) -> Result<(), Failure> {
        let drawn = self.draw();
        let length = 50 + (drawn >> 8 & 0xff) as usize % 101;
        let from = (drawn >> 16 & 0x3f) as usize;
        let size = (28 + length as u64 & 0xff_ffff) as u32;
        let [i0, i1, i2, i3] = id.to_be_bytes();
        piece.extend_from_slice(&size.to_be_bytes())?;
        piece.extend_from_slice(&[2, 0, 0, 0, 0, 0x53, 0x14, 0xc0, 15, 5, 0x43])?;
        piece.extend_from_slice(&[0x70, i0, i1, i2, i3, 0xa0, 4, i0, i1, i2, i3, 0x43, 0x42])?;
        let message = self
            .payload
            .get(from..from.saturating_add(length))
            .unwrap_or(&[]);
        piece.extend_from_slice(message)?;
        Ok(())
    }
}
