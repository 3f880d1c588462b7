//! Documents that a sender sends, and a receiver over a socket receives.

use crate::desk::Desk;
use crate::failure::Failure;
use crate::receiving::{Reads, Receiver};
use amqp_perform::{
    Attach, Begin, Flow, Open, Performative, ReceiverSettleMode, Role, SenderSettleMode,
    write_frame,
};
use amqp_send::{SendConfig, Sender};
use std::alloc::{AllocError, Global};

/// How many bytes are moved out of the sender at once.
const PIECE: usize = 4096;

/// The longest frame of the receiver. The sender's are of 4,096 bytes at most.
const MOST: u32 = 65536;

/// The places of the receiver's window, and its credit: enough for all.
const MANY: u32 = 1 << 30;

/// Sends documents of 2,000 to 20,000 bytes, one in 64 of 1,000,000, and serves the connection on which they come.
pub fn run(desk: &mut Desk) -> Result<(), Failure> {
    let receiver = Receiver {
        reads: Reads::AtMost(desk.numbers.of_these(&[4096, 65536, 65536])),
        credit: desk.numbers.of_these(&[16, 100, 1000]),
    };
    let mut sending = Sending::new(desk)?;
    for number in 0..desk.size.of(192, 3) {
        let bytes = if number % 64 == 63 {
            1_000_000
        } else {
            desk.numbers.between(2_000, 20_000)
        };
        sending.send(desk, bytes)?;
    }
    sending.close(desk)?;
    receiver.serve(desk)
}

/// A sender whose receiver has told it to send all that it has.
#[derive(Drop)]
struct Sending {
    sender: Sender,
    piece: Vec<u8>,
}

impl Sending {
    /// One that heard the receiver's opening.
    fn new(desk: &mut Desk) -> Result<Sending, Failure> {
        let alloc = desk.alloc;
        let config = SendConfig {
            container_id: String::from_str(alloc, "sender")?,
            name: String::from_str(alloc, "documents")?,
        };
        let mut sending = Sending {
            sender: Sender::new(alloc, config)?,
            piece: Vec::from_elem(alloc, 0, PIECE)?,
        };
        let opening = opening(alloc)?;
        sending.hear(&opening, &mut desk.peer.bytes)?;
        Ok(sending)
    }

    /// Hears what the receiver sends, and moves out what answers it.
    // The body borrows what it uses: one that may drop it at each exit takes minutes to prove.
    fn hear(&mut self, opening: &[u8], sent: &mut Vec<u8>) -> Result<(), Failure> {
        let mut rest = opening;
        for _ in 0..opening.len() {
            let (used, _) = self.sender.feed(rest);
            rest = rest.get(used..).unwrap_or(&[]);
            self.move_out(sent)?;
        }
        Ok(())
    }

    /// Moves out what is to be sent.
    fn move_out(&mut self, sent: &mut Vec<u8>) -> Result<(), Failure> {
        for _ in 0..1_000_000 {
            let count = self.sender.output(&mut self.piece);
            if count == 0 {
                break;
            }
            sent.extend_from_slice(self.piece.get(..count).unwrap_or(&[]))?;
        }
        Ok(())
    }

    /// Sends a document of this many bytes.
    fn send(&mut self, desk: &mut Desk, bytes: u32) -> Result<(), Failure> {
        let document = desk.peer.document(desk.alloc, &mut desk.numbers, bytes)?;
        if self.sender.offer(document).is_err() {
            return Err(Failure::Sender);
        }
        self.move_out(&mut desk.peer.bytes)
    }

    fn close(&mut self, desk: &mut Desk) -> Result<(), Failure> {
        let _ = self.sender.close();
        self.move_out(&mut desk.peer.bytes)
    }
}

/// Returns what the receiver sends first.
fn opening(alloc: Global) -> Result<Vec<u8>, AllocError> {
    let mut opening = Vec::from_slice(alloc, &amqp_frame::HEADER)?;
    let mut room = [0; 512];
    for performative in [open(), begin(), attach(), flow()] {
        let count = write_frame(0, &performative, &[], &mut room).unwrap_or(0);
        opening.extend_from_slice(room.get(..count).unwrap_or(&[]))?;
    }
    Ok(opening)
}

fn open() -> Performative<'static> {
    Performative::Open(Open {
        container_id: "receiver",
        hostname: &[],
        max_frame_size: MOST,
        channel_max: 7,
        idle_time_out: &[],
        outgoing_locales: &[],
        incoming_locales: &[],
        offered_capabilities: &[],
        desired_capabilities: &[],
        properties: &[],
    })
}

fn begin() -> Performative<'static> {
    Performative::Begin(Begin {
        remote_channel: Some(0),
        next_outgoing_id: 0,
        incoming_window: MANY,
        outgoing_window: 0,
        handle_max: 7,
        offered_capabilities: &[],
        desired_capabilities: &[],
        properties: &[],
    })
}

fn attach() -> Performative<'static> {
    Performative::Attach(Attach {
        name: "documents",
        handle: 0,
        role: Role::Receiver,
        snd_settle_mode: SenderSettleMode::Mixed,
        rcv_settle_mode: ReceiverSettleMode::First,
        source: b"\x00\x53\x28\x45",
        target: b"\x00\x53\x29\x45",
        unsettled: &[],
        incomplete_unsettled: &[],
        initial_delivery_count: None,
        max_message_size: &[],
        offered_capabilities: &[],
        desired_capabilities: &[],
        properties: &[],
    })
}

fn flow() -> Performative<'static> {
    Performative::Flow(Flow {
        next_incoming_id: Some(0),
        incoming_window: MANY,
        next_outgoing_id: 0,
        outgoing_window: 0,
        handle: Some(0),
        delivery_count: Some(0),
        link_credit: Some(MANY),
        available: None,
        drain: false,
        echo: false,
        properties: &[],
    })
}
