//! Short messages, one transfer each, to a receiver over a socket.

use crate::desk::Desk;
use crate::failure::Failure;
use crate::peer::{Head, Peer};
use crate::receiving::{Reads, Receiver};
use amqp_perform::ReceiverSettleMode;

/// Serves a connection on which messages of 50 to 300 bytes come, two in three of them unsettled.
pub fn run(desk: &mut Desk) -> Result<(), Failure> {
    let (numbers, peer) = (&mut desk.numbers, &mut desk.peer);
    let sessions = numbers.of_these(&[1, 1, 1, 2, 8]);
    let links = numbers.of_these(&[1, 1, 4, 8]);
    let receiver = Receiver {
        reads: Reads::AtMost(numbers.of_these(&[1460, 4096, 65536])),
        credit: numbers.of_these(&[16, 100, 1000]),
    };
    peer.open(&[])?;
    for channel in 0..sessions {
        begin(peer, (channel & 0xff) as u16, links)?;
    }
    let mut id = numbers.word();
    for _ in 0..desk.size.of(4096, 100) {
        let head = Head {
            channel: (numbers.below(sessions) & 0xff) as u16,
            handle: (numbers.below(links) & 0xff) as u8,
            id,
            settled: numbers.is_one_of(3),
            more: false,
        };
        let payload = numbers.between(50, 300);
        peer.transfer(head, numbers, payload)?;
        id = id.wrapping_add(1);
    }
    peer.close()?;
    receiver.serve(desk)
}

/// Begins a session with its links.
pub fn begin(peer: &mut Peer, channel: u16, links: u32) -> Result<(), Failure> {
    peer.begin(channel, 0)?;
    for handle in 0..links {
        peer.attach(
            channel,
            (handle & 0xff) as u8,
            ReceiverSettleMode::First,
            &[],
        )?;
    }
    Ok(())
}
