//! Short messages that come one at a time, as from a peer that waits for its grant, to a receiver over a socket.

use crate::desk::Desk;
use crate::failure::Failure;
use crate::peer::Head;
use crate::receiving::{RECORD_HEAD, Reads, Receiver};
use crate::telemetry::begin;

/// Serves a connection on which messages of 50 to 150 bytes come on one link, each frame in a read of its own, two in three of
/// them unsettled. All of them are recorded.
pub fn run(desk: &mut Desk, credit: u32) -> Result<(), Failure> {
    let (numbers, peer) = (&mut desk.numbers, &mut desk.peer);
    peer.open(&[])?;
    begin(peer, 0, 1)?;
    let mut id = numbers.word();
    let mut recorded = desk.records.bytes();
    for _ in 0..desk.size.of(4096, 100) {
        let head = Head {
            channel: 0,
            handle: 0,
            id,
            settled: numbers.is_one_of(3),
            more: false,
        };
        let payload = numbers.between(50, 150);
        peer.transfer(head, numbers, payload)?;
        recorded = recorded
            .wrapping_add(RECORD_HEAD)
            .wrapping_add(payload as u64);
        id = id.wrapping_add(1);
    }
    peer.close()?;
    let receiver = Receiver {
        reads: Reads::OneFrame,
        credit,
    };
    receiver.serve(desk)?;
    if desk.records.bytes() == recorded {
        Ok(())
    } else {
        Err(Failure::Lost)
    }
}
