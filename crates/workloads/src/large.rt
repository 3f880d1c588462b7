//! Large messages, in frames as long as stock peers send them, to a receiver over a socket.

use crate::desk::Desk;
use crate::failure::Failure;
use crate::numbers::Numbers;
use crate::peer::{Head, Peer};
use crate::receiving::{Reads, Receiver};
use crate::telemetry::begin;

/// The longest message of all but a few, in bytes, and that of the few.
const LONG: u32 = 100_000;

const LONGEST: u32 = 1_000_000;

/// Serves a connection on which messages of 10,000 to 100,000 bytes come, one in eight of 1,000,000, in frames of 5,000 to 60,000
/// bytes, two in three of them unsettled.
pub fn run(desk: &mut Desk) -> Result<(), Failure> {
    let (numbers, peer) = (&mut desk.numbers, &mut desk.peer);
    let receiver = Receiver {
        reads: Reads::AtMost(numbers.of_these(&[16384, 65536, 65536])),
        credit: numbers.of_these(&[16, 100, 1000]),
    };
    let frame = numbers.between(5_000, 60_000);
    peer.open(&[])?;
    begin(peer, 0, 1)?;
    let mut id = numbers.word();
    for number in 0..desk.size.of(48, 8) {
        let bytes = if number % 8 == 7 {
            LONGEST
        } else {
            numbers.between(10_000, LONG)
        };
        send(peer, numbers, id, bytes, frame)?;
        id = id.wrapping_add(1);
    }
    peer.close()?;
    receiver.serve(desk)
}

/// Appends a message of this many bytes, in frames that have at most this many of them.
fn send(
    peer: &mut Peer,
    numbers: &mut Numbers,
    id: u32,
    bytes: u32,
    frame: u32,
) -> Result<(), Failure> {
    let head = Head {
        channel: 0,
        handle: 0,
        id,
        settled: numbers.is_one_of(3),
        more: bytes > frame,
    };
    peer.transfer(head, numbers, bytes.min(frame))?;
    let mut left = bytes.saturating_sub(frame);
    for _ in 0..bytes {
        if left == 0 {
            break;
        }
        peer.goes_on(0, 0, left > frame, numbers, left.min(frame))?;
        left = left.saturating_sub(frame);
    }
    Ok(())
}
