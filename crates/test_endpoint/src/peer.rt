//! What a peer sends to begin with, and what becomes of its deliveries.

use amqp_endpoint::{Event, Outcome};

/// Its header, open, begin on channel 0, and attach of a sender at handle 0.
pub const OPENING: [&[u8]; 4] = [
    b"AMQP\x00\x01\x00\x00",
    b"\x00\x00\x00\x11\x02\x00\x00\x00\x00\x53\x10\xc0\x04\x01\xa1\x01a",
    b"\x00\x00\x00\x14\x02\x00\x00\x00\x00\x53\x11\xc0\x07\x04\x40\x43\x52\x64\x52\x64",
    b"\x00\x00\x00\x20\x02\x00\x00\x00\x00\x53\x12\xc0\x13\x0a\xa1\x01l\x43\x42\x40\x40\x00\x53\x28\x45\x00\x53\x29\x45\x40\x40\x43",
];

/// A delivery on this link goes on.
pub const UNFINISHED: Outcome = Outcome::Event(Event::Unfinished {
    channel: 0,
    handle: 0,
});

/// One is whole.
pub const READY: Outcome = Outcome::Event(Event::Ready {
    channel: 0,
    handle: 0,
});
