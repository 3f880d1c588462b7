//! What is written for the peer. [5.3.3]
ghost use Rattle.std.specs.Prelude.{◌≡◌, ◌≤◌, ◌<◌, length};
ghost use Rattle.amqp_sasl.specs.Answers.{mechanisms_frame, challenge_frame, outcome_frame};

use crate::offer::Offer;

/// Returns the frame of a `sasl-mechanisms` that names what is offered. [5.3.3.1]
#[tactic(auto, unfolding(crate::specs::Answers::mechanisms_frame))]
pub fn mechanisms_frame(offer: Offer) -> &'static [u8]
    ensures value { result.now ≡ mechanisms_frame offer }
    ensures short { length result.now ≤ 43 }
{
    match (offer.anonymous, offer.plain, offer.external) {
        (true, true, true) =>
            b"\x00\x00\x00\x2b\x02\x01\x00\x00\x00\x53\x40\xc0\x1e\x01\xe0\x1b\x03\xa3\x09ANONYMOUS\x05PLAIN\x08EXTERNAL",
        (true, true, false) =>
            b"\x00\x00\x00\x22\x02\x01\x00\x00\x00\x53\x40\xc0\x15\x01\xe0\x12\x02\xa3\x09ANONYMOUS\x05PLAIN",
        (true, false, true) =>
            b"\x00\x00\x00\x25\x02\x01\x00\x00\x00\x53\x40\xc0\x18\x01\xe0\x15\x02\xa3\x09ANONYMOUS\x08EXTERNAL",
        (true, false, false) =>
            b"\x00\x00\x00\x1c\x02\x01\x00\x00\x00\x53\x40\xc0\x0f\x01\xe0\x0c\x01\xa3\x09ANONYMOUS",
        (false, true, true) =>
            b"\x00\x00\x00\x21\x02\x01\x00\x00\x00\x53\x40\xc0\x14\x01\xe0\x11\x02\xa3\x05PLAIN\x08EXTERNAL",
        (false, true, false) =>
            b"\x00\x00\x00\x18\x02\x01\x00\x00\x00\x53\x40\xc0\x0b\x01\xe0\x08\x01\xa3\x05PLAIN",
        (false, false, true) =>
            b"\x00\x00\x00\x1b\x02\x01\x00\x00\x00\x53\x40\xc0\x0e\x01\xe0\x0b\x01\xa3\x08EXTERNAL",
        (false, false, false) => unreachable!(),
    }
}

/// Returns the frame of a `sasl-challenge` that says nothing. [5.3.3.3]
#[tactic(auto, unfolding(crate::specs::Answers::challenge_frame))]
pub fn challenge_frame() -> [u8; 16]
    ensures { result ≡ challenge_frame }
{
    [0, 0, 0, 16, 2, 1, 0, 0, 0, 0x53, 0x42, 0xc0, 3, 1, 0xa0, 0]
}

/// Returns the frame of a `sasl-outcome`: 0 says that the peer is admitted, 1 that it is not. [5.3.3.6, 5.3.4]
#[tactic(auto, unfolding(crate::specs::Answers::outcome_frame))]
pub fn outcome_frame(code: u8) -> [u8; 16]
    ensures { result ≡ outcome_frame code }
{
    [
        0, 0, 0, 16, 2, 1, 0, 0, 0, 0x53, 0x44, 0xc0, 3, 1, 0x50, code,
    ]
}
