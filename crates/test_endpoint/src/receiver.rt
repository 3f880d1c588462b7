//! The example `example_one_link`, run.

use amqp_endpoint::Config;
use example_one_link::Receiver;
use std::process::Abort;
use std::test::Fail;

/// What a sender sent: its header, open, begin and attach, and two deliveries of one byte each.
const SENT: &[u8] = b"AMQP\x00\x01\x00\x00\
    \x00\x00\x00\x11\x02\x00\x00\x00\x00\x53\x10\xc0\x04\x01\xa1\x01a\
    \x00\x00\x00\x14\x02\x00\x00\x00\x00\x53\x11\xc0\x07\x04\x40\x43\x52\x64\x52\x64\
    \x00\x00\x00\x20\x02\x00\x00\x00\x00\x53\x12\xc0\x13\x0a\xa1\x01l\x43\x42\x40\x40\x00\x53\x28\x45\x00\x53\x29\x45\x40\x40\x43\
    \x00\x00\x00\x14\x02\x00\x00\x00\x00\x53\x14\xc0\x06\x03\x43\x43\xa0\x01tx\
    \x00\x00\x00\x15\x02\x00\x00\x00\x00\x53\x14\xc0\x07\x03\x43\x52\x01\xa0\x01ty";

/// A sender that sends one delivery more than the credit is not obeyed: it gets the detach of its link.
#[test]
fn gets_what_it_granted(rt: HostRuntime) -> Result<(), Fail> {
    let name = String::from_str(rt.alloc(), "r")?;
    let config = Config::checked(name, 512, 0, 1, 4, 10, 100).ok_or("out of range")?;
    let mut receiver = Receiver::new(rt.alloc(), config, 1)?;
    feed_all(&rt, &mut receiver);
    Ok(())
}

/// Feeds all that the sender sent, and moves out what waits.
// The body borrows what it uses: one that may drop it at each exit takes minutes to prove.
fn feed_all(rt: &impl Abort, receiver: &mut Receiver) {
    let (mut rest, mut room, mut moved) = (SENT, [0; 64], 0);
    for _ in 0..SENT.len() {
        let (fed, taken) = receiver.feed(rest);
        rest = &rest[fed.used..];
        if let Some(taken) = taken {
            assert_eq!(rt; taken.message.piece(0), b"x".as_slice());
        }
        for _ in 0..4 {
            moved = receiver.output(&mut room).saturating_add(moved);
        }
        assert!(rt; receiver.held() <= 512 + 8192 + 64 + 2 * (1407 + 4 * (10 + 96)));
    }
    assert!(rt; rest.is_empty());
    assert_eq!(rt; receiver.got(), 1);
    // the header, the replies to open, begin and attach, the flow of one credit, a disposition, and the detach with its error
    assert_eq!(rt; moved, 8 + 26 + 23 + 34 + 23 + 22 + 57);
}
