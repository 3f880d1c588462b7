//! What an endpoint shows of itself, and what `replay` answers.

use amqp_endpoint::{Answer, Call, Config, Endpoint, Event, Outcome, replay};
use amqp_link::Message;
use amqp_session::LinkView;
use std::alloc::{Allocator, Global};
use std::process::Abort;
use std::test::Fail;

/// The peer's header, open, begin and attach.
const STREAM: &[u8] =
    b"AMQP\x00\x01\x00\x00\x00\x00\x00\x11\x02\x00\x00\x00\x00\x53\x10\xc0\x04\x01\xa1\x01a\x00\x00\x00\x14\x02\x00\x00\x00\x00\x53\x11\xc0\x07\x04\x40\x43\x52\x64\x52\x64\x00\x00\x00\x20\x02\x00\x00\x00\x00\x53\x12\xc0\x13\x0a\xa1\x01l\x43\x42\x40\x40\x00\x53\x28\x45\x00\x53\x29\x45\x40\x40\x43";

/// How many bytes may wait for the peer, in one block.
const BLOCK: usize = 8192;

/// An empty frame on channel 0.
const HEARTBEAT: &[u8] = b"\x00\x00\x00\x08\x02\x00\x00\x00";

/// A delivery with the id 0 in three transfers.
const PARTS: [&[u8]; 3] = [
    b"\x00\x00\x00\x19\x02\x00\x00\x00\x00\x53\x14\xc0\x09\x06\x43\x43\xa0\x01t\x40\x40\x41abc",
    b"\x00\x00\x00\x15\x02\x00\x00\x00\x00\x53\x14\xc0\x07\x06\x43\x40\x40\x40\x40\x41d",
    b"\x00\x00\x00\x10\x02\x00\x00\x00\x00\x53\x14\xc0\x02\x01\x43e",
];

/// Returns an endpoint of the container 'r', with frames of 512 bytes, channel 0, the handles 0 and 1, four
/// deliveries of ten bytes for a link, and a window of 100 places.
fn config<A: Allocator + Copy>(alloc: A) -> Result<Config<A>, Fail> {
    let name = String::from_str(alloc, "r")?;
    Ok(Config::checked(name, 512, 0, 1, 4, 10, 100).ok_or("refused settings")?)
}

/// Feeds all of a stream, and returns the last outcome.
fn feed_all<A: Allocator + Copy>(endpoint: &mut Endpoint<A>, stream: &[u8]) -> Outcome {
    let mut at = 0;
    let mut last = Outcome::More;
    for _ in 0..stream.len() {
        let fed = endpoint.feed(stream.get(at..).unwrap_or(&[]));
        at = at.saturating_add(fed.used).min(stream.len());
        if fed.used > 0 {
            last = fed.outcome;
        }
    }
    last
}

#[test]
fn an_endpoint_shows_its_windows_and_links(rt: HostRuntime) -> Result<(), Fail> {
    let alloc = rt.alloc();
    let mut endpoint = Endpoint::new(alloc, config(alloc)?.copy(alloc)?)?;
    assert_shown(&rt, &endpoint, None, &[]);
    attach(&rt, &mut endpoint);
    deliver(&rt, &mut endpoint)?;
    take(&rt, alloc, &mut endpoint)?;
    detach(&rt, &mut endpoint);
    Ok(())
}

/// Has the peer attach its link, and grants it credit for one delivery.
// The body borrows what it uses: one that may drop it at each exit takes minutes to prove.
fn attach(rt: &impl Abort, endpoint: &mut Endpoint) {
    let attached = Outcome::Event(Event::Attached {
        channel: 0,
        handle: 0,
    });
    assert_eq!(rt; feed_all(endpoint, STREAM), attached);
    assert_shown(rt, endpoint, Some(100), &[0]);
    assert_eq!(rt; endpoint.grant(0, 0, 1), Ok(()));
}

/// Feeds the delivery.
fn deliver(rt: &impl Abort, endpoint: &mut Endpoint) -> Result<(), Fail> {
    for part in PARTS {
        let _ = endpoint.feed(part);
    }
    match endpoint.link(0, 0) {
        Some(link) => assert_link(rt, &link),
        None => return Err(Fail::from("no link")),
    }
    assert_shown(rt, endpoint, Some(97), &[0]);
    Ok(())
}

/// Takes it.
fn take(rt: &impl Abort, alloc: Global, endpoint: &mut Endpoint) -> Result<(), Fail> {
    match endpoint.take(0, 0) {
        Ok(taken) => assert_message(rt, alloc, &taken.message),
        Err(_) => Err(Fail::from("nothing taken")),
    }
}

/// Asserts that it is the message.
fn assert_message(rt: &impl Abort, alloc: Global, message: &Message) -> Result<(), Fail> {
    let message = message.to_vec(alloc)?;
    assert_eq!(rt; message.as_slice(), b"abcde".as_slice());
    Ok(())
}

/// Detaches the link.
fn detach(rt: &impl Abort, endpoint: &mut Endpoint) {
    assert_eq!(rt; endpoint.detach(0, 0), Ok(0));
    assert_shown(rt, endpoint, Some(97), &[]);
}

/// Asserts that channel 0 has this window, and the links at these handles; and that there are no others.
fn assert_shown(rt: &impl Abort, endpoint: &Endpoint, window: Option<u32>, handles: &[u32]) {
    assert_eq!(rt; (endpoint.window(0), endpoint.window(1)), (window, None));
    for handle in 0..2 {
        let is_there = handles.contains(&handle);
        assert_eq!(rt; endpoint.link(0, handle).is_some(), is_there, "{handle}");
        assert!(rt; endpoint.link(65535, handle).is_none());
    }
}

/// Asserts that a link has these names, and has used its credit for one delivery.
fn assert_link(rt: &impl Abort, link: &LinkView<'_>) {
    let terms = (link.name, link.source, link.target);
    let wanted = (
        b"l".as_slice(),
        b"\x00\x53\x28\x45".as_slice(),
        b"\x00\x53\x29\x45".as_slice(),
    );
    assert_eq!(rt; terms, wanted);
    assert_eq!(rt; (link.credit, link.opened, link.ready), (0, 1, 1));
}

#[test]
fn a_replay_has_an_answer_for_each_call(rt: HostRuntime) -> Result<(), Fail> {
    let alloc = rt.alloc();
    let calls = [
        Call::Feed(&STREAM[..8]),
        Call::Held,
        Call::Output(5),
        Call::Heartbeat,
        Call::Take {
            channel: 0,
            handle: 0,
        },
        Call::Finish,
    ];
    let (endpoint, answers) = replay(alloc, config(alloc)?, &calls)?;
    assert_replayed(&rt, &endpoint, &answers)
}

/// Asserts that these are the answers, and that the endpoint holds three bytes then.
fn assert_replayed(rt: &impl Abort, endpoint: &Endpoint, answers: &[Answer]) -> Result<(), Fail> {
    assert_eq!(rt; answers.len(), 6);
    assert_eq!(rt; endpoint.held(), 3);
    match answers {
        [
            Answer::Fed(fed),
            Answer::Holds(8),
            Answer::MovedOut(moved),
            Answer::Refused(_),
            Answer::Refused(_),
            Answer::Ended(_),
        ] => {
            assert_eq!(rt; (fed.used, fed.outcome), (8, Outcome::More));
            assert_eq!(rt; moved.as_slice(), b"AMQP\x00".as_slice());
            Ok(())
        }
        _ => Err(Fail::from("another answer")),
    }
}

/// Writes empty frames until there is no room for more, and appends them to what was written.
fn fill(endpoint: &mut Endpoint, written: &mut Vec<u8>) -> Result<(), Fail> {
    for _ in 0..BLOCK {
        if endpoint.heartbeat().is_err() {
            break;
        }
        written.extend_from_slice(HEARTBEAT)?;
    }
    Ok(())
}

/// Moves out this many bytes of those that wait, or all if they are fewer.
fn move_out(alloc: Global, endpoint: &mut Endpoint, count: usize) -> Result<(), Fail> {
    let mut room = Vec::from_elem(alloc, 0, count)?;
    endpoint.output(room.as_mut_slice());
    Ok(())
}

/// Asserts that what waits is lent from one place of all that was written to another.
fn assert_lent(rt: &impl Abort, endpoint: &Endpoint, written: &[u8], from: usize, to: usize) {
    let lent = endpoint.unsent_front();
    assert_eq!(rt; lent.len(), to.saturating_sub(from));
    assert!(rt; written.get(from..to) == Some(lent));
}

#[test]
fn what_waits_is_lent_up_to_the_end_of_its_block(rt: HostRuntime) -> Result<(), Fail> {
    let alloc = rt.alloc();
    let mut endpoint = Endpoint::new(alloc, config(alloc)?)?;
    let _ = feed_all(&mut endpoint, STREAM);
    let mut written = Vec::from_slice(alloc, endpoint.unsent_front())?;
    fill_twice(&rt, alloc, &mut endpoint, &mut written)
}

/// Fills the block, moves out a part, and fills it over its end, where what waits is then lent in two pieces.
fn fill_twice(
    rt: &impl Abort,
    alloc: Global,
    endpoint: &mut Endpoint,
    written: &mut Vec<u8>,
) -> Result<(), Fail> {
    fill(endpoint, written)?;
    assert_lent(rt, endpoint, written, 0, written.len());
    move_out(alloc, endpoint, 5000)?;
    assert_lent(rt, endpoint, written, 5000, written.len());
    fill(endpoint, written)?;
    assert_lent(rt, endpoint, written, 5000, BLOCK);
    move_out(alloc, endpoint, 1000)?;
    assert_lent(rt, endpoint, written, 6000, BLOCK);
    move_out(alloc, endpoint, BLOCK - 6000)?;
    assert_lent(rt, endpoint, written, BLOCK, written.len());
    Ok(())
}
