//! Turns of a sender and an endpoint.

use amqp_endpoint::{Config, Event, Outcome};
use amqp_pair::{Joined, Turn, TurnAnswer, joined};
use amqp_send::{OfferFault, SendConfig};
use std::alloc::{Allocator, Global};
use std::process::Abort;
use std::test::Fail;

/// Makes these turns on an endpoint with frames of 512 bytes, four deliveries of ten bytes for a link, and this
/// many places of its window.
fn run<A: Allocator + Copy>(alloc: A, window: u32, turns: &[Turn<'_>]) -> Result<Joined<A>, Fail> {
    let name = String::from_str(alloc, "r")?;
    let config = Config::checked(name, 512, 0, 1, 4, 10, window).ok_or("refused settings")?;
    let sender = SendConfig {
        container_id: String::from_str(alloc, "s")?,
        name: String::from_str(alloc, "l")?,
    };
    Ok(joined(alloc, config, sender, turns)?)
}

/// The answers of the endpoint to what it was fed.
fn told<A: Allocator + Copy>(joined: &Joined<A>, at: usize) -> Option<Outcome> {
    match joined.answers.get(at) {
        Some(TurnAnswer::EndpointFed(fed)) => Some(fed.outcome),
        _ => None,
    }
}

#[test]
fn a_message_goes_through(rt: HostRuntime) -> Result<(), Fail> {
    let turns = [
        Turn::ToEndpoint(8),
        Turn::ToSender(8),
        Turn::ToEndpoint(100),
        Turn::ToEndpoint(100),
        Turn::ToEndpoint(100),
        Turn::Offer(b"hi"),
        Turn::Grant(1),
        Turn::ToSender(200),
        Turn::ToSender(200),
        Turn::ToSender(200),
        Turn::ToSender(200),
        Turn::ToEndpoint(100),
        Turn::Take,
    ];
    let joined = run(rt.alloc(), 100, &turns)?;
    assert_gone_through(&rt, &joined)
}

/// Asserts what the endpoint told of each step, and that the message was taken.
// The body borrows what it uses: one that may drop it at each exit takes minutes to prove.
fn assert_gone_through(rt: &impl Abort, joined: &Joined<Global>) -> Result<(), Fail> {
    assert_eq!(rt; told(joined, 0), Some(Outcome::More));
    assert_eq!(rt; told(joined, 2), Some(Outcome::Event(Event::Opened)));
    assert_eq!(rt;
        told(joined, 3),
        Some(Outcome::Event(Event::Begun { channel: 0 }))
    );
    assert_eq!(rt;
        told(joined, 4),
        Some(Outcome::Event(Event::Attached {
            channel: 0,
            handle: 0
        }))
    );
    assert_eq!(rt;
        told(joined, 11),
        Some(Outcome::Event(Event::Ready {
            channel: 0,
            handle: 0
        }))
    );
    assert_eq!(rt; joined.pair.taken.len(), 1);
    match joined.pair.taken.get(0) {
        Some(taken) => assert_eq!(rt; taken.message.piece(0), b"hi".as_slice()),
        None => return Err(Fail::from("nothing was taken")),
    }
    Ok(())
}

#[test]
fn no_place_lets_nothing_through(rt: HostRuntime) -> Result<(), Fail> {
    let turns = [
        Turn::ToEndpoint(8),
        Turn::ToSender(8),
        Turn::ToEndpoint(100),
        Turn::ToEndpoint(100),
        Turn::ToEndpoint(100),
        Turn::Offer(b"hi"),
        Turn::Grant(1),
        Turn::ToSender(200),
        Turn::ToSender(200),
        Turn::ToSender(200),
        Turn::ToSender(200),
        Turn::Offer(b"ho"),
        Turn::ToEndpoint(100),
        Turn::Widen(1),
        Turn::ToSender(200),
        Turn::ToEndpoint(100),
        Turn::Take,
    ];
    let joined = run(rt.alloc(), 0, &turns)?;
    assert_held_back(&rt, &joined);
    Ok(())
}

/// Asserts that the message came once the window had a place, and that no other was taken over before.
fn assert_held_back(rt: &impl Abort, joined: &Joined<Global>) {
    assert_eq!(rt; told(joined, 12), Some(Outcome::More));
    assert!(rt;
        matches!(
            joined.answers.get(11),
            Some(TurnAnswer::NotTakenOver(OfferFault::Busy))
        )
    );
    assert_eq!(rt;
        told(joined, 15),
        Some(Outcome::Event(Event::Ready {
            channel: 0,
            handle: 0
        }))
    );
    assert_eq!(rt; joined.pair.taken.len(), 1);
}

#[test]
fn credit_is_drained(rt: HostRuntime) -> Result<(), Fail> {
    let turns = [
        Turn::ToEndpoint(8),
        Turn::ToSender(8),
        Turn::ToEndpoint(100),
        Turn::ToEndpoint(100),
        Turn::ToEndpoint(100),
        Turn::Grant(3),
        Turn::Drain,
        Turn::ToSender(200),
        Turn::ToSender(200),
        Turn::ToSender(200),
        Turn::ToSender(200),
        Turn::ToSender(200),
        Turn::ToEndpoint(100),
    ];
    let joined = run(rt.alloc(), 100, &turns)?;
    assert_eq!(rt;
        told(&joined, 12),
        Some(Outcome::Event(Event::Drained {
            channel: 0,
            handle: 0
        }))
    );
    Ok(())
}
