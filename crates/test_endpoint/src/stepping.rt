//! A server that is stepped through a stream by its host.

use crate::devices::Kept;
use crate::serving::{ENDS, RECORDS, STREAM, WRITTEN, config, one_by_one};
use amqp_endpoint::{End, Endpoint, Event, Outcome};
use amqp_frame::{Device, Direct};
use amqp_link::Tag;
use amqp_serve::{Done, Receipt, Received, Rule, Server, ServerFault, Status, Stepped, Topped};
use std::alloc::Global;
use std::process::Abort;
use std::test::Fail;

/// The close of this side [2.7.9].
const CLOSE: &[u8] = b"\x00\x00\x00\x0c\x02\x00\x00\x00\x00S\x18E";

/// What steps resulted in: how many bytes each used, and the bytes that they wrote and recorded.
#[derive(Drop)]
struct Steps {
    used: Vec<usize>,
    written: Vec<u8>,
    recorded: Vec<u8>,
    end: End,
}

/// Steps a new server through bytes, in pieces of this many at most, and lets it take nothing twice after
/// them.
fn step_through(alloc: Global, mut bytes: &[u8], most: usize) -> Result<Steps, Fail> {
    let endpoint = Endpoint::new(alloc, config(alloc)?)?;
    let mut server = Server::new(endpoint);
    let (mut written, mut recorded) = (Kept::all(alloc), Kept::all(alloc));
    let mut used = Vec::new(alloc);
    for _ in 0..STREAM.len().saturating_add(2) {
        let mut writer = Device::new(Direct::new(&mut written));
        let mut sink = Device::new(&mut recorded);
        let piece = bytes.get(..most).unwrap_or(bytes);
        let stepped = server.step(Rule::of(one_by_one()), piece, &mut writer, &mut sink);
        bytes = bytes.get(stepped.used..).unwrap_or(&[]);
        used.push(stepped.used)?;
    }
    Ok(Steps {
        used,
        written: written.bytes,
        recorded: recorded.bytes,
        end: server.finish()?,
    })
}

/// Steps a new server through the stream, a unit at a time, up to the step of this number, and returns that.
fn step_at(alloc: Global, number: usize) -> Result<Stepped, Fail> {
    let mut server = Server::new(Endpoint::new(alloc, config(alloc)?)?);
    let (mut written, mut recorded) = (Kept::all(alloc), Kept::all(alloc));
    let mut bytes = STREAM;
    for at in 0..STREAM.len() {
        let mut writer = Device::new(Direct::new(&mut written));
        let mut sink = Device::new(&mut recorded);
        let stepped = server.step(Rule::of(one_by_one()), bytes, &mut writer, &mut sink);
        bytes = bytes.get(stepped.used..).unwrap_or(&[]);
        if at == number {
            return Ok(stepped);
        }
    }
    Err(Fail::from("no such step"))
}

/// However the stream is cut, the steps write and record what it makes, and take nothing after its end.
#[test]
fn steps_ignore_cuts(rt: HostRuntime) -> Result<(), Fail> {
    for most in [1, 3, 7, 50, STREAM.len()] {
        let steps = step_through(rt.alloc(), STREAM, most)?;
        assert_eq!(rt; steps.written.as_slice(), WRITTEN, "{most}");
        assert_eq!(rt; steps.recorded.as_slice(), RECORDS, "{most}");
        assert_eq!(rt; steps.end, End::Closed, "{most}");
        assert_eq!(rt; steps.used.last().copied(), Some(0), "{most}");
    }
    Ok(())
}

/// A step takes at most one unit, and tells what it did.
#[test]
fn a_step_tells_what_it_did(rt: HostRuntime) -> Result<(), Fail> {
    let steps = step_through(rt.alloc(), STREAM, STREAM.len())?;
    let mut at = 0_usize;
    for (used, end) in steps.used.iter().zip(ENDS) {
        at = at.saturating_add(*used);
        assert_eq!(rt; at, end);
    }
    assert_step(&rt, rt.alloc(), 3, attached(), Receipt::Nothing, 1)?;
    let first = Received {
        delivery_id: 0,
        delivery_tag: Tag::of(b"t").ok_or("too long")?,
        len: 1,
    };
    assert_step(&rt, rt.alloc(), 4, ready(), Receipt::Told(first), 1)
}

fn attached() -> Event {
    Event::Attached {
        channel: 0,
        handle: 0,
    }
}

fn ready() -> Event {
    Event::Ready {
        channel: 0,
        handle: 0,
    }
}

/// The step of this number told that, and granted this much.
fn assert_step(
    rt: &impl Abort,
    alloc: Global,
    number: usize,
    event: Event,
    receipt: Receipt,
    granted: u32,
) -> Result<(), Fail> {
    let Stepped { told, done, .. } = step_at(alloc, number)?;
    let Ok(
        Done {
            receipt: got,
            topped,
        },
    ) = done
    else {
        return Err(Fail::from("the step failed"));
    };
    let wanted = Topped {
        granted,
        ..Topped::NOTHING
    };
    assert_eq!(rt; told, Outcome::Event(event));
    assert_eq!(rt; got, receipt);
    assert_eq!(rt; topped, wanted);
    Ok(())
}

/// A server that has closed its connection hands out the close, and hears nothing any more.
#[test]
fn a_server_that_closed_hears_nothing(rt: HostRuntime) -> Result<(), Fail> {
    let alloc = rt.alloc();
    let mut server = Server::new(Endpoint::new(alloc, config(alloc)?)?);
    assert_eq!(rt; server.heartbeat(), Err(ServerFault::NotOpen));
    let header = step_once(alloc, &mut server, STREAM);
    let rest = STREAM.get(header.used..).unwrap_or(&[]);
    let open = step_once(alloc, &mut server, rest);
    assert_eq!(rt; server.heartbeat(), Ok([0, 0, 0, 8, 2, 0, 0, 0]));
    assert_eq!(rt; server.close(), Ok(()));
    assert_eq!(rt; server.unsent_front(), CLOSE);
    let begin = rest.get(open.used..).unwrap_or(&[]);
    assert_eq!(rt; step_once(alloc, &mut server, begin).used, 0);
    assert_eq!(rt; server.finish(), Err(ServerFault::Over));
    assert_eq!(rt; server.status(), Status::Ended);
    Ok(())
}

/// Makes one step, and drops what it writes and records.
fn step_once(alloc: Global, server: &mut Server, piece: &[u8]) -> Stepped {
    let mut writer = Device::new(Direct::new(Kept::all(alloc)));
    let mut sink = Device::new(Kept::all(alloc));
    server.step(Rule::of(one_by_one()), piece, &mut writer, &mut sink)
}
