//! How many sessions and links a gateway lets a peer have.

use crate::run_tests::{gateway_served, has_line};
use std::alloc::Global;
use std::io;
use std::process::{Abort, ExitCode};
use std::test::Fail;

/// A header and an open.
const OPEN: &[u8] =
    b"AMQP\x00\x01\x00\x00\x00\x00\x00\x11\x02\x00\x00\x00\x00\x53\x10\xc0\x04\x01\xa1\x01\x61";

/// A begin, an attach of a sender, and a message of one byte, on channel 0 and with handle and id 0.
const BEGIN: [u8; 20] =
    *b"\x00\x00\x00\x14\x02\x00\x00\x00\x00\x53\x11\xc0\x07\x04\x40\x43\x52\x64\x52\x64";

const ATTACH: [u8; 33] =
    *b"\x00\x00\x00\x21\x02\x00\x00\x00\x00\x53\x12\xc0\x14\x0a\xa1\x01a\x52\x00\x42\x40\x40\x00\x53\x28\x45\x00\x53\x29\x45\x40\x40\x43";

const TRANSFER: [u8; 22] =
    *b"\x00\x00\x00\x16\x02\x00\x00\x00\x00\x53\x14\xc0\x08\x03\x52\x00\x52\x00\xa0\x01tx";

/// Where the channel is in a begin, name and handle in an attach, and handle and id in a transfer.
const CHANNEL: usize = 7;

const NAME: usize = 16;

const HANDLE: usize = 18;

const OF_LINK: usize = 15;

const ID: usize = 17;

const CLOSE: &[u8] = b"\x00\x00\x00\x0c\x02\x00\x00\x00\x00\x53\x18\x45";

/// Returns what a peer sends that begins so many sessions, attaches so many links in the first one, whose names are the letters
/// from a on, sends a message on each, and closes.
fn stream_of(alloc: Global, sessions: u8, links: u8) -> io::Result<Vec<u8>> {
    let mut stream = Vec::new(alloc);
    stream.extend_from_slice(OPEN)?;
    for channel in 0..sessions {
        let mut begin = BEGIN;
        begin[CHANNEL] = channel;
        stream.extend_from_slice(&begin)?;
    }
    for handle in 0..links {
        let mut attach = ATTACH;
        attach[NAME] = b'a'.saturating_add(handle % 26);
        attach[HANDLE] = handle;
        stream.extend_from_slice(&attach)?;
    }
    for handle in 0..links {
        let mut transfer = TRANSFER;
        transfer[OF_LINK] = handle;
        transfer[ID] = handle;
        stream.extend_from_slice(&transfer)?;
    }
    stream.extend_from_slice(CLOSE)?;
    Ok(stream)
}

/// Asserts which lines a gateway tells of a peer with so many sessions and links, if it has two words more.
fn assert_told(
    rt: &impl Abort,
    host: &HostRuntime,
    more: [&str; 2],
    sessions: u8,
    links: u8,
    lines: [&str; 2],
) -> Result<(), Fail> {
    let stream = stream_of(host.alloc(), sessions, links)?;
    let left = gateway_served(host, more, &stream)?;
    assert!(rt; left.status == ExitCode::SUCCESS);
    for line in lines {
        assert!(rt; has_line(&left.told, line), "{line}");
    }
    Ok(())
}

/// With no option two sessions and eight links of one are served.
#[test]
fn a_gateway_serves_two_sessions_and_eight_links(rt: HostRuntime) -> Result<(), Fail> {
    let more = ["--idle=60", "--events=-"];
    for line in [
        "1 0ms session 1 began",
        "1 0ms link \"h\" began in session 0",
        "1 0ms message id=0 length=1 on link \"a\": accepted",
        "1 0ms message id=7 length=1 on link \"h\": accepted",
    ] {
        assert_told(&rt, &rt, more, 2, 8, [line, "connection 1: Closed"])?;
    }
    Ok(())
}

/// A session or a link more than there may be ends the connection [2.4.1, 2.7.2].
#[test]
fn a_gateway_refuses_a_session_or_a_link_too_many(rt: HostRuntime) -> Result<(), Fail> {
    let lines = [
        "connection 1: ended with amqp:connection:framing-error",
        "connection 1: Failed",
    ];
    for (word, sessions, links) in [
        ("--events=-", 3, 0),
        ("--events=-", 1, 9),
        ("--sessions=1", 2, 0),
        ("--links=1", 1, 2),
        ("--links=64", 1, 65),
    ] {
        assert_told(&rt, &rt, ["--idle=60", word], sessions, links, lines)?;
    }
    Ok(())
}

/// As many as an option says are served.
#[test]
fn a_gateway_serves_as_many_as_an_option_says(rt: HostRuntime) -> Result<(), Fail> {
    for (word, sessions, links) in [
        ("--sessions=1", 1, 8),
        ("--sessions=8", 8, 8),
        ("--links=1", 2, 1),
        ("--links=64", 2, 64),
    ] {
        let closed = ["connection 1: opened by \"a\"", "connection 1: Closed"];
        assert_told(&rt, &rt, ["--idle=60", word], sessions, links, closed)?;
    }
    Ok(())
}
