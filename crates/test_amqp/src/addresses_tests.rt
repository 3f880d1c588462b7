//! Which links a gateway admits by a file of addresses.

use crate::run_tests::{gateway_served_by, has_line};
use std::alloc::Global;
use std::io;
use std::process::{Abort, ExitCode};
use std::test::Fail;

/// A header, an open and a begin.
const BEGIN: &[u8] =
    b"AMQP\x00\x01\x00\x00\x00\x00\x00\x11\x02\x00\x00\x00\x00\x53\x10\xc0\x04\x01\xa1\x01a\x00\x00\x00\x14\x02\x00\x00\x00\x00\x53\x11\xc0\x07\x04\x40\x43\x52\x64\x52\x64";

/// What an attach of a sender has before its target, after the bytes that say how long it is, and what it has behind.
const BEFORE: &[u8] = b"\x0a\xa1\x01a\x52\x00\x42\x40\x40\x00\x53\x28\x45";

const BEHIND: &[u8] = b"\x40\x40\x43";

/// A message of one byte on that link, and a close.
const MESSAGE: &[u8] =
    b"\x00\x00\x00\x16\x02\x00\x00\x00\x00\x53\x14\xc0\x08\x03\x52\x00\x52\x00\xa0\x01tx\x00\x00\x00\x0c\x02\x00\x00\x00\x00\x53\x18\x45";

/// The target of a link without an address.
const NO_ADDRESS: &[u8] = b"\x00\x53\x29\x45";

/// Returns the target with an address, which is short.
fn target_of(alloc: Global, address: &str) -> io::Result<Vec<u8>> {
    let len = address.len().min(100) as u8;
    let mut target = Vec::new(alloc);
    target.extend_from_slice(&[0, 0x53, 0x29, 0xc0, len + 3, 1, 0xa1, len])?;
    target.extend_from_slice(address.as_bytes())?;
    Ok(target)
}

/// Returns what a peer sends that attaches a link with this target, sends a message on it, and closes.
fn stream_to(alloc: Global, target: &[u8]) -> io::Result<Vec<u8>> {
    let fields = (BEFORE.len() + BEHIND.len() + target.len().min(150)) as u8;
    let mut stream = Vec::new(alloc);
    stream.extend_from_slice(BEGIN)?;
    let front = [
        0,
        0,
        0,
        fields + 13,
        2,
        0,
        0,
        0,
        0,
        0x53,
        0x12,
        0xc0,
        fields,
    ];
    for part in [front.as_slice(), BEFORE, target, BEHIND, MESSAGE] {
        stream.extend_from_slice(part)?;
    }
    Ok(stream)
}

/// What a gateway tells of a message that it takes, and of a link that it refuses.
const TAKEN: &str = "message id=0 length=1 on link \"a\": accepted";

const REFUSED: &str = "connection 1: link 0 0 refused with amqp:not-found";

/// Asserts that a gateway by a file of addresses takes a message to this target, or refuses its link with this description.
fn assert_admits(
    rt: &impl Abort,
    host: &HostRuntime,
    file: &[u8],
    target: &[u8],
    refused: Option<&str>,
) -> Result<(), Fail> {
    let stream = stream_to(host.alloc(), target)?;
    let left = gateway_served_by(host, ["--addresses=a.amqp", "--trace=-"], &stream, file)?;
    assert!(rt; left.status == ExitCode::SUCCESS);
    let told = left.told.as_str();
    assert!(rt; told.contains(TAKEN) == refused.is_none());
    assert!(rt; told.contains(REFUSED) == refused.is_some());
    if let Some(description) = refused {
        let line = format!(in host.alloc(); "{REFUSED}: {description}")?;
        assert!(rt; has_line(told, line.as_str()), "{line}");
        // and the trace has it, in what was sent
        assert!(rt; told.split(description).count() > 2, "{description}");
    }
    Ok(())
}

/// A line of an address admits no other, and a prefix all that begin so.
#[test]
fn a_gateway_admits_links_by_their_addresses(rt: HostRuntime) -> Result<(), Fail> {
    for (file, address, refused) in [
        (b"orders 4\n".as_slice(), "orders", None),
        (
            b"orders 4\n",
            "orders-private",
            Some("\"unknown address: orders-private\""),
        ),
        (b"orders 4\n", "order", Some("\"unknown address: order\"")),
        (b"orders* 4\n", "orders-private", None),
        (b"*", "orders", None),
        (b"", "orders", Some("\"unknown address: orders\"")),
        (b"or\\x64ers", "orders", None),
    ] {
        let target = target_of(rt.alloc(), address)?;
        assert_admits(&rt, &rt, file, &target, refused)?;
    }
    Ok(())
}

/// A link without an address is refused, also where every address is admitted.
#[test]
fn a_gateway_refuses_a_link_without_an_address(rt: HostRuntime) -> Result<(), Fail> {
    assert_admits(
        &rt,
        &rt,
        b"*",
        NO_ADDRESS,
        Some("\"the target has no address\""),
    )
}
