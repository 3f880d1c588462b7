//! What `send` writes, and which fate it tells.

use amqp_commands::send::{Fate, Why, send_all, send_all_heard};
use amqp_frame::Device;
use amqp_send::{SendConfig, Sender};
use std::alloc::{AllocError, Global};
use std::test::Fail;

/// What a sender named `s`, with a link named `l`, writes from the header to the transfer of 'hi', and its close.
const WRITTEN: &[u8] = b"AMQP\x00\x01\x00\x00\
\x00\x00\x00\x1a\x02\x00\x00\x00\x00\x53\x10\xc0\x0d\x04\xa1\x01s\x40\x70\x00\x00\x10\x00\x60\x00\x00\
\x00\x00\x00\x17\x02\x00\x00\x00\x00\x53\x11\xc0\x0a\x05\x40\x43\x43\x70\x00\x00\x08\x00\x43\
\x00\x00\x00\x21\x02\x00\x00\x00\x00\x53\x12\xc0\x14\x0a\xa1\x01l\x43\x42\x50\x00\x40\x00\x53\x28\x45\x00\x53\x29\x45\x40\x40\x43\
\x00\x00\x00\x19\x02\x00\x00\x00\x00\x53\x14\xc0\x0a\x04\x43\x43\xa0\x04\x00\x00\x00\x00\x43hi\
\x00\x00\x00\x0c\x02\x00\x00\x00\x00\x53\x18\x45";

/// What a receiver says from its header to the flow that gives credit of 1.
const RECEIVER: &[u8] = b"AMQP\x00\x01\x00\x00\
\x00\x00\x00\x1a\x02\x00\x00\x00\x00\x53\x10\xc0\x0d\x04\xa1\x01r\x40\x70\x00\x00\x02\x00\x60\x00\x00\
\x00\x00\x00\x16\x02\x00\x00\x00\x00\x53\x11\xc0\x09\x05\x60\x00\x00\x43\x52\x64\x43\x43\
\x00\x00\x00\x23\x02\x00\x00\x00\x00\x53\x12\xc0\x16\x0b\xa1\x01l\x43\x41\x50\x00\x40\x00\x53\x28\x45\x00\x53\x29\x45\x40\x40\x40\x53\x0a\
\x00\x00\x00\x17\x02\x00\x00\x00\x00\x53\x13\xc0\x0a\x07\x43\x52\x64\x43\x43\x43\x43\x52\x01";

const CLOSE: &[u8] = b"\x00\x00\x00\x0c\x02\x00\x00\x00\x00\x53\x18\x45";

/// Returns a sender named `s`, with a link named `l`.
fn sender(alloc: Global) -> Result<Sender, AllocError> {
    let config = SendConfig {
        container_id: String::from_str(alloc, "s")?,
        name: String::from_str(alloc, "l")?,
    };
    if config.container_id.len() > 255 || config.name.len() > 255 {
        return Err(AllocError);
    }
    Sender::new(alloc, config)
}

/// Returns what becomes of 'hi' where the receiver says this after its flow, and what is written.
fn sent(alloc: Global, told: &[u8]) -> Result<(Fate, Vec<u8>), Fail> {
    let mut input = Vec::from_slice(alloc, RECEIVER)?;
    input.extend_from_slice(told)?;
    input.extend_from_slice(CLOSE)?;
    let mut bytes = input.as_slice();
    let mut out = Vec::new(alloc);
    let message = Vec::from_slice(alloc, b"hi")?;
    let fate = send_all(
        &mut sender(alloc)?,
        &mut Device::new(&mut bytes),
        &mut Device::new(&mut out),
        message,
    );
    Ok((fate.map_err(|_| "a fault")?, out))
}

#[test]
fn the_fate_is_told(rt: HostRuntime) -> Result<(), Fail> {
    let cases: [(&[u8], Fate); 5] = [
        (
            b"\x00\x00\x00\x16\x02\x00\x00\x00\x00\x53\x15\xc0\x09\x05\x41\x43\x40\x41\x00\x53\x24\x45",
            Fate::Accepted,
        ),
        (
            b"\x00\x00\x00\x16\x02\x00\x00\x00\x00\x53\x15\xc0\x09\x05\x41\x43\x40\x41\x00\x53\x25\x45",
            Fate::Rejected,
        ),
        (
            b"\x00\x00\x00\x16\x02\x00\x00\x00\x00\x53\x15\xc0\x09\x05\x41\x43\x40\x40\x00\x53\x26\x45",
            Fate::Released,
        ),
        (
            b"\x00\x00\x00\x16\x02\x00\x00\x00\x00\x53\x15\xc0\x09\x05\x41\x43\x40\x41\x00\x53\x27\x45",
            Fate::Modified,
        ),
        (
            b"\x00\x00\x00\x12\x02\x00\x00\x00\x00\x53\x15\xc0\x05\x04\x41\x43\x40\x41",
            Fate::Settled,
        ),
    ];
    for (told, fate) in cases {
        let (is, out) = sent(rt.alloc(), told)?;
        assert_eq!(rt; (is, out.as_slice()), (fate, WRITTEN));
    }
    Ok(())
}

/// A close in place of a disposition, or a disposition of another delivery: the message has no fate.
#[test]
fn an_end_is_told(rt: HostRuntime) -> Result<(), Fail> {
    let of_another =
        b"\x00\x00\x00\x17\x02\x00\x00\x00\x00\x53\x15\xc0\x0a\x05\x41\x52\x01\x40\x41\x00\x53\x24\x45";
    for told in [b"".as_slice(), of_another.as_slice()] {
        let (is, out) = sent(rt.alloc(), told)?;
        let unclosed = &WRITTEN[..WRITTEN.len() - 12];
        assert_eq!(rt; (is, out.as_slice()), (Fate::Ended, unclosed));
    }
    Ok(())
}

/// What `hi` comes to if the receiver says this after its flow, and what is told of why, or nothing.
fn told_why(alloc: Global, told: &[u8]) -> Result<(Fate, Why), Fail> {
    let mut input = Vec::from_slice(alloc, RECEIVER)?;
    input.extend_from_slice(told)?;
    input.extend_from_slice(CLOSE)?;
    let mut bytes = input.as_slice();
    let mut out = Vec::new(alloc);
    let message = Vec::from_slice(alloc, b"hi")?;
    let mut why = Why::new(alloc)?;
    let fate = send_all_heard(
        &mut sender(alloc)?,
        &mut why,
        &mut Device::new(&mut bytes),
        &mut Device::new(&mut out),
        message,
    );
    Ok((fate.map_err(|_| "a fault")?, why))
}

/// The error `a:b` with the text `no "x"`, as a detach, an end, a close and the outcome rejected have it [2.8.14].
#[test]
fn the_error_is_told(rt: HostRuntime) -> Result<(), Fail> {
    let cases: [(&[u8], Fate, Option<&str>); 8] = [
        (
            b"\x00\x00\x00\x2b\x02\x00\x00\x00\x00\x53\x15\xc0\x1e\x05\x41\x43\x40\x41\x00\x53\x25\xc0\x14\x01\x00\x53\x1d\xc0\x0e\x02\xa3\x03a:b\xa1\x06no \"x\"",
            Fate::Rejected,
            Some("rejected with the error \"a:b\": \"no \\x22x\\x22\""),
        ),
        (
            b"\x00\x00\x00\x23\x02\x00\x00\x00\x00\x53\x15\xc0\x16\x05\x41\x43\x40\x41\x00\x53\x25\xc0\x0c\x01\x00\x53\x1d\xc0\x06\x01\xa3\x03a:b",
            Fate::Rejected,
            Some("rejected with the error \"a:b\""),
        ),
        (
            b"\x00\x00\x00\x16\x02\x00\x00\x00\x00\x53\x15\xc0\x09\x05\x41\x43\x40\x41\x00\x53\x25\x45",
            Fate::Rejected,
            None,
        ),
        (
            b"\x00\x00\x00\x23\x02\x00\x00\x00\x00\x53\x16\xc0\x16\x03\x43\x41\x00\x53\x1d\xc0\x0e\x02\xa3\x03a:b\xa1\x06no \"x\"",
            Fate::Ended,
            Some("the link was ended with the error \"a:b\": \"no \\x22x\\x22\""),
        ),
        (
            b"\x00\x00\x00\x19\x02\x00\x00\x00\x00\x53\x17\xc0\x0c\x01\x00\x53\x1d\xc0\x06\x01\xa3\x03a:b",
            Fate::Ended,
            Some("the session was ended with the error \"a:b\""),
        ),
        (
            b"\x00\x00\x00\x19\x02\x00\x00\x00\x00\x53\x18\xc0\x0c\x01\x00\x53\x1d\xc0\x06\x01\xa3\x03a\nb",
            Fate::Ended,
            Some("the connection was closed with the error \"a\\x0ab\""),
        ),
        // the delivery with the id 1 is rejected, and no other
        (
            b"\x00\x00\x00\x24\x02\x00\x00\x00\x00\x53\x15\xc0\x17\x05\x41\x52\x01\x40\x41\x00\x53\x25\xc0\x0c\x01\x00\x53\x1d\xc0\x06\x01\xa3\x03a:b",
            Fate::Ended,
            None,
        ),
        (b"", Fate::Ended, None),
    ];
    for (told, fate, text) in cases {
        let (is, why) = told_why(rt.alloc(), told)?;
        assert_eq!(rt; (is, why.text()), (fate, text));
    }
    Ok(())
}
