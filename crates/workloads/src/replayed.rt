//! A long script, replayed.

use crate::desk::Desk;
use crate::digest::Digest;
use crate::failure::Failure;
use crate::numbers::Numbers;
use crate::peer::{Head, Peer};
use amqp_frame::{Device, HEADER};
use amqp_perform::ReceiverSettleMode;
use amqp_script::replay_script;
use std::alloc::Global;
use std::fmt::Write;

/// Replays a script that feeds messages one by one, takes and settles each, and gives credit.
pub fn run(desk: &mut Desk) -> Result<(), Failure> {
    let (alloc, numbers) = (desk.alloc, &mut desk.numbers);
    let (script, peer) = (&mut desk.text, &mut desk.peer);
    script.clear();
    write!(script, "config replay 65536 7 7 100 1048576 {}\n", 1 << 30)?;
    let links = numbers.of_these(&[1, 4, 8]);
    peer.bytes.extend_from_slice(&HEADER)?;
    put_feed(alloc, script, peer)?;
    peer.open_frame(&[])?;
    put_feed(alloc, script, peer)?;
    peer.begin(0, 0)?;
    put_feed(alloc, script, peer)?;
    for handle in 0..links {
        let handle = (handle & 0xff) as u8;
        peer.attach(0, handle, ReceiverSettleMode::First, &[])?;
        put_feed(alloc, script, peer)?;
        write!(script, "grant 0 {handle} 100\n")?;
    }
    let mut id = numbers.word();
    for number in 0..desk.size.of(2048, 20) {
        let handle = (number.checked_rem(links).unwrap_or(0) & 0xff) as u8;
        put_message(alloc, script, peer, numbers, handle, id)?;
        id = id.wrapping_add(1);
    }
    script.push_str("held\nclose\noutput 8192\nfinish\n")?;
    replay(alloc, script, &mut desk.answers)
}

/// Replays a script, and adds its answers.
fn replay(alloc: Global, script: &str, answers: &mut Digest) -> Result<(), Failure> {
    let mut reader = Device::new(script.as_bytes());
    match replay_script(alloc, &mut reader, &mut Device::new(answers)) {
        Ok(()) => Ok(()),
        Err(fault) => Err(Failure::Script(fault)),
    }
}

/// A message is fed, taken and settled, and its place is given back.
fn put_message(
    alloc: Global,
    script: &mut String,
    peer: &mut Peer,
    numbers: &mut Numbers,
    handle: u8,
    id: u32,
) -> Result<(), Failure> {
    let settled = numbers.is_one_of(3);
    let head = Head {
        channel: 0,
        handle,
        id,
        settled,
        more: false,
    };
    let payload = numbers.between(50, 300);
    peer.transfer(head, numbers, payload)?;
    put_feed(alloc, script, peer)?;
    write!(script, "take 0 {handle}\n")?;
    if !settled {
        write!(script, "settle 0 {id} accepted\n")?;
    }
    write!(script, "grant 0 {handle} 1\n")?;
    if id % 16 == 0 {
        script.push_str("output 8192\n")?;
    }
    Ok(())
}

/// A line that feeds what the peer sends next.
fn put_feed(alloc: Global, script: &mut String, peer: &mut Peer) -> Result<(), Failure> {
    script.push_str("feed ")?;
    script.push_str(hex::encode(alloc, peer.bytes.as_slice())?.as_str())?;
    script.push('\n')?;
    peer.bytes.clear();
    Ok(())
}
