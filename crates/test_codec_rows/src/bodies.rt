//! Performatives, read from bodies and written as frames.

use crate::bytes::{bytes_of, words_of};
use crate::words::parsed;
use amqp_perform::{BodyFault, Open, Performative};
use std::alloc::Global;
use test_row_files::Miss;
use test_row_files::words::cut;

/// What a room is full of before anything is written.
const BLANK: u8 = 0xa5;

/// How many rooms are tried for a frame.
const ROOMS: usize = 400;

/// Returns what `read_body` answers, with nothing of its contract: calls are checked faster.
fn body_of(body: &[u8]) -> Result<(Performative<'_>, usize), BodyFault> {
    amqp_perform::read_body(body)
}

/// Returns what `write_frame` answers, with nothing of its contract.
fn put(
    channel: u16,
    performative: &Performative<'_>,
    payload: &[u8],
    out: &mut [u8],
) -> Option<usize> {
    amqp_perform::write_frame(channel, performative, payload, out)
}

/// Returns what a body says and its length, or its fault.
pub fn read(alloc: Global, words: &str) -> Result<String, Miss> {
    match body_of(&bytes_of(alloc, words)?) {
        Ok((performative, len)) => Ok(format!(in alloc; "{performative:?} {len}")?),
        Err(fault) => Ok(format!(in alloc; "{fault:?}")?),
    }
}

/// Returns what the body of a frame says, and the length of the payload. It is written again as the same frame.
pub fn frame(alloc: Global, words: &str) -> Result<String, Miss> {
    let frame = bytes_of(alloc, words)?;
    let body = frame.get(8..).ok_or("no such frame")?;
    let (performative, len) = body_of(body).ok().ok_or("no such frame")?;
    let payload = body.get(len..).ok_or("no such frame")?;
    let again = frame_of(alloc, &performative, payload, 0)?;
    let behind = payload.len();
    if again.as_slice() == frame.as_slice() {
        Ok(format!(in alloc; "{performative:?} {behind}")?)
    } else {
        let again = words_of(alloc, &again)?;
        Ok(format!(in alloc; "{performative:?} {behind}, written as {again}")?)
    }
}

/// Returns the frame of what a body says, which is the whole of the bytes.
pub fn rewrite(alloc: Global, words: &str) -> Result<String, Miss> {
    let body = bytes_of(alloc, words)?;
    let (performative, len) = body_of(&body).ok().ok_or("no such frame")?;
    let frame = words_of(alloc, &frame_of(alloc, &performative, &[], 0)?)?;
    if len == body.len() {
        Ok(frame)
    } else {
        Ok(format!(in alloc; "{frame}, of {len} bytes")?)
    }
}

/// Returns the frame of a performative, in the shortest room that it fits into, of this many bytes at least. No
/// shorter room is changed.
fn frame_of(
    alloc: Global,
    performative: &Performative<'_>,
    payload: &[u8],
    least: usize,
) -> Result<Vec<u8>, Miss> {
    for more in 0..ROOMS {
        let room = least.saturating_add(more);
        let mut out = vec![in alloc; BLANK; room]?;
        match put(0, performative, payload, &mut out) {
            Some(len) if len == room => return Ok(out),
            None if out.iter().all(|byte| *byte == BLANK) => {}
            _ => return Err(Miss::Unread("no such frame")),
        }
    }
    Err(Miss::Unread("no such frame"))
}

/// Returns what is written into a room on a channel: its length, and the whole room.
pub fn write(alloc: Global, words: &str) -> Result<String, Miss> {
    let (channel, words) = cut(words, ' ')?;
    let (room, words) = cut(words, ' ')?;
    let mut out = vec![in alloc; BLANK; parsed(room)?]?;
    let len = write_read(alloc, parsed(channel)?, words, &mut out)?;
    shown(alloc, len, &out)
}

/// Writes what a body says into a room. Returns how many bytes it has.
fn write_read(alloc: Global, channel: u16, words: &str, out: &mut [u8]) -> Result<usize, Miss> {
    let body = bytes_of(alloc, words)?;
    let (performative, _) = body_of(&body).ok().ok_or("no such frame")?;
    put(channel, &performative, &[], out).ok_or(Miss::Unread("no such frame"))
}

fn shown(alloc: Global, len: usize, room: &[u8]) -> Result<String, Miss> {
    let room = words_of(alloc, room)?;
    Ok(format!(in alloc; "{len} {room}")?)
}

/// Returns an open with a container-id alone.
fn open_of(name: &str) -> Open<'_> {
    Open {
        container_id: name,
        hostname: &[],
        max_frame_size: 4294967295,
        channel_max: 65535,
        idle_time_out: &[],
        outgoing_locales: &[],
        incoming_locales: &[],
        offered_capabilities: &[],
        desired_capabilities: &[],
        properties: &[],
    }
}

/// Returns the frame of an open with this container-id alone, which is read as that open.
pub fn open(alloc: Global, words: &str) -> Result<String, Miss> {
    let name = bytes_of(alloc, words)?;
    let open = Performative::Open(open_of(text_of(&name)?));
    let frame = frame_of(alloc, &open, &[], name.len())?;
    let body = frame.get(8..).unwrap_or(&[]);
    let words = words_of(alloc, &frame)?;
    if body_of(body) == Ok((open, body.len())) {
        Ok(words)
    } else {
        Ok(format!(in alloc; "{words}, read as another")?)
    }
}

/// Returns the frame of an open with this container-id, whose hostname and properties are a null.
pub fn open_with_nulls(alloc: Global, words: &str) -> Result<String, Miss> {
    let name = bytes_of(alloc, words)?;
    let open = Open {
        hostname: &[0x40],
        properties: &[0x40],
        ..open_of(text_of(&name)?)
    };
    let frame = frame_of(alloc, &Performative::Open(open), &[], 0)?;
    Ok(words_of(alloc, &frame)?)
}

fn text_of(bytes: &[u8]) -> Result<&str, Miss> {
    str::from_utf8(bytes).ok().ok_or(Miss::Unread("no text"))
}
