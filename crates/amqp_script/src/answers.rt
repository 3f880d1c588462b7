//! The line of an answer.

use crate::digits::put_hex;
use amqp_endpoint::{Answer, End, Event, Fed, Outcome, Scope};
use amqp_link::Taken;
use amqp_perform::Condition;
use itoa::{Buffer, Integer};
use std::alloc::{AllocError, Global};

/// Appends the line of an answer. It is an error if memory is refused.
pub fn write_answer(alloc: Global, out: &mut Vec<u8>, answer: &Answer) -> Result<(), AllocError> {
    match answer {
        Answer::Fed(fed) => write_fed(out, *fed)?,
        Answer::Accepted => put(out, b"ok")?,
        Answer::Dropped(dropped) => put_counted(out, b"ok dropped=", *dropped)?,
        Answer::Named(named) => put_counted(out, b"ok settled=", *named)?,
        Answer::HandedUp(taken) => write_taken(out, taken)?,
        Answer::Refused(fault) => put(out, format!(in alloc; "refused {fault:?}")?.as_bytes())?,
        Answer::MovedOut(bytes) => {
            put(out, b"output ")?;
            put_hex(out, bytes)?;
        }
        Answer::Holds(held) => put_counted(out, b"held ", *held)?,
        Answer::Ended(end) => write_end(out, *end)?,
    }
    put(out, b"\n")
}

fn put(out: &mut Vec<u8>, text: &[u8]) -> Result<(), AllocError> {
    out.extend_from_slice(text)
}

/// Appends a text, and a number in decimal.
fn put_counted<I: Integer>(out: &mut Vec<u8>, text: &[u8], number: I) -> Result<(), AllocError> {
    put(out, text)?;
    put(out, Buffer::new().format(number).as_bytes())
}

fn write_fed(out: &mut Vec<u8>, fed: Fed) -> Result<(), AllocError> {
    put_counted(out, b"used=", fed.used)?;
    match fed.outcome {
        Outcome::More => put(out, b" More"),
        Outcome::Event(event) => write_event(out, event),
        Outcome::Blocked => put(out, b" Blocked"),
        Outcome::NoMemory => put(out, b" NoMemory"),
        Outcome::Dead => put(out, b" Dead"),
    }
}

fn write_event(out: &mut Vec<u8>, event: Event) -> Result<(), AllocError> {
    match event {
        Event::Opened => put(out, b" Opened"),
        Event::Begun { channel } => put_counted(out, b" Begun ", channel),
        Event::Attached { channel, handle } => put_place(out, b" Attached ", channel, handle),
        Event::Unfinished { channel, handle } => put_place(out, b" Part ", channel, handle),
        Event::Ready { channel, handle } => put_place(out, b" Ready ", channel, handle),
        Event::Aborted { channel, handle } => put_place(out, b" Aborted ", channel, handle),
        Event::Drained { channel, handle } => put_place(out, b" Drained ", channel, handle),
        Event::Settled { channel, count } => put_place(out, b" Settled ", channel, count),
        Event::Detached {
            channel,
            handle,
            dropped,
        } => {
            put_place(out, b" Detached ", channel, handle)?;
            put_counted(out, b" dropped=", dropped)
        }
        Event::Ended { channel, dropped } => {
            put_counted(out, b" Ended ", channel)?;
            put_counted(out, b" dropped=", dropped)
        }
        Event::Closed { dropped } => put_counted(out, b" Closed dropped=", dropped),
        Event::Failed {
            scope,
            condition,
            dropped,
        } => write_failure(out, scope, condition, dropped),
    }
}

/// Appends a text, a channel and another number.
fn put_place(out: &mut Vec<u8>, text: &[u8], channel: u16, number: u32) -> Result<(), AllocError> {
    put_counted(out, text, channel)?;
    put_counted(out, b" ", number)
}

fn write_failure(
    out: &mut Vec<u8>,
    scope: Scope,
    condition: Condition,
    dropped: u32,
) -> Result<(), AllocError> {
    match scope {
        Scope::Connection => put(out, b" Failed connection ")?,
        Scope::Session { channel } => {
            put_counted(out, b" Failed session ", channel)?;
            put(out, b" ")?;
        }
        Scope::Link { channel, handle } => {
            put_place(out, b" Failed link ", channel, handle)?;
            put(out, b" ")?;
        }
    }
    put(out, condition.name())?;
    put_counted(out, b" dropped=", dropped)
}

fn write_taken(out: &mut Vec<u8>, taken: &Taken) -> Result<(), AllocError> {
    put_counted(out, b"taken id=", taken.delivery_id)?;
    put(out, b" tag=")?;
    put_hex(out, taken.delivery_tag.as_bytes())?;
    put_counted(out, b" format=", taken.message_format)?;
    put(
        out,
        if taken.settled {
            b" settled=true message="
        } else {
            b" settled=false message="
        },
    )?;
    let mut at: usize = 0;
    for _ in 0..taken.message.len() {
        let piece = taken.message.piece(at);
        if piece.is_empty() {
            break;
        }
        put_hex(out, piece)?;
        at = at.saturating_add(piece.len());
    }
    Ok(())
}

fn write_end(out: &mut Vec<u8>, end: End) -> Result<(), AllocError> {
    match end {
        End::Failed => put(out, b"end Failed"),
        End::Closed => put(out, b"end Closed"),
        End::Between => put(out, b"end Between"),
        End::Inside(count) => put_counted(out, b"end Inside ", count),
    }
}
