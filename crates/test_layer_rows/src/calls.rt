//! Calls of an endpoint by their words, and their answers in words.

use crate::parts::parts_of;
use amqp_endpoint::{Answer, Call, Fed, Outcome as FeedOutcome};
use amqp_link::Taken;
use amqp_perform::Outcome;
use std::alloc::Global;
use test_row_files::words::{cut, name_of, number, two_numbers};
use test_row_files::{Heap, Miss};

/// Returns the call that these words name, where a feed has these bytes.
pub fn call_of<'b>(words: &str, piece: &'b [u8]) -> Result<Call<'b>, Miss> {
    let (name, rest) = name_of(words);
    match (name, rest) {
        ("feed", _) => Ok(Call::Feed(piece)),
        ("output", room) => Ok(Call::Output(number(room)?)),
        ("close", "") => Ok(Call::Close),
        ("heartbeat", "") => Ok(Call::Heartbeat),
        ("held", "") => Ok(Call::Held),
        ("finish", "") => Ok(Call::Finish),
        _ => session_call(name, rest),
    }
}

/// Returns the call for a session that these words name.
fn session_call(name: &str, words: &str) -> Result<Call<'static>, Miss> {
    let (channel, rest) = channel_and(words)?;
    match name {
        "grant" => {
            let (handle, n) = two_numbers(rest)?;
            Ok(Call::Grant { channel, handle, n })
        }
        "settle" => {
            let (id, outcome) = cut(rest, ' ')?;
            Ok(Call::Settle {
                channel,
                id: number(id)?,
                outcome: outcome_of(outcome)?,
            })
        }
        _ => link_call(name, channel, number(rest)?),
    }
}

/// Returns the call for a session that these words name, with one number besides the channel.
fn link_call(name: &str, channel: u16, number: u32) -> Result<Call<'static>, Miss> {
    match name {
        "widen" => Ok(Call::Widen { channel, n: number }),
        "drain" => Ok(Call::Drain {
            channel,
            handle: number,
        }),
        "take" => Ok(Call::Take {
            channel,
            handle: number,
        }),
        "detach" => Ok(Call::Detach {
            channel,
            handle: number,
        }),
        _ => Err(Miss::Unread("no such call")),
    }
}

/// Returns a channel and a handle.
pub fn place_of(words: &str) -> Result<(u16, u32), Miss> {
    let (channel, handle) = channel_and(words)?;
    Ok((channel, number(handle)?))
}

/// Returns a channel, and the words after it.
fn channel_and(words: &str) -> Result<(u16, &str), Miss> {
    let (channel, rest) = cut(words, ' ')?;
    let channel = channel.parse::<u16>();
    Ok((channel.map_err(|_| Miss::Unread("no channel"))?, rest))
}

fn outcome_of(word: &str) -> Result<Outcome, Miss> {
    match word {
        "accepted" => Ok(Outcome::Accepted),
        "rejected" => Ok(Outcome::Rejected),
        "released" => Ok(Outcome::Released),
        _ => Err(Miss::Unread("no outcome")),
    }
}

/// Returns what a call answered.
pub fn told(alloc: Global, answer: &Answer<Heap<'_>>) -> Result<String, Miss> {
    match answer {
        Answer::Fed(fed) => told_fed(alloc, *fed),
        Answer::Accepted => Ok(String::from_str(alloc, "Ok(())")?),
        Answer::Dropped(count) | Answer::Named(count) => Ok(format!(in alloc; "Ok({count})")?),
        Answer::HandedUp(taken) => told_taken(alloc, taken),
        Answer::Refused(fault) => Ok(format!(in alloc; "Err({fault:?})")?),
        Answer::MovedOut(bytes) => told_bytes(alloc, bytes),
        Answer::Holds(held) => Ok(format!(in alloc; "{held}")?),
        Answer::Ended(end) => Ok(format!(in alloc; "{end:?}")?),
    }
}

/// Returns the bytes that were moved out.
pub fn told_bytes(alloc: Global, bytes: &[u8]) -> Result<String, Miss> {
    if bytes.is_empty() {
        return Ok(String::from_str(alloc, "nothing")?);
    }
    parts_of(alloc, bytes)
}

/// Returns how many bytes were used, and the event, or what else came of it.
pub fn told_fed(alloc: Global, fed: Fed) -> Result<String, Miss> {
    let used = fed.used;
    match fed.outcome {
        FeedOutcome::Event(event) => Ok(format!(in alloc; "{used} {event:?}")?),
        outcome => Ok(format!(in alloc; "{used} {outcome:?}")?),
    }
}

/// Returns the id, the tag, the format and the message of a delivery, and whether its sender
/// settled it.
pub fn told_taken(alloc: Global, taken: &Taken<Heap<'_>>) -> Result<String, Miss> {
    let tag = parts_of(alloc, taken.delivery_tag.as_bytes())?;
    let message = parts_of(alloc, &taken.message.to_vec(alloc)?)?;
    let (id, format) = (taken.delivery_id, taken.message_format);
    let settled = if taken.settled {
        "settled"
    } else {
        "unsettled"
    };
    Ok(format!(in alloc; "{id} {tag} {format} {settled} {message}")?)
}
