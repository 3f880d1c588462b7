//! The front of the JSON object of a record: what the spool says of it.

use crate::numbers::Missing;
use crate::target::{Target, target_of};
use crate::visiting::Found;
use amqp_records::{Binaries, binary, json_in, object_with, put_ascii, whole};
use serde_json::Value as Json;
use std::alloc::{AllocError, Global};

/// Puts an object that has no end yet: the members `spool` (in hex), `time` (in milliseconds since 1970), `life`,
/// `connection`, `peer`, `container`, `user`, `link`, `address` and `tag`.
///
/// An unknown user is `null`. The address is a string, `null`, `{"dynamic":true}`, or `{"target":V}` with the value of
/// another target. The tag is a string in hex, since it is no text. A name that is not UTF-8 is `{"binary":"BASE64"}`.
pub fn put_members(alloc: Global, line: &mut Vec<u8>, found: &Found<'_>) -> Result<(), AllocError> {
    put_spool(alloc, line, &found.spool)?;
    put_member(alloc, line, "time", whole(alloc, found.time)?)?;
    put_member(alloc, line, "life", whole(alloc, found.life)?)?;
    put_names(alloc, line, found)?;
    put_member(
        alloc,
        line,
        "address",
        address_of(alloc, target_of(&found.from))?,
    )?;
    put_member(alloc, line, "tag", hex_of(alloc, found.sent.tag)?)
}

/// Puts the line of numbers that are missing: `{"gap":{"from":A,"to":B},"spool":ID}`.
pub fn put_gap(
    alloc: Global,
    line: &mut Vec<u8>,
    spool: &[u8; 16],
    missing: &Missing,
) -> Result<(), AllocError> {
    line.extend_from_slice(b"{\"gap\":")?;
    put_member(alloc, line, "from", whole(alloc, missing.from)?)?;
    put_member(alloc, line, "to", whole(alloc, missing.to)?)?;
    line.push(b'}')?;
    put_spool(alloc, line, spool)?;
    line.extend_from_slice(b"}\n")
}

fn put_names(alloc: Global, line: &mut Vec<u8>, found: &Found<'_>) -> Result<(), AllocError> {
    let from = &found.from;
    put_member(alloc, line, "connection", whole(alloc, from.connection)?)?;
    put_member(alloc, line, "peer", text_of(alloc, from.peer)?)?;
    put_member(alloc, line, "container", text_of(alloc, from.container)?)?;
    put_member(alloc, line, "user", user_of(alloc, from.user)?)?;
    put_member(alloc, line, "link", text_of(alloc, from.name)?)
}

fn put_spool(alloc: Global, line: &mut Vec<u8>, spool: &[u8; 16]) -> Result<(), AllocError> {
    put_member(alloc, line, "spool", hex_of(alloc, spool)?)
}

/// Puts a member of an object: the first, if the line has nothing or ends where an object is to come.
fn put_member(
    alloc: Global,
    line: &mut Vec<u8>,
    name: &str,
    value: Json,
) -> Result<(), AllocError> {
    line.push(match line.last() {
        None | Some(b':') => b'{',
        Some(_) => b',',
    })?;
    line.push(b'"')?;
    line.extend_from_slice(name.as_bytes())?;
    line.extend_from_slice(b"\":")?;
    let text = value.to_string(alloc)?;
    put_ascii(line, &text)
}

fn user_of(alloc: Global, user: &[u8]) -> Result<Json, AllocError> {
    if user.is_empty() {
        Ok(Json::Null)
    } else {
        text_of(alloc, user)
    }
}

fn address_of(alloc: Global, target: Target<'_>) -> Result<Json, AllocError> {
    match target {
        Target::Address(address) => text_of(alloc, address),
        Target::Dynamic => object_with(alloc, "dynamic", Json::Bool(true)),
        Target::None => Ok(Json::Null),
        Target::Other(bytes) => {
            object_with(alloc, "target", json_in(alloc, Binaries::Object, bytes)?)
        }
    }
}

/// Returns a string, or a binary if the bytes are not UTF-8.
fn text_of(alloc: Global, bytes: &[u8]) -> Result<Json, AllocError> {
    match str::from_utf8(bytes) {
        Ok(text) => Json::try_from_str(alloc, text),
        Err(_) => binary(alloc, Binaries::Object, bytes),
    }
}

fn hex_of(alloc: Global, bytes: &[u8]) -> Result<Json, AllocError> {
    Ok(Json::String(hex::encode(alloc, bytes)?))
}
