//! The line of text before a record.

use crate::target::{Target, target_of};
use crate::visiting::Found;
use amqp_dump::{LIMITS, Page, put_hex, put_number, put_quoted, put_value};
use amqp_types::{ReadFault, check};
use std::alloc::{AllocError, Global};

/// Puts the line before a record: `number=N time=T life=L connection=C peer="P" container="I" user="U" link="K" address=A
/// tag=T`. The time is in milliseconds since 1970. Texts are in quotes, as `dump` prints them; `user=null` is an unknown
/// user. The address is a text, `null`, `dynamic`, or the value of another target. The tag is in hex, since it is no text.
pub fn put_heading(alloc: Global, page: &mut Page, found: &Found<'_>) -> Result<(), AllocError> {
    put_numbers(page, found);
    put_names(page, found);
    page.put(b" address=");
    put_target(alloc, page, target_of(&found.from))?;
    page.put(b" tag=");
    put_hex(page, found.sent.tag);
    page.end_line()
}

fn put_numbers(page: &mut Page, found: &Found<'_>) {
    page.put(b"number=");
    put_number(page, found.number);
    page.put(b" time=");
    put_number(page, found.time);
    page.put(b" life=");
    put_number(page, found.life);
    page.put(b" connection=");
    put_number(page, found.from.connection);
}

fn put_names(page: &mut Page, found: &Found<'_>) {
    page.put(b" peer=");
    put_quoted(page, found.from.peer);
    page.put(b" container=");
    put_quoted(page, found.from.container);
    page.put(b" user=");
    if found.from.user.is_empty() {
        page.put(b"null");
    } else {
        put_quoted(page, found.from.user);
    }
    page.put(b" link=");
    put_quoted(page, found.from.name);
}

fn put_target(alloc: Global, page: &mut Page, target: Target<'_>) -> Result<(), AllocError> {
    match target {
        Target::Address(address) => put_quoted(page, address),
        Target::Dynamic => page.put(b"dynamic"),
        Target::None => page.put(b"null"),
        Target::Other(bytes) => put_other(alloc, page, bytes)?,
    }
    Ok(())
}

/// Puts the value that these bytes are. If they are none, they are put as a binary.
fn put_other(alloc: Global, page: &mut Page, bytes: &[u8]) -> Result<(), AllocError> {
    match check(alloc, bytes, LIMITS) {
        Ok(len) if len == bytes.len() => {
            put_value(page, LIMITS.depth, bytes);
        }
        Err(ReadFault::NoMemory) => return Err(AllocError),
        _ => {
            page.put(b"binary:");
            put_hex(page, bytes);
        }
    }
    Ok(())
}
