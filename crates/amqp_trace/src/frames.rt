//! Units as `dump` prints them. Of a unit only the front may be kept.

ghost use Rattle.std.specs.Prelude.{◌≡◌};

use crate::unit::Unit;
use amqp_dump::{
    LIMITS, Page, Scanned, ScannedFrame, StreamFault, performative_name, put_hex, put_item,
    put_number,
};
use amqp_frame::{FrameFault, HEADER};
use amqp_perform::read_body;
use amqp_types::{Limits, ReadFault, check};
use std::alloc::{AllocError, Global};

/// How much of the value at the front of a body is shown: no more nodes than bytes that are kept.
const SHOWN: Limits = Limits {
    depth: LIMITS.depth,
    nodes: 4096,
};

/// Puts a whole unit, or the fault that it is. A performative that is longer than what is kept, or has too many
/// parts, is shown by its name and `..` alone.
pub fn put_unit(alloc: Global, page: &mut Page, unit: &Unit) -> Result<(), AllocError> {
    if unit.is_header() {
        put_header(page, unit.kept());
    } else if let Some(fault) = unit.fault() {
        put_fault(page, unit, fault);
    } else {
        put_frame(alloc, page, unit)?;
    }
    Ok(())
}

/// Puts the fault of a frame that did not come whole.
pub fn put_fault(page: &mut Page, unit: &Unit, fault: FrameFault) {
    put_item(
        page,
        &Scanned::Fault(unit.place(), StreamFault::Frame(fault)),
    );
}

/// Puts that the stream ended inside a unit.
pub fn put_cut(page: &mut Page, unit: &Unit) {
    put_item(page, &Scanned::Fault(unit.place(), StreamFault::Cut));
}

/// Puts the header of a connection, of any protocol. Other bytes in its place are put as bytes. [2.2, 5.2.1,
/// 5.3.1]
fn put_header(page: &mut Page, header: &[u8]) {
    if header == HEADER.as_slice() {
        put_item(page, &Scanned::Header);
        return;
    }
    put_item(page, &Scanned::Fault(0, StreamFault::Header));
    page.put_byte(b' ');
    if let [b'A', b'M', b'Q', b'P', id, major, minor, revision] = *header {
        page.put(b"id=");
        put_number(page, u64::from(id));
        page.put(b" version=");
        put_number(page, u64::from(major));
        page.put_byte(b'.');
        put_number(page, u64::from(minor));
        page.put_byte(b'.');
        put_number(page, u64::from(revision));
    } else {
        page.put(b"binary:");
        put_hex(page, header);
    }
}

/// Puts a frame.
fn put_frame(alloc: Global, page: &mut Page, unit: &Unit) -> Result<(), AllocError> {
    let body = unit.body();
    let frame = ScannedFrame {
        place: unit.place(),
        size: unit.size(),
        channel: unit.channel(),
        body,
        is_performative: read_body(body).is_ok(),
        payload: 0,
    };
    if !unit.has_body() {
        put_item(page, &Scanned::Frame(frame));
        return Ok(());
    }
    match check(alloc, body, SHOWN) {
        Ok(len) => {
            let payload = (body.len() - len).saturating_add(unit.left_out());
            put_item(page, &Scanned::Frame(ScannedFrame { payload, ..frame }));
        }
        Err(ReadFault::NoMemory) => return Err(AllocError),
        Err(ReadFault::TooManyNodes(_)) => put_name(page, &frame),
        Err(ReadFault::Truncated(_)) if unit.left_out() > 0 => put_name(page, &frame),
        Err(fault) => put_value_fault(page, unit, fault),
    }
    Ok(())
}

/// Puts the fault in the value of a body, with its place in the stream.
fn put_value_fault(page: &mut Page, unit: &Unit, fault: ReadFault) {
    let body = unit.kept().len() - unit.body().len();
    let inside = fault.place().unwrap_or(0);
    let place = unit.place().saturating_add(body).saturating_add(inside);
    put_item(page, &Scanned::Fault(place, StreamFault::Value(fault)));
}

/// Puts a frame by the name of its performative.
fn put_name(page: &mut Page, frame: &ScannedFrame<'_>) {
    put_number(page, frame.place as u64);
    page.put(b" size=");
    put_number(page, frame.size as u64);
    page.put(b" channel=");
    put_number(page, u64::from(frame.channel));
    page.put_byte(b' ');
    page.put(performative_name(frame.body).unwrap_or("value").as_bytes());
    page.put(b" ..");
}
