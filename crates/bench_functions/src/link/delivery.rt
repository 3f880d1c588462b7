//! One delivery after the other on a link, or copied.

use crate::frames::{last, whole};
use crate::link::Open;
use crate::measure::Failure;
use amqp_link::{
    Link, LinkBounds, LinkFault, MAX_ALLOWED, SettleFault, Step, Terms, TooMuchCredit,
};
use amqp_perform::{ReceiverSettleMode, Transfer};
use std::alloc::{AllocError, Global};

/// How many deliveries are open, if any are, before the first one is measured, whose ids are those below it.
const OPEN: u32 = 1000;

/// Why a delivery did not come through.
#[derive(Clone, Copy, Debug, Drop)]
pub enum Stopped {
    /// No credit was granted.
    Credit,
    /// The link refused a transfer.
    Link(LinkFault),
    /// No delivery was ready.
    NothingReady,
    /// The delivery to be settled was not open.
    NothingSettled,
    /// The link refused to settle a delivery.
    Settle(SettleFault),
}

impl From<TooMuchCredit> for Stopped {
    fn from(_error: TooMuchCredit) -> Stopped {
        Stopped::Credit
    }
}

impl From<LinkFault> for Stopped {
    fn from(fault: LinkFault) -> Stopped {
        Stopped::Link(fault)
    }
}

impl From<SettleFault> for Stopped {
    fn from(fault: SettleFault) -> Stopped {
        Stopped::Settle(fault)
    }
}

impl From<Stopped> for Failure {
    fn from(stopped: Stopped) -> Failure {
        Failure::Link(stopped)
    }
}

/// Returns what a link is attached with.
fn terms() -> Terms {
    Terms {
        initial_delivery_count: 0,
        rcv_settle_mode: ReceiverSettleMode::First,
        bounds: LinkBounds::new(MAX_ALLOWED, 1_000_000).unwrap(),
    }
}

/// Returns the first transfer of a delivery.
fn head(id: u32, settled: bool, more: bool) -> Transfer<'static> {
    Transfer {
        settled: Some(settled),
        more,
        ..whole(0, id)
    }
}

/// Returns a later one.
fn rest(more: bool) -> Transfer<'static> {
    Transfer { more, ..last(0) }
}

/// Credit for one delivery, and its frames. All but the last frame are followed by more.
fn arrive(
    link: &mut Link,
    id: u32,
    settled: bool,
    frames: u32,
    payload: &[u8],
) -> Result<(), Stopped> {
    link.grant(1)?;
    let mut step = link.transfer(&head(id, settled, frames > 1), payload)?;
    for frame in 1..frames {
        step = link.transfer(&rest(frame + 1 < frames), payload)?;
    }
    match step {
        Step::Ready => Ok(()),
        Step::Unfinished | Step::Aborted => Err(Stopped::NothingReady),
    }
}

/// Hands a message up and drops it, and returns how long it was.
fn leave(link: &mut Link) -> Result<u64, Stopped> {
    let taken = link.take().ok_or(Stopped::NothingReady)?;
    Ok(taken.message.len() as u64)
}

/// Returns a link on which the other deliveries are open, each of one frame.
pub fn link_with(alloc: Global, open: Open, payload: &[u8]) -> Result<Link, Stopped> {
    let mut link = Link::attach(alloc, terms());
    match open {
        Open::No => {}
        Open::Ready => {
            for id in 0..OPEN {
                arrive(&mut link, id, true, 1, payload)?;
            }
        }
        Open::Taken => hand_up(&mut link, OPEN, payload)?,
    }
    Ok(link)
}

/// This many deliveries come and are handed up, with the ids from 0 on.
fn hand_up(link: &mut Link, count: u32, payload: &[u8]) -> Result<(), Stopped> {
    for id in 0..count {
        arrive(link, id, false, 1, payload)?;
        leave(link)?;
    }
    Ok(())
}

/// Returns a link on which this many deliveries await settlement.
pub fn link_awaiting(alloc: Global, count: u32, payload: &[u8]) -> Result<Link, Stopped> {
    let mut link = Link::attach(alloc, terms());
    hand_up(&mut link, count, payload)?;
    Ok(link)
}

/// Lets the delivery of this round come, settled by its sender, and hands up the first that is ready. Returns how
/// long that was.
pub fn deliver(link: &mut Link, round: u32, frames: u32, payload: &[u8]) -> Result<u64, Stopped> {
    arrive(link, OPEN.wrapping_add(round), true, frames, payload)?;
    leave(link)
}

/// Of this many deliveries that were handed up the receiver settles the one with as many after it as before it.
/// Then that of this round comes in one frame, and is handed up to await settlement. Returns how long it was.
pub fn settle_and_deliver(
    link: &mut Link,
    open: u32,
    round: u32,
    payload: &[u8],
) -> Result<u64, Stopped> {
    let settled = (open / 2).wrapping_add(round);
    if link.settle(settled, settled)? != 1 {
        return Err(Stopped::NothingSettled);
    }
    arrive(link, open.wrapping_add(round), false, 1, payload)?;
    leave(link)
}

/// Copies the payload this many times one after another into a new vector, and returns how long it was.
pub fn copied(alloc: Global, frames: u32, payload: &[u8]) -> Result<u64, AllocError> {
    let mut message = Vec::new(alloc);
    for _ in 0..frames {
        message.extend_from_slice(payload)?;
    }
    Ok(message.len() as u64)
}
