//! One delivery after the other through a session.

use crate::frames::{attach, whole};
use crate::measure::Failure;
use crate::session::Case;
use amqp_link::{LinkBounds, MAX_ALLOWED};
use amqp_perform::Outcome;
use amqp_session::{CallFault, Report, Session, SessionFault, SessionTerms};
use std::alloc::Global;

/// Why a delivery did not come through.
#[derive(Clone, Copy, Debug, Drop)]
pub enum Stopped {
    /// The session refused a frame.
    Frame(SessionFault),
    /// It refused a call.
    Call(CallFault),
    /// A link was refused, or no delivery was ready after a transfer.
    Link,
}

impl From<SessionFault> for Stopped {
    fn from(fault: SessionFault) -> Stopped {
        Stopped::Frame(fault)
    }
}

impl From<CallFault> for Stopped {
    fn from(fault: CallFault) -> Stopped {
        Stopped::Call(fault)
    }
}

impl From<Stopped> for Failure {
    fn from(stopped: Stopped) -> Failure {
        Failure::Session(stopped)
    }
}

/// Returns what a session begins with.
fn terms() -> SessionTerms {
    SessionTerms {
        incoming_window: (1 << 31) - 1,
        next_outgoing_id: 0,
        handle_max: 255,
        max_frame_size: u32::MAX,
    }
}

/// Returns what its links may keep.
fn bounds() -> LinkBounds {
    LinkBounds::new(MAX_ALLOWED, 1_000_000).unwrap()
}

/// Lets a delivery come, after granting credit for it.
pub fn send(session: &mut Session, handle: u32, id: u32, payload: &[u8]) -> Result<(), Stopped> {
    session.grant(handle, 1)?;
    match session.transfer(&whole(handle, id), payload)? {
        Report::Ready { .. } => Ok(()),
        _ => Err(Stopped::Link),
    }
}

/// Lets a delivery come, and hands it up. Returns how long it was.
pub fn arrive(session: &mut Session, handle: u32, id: u32, payload: &[u8]) -> Result<u64, Stopped> {
    send(session, handle, id, payload)?;
    let taken = session.take(handle)?;
    Ok(taken.message.len() as u64)
}

/// Returns a session with this many links.
pub fn begin(alloc: Global, links: u32) -> Result<Session, Stopped> {
    let mut session = Session::begin(alloc, terms());
    for handle in 0..links {
        if handle > session.terms().handle_max as u32 {
            return Err(Stopped::Link);
        }
        session.attach(&attach(handle), bounds())?;
    }
    Ok(session)
}

/// Returns a session with its links, and what stays open on the first.
pub fn session_with(alloc: Global, case: Case, payload: &[u8]) -> Result<Session, Stopped> {
    let mut session = begin(alloc, case.links)?;
    for id in 0..case.open {
        arrive(&mut session, 0, id, payload)?;
    }
    Ok(session)
}

/// Lets the delivery of this round come, hands it up and settles it. Returns how long it was.
pub fn deliver(
    session: &mut Session,
    case: Case,
    round: u32,
    payload: &[u8],
) -> Result<u64, Stopped> {
    let handle = case.links.saturating_sub(1);
    let id = case.open.wrapping_add(round);
    let moved = arrive(session, handle, id, payload)?;
    session.settle(id, Outcome::Accepted)?;
    Ok(moved)
}
