//! Calls of the application for a session. Each is refused with nothing changed, or written to the peer.
ghost use Rattle.std.specs.Prelude.{◌≡◌, ◌||◌, [], IfOk};
ghost use Rattle.amqp_session.specs.Calls.{Take, call_fault};
ghost use Rattle.amqp_endpoint.specs.Asking.{CallAnswered, SlotHandsUp, IsCounted, asked_of, SessionAsked};
ghost use Rattle.amqp_endpoint.specs.Calls.{at_session, fault_of_session};
ghost use Rattle.amqp_endpoint.specs.Connections.{is_closing, is_dead, slot_at};
ghost use Rattle.amqp_endpoint.specs.Runs.{accepted_answer};

use crate::connection::Connection;
use crate::fault::CallFault;
use crate::laws::answers_fit_their_room;
use crate::output::{Output, Saying};
use crate::phase::Phase;
use amqp_link::Taken;
use amqp_perform::Outcome;
use amqp_session::{CallFault as SessionCallFault, Session};
use std::alloc::Allocator;

/// Makes a request of the session on a channel, and writes the frame for it. Returns how many deliveries a
/// settle names, or a detach drops.
///
/// The first fault is returned, and nothing has changed: `Dead` if the connection is over or closed by this
/// side, `NoSession`, what the session says, `Full`.
// Inlined for `telemetry` and `gateway` (docs/PERF.md).
#[tactic(auto, using(crate::proofs::Lent::went_on, crate::proofs::Lent::stayed))]
#[inline(always)]
pub fn ask<A: Allocator + Copy>(
    connection: &mut Connection<A>,
    out: &mut Output<A>,
    channel: u16,
    request: Request,
) -> Result<u32, CallFault>
    ensures answered { CallAnswered connection.old connection.new out.old out.new channel (asked_of request) result }
    ensures count { IfOk result (λ n. IsCounted (accepted_answer (slot_at connection.old channel) (asked_of request)) n) }
{
    answers_fit_their_room();
    if takes_no_call(connection) {
        return Err(CallFault::Dead);
    }
    if !out.has_room() {
        return Err(fault(connection, channel, request).unwrap_or(CallFault::Full));
    }
    let Some(session) = connection.session_mut(channel) else {
        return Err(CallFault::NoSession);
    };
    match request.ask(session) {
        Ok(asked) => {
            out.put(channel, &asked.saying);
            Ok(asked.count)
        }
        Err(fault) => Err(fault_of(fault)),
    }
}

/// Hands up the first ready delivery of the link at a handle. The first fault is returned, and nothing has
/// changed: `Dead`, `NoSession`, `NoLink`, `NothingReady`. Takes no memory, and no room of the output.
// Inlined for `telemetry` and `gateway` (docs/PERF.md).
#[tactic(auto, using(crate::proofs::Lent::went_on, crate::proofs::Lent::stayed))]
#[inline(always)]
pub fn take<A: Allocator + Copy>(
    connection: &mut Connection<A>,
    channel: u16,
    handle: u32,
) -> Result<Taken<A>, CallFault>
    ensures answered { CallAnswered connection.old connection.new [] [] channel (Take handle) result }
    ensures taken { IfOk result (λ taken. SlotHandsUp (slot_at connection.old channel) handle taken) }
{
    if takes_no_call(connection) {
        return Err(CallFault::Dead);
    }
    let Some(session) = connection.session_mut(channel) else {
        return Err(CallFault::NoSession);
    };
    match session.take(handle) {
        Ok(taken) => Ok(taken),
        Err(fault) => Err(fault_of(fault)),
    }
}

/// Returns whether any call for a session is refused: the connection is over, or this side has closed it.
pub fn takes_no_call<A: Allocator + Copy>(connection: &Connection<A>) -> bool
    ensures { result ≡ (is_dead connection.now.phase || is_closing connection.now.phase) }
{
    matches!(connection.phase(), Phase::Closing | Phase::Dead)
}

/// Returns why the session on a channel would refuse a request, `NoSession` if none is live; `None` if it would
/// accept it.
// Inlined for `telemetry` (docs/PERF.md).
#[inline(always)]
fn fault<A: Allocator + Copy>(
    connection: &Connection<A>,
    channel: u16,
    request: Request,
) -> Option<CallFault>
    ensures { result ≡ at_session (slot_at connection.now channel) (asked_of request) }
{
    match connection.session(channel) {
        Some(session) => match request.fault(session) {
            Some(fault) => Some(fault_of(fault)),
            None => None,
        },
        None => Some(CallFault::NoSession),
    }
}

/// A call of the application that is written to the peer.
#[derive(Clone, Copy)]
pub enum Request {
    /// The window gets `n` more places.
    Widen {
        n: u32,
    },
    /// The link at a handle gets `n` more places of credit.
    Grant {
        handle: u32,
        n: u32,
    },
    /// The sender on the link at a handle is asked to use its credit up.
    Drain {
        handle: u32,
    },
    /// The deliveries with ids from `first` to `last` are settled with this outcome.
    Settle {
        first: u32,
        last: u32,
        outcome: Outcome,
    },
    /// The link at a handle is ended.
    Detach {
        handle: u32,
    },
}

/// What is written for a request that was accepted.
#[derive(Clone, Copy)]
pub struct Asked {
    pub saying: Saying<'static>,
    /// How many deliveries a settle names, or a detach drops.
    pub count: u32,
}

impl Request {
    /// Makes the request of a session. If it is refused, nothing has changed.
    // Inlined: the match falls away if the request is known, as in each call of the endpoint.
    #[inline(always)]
    fn ask<A: Allocator + Copy>(self, session: &mut Session<A>) -> Result<Asked, SessionCallFault>
        ensures { SessionAsked session.old session.new (asked_of self) result }
    {
        match self {
            Request::Widen { n } => Ok(Asked {
                saying: Saying::Flow(session.widen(n)?),
                count: 0,
            }),
            Request::Grant { handle, n } => Ok(Asked {
                saying: Saying::Credit(session.grant_stated(handle, n)?),
                count: 0,
            }),
            Request::Drain { handle } => Ok(Asked {
                saying: Saying::Flow(session.drain(handle)?),
                count: 0,
            }),
            Request::Settle {
                first,
                last,
                outcome,
            } => {
                let named = session.settle_named(first, last)?;
                let saying = Saying::Settled {
                    first,
                    last,
                    settled: named.settled,
                    outcome,
                };
                Ok(Asked {
                    saying,
                    count: named.count,
                })
            }
            Request::Detach { handle } => {
                let (detach, dropped) = session.detach(handle)?;
                Ok(Asked {
                    saying: Saying::Detach(detach),
                    count: dropped,
                })
            }
        }
    }

    /// Returns why a session would refuse the request; `None` if it would accept it.
    // Inlined for `telemetry` (docs/PERF.md).
    #[inline(always)]
    fn fault<A: Allocator + Copy>(self, session: &Session<A>) -> Option<SessionCallFault>
        ensures { result ≡ call_fault session.now (asked_of self) }
    {
        match self {
            Request::Widen { n } => session.widen_fault(n),
            Request::Grant { handle, n } => session.grant_fault(handle, n),
            Request::Settle { first, last, .. } => session.settle_range_fault(first, last),
            Request::Drain { handle } | Request::Detach { handle } => session.link_fault(handle),
        }
    }
}

/// Returns the endpoint's fault for a fault of its session.
pub fn fault_of(fault: SessionCallFault) -> CallFault
    ensures { result ≡ fault_of_session fault }
{
    match fault {
        SessionCallFault::NoLink => CallFault::NoLink,
        SessionCallFault::NoDelivery => CallFault::NoDelivery,
        SessionCallFault::NotTaken => CallFault::NotTaken,
        SessionCallFault::AlreadyTold => CallFault::AlreadyTold,
        SessionCallFault::MixedModes => CallFault::MixedModes,
        SessionCallFault::NothingReady => CallFault::NothingReady,
        SessionCallFault::TooMuchCredit => CallFault::TooMuchCredit,
        SessionCallFault::WindowTooWide => CallFault::WindowTooWide,
        SessionCallFault::BadError => CallFault::BadError,
    }
}
