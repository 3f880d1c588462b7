//! Calls of the application for a session that say why. Each is refused with nothing changed, or written to the
//! peer with its error.
ghost use Rattle.std.specs.Prelude.{◌≡◌, [], IfOk, ◌≤◌, ◌+◌, ◌++◌, length};
ghost use Rattle.amqp_perform.specs.Said.{said, said_frame};
ghost use Rattle.amqp_reason.specs.Reasons.{reason_of};
ghost use Rattle.amqp_session.specs.Calls.{call_fault};
ghost use Rattle.amqp_endpoint.specs.Asking.{CallAnswered, IsCounted, refused_of, refusal_said, SessionRefused};
ghost use Rattle.amqp_endpoint.specs.Calls.{at_session, output_size, reply_room};
ghost use Rattle.amqp_endpoint.specs.Connections.{slot_at};
ghost use Rattle.amqp_endpoint.specs.Runs.{accepted_answer};

use crate::connection::Connection;
use crate::fault::CallFault;
use crate::laws::answers_fit_their_room;
use crate::output::{Output, Saying};
use crate::requests::{fault_of, takes_no_call};
use amqp_perform::Performative;
use amqp_reason::{Reason, Spelled};
use amqp_session::{CallFault as SessionCallFault, Session, detach_with, disposition_with};
use std::alloc::Allocator;

/// What the application refuses.
#[derive(Clone, Copy)]
pub enum Refusal {
    /// The link at a handle.
    Link { handle: u32 },
    /// The deliveries with ids from `first` to `last`.
    Deliveries { first: u32, last: u32 },
}

/// Makes a refusal of the session on a channel, and writes the frame for it, with the error. Returns how many
/// ready deliveries were dropped with a link, or how many deliveries are named.
///
/// The first fault is returned, and nothing has changed: `Dead` if the connection is over or closed by this
/// side, `NoSession`, what the session says, `Full`.
#[tactic(auto, using(crate::proofs::Lent::went_on, crate::proofs::Lent::stayed))]
pub fn refuse<A: Allocator + Copy>(
    connection: &mut Connection<A>,
    out: &mut Output<A>,
    channel: u16,
    refusal: Refusal,
    reason: &Reason<'_>,
) -> Result<u32, CallFault>
    ensures answered { CallAnswered connection.old connection.new out.old out.new channel (refused_of refusal (reason_of reason.now)) result }
    ensures count { IfOk result (λ n. IsCounted (accepted_answer (slot_at connection.old channel) (refused_of refusal (reason_of reason.now))) n) }
{
    answers_fit_their_room();
    if takes_no_call(connection) {
        return Err(CallFault::Dead);
    }
    if !out.has_room() {
        return Err(fault(connection, channel, refusal, reason).unwrap_or(CallFault::Full));
    }
    let Some(session) = connection.session_mut(channel) else {
        return Err(CallFault::NoSession);
    };
    match refusal.ask(session, reason) {
        Ok(refused) => {
            refused.say(channel, out);
            Ok(refused.count)
        }
        Err(fault) => Err(fault_of(fault)),
    }
}

/// Returns why the session on a channel would refuse this, `NoSession` if none is live; `None` if it would
/// accept it.
fn fault<A: Allocator + Copy>(
    connection: &Connection<A>,
    channel: u16,
    refusal: Refusal,
    reason: &Reason<'_>,
) -> Option<CallFault>
    ensures { result ≡ at_session (slot_at connection.now channel) (refused_of refusal (reason_of reason.now)) }
{
    match connection.session(channel) {
        Some(session) => match refusal.fault(session, reason) {
            Some(fault) => Some(fault_of(fault)),
            None => None,
        },
        None => Some(CallFault::NoSession),
    }
}

/// What is written for a refusal that was accepted.
#[derive(Drop)]
struct Refused {
    refusal: Refusal,
    /// A settle of deliveries ends them.
    settled: bool,
    /// The error, or the outcome with it, as it is encoded.
    words: Spelled,
    /// How many ready deliveries were dropped with a link, or how many deliveries are named.
    count: u32,
}

impl Refusal {
    /// Makes the refusal of a session. If it is refused, nothing has changed.
    fn ask<A: Allocator + Copy>(
        self,
        session: &mut Session<A>,
        reason: &Reason<'_>,
    ) -> Result<Refused, SessionCallFault>
        ensures { SessionRefused session.old session.new (refused_of self (reason_of reason.now)) result }
    {
        match self {
            Refusal::Link { handle } => {
                let dropped = session.refuse(handle, reason)?;
                Ok(Refused {
                    refusal: self,
                    settled: false,
                    words: amqp_reason::error(reason),
                    count: dropped,
                })
            }
            Refusal::Deliveries { first, last } => {
                let named = session.reject(first, last, reason)?;
                Ok(Refused {
                    refusal: self,
                    settled: named.settled,
                    words: amqp_reason::rejected(reason),
                    count: named.count,
                })
            }
        }
    }

    /// Returns why a session would refuse this; `None` if it would accept it.
    fn fault<A: Allocator + Copy>(
        self,
        session: &Session<A>,
        reason: &Reason<'_>,
    ) -> Option<SessionCallFault>
        ensures { result ≡ call_fault session.now (refused_of self (reason_of reason.now)) }
    {
        match self {
            Refusal::Link { handle } => session.refuse_fault(handle, reason),
            Refusal::Deliveries { first, last } => session.reject_fault(first, last, reason),
        }
    }
}

impl Refused {
    /// Appends the frame: a detach with the error, or a disposition with the outcome.
    fn say<A: Allocator + Copy>(&self, channel: u16, out: &mut Output<A>)
        requires short { length (said_frame channel (refusal_said self.now) []) ≤ reply_room }
        requires room { length out.old + length (said_frame channel (refusal_said self.now) []) ≤ output_size }
        ensures { out.new ≡ out.old ++ said_frame channel (refusal_said self.now) [] }
    {
        out.put(channel, &Saying::Performative(&self.performative()));
    }

    fn performative(&self) -> Performative<'_>
        ensures { said result ≡ refusal_said self.now }
    {
        let words = self.words.as_slice();
        match self.refusal {
            Refusal::Link { handle } => Performative::Detach(detach_with(handle, words)),
            Refusal::Deliveries { first, last } => {
                Performative::Disposition(disposition_with(first, last, self.settled, words))
            }
        }
    }
}
