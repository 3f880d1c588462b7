//! A whole run of an endpoint.
ghost use Rattle.std.specs.Prelude.{◌≡◌, ◌<◌, ◌^◌, map, true, IfOk, IfErr};
ghost use Rattle.amqp_session.specs.Calls.{Widen, Grant, Drain, Take, Settle, SettleRange, Detach};
ghost use Rattle.amqp_endpoint.specs.Endpoints.{call_of, answer_of, accepted_by, dropped_by, named_by, handed_by, IsReplay};
ghost use Rattle.amqp_endpoint.specs.Runs.{Does, may_want};
ghost use Rattle.amqp_endpoint.specs.Traces.{IsInRange, IsWholeRun};

use crate::call::{Answer, Call};
use crate::config::Config;
use crate::endpoint::Endpoint;
use crate::fault::CallFault;
use crate::laws::{are_bytes, is_id, runs_have_a_history};
use amqp_link::Taken;
use std::alloc::{AllocError, Allocator};

/// Makes these calls on a new endpoint, in order, and returns the endpoint and the answers. It is an error if
/// memory for the endpoint, for the answers or for the bytes of an output is refused.
pub fn replay<A: Allocator + Copy>(
    alloc: A,
    config: Config<A>,
    calls: &[Call<'_>],
) -> Result<(Endpoint<A>, Vec<Answer<A>, A>), AllocError>
    ensures run { IfOk result (λ r. IsReplay config (map call_of calls.now) (map answer_of r.1.items) r.0) }
    ensures whole { IfOk result (λ r. IsWholeRun config (map call_of calls.now) (map answer_of r.1.items) r.0) }
{
    runs_have_a_history();
    config.is_within();
    let mut endpoint = Endpoint::new(alloc, config)?;
    let mut answers = Vec::with_capacity(alloc, calls.len())?;
    for call in calls {
        is_in_range(call);
        answers.push_reserved(endpoint.call(alloc, call)?);
    }
    Ok((endpoint, answers))
}

/// A law: the bytes of a call are bytes, and its delivery-ids have 32 bits.
fn is_in_range(call: &Call<'_>)
    ensures { IsInRange (call_of call.now) }
{
    match *call {
        Call::Feed(piece) => are_bytes(piece),
        Call::Settle { id, .. } => is_id(id),
        Call::SettleRange { first, last, .. } => are_ids(first, last),
        Call::SettleWith { id, .. } => is_id(id),
        Call::SettleRangeWith { first, last, .. } => are_ids(first, last),
        _ => {}
    }
}

/// A law: both ends of a range have 32 bits.
fn are_ids(first: u32, last: u32)
    ensures first { first < 2 ^ 32 }
    ensures last { last < 2 ^ 32 }
{
    is_id(first);
    is_id(last);
}

impl<A: Allocator + Copy> Endpoint<A> {
    /// Makes one call, and returns its answer. It is an error only if memory for the bytes that an output moves
    /// out is refused. Then nothing has changed. A feed that is refused memory returns that in its outcome.
    pub fn call(&mut self, alloc: A, call: &Call<'_>) -> Result<Answer<A>, AllocError>
        ensures ok { IfOk result (λ answer. Does self.old self.new (call_of call.now) (answer_of answer)) }
        ensures err { IfErr result (λ _. (self.new ≡ self.old) × (may_want self.old (call_of call.now) ≡ true)) }
    {
        Ok(match *call {
            Call::Feed(piece) => Answer::Fed(self.feed(piece)),
            Call::Grant { channel, handle, n } => accepted(self.grant(channel, handle, n)),
            Call::Widen { channel, n } => accepted(self.widen(channel, n)),
            Call::Drain { channel, handle } => accepted(self.drain(channel, handle)),
            Call::Take { channel, handle } => handed_up(self.take(channel, handle)),
            Call::Settle {
                channel,
                id,
                outcome,
            } => accepted(self.settle(channel, id, outcome)),
            Call::SettleRange {
                channel,
                first,
                last,
                outcome,
            } => named(self.settle_range(channel, first, last, outcome)),
            Call::Detach { channel, handle } => dropped(self.detach(channel, handle)),
            Call::Refuse {
                channel,
                handle,
                reason,
            } => dropped(self.refuse(channel, handle, &reason)),
            Call::SettleWith {
                channel,
                id,
                reason,
            } => accepted(self.settle_with(channel, id, &reason)),
            Call::SettleRangeWith {
                channel,
                first,
                last,
                reason,
            } => named(self.settle_range_with(channel, first, last, &reason)),
            Call::Close => dropped(self.close()),
            Call::CloseWith(reason) => dropped(self.close_with(&reason)),
            Call::Heartbeat => accepted(self.heartbeat()),
            Call::Output(room) => Answer::MovedOut(self.output_to_vec(alloc, room)?),
            Call::Held => Answer::Holds(self.held()),
            Call::Finish => Answer::Ended(self.finish()),
        })
    }
}

/// Returns the answer to a call that returns nothing.
fn accepted<A: Allocator + Copy>(given: Result<(), CallFault>) -> Answer<A>
    ensures { answer_of result ≡ accepted_by given }
{
    match given {
        Ok(()) => Answer::Accepted,
        Err(fault) => Answer::Refused(fault),
    }
}

/// Returns the answer to a call that returns how many ready deliveries were dropped.
fn dropped<A: Allocator + Copy>(given: Result<u32, CallFault>) -> Answer<A>
    ensures { answer_of result ≡ dropped_by given }
{
    match given {
        Ok(count) => Answer::Dropped(count),
        Err(fault) => Answer::Refused(fault),
    }
}

/// Returns the answer to a call that returns how many deliveries it named.
fn named<A: Allocator + Copy>(given: Result<u32, CallFault>) -> Answer<A>
    ensures { answer_of result ≡ named_by given }
{
    match given {
        Ok(count) => Answer::Named(count),
        Err(fault) => Answer::Refused(fault),
    }
}

/// Returns the answer to a take.
fn handed_up<A: Allocator + Copy>(given: Result<Taken<A>, CallFault>) -> Answer<A>
    ensures { answer_of result ≡ handed_by given }
{
    match given {
        Ok(taken) => Answer::HandedUp(taken),
        Err(fault) => Answer::Refused(fault),
    }
}
