//! Calls of the application with a reason: a link is refused, or deliveries are rejected, with an error [2.6.5, 3.4.3].
ghost use Rattle.std.specs.Prelude.{◌≡◌, true, [], ◌∷◌, Some, None, OnOk, IfOk, OnErr, IfErr};
ghost use Rattle.amqp_perform.specs.declared.performative.Performative.TheVariants as performative;
ghost use Rattle.amqp_perform.specs.Receivers.{state_said};
ghost use Rattle.amqp_perform.specs.Said.{said};
ghost use Rattle.amqp_reason.specs.Reasons.{is_valid, reason_of, error_span, rejected_span};
ghost use Rattle.amqp_session.specs.Calls.{Refuse, SettleRangeWith, call_fault, call_event, call_answer, reason_fault, settles_at_once, standing_in};
ghost use Rattle.amqp_session.specs.Faults.{or_else};
ghost use Rattle.amqp_session.specs.Frames.{detach_said};
ghost use Rattle.amqp_session.specs.Laws.{named_total};
ghost use Rattle.amqp_session.specs.Sessions.{session_after, slot_at, slot_ready, SessionMay};

use crate::fault::CallFault;
use crate::ranges::Named;
use crate::session::Session;
use amqp_perform::{Detach, Disposition, Role};
use amqp_reason::Reason;
use std::alloc::Allocator;

impl<A: Allocator + Copy> Session<A> {
    /// Returns why [`Session::refuse`] would be refused now; `None` if it would be accepted.
    pub fn refuse_fault(&self, handle: u32, reason: &Reason<'_>) -> Option<CallFault>
        ensures { result ≡ call_fault self.now (Refuse handle (reason_of reason.now)) }
    {
        or_bad(self.link_fault(handle), reason)
    }

    /// Returns why [`Session::reject`] would be refused now; `None` if it would be accepted.
    pub fn reject_fault(&self, first: u32, last: u32, reason: &Reason<'_>) -> Option<CallFault>
        ensures { result ≡ call_fault self.now (SettleRangeWith first last (reason_of reason.now)) }
    {
        or_bad(self.settle_range_fault(first, last), reason)
    }

    /// Ends the link at a handle, as [`Session::detach`] does, and returns how many ready deliveries were dropped.
    /// The caller has to write the detach, with closed true and the error [2.6.5]. The first fault is returned,
    /// `NoLink` or `BadError`. Then nothing has changed.
    #[tactic(auto, using(crate::proofs::Reasoned::good_fault, crate::proofs::Reasoned::bad_fault, crate::proofs::Reasoned::said_valid))]
    pub fn refuse(&mut self, handle: u32, reason: &Reason<'_>) -> Result<u32, CallFault>
        ensures may { OnOk result (SessionMay self.old (call_event self.old (Refuse handle (reason_of reason.now)))) }
        ensures new { OnOk result (self.new ≡ session_after self.old (call_event self.old (Refuse handle (reason_of reason.now)))) }
        ensures accepted { OnOk result (call_fault self.old (Refuse handle (reason_of reason.now)) ≡ None) }
        ensures valid { OnOk result (is_valid (reason_of reason.now) ≡ true) }
        ensures answer { OnOk result (call_answer self.old (Refuse handle (reason_of reason.now)) ≡ detach_said handle true (error_span (reason_of reason.now)) ∷ []) }
        ensures dropped { IfOk result (λ n. n ≡ slot_ready (slot_at self.old handle)) }
        ensures refused { IfErr result (λ e. call_fault self.old (Refuse handle (reason_of reason.now)) ≡ Some e) }
        ensures err { OnErr result (self.new ≡ self.old) }
    {
        if !reason.is_valid() {
            return Err(self.link_fault(handle).unwrap_or(CallFault::BadError));
        }
        let (_, dropped) = self.detach(handle)?;
        Ok(dropped)
    }

    /// Settles the open deliveries with ids from `first` to `last`, and returns what the disposition has to say
    /// [2.7.6]. The caller has to write it, with the outcome rejected and the error [3.4.3]. The faults are those
    /// of [`Session::settle_range`], and then `BadError`. If there is one, nothing has changed. Takes no memory.
    #[tactic(auto, using(crate::proofs::Reasoned::good_fault, crate::proofs::Reasoned::bad_fault, crate::proofs::Reasoned::said_valid))]
    pub fn reject(&mut self, first: u32, last: u32, reason: &Reason<'_>) -> Result<Named, CallFault>
        ensures may { OnOk result (SessionMay self.old (call_event self.old (SettleRangeWith first last (reason_of reason.now)))) }
        ensures new { OnOk result (self.new ≡ session_after self.old (call_event self.old (SettleRangeWith first last (reason_of reason.now)))) }
        ensures accepted { OnOk result (call_fault self.old (SettleRangeWith first last (reason_of reason.now)) ≡ None) }
        ensures valid { OnOk result (is_valid (reason_of reason.now) ≡ true) }
        ensures answer { IfOk result (λ named. call_answer self.old (SettleRangeWith first last (reason_of reason.now)) ≡ state_said first last named.settled (rejected_span (reason_of reason.now)) ∷ []) }
        ensures settled { IfOk result (λ named. named.settled ≡ settles_at_once (standing_in first self.old.links)) }
        ensures count { IfOk result (λ named. named.count ≡ named_total first last self.old) }
        ensures refused { IfErr result (λ e. call_fault self.old (SettleRangeWith first last (reason_of reason.now)) ≡ Some e) }
        ensures err { OnErr result (self.new ≡ self.old) }
    {
        if !reason.is_valid() {
            let fault = self.settle_range_fault(first, last);
            return Err(fault.unwrap_or(CallFault::BadError));
        }
        self.settle_named(first, last)
    }
}

/// Returns the fault, or `BadError` if there is none and the words are not valid.
fn or_bad(fault: Option<CallFault>, reason: &Reason<'_>) -> Option<CallFault>
    ensures { result ≡ or_else fault (reason_fault (reason_of reason.now)) }
{
    match fault {
        Some(fault) => Some(fault),
        None if reason.is_valid() => None,
        None => Some(CallFault::BadError),
    }
}

/// Makes the detach that refuses a link with an error, which is encoded already [2.6.5, 2.7.7].
pub fn detach_with(handle: u32, error: &[u8]) -> Detach<'_>
    ensures { said (performative.Detach result) ≡ detach_said handle true error.now }
{
    Detach {
        handle,
        closed: true,
        error,
    }
}

/// Makes the disposition that says the state of the deliveries with the ids from `first` to `last`, settled or
/// not [2.7.6]. The state is encoded already.
pub fn disposition_with(first: u32, last: u32, settled: bool, state: &[u8]) -> Disposition<'_>
    ensures { said (performative.Disposition result) ≡ state_said first last settled state.now }
{
    let last = if first == last { None } else { Some(last) };
    Disposition {
        role: Role::Receiver,
        first,
        last,
        settled,
        state,
        batchable: &[],
    }
}
