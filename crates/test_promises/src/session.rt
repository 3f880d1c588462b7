//! What `amqp_session` promises.

ghost use Rattle.std.specs.Prelude.{◌≡◌, ◌≤◌, ◌<◌, ◌+◌, ◌^◌, [], ◌∷◌, true, Option, Some, None, OnOk, IfOk, OnErr, IfErr};
ghost use Rattle.amqp_link.specs.Links.{sent_of};
ghost use Rattle.amqp_perform.specs.declared.performative.Performative.{Performative};
ghost use Rattle.amqp_perform.specs.declared.performative.Performative.TheVariants as performative;
ghost use Rattle.amqp_perform.specs.Frames.{IsWritten};
ghost use Rattle.amqp_perform.specs.declared.outcome.Outcome.{Outcome};
ghost use Rattle.amqp_reason.specs.Reasons.{is_valid, reason_of, error_span, rejected_span};
ghost use Rattle.amqp_session.specs.Calls.{Widen, Grant, Drain, Take, Settle, SettleRange, Detach as DetachCall, Refuse, SettleRangeWith, call_fault, call_event, call_answer, range_fault, settles_at_once, standing_in};
ghost use Rattle.amqp_session.specs.Faults.{session_fault, event_of, report_of, answer_of, IsRefusal};
ghost use Rattle.amqp_perform.specs.Receivers.{state_said};
ghost use Rattle.amqp_perform.specs.Said.{said, said_frame};
ghost use Rattle.amqp_session.specs.Frames.{Attaches, Flows, Transfers, Disposes, Detaches, attaching, flowing, disposing, frame_of, attach_said, refusal_said, detach_said, failure_said, stated_said};
ghost use Rattle.amqp_session.specs.Lacking.{IsFirstLacking};
ghost use Rattle.amqp_session.specs.Sessions.{IsApart, session_begins, session_after, session_bytes, session_ready, slot_at, slot_ready, Settled, SessionMay};
ghost use Rattle.amqp_session.specs.Slots.{HandsUp, IsViewAt};
ghost use Rattle.amqp_session.specs.Laws.{named_total};
ghost use Rattle.amqp_session.specs.Answers.{answer_said, IsOfAttach, IsPlain, IsWithin, HasDone, IsFrameRefusal};
ghost use Rattle.amqp_link.specs.Bounds.{Bounds};

use amqp_link::{LinkBounds, Taken};
use amqp_perform::{
    Attach, Condition, Detach, Disposition, Flow, LinkFlow, Outcome, Performative, Transfer,
};
use amqp_reason::Reason;
use amqp_session::{CallFault, Done, LinkView, Named, Report, Session, SessionFault, SessionTerms};
use std::alloc::Allocator;

/// Makes a session as it is at its begin, with no link [2.5.1].
pub fn begin<A: Allocator + Copy>(alloc: A, terms: SessionTerms) -> Session<A>
    ensures { result ≡ session_begins terms }
{
    Session::begin(alloc, terms)
}

/// Returns what the session began with.
pub fn terms<A: Allocator + Copy>(session: &Session<A>) -> &SessionTerms
    ensures { result.now ≡ session.now.terms }
{
    session.terms()
}

/// A law: no two open deliveries have the same id [2.6.12].
pub fn ids_are_apart<A: Allocator + Copy>(session: &Session<A>)
    ensures { IsApart session.now }
{
    session.ids_are_apart();
}

/// Returns how many places of the incoming window are left [2.5.6].
pub fn window<A: Allocator + Copy>(session: &Session<A>) -> u32
    ensures { result ≡ session.now.window }
{
    session.window()
}

/// Returns the next-incoming-id [2.5.6].
pub fn next_incoming_id<A: Allocator + Copy>(session: &Session<A>) -> u32
    ensures { result ≡ session.now.next_incoming_id }
{
    session.next_incoming_id()
}

/// Returns the bytes held.
pub fn held<A: Allocator + Copy>(session: &Session<A>) -> u64
    ensures value { result ≡ session_bytes session.now }
    ensures most { result < 2 ^ 52 }
{
    session.held()
}

/// Returns a view of the live link at a handle; `None` if none is live.
pub fn link<A: Allocator + Copy>(session: &Session<A>, handle: u32) -> Option<LinkView<'_>>
    ensures { IsViewAt (slot_at session.now handle) result }
{
    session.link(handle)
}

/// Returns the first handle, from `from` on, whose link has less credit than `credit` and can be granted more
/// [2.6.7]; `None` if there is none.
pub fn first_lacking<A: Allocator + Copy>(
    session: &Session<A>,
    from: u32,
    credit: u32,
) -> Option<u32>
    ensures { IsFirstLacking credit from (slot_at session.now) result }
{
    session.first_lacking(from, credit)
}

/// Returns how many deliveries are ready to be handed up, on all links.
pub fn ready<A: Allocator + Copy>(session: &Session<A>) -> u32
    ensures value { result ≡ session_ready session.now }
    ensures most { result ≤ 2 ^ 18 }
{
    session.ready()
}

/// Drops the session with its links, and returns how many deliveries were ready and not handed up.
pub fn drop_all<A: Allocator + Copy>(session: Session<A>) -> u32
    ensures { result ≡ session_ready session }
{
    session.drop_all()
}

/// Takes an attach of the peer [2.6.3]. Its handle must be at most handle-max.
pub fn attach<A: Allocator + Copy>(
    session: &mut Session<A>,
    attach: &Attach<'_>,
    bounds: LinkBounds,
) -> Result<Done, SessionFault>
    requires { attach.now.handle ≤ session.old.terms.handle_max }
    ensures may { OnOk result (SessionMay session.old (event_of session.old (Attaches (attaching attach.now bounds)))) }
    ensures new { OnOk result (session.new ≡ session_after session.old (event_of session.old (Attaches (attaching attach.now bounds)))) }
    ensures accepted { OnOk result (session_fault session.old (Attaches (attaching attach.now bounds)) ≡ None) }
    ensures report { IfOk result (λ done. done.report ≡ report_of session.old (Attaches (attaching attach.now bounds))) }
    ensures answer { IfOk result (λ done. answer_of session.old (Attaches (attaching attach.now bounds)) ≡ answer_said session.old.terms (Attaches (attaching attach.now bounds)) done.answer) }
    ensures kind { IfOk result (λ done. IsOfAttach done.answer) }
    ensures refused { IfErr result (λ e. IsRefusal session.old (Attaches (attaching attach.now bounds)) e) }
    ensures err { OnErr result (session.new ≡ session.old) }
{
    session.attach(attach, bounds)
}

/// Takes a flow of the peer [2.7.4].
pub fn flow<A: Allocator + Copy>(
    session: &mut Session<A>,
    flow: &Flow<'_>,
) -> Result<Done, SessionFault>
    ensures may { OnOk result (SessionMay session.old (event_of session.old (Flows (flowing flow.now)))) }
    ensures new { OnOk result (session.new ≡ session_after session.old (event_of session.old (Flows (flowing flow.now)))) }
    ensures accepted { OnOk result (session_fault session.old (Flows (flowing flow.now)) ≡ None) }
    ensures report { IfOk result (λ done. done.report ≡ report_of session.old (Flows (flowing flow.now))) }
    ensures answer { IfOk result (λ done. answer_of session.old (Flows (flowing flow.now)) ≡ answer_said session.old.terms (Flows (flowing flow.now)) done.answer) }
    ensures kind { IfOk result (λ done. IsPlain done.answer) }
    ensures refused { IfErr result (λ e. IsRefusal session.old (Flows (flowing flow.now)) e) }
    ensures err { OnErr result (session.new ≡ session.old) }
{
    session.flow(flow)
}

/// Takes a transfer of the peer with its payload [2.6.14].
pub fn transfer<A: Allocator + Copy>(
    session: &mut Session<A>,
    transfer: &Transfer<'_>,
    payload: &[u8],
) -> Result<Report, SessionFault>
    ensures may { OnOk result (SessionMay session.old (event_of session.old (Transfers transfer.now.handle (sent_of transfer.now payload.now)))) }
    ensures new { OnOk result (session.new ≡ session_after session.old (event_of session.old (Transfers transfer.now.handle (sent_of transfer.now payload.now)))) }
    ensures accepted { OnOk result (session_fault session.old (Transfers transfer.now.handle (sent_of transfer.now payload.now)) ≡ None) }
    ensures report { IfOk result (λ report. report ≡ report_of session.old (Transfers transfer.now.handle (sent_of transfer.now payload.now))) }
    ensures refused { IfErr result (λ e. IsRefusal session.old (Transfers transfer.now.handle (sent_of transfer.now payload.now)) e) }
    ensures err { OnErr result (session.new ≡ session.old) }
{
    session.transfer(transfer, payload)
}

/// Takes a disposition of the peer [2.7.6].
pub fn disposition<A: Allocator + Copy>(
    session: &mut Session<A>,
    disposition: &Disposition<'_>,
) -> Report
    ensures may { SessionMay session.old (event_of session.old (Disposes (disposing disposition.now))) }
    ensures new { session.new ≡ session_after session.old (event_of session.old (Disposes (disposing disposition.now))) }
    ensures report { result ≡ report_of session.old (Disposes (disposing disposition.now)) }
{
    session.disposition(disposition)
}

/// Takes a detach of the peer [2.6.4, 2.6.6].
pub fn detached<A: Allocator + Copy>(
    session: &mut Session<A>,
    detach: &Detach<'_>,
) -> Result<Done, SessionFault>
    ensures may { OnOk result (SessionMay session.old (event_of session.old (Detaches detach.now.handle detach.now.closed))) }
    ensures new { OnOk result (session.new ≡ session_after session.old (event_of session.old (Detaches detach.now.handle detach.now.closed))) }
    ensures accepted { OnOk result (session_fault session.old (Detaches detach.now.handle detach.now.closed) ≡ None) }
    ensures report { IfOk result (λ done. done.report ≡ report_of session.old (Detaches detach.now.handle detach.now.closed)) }
    ensures answer { IfOk result (λ done. answer_of session.old (Detaches detach.now.handle detach.now.closed) ≡ answer_said session.old.terms (Detaches detach.now.handle detach.now.closed) done.answer) }
    ensures kind { IfOk result (λ done. IsPlain done.answer) }
    ensures refused { IfErr result (λ e. IsRefusal session.old (Detaches detach.now.handle detach.now.closed) e) }
    ensures err { OnErr result (session.new ≡ session.old) }
{
    session.detached(detach)
}

/// Takes any frame of the session with its payload, by the call for its performative.
pub fn frame<A: Allocator + Copy>(
    session: &mut Session<A>,
    performative: &Performative<'_>,
    payload: &[u8],
    bounds: LinkBounds,
) -> Result<Done, SessionFault>
    requires { IsWithin session.old.terms.handle_max performative.now }
    ensures done { IfOk result (λ done. HasDone session.old session.new (frame_of performative.now payload.now bounds) done) }
    ensures refused { IfErr result (λ e. IsFrameRefusal session.old (frame_of performative.now payload.now bounds) e) }
    ensures err { OnErr result (session.new ≡ session.old) }
{
    session.frame(performative, payload, bounds)
}

/// Returns why [`Session::widen`] would be refused now; `None` if it would be accepted.
pub fn widen_fault<A: Allocator + Copy>(session: &Session<A>, n: u32) -> Option<CallFault>
    ensures { result ≡ call_fault session.now (Widen n) }
{
    session.widen_fault(n)
}

/// Returns why [`Session::grant`] would be refused now; `None` if it would be accepted.
pub fn grant_fault<A: Allocator + Copy>(
    session: &Session<A>,
    handle: u32,
    n: u32,
) -> Option<CallFault>
    ensures { result ≡ call_fault session.now (Grant handle n) }
{
    session.grant_fault(handle, n)
}

/// Returns why [`Session::drain`] and [`Session::detach`] would be refused now; `None` if they would be
/// accepted.
pub fn link_fault<A: Allocator + Copy>(session: &Session<A>, handle: u32) -> Option<CallFault>
    ensures drain { result ≡ call_fault session.now (Drain handle) }
    ensures detach { result ≡ call_fault session.now (DetachCall handle) }
{
    session.link_fault(handle)
}

/// Returns why [`Session::settle`] would be refused now, with any outcome; `None` if it would be accepted.
pub fn settle_fault<A: Allocator + Copy>(session: &Session<A>, id: u32) -> Option<CallFault>
    ensures { (outcome : Outcome) → result ≡ call_fault session.now (Settle id outcome) }
{
    session.settle_fault(id)
}

/// Returns why [`Session::settle_range`] would be refused now, with any outcome; `None` if it would be
/// accepted.
pub fn settle_range_fault<A: Allocator + Copy>(
    session: &Session<A>,
    first: u32,
    last: u32,
) -> Option<CallFault>
    ensures { (outcome : Outcome) → result ≡ call_fault session.now (SettleRange first last outcome) }
{
    session.settle_range_fault(first, last)
}

/// Widens the incoming window by `n` places, and returns the flow that says so [2.5.6].
pub fn widen<A: Allocator + Copy>(
    session: &mut Session<A>,
    n: u32,
) -> Result<Flow<'static>, CallFault>
    ensures may { OnOk result (SessionMay session.old (call_event session.old (Widen n))) }
    ensures new { OnOk result (session.new ≡ session_after session.old (call_event session.old (Widen n))) }
    ensures accepted { OnOk result (call_fault session.old (Widen n) ≡ None) }
    ensures answer { IfOk result (λ flow. call_answer session.old (Widen n) ≡ said (performative.Flow flow) ∷ []) }
    ensures refused { IfErr result (λ e. call_fault session.old (Widen n) ≡ Some e) }
    ensures err { OnErr result (session.new ≡ session.old) }
{
    session.widen(n)
}

/// Grants the link at a handle `n` places of credit, and returns the flow that says so [2.6.7].
pub fn grant<A: Allocator + Copy>(
    session: &mut Session<A>,
    handle: u32,
    n: u32,
) -> Result<Flow<'static>, CallFault>
    ensures may { OnOk result (SessionMay session.old (call_event session.old (Grant handle n))) }
    ensures new { OnOk result (session.new ≡ session_after session.old (call_event session.old (Grant handle n))) }
    ensures accepted { OnOk result (call_fault session.old (Grant handle n) ≡ None) }
    ensures answer { IfOk result (λ flow. call_answer session.old (Grant handle n) ≡ said (performative.Flow flow) ∷ []) }
    ensures refused { IfErr result (λ e. call_fault session.old (Grant handle n) ≡ Some e) }
    ensures err { OnErr result (session.new ≡ session.old) }
{
    session.grant(handle, n)
}

/// Grants the link at a handle `n` places of credit, and returns what the flow states [2.6.7]. The caller has
/// to write that flow.
pub fn grant_stated<A: Allocator + Copy>(
    session: &mut Session<A>,
    handle: u32,
    n: u32,
) -> Result<LinkFlow, CallFault>
    ensures may { OnOk result (SessionMay session.old (call_event session.old (Grant handle n))) }
    ensures new { OnOk result (session.new ≡ session_after session.old (call_event session.old (Grant handle n))) }
    ensures accepted { OnOk result (call_fault session.old (Grant handle n) ≡ None) }
    ensures answer { IfOk result (λ flow. call_answer session.old (Grant handle n) ≡ stated_said flow ∷ []) }
    ensures refused { IfErr result (λ e. call_fault session.old (Grant handle n) ≡ Some e) }
    ensures err { OnErr result (session.new ≡ session.old) }
{
    session.grant_stated(handle, n)
}

/// Asks the sender on the link at a handle to use its credit up, and returns the flow that says so [2.6.7].
pub fn drain<A: Allocator + Copy>(
    session: &mut Session<A>,
    handle: u32,
) -> Result<Flow<'static>, CallFault>
    ensures may { OnOk result (SessionMay session.old (call_event session.old (Drain handle))) }
    ensures new { OnOk result (session.new ≡ session_after session.old (call_event session.old (Drain handle))) }
    ensures accepted { OnOk result (call_fault session.old (Drain handle) ≡ None) }
    ensures answer { IfOk result (λ flow. call_answer session.old (Drain handle) ≡ said (performative.Flow flow) ∷ []) }
    ensures refused { IfErr result (λ e. call_fault session.old (Drain handle) ≡ Some e) }
    ensures err { OnErr result (session.new ≡ session.old) }
{
    session.drain(handle)
}

/// Hands up the first ready delivery of the link at a handle.
pub fn take<A: Allocator + Copy>(
    session: &mut Session<A>,
    handle: u32,
) -> Result<Taken<A>, CallFault>
    ensures may { OnOk result (SessionMay session.old (call_event session.old (Take handle))) }
    ensures new { OnOk result (session.new ≡ session_after session.old (call_event session.old (Take handle))) }
    ensures accepted { OnOk result (call_fault session.old (Take handle) ≡ None) }
    ensures taken { IfOk result (λ taken. HandsUp (slot_at session.old handle) taken) }
    ensures refused { IfErr result (λ e. call_fault session.old (Take handle) ≡ Some e) }
    ensures err { OnErr result (session.new ≡ session.old) }
{
    session.take(handle)
}

/// Settles the delivery with this id, which was handed up [2.6.12], and returns the disposition that says so.
pub fn settle<A: Allocator + Copy>(
    session: &mut Session<A>,
    id: u32,
    outcome: Outcome,
) -> Result<Disposition<'static>, CallFault>
    ensures may { OnOk result (SessionMay session.old (call_event session.old (Settle id outcome))) }
    ensures new { OnOk result (session.new ≡ session_after session.old (call_event session.old (Settle id outcome))) }
    ensures accepted { OnOk result (call_fault session.old (Settle id outcome) ≡ None) }
    ensures answer { IfOk result (λ p. call_answer session.old (Settle id outcome) ≡ said (performative.Disposition p) ∷ []) }
    ensures refused { IfErr result (λ e. call_fault session.old (Settle id outcome) ≡ Some e) }
    ensures err { OnErr result (session.new ≡ session.old) }
{
    session.settle(id, outcome)
}

/// Settles the open deliveries of all links with ids from `first` to `last`, each as [`Session::settle`] does.
/// Returns the disposition that says so, and how many deliveries it names [2.7.6].
pub fn settle_range<A: Allocator + Copy>(
    session: &mut Session<A>,
    first: u32,
    last: u32,
    outcome: Outcome,
) -> Result<(Disposition<'static>, u32), CallFault>
    ensures may { OnOk result (SessionMay session.old (call_event session.old (SettleRange first last outcome))) }
    ensures new { OnOk result (session.new ≡ session_after session.old (call_event session.old (SettleRange first last outcome))) }
    ensures accepted { OnOk result (call_fault session.old (SettleRange first last outcome) ≡ None) }
    ensures answer { IfOk result (λ told. call_answer session.old (SettleRange first last outcome) ≡ said (performative.Disposition told.0) ∷ []) }
    ensures count { IfOk result (λ told. told.1 ≡ named_total first last session.old) }
    ensures refused { IfErr result (λ e. call_fault session.old (SettleRange first last outcome) ≡ Some e) }
    ensures err { OnErr result (session.new ≡ session.old) }
{
    session.settle_range(first, last, outcome)
}

/// Settles the open deliveries with ids from `first` to `last`, and returns what the disposition has to say
/// [2.7.6]. The caller has to write it.
pub fn settle_named<A: Allocator + Copy>(
    session: &mut Session<A>,
    first: u32,
    last: u32,
) -> Result<Named, CallFault>
    ensures may { OnOk result (SessionMay session.old (Settled first last)) }
    ensures new { OnOk result (session.new ≡ session_after session.old (Settled first last)) }
    ensures accepted { OnOk result (range_fault first last session.old ≡ None) }
    ensures settled { IfOk result (λ named. named.settled ≡ settles_at_once (standing_in first session.old.links)) }
    ensures count { IfOk result (λ named. named.count ≡ named_total first last session.old) }
    ensures refused { IfErr result (λ e. range_fault first last session.old ≡ Some e) }
    ensures err { OnErr result (session.new ≡ session.old) }
{
    session.settle_named(first, last)
}

/// Returns why [`Session::refuse`] would be refused now; `None` if it would be accepted.
pub fn refuse_fault<A: Allocator + Copy>(
    session: &Session<A>,
    handle: u32,
    reason: &Reason<'_>,
) -> Option<CallFault>
    ensures { result ≡ call_fault session.now (Refuse handle (reason_of reason.now)) }
{
    session.refuse_fault(handle, reason)
}

/// Returns why [`Session::reject`] would be refused now; `None` if it would be accepted.
pub fn reject_fault<A: Allocator + Copy>(
    session: &Session<A>,
    first: u32,
    last: u32,
    reason: &Reason<'_>,
) -> Option<CallFault>
    ensures { result ≡ call_fault session.now (SettleRangeWith first last (reason_of reason.now)) }
{
    session.reject_fault(first, last, reason)
}

/// Ends the link at a handle, which is refused with an error [2.6.5]. Returns how many ready deliveries were
/// dropped.
pub fn refuse<A: Allocator + Copy>(
    session: &mut Session<A>,
    handle: u32,
    reason: &Reason<'_>,
) -> Result<u32, CallFault>
    ensures may { OnOk result (SessionMay session.old (call_event session.old (Refuse handle (reason_of reason.now)))) }
    ensures new { OnOk result (session.new ≡ session_after session.old (call_event session.old (Refuse handle (reason_of reason.now)))) }
    ensures accepted { OnOk result (call_fault session.old (Refuse handle (reason_of reason.now)) ≡ None) }
    ensures valid { OnOk result (is_valid (reason_of reason.now) ≡ true) }
    ensures answer { OnOk result (call_answer session.old (Refuse handle (reason_of reason.now)) ≡ detach_said handle true (error_span (reason_of reason.now)) ∷ []) }
    ensures dropped { IfOk result (λ n. n ≡ slot_ready (slot_at session.old handle)) }
    ensures refused { IfErr result (λ e. call_fault session.old (Refuse handle (reason_of reason.now)) ≡ Some e) }
    ensures err { OnErr result (session.new ≡ session.old) }
{
    session.refuse(handle, reason)
}

/// Settles the open deliveries with ids from `first` to `last`, which are rejected with an error [3.4.3], and
/// returns what the disposition has to say. The caller has to write it.
pub fn reject<A: Allocator + Copy>(
    session: &mut Session<A>,
    first: u32,
    last: u32,
    reason: &Reason<'_>,
) -> Result<Named, CallFault>
    ensures may { OnOk result (SessionMay session.old (call_event session.old (SettleRangeWith first last (reason_of reason.now)))) }
    ensures new { OnOk result (session.new ≡ session_after session.old (call_event session.old (SettleRangeWith first last (reason_of reason.now)))) }
    ensures accepted { OnOk result (call_fault session.old (SettleRangeWith first last (reason_of reason.now)) ≡ None) }
    ensures valid { OnOk result (is_valid (reason_of reason.now) ≡ true) }
    ensures answer { IfOk result (λ named. call_answer session.old (SettleRangeWith first last (reason_of reason.now)) ≡ state_said first last named.settled (rejected_span (reason_of reason.now)) ∷ []) }
    ensures settled { IfOk result (λ named. named.settled ≡ settles_at_once (standing_in first session.old.links)) }
    ensures count { IfOk result (λ named. named.count ≡ named_total first last session.old) }
    ensures refused { IfErr result (λ e. call_fault session.old (SettleRangeWith first last (reason_of reason.now)) ≡ Some e) }
    ensures err { OnErr result (session.new ≡ session.old) }
{
    session.reject(first, last, reason)
}

/// Ends the link at a handle [2.6.6]. Returns the detach that says so, and how many ready deliveries were
/// dropped.
pub fn detach<A: Allocator + Copy>(
    session: &mut Session<A>,
    handle: u32,
) -> Result<(Detach<'static>, u32), CallFault>
    ensures may { OnOk result (SessionMay session.old (call_event session.old (DetachCall handle))) }
    ensures new { OnOk result (session.new ≡ session_after session.old (call_event session.old (DetachCall handle))) }
    ensures accepted { OnOk result (call_fault session.old (DetachCall handle) ≡ None) }
    ensures answer { IfOk result (λ d. call_answer session.old (DetachCall handle) ≡ said (performative.Detach d.0) ∷ []) }
    ensures dropped { IfOk result (λ d. d.1 ≡ slot_ready (slot_at session.old handle)) }
    ensures refused { IfErr result (λ e. call_fault session.old (DetachCall handle) ≡ Some e) }
    ensures err { OnErr result (session.new ≡ session.old) }
{
    session.detach(handle)
}

/// Makes the detach with which this side ends a link with an error [2.6.5].
pub fn failure(handle: u32, condition: Condition) -> Detach<'static>
    ensures { said (performative.Detach result) ≡ failure_said handle condition }
{
    amqp_session::failure(handle, condition)
}

/// Writes the frame that answers an accepted attach at the front of `out`, with the longest message that its
/// link accepts [2.6.3, 2.7.3].
pub fn write_attach_reply(
    channel: u16,
    attach: &Attach<'_>,
    bounds: LinkBounds,
    out: &mut [u8],
) -> Option<usize>
    ensures { IsWritten (said_frame channel (attach_said bounds.max_message_size (attaching attach.now bounds)) []) result out.old out.new }
{
    amqp_session::write_attach_reply(channel, attach, bounds, out)
}

/// Makes the answer to the attach of a link that is refused [2.6.3, 2.7.3].
pub fn refusal_reply<'a>(attach: &Attach<'a>) -> Attach<'a>
    ensures { (b : Bounds) → said (performative.Attach result) ≡ refusal_said (attaching attach.now b) }
{
    amqp_session::refusal_reply(attach)
}
