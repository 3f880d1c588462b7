//! One session that receives.
ghost use Rattle.std.specs.Prelude.{◌≡◌, ℕ, ◌≤◌, ◌<◌, ◌+◌, ◌^◌, sum_by, [], ◌∷◌, unwrap_or, Option, Some, None, OnOk, IfOk, OnErr, IfErr, true, false, is_some, if◌then◌else◌};
ghost use Rattle.std.specs.Option.{option_map_or};
ghost use Rattle.amqp_link.specs.Links.{sent_of, fault_of, link_after, may_grow, step_of, Transferred};
ghost use Rattle.amqp_perform.specs.declared.performative.Performative.{Performative};
ghost use Rattle.amqp_perform.specs.declared.performative.Performative.TheVariants as performative;
ghost use Rattle.amqp_perform.specs.declared.outcome.Outcome.{Outcome};
ghost use Rattle.amqp_session.specs.Calls.{Widen, Grant, Drain, Take, Settle, SettleRange, Detach as DetachCall, call_fault, call_event, call_answer, range_fault, settles_at_once, standing_in};
ghost use Rattle.amqp_session.specs.Faults.{session_fault, event_of, report_of, answer_of, failure_answer, flow_answer, echo_answer, slot_settled, link_condition, IsRefusal};
ghost use Rattle.amqp_perform.specs.Said.{said};
ghost use Rattle.amqp_session.specs.Frames.{Attaches, Flows, Transfers, Disposes, Detaches, attaching, flowing, disposing, frame_of, stated_said};
ghost use Rattle.amqp_session.specs.Lacking.{IsFirstLacking};
ghost use Rattle.amqp_session.specs.Sessions.{session_begins, session_after, session_bytes, session_ready, slot_at, slot_ready, Detached, Settled, SessionMay, IsApart};
ghost use Rattle.amqp_session.specs.Places.{live_in};
ghost use Rattle.amqp_session.specs.Slots.{HandsUp, IsViewAt, is_live};
ghost use Rattle.amqp_session.specs.Laws.{named_total};
ghost use Rattle.amqp_session.specs.Indexes.{found, gone_of, ids_of, is_untaken, disposed, is_begun, IsTaken, IsKeptBehind, IsAlone, IsKnown};
ghost use Rattle.amqp_session.specs.Answers.{said_by, answer_said, IsOfAttach, IsPlain, IsWithin, HasDone, IsFrameRefusal, IsAttachAnswer};

use crate::done::{Answer, Done};
use crate::fault::{CallFault, SessionFault};
use crate::index::{Index, Kept};
use crate::ranges::Named;
use crate::report::Report;
use crate::state::{
    State, is_settling, link_condition, settled_report, settles_at_once, standing_fault, stated,
    step_report,
};
use crate::terms::SessionTerms;
use crate::view::LinkView;
use crate::{ranges, replies};
use amqp_link::{Link, LinkBounds, LinkFault, Standing, Step, Taken, Verdict, laws};
use amqp_perform::{Attach, Detach, Disposition, Flow, LinkFlow, Outcome, Performative, Transfer};
use amqp_serial::Serial;
use std::alloc::{Allocator, Global};
use std::marker::Model;

/// One live session that receives: its window, its links by handle, and the deliveries that are open on them
/// [2.5, 2.6]. No two open deliveries have the same delivery-id.
///
/// A peer's frame is taken by the call for its performative, or by [`Session::frame`]. A refused frame changes
/// nothing. Unless it is refused with `NoMemory`, it ends the session, which the caller has to do. The calls
/// return what is to be written in answer, and the caller has to write it.
#[derive(Drop)]
pub struct Session<A: Allocator + Copy = Global> {
    state: State<A>,
    /// Where the open deliveries are stored, by their ids.
    index: Index<A>,
}

impl<A: Allocator + Copy> Model for Session<A> {
    ghost use Rattle.amqp_session.specs.Sessions.{SessionState};

    ghost Value = { SessionState };

    ghost use Rattle.amqp_session.specs.Indexes.{IsKnown};

    ghost view = { λ a. a.state };

    ghost invariant = { λ a. IsKnown a.index a.state };
}

impl<A: Allocator + Copy> Session<A> {
    /// Makes a session as it is at its begin, with no link [2.5.1]. Takes no memory. Its links take theirs from
    /// `alloc`.
    pub fn begin(alloc: A, terms: SessionTerms) -> Self
        ensures { result ≡ session_begins terms }
    {
        Session {
            state: State::begin(alloc, terms),
            index: Index::new(alloc),
        }
    }

    /// Returns what the session began with.
    pub fn terms(&self) -> &SessionTerms
        ensures { result.now ≡ self.now.terms }
    {
        self.state.terms()
    }

    /// A law: no two open deliveries have the same id [2.6.12].
    pub fn ids_are_apart(&self)
        ensures { IsApart self.now }
    {
        let _ = &self.index; // the invariant says so
    }

    /// Returns how many places of the incoming window are left [2.5.6].
    pub fn window(&self) -> u32
        ensures { result ≡ self.now.window }
    {
        self.state.window()
    }

    /// Returns the next-incoming-id [2.5.6], for a caller that shows it or writes flows itself.
    pub fn next_incoming_id(&self) -> u32
        ensures { result ≡ self.now.next_incoming_id }
    {
        self.state.next_incoming_id()
    }

    /// Returns the bytes held: 64 for the session, 128 for each handle in use, and for each live link its name,
    /// source, target, and what its open deliveries hold.
    pub fn held(&self) -> u64
        ensures value { result ≡ session_bytes self.now }
        ensures most { result < 2 ^ 52 }
    {
        let Session { state, index: _ } = self;
        state.held()
    }

    /// Returns a view of the live link at a handle; `None` if none is live.
    pub fn link(&self, handle: u32) -> Option<LinkView<'_>>
        ensures { IsViewAt (slot_at self.now handle) result }
    {
        self.state.link(handle)
    }

    /// Returns the first handle, from `from` on, whose link has less credit than `credit` and can be granted
    /// more [2.6.7]; `None` if there is none.
    pub fn first_lacking(&self, from: u32, credit: u32) -> Option<u32>
        ensures { IsFirstLacking credit from (slot_at self.now) result }
    {
        self.state.first_lacking(from, credit)
    }

    /// Returns how many deliveries are ready to be handed up, on all links: at most 2^18.
    pub fn ready(&self) -> u32
        ensures value { result ≡ session_ready self.now }
        ensures most { result ≤ 2 ^ 18 }
    {
        self.state.ready()
    }

    /// Drops the session with its links, and returns how many deliveries were ready and not handed up.
    pub fn drop_all(self) -> u32
        ensures { result ≡ session_ready self }
    {
        self.state.ready()
    }

    /// Takes an attach of the peer [2.6.3]. Its handle must be at most handle-max.
    ///
    /// `Attached` reports a link, which [`crate::write_attach_reply`] answers. `Failed` reports a link that is
    /// refused: the answer is [`crate::refusal_reply`], and then a detach; the handle stays in use until the
    /// peer detaches it. A link is refused if this side would be its sender, or the coordinator of
    /// transactions. It is also refused if source and target together have more than 1024 bytes, or if the
    /// answer would not fit a frame of the peer.
    ///
    /// The first fault is returned, and nothing has changed: `ResourceLimit` if the name has more than 255
    /// bytes, `HandleInUse`, `InvalidField` if a sender states no initial-delivery-count, `NoMemory`.
    pub fn attach(&mut self, attach: &Attach<'_>, bounds: LinkBounds) -> Result<Done, SessionFault>
        requires { attach.now.handle ≤ self.old.terms.handle_max }
        ensures may { OnOk result (SessionMay self.old (event_of self.old (Attaches (attaching attach.now bounds)))) }
        ensures new { OnOk result (self.new ≡ session_after self.old (event_of self.old (Attaches (attaching attach.now bounds)))) }
        ensures accepted { OnOk result (session_fault self.old (Attaches (attaching attach.now bounds)) ≡ None) }
        ensures report { IfOk result (λ done. done.report ≡ report_of self.old (Attaches (attaching attach.now bounds))) }
        ensures answer { IfOk result (λ done. answer_of self.old (Attaches (attaching attach.now bounds)) ≡ answer_said self.old.terms (Attaches (attaching attach.now bounds)) done.answer) }
        ensures kind { IfOk result (λ done. IsOfAttach done.answer) }
        ensures refused { IfErr result (λ e. IsRefusal self.old (Attaches (attaching attach.now bounds)) e) }
        ensures err { OnErr result (self.new ≡ self.old) }
    {
        laws::open_ids_grow_by_heads();
        self.state.is_long();
        is_counted(attach);
        let report = self.state.attach(attach, bounds)?;
        Ok(attach_done(report))
    }

    /// Takes a flow of the peer [2.7.4]. Its next-outgoing-id becomes the next-incoming-id; the window stays as
    /// it is. If it has a handle, the link follows its delivery-count. A flow for a link that waits for the
    /// peer's detach is dropped.
    ///
    /// `Drained` reports that the sender used its credit up, as it was asked to. `Failed` reports that it
    /// stated more than its credit; the answer is the detach that ends the link. Else an echo is answered by a
    /// flow: of the link if the flow has a handle, else of the session.
    ///
    /// The only error is `UnattachedHandle`. Then nothing has changed.
    pub fn flow(&mut self, flow: &Flow<'_>) -> Result<Done, SessionFault>
        ensures may { OnOk result (SessionMay self.old (event_of self.old (Flows (flowing flow.now)))) }
        ensures new { OnOk result (self.new ≡ session_after self.old (event_of self.old (Flows (flowing flow.now)))) }
        ensures accepted { OnOk result (session_fault self.old (Flows (flowing flow.now)) ≡ None) }
        ensures report { IfOk result (λ done. done.report ≡ report_of self.old (Flows (flowing flow.now))) }
        ensures answer { IfOk result (λ done. answer_of self.old (Flows (flowing flow.now)) ≡ answer_said self.old.terms (Flows (flowing flow.now)) done.answer) }
        ensures kind { IfOk result (λ done. IsPlain done.answer) }
        ensures refused { IfErr result (λ e. IsRefusal self.old (Flows (flowing flow.now)) e) }
        ensures err { OnErr result (self.new ≡ self.old) }
    {
        laws::open_ids_grow_by_heads();
        self.state.is_long();
        let mut ended = None;
        let report = self.state.flow(&mut ended, flow)?;
        self.index.flowed(report, ended);
        let answer = flow_answer(&self.state, flow, report);
        Ok(Done { report, answer })
    }

    /// Takes a transfer of the peer with its payload [2.6.14]. Unless it is refused, it uses a place of the
    /// window and a number, whatever it results in.
    ///
    /// A transfer for a link that waits for the peer's detach is dropped. `Failed` reports that the transfer
    /// ended its link, and the caller has to write [`crate::failure`]. The reason is the first of these: it
    /// resumes a delivery; it begins one with the id of an open delivery of the session; another fault of
    /// [`amqp_link::Link::transfer`].
    ///
    /// The first fault is returned, and nothing has changed: `WindowViolation` if no place is left,
    /// `UnattachedHandle`, `NoMemory`. `NoMemory` comes neither for an aborted transfer nor for a later one of
    /// a delivery without payload.
    pub fn transfer(
        &mut self,
        transfer: &Transfer<'_>,
        payload: &[u8],
    ) -> Result<Report, SessionFault>
        ensures may { OnOk result (SessionMay self.old (event_of self.old (Transfers transfer.now.handle (sent_of transfer.now payload.now)))) }
        ensures new { OnOk result (self.new ≡ session_after self.old (event_of self.old (Transfers transfer.now.handle (sent_of transfer.now payload.now)))) }
        ensures accepted { OnOk result (session_fault self.old (Transfers transfer.now.handle (sent_of transfer.now payload.now)) ≡ None) }
        ensures report { IfOk result (λ report. report ≡ report_of self.old (Transfers transfer.now.handle (sent_of transfer.now payload.now))) }
        ensures refused { IfErr result (λ e. IsRefusal self.old (Transfers transfer.now.handle (sent_of transfer.now payload.now)) e) }
        ensures err { OnErr result (self.new ≡ self.old) }
    {
        laws::open_ids_grow_by_heads();
        self.state.is_long();
        is_numbered(transfer);
        if self.state.window() == 0 {
            return Err(SessionFault::WindowViolation);
        }
        let handle = transfer.handle;
        let known = is_known(&self.index, transfer);
        let Some(link) = self.state.link_mut(handle) else {
            self.state.drop_transfer(handle)?;
            return Ok(Report::Nothing);
        };
        let verdict = link.verdict(known, transfer, payload);
        if let Verdict::Fails(fault) = verdict {
            let report = end_link(&mut self.state, &mut self.index, handle, fault);
            self.state.transfer_came();
            return Ok(report);
        }
        match accept(link, &mut self.index, verdict, transfer, payload) {
            Ok(step) => {
                self.state.transfer_came();
                Ok(step_report(handle, step))
            }
            Err(fault) => Err(fault),
        }
    }

    /// Takes a disposition of the peer [2.7.6]. If it is a sender's and has settled true, it settles the
    /// deliveries that it covers, on all links. `Settled` reports how many open deliveries it settles, if there
    /// are any. Any other disposition does nothing.
    pub fn disposition(&mut self, disposition: &Disposition<'_>) -> Report
        ensures may { SessionMay self.old (event_of self.old (Disposes (disposing disposition.now))) }
        ensures new { self.new ≡ session_after self.old (event_of self.old (Disposes (disposing disposition.now))) }
        ensures report { result ≡ report_of self.old (Disposes (disposing disposition.now)) }
    {
        laws::open_ids_grow_by_heads();
        self.state.is_long();
        dispose(&mut self.state, &mut self.index, disposition)
    }

    /// Takes a detach of the peer: the handle is then free [2.6.4, 2.6.6]. `Detached` reports how many ready
    /// deliveries were dropped. The answer is a detach with the same closed, unless this side sent the first
    /// one. The only error is `UnattachedHandle`. Then nothing has changed.
    pub fn detached(&mut self, detach: &Detach<'_>) -> Result<Done, SessionFault>
        ensures may { OnOk result (SessionMay self.old (event_of self.old (Detaches detach.now.handle detach.now.closed))) }
        ensures new { OnOk result (self.new ≡ session_after self.old (event_of self.old (Detaches detach.now.handle detach.now.closed))) }
        ensures accepted { OnOk result (session_fault self.old (Detaches detach.now.handle detach.now.closed) ≡ None) }
        ensures report { IfOk result (λ done. done.report ≡ report_of self.old (Detaches detach.now.handle detach.now.closed)) }
        ensures answer { IfOk result (λ done. answer_of self.old (Detaches detach.now.handle detach.now.closed) ≡ answer_said self.old.terms (Detaches detach.now.handle detach.now.closed) done.answer) }
        ensures kind { IfOk result (λ done. IsPlain done.answer) }
        ensures refused { IfErr result (λ e. IsRefusal self.old (Detaches detach.now.handle detach.now.closed) e) }
        ensures err { OnErr result (self.new ≡ self.old) }
    {
        laws::open_ids_grow_by_heads();
        self.state.is_long();
        let handle = detach.handle;
        let mut ended = None;
        let detached = self.state.detached(&mut ended, handle)?;
        self.index.forget_link(ended);
        let answer = if detached.live {
            Answer::Detach(replies::detach(handle, detach.closed))
        } else {
            Answer::Nothing
        };
        Ok(Done {
            report: Report::Detached {
                handle,
                dropped: detached.dropped,
            },
            answer,
        })
    }

    /// Takes any frame of the session with its payload, by the call for its performative. An open, a begin, an
    /// end and a close do nothing: they are not for the session. An attach's handle must be at most handle-max.
    /// The errors are those of that call. Then nothing has changed.
    pub fn frame(
        &mut self,
        performative: &Performative<'_>,
        payload: &[u8],
        bounds: LinkBounds,
    ) -> Result<Done, SessionFault>
        requires { IsWithin self.old.terms.handle_max performative.now }
        ensures done { IfOk result (λ done. HasDone self.old self.new (frame_of performative.now payload.now bounds) done) }
        ensures refused { IfErr result (λ e. IsFrameRefusal self.old (frame_of performative.now payload.now bounds) e) }
        ensures err { OnErr result (self.new ≡ self.old) }
    {
        match performative {
            Performative::Attach(p) => self.attach(p, bounds),
            Performative::Flow(p) => self.flow(p),
            Performative::Transfer(p) => Ok(told(self.transfer(p, payload)?)),
            Performative::Disposition(p) => Ok(told(self.disposition(p))),
            Performative::Detach(p) => self.detached(p),
            _ => Ok(told(Report::Nothing)),
        }
    }

    /// Returns why [`Session::widen`] would be refused now; `None` if it would be accepted.
    pub fn widen_fault(&self, n: u32) -> Option<CallFault>
        ensures { result ≡ call_fault self.now (Widen n) }
    {
        self.state.widen_fault(n)
    }

    /// Returns why [`Session::grant`] would be refused now; `None` if it would be accepted.
    pub fn grant_fault(&self, handle: u32, n: u32) -> Option<CallFault>
        ensures { result ≡ call_fault self.now (Grant handle n) }
    {
        self.state.grant_fault(handle, n)
    }

    /// Returns why [`Session::drain`] and [`Session::detach`] would be refused now; `None` if they would be
    /// accepted.
    pub fn link_fault(&self, handle: u32) -> Option<CallFault>
        ensures drain { result ≡ call_fault self.now (Drain handle) }
        ensures detach { result ≡ call_fault self.now (DetachCall handle) }
    {
        self.state.link_fault(handle)
    }

    /// Returns why [`Session::settle`] would be refused now, with any outcome; `None` if it would be accepted.
    pub fn settle_fault(&self, id: u32) -> Option<CallFault>
        ensures { (outcome : Outcome) → result ≡ call_fault self.now (Settle id outcome) }
    {
        self.settle_range_fault(id, id)
    }

    /// Returns why [`Session::settle_range`] would be refused now, with any outcome; `None` if it would be
    /// accepted.
    pub fn settle_range_fault(&self, first: u32, last: u32) -> Option<CallFault>
        ensures { (outcome : Outcome) → result ≡ call_fault self.now (SettleRange first last outcome) }
    {
        match ranges::judge(&self.index, &self.state, first, last) {
            Ok(_) => None,
            Err(fault) => Some(fault),
        }
    }

    /// Widens the incoming window by `n` places, and returns the flow that says so [2.5.6]. It is an error,
    /// `WindowTooWide`, if the window would pass 2147483647 places. Then nothing has changed.
    pub fn widen(&mut self, n: u32) -> Result<Flow<'static>, CallFault>
        ensures may { OnOk result (SessionMay self.old (call_event self.old (Widen n))) }
        ensures new { OnOk result (self.new ≡ session_after self.old (call_event self.old (Widen n))) }
        ensures accepted { OnOk result (call_fault self.old (Widen n) ≡ None) }
        ensures answer { IfOk result (λ flow. call_answer self.old (Widen n) ≡ said (performative.Flow flow) ∷ []) }
        ensures refused { IfErr result (λ e. call_fault self.old (Widen n) ≡ Some e) }
        ensures err { OnErr result (self.new ≡ self.old) }
    {
        laws::open_ids_grow_by_heads();
        self.state.is_long();
        self.state.widen(n)?;
        Ok(self.state.session_flow())
    }

    /// Grants the link at a handle `n` places of credit, and returns the flow that says so [2.6.7]. Even if `n`
    /// is 0, the sender is then no longer asked to use its credit up.
    ///
    /// The first fault is returned, and nothing has changed: `NoLink`; `TooMuchCredit` if credit and open
    /// deliveries would be more than the link allows.
    pub fn grant(&mut self, handle: u32, n: u32) -> Result<Flow<'static>, CallFault>
        ensures may { OnOk result (SessionMay self.old (call_event self.old (Grant handle n))) }
        ensures new { OnOk result (self.new ≡ session_after self.old (call_event self.old (Grant handle n))) }
        ensures accepted { OnOk result (call_fault self.old (Grant handle n) ≡ None) }
        ensures answer { IfOk result (λ flow. call_answer self.old (Grant handle n) ≡ said (performative.Flow flow) ∷ []) }
        ensures refused { IfErr result (λ e. call_fault self.old (Grant handle n) ≡ Some e) }
        ensures err { OnErr result (self.new ≡ self.old) }
    {
        let stated = self.grant_stated(handle, n)?;
        Ok(stated.flow())
    }

    /// Grants the link at a handle `n` places of credit, and returns what the flow states [2.6.7]. The caller
    /// has to write that flow. The errors are `NoLink` and `TooMuchCredit`. Then nothing has changed. See
    /// [`Session::grant`].
    pub fn grant_stated(&mut self, handle: u32, n: u32) -> Result<LinkFlow, CallFault>
        ensures may { OnOk result (SessionMay self.old (call_event self.old (Grant handle n))) }
        ensures new { OnOk result (self.new ≡ session_after self.old (call_event self.old (Grant handle n))) }
        ensures accepted { OnOk result (call_fault self.old (Grant handle n) ≡ None) }
        ensures answer { IfOk result (λ flow. call_answer self.old (Grant handle n) ≡ stated_said flow ∷ []) }
        ensures refused { IfErr result (λ e. call_fault self.old (Grant handle n) ≡ Some e) }
        ensures err { OnErr result (self.new ≡ self.old) }
    {
        laws::open_ids_grow_by_heads();
        self.state.is_long();
        let Some(link) = self.state.link_mut(handle) else {
            return Err(CallFault::NoLink);
        };
        let Ok(()) = link.grant(n) else {
            return Err(CallFault::TooMuchCredit);
        };
        let stated = stated(link);
        Ok(self.state.flow_stating(handle, stated))
    }

    /// Asks the sender on the link at a handle to use its credit up, and returns the flow that says so [2.6.7].
    /// The only error is `NoLink`. Then nothing has changed.
    pub fn drain(&mut self, handle: u32) -> Result<Flow<'static>, CallFault>
        ensures may { OnOk result (SessionMay self.old (call_event self.old (Drain handle))) }
        ensures new { OnOk result (self.new ≡ session_after self.old (call_event self.old (Drain handle))) }
        ensures accepted { OnOk result (call_fault self.old (Drain handle) ≡ None) }
        ensures answer { IfOk result (λ flow. call_answer self.old (Drain handle) ≡ said (performative.Flow flow) ∷ []) }
        ensures refused { IfErr result (λ e. call_fault self.old (Drain handle) ≡ Some e) }
        ensures err { OnErr result (self.new ≡ self.old) }
    {
        laws::open_ids_grow_by_heads();
        self.state.is_long();
        let Some(link) = self.state.link_mut(handle) else {
            return Err(CallFault::NoLink);
        };
        link.drain();
        let stated = stated(link);
        Ok(self.state.flow_stating(handle, stated).flow())
    }

    /// Hands up the first ready delivery of the link at a handle. The errors are `NoLink` and `NothingReady`.
    /// Then nothing has changed. Takes no memory.
    // Inlined for `telemetry` and `gateway` (docs/PERF.md).
    #[inline(always)]
    pub fn take(&mut self, handle: u32) -> Result<Taken<A>, CallFault>
        ensures may { OnOk result (SessionMay self.old (call_event self.old (Take handle))) }
        ensures new { OnOk result (self.new ≡ session_after self.old (call_event self.old (Take handle))) }
        ensures accepted { OnOk result (call_fault self.old (Take handle) ≡ None) }
        ensures taken { IfOk result (λ taken. HandsUp (slot_at self.old handle) taken) }
        ensures refused { IfErr result (λ e. call_fault self.old (Take handle) ≡ Some e) }
        ensures err { OnErr result (self.new ≡ self.old) }
    {
        laws::open_ids_grow_by_heads();
        self.state.is_long();
        let Some(link) = self.state.link_mut(handle) else {
            return Err(CallFault::NoLink);
        };
        let Some(taken) = link.take() else {
            return Err(CallFault::NothingReady);
        };
        self.index.close(taken.delivery_id, taken.settled);
        Ok(taken)
    }

    /// Settles the delivery with this id, which was handed up [2.6.12], and returns the disposition that says
    /// so. In mode second (rcv-settle-mode) it tells the sender what became of the delivery, and the sender
    /// settles it [2.8.3]. The errors are `NoDelivery`, `NotTaken` and `AlreadyTold`. Then nothing has changed.
    /// Takes no memory.
    pub fn settle(&mut self, id: u32, outcome: Outcome) -> Result<Disposition<'static>, CallFault>
        ensures may { OnOk result (SessionMay self.old (call_event self.old (Settle id outcome))) }
        ensures new { OnOk result (self.new ≡ session_after self.old (call_event self.old (Settle id outcome))) }
        ensures accepted { OnOk result (call_fault self.old (Settle id outcome) ≡ None) }
        ensures answer { IfOk result (λ p. call_answer self.old (Settle id outcome) ≡ said (performative.Disposition p) ∷ []) }
        ensures refused { IfErr result (λ e. call_fault self.old (Settle id outcome) ≡ Some e) }
        ensures err { OnErr result (self.new ≡ self.old) }
    {
        let named = self.settle_named(id, id)?;
        Ok(replies::disposition(id, id, named.settled, outcome))
    }

    /// Settles the open deliveries of all links with ids from `first` to `last`, each as [`Session::settle`]
    /// does. Returns the disposition that says so, and how many deliveries it names [2.7.6]. Takes no memory.
    ///
    /// Ids between `first` and `last` that no open delivery has are no fault. The first fault is returned, and
    /// nothing has changed:
    ///
    /// - `NoDelivery`: `first` or `last` is not the id of an open delivery, or `last` is before `first`.
    /// - `NotTaken`: one of the deliveries was not handed up.
    /// - `AlreadyTold`: the sender was already told what became of one of them.
    /// - `MixedModes`: one is in mode first, and another in mode second.
    pub fn settle_range(
        &mut self,
        first: u32,
        last: u32,
        outcome: Outcome,
    ) -> Result<(Disposition<'static>, u32), CallFault>
        ensures may { OnOk result (SessionMay self.old (call_event self.old (SettleRange first last outcome))) }
        ensures new { OnOk result (self.new ≡ session_after self.old (call_event self.old (SettleRange first last outcome))) }
        ensures accepted { OnOk result (call_fault self.old (SettleRange first last outcome) ≡ None) }
        ensures answer { IfOk result (λ told. call_answer self.old (SettleRange first last outcome) ≡ said (performative.Disposition told.0) ∷ []) }
        ensures count { IfOk result (λ told. told.1 ≡ named_total first last self.old) }
        ensures refused { IfErr result (λ e. call_fault self.old (SettleRange first last outcome) ≡ Some e) }
        ensures err { OnErr result (self.new ≡ self.old) }
    {
        let named = self.settle_named(first, last)?;
        Ok((
            replies::disposition(first, last, named.settled, outcome),
            named.count,
        ))
    }

    /// Settles the open deliveries with ids from `first` to `last`, and returns what the disposition has to say
    /// [2.7.6]. The caller has to write it. The errors are those of [`Session::settle_range`]. Then nothing has
    /// changed. Takes no memory.
    // Inlined for `telemetry` and `gateway` (docs/PERF.md).
    #[inline(always)]
    pub fn settle_named(&mut self, first: u32, last: u32) -> Result<Named, CallFault>
        ensures may { OnOk result (SessionMay self.old (Settled first last)) }
        ensures new { OnOk result (self.new ≡ session_after self.old (Settled first last)) }
        ensures accepted { OnOk result (range_fault first last self.old ≡ None) }
        ensures settled { IfOk result (λ named. named.settled ≡ settles_at_once (standing_in first self.old.links)) }
        ensures count { IfOk result (λ named. named.count ≡ named_total first last self.old) }
        ensures refused { IfErr result (λ e. range_fault first last self.old ≡ Some e) }
        ensures err { OnErr result (self.new ≡ self.old) }
    {
        self.state.is_numbered();
        if first != last {
            let named = ranges::judge(&self.index, &self.state, first, last)?;
            ranges::settle_ids(&mut self.state, &mut self.index, first, last);
            return Ok(named);
        }
        let Some(kept) = self.index.get(first) else {
            return Err(CallFault::NoDelivery);
        };
        let standing = ranges::settle_one(&mut self.state, &mut self.index, kept, first);
        if let Some(fault) = standing_fault(standing) {
            return Err(fault);
        }
        Ok(Named {
            settled: settles_at_once(standing),
            count: 1,
        })
    }

    /// Ends the link at a handle [2.6.6]. Returns the detach, with closed true, that says so, and how many
    /// ready deliveries were dropped. The handle stays in use until the peer detaches it. The only error is
    /// `NoLink`. Then nothing has changed.
    pub fn detach(&mut self, handle: u32) -> Result<(Detach<'static>, u32), CallFault>
        ensures may { OnOk result (SessionMay self.old (call_event self.old (DetachCall handle))) }
        ensures new { OnOk result (self.new ≡ session_after self.old (call_event self.old (DetachCall handle))) }
        ensures accepted { OnOk result (call_fault self.old (DetachCall handle) ≡ None) }
        ensures answer { IfOk result (λ d. call_answer self.old (DetachCall handle) ≡ said (performative.Detach d.0) ∷ []) }
        ensures dropped { IfOk result (λ d. d.1 ≡ slot_ready (slot_at self.old handle)) }
        ensures refused { IfErr result (λ e. call_fault self.old (DetachCall handle) ≡ Some e) }
        ensures err { OnErr result (self.new ≡ self.old) }
    {
        laws::open_ids_grow_by_heads();
        self.state.is_long();
        let mut ended = None;
        let dropped = self.state.detach(&mut ended, handle)?;
        self.index.forget_link(ended);
        Ok((replies::detach(handle, true), dropped))
    }
}

/// Lets a link take a transfer on which it gave this verdict. A delivery that begins is put into the index
/// first, and taken out again if the link gets no memory. One that is given up is taken out of the index
/// afterwards.
fn accept<A: Allocator + Copy>(
    link: &mut Link<A>,
    index: &mut Index<A>,
    verdict: Verdict,
    transfer: &Transfer<'_>,
    payload: &[u8],
) -> Result<Step, SessionFault>
    requires taken { IsTaken link.old (sent_of transfer.now payload.now) verdict }
    requires free { is_begun verdict ≡ true → found index.old (unwrap_or transfer.now.delivery_id 0) ≡ None }
    ensures new { OnOk result (link.new ≡ link_after link.old (Transferred (sent_of transfer.now payload.now))) }
    ensures step { IfOk result (λ step. step ≡ step_of (sent_of transfer.now payload.now)) }
    ensures kept { OnOk result (IsKeptBehind verdict transfer.now.handle (unwrap_or transfer.now.delivery_id 0) index.old index.new) }
    ensures refused { IfErr result (λ e. (e ≡ SessionFault.NoMemory) × (may_grow link.old (sent_of transfer.now payload.now) ≡ true)) }
    ensures same { OnErr result (link.new ≡ link.old) }
    ensures still { OnErr result ((id : ℕ) → found index.new id ≡ found index.old id) }
{
    match verdict {
        Verdict::Begins(key) => begin_delivery(link, index, key, transfer, payload),
        Verdict::GivesUp(id) => {
            let step = take_in(link, transfer, payload)?;
            index.remove(id);
            Ok(step)
        }
        _ => take_in(link, transfer, payload),
    }
}

/// Begins a delivery, which the link stores under this key. If memory is refused, link and index find the same
/// as before.
fn begin_delivery<A: Allocator + Copy>(
    link: &mut Link<A>,
    index: &mut Index<A>,
    key: usize,
    transfer: &Transfer<'_>,
    payload: &[u8],
) -> Result<Step, SessionFault>
    requires taken { IsTaken link.old (sent_of transfer.now payload.now) (Verdict.Begins key) }
    requires free { found index.old (unwrap_or transfer.now.delivery_id 0) ≡ None }
    ensures new { OnOk result (link.new ≡ link_after link.old (Transferred (sent_of transfer.now payload.now))) }
    ensures step { IfOk result (λ step. step ≡ step_of (sent_of transfer.now payload.now)) }
    ensures kept { OnOk result (IsKeptBehind (Verdict.Begins key) transfer.now.handle (unwrap_or transfer.now.delivery_id 0) index.old index.new) }
    ensures refused { IfErr result (λ e. (e ≡ SessionFault.NoMemory) × (may_grow link.old (sent_of transfer.now payload.now) ≡ true)) }
    ensures same { OnErr result (link.new ≡ link.old) }
    ensures still { OnErr result ((id : ℕ) → found index.new id ≡ found index.old id) }
{
    let id = transfer.delivery_id.unwrap_or(0);
    let handle = transfer.handle;
    index.insert(id, Kept { handle, key })?;
    match take_in(link, transfer, payload) {
        Ok(step) => Ok(step),
        Err(fault) => {
            index.remove(id);
            Err(fault)
        }
    }
}

/// Lets a link take a transfer in which it finds no fault. If memory is refused, the link has not changed.
fn take_in<A: Allocator + Copy>(
    link: &mut Link<A>,
    transfer: &Transfer<'_>,
    payload: &[u8],
) -> Result<Step, SessionFault>
    requires { fault_of link.old (sent_of transfer.now payload.now) ≡ None }
    ensures new { OnOk result (link.new ≡ link_after link.old (Transferred (sent_of transfer.now payload.now))) }
    ensures step { IfOk result (λ step. step ≡ step_of (sent_of transfer.now payload.now)) }
    ensures refused { IfErr result (λ e. (e ≡ SessionFault.NoMemory) × (may_grow link.old (sent_of transfer.now payload.now) ≡ true)) }
    ensures same { OnErr result (link.new ≡ link.old) }
{
    match link.transfer_judged(transfer, payload) {
        Ok(step) => Ok(step),
        Err(_) => Err(SessionFault::NoMemory),
    }
}

/// Ends the live link at a handle because of a transfer's fault [2.6.5]. Its deliveries are taken out of the
/// index.
#[inline(never)]
fn end_link<A: Allocator + Copy>(
    state: &mut State<A>,
    index: &mut Index<A>,
    handle: u32,
    fault: LinkFault,
) -> Report
    requires { is_live (slot_at state.old handle) ≡ true }
    ensures new { state.new ≡ session_after state.old (Detached handle) }
    ensures gone { (id : ℕ) → id < 2 ^ 32 → found index.new id ≡ gone_of (ids_of (live_in (slot_at state.old handle))) id (found index.old id) }
    ensures report { result ≡ Report.Failed handle (link_condition fault) (slot_ready (slot_at state.old handle)) }
{
    let mut ended = None;
    let dropped = match state.detach(&mut ended, handle) {
        Ok(dropped) => dropped,
        Err(_) => unreachable!(),
    };
    index.forget_link(ended);
    Report::Failed {
        handle,
        condition: link_condition(fault),
        dropped,
    }
}

/// Returns whether a delivery with this standing was not handed up.
fn is_untaken(standing: Standing) -> bool
    ensures { result ≡ is_untaken standing }
{
    matches!(standing, Standing::Untaken)
}

/// Takes a disposition. The open deliveries that it names are found by the index, and taken out of it if they
/// are open no longer.
fn dispose<A: Allocator + Copy>(
    state: &mut State<A>,
    index: &mut Index<A>,
    disposition: &Disposition<'_>,
) -> Report
    requires { IsKnown index.old state.old }
    ensures known { IsKnown index.new state.new }
    ensures new { state.new ≡ session_after state.old (event_of state.old (Disposes (disposing disposition.now))) }
    ensures report { result ≡ report_of state.old (Disposes (disposing disposition.now)) }
{
    state.is_numbered();
    if !is_settling(disposition) {
        return Report::Nothing;
    }
    let first = disposition.first;
    let last = disposition.last.unwrap_or(first);
    settled_report(settle_ids(state, index, first, last))
}

/// Settles for the sender the ids from `first` to `last`, which may wrap round after the highest id. Returns
/// how many open deliveries it settles that were not settled.
fn settle_ids<A: Allocator + Copy>(
    state: &mut State<A>,
    index: &mut Index<A>,
    first: u32,
    last: u32,
) -> u32
    requires { IsKnown index.old state.old }
    ensures known { IsKnown index.new state.new }
    ensures new { state.new ≡ disposed first last state.old }
    ensures count { result ≡ sum_by (slot_settled first last) state.old.links }
{
    if Serial(first).distance(Serial(last)) >= 1 << 31 {
        return 0;
    }
    if first <= last {
        return settle_each(state, index, first, last);
    }
    let high = settle_each(state, index, first, u32::MAX);
    let low = settle_each(state, index, 0, last);
    high + low
}

/// Settles for the sender the open delivery with this id, stored where `kept` says. Returns 1, or 0 if it was
/// settled already.
fn settle_one<A: Allocator + Copy>(
    state: &mut State<A>,
    index: &mut Index<A>,
    kept: Kept,
    id: u32,
) -> u32
    requires known { IsKnown index.old state.old }
    requires here { found index.old id ≡ Some kept }
    ensures new { state.new ≡ disposed id id state.old }
    ensures known { IsKnown index.new state.new }
    ensures count { result ≡ sum_by (slot_settled id id) state.old.links }
    ensures most { result ≤ 1 }
{
    laws::open_ids_grow_by_heads();
    let untaken = is_untaken(state.standing(kept.handle, kept.key, id));
    let count = peer_settled_at(state, kept, id);
    index.close(id, !untaken);
    count
}

/// Settles for the sender the delivery with this id, stored where `kept` says, without the index. Returns 1, or
/// 0 if it was settled already.
fn peer_settled_at<A: Allocator + Copy>(state: &mut State<A>, kept: Kept, id: u32) -> u32
    requires apart { IsApart state.old }
    requires alone { IsAlone id kept.handle state.old.links }
    ensures new { state.new ≡ disposed id id state.old }
    ensures apart { IsApart state.new }
    ensures count { result ≡ sum_by (slot_settled id id) state.old.links }
    ensures most { result ≤ 1 }
{
    laws::open_ids_grow_by_heads();
    match state.link_mut(kept.handle) {
        Some(link) => link.peer_settled_at(kept.key, id),
        None => 0,
    }
}

/// Settles for the sender, one by one, the open deliveries with the ids from `first` to `last` as plain
/// numbers. Returns how many it settles that were not settled.
fn settle_each<A: Allocator + Copy>(
    state: &mut State<A>,
    index: &mut Index<A>,
    first: u32,
    last: u32,
) -> u32
    requires known { IsKnown index.old state.old }
    requires order { first ≤ last }
    requires few { last < first + 2 ^ 31 }
    ensures new { state.new ≡ disposed first last state.old }
    ensures known { IsKnown index.new state.new }
    ensures count { result ≡ sum_by (slot_settled first last) state.old.links }
    ensures most { result + first ≤ last + 1 }
{
    let mut count = 0;
    let mut from = first;
    while let Some((id, kept)) = index.next(from, last) {
        count += settle_one(state, index, kept, id);
        if id == last {
            return count;
        }
        from = id + 1;
    }
    count
}

/// Returns the answer to a flow that was taken.
fn flow_answer<A: Allocator + Copy>(after: &State<A>, flow: &Flow<'_>, report: Report) -> Answer
    ensures said { said_by result ≡ flow_answer after.now (flowing flow.now) report }
    ensures kind { IsPlain result }
{
    match report {
        Report::Failed {
            handle,
            condition,
            ..
        } => Answer::Detach(replies::failure(handle, condition)),
        _ => echo(after, flow),
    }
}

/// Returns the answer to a flow that was taken and may request an echo.
fn echo<A: Allocator + Copy>(after: &State<A>, flow: &Flow<'_>) -> Answer
    ensures said { said_by result ≡ (if flow.now.echo then echo_answer after.now flow.now.handle else []) }
    ensures kind { IsPlain result }
{
    if !flow.echo {
        return Answer::Nothing;
    }
    match flow.handle {
        None => Answer::Flow(after.session_flow()),
        Some(handle) => match after.link_flow(handle) {
            Some(flow) => Answer::Flow(flow),
            None => Answer::Nothing,
        },
    }
}

/// Returns whether an open delivery has the id that a transfer states, if it states one.
fn is_known<A: Allocator + Copy>(index: &Index<A>, transfer: &Transfer<'_>) -> bool
    ensures { result ≡ option_map_or (λ id. is_some (found index.now id)) transfer.now.delivery_id false }
{
    match transfer.delivery_id {
        Some(id) => index.has(id),
        None => false,
    }
}

/// A law: a delivery-id has 32 bits.
fn is_numbered(transfer: &Transfer<'_>)
    ensures { unwrap_or transfer.now.delivery_id 0 < 2 ^ 32 }
{
    let _ = transfer.delivery_id.unwrap_or(0);
}

/// A law: a delivery-count has 32 bits.
fn is_counted(attach: &Attach<'_>)
    ensures { unwrap_or attach.now.initial_delivery_count 0 < 2 ^ 32 }
{
    let _ = attach.initial_delivery_count.unwrap_or(0);
}

/// Makes the result for a frame that is answered by the detach of a failed link, or not at all.
fn told(report: Report) -> Done
    ensures report { result.report ≡ report }
    ensures answer { said_by result.answer ≡ failure_answer report }
    ensures kind { IsPlain result.answer }
    ensures nothing { report ≡ Report.Nothing → result.answer ≡ Answer.Nothing }
{
    let answer = match report {
        Report::Failed {
            handle,
            condition,
            ..
        } => Answer::Detach(replies::failure(handle, condition)),
        _ => Answer::Nothing,
    };
    Done { report, answer }
}

/// Makes the result for an attach: its answer is a refusal if the link failed.
fn attach_done(report: Report) -> Done
    ensures report { result.report ≡ report }
    ensures answer { IsAttachAnswer report result.answer }
    ensures kind { IsOfAttach result.answer }
{
    let answer = match report {
        Report::Failed {
            handle,
            condition,
            ..
        } => Answer::Refusal(replies::failure(handle, condition)),
        _ => Answer::Attach,
    };
    Done { report, answer }
}
