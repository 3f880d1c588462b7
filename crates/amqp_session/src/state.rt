//! What a session holds: its terms, its window, its numbers, and what is at its handles.

ghost use Rattle.amqp_perform.specs.declared.performative.Performative.TheVariants as performative;
ghost use Rattle.std.specs.Prelude.{◌≡◌, ℕ, ◌<◌, ◌≤◌, ◌+◌, ◌^◌, Bool, length, option_to_list, map, Option, Some, None, OnOk, OnErr, IfOk, IfErr, IfSome, true, false, not, ◌&&◌, is_none, ◌*◌, sum_by, IfNone, nat_lt};
ghost use Rattle.amqp_perform.specs.Performatives.{is_receiver};
ghost use Rattle.amqp_session.specs.Calls.{Widen, Grant, Drain, Detach as DetachCall, call_fault, call_event, slot_standing, standing_fault, settles_at_once, at_link};
ghost use Rattle.std.specs.Option.{option_copied_mut};
ghost use Rattle.std.specs.Borrow.{sem};
ghost use Rattle.amqp_session.specs.Lacking.{IsFirstLacking, wants_credit};
ghost use Rattle.amqp_session.specs.Links.{link_at, counted, link_in};
ghost use Rattle.amqp_session.specs.StateLending.{LendsHandle};
ghost use Rattle.amqp_session.specs.Faults.{session_fault, is_free, event_of, report_of, attach_fault, IsRefusal, session_flow, link_flow, attached, is_settling, settled_report, link_condition, step_report, where_so};
ghost use Rattle.amqp_perform.specs.Said.{said};
ghost use Rattle.amqp_session.specs.Frames.{Attaches, Flows, Detaches, attaching, flowing, disposing, link_flow_said, stated_said};
ghost use Rattle.amqp_session.specs.Sessions.{SessionState, session_begins, session_after, session_bytes, session_ready, slot_at, slot_ready, handles, live_begins, slot_bytes, live_after};
ghost use Rattle.amqp_session.specs.Places.{live_in};
ghost use Rattle.amqp_session.specs.Slots.{IsViewAt, is_live, at_place, padded, IsView, slot_flowed, stated_of, IsStated, IsFlowTold};
ghost use Rattle.amqp_session.specs.Indexes.{IsOnceAt, IsEnded, IsEndedAt};
ghost use Rattle.amqp_link.specs.Links.{FlowStated, open_count, is_drained, is_beyond_credit};
ghost use Rattle.amqp_session.specs.Lending.{LendsLink, LendsPlace};
ghost use Rattle.amqp_session.specs.declared.slot.Slot.{Slot};

use crate::fault::{CallFault, SessionFault};
use crate::refusal::refusal;
use crate::replies;
use crate::report::Report;
use crate::slot::Slot;
use crate::terms::SessionTerms;
use crate::view::LinkView;
use amqp_link::{Link, LinkBounds, LinkFault, Standing, Step, Terms, laws};
use amqp_perform::{Attach, Condition, Disposition, Flow, LinkFlow, ReceiverSettleMode, Role};
use std::alloc::{AllocError, Allocator, Global};
use std::marker::Model;
use std::mem;

/// The longest name of a link, in bytes.
const MAX_NAME: usize = 255;

/// The parts of a session.
#[derive(Drop)]
pub struct State<A: Allocator + Copy = Global> {
    alloc: A,
    terms: SessionTerms,
    window: u32,
    next_incoming_id: u32,
    table: Vec<Slot<KeptLink<A>>, A>,
}

impl<A: Allocator + Copy> Model for State<A> {
    ghost use Rattle.amqp_session.specs.Sessions.{SessionState};

    ghost Value = { SessionState };

    ghost use Rattle.amqp_session.specs.Slots.{session_of, IsReached};

    ghost view = { λ a. session_of a.terms a.window a.next_incoming_id a.table.items };

    ghost invariant = { λ a. IsReached a.terms a.table.items };
}

impl<A: Allocator + Copy> State<A> {
    /// Makes a session as it is at its begin.
    pub fn begin(alloc: A, terms: SessionTerms) -> Self
        ensures { result ≡ session_begins terms }
    {
        let window = terms.incoming_window;
        let next_incoming_id = terms.next_outgoing_id;
        State {
            alloc,
            terms,
            window,
            next_incoming_id,
            table: Vec::new(alloc),
        }
    }

    /// A law: the view has a place for each handle.
    pub fn is_long(&self)
        ensures { length self.now.links ≡ handles self.now.terms }
    {
        let _ = &self.table;
    }

    /// A law: the next-incoming-id has 32 bits.
    pub fn is_numbered(&self)
        ensures { self.now.next_incoming_id < 2 ^ 32 }
    {
        let _ = self.next_incoming_id();
    }

    /// Returns what the session began with.
    pub fn terms(&self) -> &SessionTerms
        ensures { result.now ≡ self.now.terms }
    {
        &self.terms
    }

    /// Returns how many places of the window are left.
    pub fn window(&self) -> u32
        ensures { result ≡ self.now.window }
    {
        self.window
    }

    /// Returns the next-incoming-id.
    pub fn next_incoming_id(&self) -> u32
        ensures { result ≡ self.now.next_incoming_id }
    {
        self.next_incoming_id
    }

    /// Returns the bytes held. The pattern names all fields, so that a new one must be listed here.
    pub fn held(&self) -> u64
        ensures value { result ≡ session_bytes self.now }
        ensures most { result < 2 ^ 52 }
    {
        let State {
            alloc: _,
            terms: _,
            window: _,
            next_incoming_id: _,
            table,
        } = self;
        64 + held(table)
    }

    /// Returns how many deliveries are ready.
    pub fn ready(&self) -> u32
        ensures value { result ≡ session_ready self.now }
        ensures most { result ≤ 2 ^ 18 }
    {
        ready(&self.table)
    }

    /// Returns a view of the live link at a handle; `None` if none is live.
    pub fn link(&self, handle: u32) -> Option<LinkView<'_>>
        ensures { IsViewAt (slot_at self.now handle) result }
    {
        let place = handle as usize;
        if place >= self.table.len() {
            return None;
        }
        view(&self.table[place])
    }

    /// Returns the first handle, from `from` on, whose link has less credit than `credit` and can be granted
    /// more; `None` if there is none.
    pub fn first_lacking(&self, from: u32, credit: u32) -> Option<u32>
        ensures { IsFirstLacking credit from (slot_at self.now) result }
    {
        match first_lacking(&self.table, from as usize, credit) {
            Some(place) => Some(place as u32),
            None => None,
        }
    }

    /// Lends the live link at a handle; `None` if none is live.
    pub fn link_mut(&mut self, handle: u32) -> Option<&mut Link<A>>
        ensures* writes_back { sem 𝓛 (LendsHandle A.row A.Allocator self.entry handle result) }
        ensures value { option_copied_mut result ≡ link_at self.old handle }
        ensures number { self.old.next_incoming_id < 2 ^ 32 }
    {
        let place = handle as usize;
        if place >= self.table.len() {
            return None;
        }
        match link_mut(&mut self.table[place]) {
            Some(link) => Some(link),
            None => None,
        }
    }

    /// Returns how the delivery with this id stands on the link at a handle, looking under this key first. At
    /// most one open delivery of that link may have the id.
    pub fn standing(&self, handle: u32, key: usize, id: u32) -> Standing
        requires { IsOnceAt id (slot_at self.now handle) }
        ensures { result ≡ slot_standing id (slot_at self.now handle) }
    {
        let place = handle as usize;
        if place >= self.table.len() {
            return Standing::Absent;
        }
        standing(&self.table[place], key, id)
    }

    /// Counts a transfer: it takes a place of the window, and a number [2.5.6].
    pub fn transfer_came(&mut self)
        requires { 1 ≤ self.old.window }
        ensures { self.new ≡ counted self.old }
    {
        self.window -= 1;
        self.next_incoming_id = self.next_incoming_id.wrapping_add(1);
    }

    /// Drops and counts a transfer for a handle at which no link is live, if one waits there for the peer's
    /// detach. It is `UnattachedHandle` if the handle is free. Then nothing has changed.
    #[inline(never)]
    pub fn drop_transfer(&mut self, handle: u32) -> Result<(), SessionFault>
        requires room { 1 ≤ self.old.window }
        requires none { is_live (slot_at self.old handle) ≡ false }
        ensures new { OnOk result (self.new ≡ counted self.old) }
        ensures waits { OnOk result (is_free (slot_at self.old handle) ≡ false) }
        ensures refused { IfErr result (λ e. (e ≡ SessionFault.UnattachedHandle) × (is_free (slot_at self.old handle) ≡ true)) }
        ensures err { OnErr result (self.new ≡ self.old) }
    {
        if is_free(&self.table, handle as usize) {
            return Err(SessionFault::UnattachedHandle);
        }
        self.transfer_came();
        Ok(())
    }

    /// Returns the flow of the session.
    pub fn session_flow(&self) -> Flow<'static>
        ensures { said (performative.Flow result) ≡ session_flow self.now }
    {
        replies::session_flow(self.next_incoming_id, self.window)
    }

    /// Returns the flow of the link at a handle; `None` if none is live.
    pub fn link_flow(&self, handle: u32) -> Option<Flow<'static>>
        ensures { map (λ p. said (performative.Flow p)) (option_to_list result) ≡ link_flow self.now handle }
    {
        let place = handle as usize;
        if place >= self.table.len() {
            return None;
        }
        match stated_at(&self.table[place]) {
            Some(stated) => Some(self.flow_stating(handle, stated).flow()),
            None => None,
        }
    }

    /// Returns what a flow says that states this of the link at a handle.
    pub fn flow_stating(&self, handle: u32, stated: LinkStated) -> LinkFlow
        ensures { stated_said result ≡ link_flow_said self.now.next_incoming_id self.now.window handle stated.delivery_count stated.link_credit stated.drain }
    {
        LinkFlow {
            next_incoming_id: self.next_incoming_id,
            incoming_window: self.window,
            handle,
            delivery_count: stated.delivery_count,
            link_credit: stated.link_credit,
            drain: stated.drain,
        }
    }

    /// Returns the first fault of an attach that ends the session; `None` if it has none.
    fn attach_fault(&self, attach: &Attach<'_>, bounds: LinkBounds) -> Option<SessionFault>
        ensures { result ≡ attach_fault self.now (attaching attach.now bounds) }
    {
        if attach.name.len() > MAX_NAME {
            Some(SessionFault::ResourceLimit)
        } else if !is_free(&self.table, attach.handle as usize) {
            Some(SessionFault::HandleInUse)
        } else if lacks_count(attach) {
            Some(SessionFault::InvalidField)
        } else {
            None
        }
    }

    /// Takes an attach, and reports whether its link attached or was refused. If it is an error, nothing has
    /// changed.
    pub fn attach(
        &mut self,
        attach: &Attach<'_>,
        bounds: LinkBounds,
    ) -> Result<Report, SessionFault>
        requires { attach.now.handle ≤ self.old.terms.handle_max }
        ensures new { OnOk result (self.new ≡ session_after self.old (event_of self.old (Attaches (attaching attach.now bounds)))) }
        ensures accepted { OnOk result (session_fault self.old (Attaches (attaching attach.now bounds)) ≡ None) }
        ensures report { IfOk result (λ report. report ≡ report_of self.old (Attaches (attaching attach.now bounds))) }
        ensures refused { IfErr result (λ e. IsRefusal self.old (Attaches (attaching attach.now bounds)) e) }
        ensures err { OnErr result (self.new ≡ self.old) }
    {
        if let Some(fault) = self.attach_fault(attach, bounds) {
            return Err(fault);
        }
        let handle = attach.handle;
        let place = handle as usize;
        reach(&mut self.table, place)?;
        match refusal(&self.terms, attach, bounds) {
            None => {
                self.table[place] = Slot::Live(begun(self.alloc, &self.terms, attach, bounds)?);
                Ok(Report::Attached { handle })
            }
            Some(condition) => {
                self.table[place] = Slot::Waits;
                Ok(Report::Failed {
                    handle,
                    condition,
                    dropped: 0,
                })
            }
        }
    }

    /// Takes a flow. A link that fails is moved to `ended`. If it is an error, the session has not changed.
    pub fn flow(
        &mut self,
        ended: &mut Option<KeptLink<A>>,
        flow: &Flow<'_>,
    ) -> Result<Report, SessionFault>
        ensures new { OnOk result (self.new ≡ session_after self.old (event_of self.old (Flows (flowing flow.now)))) }
        ensures accepted { OnOk result (session_fault self.old (Flows (flowing flow.now)) ≡ None) }
        ensures report { IfOk result (λ report. report ≡ report_of self.old (Flows (flowing flow.now))) }
        ensures ended { IfOk result (λ report. IsEnded self.old report ended.new) }
        ensures refused { IfErr result (λ e. IsRefusal self.old (Flows (flowing flow.now)) e) }
        ensures err { OnErr result (self.new ≡ self.old) }
    {
        match flow.handle {
            Some(handle) => self.link_flowed(ended, handle, flow),
            None => {
                self.next_incoming_id = flow.next_outgoing_id;
                Ok(Report::Nothing)
            }
        }
    }

    /// Takes a flow of the link at a handle, which is moved to `ended` if it fails. If it is an error, the
    /// session has not changed.
    fn link_flowed(
        &mut self,
        ended: &mut Option<KeptLink<A>>,
        handle: u32,
        flow: &Flow<'_>,
    ) -> Result<Report, SessionFault>
        requires { flow.now.handle ≡ Some handle }
        ensures new { OnOk result (self.new ≡ session_after self.old (event_of self.old (Flows (flowing flow.now)))) }
        ensures accepted { OnOk result (session_fault self.old (Flows (flowing flow.now)) ≡ None) }
        ensures report { IfOk result (λ report. report ≡ report_of self.old (Flows (flowing flow.now))) }
        ensures ended { IfOk result (λ report. IsEnded self.old report ended.new) }
        ensures refused { IfErr result (λ e. IsRefusal self.old (Flows (flowing flow.now)) e) }
        ensures err { OnErr result (self.new ≡ self.old) }
    {
        let place = handle as usize;
        if place >= self.table.len() {
            return Err(SessionFault::UnattachedHandle);
        }
        match flow_at(&mut self.table[place], ended, handle, flow)? {
            None => Ok(Report::Nothing),
            Some(report) => {
                self.next_incoming_id = flow.next_outgoing_id;
                Ok(report)
            }
        }
    }

    /// Takes a detach of the link at a handle, which is moved to `ended` if it was live. It is
    /// `UnattachedHandle` if the handle is free. Then the session has not changed.
    pub fn detached(
        &mut self,
        ended: &mut Option<KeptLink<A>>,
        handle: u32,
    ) -> Result<PeerDetached, SessionFault>
        ensures new { OnOk result ((closed : Bool) → self.new ≡ session_after self.old (event_of self.old (Detaches handle closed))) }
        ensures accepted { OnOk result ((closed : Bool) → session_fault self.old (Detaches handle closed) ≡ None) }
        ensures dropped { IfOk result (λ detached. detached.dropped ≡ slot_ready (slot_at self.old handle)) }
        ensures live { IfOk result (λ detached. detached.live ≡ is_live (slot_at self.old handle)) }
        ensures ended { OnOk result (ended.new ≡ live_in (slot_at self.old handle)) }
        ensures refused { IfErr result (λ e. (closed : Bool) → IsRefusal self.old (Detaches handle closed) e) }
        ensures err { OnErr result (self.new ≡ self.old) }
    {
        let place = handle as usize;
        if place >= self.table.len() {
            return Err(SessionFault::UnattachedHandle);
        }
        let detached = detached(&mut self.table[place], ended)?;
        Ok(detached)
    }

    /// Returns why a widening by `n` places would be refused; `None` if it would be accepted.
    pub fn widen_fault(&self, n: u32) -> Option<CallFault>
        ensures { result ≡ call_fault self.now (Widen n) }
    {
        if u64::from(self.window) + u64::from(n) >= 1 << 31 {
            Some(CallFault::WindowTooWide)
        } else {
            None
        }
    }

    /// Returns why a grant of `n` places of credit to the link at a handle would be refused; `None` if it would
    /// be accepted.
    pub fn grant_fault(&self, handle: u32, n: u32) -> Option<CallFault>
        ensures { result ≡ call_fault self.now (Grant handle n) }
    {
        let place = handle as usize;
        if place >= self.table.len() {
            return Some(CallFault::NoLink);
        }
        grant_fault(&self.table[place], n)
    }

    /// Returns why a drain or a detach of the link at a handle would be refused; `None` if it would be
    /// accepted.
    pub fn link_fault(&self, handle: u32) -> Option<CallFault>
        ensures drain { result ≡ call_fault self.now (Drain handle) }
        ensures detach { result ≡ call_fault self.now (DetachCall handle) }
    {
        let place = handle as usize;
        if place >= self.table.len() {
            return Some(CallFault::NoLink);
        }
        link_fault(&self.table[place])
    }

    /// Widens the window by `n` places. If it is an error, nothing has changed.
    pub fn widen(&mut self, n: u32) -> Result<(), CallFault>
        ensures new { OnOk result (self.new ≡ session_after self.old (call_event self.old (Widen n))) }
        ensures accepted { OnOk result (call_fault self.old (Widen n) ≡ None) }
        ensures refused { IfErr result (λ e. call_fault self.old (Widen n) ≡ Some e) }
        ensures err { OnErr result (self.new ≡ self.old) }
    {
        if let Some(fault) = self.widen_fault(n) {
            return Err(fault);
        }
        self.window += n;
        Ok(())
    }

    /// Ends the link at a handle, moves it to `ended`, and returns how many ready deliveries it had. If it is
    /// an error, the session has not changed.
    pub fn detach(&mut self, ended: &mut Option<KeptLink<A>>, handle: u32) -> Result<u32, CallFault>
        ensures new { OnOk result (self.new ≡ session_after self.old (call_event self.old (DetachCall handle))) }
        ensures accepted { OnOk result (call_fault self.old (DetachCall handle) ≡ None) }
        ensures dropped { IfOk result (λ dropped. dropped ≡ slot_ready (slot_at self.old handle)) }
        ensures ended { OnOk result (ended.new ≡ live_in (slot_at self.old handle)) }
        ensures refused { IfErr result (λ e. call_fault self.old (DetachCall handle) ≡ Some e) }
        ensures err { OnErr result (self.new ≡ self.old) }
    {
        let place = handle as usize;
        if place >= self.table.len() {
            return Err(CallFault::NoLink);
        }
        let dropped = detach(&mut self.table[place], ended)?;
        Ok(dropped)
    }
}

/// Returns whether a sender attaches without initial-delivery-count.
fn lacks_count(attach: &Attach<'_>) -> bool
    ensures { result ≡ not (is_receiver attach.now.role) && is_none attach.now.initial_delivery_count }
{
    matches!(attach.role, Role::Sender) && attach.initial_delivery_count.is_none()
}

/// Returns whether a disposition is the sender's and has settled true.
pub fn is_settling(disposition: &Disposition<'_>) -> bool
    ensures { result ≡ is_settling (disposing disposition.now) }
{
    matches!(disposition.role, Role::Sender) && disposition.settled
}

/// Returns what is reported if a disposition settles `count` deliveries.
pub fn settled_report(count: u32) -> Report
    ensures { result ≡ settled_report count }
{
    match count {
        0 => Report::Nothing,
        _ => Report::Settled { count },
    }
}

/// Returns why a delivery with this standing can't be settled; `None` if it can.
pub fn standing_fault(standing: Standing) -> Option<CallFault>
    ensures { result ≡ standing_fault standing }
{
    match standing {
        Standing::Absent => Some(CallFault::NoDelivery),
        Standing::Untaken => Some(CallFault::NotTaken),
        Standing::Told => Some(CallFault::AlreadyTold),
        Standing::Awaiting(_) => None,
    }
}

/// Returns whether a delivery with this standing is settled by its receiver at once, which is so in mode first.
pub fn settles_at_once(standing: Standing) -> bool
    ensures { result ≡ settles_at_once standing }
{
    matches!(standing, Standing::Awaiting(ReceiverSettleMode::First))
}

/// Makes the link that an attach begins.
fn begun<A: Allocator + Copy>(
    alloc: A,
    terms: &SessionTerms,
    attach: &Attach<'_>,
    bounds: LinkBounds,
) -> Result<KeptLink<A>, AllocError>
    requires name { length attach.now.name.now ≤ 255 }
    requires ends { length attach.now.source.now + length attach.now.target.now ≤ 1024 }
    ensures { IfOk result (λ l. l ≡ live_begins (attached terms.now (attaching attach.now bounds))) }
{
    let terms = Terms {
        initial_delivery_count: attach.initial_delivery_count.unwrap_or(0),
        rcv_settle_mode: attach.rcv_settle_mode,
        bounds,
    };
    KeptLink::attach(
        alloc,
        attach.name.as_bytes(),
        attach.source,
        attach.target,
        terms,
    )
}

/// Returns whether nothing is at a place.
fn is_free<A: Allocator + Copy>(table: &[Slot<KeptLink<A>>], place: usize) -> bool
    ensures { result ≡ is_free (at_place table.now place) }
{
    match table.get(place) {
        None | Some(Slot::Free) => true,
        _ => false,
    }
}

/// Returns the bytes held for a table.
fn held<A: Allocator + Copy>(table: &[Slot<KeptLink<A>>]) -> u64
    requires { length table.now ≤ 256 }
    ensures value { result ≡ sum_by slot_bytes table.now }
    ensures most { result < 2 ^ 51 }
{
    let mut held = 0;
    for slot in table {
        held += held_at(slot);
    }
    held
}

/// Returns how many deliveries of a table are ready.
fn ready<A: Allocator + Copy>(table: &[Slot<KeptLink<A>>]) -> u32
    requires { length table.now ≤ 256 }
    ensures value { result ≡ sum_by slot_ready table.now }
    ensures most { result ≤ 2 ^ 18 }
{
    let mut ready = 0;
    for slot in table {
        ready += ready_at(slot);
    }
    ready
}

/// Returns the first place, from `from` on, whose link has less credit than `credit` and can be granted more;
/// `None` if there is none.
fn first_lacking<A: Allocator + Copy>(
    table: &[Slot<KeptLink<A>>],
    from: usize,
    credit: u32,
) -> Option<usize>
    ensures within { IfSome result (λ place. place < length table.now) }
    ensures first { IsFirstLacking credit from (at_place table.now) result }
{
    for place in from..table.len() {
        if wants_credit(&table[place], credit) {
            return Some(place);
        }
    }
    None
}

/// Extends the table by free places, so that it has this place. If memory is refused, the table has the same
/// places as before.
fn reach<A: Allocator + Copy>(
    table: &mut Vec<Slot<KeptLink<A>>, A>,
    place: usize,
) -> Result<(), AllocError>
    requires { place < 256 }
    ensures same { (n : ℕ) → padded n table.new.items ≡ padded n table.old.items }
    ensures reached { OnOk result (place < length table.new.items) }
    ensures most { (n : ℕ) → place < n → length table.old.items ≤ n → length table.new.items ≤ n }
{
    let reached = table.len();
    if place < reached {
        return Ok(());
    }
    let more = place + 1 - reached;
    table.reserve(more)?;
    for _added in 0..more {
        table.push_reserved(Slot::Free);
    }
    Ok(())
}

/// A live link, with what its attach stated.
#[derive(Drop)]
struct Record<A: Allocator + Copy = Global> {
    name: Vec<u8, A>,
    source: Vec<u8, A>,
    target: Vec<u8, A>,
    link: Link<A>,
}

/// A live link in a box, so that a place takes the room of one reference.
#[derive(Drop)]
pub struct KeptLink<A: Allocator + Copy = Global> {
    record: Box<Record<A>, A>,
}

impl<A: Allocator + Copy> Model for KeptLink<A> {
    ghost use Rattle.amqp_session.specs.Sessions.{LiveLink};

    ghost Value = { LiveLink };

    ghost use Rattle.amqp_session.specs.Keeping.{live_of};
    ghost use Rattle.amqp_session.specs.Slots.{IsKept};

    ghost view = { λ a. live_of a.record.value };

    ghost invariant = { λ a. IsKept (live_of a.record.value) };
}

impl<A: Allocator + Copy> KeptLink<A> {
    /// Makes a link as it is at its attach. It is an error if memory is refused.
    pub fn attach(
        alloc: A,
        name: &[u8],
        source: &[u8],
        target: &[u8],
        terms: Terms,
    ) -> Result<Self, AllocError>
        requires name { length name.now ≤ 255 }
        requires ends { length source.now + length target.now ≤ 1024 }
        ensures { IfOk result (λ l. l ≡ live_begins (record { name = name.now; source = source.now; target = target.now; terms = terms })) }
    {
        let record = Record {
            name: Vec::from_slice(alloc, name)?,
            source: Vec::from_slice(alloc, source)?,
            target: Vec::from_slice(alloc, target)?,
            link: Link::attach(alloc, terms),
        };
        Ok(KeptLink {
            record: Box::new(alloc, record)?,
        })
    }

    /// Returns the link.
    pub fn link(&self) -> &Link<A>
        ensures { result.now ≡ self.now.link }
    {
        &self.record.link
    }

    /// Lends the link.
    fn link_mut(&mut self) -> &mut Link<A>
        ensures* writes_back { sem 𝓛 (LendsLink A.row A.Allocator self.entry result) }
        ensures value { result.now ≡ self.old.link }
    {
        &mut self.record.link
    }

    /// Follows the delivery-count that a flow states, if it states one. Returns whether the sender has used its
    /// credit up as it was asked to. If it is an error, nothing has changed.
    fn sender_count(&mut self, stated: Option<u32>) -> Result<bool, LinkFault>
        ensures new { OnOk result (self.new ≡ live_after self.old (FlowStated stated)) }
        ensures within { OnOk result (is_beyond_credit self.old.link.delivery_count self.old.link.credit stated ≡ false) }
        ensures drained { IfOk result (λ drained. drained ≡ is_drained self.old.link stated) }
        ensures beyond { OnErr result (is_beyond_credit self.old.link.delivery_count self.old.link.credit stated ≡ true) }
        ensures err { OnErr result (self.new ≡ self.old) }
    {
        laws::absent_count_is_the_known_one();
        let known = self.record.link.delivery_count();
        self.record.link.sender_count(stated.unwrap_or(known))
    }

    /// Returns whether credit and open deliveries would be more than the link allows with `n` more places of
    /// credit.
    fn exceeds_allowed(&self, n: u32) -> bool
        ensures { result ≡ nat_lt self.now.link.terms.bounds.allowed (self.now.link.credit + open_count self.now.link + n) }
    {
        n > self.record.link.room()
    }

    /// Returns whether the link has less credit than `credit` and can be granted more.
    fn wants_credit(&self, credit: u32) -> bool
        ensures { result ≡ wants_credit credit (Slot.Live self.now) }
    {
        let link = &self.record.link;
        link.credit() < credit && link.room() > 0
    }

    /// Returns the bytes held. The pattern names all fields, so that a new one must be listed here.
    fn held(&self) -> u64
        ensures value { result ≡ slot_bytes (Slot.Live self.now) }
        ensures most { result < 2 ^ 42 }
    {
        let KeptLink { record } = self;
        let record: &Record<A> = record;
        let Record {
            name,
            source,
            target,
            link,
        } = record;
        let ends = name.len() + source.len() + target.len();
        let _ = link.bounds().allowed(); // a law: what a link holds is small
        128 + ends as u64 + link.held()
    }

    /// Returns a view of the link.
    fn view(&self) -> LinkView<'_>
        ensures { IsView self.now result }
    {
        let record = &self.record;
        LinkView {
            name: &record.name,
            source: &record.source,
            target: &record.target,
            credit: record.link.credit(),
            opened: record.link.opened(),
            ready: record.link.ready(),
            bounds: record.link.bounds(),
        }
    }

    /// Returns how many deliveries are ready.
    fn ready(&self) -> u32
        ensures value { result ≡ length self.now.link.ready }
        ensures most { result ≤ 1024 }
    {
        let _ = self.record.link.bounds().allowed(); // a law: it allows few
        self.record.link.ready()
    }
}

/// What a flow states of a link [2.7.4].
#[derive(Clone, Copy)]
pub struct LinkStated {
    pub delivery_count: u32,
    pub link_credit: u32,
    pub drain: bool,
}

/// What a detach of the peer did.
#[derive(Clone, Copy)]
pub struct PeerDetached {
    /// How many ready deliveries were dropped.
    pub dropped: u32,
    /// The link was live, so that this side has to answer.
    pub live: bool,
}

/// Returns what is reported of an accepted transfer.
pub fn step_report(handle: u32, step: Step) -> Report
    ensures { result ≡ step_report handle step }
{
    match step {
        Step::Unfinished => Report::Unfinished { handle },
        Step::Ready => Report::Ready { handle },
        Step::Aborted => Report::Aborted { handle },
    }
}

/// Returns the condition with which a fault ends its link.
pub fn link_condition(fault: LinkFault) -> Condition
    ensures { result ≡ link_condition fault }
{
    match fault {
        LinkFault::TransferLimit => Condition::TransferLimitExceeded,
        LinkFault::MessageSize => Condition::MessageSizeExceeded,
        LinkFault::InvalidField => Condition::InvalidField,
        LinkFault::NotImplemented => Condition::NotImplemented,
        LinkFault::NoMemory => Condition::Other,
    }
}

/// Returns how many deliveries are ready at a place.
fn ready_at<A: Allocator + Copy>(slot: &Slot<KeptLink<A>>) -> u32
    ensures value { result ≡ slot_ready slot.now }
    ensures most { result ≤ 1024 }
{
    match slot {
        Slot::Live(kept) => kept.ready(),
        _ => 0,
    }
}

/// Returns whether the place has a live link with less credit than `credit` that can be granted more.
fn wants_credit<A: Allocator + Copy>(slot: &Slot<KeptLink<A>>, credit: u32) -> bool
    ensures { result ≡ wants_credit credit slot.now }
{
    match slot {
        Slot::Live(kept) => kept.wants_credit(credit),
        _ => false,
    }
}

/// Ends the link at a place with an error of this side, and moves it to `ended`.
fn fail<A: Allocator + Copy>(
    slot: &mut Slot<KeptLink<A>>,
    ended: &mut Option<KeptLink<A>>,
    handle: u32,
    condition: Condition,
) -> Report
    ensures new { slot.new ≡ Slot.Waits }
    ensures ended { ended.new ≡ live_in slot.old }
    ensures report { result ≡ Report.Failed handle condition (slot_ready slot.old) }
{
    let dropped = ready_at(slot);
    *ended = end(slot, Slot::Waits);
    Report::Failed {
        handle,
        condition,
        dropped,
    }
}

/// Puts `left` at a place, and returns the link that was live there; `None` if none was.
fn end<A: Allocator + Copy>(
    slot: &mut Slot<KeptLink<A>>,
    left: Slot<KeptLink<A>>,
) -> Option<KeptLink<A>>
    ensures new { slot.new ≡ left }
    ensures ended { result ≡ live_in slot.old }
{
    match mem::replace(slot, left) {
        Slot::Live(kept) => Some(kept),
        _ => None,
    }
}

/// Follows a flow of the link at a place. A link that fails is moved to `ended`. Returns what is reported;
/// `None` if the link waits for the peer's detach, so that the flow is dropped.
fn flow_at<A: Allocator + Copy>(
    slot: &mut Slot<KeptLink<A>>,
    ended: &mut Option<KeptLink<A>>,
    handle: u32,
    flow: &Flow<'_>,
) -> Result<Option<Report>, SessionFault>
    ensures new { slot.new ≡ slot_flowed (flowing flow.now) slot.old }
    ensures report { IfOk result (λ told. IsFlowTold handle (flowing flow.now) slot.old told) }
    ensures ended { IfOk result (λ told. IfSome told (λ report. IsEndedAt handle slot.old report ended.new)) }
    ensures refused { IfErr result (λ e. (e ≡ SessionFault.UnattachedHandle) × (is_free slot.old ≡ true)) }
{
    match slot {
        Slot::Free => return Err(SessionFault::UnattachedHandle),
        Slot::Waits => return Ok(None),
        Slot::Live(kept) => match kept.sender_count(flow.delivery_count) {
            Ok(true) => return Ok(Some(Report::Drained { handle })),
            Ok(false) => return Ok(Some(Report::Nothing)),
            Err(_) => {}
        },
    }
    Ok(Some(fail(slot, ended, handle, Condition::TransferLimitExceeded)))
}

/// Returns why a grant of `n` places of credit at a place would be refused; `None` if it would be accepted.
fn grant_fault<A: Allocator + Copy>(slot: &Slot<KeptLink<A>>, n: u32) -> Option<CallFault>
    ensures { result ≡ at_link slot.now (λ l. where_so (nat_lt l.terms.bounds.allowed (l.credit + open_count l + n)) CallFault.TooMuchCredit) }
{
    match slot {
        Slot::Live(kept) if kept.exceeds_allowed(n) => Some(CallFault::TooMuchCredit),
        _ => link_fault(slot),
    }
}

/// Returns why a call that every live link accepts would be refused at a place; `None` if it would be accepted.
fn link_fault<A: Allocator + Copy>(slot: &Slot<KeptLink<A>>) -> Option<CallFault>
    ensures { result ≡ at_link slot.now (λ l. None) }
{
    match slot {
        Slot::Live(_) => None,
        _ => Some(CallFault::NoLink),
    }
}

/// Lends the live link at a place; `None` if none is live.
fn link_mut<A: Allocator + Copy>(slot: &mut Slot<KeptLink<A>>) -> Option<&mut Link<A>>
    ensures* writes_back { sem 𝓛 (LendsPlace A.row A.Allocator slot.entry result) }
    ensures value { option_copied_mut result ≡ link_in slot.old }
{
    match slot {
        Slot::Live(kept) => Some(kept.link_mut()),
        _ => None,
    }
}

/// Returns what a flow states of a link.
pub fn stated<A: Allocator + Copy>(link: &Link<A>) -> LinkStated
    ensures { result ≡ stated_of link.now }
{
    LinkStated {
        delivery_count: link.delivery_count(),
        link_credit: link.credit(),
        drain: link.is_draining(),
    }
}

/// Returns what a flow states of the link at a place; `None` if none is live.
fn stated_at<A: Allocator + Copy>(slot: &Slot<KeptLink<A>>) -> Option<LinkStated>
    ensures some { IfSome result (λ stated. IsStated slot.now stated) }
    ensures none { IfNone result ((stated : LinkStated) → IsStated slot.now stated → ⊥) }
{
    match slot {
        Slot::Live(kept) => Some(stated(kept.link())),
        _ => None,
    }
}

/// Ends the link at a place, moves it to `ended`, and returns how many ready deliveries it had. It is `NoLink`
/// if none is live. Then the place has not changed.
fn detach<A: Allocator + Copy>(
    slot: &mut Slot<KeptLink<A>>,
    ended: &mut Option<KeptLink<A>>,
) -> Result<u32, CallFault>
    ensures new { OnOk result (slot.new ≡ Slot.Waits) }
    ensures ended { OnOk result (ended.new ≡ live_in slot.old) }
    ensures dropped { IfOk result (λ dropped. dropped ≡ slot_ready slot.old) }
    ensures accepted { OnOk result (at_link slot.old (λ l. None) ≡ None) }
    ensures refused { IfErr result (λ e. at_link slot.old (λ l. None) ≡ Some e) }
    ensures err { OnErr result (slot.new ≡ slot.old) }
{
    match slot {
        Slot::Live(_) => {}
        _ => return Err(CallFault::NoLink),
    }
    let dropped = ready_at(slot);
    *ended = end(slot, Slot::Waits);
    Ok(dropped)
}

/// Frees a place by a detach of the peer. The link is moved to `ended` if it was live. It is `UnattachedHandle`
/// if the place was free. Then the place has not changed.
fn detached<A: Allocator + Copy>(
    slot: &mut Slot<KeptLink<A>>,
    ended: &mut Option<KeptLink<A>>,
) -> Result<PeerDetached, SessionFault>
    ensures new { OnOk result (slot.new ≡ Slot.Free) }
    ensures ended { OnOk result (ended.new ≡ live_in slot.old) }
    ensures used { OnOk result (is_free slot.old ≡ false) }
    ensures dropped { IfOk result (λ detached. detached.dropped ≡ slot_ready slot.old) }
    ensures live { IfOk result (λ detached. detached.live ≡ is_live slot.old) }
    ensures refused { IfErr result (λ e. (e ≡ SessionFault.UnattachedHandle) × (is_free slot.old ≡ true)) }
    ensures err { OnErr result (slot.new ≡ slot.old) }
{
    let live = match slot {
        Slot::Free => return Err(SessionFault::UnattachedHandle),
        Slot::Live(_) => true,
        Slot::Waits => false,
    };
    let dropped = ready_at(slot);
    *ended = end(slot, Slot::Free);
    Ok(PeerDetached { dropped, live })
}

/// Returns how the delivery with this id stands at a place, looking under this key first. At most one open
/// delivery there may have the id.
fn standing<A: Allocator + Copy>(slot: &Slot<KeptLink<A>>, key: usize, id: u32) -> Standing
    requires { IsOnceAt id slot.now }
    ensures { result ≡ slot_standing id slot.now }
{
    match slot {
        Slot::Live(kept) => kept.link().standing_at(key, id),
        _ => Standing::Absent,
    }
}

/// Returns a view of the link at a place; `None` if none is live.
fn view<A: Allocator + Copy>(slot: &Slot<KeptLink<A>>) -> Option<LinkView<'_>>
    ensures { IsViewAt slot.now result }
{
    match slot {
        Slot::Live(kept) => Some(kept.view()),
        _ => None,
    }
}

/// Returns the bytes held for a place.
fn held_at<A: Allocator + Copy>(slot: &Slot<KeptLink<A>>) -> u64
    ensures value { result ≡ slot_bytes slot.now }
    ensures most { result < 2 ^ 42 }
{
    match slot {
        Slot::Free => 0,
        Slot::Live(kept) => kept.held(),
        Slot::Waits => 128,
    }
}
