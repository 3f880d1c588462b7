//! One link that receives.
ghost use Rattle.amqp_link.specs.Links as spec;
ghost use Rattle.std.specs.Prelude.{◌≡◌, ◌<◌, ◌≤◌, ◌+◌, ◌*◌, ◌^◌, [], length, Option, Some, None, OnOk, OnErr, IfOk, IfErr, IfSome, IfNone, IsSomeAnd, is_none, map, option_map, Bool, true, IsFalse, nat_lt, false};
ghost use Rattle.std.specs.List.{list_any};
ghost use Rattle.amqp_link.specs.Links.{LinkState, sent_of, Granted, DrainAsked, Transferred, FlowStated, HandedUp, ReceiverSettled, SenderSettled, LinkMay, link_after, link_begins, link_bytes, deliveries, open_set, open_count, first_ready, has_id, fault_of, IsVerdict, step_of, is_drained, is_beyond_credit, IsRefusal, with_delivery, delivery_after, may_grow_at, set_bytes, named_count, newly_settled, settle_fault, standing_of, IsAwaiting, IsOnce};
ghost use Rattle.amqp_link.specs.HandedUps.{IsHandedUp};
ghost use Rattle.amqp_link.specs.Keeping.{delivery_of};

use crate::message::Message;
use crate::open_deliveries::OpenDeliveries;
use crate::open_delivery::{Ids, OpenDelivery};
use crate::open_ids::OpenIds;
use crate::settlement::{SettleFault, Standing};
use crate::tag::{MAX_TAG, Tag};
use crate::terms::{LinkBounds, Terms};
use crate::transfer::{LinkFault, Step, Verdict, is_settled};
use amqp_perform::{ReceiverSettleMode, Transfer};
use amqp_serial::Serial;
use std::alloc::{AllocError, Allocator, Global};
use std::marker::Model;

/// More credit was requested than the link allows.
#[derive(Clone, Copy, Debug, PartialEq, Eq)]
pub struct TooMuchCredit;

/// A delivery that was handed up.
#[derive(Drop)]
pub struct Taken<A: Allocator + Copy = Global> {
    /// The delivery-id.
    pub delivery_id: u32,
    /// The delivery-tag.
    pub delivery_tag: Tag,
    /// The message-format.
    pub message_format: u32,
    /// The sender has settled it.
    pub settled: bool,
    /// Its message.
    pub message: Message<A>,
}

/// A live link from a sender: its credit, and its deliveries until they are both handed up and settled, or
/// given up [2.6.7, 2.6.12].
#[derive(Drop)]
pub struct Link<A: Allocator + Copy = Global> {
    terms: Terms,
    credit: u32,
    delivery_count: u32,
    draining: bool,
    deliveries: OpenDeliveries<A>,
}

impl<A: Allocator + Copy> Model for Link<A> {
    ghost use Rattle.amqp_link.specs.Links.{LinkState};

    ghost Value = { LinkState };

    ghost use Rattle.amqp_link.specs.Keeping.{link_of, IsLink};

    ghost view = { λ a. link_of a.terms a.credit a.delivery_count a.draining a.deliveries };

    ghost invariant = { λ a. IsLink a.terms a.credit a.deliveries };
}

impl<A: Allocator + Copy> Link<A> {
    /// Makes a link as it is at its attach, with no credit [2.6.3]. Takes no memory.
    pub fn attach(alloc: A, terms: Terms) -> Self
        ensures { result ≡ link_begins terms }
    {
        let delivery_count = terms.initial_delivery_count;
        let deliveries = OpenDeliveries::new(alloc);
        Link {
            terms,
            credit: 0,
            delivery_count,
            draining: false,
            deliveries,
        }
    }

    /// Returns how many deliveries the link allows, and how long a message may be.
    pub fn bounds(&self) -> LinkBounds
        ensures { result ≡ self.now.terms.bounds }
    {
        self.terms.bounds
    }

    /// Returns the credit that is left [2.6.7].
    pub fn credit(&self) -> u32
        ensures { result ≡ self.now.credit }
    {
        self.credit
    }

    /// Returns the delivery-count [2.6.7].
    pub fn delivery_count(&self) -> u32
        ensures { result ≡ self.now.delivery_count }
    {
        self.delivery_count
    }

    /// Returns whether the sender was asked to use its credit up, and since then there was no grant and no flow
    /// of the sender that left no credit [2.6.7].
    pub fn is_draining(&self) -> bool
        ensures { result ≡ self.now.draining }
    {
        self.draining
    }

    /// Returns whether the next transfer begins a delivery.
    pub fn next_is_head(&self) -> bool
        ensures { result ≡ is_none self.now.unfinished }
    {
        !self.deliveries.has_unfinished()
    }

    /// Returns the delivery-id of the delivery whose last transfer has not come; `None` if there is none.
    pub fn unfinished_id(&self) -> Option<u32>
        ensures { result ≡ option_map (λ d. d.delivery_id) self.now.unfinished }
    {
        self.deliveries.unfinished_id()
    }

    /// Returns the delivery-ids of the open deliveries, in the order in which these began [2.6.12].
    pub fn open_ids(&self) -> OpenIds<'_, A>
        ensures { result ≡ map (λ d. d.delivery_id) (deliveries self.now) }
    {
        self.deliveries.ids()
    }

    /// Returns how many deliveries are open: neither given up nor both handed up and settled [2.6.12].
    pub fn opened(&self) -> u32
        ensures { result ≡ open_count self.now }
    {
        self.deliveries.len() as u32
    }

    /// Returns how many deliveries are ready to be handed up: at most as many as the link allows.
    pub fn ready(&self) -> u32
        ensures value { result ≡ length self.now.ready }
        ensures most { result ≤ self.now.terms.bounds.allowed }
    {
        self.deliveries.ready() as u32
    }

    /// Returns how much credit can be granted: what is allowed, less the credit and the open deliveries.
    pub fn room(&self) -> u32
        ensures { self.now.credit + open_count self.now + result ≡ self.now.terms.bounds.allowed }
    {
        self.terms.bounds.allowed() - self.credit - self.opened()
    }

    /// Returns whether an open delivery has this id [2.6.12].
    pub fn has_open(&self, id: u32) -> bool
        ensures { result ≡ list_any (has_id id) (deliveries self.now) }
    {
        self.deliveries.has_id(id)
    }

    /// Returns the bytes held: for each open delivery 64, its tag, and the part of its message that is held.
    /// The pattern names all fields, so that a new one must be listed here.
    pub fn held(&self) -> u64
        ensures value { result ≡ link_bytes self.now }
        ensures most { result ≤ self.now.terms.bounds.allowed * (self.now.terms.bounds.max_message_size + 96) }
    {
        let Link {
            terms: _,
            credit: _,
            delivery_count: _,
            draining: _,
            deliveries,
        } = self;
        deliveries.bytes()
    }

    /// Asks the sender to use its credit up [2.6.7], even if it has none. The caller has to write the flow that
    /// says so.
    pub fn drain(&mut self)
        ensures { self.new ≡ link_after self.old DrainAsked }
    {
        self.draining = true;
    }

    /// Grants `n` places of credit. Even if `n` is 0, the sender is then no longer asked to use its credit up
    /// [2.6.7]. The caller has to write the flow that says so.
    ///
    /// It is an error if credit and open deliveries would be more than the link allows. Then nothing has
    /// changed.
    pub fn grant(&mut self, n: u32) -> Result<(), TooMuchCredit>
        ensures may { OnOk result (LinkMay self.old (Granted n)) }
        ensures new { OnOk result (self.new ≡ link_after self.old (Granted n)) }
        ensures much { OnErr result (self.old.terms.bounds.allowed < self.old.credit + open_count self.old + n) }
        ensures err { OnErr result (self.new ≡ self.old) }
    {
        if n > self.room() {
            return Err(TooMuchCredit);
        }
        self.credit += n;
        self.draining = false;
        Ok(())
    }

    /// Follows the delivery-count that a flow of the sender states [2.6.7]. Returns whether the sender has used
    /// its credit up as it was asked to. If so, it is no longer asked to.
    ///
    /// A count that is ahead by more than the credit is refused with `TransferLimit`, and nothing has changed.
    /// A count that is behind changes no count and no credit. For a flow that states none, pass the known count
    /// (`laws::absent_count_is_the_known_one`).
    pub fn sender_count(&mut self, stated: u32) -> Result<bool, LinkFault>
        ensures may { OnOk result (LinkMay self.old (FlowStated (Some stated))) }
        ensures new { OnOk result (self.new ≡ link_after self.old (FlowStated (Some stated))) }
        ensures drained { IfOk result (λ drained. drained ≡ is_drained self.old (Some stated)) }
        ensures beyond { IfErr result (λ e. (e ≡ LinkFault.TransferLimit) × (is_beyond_credit self.old.delivery_count self.old.credit (Some stated) ≡ true)) }
        ensures err { OnErr result (self.new ≡ self.old) }
    {
        let known = Serial(self.delivery_count);
        let ahead = known.distance(Serial(stated));
        if ahead > self.credit && ahead < 1 << 31 {
            return Err(LinkFault::TransferLimit);
        }
        let advance = if ahead <= self.credit { ahead } else { 0 };
        self.credit -= advance;
        self.delivery_count = known.add(advance).0;
        let drained = self.draining && self.credit == 0;
        if self.credit == 0 {
            self.draining = false;
        }
        Ok(drained)
    }

    /// Hands up the first ready delivery, in the order in which they began; `None` if none is ready. Unless its
    /// sender has settled it, it stays open until it is settled. Takes no memory.
    // Inlined for `telemetry` and `gateway` (docs/PERF.md).
    #[inline(always)]
    pub fn take(&mut self) -> Option<Taken<A>>
        ensures none { IfNone result ((first_ready self.old ≡ None) × (self.new ≡ self.old)) }
        ensures some { IfSome result (λ taken. IsSomeAnd (first_ready self.old) (λ d. IsHandedUp taken d × (self.new ≡ link_after self.old (HandedUp d)))) }
    {
        self.deliveries.take()
    }

    /// Returns how the delivery with this id stands as to its settlement by the receiver. The session sees to
    /// it that no other open delivery has the id [2.6.12].
    pub fn standing(&self, id: u32) -> Standing
        ensures { result ≡ standing_of id (open_set self.now) }
    {
        self.deliveries.standing(id)
    }

    /// Returns why the receiver can't settle the ids from `first` to `last`; `None` if it can, even if no open
    /// delivery has any of them. It is `NotTaken` if an open delivery with one of the ids was not handed up,
    /// else `AlreadyTold` if the sender was told of one.
    pub fn settle_fault(&self, first: u32, last: u32) -> Option<SettleFault>
        ensures { result ≡ settle_fault first last (open_set self.now) }
    {
        let ids = Ids { first, last };
        if self.deliveries.names_untaken(ids) {
            Some(SettleFault::NotTaken)
        } else if self.deliveries.names_told(ids) {
            Some(SettleFault::AlreadyTold)
        } else {
            None
        }
    }

    /// Settles the ids from `first` to `last` for the receiver [2.6.12, 2.8.3], and returns how many open
    /// deliveries have one of them. A delivery in mode first is open no longer. Of one in mode second the
    /// sender is told, and then settles it. The caller has to write the disposition that says so. Takes no
    /// memory.
    ///
    /// It is an error if [`Link::settle_fault`] finds one. Then nothing has changed.
    pub fn settle(&mut self, first: u32, last: u32) -> Result<u32, SettleFault>
        ensures may { OnOk result (LinkMay self.old (ReceiverSettled first last)) }
        ensures new { OnOk result (self.new ≡ link_after self.old (ReceiverSettled first last)) }
        ensures count { IfOk result (λ n. n ≡ named_count first last (open_set self.old)) }
        ensures refused { IfErr result (λ e. settle_fault first last (open_set self.old) ≡ Some e) }
        ensures err { OnErr result (self.new ≡ self.old) }
    {
        match self.settle_fault(first, last) {
            Some(fault) => Err(fault),
            None => Ok(self.settle_faultless(first, last)),
        }
    }

    /// Settles the ids from `first` to `last` as [`Link::settle`] does, if [`Link::settle_fault`] finds no
    /// fault in them. Returns how many open deliveries have one of them.
    pub fn settle_faultless(&mut self, first: u32, last: u32) -> u32
        requires { settle_fault first last (open_set self.old) ≡ None }
        ensures may { LinkMay self.old (ReceiverSettled first last) }
        ensures new { self.new ≡ link_after self.old (ReceiverSettled first last) }
        ensures count { result ≡ named_count first last (open_set self.old) }
    {
        self.deliveries.settle_by_receiver(Ids { first, last }) as u32
    }

    /// Settles the ids from `first` to `last` for the sender [2.6.12, 2.7.6]. Deliveries that were not handed
    /// up are settled too, and stay open until they are handed up. For a disposition without last, pass the
    /// first twice. Returns how many open deliveries it settles that were not settled. Takes no memory.
    pub fn peer_settled(&mut self, first: u32, last: u32) -> u32
        ensures new { self.new ≡ link_after self.old (SenderSettled first last) }
        ensures count { result ≡ newly_settled first last (open_set self.old) }
        ensures most { result ≤ open_count self.old }
    {
        self.deliveries.settle_by_sender(Ids { first, last }) as u32
    }

    /// Returns the key under which the next delivery is stored, if one begins now.
    ///
    /// A key is only a hint. A call that is given one looks there first, and then searches for the id. So the
    /// call does the same under every key, and under the delivery's own it looks at no other delivery.
    pub fn next_key(&self) -> usize {
        self.deliveries.next_key()
    }

    /// Returns how the delivery with this id stands, looking under this key first. At most one open delivery of
    /// the link may have the id. See [`Link::standing`].
    pub fn standing_at(&self, key: usize, id: u32) -> Standing
        requires { IsOnce id id (open_set self.now) }
        ensures { result ≡ standing_of id (open_set self.now) }
    {
        self.deliveries.standing_at(key, id)
    }

    /// Settles the delivery with this id for the receiver if it awaits that, looking under this key first.
    /// Returns how the delivery stood. If it did not await a settle, nothing has changed. At most one open
    /// delivery of the link may have the id. See [`Link::settle`].
    // Inlined for `telemetry` and `gateway` (docs/PERF.md).
    #[inline(always)]
    pub fn settle_at(&mut self, key: usize, id: u32) -> Standing
        requires once { IsOnce id id (open_set self.old) }
        requires faultless { IsAwaiting (standing_of id (open_set self.old)) → settle_fault id id (open_set self.old) ≡ None }
        ensures standing { result ≡ standing_of id (open_set self.old) }
        ensures may { IsAwaiting result → LinkMay self.old (ReceiverSettled id id) }
        ensures new { IsAwaiting result → self.new ≡ link_after self.old (ReceiverSettled id id) }
        ensures same { ¬ (IsAwaiting result) → self.new ≡ self.old }
    {
        self.deliveries.settle_at(key, id)
    }

    /// Settles the delivery with this id for the sender, looking under this key first. At most one open
    /// delivery of the link may have the id. Returns how many it settles that were not settled: 1 or 0. See
    /// [`Link::peer_settled`].
    pub fn peer_settled_at(&mut self, key: usize, id: u32) -> u32
        requires { IsOnce id id (open_set self.old) }
        ensures new { self.new ≡ link_after self.old (SenderSettled id id) }
        ensures count { result ≡ newly_settled id id (open_set self.old) }
        ensures most { result ≤ open_count self.old }
    {
        self.deliveries.peer_settled_at(key, id) as u32
    }

    /// Takes a transfer and its payload [2.6.14]. If it is refused, nothing has changed. The first fault is
    /// returned, in this order:
    ///
    /// - `NotImplemented`: the transfer resumes a delivery.
    /// - `InvalidField`: a first transfer has no id or tag, has a tag above 32 bytes, or requests mode second on a
    ///   link of mode first without being settled. Or a later transfer states another id, tag or format.
    /// - `TransferLimit`: a delivery begins without credit.
    /// - `MessageSize`: the message would be longer than the link allows.
    /// - `NoMemory`: memory was refused. It comes neither for an aborted transfer nor for a later one without
    ///   payload.
    pub fn transfer(&mut self, transfer: &Transfer<'_>, payload: &[u8]) -> Result<Step, LinkFault>
        ensures may { OnOk result (LinkMay self.old (Transferred (sent_of transfer.now payload.now))) }
        ensures new { OnOk result (self.new ≡ link_after self.old (Transferred (sent_of transfer.now payload.now))) }
        ensures step { IfOk result (λ step. step ≡ step_of (sent_of transfer.now payload.now)) }
        ensures refused { IfErr result (λ e. IsRefusal self.old (sent_of transfer.now payload.now) e) }
        ensures err { OnErr result (self.new ≡ self.old) }
    {
        if let Some(fault) = self.judge(transfer, payload) {
            return Err(fault);
        }
        self.transfer_judged(transfer, payload)
    }

    /// Takes a transfer in which [`Link::judge`] finds no fault now, without judging it again. The only
    /// possible error is `NoMemory`. See [`Link::transfer`].
    pub fn transfer_judged(
        &mut self,
        transfer: &Transfer<'_>,
        payload: &[u8],
    ) -> Result<Step, LinkFault>
        requires { fault_of self.old (sent_of transfer.now payload.now) ≡ None }
        ensures may { OnOk result (LinkMay self.old (Transferred (sent_of transfer.now payload.now))) }
        ensures new { OnOk result (self.new ≡ link_after self.old (Transferred (sent_of transfer.now payload.now))) }
        ensures step { IfOk result (λ step. step ≡ step_of (sent_of transfer.now payload.now)) }
        ensures refused { IfErr result (λ e. IsRefusal self.old (sent_of transfer.now payload.now) e) }
        ensures err { OnErr result (self.new ≡ self.old) }
    {
        let begins = self.next_is_head();
        let step = apply(&mut self.deliveries, &self.terms, transfer, payload)?;
        if begins {
            self.credit -= 1;
            self.delivery_count = self.delivery_count.wrapping_add(1);
        }
        Ok(step)
    }

    /// Returns the fault with which [`Link::transfer`] would refuse a transfer and its payload now; `None` if
    /// it would find none. It never returns `NoMemory`. Takes no memory.
    pub fn judge(&self, transfer: &Transfer<'_>, payload: &[u8]) -> Option<LinkFault>
        ensures { result ≡ fault_of self.now (sent_of transfer.now payload.now) }
    {
        match self.verdict(false, transfer, payload) {
            Verdict::Fails(fault) => Some(fault),
            Verdict::Begins(_) => None,
            Verdict::GoesOn => None,
            Verdict::Passes => None,
            Verdict::GivesUp(_) => None,
        }
    }

    /// Returns what a transfer and its payload result in now [2.6.14], if memory is not refused. Takes no
    /// memory.
    ///
    /// `known` says whether an open delivery of the session has the id that the transfer states: no delivery
    /// may begin under such an id [2.6.12]. The fault is the first in the order of [`Link::transfer`]; a known
    /// id is an `InvalidField`. If a delivery is unfinished, `known` makes no difference.
    pub fn verdict(&self, known: bool, transfer: &Transfer<'_>, payload: &[u8]) -> Verdict
        ensures { IsVerdict known self.now (sent_of transfer.now payload.now) result }
    {
        if transfer.resume {
            return Verdict::Fails(LinkFault::NotImplemented);
        }
        match self.deliveries.unfinished() {
            None => self.verdict_of_head(known, transfer, payload),
            Some(delivery) => self.verdict_of_part(delivery, transfer, payload),
        }
    }

    /// Returns the verdict on a transfer that begins a delivery. See [`Link::verdict`].
    fn verdict_of_head(&self, known: bool, transfer: &Transfer<'_>, payload: &[u8]) -> Verdict
        requires none { self.now.unfinished ≡ None }
        requires anew { IsFalse transfer.now.resume }
        ensures { IsVerdict known self.now (sent_of transfer.now payload.now) result }
    {
        if known || !is_formed_head(&self.terms, transfer) {
            return Verdict::Fails(LinkFault::InvalidField);
        }
        if self.credit == 0 {
            return Verdict::Fails(LinkFault::TransferLimit);
        }
        if transfer.aborted {
            return Verdict::Passes;
        }
        if is_above(0, payload.len(), self.terms.bounds.max_message_size()) {
            return Verdict::Fails(LinkFault::MessageSize);
        }
        Verdict::Begins(self.deliveries.next_key())
    }

    /// Returns the verdict on a transfer that belongs to this delivery, which is unfinished. See
    /// [`Link::verdict`].
    fn verdict_of_part(
        &self,
        delivery: &OpenDelivery<A>,
        transfer: &Transfer<'_>,
        payload: &[u8],
    ) -> Verdict
        requires unfinished { self.now.unfinished ≡ Some (delivery_of delivery.now) }
        requires anew { IsFalse transfer.now.resume }
        ensures { (known : Bool) → IsVerdict known self.now (sent_of transfer.now payload.now) result }
    {
        if !is_formed_continuation(delivery, transfer) {
            return Verdict::Fails(LinkFault::InvalidField);
        }
        if transfer.aborted {
            return Verdict::GivesUp(delivery.delivery_id);
        }
        let most = self.terms.bounds.max_message_size();
        if is_above(delivery.message.len(), payload.len(), most) {
            return Verdict::Fails(LinkFault::MessageSize);
        }
        Verdict::GoesOn
    }

    /// Drops the link with its open deliveries, and returns how many were ready and not handed up. The link's
    /// history then takes no further event.
    pub fn drop_all(self) -> u32
        ensures { result ≡ length self.ready }
    {
        self.ready()
    }
}

/// Applies an accepted transfer to its delivery. If memory is refused, nothing has changed.
// Inlined for `telemetry` and `gateway` (docs/PERF.md).
#[inline(always)]
fn apply<A: Allocator + Copy>(
    deliveries: &mut OpenDeliveries<A>,
    terms: &Terms,
    transfer: &Transfer<'_>,
    payload: &[u8],
) -> Result<Step, AllocError>
    requires tag { is_none deliveries.old.unfinished ≡ true → IfSome transfer.now.delivery_tag (λ tag. length tag.now ≤ 32) }
    requires fits { IsFalse transfer.now.aborted → set_bytes deliveries.old + 96 + length payload.now < 2 ^ 64 }
    ensures ok { OnOk result (deliveries.new ≡ with_delivery deliveries.old (sent_of transfer.now payload.now) (delivery_after terms.now deliveries.old.unfinished (sent_of transfer.now payload.now))) }
    ensures step { IfOk result (λ step. step ≡ step_of (sent_of transfer.now payload.now)) }
    ensures err { OnErr result (deliveries.new ≡ deliveries.old) }
    ensures grows { OnErr result (may_grow_at deliveries.old.unfinished (sent_of transfer.now payload.now) ≡ true) }
{
    if transfer.aborted {
        deliveries.discard();
        return Ok(Step::Aborted);
    }
    if !deliveries.has_unfinished() {
        return deliveries.begin(terms, transfer, payload);
    }
    deliveries.extend(is_settled(transfer), payload)?;
    if transfer.more {
        return Ok(Step::Unfinished);
    }
    deliveries.finish();
    Ok(Step::Ready)
}

/// Returns whether a transfer is well formed as the first of a delivery.
fn is_formed_head(terms: &Terms, transfer: &Transfer<'_>) -> bool
    ensures { result ≡ spec.is_formed_head terms.now (sent_of transfer.now []) }
{
    let tagged = match transfer.delivery_tag {
        None => false,
        Some(tag) => tag.len() <= MAX_TAG,
    };
    let mode = is_settled(transfer)
        || !(matches!(terms.rcv_settle_mode, ReceiverSettleMode::First)
            && matches!(transfer.rcv_settle_mode, Some(ReceiverSettleMode::Second)));
    transfer.delivery_id.is_some() && tagged && mode
}

/// Returns whether a transfer is well formed as a later one of this delivery.
fn is_formed_continuation<A: Allocator + Copy>(
    delivery: &OpenDelivery<A>,
    transfer: &Transfer<'_>,
) -> bool
    ensures { result ≡ spec.is_formed_continuation (delivery_of delivery.now) (sent_of transfer.now []) }
{
    let id = match transfer.delivery_id {
        None => true,
        Some(id) => delivery.delivery_id == id,
    };
    let tag = match transfer.delivery_tag {
        None => true,
        Some(tag) => tag == delivery.delivery_tag.as_bytes(),
    };
    let format = match transfer.message_format {
        None => true,
        Some(format) => delivery.message_format == format,
    };
    id && tag && format
}

/// Returns whether `a + b` is above `most`.
fn is_above(a: usize, b: usize, most: u32) -> bool
    ensures { result ≡ nat_lt most (a + b) }
{
    let most = most as usize;
    a > most || b > most - a
}
