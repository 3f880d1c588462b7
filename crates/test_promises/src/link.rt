//! What `amqp_link` promises.

ghost use Rattle.std.specs.Prelude.{◌≡◌, ◌<◌, ◌≤◌, ◌+◌, ◌*◌, [], length, Option, Some, None, OnOk, OnErr, IfOk, IfErr, IfSome, IfNone, IsSomeAnd, is_none, map, option_map, true, ◌++◌, ℕ, List, drop, IsErr, IsTrue, ◌↔◌, false, IsSome};
ghost use Rattle.std.specs.List.{list_any};
ghost use Rattle.amqp_link.specs.Links.{sent_of, Granted, DrainAsked, Transferred, FlowStated, HandedUp, ReceiverSettled, SenderSettled, LinkMay, link_after, link_begins, link_bytes, deliveries, open_set, open_count, first_ready, has_id, fault_of, IsVerdict, step_of, is_drained, is_beyond_credit, IsRefusal, named_count, newly_settled, settle_fault, standing_of, IsAwaiting, IsOnce};
ghost use Rattle.amqp_link.specs.HandedUps.{IsHandedUp};
ghost use Rattle.std.specs.Io.KnownBytes.{Appends};
ghost use Rattle.amqp_frame.specs.Devices.{device_inner, has_failed, has_ended, is_flushed, reads_left, AppendsFront};
ghost use Rattle.amqp_link.specs.Bounds.{IsBounded};

use amqp_frame::Device;
use amqp_link::{
    Link, LinkBounds, LinkFault, Message, OpenIds, SettleFault, Standing, Step, Tag, Taken, Terms,
    TooMuchCredit, Verdict,
};
use amqp_perform::Transfer;
use std::alloc::{AllocError, Allocator};
use std::io::{self, Write};

/// Makes a link as it is at its attach [2.6.3].
pub fn attach<A: Allocator + Copy>(alloc: A, terms: Terms) -> Link<A>
    ensures { result ≡ link_begins terms }
{
    Link::attach(alloc, terms)
}

/// Returns how many deliveries the link allows, and how long a message may be.
pub fn bounds<A: Allocator + Copy>(link: &Link<A>) -> LinkBounds
    ensures { result ≡ link.now.terms.bounds }
{
    link.bounds()
}

/// Returns the credit that is left [2.6.7].
pub fn credit<A: Allocator + Copy>(link: &Link<A>) -> u32
    ensures { result ≡ link.now.credit }
{
    link.credit()
}

/// Returns the delivery-count [2.6.7].
pub fn delivery_count<A: Allocator + Copy>(link: &Link<A>) -> u32
    ensures { result ≡ link.now.delivery_count }
{
    link.delivery_count()
}

/// Returns whether the sender was asked to use its credit up, and since then there was no grant and no flow of
/// the sender that left no credit [2.6.7].
pub fn is_draining<A: Allocator + Copy>(link: &Link<A>) -> bool
    ensures { result ≡ link.now.draining }
{
    link.is_draining()
}

/// Returns whether the next transfer begins a delivery.
pub fn next_is_head<A: Allocator + Copy>(link: &Link<A>) -> bool
    ensures { result ≡ is_none link.now.unfinished }
{
    link.next_is_head()
}

/// Returns the delivery-id of the delivery whose last transfer has not come; `None` if there is none.
pub fn unfinished_id<A: Allocator + Copy>(link: &Link<A>) -> Option<u32>
    ensures { result ≡ option_map (λ d. d.delivery_id) link.now.unfinished }
{
    link.unfinished_id()
}

/// Returns the delivery-ids of the open deliveries, in the order in which these began [2.6.12].
pub fn open_ids<A: Allocator + Copy>(link: &Link<A>) -> OpenIds<'_, A>
    ensures { result ≡ map (λ d. d.delivery_id) (deliveries link.now) }
{
    link.open_ids()
}

/// Returns how many deliveries are open [2.6.12].
pub fn opened<A: Allocator + Copy>(link: &Link<A>) -> u32
    ensures { result ≡ open_count link.now }
{
    link.opened()
}

/// Returns how many deliveries are ready to be handed up.
pub fn ready<A: Allocator + Copy>(link: &Link<A>) -> u32
    ensures value { result ≡ length link.now.ready }
    ensures most { result ≤ link.now.terms.bounds.allowed }
{
    link.ready()
}

/// Returns how much credit can be granted.
pub fn room<A: Allocator + Copy>(link: &Link<A>) -> u32
    ensures { link.now.credit + open_count link.now + result ≡ link.now.terms.bounds.allowed }
{
    link.room()
}

/// Returns whether an open delivery has this id [2.6.12].
pub fn has_open<A: Allocator + Copy>(link: &Link<A>, id: u32) -> bool
    ensures { result ≡ list_any (has_id id) (deliveries link.now) }
{
    link.has_open(id)
}

/// Returns the bytes held.
pub fn held<A: Allocator + Copy>(link: &Link<A>) -> u64
    ensures value { result ≡ link_bytes link.now }
    ensures most { result ≤ link.now.terms.bounds.allowed * (link.now.terms.bounds.max_message_size + 96) }
{
    link.held()
}

/// Asks the sender to use its credit up [2.6.7], even if it has none.
pub fn drain<A: Allocator + Copy>(link: &mut Link<A>)
    ensures { link.new ≡ link_after link.old DrainAsked }
{
    link.drain();
}

/// Grants `n` places of credit [2.6.7].
pub fn grant<A: Allocator + Copy>(link: &mut Link<A>, n: u32) -> Result<(), TooMuchCredit>
    ensures may { OnOk result (LinkMay link.old (Granted n)) }
    ensures new { OnOk result (link.new ≡ link_after link.old (Granted n)) }
    ensures much { OnErr result (link.old.terms.bounds.allowed < link.old.credit + open_count link.old + n) }
    ensures err { OnErr result (link.new ≡ link.old) }
{
    link.grant(n)
}

/// Follows the delivery-count that a flow of the sender states [2.6.7]. Returns whether the sender has used its
/// credit up as it was asked to. If so, it is no longer asked to.
pub fn sender_count<A: Allocator + Copy>(link: &mut Link<A>, stated: u32) -> Result<bool, LinkFault>
    ensures may { OnOk result (LinkMay link.old (FlowStated (Some stated))) }
    ensures new { OnOk result (link.new ≡ link_after link.old (FlowStated (Some stated))) }
    ensures drained { IfOk result (λ drained. drained ≡ is_drained link.old (Some stated)) }
    ensures beyond { IfErr result (λ e. (e ≡ LinkFault.TransferLimit) × (is_beyond_credit link.old.delivery_count link.old.credit (Some stated) ≡ true)) }
    ensures err { OnErr result (link.new ≡ link.old) }
{
    link.sender_count(stated)
}

/// Hands up the first ready delivery, in the order in which they began.
pub fn take<A: Allocator + Copy>(link: &mut Link<A>) -> Option<Taken<A>>
    ensures none { IfNone result ((first_ready link.old ≡ None) × (link.new ≡ link.old)) }
    ensures some { IfSome result (λ taken. IsSomeAnd (first_ready link.old) (λ d. IsHandedUp taken d × (link.new ≡ link_after link.old (HandedUp d)))) }
{
    link.take()
}

/// Returns how the delivery with this id stands as to its settlement by the receiver.
pub fn standing<A: Allocator + Copy>(link: &Link<A>, id: u32) -> Standing
    ensures { result ≡ standing_of id (open_set link.now) }
{
    link.standing(id)
}

/// Returns why the receiver can't settle the ids from `first` to `last`; `None` if it can.
pub fn settle_fault<A: Allocator + Copy>(
    link: &Link<A>,
    first: u32,
    last: u32,
) -> Option<SettleFault>
    ensures { result ≡ settle_fault first last (open_set link.now) }
{
    link.settle_fault(first, last)
}

/// Settles the ids from `first` to `last` for the receiver [2.6.12, 2.8.3].
pub fn settle<A: Allocator + Copy>(
    link: &mut Link<A>,
    first: u32,
    last: u32,
) -> Result<u32, SettleFault>
    ensures may { OnOk result (LinkMay link.old (ReceiverSettled first last)) }
    ensures new { OnOk result (link.new ≡ link_after link.old (ReceiverSettled first last)) }
    ensures count { IfOk result (λ n. n ≡ named_count first last (open_set link.old)) }
    ensures refused { IfErr result (λ e. settle_fault first last (open_set link.old) ≡ Some e) }
    ensures err { OnErr result (link.new ≡ link.old) }
{
    link.settle(first, last)
}

/// Settles the ids from `first` to `last` as [`Link::settle`] does, if [`Link::settle_fault`] finds no fault in
/// them.
pub fn settle_faultless<A: Allocator + Copy>(link: &mut Link<A>, first: u32, last: u32) -> u32
    requires { settle_fault first last (open_set link.old) ≡ None }
    ensures may { LinkMay link.old (ReceiverSettled first last) }
    ensures new { link.new ≡ link_after link.old (ReceiverSettled first last) }
    ensures count { result ≡ named_count first last (open_set link.old) }
{
    link.settle_faultless(first, last)
}

/// Settles the ids from `first` to `last` for the sender [2.6.12, 2.7.6]. Deliveries that were not handed up
/// are settled too, and stay open until they are handed up.
pub fn peer_settled<A: Allocator + Copy>(link: &mut Link<A>, first: u32, last: u32) -> u32
    ensures new { link.new ≡ link_after link.old (SenderSettled first last) }
    ensures count { result ≡ newly_settled first last (open_set link.old) }
    ensures most { result ≤ open_count link.old }
{
    link.peer_settled(first, last)
}

/// Returns how the delivery with this id stands, looking under this key first. See [`Link::standing`].
pub fn standing_at<A: Allocator + Copy>(link: &Link<A>, key: usize, id: u32) -> Standing
    requires { IsOnce id id (open_set link.now) }
    ensures { result ≡ standing_of id (open_set link.now) }
{
    link.standing_at(key, id)
}

/// Settles the delivery with this id for the receiver if it awaits that, looking under this key first. See
/// [`Link::settle`].
pub fn settle_at<A: Allocator + Copy>(link: &mut Link<A>, key: usize, id: u32) -> Standing
    requires once { IsOnce id id (open_set link.old) }
    requires faultless { IsAwaiting (standing_of id (open_set link.old)) → settle_fault id id (open_set link.old) ≡ None }
    ensures standing { result ≡ standing_of id (open_set link.old) }
    ensures may { IsAwaiting result → LinkMay link.old (ReceiverSettled id id) }
    ensures new { IsAwaiting result → link.new ≡ link_after link.old (ReceiverSettled id id) }
    ensures same { ¬ (IsAwaiting result) → link.new ≡ link.old }
{
    link.settle_at(key, id)
}

/// Settles the delivery with this id for the sender, looking under this key first. See [`Link::peer_settled`].
pub fn peer_settled_at<A: Allocator + Copy>(link: &mut Link<A>, key: usize, id: u32) -> u32
    requires { IsOnce id id (open_set link.old) }
    ensures new { link.new ≡ link_after link.old (SenderSettled id id) }
    ensures count { result ≡ newly_settled id id (open_set link.old) }
    ensures most { result ≤ open_count link.old }
{
    link.peer_settled_at(key, id)
}

/// Takes a transfer and its payload [2.6.14].
pub fn transfer<A: Allocator + Copy>(
    link: &mut Link<A>,
    transfer: &Transfer<'_>,
    payload: &[u8],
) -> Result<Step, LinkFault>
    ensures may { OnOk result (LinkMay link.old (Transferred (sent_of transfer.now payload.now))) }
    ensures new { OnOk result (link.new ≡ link_after link.old (Transferred (sent_of transfer.now payload.now))) }
    ensures step { IfOk result (λ step. step ≡ step_of (sent_of transfer.now payload.now)) }
    ensures refused { IfErr result (λ e. IsRefusal link.old (sent_of transfer.now payload.now) e) }
    ensures err { OnErr result (link.new ≡ link.old) }
{
    link.transfer(transfer, payload)
}

/// Takes a transfer in which [`Link::judge`] finds no fault now, without judging it again. See
/// [`Link::transfer`].
pub fn transfer_judged<A: Allocator + Copy>(
    link: &mut Link<A>,
    transfer: &Transfer<'_>,
    payload: &[u8],
) -> Result<Step, LinkFault>
    requires { fault_of link.old (sent_of transfer.now payload.now) ≡ None }
    ensures may { OnOk result (LinkMay link.old (Transferred (sent_of transfer.now payload.now))) }
    ensures new { OnOk result (link.new ≡ link_after link.old (Transferred (sent_of transfer.now payload.now))) }
    ensures step { IfOk result (λ step. step ≡ step_of (sent_of transfer.now payload.now)) }
    ensures refused { IfErr result (λ e. IsRefusal link.old (sent_of transfer.now payload.now) e) }
    ensures err { OnErr result (link.new ≡ link.old) }
{
    link.transfer_judged(transfer, payload)
}

/// Returns the fault with which [`Link::transfer`] would refuse a transfer and its payload now; `None` if it
/// would find none. It never returns `NoMemory`.
pub fn judge<A: Allocator + Copy>(
    link: &Link<A>,
    transfer: &Transfer<'_>,
    payload: &[u8],
) -> Option<LinkFault>
    ensures { result ≡ fault_of link.now (sent_of transfer.now payload.now) }
{
    link.judge(transfer, payload)
}

/// Returns what a transfer and its payload result in now [2.6.14], if memory is not refused. `known` says
/// whether an open delivery of the session has the id that the transfer states.
pub fn verdict<A: Allocator + Copy>(
    link: &Link<A>,
    known: bool,
    transfer: &Transfer<'_>,
    payload: &[u8],
) -> Verdict
    ensures { IsVerdict known link.now (sent_of transfer.now payload.now) result }
{
    link.verdict(known, transfer, payload)
}

/// Drops the link with its open deliveries, and returns how many were ready and not handed up.
pub fn drop_all<A: Allocator + Copy>(link: Link<A>) -> u32
    ensures { result ≡ length link.ready }
{
    link.drop_all()
}

/// Returns the length of the message, in bytes.
pub fn len<A: Allocator + Copy>(message: &Message<A>) -> usize
    ensures { result ≡ length message.now }
{
    message.len()
}

/// Returns whether the message is empty.
pub fn is_empty<A: Allocator + Copy>(message: &Message<A>) -> bool
    ensures { IsTrue result ↔ (message.now ≡ []) }
{
    message.is_empty()
}

/// Returns the message's bytes from `at` on, as many as lie in one piece.
pub fn piece<A: Allocator + Copy>(message: &Message<A>, at: usize) -> &[u8]
    ensures front { (behind : List ℕ) × (drop at message.now ≡ result.now ++ behind) }
    ensures some { at < length message.now → 0 < length result.now }
{
    message.piece(at)
}

/// Returns the message's bytes in a new vector.
pub fn to_vec<A: Allocator + Copy, B: Allocator>(
    message: &Message<A>,
    alloc: B,
) -> Result<Vec<u8, B>, AllocError>
    ensures { IfOk result (λ v. v.items ≡ message.now) }
{
    message.to_vec(alloc)
}

/// Writes the message's bytes to the device.
pub fn write_to<A: Allocator + Copy, W: Write>(
    message: &Message<A>,
    writer: &mut Device<W>,
) -> io::Result<()>
    ensures marked { IsErr result ↔ IsTrue (has_failed writer.new) }
    ensures ok { OnOk result (Appends (W.contents (device_inner writer.old)) (W.contents (device_inner writer.new)) message.now) }
    ensures err { OnErr result (AppendsFront (W.contents (device_inner writer.old)) (W.contents (device_inner writer.new)) message.now) }
    ensures unflushed { 0 < length message.now → OnOk result (is_flushed writer.new ≡ false) }
    ensures ended { has_ended writer.new ≡ has_ended writer.old }
    ensures reads { reads_left writer.new ≡ reads_left writer.old }
    ensures still { IsTrue (has_failed writer.old) → writer.new ≡ writer.old }
    ensures empty { length message.now ≡ 0 → writer.new ≡ writer.old }
{
    message.write_to(writer)
}

/// Returns the tag's bytes.
pub fn as_bytes(tag: &Tag) -> &[u8]
    ensures value { result.now ≡ tag.now }
    ensures within { length tag.now ≤ 32 }
{
    tag.as_bytes()
}

/// Makes bounds of these numbers; `None` if one is outside its range.
pub fn new(allowed: u32, max_message_size: u32) -> Option<LinkBounds>
    ensures some { IsSome result ↔ IsBounded allowed max_message_size }
    ensures is { IfSome result (λ bounds. bounds ≡ record { allowed = allowed; max_message_size = max_message_size }) }
{
    LinkBounds::new(allowed, max_message_size)
}

/// Returns how many deliveries are allowed, credit and open ones together.
pub fn allowed(linkbounds: LinkBounds) -> u32
    ensures value { result ≡ linkbounds.allowed }
    ensures within { IsBounded linkbounds.allowed linkbounds.max_message_size }
{
    linkbounds.allowed()
}

/// Returns how long a message may be, in bytes [2.7.3].
pub fn max_message_size(linkbounds: LinkBounds) -> u32
    ensures { result ≡ linkbounds.max_message_size }
{
    linkbounds.max_message_size()
}
