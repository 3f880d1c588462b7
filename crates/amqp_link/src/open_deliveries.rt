//! The open deliveries of a link.
ghost use Rattle.std.specs.Prelude.{◌≡◌, ◌≤◌, ◌<◌, ◌+◌, ◌^◌, ◌||◌, ◌++◌, ◌∷◌, [], length, slice_get, OnOk, OnErr, IfOk, IfSome, IfNone, IsOk, IsSomeAnd, IsFalse, IsTrue, is_some, option_map, option_to_list, Some, None, find, map, count_by, not, ◌&&◌};
ghost use Rattle.std.specs.List.{list_any};
ghost use Rattle.amqp_link.specs.Links.{Delivery, OpenSet, sent_of, step_of, with_delivery, in_order, set_bytes, has_id, how_many, untaken, is_covered, IsOnce, sender_settled_by, names_untaken, names_told, named_count, newly_settled, receiver_settled_in, sender_settled_in, standing_of, IsAwaiting};
ghost use Rattle.amqp_link.specs.Links as spec;
ghost use Rattle.amqp_link.specs.HandedUps.{IsHandedUp};
ghost use Rattle.amqp_link.specs.Keeping.{delivery_of, taken_from, asks_of, counts, settled_list};

use crate::link::Taken;
use crate::message::Message;
use crate::open_delivery::{Ids, OpenDelivery, Question, Settler, Settling};
use crate::open_ids::OpenIds;
use crate::places::{self, Found};
use crate::settlement::Standing;
use crate::tag::Tag;
use crate::terms::Terms;
use crate::transfer::{Step, is_settled};
use amqp_perform::Transfer;
use slab::Slab;
use std::alloc::{AllocError, Allocator, Global};
use std::marker::Model;

/// The open deliveries, each under a key of its own, and their places in link order.
///
/// Room for a delivery's place is made when the delivery begins. When a delivery ends, its place is left empty,
/// so that no other moves. Empty places are closed up once no delivery is open, or about three in four places
/// are empty. So there are never more than four places for each open delivery, and a few.
#[derive(Drop)]
pub struct OpenDeliveries<A: Allocator + Copy = Global> {
    alloc: A,
    slab: Slab<OpenDelivery<A>, A>,
    /// The keys of the whole deliveries in link order, and empty places.
    order: Vec<Option<usize>, A>,
    /// How many places belong to deliveries that were handed up. The later ones belong to ready deliveries.
    handed_up: usize,
    /// The key of the delivery whose last transfer has not come.
    unfinished: Option<usize>,
    bytes: u64,
}

impl<A: Allocator + Copy> Model for OpenDeliveries<A> {
    ghost use Rattle.std.specs.Prelude.{vec_capacity};
    ghost use Rattle.amqp_link.specs.Links.{OpenSet};

    ghost Value = { OpenSet };

    ghost use Rattle.amqp_link.specs.Keeping.{set_at, IsKeptAt};

    ghost view = { λ a. set_at a.slab a.order.items a.handed_up a.unfinished };

    ghost invariant = { λ a. IsKeptAt a.slab a.order.items a.handed_up a.unfinished a.bytes (vec_capacity a.order) };
}

impl<A: Allocator + Copy> OpenDeliveries<A> {
    /// Returns a set with no open delivery.
    pub fn new(alloc: A) -> Self
        ensures { result ≡ record { awaiting = []; ready = []; unfinished = None } }
    {
        OpenDeliveries {
            alloc,
            slab: Slab::new(alloc),
            order: Vec::new(alloc),
            handed_up: 0,
            unfinished: None,
            bytes: 0,
        }
    }

    /// Begins a delivery with the payload of its first transfer. It is ready unless more is to come.
    ///
    /// All memory is taken before anything changes: first for the delivery and its place, then for the payload.
    /// So a refusal of one of the first two comes before any work that grows with the payload. If memory is
    /// refused, nothing has changed.
    pub fn begin(
        &mut self,
        terms: &Terms,
        transfer: &Transfer<'_>,
        payload: &[u8],
    ) -> Result<Step, AllocError>
        requires none { self.old.unfinished ≡ None }
        requires tag { IfSome transfer.now.delivery_tag (λ tag. length tag.now ≤ 32) }
        requires whole { IsFalse transfer.now.aborted }
        requires fits { set_bytes self.old + 96 + length payload.now < 2 ^ 64 }
        ensures ok { OnOk result (self.new ≡ with_delivery self.old (sent_of transfer.now payload.now) (spec.begun terms.now (sent_of transfer.now payload.now))) }
        ensures step { IfOk result (λ step. step ≡ step_of (sent_of transfer.now payload.now)) }
        ensures err { OnErr result (self.new ≡ self.old) }
    {
        self.slab.reserve(1)?;
        self.order.reserve(1)?;
        let message = Message::of(self.alloc, payload)?;
        let delivery = begun(terms, transfer, message, self.order.len());
        self.bytes += delivery.bytes();
        let key = self.slab.insert_reserved(delivery);
        if transfer.more {
            self.unfinished = Some(key);
            return Ok(Step::Unfinished);
        }
        self.order.push_reserved(Some(key));
        Ok(Step::Ready)
    }

    /// Adds one more transfer to the unfinished delivery. If memory is refused, nothing has changed. An empty
    /// payload needs none.
    pub fn extend(&mut self, settled: bool, payload: &[u8]) -> Result<(), AllocError>
        requires fits { set_bytes self.old + length payload.now < 2 ^ 64 }
        ensures ok { OnOk result ((d : Delivery) → self.old.unfinished ≡ Some d → self.new ≡ record self.old { unfinished = Some (record d { settled = d.settled || settled; message = d.message ++ payload.now }) }) }
        ensures err { OnErr result (self.new ≡ self.old) }
        ensures empty { payload.now ≡ [] → IsOk result }
    {
        if let Some(key) = self.unfinished {
            self.slab[key].extend(settled, payload)?;
            self.bytes += payload.len() as u64;
        }
        Ok(())
    }

    /// Makes the unfinished delivery ready.
    pub fn finish(&mut self)
        ensures { (d : Delivery) → self.old.unfinished ≡ Some d → self.new ≡ record self.old { ready = self.old.ready ++ d ∷ []; unfinished = None } }
    {
        if let Some(key) = self.unfinished {
            self.unfinished = None;
            places::number_one(&mut self.slab, key, self.order.len());
            self.order.push_reserved(Some(key));
        }
    }

    /// Removes the unfinished delivery.
    pub fn discard(&mut self)
        ensures { self.new ≡ record self.old { unfinished = None } }
    {
        if let Some(key) = self.unfinished {
            self.unfinished = None;
            self.bytes -= self.slab.remove(key).bytes();
            places::close_up(&mut self.slab, &mut self.order, &mut self.handed_up);
        }
    }

    /// Hands up the first ready delivery; `None` if none is ready. It stays open, without its message, unless
    /// it is settled.
    // Inlined for `telemetry` and `gateway` (docs/PERF.md).
    #[inline(always)]
    pub fn take(&mut self) -> Option<Taken<A>>
        ensures none { IfNone result ((slice_get self.old.ready 0 ≡ None) × (self.new ≡ self.old)) }
        ensures some { IfSome result (λ taken. IsSomeAnd (slice_get self.old.ready 0) (λ d. IsHandedUp taken d × (self.new ≡ taken_from d self.old))) }
    {
        let key = (*self.order.get(self.handed_up)?)?;
        if self.slab[key].settled {
            return self.take_settled();
        }
        let taken = self.slab[key].hand_up(self.alloc);
        self.handed_up += 1;
        self.bytes -= taken.message.size();
        Some(taken)
    }

    /// Hands up the first ready delivery, which is settled and so open no longer. [`OpenDeliveries::take`]
    /// calls this.
    #[inline(never)]
    fn take_settled(&mut self) -> Option<Taken<A>>
        requires { IfSome (slice_get self.old.ready 0) (λ d. IsTrue d.settled) }
        ensures none { IfNone result ((slice_get self.old.ready 0 ≡ None) × (self.new ≡ self.old)) }
        ensures some { IfSome result (λ taken. IsSomeAnd (slice_get self.old.ready 0) (λ d. IsHandedUp taken d × (self.new ≡ taken_from d self.old))) }
    {
        let key = (*self.order.get(self.handed_up)?)?;
        self.order[self.handed_up] = None;
        self.handed_up += 1;
        let mut delivery = self.slab.remove(key);
        self.bytes -= delivery.bytes();
        places::close_up(&mut self.slab, &mut self.order, &mut self.handed_up);
        Some(delivery.hand_up(self.alloc))
    }

    /// Returns the bytes held for all open deliveries. The pattern names all fields, so that a new one must be
    /// listed here.
    pub fn bytes(&self) -> u64
        ensures { result ≡ set_bytes self.now }
    {
        let OpenDeliveries {
            alloc: _,
            slab: _,
            order: _,
            handed_up: _,
            unfinished: _,
            bytes,
        } = self;
        *bytes
    }

    /// Returns the unfinished delivery; `None` if there is none.
    pub fn unfinished(&self) -> Option<&OpenDelivery<A>>
        ensures { option_map (λ d. delivery_of d.now) result ≡ self.now.unfinished }
    {
        match self.unfinished {
            None => None,
            Some(key) => self.slab.get(key),
        }
    }

    /// Returns the delivery-ids of all open deliveries, in the order in which these began.
    pub fn ids(&self) -> OpenIds<'_, A>
        ensures { result ≡ map (λ d. d.delivery_id) (in_order self.now) }
    {
        OpenIds::new(&self.slab, &self.order, self.unfinished_id())
    }

    /// Returns the delivery-id of the unfinished delivery; `None` if there is none.
    pub fn unfinished_id(&self) -> Option<u32>
        ensures { result ≡ option_map (λ d. d.delivery_id) self.now.unfinished }
    {
        Some(self.unfinished()?.delivery_id)
    }

    /// Returns whether a delivery is unfinished.
    pub fn has_unfinished(&self) -> bool
        ensures { result ≡ is_some self.now.unfinished }
    {
        self.unfinished.is_some()
    }

    /// Returns how many deliveries are open.
    pub fn len(&self) -> usize
        ensures { result ≡ how_many self.now }
    {
        self.slab.len()
    }

    /// Returns how many deliveries are ready.
    pub fn ready(&self) -> usize
        ensures { result ≡ length self.now.ready }
    {
        self.order.len() - self.handed_up
    }

    /// Returns the first delivery that was handed up and answers the question with yes.
    fn find_handed_up(&self, question: Question) -> Option<&OpenDelivery<A>>
        ensures { option_map (λ d. delivery_of d.now) result ≡ find (asks_of question) self.now.awaiting }
    {
        places::find(&self.slab, &self.order[..self.handed_up], question)
    }

    /// Returns the first ready delivery that answers the question with yes.
    fn find_ready(&self, question: Question) -> Option<&OpenDelivery<A>>
        ensures { option_map (λ d. delivery_of d.now) result ≡ find (asks_of question) self.now.ready }
    {
        places::find(&self.slab, &self.order[self.handed_up..], question)
    }

    /// Returns whether there is an unfinished delivery and it answers the question with yes.
    fn is_unfinished(&self, question: Question) -> bool
        ensures { result ≡ list_any (asks_of question) (option_to_list self.now.unfinished) }
    {
        match self.unfinished() {
            None => false,
            Some(delivery) => delivery.answers(question),
        }
    }

    /// Returns whether a delivery that was not handed up answers the question with yes.
    fn is_untaken(&self, question: Question) -> bool
        ensures { result ≡ list_any (asks_of question) (untaken self.now) }
    {
        self.find_ready(question).is_some() || self.is_unfinished(question)
    }

    /// Returns whether an open delivery has this id.
    pub fn has_id(&self, id: u32) -> bool
        ensures { result ≡ list_any (has_id id) (in_order self.now) }
    {
        let question = Question::HasId(id);
        self.find_handed_up(question).is_some() || self.is_untaken(question)
    }

    /// Returns how the delivery with this id stands as to its settlement by the receiver.
    pub fn standing(&self, id: u32) -> Standing
        ensures { result ≡ standing_of id self.now }
    {
        let question = Question::HasId(id);
        if self.is_untaken(question) {
            return Standing::Untaken;
        }
        match self.find_handed_up(question) {
            None => Standing::Absent,
            Some(delivery) => delivery.standing(),
        }
    }

    /// Returns whether an open delivery that was not handed up has one of these ids.
    pub fn names_untaken(&self, ids: Ids) -> bool
        ensures { result ≡ names_untaken ids.first ids.last self.now }
    {
        self.is_untaken(Question::IsCovered(ids))
    }

    /// Returns whether one of these ids belongs to a delivery in mode second whose outcome the sender was told.
    pub fn names_told(&self, ids: Ids) -> bool
        ensures { result ≡ names_told ids.first ids.last self.now }
    {
        self.find_handed_up(Question::IsTold(ids)).is_some()
    }

    /// Returns the key that the next delivery will have.
    pub fn next_key(&self) -> usize {
        self.slab.vacant_key()
    }

    /// Returns how the delivery with this id stands, looking under this key first. At most one open delivery
    /// may have the id.
    pub fn standing_at(&self, key: usize, id: u32) -> Standing
        requires { IsOnce id id self.now }
        ensures { result ≡ standing_of id self.now }
    {
        match places::look(
            &self.slab,
            &self.order,
            self.handed_up,
            self.unfinished,
            key,
            id,
        ) {
            Found::HandedUp(_) => self.slab[key].standing(),
            Found::Ready(_) => Standing::Untaken,
            Found::Unfinished => Standing::Untaken,
            Found::Unknown => self.standing(id),
        }
    }

    /// Settles the delivery with this id for the receiver, or tells of it, if it awaits that. Looks under this
    /// key first. At most one open delivery may have the id. Returns how the delivery stood; if it did not
    /// await a settle, nothing has changed.
    pub fn settle_at(&mut self, key: usize, id: u32) -> Standing
        requires { IsOnce id id self.old }
        ensures standing { result ≡ standing_of id self.old }
        ensures new { IsAwaiting result → self.new ≡ receiver_settled_in id id self.old }
        ensures same { ¬ (IsAwaiting result) → self.new ≡ self.old }
    {
        match places::look(
            &self.slab,
            &self.order,
            self.handed_up,
            self.unfinished,
            key,
            id,
        ) {
            Found::HandedUp(place) => {
                let delivery = &self.slab[key];
                if delivery.told {
                    return Standing::Told;
                }
                let mode = delivery.rcv_settle_mode;
                let settling = Settling {
                    settler: Settler::Receiver,
                    ids: Ids {
                        first: id,
                        last: id,
                    },
                };
                let settled = places::settle_at(&mut self.slab, &mut self.order[place], settling);
                self.bytes -= settled.freed;
                places::close_up(&mut self.slab, &mut self.order, &mut self.handed_up);
                Standing::Awaiting(mode)
            }
            Found::Ready(_) => Standing::Untaken,
            Found::Unfinished => Standing::Untaken,
            Found::Unknown => self.settle_anywhere(id),
        }
    }

    /// Settles the delivery with this id by a search of all. [`OpenDeliveries::settle_at`] calls this if one
    /// look under the key found nothing.
    #[inline(never)]
    fn settle_anywhere(&mut self, id: u32) -> Standing
        ensures standing { result ≡ standing_of id self.old }
        ensures new { IsAwaiting result → self.new ≡ receiver_settled_in id id self.old }
        ensures same { ¬ (IsAwaiting result) → self.new ≡ self.old }
    {
        let standing = self.standing(id);
        if let Standing::Awaiting(_) = standing {
            self.settle_by_receiver(Ids {
                first: id,
                last: id,
            });
        }
        standing
    }

    /// Settles the delivery with this id for the sender, looking under this key first. At most one open
    /// delivery may have the id. Returns how many deliveries it settles that were not settled.
    pub fn peer_settled_at(&mut self, key: usize, id: u32) -> usize
        requires { IsOnce id id self.old }
        ensures count { result ≡ newly_settled id id self.old }
        ensures new { self.new ≡ sender_settled_in id id self.old }
    {
        let ids = Ids {
            first: id,
            last: id,
        };
        match places::look(
            &self.slab,
            &self.order,
            self.handed_up,
            self.unfinished,
            key,
            id,
        ) {
            Found::HandedUp(place) => {
                let settling = Settling {
                    settler: Settler::SenderOfHandedUp,
                    ids,
                };
                let settled = places::settle_at(&mut self.slab, &mut self.order[place], settling);
                self.bytes -= settled.freed;
                places::close_up(&mut self.slab, &mut self.order, &mut self.handed_up);
                settled.count
            }
            Found::Ready(_) => {
                let settling = Settling {
                    settler: Settler::SenderOfUntaken,
                    ids,
                };
                places::settle_at(&mut self.slab, &mut Some(key), settling).count
            }
            Found::Unfinished => self.settle_unfinished(ids),
            Found::Unknown => self.settle_by_sender(ids),
        }
    }

    /// Settles the deliveries with these ids that were handed up, or tells of them, for the receiver. Returns
    /// how many have one of the ids.
    pub fn settle_by_receiver(&mut self, ids: Ids) -> usize
        ensures count { result ≡ named_count ids.first ids.last self.old }
        ensures new { self.new ≡ receiver_settled_in ids.first ids.last self.old }
    {
        let settling = Settling {
            settler: Settler::Receiver,
            ids,
        };
        self.settle_handed_up(settling)
    }

    /// Settles the deliveries with these ids for the sender. Returns how many it settles that were not settled.
    pub fn settle_by_sender(&mut self, ids: Ids) -> usize
        ensures count { result ≡ newly_settled ids.first ids.last self.old }
        ensures new { self.new ≡ sender_settled_in ids.first ids.last self.old }
    {
        let settling = Settling {
            settler: Settler::SenderOfHandedUp,
            ids,
        };
        let handed_up = self.settle_handed_up(settling);
        handed_up + self.settle_ready(ids) + self.settle_unfinished(ids)
    }

    /// Settles deliveries that were handed up. Returns how many the settle counts.
    fn settle_handed_up(&mut self, settling: Settling) -> usize
        ensures count { result ≡ count_by (counts settling) self.old.awaiting }
        ensures new { self.new ≡ record self.old { awaiting = settled_list settling self.old.awaiting } }
        ensures fits { how_many self.old < 2 ^ 63 }
    {
        let handed_up = self.order.slice_mut(..self.handed_up);
        let settled = places::settle(&mut self.slab, handed_up, settling);
        self.bytes -= settled.freed;
        places::close_up(&mut self.slab, &mut self.order, &mut self.handed_up);
        settled.count
    }

    /// Settles the ready deliveries with these ids for the sender; they stay open. Returns how many of them
    /// were not settled.
    fn settle_ready(&mut self, ids: Ids) -> usize
        ensures count { result ≡ count_by (λ d. not d.settled && is_covered ids.first ids.last d) self.old.ready }
        ensures new { self.new ≡ record self.old { ready = map (sender_settled_by ids.first ids.last) self.old.ready } }
    {
        let ready = self.order.slice_mut(self.handed_up..);
        let settling = Settling {
            settler: Settler::SenderOfUntaken,
            ids,
        };
        places::settle(&mut self.slab, ready, settling).count
    }

    /// Settles the unfinished delivery for the sender, if it has one of these ids; it stays open. Returns 1 if
    /// that settles it anew, else 0.
    fn settle_unfinished(&mut self, ids: Ids) -> usize
        ensures count { result ≡ count_by (λ d. not d.settled && is_covered ids.first ids.last d) (option_to_list self.old.unfinished) }
        ensures new { self.new ≡ record self.old { unfinished = option_map (sender_settled_by ids.first ids.last) self.old.unfinished } }
    {
        let settling = Settling {
            settler: Settler::SenderOfUntaken,
            ids,
        };
        places::settle_at(&mut self.slab, &mut self.unfinished, settling).count
    }
}

/// Returns the delivery that a transfer begins, with these bytes as its message and this place as its hint.
fn begun<A: Allocator + Copy>(
    terms: &Terms,
    transfer: &Transfer<'_>,
    message: Message<A>,
    place: usize,
) -> OpenDelivery<A>
    requires tag { IfSome transfer.now.delivery_tag (λ tag. length tag.now ≤ 32) }
    requires whole { IsFalse transfer.now.aborted }
    ensures { delivery_of result ≡ spec.begun terms.now (sent_of transfer.now message) }
{
    let settled = is_settled(transfer);
    let rcv_settle_mode = match transfer.rcv_settle_mode {
        Some(mode) if !settled => mode,
        _ => terms.rcv_settle_mode,
    };
    OpenDelivery {
        delivery_id: transfer.delivery_id.unwrap_or(0),
        delivery_tag: Tag::new(transfer.delivery_tag.unwrap_or(&[])),
        message_format: transfer.message_format.unwrap_or(0),
        rcv_settle_mode,
        settled,
        told: false,
        message,
        place,
    }
}
