//! What is held of one open delivery, and what a settle does to it.
ghost use Rattle.std.specs.Prelude.{◌≡◌, ◌||◌, ◌++◌, [], not, OnOk, OnErr, IsOk, Some};
ghost use Rattle.amqp_link.specs.Links.{delivery_bytes, is_first, standing_at};
ghost use Rattle.amqp_link.specs.HandedUps.{IsHandedUp};
ghost use Rattle.amqp_link.specs.Keeping.{delivery_of, asks_of, ends, turned, counts};

use crate::link::Taken;
use crate::message::Message;
use crate::settlement::Standing;
use crate::tag::Tag;
use amqp_perform::ReceiverSettleMode;
use amqp_serial::Serial;
use std::alloc::{AllocError, Allocator, Global};
use std::mem;

/// What is held of an open delivery.
#[derive(Drop)]
pub struct OpenDelivery<A: Allocator + Copy = Global> {
    pub delivery_id: u32,
    pub delivery_tag: Tag,
    pub message_format: u32,
    pub rcv_settle_mode: ReceiverSettleMode,
    /// The sender has settled it.
    pub settled: bool,
    /// The sender was told what became of it.
    pub told: bool,
    pub message: Message<A>,
    /// The place of its key in link order when that was last noted: only a hint.
    pub place: usize,
}

/// Ids from `first` to `last` in serial-number order; none if `last` is before `first` [2.7.6].
#[derive(Clone, Copy)]
pub struct Ids {
    pub first: u32,
    pub last: u32,
}

/// A question about a delivery.
#[derive(Clone, Copy)]
pub enum Question {
    /// It has this id.
    HasId(u32),
    /// It has one of these ids.
    IsCovered(Ids),
    /// It has one of these ids, is in mode second, and the sender was told what became of it.
    IsTold(Ids),
}

/// Who settles a delivery, and whether it was handed up.
#[derive(Clone, Copy)]
pub enum Settler {
    /// The receiver settles a delivery that was handed up.
    Receiver,
    /// The sender settles a delivery that was handed up.
    SenderOfHandedUp,
    /// The sender settles a delivery that was not handed up.
    SenderOfUntaken,
}

/// A settle of some ids.
#[derive(Clone, Copy)]
pub struct Settling {
    pub settler: Settler,
    pub ids: Ids,
}

impl<A: Allocator + Copy> OpenDelivery<A> {
    /// Returns the bytes held for the delivery. The pattern names all fields, so that a new one
    /// must be listed here.
    pub fn bytes(&self) -> u64
        ensures { result ≡ delivery_bytes (delivery_of self.now) }
    {
        let OpenDelivery {
            delivery_id: _,
            delivery_tag,
            message_format: _,
            rcv_settle_mode: _,
            settled: _,
            told: _,
            message,
            place: _,
        } = self;
        64 + delivery_tag.as_bytes().len() as u64 + message.size()
    }

    /// Adds one more transfer. If memory is refused, nothing has changed. An empty payload needs
    /// none.
    pub fn extend(&mut self, settled: bool, payload: &[u8]) -> Result<(), AllocError>
        ensures ok { OnOk result (delivery_of self.new ≡ record (delivery_of self.old) { settled = self.old.settled || settled; message = self.old.message ++ payload.now }) }
        ensures err { OnErr result (delivery_of self.new ≡ delivery_of self.old) }
        ensures empty { payload.now ≡ [] → IsOk result }
    {
        self.message.extend(payload)?;
        self.settled = self.settled || settled;
        Ok(())
    }

    /// Hands up the delivery: its message is moved out, and none is left.
    // Inlined for `telemetry` and `gateway` (docs/PERF.md).
    #[inline(always)]
    pub fn hand_up(&mut self, alloc: A) -> Taken<A>
        ensures taken { IsHandedUp result (delivery_of self.old) }
        ensures left { delivery_of self.new ≡ record (delivery_of self.old) { message = [] } }
    {
        Taken {
            delivery_id: self.delivery_id,
            delivery_tag: self.delivery_tag,
            message_format: self.message_format,
            settled: self.settled,
            message: mem::replace(&mut self.message, Message::new(alloc)),
        }
    }

    /// Notes the delivery's place, which is only a hint.
    pub fn stands_at(&mut self, place: usize)
        ensures { delivery_of self.new ≡ delivery_of self.old }
    {
        self.place = place;
    }

    /// Returns how the delivery stands if it was handed up.
    pub fn standing(&self) -> Standing
        ensures { result ≡ standing_at (Some (delivery_of self.now)) }
    {
        if self.told {
            Standing::Told
        } else {
            Standing::Awaiting(self.rcv_settle_mode)
        }
    }

    /// Returns whether the delivery has one of the ids.
    fn is_covered(&self, ids: Ids) -> bool
        ensures { result ≡ asks_of (Question.IsCovered ids) (delivery_of self.now) }
    {
        Serial(self.delivery_id).in_range(Serial(ids.first), Serial(ids.last))
    }

    /// Returns the delivery's answer to the question.
    pub fn answers(&self, question: Question) -> bool
        ensures { result ≡ asks_of question (delivery_of self.now) }
    {
        match question {
            Question::HasId(id) => self.delivery_id == id,
            Question::IsCovered(ids) => self.is_covered(ids),
            Question::IsTold(ids) => self.is_second() && self.is_covered(ids) && self.told,
        }
    }

    /// Returns whether the delivery is in mode second [2.8.3].
    fn is_second(&self) -> bool
        ensures { result ≡ not (is_first self.now.rcv_settle_mode) }
    {
        matches!(self.rcv_settle_mode, ReceiverSettleMode::Second)
    }

    /// Returns whether a settle counts the delivery.
    pub fn counts(&self, settling: Settling) -> bool
        ensures { result ≡ counts settling (delivery_of self.now) }
    {
        match settling.settler {
            Settler::Receiver => self.is_covered(settling.ids),
            _ => !self.settled && self.is_covered(settling.ids),
        }
    }

    /// Returns whether the delivery is open no longer after a settle.
    pub fn ends(&self, settling: Settling) -> bool
        ensures { result ≡ ends settling (delivery_of self.now) }
    {
        match settling.settler {
            Settler::Receiver => !self.is_second() && self.is_covered(settling.ids),
            Settler::SenderOfHandedUp => self.is_covered(settling.ids),
            Settler::SenderOfUntaken => false,
        }
    }

    /// Changes a delivery that stays open by a settle.
    pub fn settle(&mut self, settling: Settling)
        ensures { delivery_of self.new ≡ turned settling (delivery_of self.old) }
    {
        match settling.settler {
            Settler::Receiver => self.told |= self.is_second() && self.is_covered(settling.ids),
            Settler::SenderOfHandedUp => {}
            Settler::SenderOfUntaken => self.settled |= self.is_covered(settling.ids),
        }
    }
}
