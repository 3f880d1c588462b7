//! What happened, and sums and selections over all of it.

use crate::model::delivery::{Delivery, covers};
use crate::model::low;
use std::alloc::{AllocError, Global};

/// No life has this number.
pub const NONE: u32 = 0;

/// What happened in the life of a session, and of a link if it is that of one.
#[derive(Drop)]
pub struct Moment {
    pub session: u32,
    /// `NONE` also where a frame for a link was dropped or refused.
    pub link: u32,
    pub what: What,
}

#[derive(Drop)]
pub enum What {
    Begun { next_outgoing_id: u32 },
    Widened(u32),
    Sent(Part),
    Flowed { next_outgoing_id: u32, advance: u64 },
    Granted(u32),
    /// The sender was asked to use its credit up.
    Drained,
    Taken,
    /// The receiver named the delivery with this id.
    Settled(u32),
    /// The sender settled these ids.
    Disposed { first: u32, last: u32 },
}

/// A transfer.
#[derive(Drop)]
pub struct Part {
    pub id: Option<u32>,
    pub tag: Option<Vec<u8>>,
    pub format: Option<u32>,
    pub settled: bool,
    pub more: bool,
    /// Whether it names the mode second, if it names one.
    pub second: Option<bool>,
    pub aborted: bool,
    pub payload: Vec<u8>,
}

/// A link, as its sums want it.
#[derive(Clone, Copy)]
pub struct Life {
    pub session: u32,
    pub link: u32,
    pub is_second: bool,
    pub first_count: u32,
}

/// The whole history, oldest first.
#[derive(Drop)]
pub struct History {
    pub moments: Vec<Moment>,
}

/// Returns whether the transfer after this one of its link begins a delivery.
pub fn ends_delivery(before: Option<&Part>) -> bool {
    match before {
        Some(part) => !part.more || part.aborted,
        None => true,
    }
}

impl History {
    /// Returns the places that are left of a session's window, which opened with this many.
    pub fn window(&self, session: u32, opening: u32) -> u64 {
        let mut places = u64::from(opening);
        for moment in self.moments.iter() {
            if moment.session == session {
                match &moment.what {
                    What::Widened(n) => places = places.saturating_add(u64::from(*n)),
                    What::Sent(_) => places = places.saturating_sub(1),
                    _ => {}
                }
            }
        }
        places
    }

    /// Returns the last next-outgoing-id that the peer stated, and the transfers since.
    pub fn next_incoming_id(&self, session: u32) -> u32 {
        let mut next = 0_u32;
        for moment in self.moments.iter() {
            if moment.session == session {
                match &moment.what {
                    What::Begun { next_outgoing_id }
                    | What::Flowed {
                        next_outgoing_id,
                        ..
                    } => next = *next_outgoing_id,
                    What::Sent(_) => next = next.wrapping_add(1),
                    _ => {}
                }
            }
        }
        next
    }

    /// Returns the link's last transfer.
    pub fn last_part(&self, link: u32) -> Option<&Part> {
        let mut last = None;
        for moment in self.moments.iter() {
            if let What::Sent(part) = &moment.what {
                if moment.link == link {
                    last = Some(part);
                }
            }
        }
        last
    }

    /// Returns what was granted to a link, and what of it was used up by heads and by advances, in its first this
    /// many moments.
    fn used(&self, link: u32, moments: usize) -> (u64, u64) {
        let (mut granted, mut used) = (0_u64, 0_u64);
        let mut before = None;
        for moment in self.moments.iter().take(moments) {
            if moment.link == link {
                match &moment.what {
                    What::Granted(n) => granted = granted.saturating_add(u64::from(*n)),
                    What::Flowed { advance, .. } => used = used.saturating_add(*advance),
                    What::Sent(part) => {
                        used = used.saturating_add(u64::from(ends_delivery(before)));
                        before = Some(part);
                    }
                    _ => {}
                }
            }
        }
        (granted, used)
    }

    fn credit_after(&self, link: u32, moments: usize) -> u64 {
        let (granted, used) = self.used(link, moments);
        granted.saturating_sub(used)
    }

    pub fn credit(&self, link: u32) -> u64 {
        self.credit_after(link, self.moments.len())
    }

    /// Returns the delivery-count.
    pub fn count(&self, life: Life) -> u32 {
        let (_, used) = self.used(life.link, self.moments.len());
        life.first_count.wrapping_add(low(used))
    }

    /// Returns whether the sender was asked to use its credit up, and neither did so since nor was granted more.
    pub fn is_marked(&self, link: u32) -> bool {
        let mut is_marked = false;
        for (at, moment) in self.moments.iter().enumerate() {
            if moment.link == link {
                match &moment.what {
                    What::Drained => is_marked = true,
                    What::Granted(_) => is_marked = false,
                    What::Flowed { .. } if self.credit_after(link, at.saturating_add(1)) == 0 => {
                        is_marked = false;
                    }
                    _ => {}
                }
            }
        }
        is_marked
    }

    /// Returns all deliveries of a link, in order, as they stand.
    pub fn deliveries(&self, alloc: Global, life: Life) -> Result<Vec<Delivery>, AllocError> {
        let mut all = Vec::new(alloc);
        let mut before = None;
        for (at, moment) in self.moments.iter().enumerate() {
            if moment.session == life.session {
                match &moment.what {
                    What::Sent(part) if moment.link == life.link => {
                        if ends_delivery(before) {
                            all.push(Delivery::begun(at, part, life.is_second))?;
                        }
                        if let Some(delivery) = all.last_mut() {
                            delivery.go_on(at, part);
                        }
                        before = Some(part);
                    }
                    What::Taken if moment.link == life.link => take_first(&mut all),
                    What::Settled(id) => settle(&mut all, *id),
                    What::Disposed { first, last } => dispose(&mut all, *first, *last),
                    _ => {}
                }
            }
        }
        Ok(all)
    }

    /// Returns the transfer with which a delivery begins.
    pub fn head(&self, delivery: Delivery) -> Option<&Part> {
        match &self.moments.get(delivery.head)?.what {
            What::Sent(part) => Some(part),
            _ => None,
        }
    }

    /// Returns the payloads of a delivery of a link that are not aborted, joined.
    pub fn message(
        &self,
        alloc: Global,
        link: u32,
        delivery: Delivery,
    ) -> Result<Vec<u8>, AllocError> {
        let mut bytes = Vec::new(alloc);
        for (at, moment) in self.moments.iter().enumerate() {
            if let What::Sent(part) = &moment.what {
                let is_within = delivery.head <= at && at <= delivery.last;
                if is_within && moment.link == link && !part.aborted {
                    bytes.extend_from_slice(&part.payload)?;
                }
            }
        }
        Ok(bytes)
    }
}

/// The first one that is ready is taken.
fn take_first(all: &mut Vec<Delivery>) {
    for delivery in all.iter_mut() {
        if delivery.is_ready() {
            delivery.is_taken = true;
            break;
        }
    }
}

/// The receiver settles the open delivery with this id, or tells it in mode second.
fn settle(all: &mut Vec<Delivery>, id: u32) {
    for delivery in all.iter_mut() {
        if delivery.is_open() && delivery.id == id {
            if delivery.is_second {
                delivery.is_told = true;
            } else {
                delivery.is_settled = true;
            }
        }
    }
}

/// The sender settles the open deliveries with these ids.
fn dispose(all: &mut Vec<Delivery>, first: u32, last: u32) {
    for delivery in all.iter_mut() {
        if delivery.is_open() && covers(first, last, delivery.id) {
            delivery.is_settled = true;
        }
    }
}
