//! The endpoint: the deliveries that came, and plain counts.

use crate::naive::sizes::{
    ABSENT, BYTE, EMPTY, UBYTE, USHORT, described, flag, frame, text, uint, ulong,
};
use crate::naive::way::Way;
use crate::naive::{OfLink, Reply, Sent};
use crate::schedule::Settings;
use amqp_endpoint::{CallFault, Event, Outcome};
use amqp_perform::Outcome as Settlement;
use std::alloc::{AllocError, Global};
use std::mem;

/// The room without which a frame waits, and a call that writes is refused.
const ROOM: usize = 2560;

/// The widest window [2.5.6].
const WIDEST: u64 = 0x7fff_ffff;

/// The container-id and the link's name have one byte each.
const NAME: usize = 1;

/// A message with the id of its delivery.
pub type Handed = (u32, Vec<u8>);

/// A delivery, until it is settled.
#[derive(Drop)]
struct Delivery {
    id: u32,
    message: Vec<u8>,
    is_whole: bool,
    is_taken: bool,
}

#[derive(Drop)]
pub struct Endpoint {
    alloc: Global,
    settings: Settings,
    /// A session has begun, and a link was attached.
    has_session: bool,
    has_link: bool,
    window: u64,
    /// The next-incoming-id [2.5.6].
    transfers: u64,
    credit: u64,
    /// The delivery-count [2.6.7].
    count: u64,
    drains: bool,
    open: Vec<Delivery>,
    /// How many messages came whole that are as long as they may be.
    pub longest: u64,
}

impl Endpoint {
    pub fn new(alloc: Global, settings: Settings) -> Endpoint {
        Endpoint {
            alloc,
            settings,
            has_session: false,
            has_link: false,
            window: u64::from(settings.window),
            transfers: 0,
            credit: 0,
            count: 0,
            drains: false,
            open: Vec::new(alloc),
            longest: 0,
        }
    }

    /// Returns whether a session lives whose window has no place.
    pub fn has_no_place(&self) -> bool {
        self.has_session && self.window == 0
    }

    /// Takes what it is fed, and acts upon it if there is room for an answer.
    pub fn feed(
        &mut self,
        from: &mut Way<Sent<'_>>,
        way: &mut Way<Reply>,
    ) -> Result<(usize, Outcome), AllocError> {
        let used = from.feed();
        let Some(sent) = from.waiting() else {
            return Ok((used, Outcome::More));
        };
        if way.room() < ROOM {
            return Ok((used, Outcome::Blocked));
        }
        from.pass();
        Ok((used, self.hear(sent, way)?))
    }

    fn hear(&mut self, sent: Sent<'_>, way: &mut Way<Reply>) -> Result<Outcome, AllocError> {
        let (channel, handle) = (0, 0);
        let event = match sent {
            Sent::Header => {
                way.write(Reply::Header, 8)?;
                return Ok(Outcome::More);
            }
            Sent::Open => {
                let max_frame = u64::from(self.settings.max_frame);
                let open = [text(NAME), ABSENT, uint(max_frame), USHORT];
                way.write(Reply::Open { max_frame }, frame(&open))?;
                Event::Opened
            }
            Sent::Begin => {
                let window = self.window;
                let begin = [USHORT, BYTE, uint(window), BYTE, BYTE];
                way.write(Reply::Begin { window }, frame(&begin))?;
                self.has_session = true;
                Event::Begun { channel }
            }
            Sent::Attach => {
                way.write(Reply::Attach, frame(&self.attach()))?;
                self.has_link = true;
                Event::Attached { channel, handle }
            }
            Sent::Transfer { id, payload, more } => {
                self.transfer(id, payload, !more)?;
                if more {
                    Event::Unfinished { channel, handle }
                } else {
                    Event::Ready { channel, handle }
                }
            }
            Sent::Flow { transfers, count } => {
                self.transfers = transfers;
                let ahead = count.saturating_sub(self.count);
                self.count = self.count.saturating_add(ahead);
                self.credit = self.credit.saturating_sub(ahead);
                if !self.drains || self.credit > 0 {
                    return Ok(Outcome::More);
                }
                self.drains = false;
                Event::Drained { channel, handle }
            }
        };
        Ok(Outcome::Event(event))
    }

    /// The fields of the answer to the attach: the name, the handle, the role, both modes, source, target, and how long a message
    /// may be.
    fn attach(&self) -> [usize; 11] {
        [
            text(NAME),
            BYTE,
            BYTE,
            UBYTE,
            ABSENT,
            EMPTY,
            EMPTY,
            ABSENT,
            ABSENT,
            ABSENT,
            ulong(u64::from(self.settings.max_message)),
        ]
    }

    fn transfer(
        &mut self,
        id: Option<u32>,
        payload: &[u8],
        is_last: bool,
    ) -> Result<(), AllocError> {
        self.window = self.window.saturating_sub(1);
        self.transfers = self.transfers.saturating_add(1);
        if let Some(id) = id {
            self.credit = self.credit.saturating_sub(1);
            self.count = self.count.saturating_add(1);
            self.open.push(Delivery {
                id,
                message: Vec::new(self.alloc),
                is_whole: false,
                is_taken: false,
            })?;
        }
        if let Some(delivery) = self.open.last_mut() {
            delivery.message.extend_from_slice(payload)?;
            delivery.is_whole = is_last;
            if is_last && delivery.message.len() == self.settings.max_message as usize {
                self.longest = self.longest.saturating_add(1);
            }
        }
        Ok(())
    }

    /// Returns why a call for the link is refused, whatever it asks.
    fn no_link(&self) -> Option<CallFault> {
        match (self.has_session, self.has_link) {
            (false, _) => Some(CallFault::NoSession),
            (_, false) => Some(CallFault::NoLink),
            _ => None,
        }
    }

    pub fn grant(&mut self, n: u32, way: &mut Way<Reply>) -> Result<Option<CallFault>, AllocError> {
        if let Some(fault) = self.no_link() {
            return Ok(Some(fault));
        }
        let credit = self.credit.saturating_add(u64::from(n));
        let open = self.open.len() as u64;
        if credit.saturating_add(open) > u64::from(self.settings.allowed) {
            return Ok(Some(CallFault::TooMuchCredit));
        }
        if way.room() < ROOM {
            return Ok(Some(CallFault::Full));
        }
        self.credit = credit;
        self.drains = false;
        self.flow_of_link(way)?;
        Ok(None)
    }

    pub fn widen(&mut self, n: u32, way: &mut Way<Reply>) -> Result<Option<CallFault>, AllocError> {
        if !self.has_session {
            return Ok(Some(CallFault::NoSession));
        }
        let window = self.window.saturating_add(u64::from(n));
        if window > WIDEST {
            return Ok(Some(CallFault::WindowTooWide));
        }
        if way.room() < ROOM {
            return Ok(Some(CallFault::Full));
        }
        self.window = window;
        self.flow_of_session(way)?;
        Ok(None)
    }

    pub fn drain(&mut self, way: &mut Way<Reply>) -> Result<Option<CallFault>, AllocError> {
        if let Some(fault) = self.no_link() {
            return Ok(Some(fault));
        }
        if way.room() < ROOM {
            return Ok(Some(CallFault::Full));
        }
        self.drains = true;
        self.flow_of_link(way)?;
        Ok(None)
    }

    /// Hands up the first message that is whole and was not taken.
    pub fn take(&mut self) -> Result<Handed, CallFault> {
        if let Some(fault) = self.no_link() {
            return Err(fault);
        }
        for delivery in self.open.iter_mut() {
            if delivery.is_whole && !delivery.is_taken {
                delivery.is_taken = true;
                let message = mem::replace(&mut delivery.message, Vec::new(self.alloc));
                return Ok((delivery.id, message));
            }
        }
        Err(CallFault::NothingReady)
    }

    pub fn settle(
        &mut self,
        id: u32,
        outcome: Settlement,
        way: &mut Way<Reply>,
    ) -> Result<Option<CallFault>, AllocError> {
        if !self.has_session {
            return Ok(Some(CallFault::NoSession));
        }
        let Some(delivery) = self.open.iter().find(|delivery| delivery.id == id) else {
            return Ok(Some(CallFault::NoDelivery));
        };
        if !delivery.is_taken {
            return Ok(Some(CallFault::NotTaken));
        }
        if way.room() < ROOM {
            return Ok(Some(CallFault::Full));
        }
        self.open.retain(|delivery| delivery.id != id);
        let fields = [BYTE, uint(u64::from(id)), ABSENT, BYTE, state(outcome)];
        way.write(Reply::Disposition { id, outcome }, frame(&fields))?;
        Ok(None)
    }

    fn flow_of_session(&mut self, way: &mut Way<Reply>) -> Result<(), AllocError> {
        let fields = [uint(self.transfers), uint(self.window), BYTE, BYTE];
        let says = Reply::Flow {
            most_transfers: self.transfers.saturating_add(self.window),
            of_link: None,
        };
        way.write(says, frame(&fields))
    }

    fn flow_of_link(&mut self, way: &mut Way<Reply>) -> Result<(), AllocError> {
        let fields = [
            uint(self.transfers),
            uint(self.window),
            BYTE,
            BYTE,
            BYTE,
            uint(self.count),
            uint(self.credit),
            ABSENT,
            flag(self.drains),
        ];
        let says = Reply::Flow {
            most_transfers: self.transfers.saturating_add(self.window),
            of_link: Some(OfLink {
                most_count: self.count.saturating_add(self.credit),
                drain: self.drains,
            }),
        };
        way.write(says, frame(&fields))
    }
}

/// Returns how long an outcome is [3.4].
fn state(outcome: Settlement) -> usize {
    match outcome {
        Settlement::Modified {
            failed,
            undeliverable,
        } => described(&[flag(failed), flag(undeliverable)]),
        Settlement::Accepted | Settlement::Rejected | Settlement::Released => EMPTY,
    }
}
