//! Calls of the application.

use crate::model::delivery::{Delivery, covers};
use crate::model::history::{Life, NONE, What};
use crate::model::{Model, Session, Stage, low};
use amqp_endpoint::CallFault;
use amqp_perform::Outcome as Settlement;
use std::alloc::AllocError;

/// The answer to a call: a fault is no want of memory.
pub type Answer<T> = Result<Result<T, CallFault>, AllocError>;

/// A message that was handed up.
#[derive(Debug, Drop)]
pub struct Handed {
    pub id: u32,
    pub tag: Vec<u8>,
    pub format: u32,
    pub settled: bool,
    pub message: Vec<u8>,
}

impl Model {
    /// The live session on a channel.
    fn asked_session(&self, channel: u16) -> Result<Session, CallFault> {
        if self.stage == Stage::Closing || self.stage == Stage::Dead {
            return Err(CallFault::Dead);
        }
        match self.session(channel) {
            Some(session) if session.is_live => Ok(session),
            _ => Err(CallFault::NoSession),
        }
    }

    /// The live link at a handle.
    fn asked_link(&self, channel: u16, handle: u32) -> Result<(Session, Life), CallFault> {
        let session = self.asked_session(channel)?;
        match self.link(session, handle) {
            Some(link) if link.is_live => Ok((session, link.life)),
            _ => Err(CallFault::NoLink),
        }
    }

    pub fn grant(&mut self, channel: u16, handle: u32, n: u32) -> Answer<()> {
        let (session, life) = match self.asked_link(channel, handle) {
            Ok(found) => found,
            Err(fault) => return Ok(Err(fault)),
        };
        let open = self.open_deliveries(life)?.len() as u64;
        let wanted = self
            .history
            .credit(life.link)
            .saturating_add(open)
            .saturating_add(u64::from(n));
        if wanted > u64::from(self.settings.allowed) {
            return Ok(Err(CallFault::TooMuchCredit));
        }
        if !self.has_room() {
            return Ok(Err(CallFault::Full));
        }
        self.record(session.life, life.link, What::Granted(n))?;
        self.write_link_flow(session, handle, life)?;
        Ok(Ok(()))
    }

    pub fn widen(&mut self, channel: u16, n: u32) -> Answer<()> {
        let session = match self.asked_session(channel) {
            Ok(session) => session,
            Err(fault) => return Ok(Err(fault)),
        };
        if self.window(session).saturating_add(u64::from(n)) >= 1 << 31 {
            return Ok(Err(CallFault::WindowTooWide));
        }
        if !self.has_room() {
            return Ok(Err(CallFault::Full));
        }
        self.record(session.life, crate::model::history::NONE, What::Widened(n))?;
        self.write_session_flow(session)?;
        Ok(Ok(()))
    }

    pub fn drain(&mut self, channel: u16, handle: u32) -> Answer<()> {
        let (session, life) = match self.asked_link(channel, handle) {
            Ok(found) => found,
            Err(fault) => return Ok(Err(fault)),
        };
        if !self.has_room() {
            return Ok(Err(CallFault::Full));
        }
        self.record(session.life, life.link, What::Drained)?;
        self.write_link_flow(session, handle, life)?;
        Ok(Ok(()))
    }

    pub fn take(&mut self, channel: u16, handle: u32) -> Answer<Handed> {
        let (session, life) = match self.asked_link(channel, handle) {
            Ok(found) => found,
            Err(fault) => return Ok(Err(fault)),
        };
        let deliveries = self.history.deliveries(self.alloc, life)?;
        let Some(delivery) = deliveries
            .iter()
            .find(|delivery| delivery.is_ready())
            .copied()
        else {
            return Ok(Err(CallFault::NothingReady));
        };
        let message = self.history.message(self.alloc, life.link, delivery)?;
        let mut tag = Vec::new(self.alloc);
        let mut format = 0;
        if let Some(head) = self.history.head(delivery) {
            format = head.format.unwrap_or(0);
            if let Some(bytes) = &head.tag {
                tag.extend_from_slice(bytes)?;
            }
        }
        self.record(session.life, life.link, What::Taken)?;
        Ok(Ok(Handed {
            id: delivery.id,
            tag,
            format,
            settled: delivery.is_settled,
            message,
        }))
    }

    pub fn settle(&mut self, channel: u16, id: u32, outcome: Settlement) -> Answer<()> {
        let session = match self.asked_session(channel) {
            Ok(session) => session,
            Err(fault) => return Ok(Err(fault)),
        };
        let fault = match self.open_delivery(session, id)? {
            None => Some(CallFault::NoDelivery),
            Some((false, _, _)) => Some(CallFault::NotTaken),
            Some((true, true, _)) => Some(CallFault::AlreadyTold),
            Some((true, false, _)) if !self.has_room() => Some(CallFault::Full),
            Some((true, false, is_second)) => {
                self.write_disposition(channel, (id, id), !is_second, outcome)?;
                self.record(session.life, NONE, What::Settled(id))?;
                None
            }
        };
        Ok(match fault {
            Some(fault) => Err(fault),
            None => Ok(()),
        })
    }

    /// Returns whether the open delivery of a session with this id was taken, was told, and is of mode second.
    fn open_delivery(
        &self,
        session: Session,
        id: u32,
    ) -> Result<Option<(bool, bool, bool)>, AllocError> {
        for link in self.links.iter() {
            if link.is_live && link.life.session == session.life {
                for delivery in self.open_deliveries(link.life)?.iter() {
                    if delivery.id == id {
                        return Ok(Some((delivery.is_taken, delivery.is_told, delivery.is_second)));
                    }
                }
            }
        }
        Ok(None)
    }

    pub fn settle_range(
        &mut self,
        channel: u16,
        (first, last): (u32, u32),
        outcome: Settlement,
    ) -> Answer<u32> {
        let session = match self.asked_session(channel) {
            Ok(session) => session,
            Err(fault) => return Ok(Err(fault)),
        };
        let named = self.open_within(session, first, last)?;
        if let Some(fault) = self.range_fault(&named, first, last) {
            return Ok(Err(fault));
        }
        let is_second = named.iter().any(|delivery| delivery.is_second);
        self.write_disposition(channel, (first, last), !is_second, outcome)?;
        for delivery in named.iter() {
            self.record(session.life, NONE, What::Settled(delivery.id))?;
        }
        Ok(Ok(low(named.len() as u64)))
    }

    /// Returns why the settlement of a range that names these is refused.
    fn range_fault(&self, named: &[Delivery], first: u32, last: u32) -> Option<CallFault> {
        let has = |id: u32| named.iter().any(|delivery| delivery.id == id);
        if !has(first) || !has(last) {
            return Some(CallFault::NoDelivery);
        }
        if named.iter().any(|delivery| !delivery.is_taken) {
            return Some(CallFault::NotTaken);
        }
        if named.iter().any(|delivery| delivery.is_told) {
            return Some(CallFault::AlreadyTold);
        }
        let seconds = named.iter().filter(|delivery| delivery.is_second).count();
        if seconds != 0 && seconds != named.len() {
            return Some(CallFault::MixedModes);
        }
        if self.has_room() {
            None
        } else {
            Some(CallFault::Full)
        }
    }

    /// Returns the open deliveries of a session whose ids a range covers.
    fn open_within(
        &self,
        session: Session,
        first: u32,
        last: u32,
    ) -> Result<Vec<Delivery>, AllocError> {
        let mut within = Vec::new(self.alloc);
        for link in self.links.iter() {
            if link.is_live && link.life.session == session.life {
                for delivery in self.open_deliveries(link.life)?.iter() {
                    if covers(first, last, delivery.id) {
                        within.push(*delivery)?;
                    }
                }
            }
        }
        Ok(within)
    }

    /// Returns the ids of two open deliveries of a session that were taken, on its first and its last link that
    /// has one.
    pub fn taken_ends(&self, session: Session) -> Result<Option<(u32, u32)>, AllocError> {
        let mut ends: Option<(u32, u32)> = None;
        for link in self.links.iter() {
            if link.is_live && link.life.session == session.life {
                for delivery in self.open_deliveries(link.life)?.iter() {
                    if delivery.is_taken {
                        let (first, _) = ends.unwrap_or((delivery.id, delivery.id));
                        ends = Some((first, delivery.id));
                    }
                }
            }
        }
        Ok(match ends {
            Some((one, other)) if !covers(one, other, other) => Some((other, one)),
            _ => ends,
        })
    }

    pub fn detach(&mut self, channel: u16, handle: u32) -> Answer<u32> {
        let (session, life) = match self.asked_link(channel, handle) {
            Ok(found) => found,
            Err(fault) => return Ok(Err(fault)),
        };
        if !self.has_room() {
            return Ok(Err(CallFault::Full));
        }
        let dropped = self.ready(life)?;
        self.write_detach(session.channel, handle, true, &[])?;
        self.end_link(life.link);
        Ok(Ok(dropped))
    }

    pub fn close(&mut self) -> Answer<u32> {
        if let Err(fault) = self.asked_open() {
            return Ok(Err(fault));
        }
        let dropped = self.ready_in_all()?;
        self.write_close(&[])?;
        self.sessions.clear();
        self.links.clear();
        self.stage = Stage::Closing;
        Ok(Ok(dropped))
    }

    pub fn heartbeat(&mut self) -> Answer<()> {
        if let Err(fault) = self.asked_open() {
            return Ok(Err(fault));
        }
        self.write_empty()?;
        Ok(Ok(()))
    }

    /// Returns why a close or a heartbeat is refused.
    fn asked_open(&self) -> Result<(), CallFault> {
        match self.stage {
            Stage::Closing | Stage::Dead => Err(CallFault::Dead),
            Stage::Header | Stage::Opening => Err(CallFault::NotOpen),
            Stage::Open if !self.has_room() => Err(CallFault::Full),
            Stage::Open => Ok(()),
        }
    }
}
