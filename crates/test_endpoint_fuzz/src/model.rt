//! A second, naive endpoint: it keeps the whole history, and each number that it needs is a sum or a selection over it.
//!
//! Bodies are read by `read_body` and answers are written by `write_frame`, which have tests of their own.

pub mod calls;
pub mod delivery;
mod frames;
pub mod history;
mod links;
mod replies;

use crate::model::delivery::Delivery;
use crate::model::history::{History, Life, Moment, What};
use amqp_endpoint::{End, Event, Fed, Outcome, Scope};
use amqp_frame::HEADER;
use amqp_perform::Condition;
use std::alloc::{AllocError, Global};
use std::mem;

/// The bytes that may wait to be sent, and how many of them a frame wants free.
const OUTPUT: u64 = 8192;

const ROOM: u64 = 2560;

/// What an endpoint is set up with.
#[derive(Clone, Copy, Debug)]
pub struct Settings {
    pub max_frame: u32,
    pub channel_max: u32,
    pub handle_max: u32,
    pub allowed: u32,
    pub max_message: u32,
    pub window: u32,
}

#[derive(Clone, Copy, Debug, PartialEq, Eq)]
pub enum Stage {
    /// The peer's header is to come.
    Header,
    /// Its open is.
    Opening,
    Open,
    /// This side has closed the connection.
    Closing,
    Dead,
}

/// A session that has begun, until the peer ends it.
#[derive(Clone, Copy)]
pub struct Session {
    pub channel: u16,
    pub life: u32,
    /// Until this side ends it.
    pub is_live: bool,
    pub handle_max: u32,
}

/// A link that was attached, until the peer detaches it.
#[derive(Drop)]
pub struct Link {
    pub handle: u32,
    pub life: Life,
    /// Until this side detaches it.
    pub is_live: bool,
    pub name: Vec<u8>,
    pub source: Vec<u8>,
    pub target: Vec<u8>,
}

/// What stands in the buffer.
#[derive(Clone, Copy, PartialEq, Eq)]
enum Unit {
    Unfinished,
    Header,
    Frame,
    /// The bytes begin no frame.
    Fault,
}

#[derive(Drop)]
pub struct Model {
    alloc: Global,
    pub settings: Settings,
    pub stage: Stage,
    has_failed: bool,
    is_closed: bool,
    has_written_open: bool,
    pub channel_limit: u16,
    peer_frame: u32,
    rest: Vec<u8>,
    unsent: Vec<u8>,
    pub history: History,
    pub sessions: Vec<Session>,
    pub links: Vec<Link>,
    /// The number of the last life.
    lives: u32,
}

impl Model {
    pub fn new(alloc: Global, settings: Settings) -> Model {
        Model {
            alloc,
            settings,
            stage: Stage::Header,
            has_failed: false,
            is_closed: false,
            has_written_open: false,
            channel_limit: 0,
            peer_frame: u32::MAX,
            rest: Vec::new(alloc),
            unsent: Vec::new(alloc),
            history: History {
                moments: Vec::new(alloc),
            },
            sessions: Vec::new(alloc),
            links: Vec::new(alloc),
            lives: 0,
        }
    }

    /// Takes bytes to the end of a unit at most, and acts upon it.
    pub fn feed(&mut self, piece: &[u8]) -> Result<Fed, AllocError> {
        if self.stage == Stage::Dead {
            return Ok(Fed {
                used: 0,
                outcome: Outcome::Dead,
            });
        }
        let before = self.rest.len();
        let mut rest = piece;
        for _ in 0..piece.len() {
            if self.unit() != Unit::Unfinished || rest.is_empty() {
                break;
            }
            let (taken, behind) = rest.split_at(self.wanted().min(rest.len()));
            self.rest.extend_from_slice(taken)?;
            rest = behind;
        }
        let used = self.rest.len().saturating_sub(before);
        let outcome = self.act()?;
        Ok(Fed { used, outcome })
    }

    /// Returns how many bytes there are up to the place where it is next looked at what they are.
    fn wanted(&self) -> usize {
        let len = self.rest.len();
        let end = match (self.stage, len) {
            (Stage::Header, _) | (_, 4..8) => 8,
            (_, 0..4) => 4,
            _ => number_at(&self.rest, 0, 4).unwrap_or(0) as usize,
        };
        end.saturating_sub(len)
    }

    /// Returns what the bytes in the buffer are.
    fn unit(&self) -> Unit {
        let len = self.rest.len() as u64;
        if self.stage == Stage::Header {
            return if len < 8 {
                Unit::Unfinished
            } else {
                Unit::Header
            };
        }
        let Some(size) = number_at(&self.rest, 0, 4) else {
            return Unit::Unfinished;
        };
        if size < 8 || size > u64::from(self.settings.max_frame) {
            return Unit::Fault;
        }
        let (Some(offset), Some(type_of_frame), true) = (
            number_at(&self.rest, 4, 1),
            number_at(&self.rest, 5, 1),
            len >= 8,
        ) else {
            return Unit::Unfinished;
        };
        if offset < 2 || offset.saturating_mul(4) > size || type_of_frame != 0 {
            Unit::Fault
        } else if len < size {
            Unit::Unfinished
        } else {
            Unit::Frame
        }
    }

    fn act(&mut self) -> Result<Outcome, AllocError> {
        let unit = self.unit();
        if unit == Unit::Unfinished {
            return Ok(Outcome::More);
        }
        if unit != Unit::Header && !self.has_room() {
            return Ok(Outcome::Blocked);
        }
        let bytes = mem::replace(&mut self.rest, Vec::new(self.alloc));
        match unit {
            Unit::Header => self.act_on_header(&bytes),
            Unit::Fault if self.stage == Stage::Closing => {
                self.stage = Stage::Dead;
                Ok(Outcome::Dead)
            }
            Unit::Fault => self.fail_dead(),
            _ => self.act_on_frame(&bytes),
        }
    }

    fn act_on_header(&mut self, bytes: &[u8]) -> Result<Outcome, AllocError> {
        self.unsent.extend_from_slice(&HEADER)?;
        if bytes == HEADER.as_slice() {
            self.stage = Stage::Opening;
            return Ok(Outcome::More);
        }
        self.stage = Stage::Dead;
        self.has_failed = true;
        Ok(Outcome::Dead)
    }

    /// Ends the connection at bytes that begin no frame.
    fn fail_dead(&mut self) -> Result<Outcome, AllocError> {
        let outcome = self.fail(Condition::FramingError)?;
        self.stage = Stage::Dead;
        Ok(outcome)
    }

    /// Ends the connection with an error.
    fn fail(&mut self, condition: Condition) -> Result<Outcome, AllocError> {
        let dropped = self.ready_in_all()?;
        if !self.has_written_open {
            self.write_open()?;
        }
        self.write_close(condition.span())?;
        self.has_failed = true;
        self.sessions.clear();
        self.links.clear();
        self.stage = Stage::Closing;
        Ok(Outcome::Event(Event::Failed {
            scope: Scope::Connection,
            condition,
            dropped,
        }))
    }

    fn has_room(&self) -> bool {
        OUTPUT.saturating_sub(self.unsent.len() as u64) >= ROOM
    }

    /// Moves out the first unsent bytes, at most this many.
    pub fn output(&mut self, most: usize) -> Result<Vec<u8>, AllocError> {
        let count = most.min(self.unsent.len());
        let moved = Vec::from_slice(self.alloc, self.unsent.get(..count).unwrap_or(&[]))?;
        self.unsent = Vec::from_slice(self.alloc, self.unsent.get(count..).unwrap_or(&[]))?;
        Ok(moved)
    }

    /// The input has ended.
    pub fn finish(&mut self) -> End {
        let end = match (self.has_failed, self.is_closed, self.rest.len()) {
            (true, _, _) => End::Failed,
            (_, true, _) => End::Closed,
            (_, _, 0) => End::Between,
            (_, _, waiting) => End::Inside(waiting),
        };
        self.rest.clear();
        self.sessions.clear();
        self.links.clear();
        self.stage = Stage::Dead;
        end
    }

    fn record(&mut self, session: u32, link: u32, what: What) -> Result<(), AllocError> {
        self.history.moments.push(Moment {
            session,
            link,
            what,
        })?;
        Ok(())
    }

    fn new_life(&mut self) -> u32 {
        self.lives = self.lives.saturating_add(1);
        self.lives
    }

    /// Returns the session that has begun on a channel, live or not.
    pub fn session(&self, channel: u16) -> Option<Session> {
        self.sessions
            .iter()
            .find(|session| session.channel == channel)
            .copied()
    }

    /// The link at a handle of a session, live or not.
    pub fn link(&self, session: Session, handle: u32) -> Option<&Link> {
        self.links.iter().find(|link| link.life.session == session.life && link.handle == handle)
    }

    /// Returns the places that are left of a session's window.
    pub fn window(&self, session: Session) -> u64 {
        self.history.window(session.life, self.settings.window)
    }

    /// The deliveries of a live link that are open.
    pub fn open_deliveries(&self, life: Life) -> Result<Vec<Delivery>, AllocError> {
        let mut open = Vec::new(self.alloc);
        for delivery in self.history.deliveries(self.alloc, life)?.iter() {
            if delivery.is_open() {
                open.push(*delivery)?;
            }
        }
        Ok(open)
    }

    /// Returns how many bytes came of a link's last delivery.
    pub fn unfinished_len(&self, life: Life) -> Result<u32, AllocError> {
        let deliveries = self.history.deliveries(self.alloc, life)?;
        Ok(match deliveries.last() {
            Some(delivery) => low(delivery.len),
            None => 0,
        })
    }

    /// Returns how many deliveries of a live link are ready.
    pub fn ready(&self, life: Life) -> Result<u32, AllocError> {
        let mut ready = 0_u32;
        for delivery in self.history.deliveries(self.alloc, life)?.iter() {
            ready = ready.saturating_add(u32::from(delivery.is_ready()));
        }
        Ok(ready)
    }

    /// Returns how many are, on all live links of a session.
    fn ready_in(&self, session: u32) -> Result<u32, AllocError> {
        let mut ready = 0_u32;
        for link in self.links.iter() {
            if link.is_live && link.life.session == session {
                ready = ready.saturating_add(self.ready(link.life)?);
            }
        }
        Ok(ready)
    }

    fn ready_in_all(&self) -> Result<u32, AllocError> {
        let mut ready = 0_u32;
        for session in self.sessions.iter() {
            ready = ready.saturating_add(self.ready_in(session.life)?);
        }
        Ok(ready)
    }

    /// Returns the bytes that count as held.
    pub fn held(&self) -> Result<u64, AllocError> {
        let mut held = (self.rest.len() as u64).saturating_add(self.unsent.len() as u64);
        held = held.saturating_add((self.sessions.len() as u64).saturating_mul(64));
        for link in self.links.iter() {
            held = held.saturating_add(128);
            if link.is_live {
                held = held.saturating_add(self.held_by(link)?);
            }
        }
        Ok(held)
    }

    /// Returns what a live link holds besides its record.
    fn held_by(&self, link: &Link) -> Result<u64, AllocError> {
        let mut held = (link.name.len() as u64)
            .saturating_add(link.source.len() as u64)
            .saturating_add(link.target.len() as u64);
        for delivery in self.open_deliveries(link.life)?.iter() {
            held = held.saturating_add(delivery.held());
        }
        Ok(held)
    }

    /// Returns the most bytes that may be held with the sessions and links that there are.
    pub fn bound(&self) -> u64 {
        let each = u64::from(self.settings.max_message).saturating_add(96);
        let link = u64::from(self.settings.allowed)
            .saturating_mul(each)
            .saturating_add(1407);
        u64::from(self.settings.max_frame)
            .saturating_add(OUTPUT)
            .saturating_add((self.sessions.len() as u64).saturating_mul(64))
            .saturating_add((self.links.len() as u64).saturating_mul(link))
    }
}

/// Returns a number below 2^32, which all are that are sent.
pub fn low(number: u64) -> u32 {
    (number % (1 << 32)) as u32
}

/// Returns the big-endian number of this many bytes at a place.
fn number_at(bytes: &[u8], at: usize, count: usize) -> Option<u64> {
    let mut number = 0_u64;
    let field = bytes.get(at..at.saturating_add(count))?;
    for byte in field.iter() {
        number = number.wrapping_mul(256).wrapping_add(u64::from(*byte));
    }
    Some(number)
}
