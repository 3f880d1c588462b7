//! Messages through an endpoint.

use crate::endpoint::{By, Case};
use crate::measure::Failure;
use crate::stream::{MAX_FRAME, opening};
use amqp_endpoint::{CallFault, Config, Endpoint, Event, Outcome};
use amqp_link::MAX_ALLOWED;
use amqp_perform::Outcome as Settlement;
use std::alloc::{AllocError, Global};
use std::io::Read;

/// The places of the session's window, which no run uses up.
const WINDOW: u32 = (1 << 31) - 1;

/// How many messages a link may send before it gets credit again.
const CREDIT: u32 = 8;

/// Why a message did not come through.
#[derive(Clone, Copy, Debug, Drop)]
pub enum Stopped {
    NoMemory,
    /// The settings were refused.
    Settings,
    /// The endpoint refused a call.
    Call(CallFault),
    /// This came of what was fed.
    Told(Outcome),
}

impl From<CallFault> for Stopped {
    fn from(fault: CallFault) -> Stopped {
        Stopped::Call(fault)
    }
}

impl From<AllocError> for Stopped {
    fn from(_e: AllocError) -> Stopped {
        Stopped::NoMemory
    }
}

impl From<Stopped> for Failure {
    fn from(stopped: Stopped) -> Failure {
        Failure::Endpoint(stopped)
    }
}

/// An endpoint under way.
#[derive(Drop)]
pub struct Run {
    endpoint: Endpoint,
    sessions: u16,
    links: u16,
    /// The deliveries to come that stay open.
    left_open: u32,
    /// The messages that were handed up, and their bytes.
    pub messages: u32,
    pub moved: u64,
}

impl Run {
    /// Returns an endpoint with its links.
    pub fn new(alloc: Global, case: Case) -> Result<Run, Stopped> {
        let name = String::from_str(alloc, "bench")?;
        let settings = Config::checked(
            name,
            MAX_FRAME,
            255,
            255,
            MAX_ALLOWED,
            case.shape.message,
            WINDOW,
        );
        let Some(config) = settings else {
            return Err(Stopped::Settings);
        };
        let mut run = Run {
            endpoint: Endpoint::new(alloc, config)?,
            sessions: case.shape.sessions,
            links: case.shape.links,
            left_open: case.open,
            messages: 0,
            moved: 0,
        };
        run.feed(
            &opening(alloc, case.shape.sessions, case.shape.links)?,
            By::Pieces(4096),
        )?;
        run.grant()?;
        Ok(run)
    }

    /// Feeds bytes, and moves out what waits to be sent after each piece of at most this many.
    pub fn feed(&mut self, bytes: &[u8], by: By) -> Result<(), Stopped> {
        let most = match by {
            By::Pieces(most) => most as usize,
            By::Fills => 65536,
        };
        for piece in bytes.chunks(most.max(1)) {
            match by {
                By::Pieces(_) => self.feed_piece(piece)?,
                By::Fills => self.fill(piece)?,
            }
            self.empty();
        }
        Ok(())
    }

    /// Feeds a piece, and receives the messages that end in it.
    fn feed_piece(&mut self, piece: &[u8]) -> Result<(), Stopped> {
        let mut rest = piece;
        for _ in 0..piece.len() {
            if rest.is_empty() {
                break;
            }
            let fed = self.endpoint.feed(rest);
            rest = rest.get(fed.used..).unwrap_or(&[]);
            self.follow(fed.outcome)?;
        }
        Ok(())
    }

    /// Reads a piece into the endpoint's room, and receives the messages that end in it.
    fn fill(&mut self, piece: &[u8]) -> Result<(), Stopped> {
        let mut rest = piece;
        for _ in 0..piece.len() {
            let Ok(count) = rest.read(self.endpoint.spare()) else {
                break;
            };
            if count == 0 {
                break;
            }
            let fed = self.endpoint.filled(count);
            self.follow(fed.outcome)?;
        }
        Ok(())
    }

    /// Receives the message that is ready.
    fn follow(&mut self, told: Outcome) -> Result<(), Stopped> {
        match told {
            Outcome::Event(Event::Ready { channel, handle }) => self.receive(channel, handle),
            Outcome::Event(Event::Failed { .. }) => Err(Stopped::Told(told)),
            Outcome::More | Outcome::Event(_) => Ok(()),
            other => Err(Stopped::Told(other)),
        }
    }

    /// A message is handed up, and settled unless it is to stay open.
    fn receive(&mut self, channel: u16, handle: u32) -> Result<(), Stopped> {
        let taken = self.endpoint.take(channel, handle)?;
        self.messages = self.messages.wrapping_add(1);
        self.moved = self.moved.wrapping_add(taken.message.len() as u64);
        if self.left_open > 0 {
            self.left_open -= 1;
        } else {
            self.endpoint
                .settle(channel, taken.delivery_id, Settlement::Accepted)?;
        }
        let links = (self.sessions as u32).wrapping_mul(self.links as u32);
        let round = CREDIT.wrapping_mul(links);
        if self.messages.checked_rem(round) == Some(0) {
            self.empty();
            self.grant()?;
        }
        Ok(())
    }

    /// Each link gets credit.
    fn grant(&mut self) -> Result<(), Stopped> {
        for channel in 0..self.sessions {
            self.grant_on(channel)?;
            self.empty_after(channel);
        }
        Ok(())
    }

    /// Each link of a session does.
    fn grant_on(&mut self, channel: u16) -> Result<(), Stopped> {
        for handle in 0..self.links {
            self.endpoint.grant(channel, handle as u32, CREDIT)?;
            self.empty_after(handle);
        }
        Ok(())
    }

    /// Moves out what waits to be sent after every 64th.
    fn empty_after(&mut self, place: u16) {
        if place % 64 == 63 {
            self.empty();
        }
    }

    /// Moves out all that waits to be sent.
    fn empty(&mut self) {
        let mut room = [0; 512];
        for _ in 0..17 {
            if self.endpoint.output(&mut room) == 0 {
                break;
            }
        }
    }
}
