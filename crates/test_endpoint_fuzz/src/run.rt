//! A list of calls and pieces, made on an endpoint and on the model.

use crate::came::Came;
use crate::failure::Failure;
use crate::model::calls::{Answer, Handed};
use crate::model::{Link, Model, Session, Settings, low};
use crate::numbers::Choices;
use crate::peer::{Kind, Peer, some_id};
use amqp_endpoint::{CallFault, Config, Endpoint};
use amqp_link::Taken;
use amqp_perform::Outcome as Settlement;
use std::alloc::Global;
use std::fmt::Debug;

/// An endpoint and its model, and what a peer sends them.
#[derive(Drop)]
pub struct Run<'c> {
    alloc: Global,
    endpoint: Endpoint,
    model: Model,
    peer: Peer,
    /// What the peer sent and was not taken.
    pending: Vec<u8>,
    /// How long a piece is at most.
    most: usize,
    came: &'c mut Came,
}

impl<'c> Run<'c> {
    /// Returns a new endpoint, and a model with the same settings.
    pub fn new(
        alloc: Global,
        choices: &mut Choices<'_>,
        came: &'c mut Came,
    ) -> Result<Run<'c>, Failure> {
        let settings = settings(choices);
        let name = String::from_str(alloc, "r")?;
        let config = Config::checked(
            name,
            settings.max_frame,
            settings.channel_max,
            settings.handle_max,
            settings.allowed,
            settings.max_message,
            settings.window,
        );
        let Some(config) = config else {
            return Err(Failure::Usage);
        };
        Ok(Run {
            alloc,
            endpoint: Endpoint::new(alloc, config)?,
            model: Model::new(alloc, settings),
            peer: Peer::new(alloc, choices.number()),
            pending: Vec::new(alloc),
            most: usize::MAX,
            came,
        })
    }

    /// Makes a step of the list, and compares all that the endpoint shows of itself.
    pub fn step(&mut self, choices: &mut Choices<'_>) -> Result<(), Failure> {
        match choices.below(64) {
            0..=19 => self.send(choices, Kind::Transfer)?,
            20..=22 => self.send(choices, Kind::LinkFlow)?,
            23 => self.send(choices, Kind::SessionFlow)?,
            24..=27 => self.send(choices, Kind::Disposition)?,
            28..=29 => self.send(choices, Kind::Attach)?,
            30 => self.send(choices, Kind::Detach)?,
            31 if choices.is_one_of(3) => self.send(choices, Kind::End)?,
            31..=32 => self.send(choices, Kind::Empty)?,
            33 => self.send_rare(choices)?,
            34..=41 => self.grant(choices)?,
            42..=48 => self.take(choices)?,
            49..=53 => self.settle(choices)?,
            54 => self.widen(choices)?,
            55..=56 => self.drain(choices)?,
            57 => self.end_something(choices)?,
            58 => {
                let (found, wanted) = (self.endpoint.heartbeat(), self.model.heartbeat()?);
                self.answered("heartbeat", found, wanted)?;
            }
            59..=61 => self.output(choices)?,
            62 => self.most = choices.of(&[1, 3, 7, 100], 1),
            _ => {
                self.most = usize::MAX;
                self.feed()?;
            }
        }
        self.compare()
    }

    /// The end of the input.
    pub fn finish(&mut self) -> Result<(), Failure> {
        let (found, wanted) = (self.endpoint.finish(), self.model.finish());
        self.came.end(wanted);
        same(self.alloc, "finish", found, wanted)?;
        self.compare()
    }

    /// A frame that ends much, or a strange one.
    fn send_rare(&mut self, choices: &mut Choices<'_>) -> Result<(), Failure> {
        let kind = choices.of(
            &[
                Kind::Close,
                Kind::Long,
                Kind::Long,
                Kind::Long,
                Kind::Raw,
                Kind::Open,
                Kind::Begin,
                Kind::Echoes,
            ],
            Kind::Empty,
        );
        if kind == Kind::Echoes && !choices.is_one_of(4) {
            return self.send(choices, Kind::Empty);
        }
        self.send(choices, kind)
    }

    /// A frame of the peer, of which a byte may be damaged, after what it sent before.
    fn send(&mut self, choices: &mut Choices<'_>, kind: Kind) -> Result<(), Failure> {
        let mut frame = self.peer.frame(&self.model, choices, kind)?;
        if choices.is_one_of(64) {
            let (place, byte) = (choices.byte(), choices.byte());
            if let Some(damaged) = frame.get_mut(usize::from(place)) {
                *damaged = byte;
            }
        }
        self.pending.extend_from_slice(&frame)?;
        if choices.is_one_of(16) {
            self.most = usize::from(choices.byte() % 32);
            return self.feed_piece();
        }
        self.feed()?;
        self.most = usize::MAX;
        Ok(())
    }

    /// Feeds what the peer sent, in pieces, until nothing is taken.
    fn feed(&mut self) -> Result<(), Failure> {
        for _ in 0..self.pending.len().saturating_add(1) {
            let before = self.pending.len();
            self.feed_piece()?;
            if self.pending.is_empty() || self.pending.len() == before {
                break;
            }
        }
        Ok(())
    }

    fn feed_piece(&mut self) -> Result<(), Failure> {
        let count = self.pending.len().min(self.most);
        let piece = self.pending.get(..count).unwrap_or(&[]);
        let (found, wanted) = (self.endpoint.feed(piece), self.model.feed(piece)?);
        same(self.alloc, "feed", found, wanted)?;
        self.came.outcome(wanted.outcome);
        let rest = self.pending.get(wanted.used..).unwrap_or(&[]);
        self.pending = Vec::from_slice(self.alloc, rest)?;
        self.bounded()
    }

    /// Returns the channel and handle that a call names, mostly those of a link.
    fn named(&self, choices: &mut Choices<'_>) -> (u16, u32) {
        let at = choices.byte();
        let count = self.model.links.len();
        let place = usize::from(at).checked_rem(count).unwrap_or(0);
        if at < 250 {
            if let Some(link) = self.model.links.get(place) {
                for session in self.model.sessions.iter() {
                    if session.life == link.life.session {
                        return (session.channel, link.handle);
                    }
                }
            }
        }
        (u16::from(at % 4), u32::from(at % 3))
    }

    fn grant(&mut self, choices: &mut Choices<'_>) -> Result<(), Failure> {
        let (channel, handle) = self.named(choices);
        let n = if choices.is_one_of(32) {
            choices.number()
        } else {
            choices.below(5)
        };
        let found = self.endpoint.grant(channel, handle, n);
        let wanted = self.model.grant(channel, handle, n)?;
        self.answered("grant", found, wanted)
    }

    fn widen(&mut self, choices: &mut Choices<'_>) -> Result<(), Failure> {
        let (channel, _) = self.named(choices);
        let n = if choices.is_one_of(8) {
            choices.number()
        } else {
            choices.below(8)
        };
        let found = self.endpoint.widen(channel, n);
        let wanted = self.model.widen(channel, n)?;
        self.answered("widen", found, wanted)
    }

    fn drain(&mut self, choices: &mut Choices<'_>) -> Result<(), Failure> {
        let (channel, handle) = self.named(choices);
        let found = self.endpoint.drain(channel, handle);
        let wanted = self.model.drain(channel, handle)?;
        self.answered("drain", found, wanted)
    }

    fn take(&mut self, choices: &mut Choices<'_>) -> Result<(), Failure> {
        let (channel, handle) = self.named(choices);
        let found = self.endpoint.take(channel, handle);
        let wanted = self.model.take(channel, handle)?;
        let taken = match found {
            Ok(taken) => taken,
            Err(fault) => return self.refused("take", fault, wanted.err()),
        };
        let handed = match wanted {
            Ok(handed) => handed,
            Err(fault) => return same(self.alloc, "take", None, Some(fault)),
        };
        let found = (taken.delivery_id, taken.message.len(), true);
        let is_same = is_same_message(&taken, &handed);
        let wanted = (handed.id, handed.message.len(), is_same);
        same(self.alloc, "take", found, wanted)
    }

    /// Compares a refusal with that of the model.
    fn refused(
        &mut self,
        call: &str,
        found: CallFault,
        wanted: Option<CallFault>,
    ) -> Result<(), Failure> {
        if let Some(fault) = wanted {
            self.came.fault(fault);
        }
        same(self.alloc, call, Some(found), wanted)
    }

    fn settle(&mut self, choices: &mut Choices<'_>) -> Result<(), Failure> {
        let (channel, _) = self.named(choices);
        let id = match self.model.session(channel) {
            Some(session) => some_id(&self.model, choices, session)?,
            None => choices.number(),
        };
        let outcome = outcome(choices);
        if choices.is_one_of(3) {
            return self.settle_range(choices, channel, id, outcome);
        }
        let found = self.endpoint.settle(channel, id, outcome);
        let wanted = self.model.settle(channel, id, outcome)?;
        self.answered("settle", found, wanted)
    }

    fn settle_range(
        &mut self,
        choices: &mut Choices<'_>,
        channel: u16,
        first: u32,
        outcome: Settlement,
    ) -> Result<(), Failure> {
        let (first, last) = match self.model.session(channel) {
            Some(session) if choices.is_one_of(2) => {
                self.model.taken_ends(session)?.unwrap_or((first, first))
            }
            Some(session) => (first, some_id(&self.model, choices, session)?),
            None => (first, choices.number()),
        };
        let found = self.endpoint.settle_range(channel, first, last, outcome);
        let wanted = self.model.settle_range(channel, (first, last), outcome)?;
        self.answered("settle_range", found, wanted)
    }

    /// This side detaches a link, or seldom closes the connection.
    fn end_something(&mut self, choices: &mut Choices<'_>) -> Result<(), Failure> {
        if choices.is_one_of(8) {
            let (found, wanted) = (self.endpoint.close(), self.model.close()?);
            return self.answered("close", found, wanted);
        }
        let (channel, handle) = self.named(choices);
        let found = self.endpoint.detach(channel, handle);
        let wanted = self.model.detach(channel, handle)?;
        self.answered("detach", found, wanted)
    }

    /// Moves out what waits, mostly all of it.
    fn output(&mut self, choices: &mut Choices<'_>) -> Result<(), Failure> {
        let most = choices.of(&[10, 100, 1000, 8192, 8192], 0);
        let wanted = self.model.output(most)?;
        let mut room = Vec::from_elem(self.alloc, 0, wanted.len().saturating_add(9).min(most))?;
        let count = self.endpoint.output(room.as_mut_slice());
        same(
            self.alloc,
            "output",
            room.get(..count).unwrap_or(&[]),
            wanted.as_slice(),
        )
    }

    /// Compares the answers to a call.
    fn answered<T: Copy + PartialEq + Debug + Drop>(
        &mut self,
        call: &str,
        found: Result<T, CallFault>,
        wanted: Result<T, CallFault>,
    ) -> Result<(), Failure> {
        if let Err(fault) = wanted {
            self.came.fault(fault);
        }
        same(self.alloc, call, found, wanted)
    }

    /// What is held is what the model counts, and within the bound.
    fn bounded(&self) -> Result<(), Failure> {
        let (found, wanted) = (self.endpoint.held(), self.model.held()?);
        same(self.alloc, "held", found, wanted)?;
        same(
            self.alloc,
            "within the bound",
            found <= self.model.bound(),
            true,
        )
    }

    /// Compares all that is shown.
    fn compare(&self) -> Result<(), Failure> {
        self.bounded()?;
        for channel in 0..4 {
            let session = self
                .model
                .session(channel)
                .filter(|session| session.is_live);
            let window = match session {
                Some(session) => Some(low(self.model.window(session))),
                None => None,
            };
            same(self.alloc, "window", self.endpoint.window(channel), window)?;
            for handle in 0..4 {
                self.compare_link(session, channel, handle)?;
            }
        }
        Ok(())
    }

    fn compare_link(
        &self,
        session: Option<Session>,
        channel: u16,
        handle: u32,
    ) -> Result<(), Failure> {
        let wanted = match session {
            Some(session) => self.model.link(session, handle).filter(|link| link.is_live),
            None => None,
        };
        match (self.endpoint.link(channel, handle), wanted) {
            (None, None) => Ok(()),
            (Some(view), Some(link)) => {
                let found = (view.credit, view.opened, view.ready);
                same(self.alloc, "link", found, self.counts(link)?)?;
                same(self.alloc, "name", view.name, link.name.as_slice())?;
                same(self.alloc, "source", view.source, link.source.as_slice())?;
                same(self.alloc, "target", view.target, link.target.as_slice())
            }
            (found, wanted) => same(self.alloc, "link", found.is_some(), wanted.is_some()),
        }
    }

    /// Returns the credit of a link, its open deliveries, and the ready ones.
    fn counts(&self, link: &Link) -> Result<(u32, u32, u32), Failure> {
        let credit = low(self.model.history.credit(link.life.link));
        let open = low(self.model.open_deliveries(link.life)?.len() as u64);
        Ok((credit, open, self.model.ready(link.life)?))
    }
}

/// Small settings, so that each bound is met, and with frames and messages that are long now and then.
fn settings(choices: &mut Choices<'_>) -> Settings {
    let is_long = choices.is_one_of(16);
    Settings {
        max_frame: if is_long {
            8192
        } else {
            choices.of(&[512, 512, 700, 2048], 512)
        },
        channel_max: choices.of(&[0, 0, 1, 2], 0),
        handle_max: choices.of(&[0, 1, 1, 2], 0),
        allowed: choices.of(&[1, 2, 3, 4], 1),
        max_message: if is_long {
            10_000
        } else {
            choices.of(&[1, 5, 10, 20], 1)
        },
        window: choices.of(&[0, 1, 3, 6, 6, 20, 20, 100], 0),
    }
}

fn outcome(choices: &mut Choices<'_>) -> Settlement {
    choices.of(
        &[
            Settlement::Accepted,
            Settlement::Rejected,
            Settlement::Released,
            Settlement::Modified {
                failed: true,
                undeliverable: false,
            },
        ],
        Settlement::Accepted,
    )
}

fn is_same_message(taken: &Taken, handed: &Handed) -> bool {
    let is_same = (taken.delivery_id, taken.message_format, taken.settled)
        == (handed.id, handed.format, handed.settled)
        && taken.delivery_tag.as_bytes() == handed.tag.as_slice();
    let mut at = 0;
    for _ in 0..handed.message.len() {
        let piece = taken.message.piece(at);
        if piece.is_empty() {
            break;
        }
        let end = at.saturating_add(piece.len());
        if handed.message.get(at..end) != Some(piece) {
            return false;
        }
        at = end;
    }
    is_same && at == handed.message.len() && at == taken.message.len()
}

/// Refuses two values that differ.
fn same<T: PartialEq + Debug + Drop>(
    alloc: Global,
    what: &str,
    found: T,
    wanted: T,
) -> Result<(), Failure> {
    if found == wanted {
        return Ok(());
    }
    Err(Failure::Differs {
        step: 0,
        what: format!(in alloc; "{what} gives {found:?} for {wanted:?}")?,
    })
}
