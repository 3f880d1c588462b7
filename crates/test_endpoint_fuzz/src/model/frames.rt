//! What a frame results in.

use crate::model::history::{NONE, What};
use crate::model::{Model, Session, Stage, number_at};
use amqp_endpoint::{Event, Outcome, Scope};
use amqp_perform::{
    Begin, BodyFault, Condition, Disposition, Flow, Open, Performative, Role, read_body,
};
use std::alloc::AllocError;

impl Model {
    pub(super) fn act_on_frame(&mut self, bytes: &[u8]) -> Result<Outcome, AllocError> {
        let channel = (number_at(bytes, 6, 2).unwrap_or(0) % 65536) as u16;
        let offset = number_at(bytes, 4, 1).unwrap_or(0).saturating_mul(4) as usize;
        let body = bytes.get(offset..).unwrap_or(&[]);
        if self.stage == Stage::Closing {
            return Ok(self.act_while_closing(body));
        }
        if body.is_empty() {
            return Ok(Outcome::More);
        }
        if channel > self.channel_limit {
            return self.fail(Condition::FramingError);
        }
        match read_body(body) {
            Ok((performative, len)) => {
                let payload = body.get(len..).unwrap_or(&[]);
                self.act_on_performative(channel, performative, payload)
            }
            Err(BodyFault::Decode(_)) => self.fail(Condition::DecodeError),
            Err(BodyFault::InvalidField) => self.fail(Condition::InvalidField),
        }
    }

    /// Of what comes after this side's close the peer's close alone counts.
    fn act_while_closing(&mut self, body: &[u8]) -> Outcome {
        match read_body(body) {
            Ok((Performative::Close(_), _)) => {
                self.stage = Stage::Dead;
                self.is_closed = true;
                Outcome::Event(Event::Closed { dropped: 0 })
            }
            _ => Outcome::More,
        }
    }

    fn act_on_performative(
        &mut self,
        channel: u16,
        performative: Performative<'_>,
        payload: &[u8],
    ) -> Result<Outcome, AllocError> {
        let is_open = matches!(performative, Performative::Open(_));
        if is_open != (self.stage == Stage::Opening) {
            return self.fail(Condition::IllegalState);
        }
        match (performative, self.session(channel)) {
            (Performative::Open(open), _) => self.act_on_open(open),
            (Performative::Close(_), _) => self.act_on_close(),
            (Performative::End(_), Some(session)) => self.act_on_end(session),
            (_, Some(session)) if !session.is_live => Ok(Outcome::More),
            (Performative::Begin(begin), None) if begin.remote_channel.is_none() => {
                self.act_on_begin(channel, begin)
            }
            (Performative::Begin(_), _) => self.fail(Condition::IllegalState),
            (_, None) => self.fail(Condition::IllegalState),
            (Performative::Attach(attach), Some(session)) => self.act_on_attach(session, attach),
            (Performative::Transfer(transfer), Some(session)) => {
                self.act_on_transfer(session, transfer, payload)
            }
            (Performative::Flow(flow), Some(session)) => self.act_on_flow(session, flow),
            (Performative::Disposition(disposition), Some(session)) => {
                self.act_on_disposition(session, disposition)
            }
            (Performative::Detach(detach), Some(session)) => {
                self.act_on_detach(session, detach.handle, detach.closed)
            }
        }
    }

    fn act_on_open(&mut self, open: Open<'_>) -> Result<Outcome, AllocError> {
        let offered = self.settings.channel_max.min(65535) as u16;
        self.stage = Stage::Open;
        self.channel_limit = offered.min(open.channel_max);
        self.peer_frame = open.max_frame_size;
        self.write_open()?;
        Ok(Outcome::Event(Event::Opened))
    }

    fn act_on_close(&mut self) -> Result<Outcome, AllocError> {
        let dropped = self.ready_in_all()?;
        self.write_close(&[])?;
        self.stage = Stage::Dead;
        self.is_closed = true;
        self.sessions.clear();
        self.links.clear();
        Ok(Outcome::Event(Event::Closed { dropped }))
    }

    fn act_on_begin(&mut self, channel: u16, begin: Begin<'_>) -> Result<Outcome, AllocError> {
        let session = Session {
            channel,
            life: self.new_life(),
            is_live: true,
            handle_max: self.settings.handle_max.min(begin.handle_max),
        };
        let next_outgoing_id = begin.next_outgoing_id;
        self.record(session.life, NONE, What::Begun { next_outgoing_id })?;
        self.write_begin(session)?;
        self.sessions.push(session)?;
        Ok(Outcome::Event(Event::Begun { channel }))
    }

    /// An end of the peer is answered, unless it answers.
    fn act_on_end(&mut self, session: Session) -> Result<Outcome, AllocError> {
        let (channel, life) = (session.channel, session.life);
        let dropped = self.ready_in(life)?;
        if session.is_live {
            self.write_end(channel, &[])?;
        }
        self.links.retain(|link| link.life.session != life);
        self.sessions.retain(|kept| kept.life != life);
        Ok(Outcome::Event(Event::Ended { channel, dropped }))
    }

    /// Ends a session with an error.
    pub(super) fn fail_session(
        &mut self,
        session: Session,
        condition: Condition,
    ) -> Result<Outcome, AllocError> {
        let (channel, life) = (session.channel, session.life);
        let dropped = self.ready_in(life)?;
        self.write_end(channel, condition.span())?;
        self.links.retain(|link| link.life.session != life);
        for kept in self.sessions.iter_mut() {
            if kept.life == life {
                kept.is_live = false;
            }
        }
        Ok(Outcome::Event(Event::Failed {
            scope: Scope::Session { channel },
            condition,
            dropped,
        }))
    }

    fn act_on_flow(&mut self, session: Session, flow: Flow<'_>) -> Result<Outcome, AllocError> {
        match flow.handle {
            Some(handle) => self.act_on_link_flow(session, handle, flow),
            None => {
                let what = What::Flowed {
                    next_outgoing_id: flow.next_outgoing_id,
                    advance: 0,
                };
                self.record(session.life, NONE, what)?;
                if flow.echo {
                    self.write_session_flow(session)?;
                }
                Ok(Outcome::More)
            }
        }
    }

    /// Returns a disposition of a sender that settles.
    fn act_on_disposition(
        &mut self,
        session: Session,
        disposition: Disposition<'_>,
    ) -> Result<Outcome, AllocError> {
        if disposition.role == Role::Receiver || !disposition.settled {
            return Ok(Outcome::More);
        }
        let first = disposition.first;
        let last = disposition.last.unwrap_or(first);
        let before = self.unsettled_in(session)?;
        self.record(session.life, NONE, What::Disposed { first, last })?;
        match before.saturating_sub(self.unsettled_in(session)?) {
            0 => Ok(Outcome::More),
            count => Ok(Outcome::Event(Event::Settled {
                channel: session.channel,
                count,
            })),
        }
    }

    /// Returns how many deliveries of a session were, at some time, open and not settled, and are not
    /// settled.
    fn unsettled_in(&self, session: Session) -> Result<u32, AllocError> {
        let mut count = 0_u32;
        for link in self.links.iter() {
            if link.is_live && link.life.session == session.life {
                for delivery in self.history.deliveries(self.alloc, link.life)?.iter() {
                    let is_left = !delivery.is_aborted && !delivery.is_settled;
                    count = count.saturating_add(u32::from(is_left));
                }
            }
        }
        Ok(count)
    }
}
