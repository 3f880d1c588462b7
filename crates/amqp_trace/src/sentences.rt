//! Events in sentences for people.

use crate::line::Line;
use crate::links::{Links, Place};
use crate::peer_error::{error_in, text_in};
use crate::unit::Unit;
use crate::words::{fate, meaning};
use amqp_dump::Page;
use amqp_endpoint::{Event, Scope};
use amqp_perform::{Attach, Condition, Open, Outcome, Performative, read_body};
use amqp_serve::{Receipt, Received};
use std::alloc::AllocError;
use std::fmt::Write;

/// A sentence, and what it is made with.
#[derive(Drop)]
pub struct Sentence {
    pub text: Line,
    pub page: Page,
    pub links: Links,
    /// The outcome of messages.
    pub outcome: Outcome,
}

/// Puts the sentence of an event that a unit resulted in, with what became of its message. An event without a
/// sentence puts nothing.
pub fn put_event(
    out: &mut Sentence,
    unit: &Unit,
    event: Event,
    receipt: Receipt,
) -> Result<(), AllocError> {
    let said = match read_body(unit.body()) {
        Ok((performative, _)) => Some(performative),
        Err(_) => None,
    };
    match event {
        Event::Opened => {
            if let Some(Performative::Open(open)) = said {
                out.put_peer(&open);
            }
        }
        Event::Begun { channel } => {
            let _ = write!(out.text, "session {channel} began");
        }
        Event::Attached { channel, handle } => out.put_attached(link_at(channel, handle), said)?,
        Event::Ready { channel, handle } => out.put_message(link_at(channel, handle), receipt),
        Event::Aborted { channel, handle } => {
            out.text.put(b"a message on ");
            out.put_link(link_at(channel, handle));
            out.text.put(b" was given up by its sender");
        }
        Event::Detached {
            channel,
            handle,
            ..
        } => out.put_detached(link_at(channel, handle), said),
        Event::Ended { channel, .. } => out.put_ended(channel, said),
        Event::Closed { .. } => {
            out.text.put(b"the connection was closed by the peer");
            out.put_error(said);
        }
        Event::Failed {
            scope,
            condition,
            ..
        } => out.put_failed(scope, condition, said)?,
        Event::Unfinished { .. } | Event::Drained { .. } | Event::Settled { .. } => {}
    }
    Ok(())
}

/// Returns the place of a link.
fn link_at(channel: u16, handle: u32) -> Place {
    Place {
        channel,
        handle: Some(handle),
    }
}

/// Returns the place of a session.
fn session_at(channel: u16) -> Place {
    Place {
        channel,
        handle: None,
    }
}

impl Sentence {
    /// Puts who the peer is, and which host it asks for. [2.7.1]
    fn put_peer(&mut self, open: &Open<'_>) {
        self.text.put(b"the peer is ");
        self.quote(open.container_id.as_bytes());
        if let Some(hostname) = text_in(open.hostname) {
            self.text.put(b", and asks for host ");
            self.quote(hostname);
        }
    }

    fn quote(&mut self, bytes: &[u8]) {
        self.text.put_quoted(&mut self.page, bytes);
    }

    /// Keeps the name of a link, and puts that it began. [2.7.3]
    fn put_attached(
        &mut self,
        place: Place,
        said: Option<Performative<'_>>,
    ) -> Result<(), AllocError> {
        if let Some(Performative::Attach(attach)) = said {
            self.links.attach(place, attach.name.as_bytes())?;
        }
        self.put_link(place);
        let channel = place.channel;
        let _ = write!(self.text, " began in session {channel}");
        Ok(())
    }

    /// Puts what a link is called.
    fn put_link(&mut self, place: Place) {
        self.text.put(b"link ");
        match self.links.name(place) {
            Some(name) => self.text.put_quoted(&mut self.page, name),
            None => {
                let channel = place.channel;
                let handle = place.handle.unwrap_or(0);
                let _ = write!(self.text, "{handle} in session {channel}");
            }
        }
    }

    /// Puts what became of a message.
    fn put_message(&mut self, place: Place, receipt: Receipt) {
        match receipt {
            Receipt::Nothing => {}
            Receipt::Refused(fault) => {
                self.text.put(b"a message on ");
                self.put_link(place);
                let _ = write!(self.text, " was not taken: {fault}");
            }
            Receipt::Settled(message) => {
                self.put_received(place, message);
                self.text.put(b"settled by its sender");
            }
            Receipt::Told(message) => {
                self.put_received(place, message);
                self.text.put(fate(self.outcome).as_bytes());
            }
            Receipt::Untold(message, fault) => {
                self.put_received(place, message);
                let _ = write!(self.text, "its sender could not be told: {fault}");
            }
        }
    }

    /// Puts the message's id, length and link.
    fn put_received(&mut self, place: Place, message: Received) {
        let Received {
            delivery_id,
            len,
            ..
        } = message;
        let _ = write!(self.text, "message id={delivery_id} length={len} on ");
        self.put_link(place);
        self.text.put(b": ");
    }

    /// Puts that the peer ended a link, unless it answers an end of this side. [2.7.7]
    fn put_detached(&mut self, place: Place, said: Option<Performative<'_>>) {
        if !self.links.is_ended(place) {
            self.put_link(place);
            self.text.put(b" was ended by the peer");
            self.put_error(said);
        }
        self.links.forget(place);
    }

    /// Puts that the peer ended a session, unless it answers an end of this side. [2.7.8]
    fn put_ended(&mut self, channel: u16, said: Option<Performative<'_>>) {
        let place = session_at(channel);
        if !self.links.is_ended(place) {
            let _ = write!(self.text, "session {channel} was ended by the peer");
            self.put_error(said);
        }
        self.links.forget(place);
    }

    /// Puts the peer's error, if it gave one. [2.8.14]
    fn put_error(&mut self, said: Option<Performative<'_>>) {
        let span = match said {
            Some(Performative::Detach(detach)) => detach.error,
            Some(Performative::End(end)) => end.error,
            Some(Performative::Close(close)) => close.error,
            _ => &[],
        };
        let Some(error) = error_in(span) else {
            return;
        };
        self.text.put(b", with the error ");
        self.quote(error.condition);
        if let Some(description) = error.description {
            self.text.put(b": ");
            self.quote(description);
        }
    }

    /// Keeps what this side ended, and puts why. [2.8.14]
    fn put_failed(
        &mut self,
        scope: Scope,
        condition: Condition,
        said: Option<Performative<'_>>,
    ) -> Result<(), AllocError> {
        match scope {
            Scope::Connection => self.text.put(b"the connection was ended"),
            Scope::Session { channel } => {
                let _ = write!(self.text, "session {channel} was ended");
                self.links.end(session_at(channel))?;
            }
            Scope::Link { channel, handle } => {
                let place = link_at(channel, handle);
                if let Some(Performative::Attach(attach)) = said {
                    self.put_refused(&attach);
                } else {
                    self.put_link(place);
                    self.text.put(b" was ended");
                }
                self.links.end(place)?;
            }
        }
        let why = meaning(condition);
        let _ = write!(self.text, " by this side: {condition}, {why}");
        Ok(())
    }

    /// Puts that a link is refused. [2.6.3]
    fn put_refused(&mut self, attach: &Attach<'_>) {
        self.text.put(b"link ");
        self.quote(attach.name.as_bytes());
        self.text.put(b" was refused");
    }
}
