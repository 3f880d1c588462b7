//! An application that takes and settles each message, and keeps the credit up.

use amqp_endpoint::{Config, End, Endpoint, Event, Outcome};
use amqp_link::Message;
use amqp_perform::Outcome as Settlement;
use std::alloc::{AllocError, Global};
use std::fmt::{self, Display, Formatter};
use test_row_files::Miss;

/// The endpoint did not come to the end of the stream.
const STUCK: Miss = Miss::Unread("the endpoint is stuck");

/// The credit that a link is kept at.
const CREDIT: u32 = 16;

/// The result of a stream.
#[derive(Drop)]
pub struct Received {
    messages: u32,
    aborted: u32,
    settled: u32,
    /// The messages, joined.
    bytes: Vec<u8>,
    /// All that was written.
    output: Vec<u8>,
    end: End,
}

impl Received {
    pub fn is_same(&self, other: &Received) -> bool {
        (self.messages, self.aborted, self.settled, self.end)
            == (other.messages, other.aborted, other.settled, other.end)
            && self.bytes.as_slice() == other.bytes.as_slice()
            && self.output.as_slice() == other.output.as_slice()
    }
}

impl Display for Received {
    fn fmt<W: fmt::Write>(&self, f: &mut Formatter<W>) -> fmt::Result {
        let Received {
            messages,
            aborted,
            settled,
            end,
            ..
        } = self;
        let bytes = self.bytes.len();
        write!(
            f,
            "{messages} messages of {bytes} bytes, {aborted} aborted, {settled} settled, end {end:?}"
        )
    }
}

/// Receives a stream in pieces of at most this many bytes.
pub fn receive(alloc: Global, stream: &[u8], most: usize) -> Result<Received, Miss> {
    let name = String::from_str(alloc, "recv")?;
    let Some(config) = Config::checked(name, 65536, 7, 7, CREDIT, 1048576, 2048) else {
        return Err(STUCK);
    };
    let mut endpoint = Endpoint::new(alloc, config)?;
    let mut received = Received {
        messages: 0,
        aborted: 0,
        settled: 0,
        bytes: Vec::new(alloc),
        output: Vec::new(alloc),
        end: End::Between,
    };
    for piece in stream.chunks(most.max(1)) {
        received.feed(&mut endpoint, piece)?;
    }
    received.end = endpoint.finish();
    Ok(received)
}

impl Received {
    /// Feeds a piece until it is used up.
    fn feed(&mut self, endpoint: &mut Endpoint, piece: &[u8]) -> Result<(), Miss> {
        let mut rest = piece;
        for _ in 0..piece.len() {
            if rest.is_empty() {
                return Ok(());
            }
            let fed = endpoint.feed(rest);
            rest = rest.get(fed.used..).unwrap_or(&[]);
            match fed.outcome {
                Outcome::More => {}
                Outcome::Event(event) => self.hear(endpoint, event)?,
                _ => return Err(STUCK),
            }
            self.move_out(endpoint)?;
        }
        Ok(())
    }

    /// Does what an application would.
    fn hear(&mut self, endpoint: &mut Endpoint, event: Event) -> Result<(), Miss> {
        match event {
            Event::Attached { channel, handle } => grant(endpoint, channel, handle, CREDIT)?,
            Event::Ready { channel, handle } => self.take(endpoint, channel, handle)?,
            Event::Aborted { channel, handle } => {
                self.aborted = self.aborted.saturating_add(1);
                grant(endpoint, channel, handle, 1)?;
            }
            Event::Settled { count, .. } => self.settled = self.settled.saturating_add(count),
            Event::Failed { .. } => return Err(STUCK),
            _ => {}
        }
        Ok(())
    }

    /// Takes a message, settles it, and grants for another.
    fn take(&mut self, endpoint: &mut Endpoint, channel: u16, handle: u32) -> Result<(), Miss> {
        let Ok(taken) = endpoint.take(channel, handle) else {
            return Err(STUCK);
        };
        self.messages = self.messages.saturating_add(1);
        self.keep(&taken.message)?;
        let settled = endpoint.settle(channel, taken.delivery_id, Settlement::Accepted);
        if settled.is_err() {
            return Err(STUCK);
        }
        // In mode second the delivery is open until its sender settles it.
        let _ = endpoint.grant(channel, handle, 1);
        Ok(())
    }

    /// Keeps the bytes of a message, piece by piece.
    fn keep(&mut self, message: &Message) -> Result<(), AllocError> {
        let mut at = 0;
        for _ in 0..message.len() {
            let piece = message.piece(at);
            if piece.is_empty() {
                break;
            }
            self.bytes.extend_from_slice(piece)?;
            at = piece.len().saturating_add(at);
        }
        Ok(())
    }

    /// Moves out all that waits to be sent.
    fn move_out(&mut self, endpoint: &mut Endpoint) -> Result<(), AllocError> {
        let mut room = [0; 8192];
        let count = endpoint.output(&mut room);
        self.output.extend_from_slice(&room[..count])
    }
}

fn grant(endpoint: &mut Endpoint, channel: u16, handle: u32, n: u32) -> Result<(), Miss> {
    match endpoint.grant(channel, handle, n) {
        Ok(()) => Ok(()),
        Err(_) => Err(STUCK),
    }
}
