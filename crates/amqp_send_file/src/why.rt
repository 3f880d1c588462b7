//! Why a receiver does not accept a message: the error that comes with its outcome, or with its end of the link, the
//! session or the connection.

use amqp_dump::{Page, put_quoted};
use amqp_frame::Splitter;
use amqp_perform::{Disposition, Performative, Role, read_body};
use amqp_send::MAX_FRAME_SIZE;
use amqp_serial::Serial;
use amqp_trace::{PeerError, error_in, rejection_in};
use std::alloc::{AllocError, Global};
use std::str;

/// How many bytes the text has at most: four for each of a frame, and the words before it.
const MOST: usize = 4 * MAX_FRAME_SIZE as usize + 64;

/// Hears what a receiver sends, besides its sender.
pub trait Listen {
    /// Takes the bytes that the sender was fed: they end with at most one unit.
    fn hear(&mut self, bytes: &[u8]);
}

/// Hears nothing.
#[derive(Clone, Copy, Debug)]
pub struct Deaf;

impl Listen for Deaf {
    fn hear(&mut self, _bytes: &[u8]) {}
}

/// The first error of the receiver that concerns the delivery with the id 0, as a text for people [2.8.14].
#[derive(Drop)]
pub struct Why {
    input: Splitter,
    text: Page,
}

impl Why {
    /// Makes one that has heard nothing. Takes all the memory that it ever needs; an error says that it is refused.
    pub fn new(alloc: Global) -> Result<Why, AllocError> {
        Ok(Why {
            input: Splitter::new(alloc, MAX_FRAME_SIZE as usize)?,
            text: Page::fixed(alloc, MOST)?,
        })
    }

    /// Returns what ended or was rejected, and its error: the condition, and the description if there is one, both as
    /// `amqp dump` prints strings. The text is printable ASCII. It is `None` if the receiver gave no error.
    pub fn text(&self) -> Option<&str> {
        let text = self.text.begun();
        if text.is_empty() {
            return None;
        }
        str::from_utf8(text).ok()
    }
}

impl Listen for Why {
    fn hear(&mut self, bytes: &[u8]) {
        self.input.push(bytes);
        if let Some(Ok(frame)) = self.input.frame()
            && let Ok((performative, _)) = read_body(frame.body)
        {
            note(&mut self.text, &performative);
        }
        self.input.drop_frame();
    }
}

/// Whether a disposition is of the receiver, and of the delivery with the id 0 [2.7.6].
fn concerns(p: &Disposition<'_>) -> bool {
    let last = p.last.unwrap_or(p.first);
    p.role == Role::Receiver && Serial(0).in_range(Serial(p.first), Serial(last))
}

/// Puts the error of a performative, if it has one.
fn note(text: &mut Page, performative: &Performative<'_>) {
    match performative {
        Performative::Disposition(p) if concerns(p) => put(
            text,
            b"rejected",
            rejection_in(p.state),
        ),
        Performative::Detach(p) => put(text, b"the link was ended", error_in(p.error)),
        Performative::End(p) => put(text, b"the session was ended", error_in(p.error)),
        Performative::Close(p) => put(text, b"the connection was closed", error_in(p.error)),
        _ => {}
    }
}

/// Puts an error after what it is of, unless one was put before.
fn put(text: &mut Page, what: &[u8], error: Option<PeerError<'_>>) {
    let Some(error) = error else {
        return;
    };
    if !text.begun().is_empty() {
        return;
    }
    text.put(what);
    text.put(b" with the error ");
    put_quoted(text, error.condition);
    if let Some(description) = error.description {
        text.put(b": ");
        put_quoted(text, description);
    }
}
