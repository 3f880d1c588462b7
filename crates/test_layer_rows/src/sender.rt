//! A sender of messages.
//!
//! - `sender S L`: a new one, of the container S and with a link of the name L; one may be `255*s`.
//! - `feed HEX by N`: bytes of the receiver, at most N at a time. It answers the last of what they brought.
//! - `offer HEX`, `offer N of HEX`: a message, or one of N times these bytes. One that is refused comes back.
//! - `output`: all that waits to be sent, or `nothing`; `output length` how many bytes that is, and `output count HEX` how
//!   many of them are this one. `bytes M N` are those from M to N of the last output.
//! - `close`: closes the connection, and returns whether it may be closed.

use crate::parts::text_of;
use amqp_send::{News, SendConfig, Sender};
use std::alloc::{AllocError, Global};
use test_row_files::words::{bytes_of, hex_of, name_of, number, two_numbers};
use test_row_files::{Heap, Miss, Subject};

/// A sender, and its last output.
#[derive(Drop)]
pub struct Sending<'a> {
    heap: Heap<'a>,
    sender: Option<Sender<Heap<'a>>>,
    output: Vec<u8>,
}

impl Subject for Sending<'_> {
    fn begin(&mut self) {
        self.sender = None;
        self.output.clear();
    }

    fn call(&mut self, alloc: Global, words: &str) -> Result<String, Miss> {
        match name_of(words) {
            ("sender", names) => self.make(alloc, names),
            ("feed", bytes) => self.feed(alloc, bytes),
            ("offer", message) => self.offer(alloc, message),
            ("output", what) => self.output(alloc, what),
            ("bytes", range) => self.part_of_output(alloc, range),
            ("close", "") => {
                let closed = self.sender()?.close();
                Ok(format!(in alloc; "{closed}")?)
            }
            _ => Err(Miss::Unread("no such call")),
        }
    }

    /// A sender shows nothing besides its answers.
    fn shown(&self, alloc: Global) -> Result<String, Miss> {
        Ok(String::new(alloc))
    }
}

impl<'a> Sending<'a> {
    pub fn new(alloc: Global, heap: Heap<'a>) -> Sending<'a> {
        Sending {
            heap,
            sender: None,
            output: Vec::new(alloc),
        }
    }

    fn sender(&mut self) -> Result<&mut Sender<Heap<'a>>, Miss> {
        self.sender.as_mut().ok_or(Miss::Unread("no sender"))
    }

    fn make(&mut self, alloc: Global, names: &str) -> Result<String, Miss> {
        let (container_id, name) = names.split_once(' ').ok_or("two names")?;
        let (container_id, name) = (text_of(alloc, container_id)?, text_of(alloc, name)?);
        let made = sender_of(self.heap, container_id.as_str(), name.as_str())?;
        if made.is_none() {
            return refused(alloc);
        }
        self.sender = made;
        Ok(String::from_str(alloc, "made")?)
    }

    fn feed(&mut self, alloc: Global, words: &str) -> Result<String, Miss> {
        let (hex, size) = words.split_once(" by ").ok_or("no by")?;
        let bytes = bytes_of(alloc, hex)?;
        let size = number(size)? as usize;
        let sender = self.sender()?;
        let mut last = None;
        for piece in bytes.chunks(size.max(1)) {
            last = fed(sender, piece).or(last);
        }
        Ok(format!(in alloc; "{last:?}")?)
    }

    fn offer(&mut self, alloc: Global, words: &str) -> Result<String, Miss> {
        let Ok(message) = message_of(alloc, self.heap, words)? else {
            return refused(alloc);
        };
        match self.sender()?.offer(message) {
            Ok(()) => Ok(String::from_str(alloc, "taken")?),
            Err((fault, back)) => {
                let back = hex_of(alloc, back.as_slice())?;
                Ok(format!(in alloc; "refused {fault:?} {back}")?)
            }
        }
    }

    fn output(&mut self, alloc: Global, what: &str) -> Result<String, Miss> {
        self.move_out()?;
        match name_of(what) {
            ("", "") if self.output.is_empty() => Ok(String::from_str(alloc, "nothing")?),
            ("", "") => hex_of(alloc, &self.output),
            ("length", "") => Ok(format!(in alloc; "{}", self.output.len())?),
            ("count", hex) => {
                let wanted = bytes_of(alloc, hex)?;
                let wanted = wanted.first().ok_or("no byte")?;
                let count = self.output.iter().filter(|byte| *byte == wanted).count();
                Ok(format!(in alloc; "{count}")?)
            }
            _ => Err(Miss::Unread("no such output")),
        }
    }

    /// Moves out all that waits, in pieces of at most a hundred bytes.
    fn move_out(&mut self) -> Result<(), Miss> {
        self.output.clear();
        let mut room = [0; 100];
        for _ in 0..1000 {
            let count = self.sender()?.output(&mut room).min(100);
            self.output.extend_from_slice(&room[..count])?;
        }
        Ok(())
    }

    fn part_of_output(&self, alloc: Global, words: &str) -> Result<String, Miss> {
        let (first, end) = two_numbers(words)?;
        let part = self
            .output
            .get(first as usize..end as usize)
            .ok_or("too few bytes")?;
        hex_of(alloc, part)
    }
}

/// Returns what a call answers that was refused memory.
fn refused(alloc: Global) -> Result<String, Miss> {
    Ok(String::from_str(alloc, "Err(NoMemory)")?)
}

/// Returns a sender of this container and name of its link; nothing if it is refused memory.
fn sender_of<'a>(
    heap: Heap<'a>,
    container_id: &str,
    name: &str,
) -> Result<Option<Sender<Heap<'a>>>, Miss> {
    let Ok(config) = config_of(heap, container_id, name) else {
        return Ok(None);
    };
    if config.container_id.len() > 255 || config.name.len() > 255 {
        return Err(Miss::Unread("a name is too long"));
    }
    Ok(Sender::new(heap, config).ok())
}

fn config_of<'a>(
    heap: Heap<'a>,
    container_id: &str,
    name: &str,
) -> Result<SendConfig<Heap<'a>>, AllocError> {
    Ok(SendConfig {
        container_id: String::from_str(heap, container_id)?,
        name: String::from_str(heap, name)?,
    })
}

/// Feeds a piece whole, and returns the last of what it brought.
fn fed(sender: &mut Sender<Heap<'_>>, piece: &[u8]) -> Option<News> {
    let mut last = None;
    let mut rest = piece;
    for _ in 0..piece.len() {
        let (used, news) = sender.feed(rest);
        rest = &rest[used..];
        last = news.or(last);
    }
    last
}

/// Returns the message that a call names, in the memory of the heap; an error if that is refused.
fn message_of<'a>(
    alloc: Global,
    heap: Heap<'a>,
    words: &str,
) -> Result<Result<Vec<u8, Heap<'a>>, AllocError>, Miss> {
    let (count, hex) = match words.split_once(" of ") {
        Some((count, hex)) => (number(count)?, hex),
        None => (1, words),
    };
    let bytes = bytes_of(alloc, hex)?;
    Ok(repeated(heap, &bytes, count))
}

fn repeated<'a>(heap: Heap<'a>, bytes: &[u8], count: u32) -> Result<Vec<u8, Heap<'a>>, AllocError> {
    let mut all = Vec::with_capacity(heap, bytes.len().saturating_mul(count as usize))?;
    for _ in 0..count {
        all.extend_from_slice(bytes)?;
    }
    Ok(all)
}
