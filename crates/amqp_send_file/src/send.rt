//! Sends one message over a connection.

ghost use Rattle.std.specs.Prelude.{◌≡◌, ◌≢◌, ◌↔◌, ◌<◌, ◌≤◌, Err, IsTrue, IfOk, IfSome, length};
ghost use Rattle.amqp_frame.specs.Devices.{has_failed};

use crate::why::{Deaf, Listen};
use amqp_frame::Device;
use amqp_perform::Outcome;
use amqp_send::{News, Sender};
use amqp_serial::Serial;
use std::alloc::{Allocator, Global};
use std::fmt::{self, Display, Formatter};
use std::io::{Read, Write};
use thiserror::Error;

/// How many bytes are read or written at once.
const PIECE: usize = 4096;

/// What became of the message.
#[derive(Clone, Copy, Debug, PartialEq, Eq)]
pub enum Fate {
    Accepted,
    Rejected,
    Released,
    Modified,
    /// The receiver settled it without an outcome.
    Settled,
    /// The sender or the input ended before the receiver said what became of it.
    Ended,
}

impl Display for Fate {
    fn fmt<W: fmt::Write>(&self, f: &mut Formatter<W>) -> fmt::Result {
        match self {
            Fate::Accepted => f.write_str("accepted"),
            Fate::Rejected => f.write_str("rejected"),
            Fate::Released => f.write_str("released"),
            Fate::Modified => f.write_str("modified"),
            Fate::Settled => f.write_str("settled"),
            Fate::Ended => f.write_str("ended"),
        }
    }
}

/// The fate of the message, and the part of the piece that told it which is not fed yet.
#[derive(Clone, Copy)]
struct Met {
    fate: Fate,
    at: usize,
    end: usize,
}

/// Why a message was not sent to its end.
#[derive(Clone, Copy, Debug, PartialEq, Eq, Drop, Error)]
pub enum SendFault {
    /// The reader has failed.
    #[error("Read")]
    Read,
    /// The writer has failed.
    #[error("Write")]
    Write,
}

/// Sends a message by a new sender, and returns what became of it. It offers the message, feeds what it reads and
/// writes all output in turn. That ends when the receiver says what became of the delivery with the id 0, or when
/// the sender or the input ends. If the receiver said it, the connection is closed, and the input is read until
/// the receiver's close or its end. Takes no memory.
///
/// # Errors
///
/// `Read` and `Write` if that device has failed.
pub fn send_all<A: Allocator + Copy, R: Read + Drop, W: Write + Drop>(
    sender: &mut Sender<A>,
    reader: &mut Device<R>,
    writer: &mut Device<W>,
    message: Vec<u8, A>,
) -> Result<Fate, SendFault>
    requires reader { ¬ (IsTrue (has_failed reader.old)) }
    requires writer { ¬ (IsTrue (has_failed writer.old)) }
    ensures read { (result ≡ Err SendFault.Read) ↔ IsTrue (has_failed reader.new) }
    ensures write { (result ≡ Err SendFault.Write) ↔ IsTrue (has_failed writer.new) }
{
    send_all_heard(sender, &mut Deaf, reader, writer, message)
}

/// Sends a message as [`send_all`] does, and lets `listener` hear what the receiver sends until it says what became of it.
///
/// # Errors
///
/// `Read` and `Write` if that device has failed.
pub fn send_all_heard<A: Allocator + Copy, L: Listen, R: Read + Drop, W: Write + Drop>(
    sender: &mut Sender<A>,
    listener: &mut L,
    reader: &mut Device<R>,
    writer: &mut Device<W>,
    message: Vec<u8, A>,
) -> Result<Fate, SendFault>
    requires reader { ¬ (IsTrue (has_failed reader.old)) }
    requires writer { ¬ (IsTrue (has_failed writer.old)) }
    ensures read { (result ≡ Err SendFault.Read) ↔ IsTrue (has_failed reader.new) }
    ensures write { (result ≡ Err SendFault.Write) ↔ IsTrue (has_failed writer.new) }
{
    let mut piece = [0; PIECE];
    let _ = sender.offer(message);
    write_out(sender, writer)?;
    let met = await_fate(sender, listener, reader, writer, &mut piece)?;
    if met.fate != Fate::Ended {
        let _ = sender.close();
        write_out(sender, writer)?;
        if !is_closed_by(sender, &piece[met.at..met.end]) {
            await_close(sender, reader, &mut piece)?;
        }
    }
    Ok(met.fate)
}

/// Writes all that waits to be sent.
fn write_out<A: Allocator + Copy, W: Write + Drop>(
    sender: &mut Sender<A>,
    writer: &mut Device<W>,
) -> Result<(), SendFault>
    requires { ¬ (IsTrue (has_failed writer.old)) }
    ensures read { result ≢ Err SendFault.Read }
    ensures write { (result ≡ Err SendFault.Write) ↔ IsTrue (has_failed writer.new) }
{
    let mut room = [0; PIECE];
    'pieces: loop {
        let count = sender.output(&mut room);
        if count == 0 {
            return Ok(());
        }
        write_piece(writer, &room[..count])?;
    }
}

/// Writes all of a piece.
fn write_piece<W: Write + Drop>(writer: &mut Device<W>, piece: &[u8]) -> Result<(), SendFault>
    requires { ¬ (IsTrue (has_failed writer.old)) }
    ensures read { result ≢ Err SendFault.Read }
    ensures write { (result ≡ Err SendFault.Write) ↔ IsTrue (has_failed writer.new) }
{
    match writer.write_all(piece) {
        Ok(()) => Ok(()),
        Err(_) => Err(SendFault::Write),
    }
}

/// Feeds what is read, and writes what is answered, until the fate of the message is known or the input ends.
fn await_fate<A: Allocator + Copy, L: Listen, R: Read + Drop, W: Write + Drop>(
    sender: &mut Sender<A>,
    listener: &mut L,
    reader: &mut Device<R>,
    writer: &mut Device<W>,
    piece: &mut [u8],
) -> Result<Met, SendFault>
    requires reader { ¬ (IsTrue (has_failed reader.old)) }
    requires writer { ¬ (IsTrue (has_failed writer.old)) }
    requires some { 0 < length piece.old }
    ensures read { (result ≡ Err SendFault.Read) ↔ IsTrue (has_failed reader.new) }
    ensures write { (result ≡ Err SendFault.Write) ↔ IsTrue (has_failed writer.new) }
    ensures length { length piece.new ≡ length piece.old }
    ensures from { IfOk result (λ met. met.at ≤ met.end) }
    ensures to { IfOk result (λ met. met.end ≤ length piece.old) }
{
    'reads: while !reader.ended() {
        let end = match reader.read(piece) {
            Ok(count) => count,
            Err(_) => return Err(SendFault::Read),
        };
        if let Some((fate, at)) = fate_in(sender, listener, writer, &piece[..end])? {
            return Ok(Met { fate, at, end });
        }
    }
    Ok(Met {
        fate: Fate::Ended,
        at: 0,
        end: 0,
    })
}

/// Feeds a piece, and writes what is answered, until it is used up or has the fate of the message. Returns that
/// fate, if it came, and how many bytes were fed.
fn fate_in<A: Allocator + Copy, L: Listen, W: Write + Drop>(
    sender: &mut Sender<A>,
    listener: &mut L,
    writer: &mut Device<W>,
    piece: &[u8],
) -> Result<Option<(Fate, usize)>, SendFault>
    requires { ¬ (IsTrue (has_failed writer.old)) }
    ensures read { result ≢ Err SendFault.Read }
    ensures write { (result ≡ Err SendFault.Write) ↔ IsTrue (has_failed writer.new) }
    ensures within { IfOk result (λ met. IfSome met (λ x. x.1 ≤ length piece.now)) }
{
    let mut at = 0;
    'units: while at < piece.len() {
        let (used, news) = sender.feed(&piece[at..]);
        listener.hear(&piece[at..at + used]);
        write_out(sender, writer)?;
        at += used;
        if let Some(fate) = fate_by(news) {
            return Ok(Some((fate, at)));
        }
        if used == 0 {
            break;
        }
    }
    Ok(None)
}

/// Returns the fate of the delivery with the id 0, if the news has it.
fn fate_by(news: Option<News>) -> Option<Fate> {
    match news? {
        News::Ended(_) => Some(Fate::Ended),
        News::Disposition {
            first,
            last,
            outcome,
        } => {
            if Serial(0).in_range(Serial(first), Serial(last)) {
                Some(fate_of(outcome))
            } else {
                None
            }
        }
    }
}

fn fate_of(outcome: Option<Outcome>) -> Fate {
    match outcome {
        Some(Outcome::Accepted) => Fate::Accepted,
        Some(Outcome::Rejected) => Fate::Rejected,
        Some(Outcome::Released) => Fate::Released,
        Some(Outcome::Modified { .. }) => Fate::Modified,
        None => Fate::Settled,
    }
}

/// Reads until the receiver's close or the end of the input.
fn await_close<A: Allocator + Copy, R: Read + Drop>(
    sender: &mut Sender<A>,
    reader: &mut Device<R>,
    piece: &mut [u8],
) -> Result<(), SendFault>
    requires some { 0 < length piece.old }
    requires unmarked { ¬ (IsTrue (has_failed reader.old)) }
    ensures read { (result ≡ Err SendFault.Read) ↔ IsTrue (has_failed reader.new) }
    ensures write { result ≢ Err SendFault.Write }
{
    'reads: while !reader.ended() {
        let count = match reader.read(piece) {
            Ok(count) => count,
            Err(_) => return Err(SendFault::Read),
        };
        if is_closed_by(sender, &piece[..count]) {
            break;
        }
    }
    Ok(())
}

/// Feeds a piece after the close, and returns whether the receiver's close is in it.
fn is_closed_by<A: Allocator + Copy>(sender: &mut Sender<A>, piece: &[u8]) -> bool {
    let mut at = 0;
    'units: while at < piece.len() {
        let (used, news) = sender.feed(&piece[at..]);
        if news.is_some() {
            return true;
        }
        if used == 0 {
            break;
        }
        at += used;
    }
    false
}
