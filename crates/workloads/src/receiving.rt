//! A connection that is served over bytes in memory, as a receiver over a socket serves it.

ghost use Rattle.std.specs.Prelude.{IsTrue};
ghost use Rattle.amqp_frame.specs.Devices.{has_failed};

use crate::desk::Desk;
use crate::failure::Failure;
use amqp_endpoint::{Config, End, Endpoint};
use amqp_frame::{AtHand, Device, HEADER, HoldsBack};
use amqp_perform::Outcome;
use amqp_serve::{Policy, serve};
use std::io::{self, BufReader, BufWriter, Read, Write};

/// How many bytes of answers and of records are written at once.
const BUFFER: usize = 65536;

/// The bytes of a record before its message.
pub const RECORD_HEAD: u64 = 18;

/// What a read brings.
#[derive(Clone, Copy)]
pub enum Reads {
    /// This many bytes at most.
    AtMost(u32),
    /// The header, or one frame, which is no longer than the buffer.
    OneFrame,
}

impl Reads {
    /// Returns the bytes that are buffered at most.
    fn buffer(self) -> usize {
        match self {
            Reads::AtMost(bytes) => bytes as usize,
            Reads::OneFrame => BUFFER,
        }
    }

    /// Returns how many bytes a read brings at most, of these that are left.
    fn at_once(self, rest: &[u8]) -> usize {
        match self {
            Reads::AtMost(bytes) => bytes as usize,
            Reads::OneFrame => first_unit(rest),
        }
    }
}

/// Returns how long the header is at the front of these bytes, or the frame.
fn first_unit(bytes: &[u8]) -> usize {
    if bytes.starts_with(&HEADER) {
        return HEADER.len();
    }
    match bytes {
        [s0, s1, s2, s3, ..] => u32::from_be_bytes([*s0, *s1, *s2, *s3]) as usize,
        _ => bytes.len(),
    }
}

/// How a connection is served.
#[derive(Clone, Copy)]
pub struct Receiver {
    pub reads: Reads,
    /// The credit that each link is kept at, and the deliveries that it may have open.
    pub credit: u32,
}

impl Receiver {
    /// Serves a connection whose peer sends what the desk has, and adds what was answered and recorded.
    pub fn serve(&self, desk: &mut Desk) -> Result<(), Failure> {
        let alloc = desk.alloc;
        let name = String::from_str(alloc, "recv")?;
        let checked = Config::checked(name, 65536, 7, 7, self.credit, 1 << 20, 2048);
        let mut endpoint = Endpoint::new(alloc, checked.ok_or(Failure::Settings)?)?;
        self.serve_by(&mut endpoint, desk)
    }

    /// Serves it by this endpoint.
    // The body borrows what it uses: one that may drop it at each exit takes minutes to prove.
    fn serve_by(&self, endpoint: &mut Endpoint, desk: &mut Desk) -> Result<(), Failure> {
        let alloc = desk.alloc;
        let policy = Policy {
            credit: self.credit,
            outcome: Outcome::Accepted,
        };
        let stream = Pieces {
            rest: desk.peer.bytes.as_slice(),
            reads: self.reads,
        };
        let input = BufReader::with_capacity(alloc, self.reads.buffer(), stream)?;
        let mut reader = Device::new(input);
        let mut writer = Device::new(BufWriter::with_capacity(alloc, BUFFER, &mut desk.answers)?);
        let mut sink = Device::new(BufWriter::with_capacity(alloc, BUFFER, &mut desk.records)?);
        serve_over(endpoint, &mut reader, &mut writer, &mut sink, policy)
    }
}

/// Serves it over these devices to its end.
fn serve_over<R: AtHand + Drop, W: Write + HoldsBack + Drop, S: Write + Drop>(
    endpoint: &mut Endpoint,
    reader: &mut Device<R>,
    writer: &mut Device<W>,
    sink: &mut Device<S>,
    policy: Policy,
) -> Result<(), Failure>
    requires reader { ¬ (IsTrue (has_failed reader.old)) }
    requires writer { ¬ (IsTrue (has_failed writer.old)) }
    requires sink { ¬ (IsTrue (has_failed sink.old)) }
{
    match serve(endpoint, reader, writer, sink, policy) {
        Ok(End::Closed) => Ok(()),
        Ok(end) => Err(Failure::Ended(end)),
        Err(fault) => Err(Failure::Serve(fault)),
    }
}

/// Bytes of which a read brings some.
#[derive(Drop)]
struct Pieces<'a> {
    rest: &'a [u8],
    reads: Reads,
}

impl Read for Pieces<'_> {
    fn read(&mut self, buf: &mut [u8]) -> io::Result<usize> {
        let most = self.reads.at_once(self.rest);
        let count = buf.len().min(most).min(self.rest.len());
        let (piece, behind) = self.rest.split_at(count);
        buf[..count].copy_from_slice(piece);
        self.rest = behind;
        Ok(count)
    }
}
