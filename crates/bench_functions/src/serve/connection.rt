//! A connection over bytes in memory, as a receiver over a socket serves it.
ghost use Rattle.std.specs.Prelude.{◌≡◌, [], IfOk, IsTrue};
ghost use Rattle.amqp_frame.specs.Devices.{has_failed};

use crate::measure::Failure;
use crate::serve::{Case, MESSAGE};
use crate::stream::{Block, MAX_FRAME, Shape, opening};
use amqp_endpoint::{Config, End, Endpoint};
use amqp_frame::{AtHand, Device, HoldsBack};
use amqp_perform::Outcome;
use amqp_serve::{Policy, Rule, ServeFault, Server, ServerFault, serve};
use std::alloc::{AllocError, Global};
use std::io::{self, BufReader, BufWriter, Read, Write};

/// How many bytes of a socket, or for one, are buffered.
const BUFFER: usize = 65536;

/// The places of the session's window at its begin.
const WINDOW: u32 = 2048;

/// The bytes of a record.
const RECORD: u64 = 18 + MESSAGE as u64;

/// Why not all messages were served.
#[derive(Debug, Drop)]
pub enum Stopped {
    Io(io::Error),
    /// The settings were refused.
    Settings,
    Fault(ServeFault),
    Refused(ServerFault),
    /// The connection did not stand between two frames then.
    Ended(End),
    /// Not all that was sent is recorded.
    Lost,
}

impl From<io::Error> for Stopped {
    fn from(error: io::Error) -> Stopped {
        Stopped::Io(error)
    }
}

impl From<AllocError> for Stopped {
    fn from(error: AllocError) -> Stopped {
        Stopped::Io(error.into())
    }
}

impl From<ServeFault> for Stopped {
    fn from(fault: ServeFault) -> Stopped {
        Stopped::Fault(fault)
    }
}

impl From<ServerFault> for Stopped {
    fn from(fault: ServerFault) -> Stopped {
        Stopped::Refused(fault)
    }
}

impl From<Stopped> for Failure {
    fn from(stopped: Stopped) -> Failure {
        Failure::Serve(stopped)
    }
}

/// What was served: this many messages, and the bytes of their answers and their records.
#[derive(Clone, Copy)]
pub struct Served {
    pub messages: u32,
    pub answered: u64,
    pub recorded: u64,
}

/// Serves a connection on which blocks of messages come until they are at least this many.
pub fn serve_all(alloc: Global, case: Case, messages: u32) -> Result<Served, Stopped> {
    let mut sender = Sender::new(alloc, case.links, messages)?;
    let (mut answers, mut records) = (Tally { bytes: 0 }, Tally { bytes: 0 });
    let end = match case.mark {
        Some(mark) => {
            let rule = Rule {
                credit: case.credit,
                mark,
                outcome: Outcome::Accepted,
            };
            step_through(alloc, rule, &mut sender, &mut answers, &mut records)?
        }
        None => connect(alloc, case.credit, &mut sender, &mut answers, &mut records)?,
    };
    match end {
        End::Between => {}
        end => return Err(Stopped::Ended(end)),
    }
    if records.bytes != RECORD.wrapping_mul(u64::from(sender.sent)) {
        return Err(Stopped::Lost);
    }
    Ok(Served {
        messages: sender.sent,
        answered: answers.bytes,
        recorded: records.bytes,
    })
}

/// Serves what a sender sends, each link kept at this credit.
fn connect(
    alloc: Global,
    credit: u32,
    sender: &mut Sender,
    answers: &mut Tally,
    records: &mut Tally,
) -> Result<End, Stopped> {
    let mut endpoint = new_endpoint(alloc, credit)?;
    connect_to(alloc, &mut endpoint, credit, sender, answers, records)
}

/// Serves what a sender sends by this endpoint.
// The body borrows what it uses: one that may drop it at each exit takes minutes to prove.
fn connect_to(
    alloc: Global,
    endpoint: &mut Endpoint,
    credit: u32,
    sender: &mut Sender,
    answers: &mut Tally,
    records: &mut Tally,
) -> Result<End, Stopped> {
    let mut reader = Device::new(BufReader::with_capacity(alloc, BUFFER, sender)?);
    let mut writer = Device::new(BufWriter::with_capacity(alloc, BUFFER, answers)?);
    let mut sink = Device::new(BufWriter::with_capacity(alloc, BUFFER, records)?);
    serve_over(endpoint, credit, &mut reader, &mut writer, &mut sink)
}

/// Serves it over these devices.
fn serve_over<R: AtHand + Drop, W: Write + HoldsBack + Drop, S: Write + Drop>(
    endpoint: &mut Endpoint,
    credit: u32,
    reader: &mut Device<R>,
    writer: &mut Device<W>,
    sink: &mut Device<S>,
) -> Result<End, Stopped>
    requires reader { ¬ (IsTrue (has_failed reader.old)) }
    requires writer { ¬ (IsTrue (has_failed writer.old)) }
    requires sink { ¬ (IsTrue (has_failed sink.old)) }
{
    let policy = Policy {
        credit,
        outcome: Outcome::Accepted,
    };
    Ok(serve(endpoint, reader, writer, sink, policy)?)
}

/// Returns an endpoint whose links are allowed this much credit.
fn new_endpoint(alloc: Global, credit: u32) -> Result<Endpoint, Stopped>
    ensures { IfOk result (λ endpoint. endpoint.unsent ≡ []) }
{
    let name = String::from_str(alloc, "bench")?;
    let settings = Config::checked(name, MAX_FRAME, 7, 255, credit, MESSAGE, WINDOW);
    Ok(Endpoint::new(alloc, settings.ok_or(Stopped::Settings)?)?)
}

/// Steps a server through what a sender sends.
fn step_through(
    alloc: Global,
    rule: Rule,
    sender: &mut Sender,
    answers: &mut Tally,
    records: &mut Tally,
) -> Result<End, Stopped> {
    let mut server = Server::new(new_endpoint(alloc, rule.credit)?);
    step_to(alloc, &mut server, rule, sender, answers, records)?;
    Ok(server.finish()?)
}

/// Steps this server through what a sender sends.
fn step_to(
    alloc: Global,
    server: &mut Server,
    rule: Rule,
    sender: &mut Sender,
    answers: &mut Tally,
    records: &mut Tally,
) -> Result<(), Stopped> {
    let mut writer = Device::new(BufWriter::with_capacity(alloc, BUFFER, answers)?);
    let mut sink = Device::new(BufWriter::with_capacity(alloc, BUFFER, records)?);
    let mut buffer = Vec::from_elem(alloc, 0, BUFFER)?;
    step_over(server, rule, sender, &mut buffer, &mut writer, &mut sink)
}

/// Steps it over these devices.
fn step_over<W: Write + HoldsBack + Drop, S: Write + Drop>(
    server: &mut Server,
    rule: Rule,
    sender: &mut Sender,
    buffer: &mut [u8],
    writer: &mut Device<W>,
    sink: &mut Device<S>,
) -> Result<(), Stopped> {
    for _ in 0..u64::MAX {
        let count = sender.read(buffer)?;
        if count == 0 {
            break;
        }
        let mut rest = buffer.get(..count).unwrap_or(&[]);
        for _ in 0..count {
            if rest.is_empty() || writer.failed() || sink.failed() {
                break;
            }
            let stepped = server.step(rule, rest, writer, sink);
            stepped.done?;
            rest = rest.get(stepped.used..).unwrap_or(&[]);
        }
    }
    sink.flush()?;
    writer.flush()?;
    Ok(())
}

/// What a peer sends: its opening, and a block of messages again and again, each time with the next ids.
#[derive(Drop)]
struct Sender {
    opening: Vec<u8>,
    block: Block,
    /// How many bytes were read of the opening, or of the block once some messages were sent.
    read: usize,
    sent: u32,
    wanted: u32,
}

impl Sender {
    fn new(alloc: Global, links: u16, wanted: u32) -> Result<Sender, AllocError> {
        let shape = Shape {
            message: MESSAGE,
            sessions: 1,
            links,
        };
        Ok(Sender {
            opening: opening(alloc, 1, links)?,
            block: Block::new(alloc, shape)?,
            read: 0,
            sent: 0,
            wanted,
        })
    }

    /// Returns what is to be read before the next block.
    fn rest(&self) -> &[u8] {
        let bytes = if self.sent == 0 {
            &self.opening
        } else {
            &self.block.bytes
        };
        bytes.get(self.read..).unwrap_or(&[])
    }

    /// Begins the next block.
    fn go_on(&mut self) {
        self.block.number(self.sent);
        self.sent = self.sent.saturating_add(self.block.messages());
        self.read = 0;
    }
}

impl Read for Sender {
    fn read(&mut self, buf: &mut [u8]) -> io::Result<usize> {
        if self.rest().is_empty() && self.sent < self.wanted {
            self.go_on();
        }
        let rest = self.rest();
        let count = buf.len().min(rest.len());
        buf[..count].copy_from_slice(&rest[..count]);
        self.read = self.read.saturating_add(count);
        Ok(count)
    }
}

/// Counts the bytes that are written.
#[derive(Drop)]
struct Tally {
    bytes: u64,
}

impl Write for Tally {
    fn write(&mut self, buf: &[u8]) -> io::Result<usize> {
        self.bytes = self.bytes.wrapping_add(buf.len() as u64);
        Ok(buf.len())
    }

    fn flush(&mut self) -> io::Result<()> {
        Ok(())
    }
}
