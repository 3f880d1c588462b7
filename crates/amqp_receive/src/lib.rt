//! Receives messages over sockets: what `amqp recv` does.
//!
//! Begin reading at [`recv_on`]. It accepts one connection after the other and lets `amqp_serve` serve each; `amqp_trace` shows
//! what passes. The tests are in `test_amqp`.
#![tactic(auto)]

ghost use Rattle.std.specs.Prelude.{◌≡◌, ◌≢◌, ◌↔◌, Err, IsTrue};
ghost use Rattle.amqp_frame.specs.Devices.{has_failed};

use amqp_endpoint::{Config, End, Endpoint};
use amqp_frame::Device;
use amqp_serve::{Policy, ServeFault, serve_watched};
use amqp_trace::{Cause, Host, Trace, TracedReader, TracedWriter};
use std::alloc::{AllocError, Global};
use std::cell::Cell;
use std::fmt::{self, Display, Formatter};
use std::io::{self, BufReader, BufWriter, ErrorKind, Read, Write};
use std::net::{OpenListener, OpenStream, SocketAddr};
use std::time::Duration;

/// How many bytes are read from a socket at once, except the rest of a longer frame. As many are written at once
/// to a socket, or of records to standard output.
pub const BUFFER: usize = 65_536;

/// How a connection was served.
#[derive(Clone, Copy, Debug, PartialEq, Eq)]
enum Ending {
    /// The peer closed it.
    Closed,
    /// This side ended it with an error, or refused its header.
    Failed,
    /// The input ended between two frames.
    Between,
    /// The input ended inside a frame.
    Inside,
    /// It could not be accepted, or not be read.
    Read,
    /// It could not be written to.
    Write,
    /// A record could not be written.
    Sink,
    /// Memory was refused.
    NoMemory,
    /// The peer said nothing, or took nothing, for too long.
    Idle,
}

impl Display for Ending {
    fn fmt<W: fmt::Write>(&self, f: &mut Formatter<W>) -> fmt::Result {
        f.write_str(match self {
            Ending::Closed => "Closed",
            Ending::Failed => "Failed",
            Ending::Between => "Between",
            Ending::Inside => "Inside",
            Ending::Read => "Read",
            Ending::Write => "Write",
            Ending::Sink => "Sink",
            Ending::NoMemory => "NoMemory",
            Ending::Idle => "Idle",
        })
    }
}

/// Returns how a connection was served, by the answer of `serve` and whether its socket was waited for in vain.
fn ending_of(served: Result<End, ServeFault>, is_idle: bool) -> Ending
    ensures { (result ≡ Ending.Sink) ↔ (served ≡ Err ServeFault.Sink) }
{
    match served {
        Ok(End::Closed) => Ending::Closed,
        Ok(End::Failed) => Ending::Failed,
        Ok(End::Between) => Ending::Between,
        Ok(End::Inside(_)) => Ending::Inside,
        Err(ServeFault::Read | ServeFault::Write) if is_idle => Ending::Idle,
        Err(ServeFault::Read) => Ending::Read,
        Err(ServeFault::Write) => Ending::Write,
        Err(ServeFault::Sink) => Ending::Sink,
        Err(ServeFault::NoMemory) => Ending::NoMemory,
    }
}

/// Accepts `connections` connections, one after the other, and serves each by a new endpoint with the settings
/// `config`. The records of messages go to `sink`. A line for each connection goes to `log`, whose failures are
/// ignored: `connection K: ` and how it was served. If `idle` is given, a peer is left when its socket gives or
/// takes nothing for that long. What passes is reported to a trace, if there is one. After a failure of the sink
/// no more is accepted. Returns whether each connection was closed by its peer.
pub fn recv_on<L: OpenListener, S: Write + Drop, W: Write + Drop, H: Host + Drop>(
    alloc: Global,
    listener: &L,
    config: &Config,
    policy: Policy,
    connections: u32,
    idle: Option<Duration>,
    sink: &mut Device<S>,
    log: &impl Eprint,
    trace: Option<&Trace<W, H>>,
) -> bool
where
    L::Stream: Read + Write + OpenStream + Drop,
    requires { ¬ (IsTrue (has_failed sink.old)) }
{
    let mut all_closed = true;
    for number in 1..=connections {
        if let Some(trace) = trace {
            trace.begin(u64::from(number));
        }
        let patience = Patience::new(idle);
        let served = serve_next(alloc, listener, config, policy, &patience, sink, trace);
        let told = ending_of(served, patience.is_over());
        if let Some(trace) = trace {
            match (told, served) {
                (Ending::Idle, Err(ServeFault::Write)) => trace.give_up(Cause::Deaf),
                (Ending::Idle, _) => trace.give_up(Cause::Idle),
                _ => trace.end(served),
            }
        }
        let _ = eprintln!(log; "connection {number}: {told}");
        if told != Ending::Closed {
            all_closed = false;
        }
        if told == Ending::Sink {
            break;
        }
    }
    all_closed
}

/// How long the socket of a peer is waited for, if not for ever, and whether one was waited for in vain.
#[derive(Drop)]
struct Patience {
    limit: Option<Duration>,
    is_over: Cell<bool>,
}

impl Patience {
    fn new(limit: Option<Duration>) -> Patience {
        Patience {
            limit,
            is_over: Cell::new(false),
        }
    }

    fn is_over(&self) -> bool {
        self.is_over.get()
    }

    /// Notes a result of the socket.
    fn note(&self, answer: &io::Result<usize>) {
        if let Err(error) = answer {
            let is_late = matches!(error.kind(), ErrorKind::WouldBlock | ErrorKind::TimedOut);
            self.is_over.set(is_late && self.limit.is_some());
        }
    }
}

/// The socket of a peer, which is waited for as long as the patience says.
#[derive(Drop)]
struct Awaited<'p, C: Drop> {
    stream: C,
    patience: &'p Patience,
}

impl<C: Read + Drop> Read for Awaited<'_, C> {
    fn read(&mut self, buf: &mut [u8]) -> io::Result<usize> {
        let answer = self.stream.read(buf);
        self.patience.note(&answer);
        answer
    }
}

impl<C: Write + Drop> Write for Awaited<'_, C> {
    fn write(&mut self, buf: &[u8]) -> io::Result<usize> {
        let answer = self.stream.write(buf);
        self.patience.note(&answer);
        answer
    }

    fn flush(&mut self) -> io::Result<()> {
        self.stream.flush()
    }
}

/// A connection that was accepted. Its input and its output are buffered, so that what answers one read goes out at once.
struct Accepted<'p, C: Read + Write + Drop> {
    endpoint: Endpoint,
    input: BufReader<Awaited<'p, C>>,
    output: BufWriter<Awaited<'p, C>>,
}

/// Accepts a connection.
fn accept<'p, L: OpenListener>(
    alloc: Global,
    listener: &L,
    config: &Config,
    patience: &'p Patience,
) -> Result<(Accepted<'p, L::Stream>, SocketAddr), ServeFault>
where
    L::Stream: Read + Write + OpenStream + Drop,
    ensures { result ≢ Err ServeFault.Sink }
{
    let Ok((stream, peer)) = listener.accept() else {
        return Err(ServeFault::Read);
    };
    let _ = stream.set_nodelay(true);
    if patience.limit.is_some() && limit_waits(&stream, patience.limit).is_err() {
        return Err(ServeFault::Read);
    }
    let Ok(other) = stream.try_clone() else {
        return Err(ServeFault::Read);
    };
    let Ok(endpoint) = new_endpoint(alloc, config) else {
        return Err(ServeFault::NoMemory);
    };
    let Ok(input) = BufReader::with_capacity(alloc, BUFFER, Awaited { stream, patience }) else {
        return Err(ServeFault::NoMemory);
    };
    let stream = other;
    let Ok(output) = BufWriter::with_capacity(alloc, BUFFER, Awaited { stream, patience }) else {
        return Err(ServeFault::NoMemory);
    };
    let accepted = Accepted {
        endpoint,
        input,
        output,
    };
    Ok((accepted, peer))
}

/// Lets the socket wait at most this long.
fn limit_waits<C: OpenStream>(stream: &C, limit: Option<Duration>) -> io::Result<()> {
    stream.set_read_timeout(limit)?;
    stream.set_write_timeout(limit)
}

/// Accepts a connection, and serves it. What passes is reported to a trace, if there is one.
fn serve_next<L: OpenListener, S: Write + Drop, W: Write + Drop, H: Host + Drop>(
    alloc: Global,
    listener: &L,
    config: &Config,
    policy: Policy,
    patience: &Patience,
    sink: &mut Device<S>,
    trace: Option<&Trace<W, H>>,
) -> Result<End, ServeFault>
where
    L::Stream: Read + Write + OpenStream + Drop,
    requires { ¬ (IsTrue (has_failed sink.old)) }
    ensures { (result ≡ Err ServeFault.Sink) ↔ IsTrue (has_failed sink.new) }
{
    let (accepted, peer) = match accept(alloc, listener, config, patience) {
        Ok(accepted) => accepted,
        Err(fault) => return Err(fault),
    };
    if let Some(trace) = trace {
        trace.met(peer);
    }
    let Accepted {
        mut endpoint,
        input,
        output,
    } = accepted;
    let mut watch = trace;
    let mut reader = Device::new(TracedReader::new(input, trace));
    let mut writer = Device::new(TracedWriter::new(output, trace));
    let served = serve_watched(
        &mut endpoint,
        &mut reader,
        &mut writer,
        sink,
        policy,
        &mut watch,
    );
    if served == Err(ServeFault::Sink) || patience.is_over() {
        give_up(writer.into_inner().into_inner());
    }
    served
}

/// Throws away what waits to be sent: answers to messages wait for records that may be lost, or the socket takes nothing.
fn give_up<C: Write + Drop>(output: BufWriter<C>) {
    let _ = output.into_parts();
}

fn new_endpoint(alloc: Global, config: &Config) -> Result<Endpoint, AllocError> {
    Endpoint::new(alloc, config.copy(alloc)?)
}
