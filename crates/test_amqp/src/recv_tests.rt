//! Connections one after the other, from a listener in memory.

use amqp_commands::recv::recv_on;
use amqp_endpoint::Config;
use amqp_frame::Device;
use amqp_perform::Outcome;
use amqp_serve::Policy;
use amqp_trace::{Host, Trace, TraceFault, View};
use std::alloc::{AllocError, Global};
use std::cell::{Cell, RefCell};
use std::fmt::Display;
use std::io::{self, ErrorKind, Read, Write};
use std::net::{Ipv4Addr, OpenListener, OpenStream, SocketAddr};
use std::process::Abort;
use std::test::Fail;
use std::time::Duration;

/// The peer's header, open, begin and attach, two deliveries in one transfer each, and a close: 130 bytes.
pub const STREAM: &[u8] =
    b"\x41\x4d\x51\x50\x00\x01\x00\x00\x00\x00\x00\x11\x02\x00\x00\x00\x00\x53\x10\xc0\x04\x01\xa1\x01\x61\x00\x00\x00\x14\x02\x00\x00\x00\x00\x53\x11\xc0\x07\x04\x40\x43\x52\x64\x52\x64\x00\x00\x00\x20\x02\x00\x00\x00\x00\x53\x12\xc0\x13\x0a\xa1\x01\x6c\x43\x42\x40\x40\x00\x53\x28\x45\x00\x53\x29\x45\x40\x40\x43\x00\x00\x00\x14\x02\x00\x00\x00\x00\x53\x14\xc0\x06\x03\x43\x43\xa0\x01\x74\x78\x00\x00\x00\x15\x02\x00\x00\x00\x00\x53\x14\xc0\x07\x03\x43\x52\x01\xa0\x01\x74\x78\x00\x00\x00\x0c\x02\x00\x00\x00\x00\x53\x18\x45";

/// The records of both messages.
pub const RECORDS: &[u8] =
    b"\x00\x00\x00\x00\x00\x00\x00\x00\x00\x00\x00\x00\x00\x00\x00\x00\x00\x01\x78\x00\x00\x00\x00\x00\x00\x00\x00\x00\x01\x00\x00\x00\x00\x00\x00\x00\x01\x78";

/// How many bytes answer the stream.
const ANSWERS: usize = 221;

/// Hears of no trace.
#[derive(Drop)]
struct Nobody;

impl Host for Nobody {
    fn millis(&self) -> u64 {
        0
    }

    fn lost(&self, _view: View, _fault: TraceFault) {}
}

/// How many bytes the peers were sent, by how many writes, and for how long their sockets wait.
#[derive(Drop)]
struct Wire {
    bytes: Cell<usize>,
    writes: Cell<usize>,
    limits: Cell<[Option<Duration>; 2]>,
}

impl Wire {
    fn new() -> Wire {
        Wire {
            bytes: Cell::new(0),
            writes: Cell::new(0),
            limits: Cell::new([None, None]),
        }
    }
}

/// A peer that sends these bytes, and ends or fails then. It takes all that it is sent, or fails.
#[derive(Clone, Copy, Drop)]
struct Peer<'a> {
    rest: &'a [u8],
    wire: &'a Wire,
    behind: Option<ErrorKind>,
    deaf: Option<ErrorKind>,
}

impl Read for Peer<'_> {
    fn read(&mut self, buf: &mut [u8]) -> io::Result<usize> {
        if let Some(kind) = self.behind
            && self.rest.is_empty()
        {
            return Err(io::Error::from(kind));
        }
        let count = self.rest.len().min(buf.len());
        buf[..count].copy_from_slice(&self.rest[..count]);
        self.rest = &self.rest[count..];
        Ok(count)
    }
}

impl Write for Peer<'_> {
    fn write(&mut self, buf: &[u8]) -> io::Result<usize> {
        if let Some(kind) = self.deaf {
            return Err(io::Error::from(kind));
        }
        let Wire { bytes, writes, .. } = self.wire;
        bytes.set(bytes.get().saturating_add(buf.len()));
        writes.set(writes.get().saturating_add(1));
        Ok(buf.len())
    }

    fn flush(&mut self) -> io::Result<()> {
        Ok(())
    }
}

impl OpenStream for Peer<'_> {
    fn try_clone(&self) -> io::Result<Self> {
        Ok(*self)
    }

    fn set_read_timeout(&self, dur: Option<Duration>) -> io::Result<()> {
        let [_, written] = self.wire.limits.get();
        self.wire.limits.set([dur, written]);
        Ok(())
    }

    fn set_write_timeout(&self, dur: Option<Duration>) -> io::Result<()> {
        let [read, _] = self.wire.limits.get();
        self.wire.limits.set([read, dur]);
        Ok(())
    }
}

/// Accepts these peers one after the other; an absent one, and one more than these, fails.
#[derive(Drop)]
struct Queue<'a> {
    peers: &'a [Option<Peer<'a>>],
    accepted: Cell<usize>,
}

impl<'a> OpenListener for Queue<'a> {
    type Stream = Peer<'a>;

    fn accept(&self) -> io::Result<(Peer<'a>, SocketAddr)> {
        let at = self.accepted.get();
        self.accepted.set(at.saturating_add(1));
        match self.peers.get(at) {
            Some(Some(peer)) => Ok((*peer, SocketAddr::from((Ipv4Addr::LOCALHOST, 1)))),
            _ => Err(io::Error::from(ErrorKind::ConnectionAborted)),
        }
    }
}

/// What was written to it.
#[derive(Drop)]
struct Log {
    text: RefCell<String>,
}

impl Log {
    fn append(&self, text: impl Display + Drop, end: &str) -> io::Result<()> {
        match self.text.try_borrow_mut() {
            Ok(mut taken) => {
                write!(taken, "{text}{end}")?;
                Ok(())
            }
            Err(_) => Err(io::Error::from(ErrorKind::Other)),
        }
    }
}

impl Eprint for Log {
    fn eprint<D: Display + Drop>(&self, value: D) -> io::Result<()> {
        self.append(value, "")
    }

    fn eprintln<D: Display + Drop>(&self, value: D) -> io::Result<()> {
        self.append(value, "\n")
    }
}

/// Keeps this many bytes at most, and then fails.
#[derive(Drop)]
struct Sink {
    bytes: Vec<u8>,
    most: usize,
}

impl Write for Sink {
    fn write(&mut self, buf: &[u8]) -> io::Result<usize> {
        if self.bytes.len().saturating_add(buf.len()) > self.most {
            return Err(io::Error::from(ErrorKind::BrokenPipe));
        }
        match self.bytes.extend_from_slice(buf) {
            Ok(()) => Ok(buf.len()),
            Err(_) => Err(io::Error::from(ErrorKind::OutOfMemory)),
        }
    }

    fn flush(&mut self) -> io::Result<()> {
        Ok(())
    }
}

/// Returns the result of serving these peers, with a sink of this many bytes: whether all were closed, the log,
/// the records.
fn served(
    alloc: Global,
    peers: &[Option<Peer<'_>>],
    connections: u32,
    most: usize,
) -> Result<(bool, String, Vec<u8>), AllocError> {
    let queue = Queue {
        peers,
        accepted: Cell::new(0),
    };
    served_by(alloc, &queue, connections, most)
}

/// Returns the result of serving the peers that a listener has, with a sink of `most` bytes.
pub fn served_by<L: OpenListener>(
    alloc: Global,
    listener: &L,
    connections: u32,
    most: usize,
) -> Result<(bool, String, Vec<u8>), AllocError>
where
    L::Stream: Read + Write + OpenStream + Drop,
{
    let name = String::from_str(alloc, "r")?;
    match Config::checked(name, 512, 0, 1, 4, 10, 100) {
        Some(config) => served_under(alloc, &config, listener, connections, most),
        None => Err(AllocError),
    }
}

/// Returns the result of serving the peers that a listener has, under these settings.
pub fn served_under<L: OpenListener>(
    alloc: Global,
    config: &Config,
    listener: &L,
    connections: u32,
    most: usize,
) -> Result<(bool, String, Vec<u8>), AllocError>
where
    L::Stream: Read + Write + OpenStream + Drop,
{
    served_within(alloc, config, listener, connections, None, most)
}

/// Returns the result of serving the peers that a listener has, each socket of which is waited for at most
/// `idle`.
fn served_within<L: OpenListener>(
    alloc: Global,
    config: &Config,
    listener: &L,
    connections: u32,
    idle: Option<Duration>,
    most: usize,
) -> Result<(bool, String, Vec<u8>), AllocError>
where
    L::Stream: Read + Write + OpenStream + Drop,
{
    let policy = Policy {
        credit: 1,
        outcome: Outcome::Accepted,
    };
    let mut sink = Sink {
        bytes: Vec::new(alloc),
        most,
    };
    let log = Log {
        text: RefCell::new(String::new(alloc)),
    };
    let all_closed = recv_on(
        alloc,
        listener,
        config,
        policy,
        connections,
        idle,
        &mut Device::new(&mut sink),
        &log,
        None::<&Trace<Vec<u8>, Nobody>>,
    );
    Ok((all_closed, log.text.into_inner(), sink.bytes))
}

fn talker<'a>(bytes: &'a [u8], wire: &'a Wire) -> Option<Peer<'a>> {
    Some(Peer {
        rest: bytes,
        wire,
        behind: None,
        deaf: None,
    })
}

/// Room for all records.
pub const AMPLE: usize = 1000;

/// Asserts that both messages of the stream were recorded twice.
fn assert_recorded_twice(rt: &impl Abort, records: &[u8]) {
    assert_eq!(rt; records.len(), 2 * RECORDS.len());
    assert!(rt; records.starts_with(RECORDS) && records.ends_with(RECORDS));
}

#[test]
fn serves_one_after_the_other(rt: HostRuntime) -> Result<(), Fail> {
    let wire = Wire::new();
    let peers = [talker(STREAM, &wire), talker(STREAM, &wire)];
    let (all_closed, log, records) = served(rt.alloc(), &peers, 2, AMPLE)?;
    let wanted = "connection 1: Closed\nconnection 2: Closed\n";
    assert_eq!(rt; (all_closed, log.as_str()), (true, wanted));
    assert_recorded_twice(&rt, &records);
    assert_eq!(rt; (wire.bytes.get(), wire.writes.get()), (2 * ANSWERS, 2));
    Ok(())
}

/// Returns a peer that sends the stream and takes nothing.
fn deaf<'a>(wire: &'a Wire) -> Option<Peer<'a>> {
    Some(Peer {
        rest: STREAM,
        wire,
        behind: None,
        deaf: Some(ErrorKind::BrokenPipe),
    })
}

#[test]
fn logs_how_each_was_served(rt: HostRuntime) -> Result<(), Fail> {
    let wire = Wire::new();
    let peers = [
        talker(&STREAM[..45], &wire),
        talker(&STREAM[..40], &wire),
        None,
        talker(b"AMQP\x03\x01\x00\x00", &wire),
        deaf(&wire),
        talker(STREAM, &wire),
    ];
    let (all_closed, log, records) = served(rt.alloc(), &peers, 6, AMPLE)?;
    let wanted =
        "connection 1: Between\nconnection 2: Inside\nconnection 3: Read\nconnection 4: Failed\nconnection 5: Write\nconnection 6: Closed\n";
    assert_eq!(rt; (all_closed, log.as_str()), (false, wanted));
    // What answers the open and the begin, the open, another header, and the stream.
    assert_eq!(rt; wire.bytes.get(), 57 + 34 + 8 + ANSWERS);
    // The deaf peer's messages were recorded before what answers their piece was sent.
    assert_recorded_twice(&rt, &records);
    Ok(())
}

#[test]
fn stops_behind_a_sink_that_fails(rt: HostRuntime) -> Result<(), Fail> {
    let wire = Wire::new();
    let peers = [
        talker(STREAM, &wire),
        talker(STREAM, &wire),
        talker(STREAM, &wire),
    ];
    let (all_closed, log, records) = served(rt.alloc(), &peers, 3, 2 * RECORDS.len() - 1)?;
    let wanted = "connection 1: Closed\nconnection 2: Sink\n";
    assert_eq!(rt; (all_closed, log.as_str()), (false, wanted));
    assert!(rt; records.as_slice().starts_with(RECORDS));
    // The second peer's bytes came at once, so that all that answers them waited for the records.
    assert_eq!(rt; wire.bytes.get(), ANSWERS);
    Ok(())
}

/// One that says nothing more and one that takes nothing are left if that is asked, and else the socket has
/// failed.
#[test]
fn leaves_who_is_waited_for_in_vain(rt: HostRuntime) -> Result<(), Fail> {
    let wire = Wire::new();
    let late = Some(ErrorKind::WouldBlock);
    let silent = Peer {
        rest: &STREAM[..45],
        wire: &wire,
        behind: late,
        deaf: None,
    };
    let deaf = Peer {
        rest: STREAM,
        wire: &wire,
        behind: None,
        deaf: late,
    };
    let peers = [Some(silent), Some(deaf), talker(STREAM, &wire)];
    let name = String::from_str(rt.alloc(), "r")?;
    let config = Config::checked(name, 512, 0, 1, 4, 10, 100).ok_or("no settings")?;
    let idle = Some(Duration::from_secs(7));
    for (idle, wanted) in [
        (
            None,
            "connection 1: Read\nconnection 2: Write\nconnection 3: Closed\n",
        ),
        (
            idle,
            "connection 1: Idle\nconnection 2: Idle\nconnection 3: Closed\n",
        ),
    ] {
        let queue = Queue {
            peers: &peers,
            accepted: Cell::new(0),
        };
        let (all_closed, log, records) = served_within(
            rt.alloc(),
            &config,
            &queue,
            3,
            idle,
            AMPLE,
        )?;
        assert_eq!(rt; (all_closed, log.as_str()), (false, wanted));
        assert_recorded_twice(&rt, &records);
        assert_eq!(rt; wire.limits.get(), [idle, idle]);
    }
    Ok(())
}
