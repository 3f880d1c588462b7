//! A gateway with its log and its sink, whose time passes as a test wants.

use amqp_endpoint::Config;
use amqp_gateway::{
    Admission, Gateway, GatewayFault, Outlet, Settings, Sink, Unasked, Unwatched, link_most,
    outlet_most, peer_most,
};
use amqp_hub::Keeper;
use amqp_perform::Outcome;
use amqp_serve::Rule;
use mio::net::TcpListener;
use std::alloc::Global;
use std::cell::RefCell;
use std::fmt::Display;
use std::io::{self, ErrorKind, Read, Write};
use std::net::{self, Ipv4Addr, SocketAddr, TcpStream};
use std::test::Fail;

/// The peer's header, open, begin and attach, two deliveries in one transfer each, and a close.
pub const STREAM: &[u8] =
    b"\x41\x4d\x51\x50\x00\x01\x00\x00\x00\x00\x00\x11\x02\x00\x00\x00\x00\x53\x10\xc0\x04\x01\xa1\x01\x61\x00\x00\x00\x14\x02\x00\x00\x00\x00\x53\x11\xc0\x07\x04\x40\x43\x52\x64\x52\x64\x00\x00\x00\x20\x02\x00\x00\x00\x00\x53\x12\xc0\x13\x0a\xa1\x01\x6c\x43\x42\x40\x40\x00\x53\x28\x45\x00\x53\x29\x45\x40\x40\x43\x00\x00\x00\x14\x02\x00\x00\x00\x00\x53\x14\xc0\x06\x03\x43\x43\xa0\x01\x74\x78\x00\x00\x00\x15\x02\x00\x00\x00\x00\x53\x14\xc0\x07\x03\x43\x52\x01\xa0\x01\x74\x78\x00\x00\x00\x0c\x02\x00\x00\x00\x00\x53\x18\x45";

/// How many of its bytes stand before the deliveries, and before the close.
pub const ATTACHED: usize = 77;

pub const DELIVERED: usize = 118;

/// And after the first delivery.
pub const FIRST: usize = 97;

/// The records of both deliveries, as `recv` writes them.
pub const RECORDS: &[u8] =
    b"\x00\x00\x00\x00\x00\x00\x00\x00\x00\x00\x00\x00\x00\x00\x00\x00\x00\x01\x78\x00\x00\x00\x00\x00\x00\x00\x00\x00\x01\x00\x00\x00\x00\x00\x00\x00\x01\x78";

/// A close without an error.
pub const CLOSE: &[u8] = b"\x00\x00\x00\x0c\x02\x00\x00\x00\x00\x53\x18\x45";

/// With which a disposition begins, and the end of each record.
pub const DISPOSITION: &[u8] = b"\x00\x53\x15";

pub const RECORD: &[u8] = b"\x00\x00\x00\x01x";

/// An empty frame.
pub const EMPTY: &[u8] = b"\x00\x00\x00\x08\x02\x00\x00\x00";

/// What was said on standard error.
#[derive(Drop)]
pub struct Log {
    text: RefCell<String>,
    alloc: Global,
}

impl Log {
    pub fn new(alloc: Global) -> Log {
        Log {
            text: RefCell::new(String::new(alloc)),
            alloc,
        }
    }

    /// Returns how many lines end so.
    pub fn count(&self, end: &str) -> usize {
        let Ok(text) = self.text.try_borrow() else {
            return 0;
        };
        let mut count = 0usize;
        for line in text.as_str().split('\n') {
            if line.ends_with(end) {
                count = count.saturating_add(1);
            }
        }
        count
    }

    fn append<D: Display + Drop>(&self, value: D, end: &str) -> io::Result<()> {
        let line = format!(in self.alloc; "{value}{end}")?;
        match self.text.try_borrow_mut() {
            Ok(mut text) => Ok(text.push_str(line.as_str())?),
            Err(_) => Err(io::Error::from(ErrorKind::Other)),
        }
    }
}

impl Eprint for Log {
    fn eprint<D: Display + Drop>(&self, value: D) -> io::Result<()> {
        self.append(value, "")
    }

    fn eprintln<D: Display + Drop>(&self, value: D) -> io::Result<()> {
        self.append(value, "\n")
    }
}

/// How a sink takes what it is given.
#[derive(Clone, Copy, Debug, PartialEq, Eq)]
pub enum Taking {
    All,
    /// Nothing now.
    Nothing,
    /// What is written, but it does not flush it now.
    Unflushed,
    /// It fails.
    Failing,
    /// What is written, but it fails to bring it to the disk.
    Unsynced,
}

/// What a sink was given. It buffers what is written until it is flushed.
#[derive(Drop)]
pub struct Store {
    /// What was flushed.
    pub bytes: Vec<u8>,
    buffered: Vec<u8>,
    pub syncs: usize,
    pub taking: Taking,
    /// How many bytes it takes before it takes nothing.
    pub room: usize,
    /// How many writes, flushes of what is buffered, and syncs it takes before it fails.
    pub calls: usize,
}

impl Store {
    pub fn new(alloc: Global) -> Store {
        Store {
            bytes: Vec::new(alloc),
            buffered: Vec::new(alloc),
            syncs: 0,
            taking: Taking::All,
            room: usize::MAX,
            calls: usize::MAX,
        }
    }

    /// One call more; whether it fails.
    fn fails(&mut self) -> bool {
        let fails = self.calls == 0;
        self.calls = self.calls.saturating_sub(1);
        fails
    }

    /// Flushes what is buffered.
    fn flush(&mut self) -> io::Result<()> {
        if self.buffered.is_empty() {
            return Ok(());
        }
        if self.taking == Taking::Unflushed {
            return Err(io::Error::from(ErrorKind::WouldBlock));
        }
        if self.fails() {
            return Err(io::Error::from(ErrorKind::Other));
        }
        self.bytes.extend_from_slice(&self.buffered)?;
        self.buffered.clear();
        Ok(())
    }
}

/// A sink into a store that the test looks at.
#[derive(Drop)]
pub struct Shared<'a>(pub &'a RefCell<Store>);

impl Write for Shared<'_> {
    fn write(&mut self, buf: &[u8]) -> io::Result<usize> {
        let Ok(mut store) = self.0.try_borrow_mut() else {
            return Err(io::Error::from(ErrorKind::Other));
        };
        match store.taking {
            Taking::Nothing => Err(io::Error::from(ErrorKind::WouldBlock)),
            Taking::Failing => Err(io::Error::from(ErrorKind::BrokenPipe)),
            Taking::All | Taking::Unflushed | Taking::Unsynced => {
                if store.fails() {
                    return Err(io::Error::from(ErrorKind::Other));
                }
                let count = buf.len().min(store.room);
                if count == 0 {
                    return Err(io::Error::from(ErrorKind::WouldBlock));
                }
                store
                    .buffered
                    .extend_from_slice(buf.get(..count).unwrap_or(&[]))?;
                store.room = store.room.saturating_sub(count);
                Ok(count)
            }
        }
    }

    fn flush(&mut self) -> io::Result<()> {
        match self.0.try_borrow_mut() {
            Ok(mut store) => store.flush(),
            Err(_) => Err(io::Error::from(ErrorKind::Other)),
        }
    }
}

impl Sink for Shared<'_> {
    ghost on_disk = { λ _. Unit {0} };

    fn sync(&mut self) -> io::Result<()> {
        let Ok(mut store) = self.0.try_borrow_mut() else {
            return Err(io::Error::from(ErrorKind::Other));
        };
        store.syncs = store.syncs.saturating_add(1);
        if store.fails() {
            return Err(io::Error::from(ErrorKind::Other));
        }
        match store.taking {
            Taking::Unsynced => Err(io::Error::from(ErrorKind::Other)),
            _ => Ok(()),
        }
    }
}

const SETTINGS: Settings = Settings {
    peers: 0,
    connections: 0,
    idle: 10_000,
    slow: 3_000,
    grace: 2_000,
};

/// A gateway, at a moment.
#[derive(Drop)]
pub struct Scene<K: Keeper + Drop, D: Admission + Drop = Unasked> {
    pub gateway: Gateway<K, Unwatched, D>,
    pub log: Log,
    /// What a peer holds at most.
    pub bound: u64,
    /// How many bytes of records may wait for a sink.
    pub records: u64,
    address: SocketAddr,
    now: u64,
}

/// One whose records go to a store.
pub type Stored<'a> = Scene<Outlet<Shared<'a>>>;

impl<'a> Scene<Outlet<Shared<'a>>> {
    /// One with this many peers at a time.
    pub fn new(
        rt: &HostRuntime,
        store: &'a RefCell<Store>,
        open: usize,
    ) -> Result<Stored<'a>, Fail> {
        Scene::with(rt, store, open, true)
    }

    /// One with this many peers at a time, which brings records to the disk if `sync` is set.
    pub fn with(
        rt: &HostRuntime,
        store: &'a RefCell<Store>,
        open: usize,
        sync: bool,
    ) -> Result<Stored<'a>, Fail> {
        Scene::sized(rt, store, open, sync, 512)
    }

    /// One whose peers may send frames of this many bytes.
    pub fn sized(
        rt: &HostRuntime,
        store: &'a RefCell<Store>,
        open: usize,
        sync: bool,
        frame: u32,
    ) -> Result<Stored<'a>, Fail> {
        Scene::of(
            rt,
            Outlet::new(rt.alloc(), Shared(store), sync),
            open,
            frame,
        )
    }
}

impl<K: Keeper + Drop> Scene<K> {
    /// One with this keeper and this many peers at a time, which may send frames of this many bytes.
    pub fn of(rt: &HostRuntime, keeper: K, open: usize, frame: u32) -> Result<Scene<K>, Fail> {
        Scene::by(rt, keeper, Unasked, open, frame)
    }
}

impl<K: Keeper + Drop, D: Admission + Drop> Scene<K, D> {
    /// One with this admission too.
    pub fn by(
        rt: &HostRuntime,
        keeper: K,
        admission: D,
        open: usize,
        frame: u32,
    ) -> Result<Scene<K, D>, Fail> {
        let alloc = rt.alloc();
        let listener = net::TcpListener::bind(rt, SocketAddr::from((Ipv4Addr::LOCALHOST, 0)))?;
        let address = listener.local_addr()?;
        listener.set_nonblocking(true)?;
        let name = String::from_str(alloc, "r")?;
        let config = Config::checked(name, frame, 0, 1, 4, 100, 100).ok_or("no such settings")?;
        let link = link_most(config.bounds());
        let bound = peer_most(&config, link);
        let records = outlet_most(&config, link);
        let rule = Rule {
            credit: 4,
            mark: 2,
            outcome: Outcome::Accepted,
        };
        let listener = TcpListener::from_std(listener);
        let settings = Settings {
            peers: open,
            ..SETTINGS
        };
        let gateway = Gateway::admitting(
            rt, listener, config, rule, settings, keeper, Unwatched, admission, 0,
        );
        Ok(Scene {
            gateway: gateway.ok().ok_or("no gateway")?,
            log: Log::new(alloc),
            bound,
            records,
            address,
            now: 0,
        })
    }

    /// Returns a peer that has sent these bytes.
    pub fn peer(&self, rt: &HostRuntime, bytes: &[u8]) -> io::Result<TcpStream> {
        let mut stream = TcpStream::connect(rt, self.address)?;
        stream.set_nodelay(true)?;
        stream.write_all(bytes)?;
        Ok(stream)
    }

    /// This many turns, each this many milliseconds after the last one.
    pub fn turns(&mut self, count: u32, millis: u64) -> Result<(), GatewayFault> {
        for _ in 0..count {
            self.now = self.now.saturating_add(millis);
            self.gateway.turn(&self.log, self.now)?;
            self.gateway.wait(5)?;
        }
        Ok(())
    }
}

/// Returns how often these stand among some bytes.
pub fn times(bytes: &[u8], these: &[u8]) -> usize {
    let mut times = 0usize;
    for piece in bytes.windows(these.len().max(1)) {
        if piece == these {
            times = times.saturating_add(1);
        }
    }
    times
}

/// Sends bytes to the gateway.
pub fn send(stream: &mut TcpStream, bytes: &[u8]) -> io::Result<()> {
    stream.write_all(bytes)
}

/// Returns the bytes that have come to a peer whose connection stays open.
pub fn heard(alloc: Global, stream: &mut TcpStream) -> io::Result<Vec<u8>> {
    let mut bytes = Vec::new(alloc);
    stream.set_nonblocking(true)?;
    let end = stream.read_to_end(&mut bytes);
    stream.set_nonblocking(false)?;
    match end {
        Err(error) if error.kind() != ErrorKind::WouldBlock => Err(error),
        _ => Ok(bytes),
    }
}

/// Returns all that a peer is sent, up to the end.
pub fn received(alloc: Global, stream: &mut TcpStream) -> io::Result<Vec<u8>> {
    let mut bytes = Vec::new(alloc);
    stream.read_to_end(&mut bytes)?;
    Ok(bytes)
}

/// Returns whether a close is the last that a peer is sent.
pub fn hears_close(alloc: Global, stream: &mut TcpStream) -> io::Result<bool> {
    Ok(received(alloc, stream)?.ends_with(CLOSE))
}

/// Returns how many dispositions a peer is sent.
pub fn dispositions(alloc: Global, stream: &mut TcpStream) -> io::Result<usize> {
    Ok(times(&received(alloc, stream)?, DISPOSITION))
}
