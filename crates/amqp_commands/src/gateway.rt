//! Serves many peers at a time.

use crate::addresses::Entrance;
use crate::lags::{Arrivals, Lag, lags};
use crate::metrics::{Metrics, Spooled};
use crate::spool::{Shelf, Stock, Upheld};
use crate::traces::Traces;
use amqp_command_line::GatewaySettings;
use amqp_endpoint::Config;
use amqp_gateway::{Ending, Gateway, GatewayFault, Settings, Watcher, link_most, peer_most};
use amqp_perform::Outcome;
use amqp_serve::Rule;
use amqp_spool::consumers::ConsumerFault;
use amqp_trace::Host;
use mio::net::TcpListener;
use std::alloc::Global;
use std::io::{self, ErrorKind, Read, Write};
use std::net::{Net, ToSocketAddrs};
use std::rt::Files;
use std::time::{Clock, Instant};

/// How long a turn waits at most, in milliseconds.
const WAIT: u64 = 250;

/// How many bytes of standard input are read at once.
const INPUT: usize = 4096;

/// Makes a listener that does not block, at the first address of a name at which one can be had. The name is read
/// as `recv` reads it.
pub fn listen<R: Net>(rt: &R, address: &str) -> io::Result<TcpListener> {
    let mut refused = io::Error::from(ErrorKind::InvalidInput);
    for address in address.to_socket_addrs(rt)? {
        match TcpListener::bind(rt, address) {
            Ok(listener) => return Ok(listener),
            Err(error) => refused = error,
        }
    }
    Err(refused)
}

/// How peers are served.
#[derive(Drop)]
pub struct Plan<'a> {
    pub listener: TcpListener,
    pub config: Config,
    pub settings: GatewaySettings,
    /// How many bytes a link keeps at most.
    pub link: u64,
    /// How many bytes of records wait at most.
    pub records: u64,
    /// The file of metrics, if there is one.
    pub metrics: Option<&'a str>,
    /// Which links are admitted.
    pub entrance: Entrance,
}

/// Serves peers by a plan, with the records to a keeper, until it has ended. What passes is reported to the traces.
pub fn serve_to<R, K, T, H>(
    rt: &R,
    plan: Plan<'_>,
    keeper: K,
    traces: Traces<T, H>,
) -> Result<(), GatewayFault>
where
    R: Eprint + Input + Files + Net + Clock + AllocGlobal,
    K: Shelf + Drop,
    T: Write + Drop,
    H: Host + Drop,
{
    let Plan {
        listener,
        config,
        settings,
        link,
        records,
        metrics,
        entrance,
    } = plan;
    let rule = Rule {
        credit: settings.allowed,
        mark: settings.allowed / 2,
        outcome: Outcome::Accepted,
    };
    let most = peer_most(&config, link);
    let bound = (settings.open as u64)
        .saturating_mul(most)
        .saturating_add(records);
    let _ = eprintln!(rt; "a peer holds at most {most} bytes, and all together {bound}");
    let mut clock = Stopwatch::new(rt);
    let now = clock.millis(rt);
    let mut gateway = Gateway::admitting(
        rt,
        listener,
        config,
        rule,
        times(&settings),
        keeper,
        traces,
        entrance,
        now,
    )?;
    if settings.until_eof && gateway.watch_input().is_err() {
        gateway.stop(); // a file, which is not waited for
    }
    let mut watched = Watched {
        every: (settings.every as u64).saturating_mul(1000),
        due: 0,
        longest: 0,
        bound,
        metrics,
        arrivals: Arrivals::new(rt.alloc()),
    };
    run(
        rt,
        &mut gateway,
        &mut clock,
        &mut watched,
        settings.until_eof,
    )
}

/// Has a gateway make turns until it is done, or until the end of standard input where that ends it.
fn run<R, K, W>(
    rt: &R,
    gateway: &mut Gateway<K, W, Entrance>,
    clock: &mut Stopwatch,
    watched: &mut Watched<'_>,
    until_eof: bool,
) -> Result<(), GatewayFault>
where
    R: Eprint + Input + Files + Clock + AllocGlobal,
    K: Shelf + Drop,
    W: Watcher + Drop,
{
    let mut upheld = Upheld::NOTHING;
    for _ in 0..u64::MAX {
        let now = clock.millis(rt);
        watched.look(now, gateway.keeper());
        if now >= watched.due || gateway.is_done() {
            watched.tell(rt, now, gateway);
        }
        if gateway.is_done() {
            break;
        }
        let turned = gateway.turn(rt, now);
        upheld.tell(rt, gateway.keeper(), gateway.held_up());
        watched.longest = watched.longest.max(clock.millis(rt).saturating_sub(now));
        let waited = match turned {
            Ok(()) => gateway.wait(WAIT),
            Err(fault) => Err(fault),
        };
        if let Err(fault) = waited {
            gateway.end_all(rt, ending_by(fault));
            watched.tell(rt, now, gateway);
            upheld.end(rt, gateway.keeper());
            return Err(fault);
        }
        if until_eof && gateway.input_came() && (has_ended(rt) || gateway.watch_input().is_err()) {
            gateway.stop();
        }
    }
    Ok(())
}

/// Returns how the peers end that are left at a fault.
fn ending_by(fault: GatewayFault) -> Ending {
    match fault {
        GatewayFault::Sink => Ending::Sink,
        GatewayFault::NoMemory => Ending::NoMemory,
        GatewayFault::Poll => Ending::Stopped,
    }
}

/// When the file of metrics is due, and what it has besides what the gateway counts.
#[derive(Drop)]
struct Watched<'a> {
    every: u64,
    due: u64,
    longest: u64,
    bound: u64,
    metrics: Option<&'a str>,
    arrivals: Arrivals,
}

impl Watched<'_> {
    /// Notes how many records there are at this moment, if there is a file and a spool.
    fn look<K: Shelf>(&mut self, now: u64, keeper: &K) {
        if self.metrics.is_none() {
            return;
        }
        if let Some(stock) = keeper.stock() {
            self.arrivals.note(now, stock.next);
        }
    }

    /// Returns how far the consumers are behind at this moment, if there is a file and a spool.
    fn lags<R: Eprint + AllocGlobal, K: Shelf>(&self, rt: &R, now: u64, keeper: &K) -> Vec<Lag> {
        let alloc = rt.alloc();
        match (self.metrics, keeper.stock()) {
            (Some(_), Some(stock)) => match self.lags_of(alloc, now, keeper, &stock) {
                Ok(lags) => lags,
                Err(fault) => {
                    let _ = eprintln!(rt; "metrics: {fault}");
                    Vec::new(alloc)
                }
            },
            _ => Vec::new(alloc),
        }
    }

    fn lags_of<K: Shelf>(
        &self,
        alloc: Global,
        now: u64,
        keeper: &K,
        stock: &Stock,
    ) -> Result<Vec<Lag>, ConsumerFault> {
        let standings = keeper.standings(alloc)?;
        Ok(lags(alloc, &standings, &self.arrivals, stock.next, now)?)
    }

    /// Writes the file, if there is one, at this moment. The longest turn is counted anew.
    fn tell<R, K, W>(&mut self, rt: &R, now: u64, gateway: &Gateway<K, W, Entrance>)
    where
        R: Eprint + Files + AllocGlobal,
        K: Shelf + Drop,
        W: Watcher + Drop,
    {
        let lags = self.lags(rt, now, gateway.keeper());
        let told = Metrics {
            counts: gateway.counts(),
            open: gateway.open() as u64,
            held: gateway.held(),
            bound: self.bound,
            longest: self.longest,
            spooled: spooled(gateway, &lags),
        };
        self.due = now.saturating_add(self.every);
        self.longest = 0;
        tell(rt, self.metrics, &told);
    }
}

/// Returns how the spool of a gateway stands, if it has one, whose consumers are so far behind.
fn spooled<'a, K: Shelf + Drop, W: Watcher + Drop>(
    gateway: &Gateway<K, W, Entrance>,
    lags: &'a [Lag],
) -> Option<Spooled<'a>> {
    Some(Spooled {
        stock: gateway.keeper().stock()?,
        held_up: gateway.held_up(),
        lags,
    })
}

/// Writes these metrics to the file, if there is one.
fn tell<R: Eprint + Files + AllocGlobal>(rt: &R, path: Option<&str>, told: &Metrics<'_>) {
    if let Some(path) = path {
        if told.write(rt, rt.alloc(), path).is_err() {
            let _ = eprintln!(rt; "metrics: Write");
        }
    }
}

/// Returns the settings of the loop.
fn times(settings: &GatewaySettings) -> Settings {
    Settings {
        peers: settings.open as usize,
        connections: settings.connections as u64,
        idle: (settings.idle as u64).saturating_mul(1000),
        slow: (settings.slow as u64).saturating_mul(1000),
        grace: (settings.grace as u64).saturating_mul(1000),
    }
}

/// Returns how many bytes a link of any name keeps at most by these settings, which have this table of limits.
pub fn most_of_links(config: &Config, table: &str) -> u64 {
    let mut most = link_most(config.bounds());
    for row in table.split('\n') {
        if let Some((prefix, _)) = row.split_once(' ') {
            most = most.max(link_most(config.bounds_for(prefix.as_bytes())));
        }
    }
    most
}

/// Returns whether standard input has ended. It may wait if that has nothing to read.
fn has_ended<R: Input>(rt: &R) -> bool {
    let mut room = [0; INPUT];
    match rt.reader().read(&mut room) {
        Ok(count) => count == 0,
        Err(error) if error.kind() == ErrorKind::WouldBlock => false,
        Err(error) => error.kind() != ErrorKind::Interrupted,
    }
}

/// A clock in milliseconds since it was made. If the system's clock fails, it stands still.
#[derive(Drop)]
struct Stopwatch {
    began: Option<Instant>,
    last: u64,
}

impl Stopwatch {
    fn new<R: Clock>(rt: &R) -> Stopwatch {
        Stopwatch {
            began: Instant::now(rt).ok(),
            last: 0,
        }
    }

    fn millis<R: Clock>(&mut self, rt: &R) -> u64 {
        if let Some(began) = self.began {
            if let Ok(age) = began.elapsed(rt) {
                self.last = u64::try_from(age.as_millis()).unwrap_or(u64::MAX);
            }
        }
        self.last
    }
}
