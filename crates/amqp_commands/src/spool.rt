//! The spool of a gateway.

use amqp_command_line::SpoolOrder;
use amqp_endpoint::Config;
use amqp_gateway::{HeldUp, Outlet, Sink};
use amqp_hub::Keeper;
use amqp_spool::consumers::{ConsumerFault, Standing};
use amqp_spool::{
    Dir, Exclusive, FileName, Folder, JournalFault, MOST_SEGMENTS, OpenError, Refusal, Spool,
    reserve_for,
};
use amqp_spool_keeper::{SizeFault, Sizes, SpoolKeeper};
use std::alloc::Global;
use std::fmt::{self, Formatter};
use std::io::ErrorKind;
use std::random::RandomSource;
use std::rt::Files;
use std::time::Clock;
use thiserror::Error;

/// Why a spool can't be had.
#[derive(Debug, Drop, Error)]
pub enum StartFault {
    /// The directory can't be opened.
    #[error("{0}")]
    Open(OpenError),
    /// The system gives no random bytes.
    #[error("Random")]
    Random,
    /// A segment is too small for a batch. This would do.
    #[error("Bound: --segment {0} would do")]
    Segment(u64),
    /// The bound is too small. This would do.
    #[error("Bound: --bytes {0} would do")]
    Bytes(u64),
    /// It can't be started.
    #[error("{0}")]
    Start(Stopped),
}

/// Why a spool can't be started.
#[derive(Debug, Drop)]
pub struct Stopped {
    fault: JournalFault,
    /// What the system said to that, if it was asked.
    reason: Option<Refusal>,
    /// Up to which number readers were shown records.
    shown: u64,
}

impl fmt::Display for Stopped {
    fn fmt<W: fmt::Write>(&self, f: &mut Formatter<W>) -> fmt::Result {
        let word = match self.fault {
            JournalFault::NoMemory => "NoMemory",
            JournalFault::Full => "Full",
            JournalFault::Failed => "Failed",
            JournalFault::Bound => "Bound: it has more than --bytes lets it have",
            JournalFault::Damaged => "Damaged",
        };
        f.write_str(word)?;
        if let Some(reason) = &self.reason {
            return write!(f, ": {reason}");
        }
        if self.fault == JournalFault::Damaged && self.shown > 0 {
            return write!(f, ": readers were shown records up to {}", self.shown);
        }
        Ok(())
    }
}

/// Returns how many bytes a message of any link has at most by these settings, which have this table of limits.
pub fn longest_message(config: &Config, table: &str) -> u32 {
    let mut most = config.bounds().max_message_size();
    for row in table.split('\n') {
        if let Some((prefix, _)) = row.split_once(' ') {
            most = most.max(config.bounds_for(prefix.as_bytes()).max_message_size());
        }
    }
    most
}

/// Returns the sizes that an order asks for, if messages have at most `message` bytes and links have credit for at most
/// `messages` of them.
pub fn sizes(order: &SpoolOrder<'_>, message: u32, messages: u64) -> Result<Sizes, StartFault> {
    match Sizes::within(order.bytes, order.segment, message, messages, order.reserve) {
        Ok(sizes) => Ok(sizes),
        Err(SizeFault::Segment(least)) => Err(StartFault::Segment(least)),
        Err(SizeFault::Bytes(least)) => Err(StartFault::Bytes(least)),
    }
}

/// How many bytes a spool keeps for each link at most, its introduction among them.
const LINK: u64 = 2_048;

/// Returns how many bytes a spool and its keeper hold at most, if peers have at most so many links: a batch, which is
/// copied while it is settled, what is kept of each link, and the list of segments.
pub fn most_held(sizes: &Sizes, links: u64) -> u64 {
    let batches = (sizes.batch as u64).saturating_mul(2);
    let segments = (MOST_SEGMENTS as u64).saturating_mul(16);
    links
        .saturating_mul(LINK)
        .saturating_add(batches)
        .saturating_add(segments)
}

/// Returns 16 random bytes.
fn sixteen<R: RandomSource>(rt: &R) -> Result<[u8; 16], StartFault> {
    let mut bytes = [0; 16];
    match rt.fill_bytes(&mut bytes) {
        Ok(()) => Ok(bytes),
        Err(_) => Err(StartFault::Random),
    }
}

/// Opens and starts the spool in a directory, which is made if it isn't there.
pub fn started<'a, R: Files + Clock + RandomSource>(
    rt: &'a R,
    alloc: Global,
    path: &str,
    sizes: Sizes,
) -> Result<SpoolKeeper<&'a R, Dir<&'a R>>, StartFault>
where
    R::File: Exclusive,
{
    let id = sixteen(rt)?;
    let secret = sixteen(rt)?;
    let mut dir = match Dir::open(rt, alloc, path, id) {
        Ok(dir) => dir,
        Err(error) => return Err(StartFault::Open(error)),
    };
    let _ = dir.set_reserve(reserve_for(sizes.batch)); // without it nothing is taken until it can be had
    let id = dir.spool();
    let Ok(mut spool) = Spool::new(dir, alloc, id, sizes.segment, sizes.limit, sizes.batch) else {
        return Err(StartFault::Segment(sizes.segment));
    };
    if let Err(fault) = spool.start(secret) {
        return Err(StartFault::Start(fault_of(fault, spool.journal().folder())));
    }
    Ok(SpoolKeeper::new(rt, alloc, spool, sizes.room, sizes.reserve))
}

/// Returns why a spool in this directory can't be started.
fn fault_of<R: Files + Drop>(fault: JournalFault, dir: &Dir<R>) -> Stopped
where
    R::File: Exclusive,
{
    Stopped {
        fault,
        reason: dir.take_reason(),
        shown: dir.shown(),
    }
}

/// How a spool stands, in bytes but for the segments and the number of the next record.
#[derive(Clone, Copy, Debug, PartialEq, Eq)]
pub struct Stock {
    pub used: u64,
    pub limit: u64,
    pub segments: u64,
    pub next: u64,
}

/// Where a gateway's records go, for those who run it.
pub trait Shelf: Keeper {
    /// Returns how it stands, if it is a spool.
    fn stock(&self) -> Option<Stock>;

    /// Returns why the system refused something of it last, and on which file, unless that was returned before.
    fn take_reason(&self) -> Option<Refusal>;

    /// Returns where its consumers stand. They are looked for each time.
    fn standings(&self, alloc: Global) -> Result<Vec<Standing>, ConsumerFault>;
}

impl<S: Sink + Drop> Shelf for Outlet<S> {
    fn stock(&self) -> Option<Stock> {
        None
    }

    fn take_reason(&self) -> Option<Refusal> {
        None
    }

    fn standings(&self, alloc: Global) -> Result<Vec<Standing>, ConsumerFault> {
        Ok(Vec::new(alloc))
    }
}

impl<C: Clock + RandomSource + Drop, R: Files + Drop> Shelf for SpoolKeeper<C, Dir<R>>
where
    R::File: Exclusive,
{
    fn stock(&self) -> Option<Stock> {
        let journal = self.spool().journal();
        Some(Stock {
            used: journal.used(),
            limit: journal.limit(),
            segments: journal.len() as u64,
            next: journal.end().next,
        })
    }

    fn take_reason(&self) -> Option<Refusal> {
        self.spool().journal().folder().take_reason()
    }

    fn standings(&self, _alloc: Global) -> Result<Vec<Standing>, ConsumerFault> {
        self.spool().journal().folder().standings()
    }
}

/// Tells what a spool holds up, when that changes.
#[derive(Drop)]
pub struct Upheld {
    held_up: Option<HeldUp>,
    /// What the system refused last, as it was told, until nothing is held up.
    refused: Option<(FileName, ErrorKind)>,
}

impl Upheld {
    pub const NOTHING: Upheld = Upheld {
        held_up: None,
        refused: None,
    };

    /// Tells on standard error what is held up now, if it is something else than before, and why the system refused
    /// something.
    pub fn tell<R: Eprint + AllocGlobal, K: Shelf>(
        &mut self,
        rt: &R,
        keeper: &K,
        held_up: Option<HeldUp>,
    ) {
        let Some(stock) = keeper.stock() else {
            return;
        };
        if let Some(reason) = keeper.take_reason() {
            self.tell_reason(rt, &reason);
        }
        if held_up == self.held_up {
            return;
        }
        self.held_up = held_up;
        if held_up.is_none() {
            self.refused = None;
        }
        match held_up {
            None => {
                let _ = eprintln!(rt; "spool: it goes on");
            }
            Some(HeldUp::Credit) => tell_full(rt, keeper, stock, "no room for more credit"),
            Some(HeldUp::Peers) => {
                tell_full(
                    rt,
                    keeper,
                    stock,
                    "no room for another record, no peer is heard",
                );
            }
            Some(HeldUp::Records) => {
                let _ = eprintln!(rt;
                    "spool: held up: records wait for the disk, no peer is heard"
                );
            }
        }
    }

    /// Tells why the system refused something, unless it was told of the same before.
    fn tell_reason<R: Eprint>(&mut self, rt: &R, reason: &Refusal) {
        let Refusal(name, error) = reason;
        let what = Some((*name, error.kind()));
        if self.refused != what {
            self.refused = what;
            let _ = eprintln!(rt; "spool: {reason}");
        }
    }

    /// Tells on standard error what was not taken at the end.
    pub fn end<R: Eprint, K: Shelf>(&self, rt: &R, keeper: &K) {
        let left = keeper.held();
        if left > 0 && keeper.stock().is_some() {
            let _ = eprintln!(rt;
                "spool: {left} bytes of records were not taken, and their senders were not answered"
            );
        }
    }
}

/// Tells on standard error that a spool is full, and which consumer holds it up most, if it has one.
fn tell_full<R, K>(rt: &R, keeper: &K, stock: Stock, what: &str)
where
    R: Eprint + AllocGlobal,
    K: Shelf,
{
    let last = stock.next.saturating_sub(1);
    let _ = match slowest(rt.alloc(), keeper) {
        Some(Standing { name, number }) => {
            let number = number.unwrap_or(0);
            eprintln!(rt; "spool: held up: {what}; {name} has acknowledged {number} of {last}")
        }
        None => eprintln!(rt; "spool: held up: {what}"),
    };
}

/// Returns the consumer that has acknowledged the least, if there is one.
fn slowest<K: Shelf>(alloc: Global, keeper: &K) -> Option<Standing> {
    let standings = keeper.standings(alloc).ok()?;
    standings
        .iter()
        .copied()
        .min_by_key(|standing| standing.number.unwrap_or(0))
}
