//! The consumers of a spool, as files in its directory: which there are, and up to which number each has acknowledged
//! the records.
//!
//! A consumer is a file `NAME.at`, which has its position. Whoever adds or removes one, and a gateway that removes
//! segments, holds `consumers.lock` meanwhile: so no segment goes that a consumer wants which was added in between.
//! Whoever moves a position holds `NAME.at.lock`.
ghost use Rattle.std.specs.Prelude.{◌≡◌, ◌≢◌, ◌↔◌, ◌≤◌, ◌<◌, ◌+◌, ◌-◌, max, Ok, IfErr};
ghost use Rattle.std.specs.IoError.{error_kind};
ghost use Rattle.amqp_spool.specs.Consumers.{first_position, MayMove};
ghost use Rattle.amqp_spool.specs.declared.consumers.ConsumerFault.TheVariants.{NoMemory};

use crate::consumer_name::ConsumerName;
use crate::dir::MOST_SEGMENTS;
use crate::dir_files::{DirFiles, Exclusive, Refusal};
use crate::dir_names::FileName;
use crate::end::{END, End};
use crate::floor::{FLOOR, Floor};
use crate::head::{HEAD, Head};
use crate::position::{POSITION, Position};
use std::alloc::AllocError;
use std::error::Error;
use std::fmt::{self, Formatter};
use std::fs::Files;
use std::io::{self, ErrorKind};

/// How many consumers a spool has at most.
pub const MOST_CONSUMERS: usize = 64;

/// How the files of a consumer end: its position, one that is being made, and the lock of both.
const AT: &str = ".at";

const MADE: &str = ".at.tmp";

const LOCK: &str = ".at.lock";

/// How often the published end is read: it is written over in place, so a read may find half of it.
const TRIES: u32 = 8;

/// Why a call on a spool's consumers was not done.
#[derive(Debug, Drop)]
pub enum ConsumerFault {
    /// Memory was refused.
    NoMemory,
    /// Another holds the lock: of the consumer, one that moves its position; of all, a gateway that removes segments or
    /// one that adds or removes a consumer.
    Locked,
    /// The directory has no segments. One that a gateway has begun has at least one.
    NoSegments,
    /// The directory has more segments than a gateway makes.
    TooManySegments,
    /// It has a consumer of this name.
    Present,
    /// It has no consumer of this name.
    Absent,
    /// It has [`MOST_CONSUMERS`].
    TooManyConsumers,
    /// The head of the newest segment, or the floor, is not whole.
    Damaged(FileName),
    /// The position, or the floor, is of another spool.
    OtherSpool,
    /// There is no published end that can be read.
    NoEnd,
    /// The number is above the last that was published, which is this.
    AboveEnd(u64),
    /// The number is below the one that was acknowledged, which is this.
    BelowPosition(u64),
    /// The system has refused a call.
    Refused(Refusal),
}

impl ConsumerFault {
    /// Returns the fault of a call on a file.
    fn of(name: FileName, reason: io::Error) -> ConsumerFault
        ensures memory { error_kind reason ≡ ErrorKind.OutOfMemory → result ≡ NoMemory }
    {
        if reason.kind() == ErrorKind::OutOfMemory {
            ConsumerFault::NoMemory
        } else {
            ConsumerFault::Refused(Refusal(name, reason))
        }
    }
}

impl From<AllocError> for ConsumerFault {
    ghost from_gives = { λ _ e. e ≡ NoMemory };

    fn from(_: AllocError) -> ConsumerFault {
        ConsumerFault::NoMemory
    }
}

impl fmt::Display for ConsumerFault {
    fn fmt<W: fmt::Write>(&self, f: &mut Formatter<W>) -> fmt::Result {
        match self {
            ConsumerFault::NoMemory => f.write_str("NoMemory"),
            ConsumerFault::Locked => f.write_str("Locked"),
            ConsumerFault::NoSegments => f.write_str("NoSegments"),
            ConsumerFault::TooManySegments => f.write_str("TooManySegments"),
            ConsumerFault::Present => f.write_str("Present"),
            ConsumerFault::Absent => f.write_str("Absent"),
            ConsumerFault::TooManyConsumers => f.write_str("TooManyConsumers"),
            ConsumerFault::Damaged(name) => write!(f, "{name} Damaged"),
            ConsumerFault::OtherSpool => f.write_str("OtherSpool"),
            ConsumerFault::NoEnd => f.write_str("NoEnd"),
            ConsumerFault::AboveEnd(last) => write!(f, "AboveEnd: the last is {last}"),
            ConsumerFault::BelowPosition(at) => write!(f, "BelowPosition: it is at {at}"),
            ConsumerFault::Refused(refusal) => write!(f, "{refusal}"),
        }
    }
}

impl Error for ConsumerFault {}

/// Where a consumer stands.
#[derive(Clone, Copy, Debug, PartialEq, Eq)]
pub struct Standing {
    pub name: ConsumerName,
    /// Up to which number it has acknowledged. Without it its position can't be read, or is of another spool, and counts
    /// as 0.
    pub number: Option<u64>,
}

/// Returns where each consumer of this spool stands, in no order.
///
/// # Errors
///
/// `TooManyConsumers`, `Refused` and `NoMemory`.
pub fn standings<R: Files + Drop>(
    files: &DirFiles<R>,
    spool: &[u8; 16],
) -> Result<Vec<Standing>, ConsumerFault> {
    let names = names_in(files)?;
    let mut standings = Vec::with_capacity(files.alloc(), names.len())?;
    for name in names.iter() {
        let standing = Standing {
            name: *name,
            number: number_of(files, name, spool)?,
        };
        standings.push(standing).map_err(AllocError::from)?;
    }
    Ok(standings)
}

/// Returns up to which number all consumers of this spool have acknowledged: the least of their numbers. Returns `None`
/// if there are none.
pub(crate) fn least<R: Files + Drop>(
    files: &DirFiles<R>,
    spool: &[u8; 16],
) -> Result<Option<u64>, ConsumerFault> {
    let names = names_in(files)?;
    let mut least: Option<u64> = None;
    for name in names.iter() {
        let number = number_of(files, name, spool)?.unwrap_or(0);
        least = Some(least.unwrap_or(u64::MAX).min(number));
    }
    Ok(least)
}

/// Returns the highest number that a consumer of this spool has acknowledged; 0 if there are none.
pub(crate) fn most<R: Files + Drop>(
    files: &DirFiles<R>,
    spool: &[u8; 16],
) -> Result<u64, ConsumerFault> {
    let names = names_in(files)?;
    let mut most = 0;
    for name in names.iter() {
        most = number_of(files, name, spool)?.map_or(most, |number| number.max(most));
    }
    Ok(most)
}

/// Adds a consumer. It begins at what has gone: its first record is the first that is there. Returns its position.
///
/// # Errors
///
/// `Locked` if another adds or removes a consumer now, or a gateway removes segments: it may be tried again. `NoSegments`
/// if no gateway has begun the spool, `TooManySegments`, `Present`, `TooManyConsumers`, `Damaged`, `OtherSpool`, `Refused`
/// and `NoMemory`.
/// There is no such consumer then; after `Refused` there may be one.
pub fn add<R: Files + Drop>(files: &DirFiles<R>, name: &ConsumerName) -> Result<u64, ConsumerFault>
where
    R::File: Exclusive,
{
    let lock = held_all(files)?;
    let names = names_in(files)?;
    if names.contains(name) {
        return Err(ConsumerFault::Present);
    }
    if names.len() >= MOST_CONSUMERS {
        return Err(ConsumerFault::TooManyConsumers);
    }
    let position = begin_of(files)?;
    write_position(files, name, &position)?;
    drop(lock);
    Ok(position.number)
}

/// Removes a consumer: what it has not acknowledged may go.
///
/// # Errors
///
/// `Locked` if another moves its position, or as [`add`]. `Absent`, `Refused` and `NoMemory`. After `Refused` it may be
/// gone.
pub fn remove<R: Files + Drop>(
    files: &DirFiles<R>,
    name: &ConsumerName,
) -> Result<(), ConsumerFault>
where
    R::File: Exclusive,
{
    let lock = held_all(files)?;
    let own = held_one(files, name)?;
    let was_there = removed(files, name, AT, FileName::Position)?;
    removed(files, name, MADE, FileName::PositionTmp)?;
    files.sync_names().map_err(ConsumerFault::Refused)?;
    drop(own);
    drop(lock);
    if was_there {
        Ok(())
    } else {
        Err(ConsumerFault::Absent)
    }
}

/// Returns the position of a consumer, 0 if it can't be read.
///
/// # Errors
///
/// `Absent`; `OtherSpool` if it is not of the spool whose published end this is; `NoEnd`, `Refused` and `NoMemory`.
pub fn position_of<R: Files + Drop>(
    files: &DirFiles<R>,
    name: &ConsumerName,
) -> Result<Option<u64>, ConsumerFault> {
    let spool = published(files)?.spool;
    Ok(own_position(files, name, &spool)?.map(|position| position.number))
}

/// A consumer whose position one process moves: it has the lock of it until it is dropped.
#[derive(Drop)]
pub struct Consumer<R: Files + Drop> {
    name: ConsumerName,
    spool: [u8; 16],
    number: u64,
    is_unread: bool,
    lock: R::File,
}

impl<R: Files + Drop> Consumer<R>
where
    R::File: Exclusive,
{
    /// Takes the lock of a consumer and reads its position, which counts as 0 if it can't be read.
    ///
    /// # Errors
    ///
    /// `Locked` if another has it, and those of [`position_of`].
    pub fn open(files: &DirFiles<R>, name: &ConsumerName) -> Result<Consumer<R>, ConsumerFault> {
        let spool = published(files)?.spool;
        own_position(files, name, &spool)?;
        let lock = held_one(files, name)?;
        let read = own_position(files, name, &spool)?;
        Ok(Consumer {
            name: *name,
            spool,
            number: read.map_or(0, |position| position.number),
            is_unread: read.is_none(),
            lock,
        })
    }
}

impl<R: Files + Drop> Consumer<R> {
    /// Returns up to which number it has acknowledged.
    pub fn number(&self) -> u64
        ensures { result ≡ self.now.number }
    {
        self.number
    }

    /// Returns whether its position could not be read.
    pub fn is_unread(&self) -> bool
        ensures { result ≡ self.now.is_unread }
    {
        self.is_unread
    }

    /// Acknowledges the records up to this number: they may go. It is on the disk then.
    ///
    /// # Errors
    ///
    /// `AboveEnd` and `BelowPosition`, `OtherSpool` if the published end is of another spool, `Absent` if the consumer was
    /// removed, `NoEnd`, `Refused` and `NoMemory`. Its position is as it was then; after `Refused` it may be this number.
    pub fn acknowledge(&mut self, files: &DirFiles<R>, number: u64) -> Result<(), ConsumerFault> {
        let end = published(files)?;
        let (spool, published) = (self.spool, end.spool);
        if published != spool {
            return Err(ConsumerFault::OtherSpool);
        }
        may_move(self.number, number, end.next)?;
        if number == self.number && !self.is_unread {
            return Ok(());
        }
        length_of(files, &self.name)?;
        write_position(files, &self.name, &Position { spool, number })?;
        self.number = number;
        self.is_unread = false;
        Ok(())
    }
}

/// Returns whether a position may move from one number to another, if the next record has the number `next`.
fn may_move(from: u64, to: u64, next: u64) -> Result<(), ConsumerFault>
    ensures may { result ≡ Ok tt ↔ MayMove from to next }
    ensures above { IfErr result (λ fault. next ≤ to → fault ≡ ConsumerFault.AboveEnd (next - 1)) }
    ensures below { IfErr result (λ fault. to < next → fault ≡ ConsumerFault.BelowPosition from) }
{
    if to >= next {
        return Err(ConsumerFault::AboveEnd(next.saturating_sub(1)));
    }
    if to < from {
        return Err(ConsumerFault::BelowPosition(from));
    }
    Ok(())
}

/// Takes the lock of all consumers.
fn held_all<R: Files + Drop>(files: &DirFiles<R>) -> Result<R::File, ConsumerFault>
where
    R::File: Exclusive,
{
    let name = FileName::Consumers;
    match files.open_over(name) {
        Ok(lock) => held(lock, name),
        Err(reason) => Err(ConsumerFault::of(name, reason)),
    }
}

/// Takes the lock of a consumer's position.
fn held_one<R: Files + Drop>(
    files: &DirFiles<R>,
    name: &ConsumerName,
) -> Result<R::File, ConsumerFault>
where
    R::File: Exclusive,
{
    let path = files.path_for(name, LOCK)?;
    match files.open_over_at(path.as_str()) {
        Ok(lock) => held(lock, FileName::PositionLock),
        Err(reason) => Err(ConsumerFault::of(FileName::PositionLock, reason)),
    }
}

/// Returns a lock, once it is taken.
fn held<F: Exclusive + Drop>(lock: F, name: FileName) -> Result<F, ConsumerFault> {
    match lock.hold() {
        Ok(true) => Ok(lock),
        Ok(false) => Err(ConsumerFault::Locked),
        Err(reason) => Err(ConsumerFault::of(name, reason)),
    }
}

/// Removes a file of a consumer. Returns whether it was there.
fn removed<R: Files + Drop>(
    files: &DirFiles<R>,
    name: &ConsumerName,
    ending: &str,
    file: FileName,
) -> Result<bool, ConsumerFault> {
    let path = files.path_for(name, ending)?;
    files
        .remove_at(path.as_str())
        .map_err(|reason| ConsumerFault::of(file, reason))
}

/// Returns the consumers that there are.
fn names_in<R: Files + Drop>(files: &DirFiles<R>) -> Result<Vec<ConsumerName>, ConsumerFault> {
    files
        .consumers(MOST_CONSUMERS)
        .map_err(|reason| ConsumerFault::of(FileName::Dir, reason))?
        .ok_or(ConsumerFault::TooManyConsumers)
}

/// Returns up to which number a consumer has acknowledged. Returns `None` if its position can't be read, or is of another
/// spool, or is no longer there.
fn number_of<R: Files + Drop>(
    files: &DirFiles<R>,
    name: &ConsumerName,
    spool: &[u8; 16],
) -> Result<Option<u64>, ConsumerFault> {
    match own_position(files, name, spool) {
        Ok(position) => Ok(position.map(|position| position.number)),
        Err(ConsumerFault::OtherSpool | ConsumerFault::Absent) => Ok(None),
        Err(fault) => Err(fault),
    }
}

/// Returns the position of a consumer. Returns `None` if it can't be read.
fn own_position<R: Files + Drop>(
    files: &DirFiles<R>,
    name: &ConsumerName,
    spool: &[u8; 16],
) -> Result<Option<Position>, ConsumerFault> {
    if length_of(files, name)? != Some(POSITION as u64) {
        return Ok(None);
    }
    let path = files.path_for(name, AT)?;
    let mut bytes = [0; POSITION];
    if let Err(reason) = files.read_at(path.as_str(), 0, &mut bytes) {
        return Err(ConsumerFault::of(FileName::Position, reason));
    }
    let Some(position) = Position::read(&bytes) else {
        return Ok(None);
    };
    let owner = position.spool;
    if owner == *spool {
        Ok(Some(position))
    } else {
        Err(ConsumerFault::OtherSpool)
    }
}

/// Returns how many bytes the position of a consumer has. Returns `None` if it is no file.
fn length_of<R: Files + Drop>(
    files: &DirFiles<R>,
    name: &ConsumerName,
) -> Result<Option<u64>, ConsumerFault> {
    let path = files.path_for(name, AT)?;
    match files.len_at(path.as_str()) {
        Ok(len) => Ok(len),
        Err(reason) if reason.kind() == ErrorKind::NotFound => Err(ConsumerFault::Absent),
        Err(reason) => Err(ConsumerFault::of(FileName::Position, reason)),
    }
}

/// Makes this the position of a consumer, durably.
fn write_position<R: Files + Drop>(
    files: &DirFiles<R>,
    name: &ConsumerName,
    position: &Position,
) -> Result<(), ConsumerFault> {
    let made = files.path_for(name, MADE)?;
    if let Err(reason) = files.make_at(made.as_str(), &position.to_bytes()) {
        return Err(ConsumerFault::of(FileName::PositionTmp, reason));
    }
    let path = files.path_for(name, AT)?;
    if let Err(reason) = files.rename_at(made.as_str(), path.as_str()) {
        return Err(ConsumerFault::of(FileName::Position, reason));
    }
    files.sync_names().map_err(ConsumerFault::Refused)
}

/// Returns the published end of a spool.
fn published<R: Files + Drop>(files: &DirFiles<R>) -> Result<End, ConsumerFault> {
    let mut bytes = [0; END];
    for _ in 0..TRIES {
        match files.read(FileName::End, 0, &mut bytes) {
            Ok(()) => {}
            Err(reason) if is_short(&reason) => return Err(ConsumerFault::NoEnd),
            Err(reason) => return Err(ConsumerFault::of(FileName::End, reason)),
        }
        if let Some(end) = End::read(&bytes) {
            return Ok(end);
        }
    }
    Err(ConsumerFault::NoEnd)
}

/// Returns whether a file isn't there, or has fewer bytes.
pub(crate) fn is_short(reason: &io::Error) -> bool {
    matches!(
        reason.kind(),
        ErrorKind::NotFound | ErrorKind::UnexpectedEof
    )
}

/// Returns the position at which a new consumer begins.
fn begin_of<R: Files + Drop>(files: &DirFiles<R>) -> Result<Position, ConsumerFault> {
    let Some(firsts) = files
        .firsts(MOST_SEGMENTS)
        .map_err(|reason| ConsumerFault::of(FileName::Dir, reason))?
    else {
        return Err(ConsumerFault::TooManySegments);
    };
    let (Some(oldest), Some(newest)) = (firsts.iter().min(), firsts.iter().max()) else {
        return Err(ConsumerFault::NoSegments);
    };
    let spool = owner_of(files, *newest)?;
    let floor = floor_of(files, &spool)?;
    Ok(Position {
        spool,
        number: first_position(*oldest, floor),
    })
}

/// Returns the position of a consumer that begins at the oldest segment, which begins with the record `oldest`: after
/// what has gone, and after what may go.
fn first_position(oldest: u64, floor: u64) -> u64
    ensures { result ≡ first_position oldest floor }
{
    oldest.saturating_sub(1).max(floor)
}

/// Returns the id of the spool that the newest segment is of.
fn owner_of<R: Files + Drop>(files: &DirFiles<R>, first: u64) -> Result<[u8; 16], ConsumerFault> {
    let name = FileName::Segment(first);
    let mut bytes = [0; HEAD];
    match files.read(name, 0, &mut bytes) {
        Ok(()) => {}
        Err(reason) if reason.kind() == ErrorKind::UnexpectedEof => {
            return Err(ConsumerFault::Damaged(name));
        }
        Err(reason) => return Err(ConsumerFault::of(name, reason)),
    }
    match Head::read(&bytes) {
        Some(head) => Ok(head.spool),
        None => Err(ConsumerFault::Damaged(name)),
    }
}

/// Returns up to which number segments of this spool may be missing: 0 if nothing says it.
fn floor_of<R: Files + Drop>(files: &DirFiles<R>, spool: &[u8; 16]) -> Result<u64, ConsumerFault> {
    let mut bytes = [0; FLOOR];
    match files.read(FileName::Floor, 0, &mut bytes) {
        Ok(()) => {}
        Err(reason) if reason.kind() == ErrorKind::NotFound => return Ok(0),
        Err(reason) if reason.kind() == ErrorKind::UnexpectedEof => {
            return Err(ConsumerFault::Damaged(FileName::Floor));
        }
        Err(reason) => return Err(ConsumerFault::of(FileName::Floor, reason)),
    }
    let Some(floor) = Floor::read(&bytes) else {
        return Err(ConsumerFault::Damaged(FileName::Floor));
    };
    let owner = floor.spool;
    if owner == *spool {
        Ok(floor.number)
    } else {
        Err(ConsumerFault::OtherSpool)
    }
}
