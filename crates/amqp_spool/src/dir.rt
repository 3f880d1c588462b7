//! A folder of files.
ghost use Rattle.amqp_spool.specs.Counting.{put};
ghost use Rattle.amqp_spool.specs.Folders.{History, Goes, GoesBy, Now, IsAppended, IsSynced, IsAdded, IsRaised, IsRemoved, making};
ghost use Rattle.amqp_spool.specs.Reads.{HasNames, IsRead};
ghost use Rattle.amqp_spool.specs.declared.segments.Named.{Named};
ghost use Rattle.std.specs.Prelude.{◌≡◌, ◌≢◌, ◌↔◌, ◌⊎◌, ◌+◌, ◌≤◌, ◌∷◌, ◌++◌, ℕ, [], List, length, reverse, max, true, false, None, Some, Err, IsSome, OnOk, OnErr, IfOk};
ghost use Rattle.std.specs.List.Sorted.{IsNonDecreasingBy};
ghost use Rattle.std.specs.Vec.{vec_len};
ghost use Rattle.amqp_spool.specs.declared.dir.OpenError.TheVariants.{NoMemory, Refused};
ghost use Rattle.std.specs.IoError.{error_kind};

use crate::batch_head::BATCH_HEAD;
use crate::consumers::{self, ConsumerFault, Standing};
use crate::dir_files::{DirFiles, Exclusive, Refusal};
use crate::dir_names::FileName;
use crate::end::{END, End};
use crate::floor::{FLOOR, Floor};
use crate::folder::{Folder, FolderFault};
use crate::head::{HEAD, Head};
use crate::segments::{Named, Segments};
use std::alloc::{AllocError, Global};
use std::cell::Cell;
use std::error::Error;
use std::fmt::{self, Formatter};
use std::fs::{Files, OpenFile};
use std::io::{self, ErrorKind, Seek, SeekFrom, Write};

/// How many segments a directory has at most.
pub const MOST_SEGMENTS: usize = 16_384;

/// How many bytes the reserve has for small files: positions of consumers, the floor and the end. These are eight
/// blocks of 4,096 bytes.
const SMALL_FILES: u64 = 32_768;

/// Returns how many bytes the reserve of a spool should have, if a batch has at most `batch` bytes: those of a segment
/// of one batch, and 32,768 for small files.
pub fn reserve_for(batch: u32) -> u64
    ensures { result ≡ batch + 112 + 32768 }
{
    batch as u64 + (HEAD + BATCH_HEAD) as u64 + SMALL_FILES
}

/// Why a directory can't be opened.
#[derive(Debug, Drop)]
pub enum OpenError {
    /// Memory was refused.
    NoMemory,
    /// Another gateway has it.
    Locked,
    /// It has more than [`MOST_SEGMENTS`] segments.
    TooManySegments,
    /// This file is not what its name says: a segment that is no file, or a floor that is not whole.
    Damaged(FileName),
    /// Its floor is not that of this spool.
    OtherSpool,
    /// The system has refused a call on this file, for this reason.
    Refused(FileName, io::Error),
}

impl OpenError {
    /// Returns the error of a call on a file.
    fn of(name: FileName, reason: io::Error) -> OpenError
        ensures memory { error_kind reason ≡ ErrorKind.OutOfMemory → result ≡ NoMemory }
        ensures other { error_kind reason ≢ ErrorKind.OutOfMemory → result ≡ Refused name reason }
    {
        if reason.kind() == ErrorKind::OutOfMemory {
            OpenError::NoMemory
        } else {
            OpenError::Refused(name, reason)
        }
    }
}

impl From<AllocError> for OpenError {
    ghost from_gives = { λ _ e. e ≡ NoMemory };

    fn from(_: AllocError) -> OpenError {
        OpenError::NoMemory
    }
}

impl fmt::Display for OpenError {
    fn fmt<W: fmt::Write>(&self, f: &mut Formatter<W>) -> fmt::Result {
        match self {
            OpenError::NoMemory => f.write_str("NoMemory"),
            OpenError::Locked => f.write_str("Locked"),
            OpenError::TooManySegments => f.write_str("TooManySegments"),
            OpenError::Damaged(name) => write!(f, "{name} Damaged"),
            OpenError::OtherSpool => f.write_str("OtherSpool"),
            OpenError::Refused(name, reason) => write!(f, "{name} {reason}"),
        }
    }
}

impl Error for OpenError {}

/// The segments of a spool in a directory of files. Nothing is known of it: what its calls leave on the disk is taken
/// to be as [`Folder`] says.
///
/// What a crash leaves rests on the order in which its calls ask the system. Each step is done only after the one
/// before it was. 'Sync the directory' is to open `.` for reading and to sync it.
///
/// - [`Dir::open`]: make the directory, with the mode 0700, if it isn't there. Open `lock`; if it isn't there, sync
///   the parent of the directory, and then make `lock`. Lock it. Remove `next.tmp`, then `floor.tmp`. Read the names.
///   Ask for the length of each segment. Read `end`, the head of the newest segment, and `floor`. Read the names; of
///   each position ask for its length and read it. Open the newest segment for writes at its end. Sync the directory.
/// - `names`, `floor`: none.
/// - `read`: open the segment by its name, move to the place, read, close.
/// - `prepare`: none if no size was set for the reserve, or if it was made and not given up since. Else as
///   [`Dir::set_reserve`].
/// - `append`: write at the end of the newest segment, by as many calls as it takes. If that fails ask for its length,
///   and close it: no other write or sync of it is tried.
/// - `sync`: sync the data of the newest segment. If that fails close it, likewise.
/// - `add`: make `next.tmp`, or cut it to no bytes if it is there; write it; sync it. If it comes in place of the
///   newest segment open that for writes. Rename `next.tmp` to the name of the segment; sync the directory; cut the
///   file that was opened to no bytes, and close it. If one of the first three fails remove `next.tmp`, and return
///   after that. But if the disk is full remove `reserve`, and if that was there begin again, once. A segment that is
///   older than the newest, or one more than [`MOST_SEGMENTS`], is refused as `Failed` without a call.
/// - `raise_floor`: make `floor.tmp`, or cut it to no bytes if it is there; write it; sync it; rename it to `floor`;
///   sync the directory. If one of the first three fails remove `floor.tmp`, and return after that. But if the disk is
///   full remove `reserve`, and if that was there begin again, once. A number that is not above the floor needs no
///   call.
/// - `remove_oldest`: open the segment for writes, cut it to no bytes, close it, remove it, sync the directory.
/// - [`Dir::publish`]: open `end`, or make it, the first time; move to its begin; write. It is not synced.
/// - [`Dir::published`]: open `end`, move to its begin, read, close.
/// - [`Dir::set_reserve`]: ask for the length of `reserve`. If it is the right one sync it, and else make it, or cut it
///   to no bytes; write it; sync it. If that fails remove it.
/// - [`Dir::give_up_reserve`]: remove `reserve`.
/// - `passed`: open `consumers.lock`, if it is there, and lock it; read the names; of each position ask for its length and
///   read it. `let_go` closes the lock.
///
/// So a name is durable before a call returns `Ok`, and what has the name of a segment or of the floor is whole.
///
/// A reader may hold the file open in whose place another came. It is cut, so that its bytes are free. If it can't be
/// opened or cut, the `add` is done all the same: then the file keeps its bytes until the reader closes it, and they
/// count nowhere.
///
/// Each call that is `Full` or `Failed` because the system has refused something keeps which file that was, and why:
/// [`Dir::take_reason`] returns it.
///
/// After an `add`, a `raise_floor` or a `remove_oldest` that is `Failed` it is not known what the disk has. All calls
/// of the folder but `names` and `floor` are `Failed` from then on, and the directory has to be opened again.
#[derive(Drop)]
pub struct Dir<R: Files + Drop> {
    files: DirFiles<R>,
    floor: Floor,
    segments: Segments,
    // up to which number records were shown to readers when it was opened
    shown: u64,
    // unless a write or a sync of it has failed
    newest: Option<R::File>,
    end: Option<R::File>,
    // a call that changes names has failed
    failed: bool,
    // how many bytes the reserve is to have, once that was set
    reserve: Option<u64>,
    // the reserve was made, and was not given up
    is_reserved: bool,
    // why a call was last full or failed, until it is taken
    reason: Cell<Option<Refusal>>,
    // the lock of the consumers, while none may be added
    consumers: Option<R::File>,
    // locked while it is open; the last that is closed
    lock: R::File,
}

impl<R: Files + Drop> Dir<R>
where
    R::File: Exclusive,
{
    /// Opens a directory for the one gateway of its spool. It is made if it isn't there; the directory that it is in
    /// must be. It stays locked until this is dropped. A `next.tmp` and a `floor.tmp` of an earlier life are removed,
    /// and names that are not of a spool's files are left alone. Its names are durable after that.
    ///
    /// `spool` is the id of a spool that has no segments yet. If there are segments, the id is in the head of the
    /// newest one, or in the floor if that head is not whole; if there are none, but an `end`, it is in that:
    /// [`Dir::spool`] returns it.
    ///
    /// # Errors
    ///
    /// `Locked` if another gateway has it, and then nothing has changed. `OtherSpool` if the floor has another id,
    /// `Damaged` if it is not whole or a segment is no file, and `TooManySegments` if there are more than 16,384.
    /// `Refused` if the system refuses a call, and `NoMemory` if memory is. After an error it is not locked, and
    /// segments, floor and end are as they were.
    pub fn open(rt: R, alloc: Global, path: &str, spool: [u8; 16]) -> Result<Dir<R>, OpenError>
        ensures fresh { IfOk result (λ dir. dir.failed ≡ false) }
        ensures few { IfOk result (λ dir. vec_len dir.segments.list ≤ MOST_SEGMENTS) }
        ensures order { IfOk result (λ dir. IsNonDecreasingBy (λ n. n.first) (reverse dir.segments.list.items)) }
    {
        let files = DirFiles::new(rt, alloc, path)?;
        let lock = locked(&files)?;
        clean(&files)?;
        let segments = segments_in(&files)?;
        let end = end_in(&files)?;
        let spool = end.map_or(spool, |end| end.spool);
        let floor = floor_in(&files, segments.list.first(), spool)?;
        let shown = shown_in(&files, &floor, end)?;
        let newest = newest_in(&files, segments.list.first())?;
        files
            .sync(FileName::Dir)
            .map_err(|reason| OpenError::of(FileName::Dir, reason))?;
        Ok(Dir {
            files,
            floor,
            segments,
            shown,
            newest,
            end: None,
            failed: false,
            reserve: None,
            is_reserved: false,
            reason: Cell::new(None),
            consumers: None,
            lock,
        })
    }
}

/// Makes the directory if it isn't there, and takes its lock.
fn locked<R: Files + Drop>(files: &DirFiles<R>) -> Result<R::File, OpenError>
where
    R::File: Exclusive,
{
    files
        .make_dir()
        .map_err(|reason| OpenError::of(FileName::Dir, reason))?;
    let lock = open_lock(files)?;
    let is_held = lock
        .hold()
        .map_err(|reason| OpenError::of(FileName::Lock, reason))?;
    if is_held {
        Ok(lock)
    } else {
        Err(OpenError::Locked)
    }
}

/// Returns whether the system has refused something for want of room: on the disk, or in the user's part of it.
fn is_full(reason: &io::Error) -> bool
    ensures { result ≡ true ↔ (error_kind reason.now ≡ ErrorKind.StorageFull) ⊎ (error_kind reason.now ≡ ErrorKind.QuotaExceeded) }
{
    matches!(
        reason.kind(),
        ErrorKind::StorageFull | ErrorKind::QuotaExceeded
    )
}

/// Opens the lock. If it isn't there it is made, after the name of the directory is durable.
fn open_lock<R: Files + Drop>(files: &DirFiles<R>) -> Result<R::File, OpenError> {
    let opened = match files.open_there(FileName::Lock) {
        Err(reason) if reason.kind() == ErrorKind::NotFound => {
            files
                .sync(FileName::Parent)
                .map_err(|reason| OpenError::of(FileName::Parent, reason))?;
            files.open_over(FileName::Lock)
        }
        opened => opened,
    };
    opened.map_err(|reason| OpenError::of(FileName::Lock, reason))
}

/// Removes what an earlier life was making.
fn clean<R: Files + Drop>(files: &DirFiles<R>) -> Result<(), OpenError> {
    for name in [FileName::NextTmp, FileName::FloorTmp] {
        if let Err(reason) = files.remove(name) {
            return Err(OpenError::of(name, reason));
        }
    }
    Ok(())
}

/// Returns the segments, each with how many bytes it has.
fn segments_in<R: Files + Drop>(files: &DirFiles<R>) -> Result<Segments, OpenError>
    ensures few { IfOk result (λ segments. vec_len segments.list ≤ MOST_SEGMENTS) }
    ensures order { IfOk result (λ segments. IsNonDecreasingBy (λ n. n.first) (reverse segments.list.items)) }
{
    let Some(firsts) = files
        .firsts(MOST_SEGMENTS)
        .map_err(|reason| OpenError::of(FileName::Dir, reason))?
    else {
        return Err(OpenError::TooManySegments);
    };
    let mut list = Vec::with_capacity(files.alloc(), firsts.len())?;
    for first in firsts.iter().copied() {
        let name = FileName::Segment(first);
        let bytes = files
            .len(name)
            .map_err(|reason| OpenError::of(name, reason))?
            .ok_or(OpenError::Damaged(name))?;
        list.push(Named { first, bytes }).map_err(AllocError::from)?;
    }
    list.sort_unstable_by_key(|segment| segment.first);
    list.reverse();
    Ok(Segments { list })
}

/// Returns the floor of a spool, with its id. Without a file it is 0. The id of a spool that has no segments is
/// `spool`. That of another is in the head of the newest segment, or in the floor if that head is not whole.
fn floor_in<R: Files + Drop>(
    files: &DirFiles<R>,
    newest: Option<&Named>,
    spool: [u8; 16],
) -> Result<Floor, OpenError> {
    let owner = match newest {
        Some(newest) => owner_of(files, newest)?,
        None => Some(spool),
    };
    let Some(floor) = read_floor(files)? else {
        let spool = owner.unwrap_or(spool);
        return Ok(Floor {
            spool,
            number: 0,
            dropped: 0,
        });
    };
    let of = floor.spool;
    if owner.is_none_or(|owner| owner == of) {
        Ok(floor)
    } else {
        Err(OpenError::OtherSpool)
    }
}

/// Returns the id of the spool that the head of a segment names. Returns `None` if the head is not whole.
fn owner_of<R: Files + Drop>(
    files: &DirFiles<R>,
    segment: &Named,
) -> Result<Option<[u8; 16]>, OpenError> {
    if segment.bytes < HEAD as u64 {
        return Ok(None);
    }
    let name = FileName::Segment(segment.first);
    let mut bytes = [0; HEAD];
    files
        .read(name, 0, &mut bytes)
        .map_err(|reason| OpenError::of(name, reason))?;
    Ok(Head::read(&bytes).map(|head| head.spool))
}

/// Reads the file of the floor, if there is one.
fn read_floor<R: Files + Drop>(files: &DirFiles<R>) -> Result<Option<Floor>, OpenError> {
    let name = FileName::Floor;
    match files.len(name) {
        Ok(Some(len)) if len == FLOOR as u64 => {}
        Ok(_) => return Err(OpenError::Damaged(name)),
        Err(reason) if reason.kind() == ErrorKind::NotFound => return Ok(None),
        Err(reason) => return Err(OpenError::of(name, reason)),
    }
    let mut bytes = [0; FLOOR];
    files
        .read(name, 0, &mut bytes)
        .map_err(|reason| OpenError::of(name, reason))?;
    match Floor::read(&bytes) {
        Some(floor) => Ok(Some(floor)),
        None => Err(OpenError::Damaged(name)),
    }
}

/// Returns what the file `end` says. Returns `None` if there is none, or if it is torn.
fn end_in<R: Files + Drop>(files: &DirFiles<R>) -> Result<Option<End>, OpenError> {
    let mut bytes = [0; END];
    match files.read(FileName::End, 0, &mut bytes) {
        Ok(()) => Ok(End::read(&bytes)),
        Err(reason) if consumers::is_short(&reason) => Ok(None),
        Err(reason) => Err(OpenError::of(FileName::End, reason)),
    }
}

/// Returns up to which number records of this spool were shown to readers: by the published end, the floor, or a
/// position. An end or a position of another spool shows none, and so does a position that can't be read.
fn shown_in<R: Files + Drop>(
    files: &DirFiles<R>,
    floor: &Floor,
    end: Option<End>,
) -> Result<u64, OpenError> {
    let published = end.map_or(0, |end| last_of(&end, &floor.spool));
    let passed = match consumers::most(files, &floor.spool) {
        Ok(passed) => passed,
        Err(ConsumerFault::NoMemory) => return Err(OpenError::NoMemory),
        Err(ConsumerFault::Refused(Refusal(name, reason))) => {
            return Err(OpenError::Refused(name, reason));
        }
        Err(_) => 0,
    };
    Ok(published.max(passed).max(floor.number))
}

/// Returns the number of the last record that the published end of a spool shows; 0 if it is of another one.
fn last_of(end: &End, spool: &[u8; 16]) -> u64 {
    let of = end.spool;
    if of == *spool {
        end.next.saturating_sub(1)
    } else {
        0
    }
}

/// Opens the newest segment, if there is one, to write at its end.
fn newest_in<R: Files + Drop>(
    files: &DirFiles<R>,
    newest: Option<&Named>,
) -> Result<Option<R::File>, OpenError> {
    let Some(newest) = newest else {
        return Ok(None);
    };
    let name = FileName::Segment(newest.first);
    match files.open_end(name) {
        Ok(file) => Ok(Some(file)),
        Err(reason) => Err(OpenError::of(name, reason)),
    }
}

impl<R: Files + Drop> Dir<R> {
    /// Returns the id of the spool.
    pub fn spool(&self) -> [u8; 16]
        ensures { result ≡ self.now.floor.spool }
    {
        self.floor.spool
    }

    /// Returns what the file `end` says. Returns `None` if there is none, if it is torn, or if it can't be read.
    pub fn published(&self) -> Option<End> {
        let mut bytes = [0; END];
        self.files.read(FileName::End, 0, &mut bytes).ok()?;
        End::read(&bytes)
    }

    /// Makes a file of so many bytes, durable, that a later call may give up if the disk is full. One that has so many
    /// is kept. The size is kept too, also after an error: if the reserve was given up, `prepare` makes it again.
    ///
    /// Another process may remove the file too, to have room. This call sees that and makes it again; `prepare` doesn't
    /// look.
    ///
    /// # Errors
    ///
    /// `Full` if there is no room for it, and `Failed` if the system refuses it for another reason. There is no reserve
    /// then, as far as what was made could be removed.
    pub fn set_reserve(&mut self, bytes: u64) -> Result<(), FolderFault>
        ensures same { (self.new.segments ≡ self.old.segments) × (self.new.floor ≡ self.old.floor) × (self.new.newest ≡ self.old.newest) × (self.new.failed ≡ self.old.failed) }
        ensures size { self.new.reserve ≡ Some bytes }
        ensures there { OnOk result (self.new.is_reserved ≡ true) }
        ensures none { OnErr result (self.new.is_reserved ≡ false) }
    {
        self.reserve = Some(bytes);
        match self.make_reserve(bytes) {
            Ok(()) => {
                self.is_reserved = true;
                Ok(())
            }
            Err(reason) => {
                self.give_up_reserve();
                Err(self.told(Refusal(FileName::Reserve, reason)))
            }
        }
    }

    /// Removes the reserve, until `prepare` or [`Dir::set_reserve`] makes it again. Returns whether there was one that
    /// could be removed.
    pub fn give_up_reserve(&mut self) -> bool
        ensures { self.new ≡ record self.old { is_reserved = false } }
    {
        self.is_reserved = false;
        matches!(self.files.remove(FileName::Reserve), Ok(true))
    }

    /// Returns why a call was last `Full` or `Failed`: which file the system has refused something of, and its reason.
    /// It returns that once. Returns `None` if no call was refused since.
    pub fn take_reason(&self) -> Option<Refusal> {
        self.reason.take()
    }

    /// Returns where each consumer stands, in no order.
    ///
    /// # Errors
    ///
    /// As [`standings`](consumers::standings).
    pub fn standings(&self) -> Result<Vec<Standing>, ConsumerFault> {
        consumers::standings(&self.files, &self.floor.spool)
    }

    /// Keeps why consumers could not be looked at, if the system has refused it.
    fn note(&self, fault: ConsumerFault) {
        if let ConsumerFault::Refused(refusal) = fault {
            self.reason.set(Some(refusal));
        }
    }

    /// Makes the reserve. If it is there with so many bytes it is synced.
    fn make_reserve(&self, bytes: u64) -> io::Result<()> {
        match self.files.len(FileName::Reserve) {
            Ok(Some(len)) if len == bytes => self.files.sync(FileName::Reserve),
            _ => self.files.fill(FileName::Reserve, bytes),
        }
    }

    fn write_end(&mut self, end: &End) -> io::Result<()>
        ensures same { (self.new.segments ≡ self.old.segments) × (self.new.floor ≡ self.old.floor) × (self.new.newest ≡ self.old.newest) × (self.new.failed ≡ self.old.failed) }
    {
        let mut file = match self.end.take() {
            Some(file) => file,
            None => self.files.open_over(FileName::End)?,
        };
        file.seek(SeekFrom::Start(0))?;
        file.write_all(&end.to_bytes())?;
        self.end = Some(file);
        Ok(())
    }

    /// Returns whether a segment with this first number may be added: in place of the newest, or as a newer one.
    fn may_add(&self, first: u64) -> bool
        ensures few { result ≡ true → vec_len self.now.segments.list ≤ MOST_SEGMENTS → (bytes : ℕ) → length (put (record { first = first; bytes = bytes }) self.now.segments.list.items) ≤ MOST_SEGMENTS }
    {
        match self.segments.list.first() {
            Some(newest) if first <= newest.first => first == newest.first,
            _ => self.segments.list.len() < MOST_SEGMENTS,
        }
    }

    /// Makes a file under its name for the time being. If the disk is full it gives up the reserve, and if that was
    /// there it makes the file again. If the file can't be made it is removed, if that can be done.
    fn make(&mut self, name: FileName, bytes: &[u8]) -> Result<R::File, FolderFault>
        ensures same { result ≢ Err FolderFault.Failed → (self.new.newest ≡ self.old.newest) × (self.new.failed ≡ self.old.failed) }
        ensures fails { result ≡ Err FolderFault.Failed → (self.new.failed ≡ true) × (self.new.newest ≡ None) }
        ensures floor { self.new.floor ≡ self.old.floor }
        ensures segments { self.new.segments ≡ self.old.segments }
    {
        let made = match self.files.make(name, bytes) {
            Err(reason) if is_full(&reason) && self.give_up_reserve() => {
                self.files.make(name, bytes)
            }
            made => made,
        };
        match made {
            Ok(file) => Ok(file),
            Err(reason) => Err(self.not_made(name, reason)),
        }
    }

    /// Gives the next segment its name. If it comes in place of the newest, the file of that one has no bytes then.
    fn name_next(&mut self, first: u64, bytes: u64) -> Result<(), Refusal>
        ensures done { OnOk result (self.new.segments.list.items ≡ put (record { first = first; bytes = bytes }) self.old.segments.list.items) }
        ensures floor { self.new.floor ≡ self.old.floor }
    {
        let name = FileName::Segment(first);
        self.segments
            .reserve()
            .map_err(|refused| Refusal(name, io::Error::from(refused)))?;
        let replaced = self.replaced_by(first);
        self.files.rename(FileName::NextTmp, name)?;
        if let Some(file) = replaced {
            let _ = file.set_len(0);
        }
        self.segments.put(first, bytes);
        Ok(())
    }

    /// Opens the newest segment to cut it, if one with this first number comes in its place.
    fn replaced_by(&self, first: u64) -> Option<R::File> {
        let newest = self.segments.list.first()?;
        if newest.first == first {
            self.files.open_there(FileName::Segment(first)).ok()
        } else {
            None
        }
    }

    /// Returns what became of a file for the time being that could not be made. It is removed, if that can be done.
    fn not_made(&mut self, name: FileName, reason: io::Error) -> FolderFault
        ensures full { result ≡ FolderFault.Full ↔ (error_kind reason ≡ ErrorKind.StorageFull) ⊎ (error_kind reason ≡ ErrorKind.QuotaExceeded) }
        ensures still { result ≡ FolderFault.Full → self.new ≡ self.old }
        ensures fails { result ≡ FolderFault.Failed → (self.new.failed ≡ true) × (self.new.newest ≡ None) }
        ensures floor { self.new.floor ≡ self.old.floor }
        ensures segments { self.new.segments ≡ self.old.segments }
    {
        let _ = self.files.remove(name);
        match self.told(Refusal(name, reason)) {
            FolderFault::Full => FolderFault::Full,
            FolderFault::Failed => self.fail(),
        }
    }

    /// Asks nothing more of the directory, since the system has refused this.
    fn fail_by(&mut self, refusal: Refusal) -> FolderFault
        ensures fault { result ≡ FolderFault.Failed }
        ensures fails { (self.new.failed ≡ true) × (self.new.newest ≡ None) }
        ensures floor { self.new.floor ≡ self.old.floor }
        ensures segments { self.new.segments ≡ self.old.segments }
    {
        self.told(refusal);
        self.fail()
    }

    /// Asks nothing more of the directory.
    fn fail(&mut self) -> FolderFault
        ensures fault { result ≡ FolderFault.Failed }
        ensures fails { (self.new.failed ≡ true) × (self.new.newest ≡ None) }
        ensures floor { self.new.floor ≡ self.old.floor }
        ensures segments { self.new.segments ≡ self.old.segments }
    {
        self.newest = None;
        self.failed = true;
        FolderFault::Failed
    }

    /// Keeps what the system has refused, and returns why the call failed, as a folder tells it.
    fn told(&self, refusal: Refusal) -> FolderFault
        ensures { result ≡ FolderFault.Full ↔ (error_kind refusal.1 ≡ ErrorKind.StorageFull) ⊎ (error_kind refusal.1 ≡ ErrorKind.QuotaExceeded) }
    {
        self.reason.set(Some(refusal));
        if is_full(&refusal.1) {
            FolderFault::Full
        } else {
            FolderFault::Failed
        }
    }

    /// Returns the name of the newest segment.
    fn newest_name(&self) -> FileName {
        match self.segments.list.first() {
            Some(newest) => FileName::Segment(newest.first),
            None => FileName::Dir,
        }
    }

    /// Counts so many bytes more for the newest segment.
    fn grow(&mut self, bytes: u64)
        ensures same { (self.new.floor ≡ self.old.floor) × (self.new.newest ≡ self.old.newest) × (self.new.failed ≡ self.old.failed) }
    {
        if let Some(newest) = self.segments.list.first_mut() {
            newest.bytes = newest.bytes.saturating_add(bytes);
        }
    }

    /// Counts what a write left in the newest segment that failed.
    fn grow_to(&mut self, file: &R::File, bytes: u64)
        ensures same { (self.new.floor ≡ self.old.floor) × (self.new.newest ≡ self.old.newest) × (self.new.failed ≡ self.old.failed) }
    {
        match (file.metadata(), self.segments.list.first_mut()) {
            (Ok(metadata), Some(newest)) => newest.bytes = metadata.len(),
            _ => self.grow(bytes),
        }
    }
}

impl<R: Files + Drop> Folder for Dir<R>
where
    R::File: Exclusive,
{
    ghost history = { λ _. None };

    // They are other processes.
    ghost positions = { λ _. None };

    // The files that say so are other processes' too.
    ghost shown = { λ _. None };

    fn names(&self, alloc: Global) -> Result<Vec<Named>, AllocError>
        ensures names { IfOk result (λ names. Now (HasNames names.items) None) }
        ensures same { IfOk result (λ names. names.items ≡ self.now.segments.list.items) }
    {
        Vec::from_slice(alloc, &self.segments.list)
    }

    fn floor(&self) -> u64
        ensures floor { Now (λ t. t.floor ≡ result) None }
        ensures same { result ≡ self.now.floor.number }
    {
        self.floor.number
    }

    /// What `end` said when the directory was opened, the floor, and the highest position of a consumer.
    fn shown(&self) -> u64
        ensures shown { (n : ℕ) → None ≡ Some n → n ≡ result }
        ensures same { result ≡ self.now.shown }
    {
        self.shown
    }

    fn read(&self, index: usize, at: u64, out: &mut [u8]) -> Result<(), FolderFault>
        ensures len { length out.new ≡ length out.old }
        ensures read { OnOk result (Now (IsRead index at out.new) None) }
        ensures dead { self.now.failed ≡ true → result ≡ Err FolderFault.Failed }
        ensures none { vec_len self.now.segments.list ≤ index → result ≡ Err FolderFault.Failed }
    {
        if self.failed {
            return Err(FolderFault::Failed);
        }
        let Some(segment) = self.segments.list.get(index) else {
            return Err(FolderFault::Failed);
        };
        let name = FileName::Segment(segment.first);
        match self.files.read(name, at, out) {
            Ok(()) => Ok(()),
            Err(reason) => {
                self.told(Refusal(name, reason));
                Err(FolderFault::Failed)
            }
        }
    }

    fn prepare(&mut self) -> Result<(), FolderFault>
        ensures same { (self.new.segments ≡ self.old.segments) × (self.new.floor ≡ self.old.floor) × (self.new.newest ≡ self.old.newest) × (self.new.failed ≡ self.old.failed) }
        ensures size { self.new.reserve ≡ self.old.reserve }
        ensures there { OnOk result (IsSome self.old.reserve → self.new.is_reserved ≡ true) }
        ensures kept { self.old.failed ≡ false → self.old.is_reserved ≡ true → result ≡ Ok tt }
        ensures unset { self.old.failed ≡ false → self.old.reserve ≡ None → result ≡ Ok tt }
        ensures dead { self.old.failed ≡ true → result ≡ Err FolderFault.Failed }
    {
        if self.failed {
            return Err(FolderFault::Failed);
        }
        match self.reserve {
            Some(bytes) if !self.is_reserved => self.set_reserve(bytes),
            _ => Ok(()),
        }
    }

    /// Writes the file `end` over in place, without a sync. Returns `Full` if there is no room to make it, and `Failed` if
    /// the system refuses it for another reason. After an error the file may be torn, and the call may be tried again.
    fn publish(&mut self, end: &End) -> Result<(), FolderFault>
        ensures same { (self.new.segments ≡ self.old.segments) × (self.new.floor ≡ self.old.floor) × (self.new.newest ≡ self.old.newest) × (self.new.failed ≡ self.old.failed) }
    {
        self.write_end(end)
            .map_err(|reason| self.told(Refusal(FileName::End, reason)))
    }

    fn append(&mut self, bytes: &[u8]) -> Result<(), FolderFault>
        ensures goes { Goes (IsAppended bytes.now result) None None }
        ensures dead { self.old.newest ≡ None → result ≡ Err FolderFault.Failed }
        ensures ends { OnErr result (self.new.newest ≡ None) }
        ensures failed { self.new.failed ≡ self.old.failed }
    {
        let Some(mut file) = self.newest.take() else {
            return Err(FolderFault::Failed);
        };
        match file.write_all(bytes) {
            Ok(()) => {
                self.grow(bytes.len() as u64);
                self.newest = Some(file);
                Ok(())
            }
            Err(reason) => {
                self.grow_to(&file, bytes.len() as u64);
                Err(self.told(Refusal(self.newest_name(), reason)))
            }
        }
    }

    fn sync(&mut self) -> Result<(), FolderFault>
        ensures goes { Goes (IsSynced result) None None }
        ensures dead { self.old.newest ≡ None → result ≡ Err FolderFault.Failed }
        ensures ends { OnErr result (self.new.newest ≡ None) }
        ensures failed { self.new.failed ≡ self.old.failed }
    {
        let Some(file) = self.newest.take() else {
            return Err(FolderFault::Failed);
        };
        match file.sync_data() {
            Ok(()) => {
                self.newest = Some(file);
                Ok(())
            }
            Err(reason) => Err(self.told(Refusal(self.newest_name(), reason))),
        }
    }

    fn add(&mut self, first: u64, bytes: &[u8]) -> Result<(), FolderFault>
        ensures goes { GoesBy (making (length bytes.now)) (IsAdded first bytes.now result) None None }
        ensures done { OnOk result (self.new.segments.list.items ≡ put (record { first = first; bytes = length bytes.now }) self.old.segments.list.items) }
        ensures few { vec_len self.old.segments.list ≤ MOST_SEGMENTS → OnOk result (vec_len self.new.segments.list ≤ MOST_SEGMENTS) }
        ensures writes { OnOk result (IsSome self.new.newest) }
        ensures full { result ≡ Err FolderFault.Full → (self.new.segments ≡ self.old.segments) × (self.new.newest ≡ self.old.newest) × (self.new.failed ≡ false) }
        ensures dead { self.old.failed ≡ true → result ≡ Err FolderFault.Failed }
        ensures fails { result ≡ Err FolderFault.Failed → (self.new.failed ≡ true) × (self.new.newest ≡ None) }
        ensures floor { self.new.floor ≡ self.old.floor }
    {
        if self.failed || !self.may_add(first) {
            return Err(self.fail());
        }
        let file = self.make(FileName::NextTmp, bytes)?;
        match self.name_next(first, bytes.len() as u64) {
            Ok(()) => {
                self.newest = Some(file);
                Ok(())
            }
            Err(refusal) => Err(self.fail_by(refusal)),
        }
    }

    fn raise_floor(&mut self, number: u64) -> Result<(), FolderFault>
        ensures goes { Goes (IsRaised number result) None None }
        ensures done { OnOk result (self.new.floor.number ≡ max number self.old.floor.number) }
        ensures refused { OnErr result (self.new.floor ≡ self.old.floor) }
        ensures dead { self.old.failed ≡ true → result ≡ Err FolderFault.Failed }
        ensures fails { result ≡ Err FolderFault.Failed → (self.new.failed ≡ true) × (self.new.newest ≡ None) }
        ensures segments { self.new.segments ≡ self.old.segments }
    {
        if self.failed {
            return Err(self.fail());
        }
        if number <= self.floor.number {
            return Ok(());
        }
        let floor = Floor {
            number,
            ..self.floor
        };
        self.make(FileName::FloorTmp, &floor.to_bytes())?;
        match self.files.rename(FileName::FloorTmp, FileName::Floor) {
            Ok(()) => {
                self.floor = floor;
                Ok(())
            }
            Err(refusal) => Err(self.fail_by(refusal)),
        }
    }

    fn remove_oldest(&mut self) -> Result<(), FolderFault>
        ensures goes { Goes (IsRemoved result) None None }
        ensures done { self.old.failed ≡ false → (front : List Named) (oldest : Named) → self.old.segments.list.items ≡ front ++ oldest ∷ [] → self.new.segments.list.items ≡ front }
        ensures none { self.old.segments.list.items ≡ [] → result ≡ Err FolderFault.Failed }
        ensures dead { self.old.failed ≡ true → result ≡ Err FolderFault.Failed }
        ensures fails { OnErr result ((self.new.failed ≡ true) × (self.new.newest ≡ None)) }
        ensures floor { self.new.floor ≡ self.old.floor }
    {
        if self.failed {
            return Err(self.fail());
        }
        let Some(oldest) = self.segments.list.last().copied() else {
            return Err(self.fail());
        };
        self.segments.pop();
        if self.segments.list.is_empty() {
            self.newest = None;
        }
        match self.files.discard(FileName::Segment(oldest.first)) {
            Ok(()) => Ok(()),
            Err(refusal) => Err(self.fail_by(refusal)),
        }
    }

    /// Takes `consumers.lock`, if there is one, and reads all positions. One that can't be read counts as 0. If another has
    /// the lock, or the system refuses to read, it returns `None`.
    fn passed(&mut self) -> Option<u64>
        ensures same { (self.new.segments ≡ self.old.segments) × (self.new.floor ≡ self.old.floor) × (self.new.newest ≡ self.old.newest) × (self.new.failed ≡ self.old.failed) }
    {
        let lock = self.files.open_there(FileName::Consumers).ok()?;
        if !matches!(lock.hold(), Ok(true)) {
            return None;
        }
        match consumers::least(&self.files, &self.floor.spool) {
            Ok(passed) => {
                self.consumers = passed.map(|_| lock);
                passed
            }
            Err(fault) => {
                self.note(fault);
                None
            }
        }
    }

    fn let_go(&mut self)
        ensures same { (self.new.segments ≡ self.old.segments) × (self.new.floor ≡ self.old.floor) × (self.new.newest ≡ self.old.newest) × (self.new.failed ≡ self.old.failed) }
    {
        self.consumers = None;
    }
}
