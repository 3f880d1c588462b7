//! The system's files, with a plan: the calls that the system is asked are counted, and one of them may be refused.
//!
//! Two things are not counted. To close a file is no call of the traits, and can't be refused. How many reads a list of
//! names takes rests on the file system, so the first stands for all. A call that a spool has no use for is refused.

use crate::words::part;
use amqp_spool::Exclusive;
use std::alloc::{AllocError, Allocator, Global};
use std::cell::Cell;
use std::fmt::{self, Display, Formatter};
use std::fs::{Files, Metadata, OpenFile, OpenOptions};
use std::io::{self, ErrorKind, Read, Seek, SeekFrom, Write};
use std::rc::Rc;
use test_row_files::Miss;

/// The last word of a path.
#[derive(Clone, Copy)]
enum Name {
    Word(&'static str),
    Segment(u64),
}

impl Name {
    fn of(path: &str) -> Name {
        let name = match path.rsplit_once('/') {
            Some((_, name)) => name,
            None => path,
        };
        match segment_of(name) {
            Some(first) => Name::Segment(first),
            None => Name::Word(word_of(name)),
        }
    }
}

/// Returns the number in the name of a segment.
fn segment_of(name: &str) -> Option<u64> {
    name.strip_suffix(".seg")?.parse::<u64>().ok()
}

/// Returns the name of a file that is no segment.
fn word_of(name: &str) -> &'static str {
    match name {
        "." => ".",
        ".." => "..",
        "spool" => "spool",
        "lock" => "lock",
        "next.tmp" => "next.tmp",
        "floor.tmp" => "floor.tmp",
        "floor" => "floor",
        "end" => "end",
        "reserve" => "reserve",
        _ => "another",
    }
}

impl Display for Name {
    fn fmt<W: fmt::Write>(&self, f: &mut Formatter<W>) -> fmt::Result {
        match self {
            Name::Word(word) => f.write_str(word),
            Name::Segment(first) => write!(f, "{first}.seg"),
        }
    }
}

/// A call of the system.
#[derive(Clone, Copy)]
enum Call {
    Of(&'static str, Name),
    /// With the mode that is asked for.
    Make(Name, u32),
    /// With a count of bytes, or a place.
    At(&'static str, Name, u64),
    Rename(Name, Name),
}

impl Display for Call {
    fn fmt<W: fmt::Write>(&self, f: &mut Formatter<W>) -> fmt::Result {
        match self {
            Call::Of(word, name) => write!(f, "{word} {name}"),
            Call::Make(name, mode) => write!(f, "make {name} {mode:o}"),
            Call::At(word, name, count) => write!(f, "{word} {name} {count}"),
            Call::Rename(from, to) => write!(f, "rename {from} {to}"),
        }
    }
}

/// What the system was asked, and what it refuses.
#[derive(Drop)]
pub struct Asked {
    /// The calls, if they are written down.
    text: Cell<Option<String>>,
    /// How many calls there were.
    count: Cell<u64>,
    /// How many calls there are up to the one that is refused, which is among them. None is if this is 0.
    left: Cell<u32>,
    reason: Cell<ErrorKind>,
    /// Whether a sync is made, and not only counted.
    syncs: bool,
}

impl Asked {
    /// Nothing was asked. If a sync isn't made, what is read later is the same, and a busy disk takes no time for it.
    pub fn new(syncs: bool) -> Asked {
        Asked {
            text: Cell::new(None),
            count: Cell::new(0),
            left: Cell::new(0),
            reason: Cell::new(ErrorKind::Other),
            syncs,
        }
    }

    /// Writes the calls down from now on.
    pub fn note(&self, alloc: Global) {
        self.text.set(Some(String::new(alloc)));
    }

    /// Returns the calls since the last time.
    pub fn noted(&self, alloc: Global) -> Result<String, Miss> {
        match self.text.replace(Some(String::new(alloc))) {
            Some(text) => Ok(text),
            None => Err(Miss::Unread("nothing was written down")),
        }
    }

    /// Returns how many calls there were.
    pub fn count(&self) -> u64 {
        self.count.get()
    }

    /// Plans that the call of this number, counted from 1 on, is refused for a reason.
    pub fn refuse(&self, number: u32, reason: ErrorKind) {
        self.left.set(number);
        self.reason.set(reason);
    }

    /// Plans that no call is refused. Returns whether the planned one was.
    pub fn clear(&self) -> bool {
        self.left.replace(0) == 0
    }

    /// Counts a call. Fails if it is the one that is refused.
    fn ask(&self, call: Call) -> io::Result<()> {
        if let Some(mut text) = self.text.replace(None) {
            put_call(call, &mut text)?;
            self.text.set(Some(text));
        }
        self.count.set(self.count.get().saturating_add(1));
        let left = self.left.get();
        self.left.set(left.saturating_sub(1));
        if left == 1 {
            Err(io::Error::from(self.reason.get()))
        } else {
            Ok(())
        }
    }
}

fn put_call(call: Call, out: &mut String) -> Result<(), AllocError> {
    part(out, ", ")?;
    write!(out, "{call}")
}

/// Returns the reason that these words name.
pub fn reason_of(words: &str) -> Result<ErrorKind, Miss> {
    match words {
        "full" => Ok(ErrorKind::StorageFull),
        "quota" => Ok(ErrorKind::QuotaExceeded),
        "refused" => Ok(ErrorKind::PermissionDenied),
        _ => Err(Miss::Unread("no such reason")),
    }
}

/// The system's files.
#[derive(Drop)]
pub struct Host<R: Drop> {
    pub rt: R,
    pub alloc: Global,
    pub asked: Rc<Asked>,
}

/// An open file of the system.
#[derive(Drop)]
pub struct HostFile<F: Drop> {
    file: F,
    name: Name,
    asked: Rc<Asked>,
}

/// The names of a directory of the system.
#[derive(Drop)]
pub struct HostDir<D: Drop> {
    dir: D,
    asked: Rc<Asked>,
    is_read: bool,
}

/// Returns what opening a file asks.
fn opening(alloc: Global, how: &OpenOptions, path: &str) -> io::Result<Call> {
    let name = Name::of(path);
    if how.asks_create() {
        Ok(Call::Make(name, mode_of(alloc, how)?))
    } else {
        Ok(Call::Of("open", name))
    }
}

/// Returns the mode that a file is made with. Options show it in their text for debugging alone, as their last word.
fn mode_of(alloc: Global, how: &OpenOptions) -> io::Result<u32> {
    let text = format!(in alloc; "{how:?}")?;
    match mode_in(text.as_str()) {
        Some(mode) => Ok(mode),
        None => Err(io::Error::from(ErrorKind::InvalidData)),
    }
}

fn mode_in(text: &str) -> Option<u32> {
    let (_, mode) = text.rsplit_once("mode: ")?;
    mode.trim_end_matches(" }").parse::<u32>().ok()
}

impl<R: Files + Drop> Files for Host<R> {
    type File = HostFile<R::File>;

    type Dir = HostDir<R::Dir>;

    fn open_file(&self, how: &OpenOptions, path: &str) -> io::Result<Self::File> {
        self.asked.ask(opening(self.alloc, how, path)?)?;
        Ok(HostFile {
            name: Name::of(path),
            asked: self.asked.clone()?,
            file: self.rt.open_file(how, path)?,
        })
    }

    fn open_dir(&self, path: &str) -> io::Result<Self::Dir> {
        self.asked.ask(Call::Of("list", Name::Word("spool")))?;
        Ok(HostDir {
            asked: self.asked.clone()?,
            dir: self.rt.open_dir(path)?,
            is_read: false,
        })
    }

    fn metadata(&self, path: &str) -> io::Result<Metadata> {
        self.asked.ask(Call::Of("look", Name::of(path)))?;
        self.rt.metadata(path)
    }

    fn symlink_metadata(&self, _path: &str) -> io::Result<Metadata> {
        Err(io::Error::from(ErrorKind::Unsupported))
    }

    fn copy(&self, _from: &str, _to: &str) -> io::Result<u64> {
        Err(io::Error::from(ErrorKind::Unsupported))
    }

    fn rename(&self, from: &str, to: &str) -> io::Result<()> {
        self.asked.ask(Call::Rename(Name::of(from), Name::of(to)))?;
        self.rt.rename(from, to)
    }

    fn remove_file(&self, path: &str) -> io::Result<()> {
        self.asked.ask(Call::Of("remove", Name::of(path)))?;
        self.rt.remove_file(path)
    }

    fn create_dir(&self, path: &str) -> io::Result<()> {
        self.asked.ask(Call::Make(Name::of(path), 0o777))?;
        self.rt.create_dir(path)
    }

    fn create_dir_with_mode(&self, path: &str, mode: u32) -> io::Result<()> {
        self.asked.ask(Call::Make(Name::of(path), mode))?;
        self.rt.create_dir_with_mode(path, mode)
    }

    fn remove_dir(&self, _path: &str) -> io::Result<()> {
        Err(io::Error::from(ErrorKind::Unsupported))
    }

    fn remove_dir_all<B: Allocator>(&self, _alloc: B, _path: &str) -> io::Result<()> {
        Err(io::Error::from(ErrorKind::Unsupported))
    }
}

/// The first read of the names is counted. How many there are rests on the file system.
impl<D: Read + Drop> Read for HostDir<D> {
    fn read(&mut self, buf: &mut [u8]) -> io::Result<usize> {
        if !self.is_read {
            self.is_read = true;
            self.asked.ask(Call::Of("names", Name::Word("spool")))?;
        }
        self.dir.read(buf)
    }
}

impl<F: Read + Drop> Read for HostFile<F> {
    fn read(&mut self, buf: &mut [u8]) -> io::Result<usize> {
        self.asked
            .ask(Call::At("read", self.name, buf.len() as u64))?;
        self.file.read(buf)
    }
}

/// A write that is refused has written a half.
impl<F: Write + Drop> Write for HostFile<F> {
    fn write(&mut self, buf: &[u8]) -> io::Result<usize> {
        let call = Call::At("write", self.name, buf.len() as u64);
        if let Err(reason) = self.asked.ask(call) {
            self.file.write_all(&buf[..buf.len() / 2])?;
            return Err(reason);
        }
        self.file.write(buf)
    }

    fn flush(&mut self) -> io::Result<()> {
        self.file.flush()
    }
}

impl<F: Seek + Drop> Seek for HostFile<F> {
    fn seek(&mut self, to: SeekFrom) -> io::Result<u64> {
        let call = match to {
            SeekFrom::Start(place) => Call::At("seek", self.name, place),
            _ => Call::Of("move", self.name),
        };
        self.asked.ask(call)?;
        self.file.seek(to)
    }
}

impl<F: OpenFile + Drop> OpenFile for HostFile<F> {
    fn metadata(&self) -> io::Result<Metadata> {
        self.asked.ask(Call::Of("look", self.name))?;
        self.file.metadata()
    }

    fn set_len(&self, size: u64) -> io::Result<()> {
        self.asked.ask(Call::Of("cut", self.name))?;
        self.file.set_len(size)
    }

    fn sync_all(&self) -> io::Result<()> {
        self.asked.ask(Call::Of("sync", self.name))?;
        if self.asked.syncs {
            self.file.sync_all()
        } else {
            Ok(())
        }
    }

    fn sync_data(&self) -> io::Result<()> {
        self.asked.ask(Call::Of("sync", self.name))?;
        if self.asked.syncs {
            self.file.sync_data()
        } else {
            Ok(())
        }
    }
}

impl<F: Exclusive + Drop> Exclusive for HostFile<F> {
    fn hold(&self) -> io::Result<bool> {
        self.asked.ask(Call::Of("hold", self.name))?;
        self.file.hold()
    }
}
