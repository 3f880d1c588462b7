//! The directory of a spool, as the calls of the system that are made there.
ghost use Rattle.amqp_spool.specs.FileNames.{file_name};
ghost use Rattle.std.specs.Prelude.{◌≡◌, ◌≤◌, ◌++◌, length, codes, string_bytes, IfOk, IfSome};
ghost use Rattle.std.specs.Vec.{vec_len};

use crate::consumer_name::ConsumerName;
use crate::dir_names::{FileName, consumer_in, first_in};
use std::alloc::{AllocError, Global};
use std::fmt::{self, Formatter};
use std::fs::{self, DirBuilder, File, Files, OpenFile, OpenOptions, TryLockError};
use std::io::{self, Read, Seek, SeekFrom, Write};
use std::os::unix::fs::{DirBuilderExt, OpenOptionsExt};

/// How many zeros are written at once.
const PIECE: usize = 65_536;

/// The mode of a directory that is made: its owner alone may do anything there.
const DIR_MODE: u32 = 0o700;

/// The mode of a file that is made: its owner alone may read and write it.
const FILE_MODE: u32 = 0o600;

/// A file that can be had by one opener alone.
pub trait Exclusive {
    /// Takes it for as long as it is open. Returns `false` if another has it.
    fn hold(&self) -> io::Result<bool>;
}

impl Exclusive for File {
    fn hold(&self) -> io::Result<bool> {
        match self.try_lock() {
            Ok(()) => Ok(true),
            Err(TryLockError::WouldBlock) => Ok(false),
            Err(TryLockError::Error(reason)) => Err(reason),
        }
    }
}

/// A call on this file, which the system has refused for this reason. It is displayed as `NAME REASON`.
#[derive(Clone, Copy, Debug)]
pub struct Refusal(pub FileName, pub io::Error);

impl fmt::Display for Refusal {
    fn fmt<W: fmt::Write>(&self, f: &mut Formatter<W>) -> fmt::Result {
        write!(f, "{} {}", self.0, self.1)
    }
}

/// The files of a directory, by name.
#[derive(Drop)]
pub struct DirFiles<R: Files + Drop> {
    rt: R,
    alloc: Global,
    path: String,
}

impl<R: Files + Drop> DirFiles<R> {
    /// Returns those of the directory at this path, which need not be there yet.
    pub fn new(rt: R, alloc: Global, path: &str) -> Result<DirFiles<R>, AllocError> {
        let path = String::from_str(alloc, path)?;
        Ok(DirFiles { rt, alloc, path })
    }

    /// Returns what its texts and lists are made with.
    pub(crate) fn alloc(&self) -> Global {
        self.alloc
    }

    /// Makes the directory with the mode 0700, if it isn't there.
    pub(crate) fn make_dir(&self) -> io::Result<()> {
        let mut builder = DirBuilder::new();
        builder.mode(DIR_MODE);
        match builder.create(&self.rt, self.path.as_str()) {
            Err(reason) if reason.kind() != io::ErrorKind::AlreadyExists => Err(reason),
            _ => Ok(()),
        }
    }

    /// Makes a file with these bytes, in place of what it had, and syncs it.
    pub(crate) fn make(&self, name: FileName, bytes: &[u8]) -> io::Result<R::File> {
        let path = self.path_of(name)?;
        self.make_at(path.as_str(), bytes)
    }

    /// Makes a file of so many zeros, in place of what it had, and syncs it.
    pub(crate) fn fill(&self, name: FileName, len: u64) -> io::Result<()> {
        let zeros = [0; PIECE];
        let path = self.path_of(name)?;
        let mut file = self.open_anew(path.as_str())?;
        for _ in 0..len / PIECE as u64 {
            file.write_all(&zeros)?;
        }
        let rest = len % PIECE as u64;
        file.write_all(&zeros[..rest as usize])?;
        file.sync_all()
    }

    /// Opens a file to write over what it has. It has to be there.
    pub(crate) fn open_there(&self, name: FileName) -> io::Result<R::File> {
        let mut options = OpenOptions::new();
        options.write(true);
        self.open(name, &options)
    }

    /// Opens a file to write at its end.
    pub(crate) fn open_end(&self, name: FileName) -> io::Result<R::File> {
        let mut options = OpenOptions::new();
        options.append(true);
        self.open(name, &options)
    }

    /// Opens a file to write over what it has. If it isn't there it is made, with the mode 0600.
    pub(crate) fn open_over(&self, name: FileName) -> io::Result<R::File> {
        let path = self.path_of(name)?;
        self.open_over_at(path.as_str())
    }

    /// Opens a file to read it.
    pub fn open_read(&self, name: FileName) -> io::Result<R::File> {
        let path = self.path_of(name)?;
        self.open_read_at(path.as_str())
    }

    /// Reads bytes of a file, from a place on. Fails if it has fewer.
    pub fn read(&self, name: FileName, at: u64, out: &mut [u8]) -> io::Result<()>
        ensures { length out.new ≡ length out.old }
    {
        let path = self.path_of(name)?;
        self.read_at(path.as_str(), at, out)
    }

    /// Returns how many bytes a file has. Returns `None` if it is no file.
    pub fn len(&self, name: FileName) -> io::Result<Option<u64>> {
        let path = self.path_of(name)?;
        self.len_at(path.as_str())
    }

    /// Gives a file another name, in place of the file that had it, and makes that durable.
    pub(crate) fn rename(&self, from: FileName, to: FileName) -> Result<(), Refusal> {
        self.move_over(from, to)
            .map_err(|reason| Refusal(to, reason))?;
        self.sync_names()
    }

    /// Cuts a file to no bytes and removes it, durably.
    pub(crate) fn discard(&self, name: FileName) -> Result<(), Refusal> {
        self.cut_and_remove(name)
            .map_err(|reason| Refusal(name, reason))?;
        self.sync_names()
    }

    /// Makes durable which names the directory has.
    pub(crate) fn sync_names(&self) -> Result<(), Refusal> {
        self.sync(FileName::Dir)
            .map_err(|reason| Refusal(FileName::Dir, reason))
    }

    /// Removes a file. Returns whether it was there.
    pub(crate) fn remove(&self, name: FileName) -> io::Result<bool> {
        let path = self.path_of(name)?;
        self.remove_at(path.as_str())
    }

    /// Makes durable what a file has, or which names a directory has.
    pub(crate) fn sync(&self, name: FileName) -> io::Result<()> {
        self.open_read(name)?.sync_all()
    }

    /// Returns the first numbers of the segments that have names, in no order. Returns `None` if there are more than
    /// `most`.
    pub fn firsts(&self, most: usize) -> io::Result<Option<Vec<u64>>>
        ensures { IfOk result (λ o. IfSome o (λ firsts. vec_len firsts ≤ most)) }
    {
        let rt = (&self.rt, self.alloc);
        let mut firsts = Vec::new(self.alloc);
        for entry in fs::read_dir(&rt, self.path.as_str())? {
            let first = match entry {
                Ok(entry) => first_in(entry.file_name()),
                Err(reason) if reason.kind() == io::ErrorKind::InvalidFilename => None,
                Err(reason) => return Err(reason),
            };
            if let Some(first) = first {
                if firsts.len() >= most {
                    return Ok(None);
                }
                firsts.push(first)?;
            }
        }
        Ok(Some(firsts))
    }

    /// Returns the consumers that have positions, in no order. Returns `None` if there are more than `most`.
    pub(crate) fn consumers(&self, most: usize) -> io::Result<Option<Vec<ConsumerName>>>
        ensures { IfOk result (λ o. IfSome o (λ names. vec_len names ≤ most)) }
    {
        let rt = (&self.rt, self.alloc);
        let mut names = Vec::new(self.alloc);
        for entry in fs::read_dir(&rt, self.path.as_str())? {
            let name = match entry {
                Ok(entry) => consumer_in(entry.file_name()),
                Err(reason) if reason.kind() == io::ErrorKind::InvalidFilename => None,
                Err(reason) => return Err(reason),
            };
            if let Some(name) = name {
                if names.len() >= most {
                    return Ok(None);
                }
                names.push(name)?;
            }
        }
        Ok(Some(names))
    }

    fn move_over(&self, from: FileName, to: FileName) -> io::Result<()> {
        let from = self.path_of(from)?;
        let to = self.path_of(to)?;
        self.rename_at(from.as_str(), to.as_str())
    }

    fn cut_and_remove(&self, name: FileName) -> io::Result<()> {
        self.open_there(name)?.set_len(0)?;
        self.remove(name)?;
        Ok(())
    }

    fn open(&self, name: FileName, options: &OpenOptions) -> io::Result<R::File> {
        let path = self.path_of(name)?;
        options.open(&self.rt, path.as_str())
    }

    fn path_of(&self, name: FileName) -> Result<String, AllocError>
        ensures { IfOk result (λ path. string_bytes path ≡ string_bytes self.now.path ++ codes "/" ++ file_name name) }
    {
        let alloc = self.alloc;
        format!(in alloc; "{}/{name}", self.path.as_str())
    }

    /// Returns the path of a consumer's file, whose name ends so.
    pub(crate) fn path_for(&self, name: &ConsumerName, ending: &str) -> Result<String, AllocError>
        ensures { IfOk result (λ path. string_bytes path ≡ string_bytes self.now.path ++ codes "/" ++ name.now ++ ending.now) }
    {
        let alloc = self.alloc;
        format!(in alloc; "{}/{}{ending}", self.path.as_str(), name.as_str())
    }

    /// Makes the file at this path with these bytes, in place of what it had, and syncs it.
    pub(crate) fn make_at(&self, path: &str, bytes: &[u8]) -> io::Result<R::File> {
        let mut file = self.open_anew(path)?;
        file.write_all(bytes)?;
        file.sync_all()?;
        Ok(file)
    }

    /// Opens the file at this path to write over what it has. If it isn't there it is made, with the mode 0600.
    pub(crate) fn open_over_at(&self, path: &str) -> io::Result<R::File> {
        let mut options = OpenOptions::new();
        options.write(true).create(true).mode(FILE_MODE);
        options.open(&self.rt, path)
    }

    /// Opens the file at this path to write what it has from its begin on. What it had is gone. If it isn't there it is
    /// made, with the mode 0600.
    fn open_anew(&self, path: &str) -> io::Result<R::File> {
        let mut options = OpenOptions::new();
        options
            .write(true)
            .create(true)
            .truncate(true)
            .mode(FILE_MODE);
        options.open(&self.rt, path)
    }

    /// Opens the file at this path to read it.
    fn open_read_at(&self, path: &str) -> io::Result<R::File> {
        let mut options = OpenOptions::new();
        options.read(true);
        options.open(&self.rt, path)
    }

    /// Reads bytes of the file at this path, from a place on. Fails if it has fewer.
    pub(crate) fn read_at(&self, path: &str, at: u64, out: &mut [u8]) -> io::Result<()>
        ensures { length out.new ≡ length out.old }
    {
        let mut file = self.open_read_at(path)?;
        file.seek(SeekFrom::Start(at))?;
        file.read_exact(out)
    }

    /// Returns how many bytes the file at this path has. Returns `None` if it is no file.
    pub(crate) fn len_at(&self, path: &str) -> io::Result<Option<u64>> {
        let metadata = self.rt.metadata(path)?;
        if metadata.is_file() {
            Ok(Some(metadata.len()))
        } else {
            Ok(None)
        }
    }

    /// Removes the file at this path. Returns whether it was there.
    pub(crate) fn remove_at(&self, path: &str) -> io::Result<bool> {
        match self.rt.remove_file(path) {
            Ok(()) => Ok(true),
            Err(reason) if reason.kind() == io::ErrorKind::NotFound => Ok(false),
            Err(reason) => Err(reason),
        }
    }

    /// Gives the file at this path another name, in place of the file that had it.
    pub(crate) fn rename_at(&self, from: &str, to: &str) -> io::Result<()> {
        self.rt.rename(from, to)
    }
}
