//! The files of the spool, and a plan: what happens to them while a reader is at work.
//!
//! A step is done before a call of the system that the reader makes. To close a file is none.

use std::alloc::{Allocator, Global};
use std::cell::Cell;
use std::fs::{self, File, Files, Metadata, OpenFile, OpenOptions};
use std::io::{self, ErrorKind, Read, Seek, SeekFrom, Write};
use std::rc::Rc;
use test_row_files::Miss;
use test_row_files::words::{cut, name_of, number};

/// Where the spool is.
pub const PATH: &str = "spool";

/// What happens while a reader is at work.
#[derive(Drop)]
pub struct Plan<'a> {
    pub rt: &'a HostRuntime,
    pub alloc: Global,
    /// The steps, parted by `;`.
    steps: Cell<Option<String>>,
    /// How many calls there are up to the next step, which comes before the last of them.
    left: Cell<u32>,
    /// How many calls there are from one step to the next. With 0 all are done at once.
    every: Cell<u32>,
    /// The file in whose place another was put last.
    replaced: Cell<Option<File>>,
}

impl<'a> Plan<'a> {
    /// Nothing is planned.
    pub fn new(rt: &'a HostRuntime, alloc: Global) -> Plan<'a> {
        Plan {
            rt,
            alloc,
            steps: Cell::new(None),
            left: Cell::new(0),
            every: Cell::new(0),
            replaced: Cell::new(None),
        }
    }

    /// Plans steps: CALL EVERY STEPS.
    pub fn set(&self, words: &str) -> Result<(), Miss> {
        let (call, words) = name_of(words);
        let (every, steps) = name_of(words);
        self.left.set(number(call)?);
        self.every.set(number(every)?);
        self.steps.set(Some(String::from_str(self.alloc, steps)?));
        Ok(())
    }

    /// Forgets what is planned.
    pub fn clear(&self) {
        self.steps.set(None);
        self.replaced.set(None);
    }

    /// Returns whether all that was planned was done.
    pub fn is_done(&self) -> bool {
        let steps = self.steps.replace(None);
        let is_done = steps.is_none();
        self.steps.set(steps);
        is_done
    }

    /// Does a step.
    pub fn step(&self, words: &str) -> Result<(), Miss> {
        let (call, words) = name_of(words);
        let (name, hex) = name_of(words);
        match call {
            "file" => self.write(name, hex),
            "name" => self.name(name, hex),
            "cut" => self.cut(name),
            "remove" => self.remove(name),
            _ => Err(Miss::Unread("no such step")),
        }
    }

    /// Writes a file over, in place. It is not cut before: some file systems write such a file out at once.
    fn write(&self, name: &str, hex: &str) -> Result<(), Miss> {
        let hex = if hex == "-" { "" } else { hex };
        let bytes = hex::decode(self.alloc, hex).ok().ok_or("no hex")?;
        let mut options = OpenOptions::new();
        options.write(true).create(true);
        let mut file = options.open(self.rt, self.path_of(name)?.as_str())?;
        file.write_all(&bytes)?;
        file.set_len(bytes.len() as u64)?;
        Ok(())
    }

    /// Puts a file in the place of the one that has the name, as a start of the gateway does. That one is removed
    /// before, for the same reason.
    fn name(&self, name: &str, hex: &str) -> Result<(), Miss> {
        self.write("next.tmp", hex)?;
        let from = self.path_of("next.tmp")?;
        let to = self.path_of(name)?;
        self.replaced.set(self.opened(to.as_str()));
        let _ = fs::remove_file(self.rt, to.as_str());
        fs::rename(self.rt, from.as_str(), to.as_str())?;
        Ok(())
    }

    /// Cuts a file to no bytes; without a name the one in whose place another was put.
    fn cut(&self, name: &str) -> Result<(), Miss> {
        let file = if name.is_empty() {
            self.replaced.replace(None)
        } else {
            self.opened(self.path_of(name)?.as_str())
        };
        file.ok_or("no file to cut")?.set_len(0)?;
        Ok(())
    }

    fn remove(&self, name: &str) -> Result<(), Miss> {
        fs::remove_file(self.rt, self.path_of(name)?.as_str())?;
        Ok(())
    }

    /// Opens a file to write over what it has, if it is there.
    fn opened(&self, path: &str) -> Option<File> {
        let mut options = OpenOptions::new();
        options.write(true);
        options.open(self.rt, path).ok()
    }

    fn path_of(&self, name: &str) -> Result<String, Miss> {
        Ok(format!(in self.alloc; "{PATH}/{name}")?)
    }

    /// Counts a call, and does the steps that are planned before it.
    fn ask(&self) -> io::Result<()> {
        let left = self.left.get();
        self.left.set(left.saturating_sub(1));
        if left != 1 {
            return Ok(());
        }
        match self.go_on() {
            Ok(()) => Ok(()),
            Err(_) => Err(io::Error::from(ErrorKind::InvalidInput)),
        }
    }

    /// Does the next step, or all of them.
    fn go_on(&self) -> Result<(), Miss> {
        let Some(steps) = self.steps.replace(None) else {
            return Ok(());
        };
        if self.every.get() == 0 {
            for step in steps.split(';') {
                self.step(step.trim())?;
            }
            return Ok(());
        }
        self.left.set(self.every.get());
        match cut(steps.as_str(), ';') {
            Ok((step, rest)) => {
                self.steps.set(Some(String::from_str(self.alloc, rest)?));
                self.step(step)
            }
            Err(_) => self.step(steps.as_str()),
        }
    }
}

/// The files of the system, while a plan is carried out.
#[derive(Drop)]
pub struct Disk<'a>(pub Rc<Plan<'a>>);

/// An open file.
#[derive(Drop)]
pub struct DiskFile<'a> {
    file: File,
    plan: Rc<Plan<'a>>,
}

/// Refuses a call that a reader has no use for.
fn unused<T>() -> io::Result<T> {
    Err(io::Error::from(ErrorKind::Unsupported))
}

impl<'a> Files for Disk<'a> {
    type File = DiskFile<'a>;

    type Dir = <HostRuntime as Files>::Dir;

    fn open_file(&self, how: &OpenOptions, path: &str) -> io::Result<DiskFile<'a>> {
        self.0.ask()?;
        Ok(DiskFile {
            file: self.0.rt.open_file(how, path)?,
            plan: self.0.clone()?,
        })
    }

    fn open_dir(&self, path: &str) -> io::Result<Self::Dir> {
        self.0.ask()?;
        self.0.rt.open_dir(path)
    }

    fn metadata(&self, path: &str) -> io::Result<Metadata> {
        self.0.ask()?;
        self.0.rt.metadata(path)
    }

    fn symlink_metadata(&self, _path: &str) -> io::Result<Metadata> {
        unused()
    }

    fn copy(&self, _from: &str, _to: &str) -> io::Result<u64> {
        unused()
    }

    fn rename(&self, _from: &str, _to: &str) -> io::Result<()> {
        unused()
    }

    fn remove_file(&self, _path: &str) -> io::Result<()> {
        unused()
    }

    fn create_dir(&self, _path: &str) -> io::Result<()> {
        unused()
    }

    fn remove_dir(&self, _path: &str) -> io::Result<()> {
        unused()
    }

    fn remove_dir_all<B: Allocator>(&self, _alloc: B, _path: &str) -> io::Result<()> {
        unused()
    }
}

impl Read for DiskFile<'_> {
    fn read(&mut self, buf: &mut [u8]) -> io::Result<usize> {
        self.plan.ask()?;
        self.file.read(buf)
    }
}

impl Seek for DiskFile<'_> {
    fn seek(&mut self, to: SeekFrom) -> io::Result<u64> {
        self.plan.ask()?;
        self.file.seek(to)
    }
}

impl Write for DiskFile<'_> {
    fn write(&mut self, _buf: &[u8]) -> io::Result<usize> {
        Err(io::Error::from(ErrorKind::Unsupported))
    }

    fn flush(&mut self) -> io::Result<()> {
        unused()
    }
}

impl OpenFile for DiskFile<'_> {
    fn metadata(&self) -> io::Result<Metadata> {
        self.plan.ask()?;
        self.file.metadata()
    }

    fn set_len(&self, _size: u64) -> io::Result<()> {
        unused()
    }

    fn sync_all(&self) -> io::Result<()> {
        unused()
    }

    fn sync_data(&self) -> io::Result<()> {
        unused()
    }
}
