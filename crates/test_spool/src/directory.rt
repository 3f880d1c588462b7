//! Rows of a directory of files, without a spool over it.

use crate::disk::{self, PATH};
use crate::files;
use crate::host::{Asked, Host};
use crate::texts::{end_in, put_end};
use crate::words::{Hex, Words, bytes_in, long, part, sixteen, word_of};
use amqp_spool::{Dir, Exclusive, Folder, FolderFault, OpenError};
use std::alloc::Global;
use std::fs::{File, Files};
use std::rc::Rc;
use test_row_files::words::{name_of, number};
use test_row_files::{Miss, Subject};

/// The directory [`PATH`].
#[derive(Drop)]
pub struct Directory<'a> {
    rt: &'a HostRuntime,
    asked: Rc<Asked>,
    dir: Option<Dir<Host<HostRuntime>>>,
    /// A file that a reader holds open.
    held: Option<File>,
}

impl Subject for Directory<'_> {
    fn begin(&mut self) {
        self.dir = None;
        self.held = None;
        disk::remove(self.rt);
    }

    fn call(&mut self, alloc: Global, words: &str) -> Result<String, Miss> {
        let mut out = String::new(alloc);
        self.answer(alloc, words, &mut out)?;
        Ok(out)
    }

    /// Shows nothing: files may lie there of which no segment can be read.
    fn shown(&self, alloc: Global) -> Result<String, Miss> {
        Ok(String::new(alloc))
    }
}

impl<'a> Directory<'a> {
    pub fn new(rt: &'a HostRuntime, asked: Rc<Asked>) -> Directory<'a> {
        Directory {
            rt,
            asked,
            dir: None,
            held: None,
        }
    }

    /// Answers a row.
    fn answer(&mut self, alloc: Global, words: &str, out: &mut String) -> Result<(), Miss> {
        match name_of(words) {
            ("open", id) => self.open(sixteen(id)?, out),
            ("also", path) => self.open_also(path, out),
            ("close", "") => self.close(out),
            ("note", "") => self.note(alloc, out),
            ("asked", "") => self.put_asked(alloc, out),
            ("hold", name) => self.hold(name, out),
            ("held", "") => self.put_held(out),
            ("file", words) => files::call(self.rt, words, out),
            (name, words) => self.ask(alloc, name, words, out),
        }
    }

    fn close(&mut self, out: &mut String) -> Result<(), Miss> {
        self.dir = None;
        Ok(out.push_str("()")?)
    }

    /// Writes down from now on what the system is asked.
    fn note(&self, alloc: Global, out: &mut String) -> Result<(), Miss> {
        self.asked.note(alloc);
        Ok(out.push_str("()")?)
    }

    fn put_asked(&self, alloc: Global, out: &mut String) -> Result<(), Miss> {
        let asked = self.asked.noted(alloc)?;
        Ok(out.push_str(asked.as_str())?)
    }

    /// Opens a file as a reader, and keeps it open.
    fn hold(&mut self, name: &str, out: &mut String) -> Result<(), Miss> {
        self.held = Some(files::open(self.rt, name)?);
        Ok(out.push_str("()")?)
    }

    /// Opens the directory, with the id of a spool that has no segments yet.
    fn open(&mut self, id: [u8; 16], out: &mut String) -> Result<(), Miss> {
        match self.opened(PATH, id)? {
            Ok(dir) => {
                self.dir = Some(dir);
                out.push_str("()")?;
            }
            Err(reason) => write!(out, "{reason}")?,
        }
        Ok(())
    }

    /// Opens a directory besides, and closes it again.
    fn open_also(&mut self, path: &str, out: &mut String) -> Result<(), Miss> {
        match self.opened(path, [0; 16])? {
            Ok(_) => out.push_str("()")?,
            Err(reason) => write!(out, "{reason}")?,
        }
        Ok(())
    }

    fn opened(
        &self,
        path: &str,
        id: [u8; 16],
    ) -> Result<Result<Dir<Host<HostRuntime>>, OpenError>, Miss> {
        let alloc = self.rt.alloc();
        let host = Host {
            rt: *self.rt,
            alloc,
            asked: self.asked.clone()?,
        };
        Ok(Dir::open(host, alloc, path, id))
    }

    /// Puts how many bytes the file has that is held.
    fn put_held(&self, out: &mut String) -> Result<(), Miss> {
        let held = self.held.as_ref().ok_or("nothing is held")?;
        write!(out, "{}", held.metadata()?.len())?;
        Ok(())
    }

    /// Makes a call of the directory.
    fn ask(
        &mut self,
        alloc: Global,
        name: &str,
        words: &str,
        out: &mut String,
    ) -> Result<(), Miss> {
        match &mut self.dir {
            Some(dir) => call(alloc, dir, name, words, out),
            None => Ok(out.push_str("closed")?),
        }
    }
}

/// Makes a call of a directory, and puts its answer.
fn call<R: Files + Drop>(
    alloc: Global,
    dir: &mut Dir<R>,
    name: &str,
    words: &str,
    out: &mut String,
) -> Result<(), Miss>
where
    R::File: Exclusive,
{
    match name {
        "names" => put_names(alloc, dir, out),
        "spool" => Ok(write!(out, "{}", Hex(&dir.spool()))?),
        "floor" => Ok(write!(out, "{}", dir.floor())?),
        "published" => Ok(put_end(dir.published(), out)?),
        "give_up_reserve" => Ok(out.push_str(word_of(dir.give_up_reserve()))?),
        "reason" => put_reason(dir, out),
        "read" => put_read(dir, Words::of(words), out),
        _ => Ok(out.push_str(told(change(alloc, dir, name, words)?))?),
    }
}

/// Puts the segments, the newest first, each as FIRST:BYTES.
fn put_names<R: Files + Drop>(alloc: Global, dir: &Dir<R>, out: &mut String) -> Result<(), Miss>
where
    R::File: Exclusive,
{
    for named in dir.names(alloc)?.iter() {
        let (first, bytes) = (named.first, named.bytes);
        part(out, " ")?;
        write!(out, "{first}:{bytes}")?;
    }
    Ok(())
}

/// Puts why a call was last refused.
fn put_reason<R: Files + Drop>(dir: &mut Dir<R>, out: &mut String) -> Result<(), Miss>
where
    R::File: Exclusive,
{
    match dir.take_reason() {
        Some(reason) => write!(out, "{reason}")?,
        None => out.push_str("None")?,
    }
    Ok(())
}

/// Puts bytes of a segment: INDEX PLACE LEN, with a length of at most 80.
fn put_read<R: Files + Drop>(
    dir: &Dir<R>,
    mut words: Words<'_>,
    out: &mut String,
) -> Result<(), Miss>
where
    R::File: Exclusive,
{
    let index = words.number()? as usize;
    let place = words.long()?;
    let len = words.number()? as usize;
    words.end()?;
    let mut room = [0; 80];
    let bytes = room.get_mut(..len).ok_or("too many bytes")?;
    match dir.read(index, place, bytes) {
        Ok(()) => write!(out, "{}", Hex(bytes))?,
        Err(fault) => out.push_str(name_of_fault(fault))?,
    }
    Ok(())
}

/// Makes a call that changes something.
fn change<R: Files + Drop>(
    alloc: Global,
    dir: &mut Dir<R>,
    name: &str,
    words: &str,
) -> Result<Result<(), FolderFault>, Miss>
where
    R::File: Exclusive,
{
    match name {
        "append" => Ok(dir.append(&bytes_in(alloc, words)?)),
        "add" => add(alloc, dir, Words::of(words)),
        "sync" => Ok(dir.sync()),
        "raise_floor" => Ok(dir.raise_floor(long(words)?)),
        "remove_oldest" => Ok(dir.remove_oldest()),
        "prepare" => Ok(dir.prepare()),
        "set_reserve" => Ok(dir.set_reserve(u64::from(number(words)?))),
        "publish" => {
            let end = end_in(dir.spool(), Words::of(words))?;
            Ok(dir.publish(&end))
        }
        _ => Err(Miss::Unread("no such call")),
    }
}

/// Adds a segment: FIRST BYTES.
fn add<R: Files + Drop>(
    alloc: Global,
    dir: &mut Dir<R>,
    mut words: Words<'_>,
) -> Result<Result<(), FolderFault>, Miss>
where
    R::File: Exclusive,
{
    let first = words.long()?;
    let hex = words.word()?;
    words.end()?;
    let bytes = bytes_in(alloc, hex)?;
    Ok(dir.add(first, &bytes))
}

fn told(answer: Result<(), FolderFault>) -> &'static str {
    match answer {
        Ok(()) => "()",
        Err(fault) => name_of_fault(fault),
    }
}

fn name_of_fault(fault: FolderFault) -> &'static str {
    match fault {
        FolderFault::Full => "Full",
        FolderFault::Failed => "Failed",
    }
}
