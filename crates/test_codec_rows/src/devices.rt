//! A device over a reader and writer that gives and takes what it is told to.
ghost use Rattle.std.specs.Prelude.{◌≤◌, IfOk};

use crate::bytes::{bytes_of, put_digits};
use crate::words::parsed;
use amqp_frame::Device;
use std::alloc::{AllocError, Global};
use std::io::{self, ErrorKind, Read, Write};
use test_row_files::Miss;
use test_row_files::words::{cut, name_of};

/// What stands behind the device.
#[derive(Drop)]
enum Inner {
    /// Gives or takes at most this many bytes at a time, and fails once none of its turns is left.
    Turns { left: u8, size: usize },
    /// Takes all, and fails at its first flush alone.
    FailsOnce { has_failed: bool },
    /// Gives these bytes, the last one first.
    Bytes(Vec<u8>),
}

fn failure() -> io::Error {
    io::Error::from(ErrorKind::Other)
}

impl Inner {
    /// Returns how many bytes are given or taken of this many.
    fn turn(&mut self, room: usize) -> io::Result<usize>
        ensures { IfOk result (λ count. count ≤ room) }
    {
        match self {
            Inner::Turns { left, size } => {
                *left = left.checked_sub(1).ok_or(failure())?;
                Ok(room.min(*size))
            }
            Inner::FailsOnce { .. } | Inner::Bytes(_) => Ok(room),
        }
    }
}

impl Read for Inner {
    fn read(&mut self, buf: &mut [u8]) -> io::Result<usize> {
        match self {
            Inner::Bytes(rest) => {
                let given = rest.len().min(buf.len());
                for byte in buf.iter_mut().take(given) {
                    *byte = rest.pop().unwrap_or(0);
                }
                Ok(given)
            }
            _ => self.turn(buf.len()),
        }
    }
}

impl Write for Inner {
    fn write(&mut self, buf: &[u8]) -> io::Result<usize> {
        self.turn(buf.len())
    }

    fn flush(&mut self) -> io::Result<()> {
        if let Inner::FailsOnce { has_failed } = self {
            if !*has_failed {
                *has_failed = true;
                return Err(failure());
            }
        }
        let _ = self.turn(0)?;
        Ok(())
    }
}

/// A device, and what was read last.
#[derive(Drop)]
pub struct Marked {
    device: Device<Inner>,
    room: Vec<u8>,
}

impl Marked {
    /// One over a reader that gives nothing.
    pub fn new(alloc: Global) -> Marked {
        Marked {
            device: Device::new(Inner::Bytes(Vec::new(alloc))),
            room: Vec::new(alloc),
        }
    }

    /// Makes a new device, over `turns 3 1`, say; or reads into this many bytes, writes or puts this many, or
    /// flushes.
    pub fn call(&mut self, alloc: Global, words: &str) -> Result<String, Miss> {
        let (name, words) = name_of(words);
        match name {
            "turns" | "fails-once" | "bytes" => {
                self.device = Device::new(inner_of(alloc, name, words)?);
                Ok(String::from_str(alloc, "()")?)
            }
            "read" => {
                self.room = vec![in alloc; 0u8; parsed(words)?]?;
                let count = self.device.read(&mut self.room);
                told(alloc, count)
            }
            "write" | "put" | "put-all" => {
                let bytes = vec![in alloc; 0u8; parsed(words)?]?;
                self.take(alloc, name, &bytes)
            }
            "flush" => told_done(alloc, self.device.flush().is_ok()),
            _ => Err(Miss::Unread("no such call")),
        }
    }

    fn take(&mut self, alloc: Global, name: &str, bytes: &[u8]) -> Result<String, Miss> {
        match name {
            "write" => told(alloc, self.device.write(bytes)),
            "put" => told(alloc, self.device.put(bytes).ok_or(failure())),
            _ => told_done(alloc, self.device.put_all(bytes)),
        }
    }

    pub fn shown(&self, alloc: Global) -> Result<String, AllocError> {
        let (failed, ended) = (self.device.failed(), self.device.ended());
        let mut shown = format!(in alloc; "failed={failed} ended={ended} room=")?;
        put_digits(&mut shown, &self.room)?;
        Ok(shown)
    }
}

fn inner_of(alloc: Global, name: &str, words: &str) -> Result<Inner, Miss> {
    match name {
        "turns" => {
            let (left, size) = cut(words, ' ')?;
            Ok(Inner::Turns {
                left: parsed(left)?,
                size: parsed(size)?,
            })
        }
        "fails-once" => Ok(Inner::FailsOnce { has_failed: false }),
        "bytes" => {
            let mut rest = bytes_of(alloc, words)?;
            rest.reverse();
            Ok(Inner::Bytes(rest))
        }
        _ => Err(Miss::Unread("no such device")),
    }
}

fn told(alloc: Global, answer: io::Result<usize>) -> Result<String, Miss> {
    match answer {
        Ok(count) => Ok(format!(in alloc; "{count}")?),
        Err(_) => Ok(String::from_str(alloc, "fails")?),
    }
}

fn told_done(alloc: Global, is_done: bool) -> Result<String, Miss> {
    let words = if is_done { "()" } else { "fails" };
    Ok(String::from_str(alloc, words)?)
}
