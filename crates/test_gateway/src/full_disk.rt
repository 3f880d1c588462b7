//! The system's files on a disk that may be full. Syncs are not made: a busy disk would take long for each.

use amqp_spool::Exclusive;
use std::alloc::Allocator;
use std::cell::Cell;
use std::fs::{Files, Metadata, OpenFile, OpenOptions};
use std::io::{self, ErrorKind, Read, Seek, SeekFrom, Write};
use std::rc::Rc;

/// The files.
#[derive(Drop)]
pub struct Disk<R: Drop> {
    pub rt: R,
    pub is_full: Rc<Cell<bool>>,
}

/// A file that takes nothing while the disk is full.
#[derive(Drop)]
pub struct DiskFile<F: Drop> {
    file: F,
    is_full: Rc<Cell<bool>>,
}

impl<R: Files + Drop> Files for Disk<R> {
    type File = DiskFile<R::File>;

    type Dir = R::Dir;

    fn open_file(&self, how: &OpenOptions, path: &str) -> io::Result<Self::File> {
        Ok(DiskFile {
            file: self.rt.open_file(how, path)?,
            is_full: self.is_full.clone()?,
        })
    }

    fn open_dir(&self, path: &str) -> io::Result<Self::Dir> {
        self.rt.open_dir(path)
    }

    fn metadata(&self, path: &str) -> io::Result<Metadata> {
        self.rt.metadata(path)
    }

    fn symlink_metadata(&self, path: &str) -> io::Result<Metadata> {
        self.rt.symlink_metadata(path)
    }

    fn copy(&self, from: &str, to: &str) -> io::Result<u64> {
        self.rt.copy(from, to)
    }

    fn rename(&self, from: &str, to: &str) -> io::Result<()> {
        self.rt.rename(from, to)
    }

    fn remove_file(&self, path: &str) -> io::Result<()> {
        self.rt.remove_file(path)
    }

    fn create_dir(&self, path: &str) -> io::Result<()> {
        self.rt.create_dir(path)
    }

    fn create_dir_with_mode(&self, path: &str, mode: u32) -> io::Result<()> {
        self.rt.create_dir_with_mode(path, mode)
    }

    fn remove_dir(&self, path: &str) -> io::Result<()> {
        self.rt.remove_dir(path)
    }

    fn remove_dir_all<B: Allocator>(&self, alloc: B, path: &str) -> io::Result<()> {
        self.rt.remove_dir_all(alloc, path)
    }
}

impl<F: Read + Drop> Read for DiskFile<F> {
    fn read(&mut self, buf: &mut [u8]) -> io::Result<usize> {
        self.file.read(buf)
    }
}

impl<F: Write + Drop> Write for DiskFile<F> {
    fn write(&mut self, buf: &[u8]) -> io::Result<usize> {
        if self.is_full.get() {
            return Err(io::Error::from(ErrorKind::StorageFull));
        }
        self.file.write(buf)
    }

    fn flush(&mut self) -> io::Result<()> {
        self.file.flush()
    }
}

impl<F: Seek + Drop> Seek for DiskFile<F> {
    fn seek(&mut self, to: SeekFrom) -> io::Result<u64> {
        self.file.seek(to)
    }
}

impl<F: OpenFile + Drop> OpenFile for DiskFile<F> {
    fn metadata(&self) -> io::Result<Metadata> {
        self.file.metadata()
    }

    fn set_len(&self, size: u64) -> io::Result<()> {
        self.file.set_len(size)
    }

    fn sync_all(&self) -> io::Result<()> {
        Ok(())
    }

    fn sync_data(&self) -> io::Result<()> {
        Ok(())
    }
}

impl<F: Exclusive + Drop> Exclusive for DiskFile<F> {
    fn hold(&self) -> io::Result<bool> {
        self.file.hold()
    }
}
