//! A segment that is open.

ghost use Rattle.std.specs.Prelude.{◌≤◌};
ghost use Rattle.amqp_spool_records.specs.Tellings.{MayComeFrom};

use crate::batches::{At, Stop, is_read, read_batches};
use crate::extents::Extent;
use crate::faults::SpoolFault;
use crate::visiting::Visitor;
use amqp_spool::{FileName, HEAD, Head, Names};
use std::alloc::Global;
use std::fs::OpenFile;
use std::io::{self, Read, Seek, SeekFrom};

/// A segment that is open, and where it is read next.
#[derive(Drop)]
pub struct OpenSegment<F> {
    file: F,
    head: Head,
    /// The sum of its head: which file of its name it is.
    mark: u64,
    /// Where its next batch begins.
    at: At,
    /// Who sends on its links, up to there.
    names: Names,
}

impl<F: Read + Seek + OpenFile + Drop> OpenSegment<F> {
    /// Reads the head of the segment that has this number in its name. Returns `None` if the file has no head of that
    /// number.
    pub fn of(alloc: Global, file: F, first: u64) -> io::Result<Option<OpenSegment<F>>> {
        let mut file = file;
        let mut bytes = [0; HEAD];
        if !is_read(&mut file, &mut bytes)? {
            return Ok(None);
        }
        let Some(head) = Head::read(&bytes).filter(|head| head.first == first) else {
            return Ok(None);
        };
        Ok(Some(OpenSegment {
            file,
            head,
            mark: head.sum(),
            at: At::first(&head),
            names: Names::new(alloc),
        }))
    }

    /// Returns the number of its first record.
    pub fn first(&self) -> u64 {
        self.head.first
    }

    /// Returns which file of its name it is: the sum of its head.
    pub fn mark(&self) -> u64 {
        self.mark
    }

    /// Returns the id of its spool.
    pub fn spool(&self) -> &[u8; 16] {
        &self.head.spool
    }

    /// Goes on in the file that has the segment's name now: where it was, if that has the same head, and else from the
    /// begin.
    pub fn go_on_in(self, found: OpenSegment<F>) -> OpenSegment<F> {
        if self.mark != found.mark {
            return found;
        }
        let OpenSegment { file, .. } = found;
        let mut open = self;
        open.file = file;
        open
    }

    /// Reads on up to where the segment counts, and tells the visitor each record from the number `due` on. `due` is
    /// the number after the last that was told then. `bytes` is room for a batch. After an error it goes on with the
    /// batch that it was in.
    pub fn read<V: Visitor>(
        &mut self,
        extent: &Extent,
        bytes: &mut Vec<u8>,
        due: &mut u64,
        visitor: &mut V,
    ) -> Result<Stop, SpoolFault>
        requires { MayComeFrom (V.may_come visitor.old) due.old }
        ensures rises { due.old ≤ due.new }
        ensures may { MayComeFrom (V.may_come visitor.new) due.new }
    {
        let name = FileName::Segment(self.head.first);
        self.stand(extent)
            .map_err(|reason| SpoolFault::of(name, reason))?;
        read_batches(
            &mut self.file,
            &self.head,
            &mut self.at,
            extent,
            &mut self.names,
            bytes,
            due,
            visitor,
        )
    }

    /// Moves to the next batch, and sees how many bytes are left that may count.
    fn stand(&mut self, extent: &Extent) -> io::Result<()> {
        let len = self.file.metadata()?.len();
        self.file.seek(SeekFrom::Start(self.at.place))?;
        let counted = extent.bytes.map_or(len, |bytes| bytes.min(len));
        self.at.left = counted.saturating_sub(self.at.place);
        Ok(())
    }
}
