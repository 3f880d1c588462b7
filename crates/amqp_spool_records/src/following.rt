//! Following a spool: telling what is published, as it is.

ghost use Rattle.std.specs.Prelude.{◌≡◌, ◌≤◌, ◌+◌, ◌-◌, ◌^◌, ℕ, min, IfOk, MatchOption};
ghost use Rattle.amqp_spool_records.specs.Tellings.{MayComeFrom};

use crate::extents::Reach;
use crate::faults::SpoolFault;
use crate::reader::Reader;
use crate::survey::{Survey, end_in};
use crate::visiting::Visitor;
use amqp_spool::{DirFiles, End};
use std::alloc::Global;
use std::fs::Files;
use std::marker::Model;

/// A reader that goes on where it was: it tells the records of a spool as they are published, in order, each once.
///
/// Of each segment but the newest it tells as much as the head of the next one counts, of the newest as much as the
/// published end says, and nothing without an end that speaks of that file: what comes after it may be lost, and its
/// numbers given to other records. Numbers that are missing are told as a gap.
///
/// It holds one file open, the names of those who send on the links of that segment, and room for one batch. Nothing is
/// locked and nothing is written. It waits for nothing: the caller says when it looks again.
#[derive(Drop)]
pub struct Follower<R: Files + Drop> {
    reader: Reader<R>,
    /// The published end up to which all was told last.
    end: Option<End>,
}

/// In clauses a follower is the number that is told next.
impl<R: Files + Drop> Model for Follower<R> {
    ghost Value = { ℕ };

    ghost view = { λ follower. follower.reader.due };
}

impl<R: Files + Drop> Follower<R> {
    /// Follows the spool in this directory, from the record after the number `after` on; without it from the first that
    /// is not gone. Nothing is read yet: the directory need not have a spool.
    ///
    /// # Errors
    ///
    /// `NoMemory` if memory is refused.
    pub fn new(
        rt: R,
        alloc: Global,
        dir: &str,
        after: Option<u64>,
    ) -> Result<Follower<R>, SpoolFault>
        ensures { IfOk result (λ follower. MatchOption after (follower ≡ 1) (λ n. follower ≡ min (n + 1) (2 ^ 64 - 1))) }
    {
        let files = DirFiles::new(rt, alloc, dir)?;
        Ok(Follower {
            reader: Reader::new(files, alloc, after),
            end: None,
        })
    }

    /// Tells the visitor what was published since the last call, up to the end that is published now. Returns whether
    /// it was told of anything. A directory without segments has nothing yet.
    ///
    /// If the same end is published as at the last call, that is all that is read. If it has moved within its segment,
    /// the bytes are read that came to it. The directory is listed if it speaks of another file than the one that is
    /// open, or can't be read.
    ///
    /// A segment that is damaged is told once. No more is told of it: its numbers are a gap, also those that come
    /// later, and it goes on with the next segment.
    ///
    /// # Errors
    ///
    /// Those of the visitor, which is told no more then. `Refused` if the system refuses to read the directory or a
    /// file, `OtherSpool` if the directory has another spool by now, `TooManySegments` if there are more than a gateway
    /// makes, `NoMemory` if memory is refused. After each error it may be called again: it goes on after the last
    /// record or gap that the visitor has taken, and after damage of which it was told.
    pub fn go_on<V: Visitor>(&mut self, visitor: &mut V) -> Result<bool, SpoolFault>
        requires { MayComeFrom (V.may_come visitor.old) self.old }
        ensures rises { self.old ≤ self.new }
        ensures may { MayComeFrom (V.may_come visitor.new) self.new }
    {
        let end = end_in(self.reader.files())?;
        if end.is_some() && end == self.end {
            return Ok(false);
        }
        if self.follow(end, visitor)? {
            self.end = end;
        }
        Ok(self.reader.take_told())
    }

    /// Returns the number after the last that was told, or that was missing. Before anything was told it is the one
    /// after `after`; without that it is 1 until the spool was seen, and then the first that is not gone.
    pub fn due(&self) -> u64
        ensures { result ≡ self.now }
    {
        self.reader.due()
    }

    /// Returns the id of the spool, once it is known.
    pub fn spool(&self) -> Option<[u8; 16]> {
        self.reader.spool()
    }

    /// Tells what there is up to a published end. Returns whether all of that was told.
    fn follow<V: Visitor>(&mut self, end: Option<End>, visitor: &mut V) -> Result<bool, SpoolFault>
        requires { MayComeFrom (V.may_come visitor.old) self.old }
        ensures rises { self.old ≤ self.new }
        ensures may { MayComeFrom (V.may_come visitor.new) self.new }
    {
        match end {
            Some(end) if self.reader.is_in(&end) => {
                self.reader
                    .read_segment(end.first, Reach::Published(Some(end)), visitor)
            }
            _ => self.look(end, visitor),
        }
    }

    /// Looks at the directory, and tells what there is. Returns whether the end speaks of its newest segment.
    fn look<V: Visitor>(&mut self, end: Option<End>, visitor: &mut V) -> Result<bool, SpoolFault>
        requires { MayComeFrom (V.may_come visitor.old) self.old }
        ensures rises { self.old ≤ self.new }
        ensures may { MayComeFrom (V.may_come visitor.new) self.new }
    {
        let Some(survey) = Survey::after(self.reader.files(), end)? else {
            return Ok(false);
        };
        self.reader.own(survey.spool)?;
        self.reader.own(end.map(|end| end.spool))?;
        self.reader.read_older(&survey, visitor)?;
        self.reader
            .read_newest(&survey, Reach::Published(end), visitor)
    }
}
