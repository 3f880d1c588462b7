//! Going on through the segments of a spool.

ghost use Rattle.std.specs.Prelude.{◌≡◌, ◌≤◌, ◌+◌, ◌-◌, ◌^◌, min, OnOk, MatchOption};
ghost use Rattle.amqp_spool_records.specs.Tellings.{MayComeFrom};

use crate::batches::Stop;
use crate::damage::Damage;
use crate::extents::{Extent, Reach, extent_before};
use crate::faults::SpoolFault;
use crate::numbers::{after, is_below, missing_between};
use crate::open_segment::OpenSegment;
use crate::survey::{Survey, floor_in, head_in, id_of, is_same};
use crate::visiting::Visitor;
use amqp_spool::{DirFiles, End, FileName};
use std::alloc::Global;
use std::fs::Files;
use std::io::ErrorKind;
use std::mem;

/// A file of a segment: the number in its name, and the sum of its head, if that can be read.
#[derive(Clone, Copy, Debug, PartialEq, Eq)]
struct Which {
    first: u64,
    mark: Option<u64>,
}

/// How it went to read on in a segment.
#[derive(Clone, Copy, Debug, PartialEq, Eq)]
enum Went {
    /// All that counts was read, as far as it can be.
    Through,
    /// It is not known how far this file counts.
    Nowhere,
    /// It breaks off.
    Broke(Damage),
}

/// One that goes through the segments of a spool, in order, and what it has told so far. In memory it holds one batch,
/// and who sends on the links of one segment.
///
/// A start of the gateway puts another file in the place of the newest segment, and cuts the one that was there. So a
/// segment is opened once more by its name, if it breaks off or nothing says how far this file of it counts.
#[derive(Drop)]
pub struct Reader<R: Files + Drop> {
    files: DirFiles<R>,
    alloc: Global,
    /// The id of the spool, once it is known.
    spool: Option<[u8; 16]>,
    /// The number that is told next.
    due: u64,
    /// It begins after the floor, which was not read yet.
    is_new: bool,
    /// The segment that it is in.
    open: Option<OpenSegment<R::File>>,
    /// The file that was told to be damaged last. Nothing more is read of it.
    broken: Option<Which>,
    /// Whether anything was told since this was asked last.
    has_told: bool,
    /// Room for a batch.
    batch: Vec<u8>,
}

impl<R: Files + Drop> Reader<R> {
    /// Returns one that tells the records after the number `from`. Without it these are all that are not gone.
    pub fn new(files: DirFiles<R>, alloc: Global, from: Option<u64>) -> Reader<R>
        ensures { MatchOption from (result.due ≡ 1) (λ n. result.due ≡ min (n + 1) (2 ^ 64 - 1)) }
    {
        Reader {
            files,
            alloc,
            spool: None,
            due: after(from.unwrap_or(0)),
            is_new: from.is_none(),
            open: None,
            broken: None,
            has_told: false,
            batch: Vec::new(alloc),
        }
    }

    /// Returns the files that it reads.
    pub fn files(&self) -> &DirFiles<R> {
        &self.files
    }

    /// Returns the number that is told next.
    pub fn due(&self) -> u64
        ensures { result ≡ self.now.due }
    {
        self.due
    }

    /// Returns the id of the spool, once it is known.
    pub fn spool(&self) -> Option<[u8; 16]> {
        self.spool
    }

    /// Sees that an id that was found is that of the spool: the first one that is found. Returns `OtherSpool` if it
    /// isn't.
    pub fn own(&mut self, found: Option<[u8; 16]>) -> Result<(), SpoolFault>
        ensures { self.new.due ≡ self.old.due }
    {
        match found {
            Some(found) if !self.owns(&found) => Err(SpoolFault::OtherSpool),
            Some(_) => {
                self.spool = found;
                Ok(())
            }
            None => Ok(()),
        }
    }

    /// Returns whether anything was told since this was asked last.
    pub fn take_told(&mut self) -> bool
        ensures { self.new.due ≡ self.old.due }
    {
        mem::replace(&mut self.has_told, false)
    }

    /// Returns whether it is in the file that this end speaks of.
    pub fn is_in(&self, end: &End) -> bool {
        self.mark_of(end.first) == Some(end.mark)
    }

    /// Reads what counts of the segments of a survey, without the newest.
    pub fn read_older<V: Visitor>(
        &mut self,
        survey: &Survey,
        visitor: &mut V,
    ) -> Result<(), SpoolFault>
        requires { MayComeFrom (V.may_come visitor.old) self.old.due }
        ensures rises { self.old.due ≤ self.new.due }
        ensures may { MayComeFrom (V.may_come visitor.new) self.new.due }
    {
        self.begin(survey, visitor)?;
        let newer = survey.firsts.iter().skip(1);
        'segments: for (first, newer) in survey.firsts.iter().zip(newer) {
            self.read_between(*first, *newer, visitor)?;
        }
        Ok(())
    }

    /// Reads the newest segment of a survey, once those before it were read. Returns whether it is known how far it
    /// counts.
    pub fn read_newest<V: Visitor>(
        &mut self,
        survey: &Survey,
        reach: Reach,
        visitor: &mut V,
    ) -> Result<bool, SpoolFault>
        requires { MayComeFrom (V.may_come visitor.old) self.old.due }
        ensures rises { self.old.due ≤ self.new.due }
        ensures may { MayComeFrom (V.may_come visitor.new) self.new.due }
    {
        let Some(first) = survey.firsts.last().copied() else {
            return Ok(false);
        };
        self.pass_to(first, visitor)?;
        self.read_segment(first, reach, visitor)
    }

    /// Reads on in a segment, up to where it counts. Returns whether it is known how far that is: the number after it
    /// is due then. If it breaks off, the visitor is told of that, once, but not if the floor has passed it since.
    pub fn read_segment<V: Visitor>(
        &mut self,
        first: u64,
        reach: Reach,
        visitor: &mut V,
    ) -> Result<bool, SpoolFault>
        requires { MayComeFrom (V.may_come visitor.old) self.old.due }
        ensures rises { self.old.due ≤ self.new.due }
        ensures may { MayComeFrom (V.may_come visitor.new) self.new.due }
    {
        self.enter(first, visitor)?;
        let mut went = self.read_on(first, reach, visitor)?;
        if went != Went::Through {
            self.enter_again(first)?;
            went = self.read_on(first, reach, visitor)?;
        }
        match went {
            Went::Through => {}
            Went::Nowhere => return Ok(false),
            Went::Broke(damage) => self.tell(&damage, visitor)?,
        }
        self.pass_to(reach.next(), visitor)?;
        Ok(true)
    }

    /// Makes `next` due, if it is above the number that is. The numbers between them are missing.
    fn pass_to<V: Visitor>(&mut self, next: u64, visitor: &mut V) -> Result<(), SpoolFault>
        requires { MayComeFrom (V.may_come visitor.old) self.old.due }
        ensures rises { self.old.due ≤ self.new.due }
        ensures may { MayComeFrom (V.may_come visitor.new) self.new.due }
        ensures below { next ≤ self.old.due → (self.new ≡ self.old) × (visitor.new ≡ visitor.old) }
        ensures passed { OnOk result (next ≤ self.new.due) }
    {
        if let Some(missing) = missing_between(self.due, next) {
            visitor.gap(&id_of(self.spool), &missing)?;
            self.due = next;
            self.has_told = true;
        }
        Ok(())
    }

    /// Begins with a survey: numbers up to the floor are gone.
    fn begin<V: Visitor>(&mut self, survey: &Survey, visitor: &mut V) -> Result<(), SpoolFault>
        requires { MayComeFrom (V.may_come visitor.old) self.old.due }
        ensures rises { self.old.due ≤ self.new.due }
        ensures may { MayComeFrom (V.may_come visitor.new) self.new.due }
    {
        let kept = after(survey.floor);
        if self.is_new {
            self.is_new = false;
            self.due = self.due.max(kept);
            Ok(())
        } else {
            self.pass_to(kept, visitor)
        }
    }

    /// Reads what is due of a segment that has a newer one after it.
    fn read_between<V: Visitor>(
        &mut self,
        first: u64,
        newer: u64,
        visitor: &mut V,
    ) -> Result<(), SpoolFault>
        requires { MayComeFrom (V.may_come visitor.old) self.old.due }
        ensures rises { self.old.due ≤ self.new.due }
        ensures may { MayComeFrom (V.may_come visitor.new) self.new.due }
    {
        if is_below(Some(newer), self.due) {
            return Ok(());
        }
        self.pass_to(first, visitor)?;
        let head = head_in(&self.files, newer)?;
        let owned = head.filter(|head| self.owns(&head.spool));
        let extent = extent_before(first, newer, owned);
        self.read_segment(first, Reach::Counted(extent), visitor)?;
        Ok(())
    }

    /// Reads on in the segment that was entered.
    fn read_on<V: Visitor>(
        &mut self,
        first: u64,
        reach: Reach,
        visitor: &mut V,
    ) -> Result<Went, SpoolFault>
        requires { MayComeFrom (V.may_come visitor.old) self.old.due }
        ensures rises { self.old.due ≤ self.new.due }
        ensures may { MayComeFrom (V.may_come visitor.new) self.new.due }
    {
        let mark = self.mark_of(first);
        let Some(extent) = reach.extent(first, mark) else {
            return Ok(Went::Nowhere);
        };
        if self.broken == Some(Which { first, mark }) {
            return Ok(Went::Through);
        }
        match self.read_to(first, &extent, visitor)? {
            Stop::End => Ok(Went::Through),
            Stop::Broken { place, number } => Ok(Went::Broke(Damage {
                first,
                place,
                from: number,
                next: extent.next,
            })),
        }
    }

    /// Reads on up to where the segment counts. A file that has no head breaks off at its begin.
    fn read_to<V: Visitor>(
        &mut self,
        first: u64,
        extent: &Extent,
        visitor: &mut V,
    ) -> Result<Stop, SpoolFault>
        requires { MayComeFrom (V.may_come visitor.old) self.old.due }
        ensures rises { self.old.due ≤ self.new.due }
        ensures may { MayComeFrom (V.may_come visitor.new) self.new.due }
    {
        let Some(mut open) = self.open.take() else {
            return Ok(Stop::Broken {
                place: 0,
                number: first,
            });
        };
        let due = self.due;
        let stop = open.read(extent, &mut self.batch, &mut self.due, visitor);
        self.open = Some(open);
        if self.due > due {
            self.has_told = true;
        }
        stop
    }

    /// Tells that a file is damaged, if the floor has not passed it by now.
    fn tell<V: Visitor>(&mut self, damage: &Damage, visitor: &mut V) -> Result<(), SpoolFault>
        requires { MayComeFrom (V.may_come visitor.old) self.old.due }
        ensures same { self.new.due ≡ self.old.due }
        ensures may { MayComeFrom (V.may_come visitor.new) self.new.due }
    {
        let floor = floor_in(&self.files, &id_of(self.spool))?;
        if is_below(damage.next, after(floor)) {
            return Ok(());
        }
        self.broken = Some(Which {
            first: damage.first,
            mark: self.mark_of(damage.first),
        });
        self.has_told = true;
        visitor.damage(damage)
    }

    /// Sees that the segment that has this number in its name is open, if it has a head.
    fn enter<V: Visitor>(&mut self, first: u64, visitor: &mut V) -> Result<(), SpoolFault>
        requires { MayComeFrom (V.may_come visitor.old) self.old.due }
        ensures same { self.new.due ≡ self.old.due }
        ensures may { MayComeFrom (V.may_come visitor.new) self.new.due }
    {
        if self.mark_of(first).is_none() {
            visitor.segment();
            self.open = self.opened(first)?;
        }
        Ok(())
    }

    /// Opens that segment once more, by its name. It goes on where it was, if another file with the same head is there
    /// now, and else from the begin.
    fn enter_again(&mut self, first: u64) -> Result<(), SpoolFault>
        ensures { self.new.due ≡ self.old.due }
    {
        let Some(found) = self.opened(first)? else {
            return Ok(());
        };
        let open = match self.open.take() {
            Some(open) => open.go_on_in(found),
            None => found,
        };
        self.open = Some(open);
        Ok(())
    }

    /// Opens the segment that has this number in its name. Returns `None` if the file is gone, or has no head of this
    /// spool and number.
    fn opened(&self, first: u64) -> Result<Option<OpenSegment<R::File>>, SpoolFault> {
        let name = FileName::Segment(first);
        let opened = match self.files.open_read(name) {
            Ok(file) => OpenSegment::of(self.alloc, file, first),
            Err(reason) if reason.kind() == ErrorKind::NotFound => Ok(None),
            Err(reason) => Err(reason),
        };
        match opened {
            Ok(open) => Ok(open.filter(|open| self.owns(open.spool()))),
            Err(reason) => Err(SpoolFault::of(name, reason)),
        }
    }

    /// Returns whether an id is that of the spool, as far as that is known.
    fn owns(&self, id: &[u8; 16]) -> bool {
        self.spool.is_none_or(|own| is_same(&own, id))
    }

    /// Returns which file of the segment of this number is open. Returns `None` if none is.
    fn mark_of(&self, first: u64) -> Option<u64> {
        match &self.open {
            Some(open) if open.first() == first => Some(open.mark()),
            _ => None,
        }
    }
}
