//! Batches on the disk: the segments of a folder, one batch after the other.
ghost use Rattle.std.specs.Prelude.{◌≡◌, ◌≢◌, ◌++◌, ◌≤◌, ◌<◌, ◌+◌, ◌^◌, ◌⊎◌, ℕ, true, false, List, ◌∷◌, [], length, Ok, Err, Some, OnOk, OnErr, IfOk, IfErr, IfSome};
ghost use Rattle.std.specs.Vec.{vec_len, vec_capacity};
ghost use Rattle.amqp_spool.specs.Batches.{Batch, Follows};
ghost use Rattle.amqp_spool.specs.Chapters.{Chapter, GoesAfter, Holds, IsAt, IsPut, IsBegun, chapter_text, next_of};
ghost use Rattle.amqp_spool.specs.Counting.{HasRaised, OldestIsNeeded, AllAreNeeded, AreAllPassed, OneIsLeft, AreInOrder, AreFrontOf, IsFreed};
ghost use Rattle.amqp_spool.specs.Consumers.{HavePassed};
ghost use Rattle.amqp_spool.specs.Ends.{end_of};
ghost use Rattle.amqp_spool.specs.Folders.{Now, Since, IsUnasked};
ghost use Rattle.amqp_spool.specs.declared.journal.JournalFault.TheVariants.{NoMemory};
ghost use Rattle.amqp_spool.specs.Heads.{batch_text, head_text};
ghost use Rattle.amqp_spool.specs.Journals.{IsCounted, LeavesMost, HasFloor, Stands, IsSettled, IsTended, GoesHere, GoesAnew, GoesEither, StaysAt, head_after, AreSame, HaveLimits, as_told, IsRefused, HasNoRoom, HasNoRoomHere};

use crate::batch_head::{BATCH_HEAD, BatchHead};
use crate::end::End;
use crate::folder::{Folder, FolderFault};
use crate::head::{HEAD, Head};
use crate::segments::Segments;
use std::alloc::{AllocError, Global};

/// Why a batch is not on the disk.
#[derive(Clone, Copy, Debug, PartialEq, Eq)]
pub enum JournalFault {
    /// Memory was refused.
    NoMemory,
    /// There is no room for it.
    Full,
    /// The folder has failed.
    Failed,
    /// The folder has more than the limits allow.
    Bound,
    /// What counts is not all there.
    Damaged,
}

impl From<AllocError> for JournalFault {
    ghost from_gives = { λ _ e. e ≡ NoMemory };

    fn from(_: AllocError) -> JournalFault {
        JournalFault::NoMemory
    }
}

impl From<FolderFault> for JournalFault {
    ghost from_gives = { λ fault e. e ≡ as_told fault };

    fn from(fault: FolderFault) -> JournalFault {
        match fault {
            FolderFault::Full => JournalFault::Full,
            FolderFault::Failed => JournalFault::Failed,
        }
    }
}

/// A journal: batches in the segments of a folder.
#[derive(Drop)]
pub struct Journal<F: Folder + Drop> {
    pub(crate) folder: F,
    pub(crate) alloc: Global,
    /// The head of the newest segment.
    pub(crate) head: Head,
    /// How many of its bytes count.
    pub(crate) place: u64,
    /// The number of the next record.
    pub(crate) next: u64,
    /// How often the spool was started.
    pub(crate) life: u64,
    /// Where a segment ends, and how many bytes a new one has at most.
    pub(crate) segment: u64,
    /// How many bytes segments may have together.
    pub(crate) limit: u64,
    /// The segments.
    pub(crate) segments: Segments,
    /// How many bytes segments have together at most.
    pub(crate) used: u64,
    /// Up to which number segments may be missing.
    pub(crate) floor: u64,
    /// Nothing more may be asked of the newest.
    pub(crate) spent: bool,
    /// Nothing more may be asked of the folder.
    pub(crate) failed: bool,
}

impl<F: Folder + Drop> Journal<F> {
    /// Appends a batch to the newest segment, and syncs it. Returns `Full` if it has no room, and nothing was done then.
    fn append(&mut self, batch: &[u8]) -> Result<(), FolderFault>
        requires counted { IsCounted F.history self.old }
        requires alive { self.old.failed ≡ false }
        ensures alive { self.new.failed ≡ false }
        ensures counted { IsCounted F.history self.new }
        ensures same { AreSame self.old self.new }
        ensures bound { Since (LeavesMost (self.old.limit + self.old.segment)) (F.history self.old.folder) (F.history self.new.folder) }
        ensures floor { (n : ℕ) → Now (HasFloor n) (F.history self.old.folder) → Since (HasFloor n) (F.history self.old.folder) (F.history self.new.folder) }
        ensures spent { OnOk result (self.new.spent ≡ false) }
        ensures untried { OnErr result (self.new.spent ≡ false → self.new ≡ self.old) }
        ensures put { (ch : Chapter) (chs : List Chapter) (b : Batch) → batch.now ≡ batch_text ch.head.secret b.head b.body → Follows (next_of ch) b → Now (IsAt ch chs) (F.history self.old.folder)
            → IsPut ch chs b result (F.history self.old.folder) (F.history self.new.folder) }
        ensures unasked { OnErr result (IsUnasked (F.history self.old.folder) (F.history self.new.folder) → self.new ≡ self.old) }
        ensures why { IfErr result (λ fault. IsUnasked (F.history self.old.folder) (F.history self.new.folder) → (fault ≡ FolderFault.Full) × ((self.old.spent ≡ true) ⊎ HasNoRoom (length batch.now) self.old)) }
    {
        let len = batch.len() as u64;
        if self.spent || self.limit - self.used < len {
            return Err(FolderFault::Full);
        }
        self.used += len;
        self.segments.grow(len);
        self.spent = true;
        self.folder.append(batch)?;
        self.folder.sync()?;
        self.spent = false;
        Ok(())
    }

    /// Adds a segment, whole. Returns `Full` if there is no room for it.
    fn add(&mut self, first: u64, segment: &[u8]) -> Result<(), FolderFault>
        requires counted { IsCounted F.history self.old }
        requires alive { self.old.failed ≡ false }
        requires room { vec_len self.old.segments.list < vec_capacity self.old.segments.list }
        requires small { length segment.now ≤ self.old.segment }
        ensures alive { result ≢ Err FolderFault.Failed → self.new.failed ≡ false }
        ensures counted { IsCounted F.history self.new }
        ensures same { AreSame self.old self.new }
        ensures bound { Since (LeavesMost (self.old.limit + self.old.segment)) (F.history self.old.folder) (F.history self.new.folder) }
        ensures floor { (n : ℕ) → Now (HasFloor n) (F.history self.old.folder) → Since (HasFloor n) (F.history self.old.folder) (F.history self.new.folder) }
        ensures spent { result ≡ Err FolderFault.Full → self.new.spent ≡ self.old.spent }
        ensures failed { result ≡ Err FolderFault.Failed → self.new.failed ≡ true }
        ensures begun { (next ch : Chapter) (chs behind : List Chapter) → segment.now ≡ chapter_text next → next.head.first ≡ first → GoesAfter next ch chs behind
            → Now (Holds ch chs) (F.history self.old.folder) → IsBegun next ch chs behind result (F.history self.old.folder) (F.history self.new.folder) }
        ensures why { IfErr result (λ fault. IsUnasked (F.history self.old.folder) (F.history self.new.folder) → (fault ≡ FolderFault.Full) × HasNoRoom (length segment.now) self.old) }
    {
        let len = segment.len() as u64;
        if self.limit - self.used < len {
            return Err(FolderFault::Full);
        }
        match self.folder.add(first, segment) {
            Ok(()) => {
                self.used += len;
                self.used -= self.segments.put(first, len);
                self.spent = false;
                Ok(())
            }
            Err(FolderFault::Full) => Err(FolderFault::Full),
            Err(FolderFault::Failed) => {
                self.used += len;
                self.failed = true;
                Err(FolderFault::Failed)
            }
        }
    }

    /// Makes a batch durable at the end of the newest segment. Returns `Full` if it doesn't fit there.
    fn settle_here(&mut self, count: u32, arrived: u64, body: &[u8]) -> Result<(), JournalFault>
        requires counted { IsCounted F.history self.old }
        requires alive { self.old.failed ≡ false }
        requires some { 0 < count }
        requires small { length body.now < 2 ^ 32 }
        requires within { self.old.next + count < 2 ^ 64 }
        ensures alive { self.new.failed ≡ false }
        ensures counted { IsCounted F.history self.new }
        ensures limits { HaveLimits self.old self.new }
        ensures same { OnErr result (AreSame self.old self.new) }
        ensures stays { OnErr result ((all : List Batch) (it : Stands F.history all self.old) → StaysAt F.history all it self.new) }
        ensures bound { Since (LeavesMost (self.old.limit + self.old.segment)) (F.history self.old.folder) (F.history self.new.folder) }
        ensures floor { (n : ℕ) → Now (HasFloor n) (F.history self.old.folder) → Since (HasFloor n) (F.history self.old.folder) (F.history self.new.folder) }
        ensures head { OnOk result (self.new.head ≡ self.old.head) }
        ensures settled { (all : List Batch) (it : Stands F.history all self.old) → IsSettled F.history it.chapter it.older (GoesHere arrived it.chapter it.older count body.now) all result self.old self.new }
        ensures unasked { OnErr result (IsUnasked (F.history self.old.folder) (F.history self.new.folder) → self.new ≡ self.old) }
        ensures why { IfErr result (λ fault. IsUnasked (F.history self.old.folder) (F.history self.new.folder) → IsRefused (HasNoRoomHere (32 + length body.now) self.old) fault) }
    {
        let len = (BATCH_HEAD + body.len()) as u64;
        if self.spent || self.segment.saturating_sub(self.place) < len {
            return Err(JournalFault::Full);
        }
        let head = BatchHead {
            size: body.len() as u32,
            count,
            first: self.next,
            arrived,
        };
        let batch = batch_of(self.alloc, &self.head.secret, &head, body)?;
        self.append(&batch)?;
        self.place += len;
        self.next += count as u64;
        Ok(())
    }

    /// Makes a batch durable in a new segment, with this secret. Returns `Full` if there is no room for one.
    fn settle_anew(
        &mut self,
        count: u32,
        arrived: u64,
        body: &[u8],
        secret: [u8; 16],
    ) -> Result<(), JournalFault>
        requires counted { IsCounted F.history self.old }
        requires alive { self.old.failed ≡ false }
        requires some { 0 < count }
        requires short { length body.now < 2 ^ 32 }
        requires small { 112 + length body.now ≤ self.old.segment }
        requires within { self.old.next + count < 2 ^ 64 }
        ensures alive { result ≢ Err JournalFault.Failed → self.new.failed ≡ false }
        ensures counted { IsCounted F.history self.new }
        ensures limits { HaveLimits self.old self.new }
        ensures bound { Since (LeavesMost (self.old.limit + self.old.segment)) (F.history self.old.folder) (F.history self.new.folder) }
        ensures floor { (n : ℕ) → Now (HasFloor n) (F.history self.old.folder) → Since (HasFloor n) (F.history self.old.folder) (F.history self.new.folder) }
        ensures head { OnOk result (self.new.head ≡ head_after self.old secret) }
        ensures failed { result ≡ Err JournalFault.Failed → self.new.failed ≡ true }
        ensures settled { (all : List Batch) (it : Stands F.history all self.old) → IsSettled F.history it.chapter it.older (GoesAnew arrived it.chapter it.older count body.now) all result self.old self.new }
        ensures why { IfErr result (λ fault. IsUnasked (F.history self.old.folder) (F.history self.new.folder) → IsRefused (HasNoRoom (112 + length body.now) self.old) fault) }
        ensures faults { IfErr result (λ fault. (fault ≡ JournalFault.NoMemory) ⊎ (fault ≡ JournalFault.Full) ⊎ (fault ≡ JournalFault.Failed)) }
    {
        let head = self.head_after(&secret);
        let batch = BatchHead {
            size: body.len() as u32,
            count,
            first: self.next,
            arrived,
        };
        let segment = segment_of(self.alloc, &head, &batch, body)?;
        self.segments.reserve()?;
        self.add(head.first, &segment)?;
        self.head = head;
        self.place = segment.len() as u64;
        self.next += count as u64;
        Ok(())
    }

    /// Makes ready for a write: sees that the room is there that is kept for a full disk.
    ///
    /// # Errors
    ///
    /// `Full` if that room can't be had. `Failed` if the folder has failed: nothing more may be asked of it then.
    pub fn prepare(&mut self) -> Result<(), JournalFault>
        ensures same { self.new ≡ record self.old { folder = self.new.folder; failed = self.new.failed } }
        ensures history { F.history self.new.folder ≡ F.history self.old.folder }
        ensures alive { result ≢ Err JournalFault.Failed → self.new.failed ≡ self.old.failed }
        ensures failed { result ≡ Err JournalFault.Failed → self.new.failed ≡ true }
        ensures faults { IfErr result (λ fault. (fault ≡ JournalFault.Full) ⊎ (fault ≡ JournalFault.Failed)) }
    {
        match self.folder.prepare() {
            Ok(()) => Ok(()),
            Err(FolderFault::Full) => Err(JournalFault::Full),
            Err(FolderFault::Failed) => {
                self.failed = true;
                Err(JournalFault::Failed)
            }
        }
    }

    /// Returns its folder.
    pub fn folder(&self) -> &F
        ensures { result.now ≡ self.now.folder }
    {
        &self.folder
    }

    /// Returns how many bytes its segments have together, at most.
    pub fn used(&self) -> u64
        ensures { result ≡ self.now.used }
    {
        self.used
    }

    /// Returns how many bytes they may have.
    pub fn limit(&self) -> u64
        ensures { result ≡ self.now.limit }
    {
        self.limit
    }

    /// Returns how many segments there are.
    pub fn len(&self) -> usize
        ensures { result ≡ vec_len self.now.segments.list }
    {
        self.segments.list.len()
    }

    /// Returns how often it was started.
    pub fn life(&self) -> u64
        ensures { result ≡ self.now.life }
    {
        self.life
    }

    /// Returns how far it may be read: to the end of what was settled.
    pub fn end(&self) -> End
        ensures { result ≡ end_of self.now }
    {
        End {
            spool: self.head.spool,
            first: self.head.first,
            mark: self.head.sum(),
            place: self.place,
            next: self.next,
        }
    }

    /// Says to readers how far it may be read. Nothing else changes, also if the folder can't say it.
    pub fn publish(&mut self) -> Result<(), FolderFault>
        ensures same { self.new ≡ record self.old { folder = self.new.folder } }
        ensures history { F.history self.new.folder ≡ F.history self.old.folder }
    {
        let end = self.end();
        self.folder.publish(&end)
    }

    /// Returns up to which number all consumers have acknowledged, and lets none be added until [`Journal::let_go`].
    /// Nothing else changes.
    pub fn passed(&mut self) -> Option<u64>
        ensures same { self.new ≡ record self.old { folder = self.new.folder } }
        ensures history { F.history self.new.folder ≡ F.history self.old.folder }
        ensures passed { IfSome result (λ n. (ps : List ℕ) → F.positions self.old.folder ≡ Some ps → HavePassed n ps) }
    {
        self.folder.passed()
    }

    /// Lets consumers be added again. Nothing else changes.
    pub fn let_go(&mut self)
        ensures same { self.new ≡ record self.old { folder = self.new.folder } }
        ensures history { F.history self.new.folder ≡ F.history self.old.folder }
    {
        self.folder.let_go();
    }

    /// Returns the head of the next segment, with this secret.
    fn head_after(&self, secret: &[u8; 16]) -> Head
        ensures long { length secret.now ≡ 16 }
        ensures head { result ≡ head_after self.now secret.now }
    {
        let mut head = self.head;
        head.secret.copy_from_slice(secret.as_slice());
        head.life = self.life;
        if self.next != self.head.first {
            head.first = self.next;
            head.before = self.head.first;
            head.counted = self.place;
        }
        head
    }

    /// Makes a batch durable: at the end of the newest segment, or, if it can't be there, in a new one, with this
    /// secret and with the body that reads alone. Returns `Full` if there is no room for one.
    pub fn settle(
        &mut self,
        count: u32,
        arrived: u64,
        here: &[u8],
        anew: &[u8],
        secret: [u8; 16],
    ) -> Result<(), JournalFault>
        requires counted { IsCounted F.history self.old }
        requires alive { self.old.failed ≡ false }
        requires some { 0 < count }
        requires short { (length here.now < 2 ^ 32) × (length anew.now < 2 ^ 32) }
        requires small { 112 + length anew.now ≤ self.old.segment }
        requires within { self.old.next + count < 2 ^ 64 }
        ensures alive { result ≢ Err JournalFault.Failed → self.new.failed ≡ false }
        ensures counted { IsCounted F.history self.new }
        ensures limits { HaveLimits self.old self.new }
        ensures bound { Since (LeavesMost (self.old.limit + self.old.segment)) (F.history self.old.folder) (F.history self.new.folder) }
        ensures floor { (n : ℕ) → Now (HasFloor n) (F.history self.old.folder) → Since (HasFloor n) (F.history self.old.folder) (F.history self.new.folder) }
        ensures head { OnOk result ((self.new.head ≡ self.old.head) ⊎ (self.new.head ≡ head_after self.old secret)) }
        ensures failed { result ≡ Err JournalFault.Failed → self.new.failed ≡ true }
        ensures settled { (all : List Batch) (it : Stands F.history all self.old) → IsSettled F.history it.chapter it.older (GoesEither arrived it.chapter it.older count here.now anew.now) all result self.old self.new }
        ensures why { IfErr result (λ fault. IsUnasked (F.history self.old.folder) (F.history self.new.folder) → IsRefused (HasNoRoom (112 + length anew.now) self.old) fault) }
        ensures faults { IfErr result (λ fault. (fault ≡ JournalFault.NoMemory) ⊎ (fault ≡ JournalFault.Full) ⊎ (fault ≡ JournalFault.Failed)) }
    {
        match self.settle_here(count, arrived, here) {
            Ok(()) => Ok(()),
            Err(_) => self.settle_anew(count, arrived, anew, secret),
        }
    }

    /// Removes segments that every consumer has passed: `passed` is the least of their positions. The newest stays.
    /// Returns `Full` if there is no room to say so on the disk, and nothing is removed then.
    pub fn tend(&mut self, passed: u64) -> Result<(), JournalFault>
        requires counted { IsCounted F.history self.old }
        ensures counted { IsCounted F.history self.new }
        ensures limits { HaveLimits self.old self.new }
        ensures alive { result ≢ Err JournalFault.Failed → self.new.failed ≡ false }
        ensures bound { Since (LeavesMost (self.old.limit + self.old.segment)) (F.history self.old.folder) (F.history self.new.folder) }
        ensures failed { self.old.failed ≡ true → (result ≡ Err JournalFault.Failed) × (self.new ≡ self.old) }
        ensures fails { result ≡ Err JournalFault.Failed → self.new.failed ≡ true }
        ensures tended { (all : List Batch) (it : Stands F.history all self.old) → IsTended F.history all result self.old self.new it }
        ensures floor { (n : ℕ) → passed ≤ n → Now (HasFloor n) (F.history self.old.folder) → Since (HasFloor n) (F.history self.old.folder) (F.history self.new.folder) }
        ensures faults { IfErr result (λ fault. (fault ≡ JournalFault.Full) ⊎ (fault ≡ JournalFault.Failed)) }
        ensures why { OnErr result (IsUnasked (F.history self.old.folder) (F.history self.new.folder) → self.old.failed ≡ true) }
        ensures freed { OnOk result (OldestIsNeeded passed self.new.segments.list.items) }
        ensures left { OnOk result (AreFrontOf self.new.segments.list.items self.old.segments.list.items) }
        ensures all { OnOk result (AreInOrder self.old.segments.list.items → AllAreNeeded passed self.new.segments.list.items) }
        ensures goes_on { OnOk result (AreAllPassed passed self.old.segments.list.items → OneIsLeft self.new.used self.new.segments.list.items) }
    {
        if self.failed {
            return Err(JournalFault::Failed);
        }
        match self.raise(passed) {
            Ok(()) => self.remove_passed(),
            Err(fault) => Err(fault),
        }
    }

    /// Says on the disk that records up to `passed` may be missing, as far as that lets segments go.
    fn raise(&mut self, passed: u64) -> Result<(), JournalFault>
        requires counted { IsCounted F.history self.old }
        requires alive { self.old.failed ≡ false }
        ensures counted { IsCounted F.history self.new }
        ensures limits { HaveLimits self.old self.new }
        ensures alive { result ≢ Err JournalFault.Failed → self.new.failed ≡ false }
        ensures bound { Since (LeavesMost (self.old.limit + self.old.segment)) (F.history self.old.folder) (F.history self.new.folder) }
        ensures failed { result ≡ Err JournalFault.Failed → self.new.failed ≡ true }
        ensures tended { (all : List Batch) (it : Stands F.history all self.old) → IsTended F.history all result self.old self.new it }
        ensures floor { (n : ℕ) → passed ≤ n → Now (HasFloor n) (F.history self.old.folder) → Since (HasFloor n) (F.history self.old.folder) (F.history self.new.folder) }
        ensures faults { IfErr result (λ fault. (fault ≡ JournalFault.Full) ⊎ (fault ≡ JournalFault.Failed)) }
        ensures why { OnErr result (IsUnasked (F.history self.old.folder) (F.history self.new.folder) → ⊥) }
        ensures segments { self.new.segments ≡ self.old.segments }
        ensures raised { OnOk result (HasRaised passed self.new.floor self.new.segments.list.items) }
    {
        let Some(first) = self.segments.newest_at(passed) else {
            return Ok(());
        };
        let floor = first.saturating_sub(1);
        if floor <= self.floor {
            return Ok(());
        }
        match self.folder.raise_floor(floor) {
            Ok(()) => {
                self.floor = floor;
                Ok(())
            }
            Err(FolderFault::Full) => Err(JournalFault::Full),
            Err(FolderFault::Failed) => {
                self.failed = true;
                Err(JournalFault::Failed)
            }
        }
    }

    /// Removes the segments that the floor has passed.
    fn remove_passed(&mut self) -> Result<(), JournalFault>
        requires counted { IsCounted F.history self.old }
        requires alive { self.old.failed ≡ false }
        ensures counted { IsCounted F.history self.new }
        ensures limits { HaveLimits self.old self.new }
        ensures alive { result ≢ Err JournalFault.Failed → self.new.failed ≡ false }
        ensures bound { Since (LeavesMost (self.old.limit + self.old.segment)) (F.history self.old.folder) (F.history self.new.folder) }
        ensures failed { result ≡ Err JournalFault.Failed → self.new.failed ≡ true }
        ensures tended { (all : List Batch) (it : Stands F.history all self.old) → IsTended F.history all result self.old self.new it }
        ensures floor { (n : ℕ) → Now (HasFloor n) (F.history self.old.folder) → Since (HasFloor n) (F.history self.old.folder) (F.history self.new.folder) }
        ensures fault { IfErr result (λ fault. fault ≡ JournalFault.Failed) }
        ensures why { OnErr result (IsUnasked (F.history self.old.folder) (F.history self.new.folder) → ⊥) }
        ensures same { OnOk result (self.new.floor ≡ self.old.floor) }
        ensures left { OnOk result (AreFrontOf self.new.segments.list.items self.old.segments.list.items) }
        ensures freed { OnOk result (OldestIsNeeded self.new.floor self.new.segments.list.items) }
    {
        let mut left = self.segments.list.len();
        'segments: while left > 0 {
            match self.remove_oldest() {
                Ok(true) => left -= 1,
                Ok(false) => break 'segments,
                Err(fault) => return Err(fault),
            }
        }
        Ok(())
    }

    /// Removes the oldest segment if the next one begins at most where the floor says, and returns whether it did.
    fn remove_oldest(&mut self) -> Result<bool, JournalFault>
        requires counted { IsCounted F.history self.old }
        requires alive { self.old.failed ≡ false }
        ensures counted { IsCounted F.history self.new }
        ensures limits { HaveLimits self.old self.new }
        ensures alive { OnOk result (self.new.failed ≡ false) }
        ensures fault { IfErr result (λ fault. fault ≡ JournalFault.Failed) }
        ensures bound { Since (LeavesMost (self.old.limit + self.old.segment)) (F.history self.old.folder) (F.history self.new.folder) }
        ensures failed { result ≡ Err JournalFault.Failed → self.new.failed ≡ true }
        ensures tended { (all : List Batch) (it : Stands F.history all self.old) → IsTended F.history all result self.old self.new it }
        ensures floor { (n : ℕ) → Now (HasFloor n) (F.history self.old.folder) → Since (HasFloor n) (F.history self.old.folder) (F.history self.new.folder) }
        ensures why { OnErr result (IsUnasked (F.history self.old.folder) (F.history self.new.folder) → ⊥) }
        ensures same { self.new.floor ≡ self.old.floor }
        ensures removed { result ≡ Ok true → IsFreed self.old.floor self.old.segments.list.items self.new.segments.list.items }
        ensures needed { result ≡ Ok false → (self.new ≡ self.old) × OldestIsNeeded self.old.floor self.old.segments.list.items }
    {
        let Some(first) = self.segments.after_oldest() else {
            return Ok(false);
        };
        if first.saturating_sub(1) > self.floor {
            return Ok(false);
        }
        let freed = self.segments.pop();
        match self.folder.remove_oldest() {
            Ok(()) => {
                self.used -= freed;
                Ok(true)
            }
            Err(_) => {
                self.failed = true;
                Err(JournalFault::Failed)
            }
        }
    }
}

/// Returns the bytes of a batch, in a segment with this secret.
fn batch_of(
    alloc: Global,
    secret: &[u8; 16],
    head: &BatchHead,
    body: &[u8],
) -> Result<Vec<u8>, AllocError>
    requires small { length body.now < 2 ^ 32 }
    ensures { IfOk result (λ batch. batch.items ≡ batch_text secret.now head.now body.now) }
{
    let mut batch = Vec::with_capacity(alloc, BATCH_HEAD + body.len())?;
    batch.extend_from_slice(&head.to_bytes(secret, body))?;
    batch.extend_from_slice(body)?;
    Ok(batch)
}

/// Returns the bytes of a segment of one batch.
fn segment_of(
    alloc: Global,
    head: &Head,
    batch: &BatchHead,
    body: &[u8],
) -> Result<Vec<u8>, AllocError>
    requires small { length body.now < 2 ^ 32 }
    ensures long { IfOk result (λ segment. length segment.items ≡ 112 + length body.now) }
    ensures text { IfOk result (λ segment. segment.items ≡ head_text head.now ++ batch_text head.now.secret batch.now body.now) }
{
    let mut segment = Vec::with_capacity(alloc, HEAD + BATCH_HEAD + body.len())?;
    segment.extend_from_slice(&head.to_bytes())?;
    segment.extend_from_slice(&batch.to_bytes(&head.secret, body))?;
    segment.extend_from_slice(body)?;
    Ok(segment)
}
