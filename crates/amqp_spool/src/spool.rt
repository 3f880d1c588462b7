//! A spool: records that wait for the disk, and those that are on it.
ghost use Rattle.std.specs.Prelude.{◌≡◌, ◌≢◌, ◌++◌, ◌≤◌, ◌<◌, ◌+◌, ◌^◌, ◌⊎◌, ℕ, true, false, List, ◌∷◌, [], ◌↔◌, length, Some, Err, OnOk, OnErr, IfOk, IfErr, IfSome, IsTrue};
ghost use Rattle.amqp_spool.specs.Batches.{Batch};
ghost use Rattle.amqp_spool.specs.Chapters.{IsReadable};
ghost use Rattle.amqp_spool.specs.Entries.{Introduced, Recorded};
ghost use Rattle.amqp_spool.specs.EntryReading.{introduced_in};
ghost use Rattle.amqp_spool.specs.Consumers.{HavePassed, PassAtMost};
ghost use Rattle.amqp_spool.specs.Counting.{OldestIsNeeded, AllAreNeeded, AreAllPassed, OneIsLeft, AreInOrder, AreFrontOf};
ghost use Rattle.amqp_spool.specs.Folders.{Segment, State, Now, Since, IsUnasked};
ghost use Rattle.amqp_spool.specs.Journals.{head_after, GoesEither, IsSettled, IsTended, HaveBounds, LeavesMost, HasFloor, HaveLimits, Stands, IsEmpty};
ghost use Rattle.amqp_spool.specs.PutFaults.{IsPut, Refuses, RefusesToOpen};
ghost use Rattle.amqp_spool.specs.Sayings.{Puts};
ghost use Rattle.amqp_spool.specs.Reads.{AreBack, IsFound, IsShownIn};
ghost use Rattle.amqp_spool.specs.Spools.{IsNew, IsSound, Has, IsDone, KeepsTold, IsStartedWith};
ghost use Rattle.amqp_spool.specs.Waitings.{batch_len, IsFrom, IsOpened, IsClosed};

use crate::entry::Introduction;
use crate::folder::{Folder, FolderFault};
use crate::journal::{Journal, JournalFault};
use crate::links::{Links, OpenFault};
use crate::waiting::{PutFault, Waiting};
use std::alloc::Global;

/// How many bytes the heads of a segment and of a batch have.
const SEGMENT_FRONT: u64 = 112;

/// How many segments are removed at once, at most.
const MOST_FREED: usize = 8;

/// A spool.
#[derive(Drop)]
pub struct Spool<F: Folder + Drop> {
    pub(crate) alloc: Global,
    /// What is on the disk.
    pub(crate) journal: Journal<F>,
    /// Who sends.
    pub(crate) links: Links,
    /// What waits.
    pub(crate) waiting: Waiting,
}

impl<F: Folder + Drop> Spool<F> {
    /// Returns a spool in this folder, which is not started: of this id, if it is a new one, with segments of at most
    /// `segment` bytes, which have together at most `limit`, and a batch of at most `batch`.
    ///
    /// # Errors
    ///
    /// `Bound` if a batch doesn't fit into a segment: it needs 112 bytes more.
    pub fn new(
        folder: F,
        alloc: Global,
        id: [u8; 16],
        segment: u64,
        limit: u64,
        batch: u32,
    ) -> Result<Spool<F>, JournalFault>
        ensures folder { IfOk result (λ spool. spool.journal.folder ≡ folder) }
        ensures limits { IfOk result (λ spool. (spool.journal.segment ≡ segment) × (spool.journal.limit ≡ limit) × (spool.waiting.most ≡ batch)) }
        ensures is { IfOk result IsNew }
        ensures bound { IfErr result (λ fault. segment < batch + 112) }
    {
        if segment < batch as u64 + 112 {
            return Err(JournalFault::Bound);
        }
        Ok(Spool {
            alloc,
            journal: Journal::new(folder, alloc, id, segment, limit),
            links: Links::new(alloc),
            waiting: Waiting::new(alloc, batch),
        })
    }

    /// Starts: goes on where an earlier life left the folder, or begins in one that has nothing. All that was told is
    /// kept, and it goes on after that and maybe after records that were not told.
    ///
    /// # Errors
    ///
    /// As [`Journal::start`]. It is not started then.
    pub fn start(&mut self, secret: [u8; 16]) -> Result<(), JournalFault>
        requires found { Now IsFound (F.history self.old.journal.folder) }
        requires is { IsNew self.old }
        ensures sound { OnOk result ((self.new.journal.failed ≡ false) × IsSound F.history self.new) }
        ensures is { OnErr result (IsNew self.new) }
        ensures limits { HaveBounds self.old.journal self.new.journal }
        ensures links { self.new.links ≡ self.old.links }
        ensures waiting { self.new.waiting ≡ self.old.waiting }
        ensures bound { Since (LeavesMost (self.old.journal.limit + self.old.journal.segment)) (F.history self.old.journal.folder) (F.history self.new.journal.folder) }
        ensures floor { (n : ℕ) → Now (HasFloor n) (F.history self.old.journal.folder) → Since (HasFloor n) (F.history self.old.journal.folder) (F.history self.new.journal.folder) }
        ensures whole { (t : State) (past : List State) (n : ℕ) → F.history self.old.journal.folder ≡ Some (t ∷ past) → F.shown self.old.journal.folder ≡ Some n → IsReadable t → IsShownIn n t → result ≢ Err JournalFault.Damaged }
        ensures there { (told : Puts) (t : State) (past : List State) (n : ℕ) → F.history self.old.journal.folder ≡ Some (t ∷ past) → F.shown self.old.journal.folder ≡ Some n → KeepsTold told t → n ≤ length told → result ≢ Err JournalFault.Damaged }
        ensures shown { OnOk result ((n : ℕ) → F.shown self.old.journal.folder ≡ Some n → n < self.new.journal.next) }
        ensures back { OnOk result ((t : State) (past : List State) (s : Segment) (ss : List Segment) → F.history self.old.journal.folder ≡ Some (t ∷ past) → t.segments ≡ s ∷ ss → AreBack t.floor self.new.journal.head ss) }
        ensures started { (told : Puts) (t : State) (past : List State) → F.history self.old.journal.folder ≡ Some (t ∷ past) → KeepsTold told t → IsStartedWith F.history told result self.old self.new }
        ensures begun { (t : State) (past : List State) → F.history self.old.journal.folder ≡ Some (t ∷ past) → IsEmpty t → OnOk result (Has F.history [] [] self.new) }
    {
        self.journal.start(secret)
    }

    /// Opens a link, and returns its number. Its records are those of who this says, whatever number it has.
    ///
    /// # Errors
    ///
    /// As [`Links::open`]. Nothing has changed then.
    pub fn open_link(&mut self, from: &Introduction) -> Result<u32, OpenFault>
        requires { IsSound F.history self.old }
        ensures sound { IsSound F.history self.new }
        ensures opened { IfOk result (λ number. IsOpened self.old.links self.new.links number (introduced_in from.now)) }
        ensures reason { IfErr result (λ fault. RefusesToOpen (introduced_in from.now) fault) }
        ensures same { OnErr result (self.new ≡ self.old) }
        ensures journal { self.new.journal ≡ self.old.journal }
        ensures waiting { self.new.waiting ≡ self.old.waiting }
        ensures has { (told waiting : Puts) → Has F.history told waiting self.old → Has F.history told waiting self.new }
    {
        self.links.open(from)
    }

    /// Forgets a link, and frees its number. If no link has the number, nothing happens.
    pub fn close_link(&mut self, link: u32)
        requires { IsSound F.history self.old }
        ensures sound { IsSound F.history self.new }
        ensures closed { IsClosed self.old.links self.new.links link }
        ensures journal { self.new.journal ≡ self.old.journal }
        ensures waiting { self.new.waiting ≡ self.old.waiting }
        ensures has { (told waiting : Puts) → Has F.history told waiting self.old → Has F.history told waiting self.new }
    {
        self.links.close(link)
    }

    /// Returns the links that are open.
    pub fn links(&self) -> &Links
        ensures { result.now ≡ self.now.links }
    {
        &self.links
    }

    /// Returns whether its folder has failed, or it was not started: nothing is asked of the folder then.
    pub fn has_failed(&self) -> bool
        ensures { result ≡ self.now.journal.failed }
    {
        self.journal.failed
    }

    /// Returns what is on the disk.
    pub fn journal(&self) -> &Journal<F>
        ensures { result.now ≡ self.now.journal }
    {
        &self.journal
    }

    /// Returns how many bytes wait.
    pub fn held(&self) -> u64
        ensures { result ≡ batch_len self.now.waiting }
    {
        self.waiting.len() as u64
    }

    /// Puts a record of a link: it waits.
    ///
    /// # Errors
    ///
    /// As [`Waiting::put`]. Nothing has changed then.
    pub fn put(&mut self, link: u32, tag: &[u8], bytes: &[u8]) -> Result<(), PutFault>
        requires { IsSound F.history self.old }
        ensures sound { IsSound F.history self.new }
        ensures reason { let r : Recorded = record { link = link; tag = tag.now; «record» = bytes.now } in IfErr result (λ fault. Refuses self.old.journal.head.first self.old.journal.next self.old.links self.old.waiting r fault) }
        ensures same { OnErr result (self.new ≡ self.old) }
        ensures journal { self.new.journal ≡ self.old.journal }
        ensures put { let r : Recorded = record { link = link; tag = tag.now; «record» = bytes.now } in OnOk result (IsPut self.old.journal.head.first self.old.journal.next self.old.links self.old.waiting self.new.waiting r) }
        ensures has { (told waiting : Puts) (i : Introduced) → IsFrom self.old.links link i → Has F.history told waiting self.old
            → let r : Recorded = record { link = link; tag = tag.now; «record» = bytes.now } in OnOk result (Has F.history told (waiting ++ (Some i, r) ∷ []) self.new) }
    {
        let first = self.journal.head.first;
        let next = self.journal.next;
        self.waiting
            .put(&mut self.links, first, next, link, tag, bytes)
    }

    /// Returns whether nothing waits.
    pub fn is_settled(&self) -> bool
        ensures { IsTrue result ↔ (self.now.waiting.count ≡ 0) }
    {
        self.waiting.is_empty()
    }

    /// Makes durable what waits, which arrived at this time, in milliseconds since 1970. If a segment has to be begun
    /// for it, this is its secret.
    ///
    /// # Errors
    ///
    /// `Full` if there is no room, or none for the reserve, and `NoMemory` if memory is refused: it waits then as
    /// before. `Failed` if the folder has failed: nothing more is asked of it then, and each later call says so.
    pub fn settle(&mut self, arrived: u64, secret: [u8; 16]) -> Result<(), JournalFault>
        requires { IsSound F.history self.old }
        ensures sound { IsSound F.history self.new }
        ensures limits { HaveLimits self.old.journal self.new.journal }
        ensures bound { Since (LeavesMost (self.old.journal.limit + self.old.journal.segment)) (F.history self.old.journal.folder) (F.history self.new.journal.folder) }
        ensures floor { (n : ℕ) → Now (HasFloor n) (F.history self.old.journal.folder) → Since (HasFloor n) (F.history self.old.journal.folder) (F.history self.new.journal.folder) }
        ensures kept { (told waiting : Puts) → Has F.history told waiting self.old → Since (KeepsTold told) (F.history self.old.journal.folder) (F.history self.new.journal.folder) }
        ensures failed { self.old.journal.failed ≡ true → (result ≡ Err JournalFault.Failed) × (self.new ≡ self.old) }
        ensures links { self.new.links ≡ self.old.links }
        ensures most { self.new.waiting.most ≡ self.old.waiting.most }
        ensures head { OnOk result ((self.new.journal.head ≡ self.old.journal.head) ⊎ (self.new.journal.head ≡ head_after self.old.journal secret)) }
        ensures fails { result ≡ Err JournalFault.Failed → self.new.journal.failed ≡ true }
        ensures alive { result ≢ Err JournalFault.Failed → self.new.journal.failed ≡ false }
        ensures empty { OnOk result (self.new.waiting.count ≡ 0) }
        ensures batch { (all : List Batch) (it : Stands F.history all self.old.journal) → 0 < self.old.waiting.count → IsSettled F.history it.chapter it.older (GoesEither arrived it.chapter it.older self.old.waiting.count self.old.waiting.here (self.old.waiting.again ++ self.old.waiting.here)) all result self.old.journal self.new.journal }
        ensures settled { (told waiting : Puts) → Has F.history told waiting self.old → IsDone F.history told waiting result self.new }
        ensures faults { IfErr result (λ fault. (fault ≡ JournalFault.NoMemory) ⊎ (fault ≡ JournalFault.Full) ⊎ (fault ≡ JournalFault.Failed) ⊎ ((fault ≡ JournalFault.Bound) × (2 ^ 64 ≤ self.old.journal.next + self.old.waiting.count))) }
    {
        if self.journal.failed {
            return Err(JournalFault::Failed);
        }
        if self.waiting.is_empty() {
            return Ok(());
        }
        self.journal.prepare()?;
        let count = self.waiting.count();
        if self.journal.next.checked_add(count as u64).is_none() {
            return Err(JournalFault::Bound);
        }
        let anew = self.waiting.anew(self.alloc)?;
        self.journal
            .settle(count, arrived, self.waiting.here(), &anew, secret)?;
        self.waiting.clear();
        Ok(())
    }

    /// Says to readers how far the spool may be read: to the end of what was settled. Returns what stood in the way of
    /// that; nothing else changes.
    pub fn publish(&mut self) -> Result<(), FolderFault>
        requires { IsSound F.history self.old }
        ensures sound { IsSound F.history self.new }
        ensures history { F.history self.new.journal.folder ≡ F.history self.old.journal.folder }
        ensures same { self.new ≡ record self.old { journal = record self.old.journal { folder = self.new.journal.folder } } }
        ensures has { (told waiting : Puts) → Has F.history told waiting self.old → Has F.history told waiting self.new }
    {
        if self.journal.failed {
            return Ok(());
        }
        self.journal.publish()
    }

    /// Removes segments that every consumer has passed: `passed` is the least of their positions. The newest stays.
    ///
    /// # Errors
    ///
    /// `Full` if there is no room to say so on the disk: nothing is removed then. `Failed` if the folder has failed:
    /// nothing more is asked of it then, and each later call says so.
    pub fn tend(&mut self, passed: u64) -> Result<(), JournalFault>
        requires { IsSound F.history self.old }
        ensures sound { IsSound F.history self.new }
        ensures limits { HaveLimits self.old.journal self.new.journal }
        ensures bound { Since (LeavesMost (self.old.journal.limit + self.old.journal.segment)) (F.history self.old.journal.folder) (F.history self.new.journal.folder) }
        ensures kept { (told waiting : Puts) → Has F.history told waiting self.old → Since (KeepsTold told) (F.history self.old.journal.folder) (F.history self.new.journal.folder) }
        ensures floor { (n : ℕ) → passed ≤ n → Now (HasFloor n) (F.history self.old.journal.folder) → Since (HasFloor n) (F.history self.old.journal.folder) (F.history self.new.journal.folder) }
        ensures failed { self.old.journal.failed ≡ true → (result ≡ Err JournalFault.Failed) × (self.new ≡ self.old) }
        ensures links { self.new.links ≡ self.old.links }
        ensures waiting { self.new.waiting ≡ self.old.waiting }
        ensures fails { result ≡ Err JournalFault.Failed → self.new.journal.failed ≡ true }
        ensures tended { (all : List Batch) (it : Stands F.history all self.old.journal) → IsTended F.history all result self.old.journal self.new.journal it }
        ensures has { (told waiting : Puts) → Has F.history told waiting self.old → result ≢ Err JournalFault.Failed → Has F.history told waiting self.new }
        ensures faults { IfErr result (λ fault. (fault ≡ JournalFault.Full) ⊎ (fault ≡ JournalFault.Failed)) }
        ensures why { OnErr result (IsUnasked (F.history self.old.journal.folder) (F.history self.new.journal.folder) → self.old.journal.failed ≡ true) }
        ensures freed { OnOk result (OldestIsNeeded passed self.new.journal.segments.list.items) }
        ensures left { OnOk result (AreFrontOf self.new.journal.segments.list.items self.old.journal.segments.list.items) }
        ensures all { OnOk result (AreInOrder self.old.journal.segments.list.items → AllAreNeeded passed self.new.journal.segments.list.items) }
        ensures goes_on { OnOk result (AreAllPassed passed self.old.journal.segments.list.items → OneIsLeft self.new.journal.used self.new.journal.segments.list.items) }
    {
        self.journal.tend(passed)
    }

    /// Removes segments that every consumer has passed, as [`Spool::tend`] does, at most eight of them; no consumer is added
    /// meanwhile. Returns up to which number it removed. Returns `None` if there are no consumers, or if it can't be known
    /// now what they have passed, and nothing is removed then.
    ///
    /// # Errors
    ///
    /// As [`Spool::tend`].
    pub fn free(&mut self) -> Result<Option<u64>, JournalFault>
        requires { IsSound F.history self.old }
        ensures sound { IsSound F.history self.new }
        ensures limits { HaveLimits self.old.journal self.new.journal }
        ensures bound { Since (LeavesMost (self.old.journal.limit + self.old.journal.segment)) (F.history self.old.journal.folder) (F.history self.new.journal.folder) }
        ensures kept { (told waiting : Puts) → Has F.history told waiting self.old → Since (KeepsTold told) (F.history self.old.journal.folder) (F.history self.new.journal.folder) }
        ensures floor { (n : ℕ) (ps : List ℕ) → F.positions self.old.journal.folder ≡ Some ps → PassAtMost n ps → Now (HasFloor n) (F.history self.old.journal.folder) → Since (HasFloor n) (F.history self.old.journal.folder) (F.history self.new.journal.folder) }
        ensures passed { IfOk result (λ o. IfSome o (λ n. (ps : List ℕ) → F.positions self.old.journal.folder ≡ Some ps → HavePassed n ps)) }
        ensures freed { IfOk result (λ o. IfSome o (λ n. OldestIsNeeded n self.new.journal.segments.list.items)) }
        ensures failed { self.old.journal.failed ≡ true → (result ≡ Err JournalFault.Failed) × (self.new ≡ self.old) }
        ensures links { self.new.links ≡ self.old.links }
        ensures waiting { self.new.waiting ≡ self.old.waiting }
        ensures fails { result ≡ Err JournalFault.Failed → self.new.journal.failed ≡ true }
        ensures has { (told waiting : Puts) → Has F.history told waiting self.old → result ≢ Err JournalFault.Failed → Has F.history told waiting self.new }
        ensures faults { IfErr result (λ fault. (fault ≡ JournalFault.Full) ⊎ (fault ≡ JournalFault.Failed)) }
    {
        if self.journal.failed {
            return Err(JournalFault::Failed);
        }
        let Some(passed) = self.passed() else {
            return Ok(None);
        };
        let passed = self.journal.segments.few(passed, MOST_FREED);
        let tended = self.tend(passed);
        self.let_go();
        match tended {
            Ok(()) => Ok(Some(passed)),
            Err(fault) => Err(fault),
        }
    }

    /// Returns up to which number all consumers have acknowledged, and lets none be added until [`Spool::let_go`].
    fn passed(&mut self) -> Option<u64>
        requires sound { IsSound F.history self.old }
        requires alive { self.old.journal.failed ≡ false }
        ensures sound { IsSound F.history self.new }
        ensures history { F.history self.new.journal.folder ≡ F.history self.old.journal.folder }
        ensures same { self.new ≡ record self.old { journal = record self.old.journal { folder = self.new.journal.folder } } }
        ensures has { (told waiting : Puts) → Has F.history told waiting self.old → Has F.history told waiting self.new }
        ensures passed { IfSome result (λ n. (ps : List ℕ) → F.positions self.old.journal.folder ≡ Some ps → HavePassed n ps) }
    {
        self.journal.passed()
    }

    /// Lets consumers be added again.
    fn let_go(&mut self)
        requires { IsSound F.history self.old }
        ensures sound { IsSound F.history self.new }
        ensures history { F.history self.new.journal.folder ≡ F.history self.old.journal.folder }
        ensures same { self.new ≡ record self.old { journal = record self.old.journal { folder = self.new.journal.folder } } }
        ensures has { (told waiting : Puts) → Has F.history told waiting self.old → Has F.history told waiting self.new }
    {
        self.journal.let_go();
    }

    /// Returns whether there is room for so many bytes more: in the batch that waits, and then for the batch on the
    /// disk, in a segment of its own.
    pub fn has_room(&self, len: u32) -> bool
        requires { IsSound F.history self.now }
        ensures { IsTrue result ↔ ((batch_len self.now.waiting + len ≤ self.now.waiting.most) × (self.now.journal.used + (batch_len self.now.waiting + len + 112) ≤ self.now.journal.limit)) }
    {
        let batch = self.waiting.len() as u64 + len as u64;
        batch <= self.waiting.most() as u64
            && batch + SEGMENT_FRONT <= self.journal.limit - self.journal.used
    }

    /// Returns whether there is room on the disk for what waits and so many bytes more.
    pub fn may_grant(&self, len: u64) -> bool
        requires { IsSound F.history self.now }
        ensures { IsTrue result ↔ (self.now.journal.used + (batch_len self.now.waiting + len) ≤ self.now.journal.limit) }
    {
        let room = self.journal.limit - self.journal.used;
        let waiting = self.waiting.len() as u64;
        waiting <= room && len <= room - waiting
    }
}
