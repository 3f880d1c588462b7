//! How a spool begins: in a folder that has nothing, or where an earlier life has left it.
ghost use Rattle.std.specs.Prelude.{◌≡◌, ◌≢◌, ◌++◌, ◌≤◌, ◌<◌, ◌+◌, ◌-◌, ◌^◌, ℕ, false, true, min, List, ◌∷◌, [], length, Some, Err, OnOk, OnErr, IfOk};
ghost use Rattle.amqp_spool.specs.Chapters.{Chapter, IsReadable, KeepsOn};
ghost use Rattle.amqp_spool.specs.Sayings.{Puts, Says};
ghost use Rattle.std.specs.Vec.{vec_len, vec_capacity};
ghost use Rattle.amqp_spool.specs.Counting.{total, freed};
ghost use Rattle.amqp_spool.specs.Folders.{Segment, State, Now, Since, GoesBy, making};
ghost use Rattle.amqp_spool.specs.Heads.{IsHead};
ghost use Rattle.amqp_spool.specs.declared.segments.Named.{Named};
ghost use Rattle.amqp_spool.specs.Reads.{AreBack, IsThere, IsSeen, HasHead, HasNames, BeginsWith, NewestHas, IsNewest, IsFound, IsShownIn};
ghost use Rattle.amqp_spool.specs.Journals.{IsCounted, LeavesMost, HasFloor, HaveBounds, IsStarted, IsEmpty, IsRenewed, Stands};

use crate::alone::scan_alone;
use crate::folder::{Folder, FolderFault};
use crate::head::{HEAD, Head};
use crate::journal::{Journal, JournalFault};
use crate::scanning::scan;
use crate::segments::{Named, Segments};
use std::alloc::Global;

/// What a start reads of the newest segment: its head and the batches that count, and the number of the next record.
#[derive(Drop)]
pub(crate) struct Newest {
    pub(crate) head: Head,
    pub(crate) bytes: Vec<u8>,
    pub(crate) next: u64,
}

impl<F: Folder + Drop> Journal<F> {
    /// Returns a journal in this folder, which is not started: of the spool of this id, if it is a new one, with
    /// segments of so many bytes, which have together at most `limit`.
    pub fn new(folder: F, alloc: Global, id: [u8; 16], segment: u64, limit: u64) -> Journal<F>
        ensures folder { result.folder ≡ folder }
        ensures limits { (result.segment ≡ segment) × (result.limit ≡ limit) }
        ensures fits { (result.limit < 2 ^ 64) × (result.segment < 2 ^ 64) }
        ensures failed { result.failed ≡ true }
    {
        Journal {
            folder,
            alloc,
            head: Head {
                spool: id,
                secret: [0; 16],
                first: 1,
                before: 0,
                counted: 0,
                life: 0,
            },
            place: 0,
            next: 1,
            life: 0,
            segment,
            limit,
            segments: Segments {
                list: Vec::new(alloc),
            },
            used: 0,
            floor: 0,
            spent: true,
            failed: true,
        }
    }

    /// Starts: goes on where an earlier life left the folder, or begins in one that has nothing. The newest segment is
    /// written once more, whole, since its last batch may not be on the disk.
    /// Returns `Bound` if there is more than the limits allow, `Damaged` if a segment that counts is not there, or a
    /// record that was shown to readers, and `Full` if there is no room on the disk. After an error it is not started.
    pub fn start(&mut self, secret: [u8; 16]) -> Result<(), JournalFault>
        requires found { Now IsFound (F.history self.old.folder) }
        requires fits { (self.old.limit < 2 ^ 64) × (self.old.segment < 2 ^ 64) }
        requires small { 80 ≤ self.old.segment }
        ensures counted { OnOk result ((self.new.failed ≡ false) × IsCounted F.history self.new) }
        ensures failed { OnErr result (self.new.failed ≡ self.old.failed) }
        ensures limits { HaveBounds self.old self.new }
        ensures bound { Since (LeavesMost (self.old.limit + self.old.segment)) (F.history self.old.folder) (F.history self.new.folder) }
        ensures floor { (n : ℕ) → Now (HasFloor n) (F.history self.old.folder) → Since (HasFloor n) (F.history self.old.folder) (F.history self.new.folder) }
        ensures whole { (t : State) (past : List State) (n : ℕ) → F.history self.old.folder ≡ Some (t ∷ past) → F.shown self.old.folder ≡ Some n → IsReadable t → IsShownIn n t → result ≢ Err JournalFault.Damaged }
        ensures shown { OnOk result ((n : ℕ) → F.shown self.old.folder ≡ Some n → n < self.new.next) }
        ensures started { (ch : Chapter) (chs : List Chapter) (puts : Puts) (t : State) (past : List State) → F.history self.old.folder ≡ Some (t ∷ past) → Says ch puts → KeepsOn ch chs t → IsStarted F.history ch chs result self.old self.new }
        ensures begun { (t : State) (past : List State) → F.history self.old.folder ≡ Some (t ∷ past) → IsEmpty t → OnOk result (Stands F.history [] self.new) }
        ensures back { OnOk result ((t : State) (past : List State) (s : Segment) (ss : List Segment) → F.history self.old.folder ≡ Some (t ∷ past) → t.segments ≡ s ∷ ss → AreBack t.floor self.new.head ss) }
    {
        let names = self.folder.names(self.alloc)?;
        if names.as_slice().is_empty() {
            self.begin(secret, names)
        } else {
            self.go_on(names)
        }
    }

    /// Begins in a folder that has no segments.
    fn begin(&mut self, secret: [u8; 16], names: Vec<Named>) -> Result<(), JournalFault>
        requires found { Now IsFound (F.history self.old.folder) }
        requires names { Now (HasNames names.items) (F.history self.old.folder) }
        requires none { names.items ≡ [] }
        requires fits { (self.old.limit < 2 ^ 64) × (self.old.segment < 2 ^ 64) }
        requires small { 80 ≤ self.old.segment }
        ensures counted { OnOk result ((self.new.failed ≡ false) × IsCounted F.history self.new) }
        ensures failed { OnErr result (self.new.failed ≡ self.old.failed) }
        ensures limits { HaveBounds self.old self.new }
        ensures bound { Since (LeavesMost (self.old.limit + self.old.segment)) (F.history self.old.folder) (F.history self.new.folder) }
        ensures floor { (n : ℕ) → Now (HasFloor n) (F.history self.old.folder) → Since (HasFloor n) (F.history self.old.folder) (F.history self.new.folder) }
        ensures whole { (t : State) (past : List State) (n : ℕ) → F.history self.old.folder ≡ Some (t ∷ past) → F.shown self.old.folder ≡ Some n → IsReadable t → IsShownIn n t → result ≢ Err JournalFault.Damaged }
        ensures shown { OnOk result ((n : ℕ) → F.shown self.old.folder ≡ Some n → n < self.new.next) }
        ensures head { OnOk result ((self.new.head.spool ≡ self.old.head.spool) × (self.new.head.secret ≡ secret) × (self.new.life ≡ 1)) }
        ensures unused { OnOk result (Now (λ t. t.floor ≡ 0) (F.history self.old.folder)) }
        ensures started { (ch : Chapter) (chs : List Chapter) (puts : Puts) (t : State) (past : List State) → F.history self.old.folder ≡ Some (t ∷ past) → Says ch puts → KeepsOn ch chs t → IsStarted F.history ch chs result self.old self.new }
        ensures begun { (t : State) (past : List State) → F.history self.old.folder ≡ Some (t ∷ past) → IsEmpty t → OnOk result (Stands F.history [] self.new) }
    {
        if self.folder.floor() != 0 || self.folder.shown() != 0 {
            return Err(JournalFault::Damaged);
        }
        if self.limit < HEAD as u64 {
            return Err(JournalFault::Bound);
        }
        let head = first_head(&self.head.spool, &secret);
        let mut segments = Segments { list: names };
        segments.reserve()?;
        self.renew(segments, 0, head, &head.to_bytes(), 1, 1)
    }

    /// Goes on in a folder with these segments.
    fn go_on(&mut self, names: Vec<Named>) -> Result<(), JournalFault>
        requires found { Now IsFound (F.history self.old.folder) }
        requires names { Now (HasNames names.items) (F.history self.old.folder) }
        requires fits { (self.old.limit < 2 ^ 64) × (self.old.segment < 2 ^ 64) }
        ensures counted { OnOk result ((self.new.failed ≡ false) × IsCounted F.history self.new) }
        ensures failed { OnErr result (self.new.failed ≡ self.old.failed) }
        ensures limits { HaveBounds self.old self.new }
        ensures bound { Since (LeavesMost (self.old.limit + self.old.segment)) (F.history self.old.folder) (F.history self.new.folder) }
        ensures floor { (n : ℕ) → Now (HasFloor n) (F.history self.old.folder) → Since (HasFloor n) (F.history self.old.folder) (F.history self.new.folder) }
        ensures whole { (t : State) (past : List State) (n : ℕ) → F.history self.old.folder ≡ Some (t ∷ past) → F.shown self.old.folder ≡ Some n → IsReadable t → IsShownIn n t → result ≢ Err JournalFault.Damaged }
        ensures shown { OnOk result ((n : ℕ) → F.shown self.old.folder ≡ Some n → n < self.new.next) }
        ensures life { OnOk result (self.new.life ≡ min (self.new.head.life + 1) (2 ^ 64 - 1)) }
        ensures started { (ch : Chapter) (chs : List Chapter) (puts : Puts) (t : State) (past : List State) → F.history self.old.folder ≡ Some (t ∷ past) → Says ch puts → KeepsOn ch chs t → IsStarted F.history ch chs result self.old self.new }
        ensures back { OnOk result ((t : State) (past : List State) (s : Segment) (ss : List Segment) → F.history self.old.folder ≡ Some (t ∷ past) → t.segments ≡ s ∷ ss → AreBack t.floor self.new.head ss) }
    {
        let used = bytes_of(&names);
        if used == u64::MAX || used > self.limit {
            return Err(JournalFault::Bound);
        }
        let Some(named) = names.first().copied() else {
            return Err(JournalFault::Damaged);
        };
        let newest = self.newest_of(named)?;
        if newest.next <= self.folder.shown() {
            return Err(JournalFault::Damaged);
        }
        self.go_back(&names, newest.head)?;
        let mut segments = Segments { list: names };
        segments.reserve()?;
        let life = newest.head.life.saturating_add(1);
        self.renew(
            segments,
            used,
            newest.head,
            &newest.bytes,
            newest.next,
            life,
        )
    }

    /// Reads the newest segment, which has this name, up to where it has no batch that is whole and reads alone: what
    /// was told does.
    fn newest_of(&self, named: Named) -> Result<Newest, JournalFault>
        ensures is { IfOk result (λ newest. IsHead newest.head) }
        ensures first { IfOk result (λ newest. newest.head.first ≡ named.first) }
        ensures long { IfOk result (λ newest. (length newest.bytes.items ≤ named.bytes) × (named.bytes ≤ self.now.segment)) }
        ensures whole { (t : State) (past : List State) (names : List Named) → F.history self.now.folder ≡ Some (t ∷ past) → HasNames (named ∷ names) t → IsSeen t → result ≢ Err JournalFault.Damaged }
        ensures newest { IfOk result (λ newest. Now (IsNewest named.bytes newest.head newest.bytes.items newest.next) (F.history self.now.folder)) }
    {
        if named.bytes < HEAD as u64 {
            return Err(JournalFault::Damaged);
        }
        let head = self.head_of(0)?;
        if head.first != named.first {
            return Err(JournalFault::Damaged);
        }
        let mut bytes = self.newest(named.bytes)?;
        let Some(batches) = bytes.get(HEAD..) else {
            return Err(JournalFault::Damaged);
        };
        let scanned = scan(&head.secret, head.first, batches);
        let alone = scan_alone(
            self.alloc,
            &head.secret,
            head.first,
            &batches[..scanned.end],
        )?;
        bytes.truncate(HEAD + alone.end);
        Ok(Newest {
            head,
            bytes,
            next: alone.next,
        })
    }

    /// Writes the newest segment, which has this head, whole, and stands at its end: the next batch begins another.
    fn renew(
        &mut self,
        segments: Segments,
        used: u64,
        head: Head,
        bytes: &[u8],
        next: u64,
        life: u64,
    ) -> Result<(), JournalFault>
        requires found { Now IsFound (F.history self.old.folder) }
        requires names { Now (HasNames segments.list.items) (F.history self.old.folder) }
        requires fits { (self.old.limit < 2 ^ 64) × (self.old.segment < 2 ^ 64) }
        requires room { vec_len segments.list < vec_capacity segments.list }
        requires sum { used ≡ total segments.list.items }
        requires fit { used ≤ self.old.limit }
        requires within { used + length bytes.now ≤ self.old.limit + freed head.first segments.list.items }
        requires small { length bytes.now ≤ self.old.segment }
        ensures counted { OnOk result ((self.new.failed ≡ false) × IsCounted F.history self.new) }
        ensures failed { OnErr result (self.new.failed ≡ self.old.failed) }
        ensures limits { HaveBounds self.old self.new }
        ensures bound { Since (LeavesMost (self.old.limit + self.old.segment)) (F.history self.old.folder) (F.history self.new.folder) }
        ensures floor { (n : ℕ) → Now (HasFloor n) (F.history self.old.folder) → Since (HasFloor n) (F.history self.old.folder) (F.history self.new.folder) }
        ensures whole { result ≢ Err JournalFault.Damaged }
        ensures went { GoesBy (making (length bytes.now)) (IsRenewed head.first bytes.now result) (F.history self.old.folder) (F.history self.new.folder) }
        ensures stands { OnOk result ((self.new.head ≡ head) × (self.new.place ≡ length bytes.now) × (self.new.next ≡ next) × (self.new.spent ≡ true)) }
        ensures life { OnOk result (self.new.life ≡ life) }
    {
        let mut segments = segments;
        self.folder.add(head.first, bytes)?;
        let len = bytes.len() as u64;
        self.used = used - segments.put(head.first, len) + len;
        self.segments = segments;
        self.head = head;
        self.place = len;
        self.next = next;
        self.life = life;
        self.floor = self.folder.floor();
        self.spent = true;
        self.failed = false;
        Ok(())
    }

    /// Goes back from the newest segment, which has this head, to the first that begins where all before it may be
    /// missing. Returns `Damaged` if one of them is not there, or has fewer bytes than count.
    fn go_back(&self, names: &[Named], newest: Head) -> Result<(), JournalFault>
        requires { IsHead newest }
        ensures whole { (t : State) (past : List State) → F.history self.now.folder ≡ Some (t ∷ past) → HasNames names.now t → IsThere newest t → result ≢ Err JournalFault.Damaged }
        ensures back { OnOk result ((t : State) (past : List State) (s : Segment) (ss : List Segment) → F.history self.now.folder ≡ Some (t ∷ past) → HasNames names.now t → t.segments ≡ s ∷ ss → AreBack t.floor newest ss) }
    {
        let floor = self.folder.floor();
        let mut head = newest;
        let mut index = 0;
        'segments: while head.first.saturating_sub(1) > floor {
            index += 1;
            let Some(named) = names.get(index) else {
                return Err(JournalFault::Damaged);
            };
            if named.first != head.before {
                return Err(JournalFault::Damaged);
            }
            if named.bytes < head.counted {
                return Err(JournalFault::Damaged);
            }
            let older = self.head_of(index)?;
            if older.first != named.first {
                return Err(JournalFault::Damaged);
            }
            if older.spool != head.spool {
                return Err(JournalFault::Damaged);
            }
            head = older;
        }
        Ok(())
    }

    /// Returns the head of the segment of this index.
    fn head_of(&self, index: usize) -> Result<Head, JournalFault>
        ensures is { IfOk result IsHead }
        ensures begins { IfOk result (λ head. Now (BeginsWith index head) (F.history self.now.folder)) }
        ensures whole { (t : State) (past : List State) → F.history self.now.folder ≡ Some (t ∷ past) → HasHead index t → result ≢ Err JournalFault.Damaged }
    {
        let mut bytes = [0; HEAD];
        self.folder.read(index, 0, &mut bytes)?;
        match Head::read(&bytes) {
            Some(head) => Ok(head),
            None => Err(JournalFault::Damaged),
        }
    }

    /// Returns the bytes of the newest segment, which has so many.
    fn newest(&self, len: u64) -> Result<Vec<u8>, JournalFault>
        ensures long { IfOk result (λ bytes. (length bytes.items ≡ len) × (len ≤ self.now.segment)) }
        ensures has { IfOk result (λ bytes. Now (NewestHas len bytes.items) (F.history self.now.folder)) }
        ensures whole { result ≢ Err JournalFault.Damaged }
    {
        if len > self.segment {
            return Err(JournalFault::Bound);
        }
        let mut bytes = Vec::with_capacity(self.alloc, len as usize)?;
        bytes.resize(len as usize, 0)?;
        self.folder.read(0, 0, &mut bytes)?;
        Ok(bytes)
    }
}

/// Returns the head of the first segment of a spool.
fn first_head(spool: &[u8; 16], secret: &[u8; 16]) -> Head
    ensures is { IsHead result }
    ensures first { result.first ≡ 1 }
    ensures ids { (result.spool ≡ spool.now) × (result.secret ≡ secret.now) }
{
    Head {
        spool: copied(spool),
        secret: copied(secret),
        first: 1,
        before: 0,
        counted: 0,
        life: 1,
    }
}

/// Returns the same bytes.
fn copied(bytes: &[u8; 16]) -> [u8; 16]
    ensures long { length result ≡ 16 }
    ensures same { result ≡ bytes.now }
{
    let mut copy = [0; 16];
    copy.copy_from_slice(bytes.as_slice());
    copy
}

/// Returns how many bytes these segments have, or `u64::MAX` if more.
fn bytes_of(names: &[Named]) -> u64
    ensures { result ≡ min (total names.now) (2 ^ 64 - 1) }
{
    let mut sum = 0_u64;
    for named in names {
        sum = sum.saturating_add(named.bytes);
    }
    sum
}
