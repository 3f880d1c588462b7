//! The keeper.

ghost use Rattle.std.specs.Prelude.{◌≡◌, ◌≢◌, ◌↔◌, ◌≤◌, ◌++◌, ◌∷◌, [], ℕ, true, false, OnOk, OnErr, IfSome};
ghost use Rattle.amqp_spool.specs.EntryReading.{introduced_in};
ghost use Rattle.amqp_spool.specs.Folders.{Now, Since};
ghost use Rattle.amqp_spool.specs.Journals.{HaveLimits, HasFloor};
ghost use Rattle.amqp_spool.specs.Sayings.{Puts};
ghost use Rattle.amqp_spool.specs.Spools.{IsSound, Has};
ghost use Rattle.amqp_spool.specs.Waitings.{IsFrom, numbered};
ghost use Rattle.amqp_hub.specs.declared.keeper.Progress.TheVariants as Progress;
ghost use Rattle.amqp_spool_keeper.specs.Keeping.{state_of, is_settled, sent_by, AreAlike, IsSafe, IsTold, WaitsOn, OnlyPassedGo};

use crate::people::People;
use crate::sender::sender_of;
use crate::target::Target;
use amqp_endpoint::Endpoint;
use amqp_hub::{Keeper, Origin, Progress};
use amqp_spool::{Folder, Introduction, Spool};
use std::alloc::{AllocError, Allocator, Global};
use std::cell::RefCell;
use std::marker::Model;
use std::random::RandomSource;
use std::time::{Clock, Instant};

/// How long a disk that refused a batch is left alone, and how long it takes at least from one look at the consumers to
/// the next, in milliseconds.
const PAUSE: u128 = 250;

/// A spool that keeps the records of a hub's connections.
#[derive(Drop)]
pub struct SpoolKeeper<R: Drop, F: Folder + Drop> {
    rt: R,
    spool: Spool<F>,
    /// How many bytes the longest record takes with its introduction.
    room: u32,
    /// How many bytes of room links want for the credit that they may have.
    reserve: u64,
    people: RefCell<People>,
    /// The target of the last record's link.
    target: Target,
    /// When the last batch arrived, in milliseconds since 1970.
    arrived: u64,
    /// When a batch was refused last, unless one was taken since.
    refused: Option<Instant>,
    /// When it was last looked what the consumers have passed.
    looked: Option<Instant>,
    /// Whether readers have not heard how far they may read.
    is_unpublished: bool,
}

impl<R: Drop, F: Folder + Drop> Model for SpoolKeeper<R, F> {
    ghost use Rattle.amqp_spool.specs.Spools.{IsSound};
    ghost use Rattle.amqp_spool_keeper.specs.Keeping.{KeeperState, state_of};

    ghost Value = { KeeperState F };

    ghost view = { λ a. state_of a.spool a.room };

    ghost invariant = { λ a. IsSound F.history a.spool };
}

impl<R: Drop, F: Folder + Drop> SpoolKeeper<R, F> {
    /// Makes a keeper of a spool that was started. A record takes at most `room` bytes with its introduction. Links are
    /// granted credit only while `reserve` bytes are free.
    pub fn new(rt: R, alloc: Global, spool: Spool<F>, room: u32, reserve: u64) -> SpoolKeeper<R, F>
        requires { IsSound F.history spool }
        ensures { result ≡ state_of spool room }
    {
        SpoolKeeper {
            rt,
            spool,
            room,
            reserve,
            people: RefCell::new(People::new(alloc)),
            target: Target::new(alloc),
            arrived: 0,
            refused: None,
            looked: None,
            is_unpublished: true,
        }
    }
}

impl<R: Drop, F: Folder + Drop> SpoolKeeper<R, F> {
    /// Returns the spool.
    pub fn spool(&self) -> &Spool<F>
        ensures { state_of result.now self.now.room ≡ self.now }
    {
        &self.spool
    }
}

/// Returns this link, if it is open for this sender.
fn link_for<F: Folder + Drop>(
    spool: &Spool<F>,
    link: Option<u32>,
    sender: &Introduction,
) -> Option<u32>
    ensures { IfSome result (λ link. IsFrom spool.now.links link (numbered link (introduced_in sender.now))) }
{
    match link {
        Some(link) if spool.links().is_from(link, sender) => Some(link),
        _ => None,
    }
}

/// Puts a record of a link that is open for this sender.
fn put_as<F: Folder + Drop>(
    spool: &mut Spool<F>,
    link: u32,
    sender: &Introduction,
    tag: &[u8],
    bytes: &[u8],
) -> Result<(), AllocError>
    requires sound { IsSound F.history spool.old }
    requires link { IsFrom spool.old.links link (numbered link (introduced_in sender.now)) }
    ensures sound { IsSound F.history spool.new }
    ensures journal { spool.new.journal ≡ spool.old.journal }
    ensures same { OnErr result (spool.new ≡ spool.old) }
    ensures put { OnOk result ((told waiting : Puts) → Has F.history told waiting spool.old → Has F.history told (waiting ++ sent_by link (introduced_in sender.now) tag.now bytes.now ∷ []) spool.new) }
{
    match spool.put(link, tag, bytes) {
        Ok(()) => Ok(()),
        Err(_) => Err(AllocError),
    }
}

/// Puts a record of a link that was opened for this sender, and notes that the link stands for that of its origin.
fn put_noted<F: Folder + Drop>(
    spool: &mut Spool<F>,
    people: &mut People,
    origin: &Origin,
    link: u32,
    sender: &Introduction,
    bytes: &[u8],
) -> Result<(), AllocError>
    requires sound { IsSound F.history spool.old }
    requires link { IsFrom spool.old.links link (numbered link (introduced_in sender.now)) }
    ensures sound { IsSound F.history spool.new }
    ensures journal { spool.new.journal ≡ spool.old.journal }
    ensures same { OnErr result (spool.new ≡ spool.old) }
    ensures put { OnOk result ((told waiting : Puts) → Has F.history told waiting spool.old → Has F.history told (waiting ++ sent_by link (introduced_in sender.now) origin.now.delivery_tag bytes.now ∷ []) spool.new) }
{
    people.note(origin, link)?;
    let tag = origin.delivery_tag.as_bytes();
    put_as(spool, link, sender, tag, bytes)
}

/// Puts a record of a link that is opened for it, in place of the one that stood for that link of its connection
/// before, if one did.
fn put_anew<F: Folder + Drop>(
    spool: &mut Spool<F>,
    people: &mut People,
    origin: &Origin,
    before: Option<u32>,
    sender: &Introduction,
    bytes: &[u8],
) -> Result<(), AllocError>
    requires sound { IsSound F.history spool.old }
    ensures sound { IsSound F.history spool.new }
    ensures journal { spool.new.journal ≡ spool.old.journal }
    ensures same { OnErr result (AreAlike spool.old spool.new) }
    ensures put { OnOk result ((link : ℕ) × ((told waiting : Puts) → Has F.history told waiting spool.old → Has F.history told (waiting ++ sent_by link (introduced_in sender.now) origin.now.delivery_tag bytes.now ∷ []) spool.new)) }
{
    let Ok(link) = spool.open_link(sender) else {
        return Err(AllocError);
    };
    match put_noted(spool, people, origin, link, sender, bytes) {
        Ok(()) => {
            close_if_any(spool, before);
            Ok(())
        }
        Err(refused) => {
            people.put_back(origin, before);
            spool.close_link(link);
            Err(refused)
        }
    }
}

/// Closes a link, if there is one.
fn close_if_any<F: Folder + Drop>(spool: &mut Spool<F>, link: Option<u32>)
    requires sound { IsSound F.history spool.old }
    ensures sound { IsSound F.history spool.new }
    ensures journal { spool.new.journal ≡ spool.old.journal }
    ensures waiting { spool.new.waiting ≡ spool.old.waiting }
    ensures has { (told waiting : Puts) → Has F.history told waiting spool.old → Has F.history told waiting spool.new }
{
    if let Some(link) = link {
        spool.close_link(link);
    }
}

impl<R: Clock + RandomSource + Drop, F: Folder + Drop> Keeper for SpoolKeeper<R, F> {
    ghost use Rattle.std.specs.Prelude.{None};
    ghost use Rattle.amqp_spool.specs.Waitings.{batch_len};
    ghost use Rattle.amqp_spool_keeper.specs.Keeping.{is_settled, is_roomy, Accepts, MakesRoom, Settles};
    ghost use Rattle.amqp_spool_keeper.specs.Laws.{nothing_known, accepts_more, room_is_made, settling_takes};

    // What a folder was given is said in the spool's words.
    ghost puts = { λ _. None };

    ghost taken = { λ _. None };

    ghost settled = { is_settled };

    ghost roomy = { is_roomy };

    ghost broken = { λ k. k.journal.failed };

    ghost holds = { λ k. batch_len k.waiting };

    ghost accepts = { Accepts F.history };

    ghost makes_room = { MakesRoom F.history };

    ghost settles = { Settles F.history F.positions };

    ghost settled_is_taken = { nothing_known };

    ghost accepted_is_put = { accepts_more F.history };

    ghost room_is_made = { room_is_made F.history };

    ghost settling_takes = { settling_takes F.history F.positions };

    /// Notes the first 58 bytes of the address. If memory is refused its records come from nowhere.
    fn met(&self, number: u64, from: &str) -> Result<(), AllocError> {
        match self.people.try_borrow_mut() {
            Ok(mut people) => people.meet(number, from),
            Err(_) => Err(AllocError),
        }
    }

    fn left(&self, number: u64) {
        if let Ok(mut people) = self.people.try_borrow_mut() {
            people.leave(number);
        }
    }

    fn may_grant(&self) -> bool {
        self.spool.may_grant(self.reserve)
    }

    fn has_room(&self) -> bool {
        !self.spool.has_failed() && self.spool.has_room(self.room)
    }

    fn put<A: Allocator + Copy>(
        &mut self,
        origin: Origin,
        endpoint: &Endpoint<A>,
        bytes: &[u8],
    ) -> Result<(), AllocError> {
        let people = self.people.get_mut();
        let (from, before) = people.of(&origin);
        let sender = sender_of(&origin, from.as_bytes(), endpoint, &mut self.target)?;
        if let Some(link) = link_for(&self.spool, before, &sender) {
            let tag = origin.delivery_tag.as_bytes();
            return put_as(&mut self.spool, link, &sender, tag, bytes);
        }
        put_anew(&mut self.spool, people, &origin, before, &sender, bytes)
    }

    fn make_room(&mut self) -> Progress {
        if self.has_room() {
            return Progress::Out;
        }
        match self.write_out() {
            Progress::Failed => Progress::Failed,
            _ if self.has_room() => Progress::Out,
            _ => Progress::Stuck,
        }
    }

    /// It also removes segments that all consumers of the spool have passed.
    fn settle(&mut self) -> Progress {
        self.close_left();
        self.free();
        if self.spool.has_failed() {
            return Progress::Failed;
        }
        self.write_out()
    }

    fn is_settled(&self) -> bool {
        self.spool.is_settled() && !self.spool.has_failed()
    }

    fn held(&self) -> u64 {
        self.spool.held()
    }
}

impl<R: Clock + RandomSource + Drop, F: Folder + Drop> SpoolKeeper<R, F> {
    /// Makes durable what waits, as far as it can, and says to readers how far they may read.
    fn write_out(&mut self) -> Progress
        ensures safe { IsSafe F.history self.old self.new }
        ensures floor { (n : ℕ) → Now (HasFloor n) (F.history self.old.journal.folder) → Since (HasFloor n) (F.history self.old.journal.folder) (F.history self.new.journal.folder) }
        ensures told { result ≡ Progress.Out → IsTold F.history self.old self.new }
        ensures waits { result ≡ Progress.Stuck → WaitsOn F.history self.old self.new }
        ensures out { result ≡ Progress.Out → is_settled self.new ≡ true }
        ensures failed { (result ≡ Progress.Failed) ↔ (self.new.journal.failed ≡ true) }
    {
        let progress = self.write_batch();
        if progress == Progress::Out && self.is_unpublished {
            self.is_unpublished = self.spool.publish().is_err();
        }
        progress
    }

    /// Makes durable what waits, unless a disk that refused a batch is left alone, or the system gives no secret.
    fn write_batch(&mut self) -> Progress
        ensures safe { IsSafe F.history self.old self.new }
        ensures floor { (n : ℕ) → Now (HasFloor n) (F.history self.old.journal.folder) → Since (HasFloor n) (F.history self.old.journal.folder) (F.history self.new.journal.folder) }
        ensures told { result ≡ Progress.Out → IsTold F.history self.old self.new }
        ensures waits { result ≡ Progress.Stuck → WaitsOn F.history self.old self.new }
        ensures out { result ≡ Progress.Out → is_settled self.new ≡ true }
        ensures failed { (result ≡ Progress.Failed) ↔ (self.new.journal.failed ≡ true) }
    {
        if self.spool.has_failed() {
            return Progress::Failed;
        }
        let waits = !self.spool.is_settled();
        let mut secret = [0; 16];
        if waits && (self.was_now(self.refused) || self.rt.fill_bytes(&mut secret).is_err()) {
            return Progress::Stuck;
        }
        self.look_at_clock();
        match self.spool.settle(self.arrived, secret) {
            Ok(()) => {
                self.refused = None;
                self.is_unpublished = self.is_unpublished || waits;
                Progress::Out
            }
            Err(_) => {
                if self.spool.has_failed() {
                    return Progress::Failed;
                }
                self.refused = Instant::now(&self.rt).ok();
                Progress::Stuck
            }
        }
    }

    /// Takes the time, if the clock tells it.
    fn look_at_clock(&mut self)
        ensures { self.new ≡ self.old }
    {
        if let Ok(since) = self.rt.since_1970() {
            self.arrived = u64::try_from(since.as_millis()).unwrap_or(u64::MAX);
        }
    }

    /// Returns whether this moment was not long ago.
    fn was_now(&self, moment: Option<Instant>) -> bool {
        match moment {
            Some(at) => at
                .elapsed(&self.rt)
                .is_ok_and(|age| age.as_millis() < PAUSE),
            None => false,
        }
    }

    /// Removes segments that all consumers have passed, unless it looked for some not long ago. The newest one stays.
    fn free(&mut self)
        ensures safe { IsSafe F.history self.old self.new }
        ensures waits { self.new.journal.failed ≡ false → WaitsOn F.history self.old self.new }
        ensures floor { OnlyPassedGo F.history F.positions self.old self.new }
    {
        if self.spool.has_failed() || self.spool.journal().len() < 2 || self.was_now(self.looked) {
            return;
        }
        self.looked = Instant::now(&self.rt).ok();
        let _ = self.spool.free();
    }

    /// Closes the links of connections that have left.
    fn close_left(&mut self)
        ensures journal { self.new.journal ≡ self.old.journal }
        ensures waiting { self.new.waiting ≡ self.old.waiting }
        ensures room { self.new.room ≡ self.old.room }
        ensures waits { WaitsOn F.history self.old self.new }
    {
        for _ in 0..u32::MAX {
            let Some(link) = self.people.get_mut().take_left() else {
                break;
            };
            self.spool.close_link(link);
        }
    }
}
