//! One peer: its key in the hub, its socket, and its phase.

ghost use Rattle.std.specs.Prelude.{◌≡◌, true, drop};
ghost use Rattle.slab.specs.Slab.{get};
ghost use Rattle.amqp_endpoint.specs.Calls.{close_call_spoken};
ghost use Rattle.amqp_endpoint.specs.Replies.{joined};
ghost use Rattle.amqp_hub.specs.Turns.{answers_of};
ghost use Rattle.amqp_gateway.specs.HubCalls.{Went, parts, takes, tells};

use crate::admission::{Admission, Verdict};
use crate::counts::Counts;
use crate::ending::Ending;
use crate::passed::Passed;
use crate::watcher::Watcher;
use amqp_endpoint::{End, Endpoint, Event, Outcome, Scope};
use amqp_hub::{AskFault, Hub, HubFault, Keeper};
use amqp_perform::Condition;
use amqp_reason::Reason;
use amqp_serve::{Rule, ServeFault, Stepped};
use mio::event::Event as Ready;
use mio::net::TcpStream;
use mio::{Interest, Registry, Token};
use std::alloc::Global;
use std::io::{self, ErrorKind, Read, Write};
use std::net::Shutdown;
use std::{mem, str};

/// How many bytes are read of a peer in a turn, at most. What one peer may do bounds what the others wait.
pub const PIECE: usize = 8192;

/// How many of its units are heard at a time, at most: a piece of short ones that cost much is heard in several turns.
const UNITS: usize = 64;

/// How many ends by this side are reported of a peer, so that one that errs without end fills no log.
const MOST_TOLD: u32 = 100;

/// An empty frame [2.3.2].
const EMPTY_FRAME: [u8; 8] = [0, 0, 0, 8, 2, 0, 0, 0];

/// What comes next of a peer.
#[derive(Clone, Copy, Debug, PartialEq, Eq)]
pub enum Next {
    /// Another turn, at once.
    Turn,
    /// It waits for its socket.
    Wait,
    /// It is over.
    Over(Ending),
}

/// What a read of a socket gave.
#[derive(Clone, Copy, Debug, PartialEq, Eq)]
pub enum Came {
    Bytes(usize),
    /// Nothing now.
    Nothing,
    /// The end of the input.
    End,
}

/// Where what peers bring goes.
#[derive(Drop)]
pub struct Desk<K: Keeper + Drop, W: Watcher + Drop, D: Admission + Drop> {
    pub hub: Hub<K>,
    pub watcher: W,
    pub admission: D,
    pub counts: Counts,
    /// Whether links get credit.
    pub grants: bool,
}

/// How a peer is between two calls.
#[derive(Clone, Copy, Debug, PartialEq, Eq)]
enum Phase {
    /// It is served.
    Served,
    /// It is served. Memory was refused for a unit that waits in the hub.
    Starved,
    /// It has ended so, and its endpoint stood so at the end of its input, if it was brought there. What waits for it
    /// may still go out.
    Ended(Ending, Option<End>),
}

/// A connection. Times are in milliseconds, and those that count but for `said`.
#[derive(Drop)]
pub struct Peer {
    number: u64,
    /// Its place among the peers.
    at: usize,
    /// Its key in the hub, until that has dropped it.
    key: Option<usize>,
    stream: TcpStream,
    phase: Phase,
    /// What came and was not heard, since memory was refused, or too many units came or answers wait.
    unheard: Vec<u8>,
    /// Whether it is to make a step though nothing came, since its links may get credit again.
    is_due: bool,
    is_queued: bool,
    is_readable: bool,
    /// An empty frame, and how many of its last bytes are still to be written.
    frame: [u8; 8],
    owed: usize,
    /// Whether answers wait of which some bytes were sent, so that a frame may be cut in two.
    is_cut: bool,
    /// Whether this side's open was sent [2.4.1].
    is_greeted: bool,
    /// How often it was reported that this side ended something of it.
    told: u32,
    /// When it came, when something came from it, when something was written by the caller's time, and since when its
    /// socket takes nothing.
    came: u64,
    heard: u64,
    said: u64,
    blocked: Option<u64>,
}

impl Peer {
    pub fn new(alloc: Global, number: u64, key: usize, stream: TcpStream, now: Passed) -> Peer {
        Peer {
            number,
            at: 0,
            key: Some(key),
            stream,
            phase: Phase::Served,
            unheard: Vec::new(alloc),
            is_due: false,
            is_queued: false,
            is_readable: true,
            frame: [0; 8],
            owed: 0,
            is_cut: false,
            is_greeted: false,
            told: 0,
            came: now.millis(),
            heard: now.millis(),
            said: now.seen(),
            blocked: None,
        }
    }

    pub fn number(&self) -> u64 {
        self.number
    }

    /// Returns how it ended, if it has.
    pub fn ending(&self) -> Option<Ending> {
        match self.phase {
            Phase::Ended(ending, _) => Some(ending),
            Phase::Served | Phase::Starved => None,
        }
    }

    /// Returns how its endpoint stood at the end of its input, if it was brought there.
    pub fn end(&self) -> Option<End> {
        match self.phase {
            Phase::Ended(_, end) => end,
            Phase::Served | Phase::Starved => None,
        }
    }

    /// Returns how many bytes wait here: an empty frame, and what came from it and was not heard.
    pub fn held(&self) -> u64 {
        (self.owed as u64).saturating_add(self.unheard.len() as u64)
    }

    /// Has it served by another rule from its next step on. If its links may get credit again (`grants`) it makes one
    /// though nothing comes.
    #[tactic(auto, using(crate::proofs::HubRuns::went_none))]
    pub fn follow<K: Keeper + Drop>(&mut self, hub: &mut Hub<K>, rule: Rule, grants: bool)
        ensures keeper { hub.new.keeper ≡ hub.old.keeper }
        ensures ran { Went K.Keeper takes hub.old hub.new }
    {
        if let Some(key) = self.key {
            let _ = hub.rule(key, rule);
            self.is_due = grants;
        }
    }

    /// Gives its key back to the hub.
    #[tactic(auto, using(crate::proofs::HubRuns::went_none))]
    pub fn leave<K: Keeper + Drop>(&mut self, hub: &mut Hub<K>)
        ensures keeper { hub.new.keeper ≡ hub.old.keeper }
        ensures ran { Went K.Keeper parts hub.old hub.new }
    {
        if let Some(key) = self.key.take() {
            let _ = hub.remove(key);
        }
    }

    /// Registers it, so that its place is reported when its socket is ready.
    pub fn register(&mut self, registry: &Registry, at: usize) -> io::Result<()> {
        self.at = at;
        let _ = self.stream.set_nodelay(true);
        registry.register(
            &mut self.stream,
            Token(at),
            Interest::READABLE | Interest::WRITABLE,
        )
    }

    pub fn note(&mut self, ready: &Ready) {
        if ready.is_readable() || ready.is_read_closed() || ready.is_error() {
            self.is_readable = true;
        }
    }

    /// Puts it into the queue. Returns whether it was not there before.
    pub fn queue(&mut self) -> bool {
        !mem::replace(&mut self.is_queued, true)
    }

    pub fn leave_queue(&mut self) {
        self.is_queued = false;
    }

    /// Returns its endpoint, until the hub has dropped it.
    fn endpoint<'a, K: Keeper + Drop>(&self, hub: &'a Hub<K>) -> Option<&'a Endpoint> {
        hub.endpoint(self.key?)
    }

    /// Returns whether this side has ended its connection with an error.
    fn has_failed<K: Keeper + Drop>(&self, hub: &Hub<K>) -> bool {
        match self.endpoint(hub) {
            Some(endpoint) => endpoint.has_failed(),
            None => false,
        }
    }

    /// Returns whether bytes wait for its socket.
    fn is_blocked<K: Keeper + Drop>(&self, hub: &Hub<K>) -> bool {
        self.owed > 0
            || match self.key {
                Some(key) => hub.waits(key),
                None => false,
            }
    }

    /// Returns whether it is to make a step without a read.
    fn has_unheard(&self) -> bool {
        self.phase == Phase::Starved || self.is_due || !self.unheard.is_empty()
    }

    /// Returns whether it may be heard: it has not ended, and no answers wait.
    pub fn may_be_heard<K: Keeper + Drop>(&self, hub: &Hub<K>) -> bool {
        self.ending().is_none() && !self.is_blocked(hub)
    }

    /// Returns whether more of it may be read.
    pub fn may_be_read<K: Keeper + Drop>(&self, hub: &Hub<K>) -> bool {
        self.is_readable && !self.has_unheard() && self.may_be_heard(hub)
    }

    /// Returns whether it is to have another turn at once. One for which memory was refused is tried again from
    /// time to time.
    fn has_more(&self) -> bool {
        self.phase == Phase::Served && (self.is_readable || self.is_due || !self.unheard.is_empty())
    }

    /// Reads once.
    pub fn read<K: Keeper + Drop>(&mut self, piece: &mut [u8], hub: &Hub<K>, now: u64) -> Came {
        match self.stream.read(piece) {
            Ok(0) => Came::End,
            Ok(count) => {
                if !self.has_failed(hub) {
                    self.heard = now;
                }
                Came::Bytes(count)
            }
            Err(error) if error.kind() == ErrorKind::Interrupted => Came::Nothing,
            Err(error) if error.kind() == ErrorKind::WouldBlock => {
                self.is_readable = false;
                Came::Nothing
            }
            Err(_) => {
                self.phase = Phase::Ended(Ending::Read, None);
                Came::Nothing
            }
        }
    }

    /// Lets the hub hear what was kept, if anything was and it may be heard.
    #[tactic(auto, using(crate::proofs::HubRuns::went_none))]
    pub fn hear_again<K: Keeper + Drop, W: Watcher + Drop, D: Admission + Drop>(
        &mut self,
        alloc: Global,
        now: u64,
        desk: &mut Desk<K, W, D>,
        rt: &impl Eprint,
    )
        ensures accepted { desk.new.counts.accepted ≡ desk.old.counts.accepted }
        ensures ran { Went K.Keeper takes desk.old.hub desk.new.hub }
    {
        if self.has_unheard() && self.may_be_heard(&desk.hub) {
            if !self.has_failed(&desk.hub) {
                self.heard = now; // it was this side that could not go on
            }
            let unheard = mem::replace(&mut self.unheard, Vec::new(alloc));
            self.hear(&unheard, desk, rt);
        }
    }

    /// Lets the hub hear what came, unit by unit: at most [`UNITS`], and none once so much waits for the peer that
    /// its socket has to take it first. The rest is kept.
    #[tactic(auto, using(crate::proofs::HubRuns::went_none))]
    pub fn hear<K: Keeper + Drop, W: Watcher + Drop, D: Admission + Drop>(
        &mut self,
        bytes: &[u8],
        desk: &mut Desk<K, W, D>,
        rt: &impl Eprint,
    )
        ensures accepted { desk.new.counts.accepted ≡ desk.old.counts.accepted }
        ensures ran { Went K.Keeper takes desk.old.hub desk.new.hub }
    {
        let mut rest = bytes;
        for _ in 0..UNITS {
            if rest.is_empty() && self.phase != Phase::Starved && !self.is_due {
                break;
            }
            let Some(key) = self.key else {
                break;
            };
            let waited = desk.hub.answers(key).len();
            match desk.hub.hear(key, rest) {
                Ok(stepped) => {
                    let taken = rest.get(..stepped.used).unwrap_or(&[]);
                    rest = rest.get(stepped.used..).unwrap_or(&[]);
                    if !self.go_on(key, taken, waited, &stepped, desk, rt) {
                        break;
                    }
                }
                Err(HubFault::Unsent | HubFault::NoRoom) => break,
                Err(_) => {
                    self.finish(&mut desk.hub);
                    break;
                }
            }
        }
        self.keep(rest, &mut desk.hub);
        desk.watcher.waits(self.at);
    }

    /// Goes on after a step that took these bytes, before which so many bytes of answers waited. Returns `false` if no
    /// more is to be heard now.
    #[tactic(auto, using(crate::proofs::HubRuns::went_none, crate::proofs::HubRuns::as_takes))]
    fn go_on<K: Keeper + Drop, W: Watcher + Drop, D: Admission + Drop>(
        &mut self,
        key: usize,
        taken: &[u8],
        waited: usize,
        stepped: &Stepped,
        desk: &mut Desk<K, W, D>,
        rt: &impl Eprint,
    ) -> bool
        ensures accepted { desk.new.counts.accepted ≡ desk.old.counts.accepted }
        ensures ran { Went K.Keeper takes desk.old.hub desk.new.hub }
    {
        let is_due = mem::replace(&mut self.is_due, false);
        if let Err(ServeFault::Read | ServeFault::Write | ServeFault::Sink) = stepped.done {
            self.key = None; // the hub has removed it
            self.give_up(&mut desk.hub, Ending::NoMemory);
            return false;
        }
        desk.counts.step(stepped);
        let answers = answers_after(&desk.hub, key, waited);
        desk.watcher.stepped(self.at, taken, stepped, answers);
        self.tell(stepped.told, &desk.hub, rt);
        if stepped.done.is_err() {
            self.phase = Phase::Starved;
            return false;
        }
        self.phase = Phase::Served;
        if self.is_over(&desk.hub) {
            self.finish(&mut desk.hub);
            return false;
        }
        !desk.admission.asks() || self.admit(key, stepped.told, is_due, desk, rt)
    }

    /// Asks what becomes of the links that may lack credit after a step that told this, or of all if it is due: no step
    /// gives them credit. Returns `false` if no more is to be heard now.
    #[tactic(auto, using(crate::proofs::HubRuns::went_none))]
    fn admit<K: Keeper + Drop, W: Watcher + Drop, D: Admission + Drop>(
        &mut self,
        key: usize,
        told: Outcome,
        is_due: bool,
        desk: &mut Desk<K, W, D>,
        rt: &impl Eprint,
    ) -> bool
        ensures accepted { desk.new.counts.accepted ≡ desk.old.counts.accepted }
        ensures ran { Went K.Keeper takes desk.old.hub desk.new.hub }
    {
        match look_behind(told, is_due, key, &desk.hub) {
            Look::Nothing => true,
            Look::Link { channel, handle } => self.admit_link(key, channel, handle, desk, rt),
            Look::Sessions { first, last } => self.admit_links(key, first, last, desk, rt),
        }
    }

    /// Asks what becomes of each link on these channels that may be granted credit. Returns `false` if no more is to be
    /// heard now.
    #[tactic(auto, using(crate::proofs::HubRuns::went_none))]
    fn admit_links<K: Keeper + Drop, W: Watcher + Drop, D: Admission + Drop>(
        &mut self,
        key: usize,
        first: u16,
        last: u16,
        desk: &mut Desk<K, W, D>,
        rt: &impl Eprint,
    ) -> bool
        ensures accepted { desk.new.counts.accepted ≡ desk.old.counts.accepted }
        ensures ran { Went K.Keeper takes desk.old.hub desk.new.hub }
    {
        let mut from = (first, 0);
        for _ in 0..u64::MAX {
            let Some((channel, handle)) = next_link(key, from, last, &desk.hub) else {
                break;
            };
            if !self.admit_link(key, channel, handle, desk, rt) {
                return false;
            }
            from = (channel, handle.saturating_add(1));
        }
        true
    }

    /// Asks what becomes of a link, and has the hub do so. Returns `false` if no more is to be heard now.
    #[tactic(auto, using(crate::proofs::HubRuns::went_none))]
    fn admit_link<K: Keeper + Drop, W: Watcher + Drop, D: Admission + Drop>(
        &mut self,
        key: usize,
        channel: u16,
        handle: u32,
        desk: &mut Desk<K, W, D>,
        rt: &impl Eprint,
    ) -> bool
        ensures accepted { desk.new.counts.accepted ≡ desk.old.counts.accepted }
        ensures ran { Went K.Keeper takes desk.old.hub desk.new.hub }
    {
        let Some(verdict) = verdict_on(&mut desk.admission, key, channel, handle, &desk.hub) else {
            return true;
        };
        let waited = desk.hub.answers(key).len();
        let grants = desk.grants;
        let asked = self.obey(&mut desk.hub, key, channel, handle, &verdict, grants, rt);
        if let Err(AskFault::NoMemory) = asked {
            self.give_up(&mut desk.hub, Ending::NoMemory);
            return false;
        }
        let answers = answers_after(&desk.hub, key, waited);
        if !answers.is_empty() {
            desk.watcher.said(self.at, answers);
        }
        true
    }

    /// Has the hub do what was said of a link.
    #[tactic(auto, using(crate::proofs::HubRuns::went_none))]
    fn obey<K: Keeper + Drop>(
        &mut self,
        hub: &mut Hub<K>,
        key: usize,
        channel: u16,
        handle: u32,
        verdict: &Verdict<'_>,
        grants: bool,
        rt: &impl Eprint,
    ) -> Result<(), AskFault>
        ensures keeper { hub.new.keeper ≡ hub.old.keeper }
        ensures ran { Went K.Keeper takes hub.old hub.new }
    {
        match verdict {
            Verdict::Admit { most } if grants => top_up(hub, key, channel, handle, *most),
            Verdict::Admit { .. } => Ok(()),
            Verdict::Refuse(reason) => self.refuse(hub, key, channel, handle, reason, rt),
        }
    }

    /// Refuses a link, and reports that on standard error.
    #[tactic(auto, using(crate::proofs::HubRuns::went_none))]
    fn refuse<K: Keeper + Drop>(
        &mut self,
        hub: &mut Hub<K>,
        key: usize,
        channel: u16,
        handle: u32,
        reason: &Reason<'_>,
        rt: &impl Eprint,
    ) -> Result<(), AskFault>
        ensures keeper { hub.new.keeper ≡ hub.old.keeper }
        ensures ran { Went K.Keeper takes hub.old hub.new }
    {
        let refused = hub.refuse(key, channel, handle, reason);
        if refused.is_ok() {
            self.tell_refusal(channel, handle, reason, rt);
        }
        refused
    }

    /// Keeps what is to be heard later, unless it has ended.
    #[tactic(auto, using(crate::proofs::HubRuns::went_none))]
    fn keep<K: Keeper + Drop>(&mut self, rest: &[u8], hub: &mut Hub<K>)
        ensures keeper { hub.new.keeper ≡ hub.old.keeper }
        ensures ran { Went K.Keeper parts hub.old hub.new }
    {
        if self.ending().is_none() && self.unheard.extend_from_slice(rest).is_err() {
            self.give_up(hub, Ending::NoMemory);
        }
    }

    /// Reports on standard error what concerns the operator: its open, and what this side ended, at most
    /// [`MOST_TOLD`] times.
    fn tell<K: Keeper + Drop>(&mut self, told: Outcome, hub: &Hub<K>, rt: &impl Eprint) {
        match told {
            Outcome::Event(Event::Opened) => self.opened(hub, rt),
            Outcome::Event(
                Event::Failed {
                    scope,
                    condition,
                    ..
                },
            ) => {
                if self.told <= MOST_TOLD {
                    self.told = self.told.saturating_add(1);
                    self.tell_failure(scope, condition, rt);
                }
            }
            _ => {}
        }
    }

    /// Reports what this side ended, or that no more of it is reported.
    fn tell_failure(&self, scope: Scope, condition: Condition, rt: &impl Eprint) {
        let number = self.number;
        let name = str::from_utf8(condition.name()).unwrap_or("");
        let _ = match scope {
            _ if self.told > MOST_TOLD => {
                eprintln!(rt; "connection {number}: what else is ended is not told")
            }
            Scope::Connection => eprintln!(rt; "connection {number}: ended with {name}"),
            Scope::Session { channel } => {
                eprintln!(rt; "connection {number}: session {channel} ended with {name}")
            }
            Scope::Link { channel, handle } => {
                eprintln!(rt; "connection {number}: link {channel} {handle} ended with {name}")
            }
        };
    }

    /// Reports that a link was refused, or that no more of what is ended is reported.
    fn tell_refusal(&mut self, channel: u16, handle: u32, reason: &Reason<'_>, rt: &impl Eprint) {
        if self.told > MOST_TOLD {
            return;
        }
        self.told = self.told.saturating_add(1);
        let number = self.number;
        let name = str::from_utf8(reason.condition).unwrap_or("");
        let _ = match text_of(reason) {
            _ if self.told > MOST_TOLD => {
                eprintln!(rt; "connection {number}: what else is ended is not told")
            }
            Some(text) => {
                eprintln!(rt;
                    "connection {number}: link {channel} {handle} refused with {name}: {text:?}"
                )
            }
            None => {
                eprintln!(rt; "connection {number}: link {channel} {handle} refused with {name}")
            }
        };
    }

    /// Reports that its open came, and whose it says that it is [2.7.1].
    fn opened<K: Keeper + Drop>(&self, hub: &Hub<K>, rt: &impl Eprint) {
        if let Some(endpoint) = self.endpoint(hub)
            && let Some(said) = endpoint.peer()
        {
            let number = self.number;
            let name = said.container_id.as_str();
            let _ = eprintln!(rt; "connection {number}: opened by {name:?}");
        }
    }

    /// Returns whether its connection is over. If this side ended it with an error, it is so at once if what came was no
    /// frame. Else it awaits the peer's close [2.4.3].
    fn is_over<K: Keeper + Drop>(&self, hub: &Hub<K>) -> bool {
        match self.endpoint(hub) {
            Some(endpoint) => endpoint.is_over(),
            None => true,
        }
    }

    /// Ends it, since its input has ended or its connection is over.
    #[tactic(auto, using(crate::proofs::HubRuns::went_none))]
    pub fn finish<K: Keeper + Drop>(&mut self, hub: &mut Hub<K>)
        ensures keeper { hub.new.keeper ≡ hub.old.keeper }
        ensures ran { Went K.Keeper takes hub.old hub.new }
    {
        if self.ending().is_some() {
            return;
        }
        let Some(key) = self.key else {
            return;
        };
        self.phase = match hub.finish(key) {
            Ok(end) => Phase::Ended(Ending::of(end), Some(end)),
            Err(HubFault::Starved) => Phase::Ended(Ending::NoMemory, None),
            Err(_) => Phase::Ended(Ending::Failed, None),
        };
    }

    /// Closes it if it is open, and ends it.
    #[tactic(auto, using(crate::proofs::HubRuns::went_none))]
    pub fn close<K: Keeper + Drop>(
        &mut self,
        hub: &mut Hub<K>,
        watcher: &mut impl Watcher,
        ending: Ending,
    )
        ensures keeper { hub.new.keeper ≡ hub.old.keeper }
        ensures ran { Went K.Keeper tells hub.old hub.new }
    {
        if self.ending().is_some() {
            return;
        }
        self.phase = Phase::Ended(ending, None);
        if let Some(key) = self.key
            && hub.close(key).is_ok()
        {
            watcher.said(self.at, &close_frame());
        }
    }

    /// Ends it without a word.
    #[tactic(auto, using(crate::proofs::HubRuns::went_none))]
    pub fn give_up<K: Keeper + Drop>(&mut self, hub: &mut Hub<K>, ending: Ending)
        ensures keeper { hub.new.keeper ≡ hub.old.keeper }
        ensures ran { Went K.Keeper parts hub.old hub.new }
    {
        self.phase = Phase::Ended(ending, self.end());
        self.leave(hub);
        self.owed = 0;
    }

    /// Checks it for time-outs. Returns whether it has something to say, is over, or is to be tried again.
    #[tactic(auto, using(crate::proofs::HubRuns::went_none, crate::proofs::HubRuns::as_tells))]
    pub fn judge<K: Keeper + Drop>(
        &mut self,
        hub: &mut Hub<K>,
        watcher: &mut impl Watcher,
        now: Passed,
        idle: u64,
        slow: u64,
    ) -> bool
        ensures keeper { hub.new.keeper ≡ hub.old.keeper }
        ensures ran { Went K.Keeper tells hub.old hub.new }
    {
        if let Some(since) = self.blocked {
            if now.millis().saturating_sub(since) >= slow {
                let ending = self.ending().unwrap_or(Ending::Slow);
                self.give_up(hub, ending);
                return true;
            }
        }
        if self.ending().is_some() {
            return false;
        }
        let may_be_heard = self.may_be_heard(hub);
        if may_be_heard && idle > 0 && self.is_late(hub, now.millis(), idle) {
            let ending = if self.has_failed(hub) {
                Ending::Failed
            } else {
                Ending::Idle
            };
            self.close(hub, watcher, ending);
            return true;
        }
        let beat = self.beat(hub);
        if beat > 0 && now.seen().saturating_sub(self.said) >= beat {
            return self.say_beat(hub, watcher, now.seen());
        }
        may_be_heard && self.phase == Phase::Starved
    }

    /// Returns whether it was silent for `idle` milliseconds, or has been here for as long and its open has not
    /// come.
    fn is_late<K: Keeper + Drop>(&self, hub: &Hub<K>, now: u64, idle: u64) -> bool {
        now.saturating_sub(self.heard) >= idle
            || now.saturating_sub(self.came) >= idle && !self.is_open(hub)
    }

    /// Returns whether its open came.
    fn is_open<K: Keeper + Drop>(&self, hub: &Hub<K>) -> bool {
        match self.endpoint(hub) {
            Some(endpoint) => endpoint.peer().is_some(),
            None => false,
        }
    }

    /// Returns how long after the last write an empty frame is due, by what its open says; 0 is never [2.4.5].
    fn beat<K: Keeper + Drop>(&self, hub: &Hub<K>) -> u64 {
        match self.endpoint(hub) {
            Some(endpoint) => match endpoint.peer() {
                Some(said) => said.idle_time_out.unwrap_or(0) as u64 / 2,
                None => 0,
            },
            None => 0,
        }
    }

    /// Sends an empty frame, which says that this side is there [2.4.5]. Returns whether there is one to write.
    #[tactic(auto, using(crate::proofs::HubRuns::went_none))]
    fn say_beat<K: Keeper + Drop>(
        &mut self,
        hub: &mut Hub<K>,
        watcher: &mut impl Watcher,
        now: u64,
    ) -> bool
        ensures keeper { hub.new.keeper ≡ hub.old.keeper }
        ensures ran { Went K.Keeper tells hub.old hub.new }
    {
        let Some(key) = self.key else {
            return false;
        };
        let beat = hub.heartbeat(key);
        let Some(frame) = self.frame_by(beat) else {
            return false;
        };
        watcher.said(self.at, &frame);
        self.frame = frame;
        self.owed = frame.len();
        self.said = now;
        true
    }

    /// Returns whether an empty frame may come before the answers that wait: after the open, and between two frames.
    fn may_be_told(&self) -> bool {
        self.is_greeted && !self.is_cut && self.owed == 0
    }

    /// Returns the empty frame to send after the hub was asked for one. If answers wait of which nothing was sent, it
    /// comes before them.
    fn frame_by(&self, beat: Result<[u8; 8], HubFault>) -> Option<[u8; 8]> {
        match beat {
            Ok(frame) => Some(frame),
            Err(HubFault::Unsent) if self.may_be_told() => Some(EMPTY_FRAME),
            Err(_) => None,
        }
    }

    /// Notes that its socket takes nothing more.
    fn block(&mut self, now: u64) -> Next {
        if self.blocked.is_none() {
            self.blocked = Some(now);
        }
        Next::Wait
    }

    /// Writes once of what waits for it: what is left of an empty frame, or what the hub lends. Returns how many bytes the
    /// socket took, or `None` if nothing waits.
    #[tactic(auto, using(crate::proofs::HubRuns::went_none))]
    fn write_once<K: Keeper + Drop>(&mut self, hub: &mut Hub<K>) -> io::Result<Option<usize>>
        ensures keeper { hub.new.keeper ≡ hub.old.keeper }
        ensures ran { Went K.Keeper tells hub.old hub.new }
    {
        if self.owed > 0 {
            return Ok(Some(self.write_frame()?));
        }
        let Some(key) = self.key else {
            return Ok(None);
        };
        let front = hub.lend(key);
        if front.is_empty() {
            return Ok(None);
        }
        let count = self.stream.write(front)?;
        hub.sent(key, count);
        self.note_sent(hub, key);
        Ok(Some(count))
    }

    /// Notes what was sent of the answers. Once all were, and its open has come, so was the open that answers it.
    fn note_sent<K: Keeper + Drop>(&mut self, hub: &Hub<K>, key: usize) {
        self.is_cut = hub.waits(key);
        self.is_greeted = self.is_greeted || !self.is_cut && self.is_open(hub);
    }

    /// Writes once of what is left of an empty frame.
    fn write_frame(&mut self) -> io::Result<usize> {
        let taken = self.frame.len().saturating_sub(self.owed);
        let count = self.stream.write(self.frame.get(taken..).unwrap_or(&[]))?;
        self.owed = self.owed.saturating_sub(count);
        Ok(count)
    }

    /// Writes once of what is left of an empty frame, which speaks of no record. What the socket doesn't take is
    /// written with what waits.
    pub fn send_beat(&mut self) {
        if self.owed > 0 {
            let _ = self.write_frame();
        }
    }

    /// Writes what the socket takes of what waits for it, and returns what comes next. The keeper must be settled.
    #[tactic(auto, using(crate::proofs::HubRuns::went_none))]
    pub fn send<K: Keeper + Drop>(&mut self, hub: &mut Hub<K>, now: Passed) -> Next
        requires { K.settled hub.old.keeper ≡ true }
        ensures keeper { hub.new.keeper ≡ hub.old.keeper }
        ensures ran { Went K.Keeper tells hub.old hub.new }
    {
        let was_blocked = self.blocked.is_some();
        for _ in 0..u64::MAX {
            match self.write_once(hub) {
                Ok(None) => break,
                Ok(Some(0)) => return Next::Over(self.ending().unwrap_or(Ending::Write)),
                Ok(Some(_)) => {
                    self.said = now.seen();
                    self.blocked = None;
                }
                Err(error) if error.kind() == ErrorKind::Interrupted => {}
                Err(error) if error.kind() == ErrorKind::WouldBlock => {
                    return self.block(now.millis());
                }
                Err(_) => return Next::Over(self.ending().unwrap_or(Ending::Write)),
            }
        }
        if was_blocked {
            self.heard = now.millis(); // it was not read meanwhile
        }
        match self.ending() {
            Some(ending) => {
                let _ = self.stream.shutdown(Shutdown::Write);
                Next::Over(ending)
            }
            None if self.has_more() => Next::Turn,
            None => Next::Wait,
        }
    }
}

/// Which links may lack credit.
#[derive(Clone, Copy)]
enum Look {
    Nothing,
    Link { channel: u16, handle: u32 },
    /// Those of the sessions on these channels.
    Sessions { first: u16, last: u16 },
}

/// Returns which links of the connection under a key may lack credit after a step that told this. If it is due, that is
/// all.
fn look_behind<K: Keeper + Drop>(told: Outcome, is_due: bool, key: usize, hub: &Hub<K>) -> Look {
    let Some(endpoint) = hub.endpoint(key) else {
        return Look::Nothing;
    };
    let all = Look::Sessions {
        first: 0,
        last: endpoint.config().channel_max() as u16,
    };
    match told {
        _ if is_due => all,
        Outcome::Event(
            Event::Attached { channel, handle }
            | Event::Unfinished { channel, handle }
            | Event::Ready { channel, handle }
            | Event::Aborted { channel, handle }
            | Event::Drained { channel, handle },
        ) => Look::Link { channel, handle },
        Outcome::Event(Event::Settled { channel, .. }) => Look::Sessions {
            first: channel,
            last: channel,
        },
        // a flow may say that the sender has used up credit
        Outcome::More if endpoint.is_between() => all,
        _ => Look::Nothing,
    }
}

/// Returns the first link, from a channel and handle on up to the last channel, that can be granted more credit.
fn next_link<K: Keeper + Drop>(
    key: usize,
    from: (u16, u32),
    last: u16,
    hub: &Hub<K>,
) -> Option<(u16, u32)> {
    let endpoint = hub.endpoint(key)?;
    let (first, mut handle) = from;
    for channel in first..=last {
        if let Some(next) = endpoint.first_lacking(channel, handle, u32::MAX) {
            return Some((channel, next));
        }
        handle = 0;
    }
    None
}

/// Asks an admission what becomes of a link of the connection under a key; `None` if there is no such link.
fn verdict_on<'a, K: Keeper + Drop, D: Admission>(
    admission: &'a mut D,
    key: usize,
    channel: u16,
    handle: u32,
    hub: &Hub<K>,
) -> Option<Verdict<'a>> {
    let endpoint = hub.endpoint(key)?;
    // Not by `?`, of which nothing is proved if the value borrows.
    match endpoint.link(channel, handle) {
        Some(_) => Some(admission.verdict(endpoint, channel, handle)),
        None => None,
    }
}

/// Gives a link of the connection under a key what it lacks of `most` credit.
#[tactic(auto, using(crate::proofs::HubRuns::went_none))]
fn top_up<K: Keeper + Drop>(
    hub: &mut Hub<K>,
    key: usize,
    channel: u16,
    handle: u32,
    most: u32,
) -> Result<(), AskFault>
    ensures keeper { hub.new.keeper ≡ hub.old.keeper }
    ensures ran { Went K.Keeper takes hub.old hub.new }
{
    match hub.top_up_link(key, channel, handle, most) {
        Ok(_) => Ok(()),
        Err(fault) => Err(fault),
    }
}

/// Returns the answers that wait for the peer under a key, after the first `waited` bytes of them.
fn answers_after<K: Keeper + Drop>(hub: &Hub<K>, key: usize, waited: usize) -> &[u8]
    ensures { result.now ≡ drop waited (answers_of (get hub.now.members key)) }
{
    hub.answers(key).get(waited..).unwrap_or(&[])
}

/// Returns the close of this side, as the hub writes it [2.7.9].
fn close_frame() -> [u8; 12]
    ensures { result ≡ joined close_call_spoken }
{
    [0, 0, 0, 12, 2, 0, 0, 0, 0, 0x53, 0x18, 0x45]
}

/// Returns the description of a reason, if it has one.
fn text_of<'a>(reason: &Reason<'a>) -> Option<&'a str> {
    match reason.description {
        Some(text) => str::from_utf8(text).ok(),
        None => None,
    }
}
