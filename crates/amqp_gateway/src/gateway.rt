//! The gateway: all peers, turn by turn.

ghost use Rattle.slab.specs.Slab.{slab_len};
ghost use Rattle.std.specs.Prelude.{◌≡◌, ◌≤◌, ◌+◌, ◌^◌, ◌-◌, true, min, Err, IsTrue, IfOk, OnErr};
ghost use Rattle.amqp_hub.specs.Turns.{all_held};
ghost use Rattle.amqp_gateway.specs.Gateways.{IsNewGateway, IsStopping, IsGoneOn, IsTurned, IsPlaced, LeavesNone, MayOpen, is_done, is_last};
ghost use Rattle.amqp_gateway.specs.HubCalls.{Went, HasAnswered, IsTurnOf, takes, tells};

use crate::admission::{Admission, Unasked};
use crate::counts::Counts;
use crate::ending::Ending;
use crate::held_up::HeldUp;
use crate::passed::Passed;
use crate::peer::{Came, Desk, Next, PIECE, Peer};
use crate::settings::Settings;
use crate::watcher::Watcher;
use amqp_endpoint::Config;
use amqp_hub::{Hub, Keeper, Progress};
use amqp_serve::Rule;
use mio::event::Event;
use mio::net::{TcpListener, TcpStream};
use mio::unix::SourceFd;
use mio::{Events, Interest, Poll, Token};
use slab::Slab;
use std::alloc::{AllocError, Global};
use std::io::ErrorKind;
use std::marker::Model;
use std::mem;
use std::net::{Net, SocketAddr};
use std::time::Duration;
use thiserror::Error;

const LISTENER: usize = usize::MAX;

const INPUT: usize = usize::MAX - 1;

/// How many connections are accepted in a turn, at most.
const ACCEPTS: usize = 64;

/// How often the peers are checked for time-outs, in milliseconds.
const SWEEP: u64 = 250;

/// How often a keeper that took nothing, or has no room, is asked again, in milliseconds.
const RETRY: u64 = 20;

/// How many events are reported at a time, at most.
const EVENTS: usize = 1024;

/// Why a gateway can't go on.
#[derive(Clone, Copy, Debug, PartialEq, Eq, Drop, Error)]
pub enum GatewayFault {
    /// The system does not report which sockets are ready.
    #[error("Poll")]
    Poll,
    /// A record could not be written, or not be synced to the disk.
    #[error("Sink")]
    Sink,
    /// Memory was refused that the gateway itself needs.
    #[error("NoMemory")]
    NoMemory,
}

impl From<AllocError> for GatewayFault {
    ghost use Rattle.std.specs.Prelude.{◌≡◌};
    ghost use Rattle.amqp_gateway.specs.declared.gateway.GatewayFault.TheVariants.{NoMemory};

    ghost from_gives = { λ _ e. e ≡ NoMemory };

    fn from(_e: AllocError) -> GatewayFault {
        GatewayFault::NoMemory
    }
}

/// Many peers, served in turn.
#[derive(Drop)]
pub struct Gateway<K: Keeper + Drop, W: Watcher + Drop, D: Admission + Drop = Unasked> {
    alloc: Global,
    settings: Settings,
    config: Config,
    rule: Rule,
    poll: Poll,
    events: Events,
    listener: TcpListener,
    may_accept: bool,
    peers: Slab<Peer>,
    desk: Desk<K, W, D>,
    /// Whether records wait for the keeper, so that no peer is heard.
    is_stuck: bool,
    /// Whether the keeper has no room for another record, so that no peer is heard.
    is_full: bool,
    piece: Vec<u8>,
    now: Vec<usize>,
    next: Vec<usize>,
    passed: Passed,
    swept: u64,
    has_input: bool,
    /// Since when it is to end, if it is to.
    stopped: Option<u64>,
}

impl<K: Keeper + Drop, W: Watcher + Drop, D: Admission + Drop> Model for Gateway<K, W, D> {
    ghost use Rattle.std.specs.Prelude.{◌≡◌, false};
    ghost use Rattle.slab.specs.Slab.{slab_len};
    ghost use Rattle.amqp_gateway.specs.Gateways.{GatewayState};

    ghost Value = { GatewayState K };

    ghost view = { λ a. record { settings = a.settings; counts = a.desk.counts; hub = a.desk.hub; peers = slab_len a.peers; stopped = a.stopped } };
}

impl<K: Keeper + Drop, W: Watcher + Drop> Gateway<K, W> {
    /// Makes a gateway that accepts peers at a listener, which must not block. Each peer is served by an endpoint
    /// of these settings and this rule, which grants no credit while the keeper has no room for it. Records go to the
    /// keeper, and the watcher is told what passes. `now` is this moment in milliseconds, counted from any fixed moment.
    ///
    /// # Errors
    ///
    /// `Poll` if the system can't watch the listener, and `NoMemory` if memory is refused.
    pub fn new<R: Net + AllocGlobal>(
        rt: &R,
        listener: TcpListener,
        config: Config,
        rule: Rule,
        settings: Settings,
        keeper: K,
        watcher: W,
        now: u64,
    ) -> Result<Gateway<K, W>, GatewayFault>
        ensures { IfOk result (λ gateway. IsNewGateway settings keeper gateway) }
    {
        Gateway::admitting(
            rt, listener, config, rule, settings, keeper, watcher, Unasked, now,
        )
    }
}

impl<K: Keeper + Drop, W: Watcher + Drop, D: Admission + Drop> Gateway<K, W, D> {
    /// Makes a gateway as [`Gateway::new`] does, whose admission says which links get credit and how much, in place of the
    /// rule. If it is not asked, the rule does.
    ///
    /// # Errors
    ///
    /// `Poll` if the system can't watch the listener, and `NoMemory` if memory is refused.
    pub fn admitting<R: Net + AllocGlobal>(
        rt: &R,
        listener: TcpListener,
        config: Config,
        rule: Rule,
        settings: Settings,
        keeper: K,
        watcher: W,
        admission: D,
        now: u64,
    ) -> Result<Gateway<K, W, D>, GatewayFault>
        ensures { IfOk result (λ gateway. IsNewGateway settings keeper gateway) }
    {
        let alloc = rt.alloc();
        let Ok(poll) = Poll::new(rt) else {
            return Err(GatewayFault::Poll);
        };
        let mut listener = listener;
        if poll
            .registry()
            .register(&mut listener, Token(LISTENER), Interest::READABLE)
            .is_err()
        {
            return Err(GatewayFault::Poll);
        }
        Ok(Gateway {
            alloc,
            settings,
            config,
            rule,
            poll,
            events: Events::with_capacity(alloc, EVENTS)?,
            listener,
            may_accept: true,
            peers: Slab::new(alloc),
            desk: Desk {
                hub: Hub::new(alloc, settings.peers, keeper),
                watcher,
                admission,
                counts: Counts::NONE,
                grants: true,
            },
            is_stuck: false,
            is_full: false,
            piece: Vec::from_elem(alloc, 0, PIECE)?,
            now: Vec::with_capacity(alloc, settings.peers)?,
            next: Vec::with_capacity(alloc, settings.peers)?,
            passed: Passed::new(now),
            swept: 0,
            has_input: false,
            stopped: None,
        })
    }

    /// Lets [`Gateway::input_came`] tell from here on when standard input can be read. Another call makes it tell
    /// again of what is there already.
    ///
    /// # Errors
    ///
    /// `Poll` if the system can't wait for standard input, as for a file.
    pub fn watch_input(&mut self) -> Result<(), GatewayFault>
        ensures { self.new ≡ self.old }
    {
        let registry = self.poll.registry();
        let mut input = SourceFd(&0);
        if registry
            .register(&mut input, Token(INPUT), Interest::READABLE)
            .is_ok()
        {
            return Ok(());
        }
        match registry.reregister(&mut input, Token(INPUT), Interest::READABLE) {
            Ok(()) => Ok(()),
            Err(_) => Err(GatewayFault::Poll),
        }
    }

    /// Returns whether standard input can be read, if it was reported since the last call.
    pub fn input_came(&mut self) -> bool
        ensures { self.new ≡ self.old }
    {
        mem::replace(&mut self.has_input, false)
    }

    /// Makes the gateway end: no more peers are accepted, and each is closed in the next turn. What waits may go
    /// out for the time of grace, from the last turn on. Nothing changes if it is to end already.
    pub fn stop(&mut self)
        ensures { IsStopping self.old self.new }
    {
        if self.stopped.is_none() {
            self.stopped = Some(self.passed.seen());
            self.swept = 0;
        }
    }

    /// Returns whether it has ended: all peers are gone, and no more come.
    pub fn is_done(&self) -> bool
        ensures { result ≡ is_done self.entry.now }
    {
        self.is_last() && self.peers.is_empty()
    }

    /// Returns whether no more peers are accepted.
    fn is_last(&self) -> bool
        ensures { result ≡ is_last self.entry.now }
    {
        let most = self.settings.connections;
        self.stopped.is_some() || most > 0 && self.desk.counts.accepted >= most
    }

    /// Returns how many peers there are.
    pub fn open(&self) -> usize
        ensures { result ≡ self.entry.now.peers }
    {
        self.peers.len()
    }

    /// Returns what it counted.
    pub fn counts(&self) -> Counts
        ensures { result ≡ self.entry.now.counts }
    {
        self.desk.counts
    }

    /// Returns the keeper.
    pub fn keeper(&self) -> &K
        ensures { result.now ≡ self.entry.now.hub.keeper }
    {
        self.desk.hub.keeper()
    }

    /// Returns what the keeper holds up, if it holds up anything.
    pub fn held_up(&self) -> Option<HeldUp> {
        if self.is_stuck {
            Some(HeldUp::Records)
        } else if self.is_full {
            Some(HeldUp::Peers)
        } else if !self.desk.grants {
            Some(HeldUp::Credit)
        } else {
            None
        }
    }

    /// Returns how many bytes the endpoints of all peers hold, with what waits for the peers, what came from them and
    /// the records that wait in the keeper; `u64::MAX` if more. It visits all peers.
    pub fn held(&self) -> u64
        ensures { min (all_held self.entry.now.hub.members + K.holds self.entry.now.hub.keeper) (2 ^ 64 - 1) ≤ result }
    {
        let mut sum = self.desk.hub.held();
        for (_, peer) in self.peers.iter() {
            sum = sum.saturating_add(peer.held());
        }
        sum
    }

    /// Makes one turn at the moment `now`, in milliseconds: takes what ready peers sent, has the keeper take their
    /// records for good, and then sends the answers. It does not wait, unless the keeper does. No answer is sent before
    /// the keeper has taken the record that it answers.
    ///
    /// While records wait for the keeper, or it has no room for another, no peer is accepted or heard, and what passes
    /// counts for no time-out of a peer. Empty frames go out all the same [2.4.5].
    ///
    /// Once it is to end, no peer is accepted, and after the time of grace all that are left are closed.
    ///
    /// # Errors
    ///
    /// `Sink` if the keeper has failed, or has not taken all within the time of grace. Each peer is gone then, and
    /// none was sent an answer to a record that waits. `NoMemory` if memory for the gateway itself is refused.
    #[tactic(auto, using(crate::proofs::HubRuns::went_none))]
    pub fn turn<R: Eprint>(&mut self, rt: &R, now: u64) -> Result<(), GatewayFault>
        ensures turned { IsTurned self.old self.new }
        ensures gone { LeavesNone result self.new }
        ensures ran { IsTurnOf K.Keeper result self.old.hub self.new.hub }
    {
        self.take_time(now);
        self.note_events()?;
        self.take_all(rt)?;
        self.answer_all(rt)?;
        self.look_at_times(rt)
    }

    /// Takes the caller's time, which counts for the peers if they can be heard.
    fn take_time(&mut self, now: u64)
        ensures { self.new ≡ self.old }
    {
        if self.is_stuck || self.is_full {
            self.passed.stand_still(now);
        } else {
            self.passed.go_on(now);
        }
    }

    /// Has the peers served that are in the queue of the next turn.
    fn take_queue(&mut self)
        ensures { self.new ≡ self.old }
    {
        mem::swap(&mut self.now, &mut self.next);
    }

    /// Accepts peers, and takes what ready ones sent, unless records wait for the keeper or it has no room.
    #[tactic(auto, using(crate::proofs::HubRuns::went_none))]
    fn take_all<R: Eprint>(&mut self, rt: &R) -> Result<(), GatewayFault>
        ensures turned { IsTurned self.old self.new }
        ensures gone { LeavesNone result self.new }
        ensures ran { Went K.Keeper takes self.old.hub self.new.hub }
        ensures fault { OnErr result (result ≡ Err GatewayFault.NoMemory) }
    {
        if self.is_stuck {
            return Ok(());
        }
        self.look_at_room()?;
        if self.is_full {
            self.take_queue();
            return Ok(());
        }
        self.accept_some(rt)?;
        self.take_queue();
        self.hear_all(rt)
    }

    /// Asks the keeper whether it has room for a record, and whether it has room for what links may send for more credit.
    #[tactic(auto, using(crate::proofs::HubRuns::went_none))]
    fn look_at_room(&mut self) -> Result<(), GatewayFault>
        ensures gone_on { IsGoneOn self.old self.new }
        ensures gone { LeavesNone result self.new }
        ensures ran { Went K.Keeper takes self.old.hub self.new.hub }
        ensures fault { OnErr result (result ≡ Err GatewayFault.NoMemory) }
    {
        self.is_full = self.desk.hub.make_room() != Progress::Out;
        let grants = self.desk.hub.keeper().may_grant();
        if grants == self.desk.grants {
            return Ok(());
        }
        self.desk.grants = grants;
        self.follow_all()
    }

    /// Has each peer served by the rule of now.
    #[tactic(auto, using(crate::proofs::HubRuns::went_none))]
    fn follow_all(&mut self) -> Result<(), GatewayFault>
        ensures gone_on { IsGoneOn self.old self.new }
        ensures gone { LeavesNone result self.new }
        ensures outlet { self.new.hub.keeper ≡ self.old.hub.keeper }
        ensures ran { Went K.Keeper takes self.old.hub self.new.hub }
        ensures fault { OnErr result (result ≡ Err GatewayFault.NoMemory) }
    {
        for at in 0..self.peers.capacity() {
            self.follow(at)?;
        }
        Ok(())
    }

    #[tactic(auto, using(crate::proofs::HubRuns::went_none))]
    fn follow(&mut self, at: usize) -> Result<(), GatewayFault>
        ensures gone_on { IsGoneOn self.old self.new }
        ensures gone { LeavesNone result self.new }
        ensures outlet { self.new.hub.keeper ≡ self.old.hub.keeper }
        ensures ran { Went K.Keeper takes self.old.hub self.new.hub }
        ensures fault { OnErr result (result ≡ Err GatewayFault.NoMemory) }
    {
        let rule = self.rule_of_now();
        let Some(peer) = self.peers.get_mut(at) else {
            return Ok(());
        };
        peer.follow(&mut self.desk.hub, rule, self.desk.grants);
        if peer.queue() {
            put(&mut self.next, at)?;
        }
        Ok(())
    }

    /// Returns the rule by which peers are served now: without credit if there is no room for it, or an admission is
    /// asked first.
    fn rule_of_now(&self) -> Rule {
        if self.desk.grants && !self.desk.admission.asks() {
            self.rule
        } else {
            Rule::without_credit(self.rule.outcome)
        }
    }

    /// Ends all that are left once the time of grace is over, or else checks the peers for time-outs.
    #[tactic(auto, using(crate::proofs::HubRuns::went_none))]
    fn look_at_times<R: Eprint>(&mut self, rt: &R) -> Result<(), GatewayFault>
        ensures gone_on { IsGoneOn self.old self.new }
        ensures gone { LeavesNone result self.new }
        ensures ran { Went K.Keeper tells self.old.hub self.new.hub }
    {
        if self.has_no_grace() {
            return self.end_stopped(rt);
        }
        self.sweep()
    }

    /// Waits for what comes next, but at most `most` milliseconds, and not at all if a turn is due.
    ///
    /// # Errors
    ///
    /// `Poll` if the system does not report which sockets are ready.
    pub fn wait(&mut self, most: u64) -> Result<(), GatewayFault>
        ensures { self.new ≡ self.old }
    {
        let millis = self.pause(most);
        self.passed.wait(millis);
        match self
            .poll
            .poll(&mut self.events, Some(Duration::from_millis(millis)))
        {
            Ok(()) => Ok(()),
            Err(error) if error.kind() == ErrorKind::Interrupted => Ok(()),
            Err(_) => Err(GatewayFault::Poll),
        }
    }

    /// Returns for how many milliseconds it may wait, at most `most`.
    fn pause(&self, most: u64) -> u64
        ensures { result ≤ most }
    {
        if self.is_stuck || self.is_full {
            most.min(RETRY)
        } else if !self.next.is_empty() || self.may_open() || self.is_done() {
            0
        } else {
            most.min(SWEEP)
        }
    }

    /// Notes which sockets are ready.
    fn note_events(&mut self) -> Result<(), GatewayFault>
        ensures same { self.new ≡ self.old }
        ensures gone { LeavesNone result self.new }
        ensures fault { OnErr result (result ≡ Err GatewayFault.NoMemory) }
    {
        let came = note_all(&self.events, &mut self.peers, &mut self.next)?;
        self.may_accept = self.may_accept || came.listener;
        self.has_input = self.has_input || came.input;
        Ok(())
    }

    /// Returns whether another peer may be accepted.
    fn may_open(&self) -> bool
        ensures { IsTrue result → MayOpen self.entry.now }
    {
        self.may_accept && !self.is_last() && self.peers.len() < self.settings.peers
    }

    #[tactic(auto, using(crate::proofs::HubRuns::went_none))]
    fn accept_some<R: Eprint>(&mut self, rt: &R) -> Result<(), GatewayFault>
        ensures turned { IsTurned self.old self.new }
        ensures gone { LeavesNone result self.new }
        ensures outlet { self.new.hub.keeper ≡ self.old.hub.keeper }
        ensures ran { Went K.Keeper takes self.old.hub self.new.hub }
        ensures fault { OnErr result (result ≡ Err GatewayFault.NoMemory) }
    {
        for _ in 0..ACCEPTS {
            if !self.may_open() {
                break;
            }
            match self.listener.accept() {
                Ok((stream, address)) => self.open_one(rt, stream, address)?,
                Err(error) if error.kind() == ErrorKind::Interrupted => {}
                Err(error) if error.kind() == ErrorKind::ConnectionAborted => {}
                // None waits, or there are too few descriptors. It is tried again when a peer ends, and from time
                // to time.
                Err(_) => self.may_accept = false,
            }
        }
        Ok(())
    }

    #[tactic(auto, using(crate::proofs::HubRuns::went_none))]
    fn open_one<R: Eprint>(
        &mut self,
        rt: &R,
        stream: TcpStream,
        address: SocketAddr,
    ) -> Result<(), GatewayFault>
        requires { MayOpen self.old }
        ensures turned { IsTurned self.old self.new }
        ensures gone { LeavesNone result self.new }
        ensures outlet { self.new.hub.keeper ≡ self.old.hub.keeper }
        ensures ran { Went K.Keeper takes self.old.hub self.new.hub }
        ensures fault { OnErr result (result ≡ Err GatewayFault.NoMemory) }
    {
        self.desk.counts.accepted = self.desk.counts.accepted.saturating_add(1);
        let number = self.desk.counts.accepted;
        let _ = eprintln!(rt; "connection {number}: from {address}");
        let at = match self.place(number, stream, address) {
            Ok(at) => at,
            Err(ending) => {
                self.desk.hub.keeper().left(number);
                self.note_end(rt, number, ending);
                return Ok(());
            }
        };
        self.desk.watcher.met(at, number, address);
        put(&mut self.next, at)?;
        Ok(())
    }

    /// Makes a peer of a stream, and returns its place, or how its connection ends at once: `NoMemory` or `Poll`.
    #[tactic(auto, using(crate::proofs::HubRuns::went_none))]
    fn place(&mut self, number: u64, stream: TcpStream, from: SocketAddr) -> Result<usize, Ending>
        ensures opened { IsPlaced self.old self.new }
        ensures outlet { self.new.hub.keeper ≡ self.old.hub.keeper }
        ensures ran { Went K.Keeper takes self.old.hub self.new.hub }
    {
        let Ok(()) = self.meet(number, from) else {
            return Err(Ending::NoMemory);
        };
        let Ok(config) = self.config.copy(self.alloc) else {
            return Err(Ending::NoMemory);
        };
        let rule = self.rule_of_now();
        let Ok(key) = self.desk.hub.open(config, rule, number) else {
            return Err(Ending::NoMemory);
        };
        let peer = Peer::new(self.alloc, number, key, stream, self.passed);
        let Ok(at) = self.peers.insert(peer) else {
            let _ = self.desk.hub.remove(key);
            return Err(Ending::NoMemory);
        };
        if let Some(peer) = self.peers.get_mut(at) {
            let _ = peer.queue();
            if peer.register(self.poll.registry(), at).is_err() {
                let _ = self.desk.hub.remove(key);
                let _ = self.peers.try_remove(at);
                return Err(Ending::Poll);
            }
        }
        Ok(at)
    }

    /// Notes at the keeper where a connection comes from.
    fn meet(&self, number: u64, from: SocketAddr) -> Result<(), AllocError> {
        let from = format!(in self.alloc; "{from}")?;
        self.desk.hub.keeper().met(number, from.as_str())
    }

    /// Takes what each ready peer sent, as long as the keeper has room for the records.
    #[tactic(auto, using(crate::proofs::HubRuns::went_none))]
    fn hear_all<R: Eprint>(&mut self, rt: &R) -> Result<(), GatewayFault>
        ensures gone_on { IsGoneOn self.old self.new }
        ensures gone { LeavesNone result self.new }
        ensures ran { Went K.Keeper takes self.old.hub self.new.hub }
        ensures fault { OnErr result (result ≡ Err GatewayFault.NoMemory) }
    {
        for place in 0..self.now.len() {
            let Some(at) = self.now.get(place).copied() else {
                break;
            };
            self.hear(rt, at);
            self.look_at_room()?;
            if self.is_full {
                break;
            }
        }
        Ok(())
    }

    /// Takes a piece of what a peer sent.
    #[tactic(auto, using(crate::proofs::HubRuns::went_none))]
    fn hear<R: Eprint>(&mut self, rt: &R, at: usize)
        ensures gone_on { IsGoneOn self.old self.new }
        ensures ran { Went K.Keeper takes self.old.hub self.new.hub }
    {
        let Some(peer) = self.peers.get_mut(at) else {
            return;
        };
        peer.hear_again(self.alloc, self.passed.millis(), &mut self.desk, rt);
        if !peer.may_be_read(&self.desk.hub) {
            return;
        }
        match peer.read(&mut self.piece, &self.desk.hub, self.passed.millis()) {
            Came::Bytes(count) => {
                let bytes = self.piece.get(..count).unwrap_or(&[]);
                peer.hear(bytes, &mut self.desk, rt);
            }
            Came::Nothing => {}
            Came::End => peer.finish(&mut self.desk.hub),
        }
    }

    /// Has the keeper take the records of the turn, and then sends the answers to them.
    #[tactic(auto, using(crate::proofs::HubRuns::went_none))]
    fn answer_all<R: Eprint>(&mut self, rt: &R) -> Result<(), GatewayFault>
        ensures gone_on { IsGoneOn self.old self.new }
        ensures gone { LeavesNone result self.new }
        ensures ran { HasAnswered K.Keeper self.old.hub self.new.hub }
    {
        let progress = self.desk.hub.settle();
        self.is_stuck = progress != Progress::Out;
        match progress {
            Progress::Out => self.send_all(rt),
            Progress::Stuck => Ok(()),
            Progress::Failed => {
                self.end_all(rt, Ending::Sink);
                Err(GatewayFault::Sink)
            }
        }
    }

    /// Sends the answers of the turn.
    #[tactic(auto, using(crate::proofs::HubRuns::went_none))]
    fn send_all<R: Eprint>(&mut self, rt: &R) -> Result<(), GatewayFault>
        requires { K.settled self.old.hub.keeper ≡ true }
        ensures gone_on { IsGoneOn self.old self.new }
        ensures gone { LeavesNone result self.new }
        ensures ran { Went K.Keeper tells self.old.hub self.new.hub }
    {
        for place in 0..self.now.len() {
            if let Some(at) = self.now.get(place).copied() {
                self.send(rt, at)?;
            }
        }
        self.now.clear();
        Ok(())
    }

    /// Sends what waits for a peer. No record waits that the answers may speak of.
    #[tactic(auto, using(crate::proofs::HubRuns::went_none))]
    fn send<R: Eprint>(&mut self, rt: &R, at: usize) -> Result<(), GatewayFault>
        requires { K.settled self.old.hub.keeper ≡ true }
        ensures gone_on { IsGoneOn self.old self.new }
        ensures gone { LeavesNone result self.new }
        ensures outlet { self.new.hub.keeper ≡ self.old.hub.keeper }
        ensures ran { Went K.Keeper tells self.old.hub self.new.hub }
    {
        let now = self.passed;
        let Some(peer) = self.peers.get_mut(at) else {
            return Ok(());
        };
        match peer.send(&mut self.desk.hub, now) {
            Next::Turn => put(&mut self.next, at)?,
            Next::Wait => peer.leave_queue(),
            Next::Over(ending) => self.remove(rt, at, ending),
        }
        Ok(())
    }

    #[tactic(auto, using(crate::proofs::HubRuns::went_none, crate::proofs::HubRuns::as_tells))]
    fn remove<R: Eprint>(&mut self, rt: &R, at: usize, ending: Ending)
        ensures gone_on { IsGoneOn self.old self.new }
        ensures outlet { self.new.hub.keeper ≡ self.old.hub.keeper }
        ensures ran { Went K.Keeper tells self.old.hub self.new.hub }
    {
        let Some(mut peer) = self.peers.try_remove(at) else {
            return;
        };
        peer.leave(&mut self.desk.hub);
        self.desk.hub.keeper().left(peer.number());
        self.desk.watcher.ended(at, ending, peer.end());
        self.may_accept = true; // an accept that failed for want of a descriptor is tried again
        self.note_end(rt, peer.number(), ending);
    }

    fn note_end<R: Eprint>(&mut self, rt: &R, number: u64, ending: Ending)
        ensures gone_on { IsGoneOn self.old self.new }
        ensures peers { self.new.peers ≡ self.old.peers }
        ensures hub { self.new.hub ≡ self.old.hub }
    {
        self.desk.counts.end(ending);
        let _ = eprintln!(rt; "connection {number}: {ending}");
    }

    /// Returns whether it is to end and the time of grace is over.
    fn has_no_grace(&self) -> bool {
        match self.stopped {
            Some(since) => self.passed.seen().saturating_sub(since) >= self.settings.grace,
            None => false,
        }
    }

    /// Ends all that are left once the time of grace is over.
    #[tactic(auto, using(crate::proofs::HubRuns::went_none))]
    fn end_stopped<R: Eprint>(&mut self, rt: &R) -> Result<(), GatewayFault>
        ensures gone_on { IsGoneOn self.old self.new }
        ensures gone { LeavesNone result self.new }
        ensures ran { Went K.Keeper tells self.old.hub self.new.hub }
    {
        let is_settled = self.desk.hub.keeper().is_settled();
        self.end_all(rt, Ending::Stopped);
        if is_settled {
            Ok(())
        } else {
            Err(GatewayFault::Sink)
        }
    }

    /// Checks the peers for time-outs.
    #[tactic(auto, using(crate::proofs::HubRuns::went_none))]
    fn sweep(&mut self) -> Result<(), GatewayFault>
        ensures gone_on { IsGoneOn self.old self.new }
        ensures gone { LeavesNone result self.new }
        ensures ran { Went K.Keeper tells self.old.hub self.new.hub }
    {
        let now = self.passed;
        if now.seen() < self.swept {
            return Ok(());
        }
        self.swept = now.seen().saturating_add(SWEEP);
        self.may_accept = true;
        for at in 0..self.peers.capacity() {
            self.judge(at, now)?;
        }
        Ok(())
    }

    #[tactic(auto, using(crate::proofs::HubRuns::went_none))]
    fn judge(&mut self, at: usize, now: Passed) -> Result<(), GatewayFault>
        ensures gone_on { IsGoneOn self.old self.new }
        ensures gone { LeavesNone result self.new }
        ensures ran { Went K.Keeper tells self.old.hub self.new.hub }
    {
        let Some(peer) = self.peers.get_mut(at) else {
            return Ok(());
        };
        let Desk { hub, watcher, .. } = &mut self.desk;
        let mut speaks = false;
        if self.stopped.is_some() {
            peer.close(hub, watcher, Ending::Stopped);
            speaks = true;
        }
        let Settings { idle, slow, .. } = self.settings;
        speaks = peer.judge(hub, watcher, now, idle, slow) || speaks;
        peer.send_beat();
        if speaks && peer.queue() {
            put(&mut self.next, at)?;
        }
        Ok(())
    }

    /// Ends all peers at once, for a gateway that goes on no more, and waits for none. If no records wait, each
    /// open peer is sent a close.
    #[tactic(auto, using(crate::proofs::HubRuns::went_none))]
    pub fn end_all<R: Eprint>(&mut self, rt: &R, ending: Ending)
        ensures gone_on { IsGoneOn self.old self.new }
        ensures none { self.new.peers ≡ 0 }
        ensures ran { Went K.Keeper tells self.old.hub self.new.hub }
    {
        for at in 0..self.peers.capacity() {
            self.end_one(rt, at, ending);
        }
        self.peers.clear();
        self.now.clear();
        self.next.clear();
    }

    /// Closes one peer, and waits for nothing. If records wait, the peer is dropped without a word, since its
    /// answers may speak of them.
    #[tactic(auto, using(crate::proofs::HubRuns::went_none))]
    fn end_one<R: Eprint>(&mut self, rt: &R, at: usize, ending: Ending)
        ensures gone_on { IsGoneOn self.old self.new }
        ensures outlet { self.new.hub.keeper ≡ self.old.hub.keeper }
        ensures ran { Went K.Keeper tells self.old.hub self.new.hub }
    {
        let Some(peer) = self.peers.get_mut(at) else {
            return;
        };
        let Desk { hub, watcher, .. } = &mut self.desk;
        if !hub.keeper().is_settled() {
            let how = peer.ending().unwrap_or(ending);
            return self.remove(rt, at, how);
        }
        peer.close(hub, watcher, ending);
        let how = match peer.send(hub, self.passed) {
            Next::Over(how) => how,
            _ => ending,
        };
        self.remove(rt, at, how);
    }
}

/// What became ready besides peers.
#[derive(Clone, Copy)]
struct Besides {
    listener: bool,
    input: bool,
}

/// Puts the peers that are ready into a queue. Returns what else is ready.
fn note_all(
    events: &Events,
    peers: &mut Slab<Peer>,
    next: &mut Vec<usize>,
) -> Result<Besides, GatewayFault>
    ensures peers { slab_len peers.new ≡ slab_len peers.old }
    ensures fault { OnErr result (result ≡ Err GatewayFault.NoMemory) }
{
    let mut besides = Besides {
        listener: false,
        input: false,
    };
    for event in events {
        match event.token().0 {
            LISTENER => besides.listener = true,
            INPUT => besides.input = true,
            at => note_peer(event, at, peers, next)?,
        }
    }
    Ok(besides)
}

/// Puts a peer that is ready into a queue, unless it is in one.
fn note_peer(
    event: &Event,
    at: usize,
    peers: &mut Slab<Peer>,
    next: &mut Vec<usize>,
) -> Result<(), GatewayFault>
    ensures peers { slab_len peers.new ≡ slab_len peers.old }
    ensures fault { OnErr result (result ≡ Err GatewayFault.NoMemory) }
{
    let Some(peer) = peers.get_mut(at) else {
        return Ok(());
    };
    peer.note(event);
    if peer.queue() {
        put(next, at)?;
    }
    Ok(())
}

/// Puts a peer at the end of a queue.
fn put(queue: &mut Vec<usize>, at: usize) -> Result<(), GatewayFault>
    ensures { OnErr result (result ≡ Err GatewayFault.NoMemory) }
{
    match queue.push(at) {
        Ok(()) => Ok(()),
        Err(_) => Err(GatewayFault::NoMemory),
    }
}
