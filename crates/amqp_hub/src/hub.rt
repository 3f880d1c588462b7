//! The hub: servers under keys, and one keeper of their records.
ghost use Rattle.std.specs.Prelude.{◌≡◌, ◌↔◌, ◌<◌, ◌+◌, ◌^◌, ◌-◌, [], ℕ, List, true, false, min, IsTrue, IsSome, None, Some, IfOk, IfErr, OnOk, option_map};
ghost use Rattle.amqp_endpoint.specs.Calls.{heartbeat};
ghost use Rattle.amqp_reason.specs.Reasons.{reason_of};
ghost use Rattle.amqp_session.specs.Calls.{Grant, Refuse};
ghost use Rattle.amqp_hub.specs.Keepers.{origin_of};
ghost use Rattle.amqp_hub.specs.Ledgers.{will_take};
ghost use Rattle.amqp_serve.specs.Noting.{stepped_by};
ghost use Rattle.amqp_serve.specs.Servers.{status_after};
ghost use Rattle.amqp_hub.specs.Links.{IsAskedAt, IsToppedUpAt, AskRefused, lacking_at};
ghost use Rattle.amqp_hub.specs.Members.{hear_fault, beat_fault, end_fault, close_fault};
ghost use Rattle.amqp_hub.specs.Turns.{IsOpened, OpenRefused, HearsTo, HearRefusedBy, IsKeptSo, IsGone, IsRuledAt, IsFrontAt, IsLentBy, due_of, answers_of, IsDueAt, SendsAt, IsBeatAt, IsEndedAt, IsClosedAt, AreSame, AreAlike, refusal_at, all_held};
ghost use Rattle.slab.specs.Slab.{get, slab_len};
ghost use Rattle.std.specs.Option.{option_copied};

use crate::keeper::{Keeper, Origin, Progress};
use crate::ledger::Ledger;
use crate::servers::Servers;
use crate::{AskFault, HubFault};
use amqp_endpoint::{Config, End, Endpoint, Event, Fed, Outcome};
use amqp_frame::Device;
use amqp_reason::Reason;
use amqp_serve::{Note, Rule, ServeFault, Stepped};
use std::alloc::{AllocError, Allocator, Global};
use std::marker::Model;
use std::mem;

/// If the room for a record is larger than this, in bytes, it is given back.
const LARGE: usize = 262_144;

/// Connections under keys, up to a limit, and one keeper of their records.
#[derive(Drop)]
pub struct Hub<K: Keeper + Drop, A: Allocator + Copy = Global> {
    servers: Servers<A>,
    keeper: K,
    /// Room for the record of a step.
    recorded: Vec<u8, A>,
    alloc: A,
}

impl<K: Keeper + Drop, A: Allocator + Copy> Model for Hub<K, A> {
    ghost use Rattle.std.specs.Prelude.{◌≡◌, []};
    ghost use Rattle.amqp_hub.specs.Turns.{HubState};

    ghost Value = { HubState K };

    ghost view = { λ a. record { members = a.servers.members; limit = a.servers.limit; keeper = a.keeper } };

    ghost invariant = { λ a. a.recorded.items ≡ [] };
}

impl<K: Keeper + Drop, A: Allocator + Copy> Hub<K, A> {
    /// Makes a hub with no connection, for at most `limit`, whose records the keeper gets. It takes memory for each
    /// connection when that is opened.
    pub fn new(alloc: A, limit: usize, keeper: K) -> Self
        ensures members { result.members.slots ≡ [] }
        ensures limit { result.limit ≡ limit }
        ensures keeper { result.keeper ≡ keeper }
    {
        Hub {
            servers: Servers::new(alloc, limit),
            keeper,
            recorded: Vec::new(alloc),
            alloc,
        }
    }

    /// Returns how many connections are open: those that were opened and not removed.
    pub fn len(&self) -> usize
        ensures { result ≡ slab_len self.now.members }
    {
        self.servers.len()
    }

    /// Returns whether no connection is open.
    pub fn is_empty(&self) -> bool
        ensures { IsTrue result ↔ (slab_len self.now.members ≡ 0) }
    {
        self.servers.is_empty()
    }

    /// Returns whether there is a connection under a key.
    pub fn contains(&self, key: usize) -> bool
        ensures { IsTrue result ↔ IsSome (get self.now.members key) }
    {
        self.servers.contains(key)
    }

    /// Returns the endpoint of the connection under a key, as it stands: what its peer said of itself, its links, and
    /// whether it is over.
    pub fn endpoint(&self, key: usize) -> Option<&Endpoint<A>>
        ensures { option_copied result ≡ option_map (λ m. m.server.endpoint) (get self.now.members key) }
    {
        self.servers.endpoint(key)
    }

    /// Returns the keeper.
    pub fn keeper(&self) -> &K
        ensures { result.now ≡ self.now.keeper }
    {
        &self.keeper
    }

    /// Returns the keeper alone, with all that it was given.
    pub fn into_keeper(self) -> K
        ensures { result ≡ self.keeper }
    {
        self.keeper
    }

    /// Returns what it takes memory of.
    pub(crate) fn alloc(&self) -> A {
        self.alloc
    }

    /// Returns the first bytes that wait for the peer under a key, whether they may be lent or not.
    pub(crate) fn waiting_front(&self, key: usize) -> &[u8]
        ensures { IsFrontAt (get self.now.members key) result.now }
    {
        self.servers.unsent_front(key)
    }

    /// Opens a connection, which waits for its peer's header [2.2], and returns its key, which no other open
    /// connection has. It is served by `rule`. Its records are put under this number.
    ///
    /// # Errors
    ///
    /// `Full` if as many connections are open as may be, else `NoMemory` if memory is refused for it. No
    /// connection has changed then.
    pub fn open(&mut self, config: Config<A>, rule: Rule, number: u64) -> Result<usize, HubFault>
        ensures limit { self.new.limit ≡ self.old.limit }
        ensures keeper { self.new.keeper ≡ self.old.keeper }
        ensures opened { IfOk result (λ key. IsOpened rule config number self.old.members self.new.members key × (slab_len self.old.members < self.old.limit)) }
        ensures refused { IfErr result (λ f. AreSame self.old.members self.new.members × OpenRefused self.old.limit (slab_len self.old.members) f) }
    {
        self.servers.open(config, rule, number)
    }

    /// Takes a piece of what the peer under a key sent, up to the end of one unit, and serves it as
    /// [`amqp_serve::serve_piece`] does. If that made a record, it is put into the keeper under the number of the
    /// connection. The answers wait, and are lent once the keeper is settled. The rest of the piece is for the next
    /// call. No other connection changes.
    ///
    /// If the step results in `NoMemory`, the unit waits, and the next call, also one of no bytes, tries it again.
    /// If it results in `Sink`, since memory was refused for the record, or in `Write`, since it was refused for an
    /// answer, the connection is removed: it has no key any more, and its record is not put.
    ///
    /// # Errors
    ///
    /// The first that holds of `NoRoom`, if the keeper takes no record now; `NoKey`; `Over` if the connection is over,
    /// its input has ended, or this side has closed it; and `Unsent` if [`crate::ANSWERS`] bytes or more wait for its
    /// peer. Nothing has changed then.
    pub fn hear(&mut self, key: usize, piece: &[u8]) -> Result<Stepped, HubFault>
        ensures limit { self.new.limit ≡ self.old.limit }
        ensures room { IfOk result (λ s. K.roomy self.old.keeper ≡ true) }
        ensures heard { IfOk result (λ s. (noted : List ℕ) × HearsTo K.accepts (status_after s.done) self.old.members self.new.members key piece.now s noted self.old.keeper self.new.keeper) }
        ensures refused { IfErr result (λ f. AreSame self.old.members self.new.members × (self.new.keeper ≡ self.old.keeper) × HearRefusedBy (K.roomy self.old.keeper) (refusal_at (get self.old.members key) hear_fault) f) }
    {
        if !self.keeper.has_room() {
            return Err(HubFault::NoRoom);
        }
        let Some(number) = self.servers.number(key) else {
            return Err(HubFault::NoKey);
        };
        let mut sink = Device::new(mem::replace(&mut self.recorded, Vec::new(self.alloc)));
        let mut note = Note::NOTHING;
        let heard = self.servers.hear(key, piece, &mut note, &mut sink);
        let noted = sink.into_inner();
        let heard = match heard {
            Ok((fed, end)) => Ok((fed, self.keep(key, number, &fed, end, &note, &noted))),
            Err(fault) => Err(fault),
        };
        self.recorded = emptied(noted, self.alloc);
        let (fed, end) = heard?;
        Ok(note.stepped(fed, end))
    }

    /// Puts what a step recorded, if it made a record, and returns how the step ended. If memory for that is refused,
    /// the connection is removed, and the step resulted in `Sink`.
    fn keep(
        &mut self,
        key: usize,
        number: u64,
        fed: &Fed,
        end: Result<(), ServeFault>,
        note: &Note,
        noted: &[u8],
    ) -> Result<(), ServeFault>
        requires there { OnOk end (IsSome (get self.old.members key)) }
        requires room { K.roomy self.old.keeper ≡ true }
        ensures limit { self.new.limit ≡ self.old.limit }
        ensures kept { IsKeptSo K.accepts number noted.now self.old.members self.new.members key (stepped_by fed.now end note.now) (stepped_by fed.now result note.now) self.old.keeper self.new.keeper }
    {
        let Some(origin) = origin_of(number, fed, end, note) else {
            return end;
        };
        let Some(endpoint) = self.servers.endpoint(key) else {
            return end;
        };
        if self.keeper.put(origin, endpoint, noted).is_ok() {
            return end;
        }
        let _ = self.servers.remove(key);
        Err(ServeFault::Sink)
    }

    /// Has the keeper take all records for good. `Out` says that it has, so that what waits for peers is lent.
    pub fn settle(&mut self) -> Progress
        ensures limit { self.new.limit ≡ self.old.limit }
        ensures members { self.new.members ≡ self.old.members }
        ensures settles { K.settles self.old.keeper result self.new.keeper }
    {
        self.keeper.settle()
    }

    /// Has the keeper make room for records. `Out` says that pieces are heard.
    pub fn make_room(&mut self) -> Progress
        ensures limit { self.new.limit ≡ self.old.limit }
        ensures members { self.new.members ≡ self.old.members }
        ensures makes_room { K.makes_room self.old.keeper result self.new.keeper }
    {
        self.keeper.make_room()
    }

    /// Returns whether bytes wait for the peer under a key, lent or not.
    pub fn waits(&self, key: usize) -> bool
        ensures { IsTrue result ↔ (0 < due_of (get self.now.members key)) }
    {
        self.servers.waits(key)
    }

    /// Returns the answers that wait for the peer under a key, for a host that watches. What may be sent is lent by
    /// [`Hub::lend`].
    pub fn answers(&self, key: usize) -> &[u8]
        ensures { result.now ≡ answers_of (get self.now.members key) }
    {
        self.servers.answers(key)
    }

    /// Lends the first bytes that wait for the peer under a key, as many as lie in one piece, if the keeper has taken
    /// all records for good. If any wait then, it lends some.
    pub fn lend(&self, key: usize) -> &[u8]
        ensures { IsLentBy (K.settled self.now.keeper) (get self.now.members key) result.now }
    {
        if !self.keeper.is_settled() {
            return &[];
        }
        self.servers.unsent_front(key)
    }

    /// Drops the first `n` bytes that wait for the peer under a key: they were sent. No other connection changes.
    pub fn sent(&mut self, key: usize, n: usize)
        requires { IsDueAt (get self.old.members key) n }
        ensures limit { self.new.limit ≡ self.old.limit }
        ensures keeper { self.new.keeper ≡ self.old.keeper }
        ensures sent { SendsAt (get self.old.members key) self.old.members self.new.members key n }
    {
        self.servers.sent(key, n);
    }

    /// Returns the eight bytes of an empty frame for the peer under a key [2.4.5], which tells it that this side
    /// is there. Send them before anything else. They come between two frames, since nothing waits. No other
    /// connection changes.
    ///
    /// # Errors
    ///
    /// `NoKey`; or `NotOpen` if its input has ended or this side has closed it; or `Unsent` if bytes wait for its
    /// peer, which tell it as much. Else `NotOpen` if its peer's open has not come, or it is over. The first that
    /// holds is named, and no connection has changed then.
    pub fn heartbeat(&mut self, key: usize) -> Result<[u8; 8], HubFault>
        ensures limit { self.new.limit ≡ self.old.limit }
        ensures keeper { self.new.keeper ≡ self.old.keeper }
        ensures beat { IfOk result (λ frame. IsBeatAt self.old.members self.new.members key × (frame ≡ heartbeat)) }
        ensures refused { IfErr result (λ f. AreAlike self.old.members self.new.members × (refusal_at (get self.old.members key) beat_fault ≡ Some f)) }
    {
        self.servers.heartbeat(key)
    }

    /// Ends the input of the connection under a key, and returns how it stood [2.4.6], as `Endpoint::finish` does.
    /// It hears nothing any more, and stays for what waits for its peer. No other connection changes.
    ///
    /// # Errors
    ///
    /// `NoKey`; or `Over` if its input has ended before, or this side has closed it; or `Starved` if a unit waits
    /// for which memory was refused. A piece of no bytes tries that again. The first that holds is named, and no
    /// connection has changed then.
    pub fn finish(&mut self, key: usize) -> Result<End, HubFault>
        ensures limit { self.new.limit ≡ self.old.limit }
        ensures keeper { self.new.keeper ≡ self.old.keeper }
        ensures ended { IfOk result (λ how. IsEndedAt self.old.members self.new.members key how) }
        ensures refused { IfErr result (λ f. AreSame self.old.members self.new.members × (refusal_at (get self.old.members key) end_fault ≡ Some f)) }
    {
        self.servers.finish(key)
    }

    /// Closes the connection under a key [2.4.3]: its close follows what waits for its peer. It hears nothing any
    /// more, and stays for what waits. No other connection changes.
    ///
    /// # Errors
    ///
    /// The first that holds of `NoKey`; and `NotOpen` if its peer's open has not come, it is over, its input has
    /// ended, or this side has closed it: then there is no close to send. No connection has changed then.
    pub fn close(&mut self, key: usize) -> Result<(), HubFault>
        ensures limit { self.new.limit ≡ self.old.limit }
        ensures keeper { self.new.keeper ≡ self.old.keeper }
        ensures closed { OnOk result (IsClosedAt self.old.members self.new.members key) }
        ensures refused { IfErr result (λ f. AreAlike self.old.members self.new.members × (refusal_at (get self.old.members key) close_fault ≡ Some f)) }
    {
        self.servers.close(key)
    }

    /// Refuses a link of the connection under a key with an error [2.6.5]. The detach that says so waits after what waits
    /// for its peer. No other connection changes.
    ///
    /// # Errors
    ///
    /// `NoKey`; `Over` if its input has ended, or this side has closed it; and `Call` with what
    /// [`Endpoint::refuse`] returns: `Dead`, `NoSession`, `NoLink`, `BadError`. The first that holds is named, and
    /// nothing that counts has changed then. `NoMemory` if memory is refused for the detach. The link is refused all
    /// the same. The connection hears nothing any more, and stays for what waits.
    pub fn refuse(
        &mut self,
        key: usize,
        channel: u16,
        handle: u32,
        reason: &Reason<'_>,
    ) -> Result<(), AskFault>
        ensures limit { self.new.limit ≡ self.old.limit }
        ensures keeper { self.new.keeper ≡ self.old.keeper }
        ensures asked { OnOk result (IsAskedAt self.old.members self.new.members key channel (Refuse handle (reason_of reason.now))) }
        ensures refused { IfErr result (λ f. AskRefused f self.old.members self.new.members key channel (Refuse handle (reason_of reason.now))) }
    {
        self.servers.refuse(key, channel, handle, reason)
    }

    /// Gives a link of the connection under a key what it lacks of `most` credit, if at most half of that is left,
    /// within what it is allowed less its credit and its open deliveries [2.6.7]. Returns how much it was granted: 0 if
    /// it lacks nothing, or there is no such link. The flow that says so waits after what waits for the peer. No other
    /// connection changes. It is for a connection that is served by a rule without credit.
    ///
    /// # Errors
    ///
    /// `NoKey`; `Over` if its input has ended, or this side has closed it; and `Call` with `Dead` if it is over. The
    /// first that holds is named, and nothing that counts has changed then. `NoMemory` if memory is refused for the
    /// flow. The link has the credit. The connection hears nothing any more, and stays for what waits.
    pub fn top_up_link(
        &mut self,
        key: usize,
        channel: u16,
        handle: u32,
        most: u32,
    ) -> Result<u32, AskFault>
        ensures limit { self.new.limit ≡ self.old.limit }
        ensures keeper { self.new.keeper ≡ self.old.keeper }
        ensures granted { IfOk result (λ n. IsToppedUpAt self.old.members self.new.members key channel handle most n) }
        ensures refused { IfErr result (λ f. AskRefused f self.old.members self.new.members key channel (Grant handle (lacking_at most channel handle (get self.old.members key)))) }
    {
        self.servers.top_up_link(key, channel, handle, most)
    }

    /// Serves the connection under a key by another rule from its next step on. No other connection changes.
    ///
    /// # Errors
    ///
    /// `NoKey` if there is no connection under it.
    pub fn rule(&mut self, key: usize, rule: Rule) -> Result<(), HubFault>
        ensures limit { self.new.limit ≡ self.old.limit }
        ensures keeper { self.new.keeper ≡ self.old.keeper }
        ensures ruled { OnOk result (IsRuledAt self.old.members self.new.members key rule) }
        ensures refused { IfErr result (λ f. AreSame self.old.members self.new.members × (get self.old.members key ≡ None) × (f ≡ HubFault.NoKey)) }
    {
        self.servers.rule(key, rule)
    }

    /// Removes the connection under a key, with what waits for its peer, and frees the key, which another may then
    /// get. No other connection changes. What the keeper has of it stays.
    ///
    /// # Errors
    ///
    /// `NoKey` if there is no connection under it.
    pub fn remove(&mut self, key: usize) -> Result<(), HubFault>
        ensures limit { self.new.limit ≡ self.old.limit }
        ensures keeper { self.new.keeper ≡ self.old.keeper }
        ensures gone { OnOk result (IsGone self.old.members self.new.members key) }
        ensures refused { IfErr result (λ f. AreSame self.old.members self.new.members × (get self.old.members key ≡ None) × (f ≡ HubFault.NoKey)) }
    {
        self.servers.remove(key)
    }

    /// Returns how many bytes all connections and the keeper hold, or `u64::MAX` if more: those of each endpoint, the
    /// answers that wait, and the records that are not taken for good. It visits every connection.
    pub fn held(&self) -> u64
        ensures { result ≡ min (all_held self.now.members + K.holds self.now.keeper) (2 ^ 64 - 1) }
    {
        self.servers.held().saturating_add(self.keeper.held())
    }
}

/// Returns where the record of a step came from, if the step made one.
fn origin_of(number: u64, fed: &Fed, end: Result<(), ServeFault>, note: &Note) -> Option<Origin>
    ensures { result ≡ origin_of number (stepped_by fed.now end note.now) }
{
    end.ok()?;
    let message = note.received()?;
    let Outcome::Event(Event::Ready { channel, handle }) = fed.outcome else {
        return None;
    };
    Some(Origin {
        number,
        channel,
        handle,
        delivery_tag: message.delivery_tag,
    })
}

/// Returns an empty vector, with the room of this one unless that is large.
fn emptied<A: Allocator + Copy>(room: Vec<u8, A>, alloc: A) -> Vec<u8, A>
    ensures { result.items ≡ [] }
{
    if room.capacity() > LARGE {
        return Vec::new(alloc);
    }
    let mut room = room;
    room.clear();
    room
}

impl<A: Allocator + Copy> Hub<Ledger<A>, A> {
    /// Lets the ledger take at most this many records for good at the next settling, or fail then.
    pub fn will_take(&mut self, most: Option<usize>)
        ensures members { self.new.members ≡ self.old.members }
        ensures limit { self.new.limit ≡ self.old.limit }
        ensures keeper { self.new.keeper ≡ will_take most self.old.keeper }
    {
        self.keeper.will_take(most);
    }
}
