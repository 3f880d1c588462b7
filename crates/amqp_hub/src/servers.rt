//! Servers under keys.
ghost use Rattle.std.specs.Prelude.{◌≡◌, ◌↔◌, ◌<◌, ◌^◌, ◌-◌, [], min, IsTrue, IsSome, None, Some, IfOk, IfErr, OnOk, option_map};
ghost use Rattle.amqp_endpoint.specs.Calls.{heartbeat};
ghost use Rattle.amqp_frame.specs.Devices.{device_inner, has_failed};
ghost use Rattle.amqp_serve.specs.Deeds.{filled};
ghost use Rattle.amqp_serve.specs.Noting.{done_of, stepped_by};
ghost use Rattle.amqp_serve.specs.Servers.{status_after};
ghost use Rattle.amqp_reason.specs.Reasons.{reason_of};
ghost use Rattle.amqp_session.specs.Calls.{Grant, Refuse};
ghost use Rattle.amqp_hub.specs.Links.{IsAskedAt, IsToppedUpAt, AskRefused, lacking_at};
ghost use Rattle.amqp_hub.specs.Members.{hear_fault, beat_fault, end_fault, close_fault};
ghost use Rattle.amqp_hub.specs.Turns.{IsOpened, OpenRefused, IsHeardAt, HearsBy, IsGone, IsRuledAt, is_lost, due_of, answers_of, IsFrontAt, IsDueAt, SendsAt, IsBeatAt, IsEndedAt, IsClosedAt, AreSame, AreAlike, refusal_at, all_held};
ghost use Rattle.slab.specs.Slab.{get, slab_len};
ghost use Rattle.std.specs.Option.{option_copied};

use crate::member::Member;
use crate::{AskFault, HubFault};
use amqp_endpoint::{Config, End, Endpoint, Fed};
use amqp_frame::Device;
use amqp_reason::Reason;
use amqp_serve::{Done, Note, Rule, ServeFault};
use slab::Slab;
use std::alloc::{Allocator, Global};
use std::io::Write;
use std::marker::Model;

/// Connections under keys, up to a limit.
#[derive(Drop)]
pub struct Servers<A: Allocator + Copy = Global> {
    members: Slab<Member<A>, A>,
    limit: usize,
    alloc: A,
}

impl<A: Allocator + Copy> Model for Servers<A> {
    ghost use Rattle.amqp_hub.specs.Turns.{ServersState};

    ghost Value = { ServersState };

    ghost view = { λ a. record { members = a.members; limit = a.limit } };
}

impl<A: Allocator + Copy> Servers<A> {
    /// Makes servers of no connection yet, for at most `limit`. It takes memory for each connection when that is
    /// opened.
    pub fn new(alloc: A, limit: usize) -> Self
        ensures members { result.members.slots ≡ [] }
        ensures limit { result.limit ≡ limit }
    {
        Servers {
            members: Slab::new(alloc),
            limit,
            alloc,
        }
    }

    /// Returns how many connections are open: those that were opened and not removed.
    pub fn len(&self) -> usize
        ensures { result ≡ slab_len self.now.members }
    {
        self.members.len()
    }

    /// Returns whether no connection is open.
    pub fn is_empty(&self) -> bool
        ensures { IsTrue result ↔ (slab_len self.now.members ≡ 0) }
    {
        self.members.len() == 0
    }

    /// Returns whether there is a connection under a key.
    pub fn contains(&self, key: usize) -> bool
        ensures { IsTrue result ↔ IsSome (get self.now.members key) }
    {
        self.members.contains(key)
    }

    /// Returns the endpoint of the connection under a key, as it stands: what its peer said of itself, its links, and
    /// whether it is over.
    pub fn endpoint(&self, key: usize) -> Option<&Endpoint<A>>
        ensures { option_copied result ≡ option_map (λ m. m.server.endpoint) (get self.now.members key) }
    {
        match self.members.get(key) {
            Some(member) => Some(member.endpoint()),
            None => None,
        }
    }

    /// Returns the number of the connection under a key.
    pub fn number(&self, key: usize) -> Option<u64>
        ensures { result ≡ option_map (λ m. m.number) (get self.now.members key) }
    {
        match self.members.get(key) {
            Some(member) => Some(member.number()),
            None => None,
        }
    }

    /// Opens a connection, which waits for its peer's header [2.2], and returns its key, which no other open
    /// connection has. It is served by `rule`, and has this number.
    ///
    /// # Errors
    ///
    /// `Full` if as many connections are open as may be, else `NoMemory` if memory is refused for it. No
    /// connection has changed then.
    pub fn open(&mut self, config: Config<A>, rule: Rule, number: u64) -> Result<usize, HubFault>
        ensures limit { self.new.limit ≡ self.old.limit }
        ensures opened { IfOk result (λ key. IsOpened rule config number self.old.members self.new.members key × (slab_len self.old.members < self.old.limit)) }
        ensures refused { IfErr result (λ f. AreSame self.old.members self.new.members × OpenRefused self.old.limit (slab_len self.old.members) f) }
    {
        if self.members.len() >= self.limit {
            return Err(HubFault::Full);
        }
        let Ok(member) = Member::new(self.alloc, config, rule, number) else {
            return Err(HubFault::NoMemory);
        };
        let Ok(key) = self.members.insert(member) else {
            return Err(HubFault::NoMemory);
        };
        Ok(key)
    }

    /// Serves a piece of what the peer under a key sent, up to the end of one unit, and notes what was done. The answers
    /// wait for the peer, and the record goes to the sink. If the step results in `Write` or `Sink`, the connection is removed.
    ///
    /// # Errors
    ///
    /// `NoKey`, or what [`Member::hear_fault`] returns. Nothing has changed then.
    pub fn hear<S: Write + Drop>(
        &mut self,
        key: usize,
        piece: &[u8],
        note: &mut Note,
        sink: &mut Device<S>,
    ) -> Result<(Fed, Result<(), ServeFault>), HubFault>
        requires sink { ¬ (IsTrue (has_failed sink.old)) }
        ensures limit { self.new.limit ≡ self.old.limit }
        ensures heard { IfOk result (λ x. HearsBy (status_after (filled x.1 (done_of note.new))) self.old.members self.new.members key piece.now (stepped_by x.0 x.1 note.new)
            (S.contents (device_inner sink.old)) (S.contents (device_inner sink.new))) }
        ensures refused { IfErr result (λ f. AreSame self.old.members self.new.members × (refusal_at (get self.old.members key) hear_fault ≡ Some f)) }
        ensures unused { IfErr result (λ f. sink.new ≡ sink.old) }
    {
        let (fed, end) = self.hear_there(key, piece, note, sink)?;
        if is_lost(end) {
            self.members.remove(key);
        }
        Ok((fed, end))
    }

    /// Takes a piece of what the peer under a key sent, serves it, and notes what was done. If serving breaks off, the connection keeps
    /// its key, and is broken.
    fn hear_there<S: Write + Drop>(
        &mut self,
        key: usize,
        piece: &[u8],
        note: &mut Note,
        sink: &mut Device<S>,
    ) -> Result<(Fed, Result<(), ServeFault>), HubFault>
        requires sink { ¬ (IsTrue (has_failed sink.old)) }
        ensures limit { self.new.limit ≡ self.old.limit }
        ensures heard { IfOk result (λ x. IsHeardAt self.old.members self.new.members key piece.now (stepped_by x.0 x.1 note.new)
            (S.contents (device_inner sink.old)) (S.contents (device_inner sink.new))) }
        ensures refused { IfErr result (λ f. AreSame self.old.members self.new.members × (refusal_at (get self.old.members key) hear_fault ≡ Some f)) }
        ensures unused { IfErr result (λ f. sink.new ≡ sink.old) }
    {
        let alloc = self.alloc;
        let Some(member) = self.members.get_mut(key) else {
            return Err(HubFault::NoKey);
        };
        if let Some(fault) = member.hear_fault() {
            return Err(fault);
        }
        Ok(member.hear(alloc, piece, note, sink))
    }

    /// Returns the answers that wait for the peer under a key; its last bytes after its end are not among them.
    pub fn answers(&self, key: usize) -> &[u8]
        ensures { result.now ≡ answers_of (get self.now.members key) }
    {
        match self.members.get(key) {
            Some(member) => member.answers(),
            None => &[],
        }
    }

    /// Returns whether bytes wait for the peer under a key.
    pub fn waits(&self, key: usize) -> bool
        ensures { IsTrue result ↔ (0 < due_of (get self.now.members key)) }
    {
        !self.unsent_front(key).is_empty()
    }

    /// Returns the first bytes that wait for the peer under a key, as many as lie in one piece. If any wait, it
    /// returns some; if there is no connection, it returns none.
    pub fn unsent_front(&self, key: usize) -> &[u8]
        ensures { IsFrontAt (get self.now.members key) result.now }
    {
        let Some(member) = self.members.get(key) else {
            return &[];
        };
        member.unsent_front()
    }

    /// Drops the first `n` bytes that wait for the peer under a key: they were sent. No other connection changes.
    pub fn sent(&mut self, key: usize, n: usize)
        requires { IsDueAt (get self.old.members key) n }
        ensures limit { self.new.limit ≡ self.old.limit }
        ensures sent { SendsAt (get self.old.members key) self.old.members self.new.members key n }
    {
        let alloc = self.alloc;
        let Some(member) = self.members.get_mut(key) else {
            return;
        };
        member.sent(alloc, n);
    }

    /// Returns the eight bytes of an empty frame for the peer under a key [2.4.5], which tells it that this side
    /// is there. Send them before anything else. They come between two frames, since nothing waits. No other
    /// connection changes.
    ///
    /// # Errors
    ///
    /// `NoKey`; or `NotOpen` if its input has ended or this side has closed it; or `Unsent` if bytes wait for its
    /// peer, which tell it as much. Else `NotOpen` if its peer's open has not come, or it is over. The first that
    /// holds is named, and no connection has changed then.
    pub fn heartbeat(&mut self, key: usize) -> Result<[u8; 8], HubFault>
        ensures limit { self.new.limit ≡ self.old.limit }
        ensures beat { IfOk result (λ frame. IsBeatAt self.old.members self.new.members key × (frame ≡ heartbeat)) }
        ensures refused { IfErr result (λ f. AreAlike self.old.members self.new.members × (refusal_at (get self.old.members key) beat_fault ≡ Some f)) }
    {
        let Some(member) = self.members.get_mut(key) else {
            return Err(HubFault::NoKey);
        };
        member.heartbeat()
    }

    /// Ends the input of the connection under a key, and returns how it stood [2.4.6], as `Endpoint::finish` does.
    /// It hears nothing any more, and stays for what waits for its peer. No other connection changes.
    ///
    /// # Errors
    ///
    /// `NoKey`; or `Over` if its input has ended before, or this side has closed it; or `Starved` if a unit waits
    /// for which memory was refused. A piece of no bytes tries that again. The first that holds is named, and no
    /// connection has changed then.
    pub fn finish(&mut self, key: usize) -> Result<End, HubFault>
        ensures limit { self.new.limit ≡ self.old.limit }
        ensures ended { IfOk result (λ how. IsEndedAt self.old.members self.new.members key how) }
        ensures refused { IfErr result (λ f. AreSame self.old.members self.new.members × (refusal_at (get self.old.members key) end_fault ≡ Some f)) }
    {
        let Some(member) = self.members.get_mut(key) else {
            return Err(HubFault::NoKey);
        };
        member.finish()
    }

    /// Closes the connection under a key [2.4.3]: its close follows what waits for its peer. It hears nothing any
    /// more, and stays for what waits. No other connection changes.
    ///
    /// # Errors
    ///
    /// The first that holds of `NoKey`; and `NotOpen` if its peer's open has not come, it is over, its input has
    /// ended, or this side has closed it: then there is no close to send. No connection has changed then.
    pub fn close(&mut self, key: usize) -> Result<(), HubFault>
        ensures limit { self.new.limit ≡ self.old.limit }
        ensures closed { OnOk result (IsClosedAt self.old.members self.new.members key) }
        ensures refused { IfErr result (λ f. AreAlike self.old.members self.new.members × (refusal_at (get self.old.members key) close_fault ≡ Some f)) }
    {
        let Some(member) = self.members.get_mut(key) else {
            return Err(HubFault::NoKey);
        };
        member.close()
    }

    /// Refuses a link of the connection under a key with an error [2.6.5]. The detach that says so waits after what waits
    /// for its peer. No other connection changes.
    ///
    /// # Errors
    ///
    /// `NoKey`; `Over` if its input has ended, or this side has closed it; and `Call` with what
    /// [`Endpoint::refuse`] returns: `Dead`, `NoSession`, `NoLink`, `BadError`. The first that holds is named, and
    /// nothing that counts has changed then. `NoMemory` if memory is refused for the detach. The link is refused all
    /// the same. The connection hears nothing any more, and stays for what waits.
    pub fn refuse(
        &mut self,
        key: usize,
        channel: u16,
        handle: u32,
        reason: &Reason<'_>,
    ) -> Result<(), AskFault>
        ensures limit { self.new.limit ≡ self.old.limit }
        ensures asked { OnOk result (IsAskedAt self.old.members self.new.members key channel (Refuse handle (reason_of reason.now))) }
        ensures refused { IfErr result (λ f. AskRefused f self.old.members self.new.members key channel (Refuse handle (reason_of reason.now))) }
    {
        let alloc = self.alloc;
        let Some(member) = self.members.get_mut(key) else {
            return Err(AskFault::NoKey);
        };
        member.refuse(alloc, channel, handle, reason)
    }

    /// Gives a link of the connection under a key what it lacks of `most` credit, if at most half of that is left,
    /// within what it is allowed less its credit and its open deliveries [2.6.7]. Returns how much it was granted: 0 if
    /// it lacks nothing, or there is no such link. The flow that says so waits after what waits for the peer. No other
    /// connection changes. It is for a connection that is served by a rule without credit.
    ///
    /// # Errors
    ///
    /// `NoKey`; `Over` if its input has ended, or this side has closed it; and `Call` with `Dead` if it is over. The
    /// first that holds is named, and nothing that counts has changed then. `NoMemory` if memory is refused for the
    /// flow. The link has the credit. The connection hears nothing any more, and stays for what waits.
    pub fn top_up_link(
        &mut self,
        key: usize,
        channel: u16,
        handle: u32,
        most: u32,
    ) -> Result<u32, AskFault>
        ensures limit { self.new.limit ≡ self.old.limit }
        ensures granted { IfOk result (λ n. IsToppedUpAt self.old.members self.new.members key channel handle most n) }
        ensures refused { IfErr result (λ f. AskRefused f self.old.members self.new.members key channel (Grant handle (lacking_at most channel handle (get self.old.members key)))) }
    {
        let alloc = self.alloc;
        let Some(member) = self.members.get_mut(key) else {
            return Err(AskFault::NoKey);
        };
        member.top_up_link(alloc, channel, handle, most)
    }

    /// Serves the connection under a key by another rule from its next step on. No other connection changes.
    ///
    /// # Errors
    ///
    /// `NoKey` if there is no connection under it.
    pub fn rule(&mut self, key: usize, rule: Rule) -> Result<(), HubFault>
        ensures limit { self.new.limit ≡ self.old.limit }
        ensures ruled { OnOk result (IsRuledAt self.old.members self.new.members key rule) }
        ensures refused { IfErr result (λ f. AreSame self.old.members self.new.members × (get self.old.members key ≡ None) × (f ≡ HubFault.NoKey)) }
    {
        let Some(member) = self.members.get_mut(key) else {
            return Err(HubFault::NoKey);
        };
        member.rule(rule);
        Ok(())
    }

    /// Removes the connection under a key, with what waits for its peer, and frees the key, which another may then
    /// get. No other connection changes.
    ///
    /// # Errors
    ///
    /// `NoKey` if there is no connection under it.
    pub fn remove(&mut self, key: usize) -> Result<(), HubFault>
        ensures limit { self.new.limit ≡ self.old.limit }
        ensures gone { OnOk result (IsGone self.old.members self.new.members key) }
        ensures refused { IfErr result (λ f. AreSame self.old.members self.new.members × (get self.old.members key ≡ None) × (f ≡ HubFault.NoKey)) }
    {
        let Some(_) = self.members.try_remove(key) else {
            return Err(HubFault::NoKey);
        };
        Ok(())
    }

    /// Returns how many bytes all connections hold, or `u64::MAX` if more: those of each endpoint, and the answers
    /// that wait. It visits every connection.
    pub fn held(&self) -> u64
        ensures { result ≡ min (all_held self.now.members) (2 ^ 64 - 1) }
    {
        let mut sum: u64 = 0;
        for (_, member) in self.members.iter() {
            sum = sum.saturating_add(member.held());
        }
        sum
    }
}

/// Returns whether a step that ended so broke off, so that its server hears nothing any more.
pub fn is_lost(end: Result<(), ServeFault>) -> bool
    ensures { (d : Done) → result ≡ is_lost (filled end d) }
{
    match end {
        Ok(()) | Err(ServeFault::NoMemory) => false,
        Err(_) => true,
    }
}
