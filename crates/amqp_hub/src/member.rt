//! One server of many.
ghost use Rattle.std.specs.Prelude.{◌≡◌, ◌≤◌, ◌<◌, ◌++◌, ◌^◌, ◌-◌, [], ℕ, List, length, min, None, Some, IsTrue, IfOk, IfErr, OnOk};
ghost use Rattle.amqp_frame.specs.Devices.{device_inner, has_failed};
ghost use Rattle.amqp_endpoint.specs.Calls.{heartbeat};
ghost use Rattle.amqp_reason.specs.Reasons.{reason_of};
ghost use Rattle.amqp_session.specs.Calls.{Refuse};
ghost use Rattle.amqp_serve.specs.Noting.{stepped_by};
ghost use Rattle.amqp_serve.specs.Servers.{waiting};
ghost use Rattle.amqp_hub.specs.Links.{Asks, TopsUp};
ghost use Rattle.amqp_hub.specs.Members.{unsent_of, member_held, hear_fault, beat_fault, end_fault, close_fault, IsNew, IsHeard, IsSame, IsSent, IsFinishedSo, IsClosed};

use crate::answers::Answers;
use crate::{AskFault, HubFault};
use amqp_endpoint::{Config, End, Endpoint, Fed};
use amqp_frame::Device;
use amqp_reason::Reason;
use amqp_serve::{Note, Rule, ServeFault, Server, Status};
use std::alloc::{AllocError, Allocator, Global};
use std::io::Write;
use std::marker::Model;
use std::mem;

/// How many bytes of answers may wait before no more of a peer's bytes are heard.
pub const ANSWERS: usize = 8192;

/// How much room for answers a peer keeps while none wait, in bytes.
const KEPT: usize = 512;

/// A server among others: the answers that wait for its peer, the rule by which it is served, and the number of its
/// connection.
#[derive(Drop)]
pub struct Member<A: Allocator + Copy = Global> {
    server: Server<A>,
    waiting: Vec<u8, A>,
    rule: Rule,
    number: u64,
}

impl<A: Allocator + Copy> Model for Member<A> {
    ghost use Rattle.amqp_hub.specs.Members.{MemberState};

    ghost Value = { MemberState };

    ghost view = { λ a. record { server = a.server; waiting = a.waiting.items; rule = a.rule; number = a.number } };
}

impl<A: Allocator + Copy> Member<A> {
    /// Makes a server of this number, which waits for its peer's header [2.2]. Returns `AllocError` if memory is refused.
    pub fn new(alloc: A, config: Config<A>, rule: Rule, number: u64) -> Result<Self, AllocError>
        ensures { IfOk result (λ m. IsNew config rule number m) }
    {
        config.is_within(); // a law, for the proof
        Ok(Member {
            server: Server::new(Endpoint::new(alloc, config)?),
            waiting: Vec::new(alloc),
            rule,
            number,
        })
    }

    /// Returns its number.
    pub fn number(&self) -> u64
        ensures { result ≡ self.now.number }
    {
        self.number
    }

    /// Serves it by another rule from its next step on.
    pub fn rule(&mut self, rule: Rule)
        ensures { self.new ≡ record self.old { rule = rule } }
    {
        self.rule = rule;
    }

    /// Returns its endpoint.
    pub fn endpoint(&self) -> &Endpoint<A>
        ensures { result.now ≡ self.now.server.endpoint }
    {
        self.server.endpoint()
    }

    /// Returns why it takes no bytes of its peer, `Over`, or `Unsent` if [`ANSWERS`] bytes wait for it, or `None` if it
    /// takes them.
    pub fn hear_fault(&self) -> Option<HubFault>
        ensures { result ≡ hear_fault self.now }
    {
        if self.server.is_over() {
            return Some(HubFault::Over);
        }
        if self.waiting.len() < ANSWERS {
            None
        } else {
            Some(HubFault::Unsent)
        }
    }

    /// Takes bytes of its peer, up to the end of one unit, serves them, and notes what was done. The answers wait after
    /// those that did, and the records go to the sink. If the sink fails, or memory for answers is refused, it hears nothing any more.
    pub fn hear<S: Write + Drop>(
        &mut self,
        alloc: A,
        piece: &[u8],
        note: &mut Note,
        sink: &mut Device<S>,
    ) -> (Fed, Result<(), ServeFault>)
        requires hears { hear_fault self.old ≡ None }
        requires sink { ¬ (IsTrue (has_failed sink.old)) }
        ensures { IsHeard self.old self.new piece.now (stepped_by result.0 result.1 note.new) (S.contents (device_inner sink.old)) (S.contents (device_inner sink.new)) }
    {
        let room = mem::replace(&mut self.waiting, Vec::new(alloc));
        let mut writer = Device::new(Answers::new(room));
        let (fed, end) = self
            .server
            .step_into(self.rule, piece, note, &mut writer, sink);
        self.waiting = writer.into_inner().into_bytes();
        (fed, end)
    }

    /// Refuses a link with an error [2.6.5]. The detach that says so waits after the answers that did. Returns `Over` if
    /// it hears nothing any more, `Call` if its endpoint refuses the call, and `NoMemory` if memory is refused for the
    /// answer: then it hears nothing any more.
    pub fn refuse(
        &mut self,
        alloc: A,
        channel: u16,
        handle: u32,
        reason: &Reason<'_>,
    ) -> Result<(), AskFault>
        ensures { Asks result channel (Refuse handle (reason_of reason.now)) self.old self.new }
    {
        let room = mem::replace(&mut self.waiting, Vec::new(alloc));
        let mut writer = Device::new(Answers::new(room));
        let mut sink = Device::new(Vec::new(alloc));
        let refused = self
            .server
            .refuse(channel, handle, reason, &mut writer, &mut sink);
        self.waiting = writer.into_inner().into_bytes();
        Ok(refused?)
    }

    /// Gives a link what it lacks of `most` credit, if at most half of that is left [2.6.7], and returns how much. The
    /// flow that says so waits after the answers that did. Errors are as those of [`Member::refuse`].
    pub fn top_up_link(
        &mut self,
        alloc: A,
        channel: u16,
        handle: u32,
        most: u32,
    ) -> Result<u32, AskFault>
        ensures { TopsUp result channel handle most self.old self.new }
    {
        let room = mem::replace(&mut self.waiting, Vec::new(alloc));
        let mut writer = Device::new(Answers::new(room));
        let mut sink = Device::new(Vec::new(alloc));
        let granted = self
            .server
            .top_up_link(channel, handle, most, &mut writer, &mut sink);
        self.waiting = writer.into_inner().into_bytes();
        Ok(granted?)
    }

    /// Returns an empty frame for its peer [2.4.5], if nothing waits before it. The errors are, in this order:
    /// `NotOpen` if it hears nothing any more, `Unsent` if bytes wait, and `NotOpen` if it is not open.
    pub fn heartbeat(&mut self) -> Result<[u8; 8], HubFault>
        ensures fault { IfErr result (λ f. beat_fault self.old ≡ Some f) }
        ensures beat { IfOk result (λ frame. (frame ≡ heartbeat) × (beat_fault self.old ≡ None)) }
        ensures same { IsSame self.old self.new }
    {
        match self.server.status() {
            Status::Serving | Status::Starved => {}
            Status::Ended | Status::Lost(_) => return Err(HubFault::NotOpen),
        }
        if !self.waiting.is_empty() {
            return Err(HubFault::Unsent);
        }
        Ok(self.server.heartbeat()?)
    }

    /// Ends the input of its peer, and returns how it stood [2.4.6]. It hears nothing any more. Returns `Starved`
    /// if a unit waits for memory, and `Over` if it heard nothing any more before.
    pub fn finish(&mut self) -> Result<End, HubFault>
        ensures fault { IfErr result (λ f. (end_fault self.old ≡ Some f) × (self.new ≡ self.old)) }
        ensures ended { IfOk result (λ end. IsFinishedSo self.old self.new end) }
    {
        Ok(self.server.finish()?)
    }

    /// Closes it [2.4.3]: its close follows what waits for its peer, and it hears nothing any more. Returns
    /// `NotOpen` if it is not open, or heard nothing any more before.
    pub fn close(&mut self) -> Result<(), HubFault>
        ensures fault { IfErr result (λ f. (close_fault self.old ≡ Some f) × IsSame self.old self.new) }
        ensures closed { OnOk result (IsClosed self.old self.new) }
    {
        Ok(self.server.close()?)
    }

    /// Returns the answers that wait for its peer.
    pub fn answers(&self) -> &[u8]
        ensures { result.now ≡ self.now.waiting }
    {
        &self.waiting
    }

    /// Returns the first bytes that wait for its peer, as many as lie in one piece. If any wait, it returns some.
    pub fn unsent_front(&self) -> &[u8]
        ensures front { (behind : List ℕ) × (unsent_of self.now ≡ result.now ++ behind) }
        ensures some { 0 < length (unsent_of self.now) → 0 < length result.now }
        ensures whole { waiting self.now.server ≡ [] → result.now ≡ self.now.waiting }
    {
        if self.waiting.is_empty() {
            self.server.unsent_front()
        } else {
            &self.waiting
        }
    }

    /// Drops the first `n` bytes that wait for its peer: they were sent.
    pub fn sent(&mut self, alloc: A, n: usize)
        requires { n ≤ length (unsent_of self.old) }
        ensures { IsSent self.old self.new n }
    {
        let waited = self.waiting.len();
        if n < waited {
            self.waiting.rotate_left(n);
            self.waiting.truncate(waited - n);
            return;
        }
        if self.waiting.capacity() > KEPT {
            self.waiting = Vec::new(alloc); // most wait for long before they are answered again
        } else {
            self.waiting.clear();
        }
        self.server.sent(n - waited);
    }

    /// Returns how many bytes it holds, or `u64::MAX` if more: those of its endpoint, and the answers that wait
    /// for its peer.
    pub fn held(&self) -> u64
        ensures { result ≡ min (member_held self.now) (2 ^ 64 - 1) }
    {
        self.server
            .endpoint()
            .held()
            .saturating_add(self.waiting.len() as u64)
    }
}
