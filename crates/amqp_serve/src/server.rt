//! A server for a host with a loop of its own.
ghost use Rattle.std.specs.Prelude.{◌≡◌, ◌≤◌, ◌<◌, ◌++◌, ℕ, List, [], take, length, true, false, Err, None, IfSome, IfOk, IfErr, OnOk};
ghost use Rattle.amqp_endpoint.specs.Calls.{heartbeat};
ghost use Rattle.amqp_endpoint.specs.Connections.{ConnectionState, slot_at};
ghost use Rattle.amqp_endpoint.specs.Takings.{link_in};
ghost use Rattle.amqp_reason.specs.Reasons.{reason_of};
ghost use Rattle.amqp_session.specs.Calls.{Refuse};
ghost use Rattle.amqp_serve.specs.Deeds.{filled, IsStepped, Reaches, ends, AreOpen};
ghost use Rattle.amqp_serve.specs.Links.{Says, TopsUp, status_behind};
ghost use Rattle.amqp_serve.specs.Noting.{done_of, stepped_by};
ghost use Rattle.amqp_serve.specs.Servers.{hears, is_over, status_after, refused_step, open_fault, finish_fault, waiting, IsSame, IsFinishedSo, IsClosed, IsSent};
ghost use Rattle.amqp_serve.specs.Serving.{credit_lack};
ghost use Rattle.amqp_serve.specs.Supplied.{IsRight};
ghost use Rattle.amqp_serve.specs.Supplying.{half_rule};

use crate::links::{self, LinkFault};
use crate::note::Note;
use crate::steps::{Course, Done, Stepped, serve_piece_into};
use crate::{Rule, ServeFault};
use amqp_endpoint::{End, Endpoint, Fed, Outcome as Told};
use amqp_frame::{Device, HoldsBack};
use amqp_perform::Outcome;
use amqp_reason::Reason;
use std::alloc::{Allocator, Global};
use std::io::Write;
use std::marker::Model;
use thiserror::Error;

/// How a server is between two calls.
#[derive(Clone, Copy, Debug, PartialEq, Eq)]
pub enum Status {
    /// It hears what comes.
    Serving,
    /// It hears what comes. Memory was refused for the unit that waits; the next step tries it again.
    Starved,
    /// It hears nothing any more: its input has ended, or this side has closed the connection.
    Ended,
    /// It hears nothing any more: its writer or its sink has failed, and answers or records may be missing.
    Lost(ServeFault),
}

/// Why a call of a server is refused. Nothing that counts has changed then.
#[derive(Clone, Copy, Debug, PartialEq, Eq, Drop, Error)]
pub enum ServerFault {
    /// The connection is not open [2.4.6]: its peer's open has not come, it is over, or the server hears nothing any
    /// more.
    #[error("the connection is not open")]
    NotOpen,
    /// The server hears nothing any more.
    #[error("the server hears nothing any more")]
    Over,
    /// A unit waits, and memory was refused for it.
    #[error("a unit waits for memory")]
    Starved,
}

/// Of a server that has made no step. No link is topped up by it.
const NO_RULE: Rule = Rule {
    credit: 0,
    mark: 0,
    outcome: Outcome::Accepted,
};

/// Serves one connection step by step, with the bytes that its host brings. Between two steps all answers have
/// gone to the writer.
///
/// It hears nothing any more once its input has ended, this side has closed the connection, or a writer or a sink
/// has failed. After a close its host writes what waits in it, by [`Server::unsent_front`] and [`Server::sent`].
#[derive(Drop)]
pub struct Server<A: Allocator + Copy = Global> {
    endpoint: Endpoint<A>,
    course: Course,
    status: Status,
}

impl<A: Allocator + Copy> Model for Server<A> {
    ghost use Rattle.amqp_serve.specs.Servers.{ServerState, IsAtRest};

    ghost Value = { ServerState };

    ghost view = { λ a. record { endpoint = a.endpoint; status = a.status } };

    ghost invariant = { λ a. IsAtRest a.endpoint a.course a.status };
}

impl<A: Allocator + Copy> Server<A> {
    /// Makes a server that serves `endpoint`. No answer may wait in the endpoint; in a new one none does.
    pub fn new(endpoint: Endpoint<A>) -> Self
        requires { endpoint.unsent ≡ [] }
        ensures endpoint { result.endpoint ≡ endpoint }
        ensures status { result.status ≡ Status.Serving }
    {
        Server {
            endpoint,
            course: Course {
                rule: NO_RULE,
                supplied: false,
            },
            status: Status::Serving,
        }
    }

    /// Serves a piece of what the peer sent by this rule, up to the end of one unit. The unit is acted upon, and what
    /// follows is done, as [`serve_piece`] says. The rest of the piece is for the next step. Another step may have
    /// another rule.
    ///
    /// A server that hears nothing any more uses no byte and changes nothing. It tells `Dead`, or returns the fault
    /// of the writer or the sink that has failed.
    ///
    /// # Errors
    ///
    /// `Write`, `Sink` and `NoMemory`, each when [`serve_piece`] returns it.
    pub fn step<W: Write + HoldsBack + Drop, S: Write + Drop>(
        &mut self,
        rule: Rule,
        piece: &[u8],
        writer: &mut Device<W>,
        sink: &mut Device<S>,
    ) -> Stepped
        requires ends { AreOpen (ends W.contents S.contents writer.old sink.old) }
        ensures bound { result.used ≤ length piece.now }
        ensures reaches { refused_step self.old.status ≡ None → Reaches self.old.endpoint piece.now result.used }
        ensures stepped { refused_step self.old.status ≡ None → IsStepped rule (take result.used piece.now) result.told result.done self.old.endpoint self.new.endpoint
            (ends W.contents S.contents writer.old sink.old) (ends W.contents S.contents writer.new sink.new) }
        ensures status { refused_step self.old.status ≡ None → self.new.status ≡ status_after result.done }
        ensures refused { IfSome (refused_step self.old.status) (λ x. (result ≡ x) × (self.new ≡ self.old)
            × (ends W.contents S.contents writer.new sink.new ≡ ends W.contents S.contents writer.old sink.old)) }
    {
        let mut note = Note::NOTHING;
        let (fed, end) = self.step_into(rule, piece, &mut note, writer, sink);
        note.stepped(fed, end)
    }

    /// Serves a piece as [`Server::step`] does, and notes what was done. Returns what the feed came to, and how the step
    /// ended. [`Note::stepped`] makes the result of [`Server::step`] of these.
    // A host that hands the result on through several calls saves 70 instructions a message, since it isn't copied.
    #[tactic(auto, using(crate::proofs::Stepping::rests))]
    pub fn step_into<W: Write + HoldsBack + Drop, S: Write + Drop>(
        &mut self,
        rule: Rule,
        piece: &[u8],
        note: &mut Note,
        writer: &mut Device<W>,
        sink: &mut Device<S>,
    ) -> (Fed, Result<(), ServeFault>)
        requires ends { AreOpen (ends W.contents S.contents writer.old sink.old) }
        ensures bound { result.0.used ≤ length piece.now }
        ensures reaches { refused_step self.old.status ≡ None → Reaches self.old.endpoint piece.now result.0.used }
        ensures stepped { refused_step self.old.status ≡ None → IsStepped rule (take result.0.used piece.now) result.0.outcome (filled result.1 (done_of note.new)) self.old.endpoint self.new.endpoint
            (ends W.contents S.contents writer.old sink.old) (ends W.contents S.contents writer.new sink.new) }
        ensures status { refused_step self.old.status ≡ None → self.new.status ≡ status_after (filled result.1 (done_of note.new)) }
        ensures refused { IfSome (refused_step self.old.status) (λ x. (stepped_by result.0 result.1 note.new ≡ x) × (self.new ≡ self.old)
            × (ends W.contents S.contents writer.new sink.new ≡ ends W.contents S.contents writer.old sink.old)) }
    {
        match self.status {
            Status::Serving | Status::Starved => {}
            Status::Ended => {
                *note = Note::NOTHING;
                return (unfed(Told::Dead), Ok(()));
            }
            Status::Lost(fault) => return (unfed(Told::More), Err(fault)),
        }
        self.course = course_by(rule, self.course);
        let (fed, end) = serve_piece_into(
            &mut self.endpoint,
            &mut self.course,
            piece,
            true,
            note,
            writer,
            sink,
        );
        self.status = status_after(end);
        (fed, end)
    }

    /// Returns an empty frame for the peer [2.4.5], which is written before anything else. Returns `NotOpen` if the
    /// connection is not open, or the server hears nothing any more.
    pub fn heartbeat(&mut self) -> Result<[u8; 8], ServerFault>
        ensures fault { IfErr result (λ f. open_fault self.old ≡ Some f) }
        ensures beat { IfOk result (λ frame. (frame ≡ heartbeat) × (open_fault self.old ≡ None)) }
        ensures same { IsSame self.old self.new }
    {
        if !self.hears() || self.endpoint.heartbeat().is_err() {
            return Err(ServerFault::NotOpen);
        }
        let mut frame = [0; 8];
        self.endpoint.output(&mut frame);
        Ok(frame)
    }

    /// Closes the connection [2.4.3]. The close waits, and the server hears nothing any more. Returns `NotOpen` if
    /// the connection is not open, or the server heard nothing any more before.
    pub fn close(&mut self) -> Result<(), ServerFault>
        ensures fault { IfErr result (λ f. (open_fault self.old ≡ Some f) × IsSame self.old self.new) }
        ensures closed { OnOk result (IsClosed self.old self.new) }
    {
        if !self.hears() || self.endpoint.close().is_err() {
            return Err(ServerFault::NotOpen);
        }
        self.course.supplied = false;
        self.status = Status::Ended;
        Ok(())
    }

    /// Ends the input, and returns how the connection stood, as [`Endpoint::finish`] does. The server hears nothing
    /// any more then. Returns `Starved` if a unit waits for memory, and `Over` if the server heard nothing any more
    /// before.
    pub fn finish(&mut self) -> Result<End, ServerFault>
        ensures fault { IfErr result (λ f. (finish_fault self.old.status ≡ Some f) × (self.new ≡ self.old)) }
        ensures ended { IfOk result (λ end. IsFinishedSo self.old self.new end) }
    {
        match self.status {
            Status::Serving => {}
            Status::Starved => return Err(ServerFault::Starved),
            Status::Ended | Status::Lost(_) => return Err(ServerFault::Over),
        }
        self.course.supplied = false;
        self.status = Status::Ended;
        Ok(self.endpoint.finish())
    }

    /// Refuses a link with an error, and writes the detach that says so, with closed true [2.6.5]. Its handle stays in
    /// use until the peer detaches it. Call it between two steps, as when the link attached: by a rule without credit
    /// the link has got none yet.
    ///
    /// # Errors
    ///
    /// `Over` if the server hears nothing any more; or `Call`, when [`Endpoint::refuse`] returns it. Nothing that counts
    /// has changed then. `Lost` with `Write` or `Sink` if that device fails. The link is refused all the same, and the
    /// server hears nothing any more.
    #[tactic(auto, using(crate::proofs::LinkCalls::rests))]
    pub fn refuse<W: Write + HoldsBack + Drop, S: Write + Drop>(
        &mut self,
        channel: u16,
        handle: u32,
        reason: &Reason<'_>,
        writer: &mut Device<W>,
        sink: &mut Device<S>,
    ) -> Result<(), LinkFault>
        requires ends { AreOpen (ends W.contents S.contents writer.old sink.old) }
        ensures over { hears self.old.status ≡ false → (result ≡ Err LinkFault.Over) × (self.new ≡ self.old)
            × (ends W.contents S.contents writer.new sink.new ≡ ends W.contents S.contents writer.old sink.old) }
        ensures said { hears self.old.status ≡ true → Says result channel (Refuse handle (reason_of reason.now)) self.old.endpoint self.new.endpoint
            (ends W.contents S.contents writer.old sink.old) (ends W.contents S.contents writer.new sink.new) }
        ensures status { self.new.status ≡ status_behind self.old.status result }
    {
        if !self.hears() {
            return Err(LinkFault::Over);
        }
        self.course.supplied = false;
        let refused = links::refuse(&mut self.endpoint, channel, handle, reason, writer, sink);
        self.status = status_behind(self.status, &refused);
        refused
    }

    /// Gives a link what it lacks of `most` credit, if at most half of that is left, within what it is allowed less its
    /// credit and its open deliveries [2.6.7]. The flow that says so is written. Returns how much it was granted: 0 if
    /// it lacks nothing, or there is no such link. It is for a host whose rule is one without credit. Call it between
    /// two steps.
    ///
    /// # Errors
    ///
    /// `Over` if the server hears nothing any more; or `Call` with `Dead` if the connection is over. Nothing that counts
    /// has changed then. `Lost` with `Write` or `Sink` if that device fails. The link has the credit, and the server
    /// hears nothing any more.
    #[tactic(auto, using(crate::proofs::LinkCalls::topped_rests))]
    pub fn top_up_link<W: Write + HoldsBack + Drop, S: Write + Drop>(
        &mut self,
        channel: u16,
        handle: u32,
        most: u32,
        writer: &mut Device<W>,
        sink: &mut Device<S>,
    ) -> Result<u32, LinkFault>
        requires ends { AreOpen (ends W.contents S.contents writer.old sink.old) }
        ensures over { hears self.old.status ≡ false → (result ≡ Err LinkFault.Over) × (self.new ≡ self.old)
            × (ends W.contents S.contents writer.new sink.new ≡ ends W.contents S.contents writer.old sink.old) }
        ensures topped { hears self.old.status ≡ true → TopsUp (credit_lack (half_rule most) (link_in handle (slot_at self.old.endpoint.connection channel))) result channel handle self.old.endpoint self.new.endpoint
            (ends W.contents S.contents writer.old sink.old) (ends W.contents S.contents writer.new sink.new) }
        ensures status { self.new.status ≡ status_behind self.old.status result }
    {
        if !self.hears() {
            return Err(LinkFault::Over);
        }
        self.course.supplied = false;
        let granted = links::top_up(&mut self.endpoint, channel, handle, most, writer, sink);
        self.status = status_behind(self.status, &granted);
        granted
    }

    /// Returns the first bytes that wait to be written, as many as lie in one piece: at least one if any wait. None
    /// do as long as the server hears, and after a writer or a sink has failed.
    pub fn unsent_front(&self) -> &[u8]
        ensures front { (behind : List ℕ) × (waiting self.now ≡ result.now ++ behind) }
        ensures some { 0 < length (waiting self.now) → 0 < length result.now }
        ensures none { hears self.now.status ≡ true → result.now ≡ [] }
    {
        match self.status {
            Status::Serving | Status::Starved | Status::Ended => self.endpoint.unsent_front(),
            Status::Lost(_) => &[],
        }
    }

    /// Drops the first `n` bytes that wait, which the caller has written.
    #[tactic(auto, using(crate::proofs::Stepping::few_wait))]
    pub fn sent(&mut self, n: usize)
        requires { n ≤ length (waiting self.old) }
        ensures { IsSent self.old self.new n }
    {
        self.endpoint.sent(n);
    }

    /// Returns how the server is.
    pub fn status(&self) -> Status
        ensures { result ≡ self.now.status }
    {
        self.status
    }

    /// Returns whether the server takes no more bytes: it hears nothing any more, or its connection is over.
    pub fn is_over(&self) -> bool
        ensures { result ≡ is_over self.now }
    {
        !self.hears() || self.endpoint.is_over()
    }

    /// Returns the endpoint that it serves.
    pub fn endpoint(&self) -> &Endpoint<A>
        ensures { result.now ≡ self.now.endpoint }
    {
        &self.endpoint
    }

    /// Returns whether it hears what comes.
    fn hears(&self) -> bool
        ensures { result ≡ hears self.now.status }
    {
        match self.status {
            Status::Serving | Status::Starved => true,
            Status::Ended | Status::Lost(_) => false,
        }
    }
}

/// Returns the course of a step by this rule, after that of the step before. Of another rule nothing is known.
fn course_by(rule: Rule, before: Course) -> Course
    ensures rule { result.rule ≡ rule }
    ensures right { (s : ConnectionState) → IsRight before s → IsRight result s }
{
    if before.rule == rule {
        before
    } else {
        Course {
            rule,
            supplied: false,
        }
    }
}

/// Returns the status of a server after what was asked for a link came to this.
fn status_behind<T>(before: Status, done: &Result<T, LinkFault>) -> Status
    ensures { result ≡ status_behind before done.now }
{
    match done {
        Ok(_) | Err(LinkFault::Over | LinkFault::Call(_)) => before,
        Err(LinkFault::Lost(fault)) => Status::Lost(*fault),
    }
}

/// Nothing was fed.
fn unfed(outcome: Told) -> Fed
    ensures used { result.used ≡ 0 }
    ensures told { result.outcome ≡ outcome }
{
    Fed { used: 0, outcome }
}

/// Returns the status of a server after a step that ended so.
fn status_after(end: Result<(), ServeFault>) -> Status
    ensures { (d : Done) → result ≡ status_after (filled end d) }
{
    match end {
        Ok(()) => Status::Serving,
        Err(ServeFault::NoMemory) => Status::Starved,
        Err(fault) => Status::Lost(fault),
    }
}
