//! The receiving endpoint of one connection.
ghost use Rattle.std.specs.Prelude.{◌≡◌, ◌↔◌, [], IsTrue, ℕ, List, slice_index, ◌+◌, ◌≤◌, ◌++◌, ◌<◌, min, length, take, drop, true, false, Some, None, option_map, IfOk, OnOk, IfErr, IfSome};
ghost use Rattle.amqp_frame.specs.Splits.{IsOver, IsLent, IsUnchanged, TakesNothing};
ghost use Rattle.amqp_endpoint.specs.Asking.{CallAnswered, IsCounted, asked_of, refused_of};
ghost use Rattle.amqp_frame.specs.declared.units.Stage.{Stage};
ghost use Rattle.amqp_reason.specs.Reasons.{reason_of};
ghost use Rattle.amqp_session.specs.Calls.{Widen, Grant, Drain, Take, Settle, SettleRange, Detach, Refuse, SettleWith, SettleRangeWith};
ghost use Rattle.amqp_session.specs.Places.{live_in};
ghost use Rattle.amqp_session.specs.Sessions.{IsApart};
ghost use Rattle.std.specs.Option.{option_copied};
ghost use Rattle.amqp_endpoint.specs.Calls.{output_size, reply_room, open_call_fault, close_with_fault};
ghost use Rattle.amqp_endpoint.specs.Connections.{slot_at, is_dead};
ghost use Rattle.amqp_endpoint.specs.Endpoints.{HasActed, IsLinkAt, accepted_by, dropped_by, named_by, handed_by};
ghost use Rattle.amqp_endpoint.specs.Held.{held};
ghost use Rattle.amqp_endpoint.specs.Runs.{IsStart, IsMoved, IsFinished, CallDone, CloseDone, CloseWithDone, BeatDone, accepted_answer, end_of};
ghost use Rattle.amqp_session.specs.Lacking.{IsFirstLacking};
ghost use Rattle.amqp_endpoint.specs.Takings.{link_at};
ghost use Rattle.amqp_endpoint.specs.Steps.{AsksFor, MayRead, Comes, IsFed, TakesAndActs, told_outcome};
ghost use Rattle.amqp_endpoint.specs.RoomLending.{LendsRoom};
ghost use Rattle.std.specs.Borrow.{sem};

use crate::config::Config;
use crate::connection::Connection;
use crate::event::{End, Event, Fed, Outcome};
use crate::fault::CallFault;
use crate::introduction::Introduction;
use crate::output::Output;
use crate::phase::Phase;
use crate::reasons::Refusal;
use crate::requests::Request;
use crate::units::{act_on_fault, act_on_frame, act_on_header};
use crate::{closing, reasons, requests};
use amqp_frame::{Frame, Splitter};
use amqp_link::Taken;
use amqp_perform::Outcome as Settlement;
use amqp_reason::Reason;
use amqp_session::LinkView;
use std::alloc::{AllocError, Allocator, Global};
use std::marker::Model;

/// The receiving endpoint of one connection [2.2 to 2.7].
///
/// The peer's bytes go in by [`Endpoint::feed`], or by [`Endpoint::spare`] and [`Endpoint::filled`]. These
/// return what the bytes result in. The bytes for the peer come out by [`Endpoint::output`], or by
/// [`Endpoint::unsent_front`] and [`Endpoint::sent`]. Between these, the application grants credit, widens
/// windows, takes messages and settles them. A call that is refused changes nothing.
///
/// Memory is taken by [`Endpoint::new`], and by begin, attach and transfer frames of the peer.
#[derive(Drop)]
pub struct Endpoint<A: Allocator + Copy = Global> {
    input: Splitter<A>,
    out: Output<A>,
    connection: Connection<A>,
}

impl<A: Allocator + Copy> Model for Endpoint<A> {
    ghost use Rattle.amqp_endpoint.specs.Endpoints.{IsEndpoint};
    ghost use Rattle.amqp_endpoint.specs.Steps.{EndpointState};

    ghost Value = { EndpointState };

    ghost view = { λ a. record { input = a.input; unsent = a.out; connection = a.connection } };

    ghost invariant = { λ a. IsEndpoint a.input a.out a.connection };
}

/// What the unit in the buffer resulted in.
enum Acted {
    /// It was acted upon, with this event or none.
    Done(Option<Event>),
    /// No unit waits.
    Nothing,
    /// It waits for room in the output.
    Blocked,
    /// It waits, since memory was refused.
    NoMemory,
}

impl<A: Allocator + Copy> Endpoint<A> {
    /// Makes an endpoint as it is before the peer's header [2.2]. Takes memory for a buffer of the longest
    /// frame, an output of 8192 bytes, and a place for each channel. It is an error if that is refused.
    pub fn new(alloc: A, config: Config<A>) -> Result<Self, AllocError>
        ensures { IfOk result (λ endpoint. IsStart config endpoint) }
    {
        let input = Splitter::new(alloc, config.max_frame() as usize)?;
        let out = Output::new(alloc)?;
        let connection = Connection::new(alloc, config)?;
        Ok(Endpoint {
            input,
            out,
            connection,
        })
    }

    /// Takes bytes of the peer, and acts upon the unit that is then whole: the header [2.2], a frame, or the
    /// bytes that show that a frame is malformed [2.3.1].
    ///
    /// Bytes are taken up to the end of that unit or of the piece, and none while a unit waits. A frame is
    /// acted upon if the output has 2560 free bytes, else it waits with `Blocked`. If memory for it is refused,
    /// it waits with `NoMemory`. Nothing else has changed then, and the next feed, even one of no bytes, tries
    /// it again.
    ///
    /// `Event` says what a unit resulted in, and `More` that there is no event. `Dead` comes at the unit that
    /// ends the connection without an event. After the end of the connection each feed returns `Dead`, and
    /// takes no byte.
    // Inlined, with `act_on_lent`, for 2 in 100 of `telemetry` (docs/PERF.md).
    #[inline(always)]
    pub fn feed(&mut self, piece: &[u8]) -> Fed
        ensures { IsFed self.old self.new piece.now result.used result.outcome }
    {
        if self.is_over() {
            return Fed {
                used: 0,
                outcome: Outcome::Dead,
            };
        }
        if self.out.has_room() {
            if let Some((frame, size)) = self.input.lent_front(piece) {
                return self.act_on_lent(frame, size, piece);
            }
        }
        let used = self.input.push(piece);
        let outcome = self.act();
        Fed { used, outcome }
    }

    /// Acts upon a frame of `size` bytes that lies whole at the front of a piece. There has to be room for its
    /// answer. The frame is not copied, unless memory is refused for it, so that it has to wait.
    // Inlined for the same reason as `feed`.
    #[inline(always)]
    fn act_on_lent(&mut self, frame: Frame<'_>, size: usize, piece: &[u8]) -> Fed
        requires lent { IsLent self.old.input piece.now frame size }
        requires room { length self.old.unsent + reply_room ≤ output_size }
        ensures { TakesAndActs self.old self.new piece.now result.used result.outcome }
    {
        match act_on_frame(
            &mut self.connection,
            &mut self.out,
            frame.channel,
            frame.body,
        ) {
            Ok(told) => Fed {
                used: size,
                outcome: told_outcome(&self.connection, told),
            },
            Err(AllocError) => Fed {
                used: self.input.push(piece),
                outcome: Outcome::NoMemory,
            },
        }
    }

    /// Lends the room into which a reader may read the peer's next bytes.
    ///
    /// It is what is left of the eight bytes of the header. Of a frame it is what is left of the four bytes of
    /// SIZE, then of the eight of the frame header, then of SIZE bytes [2.2, 2.3.1]. It is empty while a unit
    /// waits, and once the connection is over.
    pub fn spare(&mut self) -> &mut [u8]
        ensures* writes_back { sem 𝓛 (LendsRoom A.row A.Allocator self.entry result) }
        ensures asks { AsksFor self.old (length result.now) }
        ensures none { length result.now ≡ 0 → is_dead self.old.connection.phase ≡ false → TakesNothing self.old.input }
        ensures value { result.now ≡ take (length result.now) self.old.input.spare }
    {
        let asked = if self.is_over() {
            0
        } else {
            self.input.wants()
        };
        self.input.spare_front(asked)
    }

    /// Takes the first `n` bytes of the room that [`Endpoint::spare`] lends, and acts upon the unit that is
    /// then whole, as [`Endpoint::feed`] does with a piece of them. Even if `n` is 0, a unit that waits is
    /// tried again.
    pub fn filled(&mut self, n: usize) -> Fed
        requires { MayRead self.old n }
        ensures used { result.used ≡ n }
        ensures fed { IsFed self.old self.new (take n self.old.input.spare) n result.outcome }
    {
        if self.is_over() {
            return Fed {
                used: n,
                outcome: Outcome::Dead,
            };
        }
        self.input.filled(n);
        let outcome = self.act();
        Fed { used: n, outcome }
    }

    /// A law: the buffer has room for the eight bytes of a header [2.2].
    pub fn holds_a_header(&self)
        ensures { 8 ≤ self.now.input.limit }
    {
        let _ = &self.input; // the invariant says so
    }

    /// A law: no two open deliveries of the session on a channel have the same id [2.6.12].
    pub fn ids_are_apart(&self, channel: u16)
        ensures { IfSome (live_in (slot_at self.now.connection channel)) IsApart }
    {
        if let Some(session) = self.connection.session(channel) {
            session.ids_are_apart();
        }
    }

    /// A law: the room that is lent consists of bytes.
    pub fn spare_is_bytes(&self)
        ensures { (i : ℕ) → slice_index self.now.input.spare i < 256 }
    {
        self.input.spare_is_bytes();
    }

    /// Acts upon the unit that waits, if one does. Returns what it resulted in.
    #[inline(always)]
    fn act(&mut self) -> Outcome
        requires { is_dead self.old.connection.phase ≡ false }
        ensures { Comes self.old self.new result }
    {
        match act_on_unit(&self.input, &mut self.connection, &mut self.out) {
            Acted::Done(told) => {
                self.input.drop_frame();
                told_outcome(&self.connection, told)
            }
            Acted::Nothing => Outcome::More,
            Acted::Blocked => Outcome::Blocked,
            Acted::NoMemory => Outcome::NoMemory,
        }
    }

    /// Returns whether no bytes wait to be sent.
    pub fn is_all_sent(&self) -> bool
        ensures { IsTrue result ↔ (self.now.unsent ≡ []) }
    {
        self.out.is_empty()
    }

    /// Returns what the peer said of itself in its open [2.7.1]; `None` if that has not come.
    pub fn peer(&self) -> Option<&Introduction>
        ensures { option_copied result ≡ self.now.connection.peer }
    {
        self.connection.peer()
    }

    /// Returns whether this side ended the connection with an error, or refused its header.
    pub fn has_failed(&self) -> bool
        ensures { result ≡ self.now.connection.failed }
    {
        self.connection.has_failed()
    }

    /// Returns the first bytes that wait to be sent, as many as lie in one piece: at least one if any wait.
    pub fn unsent_front(&self) -> &[u8]
        ensures front { (behind : List ℕ) × (self.now.unsent ≡ result.now ++ behind) }
        ensures some { 0 < length self.now.unsent → 0 < length result.now }
    {
        self.out.front()
    }

    /// Drops the first `n` bytes that wait to be sent, which the caller has written.
    pub fn sent(&mut self, n: usize)
        requires { n ≤ length self.old.unsent }
        ensures new { self.new ≡ record self.old { unsent = drop n self.old.unsent } }
        ensures moved { IsMoved self.old self.new n (take n self.old.unsent) }
    {
        self.out.drop_front(n);
    }

    /// Moves the first bytes that wait to be sent into `out`, as many as it holds, and returns how many.
    pub fn output(&mut self, out: &mut [u8]) -> usize
        ensures count { result ≡ min (length out.old) (length self.old.unsent) }
        ensures read { out.new ≡ take result self.old.unsent ++ drop result out.old }
        ensures new { self.new ≡ record self.old { unsent = drop result self.old.unsent } }
        ensures moved { IsMoved self.old self.new (length out.old) (take (length out.old) self.old.unsent) }
    {
        self.out.read_into(out)
    }

    /// Moves the first bytes that wait to be sent, at most `room`, into a new vector. If memory is refused,
    /// nothing has changed.
    pub(crate) fn output_to_vec(&mut self, alloc: A, room: u32) -> Result<Vec<u8, A>, AllocError>
        ensures ok { IfOk result (λ bytes. IsMoved self.old self.new room bytes.items) }
        ensures err { IfErr result (λ _. (self.new ≡ self.old) × (0 < min room (length self.old.unsent))) }
    {
        let count = self.out.len().min(room as usize);
        if count == 0 {
            return Ok(Vec::new(alloc));
        }
        let mut bytes = Vec::from_elem(alloc, 0, count)?;
        self.out.read_into(bytes.as_mut_slice());
        Ok(bytes)
    }

    /// Returns what the endpoint was set up with.
    pub fn config(&self) -> &Config<A>
        ensures { result.now ≡ self.now.connection.config }
    {
        self.connection.config()
    }

    /// Returns whether the connection is over. The endpoint then takes no more bytes.
    pub fn is_over(&self) -> bool
        ensures value { result ≡ is_dead self.now.connection.phase }
        ensures stage { IsOver self.now.input.stage → result ≡ true }
    {
        matches!(self.connection.phase(), Phase::Dead)
    }

    /// Returns whether no byte waits in the buffer: all that was fed was acted upon.
    pub fn is_between(&self) -> bool
        ensures { IsTrue result ↔ (self.now.input.filled ≡ []) }
    {
        self.input.is_empty()
    }

    /// Returns the bytes held: those in the buffer for a frame, those that wait to be sent, and those of each
    /// session and link.
    pub fn held(&self) -> u64
        ensures { result ≡ held self.now }
    {
        fields_listed(self)
    }

    /// Returns how many places of the incoming window are left in the session on a channel [2.5.6]; `None` if
    /// no session is live there.
    pub fn window(&self, channel: u16) -> Option<u32>
        ensures { result ≡ option_map (λ s. s.window) (live_in (slot_at self.now.connection channel)) }
    {
        Some(self.connection.session(channel)?.window())
    }

    /// Returns a view of the live link at a handle of the session on a channel [2.6.2]; `None` if none is live.
    pub fn link(&self, channel: u16, handle: u32) -> Option<LinkView<'_>>
        ensures { IsLinkAt (slot_at self.now.connection channel) handle result }
    {
        self.connection.session(channel)?.link(handle)
    }

    /// Returns the first handle, from `from` on, whose link in the session on a channel has less credit than
    /// `credit` and can be granted more [2.6.7]; `None` if there is none.
    pub fn first_lacking(&self, channel: u16, from: u32, credit: u32) -> Option<u32>
        ensures { IsFirstLacking credit from (link_at self.now.connection channel) result }
    {
        self.connection
            .session(channel)?
            .first_lacking(from, credit)
    }

    /// Grants the link at a handle `n` more places of credit, and writes the flow that says so [2.6.7]. Even if
    /// `n` is 0, the sender is then no longer asked to use its credit up. The first fault is returned, and
    /// nothing has changed: `Dead`, `NoSession`, `NoLink`, `TooMuchCredit`, `Full`.
    // Inlined for `telemetry` and `gateway` (docs/PERF.md).
    #[inline(always)]
    pub fn grant(&mut self, channel: u16, handle: u32, n: u32) -> Result<(), CallFault>
        ensures { CallDone self.old self.new channel (Grant handle n) (accepted_by result) }
    {
        self.ask(channel, Request::Grant { handle, n })?;
        Ok(())
    }

    /// Widens the incoming window of the session on a channel by `n` places, and writes the flow that says so
    /// [2.5.6]. The first fault is returned, and nothing has changed: `Dead`, `NoSession`, `WindowTooWide`,
    /// `Full`.
    pub fn widen(&mut self, channel: u16, n: u32) -> Result<(), CallFault>
        ensures { CallDone self.old self.new channel (Widen n) (accepted_by result) }
    {
        self.ask(channel, Request::Widen { n })?;
        Ok(())
    }

    /// Asks the sender on the link at a handle to use its credit up, by a flow that it writes [2.6.7]. The
    /// first fault is returned, and nothing has changed: `Dead`, `NoSession`, `NoLink`, `Full`.
    pub fn drain(&mut self, channel: u16, handle: u32) -> Result<(), CallFault>
        ensures { CallDone self.old self.new channel (Drain handle) (accepted_by result) }
    {
        self.ask(channel, Request::Drain { handle })?;
        Ok(())
    }

    /// Hands up the first delivery that is ready on the link at a handle [2.6.14]. Writes nothing and takes no
    /// memory. The first fault is returned, and nothing has changed: `Dead`, `NoSession`, `NoLink`,
    /// `NothingReady`.
    // Inlined for `telemetry` and `gateway` (docs/PERF.md).
    #[inline(always)]
    pub fn take(&mut self, channel: u16, handle: u32) -> Result<Taken<A>, CallFault>
        ensures { CallDone self.old self.new channel (Take handle) (handed_by result) }
    {
        requests::take(&mut self.connection, channel, handle)
    }

    /// Tells the sender what became of the delivery of a session with this id, by a disposition that it writes
    /// [2.6.12]. In mode first (rcv-settle-mode) that settles the delivery; in mode second the sender settles
    /// it [2.8.3]. The first fault is returned, and nothing has changed: `Dead`, `NoSession`, `NoDelivery`,
    /// `NotTaken`, `AlreadyTold`, `Full`.
    // Inlined for `telemetry` and `gateway` (docs/PERF.md).
    #[inline(always)]
    pub fn settle(&mut self, channel: u16, id: u32, outcome: Settlement) -> Result<(), CallFault>
        ensures { CallDone self.old self.new channel (Settle id outcome) (accepted_by result) }
    {
        let request = Request::Settle {
            first: id,
            last: id,
            outcome,
        };
        self.ask(channel, request)?;
        Ok(())
    }

    /// Tells the sender what became of the open deliveries of a session with ids from `first` to `last`, by one
    /// disposition that it writes [2.7.6, 2.8.10]. Returns how many deliveries that names. Takes no memory.
    ///
    /// Both ends have to be ids of open deliveries; ids between them may belong to none. In mode first
    /// (rcv-settle-mode) the deliveries are settled; in mode second the sender settles them [2.8.3]. The first
    /// fault is returned, and nothing has changed: `Dead`, `NoSession`, `NoDelivery`, `NotTaken`,
    /// `AlreadyTold`, `MixedModes`, `Full`.
    pub fn settle_range(
        &mut self,
        channel: u16,
        first: u32,
        last: u32,
        outcome: Settlement,
    ) -> Result<u32, CallFault>
        ensures { CallDone self.old self.new channel (SettleRange first last outcome) (named_by result) }
    {
        let request = Request::Settle {
            first,
            last,
            outcome,
        };
        self.ask(channel, request)
    }

    /// Ends the link at a handle, by a detach with closed true that it writes [2.6.6]. Returns how many ready
    /// deliveries were dropped. The handle stays in use until the peer detaches it. The first fault is
    /// returned, and nothing has changed: `Dead`, `NoSession`, `NoLink`, `Full`.
    pub fn detach(&mut self, channel: u16, handle: u32) -> Result<u32, CallFault>
        ensures { CallDone self.old self.new channel (Detach handle) (dropped_by result) }
    {
        self.ask(channel, Request::Detach { handle })
    }

    /// Ends the link at a handle, by a detach with closed true and an error that it writes [2.6.5]. Returns how
    /// many ready deliveries were dropped. The handle stays in use until the peer detaches it. The first fault is
    /// returned, and nothing has changed: `Dead`, `NoSession`, `NoLink`, `BadError`, `Full`.
    pub fn refuse(
        &mut self,
        channel: u16,
        handle: u32,
        reason: &Reason<'_>,
    ) -> Result<u32, CallFault>
        ensures { CallDone self.old self.new channel (Refuse handle (reason_of reason.now)) (dropped_by result) }
    {
        self.say_why(channel, Refusal::Link { handle }, reason)
    }

    /// Tells the sender that the delivery of a session with this id is rejected, and why, by a disposition with
    /// an error that it writes [3.4.3]. What becomes of the delivery is as in [`Endpoint::settle`]. The first
    /// fault is returned, and nothing has changed: `Dead`, `NoSession`, `NoDelivery`, `NotTaken`, `AlreadyTold`,
    /// `BadError`, `Full`.
    pub fn settle_with(
        &mut self,
        channel: u16,
        id: u32,
        reason: &Reason<'_>,
    ) -> Result<(), CallFault>
        ensures { CallDone self.old self.new channel (SettleWith id (reason_of reason.now)) (accepted_by result) }
    {
        let refusal = Refusal::Deliveries {
            first: id,
            last: id,
        };
        self.say_why(channel, refusal, reason)?;
        Ok(())
    }

    /// Tells the sender that the open deliveries of a session with ids from `first` to `last` are rejected, and
    /// why, by one disposition with an error that it writes [3.4.3]. Returns how many deliveries that names. What
    /// becomes of them is as in [`Endpoint::settle_range`]. The first fault is returned, and nothing has changed:
    /// `Dead`, `NoSession`, `NoDelivery`, `NotTaken`, `AlreadyTold`, `MixedModes`, `BadError`, `Full`.
    pub fn settle_range_with(
        &mut self,
        channel: u16,
        first: u32,
        last: u32,
        reason: &Reason<'_>,
    ) -> Result<u32, CallFault>
        ensures { CallDone self.old self.new channel (SettleRangeWith first last (reason_of reason.now)) (named_by result) }
    {
        self.say_why(channel, Refusal::Deliveries { first, last }, reason)
    }

    /// Makes a refusal of a session, and writes the frame for it. Returns how many ready deliveries were dropped
    /// with a link, or how many deliveries are named.
    fn say_why(
        &mut self,
        channel: u16,
        refusal: Refusal,
        reason: &Reason<'_>,
    ) -> Result<u32, CallFault>
        ensures answered { CallAnswered self.old.connection self.new.connection self.old.unsent self.new.unsent channel (refused_of refusal (reason_of reason.now)) result }
        ensures input { IsUnchanged self.old.input self.new.input }
        ensures count { IfOk result (λ n. IsCounted (accepted_answer (slot_at self.old.connection channel) (refused_of refusal (reason_of reason.now))) n) }
    {
        reasons::refuse(
            &mut self.connection,
            &mut self.out,
            channel,
            refusal,
            reason,
        )
    }

    /// Makes a request of a session, and writes the frame for it. Returns how many deliveries a settle names,
    /// or a detach drops.
    // Inlined for `telemetry` and `gateway` (docs/PERF.md).
    #[inline(always)]
    fn ask(&mut self, channel: u16, request: Request) -> Result<u32, CallFault>
        ensures answered { CallAnswered self.old.connection self.new.connection self.old.unsent self.new.unsent channel (asked_of request) result }
        ensures input { IsUnchanged self.old.input self.new.input }
        ensures count { IfOk result (λ n. IsCounted (accepted_answer (slot_at self.old.connection channel) (asked_of request)) n) }
    {
        requests::ask(&mut self.connection, &mut self.out, channel, request)
    }

    /// Closes the connection, by a close that it writes [2.4.3]. Returns how many ready deliveries were
    /// dropped. Its sessions and links are gone then, and of what the peer sends only its close counts. The
    /// first fault is returned, and nothing has changed: `Dead`, `NotOpen`, `Full`.
    pub fn close(&mut self) -> Result<u32, CallFault>
        ensures { CloseDone self.old self.new (dropped_by result) }
    {
        open_call(&self.connection, &self.out)?;
        Ok(closing::close(&mut self.connection, &mut self.out))
    }

    /// Closes the connection, as [`Endpoint::close`] does, by a close with an error that it writes [2.7.9]. The
    /// first fault is returned, and nothing has changed: `Dead`, `NotOpen`, `BadError`, `Full`.
    pub fn close_with(&mut self, reason: &Reason<'_>) -> Result<u32, CallFault>
        ensures { CloseWithDone self.old self.new (reason_of reason.now) (dropped_by result) }
    {
        close_with_call(&self.connection, &self.out, reason)?;
        Ok(closing::close_with(&mut self.connection, &mut self.out, reason))
    }

    /// Writes an empty frame, which tells the peer that this side is there [2.4.5]. The first fault is
    /// returned, and nothing has changed: `Dead`, `NotOpen`, `Full`.
    pub fn heartbeat(&mut self) -> Result<(), CallFault>
        ensures { BeatDone self.old self.new (accepted_by result) }
    {
        open_call(&self.connection, &self.out)?;
        self.out.beat();
        Ok(())
    }

    /// Ends the input, and returns how the connection stood.
    ///
    /// It is `Failed` if this side ended the connection with an error or refused its header, else `Closed` if
    /// the peer's close came. Else it is `Inside` if bytes of a unit wait, else `Between`. Then the connection
    /// is over, with its sessions and links, and the buffer is empty. What waits to be sent still waits. A
    /// further call returns by the same rule.
    pub fn finish(&mut self) -> End
        ensures finished { IsFinished self.old self.new }
        ensures end { result ≡ end_of self.old }
    {
        let end = self.end();
        self.input.finish();
        self.connection.finish();
        end
    }

    /// Returns how the connection stands.
    fn end(&self) -> End
        ensures { result ≡ end_of self.now }
    {
        if self.connection.has_failed() {
            End::Failed
        } else if self.connection.is_closed() {
            End::Closed
        } else if self.input.is_empty() {
            End::Between
        } else {
            End::Inside(self.input.len())
        }
    }
}

/// Returns the bytes held. The pattern names all fields, so that a new one must be listed here. The input, the
/// output, the connection, its sessions and their links do the same.
fn fields_listed<A: Allocator + Copy>(endpoint: &Endpoint<A>) -> u64
    ensures { result ≡ held endpoint.now }
{
    let Endpoint {
        input,
        out,
        connection,
    } = endpoint;
    input.len() as u64 + out.len() as u64 + connection.held()
}

/// Acts upon the unit that waits, if one does and there is room for its answer.
fn act_on_unit<A: Allocator + Copy>(
    input: &Splitter<A>,
    connection: &mut Connection<A>,
    out: &mut Output<A>,
) -> Acted
    requires begins { input.now.stage ≡ Stage.Header → length out.old + 8 ≤ output_size }
    requires goes_on { IsOver input.now.stage → ⊥ }
    ensures { HasActed input.now connection.old connection.new out.old out.new result }
{
    if let Some(header) = input.header() {
        act_on_header(connection, out, header);
        return Acted::Done(None);
    }
    let Some(unit) = input.frame() else {
        return Acted::Nothing;
    };
    if !out.has_room() {
        return Acted::Blocked;
    }
    match unit {
        Ok(frame) => match act_on_frame(connection, out, frame.channel, frame.body) {
            Ok(told) => Acted::Done(told),
            Err(AllocError) => Acted::NoMemory,
        },
        Err(_) => Acted::Done(act_on_fault(connection, out)),
    }
}

/// Returns the outcome for a unit that was acted upon.
fn told_outcome<A: Allocator + Copy>(connection: &Connection<A>, told: Option<Event>) -> Outcome
    ensures { result ≡ told_outcome connection.now told }
{
    match told {
        Some(event) => Outcome::Event(event),
        None if matches!(connection.phase(), Phase::Dead) => Outcome::Dead,
        None => Outcome::More,
    }
}

/// Returns why a close and a heartbeat would be refused, if they would be.
fn open_call<A: Allocator + Copy>(
    connection: &Connection<A>,
    out: &Output<A>,
) -> Result<(), CallFault>
    ensures ok { OnOk result (open_call_fault connection.now out.now ≡ None) }
    ensures err { IfErr result (λ fault. open_call_fault connection.now out.now ≡ Some fault) }
{
    match connection.phase() {
        Phase::Dead | Phase::Closing => Err(CallFault::Dead),
        Phase::Unopened => Err(CallFault::NotOpen),
        Phase::Open { .. } if out.has_room() => Ok(()),
        Phase::Open { .. } => Err(CallFault::Full),
    }
}

/// Returns why a close with an error would be refused, if it would be.
fn close_with_call<A: Allocator + Copy>(
    connection: &Connection<A>,
    out: &Output<A>,
    reason: &Reason<'_>,
) -> Result<(), CallFault>
    ensures ok { OnOk result (close_with_fault connection.now out.now (reason_of reason.now) ≡ None) }
    ensures err { IfErr result (λ fault. close_with_fault connection.now out.now (reason_of reason.now) ≡ Some fault) }
{
    match connection.phase() {
        Phase::Dead | Phase::Closing => Err(CallFault::Dead),
        Phase::Unopened => Err(CallFault::NotOpen),
        Phase::Open { .. } if !reason.is_valid() => Err(CallFault::BadError),
        Phase::Open { .. } if out.has_room() => Ok(()),
        Phase::Open { .. } => Err(CallFault::Full),
    }
}
