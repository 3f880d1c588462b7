//! What `amqp_endpoint` promises.

ghost use Rattle.std.specs.Prelude.{◌≡◌, ◌↔◌, [], IsTrue, ℕ, List, slice_index, ◌+◌, ◌≤◌, ◌++◌, ◌<◌, min, length, take, drop, true, false, option_map, IfOk, IfErr, IfSome, map};
ghost use Rattle.amqp_frame.specs.Splits.{IsOver, TakesNothing};
ghost use Rattle.amqp_reason.specs.Reasons.{reason_of};
ghost use Rattle.amqp_session.specs.Calls.{Widen, Grant, Drain, Take, Settle, SettleRange, Detach, Refuse, SettleWith, SettleRangeWith};
ghost use Rattle.amqp_session.specs.Places.{live_in};
ghost use Rattle.amqp_session.specs.Sessions.{IsApart};
ghost use Rattle.amqp_endpoint.specs.Connections.{slot_at, is_dead};
ghost use Rattle.amqp_endpoint.specs.Endpoints.{IsLinkAt, accepted_by, dropped_by, named_by, handed_by, call_of, answer_of, IsReplay};
ghost use Rattle.amqp_endpoint.specs.Held.{held};
ghost use Rattle.amqp_endpoint.specs.Runs.{IsStart, IsMoved, IsFinished, CallDone, CloseDone, CloseWithDone, BeatDone, end_of, Does, may_want};
ghost use Rattle.amqp_session.specs.Lacking.{IsFirstLacking};
ghost use Rattle.amqp_endpoint.specs.Takings.{link_at};
ghost use Rattle.amqp_endpoint.specs.Steps.{AsksFor, MayRead, IsFed};
ghost use Rattle.amqp_endpoint.specs.RoomLending.{LendsRoom};
ghost use Rattle.std.specs.Borrow.{sem};
ghost use Rattle.amqp_endpoint.specs.Traces.{IsWholeRun};

use amqp_endpoint::{Answer, Call, CallFault, Config, End, Endpoint, Fed, LimitFault, LinkLimit};
use amqp_link::{LinkBounds, Taken};
use amqp_perform::Outcome as Settlement;
use amqp_reason::Reason;
use amqp_session::LinkView;
use std::alloc::{AllocError, Allocator};

/// Makes an endpoint as it is before the peer's header [2.2].
pub fn new<A: Allocator + Copy>(alloc: A, config: Config<A>) -> Result<Endpoint<A>, AllocError>
    ensures { IfOk result (λ endpoint. IsStart config endpoint) }
{
    Endpoint::new(alloc, config)
}

/// Takes bytes of the peer, and acts upon the unit that is then whole [2.2, 2.3.1].
pub fn feed<A: Allocator + Copy>(endpoint: &mut Endpoint<A>, piece: &[u8]) -> Fed
    ensures { IsFed endpoint.old endpoint.new piece.now result.used result.outcome }
{
    endpoint.feed(piece)
}

/// Lends the room into which a reader may read the peer's next bytes [2.2, 2.3.1].
pub fn spare<A: Allocator + Copy>(endpoint: &mut Endpoint<A>) -> &mut [u8]
    ensures* writes_back { sem 𝓛 (LendsRoom A.row A.Allocator endpoint.entry result) }
    ensures asks { AsksFor endpoint.old (length result.now) }
    ensures none { length result.now ≡ 0 → is_dead endpoint.old.connection.phase ≡ false → TakesNothing endpoint.old.input }
    ensures value { result.now ≡ take (length result.now) endpoint.old.input.spare }
{
    endpoint.spare()
}

/// Takes the first `n` bytes of the room that [`Endpoint::spare`] lends, and acts upon the unit that is then
/// whole, as [`Endpoint::feed`] does with a piece of them.
pub fn filled<A: Allocator + Copy>(endpoint: &mut Endpoint<A>, n: usize) -> Fed
    requires { MayRead endpoint.old n }
    ensures used { result.used ≡ n }
    ensures fed { IsFed endpoint.old endpoint.new (take n endpoint.old.input.spare) n result.outcome }
{
    endpoint.filled(n)
}

/// A law: the buffer has room for the eight bytes of a header [2.2].
pub fn holds_a_header<A: Allocator + Copy>(endpoint: &Endpoint<A>)
    ensures { 8 ≤ endpoint.now.input.limit }
{
    endpoint.holds_a_header();
}

/// A law: no two open deliveries of the session on a channel have the same id [2.6.12].
pub fn ids_are_apart<A: Allocator + Copy>(endpoint: &Endpoint<A>, channel: u16)
    ensures { IfSome (live_in (slot_at endpoint.now.connection channel)) IsApart }
{
    endpoint.ids_are_apart(channel);
}

/// A law: the room that is lent consists of bytes.
pub fn spare_is_bytes<A: Allocator + Copy>(endpoint: &Endpoint<A>)
    ensures { (i : ℕ) → slice_index endpoint.now.input.spare i < 256 }
{
    endpoint.spare_is_bytes();
}

/// Returns whether no bytes wait to be sent.
pub fn is_all_sent<A: Allocator + Copy>(endpoint: &Endpoint<A>) -> bool
    ensures { IsTrue result ↔ (endpoint.now.unsent ≡ []) }
{
    endpoint.is_all_sent()
}

/// Returns the first bytes that wait to be sent, as many as lie in one piece.
pub fn unsent_front<A: Allocator + Copy>(endpoint: &Endpoint<A>) -> &[u8]
    ensures front { (behind : List ℕ) × (endpoint.now.unsent ≡ result.now ++ behind) }
    ensures some { 0 < length endpoint.now.unsent → 0 < length result.now }
{
    endpoint.unsent_front()
}

/// Drops the first `n` bytes that wait to be sent, which the caller has written.
pub fn sent<A: Allocator + Copy>(endpoint: &mut Endpoint<A>, n: usize)
    requires { n ≤ length endpoint.old.unsent }
    ensures new { endpoint.new ≡ record endpoint.old { unsent = drop n endpoint.old.unsent } }
    ensures moved { IsMoved endpoint.old endpoint.new n (take n endpoint.old.unsent) }
{
    endpoint.sent(n);
}

/// Moves the first bytes that wait to be sent into `out`, as many as it holds, and returns how many.
pub fn output<A: Allocator + Copy>(endpoint: &mut Endpoint<A>, out: &mut [u8]) -> usize
    ensures count { result ≡ min (length out.old) (length endpoint.old.unsent) }
    ensures read { out.new ≡ take result endpoint.old.unsent ++ drop result out.old }
    ensures new { endpoint.new ≡ record endpoint.old { unsent = drop result endpoint.old.unsent } }
    ensures moved { IsMoved endpoint.old endpoint.new (length out.old) (take (length out.old) endpoint.old.unsent) }
{
    endpoint.output(out)
}

/// Returns what the endpoint was set up with.
pub fn config<A: Allocator + Copy>(endpoint: &Endpoint<A>) -> &Config<A>
    ensures { result.now ≡ endpoint.now.connection.config }
{
    endpoint.config()
}

/// Returns whether the connection is over.
pub fn is_over<A: Allocator + Copy>(endpoint: &Endpoint<A>) -> bool
    ensures value { result ≡ is_dead endpoint.now.connection.phase }
    ensures stage { IsOver endpoint.now.input.stage → result ≡ true }
{
    endpoint.is_over()
}

/// Returns whether no byte waits in the buffer.
pub fn is_between<A: Allocator + Copy>(endpoint: &Endpoint<A>) -> bool
    ensures { IsTrue result ↔ (endpoint.now.input.filled ≡ []) }
{
    endpoint.is_between()
}

/// Returns the bytes held.
pub fn held<A: Allocator + Copy>(endpoint: &Endpoint<A>) -> u64
    ensures { result ≡ held endpoint.now }
{
    endpoint.held()
}

/// Returns how many places of the incoming window are left in the session on a channel [2.5.6].
pub fn window<A: Allocator + Copy>(endpoint: &Endpoint<A>, channel: u16) -> Option<u32>
    ensures { result ≡ option_map (λ s. s.window) (live_in (slot_at endpoint.now.connection channel)) }
{
    endpoint.window(channel)
}

/// Returns a view of the live link at a handle of the session on a channel [2.6.2]; `None` if none is live.
pub fn link<A: Allocator + Copy>(
    endpoint: &Endpoint<A>,
    channel: u16,
    handle: u32,
) -> Option<LinkView<'_>>
    ensures { IsLinkAt (slot_at endpoint.now.connection channel) handle result }
{
    endpoint.link(channel, handle)
}

/// Returns the first handle, from `from` on, whose link in the session on a channel has less credit than
/// `credit` and can be granted more [2.6.7].
pub fn first_lacking<A: Allocator + Copy>(
    endpoint: &Endpoint<A>,
    channel: u16,
    from: u32,
    credit: u32,
) -> Option<u32>
    ensures { IsFirstLacking credit from (link_at endpoint.now.connection channel) result }
{
    endpoint.first_lacking(channel, from, credit)
}

/// Grants the link at a handle `n` more places of credit, and writes the flow that says so [2.6.7].
pub fn grant<A: Allocator + Copy>(
    endpoint: &mut Endpoint<A>,
    channel: u16,
    handle: u32,
    n: u32,
) -> Result<(), CallFault>
    ensures { CallDone endpoint.old endpoint.new channel (Grant handle n) (accepted_by result) }
{
    endpoint.grant(channel, handle, n)
}

/// Widens the incoming window of the session on a channel by `n` places, and writes the flow that says so [2.5.6].
pub fn widen<A: Allocator + Copy>(
    endpoint: &mut Endpoint<A>,
    channel: u16,
    n: u32,
) -> Result<(), CallFault>
    ensures { CallDone endpoint.old endpoint.new channel (Widen n) (accepted_by result) }
{
    endpoint.widen(channel, n)
}

/// Asks the sender on the link at a handle to use its credit up, by a flow that it writes [2.6.7].
pub fn drain<A: Allocator + Copy>(
    endpoint: &mut Endpoint<A>,
    channel: u16,
    handle: u32,
) -> Result<(), CallFault>
    ensures { CallDone endpoint.old endpoint.new channel (Drain handle) (accepted_by result) }
{
    endpoint.drain(channel, handle)
}

/// Hands up the first delivery that is ready on the link at a handle [2.6.14].
pub fn take<A: Allocator + Copy>(
    endpoint: &mut Endpoint<A>,
    channel: u16,
    handle: u32,
) -> Result<Taken<A>, CallFault>
    ensures { CallDone endpoint.old endpoint.new channel (Take handle) (handed_by result) }
{
    endpoint.take(channel, handle)
}

/// Tells the sender what became of the delivery of a session with this id, by a disposition that it writes
/// [2.6.12].
pub fn settle<A: Allocator + Copy>(
    endpoint: &mut Endpoint<A>,
    channel: u16,
    id: u32,
    outcome: Settlement,
) -> Result<(), CallFault>
    ensures { CallDone endpoint.old endpoint.new channel (Settle id outcome) (accepted_by result) }
{
    endpoint.settle(channel, id, outcome)
}

/// Tells the sender what became of the open deliveries of a session with ids from `first` to `last`, by one
/// disposition that it writes [2.7.6, 2.8.10]. Returns how many deliveries that names.
pub fn settle_range<A: Allocator + Copy>(
    endpoint: &mut Endpoint<A>,
    channel: u16,
    first: u32,
    last: u32,
    outcome: Settlement,
) -> Result<u32, CallFault>
    ensures { CallDone endpoint.old endpoint.new channel (SettleRange first last outcome) (named_by result) }
{
    endpoint.settle_range(channel, first, last, outcome)
}

/// Ends the link at a handle, by a detach with closed true that it writes [2.6.6]. Returns how many ready
/// deliveries were dropped.
pub fn detach<A: Allocator + Copy>(
    endpoint: &mut Endpoint<A>,
    channel: u16,
    handle: u32,
) -> Result<u32, CallFault>
    ensures { CallDone endpoint.old endpoint.new channel (Detach handle) (dropped_by result) }
{
    endpoint.detach(channel, handle)
}

/// Ends the link at a handle, by a detach with closed true and an error that it writes [2.6.5]. Returns how many
/// ready deliveries were dropped.
pub fn refuse<A: Allocator + Copy>(
    endpoint: &mut Endpoint<A>,
    channel: u16,
    handle: u32,
    reason: &Reason<'_>,
) -> Result<u32, CallFault>
    ensures { CallDone endpoint.old endpoint.new channel (Refuse handle (reason_of reason.now)) (dropped_by result) }
{
    endpoint.refuse(channel, handle, reason)
}

/// Tells the sender that the delivery of a session with this id is rejected, and why, by a disposition with an
/// error that it writes [3.4.3].
pub fn settle_with<A: Allocator + Copy>(
    endpoint: &mut Endpoint<A>,
    channel: u16,
    id: u32,
    reason: &Reason<'_>,
) -> Result<(), CallFault>
    ensures { CallDone endpoint.old endpoint.new channel (SettleWith id (reason_of reason.now)) (accepted_by result) }
{
    endpoint.settle_with(channel, id, reason)
}

/// Tells the sender that the open deliveries of a session with ids from `first` to `last` are rejected, and why,
/// by one disposition with an error that it writes [3.4.3]. Returns how many deliveries that names.
pub fn settle_range_with<A: Allocator + Copy>(
    endpoint: &mut Endpoint<A>,
    channel: u16,
    first: u32,
    last: u32,
    reason: &Reason<'_>,
) -> Result<u32, CallFault>
    ensures { CallDone endpoint.old endpoint.new channel (SettleRangeWith first last (reason_of reason.now)) (named_by result) }
{
    endpoint.settle_range_with(channel, first, last, reason)
}

/// Closes the connection, by a close with an error that it writes [2.7.9]. Returns how many ready deliveries were
/// dropped.
pub fn close_with<A: Allocator + Copy>(
    endpoint: &mut Endpoint<A>,
    reason: &Reason<'_>,
) -> Result<u32, CallFault>
    ensures { CloseWithDone endpoint.old endpoint.new (reason_of reason.now) (dropped_by result) }
{
    endpoint.close_with(reason)
}

/// Closes the connection, by a close that it writes [2.4.3]. Returns how many ready deliveries were dropped.
pub fn close<A: Allocator + Copy>(endpoint: &mut Endpoint<A>) -> Result<u32, CallFault>
    ensures { CloseDone endpoint.old endpoint.new (dropped_by result) }
{
    endpoint.close()
}

/// Writes an empty frame, which tells the peer that this side is there [2.4.5].
pub fn heartbeat<A: Allocator + Copy>(endpoint: &mut Endpoint<A>) -> Result<(), CallFault>
    ensures { BeatDone endpoint.old endpoint.new (accepted_by result) }
{
    endpoint.heartbeat()
}

/// Ends the input, and returns how the connection stood.
pub fn finish<A: Allocator + Copy>(endpoint: &mut Endpoint<A>) -> End
    ensures finished { IsFinished endpoint.old endpoint.new }
    ensures end { result ≡ end_of endpoint.old }
{
    endpoint.finish()
}

/// Makes these calls on a new endpoint, in order, and returns the endpoint and the answers.
pub fn replay<A: Allocator + Copy>(
    alloc: A,
    config: Config<A>,
    calls: &[Call<'_>],
) -> Result<(Endpoint<A>, Vec<Answer<A>, A>), AllocError>
    ensures run { IfOk result (λ r. IsReplay config (map call_of calls.now) (map answer_of r.1.items) r.0) }
    ensures whole { IfOk result (λ r. IsWholeRun config (map call_of calls.now) (map answer_of r.1.items) r.0) }
{
    amqp_endpoint::replay(alloc, config, calls)
}

/// Makes one call, and returns its answer.
pub fn call<A: Allocator + Copy>(
    endpoint: &mut Endpoint<A>,
    alloc: A,
    call: &Call<'_>,
) -> Result<Answer<A>, AllocError>
    ensures ok { IfOk result (λ answer. Does endpoint.old endpoint.new (call_of call.now) (answer_of answer)) }
    ensures err { IfErr result (λ _. (endpoint.new ≡ endpoint.old) × (may_want endpoint.old (call_of call.now) ≡ true)) }
{
    endpoint.call(alloc, call)
}
