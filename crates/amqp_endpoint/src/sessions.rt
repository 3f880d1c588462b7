//! What the peer does with the sessions of an open connection.
ghost use Rattle.std.specs.Prelude.{◌≡◌, ◌≤◌, ◌<◌, ◌+◌, ◌++◌, [], ◌∷◌, length, Some, None, OnOk, OnErr, IfOk};
ghost use Rattle.amqp_perform.specs.Conditions.{condition_span};
ghost use Rattle.amqp_session.specs.declared.slot.Slot.TheVariants.{Live};
ghost use Rattle.amqp_session.specs.Answers.{said_by};
ghost use Rattle.amqp_session.specs.Faults.{failure_answer};
ghost use Rattle.amqp_session.specs.Frames.{Frame, attaching};
ghost use Rattle.amqp_session.specs.Sessions.{SessionState};
ghost use Rattle.amqp_endpoint.specs.Acting.{IsLive, IsForSession, HasDone, IsRefused, is_above_handle_max, replied, attach_answered};
ghost use Rattle.amqp_endpoint.specs.Calls.{output_size, reply_room};
ghost use Rattle.amqp_endpoint.specs.Connections.{connection_after, channel_ready, slot_at, Begun, SessionEnded, SessionFailed};
ghost use Rattle.amqp_endpoint.specs.Fields.{beginning, frame_in};
ghost use Rattle.amqp_endpoint.specs.Lines.{begun_terms, report_told, session_line};
ghost use Rattle.amqp_endpoint.specs.Replies.{joined, on_channel, begin_said, end_said};

use crate::connection::Connection;
use crate::event::{Event, Scope};
use crate::laws::frames_are_as_long;
use crate::output::{Output, Saying};
use crate::phase::Phase;
use crate::{closing, frames, reports};
use amqp_link::LinkBounds;
use amqp_perform::{Attach, Begin, Condition, Performative};
use amqp_session::{Answer, Report, SessionFault, SessionTerms, Slot, failure, refusal_reply};
use std::alloc::{AllocError, Allocator};

/// Returns what a session begins with [2.5.1, 2.7.2].
pub fn terms<A: Allocator + Copy>(connection: &Connection<A>, begin: &Begin<'_>) -> SessionTerms
    ensures { result ≡ begun_terms connection.now (beginning begin.now) }
{
    let config = connection.config();
    let handle_max = if config.handle_max() as u32 <= begin.handle_max {
        config.handle_max()
    } else {
        begin.handle_max as u8
    };
    let max_frame_size = match connection.phase() {
        Phase::Open { max_frame_size, .. } => max_frame_size,
        _ => 512,
    };
    SessionTerms {
        incoming_window: config.window(),
        next_outgoing_id: begin.next_outgoing_id,
        handle_max,
        max_frame_size,
    }
}

/// Begins a session on a free channel, and writes the begin that answers [2.5.1]. If memory is refused, nothing
/// has changed.
pub fn begin<A: Allocator + Copy>(
    connection: &mut Connection<A>,
    out: &mut Output<A>,
    channel: u8,
    terms: SessionTerms,
) -> Result<Event, AllocError>
    requires room { length out.old + reply_room ≤ output_size }
    requires channel { channel ≤ connection.old.config.channel_max }
    ensures connection { OnOk result (connection.new ≡ connection_after connection.old (Begun channel terms)) }
    ensures unsent { OnOk result (out.new ≡ out.old ++ joined (on_channel channel (begin_said channel terms ∷ []))) }
    ensures told { IfOk result (λ told. told ≡ Event.Begun channel) }
    ensures same { OnErr result (connection.new ≡ connection.old) }
    ensures unsaid { OnErr result (out.new ≡ out.old) }
{
    connection.begin(channel, terms)?;
    out.say(channel as u16, &frames::begin(channel as u16, &terms));
    Ok(Event::Begun {
        channel: channel as u16,
    })
}

/// Ends the session on a channel after the peer's end, and writes the end that answers [2.5.3].
pub fn end<A: Allocator + Copy>(
    connection: &mut Connection<A>,
    out: &mut Output<A>,
    channel: u8,
) -> Event
    requires room { length out.old + reply_room ≤ output_size }
    requires channel { channel ≤ connection.old.config.channel_max }
    ensures connection { connection.new ≡ connection_after connection.old (SessionEnded channel) }
    ensures unsent { out.new ≡ out.old ++ joined (on_channel channel (end_said [] ∷ [])) }
    ensures told { result ≡ Event.Ended channel (channel_ready (slot_at connection.old channel)) }
{
    out.say(channel as u16, &frames::end(&[]));
    Event::Ended {
        channel: channel as u16,
        dropped: connection.session_ended(channel),
    }
}

/// Ends the session on a channel with an error of this side [2.5.4].
pub fn fail<A: Allocator + Copy>(
    connection: &mut Connection<A>,
    out: &mut Output<A>,
    channel: u8,
    condition: Condition,
) -> Event
    requires room { length out.old + reply_room ≤ output_size }
    requires channel { channel ≤ connection.old.config.channel_max }
    ensures connection { connection.new ≡ connection_after connection.old (SessionFailed channel) }
    ensures unsent { out.new ≡ out.old ++ joined (on_channel channel (end_said (condition_span condition) ∷ [])) }
    ensures told { result ≡ Event.Failed (Scope.Session channel) condition (channel_ready (slot_at connection.old channel)) }
{
    out.say(channel as u16, &frames::end(frames::error(condition)));
    Event::Failed {
        scope: Scope::Session {
            channel: channel as u16,
        },
        condition,
        dropped: connection.fail_session(channel),
    }
}

/// Acts upon a frame of the live session on a channel [2.5, 2.6]. If memory is refused, nothing has changed.
pub fn frame<A: Allocator + Copy>(
    connection: &mut Connection<A>,
    out: &mut Output<A>,
    channel: u8,
    performative: &Performative<'_>,
    payload: &[u8],
) -> Result<Option<Event>, AllocError>
    requires room { length out.old + reply_room ≤ output_size }
    requires channel { channel ≤ connection.old.config.channel_max }
    requires live { IsLive (slot_at connection.old channel) }
    requires session { IsForSession (frame_in connection.old.config performative.now payload.now) }
    ensures { (s : SessionState) (f : Frame) → slot_at connection.old channel ≡ Live s → frame_in connection.old.config performative.now payload.now ≡ Some f
        → HasDone connection.old connection.new out.old out.new (session_line channel s f) result }
{
    frames_are_as_long();
    if is_too_high(connection, channel, performative) {
        return Ok(Some(closing::close_with_error(connection, out, Condition::FramingError)));
    }
    match &connection.frame(channel, performative, payload) {
        Ok(done) => {
            answer(connection, out, channel, performative, &done.answer);
            Ok(reports::told(channel as u16, done.report))
        }
        Err(fault) => refuse(connection, out, channel, *fault),
    }
}

/// Ends a session that refused a frame, unless memory was refused: then nothing has changed.
#[inline(never)]
pub fn refuse<A: Allocator + Copy>(
    connection: &mut Connection<A>,
    out: &mut Output<A>,
    channel: u8,
    fault: SessionFault,
) -> Result<Option<Event>, AllocError>
    requires room { length out.old + reply_room ≤ output_size }
    requires channel { channel ≤ connection.old.config.channel_max }
    ensures { IsRefused connection.old connection.new out.old out.new channel fault result }
{
    match reports::condition_of(fault) {
        Some(condition) => Ok(Some(fail(connection, out, channel, condition))),
        None => Err(AllocError),
    }
}

/// Returns the event for a transfer that its session took. If it ended its link, writes the detach for that
/// [2.6.5].
#[inline(never)]
pub fn answer_transfer<A: Allocator + Copy>(
    out: &mut Output<A>,
    channel: u8,
    report: Report,
) -> Option<Event>
    requires room { length out.old + reply_room ≤ output_size }
    requires short { length (joined (on_channel channel (failure_answer report))) ≤ reply_room }
    ensures answered { out.new ≡ out.old ++ joined (on_channel channel (failure_answer report)) }
    ensures told { result ≡ report_told channel report }
{
    if let Report::Failed {
        handle,
        condition,
        ..
    } = report
    {
        out.put(channel as u16, &Saying::Detach(failure(handle, condition)));
    }
    reports::told(channel as u16, report)
}

/// Returns whether an attach's handle is above the highest of the session on a channel [2.7.2].
fn is_too_high<A: Allocator + Copy>(
    connection: &Connection<A>,
    channel: u8,
    performative: &Performative<'_>,
) -> bool
    requires { channel ≤ connection.now.config.channel_max }
    ensures { result ≡ is_above_handle_max (slot_at connection.now channel) performative.now }
{
    match performative {
        Performative::Attach(attach) => match connection.place(channel) {
            Slot::Live(kept) => attach.handle > kept.session().terms().handle_max as u32,
            _ => false,
        },
        _ => false,
    }
}

/// Writes the answer to a performative that the session on a channel has taken.
fn answer<A: Allocator + Copy>(
    connection: &Connection<A>,
    out: &mut Output<A>,
    channel: u8,
    performative: &Performative<'_>,
    answer: &Answer,
)
    requires room { length out.old + reply_room ≤ output_size }
    requires channel { channel ≤ connection.now.config.channel_max }
    requires short { length (joined (on_channel channel (replied connection.now.config performative.now answer.now))) ≤ reply_room }
    ensures { out.new ≡ out.old ++ joined (on_channel channel (replied connection.now.config performative.now answer.now)) }
{
    match performative {
        Performative::Attach(attach) => {
            let bounds = connection.config().bounds_for(attach.name.as_bytes());
            answer_attach(out, channel, attach, bounds, answer)
        }
        _ => answer_alone(out, channel, answer),
    }
}

/// Writes an answer that needs nothing of its frame.
fn answer_alone<A: Allocator + Copy>(out: &mut Output<A>, channel: u8, answer: &Answer)
    requires room { length out.old + reply_room ≤ output_size }
    requires short { length (joined (on_channel channel (said_by answer.now))) ≤ reply_room }
    ensures { out.new ≡ out.old ++ joined (on_channel channel (said_by answer.now)) }
{
    match answer {
        Answer::Nothing => {}
        Answer::Flow(flow) => out.put(channel as u16, &Saying::Flow(*flow)),
        Answer::Detach(detach) => out.put(channel as u16, &Saying::Detach(*detach)),
        Answer::Attach => {}
        Answer::Refusal(detach) => out.put(channel as u16, &Saying::Detach(*detach)),
    }
}

/// Writes the answer to an attach that its session has taken. The link has these bounds [2.6.3].
fn answer_attach<A: Allocator + Copy>(
    out: &mut Output<A>,
    channel: u8,
    attach: &Attach<'_>,
    bounds: LinkBounds,
    answer: &Answer,
)
    requires room { length out.old + reply_room ≤ output_size }
    requires short { length (joined (on_channel channel (attach_answered (attaching attach.now bounds) answer.now))) ≤ reply_room }
    ensures { out.new ≡ out.old ++ joined (on_channel channel (attach_answered (attaching attach.now bounds) answer.now)) }
{
    match answer {
        Answer::Attach => out.put(channel as u16, &Saying::Attached(attach, bounds)),
        Answer::Refusal(detach) => {
            let reply = Performative::Attach(refusal_reply(attach));
            out.put(channel as u16, &Saying::Performative(&reply));
            out.put(channel as u16, &Saying::Detach(*detach));
        }
        _ => answer_alone(out, channel, answer),
    }
}
