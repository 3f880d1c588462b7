//! What the endpoint does with a whole unit of its peer: the header, a frame, or a malformed frame.
ghost use Rattle.std.specs.Prelude.{◌≡◌, ℕ, List, ◌≤◌, ◌+◌, length, Some, None, true, false};
ghost use Rattle.amqp_frame.specs.declared.units.FrameFault.{FrameFault};
ghost use Rattle.amqp_frame.specs.Units.{HeaderUnit, FaultUnit};
ghost use Rattle.amqp_perform.specs.BodyReading.{body_at};
ghost use Rattle.amqp_endpoint.specs.Acting.{IsDone, HasDone, IsForSession, IsLive};
ghost use Rattle.amqp_endpoint.specs.Calls.{output_size, reply_room};
ghost use Rattle.amqp_endpoint.specs.Connections.{is_closing, is_unopened, slot_at};
ghost use Rattle.amqp_endpoint.specs.Lines.{is_read_close, line_of, frame_at, closing_line, unread_line, read_line, unopened_line, channel_line, PeerOpens};
ghost use Rattle.amqp_link.specs.Links.{sent_of};
ghost use Rattle.amqp_session.specs.Frames.{Frame, Transfers};
ghost use Rattle.amqp_endpoint.specs.Fields.{Begins, Ends, ForSession, frame_in, read_of, opening, beginning};

use crate::connection::Connection;
use crate::event::Event;
use crate::introduction::Introduction;
use crate::laws::{fields_say_the_performative, frames_are_as_long};
use crate::opening::say_open;
use crate::output::Output;
use crate::phase::Phase;
use crate::{closing, sessions};
use amqp_frame::HEADER;
use amqp_perform::{
    Begin, BodyFault, Condition, Open, Performative, Transfer, read_body, read_transfer_into,
};
use amqp_session::{Report, Slot};
use std::alloc::{AllocError, Allocator};

/// Acts upon the protocol header. The answer is the header of this side. A header other than that ends the
/// connection [2.2].
pub fn act_on_header<A: Allocator + Copy>(
    connection: &mut Connection<A>,
    out: &mut Output<A>,
    header: [u8; 8],
)
    requires { length out.old + 8 ≤ output_size }
    ensures { IsDone connection.old connection.new out.old out.new (line_of connection.old (HeaderUnit header)) None }
{
    out.put_bytes(&HEADER);
    if header != HEADER {
        connection.refuse_header();
    }
}

/// Acts upon a malformed frame: the connection is over. This side writes a close with an error, unless it has
/// closed before [2.3.1].
pub fn act_on_fault<A: Allocator + Copy>(
    connection: &mut Connection<A>,
    out: &mut Output<A>,
) -> Option<Event>
    requires { length out.old + reply_room ≤ output_size }
    ensures { (fault : FrameFault) (bytes : List ℕ) → IsDone connection.old connection.new out.old out.new (line_of connection.old (FaultUnit fault bytes)) result }
{
    if is_closing(connection) {
        connection.drop_silently();
        return None;
    }
    Some(closing::fail_at_once(connection, out))
}

/// Acts upon a whole frame, by what its body says [2.3.2, 2.7]. If memory is refused, nothing has changed.
// The path of each message, so a transfer on an open connection is checked first.
#[inline(always)]
pub fn act_on_frame<A: Allocator + Copy>(
    connection: &mut Connection<A>,
    out: &mut Output<A>,
    channel: u16,
    body: &[u8],
) -> Result<Option<Event>, AllocError>
    requires { length out.old + reply_room ≤ output_size }
    ensures { HasDone connection.old connection.new out.old out.new (frame_at connection.old channel body.now) result }
{
    fields_say_the_performative();
    if is_open(connection) && channel <= connection.channel_limit() {
        let mut transfer = Transfer::blank();
        if let Some(len) = read_transfer_into(body, &mut transfer) {
            let payload = &body[len..];
            return act_on_transfer(connection, out, channel as u8, &transfer, payload);
        }
    }
    act_on_any_frame(connection, out, channel, body)
}

/// Acts upon any frame, by its line of `specs/Lines.antt`. If memory is refused, nothing has changed.
#[inline(never)]
fn act_on_any_frame<A: Allocator + Copy>(
    connection: &mut Connection<A>,
    out: &mut Output<A>,
    channel: u16,
    body: &[u8],
) -> Result<Option<Event>, AllocError>
    requires { length out.old + reply_room ≤ output_size }
    ensures { HasDone connection.old connection.new out.old out.new (frame_at connection.old channel body.now) result }
{
    fields_say_the_performative();
    if is_closing(connection) {
        return Ok(await_close(connection, body));
    }
    if body.is_empty() {
        return Ok(None);
    }
    if channel > connection.channel_limit() {
        return Ok(Some(closing::close_with_error(connection, out, Condition::FramingError)));
    }
    match &read_body(body) {
        Ok((performative, len)) => {
            act(connection, out, channel as u8, performative, &body[*len..])
        }
        Err(fault) => Ok(Some(refuse_body(connection, out, *fault))),
    }
}

/// Closes the connection because of a body that is no valid performative.
fn refuse_body<A: Allocator + Copy>(
    connection: &mut Connection<A>,
    out: &mut Output<A>,
    fault: BodyFault,
) -> Event
    requires { length out.old + reply_room ≤ output_size }
    ensures { IsDone connection.old connection.new out.old out.new (unread_line fault) (Some result) }
{
    let condition = match fault {
        BodyFault::Decode(_) => Condition::DecodeError,
        BodyFault::InvalidField => Condition::InvalidField,
    };
    closing::close_with_error(connection, out, condition)
}

/// Takes a frame while the peer's close is awaited. A close that can be read ends the connection; anything else
/// is dropped [2.4.3].
fn await_close<A: Allocator + Copy>(connection: &mut Connection<A>, body: &[u8]) -> Option<Event>
    ensures { (unsent : List ℕ) → IsDone connection.old connection.new unsent unsent (closing_line body.now) result }
{
    if is_close(body) {
        connection.peer_closed();
        return Some(Event::Closed { dropped: 0 });
    }
    None
}

/// Returns whether the peer's close is awaited.
fn is_closing<A: Allocator + Copy>(connection: &Connection<A>) -> bool
    ensures { result ≡ is_closing connection.now.phase }
{
    matches!(connection.phase(), Phase::Closing)
}

/// Returns whether both sides have opened the connection, and neither has closed it.
fn is_open<A: Allocator + Copy>(connection: &Connection<A>) -> bool
    ensures open { result ≡ true → is_unopened connection.now.phase ≡ false }
    ensures awake { result ≡ true → is_closing connection.now.phase ≡ false }
{
    matches!(connection.phase(), Phase::Open { .. })
}

/// Returns whether a body is a close.
fn is_close(body: &[u8]) -> bool
    ensures { result ≡ is_read_close (body_at body.now) }
{
    matches!(read_body(body), Ok((Performative::Close(_), _)))
}

/// Acts upon a performative with its payload. If memory is refused, nothing has changed.
fn act<A: Allocator + Copy>(
    connection: &mut Connection<A>,
    out: &mut Output<A>,
    channel: u8,
    performative: &Performative<'_>,
    payload: &[u8],
) -> Result<Option<Event>, AllocError>
    requires room { length out.old + reply_room ≤ output_size }
    requires channel { channel ≤ connection.old.config.channel_max }
    ensures { HasDone connection.old connection.new out.old out.new (read_line connection.old channel (read_of connection.old.config performative.now payload.now)) result }
{
    if matches!(connection.phase(), Phase::Unopened) {
        return Ok(Some(act_unopened(connection, out, performative)));
    }
    match performative {
        Performative::Open(_) => Ok(Some(closing::close_with_error(
            connection,
            out,
            Condition::IllegalState,
        ))),
        Performative::Close(_) => Ok(Some(closing::peer_closes(connection, out))),
        Performative::Begin(begin) => act_on_begin(connection, out, channel, begin),
        Performative::End(_) => Ok(Some(act_on_end(connection, out, channel))),
        _ => act_in_session(connection, out, channel, performative, payload),
    }
}

/// Acts upon a performative before the peer's open. Only that open may come [2.4.1].
fn act_unopened<A: Allocator + Copy>(
    connection: &mut Connection<A>,
    out: &mut Output<A>,
    performative: &Performative<'_>,
) -> Event
    requires { length out.old + reply_room ≤ output_size }
    ensures { (payload : List ℕ) → IsDone connection.old connection.new out.old out.new (unopened_line (read_of connection.old.config performative.now payload)) (Some result) }
{
    match performative {
        Performative::Open(open) => act_on_open(connection, out, open),
        _ => closing::close_with_error(connection, out, Condition::IllegalState),
    }
}

/// Acts upon the peer's open. The answer is an open with the lesser channel-max of both sides [2.4.1].
fn act_on_open<A: Allocator + Copy>(
    connection: &mut Connection<A>,
    out: &mut Output<A>,
    stated: &Open<'_>,
) -> Event
    requires { length out.old + reply_room ≤ output_size }
    ensures { IsDone connection.old connection.new out.old out.new (PeerOpens (opening stated.now)) (Some result) }
{
    let offered = connection.config().channel_max();
    let channel_max = if offered as u16 <= stated.channel_max {
        offered
    } else {
        stated.channel_max as u8
    };
    say_open(connection, out, channel_max as u16);
    connection.open(stated.max_frame_size, channel_max, Introduction::of(stated));
    Event::Opened
}

/// Acts upon a begin. It begins a session on a free channel, unless it answers a begin of this side, which
/// sends none [2.5.1]. If memory is refused, nothing has changed.
fn act_on_begin<A: Allocator + Copy>(
    connection: &mut Connection<A>,
    out: &mut Output<A>,
    channel: u8,
    begin: &Begin<'_>,
) -> Result<Option<Event>, AllocError>
    requires room { length out.old + reply_room ≤ output_size }
    requires channel { channel ≤ connection.old.config.channel_max }
    ensures { HasDone connection.old connection.new out.old out.new (channel_line channel (slot_at connection.old channel) (Begins (beginning begin.now))) result }
{
    match connection.place(channel) {
        Slot::Waits => Ok(None),
        Slot::Free if begin.remote_channel.is_none() => {
            let terms = sessions::terms(connection, begin);
            Ok(Some(sessions::begin(connection, out, channel, terms)?))
        }
        _ => Ok(Some(closing::close_with_error(connection, out, Condition::IllegalState))),
    }
}

/// Acts upon an end. It ends the session on the channel, or answers an end of this side [2.5.3].
fn act_on_end<A: Allocator + Copy>(
    connection: &mut Connection<A>,
    out: &mut Output<A>,
    channel: u8,
) -> Event
    requires room { length out.old + reply_room ≤ output_size }
    requires channel { channel ≤ connection.old.config.channel_max }
    ensures { IsDone connection.old connection.new out.old out.new (channel_line channel (slot_at connection.old channel) Ends) (Some result) }
{
    match connection.place(channel) {
        Slot::Free => closing::close_with_error(connection, out, Condition::IllegalState),
        Slot::Live(_) => sessions::end(connection, out, channel),
        Slot::Waits => Event::Ended {
            channel: channel as u16,
            dropped: connection.session_ended(channel),
        },
    }
}

/// Acts upon a transfer with its payload, for the session on a channel [2.6.14]. If memory is refused, nothing
/// has changed.
// The path of each message, so the session is lent once, and the usual event is made here.
#[tactic(auto, using(crate::proofs::Lent::went_on, crate::proofs::Lent::stayed))]
#[inline(always)]
fn act_on_transfer<A: Allocator + Copy>(
    connection: &mut Connection<A>,
    out: &mut Output<A>,
    channel: u8,
    transfer: &Transfer<'_>,
    payload: &[u8],
) -> Result<Option<Event>, AllocError>
    requires room { length out.old + reply_room ≤ output_size }
    requires channel { channel ≤ connection.old.config.channel_max }
    ensures { HasDone connection.old connection.new out.old out.new
        (channel_line channel (slot_at connection.old channel) (ForSession (Transfers transfer.now.handle (sent_of transfer.now payload.now)))) result }
{
    frames_are_as_long();
    let Some(session) = connection.session_mut(channel as u16) else {
        return Ok(act_elsewhere(connection, out, channel));
    };
    match session.transfer(transfer, payload) {
        Ok(Report::Ready { handle }) => Ok(Some(Event::Ready {
            channel: channel as u16,
            handle,
        })),
        Ok(report) => Ok(sessions::answer_transfer(out, channel, report)),
        Err(fault) => sessions::refuse(connection, out, channel, fault),
    }
}

/// Acts upon a frame of a session on a channel without a live one. If the peer's end is awaited the frame is
/// dropped, else the connection is closed with an error [2.5.4].
#[inline(never)]
fn act_elsewhere<A: Allocator + Copy>(
    connection: &mut Connection<A>,
    out: &mut Output<A>,
    channel: u8,
) -> Option<Event>
    requires room { length out.old + reply_room ≤ output_size }
    requires channel { channel ≤ connection.old.config.channel_max }
    requires none { IsLive (slot_at connection.old channel) → ⊥ }
    ensures { (f : Frame) → IsDone connection.old connection.new out.old out.new (channel_line channel (slot_at connection.old channel) (ForSession f)) result }
{
    match connection.place(channel) {
        Slot::Waits => None,
        _ => Some(closing::close_with_error(connection, out, Condition::IllegalState)),
    }
}

/// Acts upon a frame of a session. It is dropped if the peer's end is awaited [2.5.4]. If memory is refused,
/// nothing has changed.
fn act_in_session<A: Allocator + Copy>(
    connection: &mut Connection<A>,
    out: &mut Output<A>,
    channel: u8,
    performative: &Performative<'_>,
    payload: &[u8],
) -> Result<Option<Event>, AllocError>
    requires room { length out.old + reply_room ≤ output_size }
    requires channel { channel ≤ connection.old.config.channel_max }
    requires session { IsForSession (frame_in connection.old.config performative.now payload.now) }
    ensures { (f : Frame) → frame_in connection.old.config performative.now payload.now ≡ Some f
        → HasDone connection.old connection.new out.old out.new (channel_line channel (slot_at connection.old channel) (ForSession f)) result }
{
    match connection.place(channel) {
        Slot::Live(_) => sessions::frame(connection, out, channel, performative, payload),
        _ => Ok(act_elsewhere(connection, out, channel)),
    }
}
