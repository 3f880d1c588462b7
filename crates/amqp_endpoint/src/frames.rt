//! The frames of this side for the connection and its sessions.
ghost use Rattle.std.specs.Prelude.{◌≡◌, ◌≤◌, length};
ghost use Rattle.amqp_types.specs.declared.kind.Kind.{Kind};
ghost use Rattle.amqp_types.specs.Canonical.{canonical};
ghost use Rattle.amqp_types.specs.Trees.{Number};
ghost use Rattle.amqp_perform.specs.Performatives.{span};
ghost use Rattle.amqp_perform.specs.Conditions.{condition_span};
ghost use Rattle.amqp_perform.specs.Said.{said};
ghost use Rattle.amqp_endpoint.specs.Fields.{named};
ghost use Rattle.amqp_endpoint.specs.Lengths.{said_most};
ghost use Rattle.amqp_endpoint.specs.Replies.{time_out_said, open_said, begin_said, end_said, close_said};

use crate::config::Config;
use amqp_perform::{Begin, Close, Condition, End, Open, Performative};
use amqp_session::SessionTerms;
use amqp_types::{Kind, Peek, put};
use std::alloc::Allocator;

/// Makes the open, with the highest channel and the encoded idle-time-out [2.7.1].
pub fn open<'a, A: Allocator + Copy>(
    config: &'a Config<A>,
    channel_max: u16,
    time_out: &'a [u8],
) -> Performative<'a>
    requires { span time_out.now ≡ time_out_said config.now.idle_time_out }
    ensures said { said result ≡ open_said config.now channel_max }
    ensures short { said_most (said result) ≤ 400 }
{
    Performative::Open(Open {
        container_id: config.container_id(),
        hostname: &[],
        max_frame_size: config.max_frame(),
        channel_max,
        idle_time_out: time_out,
        outgoing_locales: &[],
        incoming_locales: &[],
        offered_capabilities: &[],
        desired_capabilities: &[],
        properties: &[],
    })
}

/// Returns an idle-time-out in milliseconds as the open encodes it, written into `scratch`; empty if there is
/// none [2.4.5].
pub fn time_out(milliseconds: Option<u32>, scratch: &mut [u8; 5]) -> &[u8]
    ensures { span result.now ≡ time_out_said milliseconds }
{
    match milliseconds {
        Some(milliseconds) => uint(milliseconds, scratch),
        None => &[],
    }
}

/// Returns the shortest encoding of a number as a uint, written into `scratch` [1.6.7].
fn uint(number: u32, scratch: &mut [u8; 5]) -> &[u8]
    ensures { result.now ≡ canonical (Number Kind.Uint number) }
{
    match put(&Peek::Unsigned(Kind::Uint, number as u64), scratch) {
        Some(len) => &scratch[..len],
        None => unreachable!(),
    }
}

/// Makes the begin that answers one of the peer [2.7.2].
pub fn begin(channel: u16, terms: &SessionTerms) -> Performative<'static>
    ensures said { said result ≡ begin_said channel terms.now }
    ensures short { said_most (said result) ≤ 400 }
{
    Performative::Begin(Begin {
        remote_channel: Some(channel),
        next_outgoing_id: 0,
        incoming_window: terms.incoming_window,
        outgoing_window: 0,
        handle_max: terms.handle_max as u32,
        offered_capabilities: &[],
        desired_capabilities: &[],
        properties: &[],
    })
}

/// Makes an end, with this error or none [2.7.8].
pub fn end(error: &[u8]) -> Performative<'_>
    requires { length error.now ≤ 100 }
    ensures said { said result ≡ end_said error.now }
    ensures short { said_most (said result) ≤ 400 }
{
    Performative::End(End { error })
}

/// Makes a close, with this error or none [2.7.9].
pub fn close(error: &[u8]) -> Performative<'_>
    requires { length error.now ≤ 100 }
    ensures said { said result ≡ close_said error.now }
    ensures short { said_most (said result) ≤ 400 }
{
    Performative::Close(Close { error })
}

/// Makes a close with an error of the application, which is encoded already [2.7.9].
pub fn close_with(error: &[u8]) -> Performative<'_>
    requires { length error.now ≤ 335 }
    ensures said { said result ≡ close_said error.now }
    ensures short { said_most (said result) ≤ 400 }
{
    Performative::Close(Close { error })
}

/// Returns the encoded error of a condition [2.8.14].
pub fn error(condition: Condition) -> &'static [u8]
    ensures value { result.now ≡ condition_span condition }
    ensures short { length result.now ≤ 100 }
{
    condition.span()
}

/// Returns the name of the link that a performative begins; empty if it begins none.
pub fn named<'a>(performative: &Performative<'a>) -> &'a [u8]
    ensures { result.now ≡ named performative.now }
{
    match performative {
        Performative::Attach(attach) => attach.name.as_bytes(),
        _ => &[],
    }
}
