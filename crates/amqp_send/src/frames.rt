//! The frames that a sender writes.
ghost use Rattle.std.specs.Prelude.{◌≡◌, ◌≤◌, ◌+◌, ◌++◌, length, Some, None};
ghost use Rattle.std.specs.List.{flat_map};
ghost use Rattle.byteorder.specs.Endian.{big_bytes};
ghost use Rattle.std.specs.String.{string_bytes};
ghost use Rattle.amqp_perform.specs.Said.{said};
ghost use Rattle.amqp_send.specs.Sendings.{frame, opening, open_said, begin_said, attach_said, flow_said, close_said, transfer_said, pipe_size};
ghost use Rattle.amqp_send.specs.Keeping.{terms_of};

use crate::config::SendConfig;
use crate::flow_state::{FlowState, MAX_FRAME_SIZE};
use crate::laws::lengths_of_frames;
use crate::output::Output;
use amqp_perform::{
    Attach, Begin, Close, Flow, Open, Performative, ReceiverSettleMode, Role, SenderSettleMode,
    Transfer,
};
use std::alloc::Allocator;

/// How many transfers the sender says that it may send [2.5.6].
const OUTGOING_WINDOW: u32 = 2048;

/// The source, with nothing in it [3.5.3].
const SOURCE: [u8; 4] = [0x00, 0x53, 0x28, 0x45];

/// The target, with nothing in it [3.5.4].
const TARGET: [u8; 4] = [0x00, 0x53, 0x29, 0x45];

/// Makes the open [2.7.1].
fn open(container_id: &str) -> Performative<'_>
    ensures { said result ≡ open_said container_id.now }
{
    Performative::Open(Open {
        container_id,
        hostname: &[],
        max_frame_size: MAX_FRAME_SIZE,
        channel_max: 0,
        idle_time_out: &[],
        outgoing_locales: &[],
        incoming_locales: &[],
        offered_capabilities: &[],
        desired_capabilities: &[],
        properties: &[],
    })
}

/// Makes the begin [2.7.2].
fn begin() -> Performative<'static>
    ensures { said result ≡ begin_said }
{
    Performative::Begin(Begin {
        remote_channel: None,
        next_outgoing_id: 0,
        incoming_window: 0,
        outgoing_window: OUTGOING_WINDOW,
        handle_max: 0,
        offered_capabilities: &[],
        desired_capabilities: &[],
        properties: &[],
    })
}

/// Makes the attach [2.7.3].
fn attach(name: &str) -> Performative<'_>
    ensures { said result ≡ attach_said name.now }
{
    Performative::Attach(Attach {
        name,
        handle: 0,
        role: Role::Sender,
        snd_settle_mode: SenderSettleMode::Unsettled,
        rcv_settle_mode: ReceiverSettleMode::First,
        source: &SOURCE,
        target: &TARGET,
        unsettled: &[],
        incomplete_unsettled: &[],
        initial_delivery_count: Some(0),
        max_message_size: &[],
        offered_capabilities: &[],
        desired_capabilities: &[],
        properties: &[],
    })
}

/// Makes the flow of the link [2.7.4].
fn flow(flow: FlowState, drain: bool) -> Performative<'static>
    ensures { said result ≡ flow_said flow drain }
{
    Performative::Flow(Flow {
        next_incoming_id: flow.peer_next_outgoing_id,
        incoming_window: 0,
        next_outgoing_id: flow.next_outgoing_id,
        outgoing_window: OUTGOING_WINDOW,
        handle: Some(0),
        delivery_count: Some(flow.delivery_count),
        link_credit: Some(flow.credit()),
        available: None,
        drain,
        echo: false,
        properties: &[],
    })
}

/// Makes a transfer of the delivery with this id, which is its tag too: the first, or a later one
/// [2.7.5].
pub fn transfer(id: u32, tag: &[u8], begun: bool, more: bool) -> Performative<'_>
    requires { tag.now ≡ big_bytes 4 id }
    ensures { said result ≡ transfer_said id begun more }
{
    let (delivery_id, delivery_tag, message_format) = if begun {
        (None, None, None)
    } else {
        (Some(id), Some(tag), Some(0))
    };
    Performative::Transfer(Transfer {
        handle: 0,
        delivery_id,
        delivery_tag,
        message_format,
        settled: None,
        more,
        rcv_settle_mode: None,
        state: &[],
        resume: false,
        aborted: false,
        batchable: &[],
    })
}

/// Writes the opening: open, begin and attach.
pub fn put_opening<A: Allocator + Copy>(config: &SendConfig<A>, output: &mut Output<A>)
    requires container_id { length (string_bytes config.now.container_id) ≤ 255 }
    requires name { length (string_bytes config.now.name) ≤ 255 }
    requires room { length output.old + 1536 ≤ pipe_size }
    ensures { output.new ≡ output.old ++ flat_map frame (opening (terms_of config.now)) }
{
    lengths_of_frames();
    output.append(&open(config.container_id.as_str()));
    output.append(&begin());
    output.append(&attach(config.name.as_str()));
}

/// Writes the flow of the link.
pub fn put_flow<A: Allocator + Copy>(state: FlowState, drain: bool, output: &mut Output<A>)
    requires { length output.old + 64 ≤ pipe_size }
    ensures { output.new ≡ output.old ++ frame (flow_said state drain) }
{
    lengths_of_frames();
    output.append(&flow(state, drain));
}

/// Writes the close [2.7.9].
pub fn put_close<A: Allocator + Copy>(output: &mut Output<A>)
    requires { length output.old + 12 ≤ pipe_size }
    ensures { output.new ≡ output.old ++ frame close_said }
{
    output.append(&Performative::Close(Close { error: &[] }));
}
