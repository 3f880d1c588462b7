//! Frames of a sender.
ghost use Rattle.std.specs.Prelude.{◌≡◌};

use amqp_perform::{Attach, ReceiverSettleMode, Role, SenderSettleMode, Transfer};

/// Returns an attach, with a source and a target that say nothing.
pub fn attach(handle: u32) -> Attach<'static>
    ensures { result.handle ≡ handle }
{
    Attach {
        name: "link",
        handle,
        role: Role::Sender,
        snd_settle_mode: SenderSettleMode::Unsettled,
        rcv_settle_mode: ReceiverSettleMode::First,
        source: b"\x00\x53\x28\x45",
        target: b"\x00\x53\x29\x45",
        unsettled: &[],
        incomplete_unsettled: &[],
        initial_delivery_count: Some(0),
        max_message_size: &[],
        offered_capabilities: &[],
        desired_capabilities: &[],
        properties: &[],
    }
}

/// Returns a delivery in one transfer.
pub fn whole(handle: u32, id: u32) -> Transfer<'static> {
    Transfer {
        handle,
        delivery_id: Some(id),
        delivery_tag: Some(b"tag".as_slice()),
        message_format: Some(0),
        settled: None,
        more: false,
        rcv_settle_mode: None,
        state: &[],
        resume: false,
        aborted: false,
        batchable: &[],
    }
}

/// Returns the last transfer of a delivery in several.
pub fn last(handle: u32) -> Transfer<'static> {
    Transfer {
        delivery_id: None,
        delivery_tag: None,
        message_format: None,
        ..whole(handle, 0)
    }
}
