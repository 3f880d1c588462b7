//! What a session writes in answer.
ghost use Rattle.std.specs.Prelude.{◌≡◌, ℕ, [], true, false};
ghost use Rattle.amqp_perform.specs.Frames.{IsWritten};
ghost use Rattle.amqp_link.specs.Bounds.{Bounds};
ghost use Rattle.amqp_session.specs.Replies.{IsAttaching};
ghost use Rattle.amqp_perform.specs.declared.performative.Performative.TheVariants as performative;
ghost use Rattle.amqp_perform.specs.Said.{said, said_frame};
ghost use Rattle.amqp_session.specs.Frames.{Attaching, attaching, attach_said, refusal_said, detach_said, failure_said, flow_said, disposition_said, other_role};
ghost use Rattle.amqp_types.specs.Canonical.{canonical};
ghost use Rattle.amqp_types.specs.Trees.{Number};

use amqp_link::LinkBounds;
use amqp_perform::{
    Attach, Condition, Detach, Disposition, Flow, Outcome, Performative, ReceiverSettleMode, Role,
    SenderSettleMode, write_frame,
};
use amqp_types::{Kind, Peek, put};

/// Makes the flow of a session, which sends nothing [2.7.4].
pub fn session_flow(next_incoming_id: u32, window: u32) -> Flow<'static>
    ensures { said (performative.Flow result) ≡ flow_said next_incoming_id window }
{
    Flow {
        next_incoming_id: Some(next_incoming_id),
        incoming_window: window,
        next_outgoing_id: 0,
        outgoing_window: 0,
        handle: None,
        delivery_count: None,
        link_credit: None,
        available: None,
        drain: false,
        echo: false,
        properties: &[],
    }
}

/// Makes a detach without error [2.7.7].
pub fn detach(handle: u32, closed: bool) -> Detach<'static>
    ensures { said (performative.Detach result) ≡ detach_said handle closed [] }
{
    Detach {
        handle,
        closed,
        error: &[],
    }
}

/// Makes the detach with which this side ends a link with an error [2.6.5].
pub fn failure(handle: u32, condition: Condition) -> Detach<'static>
    ensures { said (performative.Detach result) ≡ failure_said handle condition }
{
    Detach {
        handle,
        closed: true,
        error: condition.span(),
    }
}

/// Makes the disposition that says what became of the deliveries with the ids from `first` to `last` [2.7.6].
pub fn disposition(first: u32, last: u32, settled: bool, outcome: Outcome) -> Disposition<'static>
    ensures { said (performative.Disposition result) ≡ disposition_said first last settled outcome }
{
    let last = if first == last { None } else { Some(last) };
    Disposition {
        role: Role::Receiver,
        first,
        last,
        settled,
        state: outcome.span(),
        batchable: &[],
    }
}

/// Returns the role of this side, given the peer's [2.8.1].
fn other_role(role: Role) -> Role
    ensures { result ≡ other_role role }
{
    match role {
        Role::Sender => Role::Receiver,
        Role::Receiver => Role::Sender,
    }
}

/// Writes the frame that answers an accepted attach at the front of `out`, with the longest message that its
/// link accepts [2.6.3, 2.7.3]. Returns the frame's length in bytes; `None`, with `out` unchanged, if it does
/// not fit.
pub fn write_attach_reply(
    channel: u16,
    attach: &Attach<'_>,
    bounds: LinkBounds,
    out: &mut [u8],
) -> Option<usize>
    ensures { IsWritten (said_frame channel (attach_said bounds.max_message_size (attaching attach.now bounds)) []) result out.old out.new }
{
    let mut scratch = [0; 9];
    let spelled = ulong(bounds.max_message_size(), &mut scratch);
    let reply = accepted(
        attach.name,
        attach.source,
        attach.target,
        spelled,
        Modes::of(attach),
    );
    write_frame(channel, &Performative::Attach(reply), &[], out)
}

/// What an attach states besides its texts.
#[derive(Clone, Copy)]
pub struct Modes {
    handle: u32,
    role: Role,
    snd_settle_mode: SenderSettleMode,
    rcv_settle_mode: ReceiverSettleMode,
}

impl Modes {
    /// Returns the modes of an attach.
    pub fn of(attach: &Attach<'_>) -> Modes
        ensures { result ≡ record { handle = attach.now.handle; role = attach.now.role; snd_settle_mode = attach.now.snd_settle_mode; rcv_settle_mode = attach.now.rcv_settle_mode } }
    {
        Modes {
            handle: attach.handle,
            role: attach.role,
            snd_settle_mode: attach.snd_settle_mode,
            rcv_settle_mode: attach.rcv_settle_mode,
        }
    }
}

/// Makes the answer to an attach with these texts, and with the longest message encoded in `spelled`.
pub fn accepted<'a>(
    name: &'a str,
    source: &'a [u8],
    target: &'a [u8],
    spelled: &'a [u8],
    modes: Modes,
) -> Attach<'a>
    ensures { (longest : ℕ) (a : Attaching) → spelled.now ≡ canonical (Number Kind.Ulong longest) → IsAttaching name.now source.now target.now modes a → said (performative.Attach result) ≡ attach_said longest a }
{
    Attach {
        name,
        handle: modes.handle,
        role: other_role(modes.role),
        snd_settle_mode: modes.snd_settle_mode,
        rcv_settle_mode: modes.rcv_settle_mode,
        source,
        target,
        unsettled: &[],
        incomplete_unsettled: &[],
        initial_delivery_count: None,
        max_message_size: spelled,
        offered_capabilities: &[],
        desired_capabilities: &[],
        properties: &[],
    }
}

/// Returns the shortest encoding of a number as a ulong, written into `scratch` [1.6.6].
pub fn ulong(number: u32, scratch: &mut [u8; 9]) -> &[u8]
    ensures { result.now ≡ canonical (Number Kind.Ulong number) }
{
    match put(&Peek::Unsigned(Kind::Ulong, number as u64), scratch) {
        Some(len) => &scratch[..len],
        None => unreachable!(),
    }
}

/// Makes the answer to the attach of a link that is refused: it has neither source nor target. If this side
/// would be the sender, it states an initial-delivery-count [2.6.3, 2.7.3].
pub fn refusal_reply<'a>(attach: &Attach<'a>) -> Attach<'a>
    ensures { (b : Bounds) → said (performative.Attach result) ≡ refusal_said (attaching attach.now b) }
{
    let initial_delivery_count = match attach.role {
        Role::Sender => None,
        Role::Receiver => Some(0),
    };
    Attach {
        name: attach.name,
        handle: attach.handle,
        role: other_role(attach.role),
        snd_settle_mode: attach.snd_settle_mode,
        rcv_settle_mode: attach.rcv_settle_mode,
        source: &[],
        target: &[],
        unsettled: &[],
        incomplete_unsettled: &[],
        initial_delivery_count,
        max_message_size: &[],
        offered_capabilities: &[],
        desired_capabilities: &[],
        properties: &[],
    }
}
