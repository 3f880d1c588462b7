//! Performatives, read from the body of a frame. [2.7]
//!
//! Each function takes the fields of one performative in their order. A `?` refuses what is not of the field's
//! type; a second one refuses an absent field that is mandatory.

ghost use Rattle.std.specs.Prelude.{◌≡◌, ℕ, ◌≤◌, List, [], ◌∷◌, length, drop, None, Some, Ok, MatchOption, IfOk, IfErr, IfSome, IfNone, IsOkAnd};
ghost use Rattle.amqp_perform.specs.declared.descriptor.Descriptor.{Descriptor};
ghost use Rattle.amqp_perform.specs.declared.performative.Performative.TheVariants as performative;
ghost use Rattle.amqp_perform.specs.Bodies.{Body, BodyOf, IsFaultOf};
ghost use Rattle.amqp_perform.specs.Cells.{Cell, Whole};
ghost use Rattle.amqp_perform.specs.Performatives.{span, optional_whole, open_cells, begin_cells, attach_cells, flow_cells, transfer_cells, disposition_cells, detach_cells, end_cells, close_cells, type_of, performative_cells};
ghost use Rattle.amqp_perform.specs.BodyReading.{TakesFrom, value_at, fields_at, IsPerformativeAt, body_at, fault_of, IsRead, IsOfOther, performative_at};
ghost use Rattle.amqp_perform.specs.Tables.{uint_from, default, open_fields, begin_fields, attach_fields, flow_fields, transfer_fields, disposition_fields, detach_fields, end_fields, close_fields};

use crate::descriptor::Descriptor;
use crate::fault::BodyFault;
use crate::fields::{DEPTH, DescribedList, Fields, described_list};
use crate::modes::{ReceiverSettleMode, SenderSettleMode};
use crate::performative::{
    Attach, Begin, Close, Detach, Disposition, End, Flow, Open, Performative, Transfer,
};
use amqp_types::skip;

/// The smallest max-frame-size that is allowed. [2.7.1]
pub const LEAST_FRAME_SIZE: u32 = 512;

fn read_open<'a>(fields: &mut Fields<'a>) -> Option<Open<'a>>
    ensures { TakesFrom open_cells (fields_at open_fields) fields.old fields.new result }
{
    let container_id = fields.text()??;
    let hostname = fields.span()?;
    let max_frame_size = read_frame_size(fields)?;
    let channel_max = fields.ushort()?.unwrap_or(u16::MAX);
    let idle_time_out = fields.span()?;
    let outgoing_locales = fields.span()?;
    let incoming_locales = fields.span()?;
    let (offered_capabilities, desired_capabilities, properties) = read_capabilities(fields)?;
    Some(Open {
        container_id,
        hostname,
        max_frame_size,
        channel_max,
        idle_time_out,
        outgoing_locales,
        incoming_locales,
        offered_capabilities,
        desired_capabilities,
        properties,
    })
}

/// Reads the capabilities and the properties, with which an open, a begin and an attach end.
fn read_capabilities<'a>(fields: &mut Fields<'a>) -> Option<(&'a [u8], &'a [u8], &'a [u8])>
    ensures { TakesFrom (λ x. span x.0.now ∷ span x.1.now ∷ span x.2.now ∷ []) (fields_at (drop 7 open_fields)) fields.old fields.new result }
{
    let offered_capabilities = fields.span()?;
    let desired_capabilities = fields.span()?;
    let properties = fields.span()?;
    Some((offered_capabilities, desired_capabilities, properties))
}

#[tactic(auto, using(crate::proofs::Leasts::frame_size_is))]
fn read_frame_size(fields: &mut Fields<'_>) -> Option<u32>
    ensures { TakesFrom Whole (value_at (uint_from 512) (default 4294967295)) fields.old fields.new result }
{
    let size = fields.uint()?.unwrap_or(u32::MAX);
    if size < LEAST_FRAME_SIZE {
        None
    } else {
        Some(size)
    }
}

fn read_begin<'a>(fields: &mut Fields<'a>) -> Option<Begin<'a>>
    ensures { TakesFrom begin_cells (fields_at begin_fields) fields.old fields.new result }
{
    let remote_channel = fields.ushort()?;
    let next_outgoing_id = fields.uint()??;
    let incoming_window = fields.uint()??;
    let outgoing_window = fields.uint()??;
    let handle_max = fields.uint()?.unwrap_or(u32::MAX);
    let (offered_capabilities, desired_capabilities, properties) = read_capabilities(fields)?;
    Some(Begin {
        remote_channel,
        next_outgoing_id,
        incoming_window,
        outgoing_window,
        handle_max,
        offered_capabilities,
        desired_capabilities,
        properties,
    })
}

fn read_attach<'a>(fields: &mut Fields<'a>) -> Option<Attach<'a>>
    ensures { TakesFrom attach_cells (fields_at attach_fields) fields.old fields.new result }
{
    let name = fields.text()??;
    let handle = fields.uint()??;
    let role = fields.role()??;
    let snd_settle_mode = fields.sender_mode()?.unwrap_or(SenderSettleMode::Mixed);
    let rcv_settle_mode = fields.receiver_mode()?.unwrap_or(ReceiverSettleMode::First);
    let AttachRest {
        source,
        target,
        unsettled,
        incomplete_unsettled,
        initial_delivery_count,
        max_message_size,
        offered_capabilities,
        desired_capabilities,
        properties,
    } = read_attach_rest(fields)?;
    Some(Attach {
        name,
        handle,
        role,
        snd_settle_mode,
        rcv_settle_mode,
        source,
        target,
        unsettled,
        incomplete_unsettled,
        initial_delivery_count,
        max_message_size,
        offered_capabilities,
        desired_capabilities,
        properties,
    })
}

/// The fields of an attach after its modes.
struct AttachRest<'a> {
    source: &'a [u8],
    target: &'a [u8],
    unsettled: &'a [u8],
    incomplete_unsettled: &'a [u8],
    initial_delivery_count: Option<u32>,
    max_message_size: &'a [u8],
    offered_capabilities: &'a [u8],
    desired_capabilities: &'a [u8],
    properties: &'a [u8],
}

fn read_attach_rest<'a>(fields: &mut Fields<'a>) -> Option<AttachRest<'a>>
    ensures { TakesFrom (λ x. span x.source.now ∷ span x.target.now ∷ span x.unsettled.now ∷ span x.incomplete_unsettled.now ∷ optional_whole x.initial_delivery_count
        ∷ span x.max_message_size.now ∷ span x.offered_capabilities.now ∷ span x.desired_capabilities.now ∷ span x.properties.now ∷ []) (fields_at (drop 5 attach_fields)) fields.old fields.new result }
{
    let source = fields.span()?;
    let target = fields.span()?;
    let unsettled = fields.span()?;
    let incomplete_unsettled = fields.span()?;
    let initial_delivery_count = fields.uint()?;
    let max_message_size = fields.span()?;
    let (offered_capabilities, desired_capabilities, properties) = read_capabilities(fields)?;
    Some(AttachRest {
        source,
        target,
        unsettled,
        incomplete_unsettled,
        initial_delivery_count,
        max_message_size,
        offered_capabilities,
        desired_capabilities,
        properties,
    })
}

fn read_flow<'a>(fields: &mut Fields<'a>) -> Option<Flow<'a>>
    ensures { TakesFrom flow_cells (fields_at flow_fields) fields.old fields.new result }
{
    Some(Flow {
        next_incoming_id: fields.uint()?,
        incoming_window: fields.uint()??,
        next_outgoing_id: fields.uint()??,
        outgoing_window: fields.uint()??,
        handle: fields.uint()?,
        delivery_count: fields.uint()?,
        link_credit: fields.uint()?,
        available: fields.uint()?,
        drain: fields.flag()?,
        echo: fields.flag()?,
        properties: fields.span()?,
    })
}

/// Reads the fields of a transfer into `transfer`. They are put where they are wanted, since a transfer that is returned
/// is moved there over the stack.
// Without `inline`, `telemetry` takes 1.5 in 100 more instructions, `gateway` 1.4.
#[tactic(auto, using(crate::proofs::Optionals::optional_is), unfolding(crate::specs::BodyReading::typed_at))]
#[inline(always)]
fn fill_transfer<'a>(fields: &mut Fields<'a>, transfer: &mut Transfer<'a>) -> Option<()>
    ensures { TakesFrom (λ _. transfer_cells transfer.new) (fields_at transfer_fields) fields.old fields.new result }
{
    transfer.handle = fields.uint()??;
    transfer.delivery_id = fields.uint()?;
    transfer.delivery_tag = fields.binary()?;
    transfer.message_format = fields.uint()?;
    transfer.settled = fields.boolean()?;
    transfer.more = fields.flag()?;
    if fields.is_empty() {
        transfer.rcv_settle_mode = None;
        transfer.state = &[];
        transfer.resume = false;
        transfer.aborted = false;
        transfer.batchable = &[];
        return Some(());
    }
    transfer.rcv_settle_mode = fields.receiver_mode()?;
    transfer.state = fields.span()?;
    transfer.resume = fields.flag()?;
    transfer.aborted = fields.flag()?;
    transfer.batchable = fields.span()?;
    Some(())
}

fn read_disposition<'a>(fields: &mut Fields<'a>) -> Option<Disposition<'a>>
    ensures { TakesFrom disposition_cells (fields_at disposition_fields) fields.old fields.new result }
{
    Some(Disposition {
        role: fields.role()??,
        first: fields.uint()??,
        last: fields.uint()?,
        settled: fields.flag()?,
        state: fields.span()?,
        batchable: fields.span()?,
    })
}

fn read_detach<'a>(fields: &mut Fields<'a>) -> Option<Detach<'a>>
    ensures { TakesFrom detach_cells (fields_at detach_fields) fields.old fields.new result }
{
    Some(Detach {
        handle: fields.uint()??,
        closed: fields.flag()?,
        error: fields.span()?,
    })
}

fn read_end<'a>(fields: &mut Fields<'a>) -> Option<End<'a>>
    ensures { TakesFrom end_cells (fields_at end_fields) fields.old fields.new result }
{
    Some(End {
        error: fields.span()?,
    })
}

fn read_close<'a>(fields: &mut Fields<'a>) -> Option<Close<'a>>
    ensures { TakesFrom close_cells (fields_at close_fields) fields.old fields.new result }
{
    Some(Close {
        error: fields.span()?,
    })
}

#[tactic(auto, unfolding(crate::specs::BodyReading::performative_at))]
fn read_performative<'a>(
    descriptor: Descriptor,
    fields: &mut Fields<'a>,
) -> Option<Performative<'a>>
    ensures { IsPerformativeAt descriptor fields.old.left fields.old.items.bytes.now result }
{
    let performative = match descriptor {
        Descriptor::Open => Performative::Open(read_open(fields)?),
        Descriptor::Begin => Performative::Begin(read_begin(fields)?),
        Descriptor::Attach => Performative::Attach(read_attach(fields)?),
        Descriptor::Flow => Performative::Flow(read_flow(fields)?),
        Descriptor::Transfer => {
            let mut transfer: Transfer<'a> = Transfer::blank();
            fill_transfer(fields, &mut transfer)?;
            Performative::Transfer(transfer)
        }
        Descriptor::Disposition => Performative::Disposition(read_disposition(fields)?),
        Descriptor::Detach => Performative::Detach(read_detach(fields)?),
        Descriptor::End => Performative::End(read_end(fields)?),
        Descriptor::Close => Performative::Close(read_close(fields)?),
        _ => return None,
    };
    if fields.ended() {
        Some(performative)
    } else {
        None
    }
}

/// Reads the transfer that a frame's body begins with into `transfer`, and returns how many bytes it takes. [2.7.5]
///
/// It is read as [`read_body`] reads it. Returns `None` if the body begins with no transfer; what is in `transfer` then
/// means nothing.
#[tactic(auto, unfolding(crate::specs::BodyReading::body_at, crate::specs::BodyReading::performative_at))]
#[inline(never)]
pub fn read_transfer_into<'a>(bytes: &'a [u8], transfer: &mut Transfer<'a>) -> Option<usize>
    ensures within { IfSome result (λ n. n ≤ length bytes.now) }
    ensures exact { IfSome result (λ n. IsRead bytes.now (Ok (performative.Transfer transfer.new, n))) }
    ensures none { IfNone result (IsOfOther Descriptor.Transfer (body_at bytes.now)) }
{
    let DescribedList {
        descriptor,
        mut fields,
        rest,
    } = described_list(bytes)?;
    match descriptor {
        Descriptor::Transfer => {}
        _ => return None,
    }
    fill_transfer(&mut fields, transfer)?;
    if !fields.ended() {
        return None;
    }
    Some(bytes.len() - rest.len())
}

/// Returns the transfer that a frame's body begins with, and how many bytes it takes; `None` if there is none. [2.7.5]
///
/// It is read as [`read_body`] reads it. This is for a caller that keeps the transfer as a value.
pub fn read_transfer_body(bytes: &[u8]) -> Option<(Transfer<'_>, usize)>
    ensures within { IfSome result (λ r. r.1 ≤ length bytes.now) }
    ensures exact { IfSome result (λ r. IsRead bytes.now (Ok (performative.Transfer r.0, r.1))) }
    ensures none { IfNone result (IsOfOther Descriptor.Transfer (body_at bytes.now)) }
{
    let mut transfer = Transfer::blank();
    let len = read_transfer_into(bytes, &mut transfer)?;
    Some((transfer, len))
}

/// Returns the performative that a body begins with, and what follows it.
#[tactic(auto, unfolding(crate::specs::BodyReading::body_at))]
fn body_at(bytes: &[u8]) -> Option<(Performative<'_>, &[u8])>
    ensures { MatchOption result (body_at bytes.now ≡ None) (λ x. body_at bytes.now ≡ Some (type_of x.0, performative_cells x.0, x.1.now)) }
{
    let DescribedList {
        descriptor,
        mut fields,
        rest,
    } = described_list(bytes)?;
    let performative = read_performative(descriptor, &mut fields)?;
    Some((performative, rest))
}

/// Returns the performative that a frame's body begins with, and how many bytes it takes; the payload follows. [2.7]
///
/// `Decode` says that the body begins with no value within 32 levels, `InvalidField` that the value is no
/// performative. Any spelling of a field's type is read, and the descriptor may be the number or the symbol. Spans
/// are borrowed from `bytes`; nothing is copied and no memory is taken. A span is only known to be well spelled:
/// equal keys in it are not looked for.
pub fn read_body(bytes: &[u8]) -> Result<(Performative<'_>, usize), BodyFault>
    ensures within { IfOk result (λ r. r.1 ≤ length bytes.now) }
    // What is read is what the body says.
    ensures found { IfOk result (λ r. Body bytes.now r.0 (drop r.1 bytes.now)) }
    // Whatever a body says is read.
    ensures only { (d : Descriptor) (cells : List Cell) (payload : List ℕ) → BodyOf bytes.now d cells payload
        → IsOkAnd result (λ r. (type_of r.0 ≡ d) × (performative_cells r.0 ≡ cells) × (drop r.1 bytes.now ≡ payload)) }
    // A fault is one that the body has.
    ensures fault { IfErr result (IsFaultOf bytes.now) }
    ensures exact { IsRead bytes.now result }
{
    match body_at(bytes) {
        Some((performative, rest)) => Ok((performative, bytes.len() - rest.len())),
        None => Err(fault_in(bytes)),
    }
}

/// Returns why a body begins with no performative.
#[tactic(auto, unfolding(crate::specs::BodyReading::fault_of))]
fn fault_in(bytes: &[u8]) -> BodyFault
    ensures { result ≡ fault_of bytes.now }
{
    match skip(bytes, DEPTH) {
        Ok(_) => BodyFault::InvalidField,
        Err(fault) => BodyFault::Decode(fault),
    }
}
