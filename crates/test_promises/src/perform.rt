//! What `amqp_perform` promises.

ghost use Rattle.std.specs.Prelude.{◌≡◌, ℕ, ◌≤◌, List, [], length, drop, Ok, IfOk, IfErr, IfSome, IfNone, IsOkAnd, ◌↔◌, ◌+◌, ◌<◌, ◌++◌, IsSome, is_some};
ghost use Rattle.amqp_perform.specs.Addresses.{node_of, target_node};
ghost use Rattle.amqp_perform.specs.declared.descriptor.Descriptor.{Descriptor};
ghost use Rattle.amqp_perform.specs.declared.performative.Performative.TheVariants as performative;
ghost use Rattle.amqp_perform.specs.Bodies.{BeginsWithin, Body, BodyOf, IsFaultOf};
ghost use Rattle.amqp_perform.specs.Cells.{Cell};
ghost use Rattle.amqp_perform.specs.Performatives.{type_of, performative_cells};
ghost use Rattle.amqp_perform.specs.BodyReading.{body_at, IsRead, IsOfOther};
ghost use Rattle.amqp_perform.specs.Frames.{frame_of, Writes, FitsFrame, IsWritten};
ghost use Rattle.amqp_perform.specs.Receivers.{disposition_said, stated_said};
ghost use Rattle.amqp_perform.specs.Said.{said, said_frame};

use amqp_perform::{
    Address, BodyFault, Disposition, Flow, LinkFlow, Outcome, Performative, Transfer,
};

/// Reads the transfer that a frame's body begins with into `transfer`, as [`read_body`] reads it, and returns
/// how many bytes it takes; `None` if the body begins with no transfer [2.7.5].
pub fn read_transfer_into<'a>(bytes: &'a [u8], transfer: &mut Transfer<'a>) -> Option<usize>
    ensures within { IfSome result (λ n. n ≤ length bytes.now) }
    ensures exact { IfSome result (λ n. IsRead bytes.now (Ok (performative.Transfer transfer.new, n))) }
    ensures none { IfNone result (IsOfOther Descriptor.Transfer (body_at bytes.now)) }
{
    amqp_perform::read_transfer_into(bytes, transfer)
}

/// Returns the transfer that a frame's body begins with, as [`read_body`] reads it, and how many bytes it
/// takes; `None` if the body begins with no transfer [2.7.5].
pub fn read_transfer_body(bytes: &[u8]) -> Option<(Transfer<'_>, usize)>
    ensures within { IfSome result (λ r. r.1 ≤ length bytes.now) }
    ensures exact { IfSome result (λ r. IsRead bytes.now (Ok (performative.Transfer r.0, r.1))) }
    ensures none { IfNone result (IsOfOther Descriptor.Transfer (body_at bytes.now)) }
{
    amqp_perform::read_transfer_body(bytes)
}

/// Returns the performative that a frame's body begins with, and how many bytes it takes [2.7].
pub fn read_body(bytes: &[u8]) -> Result<(Performative<'_>, usize), BodyFault>
    ensures within { IfOk result (λ r. r.1 ≤ length bytes.now) }
    // What is read is what the body says.
    ensures found { IfOk result (λ r. Body bytes.now r.0 (drop r.1 bytes.now)) }
    // Whatever a body says is read.
    ensures only { (d : Descriptor) (cells : List Cell) (payload : List ℕ) → BodyOf bytes.now d cells payload
        → IsOkAnd result (λ r. (type_of r.0 ≡ d) × (performative_cells r.0 ≡ cells) × (drop r.1 bytes.now ≡ payload)) }
    // A fault is one that the body has.
    ensures fault { IfErr result (IsFaultOf bytes.now) }
    ensures exact { IsRead bytes.now result }
{
    amqp_perform::read_body(bytes)
}

/// Returns whether a frame's body begins with a performative, as [`read_body`] reads it. The body has to begin
/// with a value of at most 32 levels [2.7].
pub fn is_performative(body: &[u8]) -> bool
    requires { BeginsWithin 32 body.now }
    ensures { result ≡ is_some (body_at body.now) }
{
    amqp_perform::is_performative(body)
}

/// Writes a frame at the front of `out`, and returns its length in bytes; `None` if it does not fit.
pub fn write_frame(
    channel: u16,
    performative: &Performative<'_>,
    payload: &[u8],
    out: &mut [u8],
) -> Option<usize>
    ensures written { IfSome result (λ n. (n ≡ length (frame_of channel performative.now payload.now))
        × (out.new ≡ frame_of channel performative.now payload.now ++ drop n out.old)) }
    ensures fits { IsSome result ↔ FitsFrame (frame_of channel performative.now payload.now) (length out.old) }
    ensures unchanged { IfNone result (out.new ≡ out.old) }
{
    amqp_perform::write_frame(channel, performative, payload, out)
}

/// Writes the frame of a flow, as [`write_frame`] does.
pub fn write_flow(channel: u16, p: &Flow<'_>, payload: &[u8], out: &mut [u8]) -> Option<usize>
    ensures { IsWritten (frame_of channel (performative.Flow p.now) payload.now) result out.old out.new }
{
    amqp_perform::write_flow(channel, p, payload, out)
}

/// Writes the frame of a disposition, as [`write_frame`] does.
pub fn write_disposition(
    channel: u16,
    p: &Disposition<'_>,
    payload: &[u8],
    out: &mut [u8],
) -> Option<usize>
    ensures { IsWritten (frame_of channel (performative.Disposition p.now) payload.now) result out.old out.new }
{
    amqp_perform::write_disposition(channel, p, payload, out)
}

/// Makes a performative of the flow of a link.
pub fn flow(flow: LinkFlow) -> Flow<'static>
    ensures { said (performative.Flow result) ≡ stated_said flow }
{
    flow.flow()
}

/// Writes the frame of the flow of a link, of a receiver that sends nothing [2.7.4], as [`write_frame`] does.
pub fn write_link_flow(channel: u16, flow: LinkFlow, out: &mut [u8]) -> Option<usize>
    ensures { IsWritten (said_frame channel (stated_said flow) []) result out.old out.new }
{
    amqp_perform::write_link_flow(channel, flow, out)
}

/// Writes the frame of the disposition by which a receiver tells what became of the deliveries with the ids
/// from `first` to `last` [2.7.6], as [`write_frame`] does.
pub fn write_settlement(
    channel: u16,
    first: u32,
    last: u32,
    settled: bool,
    outcome: Outcome,
    out: &mut [u8],
) -> Option<usize>
    ensures { IsWritten (said_frame channel (disposition_said first last settled outcome) []) result out.old out.new }
{
    amqp_perform::write_settlement(channel, first, last, settled, outcome, out)
}

/// Returns what a target says of its node, as an attach spells it; no bytes are no target [3.5.4].
pub fn address_of(target: &[u8]) -> Address<'_>
    ensures { node_of result ≡ target_node target.now }
{
    amqp_perform::address_of(target)
}
