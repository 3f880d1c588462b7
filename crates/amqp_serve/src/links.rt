//! What a host asks for a link between two steps: that it is refused, or gets credit.
ghost use Rattle.std.specs.Prelude.{◌≡◌, []};
ghost use Rattle.amqp_endpoint.specs.Connections.{slot_at};
ghost use Rattle.amqp_endpoint.specs.Takings.{link_in};
ghost use Rattle.amqp_reason.specs.Reasons.{reason_of};
ghost use Rattle.amqp_session.specs.Calls.{Grant, Refuse};
ghost use Rattle.amqp_serve.specs.Deeds.{ends, AreOpen};
ghost use Rattle.amqp_serve.specs.Links.{GoesOut, Says, TopsUp};
ghost use Rattle.amqp_serve.specs.Serving.{credit_lack};
ghost use Rattle.amqp_serve.specs.Supplying.{half_rule};

use crate::sending::write_out;
use crate::supplies::credit_lack;
use crate::{Rule, ServeFault};
use amqp_endpoint::{CallFault, Endpoint};
use amqp_frame::{Device, HoldsBack};
use amqp_perform::Outcome;
use amqp_reason::Reason;
use std::alloc::Allocator;
use std::io::Write;
use thiserror::Error;

/// Why what a host asks for a link is not done.
#[derive(Clone, Copy, Debug, PartialEq, Eq, Drop, Error)]
pub enum LinkFault {
    /// The server hears nothing any more. Nothing has changed.
    #[error("the server hears nothing any more")]
    Over,
    /// The endpoint refuses the call. Nothing that counts has changed.
    #[error("{0}")]
    Call(CallFault),
    /// The writer or the sink has failed while the answer was written. The call was made, and the server hears nothing
    /// any more.
    #[error("{0}")]
    Lost(ServeFault),
}

/// Refuses a link with an error, and writes the detach that says so. No answer may wait.
pub fn refuse<A: Allocator + Copy, W: Write + HoldsBack + Drop, S: Write + Drop>(
    endpoint: &mut Endpoint<A>,
    channel: u16,
    handle: u32,
    reason: &Reason<'_>,
    writer: &mut Device<W>,
    sink: &mut Device<S>,
) -> Result<(), LinkFault>
    requires ends { AreOpen (ends W.contents S.contents writer.old sink.old) }
    requires sent { endpoint.old.unsent ≡ [] }
    ensures { Says result channel (Refuse handle (reason_of reason.now)) endpoint.old endpoint.new
        (ends W.contents S.contents writer.old sink.old) (ends W.contents S.contents writer.new sink.new) }
{
    match endpoint.refuse(channel, handle, reason) {
        Ok(_) => say(endpoint, writer, sink),
        Err(fault) => Err(LinkFault::Call(fault)),
    }
}

/// Gives a link what it lacks of `most` credit, if at most half of that is left, and writes the flow that says so. No
/// answer may wait. Returns how much it was granted.
pub fn top_up<A: Allocator + Copy, W: Write + HoldsBack + Drop, S: Write + Drop>(
    endpoint: &mut Endpoint<A>,
    channel: u16,
    handle: u32,
    most: u32,
    writer: &mut Device<W>,
    sink: &mut Device<S>,
) -> Result<u32, LinkFault>
    requires ends { AreOpen (ends W.contents S.contents writer.old sink.old) }
    requires sent { endpoint.old.unsent ≡ [] }
    ensures { TopsUp (credit_lack (half_rule most) (link_in handle (slot_at endpoint.old.connection channel))) result channel handle endpoint.old endpoint.new
        (ends W.contents S.contents writer.old sink.old) (ends W.contents S.contents writer.new sink.new) }
{
    let rule = Rule {
        credit: most,
        mark: most / 2,
        outcome: Outcome::Accepted,
    };
    let lacking = credit_lack(endpoint, channel, handle, &rule);
    if lacking == 0 {
        return Ok(0);
    }
    match grant(endpoint, channel, handle, lacking, writer, sink) {
        Ok(()) => Ok(lacking),
        Err(fault) => Err(fault),
    }
}

/// Grants a link `n` credit, and writes the flow that says so. No answer may wait.
fn grant<A: Allocator + Copy, W: Write + HoldsBack + Drop, S: Write + Drop>(
    endpoint: &mut Endpoint<A>,
    channel: u16,
    handle: u32,
    n: u32,
    writer: &mut Device<W>,
    sink: &mut Device<S>,
) -> Result<(), LinkFault>
    requires ends { AreOpen (ends W.contents S.contents writer.old sink.old) }
    requires sent { endpoint.old.unsent ≡ [] }
    ensures { Says result channel (Grant handle n) endpoint.old endpoint.new
        (ends W.contents S.contents writer.old sink.old) (ends W.contents S.contents writer.new sink.new) }
{
    match endpoint.grant(channel, handle, n) {
        Ok(()) => say(endpoint, writer, sink),
        Err(fault) => Err(LinkFault::Call(fault)),
    }
}

/// Writes the answer that waits.
fn say<A: Allocator + Copy, W: Write + HoldsBack + Drop, S: Write + Drop>(
    endpoint: &mut Endpoint<A>,
    writer: &mut Device<W>,
    sink: &mut Device<S>,
) -> Result<(), LinkFault>
    requires ends { AreOpen (ends W.contents S.contents writer.old sink.old) }
    ensures { GoesOut result endpoint.old endpoint.new
        (ends W.contents S.contents writer.old sink.old) (ends W.contents S.contents writer.new sink.new) }
{
    match write_out(endpoint, writer, sink) {
        Ok(()) => Ok(()),
        Err(fault) => Err(LinkFault::Lost(fault)),
    }
}
