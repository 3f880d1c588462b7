//! Why a link whose attach has no fault is refused.
ghost use Rattle.std.specs.Prelude.{◌≡◌, ◌≤◌, ◌<◌, ◌+◌, length, true, false, not, nat_lt, None, [], IsTrue, ◌↔◌};
ghost use Rattle.amqp_perform.specs.Frames.{frame_of as written_frame, FitsFrame};
ghost use Rattle.amqp_types.specs.Reading.{value_of};
ghost use Rattle.amqp_session.specs.Faults.{refusal};
ghost use Rattle.amqp_session.specs.Coordinators.{BeginsWithin, peeks_coordinator};
ghost use Rattle.amqp_perform.specs.Said.{said_frame};
ghost use Rattle.amqp_session.specs.Frames.{attaching, is_coordinator, is_coordinator_in, attach_said};

use crate::replies::{self, Modes};
use crate::terms::SessionTerms;
use amqp_link::LinkBounds;
use amqp_perform::{Attach, Condition, Performative, Role, write_frame};
use amqp_types::laws::reading_is_exact;
use amqp_types::{Kind, Peek, peek, skip};

/// The longest source and target together, in bytes.
const MAX_ENDS: usize = 1024;

/// No answer to an attach is longer if its name has at most 255 bytes, and source and target together at most
/// 1024.
const MAX_REPLY: usize = 1400;

/// Returns the first reason to refuse a link; `None` if there is none [2.6.3, 2.7.1, 2.7.3]. `NotImplemented`:
/// this side would be its sender, or the coordinator of transactions. `ResourceLimitExceeded`: source and
/// target are too long. `FrameSizeTooSmall`: the answer does not fit a frame of the peer.
pub fn refusal(terms: &SessionTerms, attach: &Attach<'_>, bounds: LinkBounds) -> Option<Condition>
    requires { length attach.now.name.now ≤ 255 }
    ensures { result ≡ refusal terms.now (attaching attach.now bounds) }
{
    if matches!(attach.role, Role::Receiver) || is_coordinator(attach.target) {
        return Some(Condition::NotImplemented);
    }
    if attach.source.len() > MAX_ENDS || attach.target.len() > MAX_ENDS - attach.source.len() {
        return Some(Condition::ResourceLimitExceeded);
    }
    if !fits(terms, attach, bounds) {
        return Some(Condition::FrameSizeTooSmall);
    }
    None
}

/// Returns whether the answer to an attach fits a frame of the peer.
fn fits(terms: &SessionTerms, attach: &Attach<'_>, bounds: LinkBounds) -> bool
    requires name { length attach.now.name.now ≤ 255 }
    requires ends { length attach.now.source.now + length attach.now.target.now ≤ 1024 }
    ensures { result ≡ not (nat_lt terms.now.max_frame_size (length (said_frame 0 (attach_said bounds.max_message_size (attaching attach.now bounds)) []))) }
{
    let room = terms.max_frame_size as usize;
    if room >= MAX_REPLY {
        return true;
    }
    let mut scratch = [0; 9];
    let spelled = replies::ulong(bounds.max_message_size(), &mut scratch);
    let reply = replies::accepted(
        attach.name,
        attach.source,
        attach.target,
        spelled,
        Modes::of(attach),
    );
    is_written(&Performative::Attach(reply), room)
}

/// Returns whether a performative fits a frame of `room` bytes.
fn is_written(performative: &Performative<'_>, room: usize) -> bool
    requires { room ≤ 1400 }
    ensures { IsTrue result ↔ FitsFrame (written_frame 0 performative.now []) room }
{
    let mut out = [0; MAX_REPLY];
    write_frame(0, performative, &[], &mut out[..room]).is_some()
}

/// Returns whether a target describes a coordinator of transactions.
fn is_coordinator(target: &[u8]) -> bool
    ensures { result ≡ is_coordinator target.now }
{
    match target.split_first() {
        Some((0, described)) => names_coordinator(described),
        _ => false,
    }
}

/// Returns whether the bytes begin with the type of a coordinator: the ulong 0x30 or its symbol, in any
/// spelling [part 4, 4.5.1].
fn names_coordinator(described: &[u8]) -> bool
    ensures { result ≡ is_coordinator_in (value_of 31 None described.now) }
{
    match skip(described, 31) {
        Ok(_) => is_coordinator_type(described),
        Err(_) => false,
    }
}

/// Returns whether bytes that begin with a value begin with the type of a coordinator.
fn is_coordinator_type(described: &[u8]) -> bool
    requires { BeginsWithin 31 described.now }
    ensures { result ≡ is_coordinator_in (value_of 31 None described.now) }
{
    reading_is_exact();
    peeks_coordinator(peek(described))
}

/// Returns whether a value's outermost case is that of the type of a coordinator.
fn peeks_coordinator(value: Peek<'_>) -> bool
    ensures { result ≡ peeks_coordinator value.entry }
{
    match value {
        Peek::Unsigned(Kind::Ulong, number) => number == 0x30,
        Peek::Symbol(symbol) => symbol == b"amqp:coordinator:list".as_slice(),
        _ => false,
    }
}
