//! What the receiver's bytes tell a sender.
ghost use Rattle.std.specs.Prelude.{◌≡◌, ℕ, ◌≤◌, ◌*◌, IfSome, IfNone};
ghost use Rattle.amqp_frame.specs.Units.{StreamUnit};
ghost use Rattle.amqp_frame.specs.Splits.{Waits};
ghost use Rattle.amqp_perform.specs.Performatives.{type_of, performative_cells, flow_cells, disposition_cells};
ghost use Rattle.amqp_send.specs.Tellings.{performative_told, told_in, told_of, disposition_told, flow_told, IsLawful};

use amqp_frame::laws::no_unit_begins_another;
use amqp_frame::{HEADER, Splitter};
use amqp_perform::laws::what_is_read_may_be_written;
use amqp_perform::{Condition, Disposition, Flow, Outcome, Performative, Role, read_body};
use std::alloc::Allocator;

/// What a flow states [2.7.4].
#[derive(Clone, Copy, Debug, PartialEq, Eq)]
pub struct Limits {
    /// 0 if it is absent.
    pub next_incoming_id: u32,
    pub incoming_window: u32,
    /// It has a handle.
    pub of_link: bool,
    /// 0 if it is absent.
    pub delivery_count: u32,
    /// 0 if it is absent.
    pub link_credit: u32,
    pub drain: bool,
    pub echo: bool,
}

/// What a unit of the receiver's bytes tells.
#[derive(Clone, Copy, Debug, PartialEq, Eq)]
pub enum Telling {
    /// Nothing that concerns a sender.
    Nothing,
    /// Its max-frame-size [2.7.1].
    Opened(u32),
    /// Its next-outgoing-id and its incoming-window [2.7.2].
    Begun(u32, u32),
    /// The limits of a flow.
    Flowed(Limits),
    /// What became of the deliveries from a first to a last one [2.7.6].
    Disposed(u32, u32, Option<Outcome>),
    /// It detached the link or ended the session [2.7.7, 2.7.8].
    Left(Condition),
    /// It closed the connection [2.7.9].
    Closed(Condition),
    /// The unit can't be read.
    Unread,
}

/// Returns what a flow tells.
#[tactic(auto, using(crate::proofs::Fields::fields_are))]
fn told_by_flow(p: &Flow<'_>) -> Telling
    ensures { result ≡ flow_told (flow_cells p.now) }
{
    Telling::Flowed(Limits {
        next_incoming_id: p.next_incoming_id.unwrap_or(0),
        incoming_window: p.incoming_window,
        of_link: p.handle.is_some(),
        delivery_count: p.delivery_count.unwrap_or(0),
        link_credit: p.link_credit.unwrap_or(0),
        drain: p.drain,
        echo: p.echo,
    })
}

/// Returns what a disposition tells: nothing if it is of a sender, or has no outcome and does not settle.
#[tactic(auto, using(crate::proofs::Fields::fields_are))]
fn told_by_disposition(p: &Disposition<'_>) -> Telling
    ensures { result ≡ disposition_told (disposition_cells p.now) }
{
    let last = p.last.unwrap_or(p.first);
    let outcome = Outcome::of(p.state);
    match p.role {
        Role::Receiver if outcome.is_some() || p.settled => Telling::Disposed(
            p.first, last, outcome,
        ),
        _ => Telling::Nothing,
    }
}

/// Returns what a performative tells.
#[tactic(auto, using(crate::proofs::Fields::fields_are))]
fn performative_told(performative: &Performative<'_>) -> Telling
    ensures { result ≡ performative_told (type_of performative.now) (performative_cells performative.now) }
{
    match performative {
        Performative::Open(p) => Telling::Opened(p.max_frame_size),
        Performative::Begin(p) => Telling::Begun(p.next_outgoing_id, p.incoming_window),
        Performative::Flow(p) => told_by_flow(p),
        Performative::Disposition(p) => told_by_disposition(p),
        Performative::Detach(p) => Telling::Left(Condition::of(p.error)),
        Performative::End(p) => Telling::Left(Condition::of(p.error)),
        Performative::Close(p) => Telling::Closed(Condition::of(p.error)),
        Performative::Attach(_) | Performative::Transfer(_) => Telling::Nothing,
    }
}

/// Returns what the body of a frame tells. A max-frame-size that is told is at least 512 [2.7.1].
fn told_in(body: &[u8]) -> Telling
    ensures told { result ≡ told_in body.now }
    ensures lawful { IsLawful result }
{
    what_is_read_may_be_written();
    if body.is_empty() {
        return Telling::Nothing;
    }
    match read_body(body) {
        Ok((performative, _)) => performative_told(&performative),
        Err(_) => Telling::Unread,
    }
}

/// Returns what the unit that waits tells; `None` if none waits. A max-frame-size that is told is at
/// least 512 [2.7.1].
pub fn told_by_unit<A: Allocator + Copy>(input: &Splitter<A>) -> Option<Telling>
    requires { 8 ≤ input.now.limit }
    ensures some { IfSome result (λ t. (u : StreamUnit) × Waits input.now u × (t ≡ told_of u)) }
    ensures none { IfNone result ((u : StreamUnit) → Waits input.now u → ⊥) }
    ensures lawful { IfSome result IsLawful }
{
    no_unit_begins_another();
    if input.is_empty() {
        return None;
    }
    if let Some(header) = input.header() {
        return Some(told_by_header(&header));
    }
    match input.frame()? {
        Ok(frame) => Some(told_in(frame.body)),
        Err(_) => Some(Telling::Unread),
    }
}

/// Returns what the receiver's header tells.
fn told_by_header(header: &[u8; 8]) -> Telling
    ensures { result ≡ told_of (StreamUnit.HeaderUnit header.now) }
{
    if header == &HEADER {
        Telling::Nothing
    } else {
        Telling::Unread
    }
}
