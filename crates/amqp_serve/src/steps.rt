//! One step of serving: a piece of what a peer sent, up to the end of one unit, and what follows from it.
ghost use Rattle.std.specs.Prelude.{◌≡◌, ◌≢◌, ◌≤◌, ◌↔◌, [], ℕ, List, true, take, length, IsTrue, IfOk, OnOk};
ghost use Rattle.amqp_session.specs.Calls.{Take};
ghost use Rattle.amqp_endpoint.specs.Endpoints.{handed_in};
ghost use Rattle.amqp_endpoint.specs.Runs.{CallDone, HandedUp};
ghost use Rattle.amqp_endpoint.specs.Steps.{EndpointState, MayRead, IsKept};
ghost use Rattle.amqp_serve.specs.Deeds.{receipt_deeds, filled, Follows, IsStepped, Reaches, Went, ends, AreOpen};
ghost use Rattle.amqp_serve.specs.Noting.{IsNoteOf, IsReceiptOf};
ghost use Rattle.amqp_serve.specs.Serving.{ToppingUp, Receiving, all_supplies, stand_told};
ghost use Rattle.amqp_serve.specs.Supplied.{IsRight, IsSuppliedBut, IsOnlyAt, is_nil, told_look, received_look, look_behind};
ghost use Rattle.amqp_serve.specs.declared.supplies.Look.TheVariants as look;

use crate::note::{Fate, Note};
use crate::records::write_record;
use crate::sending::write_out;
use crate::supplies::{Look, Topped, top_up};
use crate::{Rule, ServeFault};
use amqp_endpoint::laws::{are_bytes, fills_are_feeds, is_id};
use amqp_endpoint::{CallFault, Endpoint, Event, Fed, Outcome};
use amqp_frame::{Device, HoldsBack};
use amqp_link::{Tag, Taken};
use amqp_perform::Outcome as Settlement;
use std::alloc::Allocator;
use std::io::Write;

/// What a step goes by: the rule, and what is known of the endpoint.
#[derive(Clone, Copy, Debug)]
pub struct Course {
    pub rule: Rule,
    /// Whether it is known that no window and no link lacks anything. `false` is always right.
    pub supplied: bool,
}

/// A message that was taken and recorded, from the link that the event named.
#[derive(Clone, Copy, Debug, PartialEq, Eq)]
pub struct Received {
    pub delivery_id: u32,
    pub delivery_tag: Tag,
    /// Its length in bytes, as its record gives it: `u32::MAX` if it is longer.
    pub len: u32,
}

/// What became of the message that was ready.
#[derive(Clone, Copy, Debug, PartialEq, Eq)]
pub enum Receipt {
    /// No message was ready.
    Nothing,
    /// It was not taken: the call was refused.
    Refused(CallFault),
    /// It was taken and recorded, and its sender had settled it.
    Settled(Received),
    /// It was taken, recorded and settled.
    Told(Received),
    /// It was taken and recorded, but the call that settles it was refused.
    Untold(Received, CallFault),
}

/// What a step did, besides acting upon a unit.
#[derive(Clone, Copy, Debug, PartialEq, Eq)]
pub struct Done {
    pub receipt: Receipt,
    pub topped: Topped,
}

impl Done {
    /// Nothing was done.
    pub const NOTHING: Done = Done {
        receipt: Receipt::Nothing,
        topped: Topped::NOTHING,
    };
}

/// The result of a step.
#[derive(Clone, Copy, Debug, PartialEq, Eq)]
pub struct Stepped {
    /// How many bytes were used: up to the end of one unit at most, and none once the connection is over.
    pub used: usize,
    /// What feeding the bytes reported.
    pub told: Outcome,
    pub done: Result<Done, ServeFault>,
}

/// Serves a piece of what the peer sent, up to the end of one unit, which is acted upon. A message that is ready
/// then is taken, its record goes to the sink, and it is settled unless its sender settled it. What lacks
/// something by the rule is topped up. When the call returns without an error, all answers have gone to the writer
/// and the record to the sink. It flushes neither, except the sink before a write that the writer doesn't hold
/// back. The rest of the piece is for the next step. So any list of steps is one run of the rule, with the same
/// result however the bytes are cut into pieces.
///
/// # Errors
///
/// `Write` and `Sink` if that device has failed. An answer may then be missing, and the endpoint is not to be
/// served on. `NoMemory` if memory for the unit is refused. The unit waits in the endpoint, and nothing else has
/// changed. The next step, also one of no bytes, tries it again. `Read` never comes.
pub fn serve_piece<A: Allocator + Copy, W: Write + HoldsBack + Drop, S: Write + Drop>(
    endpoint: &mut Endpoint<A>,
    course: &mut Course,
    piece: &[u8],
    writer: &mut Device<W>,
    sink: &mut Device<S>,
) -> Stepped
    requires ends { AreOpen (ends W.contents S.contents writer.old sink.old) }
    requires sent { endpoint.old.unsent ≡ [] }
    requires course { IsRight course.old endpoint.old.connection }
    ensures bound { result.used ≤ length piece.now }
    ensures reaches { Reaches endpoint.old piece.now result.used }
    ensures rule { course.new.rule ≡ course.old.rule }
    ensures course { IsRight course.new endpoint.new.connection }
    ensures stepped { IsStepped course.old.rule (take result.used piece.now) result.told result.done endpoint.old endpoint.new (ends W.contents S.contents writer.old sink.old)
        (ends W.contents S.contents writer.new sink.new) }
{
    let mut note = Note::NOTHING;
    let (fed, end) = serve_piece_into(endpoint, course, piece, true, &mut note, writer, sink);
    note.stepped(fed, end)
}

/// Serves a piece as [`serve_piece`] does, and notes what was done, with the message if `whole`. Returns what the feed
/// came to, and how the step ended.
// For the same reason as `hand_on`.
#[inline(always)]
pub fn serve_piece_into<A: Allocator + Copy, W: Write + HoldsBack + Drop, S: Write + Drop>(
    endpoint: &mut Endpoint<A>,
    course: &mut Course,
    piece: &[u8],
    whole: bool,
    note: &mut Note,
    writer: &mut Device<W>,
    sink: &mut Device<S>,
) -> (Fed, Result<(), ServeFault>)
    requires ends { AreOpen (ends W.contents S.contents writer.old sink.old) }
    requires sent { endpoint.old.unsent ≡ [] }
    requires course { IsRight course.old endpoint.old.connection }
    ensures bound { result.0.used ≤ length piece.now }
    ensures reaches { Reaches endpoint.old piece.now result.0.used }
    ensures rule { course.new.rule ≡ course.old.rule }
    ensures course { IsRight course.new endpoint.new.connection }
    ensures stepped { (d : Done) × IsNoteOf whole note.new d × IsStepped course.old.rule (take result.0.used piece.now) result.0.outcome (filled result.1 d) endpoint.old endpoint.new
        (ends W.contents S.contents writer.old sink.old) (ends W.contents S.contents writer.new sink.new) }
{
    endpoint.holds_a_header(); // three laws, for the proof
    are_bytes(piece);
    fills_are_feeds();
    let fed = endpoint.feed(piece);
    let end = follow_into(endpoint, course, &fed.outcome, whole, note, writer, sink);
    (fed, end)
}

/// Serves the `n` bytes that were read into the room that the endpoint lends. It uses all of them. What it does
/// with them, and each error, is as [`serve_piece`] says.
pub fn serve_read<A: Allocator + Copy, W: Write + HoldsBack + Drop, S: Write + Drop>(
    endpoint: &mut Endpoint<A>,
    course: &mut Course,
    n: usize,
    writer: &mut Device<W>,
    sink: &mut Device<S>,
) -> Stepped
    requires ends { AreOpen (ends W.contents S.contents writer.old sink.old) }
    requires sent { endpoint.old.unsent ≡ [] }
    requires course { IsRight course.old endpoint.old.connection }
    requires read { MayRead endpoint.old n }
    ensures used { result.used ≡ n }
    ensures rule { course.new.rule ≡ course.old.rule }
    ensures course { IsRight course.new endpoint.new.connection }

    // It holds from the state before they were read too, since what is in that room doesn't count.
    ensures stepped { (s : EndpointState) → IsKept s endpoint.old → IsStepped course.old.rule (take n endpoint.old.input.spare) result.told result.done s endpoint.new
        (ends W.contents S.contents writer.old sink.old) (ends W.contents S.contents writer.new sink.new) }
{
    let mut note = Note::NOTHING;
    let (fed, end) = serve_read_into(endpoint, course, n, true, &mut note, writer, sink);
    note.stepped(fed, end)
}

/// Serves what was read as [`serve_read`] does, and notes what was done, with the message if `whole`. Returns what the
/// feed came to, and how the step ended.
// For the same reason as `hand_on`.
#[inline(always)]
pub fn serve_read_into<A: Allocator + Copy, W: Write + HoldsBack + Drop, S: Write + Drop>(
    endpoint: &mut Endpoint<A>,
    course: &mut Course,
    n: usize,
    whole: bool,
    note: &mut Note,
    writer: &mut Device<W>,
    sink: &mut Device<S>,
) -> (Fed, Result<(), ServeFault>)
    requires ends { AreOpen (ends W.contents S.contents writer.old sink.old) }
    requires sent { endpoint.old.unsent ≡ [] }
    requires course { IsRight course.old endpoint.old.connection }
    requires read { MayRead endpoint.old n }
    ensures used { result.0.used ≡ n }
    ensures rule { course.new.rule ≡ course.old.rule }
    ensures course { IsRight course.new endpoint.new.connection }
    ensures stepped { (d : Done) × IsNoteOf whole note.new d × ((s : EndpointState) → IsKept s endpoint.old → IsStepped course.old.rule (take n endpoint.old.input.spare) result.0.outcome
        (filled result.1 d) s endpoint.new (ends W.contents S.contents writer.old sink.old) (ends W.contents S.contents writer.new sink.new)) }
{
    endpoint.holds_a_header(); // three laws, for the proof
    endpoint.spare_is_bytes();
    fills_are_feeds();
    let fed = endpoint.filled(n);
    let end = follow_into(endpoint, course, &fed.outcome, whole, note, writer, sink);
    (fed, end)
}

/// Does what follows from a feed that reported `told`, and notes what was done, with the message if `whole`. If nothing
/// lacked anything before the feed, `told` names what may lack something now.
fn follow_into<A: Allocator + Copy, W: Write + HoldsBack + Drop, S: Write + Drop>(
    endpoint: &mut Endpoint<A>,
    course: &mut Course,
    told: &Outcome,
    whole: bool,
    note: &mut Note,
    writer: &mut Device<W>,
    sink: &mut Device<S>,
) -> Result<(), ServeFault>
    requires ends { AreOpen (ends W.contents S.contents writer.old sink.old) }
    requires supplied { course.old.supplied ≡ true → IsSuppliedBut (told_look told.now (is_nil endpoint.old.input.filled)) course.old.rule endpoint.old.connection }
    ensures rule { course.new.rule ≡ course.old.rule }
    ensures course { IsRight course.new endpoint.new.connection }
    ensures follows { (d : Done) × IsNoteOf whole note.new d × Follows course.old.rule told.now (filled result d) endpoint.old endpoint.new (ends W.contents S.contents writer.old sink.old)
        (ends W.contents S.contents writer.new sink.new) }
{
    let supplied = course.supplied;
    course.supplied = false;
    if let Outcome::NoMemory = *told {
        return Err(ServeFault::NoMemory);
    }
    let rule = &course.rule;
    let look = receive(endpoint, *told, supplied, rule, whole, note, writer, sink)?;
    let mut topped = Topped::NOTHING;
    top_up(endpoint, look, rule, &mut topped, writer, sink)?;
    write_out(endpoint, writer, sink)?;
    course.supplied = topped.refused == 0;
    note.topped = topped;
    Ok(())
}

/// Takes the message that is ready, if there is one, writes its record, and settles it unless its sender did.
/// Returns what may lack something afterwards.
#[tactic(auto, using(crate::proofs::Deeds::went_none, crate::proofs::Supplied::only_same))]
#[inline(always)]
fn receive<A: Allocator + Copy, W: Write + HoldsBack + Drop, S: Write + Drop>(
    endpoint: &mut Endpoint<A>,
    told: Outcome,
    supplied: bool,
    rule: &Rule,
    whole: bool,
    note: &mut Note,
    writer: &mut Device<W>,
    sink: &mut Device<S>,
) -> Result<Look, ServeFault>
    requires ends { AreOpen (ends W.contents S.contents writer.old sink.old) }
    requires fed { told ≢ Outcome.NoMemory }
    ensures look { IfOk result (λ l. l ≡ look_behind supplied told (is_nil endpoint.old.input.filled)) }
    ensures only { OnOk result (IsOnlyAt rule.now (received_look told) endpoint.old.connection endpoint.new.connection) }
    ensures went { (r : Receipt) × IsReceiptOf whole note.new r × Went rule.now (λ _. receipt_deeds r) (stand_told endpoint.old.connection.config told)
        (ToppingUp (all_supplies endpoint.old.connection.config)) result endpoint.old endpoint.new (ends W.contents S.contents writer.old sink.old) (ends W.contents S.contents writer.new sink.new) }
{
    match told {
        Outcome::Event(Event::Ready { channel, handle }) => {
            receive_from(endpoint, channel, handle, rule, whole, note, writer, sink)?;
            Ok(if supplied {
                Look::Link { channel, handle }
            } else {
                Look::All
            })
        }
        _ => {
            note.fate = Fate::Nothing;
            Ok(look_behind(supplied, told, endpoint.is_between()))
        }
    }
}

/// Returns what may lack something after a feed that reported `told`. That is all, unless it is known (`supplied`)
/// that nothing lacked anything before the feed. `between`: no byte of a unit waits.
fn look_behind(supplied: bool, told: Outcome, between: bool) -> Look
    ensures { result ≡ look_behind supplied told between }
{
    if !supplied {
        return Look::All;
    }
    match told {
        Outcome::More if !between => Look::Nothing,
        Outcome::Event(
            Event::Attached { channel, handle }
            | Event::Unfinished { channel, handle }
            | Event::Ready { channel, handle }
            | Event::Aborted { channel, handle }
            | Event::Drained { channel, handle }
            | Event::Detached {
                channel,
                handle,
                ..
            },
        ) => Look::Link { channel, handle },
        Outcome::Event(Event::Settled { channel, .. }) => Look::Session { channel },
        _ => Look::All,
    }
}

/// Takes the message that is ready on a link, writes its record, and settles it unless its sender did.
#[inline(always)]
fn receive_from<A: Allocator + Copy, W: Write + HoldsBack + Drop, S: Write + Drop>(
    endpoint: &mut Endpoint<A>,
    channel: u16,
    handle: u32,
    rule: &Rule,
    whole: bool,
    note: &mut Note,
    writer: &mut Device<W>,
    sink: &mut Device<S>,
) -> Result<(), ServeFault>
    requires ends { AreOpen (ends W.contents S.contents writer.old sink.old) }
    ensures only { OnOk result (IsOnlyAt rule.now (look.Link channel handle) endpoint.old.connection endpoint.new.connection) }
    ensures went { (r : Receipt) × IsReceiptOf whole note.new r × Went rule.now (λ _. receipt_deeds r) (Receiving channel handle) (ToppingUp (all_supplies endpoint.old.connection.config)) result
        endpoint.old endpoint.new (ends W.contents S.contents writer.old sink.old) (ends W.contents S.contents writer.new sink.new) }
{
    match endpoint.take(channel, handle) {
        Ok(taken) => record_and_settle(
            endpoint, channel, handle, &taken, rule, whole, note, writer, sink,
        ),
        Err(fault) => {
            note.fate = Fate::Refused(fault);
            Ok(())
        }
    }
}

/// Writes the record of a message that was taken, and settles it unless its sender did.
#[inline(always)]
fn record_and_settle<A: Allocator + Copy, W: Write + HoldsBack + Drop, S: Write + Drop>(
    endpoint: &mut Endpoint<A>,
    channel: u16,
    handle: u32,
    taken: &Taken<A>,
    rule: &Rule,
    whole: bool,
    note: &mut Note,
    writer: &mut Device<W>,
    sink: &mut Device<S>,
) -> Result<(), ServeFault>
    requires ends { AreOpen (ends W.contents S.contents writer.old sink.old) }

    // From the state before it was taken.
    ensures only { (s : EndpointState) → CallDone s endpoint.old channel (Take handle) (HandedUp (handed_in taken.now))
        → OnOk result (IsOnlyAt rule.now (look.Link channel handle) s.connection endpoint.new.connection) }
    ensures went { (s : EndpointState) → CallDone s endpoint.old channel (Take handle) (HandedUp (handed_in taken.now))
        → (r : Receipt) × IsReceiptOf whole note.new r × Went rule.now (λ _. receipt_deeds r) (Receiving channel handle) (ToppingUp (all_supplies s.connection.config)) result s endpoint.new
        (ends W.contents S.contents writer.old sink.old) (ends W.contents S.contents writer.new sink.new) }
{
    write_record(sink, channel, handle, taken)?;
    note.took(whole, taken);
    if taken.settled {
        note.fate = Fate::Settled;
        return Ok(());
    }
    write_out(endpoint, writer, sink)?;
    endpoint.ids_are_apart(channel); // two laws, for the proof
    is_id(taken.delivery_id);
    let told = endpoint.settle(channel, taken.delivery_id, rule.outcome);
    note.fate = Fate::of(told);
    Ok(())
}
