//! Serving a whole connection, over a reader, a writer and a sink.
ghost use Rattle.std.specs.Prelude.{◌≡◌, ◌↔◌, ◌<◌, [], ℕ, List, true, false, length, Err, IsTrue, OnOk, IfOk, IfErr, take};
ghost use Rattle.std.specs.Io.KnownBytes.{Consumes};
ghost use Rattle.amqp_frame.specs.Devices.{device_inner, device_hand, has_failed, has_ended, is_flushed, reads_ahead};
ghost use Rattle.amqp_frame.specs.Splits.{IsOver};
ghost use Rattle.amqp_endpoint.specs.Connections.{is_dead};
ghost use Rattle.amqp_endpoint.specs.Steps.{EndpointState, MayRead, IsKept};
ghost use Rattle.amqp_serve.specs.Deeds.{ends, filled, AreOpen, IsLost, IsStepped, Goes};
ghost use Rattle.amqp_serve.specs.Policies.{BrokeOff, IsServed};
ghost use Rattle.amqp_serve.specs.Serving as by;
ghost use Rattle.amqp_serve.specs.Serving.{reading, IsIdle, IsStarved, HasAllTaken};
ghost use Rattle.amqp_serve.specs.Supplied.{IsRight};

use crate::note::Note;
use crate::sending::{fill_hand, flush_both, read_in, write_out};
use crate::steps::{Course, Done, serve_piece_into, serve_read_into};
use crate::{Rule, Unwatched, Watch};
use amqp_endpoint::{End, Endpoint, Fed, Outcome};
use amqp_frame::{AtHand, Device, HoldsBack};
use amqp_perform::Outcome as Settlement;
use std::alloc::Allocator;
use std::io::Write;
use thiserror::Error;

/// What is done with each message, and what credit a link gets.
#[derive(Clone, Copy, Debug)]
pub struct Policy {
    /// The credit that each link is topped up to, within what it is allowed. At 0 no link gets credit.
    pub credit: u32,
    /// The outcome of each message that its sender has not settled.
    pub outcome: Settlement,
}

/// Why a connection was not served to its end.
#[derive(Clone, Copy, Debug, PartialEq, Eq, Drop, Error)]
pub enum ServeFault {
    /// The reader has failed.
    #[error("the reader has failed")]
    Read,
    /// The writer has failed.
    #[error("the writer has failed")]
    Write,
    /// The sink has failed.
    #[error("the sink has failed")]
    Sink,
    /// Memory was refused.
    #[error("memory was refused")]
    NoMemory,
}

/// Serves an endpoint until its connection is over or the reader has ended, and returns how the connection stood
/// then. The endpoint may be new, or one that `NoMemory` left.
///
/// It feeds the endpoint what the reader has at hand. If that is nothing and no byte of a unit waits, the reader
/// may fill what it has at hand. Otherwise it reads into the endpoint's buffer what is due next, and no byte
/// beyond the unit. What is to be sent is written before each of these, and before each call that writes. A unit
/// that waits at entry is acted upon before anything is read.
///
/// A message that is ready is taken, its record goes to the sink, and it is settled unless its sender settled it.
/// After each feed windows and credit are topped up. A session whose window is at most half of its opening places
/// is widened to them. A link is granted up to the policy's credit, within what it is allowed.
///
/// The writer and the sink may buffer. The sink is flushed, and then the writer, before each read and at the end.
/// So no peer waits for an answer that is in a buffer while this side waits for the peer. The sink is also flushed
/// before a write that the writer doesn't hold back. So no answer leaves before the record that it answers. No
/// clause says this of a whole run; the calls that read and write require it. If a writer holds back less than it
/// says, an answer may leave first. Nothing else that is promised here changes then.
///
/// A record is the channel (2 bytes), the handle, the delivery-id, the message-format and the message's length (4
/// bytes each), big-endian, and the message.
///
/// # Errors
///
/// `Read`, `Write` and `Sink` if that device has failed. If more than one failed, the sink is named before the
/// writer, and the writer before the reader.
///
/// `NoMemory` at the first unit that wants memory and is refused it, also one that waits at entry, unless the
/// flush after it fails. The unit waits in the endpoint, and nothing that was read is lost. So another call goes
/// on from there as if memory had been ample (`refusals_leave_no_trace`).
///
/// At an error, what was written so far begins what would be written, and what was recorded begins what would be
/// recorded. At `Read` and `NoMemory` nothing of it is missing so far. At each error but `Sink` the records are
/// flushed, and then the answers, as far as these devices let it. After `Sink` the writer may hold back answers
/// whose records were lost: throw its bytes away.
pub fn serve<A: Allocator + Copy, R: AtHand + Drop, W: Write + HoldsBack + Drop, S: Write + Drop>(
    endpoint: &mut Endpoint<A>,
    reader: &mut Device<R>,
    writer: &mut Device<W>,
    sink: &mut Device<S>,
    policy: Policy,
) -> Result<End, ServeFault>
    requires reader { ¬ (IsTrue (has_failed reader.old)) }
    requires writer { ¬ (IsTrue (has_failed writer.old)) }
    requires sink { ¬ (IsTrue (has_failed sink.old)) }

    // A failed sink is named before a failed writer, and that before a failed reader.
    ensures sink { (result ≡ Err ServeFault.Sink) ↔ IsTrue (has_failed sink.new) }
    ensures write { (result ≡ Err ServeFault.Write) ↔ (IsTrue (has_failed writer.new) × ¬ (IsTrue (has_failed sink.new))) }
    ensures read { (result ≡ Err ServeFault.Read) ↔ (IsTrue (has_failed reader.new) × ¬ (IsTrue (has_failed writer.new)) × ¬ (IsTrue (has_failed sink.new))) }

    // Nothing waits to be written while it reads, and it reads only until the connection is over.
    ensures waited { result ≡ Err ServeFault.Read → (endpoint.new.unsent ≡ []) × (is_dead endpoint.new.connection.phase ≡ false) }

    // If memory was refused, the unit that wants it waits in the endpoint, and no message is ready there, unless
    // one was at entry.
    ensures starved { result ≡ Err ServeFault.NoMemory → IsStarved endpoint.new }
    ensures taken { HasAllTaken endpoint.old.connection → result ≡ Err ServeFault.NoMemory → HasAllTaken endpoint.new.connection }

    // What was recorded is flushed, and what was written, unless these devices failed.
    ensures recorded { ¬ (IsTrue (has_failed sink.new)) → is_flushed sink.new ≡ true }
    ensures flushed { ¬ (IsTrue (has_failed writer.new)) → ¬ (IsTrue (has_failed sink.new)) → is_flushed writer.new ≡ true }

    // What was fed is what was read, and what was written and recorded is what the run over it moved out and took.
    ensures served { IfOk result (λ end. (bytes : List ℕ) × Consumes (R.remaining (device_inner reader.old)) (R.remaining (device_inner reader.new)) bytes
        × IsServed policy end bytes (has_ended reader.new) endpoint.old endpoint.new (W.contents (device_inner writer.old)) (W.contents (device_inner writer.new))
        (S.contents (device_inner sink.old)) (S.contents (device_inner sink.new))) }
    ensures begun { IfErr result (λ e. (bytes : List ℕ) × Consumes (R.remaining (device_inner reader.old)) (R.remaining (device_inner reader.new)) bytes
        × BrokeOff policy e reading bytes endpoint.old endpoint.new (W.contents (device_inner writer.old)) (W.contents (device_inner writer.new)) (S.contents (device_inner sink.old))
        (S.contents (device_inner sink.new))) }
{
    serve_watched(endpoint, reader, writer, sink, policy, &mut Unwatched)
}

/// Serves an endpoint until its connection is over or the reader has ended, and reports each step to a watch. A
/// step is reported after it was made, before the next one reads. Everything else is as [`serve`] says.
///
/// # Errors
///
/// `Read`, `Write`, `Sink` and `NoMemory`, each when [`serve`] returns it. What is left then is the same too.
pub fn serve_watched<
    A: Allocator + Copy,
    R: AtHand + Drop,
    W: Write + HoldsBack + Drop,
    S: Write + Drop,
    T: Watch,
>(
    endpoint: &mut Endpoint<A>,
    reader: &mut Device<R>,
    writer: &mut Device<W>,
    sink: &mut Device<S>,
    policy: Policy,
    watch: &mut T,
) -> Result<End, ServeFault>
    requires reader { ¬ (IsTrue (has_failed reader.old)) }
    requires writer { ¬ (IsTrue (has_failed writer.old)) }
    requires sink { ¬ (IsTrue (has_failed sink.old)) }

    // A failed sink is named before a failed writer, and that before a failed reader.
    ensures sink { (result ≡ Err ServeFault.Sink) ↔ IsTrue (has_failed sink.new) }
    ensures write { (result ≡ Err ServeFault.Write) ↔ (IsTrue (has_failed writer.new) × ¬ (IsTrue (has_failed sink.new))) }
    ensures read { (result ≡ Err ServeFault.Read) ↔ (IsTrue (has_failed reader.new) × ¬ (IsTrue (has_failed writer.new)) × ¬ (IsTrue (has_failed sink.new))) }

    // Nothing waits to be written while it reads, and it reads only until the connection is over.
    ensures waited { result ≡ Err ServeFault.Read → (endpoint.new.unsent ≡ []) × (is_dead endpoint.new.connection.phase ≡ false) }

    // If memory was refused, the unit that wants it waits in the endpoint, and no message is ready there, unless
    // one was at entry.
    ensures starved { result ≡ Err ServeFault.NoMemory → IsStarved endpoint.new }
    ensures taken { HasAllTaken endpoint.old.connection → result ≡ Err ServeFault.NoMemory → HasAllTaken endpoint.new.connection }

    // What was recorded is flushed, and what was written, unless these devices failed.
    ensures recorded { ¬ (IsTrue (has_failed sink.new)) → is_flushed sink.new ≡ true }
    ensures flushed { ¬ (IsTrue (has_failed writer.new)) → ¬ (IsTrue (has_failed sink.new)) → is_flushed writer.new ≡ true }

    // What was fed is what was read, and what was written and recorded is what the run over it moved out and took.
    ensures served { IfOk result (λ end. (bytes : List ℕ) × Consumes (R.remaining (device_inner reader.old)) (R.remaining (device_inner reader.new)) bytes
        × IsServed policy end bytes (has_ended reader.new) endpoint.old endpoint.new (W.contents (device_inner writer.old)) (W.contents (device_inner writer.new))
        (S.contents (device_inner sink.old)) (S.contents (device_inner sink.new))) }
    ensures begun { IfErr result (λ e. (bytes : List ℕ) × Consumes (R.remaining (device_inner reader.old)) (R.remaining (device_inner reader.new)) bytes
        × BrokeOff policy e reading bytes endpoint.old endpoint.new (W.contents (device_inner writer.old)) (W.contents (device_inner writer.new)) (S.contents (device_inner sink.old))
        (S.contents (device_inner sink.new))) }
{
    endpoint.holds_a_header(); // a law, for the proof
    match run(endpoint, reader, writer, sink, Rule::of(policy), watch) {
        Ok(end) => Ok(end),
        Err(ServeFault::Read) => {
            flush_both(writer, sink)?;
            Err(ServeFault::Read)
        }
        Err(ServeFault::NoMemory) => {
            flush_both(writer, sink)?;
            Err(ServeFault::NoMemory)
        }
        Err(ServeFault::Write) => match sink.flush() {
            Ok(()) => Err(ServeFault::Write),
            Err(_) => Err(ServeFault::Sink),
        },
        Err(fault) => Err(fault),
    }
}

/// Serves an endpoint until its connection is over or the reader has ended, without the flush after a failure.
fn run<
    A: Allocator + Copy,
    R: AtHand + Drop,
    W: Write + HoldsBack + Drop,
    S: Write + Drop,
    T: Watch,
>(
    endpoint: &mut Endpoint<A>,
    reader: &mut Device<R>,
    writer: &mut Device<W>,
    sink: &mut Device<S>,
    rule: Rule,
    watch: &mut T,
) -> Result<End, ServeFault>
    requires reader { ¬ (IsTrue (has_failed reader.old)) }
    requires ends { AreOpen (ends W.contents S.contents writer.old sink.old) }
    ensures flushed { OnOk result ((is_flushed writer.new ≡ true) × (is_flushed sink.new ≡ true)) }
    ensures still { OnOk result (AreOpen (ends W.contents S.contents writer.new sink.new) × ¬ (IsTrue (has_failed reader.new))) }
    ensures served { IfOk result (λ end. (bytes : List ℕ) × Consumes (R.remaining (device_inner reader.old)) (R.remaining (device_inner reader.new)) bytes
        × by.IsServed rule end bytes (has_ended reader.new) endpoint.old endpoint.new (W.contents (device_inner writer.old)) (W.contents (device_inner writer.new))
        (S.contents (device_inner sink.old)) (S.contents (device_inner sink.new))) }
    ensures lost { IfErr result (λ x. IsLost rule x endpoint.old endpoint.new (R.remaining (device_inner reader.old)) (R.remaining (device_inner reader.new)) (has_failed reader.new)
        (ends W.contents S.contents writer.old sink.old) (ends W.contents S.contents writer.new sink.new)) }
{
    let mut course = Course {
        rule,
        supplied: false,
    };
    write_out(endpoint, writer, sink)?;
    if !endpoint.is_over() {
        step_on(endpoint, &mut course, 0, writer, sink, watch)?;
    }
    'reads: while !endpoint.is_over() && !reader.ended() {
        go_on(endpoint, reader, &mut course, writer, sink, watch)?;
    }
    flush_both(writer, sink)?;
    Ok(endpoint.finish())
}

/// Makes a step with what the reader has at hand. If that is nothing, the reader may fill it. If it doesn't, the
/// step is made with what the reader reads.
fn go_on<
    A: Allocator + Copy,
    R: AtHand + Drop,
    W: Write + HoldsBack + Drop,
    S: Write + Drop,
    T: Watch,
>(
    endpoint: &mut Endpoint<A>,
    reader: &mut Device<R>,
    course: &mut Course,
    writer: &mut Device<W>,
    sink: &mut Device<S>,
    watch: &mut T,
) -> Result<(), ServeFault>
    requires reader { ¬ (IsTrue (has_failed reader.old)) }
    requires ends { AreOpen (ends W.contents S.contents writer.old sink.old) }
    requires alive { is_dead endpoint.old.connection.phase ≡ false }
    requires begun { has_ended reader.old ≡ false }
    requires goes_on { IsOver endpoint.old.input.stage → ⊥ }
    requires sent { endpoint.old.unsent ≡ [] }
    requires idle { IsIdle endpoint.old }
    requires course { IsRight course.old endpoint.old.connection }
    ensures rule { course.new.rule ≡ course.old.rule }
    ensures course { IsRight course.new endpoint.new.connection }
    ensures fewer { OnOk result (reads_ahead reader.new < reads_ahead reader.old) }
    ensures goes { Goes course.old.rule result endpoint.old endpoint.new (R.remaining (device_inner reader.old)) (R.remaining (device_inner reader.new)) (has_failed reader.new)
        (ends W.contents S.contents writer.old sink.old) (ends W.contents S.contents writer.new sink.new) }
{
    if !reader.at_hand().is_empty() {
        return hand_on(endpoint, reader, course, writer, sink, watch);
    }
    flush_both(writer, sink)?;
    if !fill_hand(endpoint, reader, writer, sink)? {
        return read_on(endpoint, reader, course, writer, sink, watch);
    }
    if reader.ended() {
        return Ok(());
    }
    hand_on(endpoint, reader, course, writer, sink, watch)
}

/// Makes a step with what the reader has at hand.
// Without it the answer of the step is copied: 72 instructions for each message.
#[inline(always)]
fn hand_on<
    A: Allocator + Copy,
    R: AtHand + Drop,
    W: Write + HoldsBack + Drop,
    S: Write + Drop,
    T: Watch,
>(
    endpoint: &mut Endpoint<A>,
    reader: &mut Device<R>,
    course: &mut Course,
    writer: &mut Device<W>,
    sink: &mut Device<S>,
    watch: &mut T,
) -> Result<(), ServeFault>
    requires some { 0 < length (device_hand R.hand reader.old) }
    requires ends { AreOpen (ends W.contents S.contents writer.old sink.old) }
    requires alive { is_dead endpoint.old.connection.phase ≡ false }
    requires sent { endpoint.old.unsent ≡ [] }
    requires course { IsRight course.old endpoint.old.connection }
    ensures rule { course.new.rule ≡ course.old.rule }
    ensures course { IsRight course.new endpoint.new.connection }
    ensures fewer { reads_ahead reader.new < reads_ahead reader.old }
    ensures goes { Goes course.old.rule result endpoint.old endpoint.new (R.remaining (device_inner reader.old)) (R.remaining (device_inner reader.new)) (has_failed reader.new)
        (ends W.contents S.contents writer.old sink.old) (ends W.contents S.contents writer.new sink.new) }
{
    let listens = watch.listens();
    let mut note = Note::NOTHING;
    let (fed, end) = serve_piece_into(
        endpoint,
        course,
        reader.at_hand(),
        listens,
        &mut note,
        writer,
        sink,
    );
    reader.took(fed.used);
    report(watch, listens, fed, end, &note);
    end
}

/// Reports a step to a watch, if it listens.
// Inlined, so that a step is copied only where a watch listens, not for the call.
#[inline(always)]
fn report<T: Watch>(
    watch: &mut T,
    listens: bool,
    fed: Fed,
    end: Result<(), ServeFault>,
    note: &Note,
) {
    if listens {
        watch.did(&note.stepped(fed, end));
    }
}

/// Reads, and makes a step with what came.
fn read_on<
    A: Allocator + Copy,
    R: AtHand + Drop,
    W: Write + HoldsBack + Drop,
    S: Write + Drop,
    T: Watch,
>(
    endpoint: &mut Endpoint<A>,
    reader: &mut Device<R>,
    course: &mut Course,
    writer: &mut Device<W>,
    sink: &mut Device<S>,
    watch: &mut T,
) -> Result<(), ServeFault>
    requires reader { ¬ (IsTrue (has_failed reader.old)) }
    requires ends { AreOpen (ends W.contents S.contents writer.old sink.old) }
    requires flushed { is_flushed writer.old ≡ true }
    requires recorded { is_flushed sink.old ≡ true }
    requires alive { is_dead endpoint.old.connection.phase ≡ false }
    requires begun { has_ended reader.old ≡ false }
    requires goes_on { IsOver endpoint.old.input.stage → ⊥ }
    requires sent { endpoint.old.unsent ≡ [] }
    requires idle { IsIdle endpoint.old }
    requires course { IsRight course.old endpoint.old.connection }
    ensures rule { course.new.rule ≡ course.old.rule }
    ensures course { IsRight course.new endpoint.new.connection }
    ensures fewer { OnOk result (reads_ahead reader.new < reads_ahead reader.old) }
    ensures goes { Goes course.old.rule result endpoint.old endpoint.new (R.remaining (device_inner reader.old)) (R.remaining (device_inner reader.new)) (has_failed reader.new)
        (ends W.contents S.contents writer.old sink.old) (ends W.contents S.contents writer.new sink.new) }
{
    let count = read_in(endpoint, reader, writer, sink)?;
    step_on(endpoint, course, count, writer, sink, watch)
}

/// Makes a step with the `n` bytes that were read.
// For the same reason as `hand_on`.
#[inline(always)]
fn step_on<A: Allocator + Copy, W: Write + HoldsBack + Drop, S: Write + Drop, T: Watch>(
    endpoint: &mut Endpoint<A>,
    course: &mut Course,
    n: usize,
    writer: &mut Device<W>,
    sink: &mut Device<S>,
    watch: &mut T,
) -> Result<(), ServeFault>
    requires ends { AreOpen (ends W.contents S.contents writer.old sink.old) }
    requires sent { endpoint.old.unsent ≡ [] }
    requires course { IsRight course.old endpoint.old.connection }
    requires read { MayRead endpoint.old n }
    ensures rule { course.new.rule ≡ course.old.rule }
    ensures course { IsRight course.new endpoint.new.connection }
    ensures stepped { (told : Outcome) × (d : Done) × ((s : EndpointState) → IsKept s endpoint.old → IsStepped course.old.rule (take n endpoint.old.input.spare) told (filled result d) s endpoint.new
        (ends W.contents S.contents writer.old sink.old) (ends W.contents S.contents writer.new sink.new)) }
{
    let listens = watch.listens();
    let mut note = Note::NOTHING;
    let (fed, end) = serve_read_into(endpoint, course, n, listens, &mut note, writer, sink);
    report(watch, listens, fed, end, &note);
    end
}
