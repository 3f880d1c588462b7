//! What `amqp_serve` promises.

ghost use Rattle.std.specs.Prelude.{◌≡◌, ◌↔◌, ◌<◌, ◌≤◌, ◌-◌, ◌++◌, [], ℕ, suc, List, true, false, Err, None, Some, min, take, length, IsTrue, IfOk, IfErr, IfSome, OnOk};
ghost use Rattle.std.specs.Io.KnownBytes.{Consumes};
ghost use Rattle.amqp_link.specs.Links.{open_count};
ghost use Rattle.amqp_session.specs.Sessions.{LiveLink};
ghost use Rattle.amqp_session.specs.declared.slot.Slot.TheVariants.{Live};
ghost use Rattle.amqp_frame.specs.Devices.{device_inner, has_failed, has_ended, is_flushed};
ghost use Rattle.amqp_endpoint.specs.Calls.{heartbeat};
ghost use Rattle.amqp_endpoint.specs.Configs.{Configured};
ghost use Rattle.amqp_endpoint.specs.Connections.{is_dead, slot_at};
ghost use Rattle.amqp_endpoint.specs.Steps.{EndpointState, MayRead, IsKept};
ghost use Rattle.amqp_serve.specs.Deeds.{IsStepped, Reaches, ends, AreOpen};
ghost use Rattle.amqp_serve.specs.Kept.{LifeGoesOn, LifeIsAlone};
ghost use Rattle.amqp_serve.specs.Servers.{hears, refused_step, status_after, open_fault, finish_fault, waiting, IsSame, IsFinishedSo, IsClosed, IsSent};
ghost use Rattle.amqp_serve.specs.Policies.{rule_of, BrokeOff, IsServed};
ghost use Rattle.amqp_serve.specs.Serving.{credit_lack, reading, session_supplies, IsStarved, HasAllTaken};
ghost use Rattle.amqp_serve.specs.Supplied.{IsRight};
ghost use Rattle.amqp_serve.specs.Supplying.{half_rule, GaveIn, LacksNothing};

use amqp_endpoint::{CallFault, End, Endpoint};
use amqp_frame::{AtHand, Device, HoldsBack};
use amqp_serve::{Course, Policy, Rule, ServeFault, Server, ServerFault, Stepped};
use std::alloc::Allocator;
use std::io::Write;

/// Serves an endpoint: a new one, or one that `NoMemory` left.
pub fn serve<A: Allocator + Copy, R: AtHand + Drop, W: Write + HoldsBack + Drop, S: Write + Drop>(
    endpoint: &mut Endpoint<A>,
    reader: &mut Device<R>,
    writer: &mut Device<W>,
    sink: &mut Device<S>,
    policy: Policy,
) -> Result<End, ServeFault>
    requires reader { ¬ (IsTrue (has_failed reader.old)) }
    requires writer { ¬ (IsTrue (has_failed writer.old)) }
    requires sink { ¬ (IsTrue (has_failed sink.old)) }

    // A failed sink is named before a failed writer, and a failed writer before a failed reader.
    ensures sink { (result ≡ Err ServeFault.Sink) ↔ IsTrue (has_failed sink.new) }
    ensures write { (result ≡ Err ServeFault.Write) ↔ (IsTrue (has_failed writer.new) × ¬ (IsTrue (has_failed sink.new))) }
    ensures read { (result ≡ Err ServeFault.Read) ↔ (IsTrue (has_failed reader.new) × ¬ (IsTrue (has_failed writer.new)) × ¬ (IsTrue (has_failed sink.new))) }

    // Nothing waits to be written while it reads, and it reads only until the connection is over.
    ensures waited { result ≡ Err ServeFault.Read → (endpoint.new.unsent ≡ []) × (is_dead endpoint.new.connection.phase ≡ false) }

    // If memory was refused, the unit that needs it waits in the endpoint. No message is ready there then,
    // unless one was at entry.
    ensures starved { result ≡ Err ServeFault.NoMemory → IsStarved endpoint.new }
    ensures taken { HasAllTaken endpoint.old.connection → result ≡ Err ServeFault.NoMemory → HasAllTaken endpoint.new.connection }

    // What was recorded is flushed, and so is what was written, unless these devices failed.
    ensures recorded { ¬ (IsTrue (has_failed sink.new)) → is_flushed sink.new ≡ true }
    ensures flushed { ¬ (IsTrue (has_failed writer.new)) → ¬ (IsTrue (has_failed sink.new)) → is_flushed writer.new ≡ true }

    // What was fed is what was read. What was written and recorded is what the run over it moved out and took.
    ensures served { IfOk result (λ end. (bytes : List ℕ) × Consumes (R.remaining (device_inner reader.old)) (R.remaining (device_inner reader.new)) bytes
        × IsServed policy end bytes (has_ended reader.new) endpoint.old endpoint.new (W.contents (device_inner writer.old)) (W.contents (device_inner writer.new))
        (S.contents (device_inner sink.old)) (S.contents (device_inner sink.new))) }
    ensures begun { IfErr result (λ e. (bytes : List ℕ) × Consumes (R.remaining (device_inner reader.old)) (R.remaining (device_inner reader.new)) bytes
        × BrokeOff policy e reading bytes endpoint.old endpoint.new (W.contents (device_inner writer.old)) (W.contents (device_inner writer.new)) (S.contents (device_inner sink.old))
        (S.contents (device_inner sink.new))) }
{
    amqp_serve::serve(endpoint, reader, writer, sink, policy)
}

/// Serves a piece of what the peer sent, up to the end of a unit.
pub fn serve_piece<A: Allocator + Copy, W: Write + HoldsBack + Drop, S: Write + Drop>(
    endpoint: &mut Endpoint<A>,
    course: &mut Course,
    piece: &[u8],
    writer: &mut Device<W>,
    sink: &mut Device<S>,
) -> Stepped
    requires ends { AreOpen (ends W.contents S.contents writer.old sink.old) }
    requires sent { endpoint.old.unsent ≡ [] }
    requires course { IsRight course.old endpoint.old.connection }
    ensures bound { result.used ≤ length piece.now }
    ensures reaches { Reaches endpoint.old piece.now result.used }
    ensures rule { course.new.rule ≡ course.old.rule }
    ensures course { IsRight course.new endpoint.new.connection }
    ensures stepped { IsStepped course.old.rule (take result.used piece.now) result.told result.done endpoint.old endpoint.new (ends W.contents S.contents writer.old sink.old)
        (ends W.contents S.contents writer.new sink.new) }
{
    amqp_serve::serve_piece(endpoint, course, piece, writer, sink)
}

/// Serves the bytes that were read into the room that the endpoint lends.
pub fn serve_read<A: Allocator + Copy, W: Write + HoldsBack + Drop, S: Write + Drop>(
    endpoint: &mut Endpoint<A>,
    course: &mut Course,
    n: usize,
    writer: &mut Device<W>,
    sink: &mut Device<S>,
) -> Stepped
    requires ends { AreOpen (ends W.contents S.contents writer.old sink.old) }
    requires sent { endpoint.old.unsent ≡ [] }
    requires course { IsRight course.old endpoint.old.connection }
    requires read { MayRead endpoint.old n }
    ensures used { result.used ≡ n }
    ensures rule { course.new.rule ≡ course.old.rule }
    ensures course { IsRight course.new endpoint.new.connection }

    // This holds for the endpoint as it was before they were read, since what is in that room means nothing.
    ensures stepped { (s : EndpointState) → IsKept s endpoint.old → IsStepped course.old.rule (take n endpoint.old.input.spare) result.told result.done s endpoint.new
        (ends W.contents S.contents writer.old sink.old) (ends W.contents S.contents writer.new sink.new) }
{
    amqp_serve::serve_read(endpoint, course, n, writer, sink)
}

/// Serves a piece of what the peer sent by this rule, whatever the one of the step before was, as long as the server hears.
pub fn step<A: Allocator + Copy, W: Write + HoldsBack + Drop, S: Write + Drop>(
    server: &mut Server<A>,
    rule: Rule,
    piece: &[u8],
    writer: &mut Device<W>,
    sink: &mut Device<S>,
) -> Stepped
    requires ends { AreOpen (ends W.contents S.contents writer.old sink.old) }
    ensures bound { result.used ≤ length piece.now }
    ensures reaches { refused_step server.old.status ≡ None → Reaches server.old.endpoint piece.now result.used }
    ensures stepped { refused_step server.old.status ≡ None → IsStepped rule (take result.used piece.now) result.told result.done server.old.endpoint server.new.endpoint
        (ends W.contents S.contents writer.old sink.old) (ends W.contents S.contents writer.new sink.new) }
    ensures status { refused_step server.old.status ≡ None → server.new.status ≡ status_after result.done }
    ensures refused { IfSome (refused_step server.old.status) (λ x. (result ≡ x) × (server.new ≡ server.old)
        × (ends W.contents S.contents writer.new sink.new ≡ ends W.contents S.contents writer.old sink.old)) }
{
    server.step(rule, piece, writer, sink)
}

/// Returns an empty frame, if the connection is open and the server hears.
pub fn server_heartbeat<A: Allocator + Copy>(server: &mut Server<A>) -> Result<[u8; 8], ServerFault>
    ensures fault { IfErr result (λ f. open_fault server.old ≡ Some f) }
    ensures beat { IfOk result (λ frame. (frame ≡ heartbeat) × (open_fault server.old ≡ None)) }
    ensures same { IsSame server.old server.new }
{
    server.heartbeat()
}

/// Closes the connection, if it is open and the server hears. The server hears nothing any more then.
pub fn server_close<A: Allocator + Copy>(server: &mut Server<A>) -> Result<(), ServerFault>
    ensures fault { IfErr result (λ f. (open_fault server.old ≡ Some f) × IsSame server.old server.new) }
    ensures closed { OnOk result (IsClosed server.old server.new) }
{
    server.close()
}

/// Ends the input, if no unit waits for memory and the server hears. The server hears nothing any more then.
pub fn server_finish<A: Allocator + Copy>(server: &mut Server<A>) -> Result<End, ServerFault>
    ensures fault { IfErr result (λ f. (finish_fault server.old.status ≡ Some f) × (server.new ≡ server.old)) }
    ensures ended { IfOk result (λ end. IsFinishedSo server.old server.new end) }
{
    server.finish()
}

/// Returns the first bytes that wait: none as long as the server hears, and after a loss.
pub fn server_unsent_front<A: Allocator + Copy>(server: &Server<A>) -> &[u8]
    ensures front { (behind : List ℕ) × (waiting server.now ≡ result.now ++ behind) }
    ensures some { 0 < length (waiting server.now) → 0 < length result.now }
    ensures none { hears server.now.status ≡ true → result.now ≡ [] }
{
    server.unsent_front()
}

/// Drops the first bytes that wait, which were written.
pub fn server_sent<A: Allocator + Copy>(server: &mut Server<A>, n: usize)
    requires { n ≤ length (waiting server.old) }
    ensures { IsSent server.old server.new n }
{
    server.sent(n);
}

/// A server's life goes on with each of its calls, and what it wrote and recorded is what these alone give.
pub fn lives()
    ensures goes_on { (config : Configured) → LifeGoesOn config }
    ensures alone { (config : Configured) → LifeIsAlone config }
{
    amqp_serve::life_laws::lives_go_on();
    amqp_serve::life_laws::lives_are_alone();
}

/// Gives a session and its links what they lack, for a host that makes all other calls itself.
pub fn supply_session<A: Allocator + Copy>(
    endpoint: &mut Endpoint<A>,
    channel: u16,
    credit: u32,
    window: u32,
) -> Result<(), CallFault>
    ensures gave { GaveIn (slot_at endpoint.old.connection channel) result (half_rule credit) window (session_supplies (suc endpoint.old.connection.config.handle_max) channel) endpoint.old endpoint.new }
    ensures supplied { OnOk result (LacksNothing (half_rule credit) window (suc endpoint.old.connection.config.handle_max) channel endpoint.new.connection) }
{
    amqp_serve::supply_session(endpoint, channel, credit, window)
}

/// A law: under a policy, a link lacks as much as its credit is below the policy's, but at most what it is
/// allowed beside its credit and its open deliveries.
pub fn a_policy_keeps_each_link_at_its_credit()
    ensures { (p : Policy) (l : LiveLink) → credit_lack (rule_of p) (Live l) ≡ min (p.credit - l.link.credit) (l.link.terms.bounds.allowed - l.link.credit - open_count l.link) }
{
    amqp_serve::laws::a_policy_keeps_each_link_at_its_credit();
}
