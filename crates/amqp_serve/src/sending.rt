//! Writing to the peer, the flushes before it, and the one read.
ghost use Rattle.std.specs.Prelude.{◌≡◌, ◌≢◌, ◌↔◌, ◌≤◌, ◌⊎◌, ◌<◌, [], length, take, true, false, Err, Ok, IsErr, IsTrue, IfOk, IfSome, None, OnErr, OnOk, IfErr};
ghost use Rattle.std.specs.Io.KnownBytes.{Appends, Consumes, Keeps};
ghost use Rattle.amqp_frame.specs.Devices.{device_inner, has_failed, device_hand, has_ended, is_flushed, reads_ahead};
ghost use Rattle.amqp_frame.specs.Splits.{TakesNothing};
ghost use Rattle.amqp_endpoint.specs.Connections.{is_dead};
ghost use Rattle.amqp_endpoint.specs.Steps.{MayRead, IsKept};
ghost use Rattle.amqp_serve.specs.Deeds.{no_deeds, Went, ends, AreOpen};
ghost use Rattle.amqp_serve.specs.Serving.{Stand};

use crate::{Rule, ServeFault};
use amqp_endpoint::Endpoint;
use amqp_frame::{AtHand, Device, HoldsBack};
use std::alloc::Allocator;
use std::io::{Read, Write};

/// Reads into the endpoint's room, and returns how many bytes came. The read may wait for the peer, so all answers
/// must have gone out before it, and the records before them. If the reader fails it returns `Read`, and nothing
/// was read.
pub fn read_in<A: Allocator + Copy, R: Read + Drop, W: Write + Drop, S: Write + Drop>(
    endpoint: &mut Endpoint<A>,
    reader: &mut Device<R>,
    writer: &Device<W>,
    sink: &Device<S>,
) -> Result<usize, ServeFault>
    requires reader { ¬ (IsTrue (has_failed reader.old)) }
    requires alive { is_dead endpoint.old.connection.phase ≡ false }
    requires wants { TakesNothing endpoint.old.input → ⊥ }
    requires sent { endpoint.old.unsent ≡ [] }
    requires flushed { is_flushed writer.now ≡ true }
    requires recorded { is_flushed sink.now ≡ true }
    ensures fault { OnErr result (result ≡ Err ServeFault.Read) }
    ensures failed { IsErr result ↔ IsTrue (has_failed reader.new) }
    ensures read { IfOk result (λ n. MayRead endpoint.new n × IsKept endpoint.old endpoint.new
        × Consumes (R.remaining (device_inner reader.old)) (R.remaining (device_inner reader.new)) (take n endpoint.new.input.spare)) }
    ensures fewer { has_ended reader.old ≡ false → OnOk result (reads_ahead reader.new < reads_ahead reader.old) }
    ensures kept { OnErr result (IsKept endpoint.old endpoint.new × Keeps (R.remaining (device_inner reader.old)) (R.remaining (device_inner reader.new))) }
{
    match reader.read(endpoint.spare()) {
        Ok(count) => Ok(count),
        Err(_) => Err(ServeFault::Read),
    }
}

/// Lets the reader fill what it has at hand, if the endpoint is between two units. The reader may wait for the
/// peer, so [`read_in`]'s conditions hold here too. Returns whether the reader was asked: it then has bytes at
/// hand, or has ended.
pub fn fill_hand<A: Allocator + Copy, R: AtHand + Drop, W: Write + Drop, S: Write + Drop>(
    endpoint: &Endpoint<A>,
    reader: &mut Device<R>,
    writer: &Device<W>,
    sink: &Device<S>,
) -> Result<bool, ServeFault>
    requires reader { ¬ (IsTrue (has_failed reader.old)) }
    requires alive { is_dead endpoint.now.connection.phase ≡ false }
    requires sent { endpoint.now.unsent ≡ [] }
    requires flushed { is_flushed writer.now ≡ true }
    requires recorded { is_flushed sink.now ≡ true }
    ensures fault { OnErr result (result ≡ Err ServeFault.Read) }
    ensures failed { IsErr result ↔ IsTrue (has_failed reader.new) }
    ensures asked { IfOk result (λ b. b ≡ true → has_ended reader.new ≡ false → 0 < length (device_hand R.hand reader.new)) }
    ensures fewer { IfOk result (λ b. b ≡ true → reads_ahead reader.new < reads_ahead reader.old) }
    ensures still { IfOk result (λ b. b ≡ false → reader.new ≡ reader.old) }
    ensures kept { Keeps (R.remaining (device_inner reader.old)) (R.remaining (device_inner reader.new)) }
{
    if !endpoint.is_between() {
        return Ok(false);
    }
    match reader.fill() {
        Ok(filled) => Ok(filled.is_some()),
        Err(_) => Err(ServeFault::Read),
    }
}

/// Flushes the records, and then the answers to them, so that no peer hears of a message that is not recorded.
/// Returns `Sink` if the sink fails, which leaves the writer unchanged, and `Write` if the writer fails.
pub fn flush_both<W: Write + Drop, S: Write + Drop>(
    writer: &mut Device<W>,
    sink: &mut Device<S>,
) -> Result<(), ServeFault>
    requires writer { ¬ (IsTrue (has_failed writer.old)) }
    requires sink { ¬ (IsTrue (has_failed sink.old)) }
    ensures read { result ≢ Err ServeFault.Read }
    ensures memory { result ≢ Err ServeFault.NoMemory }
    ensures write { (result ≡ Err ServeFault.Write) ↔ IsTrue (has_failed writer.new) }
    ensures sink { (result ≡ Err ServeFault.Sink) ↔ IsTrue (has_failed sink.new) }
    ensures flushed { OnOk result (is_flushed writer.new ≡ true) }
    ensures recorded { ¬ (IsTrue (has_failed sink.new)) → is_flushed sink.new ≡ true }
    ensures first { IsTrue (has_failed sink.new) → writer.new ≡ writer.old }
    ensures still { OnOk result (AreOpen (ends W.contents S.contents writer.new sink.new)) }
    ensures answers { Keeps (W.contents (device_inner writer.old)) (W.contents (device_inner writer.new)) }
    ensures records { Keeps (S.contents (device_inner sink.old)) (S.contents (device_inner sink.new)) }
{
    if sink.flush().is_err() {
        return Err(ServeFault::Sink);
    }
    flush_answers(writer, sink)
}

/// Flushes the answers that the writer holds back. The records that they answer must be flushed.
fn flush_answers<W: Write + Drop, S: Write + Drop>(
    writer: &mut Device<W>,
    sink: &Device<S>,
) -> Result<(), ServeFault>
    requires writer { ¬ (IsTrue (has_failed writer.old)) }
    requires recorded { is_flushed sink.now ≡ true }
    ensures fault { OnErr result (result ≡ Err ServeFault.Write) }
    ensures failed { IsErr result ↔ IsTrue (has_failed writer.new) }
    ensures flushed { OnOk result (is_flushed writer.new ≡ true) }
    ensures answers { Keeps (W.contents (device_inner writer.old)) (W.contents (device_inner writer.new)) }
{
    match writer.flush() {
        Ok(()) => Ok(()),
        Err(_) => Err(ServeFault::Write),
    }
}

/// Writes all that waits to be sent. The records are flushed before a write that the writer may pass on.
// For `telemetry` and `gateway` (docs/PERF.md).
#[inline(always)]
pub fn write_out<A: Allocator + Copy, W: Write + HoldsBack + Drop, S: Write + Drop>(
    endpoint: &mut Endpoint<A>,
    writer: &mut Device<W>,
    sink: &mut Device<S>,
) -> Result<(), ServeFault>
    requires ends { AreOpen (ends W.contents S.contents writer.old sink.old) }
    ensures empty { OnOk result (endpoint.new.unsent ≡ []) }
    ensures connection { OnOk result (endpoint.new.connection ≡ endpoint.old.connection) }
    ensures went { (p : Rule) (a : Stand) → Went p (λ _. no_deeds) a a result endpoint.old endpoint.new (ends W.contents S.contents writer.old sink.old)
        (ends W.contents S.contents writer.new sink.new) }
{
    'pieces: while !endpoint.is_all_sent() {
        let piece = endpoint.unsent_front();
        record_first(piece.len(), writer, sink)?;
        match hand_over(piece, writer, sink) {
            Some(count) => endpoint.sent(count),
            None => return Err(ServeFault::Write),
        }
    }
    Ok(())
}

/// Flushes the records, unless the writer can hold back `count` more bytes.
fn record_first<W: Write + HoldsBack + Drop, S: Write + Drop>(
    count: usize,
    writer: &Device<W>,
    sink: &mut Device<S>,
) -> Result<(), ServeFault>
    requires { ¬ (IsTrue (has_failed sink.old)) }
    ensures fault { OnErr result (result ≡ Err ServeFault.Sink) }
    ensures failed { IsErr result ↔ IsTrue (has_failed sink.new) }
    ensures recorded { OnOk result ((count ≤ W.room (device_inner writer.now)) ⊎ (is_flushed sink.new ≡ true)) }
    ensures records { Keeps (S.contents (device_inner sink.old)) (S.contents (device_inner sink.new)) }
{
    if count <= writer.holds_back() {
        return Ok(());
    }
    match sink.flush() {
        Ok(()) => Ok(()),
        Err(_) => Err(ServeFault::Sink),
    }
}

/// Passes bytes to the writer, and returns how many it took, or `None` if it failed. Either the writer has room to
/// hold them back, or the records must be flushed.
fn hand_over<W: Write + HoldsBack + Drop, S: Write + Drop>(
    piece: &[u8],
    writer: &mut Device<W>,
    sink: &Device<S>,
) -> Option<usize>
    requires writer { ¬ (IsTrue (has_failed writer.old)) }
    requires recorded { (length piece.now ≤ W.room (device_inner writer.old)) ⊎ (is_flushed sink.now ≡ true) }
    ensures failed { (result ≡ None) ↔ IsTrue (has_failed writer.new) }
    ensures bound { IfSome result (λ n. n ≤ length piece.now) }
    ensures some { 0 < length piece.now → IfSome result (λ n. 0 < n) }
    ensures taken { IfSome result (λ n. Appends (W.contents (device_inner writer.old)) (W.contents (device_inner writer.new)) (take n piece.now)) }
    ensures none { result ≡ None → Keeps (W.contents (device_inner writer.old)) (W.contents (device_inner writer.new)) }
{
    writer.put(piece)
}
