//! The records of messages.
ghost use Rattle.std.specs.Prelude.{◌≡◌, ◌+◌, ◌-◌, ◌^◌, ◌≤◌, ◌++◌, ◌↔◌, min, length, take, Err, IsErr, IsTrue, OnErr, OnOk, IfSome};
ghost use Rattle.std.specs.Io.KnownBytes.{Appends};
ghost use Rattle.amqp_frame.specs.Devices.{device_inner, has_failed, AppendsFront};
ghost use Rattle.amqp_endpoint.specs.Endpoints.{handed_in};
ghost use Rattle.amqp_serve.specs.Serving.{record_of, record_head};

use crate::ServeFault;
use amqp_frame::Device;
use amqp_link::{Message, Taken};
use std::alloc::Allocator;
use std::io::Write;

/// Writes the record of a message: its head, and the message. If the sink fails it returns `Sink`,
/// and the sink has a beginning of the record.
pub fn write_record<A: Allocator + Copy, S: Write + Drop>(
    sink: &mut Device<S>,
    channel: u16,
    handle: u32,
    taken: &Taken<A>,
) -> Result<(), ServeFault>
    requires { ¬ (IsTrue (has_failed sink.old)) }
    ensures fault { OnErr result (result ≡ Err ServeFault.Sink) }
    ensures failed { IsErr result ↔ IsTrue (has_failed sink.new) }
    ensures written { OnOk result (Appends (S.contents (device_inner sink.old)) (S.contents (device_inner sink.new)) (record_of channel handle (handed_in taken.now))) }
    ensures begun { OnErr result (AppendsFront (S.contents (device_inner sink.old)) (S.contents (device_inner sink.new)) (record_of channel handle (handed_in taken.now))) }
{
    put_out(sink, &head_of(channel, handle, taken))?;
    if let Some(bytes) = in_one_piece(&taken.message) {
        return put_out(sink, bytes);
    }
    match taken.message.write_to(sink) {
        Ok(()) => Ok(()),
        Err(_) => Err(ServeFault::Sink),
    }
}

/// Returns the bytes of a message if they lie in one piece.
// Written at once: 2.4 in 100 of `telemetry` (docs/PERF.md).
fn in_one_piece<A: Allocator + Copy>(message: &Message<A>) -> Option<&[u8]>
    ensures { IfSome result (λ bytes. bytes.now ≡ message.now) }
{
    let front = message.piece(0);
    if front.len() == message.len() {
        Some(front)
    } else {
        None
    }
}

/// Writes all of the bytes to the sink. If the sink fails it returns `Sink`, and the sink has a
/// beginning of them.
// For the same reason as `put_all`.
#[inline(always)]
fn put_out<S: Write + Drop>(sink: &mut Device<S>, bytes: &[u8]) -> Result<(), ServeFault>
    requires { ¬ (IsTrue (has_failed sink.old)) }
    ensures fault { OnErr result (result ≡ Err ServeFault.Sink) }
    ensures failed { IsErr result ↔ IsTrue (has_failed sink.new) }
    ensures written { OnOk result (Appends (S.contents (device_inner sink.old)) (S.contents (device_inner sink.new)) bytes.now) }
    ensures begun { OnErr result (AppendsFront (S.contents (device_inner sink.old)) (S.contents (device_inner sink.new)) bytes.now) }
{
    if sink.put_all(bytes) {
        Ok(())
    } else {
        Err(ServeFault::Sink)
    }
}

/// Returns the head of a record: the record without its message.
#[tactic(auto, unfolding(crate::specs::Serving::record_head))]
fn head_of<A: Allocator + Copy>(channel: u16, handle: u32, taken: &Taken<A>) -> [u8; 18]
    ensures { result ≡ record_head channel handle (handed_in taken.now) }
{
    let len = recorded_len(&taken.message);
    let mut head = [0; 18];
    put(&mut head, 0, &channel.to_be_bytes());
    put(&mut head, 2, &handle.to_be_bytes());
    put(&mut head, 6, &taken.delivery_id.to_be_bytes());
    put(&mut head, 10, &taken.message_format.to_be_bytes());
    put(&mut head, 14, &len.to_be_bytes());
    head
}

/// Returns the length that a record gives for its message, in bytes: `u32::MAX` if the message is
/// longer.
pub fn recorded_len<A: Allocator + Copy>(message: &Message<A>) -> u32
    ensures { result ≡ min (length message.now) (2 ^ 32 - 1) }
{
    u32::try_from(message.len()).unwrap_or(u32::MAX)
}

/// Copies the bytes into `out`, from `at` on.
fn put(out: &mut [u8], at: usize, bytes: &[u8])
    requires { at + length bytes.now ≤ length out.old }
    ensures length { length out.new ≡ length out.old }
    ensures written { take (at + length bytes.now) out.new ≡ take at out.old ++ bytes.now }
{
    out[at..at + bytes.len()].copy_from_slice(bytes);
}
