//! Messages.
ghost use Rattle.std.specs.Prelude.{◌≡◌, ◌<◌, ◌≤◌, ◌+◌, ◌-◌, ◌++◌, min, length, take, drop};
ghost use Rattle.std.specs.Option.{option_map};
ghost use Rattle.amqp_link.specs.Tags.{padded};
ghost use Rattle.wuleshomia.specs.Exports.{Did, Takes, message_in, without_message, IsCopied};

use crate::codes::{NO_ENDPOINT, OK, of_fault};
use crate::data::TakenReport;
use crate::handle::EndpointHandle;
use crate::requests::number;
use amqp_link::{Message, Taken};
use std::alloc::Global;

/// Takes the first ready message of a link, and copies its first bytes into `room`, as many as fit.
/// [`wuleshomia_message_read`] gives the others, until the next take. Returns `OK`, the code of a refusal, or
/// `NO_ENDPOINT`; `taken` and `room` change only at `OK`.
#[unsafe(no_mangle)]
pub extern "C" fn wuleshomia_take(
    alloc: Global,
    endpoint: &mut EndpointHandle,
    channel: u32,
    handle: u32,
    taken: &mut TakenReport,
    room: &mut [u8],
) -> u32
    ensures took { Did endpoint.old.held endpoint.new.held (Takes result (min channel 65535) handle taken.new) (result ≡ 20) }
    ensures bytes { result ≡ 0 → IsCopied (message_in endpoint.new.held) room.old room.new }
    ensures kept { 0 < result → (taken.new ≡ taken.old) × (room.new ≡ room.old) }
{
    let Some(mut held) = endpoint.take(alloc) else {
        return NO_ENDPOINT;
    };
    let code = match held.as_mut().endpoint.take(number(channel), handle) {
        Ok(given) => {
            let Taken {
                delivery_id,
                delivery_tag,
                message_format,
                settled,
                message,
            } = given;
            taken.len = message.len() as u64;
            taken.id = delivery_id;
            taken.format = message_format;
            taken.settled = if settled { 1 } else { 0 };
            let tag = delivery_tag.as_bytes();
            taken.tag_len = tag.len() as u32;
            taken.tag = padded(tag);
            let _ = read(&message, 0, room);
            held.as_mut().message = Some(message);
            OK
        }
        Err(fault) => of_fault(fault),
    };
    endpoint.put_back(alloc, held);
    code
}

/// Copies bytes of the message that was taken last, from `at` on, as many as fit, and returns how many.
#[unsafe(no_mangle)]
pub extern "C" fn wuleshomia_message_read(
    alloc: Global,
    endpoint: &mut EndpointHandle,
    at: usize,
    room: &mut [u8],
) -> usize
    ensures same { endpoint.new.held ≡ endpoint.old.held }
    ensures count { result ≡ min (length room.old) (length (drop at (message_in endpoint.old.held))) }
    ensures bytes { room.new ≡ take result (drop at (message_in endpoint.old.held)) ++ drop result room.old }
{
    let Some(held) = endpoint.take(alloc) else {
        return 0;
    };
    let count = match &held.as_ref().message {
        Some(message) => read(message, at, room),
        None => 0,
    };
    endpoint.put_back(alloc, held);
    count
}

/// Drops the message that was taken last.
#[unsafe(no_mangle)]
pub extern "C" fn wule_message_drop(alloc: Global, endpoint: &mut EndpointHandle)
    ensures { endpoint.new.held ≡ option_map without_message endpoint.old.held }
{
    if let Some(mut held) = endpoint.take(alloc) {
        held.as_mut().message = None;
        endpoint.put_back(alloc, held);
    }
}

/// Returns a tag in its room. The bytes after it are 0.
fn padded(tag: &[u8]) -> [u8; 32]
    requires { length tag.now ≤ 32 }
    ensures { result ≡ padded tag.now }
{
    let mut room = [0; 32];
    room[..tag.len()].copy_from_slice(tag);
    room
}

/// Copies the bytes of a message from `at` on, as many as there is room for, and returns how many.
fn read(message: &Message, at: usize, room: &mut [u8]) -> usize
    ensures count { result ≡ min (length room.old) (length (drop at message.now)) }
    ensures bytes { room.new ≡ take result (drop at message.now) ++ drop result room.old }
{
    let wanted = message.len().saturating_sub(at).min(room.len());
    let mut count = 0;
    while count < wanted {
        count += put(message.piece(at + count), room, count);
    }
    count
}

/// Copies a piece to the room at `at`, as much as fits, and returns how many bytes.
pub(crate) fn put(piece: &[u8], room: &mut [u8], at: usize) -> usize
    requires { at ≤ length room.old }
    ensures count { result ≡ min (length piece.now) (length room.old - at) }
    ensures bytes { room.new ≡ take at room.old ++ take result piece.now ++ drop (at + result) room.old }
{
    let count = piece.len().min(room.len() - at);
    room[at..at + count].copy_from_slice(&piece[..count]);
    count
}
