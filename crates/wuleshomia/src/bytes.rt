//! Bytes of the peer, bytes for it, and the connection itself.
ghost use Rattle.std.specs.Prelude.{◌≡◌, ◌<◌, ◌++◌, nat_lt, min, length, take, drop, if◌then◌else◌};
ghost use Rattle.amqp_endpoint.specs.Connections.{is_dead};
ghost use Rattle.amqp_endpoint.specs.Runs.{Feed, Fed, Close, Heartbeat, Finish, Ended};
ghost use Rattle.wuleshomia.specs.Codes.{accepted_at, dropped_at, end_at, outcome_at, IsAllTold};
ghost use Rattle.wuleshomia.specs.Exports.{Did, Makes, Answers, Moves, waiting_in};

use crate::codes::{NO_ENDPOINT, OK, of_count, of_done, of_end, of_fed};
use crate::data::FedReport;
use crate::handle::EndpointHandle;
use std::alloc::Global;

/// Takes bytes of the peer, up to the end of one unit at most. `fed` says what they resulted in. Returns `OK`, or
/// `NO_ENDPOINT` with `fed` unchanged.
#[unsafe(no_mangle)]
pub extern "C" fn wuleshomia_feed(
    alloc: Global,
    endpoint: &mut EndpointHandle,
    bytes: &[u8],
    fed: &mut FedReport,
) -> u32
    ensures done { Did endpoint.old.held endpoint.new.held (λ before after. Makes (Feed bytes.now) (Fed fed.new.used (outcome_at fed.new)) before after × (result ≡ 0)) ((result ≡ 20) × (fed.new ≡ fed.old)) }
    ensures told { result ≡ 0 → IsAllTold fed.new }
{
    let Some(mut held) = endpoint.take(alloc) else {
        return NO_ENDPOINT;
    };
    *fed = of_fed(held.as_mut().endpoint.feed(bytes));
    endpoint.put_back(alloc, held);
    OK
}

/// Moves bytes for the peer into `room`, and returns how many: 0 if the handle holds no endpoint.
#[unsafe(no_mangle)]
pub extern "C" fn wuleshomia_output(
    alloc: Global,
    endpoint: &mut EndpointHandle,
    room: &mut [u8],
) -> usize
    ensures moves { Did endpoint.old.held endpoint.new.held (λ before after. Moves (length room.old) before after) (result ≡ 0) }
    ensures count { result ≡ min (length room.old) (length (waiting_in endpoint.old.held)) }
    ensures bytes { room.new ≡ take result (waiting_in endpoint.old.held) ++ drop result room.old }
{
    let Some(mut held) = endpoint.take(alloc) else {
        return 0;
    };
    let count = held.as_mut().output(alloc, room);
    endpoint.put_back(alloc, held);
    count
}

/// Returns whether bytes for the peer wait: 1 or 0. It is 0 if the handle holds no endpoint.
#[unsafe(no_mangle)]
pub extern "C" fn wule_has_output(alloc: Global, endpoint: &mut EndpointHandle) -> u32
    ensures same { endpoint.new.held ≡ endpoint.old.held }
    ensures value { result ≡ (if nat_lt 0 (length (waiting_in endpoint.old.held)) then 1 else 0) }
{
    let Some(held) = endpoint.take(alloc) else {
        return 0;
    };
    let waits = held.as_ref().has_output();
    endpoint.put_back(alloc, held);
    if waits { 1 } else { 0 }
}

/// Closes the connection, and stores in `dropped` how many ready deliveries are dropped. Returns `OK`, the code of
/// a refusal, or `NO_ENDPOINT`; `dropped` changes only at `OK`.
#[unsafe(no_mangle)]
pub extern "C" fn wule_close(alloc: Global, endpoint: &mut EndpointHandle, dropped: &mut u32) -> u32
    ensures done { Did endpoint.old.held endpoint.new.held (Answers Close (dropped_at result dropped.new) result) (result ≡ 20) }
    ensures kept { 0 < result → dropped.new ≡ dropped.old }
{
    let Some(mut held) = endpoint.take(alloc) else {
        return NO_ENDPOINT;
    };
    let code = of_count(held.as_mut().endpoint.close(), dropped);
    endpoint.put_back(alloc, held);
    code
}

/// Writes an empty frame. Returns `OK`, the code of a refusal, or `NO_ENDPOINT`.
#[unsafe(no_mangle)]
pub extern "C" fn wule_heartbeat(alloc: Global, endpoint: &mut EndpointHandle) -> u32
    ensures done { Did endpoint.old.held endpoint.new.held (Answers Heartbeat (accepted_at result) result) (result ≡ 20) }
{
    let Some(mut held) = endpoint.take(alloc) else {
        return NO_ENDPOINT;
    };
    let code = of_done(held.as_mut().endpoint.heartbeat());
    endpoint.put_back(alloc, held);
    code
}

/// Ends the input, and returns the code of how the connection stood then; 0 if the handle holds no endpoint. If
/// bytes of a unit waited, code 3, `inside` says how many; else it is unchanged.
#[unsafe(no_mangle)]
pub extern "C" fn wuleshomia_finish(
    alloc: Global,
    endpoint: &mut EndpointHandle,
    inside: &mut u64,
) -> u32
    ensures done { Did endpoint.old.held endpoint.new.held (λ before after. Makes Finish (Ended (end_at result inside.new)) before after × (0 < result)) (result ≡ 0) }
    ensures code { result < 5 }
    ensures kept { (result ≡ 3 → ⊥) → inside.new ≡ inside.old }
{
    let Some(mut held) = endpoint.take(alloc) else {
        return 0;
    };
    let code = of_end(held.as_mut().endpoint.finish(), inside);
    endpoint.put_back(alloc, held);
    code
}

/// Returns whether the connection is over: 1 or 0. It is 1 if the handle holds no endpoint.
#[unsafe(no_mangle)]
pub extern "C" fn wule_is_over(alloc: Global, endpoint: &mut EndpointHandle) -> u32
    ensures { Did endpoint.old.held endpoint.new.held (λ before after. (after ≡ before) × (result ≡ (if is_dead before.endpoint.connection.phase then 1 else 0))) (result ≡ 1) }
{
    let Some(held) = endpoint.take(alloc) else {
        return 1;
    };
    let over = held.as_ref().endpoint.is_over();
    endpoint.put_back(alloc, held);
    if over { 1 } else { 0 }
}
