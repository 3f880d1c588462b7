//! What an application refuses in its own words: a condition, and a description or none.
ghost use Rattle.std.specs.Prelude.{◌≡◌, ◌<◌, min};
ghost use Rattle.amqp_reason.specs.Reasons.{reason_of};
ghost use Rattle.amqp_session.specs.Calls.{Refuse, SettleWith, SettleRangeWith};
ghost use Rattle.amqp_endpoint.specs.Runs.{InSession, CloseWith};
ghost use Rattle.wuleshomia.specs.Codes.{accepted_at, dropped_at, named_at};
ghost use Rattle.wuleshomia.specs.Exports.{Did, Answers, words_of};

use crate::codes::{NO_ENDPOINT, of_count, of_done};
use crate::handle::EndpointHandle;
use crate::requests::number;
use amqp_reason::Reason;
use std::alloc::Global;

/// Returns the reason with these words. It has no description if `described` is 0.
fn reason_with<'a>(condition: &'a [u8], description: &'a [u8], described: u32) -> Reason<'a>
    ensures { reason_of result ≡ words_of condition.now description.now described }
{
    let description = if described == 0 {
        None
    } else {
        Some(description)
    };
    Reason {
        condition,
        description,
    }
}

/// Ends a link with an error of these words, and stores in `dropped` how many ready deliveries are dropped. There is
/// no description if `described` is 0. Returns `OK`, the code of a refusal, or `NO_ENDPOINT`; `dropped` changes only
/// at `OK`.
#[unsafe(no_mangle)]
pub extern "C" fn wuleshomia_refuse(
    alloc: Global,
    endpoint: &mut EndpointHandle,
    channel: u32,
    handle: u32,
    condition: &[u8],
    description: &[u8],
    described: u32,
    dropped: &mut u32,
) -> u32
    ensures done { Did endpoint.old.held endpoint.new.held (Answers (InSession (min channel 65535) (Refuse handle (words_of condition.now description.now described))) (dropped_at result dropped.new) result) (result ≡ 20) }
    ensures kept { 0 < result → dropped.new ≡ dropped.old }
{
    let Some(mut held) = endpoint.take(alloc) else {
        return NO_ENDPOINT;
    };
    let reason = reason_with(condition, description, described);
    let code = of_count(
        held.as_mut()
            .endpoint
            .refuse(number(channel), handle, &reason),
        dropped,
    );
    endpoint.put_back(alloc, held);
    code
}

/// Rejects a delivery with an error of these words. There is no description if `described` is 0. Returns `OK`, the code
/// of a refusal, or `NO_ENDPOINT`.
#[unsafe(no_mangle)]
pub extern "C" fn wuleshomia_settle_with(
    alloc: Global,
    endpoint: &mut EndpointHandle,
    channel: u32,
    id: u32,
    condition: &[u8],
    description: &[u8],
    described: u32,
) -> u32
    ensures done { Did endpoint.old.held endpoint.new.held (Answers (InSession (min channel 65535) (SettleWith id (words_of condition.now description.now described))) (accepted_at result) result) (result ≡ 20) }
{
    let Some(mut held) = endpoint.take(alloc) else {
        return NO_ENDPOINT;
    };
    let reason = reason_with(condition, description, described);
    let code = of_done(
        held.as_mut()
            .endpoint
            .settle_with(number(channel), id, &reason),
    );
    endpoint.put_back(alloc, held);
    code
}

/// Rejects a range of deliveries with an error of these words, and stores in `named` how many it named. There is no
/// description if `described` is 0. Returns `OK`, the code of a refusal, or `NO_ENDPOINT`; `named` changes only at `OK`.
#[unsafe(no_mangle)]
pub extern "C" fn wuleshomia_settle_range_with(
    alloc: Global,
    endpoint: &mut EndpointHandle,
    channel: u32,
    first: u32,
    last: u32,
    condition: &[u8],
    description: &[u8],
    described: u32,
    named: &mut u32,
) -> u32
    ensures done { Did endpoint.old.held endpoint.new.held (Answers (InSession (min channel 65535) (SettleRangeWith first last (words_of condition.now description.now described))) (named_at result named.new) result) (result ≡ 20) }
    ensures kept { 0 < result → named.new ≡ named.old }
{
    let Some(mut held) = endpoint.take(alloc) else {
        return NO_ENDPOINT;
    };
    let reason = reason_with(condition, description, described);
    let code = of_count(
        held.as_mut()
            .endpoint
            .settle_range_with(number(channel), first, last, &reason),
        named,
    );
    endpoint.put_back(alloc, held);
    code
}

/// Closes the connection with an error of these words, and stores in `dropped` how many ready deliveries are dropped.
/// There is no description if `described` is 0. Returns `OK`, the code of a refusal, or `NO_ENDPOINT`; `dropped` changes
/// only at `OK`.
#[unsafe(no_mangle)]
pub extern "C" fn wuleshomia_close_with(
    alloc: Global,
    endpoint: &mut EndpointHandle,
    condition: &[u8],
    description: &[u8],
    described: u32,
    dropped: &mut u32,
) -> u32
    ensures done { Did endpoint.old.held endpoint.new.held (Answers (CloseWith (words_of condition.now description.now described)) (dropped_at result dropped.new) result) (result ≡ 20) }
    ensures kept { 0 < result → dropped.new ≡ dropped.old }
{
    let Some(mut held) = endpoint.take(alloc) else {
        return NO_ENDPOINT;
    };
    let reason = reason_with(condition, description, described);
    let code = of_count(held.as_mut().endpoint.close_with(&reason), dropped);
    endpoint.put_back(alloc, held);
    code
}
