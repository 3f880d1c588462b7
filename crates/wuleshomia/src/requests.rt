//! What an application requests of a session and its links.
ghost use Rattle.std.specs.Prelude.{◌≡◌, ◌<◌, min, MatchOption};
ghost use Rattle.amqp_session.specs.Calls.{Widen, Grant, Drain, Settle, SettleRange, Detach};
ghost use Rattle.amqp_endpoint.specs.Runs.{InSession};
ghost use Rattle.wuleshomia.specs.Codes.{accepted_at, dropped_at, named_at, settlement_at};
ghost use Rattle.wuleshomia.specs.Exports.{Did, Answers, TopsUp};

use crate::codes::{BAD_OUTCOME, NO_ENDPOINT, of_count, of_done, settlement};
use crate::handle::EndpointHandle;
use amqp_serve::supply_session;
use std::alloc::Global;

/// Returns a channel. A number that is no channel stands for the highest, which no endpoint offers.
pub(crate) fn number(channel: u32) -> u16
    ensures { result ≡ min channel 65535 }
{
    channel.min(0xffff) as u16
}

/// Grants a link `n` more credit. Returns `OK`, the code of a refusal, or `NO_ENDPOINT`.
#[unsafe(no_mangle)]
pub extern "C" fn wule_grant(
    alloc: Global,
    endpoint: &mut EndpointHandle,
    channel: u32,
    handle: u32,
    n: u32,
) -> u32
    ensures done { Did endpoint.old.held endpoint.new.held (Answers (InSession (min channel 65535) (Grant handle n)) (accepted_at result) result) (result ≡ 20) }
{
    let Some(mut held) = endpoint.take(alloc) else {
        return NO_ENDPOINT;
    };
    let code = of_done(held.as_mut().endpoint.grant(number(channel), handle, n));
    endpoint.put_back(alloc, held);
    code
}

/// Widens the window of a session by `n` places. Returns `OK`, the code of a refusal, or
/// `NO_ENDPOINT`.
#[unsafe(no_mangle)]
pub extern "C" fn wule_widen(
    alloc: Global,
    endpoint: &mut EndpointHandle,
    channel: u32,
    n: u32,
) -> u32
    ensures done { Did endpoint.old.held endpoint.new.held (Answers (InSession (min channel 65535) (Widen n)) (accepted_at result) result) (result ≡ 20) }
{
    let Some(mut held) = endpoint.take(alloc) else {
        return NO_ENDPOINT;
    };
    let code = of_done(held.as_mut().endpoint.widen(number(channel), n));
    endpoint.put_back(alloc, held);
    code
}

/// Gives a session and its links what they lack. If at most half of `window` places are left, the session's window
/// gets the others. Each link with at most half of `credit` gets what it is short of `credit`, within what it is
/// allowed. Returns `OK`, the code of the first refusal, or `NO_ENDPOINT`; what was given before a refusal stays.
#[unsafe(no_mangle)]
pub extern "C" fn wule_top_up(
    alloc: Global,
    endpoint: &mut EndpointHandle,
    channel: u32,
    credit: u32,
    window: u32,
) -> u32
    ensures { Did endpoint.old.held endpoint.new.held (TopsUp (min channel 65535) credit window result) (result ≡ 20) }
{
    let Some(mut held) = endpoint.take(alloc) else {
        return NO_ENDPOINT;
    };
    let to = &mut held.as_mut().endpoint;
    let code = of_done(supply_session(to, number(channel), credit, window));
    endpoint.put_back(alloc, held);
    code
}

/// Asks a link's sender to use up its credit. Returns `OK`, the code of a refusal, or
/// `NO_ENDPOINT`.
#[unsafe(no_mangle)]
pub extern "C" fn wule_drain(
    alloc: Global,
    endpoint: &mut EndpointHandle,
    channel: u32,
    handle: u32,
) -> u32
    ensures done { Did endpoint.old.held endpoint.new.held (Answers (InSession (min channel 65535) (Drain handle)) (accepted_at result) result) (result ≡ 20) }
{
    let Some(mut held) = endpoint.take(alloc) else {
        return NO_ENDPOINT;
    };
    let code = of_done(held.as_mut().endpoint.drain(number(channel), handle));
    endpoint.put_back(alloc, held);
    code
}

/// Settles a delivery with an outcome. Returns `OK`, the code of a refusal, `BAD_OUTCOME`, or
/// `NO_ENDPOINT`.
#[unsafe(no_mangle)]
pub extern "C" fn wule_settle(
    alloc: Global,
    endpoint: &mut EndpointHandle,
    channel: u32,
    id: u32,
    outcome: u32,
) -> u32
    ensures done { MatchOption (settlement_at outcome) ((result ≡ 27) × (endpoint.new.held ≡ endpoint.old.held)) (λ o. Did endpoint.old.held endpoint.new.held (Answers (InSession (min channel 65535) (Settle id o)) (accepted_at result) result) (result ≡ 20)) }
{
    let Some(outcome) = settlement(outcome) else {
        return BAD_OUTCOME;
    };
    let Some(mut held) = endpoint.take(alloc) else {
        return NO_ENDPOINT;
    };
    let code = of_done(held.as_mut().endpoint.settle(number(channel), id, outcome));
    endpoint.put_back(alloc, held);
    code
}

/// Settles a range of deliveries with an outcome, and stores in `named` how many it named. Returns
/// `OK`, the code of a refusal, `BAD_OUTCOME`, or `NO_ENDPOINT`; `named` changes only at `OK`.
#[unsafe(no_mangle)]
pub extern "C" fn wule_settle_range(
    alloc: Global,
    endpoint: &mut EndpointHandle,
    channel: u32,
    first: u32,
    last: u32,
    outcome: u32,
    named: &mut u32,
) -> u32
    ensures done { MatchOption (settlement_at outcome) ((result ≡ 27) × (endpoint.new.held ≡ endpoint.old.held)) (λ o. Did endpoint.old.held endpoint.new.held (Answers (InSession (min channel 65535) (SettleRange first last o)) (named_at result named.new) result) (result ≡ 20)) }
    ensures kept { 0 < result → named.new ≡ named.old }
{
    let Some(outcome) = settlement(outcome) else {
        return BAD_OUTCOME;
    };
    let Some(mut held) = endpoint.take(alloc) else {
        return NO_ENDPOINT;
    };
    let code = of_count(
        held.as_mut()
            .endpoint
            .settle_range(number(channel), first, last, outcome),
        named,
    );
    endpoint.put_back(alloc, held);
    code
}

/// Ends a link, and stores in `dropped` how many ready deliveries are dropped. Returns `OK`, the
/// code of a refusal, or `NO_ENDPOINT`; `dropped` changes only at `OK`.
#[unsafe(no_mangle)]
pub extern "C" fn wule_detach(
    alloc: Global,
    endpoint: &mut EndpointHandle,
    channel: u32,
    handle: u32,
    dropped: &mut u32,
) -> u32
    ensures done { Did endpoint.old.held endpoint.new.held (Answers (InSession (min channel 65535) (Detach handle)) (dropped_at result dropped.new) result) (result ≡ 20) }
    ensures kept { 0 < result → dropped.new ≡ dropped.old }
{
    let Some(mut held) = endpoint.take(alloc) else {
        return NO_ENDPOINT;
    };
    let code = of_count(
        held.as_mut().endpoint.detach(number(channel), handle),
        dropped,
    );
    endpoint.put_back(alloc, held);
    code
}
