//! Serving: a step, and its records.
ghost use Rattle.std.specs.Prelude.{◌≡◌, ◌++◌, min, length, take, drop, MatchOption};
ghost use Rattle.std.specs.Option.{option_map};
ghost use Rattle.wuleshomia.specs.Codes.{settlement_at};
ghost use Rattle.wuleshomia.specs.Exports.{Did};
ghost use Rattle.wuleshomia.specs.Serving.{rule_of, records_in, without_records, Serves};

use crate::codes::{BAD_OUTCOME, NO_ENDPOINT, of_step, settlement};
use crate::data::{ServeRule, StepReport};
use crate::handle::EndpointHandle;
use amqp_serve::Rule;
use std::alloc::Global;

/// Serves a piece of what the peer sent, up to the end of one unit, which is acted upon. A message that is ready
/// then is taken, recorded, and settled unless its sender settled it. What lacks something by the rule is topped
/// up. The answers and the records then wait to be moved out, by [`crate::bytes::wuleshomia_output`] and
/// [`wuleshomia_records`], before the next step.
///
/// If an answer or a record was lost before, or bytes still wait, the step is refused and nothing changes. The
/// code and `step` say what a step that was made resulted in. Returns `BAD_OUTCOME` or `NO_ENDPOINT` without
/// making one.
#[unsafe(no_mangle)]
pub extern "C" fn wuleshomia_serve_step(
    alloc: Global,
    endpoint: &mut EndpointHandle,
    rule: &ServeRule,
    bytes: &[u8],
    step: &mut StepReport,
) -> u32
    ensures { MatchOption (settlement_at rule.now.outcome) ((result ≡ 27) × (endpoint.new.held ≡ endpoint.old.held) × (step.new ≡ step.old)) (λ o. Did endpoint.old.held endpoint.new.held (Serves (rule_of rule.now o) bytes.now result step.old step.new) ((result ≡ 20) × (step.new ≡ step.old))) }
{
    let Some(outcome) = settlement(rule.outcome) else {
        return BAD_OUTCOME;
    };
    let rule = Rule {
        credit: rule.credit,
        mark: rule.mark,
        outcome,
    };
    let Some(mut held) = endpoint.take(alloc) else {
        return NO_ENDPOINT;
    };
    let code = match held.as_ref().serve_refusal() {
        Some(refusal) => refusal,
        None => of_step(held.as_mut().serve(alloc, rule, bytes), step),
    };
    endpoint.put_back(alloc, held);
    code
}

/// Moves records of the last step into `room`, and returns how many bytes: 0 if the handle holds no endpoint.
#[unsafe(no_mangle)]
pub extern "C" fn wuleshomia_records(
    alloc: Global,
    endpoint: &mut EndpointHandle,
    room: &mut [u8],
) -> usize
    ensures rest { endpoint.new.held ≡ option_map (without_records result) endpoint.old.held }
    ensures count { result ≡ min (length room.old) (length (records_in endpoint.old.held)) }
    ensures bytes { room.new ≡ take result (records_in endpoint.old.held) ++ drop result room.old }
{
    let Some(mut held) = endpoint.take(alloc) else {
        return 0;
    };
    let count = held.as_mut().records.move_into(alloc, room);
    endpoint.put_back(alloc, held);
    count
}
