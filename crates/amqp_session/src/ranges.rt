//! Settles by the receiver: of one delivery by its id, or of those with a range of ids [2.7.6].
ghost use Rattle.std.specs.Prelude.{◌≡◌, ◌≤◌, ◌<◌, ◌+◌, ◌^◌, ◌||◌, not, Some, None, OnOk, IfOk, IfErr};
ghost use Rattle.amqp_serial.specs.Numbers.{distance_of};
ghost use Rattle.amqp_link.specs.Links.{IsAwaiting};
ghost use Rattle.amqp_session.specs.Calls.{is_absent, is_behind, slot_standing, standing_in, settles_at_once, range_fault};
ghost use Rattle.amqp_session.specs.Sessions.{slot_at, IsApart};
ghost use Rattle.amqp_session.specs.Laws.{named_total};
ghost use Rattle.amqp_session.specs.Links.{HasSettled};
ghost use Rattle.amqp_session.specs.Indexes.{found, answered, IsKnown};
ghost use Rattle.amqp_session.specs.Surveys.{in_all, IsSurvey, AreReady};

use crate::fault::CallFault;
use crate::index::{Index, Kept};
use crate::state::{State, settles_at_once};
use crate::survey::Survey;
use amqp_link::{Standing, laws};
use amqp_serial::Serial;
use std::alloc::Allocator;

/// The deliveries that a settle of a range of ids names.
#[derive(Clone, Copy, Debug)]
pub struct Named {
    /// The deliveries are in mode first (rcv-settle-mode), so that the settle ends them [2.8.3].
    pub settled: bool,
    /// How many there are.
    pub count: u32,
}

/// Settles for the receiver the delivery with this id, stored where `kept` says if it is open, if it awaits
/// that. Returns how it stood; if it did not await a settle, nothing has changed.
// Inlined for `telemetry` and `gateway` (docs/PERF.md).
#[inline(always)]
fn settle_at<A: Allocator + Copy>(state: &mut State<A>, kept: Kept, id: u32) -> Standing
    requires apart { IsApart state.old }
    requires whole { standing_in id state.old.links ≡ slot_standing id (slot_at state.old kept.handle) }
    ensures standing { result ≡ slot_standing id (slot_at state.old kept.handle) }
    ensures settled { IsAwaiting result → HasSettled state.old state.new kept.handle id }
    ensures same { ¬ (IsAwaiting result) → state.new ≡ state.old }
{
    match state.link_mut(kept.handle) {
        Some(link) => link.settle_at(kept.key, id),
        None => Standing::Absent,
    }
}

/// Settles for the receiver the open delivery with this id, stored where `kept` says, if it awaits that. If it
/// is then open no longer, it is taken out of the index. Returns how it stood; if it did not await a settle,
/// the session has not changed.
// Inlined for `telemetry` and `gateway` (docs/PERF.md).
#[inline(always)]
pub fn settle_one<A: Allocator + Copy>(
    state: &mut State<A>,
    index: &mut Index<A>,
    kept: Kept,
    id: u32,
) -> Standing
    requires known { IsKnown index.old state.old }
    requires here { found index.old id ≡ Some kept }
    ensures standing { result ≡ standing_in id state.old.links }
    ensures settled { IsAwaiting result → state.new ≡ answered id id state.old }
    ensures same { ¬ (IsAwaiting result) → state.new ≡ state.old }
    ensures known { IsKnown index.new state.new }
{
    laws::open_ids_grow_by_heads();
    state.is_numbered();
    let standing = settle_at(state, kept, id);
    index.close(id, settles_at_once(standing));
    standing
}

/// Settles for the receiver, one by one, the open deliveries with the ids from `first` to `last` as plain
/// numbers.
fn settle_each<A: Allocator + Copy>(
    state: &mut State<A>,
    index: &mut Index<A>,
    first: u32,
    last: u32,
)
    requires known { IsKnown index.old state.old }
    requires order { first ≤ last }
    requires few { last < first + 2 ^ 31 }
    requires ready { AreReady first last state.old.links }
    ensures new { state.new ≡ answered first last state.old }
    ensures known { IsKnown index.new state.new }
{
    let mut from = first;
    while let Some((id, kept)) = index.next(from, last) {
        settle_one(state, index, kept, id);
        if id == last {
            return;
        }
        from = id + 1;
    }
}

/// Settles for the receiver, one by one, the open deliveries with the ids from `first` to `last`. These may
/// wrap round after the highest id.
pub fn settle_ids<A: Allocator + Copy>(
    state: &mut State<A>,
    index: &mut Index<A>,
    first: u32,
    last: u32,
)
    requires known { IsKnown index.old state.old }
    requires ahead { distance_of first last < 2 ^ 31 }
    requires ready { AreReady first last state.old.links }
    ensures new { state.new ≡ answered first last state.old }
    ensures known { IsKnown index.new state.new }
{
    if first <= last {
        settle_each(state, index, first, last);
        return;
    }
    settle_each(state, index, first, u32::MAX);
    settle_each(state, index, 0, last);
}

/// Counts how the open deliveries stand that have the ids from `first` to `last` as plain numbers.
fn survey_each<A: Allocator + Copy>(
    index: &Index<A>,
    state: &State<A>,
    first: u32,
    last: u32,
) -> Survey
    requires known { IsKnown index.now state.now }
    requires order { first ≤ last }
    requires few { last < first + 2 ^ 31 }
    ensures survey { IsSurvey first last state.now.links result }
    ensures most { in_all result + first ≤ last + 1 }
{
    let mut survey = Survey::new();
    let mut from = first;
    while let Some((id, kept)) = index.next(from, last) {
        survey = survey.noted(state.standing(kept.handle, kept.key, id));
        if id == last {
            return survey;
        }
        from = id + 1;
    }
    survey
}

/// Counts how the open deliveries stand that have the ids from `first` to `last`, which may wrap round after
/// the highest id.
fn survey_ids<A: Allocator + Copy>(
    index: &Index<A>,
    state: &State<A>,
    first: u32,
    last: u32,
) -> Survey
    requires known { IsKnown index.now state.now }
    requires ahead { distance_of first last < 2 ^ 31 }
    ensures survey { IsSurvey first last state.now.links result }
    ensures most { in_all result < 2 ^ 32 }
{
    if first <= last {
        return survey_each(index, state, first, last);
    }
    let high = survey_each(index, state, first, u32::MAX);
    let low = survey_each(index, state, 0, last);
    high.joined(low)
}

/// Returns whether an open delivery has this id.
fn is_open<A: Allocator + Copy>(index: &Index<A>, state: &State<A>, id: u32) -> bool
    requires { IsKnown index.now state.now }
    ensures { result ≡ not (is_absent (standing_in id state.now.links)) }
{
    let _ = state; // `IsKnown` relates it to the index
    index.get(id).is_some()
}

/// Returns whether both ids belong to open deliveries, and `last` is not before `first`.
fn has_ends<A: Allocator + Copy>(index: &Index<A>, state: &State<A>, first: u32, last: u32) -> bool
    requires { IsKnown index.now state.now }
    ensures { result ≡ not (is_absent (standing_in first state.now.links) || is_absent (standing_in last state.now.links) || is_behind first last) }
{
    if !is_open(index, state, first) || !is_open(index, state, last) {
        return false;
    }
    Serial(first).distance(Serial(last)) < 1 << 31
}

/// Returns which deliveries a settle of the ids from `first` to `last` names, or why it is refused.
pub fn judge<A: Allocator + Copy>(
    index: &Index<A>,
    state: &State<A>,
    first: u32,
    last: u32,
) -> Result<Named, CallFault>
    requires { IsKnown index.now state.now }
    ensures accepted { OnOk result (range_fault first last state.now ≡ None) }
    ensures ahead { OnOk result (distance_of first last < 2 ^ 31) }
    ensures ready { OnOk result (AreReady first last state.now.links) }
    ensures settled { IfOk result (λ named. named.settled ≡ settles_at_once (standing_in first state.now.links)) }
    ensures count { IfOk result (λ named. named.count ≡ named_total first last state.now) }
    ensures refused { IfErr result (λ e. range_fault first last state.now ≡ Some e) }
{
    if !has_ends(index, state, first, last) {
        return Err(CallFault::NoDelivery);
    }
    let survey = survey_ids(index, state, first, last);
    match survey.fault() {
        Some(fault) => Err(fault),
        None => Ok(Named {
            settled: survey.to_settle > 0,
            count: survey.to_settle + survey.to_tell,
        }),
    }
}
