//! Checks and measures the value at the front, in one pass that keeps nothing of it but, for a while, the keys of maps.

ghost use Rattle.std.specs.Prelude.{◌≡◌, ◌+◌, ◌≤◌, length, drop, IfOk, IfErr, Some};
ghost use Rattle.amqp_types.specs.Codes.{FitsItsKind};
ghost use Rattle.amqp_types.specs.Decoding.{decoded};
ghost use Rattle.amqp_types.specs.Keys.{AreImagesOf};
ghost use Rattle.amqp_types.specs.Places.{place_of};
ghost use Rattle.amqp_types.specs.Reading.{Is, Gives, sized_at, trees_at, pairs_at, head_at, list_at, map_at, array_at, item_by, described_at, value_by, level_by, inside};
ghost use Rattle.amqp_types.specs.Skipping.{rest_of, passed, constructor_passed};
ghost use Rattle.amqp_types.specs.Trees.{Trees, none};

use crate::block::{block_at, count_at, ended};
use crate::code::{Constructor, SizeWidth};
use crate::decoder::charge;
use crate::fault::ReadFault;
use crate::few_keys::FEW;
use crate::kind::Kind;
use crate::limits::Limits;
use crate::quick_skip::{octets_in, plain_len, short_octets};
use crate::scalar::{allowed, size_len, sized_at};
use crate::seen_keys::SeenKeys;
use crate::short_keys::ShortKeys;
use crate::skipper::{is_still, may_hold, one_less, skip_number};
use crate::window::Window;
use std::alloc::Global;

/// Checks the value at the front, whose node is already charged; returns the nodes left and the bytes after it.
#[cycle(checked)]
// Without `inline`, `dump` takes 7.5 in 100 more instructions.
#[inline(always)]
fn check_value(
    alloc: Global,
    depth: usize,
    w: Window,
    nodes: usize,
    bytes: &[u8],
) -> Result<(usize, &[u8]), ReadFault>
    requires { length bytes.now ≤ w.end }
    ensures read { Gives (λ x. (Some x.0, x.1.now)) result (passed (value_by (inside depth) w 0 (Some nodes) bytes.now)) }
    ensures rest { IfOk result (λ x. length x.1.now ≤ length bytes.now) }
{
    if let Some(len) = plain_len(bytes) {
        return Ok((nodes, &bytes[len..]));
    }
    if let Some((_, _, rest)) = short_octets(bytes) {
        return Ok((nodes, rest));
    }
    check_coded(alloc, depth, w, 0, nodes, bytes)
}

/// Checks the value at the front by its code, and charges `due` nodes for it.
#[tactic(auto, unfolding(crate::specs::Reading::value_by))]
#[cycle(checked)]
fn check_coded(
    alloc: Global,
    depth: usize,
    w: Window,
    due: usize,
    nodes: usize,
    bytes: &[u8],
) -> Result<(usize, &[u8]), ReadFault>
    requires within { length bytes.now ≤ w.end }
    requires due { due ≤ 1 }
    ensures read { Gives (λ x. (Some x.0, x.1.now)) result (passed (value_by (inside depth) w due (Some nodes) bytes.now)) }
    ensures rest { IfOk result (λ x. length x.1.now ≤ length bytes.now) }
{
    let Some((code, rest)) = bytes.split_first() else {
        return Err(w.short);
    };
    if *code == 0 {
        return check_described(alloc, depth, w.place(bytes), w, due, nodes, rest);
    }
    let constructor = allowed(w.place(bytes), *code, may_hold(depth))?;
    let left = charge(nodes, due, w.place(bytes))?;
    check_item(alloc, depth, constructor, w, left, rest)
}

/// Checks a descriptor and what it describes; the `00` before them is at place `at`.
#[tactic(auto, unfolding(crate::specs::Reading::described_at))]
#[cycle(checked)]
fn check_described(
    alloc: Global,
    depth: usize,
    at: usize,
    w: Window,
    due: usize,
    nodes: usize,
    bytes: &[u8],
) -> Result<(usize, &[u8]), ReadFault>
    requires within { length bytes.now ≤ w.end }
    requires due { due ≤ 1 }
    ensures read { Gives (λ x. (Some x.0, x.1.now)) result (passed (described_at (inside depth) at w due (Some nodes) bytes.now)) }
    ensures rest { IfOk result (λ x. length x.1.now ≤ length bytes.now) }
{
    let Some(less) = one_less(depth) else {
        return Err(ReadFault::TooDeep(at));
    };
    let left = charge(nodes, due + 2, at)?;
    let (left, rest) = check_value(alloc, less, w, left, bytes)?;
    check_coded(alloc, less, w, 0, left, rest)
}

/// Checks the data of a constructor.
#[tactic(auto, unfolding(crate::specs::Reading::item_by))]
#[cycle(checked)]
fn check_item(
    alloc: Global,
    depth: usize,
    constructor: Constructor,
    w: Window,
    nodes: usize,
    bytes: &[u8],
) -> Result<(usize, &[u8]), ReadFault>
    requires within { length bytes.now ≤ w.end }
    requires sound { FitsItsKind constructor }
    ensures read { Gives (λ x. (Some x.0, x.1.now)) result (passed (item_by (inside depth) constructor w (Some nodes) bytes.now)) }
    ensures rest { IfOk result (λ x. length x.1.now ≤ length bytes.now) }
{
    match constructor {
        Constructor::Fixed(kind, form) => Ok((nodes, skip_number(w, kind, form, bytes)?)),
        Constructor::Variable(kind, size) => Ok((nodes, skip_octets(w, kind, size, bytes)?)),
        Constructor::EmptyList => Ok((nodes, bytes)),
        Constructor::ListIn(size) => match one_less(depth) {
            None => Err(w.short),
            Some(less) => check_list(alloc, less, w, size, nodes, bytes),
        },
        Constructor::MapIn(size) => match one_less(depth) {
            None => Err(w.short),
            Some(less) => check_map(alloc, less, w, size, nodes, bytes),
        },
        Constructor::ArrayIn(size) => match one_less(depth) {
            None => Err(w.short),
            Some(less) => check_array(alloc, less, w, size, nodes, bytes),
        },
    }
}

#[tactic(auto, unfolding(crate::specs::Reading::list_at))]
#[cycle(checked)]
fn check_list(
    alloc: Global,
    depth: usize,
    w: Window,
    size: SizeWidth,
    nodes: usize,
    bytes: &[u8],
) -> Result<(usize, &[u8]), ReadFault>
    requires { length bytes.now ≤ w.end }
    ensures read { Gives (λ x. (Some x.0, x.1.now)) result (passed (list_at (level_by (inside depth)) w size (Some nodes) bytes.now)) }
    ensures rest { IfOk result (λ x. length x.1.now ≤ length bytes.now) }
{
    let block = block_at(w, size, size_len(size), bytes)?;
    let (count, front) = count_at(block.within, size, false, block.body)?;
    let left = charge(nodes, count, block.within.place(block.body))?;
    let (left, rest) = check_values(alloc, depth, count, block.within, left, front)?;
    ended(block.within, rest)?;
    Ok((left, block.behind))
}

#[tactic(auto, unfolding(crate::specs::Reading::map_at))]
#[cycle(checked)]
fn check_map(
    alloc: Global,
    depth: usize,
    w: Window,
    size: SizeWidth,
    nodes: usize,
    bytes: &[u8],
) -> Result<(usize, &[u8]), ReadFault>
    requires { length bytes.now ≤ w.end }
    ensures read { Gives (λ x. (Some x.0, x.1.now)) result (passed (map_at (level_by (inside depth)) w size (Some nodes) bytes.now)) }
    ensures rest { IfOk result (λ x. length x.1.now ≤ length bytes.now) }
{
    let block = block_at(w, size, size_len(size), bytes)?;
    let (count, front) = count_at(block.within, size, true, block.body)?;
    let left = charge(nodes, count, block.within.place(block.body))?;
    let (left, rest) = check_pairs(alloc, depth, count / 2, block.within, left, front)?;
    ended(block.within, rest)?;
    Ok((left, block.behind))
}

#[tactic(auto, unfolding(crate::specs::Reading::array_at))]
#[cycle(checked)]
fn check_array(
    alloc: Global,
    depth: usize,
    w: Window,
    size: SizeWidth,
    nodes: usize,
    bytes: &[u8],
) -> Result<(usize, &[u8]), ReadFault>
    requires { length bytes.now ≤ w.end }
    ensures read { Gives (λ x. (Some x.0, x.1.now)) result (passed (array_at (level_by (inside depth)) w size (Some nodes) bytes.now)) }
    ensures rest { IfOk result (λ x. length x.1.now ≤ length bytes.now) }
{
    let block = block_at(w, size, size_len(size) + 1, bytes)?;
    let (count, front) = count_at(block.within, size, false, block.body)?;
    let left = charge(nodes, count, block.within.place(block.body))?;
    let (constructor, left, rest) = check_head(alloc, depth, block.within, left, front)?;
    let (left, rest) = check_items(alloc, depth, constructor, count, block.within, left, rest)?;
    ended(block.within, rest)?;
    Ok((left, block.behind))
}

/// Checks `count` values, one after the other.
#[cycle(checked)]
// Without `inline`, `dump` takes 1.7 in 100 more instructions.
#[inline(always)]
fn check_values(
    alloc: Global,
    depth: usize,
    count: usize,
    w: Window,
    nodes: usize,
    bytes: &[u8],
) -> Result<(usize, &[u8]), ReadFault>
    requires { length bytes.now ≤ w.end }
    ensures read { Gives (λ x. (Some x.0, x.1.now)) result (passed (trees_at (λ within. (level_by (inside depth)).value within 0) count w (Some nodes) bytes.now)) }
    ensures rest { IfOk result (λ x. length x.1.now ≤ length bytes.now) }
{
    let mut left = nodes;
    let mut rest = bytes;
    for _ in 0..count {
        let (less, behind) = check_value(alloc, depth, w, left, rest)?;
        left = less;
        rest = behind;
    }
    Ok((left, rest))
}

/// Checks the data of `count` items, one after the other. Items of width zero are not walked.
#[cycle(checked)]
fn check_items(
    alloc: Global,
    depth: usize,
    constructor: Constructor,
    count: usize,
    w: Window,
    nodes: usize,
    bytes: &[u8],
) -> Result<(usize, &[u8]), ReadFault>
    requires within { length bytes.now ≤ w.end }
    requires sound { FitsItsKind constructor }
    ensures read { Gives (λ x. (Some x.0, x.1.now)) result (passed (trees_at ((level_by (inside depth)).item constructor) count w (Some nodes) bytes.now)) }
    ensures rest { IfOk result (λ x. length x.1.now ≤ length bytes.now) }
{
    if is_still(constructor) {
        return Ok((nodes, bytes));
    }
    let mut left = nodes;
    let mut rest = bytes;
    for _ in 0..count {
        let (less, behind) = check_item(alloc, depth, constructor, w, left, rest)?;
        left = less;
        rest = behind;
    }
    Ok((left, rest))
}

/// Checks `count` keys and values in turn. Equal keys are a fault at the later one.
#[cycle(checked)]
fn check_pairs(
    alloc: Global,
    depth: usize,
    count: usize,
    w: Window,
    nodes: usize,
    bytes: &[u8],
) -> Result<(usize, &[u8]), ReadFault>
    requires { length bytes.now ≤ w.end }
    ensures read { Gives (λ x. (Some x.0, x.1.now)) result (passed (pairs_at (level_by (inside depth)) none count w (Some nodes) bytes.now)) }
    ensures rest { IfOk result (λ x. length x.1.now ≤ length bytes.now) }
{
    let mut seen = ShortKeys::new(bytes);
    if count > FEW {
        return check_more_pairs(alloc, depth, count, &seen, w, nodes, bytes);
    }
    let mut left = nodes;
    let mut rest = bytes;
    for i in 0..count {
        let Some(value) = seen.take(w, rest)? else {
            return check_more_pairs(alloc, depth, count - i, &seen, w, left, rest);
        };
        let (less, behind) = check_value(alloc, depth, w, left, value)?;
        left = less;
        rest = behind;
    }
    Ok((left, rest))
}

/// Checks `count` more keys and values in turn, after the keys `before`.
#[cycle(checked)]
#[inline(never)]
fn check_more_pairs<'a>(
    alloc: Global,
    depth: usize,
    count: usize,
    before: &ShortKeys<'a>,
    w: Window,
    nodes: usize,
    bytes: &'a [u8],
) -> Result<(usize, &'a [u8]), ReadFault>
    requires { length bytes.now ≤ w.end }
    ensures read { (seen : Trees) → AreImagesOf before.now seen → Gives (λ x. (Some x.0, x.1.now)) result (passed (pairs_at (level_by (inside depth)) seen count w (Some nodes) bytes.now)) }
    ensures rest { IfOk result (λ x. length x.1.now ≤ length bytes.now) }
{
    let mut seen = SeenKeys::new(alloc, count);
    before.put_into(alloc, &mut seen)?;
    let mut left = nodes;
    let mut rest = bytes;
    for _ in 0..count {
        let (less, value) = seen.take(alloc, depth, w, left, rest)?;
        let (less, behind) = check_value(alloc, depth, w, less, value)?;
        left = less;
        rest = behind;
    }
    Ok((left, rest))
}

/// Checks an array's descriptors and returns its element constructor.
#[cycle(checked)]
fn check_head(
    alloc: Global,
    depth: usize,
    w: Window,
    nodes: usize,
    bytes: &[u8],
) -> Result<(Constructor, usize, &[u8]), ReadFault>
    requires { length bytes.now ≤ w.end }
    ensures read { Gives (λ x. (x.0, Some x.1, x.2.now)) result (constructor_passed (head_at (length bytes.now) (level_by (inside depth)) w (Some nodes) bytes.now)) }
    ensures sound { IfOk result (λ x. FitsItsKind x.0) }
    ensures rest { IfOk result (λ x. length x.2.now ≤ length bytes.now) }
{
    let mut left = nodes;
    let mut rest = bytes;
    for _ in 0..bytes.len() {
        let Some((code, after)) = rest.split_first() else {
            return Err(w.short);
        };
        if *code != 0 {
            let constructor = allowed(w.place(rest), *code, may_hold(depth))?;
            return Ok((constructor, left, after));
        }
        let paid = charge(left, 1, w.place(rest))?;
        let (less, behind) = check_value(alloc, depth, w, paid, after)?;
        left = less;
        rest = behind;
    }
    Err(w.short)
}

/// Returns the bytes after a size and the bytes that it counts.
fn skip_octets(w: Window, kind: Kind, size: SizeWidth, bytes: &[u8]) -> Result<&[u8], ReadFault>
    requires { length bytes.now ≤ w.end }
    ensures read { Is (λ r. r.now) result (rest_of (sized_at w kind size bytes.now)) }
    ensures rest { IfOk result (λ r. length r.now ≤ length bytes.now) }
{
    match octets_in(kind, size, bytes) {
        Some((_, rest)) => Ok(rest),
        None => skip_bad_octets(w, kind, size, bytes),
    }
}

/// Reads a size and its bytes if the quick pass found a fault in them.
#[cold]
#[inline(never)]
fn skip_bad_octets(w: Window, kind: Kind, size: SizeWidth, bytes: &[u8]) -> Result<&[u8], ReadFault>
    requires { length bytes.now ≤ w.end }
    ensures read { Is (λ r. r.now) result (rest_of (sized_at w kind size bytes.now)) }
    ensures rest { IfOk result (λ r. length r.now ≤ length bytes.now) }
{
    let (_, rest) = sized_at(w, kind, size, bytes)?;
    Ok(rest)
}

/// Returns the length of the value at the front, as the reading function defines it.
fn check_front(alloc: Global, bytes: &[u8], limits: Limits) -> Result<usize, ReadFault>
    ensures within { IfOk result (λ n. n ≤ length bytes.now) }
    ensures exact { Gives (λ n. drop n bytes.now) result (rest_of (decoded limits.depth limits.nodes bytes.now)) }
{
    let (_, rest) = check_coded(
        alloc,
        limits.depth,
        Window::of(bytes),
        1,
        limits.nodes,
        bytes,
    )?;
    Ok(bytes.len() - rest.len())
}

/// Returns the length in bytes of the value that the bytes begin with, if it is lawful and within the limits. [1.2]
///
/// Bytes may follow it. The result is that of [`decode`] without the value. A fault is the first from the left; equal
/// keys and too many nodes are faults too. `NoMemory` is returned only if memory was refused. Memory is taken only to
/// find equal keys: those of a map of more than 32 keys, and of one with a key that is a list, a map, an array or
/// described. Such a key is read as `decode` reads it, and dropped.
pub fn check(alloc: Global, bytes: &[u8], limits: Limits) -> Result<usize, ReadFault>
    ensures within { IfOk result (λ n. n ≤ length bytes.now) }
    ensures exact { Gives (λ n. drop n bytes.now) result (rest_of (decoded limits.depth limits.nodes bytes.now)) }
    // A fault stands within the bytes.
    ensures placed { IfErr result (λ e. place_of e ≤ length bytes.now) }
{
    check_front(alloc, bytes, limits)
}
