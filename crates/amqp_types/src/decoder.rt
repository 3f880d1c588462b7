//! Reading a value and keeping it.

ghost use Rattle.std.specs.Prelude.{◌≡◌, ◌⊎◌, ℕ, ◌+◌, ◌≤◌, List, ◌++◌, length, take, drop, IfOk, IfErr, Some, Ok};
ghost use Rattle.amqp_types.specs.Codes.{FitsItsKind, kind_of};
ghost use Rattle.amqp_types.specs.Values.{view, views, pair_views};
ghost use Rattle.amqp_types.specs.InHand.{outermost};
ghost use Rattle.amqp_types.specs.Reading.{Is, Gives, charge, item_by, described_at, value_by, trees_at, pairs_at, head_at, list_at, map_at, array_at, level_by, inside};
ghost use Rattle.amqp_types.specs.Misreading.{AValue, Misread};
ghost use Rattle.amqp_types.specs.Decoding.{decoded};
ghost use Rattle.amqp_types.specs.Places.{place_of};
ghost use Rattle.amqp_types.specs.Trees.{Tree, IsLawful, depth_of, nodes_of};
ghost use Rattle.amqp_types.specs.Trees as trees;
ghost use Rattle.amqp_types.specs.Spelling.{Spells};

use crate::block::{block_at, count_at, ended};
use crate::code::{Constructor, SizeWidth, kind_of};
use crate::fault::ReadFault;
use crate::keys::Keys;
use crate::limits::Limits;
use crate::scalar::{allowed, size_len, sized_at};
use crate::scalar_value::{fixed_value, octets_value, small_value};
use crate::skipper::{may_hold, one_less};
use crate::value::Value;
use crate::window::Window;
use std::alloc::Global;

/// An array's descriptors, outermost first, and its element constructor.
#[derive(Drop)]
struct ArrayHead {
    descriptors: Vec<Value>,
    constructor: Constructor,
}

fn array_value(head: ArrayHead, items: Vec<Value>) -> Value
    ensures { view result ≡ trees.ArrayOf (views head.descriptors.items) (kind_of head.constructor) (views items.items) }
{
    Value::Array {
        descriptors: head.descriptors,
        kind: kind_of(head.constructor),
        items,
    }
}

/// Charges `count` nodes and returns how many are left; `TooManyNodes(at)` if there are fewer.
pub fn charge(nodes: usize, count: usize, at: usize) -> Result<usize, ReadFault>
    ensures { Is (λ left. Some left) result (charge (Some nodes) count at) }
{
    if nodes < count {
        return Err(ReadFault::TooManyNodes(at));
    }
    Ok(nodes - count)
}

/// Reads the value at the front, whose node is already charged. Returns the nodes and the bytes left too.
#[cycle(read)]
#[inline(always)]
pub fn read_value(
    alloc: Global,
    depth: usize,
    w: Window,
    nodes: usize,
    bytes: &[u8],
) -> Result<(Value, usize, &[u8]), ReadFault>
    requires { length bytes.now ≤ w.end }
    ensures read { Gives (λ x. (view x.0, Some x.1, x.2.now)) result (value_by (inside depth) w 0 (Some nodes) bytes.now) }
    ensures rest { IfOk result (λ x. length x.2.now ≤ length bytes.now) }
{
    match small_value(bytes) {
        Some((value, rest)) => Ok((value, nodes, rest)),
        None => read_coded(alloc, depth, w, 0, nodes, bytes),
    }
}

/// Reads the value at the front by its code, and charges `due` nodes for it.
#[tactic(auto, unfolding(crate::specs::Reading::value_by))]
#[cycle(read)]
fn read_coded(
    alloc: Global,
    depth: usize,
    w: Window,
    due: usize,
    nodes: usize,
    bytes: &[u8],
) -> Result<(Value, usize, &[u8]), ReadFault>
    requires within { length bytes.now ≤ w.end }
    requires due { due ≤ 1 }
    ensures read { Gives (λ x. (view x.0, Some x.1, x.2.now)) result (value_by (inside depth) w due (Some nodes) bytes.now) }
    ensures rest { IfOk result (λ x. length x.2.now ≤ length bytes.now) }
{
    let Some((code, rest)) = bytes.split_first() else {
        return Err(w.short);
    };
    if *code == 0 {
        return read_described(alloc, depth, w.place(bytes), w, due, nodes, rest);
    }
    let constructor = allowed(w.place(bytes), *code, may_hold(depth))?;
    let left = charge(nodes, due, w.place(bytes))?;
    read_item(alloc, depth, constructor, w, left, rest)
}

/// Reads a descriptor and what it describes; the `00` before them is at place `at`.
#[tactic(auto, unfolding(crate::specs::Reading::described_at))]
#[cycle(read)]
fn read_described(
    alloc: Global,
    depth: usize,
    at: usize,
    w: Window,
    due: usize,
    nodes: usize,
    bytes: &[u8],
) -> Result<(Value, usize, &[u8]), ReadFault>
    requires within { length bytes.now ≤ w.end }
    requires due { due ≤ 1 }
    ensures read { Gives (λ x. (view x.0, Some x.1, x.2.now)) result (described_at (inside depth) at w due (Some nodes) bytes.now) }
    ensures rest { IfOk result (λ x. length x.2.now ≤ length bytes.now) }
{
    let Some(less) = one_less(depth) else {
        return Err(ReadFault::TooDeep(at));
    };
    let left = charge(nodes, due + 2, at)?;
    let (descriptor, left, rest) = read_value(alloc, less, w, left, bytes)?;
    let (described, left, rest) = read_value(alloc, less, w, left, rest)?;
    let value = Value::Described(Box::new(alloc, descriptor)?, Box::new(alloc, described)?);
    Ok((value, left, rest))
}

/// Reads the data of a constructor.
#[tactic(auto, unfolding(crate::specs::Reading::item_by))]
#[cycle(read)]
fn read_item(
    alloc: Global,
    depth: usize,
    constructor: Constructor,
    w: Window,
    nodes: usize,
    bytes: &[u8],
) -> Result<(Value, usize, &[u8]), ReadFault>
    requires within { length bytes.now ≤ w.end }
    requires sound { FitsItsKind constructor }
    ensures read { Gives (λ x. (view x.0, Some x.1, x.2.now)) result (item_by (inside depth) constructor w (Some nodes) bytes.now) }
    ensures rest { IfOk result (λ x. length x.2.now ≤ length bytes.now) }
{
    match constructor {
        Constructor::Fixed(kind, form) => {
            let (value, rest) = fixed_value(w, kind, form, bytes)?;
            Ok((value, nodes, rest))
        }
        Constructor::Variable(kind, size) => {
            let (octets, rest) = sized_at(w, kind, size, bytes)?;
            Ok((octets_value(alloc, kind, octets)?, nodes, rest))
        }
        Constructor::EmptyList => Ok((Value::List(Vec::new(alloc)), nodes, bytes)),
        Constructor::ListIn(size) => match one_less(depth) {
            None => Err(w.short),
            Some(less) => read_list(alloc, less, w, size, nodes, bytes),
        },
        Constructor::MapIn(size) => match one_less(depth) {
            None => Err(w.short),
            Some(less) => read_map(alloc, less, w, size, nodes, bytes),
        },
        Constructor::ArrayIn(size) => match one_less(depth) {
            None => Err(w.short),
            Some(less) => read_array(alloc, less, w, size, nodes, bytes),
        },
    }
}

#[tactic(auto, unfolding(crate::specs::Reading::list_at))]
#[cycle(read)]
fn read_list(
    alloc: Global,
    depth: usize,
    w: Window,
    size: SizeWidth,
    nodes: usize,
    bytes: &[u8],
) -> Result<(Value, usize, &[u8]), ReadFault>
    requires { length bytes.now ≤ w.end }
    ensures read { Gives (λ x. (view x.0, Some x.1, x.2.now)) result (list_at (level_by (inside depth)) w size (Some nodes) bytes.now) }
    ensures rest { IfOk result (λ x. length x.2.now ≤ length bytes.now) }
{
    let block = block_at(w, size, size_len(size), bytes)?;
    let (count, front) = count_at(block.within, size, false, block.body)?;
    let left = charge(nodes, count, block.within.place(block.body))?;
    let (items, left, rest) = read_values(alloc, depth, count, block.within, left, front)?;
    ended(block.within, rest)?;
    Ok((Value::List(items), left, block.behind))
}

#[tactic(auto, unfolding(crate::specs::Reading::map_at))]
#[cycle(read)]
fn read_map(
    alloc: Global,
    depth: usize,
    w: Window,
    size: SizeWidth,
    nodes: usize,
    bytes: &[u8],
) -> Result<(Value, usize, &[u8]), ReadFault>
    requires { length bytes.now ≤ w.end }
    ensures read { Gives (λ x. (view x.0, Some x.1, x.2.now)) result (map_at (level_by (inside depth)) w size (Some nodes) bytes.now) }
    ensures rest { IfOk result (λ x. length x.2.now ≤ length bytes.now) }
{
    let block = block_at(w, size, size_len(size), bytes)?;
    let (count, front) = count_at(block.within, size, true, block.body)?;
    let left = charge(nodes, count, block.within.place(block.body))?;
    let (entries, left, rest) = read_pairs(alloc, depth, count / 2, block.within, left, front)?;
    ended(block.within, rest)?;
    Ok((Value::Map(entries), left, block.behind))
}

#[tactic(auto, unfolding(crate::specs::Reading::array_at))]
#[cycle(read)]
fn read_array(
    alloc: Global,
    depth: usize,
    w: Window,
    size: SizeWidth,
    nodes: usize,
    bytes: &[u8],
) -> Result<(Value, usize, &[u8]), ReadFault>
    requires { length bytes.now ≤ w.end }
    ensures read { Gives (λ x. (view x.0, Some x.1, x.2.now)) result (array_at (level_by (inside depth)) w size (Some nodes) bytes.now) }
    ensures rest { IfOk result (λ x. length x.2.now ≤ length bytes.now) }
{
    let block = block_at(w, size, size_len(size) + 1, bytes)?;
    let (count, front) = count_at(block.within, size, false, block.body)?;
    let left = charge(nodes, count, block.within.place(block.body))?;
    let (head, left, rest) = read_head(alloc, depth, block.within, left, front)?;
    let (items, left, rest) = read_items(
        alloc,
        depth,
        head.constructor,
        count,
        block.within,
        left,
        rest,
    )?;
    ended(block.within, rest)?;
    Ok((array_value(head, items), left, block.behind))
}

/// Reads `count` values, one after the other.
#[cycle(read)]
fn read_values(
    alloc: Global,
    depth: usize,
    count: usize,
    w: Window,
    nodes: usize,
    bytes: &[u8],
) -> Result<(Vec<Value>, usize, &[u8]), ReadFault>
    requires { length bytes.now ≤ w.end }
    ensures read { Gives (λ x. (views x.0.items, Some x.1, x.2.now)) result (trees_at (λ within. (level_by (inside depth)).value within 0) count w (Some nodes) bytes.now) }
    ensures rest { IfOk result (λ x. length x.2.now ≤ length bytes.now) }
{
    let mut values = Vec::with_capacity(alloc, count.min(bytes.len()))?;
    let mut left = nodes;
    let mut rest = bytes;
    for _ in 0..count {
        let (value, less, behind) = read_value(alloc, depth, w, left, rest)?;
        values.push(value)?;
        left = less;
        rest = behind;
    }
    Ok((values, left, rest))
}

/// Reads the data of `count` items, one after the other.
#[cycle(read)]
fn read_items(
    alloc: Global,
    depth: usize,
    constructor: Constructor,
    count: usize,
    w: Window,
    nodes: usize,
    bytes: &[u8],
) -> Result<(Vec<Value>, usize, &[u8]), ReadFault>
    requires within { length bytes.now ≤ w.end }
    requires sound { FitsItsKind constructor }
    ensures read { Gives (λ x. (views x.0.items, Some x.1, x.2.now)) result (trees_at ((level_by (inside depth)).item constructor) count w (Some nodes) bytes.now) }
    ensures rest { IfOk result (λ x. length x.2.now ≤ length bytes.now) }
{
    let mut items = Vec::with_capacity(alloc, count.min(bytes.len()))?;
    let mut left = nodes;
    let mut rest = bytes;
    for _ in 0..count {
        let (item, less, behind) = read_item(alloc, depth, constructor, w, left, rest)?;
        items.push(item)?;
        left = less;
        rest = behind;
    }
    Ok((items, left, rest))
}

/// Reads `count` keys and values in turn. Equal keys are a fault at the later one.
#[cycle(read)]
fn read_pairs(
    alloc: Global,
    depth: usize,
    count: usize,
    w: Window,
    nodes: usize,
    bytes: &[u8],
) -> Result<(Vec<(Value, Value)>, usize, &[u8]), ReadFault>
    requires { length bytes.now ≤ w.end }
    ensures read { Gives (λ x. (pair_views x.0.items, Some x.1, x.2.now)) result (pairs_at (level_by (inside depth)) trees.none count w (Some nodes) bytes.now) }
    ensures rest { IfOk result (λ x. length x.2.now ≤ length bytes.now) }
{
    let mut entries = Vec::with_capacity(alloc, count.min(bytes.len() / 2))?;
    let mut keys = Keys::new(alloc);
    let mut left = nodes;
    let mut rest = bytes;
    for _ in 0..count {
        let (key, less, behind) = read_value(alloc, depth, w, left, rest)?;
        if !keys.insert(alloc, &key)? {
            return Err(ReadFault::DuplicateKey(w.place(rest)));
        }
        let (value, less, behind) = read_value(alloc, depth, w, less, behind)?;
        entries.push((key, value))?;
        left = less;
        rest = behind;
    }
    Ok((entries, left, rest))
}

/// Reads an array's descriptors and its element constructor.
#[cycle(read)]
fn read_head(
    alloc: Global,
    depth: usize,
    w: Window,
    nodes: usize,
    bytes: &[u8],
) -> Result<(ArrayHead, usize, &[u8]), ReadFault>
    requires { length bytes.now ≤ w.end }
    ensures read { Gives (λ x. (record { descriptors = views x.0.descriptors.items; constructor = x.0.constructor }, Some x.1, x.2.now)) result (head_at (length bytes.now) (level_by (inside depth)) w (Some nodes) bytes.now) }
    ensures sound { IfOk result (λ x. FitsItsKind x.0.constructor) }
    ensures rest { IfOk result (λ x. length x.2.now ≤ length bytes.now) }
{
    let mut descriptors = Vec::new(alloc);
    let mut left = nodes;
    let mut rest = bytes;
    for _ in 0..bytes.len() {
        let Some((code, after)) = rest.split_first() else {
            return Err(w.short);
        };
        if *code != 0 {
            let constructor = allowed(w.place(rest), *code, may_hold(depth))?;
            let head = ArrayHead {
                descriptors,
                constructor,
            };
            return Ok((head, left, after));
        }
        let paid = charge(left, 1, w.place(rest))?;
        let (descriptor, less, behind) = read_value(alloc, depth, w, paid, after)?;
        descriptors.push(descriptor)?;
        left = less;
        rest = behind;
    }
    Err(w.short)
}

/// Returns the value at the front and its length, as the reading function defines them.
fn decode_front(alloc: Global, bytes: &[u8], limits: Limits) -> Result<(Value, usize), ReadFault>
    ensures within { IfOk result (λ x. x.1 ≤ length bytes.now) }
    ensures exact { Gives (λ x. (view x.0, drop x.1 bytes.now)) result (decoded limits.depth limits.nodes bytes.now) }
{
    let (value, _, rest) = read_coded(
        alloc,
        limits.depth,
        Window::of(bytes),
        1,
        limits.nodes,
        bytes,
    )?;
    Ok((value, bytes.len() - rest.len()))
}

/// Returns the value that the bytes begin with, and its length in bytes. [1.2]
///
/// Bytes may follow it. A fault is the first from the left; `NoMemory` is returned only if memory
/// for the value, or for finding equal keys, was refused. Nothing is kept after a fault.
///
/// The memory held is bounded by the limit of nodes and by the input: at most one `Value` for each node
/// charged, doubled by the growth of vectors, and at most the input's bytes for the contents of
/// binaries, strings and symbols. While a map is read, its keys are held once more, in a form of their
/// own, to find equal ones: at most 19 bytes for each node in them, and their contents.
pub fn decode(alloc: Global, bytes: &[u8], limits: Limits) -> Result<(Value, usize), ReadFault>
    ensures within { IfOk result (λ x. x.1 ≤ length bytes.now) }
    // A value that is returned is spelled there, lawful and within the limits.
    ensures found { IfOk result (λ x. Spells (view x.0) (take x.1 bytes.now) × IsLawful (view x.0) × (depth_of (view x.0) ≤ limits.depth) × (nodes_of (view x.0) ≤ limits.nodes)) }
    // Each lawful value within the limits that is spelled there is returned, unless memory is refused.
    ensures only { (t : Tree) (text rest : List ℕ) → Spells t text → IsLawful t → depth_of t ≤ limits.depth → nodes_of t ≤ limits.nodes
        → bytes.now ≡ text ++ rest → Gives {Y = Tree × ℕ} (λ x. (view x.0, x.1)) result (Ok (t, length text)) }
    // A fault is one that the bytes have, and it is the first.
    ensures misread { IfErr result (λ e. (e ≡ ReadFault.NoMemory) ⊎ Misread (AValue 1) limits.depth (outermost bytes.now) (Some limits.nodes) bytes.now e) }
    ensures exact { Gives (λ x. (view x.0, drop x.1 bytes.now)) result (decoded limits.depth limits.nodes bytes.now) }
    // A fault's place is within the bytes.
    ensures placed { IfErr result (λ e. place_of e ≤ length bytes.now) }
{
    decode_front(alloc, bytes, limits)
}
