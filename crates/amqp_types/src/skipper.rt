//! Measures a value without keeping it.

ghost use Rattle.std.specs.Prelude.{◌≡◌, ℕ, ◌+◌, ◌≤◌, List, ◌++◌, length, take, drop, None, IfOk, IfErr, MatchOption, is_some, Some, Ok};
ghost use Rattle.amqp_types.specs.Kinds.{width};
ghost use Rattle.amqp_types.specs.Codes.{FitsItsKind};
ghost use Rattle.amqp_types.specs.Spelling.{form_len};
ghost use Rattle.amqp_types.specs.InHand.{outermost};
ghost use Rattle.amqp_types.specs.Reading.{Is, after, number_at, trees_at, head_at, list_at, map_at, array_at, item_by, described_at, value_by, level_by, inside, value_of};
ghost use Rattle.amqp_types.specs.Trees.{Tree, depth_of};
ghost use Rattle.amqp_types.specs.Spelling.{Spells};
ghost use Rattle.amqp_types.specs.Misreading.{AValue, Misread};
ghost use Rattle.amqp_types.specs.Places.{place_of, IsPlain};
ghost use Rattle.amqp_types.specs.Skipping.{constructor_after, is_still, rest_of};

use crate::block::{block_at, count_at, ended};
use crate::code::{Constructor, Form, SizeWidth};
use crate::fault::ReadFault;
use crate::kind::{Kind, is_partial, width};
use crate::quick_skip::value_len;
use crate::scalar::{allowed, number_at, size_len, sized_at};
use crate::window::Window;

/// Returns how many bytes of data come after the code of a fixed-width constructor.
pub fn form_len(kind: Kind, form: Form) -> usize
    ensures { result ≡ form_len form (width kind) }
{
    match form {
        Form::Zero | Form::One => 0,
        Form::OneByte | Form::OneSigned => 1,
        Form::Full => width(kind),
    }
}

pub fn skip_number(w: Window, kind: Kind, form: Form, bytes: &[u8]) -> Result<&[u8], ReadFault>
    requires within { length bytes.now ≤ w.end }
    requires sound { FitsItsKind (Constructor.Fixed kind form) }
    ensures read { Is (λ r. r.now) result (rest_of (number_at w kind form bytes.now)) }
    ensures rest { IfOk result (λ r. length r.now ≤ length bytes.now) }
{
    if is_partial(kind) {
        let (_, rest) = number_at(w, kind, form, bytes)?;
        return Ok(rest);
    }
    let (_, rest) = w.octets(form_len(kind, form), bytes)?;
    Ok(rest)
}

/// Whether the constructor has no data.
pub fn is_still(constructor: Constructor) -> bool
    ensures { result ≡ is_still constructor }
{
    match constructor {
        Constructor::Fixed(kind, form) => form_len(kind, form) == 0,
        Constructor::EmptyList => true,
        _ => false,
    }
}

/// Whether a container may begin here, with `depth` levels left.
#[tactic(auto, using(crate::proofs::Levels::inside_zero, crate::proofs::Levels::inside_some))]
pub fn may_hold(depth: usize) -> bool
    ensures { result ≡ is_some (inside depth) }
{
    depth > 0
}

/// Returns the depth that is left inside a container; `None` if none may begin here.
#[tactic(auto, using(crate::proofs::Levels::inside_zero, crate::proofs::Levels::inside_more))]
pub fn one_less(depth: usize) -> Option<usize>
    ensures inside { MatchOption result (inside depth ≡ None) (λ less. inside depth ≡ Some (level_by (inside less))) }
    ensures less { MatchOption result (depth ≡ 0) (λ less. less + 1 ≡ depth) }
{
    if depth == 0 { None } else { Some(depth - 1) }
}

#[tactic(auto, unfolding(crate::specs::Reading::value_by))]
#[cycle(walk)]
fn skip_value(depth: usize, w: Window, bytes: &[u8]) -> Result<&[u8], ReadFault>
    requires { length bytes.now ≤ w.end }
    ensures read { Is (λ r. r.now) result (after (value_by (inside depth) w 0 None bytes.now)) }
    ensures rest { IfOk result (λ r. length r.now ≤ length bytes.now) }
{
    let Some((code, rest)) = bytes.split_first() else {
        return Err(w.short);
    };
    if *code == 0 {
        return skip_described(depth, w, w.place(bytes), rest);
    }
    let constructor = allowed(w.place(bytes), *code, may_hold(depth))?;
    skip_item(depth, constructor, w, rest)
}

/// Returns the bytes after a descriptor and what it describes; the `00` before them is at place `at`.
#[tactic(auto, unfolding(crate::specs::Reading::described_at))]
#[cycle(walk)]
fn skip_described(depth: usize, w: Window, at: usize, bytes: &[u8]) -> Result<&[u8], ReadFault>
    requires { length bytes.now ≤ w.end }
    ensures read { Is (λ r. r.now) result (after (described_at (inside depth) at w 0 None bytes.now)) }
    ensures rest { IfOk result (λ r. length r.now ≤ length bytes.now) }
{
    let Some(less) = one_less(depth) else {
        return Err(ReadFault::TooDeep(at));
    };
    let rest = skip_value(less, w, bytes)?;
    skip_value(less, w, rest)
}

/// Returns the bytes after the data of a constructor.
#[tactic(auto, unfolding(crate::specs::Reading::item_by))]
#[cycle(walk)]
fn skip_item(
    depth: usize,
    constructor: Constructor,
    w: Window,
    bytes: &[u8],
) -> Result<&[u8], ReadFault>
    requires within { length bytes.now ≤ w.end }
    requires sound { FitsItsKind constructor }
    ensures read { Is (λ r. r.now) result (after (item_by (inside depth) constructor w None bytes.now)) }
    ensures rest { IfOk result (λ r. length r.now ≤ length bytes.now) }
{
    match constructor {
        Constructor::Fixed(kind, form) => skip_number(w, kind, form, bytes),
        Constructor::Variable(kind, size) => {
            let (_, rest) = sized_at(w, kind, size, bytes)?;
            Ok(rest)
        }
        Constructor::EmptyList => Ok(bytes),
        Constructor::ListIn(size) => match one_less(depth) {
            None => Err(w.short),
            Some(less) => skip_list(less, w, size, bytes),
        },
        Constructor::MapIn(size) => match one_less(depth) {
            None => Err(w.short),
            Some(less) => skip_map(less, w, size, bytes),
        },
        Constructor::ArrayIn(size) => match one_less(depth) {
            None => Err(w.short),
            Some(less) => skip_array(less, w, size, bytes),
        },
    }
}

#[tactic(auto, unfolding(crate::specs::Reading::list_at))]
#[cycle(walk)]
fn skip_list(depth: usize, w: Window, size: SizeWidth, bytes: &[u8]) -> Result<&[u8], ReadFault>
    requires { length bytes.now ≤ w.end }
    ensures read { Is (λ r. r.now) result (after (list_at (level_by (inside depth)) w size None bytes.now)) }
    ensures rest { IfOk result (λ r. length r.now ≤ length bytes.now) }
{
    let block = block_at(w, size, size_len(size), bytes)?;
    let (count, items) = count_at(block.within, size, false, block.body)?;
    let rest = skip_values(depth, count, block.within, items)?;
    ended(block.within, rest)?;
    Ok(block.behind)
}

#[tactic(auto, unfolding(crate::specs::Reading::map_at))]
#[cycle(walk)]
fn skip_map(depth: usize, w: Window, size: SizeWidth, bytes: &[u8]) -> Result<&[u8], ReadFault>
    requires { length bytes.now ≤ w.end }
    ensures read { Is (λ r. r.now) result (after (map_at (level_by (inside depth)) w size None bytes.now)) }
    ensures rest { IfOk result (λ r. length r.now ≤ length bytes.now) }
{
    let block = block_at(w, size, size_len(size), bytes)?;
    let (count, entries) = count_at(block.within, size, true, block.body)?;
    let rest = skip_values(depth, count, block.within, entries)?;
    ended(block.within, rest)?;
    Ok(block.behind)
}

#[tactic(auto, unfolding(crate::specs::Reading::array_at))]
#[cycle(walk)]
fn skip_array(depth: usize, w: Window, size: SizeWidth, bytes: &[u8]) -> Result<&[u8], ReadFault>
    requires { length bytes.now ≤ w.end }
    ensures read { Is (λ r. r.now) result (after (array_at (level_by (inside depth)) w size None bytes.now)) }
    ensures rest { IfOk result (λ r. length r.now ≤ length bytes.now) }
{
    let block = block_at(w, size, size_len(size) + 1, bytes)?;
    let (count, head) = count_at(block.within, size, false, block.body)?;
    let (constructor, items) = skip_head(depth, block.within, head)?;
    let rest = skip_items(depth, constructor, count, block.within, items)?;
    ended(block.within, rest)?;
    Ok(block.behind)
}

/// Returns the bytes after `count` values.
#[cycle(walk)]
fn skip_values(depth: usize, count: usize, w: Window, bytes: &[u8]) -> Result<&[u8], ReadFault>
    requires { length bytes.now ≤ w.end }
    ensures read { Is (λ r. r.now) result (after (trees_at (λ within. (level_by (inside depth)).value within 0) count w None bytes.now)) }
    ensures rest { IfOk result (λ r. length r.now ≤ length bytes.now) }
{
    let mut rest = bytes;
    for _ in 0..count {
        rest = skip_value(depth, w, rest)?;
    }
    Ok(rest)
}

/// Returns the bytes after the data of `count` items. Items of width zero are not walked.
#[cycle(walk)]
fn skip_items(
    depth: usize,
    constructor: Constructor,
    count: usize,
    w: Window,
    bytes: &[u8],
) -> Result<&[u8], ReadFault>
    requires within { length bytes.now ≤ w.end }
    requires sound { FitsItsKind constructor }
    ensures read { Is (λ r. r.now) result (after (trees_at ((level_by (inside depth)).item constructor) count w None bytes.now)) }
    ensures rest { IfOk result (λ r. length r.now ≤ length bytes.now) }
{
    if is_still(constructor) {
        return Ok(bytes);
    }
    let mut rest = bytes;
    for _ in 0..count {
        rest = skip_item(depth, constructor, w, rest)?;
    }
    Ok(rest)
}

/// Skips an array's descriptors and returns its element constructor.
#[cycle(walk)]
fn skip_head(depth: usize, w: Window, bytes: &[u8]) -> Result<(Constructor, &[u8]), ReadFault>
    requires { length bytes.now ≤ w.end }
    ensures read { Is (λ x. (x.0, x.1.now)) result (constructor_after (head_at (length bytes.now) (level_by (inside depth)) w None bytes.now)) }
    ensures sound { IfOk result (λ x. FitsItsKind x.0) }
    ensures rest { IfOk result (λ x. length x.1.now ≤ length bytes.now) }
{
    let mut rest = bytes;
    for _ in 0..bytes.len() {
        let Some((code, after)) = rest.split_first() else {
            return Err(w.short);
        };
        if *code != 0 {
            return Ok((allowed(w.place(rest), *code, may_hold(depth))?, after));
        }
        rest = skip_value(depth, w, after)?;
    }
    Err(w.short)
}

/// Returns the length of the value at the front, or what is wrong with it and where.
#[cold]
#[inline(never)]
fn placed_len(bytes: &[u8], depth: usize) -> Result<usize, ReadFault>
    ensures within { IfOk result (λ n. n ≤ length bytes.now) }
    ensures exact { Is (λ n. drop n bytes.now) result (after (value_of depth None bytes.now)) }
{
    let rest = skip_value(depth, Window::of(bytes), bytes)?;
    Ok(bytes.len() - rest.len())
}

/// Returns the length of the value at the front, as the reading function defines it. A second pass looks for
/// what is wrong only if the first one finds no length.
fn skip_len(bytes: &[u8], depth: usize) -> Result<usize, ReadFault>
    ensures within { IfOk result (λ n. n ≤ length bytes.now) }
    ensures exact { Is (λ n. drop n bytes.now) result (after (value_of depth None bytes.now)) }
{
    match value_len(depth, bytes) {
        Some(len) => Ok(len),
        None => placed_len(bytes, depth),
    }
}

/// Returns the length in bytes of the value that the bytes begin with, if it is within the depth. [1.2]
///
/// Bytes may follow it. Nothing is kept, no memory is taken, elements of width zero are not walked, and the
/// depth of the stack is bounded by `depth`. Equal keys are not looked for and nodes are not counted, so it
/// never returns `DuplicateKey`, `TooManyNodes` or `NoMemory`.
pub fn skip(bytes: &[u8], depth: usize) -> Result<usize, ReadFault>
    ensures within { IfOk result (λ n. n ≤ length bytes.now) }
    // A length that is returned is that of a value spelled there.
    ensures found { IfOk result (λ n. (t : Tree) × Spells t (take n bytes.now) × (depth_of t ≤ depth)) }
    // The length of each value within the depth that is spelled there is returned.
    ensures only { (t : Tree) (text rest : List ℕ) → Spells t text → depth_of t ≤ depth → bytes.now ≡ text ++ rest → result ≡ Ok (length text) }
    // A fault is one that the bytes have, and it is the first.
    ensures misread { IfErr result (λ e. Misread (AValue 1) depth (outermost bytes.now) None bytes.now e) }
    ensures exact { Is (λ n. drop n bytes.now) result (after (value_of depth None bytes.now)) }
    // A fault's place is within the bytes, and it depends on them and the depth alone.
    ensures placed { IfErr result (λ e. place_of e ≤ length bytes.now) }
    ensures plain { IfErr result (λ e. IsPlain e) }
{
    skip_len(bytes, depth)
}
