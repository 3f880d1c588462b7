//! Measures a value in which nothing is wrong.
//!
//! `None` says nothing about the value: the pass with places then finds what is wrong, and where.

ghost use Rattle.std.specs.Prelude.{◌≡◌, ℕ, ◌+◌, ◌≤◌, length, drop, if◌then◌else◌, None, IfSome, IsTrue, Option, Some, Ok, false};
ghost use Rattle.byteorder.specs.Endian.{big_number};
ghost use Rattle.amqp_types.specs.Codes.{FitsItsKind, find_code};
ghost use Rattle.amqp_types.specs.Kinds.{width};
ghost use Rattle.amqp_types.specs.Spelling.{form_len, size_len};
ghost use Rattle.amqp_types.specs.declared.kind.Kind.{Kind};
ghost use Rattle.amqp_types.specs.Reading.{Level, after, octets_fault, number_at, sized_at, allowed, trees_at, list_at, map_at, array_at, item_by, described_at, value_by, level_by, inside};
ghost use Rattle.amqp_types.specs.Skipping.{rest_of, plain_width, IsBody, Leaves};
ghost use Rattle.amqp_types.specs.Trees.{Octets};
ghost use Rattle.amqp_types.specs.declared.window.Window.{Window};

use crate::code::{Constructor, Form, SizeWidth};
use crate::kind::{Kind, is_partial};
use crate::scalar::{allowed, first_beyond_ascii, size_len};
use crate::skipper::{form_len, may_hold, one_less};
use byteorder::{BigEndian, ByteOrder};

/// Returns how many bytes come after a code, if all its values have as many and any bytes are valid.
#[inline(always)]
fn plain_width(code: u8) -> Option<usize>
    ensures { IfSome result (λ n. plain_width (find_code code) ≡ Some n) }
{
    match allowed(0, code, false) {
        Ok(Constructor::Fixed(kind, form)) if !is_partial(kind) || is_still(form) => {
            Some(form_len(kind, form))
        }
        _ => None,
    }
}

/// Whether the form has no data, whatever its kind.
fn is_still(form: Form) -> bool
    ensures { (kind : Kind) → IsTrue result → form_len form (width kind) ≡ 0 }
{
    matches!(form, Form::Zero | Form::One)
}

/// Returns the length of the value at the front, if its code has a plain width.
#[inline(always)]
pub fn plain_len(bytes: &[u8]) -> Option<usize>
    ensures within { IfSome result (λ n. n ≤ length bytes.now) }
    ensures read { IfSome result (λ n. (inner : Option Level) (w : Window) → after (value_by inner w 0 None bytes.now) ≡ Ok (drop n bytes.now)) }
    ensures kept { IfSome result (λ n. (inner : Option Level) (w : Window) (nodes : ℕ) → Leaves (value_by inner w 0 (Some nodes) bytes.now) nodes (drop n bytes.now)) }
{
    let (code, rest) = bytes.split_first()?;
    let width = plain_width(*code)?;
    if rest.len() < width {
        return None;
    }
    Some(1 + width)
}

/// Returns the length of a boolean's or a char's full form, if its data are valid.
pub fn partial_len(kind: Kind, form: Form, bytes: &[u8]) -> Option<usize>
    ensures within { IfSome result (λ n. n ≤ length bytes.now) }
    ensures read { IfSome result (λ n. (w : Window) → rest_of (number_at w kind form bytes.now) ≡ Ok (drop n bytes.now)) }
{
    match (kind, form) {
        (Kind::Boolean, Form::Full) => {
            let (byte, _rest) = bytes.split_first()?;
            if *byte > 1 {
                return None;
            }
            Some(1)
        }
        (Kind::Char, Form::Full) => {
            if bytes.len() < 4 {
                return None;
            }
            char::from_u32(BigEndian::read_u32(bytes))?;
            Some(4)
        }
        _ => None,
    }
}

/// Reads the size or the count at the front.
#[inline(always)]
fn number_in(size: SizeWidth, bytes: &[u8]) -> Option<usize>
    ensures within { IfSome result (λ n. size_len size ≤ length bytes.now) }
    ensures number { IfSome result (λ n. n ≡ big_number (size_len size) bytes.now) }
{
    match size {
        SizeWidth::One => Some(usize::from(*bytes.first()?)),
        SizeWidth::Four => {
            if bytes.len() < 4 {
                return None;
            }
            Some(BigEndian::read_u32(bytes) as usize)
        }
    }
}

/// Whether the bytes are valid for the kind.
pub fn are_octets(kind: Kind, octets: &[u8]) -> bool
    ensures { IsTrue result → (at : ℕ) → octets_fault kind at octets.now ≡ None }
{
    match kind {
        Kind::String => match simdutf8::basic::from_utf8(octets) {
            Ok(_) => true,
            Err(_) => false,
        },
        Kind::Symbol => first_beyond_ascii(octets).is_none(),
        _ => true,
    }
}

/// Returns the bytes that a size at the front counts, and the bytes after them, if nothing is wrong with them.
// Without `inline`, `dump` takes 0.8 in 100 more instructions.
#[inline(always)]
pub fn octets_in(kind: Kind, size: SizeWidth, bytes: &[u8]) -> Option<(&[u8], &[u8])>
    ensures within { IfSome result (λ x. size_len size + length x.0.now + length x.1.now ≡ length bytes.now) }
    ensures behind { IfSome result (λ x. x.1.now ≡ drop (size_len size + length x.0.now) bytes.now) }
    ensures read { IfSome result (λ x. (w : Window) → sized_at w kind size bytes.now ≡ Ok (x.0.now, x.1.now)) }
{
    let len = number_in(size, bytes)?;
    let rest = &bytes[size_len(size)..];
    if rest.len() < len || !are_octets(kind, &rest[..len]) {
        return None;
    }
    Some(rest.split_at(len))
}

/// Returns the kind of a code, if its size has one byte.
fn short_kind(code: u8) -> Option<Kind>
    ensures { IfSome result (λ kind. allowed 0 false (find_code code) ≡ Ok (Constructor.Variable kind SizeWidth.One)) }
{
    match allowed(0, code, false) {
        Ok(Constructor::Variable(kind, SizeWidth::One)) => Some(kind),
        _ => None,
    }
}

/// Returns the kind and the bytes of the value at the front, and the bytes after it, if its size has one byte and
/// nothing is wrong with it.
// Without `inline`, `dump` takes 1.8 in 100 more instructions, `texts` 2.1.
#[inline(always)]
pub fn short_octets(bytes: &[u8]) -> Option<(Kind, &[u8], &[u8])>
    ensures rest { IfSome result (λ x. length x.2.now ≤ length bytes.now) }
    ensures read { IfSome result (λ x. (inner : Option Level) (w : Window) (nodes : ℕ) → value_by inner w 0 (Some nodes) bytes.now ≡ Ok (Octets x.0 x.1.now, Some nodes, x.2.now)) }
{
    let (code, data) = bytes.split_first()?;
    let kind = short_kind(*code)?;
    let (octets, rest) = octets_in(kind, SizeWidth::One, data)?;
    Some((kind, octets, rest))
}

/// Returns the length of a size together with the bytes that it counts.
fn octets_len(kind: Kind, size: SizeWidth, bytes: &[u8]) -> Option<usize>
    ensures within { IfSome result (λ n. n ≤ length bytes.now) }
    ensures read { IfSome result (λ n. (w : Window) → rest_of (sized_at w kind size bytes.now) ≡ Ok (drop n bytes.now)) }
{
    let (octets, _rest) = octets_in(kind, size, bytes)?;
    Some(size_len(size) + octets.len())
}

/// Returns the length of `count` sizes, each with the bytes that it counts.
fn octets_items_len(kind: Kind, size: SizeWidth, count: usize, bytes: &[u8]) -> Option<usize>
    ensures within { IfSome result (λ n. n ≤ length bytes.now) }
    ensures read { IfSome result (λ n. (inner : Option Level) (w : Window) → after (trees_at (item_by inner (Constructor.Variable kind size)) count w None bytes.now) ≡ Ok (drop n bytes.now)) }
{
    let mut at = 0;
    for _ in 0..count {
        at += octets_len(kind, size, &bytes[at..])?;
    }
    Some(at)
}

/// Returns the length of `count` items; `None` too if they may hold other values, or are booleans or chars.
fn elements_len(constructor: Constructor, count: usize, bytes: &[u8]) -> Option<usize>
    requires { FitsItsKind constructor }
    ensures within { IfSome result (λ n. n ≤ length bytes.now) }
    ensures read { IfSome result (λ n. (inner : Option Level) (w : Window) → after (trees_at (item_by inner constructor) count w None bytes.now) ≡ Ok (drop n bytes.now)) }
{
    match constructor {
        Constructor::Fixed(kind, form) => {
            let len = count.checked_mul(form_len(kind, form))?;
            if is_partial(kind) || bytes.len() < len {
                return None;
            }
            Some(len)
        }
        Constructor::Variable(kind, size) => octets_items_len(kind, size, count, bytes),
        _ => None,
    }
}

/// Returns the count of a list, a map or an array, and its other bytes after the count; `bytes` begin after its code.
#[inline(always)]
pub fn body_at(size: SizeWidth, bytes: &[u8]) -> Option<(usize, &[u8])>
    ensures { IfSome result (λ x. IsBody size bytes.now x.0 x.1.now) }
{
    let len = number_in(size, bytes)?;
    let rest = &bytes[size_len(size)..];
    if rest.len() < len {
        return None;
    }
    let body = &rest[..len];
    let count = number_in(size, body)?;
    Some((count, &body[size_len(size)..]))
}

/// Returns the length of an array's data, if its items hold no other values and have no descriptor.
fn array_len(depth: usize, size: SizeWidth, bytes: &[u8]) -> Option<usize>
    ensures within { IfSome result (λ n. n ≤ length bytes.now) }
    ensures read { IfSome result (λ n. (w : Window) → after (array_at (level_by (inside depth)) w size None bytes.now) ≡ Ok (drop n bytes.now)) }
{
    let (count, parts) = body_at(size, bytes)?;
    let (code, items) = parts.split_first()?;
    let constructor = allowed(0, *code, may_hold(depth)).ok()?;
    if elements_len(constructor, count, items)? < items.len() {
        return None;
    }
    Some(2 * size_len(size) + parts.len())
}

/// Returns the length of the value at the front, if nothing is wrong with it.
#[cycle(lengths)]
#[inline(always)]
pub fn value_len(depth: usize, bytes: &[u8]) -> Option<usize>
    ensures within { IfSome result (λ n. n ≤ length bytes.now) }
    ensures read { IfSome result (λ n. (w : Window) → after (value_by (inside depth) w 0 None bytes.now) ≡ Ok (drop n bytes.now)) }
{
    match plain_len(bytes) {
        Some(len) => Some(len),
        None => other_len(depth, bytes),
    }
}

/// Returns the length of the value at the front, by its code.
#[cycle(lengths)]
fn other_len(depth: usize, bytes: &[u8]) -> Option<usize>
    ensures within { IfSome result (λ n. n ≤ length bytes.now) }
    ensures read { IfSome result (λ n. (w : Window) → after (value_by (inside depth) w 0 None bytes.now) ≡ Ok (drop n bytes.now)) }
{
    let (code, rest) = bytes.split_first()?;
    if *code == 0 {
        return Some(1 + described_len(one_less(depth)?, rest)?);
    }
    let constructor = allowed(0, *code, may_hold(depth)).ok()?;
    Some(1 + item_len(depth, constructor, rest)?)
}

/// Returns the length of a descriptor and what it describes.
#[cycle(lengths)]
fn described_len(depth: usize, bytes: &[u8]) -> Option<usize>
    ensures within { IfSome result (λ n. n ≤ length bytes.now) }
    ensures read { IfSome result (λ n. (w : Window) (at : ℕ) → after (described_at (Some (level_by (inside depth))) at w 0 None bytes.now) ≡ Ok (drop n bytes.now)) }
{
    let first = value_len(depth, bytes)?;
    let second = value_len(depth, &bytes[first..])?;
    Some(first + second)
}

/// Returns the length of the data of a constructor.
#[tactic(auto, unfolding(crate::specs::Reading::item_by))]
#[cycle(lengths)]
fn item_len(depth: usize, constructor: Constructor, bytes: &[u8]) -> Option<usize>
    requires { FitsItsKind constructor }
    ensures within { IfSome result (λ n. n ≤ length bytes.now) }
    ensures read { IfSome result (λ n. (w : Window) → after (item_by (inside depth) constructor w None bytes.now) ≡ Ok (drop n bytes.now)) }
{
    match constructor {
        Constructor::Fixed(kind, form) => partial_len(kind, form, bytes),
        Constructor::Variable(kind, size) => octets_len(kind, size, bytes),
        Constructor::EmptyList => Some(0),
        Constructor::ListIn(size) => parts_len(one_less(depth)?, size, false, bytes),
        Constructor::MapIn(size) => parts_len(one_less(depth)?, size, true, bytes),
        Constructor::ArrayIn(size) => array_len(one_less(depth)?, size, bytes),
    }
}

/// Returns the length of a list's data, or of a map's, whose parts come in pairs.
#[cycle(lengths)]
fn parts_len(depth: usize, size: SizeWidth, paired: bool, bytes: &[u8]) -> Option<usize>
    ensures within { IfSome result (λ n. n ≤ length bytes.now) }
    ensures read { IfSome result (λ n. (w : Window) → after (if paired then map_at (level_by (inside depth)) w size None bytes.now else list_at (level_by (inside depth)) w size None bytes.now) ≡ Ok (drop n bytes.now)) }
{
    let (count, parts) = body_at(size, bytes)?;
    if paired && count % 2 == 1 {
        return None;
    }
    if values_len(depth, count, parts)? < parts.len() {
        return None;
    }
    Some(2 * size_len(size) + parts.len())
}

/// Returns the length of `count` values.
#[cycle(lengths)]
fn values_len(depth: usize, count: usize, bytes: &[u8]) -> Option<usize>
    ensures within { IfSome result (λ n. n ≤ length bytes.now) }
    ensures read { IfSome result (λ n. (w : Window) → after (trees_at (λ within. value_by (inside depth) within 0) count w None bytes.now) ≡ Ok (drop n bytes.now)) }
{
    let mut at = 0;
    for _ in 0..count {
        at += value_len(depth, &bytes[at..])?;
    }
    Some(at)
}
