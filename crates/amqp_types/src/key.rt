//! Keys of a map that hold no other values, borrowed from the bytes.

ghost use Rattle.std.specs.Prelude.{◌≡◌, ℕ, ◌≤◌, length, IfSome, Option, Some, Ok};
ghost use Rattle.std.specs.Str.{bytes_eq};
ghost use Rattle.amqp_types.specs.Codes.{FitsItsKind};
ghost use Rattle.amqp_types.specs.Images.{image};
ghost use Rattle.amqp_types.specs.Keys.{tree_of_key, key_image};
ghost use Rattle.amqp_types.specs.Reading.{Level, item_by, value_by};
ghost use Rattle.amqp_types.specs.Trees.{Octets};
ghost use Rattle.amqp_types.specs.declared.kind.Kind.{Kind};

use crate::code::{Constructor, Form};
use crate::kind::Kind;
use crate::quick_skip::{octets_in, short_octets};
use crate::scalar::{allowed, number_at};
use crate::window::Window;
use byteorder::{BigEndian, ByteOrder};

/// A value that holds no others. A number is that of its full form; signed ones are in two's complement.
#[derive(Clone, Copy)]
pub enum Key<'a> {
    Number(Kind, u128),
    Octets(Kind, &'a [u8]),
}

/// Returns the value at the front and the bytes after it, if it holds no others and nothing is wrong in it.
pub fn key_at(w: Window, bytes: &[u8]) -> Option<(Key<'_>, &[u8])>
    requires { length bytes.now ≤ w.end }
    ensures read { IfSome result (λ x. (inner : Option Level) (nodes : ℕ) → value_by inner w 0 (Some nodes) bytes.now ≡ Ok (tree_of_key x.0, Some nodes, x.1.now)) }
    ensures rest { IfSome result (λ x. length x.1.now ≤ length bytes.now) }
{
    if let Some((kind, octets, rest)) = short_octets(bytes) {
        return Some((Key::Octets(kind, octets), rest));
    }
    let (code, rest) = bytes.split_first()?;
    let constructor = allowed(0, *code, false).ok()?;
    let (key, behind) = key_of(w, constructor, rest)?;
    Some((key, behind))
}

/// Reads a key after the code of its constructor.
fn key_of(w: Window, constructor: Constructor, bytes: &[u8]) -> Option<(Key<'_>, &[u8])>
    requires within { length bytes.now ≤ w.end }
    requires sound { FitsItsKind constructor }
    ensures read { IfSome result (λ x. (inner : Option Level) (nodes : ℕ) → item_by inner constructor w (Some nodes) bytes.now ≡ Ok (tree_of_key x.0, Some nodes, x.1.now)) }
    ensures rest { IfSome result (λ x. length x.1.now ≤ length bytes.now) }
{
    match constructor {
        Constructor::Fixed(kind, form) => number_key(w, kind, form, bytes),
        Constructor::Variable(kind, size) => {
            let (octets, rest) = octets_in(kind, size, bytes)?;
            Some((Key::Octets(kind, octets), rest))
        }
        _ => None,
    }
}

/// Reads a number as a key.
#[tactic(auto, unfolding(crate::specs::Reading::number_at, crate::specs::Reading::form_at, crate::specs::Reading::item_by))]
fn number_key(w: Window, kind: Kind, form: Form, bytes: &[u8]) -> Option<(Key<'_>, &[u8])>
    requires within { length bytes.now ≤ w.end }
    requires sound { FitsItsKind (Constructor.Fixed kind form) }
    ensures read { IfSome result (λ x. (inner : Option Level) (nodes : ℕ) → item_by inner (Constructor.Fixed kind form) w (Some nodes) bytes.now ≡ Ok (tree_of_key x.0, Some nodes, x.1.now)) }
    ensures rest { IfSome result (λ x. length x.1.now ≤ length bytes.now) }
{
    match kind {
        Kind::Null => Some((Key::Number(kind, 0), bytes)),
        Kind::Decimal128 | Kind::Uuid => {
            let (octets, rest) = w.octets(16, bytes).ok()?;
            Some((Key::Number(kind, BigEndian::read_u128(octets)), rest))
        }
        _ => {
            let (number, rest) = number_at(w, kind, form, bytes).ok()?;
            Some((Key::Number(kind, u128::from(number)), rest))
        }
    }
}

/// Whether two keys are equal.
pub fn are_equal(a: &Key<'_>, b: &Key<'_>) -> bool
    ensures { result ≡ bytes_eq (key_image a.now) (key_image b.now) }
{
    match (a, b) {
        (Key::Number(kind, number), Key::Number(other, other_number)) => {
            kind == other && number == other_number
        }
        (Key::Octets(kind, octets), Key::Octets(other, other_octets)) => {
            kind == other && are_same(octets, other_octets)
        }
        _ => false,
    }
}

/// Whether two keys of the same kind have the same bytes.
pub fn are_same(a: &[u8], b: &[u8]) -> bool
    ensures { (kind : Kind) → result ≡ bytes_eq (image (Octets kind a.now)) (image (Octets kind b.now)) }
{
    a == b
}
