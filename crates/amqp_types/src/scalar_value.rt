//! Makes values that hold no others from their data.

ghost use Rattle.std.specs.Prelude.{◌≡◌, ◌≢◌, ℕ, ◌^◌, ◌<◌, ◌≤◌, List, ◌∷◌, length, Option, IfOk, IfErr, IfSome, Some, None, Ok, false};
ghost use Rattle.byteorder.specs.Endian.{big_number};
ghost use Rattle.amqp_types.specs.Kinds.{fixed_width, is_container, width};
ghost use Rattle.amqp_types.specs.Codes.{FitsItsKind};
ghost use Rattle.amqp_types.specs.Spelling.{IsNumberOf, AreOctetsOf};
ghost use Rattle.amqp_types.specs.Trees.{Number, Octets};
ghost use Rattle.amqp_types.specs.Values.{view};
ghost use Rattle.amqp_types.specs.InHand.{Budget};
ghost use Rattle.amqp_types.specs.Reading.{Is, Level, uncharged, number_at, big_at, value_by};
ghost use Rattle.amqp_types.specs.declared.window.Window.{Window};

use crate::code::{Constructor, Form};
use crate::fault::ReadFault;
use crate::kind::Kind;
use crate::scalar::number_at;
use crate::symbol::Symbol;
use crate::value::Value;
use crate::window::Window;
use std::alloc::Global;

/// Makes the value of the kind that a number stands for.
fn number_value(kind: Kind, number: u64) -> Value
    requires fixed { fixed_width kind ≢ None }
    requires some { 1 ≤ width kind }
    requires eight { width kind ≤ 8 }
    requires fits { number < 256 ^ width kind }
    requires of_kind { IsNumberOf kind number }
    ensures { view result ≡ Number kind number }
{
    match kind {
        Kind::Boolean => Value::Boolean(number == 1),
        Kind::Ubyte => Value::Ubyte(number as u8),
        Kind::Ushort => Value::Ushort(number as u16),
        Kind::Uint => Value::Uint(number as u32),
        Kind::Ulong => Value::Ulong(number),
        Kind::Byte => Value::Byte((number as u8).cast_signed()),
        Kind::Short => Value::Short((number as u16).cast_signed()),
        Kind::Int => Value::Int((number as u32).cast_signed()),
        Kind::Long => Value::Long(number.cast_signed()),
        Kind::Float => Value::Float((number as u32).to_be_bytes()),
        Kind::Double => Value::Double(number.to_be_bytes()),
        Kind::Decimal32 => Value::Decimal32((number as u32).to_be_bytes()),
        Kind::Decimal64 => Value::Decimal64(number.to_be_bytes()),
        Kind::Char => Value::Char(char::from_u32(number as u32).unwrap()),
        Kind::Timestamp => Value::Timestamp(number.cast_signed()),
        _ => unreachable!(),
    }
}

/// Reads the next sixteen bytes.
fn sixteen(w: Window, bytes: &[u8]) -> Result<([u8; 16], &[u8]), ReadFault>
    ensures read { Is (λ x. (big_number 16 x.0, x.1.now)) result (big_at w 16 bytes.now) }
    ensures rest { IfOk result (λ x. length x.1.now ≤ length bytes.now) }
{
    let (front, rest) = w.octets(16, bytes)?;
    let mut octets = [0u8; 16];
    octets.copy_from_slice(front);
    Ok((octets, rest))
}

/// Reads a value of fixed width, in its form.
#[tactic(auto, unfolding(crate::specs::Reading::number_at, crate::specs::Reading::form_at))]
pub fn fixed_value(
    w: Window,
    kind: Kind,
    form: Form,
    bytes: &[u8],
) -> Result<(Value, &[u8]), ReadFault>
    requires within { length bytes.now ≤ w.end }
    requires sound { FitsItsKind (Constructor.Fixed kind form) }
    ensures read { (left : Budget) → Is (λ x. (view x.0, left, x.1.now)) result (uncharged left (number_at w kind form bytes.now) (Number kind)) }
    ensures rest { IfOk result (λ x. length x.1.now ≤ length bytes.now) }
{
    match kind {
        Kind::Null => Ok((Value::Null, bytes)),
        Kind::Decimal128 => {
            let (octets, rest) = sixteen(w, bytes)?;
            Ok((Value::Decimal128(octets), rest))
        }
        Kind::Uuid => {
            let (octets, rest) = sixteen(w, bytes)?;
            Ok((Value::Uuid(octets), rest))
        }
        _ => {
            let (number, rest) = number_at(w, kind, form, bytes)?;
            Ok((number_value(kind, number), rest))
        }
    }
}

/// Returns the value of a code that has no data, except for the empty list.
#[inline(always)]
fn bare_value(code: u8) -> Option<Value>
    ensures { IfSome result (λ v. (inner : Option Level) (w : Window) (left : ℕ) (rest : List ℕ) → value_by inner w 0 (Some left) (code ∷ rest) ≡ Ok (view v, Some left, rest)) }
{
    let value = match code {
        0x40 => Value::Null,
        0x41 => Value::Boolean(true),
        0x42 => Value::Boolean(false),
        0x43 => Value::Uint(0),
        0x44 => Value::Ulong(0),
        _ => return None,
    };
    Some(value)
}

/// Returns the value of an unsigned number's code with one byte after it.
#[inline(always)]
fn byte_value(code: u8, byte: u8) -> Option<Value>
    ensures { IfSome result (λ v. (inner : Option Level) (w : Window) (left : ℕ) (rest : List ℕ) → value_by inner w 0 (Some left) (code ∷ byte ∷ rest) ≡ Ok (view v, Some left, rest)) }
{
    let value = match code {
        0x50 => Value::Ubyte(byte),
        0x52 => Value::Uint(u32::from(byte)),
        0x53 => Value::Ulong(u64::from(byte)),
        _ => return None,
    };
    Some(value)
}

/// Returns the value at the front and the bytes after it, if it has no data or is a one-byte unsigned number.
#[inline(always)]
pub fn small_value(bytes: &[u8]) -> Option<(Value, &[u8])>
    ensures read { IfSome result (λ x. (inner : Option Level) (w : Window) (left : ℕ) → value_by inner w 0 (Some left) bytes.now ≡ Ok (view x.0, Some left, x.1.now)) }
    ensures rest { IfSome result (λ x. length x.1.now ≤ length bytes.now) }
{
    let (code, rest) = bytes.split_first()?;
    if let Some(value) = bare_value(*code) {
        return Some((value, rest));
    }
    let (byte, behind) = rest.split_first()?;
    Some((byte_value(*code, *byte)?, behind))
}

/// Makes a value of the kind from a copy of its bytes.
pub fn octets_value(alloc: Global, kind: Kind, octets: &[u8]) -> Result<Value, ReadFault>
    requires variable { fixed_width kind ≡ None }
    requires holds_none { is_container kind ≡ false }
    requires of_kind { AreOctetsOf kind octets.now }
    ensures ok { IfOk result (λ v. view v ≡ Octets kind octets.now) }
    ensures err { IfErr result (λ e. e ≡ ReadFault.NoMemory) }
{
    let copy = Vec::from_slice(alloc, octets)?;
    match kind {
        Kind::Binary => Ok(Value::Binary(copy)),
        Kind::String => match String::from_utf8(copy) {
            Ok(text) => Ok(Value::String(text)),
            Err(_) => unreachable!(),
        },
        Kind::Symbol => match Symbol::new(copy) {
            Some(name) => Ok(Value::Symbol(name)),
            None => unreachable!(),
        },
        _ => unreachable!(),
    }
}
