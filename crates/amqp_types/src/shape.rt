//! What a value is made of.

ghost use Rattle.std.specs.Prelude.{◌≡◌};
ghost use Rattle.amqp_types.specs.declared.value.Value.{Value};
ghost use Rattle.amqp_types.specs.Canonical.{IsOfOctets};
ghost use Rattle.amqp_types.specs.Spelling.{AreOctetsOf};
ghost use Rattle.amqp_types.specs.Trees.{Octets};
ghost use Rattle.amqp_types.specs.Shapes.{tree_of, IsMadeOf, IsRangedShape};
ghost use Rattle.amqp_types.specs.Values.{view};

use crate::kind::Kind;
use crate::value::Value;
use byteorder::{BigEndian, ByteOrder};

/// A value, with what it holds borrowed. A number is that of its full form; signed ones are in
/// two's complement.
pub enum Shape<'a> {
    Number(Kind, u128),
    Octets(Kind, &'a [u8]),
    List(&'a Vec<Value>),
    Map(&'a Vec<(Value, Value)>),
    Array(&'a Vec<Value>, Kind, &'a Vec<Value>),
    Described(&'a Box<Value>, &'a Box<Value>),
}

/// Returns the shape of a value of the kind that has these bytes.
fn octets_shape(kind: Kind, octets: &[u8]) -> Shape<'_>
    requires kind { IsOfOctets kind }
    requires of_kind { AreOctetsOf kind octets.now }
    ensures seen { tree_of result ≡ Octets kind octets.now }
    ensures ranged { IsRangedShape result }
    ensures made { (v : Value) → IsMadeOf result v }
{
    Shape::Octets(kind, octets)
}

/// Returns what the value is made of.
pub fn shape_of(value: &Value) -> Shape<'_>
    ensures seen { view value.now ≡ tree_of result }
    ensures ranged { IsRangedShape result }
    ensures made { IsMadeOf result value.now }
{
    match value {
        Value::Null => Shape::Number(Kind::Null, 0),
        Value::Boolean(false) => Shape::Number(Kind::Boolean, 0),
        Value::Boolean(true) => Shape::Number(Kind::Boolean, 1),
        Value::Ubyte(n) => Shape::Number(Kind::Ubyte, *n as u128),
        Value::Ushort(n) => Shape::Number(Kind::Ushort, *n as u128),
        Value::Uint(n) => Shape::Number(Kind::Uint, *n as u128),
        Value::Ulong(n) => Shape::Number(Kind::Ulong, *n as u128),
        Value::Byte(n) => Shape::Number(Kind::Byte, n.cast_unsigned() as u128),
        Value::Short(n) => Shape::Number(Kind::Short, n.cast_unsigned() as u128),
        Value::Int(n) => Shape::Number(Kind::Int, n.cast_unsigned() as u128),
        Value::Long(n) => Shape::Number(Kind::Long, n.cast_unsigned() as u128),
        Value::Float(octets) => Shape::Number(Kind::Float, BigEndian::read_u32(octets) as u128),
        Value::Double(octets) => Shape::Number(Kind::Double, BigEndian::read_u64(octets) as u128),
        Value::Decimal32(octets) => {
            Shape::Number(Kind::Decimal32, BigEndian::read_u32(octets) as u128)
        }
        Value::Decimal64(octets) => {
            Shape::Number(Kind::Decimal64, BigEndian::read_u64(octets) as u128)
        }
        Value::Decimal128(octets) => Shape::Number(Kind::Decimal128, BigEndian::read_u128(octets)),
        Value::Char(c) => Shape::Number(Kind::Char, *c as u128),
        Value::Timestamp(n) => Shape::Number(Kind::Timestamp, n.cast_unsigned() as u128),
        Value::Uuid(octets) => Shape::Number(Kind::Uuid, BigEndian::read_u128(octets)),
        Value::Binary(octets) => octets_shape(Kind::Binary, octets),
        Value::String(text) => octets_shape(Kind::String, text.as_str().as_bytes()),
        Value::Symbol(name) => octets_shape(Kind::Symbol, name.as_bytes()),
        Value::List(items) => Shape::List(items),
        Value::Map(entries) => Shape::Map(entries),
        Value::Array {
            descriptors,
            kind,
            items,
        } => Shape::Array(descriptors, *kind, items),
        Value::Described(descriptor, described) => Shape::Described(descriptor, described),
    }
}
