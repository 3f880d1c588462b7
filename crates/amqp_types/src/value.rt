//! Values in memory.

use crate::kind::Kind;
use crate::symbol::Symbol;

/// A value of AMQP, read or to be written. [1.1; 1.6]
///
/// Floats and decimals are the bytes of their full form: no arithmetic is done on them.
#[derive(Debug, Drop)]
pub enum Value {
    Null,
    Boolean(bool),
    Ubyte(u8),
    Ushort(u16),
    Uint(u32),
    Ulong(u64),
    Byte(i8),
    Short(i16),
    Int(i32),
    Long(i64),
    Float([u8; 4]),
    Double([u8; 8]),
    Decimal32([u8; 4]),
    Decimal64([u8; 8]),
    Decimal128([u8; 16]),
    Char(char),
    /// Milliseconds since the beginning of 1970, UTC.
    Timestamp(i64),
    Uuid([u8; 16]),
    Binary(Vec<u8>),
    String(String),
    Symbol(Symbol),
    List(Vec<Value>),
    /// Keys and values, in order. No two keys of a lawful map are equal.
    Map(Vec<(Value, Value)>),
    /// Items of one kind, each under the same descriptors, outermost first.
    Array {
        descriptors: Vec<Value>,
        kind: Kind,
        items: Vec<Value>,
    },
    /// A descriptor, and the value that it describes.
    Described(Box<Value>, Box<Value>),
}
