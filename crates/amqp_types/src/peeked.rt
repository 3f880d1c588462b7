//! The outermost case of a value.

use crate::kind::Kind;

/// The outermost case of a value. What it holds is borrowed from its spelling. [1.1; 1.6]
#[derive(Clone, Copy, Debug, PartialEq, Eq)]
pub enum Peek<'a> {
    Null,
    Boolean(bool),
    /// A number of the kind ubyte, ushort, uint or ulong.
    Unsigned(Kind, u64),
    String(&'a str),
    /// The bytes of a symbol, each below 0x80.
    Symbol(&'a [u8]),
    Binary(&'a [u8]),
    /// How many items a list has, and their spellings, joined.
    List(usize, &'a [u8]),
    /// The spelling of the descriptor, and that of the value that it describes.
    Described(&'a [u8], &'a [u8]),
    /// A value of any other kind.
    Other,
}
