//! The codes of the constructors.

ghost use Rattle.std.specs.Prelude.{◌≡◌};
ghost use Rattle.amqp_types.specs.Codes.{find_code, kind_of};

use crate::kind::Kind;

/// How the data after a code give a fixed-width value. [1.2.1; 1.6]
#[derive(Clone, Copy, Debug, PartialEq, Eq)]
pub enum Form {
    /// The number 0, and no data.
    Zero,
    /// The number 1, and no data.
    One,
    /// One byte, a number below 256.
    OneByte,
    /// One byte, in two's complement.
    OneSigned,
    /// As many bytes as the kind has, big-endian.
    Full,
}

/// How many bytes the size field before the data takes. [1.2.2]
#[derive(Clone, Copy, Debug, PartialEq, Eq)]
pub enum SizeWidth {
    One,
    Four,
}

/// What a code stands for. [1.2]
#[derive(Clone, Copy, Debug, PartialEq, Eq)]
pub enum Constructor {
    Fixed(Kind, Form),
    Variable(Kind, SizeWidth),
    EmptyList,
    ListIn(SizeWidth),
    MapIn(SizeWidth),
    ArrayIn(SizeWidth),
}

/// Returns the constructor of a code; `None` if none has it. Every reader uses this table.
// For `dump` and `texts`: each reader then branches on the code itself (docs/PERF.md).
#[inline(always)]
pub fn find_code(code: u8) -> Option<Constructor>
    ensures { result ≡ find_code code }
{
    let constructor = match code {
        0x40 => Constructor::Fixed(Kind::Null, Form::Full),
        0x41 => Constructor::Fixed(Kind::Boolean, Form::One),
        0x42 => Constructor::Fixed(Kind::Boolean, Form::Zero),
        0x43 => Constructor::Fixed(Kind::Uint, Form::Zero),
        0x44 => Constructor::Fixed(Kind::Ulong, Form::Zero),
        0x45 => Constructor::EmptyList,
        0x50 => Constructor::Fixed(Kind::Ubyte, Form::Full),
        0x51 => Constructor::Fixed(Kind::Byte, Form::Full),
        0x52 => Constructor::Fixed(Kind::Uint, Form::OneByte),
        0x53 => Constructor::Fixed(Kind::Ulong, Form::OneByte),
        0x54 => Constructor::Fixed(Kind::Int, Form::OneSigned),
        0x55 => Constructor::Fixed(Kind::Long, Form::OneSigned),
        0x56 => Constructor::Fixed(Kind::Boolean, Form::Full),
        0x60 => Constructor::Fixed(Kind::Ushort, Form::Full),
        0x61 => Constructor::Fixed(Kind::Short, Form::Full),
        0x70 => Constructor::Fixed(Kind::Uint, Form::Full),
        0x71 => Constructor::Fixed(Kind::Int, Form::Full),
        0x72 => Constructor::Fixed(Kind::Float, Form::Full),
        0x73 => Constructor::Fixed(Kind::Char, Form::Full),
        0x74 => Constructor::Fixed(Kind::Decimal32, Form::Full),
        0x80 => Constructor::Fixed(Kind::Ulong, Form::Full),
        0x81 => Constructor::Fixed(Kind::Long, Form::Full),
        0x82 => Constructor::Fixed(Kind::Double, Form::Full),
        0x83 => Constructor::Fixed(Kind::Timestamp, Form::Full),
        0x84 => Constructor::Fixed(Kind::Decimal64, Form::Full),
        0x94 => Constructor::Fixed(Kind::Decimal128, Form::Full),
        0x98 => Constructor::Fixed(Kind::Uuid, Form::Full),
        0xa0 => Constructor::Variable(Kind::Binary, SizeWidth::One),
        0xa1 => Constructor::Variable(Kind::String, SizeWidth::One),
        0xa3 => Constructor::Variable(Kind::Symbol, SizeWidth::One),
        0xb0 => Constructor::Variable(Kind::Binary, SizeWidth::Four),
        0xb1 => Constructor::Variable(Kind::String, SizeWidth::Four),
        0xb3 => Constructor::Variable(Kind::Symbol, SizeWidth::Four),
        0xc0 => Constructor::ListIn(SizeWidth::One),
        0xd0 => Constructor::ListIn(SizeWidth::Four),
        0xc1 => Constructor::MapIn(SizeWidth::One),
        0xd1 => Constructor::MapIn(SizeWidth::Four),
        0xe0 => Constructor::ArrayIn(SizeWidth::One),
        0xf0 => Constructor::ArrayIn(SizeWidth::Four),
        _ => return None,
    };
    Some(constructor)
}

/// Returns the kind of the values that a constructor makes.
pub(crate) fn kind_of(constructor: Constructor) -> Kind
    ensures { result ≡ kind_of constructor }
{
    match constructor {
        Constructor::Fixed(kind, _) | Constructor::Variable(kind, _) => kind,
        Constructor::EmptyList | Constructor::ListIn(_) => Kind::List,
        Constructor::MapIn(_) => Kind::Map,
        Constructor::ArrayIn(_) => Kind::Array,
    }
}
