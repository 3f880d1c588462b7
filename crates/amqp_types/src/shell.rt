//! What stands around the content of a value.

ghost use Rattle.std.specs.Prelude.{◌≡◌};
ghost use Rattle.amqp_types.specs.Canonical.{full_code, by_size, boolean_form, unsigned_form, signed_form, short_form, narrowest};

use crate::code::SizeWidth;
use crate::kind::Kind;

/// What of a value stands around its content. Counts are those of the parts, and a map's keys and
/// values are counted together. Numbers are those of the full form.
#[derive(Clone, Copy, Debug)]
pub enum Shell {
    Number(Kind, u128),
    Octets(Kind),
    List(usize),
    Map(usize),
    Array(usize),
    Described,
}

/// A spelling of a number that is shorter than its full form.
#[derive(Clone, Copy, Debug)]
pub enum Short {
    /// A code, and no data.
    Code(u8),
    /// A code, and one byte.
    Byte(u8, u8),
}

/// Returns the code of a kind's full form, or of the kind with a size of that width. [1.6]
pub fn full_code(size: SizeWidth, kind: Kind) -> u8
    ensures { result ≡ full_code size kind }
{
    match kind {
        Kind::Null => 0x40,
        Kind::Boolean => 0x56,
        Kind::Ubyte => 0x50,
        Kind::Ushort => 0x60,
        Kind::Uint => 0x70,
        Kind::Ulong => 0x80,
        Kind::Byte => 0x51,
        Kind::Short => 0x61,
        Kind::Int => 0x71,
        Kind::Long => 0x81,
        Kind::Float => 0x72,
        Kind::Double => 0x82,
        Kind::Decimal32 => 0x74,
        Kind::Decimal64 => 0x84,
        Kind::Decimal128 => 0x94,
        Kind::Char => 0x73,
        Kind::Timestamp => 0x83,
        Kind::Uuid => 0x98,
        Kind::Binary => by_size(size, 0xa0, 0xb0),
        Kind::String => by_size(size, 0xa1, 0xb1),
        Kind::Symbol => by_size(size, 0xa3, 0xb3),
        Kind::List => by_size(size, 0xc0, 0xd0),
        Kind::Map => by_size(size, 0xc1, 0xd1),
        Kind::Array => by_size(size, 0xe0, 0xf0),
    }
}

fn by_size(size: SizeWidth, one: u8, four: u8) -> u8
    ensures { result ≡ by_size size one four }
{
    match size {
        SizeWidth::One => one,
        SizeWidth::Four => four,
    }
}

/// Returns the width of size fields that is enough: one byte if `small`, and else four.
pub fn narrowest(small: bool) -> SizeWidth
    ensures { result ≡ narrowest small }
{
    if small {
        SizeWidth::One
    } else {
        SizeWidth::Four
    }
}

fn boolean_form(number: u128) -> Option<Short>
    ensures { result ≡ boolean_form number }
{
    match number {
        0 => Some(Short::Code(0x42)),
        1 => Some(Short::Code(0x41)),
        _ => None,
    }
}

fn unsigned_form(zero: u8, code: u8, number: u128) -> Option<Short>
    ensures { result ≡ unsigned_form zero code number }
{
    if number == 0 {
        Some(Short::Code(zero))
    } else if number < 256 {
        Some(Short::Byte(code, number as u8))
    } else {
        None
    }
}

/// `least` is the full form of -128.
fn signed_form(code: u8, least: u128, number: u128) -> Option<Short>
    ensures { result ≡ signed_form code least number }
{
    if number < 128 || least <= number {
        Some(Short::Byte(code, (number % 256) as u8))
    } else {
        None
    }
}

/// Returns the spelling of a number that is shorter than its full form, if there is one. [1.6]
pub fn short_form(kind: Kind, number: u128) -> Option<Short>
    ensures { result ≡ short_form kind number }
{
    match kind {
        Kind::Boolean => boolean_form(number),
        Kind::Uint => unsigned_form(0x43, 0x52, number),
        Kind::Ulong => unsigned_form(0x44, 0x53, number),
        Kind::Int => signed_form(0x54, 0xffff_ff80, number),
        Kind::Long => signed_form(0x55, 0xffff_ffff_ffff_ff80, number),
        _ => None,
    }
}
