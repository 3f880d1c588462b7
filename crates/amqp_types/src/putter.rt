//! Writing a scalar in its canonical spelling, into a buffer.

ghost use Rattle.std.specs.Prelude.{◌≡◌, ℕ, ◌+◌, ◌^◌, ◌<◌, ◌≤◌, ◌∷◌, ◌++◌, length, take, drop, slice_index, IfSome, IfNone, ◌↔◌, IsTrue};
ghost use Rattle.amqp_types.specs.Canonical.{canonical};
ghost use Rattle.amqp_types.specs.Kinds.{width};
ghost use Rattle.amqp_types.specs.Peeks.{IsUnsigned, IsScalarOf, IsPut};
ghost use Rattle.amqp_types.specs.Spelling.{Spells};
ghost use Rattle.amqp_types.specs.Trees.{Tree, Number, Octets};

use crate::code::SizeWidth;
use crate::kind::{Kind, width};
use crate::peeked::Peek;
use crate::shell::{Short, full_code, short_form};

/// Overwrites the bytes at place `at`.
fn write_at(at: usize, bytes: &[u8], out: &mut [u8])
    requires { at + length bytes.now ≤ length out.old }
    ensures written { take (at + length bytes.now) out.new ≡ take at out.old ++ bytes.now }
    ensures behind { drop (at + length bytes.now) out.new ≡ drop (at + length bytes.now) out.old }
{
    out[at..at + bytes.len()].copy_from_slice(bytes);
}

/// Writes a code, a size and the data at the front, if all of them fit; returns their length.
fn put_parts(code: u8, size: &[u8], bytes: &[u8], out: &mut [u8]) -> Option<usize>
    requires { 1 + length size.now + length bytes.now < 2 ^ 64 }
    ensures some { IfSome result (IsPut (code ∷ (size.now ++ bytes.now)) out.old out.new) }
    ensures none { IfNone result (length out.old < length (code ∷ (size.now ++ bytes.now))) }
    ensures unchanged { IfNone result (out.new ≡ out.old) }
{
    let start = 1 + size.len();
    let end = start + bytes.len();
    if out.len() < end {
        return None;
    }
    write_at(0, &[code], out);
    write_at(1, size, out);
    write_at(start, bytes, out);
    Some(end)
}

fn put_number(kind: Kind, number: u64, out: &mut [u8]) -> Option<usize>
    requires { width kind ≤ 8 }
    ensures some { IfSome result (IsPut (canonical (Number kind number)) out.old out.new) }
    ensures none { IfNone result (length out.old < length (canonical (Number kind number))) }
    ensures unchanged { IfNone result (out.new ≡ out.old) }
{
    match short_form(kind, number as u128) {
        Some(Short::Code(code)) => put_parts(code, &[], &[], out),
        Some(Short::Byte(code, byte)) => put_parts(code, &[], &[byte], out),
        None => {
            let bytes = number.to_be_bytes();
            let code = full_code(SizeWidth::One, kind);
            put_parts(code, &[], &bytes[8 - width(kind)..], out)
        }
    }
}

/// Writes a value of variable width, if it has less than 2^32 bytes and `out` has room.
fn put_octets(kind: Kind, octets: &[u8], out: &mut [u8]) -> Option<usize>
    ensures some { IfSome result (IsPut (canonical (Octets kind octets.now)) out.old out.new) }
    ensures counted { IfSome result (λ n. length octets.now < 2 ^ 32) }
    ensures bytes { (i : ℕ) → slice_index octets.now i < 256 }
    ensures none { IfNone result (length octets.now < 2 ^ 32
        → length out.old < length (canonical (Octets kind octets.now))) }
    ensures unchanged { IfNone result (out.new ≡ out.old) }
{
    let len = octets.len();
    if len < 256 {
        let code = full_code(SizeWidth::One, kind);
        put_parts(code, &[len as u8], octets, out)
    } else if len < 1 << 32 {
        let code = full_code(SizeWidth::Four, kind);
        put_parts(code, &(len as u32).to_be_bytes(), octets, out)
    } else {
        None
    }
}

/// Whether the kind is that of an unsigned number and the number is in its range.
fn is_unsigned(kind: Kind, number: u64) -> bool
    ensures { IsTrue result ↔ IsUnsigned kind × (number < 256 ^ width kind) }
{
    match kind {
        Kind::Ubyte => number < 1 << 8,
        Kind::Ushort => number < 1 << 16,
        Kind::Uint => number < 1 << 32,
        Kind::Ulong => true,
        _ => false,
    }
}

/// Writes the canonical spelling of a scalar at the front of `out`, and returns its length in bytes. [1.2; 1.6]
///
/// Scalars are null, booleans, unsigned numbers, strings, symbols and binaries. Returns `None` and leaves `out`
/// as it was, if the case is none of these, is not valid for its kind, or has no room in `out`. Not valid are a
/// number too large for its kind, a symbol with a byte at or above 0x80, and 2^32 bytes or more. No memory is
/// taken.
pub fn put(value: &Peek<'_>, out: &mut [u8]) -> Option<usize>
    // What is written is the canonical spelling, and it spells the value.
    ensures some { IfSome result (λ n. (t : Tree) × IsScalarOf t value.now × Spells t (canonical t)
        × IsPut (canonical t) out.old out.new n) }
    ensures none { IfNone result ((t : Tree) → IsScalarOf t value.now → length out.old < length (canonical t)) }
    ensures unchanged { IfNone result (out.new ≡ out.old) }
{
    match value {
        Peek::Null => put_number(Kind::Null, 0, out),
        Peek::Boolean(false) => put_number(Kind::Boolean, 0, out),
        Peek::Boolean(true) => put_number(Kind::Boolean, 1, out),
        Peek::Unsigned(kind, number) if is_unsigned(*kind, *number) => {
            put_number(*kind, *number, out)
        }
        Peek::String(text) => put_octets(Kind::String, text.as_bytes(), out),
        Peek::Symbol(octets) if octets.is_ascii() => put_octets(Kind::Symbol, octets, out),
        Peek::Binary(octets) => put_octets(Kind::Binary, octets, out),
        _ => None,
    }
}
