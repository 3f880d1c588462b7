//! The outermost case of a spelled value, with its parts borrowed.

ghost use Rattle.std.specs.Prelude.{◌≡◌, ℕ, ◌≤◌, List, ◌∷◌, ◌++◌, length};
ghost use Rattle.amqp_types.specs.Codes.{FitsItsKind};
ghost use Rattle.amqp_types.specs.Peeks.{BeginsWithValue, IsOutermost, IsCaseFound, IsFoundBehind};
ghost use Rattle.amqp_types.specs.Spelling.{Spells};
ghost use Rattle.amqp_types.specs.Trees.{Tree, Described};

use crate::block::{block_at, count_at};
use crate::code::{Constructor, Form, SizeWidth};
use crate::fault::ReadFault;
use crate::kind::Kind;
use crate::peeked::Peek;
use crate::scalar::{allowed, number_at, size_len};
use crate::skipper::skip;
use crate::window::Window;

fn number_case(w: Window, kind: Kind, form: Form, bytes: &[u8]) -> Result<Peek<'_>, ReadFault>
    requires within { length bytes.now ≤ w.end }
    requires sound { FitsItsKind (Constructor.Fixed kind form) }
    ensures { IsFoundBehind (Constructor.Fixed kind form) bytes.now result }
{
    match kind {
        Kind::Null => Ok(Peek::Null),
        Kind::Boolean => {
            let (number, _) = number_at(w, kind, form, bytes)?;
            Ok(Peek::Boolean(number == 1))
        }
        Kind::Ubyte | Kind::Ushort | Kind::Uint | Kind::Ulong => {
            let (number, _) = number_at(w, kind, form, bytes)?;
            Ok(Peek::Unsigned(kind, number))
        }
        _ => Ok(Peek::Other),
    }
}

fn octets_case(w: Window, kind: Kind, size: SizeWidth, bytes: &[u8]) -> Result<Peek<'_>, ReadFault>
    requires within { length bytes.now ≤ w.end }
    requires sound { FitsItsKind (Constructor.Variable kind size) }
    ensures { IsFoundBehind (Constructor.Variable kind size) bytes.now result }
{
    let (len, rest) = w.big(size_len(size), bytes)?;
    let (octets, _) = w.octets(len as usize, rest)?;
    match kind {
        Kind::Binary => Ok(Peek::Binary(octets)),
        Kind::Symbol => Ok(Peek::Symbol(octets)),
        Kind::String => match simdutf8::basic::from_utf8(octets) {
            Ok(text) => Ok(Peek::String(text)),
            Err(_) => Err(ReadFault::BadText(w.place(rest))),
        },
        _ => unreachable!(),
    }
}

fn list_case(w: Window, size: SizeWidth, bytes: &[u8]) -> Result<Peek<'_>, ReadFault>
    requires { length bytes.now ≤ w.end }
    ensures { IsFoundBehind (Constructor.ListIn size) bytes.now result }
{
    let block = block_at(w, size, size_len(size), bytes)?;
    let (count, items) = count_at(block.within, size, false, block.body)?;
    Ok(Peek::List(count, items))
}

/// Returns the spellings of a descriptor and what it describes. Neither is deeper than it has bytes.
fn described_case(bytes: &[u8]) -> Result<Peek<'_>, ReadFault>
    ensures { (d t : Tree) (first second rest : List ℕ) → Spells d first → Spells t second
        → bytes.now ≡ first ++ (second ++ rest) → IsCaseFound (Described d t) (0 ∷ (first ++ second)) result }
{
    let (descriptor, rest) = bytes.split_at(skip(bytes, bytes.len())?);
    let len = skip(rest, rest.len())?;
    Ok(Peek::Described(descriptor, &rest[..len]))
}

/// Returns the outermost case of a value; `bytes` are those after its constructor.
fn item_case(constructor: Constructor, w: Window, bytes: &[u8]) -> Result<Peek<'_>, ReadFault>
    requires within { length bytes.now ≤ w.end }
    requires sound { FitsItsKind constructor }
    ensures { IsFoundBehind constructor bytes.now result }
{
    match constructor {
        Constructor::Fixed(kind, form) => number_case(w, kind, form, bytes),
        Constructor::Variable(kind, size) => octets_case(w, kind, size, bytes),
        Constructor::EmptyList => Ok(Peek::List(0, &[])),
        Constructor::ListIn(size) => list_case(w, size, bytes),
        Constructor::MapIn(_) | Constructor::ArrayIn(_) => Ok(Peek::Other),
    }
}

/// Returns the outermost case of the value at the front.
fn case_at(w: Window, bytes: &[u8]) -> Result<Peek<'_>, ReadFault>
    requires { length bytes.now ≤ w.end }
    ensures { (t : Tree) (text rest : List ℕ) → Spells t text → bytes.now ≡ text ++ rest → IsCaseFound t text result }
{
    let Some((code, rest)) = bytes.split_first() else {
        return Err(w.short);
    };
    if *code == 0 {
        return described_case(rest);
    }
    let constructor = allowed(w.place(bytes), *code, true)?;
    item_case(constructor, w, rest)
}

/// Returns the outermost case of the value that the bytes begin with; its caller knows that there is one. [1.2]
///
/// Bytes may follow it. No memory is taken. Only the head of a list is read. A descriptor and what it describes
/// are skipped; their depth bounds the depth of the stack.
pub fn peek(bytes: &[u8]) -> Peek<'_>
    requires { BeginsWithValue bytes.now }
    ensures { (t : Tree) (text rest : List ℕ) → Spells t text → bytes.now ≡ text ++ rest → IsOutermost t text result }
{
    match case_at(Window::of(bytes), bytes) {
        Ok(case) => case,
        Err(_) => unreachable!(),
    }
}
