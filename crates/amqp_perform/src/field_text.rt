//! What is written in a field: the canonical spelling of its value. [1.6]

ghost use Rattle.std.specs.Prelude.{◌≡◌, ◌+◌, ◌≤◌, length, ◌++◌};
ghost use Rattle.amqp_types.specs.declared.kind.Kind.{Kind};
ghost use Rattle.amqp_types.specs.Canonical.{canonical};
ghost use Rattle.amqp_types.specs.Trees.{Number, Octets};
ghost use Rattle.amqp_perform.specs.Frames.{octets_text, Writes};

use crate::fields::NULL;

/// What is written in a field.
#[derive(Clone, Copy)]
pub enum FieldText<'a> {
    /// The field is absent, or equal to its default.
    Null,
    Boolean(bool),
    Ubyte(u8),
    Ushort(u16),
    Uint(u32),
    Binary(&'a [u8]),
    String(&'a str),
    /// A value that is spelled already.
    Span(&'a [u8]),
}

impl<'a> FieldText<'a> {
    ghost use Rattle.std.specs.Prelude.{◌≡◌, ◌+◌, ◌≤◌, length, option_copied};
    ghost use Rattle.std.specs.Str.{bytes_eq};
    ghost use Rattle.amqp_perform.specs.Cells.{Whole};
    ghost use Rattle.amqp_perform.specs.Frames.{null_text, cell_text, written_text, field_spelling, Writes};
    ghost use Rattle.amqp_perform.specs.Performatives.{flag, optional_flag, optional_whole, optional_bytes, span};
    ghost use Rattle.amqp_perform.specs.Tables.{boolean, ubyte_to, ushort, uint, binary, spanned};
    ghost use Rattle.amqp_perform.specs.Tables as absence;

    /// Makes the text of a value that is spelled already; an empty span is an absent field.
    pub fn span(text: &'a [u8]) -> FieldText<'a>
        ensures { field_spelling result ≡ cell_text spanned (span text.now) }
    {
        if text.is_empty() {
            FieldText::Null
        } else {
            FieldText::Span(text)
        }
    }

    /// Makes the text of a boolean that is false by default.
    pub fn flag(value: bool) -> FieldText<'a>
        ensures { field_spelling result ≡ written_text boolean (absence.default 0) (flag value) }
    {
        if value {
            FieldText::Boolean(true)
        } else {
            FieldText::Null
        }
    }

    pub fn ubyte_unless(number: u8, default: u8) -> FieldText<'a>
        ensures { field_spelling result ≡ written_text (ubyte_to 255) (absence.default default) (Whole number) }
    {
        if number == default {
            FieldText::Null
        } else {
            FieldText::Ubyte(number)
        }
    }

    pub fn ushort_unless(number: u16, default: u16) -> FieldText<'a>
        ensures { field_spelling result ≡ written_text ushort (absence.default default) (Whole number) }
    {
        if number == default {
            FieldText::Null
        } else {
            FieldText::Ushort(number)
        }
    }

    pub fn uint_unless(number: u32, default: u32) -> FieldText<'a>
        ensures { field_spelling result ≡ written_text uint (absence.default default) (Whole number) }
    {
        if number == default {
            FieldText::Null
        } else {
            FieldText::Uint(number)
        }
    }

    pub fn optional_boolean(value: Option<bool>) -> FieldText<'a>
        ensures { field_spelling result ≡ cell_text boolean (optional_flag value) }
    {
        match value {
            None => FieldText::Null,
            Some(value) => FieldText::Boolean(value),
        }
    }

    pub fn optional_ushort(number: Option<u16>) -> FieldText<'a>
        ensures { field_spelling result ≡ cell_text ushort (optional_whole number) }
    {
        match number {
            None => FieldText::Null,
            Some(number) => FieldText::Ushort(number),
        }
    }

    pub fn optional_uint(number: Option<u32>) -> FieldText<'a>
        ensures { field_spelling result ≡ cell_text uint (optional_whole number) }
    {
        match number {
            None => FieldText::Null,
            Some(number) => FieldText::Uint(number),
        }
    }

    pub fn optional_binary(octets: Option<&'a [u8]>) -> FieldText<'a>
        ensures { field_spelling result ≡ cell_text binary (optional_bytes (option_copied octets.entry)) }
    {
        match octets {
            None => FieldText::Null,
            Some(octets) => FieldText::Binary(octets),
        }
    }

    /// Returns whether it is spelled as null.
    pub fn is_null(&self) -> bool
        ensures { result ≡ bytes_eq (field_spelling self.now) null_text }
    {
        match *self {
            FieldText::Null => true,
            FieldText::Span(text) => text == [NULL].as_slice(),
            _ => false,
        }
    }

    /// Returns how many bytes spell it.
    #[inline(always)]
    pub fn width(&self) -> usize
        ensures { result ≡ length (field_spelling self.now) }
    {
        match *self {
            FieldText::Null | FieldText::Boolean(_) => 1,
            FieldText::Ubyte(_) => 2,
            FieldText::Ushort(_) => 3,
            FieldText::Uint(number) => uint_width(number),
            FieldText::Binary(octets) => octets_width(octets),
            FieldText::String(text) => octets_width(text.as_bytes()),
            FieldText::Span(text) => text.len(),
        }
    }

    /// Writes it at `at`, and returns the place after it.
    #[inline(always)]
    pub fn write(&self, out: &mut [u8], at: usize) -> usize
        requires { at + length (field_spelling self.now) ≤ length out.old }
        ensures behind { result ≡ at + length (field_spelling self.now) }
        ensures written { Writes at (field_spelling self.now) out.old out.new }
    {
        match *self {
            FieldText::Null => put(out, at, &[NULL]),
            FieldText::Boolean(value) => put(out, at, &[if value { 0x41 } else { 0x42 }]),
            FieldText::Ubyte(number) => put(out, at, &[0x50, number]),
            FieldText::Ushort(number) => {
                let [first, last] = number.to_be_bytes();
                put(out, at, &[0x60, first, last])
            }
            FieldText::Uint(number) => put_uint(out, at, number),
            FieldText::Binary(octets) => put_octets(out, at, 0xa0, 0xb0, octets),
            FieldText::String(text) => put_octets(out, at, 0xa1, 0xb1, text.as_bytes()),
            FieldText::Span(text) => put(out, at, text),
        }
    }
}

/// Returns how many bytes spell a uint. [1.6.5]
#[inline(always)]
fn uint_width(number: u32) -> usize
    ensures { result ≡ length (canonical (Number Kind.Uint number)) }
{
    match number {
        0 => 1,
        1..=255 => 2,
        _ => 5,
    }
}

/// Writes a uint at `at`, and returns the place after it. [1.6.5]
#[inline(always)]
pub fn put_uint(out: &mut [u8], at: usize, number: u32) -> usize
    requires { at + length (canonical (Number Kind.Uint number)) ≤ length out.old }
    ensures behind { result ≡ at + length (canonical (Number Kind.Uint number)) }
    ensures written { Writes at (canonical (Number Kind.Uint number)) out.old out.new }
{
    match number {
        0 => put(out, at, &[0x43]),
        1..=255 => put(out, at, &[0x52, number as u8]),
        _ => put_both(out, at, &[0x70], &number.to_be_bytes()),
    }
}

/// Returns how many bytes spell a binary or a string. [1.6.19; 1.6.20]
fn octets_width(octets: &[u8]) -> usize
    ensures binary { result ≡ length (canonical (Octets Kind.Binary octets.now)) }
    ensures string { result ≡ length (canonical (Octets Kind.String octets.now)) }
{
    let len = octets.len();
    if len < 256 { 2 + len } else { 5 + len }
}

/// Writes a code, a size and the bytes at `at`, and returns the place after them. [1.6.19; 1.6.20]
///
/// It is the first code with a size of one byte if that is enough, and else the second with a size of four. If
/// even that is not enough, the size written is too small, but no frame has room for the bytes.
fn put_octets(out: &mut [u8], at: usize, small: u8, large: u8, octets: &[u8]) -> usize
    requires { at + length (octets_text small large octets.now) ≤ length out.old }
    ensures behind { result ≡ at + length (octets_text small large octets.now) }
    ensures written { Writes at (octets_text small large octets.now) out.old out.new }
{
    let len = octets.len();
    let [_, _, _, _, first, second, third, last] = len.to_be_bytes();
    if len < 256 {
        put_both(out, at, &[small, last], octets)
    } else {
        put_both(out, at, &[large, first, second, third, last], octets)
    }
}

/// Writes the bytes into `out` at `at`, and returns the place after them.
#[inline(always)]
pub fn put(out: &mut [u8], at: usize, bytes: &[u8]) -> usize
    requires { at + length bytes.now ≤ length out.old }
    ensures behind { result ≡ at + length bytes.now }
    ensures written { Writes at bytes.now out.old out.new }
{
    let end = at + bytes.len();
    out[at..end].copy_from_slice(bytes);
    end
}

/// Writes some bytes into `out` at `at` and others after them, and returns the place after both.
#[inline(always)]
pub fn put_both(out: &mut [u8], at: usize, first: &[u8], second: &[u8]) -> usize
    requires { at + length first.now + length second.now ≤ length out.old }
    ensures behind { result ≡ at + length first.now + length second.now }
    ensures written { Writes at (first.now ++ second.now) out.old out.new }
{
    let end = put(out, at, first);
    put(out, end, second)
}
