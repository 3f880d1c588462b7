//! Parts of a spelling: values whose content is spelled.

ghost use Rattle.std.specs.Prelude.{◌≡◌, ◌<◌, ◌+◌, ◌^◌, ◌++◌, ◌&&◌, nat_lt, length, OnOk, true};
ghost use Rattle.byteorder.specs.Endian.{big_bytes};
ghost use Rattle.amqp_types.specs.Kinds.{width};
ghost use Rattle.amqp_types.specs.Spelling.{size_len};
ghost use Rattle.amqp_types.specs.Canonical.{block, full_data, is_small, has_room, short_text, sized, shortest};

use crate::code::SizeWidth;
use crate::kind::{Kind, width};
use crate::shell::{Shell, Short, full_code, narrowest, short_form};
use std::alloc::AllocError;

/// The content of a value, and its shell. Its size and its count fit four bytes.
#[derive(Debug, Drop)]
pub struct Part {
    pub shell: Shell,
    pub content: Vec<u8>,
    ghost roomy: { has_room shell content.items ≡ true },
}

/// Whether the size and the count of the value fit four bytes.
pub fn has_room(shell: Shell, content: &[u8]) -> bool
    ensures { result ≡ has_room shell content.now }
{
    match shell {
        Shell::Number(_, _) => true,
        Shell::Octets(_) => content.len() < 1 << 32,
        Shell::List(count) => block_has_room(count, content.len()),
        Shell::Map(count) => block_has_room(count, content.len()),
        Shell::Array(count) => block_has_room(count, content.len()),
        Shell::Described => true,
    }
}

fn block_has_room(count: usize, len: usize) -> bool
    ensures { result ≡ (nat_lt count (2 ^ 32) && nat_lt (4 + len) (2 ^ 32)) }
{
    count < 1 << 32 && len < (1 << 32) - 4
}

/// Appends the number in as many bytes as the kind has.
fn write_number(kind: Kind, number: u128, out: &mut Vec<u8>) -> Result<(), AllocError>
    ensures { OnOk result (out.new.items ≡ out.old.items ++ big_bytes (width kind) number) }
{
    let bytes = number.to_be_bytes();
    out.extend_from_slice(&bytes[16 - width(kind)..])
}

/// Appends a size or a count.
fn write_length(size: SizeWidth, length: usize, out: &mut Vec<u8>) -> Result<(), AllocError>
    requires { length < 256 ^ size_len size }
    ensures { OnOk result (out.new.items ≡ out.old.items ++ big_bytes (size_len size) length) }
{
    match size {
        SizeWidth::One => out.extend_from_slice(&[length as u8]),
        SizeWidth::Four => out.extend_from_slice(&(length as u32).to_be_bytes()),
    }
}

fn size_len(size: SizeWidth) -> usize
    ensures { result ≡ size_len size }
{
    match size {
        SizeWidth::One => 1,
        SizeWidth::Four => 4,
    }
}

/// Appends a size, a count and the content.
fn write_block(
    size: SizeWidth,
    count: usize,
    content: &[u8],
    out: &mut Vec<u8>,
) -> Result<(), AllocError>
    requires count { count < 256 ^ size_len size }
    requires size { size_len size + length content.now < 256 ^ size_len size }
    ensures { OnOk result (out.new.items ≡ out.old.items ++ block size count content.now) }
{
    write_length(size, size_len(size) + content.len(), out)?;
    write_length(size, count, out)?;
    out.extend_from_slice(content)
}

fn write_octets(size: SizeWidth, octets: &[u8], out: &mut Vec<u8>) -> Result<(), AllocError>
    requires { length octets.now < 256 ^ size_len size }
    ensures { OnOk result
        (out.new.items ≡ out.old.items ++ (big_bytes (size_len size) (length octets.now) ++ octets.now)) }
{
    write_length(size, octets.len(), out)?;
    out.extend_from_slice(octets)
}

fn write_short(short: Short, out: &mut Vec<u8>) -> Result<(), AllocError>
    ensures { OnOk result (out.new.items ≡ out.old.items ++ short_text short) }
{
    match short {
        Short::Code(code) => out.extend_from_slice(&[code]),
        Short::Byte(code, byte) => out.extend_from_slice(&[code, byte]),
    }
}

impl Part {
    /// Whether the size, and the count, are at most 255.
    pub fn is_small(&self) -> bool
        ensures { result ≡ is_small self.now.shell self.now.content.items }
    {
        match self.shell {
            Shell::Number(_, _) => true,
            Shell::Octets(_) => self.content.len() < 256,
            Shell::List(count) => count < 256 && self.content.len() < 255,
            Shell::Map(count) => count < 256 && self.content.len() < 255,
            Shell::Array(count) => count < 256 && self.content.len() < 255,
            Shell::Described => true,
        }
    }

    /// Appends the data that come after the code of the full form.
    pub fn write_data(&self, size: SizeWidth, out: &mut Vec<u8>) -> Result<(), AllocError>
        requires { size ≡ SizeWidth.One → is_small self.now.shell self.now.content.items ≡ true }
        ensures { OnOk result
            (out.new.items ≡ out.old.items ++ full_data size self.now.shell self.now.content.items) }
    {
        match self.shell {
            Shell::Number(kind, number) => write_number(kind, number, out),
            Shell::Octets(_) => write_octets(size, &self.content, out),
            Shell::List(count) => write_block(size, count, &self.content, out),
            Shell::Map(count) => write_block(size, count, &self.content, out),
            Shell::Array(count) => write_block(size, count, &self.content, out),
            Shell::Described => out.extend_from_slice(&self.content),
        }
    }

    fn write_sized(&self, kind: Kind, out: &mut Vec<u8>) -> Result<(), AllocError>
        ensures { OnOk result
            (out.new.items ≡ out.old.items ++ sized kind self.now.shell self.now.content.items) }
    {
        let size = narrowest(self.is_small());
        out.push(full_code(size, kind))?;
        self.write_data(size, out)
    }

    /// Appends the shortest spelling.
    pub fn write(&self, out: &mut Vec<u8>) -> Result<(), AllocError>
        ensures { OnOk result
            (out.new.items ≡ out.old.items ++ shortest self.now.shell self.now.content.items) }
    {
        match self.shell {
            Shell::Number(kind, number) => match short_form(kind, number) {
                Some(short) => write_short(short, out),
                None => {
                    out.push(full_code(SizeWidth::One, kind))?;
                    write_number(kind, number, out)
                }
            },
            Shell::Octets(kind) => self.write_sized(kind, out),
            Shell::List(0) => out.extend_from_slice(&[0x45]),
            Shell::List(_) => self.write_sized(Kind::List, out),
            Shell::Map(_) => self.write_sized(Kind::Map, out),
            Shell::Array(_) => self.write_sized(Kind::Array, out),
            Shell::Described => {
                out.push(0)?;
                out.extend_from_slice(&self.content)
            }
        }
    }
}
