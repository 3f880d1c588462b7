//! Bytes, read from the front.

use crate::descriptor::Descriptor;
use byteorder::{BigEndian, ByteOrder};

/// The bytes that are left to read. Each call takes what it returns; after a `None` they mean nothing.
#[derive(Clone, Copy)]
pub struct Cursor<'a> {
    pub bytes: &'a [u8],
}

impl<'a> Cursor<'a> {
    ghost use Rattle.std.specs.Prelude.{◌≡◌, MatchOption, None, Some};
    ghost use Rattle.amqp_perform.specs.BodyReading.{Takes, byte_at, octets_at, word_at, short_at, long_at, descriptor_at, list_at};

    /// Takes the next byte.
    #[inline(always)]
    pub fn byte(&mut self) -> Option<u8>
        ensures { Takes (λ b. b) result self.new.bytes.now (byte_at self.old.bytes.now) }
    {
        let (first, rest) = self.bytes.split_first()?;
        self.bytes = rest;
        Some(*first)
    }

    /// Takes the next `n` bytes.
    #[inline(always)]
    pub fn octets(&mut self, n: usize) -> Option<&'a [u8]>
        ensures { Takes (λ s. s.now) result self.new.bytes.now (octets_at n self.old.bytes.now) }
    {
        let (octets, rest) = self.bytes.split_at_checked(n)?;
        self.bytes = rest;
        Some(octets)
    }

    /// Takes the number in the next four bytes.
    #[inline(always)]
    pub fn word(&mut self) -> Option<u32>
        ensures { Takes (λ n. n) result self.new.bytes.now (word_at self.old.bytes.now) }
    {
        Some(BigEndian::read_u32(self.octets(4)?))
    }

    /// Takes a size of one byte and as many bytes as it says, and returns those. [1.2.2]
    #[inline(always)]
    pub fn short(&mut self) -> Option<&'a [u8]>
        ensures { Takes (λ s. s.now) result self.new.bytes.now (short_at self.old.bytes.now) }
    {
        let len = self.byte()?;
        self.octets(len as usize)
    }

    /// Takes a size of four bytes and as many bytes as it says, and returns those. [1.2.2]
    pub fn long(&mut self) -> Option<&'a [u8]>
        ensures { Takes (λ s. s.now) result self.new.bytes.now (long_at self.old.bytes.now) }
    {
        let len = self.word()?;
        self.octets(len as usize)
    }

    /// Takes `00` and a descriptor: a ulong in any form or a symbol. [1.2; 1.3]
    #[tactic(auto, using(crate::proofs::Describing::descriptor_is))]
    #[inline(always)]
    pub fn descriptor(&mut self) -> Option<Descriptor>
        ensures { Takes (λ d. d) result self.new.bytes.now (descriptor_at self.old.bytes.now) }
    {
        if self.byte()? != 0 {
            return None;
        }
        match self.byte()? {
            0x53 => Descriptor::of_code(self.byte()? as u64),
            0x80 => Descriptor::of_code(BigEndian::read_u64(self.octets(8)?)),
            0xa3 => Descriptor::of_symbol(self.short()?),
            0xb3 => Descriptor::of_symbol(self.long()?),
            _ => None,
        }
    }

    /// Takes a list; returns how many items it has, and the bytes that spell them. [1.6.22]
    #[tactic(auto, using(crate::proofs::Lists::list_is))]
    #[inline(always)]
    pub fn list(&mut self) -> Option<(usize, &'a [u8])>
        ensures { MatchOption result (list_at self.old.bytes.now ≡ None) (λ x. list_at self.old.bytes.now ≡ Some (record { count = x.0; items = x.1.now; behind = self.new.bytes.now })) }
    {
        match self.byte()? {
            0x45 => Some((0, &[])),
            0xc0 => {
                let mut items = Cursor {
                    bytes: self.short()?,
                };
                let count = items.byte()?;
                Some((count as usize, items.bytes))
            }
            0xd0 => {
                let mut items = Cursor {
                    bytes: self.long()?,
                };
                let count = items.word()?;
                Some((count as usize, items.bytes))
            }
            _ => None,
        }
    }
}
