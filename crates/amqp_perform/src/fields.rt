//! The fields of a described list, read from its items one after the other. [1.4]

ghost use Rattle.std.specs.Prelude.{◌≡◌, None, Some, MatchOption};
ghost use Rattle.amqp_perform.specs.BodyReading.{described_at};

use crate::cursor::Cursor;
use crate::descriptor::Descriptor;
use crate::modes::{ReceiverSettleMode, Role, SenderSettleMode};
use amqp_types::skip;
use byteorder::{BigEndian, ByteOrder};

/// How many levels of lists, maps, arrays and described values a body may have.
pub const DEPTH: usize = 32;

/// How many levels the value of a field may have; the described value and its list take the other two.
pub const FIELD_DEPTH: usize = DEPTH - 2;

/// The code of null.
pub const NULL: u8 = 0x40;

/// The items of a list that are left. A reader takes the next one; `None` says that it is not of the reader's
/// type, and what is left then means nothing. `Some(None)` is an absent field: a null, or no item left.
#[derive(Clone, Copy)]
pub struct Fields<'a> {
    left: usize,
    items: Cursor<'a>,
}

impl<'a> Fields<'a> {
    ghost use Rattle.std.specs.Prelude.{◌≡◌, ◌≤◌, ◌==◌, ◌&&◌, length, option_copied, IfSome};
    ghost use Rattle.std.specs.Option.{option_map};
    ghost use Rattle.amqp_perform.specs.Outcomes.{true_at};
    ghost use Rattle.amqp_perform.specs.Performatives.{flag, is_receiver, sender_mode, receiver_mode, optional_flag, optional_whole, optional_bytes, span};
    ghost use Rattle.amqp_perform.specs.BodyReading.{TakesFrom, code_at, typed_at, value_at};
    ghost use Rattle.amqp_perform.specs.Tables.{boolean, ubyte_to, sender_settle_mode, receiver_settle_mode, ushort, uint, binary, string, symbol, spanned, default};

    /// Makes the fields of a list with `count` items, which these bytes spell.
    pub fn of(count: usize, items: &'a [u8]) -> Fields<'a>
        ensures count { result.left ≡ count }
        ensures items { result.items.bytes.now ≡ items.now }
    {
        Fields {
            left: count,
            items: Cursor { bytes: items },
        }
    }

    /// Returns how many items are left, and the bytes that spell them.
    pub fn parts(&self) -> (usize, &'a [u8])
        ensures count { result.0 ≡ self.now.left }
        ensures items { result.1.now ≡ self.now.items.bytes.now }
    {
        (self.left, self.items.bytes)
    }

    /// Returns whether all items were taken.
    pub fn is_empty(&self) -> bool
        ensures { result ≡ (self.now.left == 0) }
    {
        self.left == 0
    }

    /// Returns whether all items were taken, and no byte is left after them.
    pub fn ended(&self) -> bool
        ensures { result ≡ (self.now.left == 0 && (length self.now.items.bytes.now == 0)) }
    {
        self.left == 0 && self.items.bytes.is_empty()
    }

    /// Takes the code of the next item; returns that of null if no item is left.
    #[inline(always)]
    fn code(&mut self) -> Option<u8>
        ensures { TakesFrom (λ code. code) code_at self.old self.new result }
    {
        if self.left == 0 {
            return Some(NULL);
        }
        self.left -= 1;
        self.items.byte()
    }

    /// Takes a boolean. [1.6.2]
    #[tactic(auto, using(crate::proofs::Readers::boolean_is))]
    #[inline(always)]
    pub fn boolean(&mut self) -> Option<Option<bool>>
        ensures { TakesFrom optional_flag (typed_at boolean) self.old self.new result }
    {
        match self.code()? {
            NULL => Some(None),
            0x41 => Some(Some(true)),
            0x42 => Some(Some(false)),
            0x56 => match self.items.byte()? {
                0 => Some(Some(false)),
                1 => Some(Some(true)),
                _ => None,
            },
            _ => None,
        }
    }

    /// Takes a boolean that is false by default.
    #[inline(always)]
    pub fn flag(&mut self) -> Option<bool>
        ensures { TakesFrom flag (value_at boolean (default 0)) self.old self.new result }
    {
        Some(self.boolean()?.unwrap_or(false))
    }

    /// Takes a ubyte of at most `most`. [1.6.3]
    #[tactic(auto, using(crate::proofs::Readers::ubyte_is))]
    #[inline(always)]
    fn ubyte(&mut self, most: u8) -> Option<Option<u8>>
        ensures bound { IfSome result (λ number. IfSome number (λ n. n ≤ most)) }
        ensures taken { TakesFrom optional_whole (typed_at (ubyte_to most)) self.old self.new result }
    {
        match self.code()? {
            NULL => Some(None),
            0x50 => {
                let number = self.items.byte()?;
                if number > most {
                    None
                } else {
                    Some(Some(number))
                }
            }
            _ => None,
        }
    }

    /// Takes a role. [2.8.1]
    pub fn role(&mut self) -> Option<Option<Role>>
        ensures { TakesFrom (λ r. optional_flag (option_map is_receiver r)) (typed_at boolean) self.old self.new result }
    {
        Some(self.boolean()?.map(Role::of))
    }

    /// Takes a sender's settle mode. [2.8.2]
    pub fn sender_mode(&mut self) -> Option<Option<SenderSettleMode>>
        ensures { TakesFrom (λ m. optional_whole (option_map sender_mode m)) (typed_at sender_settle_mode) self.old self.new result }
    {
        match self.ubyte(2)? {
            None => Some(None),
            Some(number) => Some(Some(SenderSettleMode::of(number))),
        }
    }

    /// Takes a receiver's settle mode. [2.8.3]
    #[inline(always)]
    pub fn receiver_mode(&mut self) -> Option<Option<ReceiverSettleMode>>
        ensures { TakesFrom (λ m. optional_whole (option_map receiver_mode m)) (typed_at receiver_settle_mode) self.old self.new result }
    {
        match self.ubyte(1)? {
            None => Some(None),
            Some(number) => Some(Some(ReceiverSettleMode::of(number))),
        }
    }

    /// Takes a ushort. [1.6.4]
    #[tactic(auto, using(crate::proofs::Readers::ushort_is))]
    pub fn ushort(&mut self) -> Option<Option<u16>>
        ensures { TakesFrom optional_whole (typed_at ushort) self.old self.new result }
    {
        match self.code()? {
            NULL => Some(None),
            0x60 => Some(Some(BigEndian::read_u16(self.items.octets(2)?))),
            _ => None,
        }
    }

    /// Takes a uint. [1.6.5]
    #[tactic(auto, using(crate::proofs::Readers::uint_is))]
    #[inline(always)]
    pub fn uint(&mut self) -> Option<Option<u32>>
        ensures { TakesFrom optional_whole (typed_at uint) self.old self.new result }
    {
        match self.code()? {
            NULL => Some(None),
            0x43 => Some(Some(0)),
            0x52 => Some(Some(self.items.byte()? as u32)),
            0x70 => Some(Some(self.items.word()?)),
            _ => None,
        }
    }

    /// Takes a binary. [1.6.19]
    #[tactic(auto, using(crate::proofs::Readers::binary_is))]
    #[inline(always)]
    pub fn binary(&mut self) -> Option<Option<&'a [u8]>>
        ensures { TakesFrom (λ s. optional_bytes (option_copied s)) (typed_at binary) self.old self.new result }
    {
        match self.code()? {
            NULL => Some(None),
            0xa0 => Some(Some(self.items.short()?)),
            0xb0 => Some(Some(self.items.long()?)),
            _ => None,
        }
    }

    /// Takes a string. [1.6.20]
    #[tactic(auto, using(crate::proofs::Readers::string_is))]
    pub fn text(&mut self) -> Option<Option<&'a str>>
        ensures { TakesFrom (λ s. optional_bytes (option_copied s)) (typed_at string) self.old self.new result }
    {
        let octets = match self.code()? {
            NULL => return Some(None),
            0xa1 => self.items.short()?,
            0xb1 => self.items.long()?,
            _ => return None,
        };
        match str::from_utf8(octets) {
            Ok(text) => Some(Some(text)),
            Err(_) => None,
        }
    }

    /// Takes a symbol. [1.6.21]
    #[tactic(auto, using(crate::proofs::Readers::symbol_is))]
    pub fn symbol(&mut self) -> Option<Option<&'a [u8]>>
        ensures { TakesFrom (λ s. optional_bytes (option_copied s)) (typed_at symbol) self.old self.new result }
    {
        let octets = match self.code()? {
            NULL => return Some(None),
            0xa3 => self.items.short()?,
            0xb3 => self.items.long()?,
            _ => return None,
        };
        if octets.is_ascii() {
            Some(Some(octets))
        } else {
            None
        }
    }

    /// Takes a value of any type, and returns the bytes that spell it; none if the field is absent.
    #[tactic(auto, unfolding(crate::specs::BodyReading::typed_at))]
    #[inline(always)]
    pub fn span(&mut self) -> Option<&'a [u8]>
        ensures { TakesFrom (λ s. span s.now) (typed_at spanned) self.old self.new result }
    {
        if self.left == 0 {
            return Some(&[]);
        }
        self.left -= 1;
        let len = skip(self.items.bytes, FIELD_DEPTH).ok()?;
        let span = self.items.octets(len)?;
        if span == [NULL].as_slice() {
            Some(&[])
        } else {
            Some(span)
        }
    }

    /// Returns whether the next item is true, without taking it. An absent item, or one of another type, is
    /// not.
    #[tactic(auto, unfolding(crate::specs::Outcomes::true_at))]
    pub fn is_true(mut self) -> bool
        ensures { result ≡ true_at self.entry.left self.entry.items.bytes.now }
    {
        match self.boolean() {
            Some(Some(flag)) => flag,
            _ => false,
        }
    }
}

/// A described list: its descriptor and its items.
#[derive(Clone, Copy)]
pub struct DescribedList<'a> {
    pub descriptor: Descriptor,
    pub fields: Fields<'a>,
    /// The bytes that follow it.
    pub rest: &'a [u8],
}

/// Returns the described list that the bytes begin with, if its descriptor is known.
#[tactic(auto, using(crate::proofs::Fronts::usual_front))]
#[inline(always)]
pub fn described_list(bytes: &[u8]) -> Option<DescribedList<'_>>
    ensures { MatchOption result (described_at bytes.now ≡ None)
        (λ x. described_at bytes.now ≡ Some (x.descriptor, record { count = x.fields.left; items = x.fields.items.bytes.now; behind = x.rest.now })) }
{
    match bytes {
        [0, 0x53, code, 0xc0, size, behind @ ..] => {
            let descriptor = Descriptor::of_code(*code as u64)?;
            let (list, rest) = behind.split_at_checked(*size as usize)?;
            let (count, items) = list.split_first()?;
            Some(DescribedList {
                descriptor,
                fields: Fields::of(*count as usize, items),
                rest,
            })
        }
        _ => any_described_list(bytes),
    }
}

/// Does what [`described_list`] does, for any spelling.
#[tactic(auto, unfolding(crate::specs::BodyReading::described_at))]
#[inline(never)]
fn any_described_list(bytes: &[u8]) -> Option<DescribedList<'_>>
    ensures { MatchOption result (described_at bytes.now ≡ None)
        (λ x. described_at bytes.now ≡ Some (x.descriptor, record { count = x.fields.left; items = x.fields.items.bytes.now; behind = x.rest.now })) }
{
    let mut cursor = Cursor { bytes };
    let descriptor = cursor.descriptor()?;
    let (count, items) = cursor.list()?;
    Some(DescribedList {
        descriptor,
        fields: Fields::of(count, items),
        rest: cursor.bytes,
    })
}
