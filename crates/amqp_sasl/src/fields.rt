//! The fields of a list, peeked at one after the other. [1.4]
ghost use Rattle.std.specs.Prelude.{◌≡◌, option_copied};
ghost use Rattle.std.specs.Option.{option_map};
ghost use Rattle.amqp_types.specs.Trees.{Trees};
ghost use Rattle.amqp_sasl.specs.Composites.{peeked_symbol, peeked_binary, peeked_text};

use amqp_types::{Peek, peek, skip};

/// The items of a list that are left: how many, and the bytes that spell them.
#[derive(Clone, Copy)]
pub struct Items<'a> {
    pub left: usize,
    pub bytes: &'a [u8],
}

impl<'a> Items<'a> {
    ghost use Rattle.amqp_sasl.specs.Composites.{AreItems, IsTaken};

    /// Takes the next item; a null if none is left. It returns `None` only if it is no scalar.
    pub fn take(&mut self) -> Option<Peek<'a>>
        ensures { (ts : Trees) → AreItems ts self.old.left self.old.bytes.now → IsTaken ts result self.new.left self.new.bytes.now }
    {
        if self.left == 0 {
            return Some(Peek::Null);
        }
        let Ok(len) = skip(self.bytes, 0) else {
            return None;
        };
        let case = peek(self.bytes);
        self.left -= 1;
        self.bytes = &self.bytes[len..];
        Some(case)
    }
}

/// Returns the bytes of a symbol.
pub fn symbol_in(case: Peek<'_>) -> Option<&[u8]>
    ensures { option_copied result ≡ peeked_symbol case.entry }
{
    match case {
        Peek::Symbol(octets) => Some(octets),
        _ => None,
    }
}

/// Returns the bytes of a binary, or `Some(None)` of a null.
pub fn binary_in(case: Peek<'_>) -> Option<Option<&[u8]>>
    ensures { option_map option_copied result ≡ peeked_binary case.entry }
{
    match case {
        Peek::Null => Some(None),
        Peek::Binary(octets) => Some(Some(octets)),
        _ => None,
    }
}

/// Returns the text of a string, or `Some(None)` of a null.
pub fn text_in(case: Peek<'_>) -> Option<Option<&str>>
    ensures { option_map option_copied result ≡ peeked_text case.entry }
{
    match case {
        Peek::Null => Some(None),
        Peek::String(text) => Some(Some(text)),
        _ => None,
    }
}
