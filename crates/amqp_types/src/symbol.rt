//! Symbols: names in ASCII.

ghost use Rattle.std.specs.Prelude.{◌≡◌, ℕ, List, IsSome, IfSome, ◌↔◌, None, ◌⊎◌};
ghost use Rattle.std.specs.Str.{IsAscii};

use std::alloc::Global;
use std::marker::Model;

/// A symbol: a name of bytes below 0x80. [1.6.21]
#[derive(Debug, Drop)]
pub struct Symbol {
    octets: Vec<u8>,
}

impl Model for Symbol {
    ghost Value = { List ℕ };

    ghost view = { λ s. s.octets.items };

    ghost invariant = { λ s. IsAscii s.octets.items };
}

impl Symbol {
    /// Returns the symbol of these bytes; `None` if one is at or above 0x80. Takes no memory.
    pub fn new(octets: Vec<u8>) -> Option<Symbol>
        ensures made { IfSome result (λ s. s ≡ octets.items) }
        ensures ascii { IsSome result ↔ IsAscii octets.items }
    {
        if octets.is_ascii() {
            Some(Symbol { octets })
        } else {
            None
        }
    }

    /// Returns the bytes of the symbol, each below 0x80.
    pub fn as_bytes(&self) -> &[u8]
        ensures octets { result.now ≡ self.now }
        ensures ascii { IsAscii self.now }
    {
        &self.octets
    }

    /// Returns the bytes of the symbol and consumes it. Takes no memory.
    pub fn into_bytes(self) -> Vec<u8>
        ensures { result.items ≡ self }
    {
        self.octets
    }
}
