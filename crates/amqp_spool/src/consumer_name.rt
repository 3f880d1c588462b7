//! The name of a consumer.
ghost use Rattle.std.specs.Prelude.{◌≡◌, IfSome, None};
ghost use Rattle.amqp_spool.specs.Positions.{IsName};

use crate::position::is_name;
use std::fmt::{self, Formatter};
use std::marker::Model;
use std::str;

/// The most characters that the name of a consumer has.
const MOST: usize = 64;

/// The name of a consumer: 1 to 64 characters of `a-z`, `0-9`, `-` and `_`, the first a letter or a digit. It is
/// displayed as it is.
#[derive(Clone, Copy, Debug, PartialEq, Eq)]
pub struct ConsumerName {
    text: [u8; 64],
    len: usize,
}

impl Model for ConsumerName {
    ghost use Rattle.std.specs.Prelude.{ℕ, List, length, take};
    ghost use Rattle.amqp_spool.specs.ConsumerNames.{IsKept, padded, same_again};

    ghost Value = { List ℕ };

    ghost view = { λ a. take a.len a.text };

    ghost invariant = { λ a. IsKept a.text a.len };

    ghost inverse = { λ v. record { text = padded v; len = length v } };

    ghost inverse_ok = { λ a h. same_again a h };
}

impl ConsumerName {
    /// Returns this name, or `None` if no consumer may have it.
    pub fn of(name: &str) -> Option<ConsumerName>
        ensures some { IfSome result (λ n. (n ≡ name.now) × IsName name.now) }
        ensures none { result ≡ None → IsName name.now → ⊥ }
    {
        if !is_name(name) {
            return None;
        }
        let mut text = [0; MOST];
        let len = name.len();
        text[..len].copy_from_slice(name.as_bytes());
        Some(ConsumerName { text, len })
    }

    /// Returns its characters.
    pub fn as_str(&self) -> &str
        ensures { result.now ≡ self.now }
    {
        match str::from_utf8(&self.text[..self.len]) {
            Ok(name) => name,
            Err(_) => unreachable!(),
        }
    }
}

impl fmt::Display for ConsumerName {
    ghost use Rattle.std.specs.Prelude.{Some};

    ghost output = { λ name. Some name };

    fn fmt<W: fmt::Write>(&self, f: &mut Formatter<W>) -> fmt::Result {
        f.write_str(self.as_str())
    }
}
