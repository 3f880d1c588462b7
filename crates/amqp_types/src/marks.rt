//! Marks: numbers computed from bytes, which tell keys apart.

ghost use Rattle.std.specs.Prelude.{◌≡◌, ℕ, ◌||◌, nat_eq, [], true, false, IsTrue, IfOk, OnOk, OnErr};
ghost use Rattle.amqp_types.specs.Marks.{mark_of, is_marked};

use std::alloc::{AllocError, Global};
use std::collections::BTreeSet;
use std::marker::Model;

/// 2^64 over the golden ratio. It is odd, so multiplying by it keeps different marks different. Its bits are mixed,
/// so keys that differ in a few bytes have marks that are far apart.
const FACTOR: u64 = 0x9e37_79b9_7f4a_7c15;

/// A set of marks. A lookup takes logarithmic time.
#[derive(Drop)]
pub struct Marks {
    marks: BTreeSet<u64>,
}

impl Model for Marks {
    ghost use Rattle.std.specs.Prelude.{ℕ, List};

    ghost Value = { List ℕ };

    ghost view = { λ s. s.marks.keys };
}

impl Marks {
    /// Returns a set without marks.
    pub fn new(alloc: Global) -> Marks
        ensures { result ≡ [] }
    {
        Marks {
            marks: BTreeSet::new(alloc),
        }
    }

    /// Adds a mark and returns whether it is new.
    pub fn insert(&mut self, mark: u64) -> Result<bool, AllocError>
        ensures new { IfOk result (λ new. IsTrue new → is_marked mark self.old ≡ false) }
        ensures ok { OnOk result ((other : ℕ) → is_marked other self.new ≡ (nat_eq mark other || is_marked other self.old)) }
        ensures err { OnErr result (self.new ≡ self.old) }
    {
        match self.marks.insert(mark) {
            Ok(new) => Ok(new),
            Err(_) => Err(AllocError),
        }
    }
}

/// Returns the mark of these bytes.
pub fn mark_of(bytes: &[u8]) -> u64
    ensures { result ≡ mark_of bytes.now }
{
    let mut mark = 0_u64;
    for byte in bytes {
        mark = mark.wrapping_mul(FACTOR).wrapping_add(u64::from(*byte));
    }
    mark.wrapping_mul(FACTOR)
}
