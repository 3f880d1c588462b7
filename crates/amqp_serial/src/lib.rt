//! Sequence numbers of 32 bits that wrap around: their sum, distance, order and ranges [RFC 1982].
//!
//! Begin with `Serial`. `specs/Numbers.antt` defines what its functions return, and `laws` relates them.
#![tactic(auto)]

pub mod laws;

ghost use Rattle.std.specs.Prelude.{◌≡◌, ◌↔◌, IsTrue};
ghost use Rattle.amqp_serial.specs.Numbers.{sum_of, distance_of, IsBefore, IsInRange};

/// A number that is this many steps ahead, or more, counts as behind.
const HALF: u32 = 1 << 31;

/// A sequence number, such as a delivery-id or a transfer number [AMQP 1.0, 2.8.10].
///
/// Two such numbers are ordered only if they are less than 2147483648 steps apart. There is no order of
/// all of them, so the type is not `PartialOrd`.
#[derive(Clone, Copy, Debug, PartialEq, Eq, Hash)]
pub struct Serial(pub u32);

impl Serial {
    /// Returns the number `n` steps later; 0 follows 4294967295.
    pub fn add(self, n: u32) -> Serial
        ensures { result.0 ≡ sum_of self.0 n }
    {
        Serial(self.0.wrapping_add(n))
    }

    /// Returns how many steps lead from this number up to `to`: 0 to 4294967295.
    pub fn distance(self, to: Serial) -> u32
        ensures { result ≡ distance_of self.0 to.0 }
    {
        to.0.wrapping_sub(self.0)
    }

    /// Returns whether `other` is 1 to 2147483647 steps ahead.
    ///
    /// Of two numbers that are 2147483648 steps apart, neither is before the other.
    pub fn is_before(self, other: Serial) -> bool
        ensures { IsTrue result ↔ IsBefore self.0 other.0 }
    {
        let ahead = self.distance(other);
        0 < ahead && ahead < HALF
    }

    /// Returns whether this is one of the numbers from `first` to `last`, both included.
    ///
    /// No number is, if `last` is 2147483648 steps or more ahead of `first`.
    pub fn in_range(self, first: Serial, last: Serial) -> bool
        ensures { IsTrue result ↔ IsInRange first.0 last.0 self.0 }
    {
        let length = first.distance(last);
        length < HALF && first.distance(self) <= length
    }
}
