//! Laws of sequence numbers, about the definitions alone. Each function does nothing: its contract is the law.

ghost use Rattle.std.specs.Prelude.{ℕ, ◌≡◌, ◌↔◌, ◌^◌, ◌<◌, ◌≤◌};
ghost use Rattle.amqp_serial.specs.Numbers.{sum_of, distance_of, IsBefore, IsInRange, IsAddition, IsWithin};

use crate::Serial;

/// Of two numbers at most one is before the other, and neither if they are 2147483648 steps apart.
pub fn never_both(a: Serial, b: Serial)
    ensures both { IsBefore a.0 b.0 → IsBefore b.0 a.0 → ⊥ }
    ensures opposite { distance_of a.0 b.0 ≡ 2 ^ 31 → IsBefore a.0 b.0 → ⊥ }
    ensures apart { distance_of a.0 b.0 ≡ 2 ^ 31 → IsBefore b.0 a.0 → ⊥ }
{}

/// The distance to a sum is what was added.
pub fn distance_of_a_sum(a: Serial, n: u32)
    ensures { distance_of a.0 (sum_of a.0 n) ≡ n }
{}

/// Adding the distance to a number results in the other one, and no other number below 2^32 does so.
pub fn sum_of_the_distance(a: Serial, b: Serial)
    ensures leads { sum_of a.0 (distance_of a.0 b.0) ≡ b.0 }
    ensures alone { (n : ℕ) → n < 2 ^ 32 → sum_of a.0 n ≡ b.0 → n ≡ distance_of a.0 b.0 }
{}

/// A number is before another exactly if adding some number from 1 to 2147483647 leads there [RFC 1982, 3.1 and 3.2].
pub fn before_is_an_addition(a: Serial, b: Serial)
    ensures { IsBefore a.0 b.0 ↔ IsAddition a.0 b.0 }
{}

/// A range holds the numbers 0 to `distance` steps after its first one, if `distance` is below 2147483648.
///
/// If its last number is 2147483648 steps or more after its first, the range is empty.
pub fn range_is_counted(first: Serial, last: Serial, x: Serial)
    ensures counted { distance_of first.0 last.0 < 2 ^ 31 → (IsInRange first.0 last.0 x.0 ↔ IsWithin first.0 (distance_of first.0 last.0) x.0) }
    ensures behind { 2 ^ 31 ≤ distance_of first.0 last.0 → IsInRange first.0 last.0 x.0 → ⊥ }
{}
