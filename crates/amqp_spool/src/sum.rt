//! The sum by which bytes of a segment are known again.
ghost use Rattle.std.specs.Prelude.{◌≡◌, ◌++◌};
ghost use Rattle.amqp_spool.specs.Sums.{sum_of};

use std::hash::{DefaultHasher, Hasher};

/// Returns the sum of these bytes and those after them, in a segment with this secret.
pub fn sum_of(secret: &[u8; 16], front: &[u8], rest: &[u8]) -> u64
    ensures { result ≡ sum_of secret.now (front.now ++ rest.now) }
{
    let mut hasher = DefaultHasher::new();
    hasher.write(secret);
    hasher.write(front);
    hasher.write(rest);
    hasher.finish()
}
