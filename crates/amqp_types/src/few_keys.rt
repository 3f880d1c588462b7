//! Up to 32 borrowed keys of a map.

ghost use Rattle.std.specs.Prelude.{◌≡◌, [], ◌∷◌, map, IsTrue, IsFalse};
ghost use Rattle.amqp_types.specs.Decoding.{is_among};
ghost use Rattle.amqp_types.specs.Keys.{key_image};

use crate::key::{Key, are_equal};
use crate::kind::Kind;
use std::marker::Model;

/// At most this many keys are compared with each other.
pub const FEW: usize = 32;

/// Keys, the last one first.
#[derive(Drop)]
pub struct FewKeys<'a> {
    keys: [Key<'a>; FEW],
    /// This many places at the front are free.
    free: usize,
}

impl<'a> Model for FewKeys<'a> {
    ghost use Rattle.std.specs.Prelude.{◌≡◌, ℕ, List, ◌≤◌, length, drop, map};
    ghost use Rattle.amqp_types.specs.Keys.{key_image};

    ghost Value = { List (List ℕ) };

    // Their images.
    ghost view = { λ s. map key_image (drop s.free s.keys) };

    ghost invariant = { λ s. (s.free ≤ 32) × (length s.keys ≡ 32) };
}

impl<'a> FewKeys<'a> {
    /// Returns a set without keys.
    pub fn new() -> FewKeys<'a>
        ensures { result ≡ [] }
    {
        FewKeys {
            keys: [Key::Number(Kind::Null, 0); FEW],
            free: FEW,
        }
    }

    /// Whether the key is one of them.
    pub fn has(&self, key: &Key<'_>) -> bool
        ensures { result ≡ is_among (key_image key.now) self.now }
    {
        has(self.lent(), key)
    }

    /// Returns all of them.
    pub fn lent(&self) -> &[Key<'a>]
        ensures { map key_image result.now ≡ self.now }
    {
        &self.keys[self.free..]
    }

    /// Puts a key before the others, if there is room; returns whether there was.
    pub fn push(&mut self, key: Key<'a>) -> bool
        ensures new { IsTrue result → self.new ≡ key_image key.entry ∷ self.old }
        ensures full { IsFalse result → self.new ≡ self.old }
    {
        if self.free == 0 {
            return false;
        }
        self.free -= 1;
        self.keys[self.free] = key;
        true
    }
}

/// Whether one of the keys is this one.
fn has(keys: &[Key<'_>], key: &Key<'_>) -> bool
    ensures { result ≡ is_among (key_image key.now) (map key_image keys.now) }
{
    for other in keys {
        if are_equal(other, key) {
            return true;
        }
    }
    false
}
