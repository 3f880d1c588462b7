//! Borrowed keys of a map that hold no other values, while the map is checked.

ghost use Rattle.std.specs.Prelude.{◌≡◌, ◌≢◌, [], map, not, true, Some, IfOk, IfSome};
ghost use Rattle.amqp_types.specs.Decoding.{is_among};
ghost use Rattle.amqp_types.specs.Keys.{key_image, IsWith};

use crate::few_keys::{FEW, FewKeys};
use crate::key::Key;
use crate::many_keys::ManyKeys;
use std::alloc::{AllocError, Global};
use std::marker::Model;

/// Borrowed keys: few, each compared with all before it, or many, told apart by their marks.
#[derive(Drop)]
pub struct LentKeys<'a> {
    few: FewKeys<'a>,
    many: ManyKeys<'a>,
    is_many: bool,
}

impl<'a> Model for LentKeys<'a> {
    ghost use Rattle.std.specs.Prelude.{ℕ, List, if◌then◌else◌};

    ghost Value = { List (List ℕ) };

    // Their images.
    ghost view = { λ s. if s.is_many then s.many else s.few };
}

impl<'a> LentKeys<'a> {
    /// Returns a set without keys, for `count` keys in all.
    pub fn new(alloc: Global, count: usize) -> LentKeys<'a>
        ensures { result ≡ [] }
    {
        LentKeys {
            few: FewKeys::new(),
            many: ManyKeys::new(alloc),
            is_many: count > FEW,
        }
    }

    /// Returns all of them.
    pub fn lent(&self) -> &[Key<'a>]
        ensures { map key_image result.now ≡ self.now }
    {
        if self.is_many {
            self.many.lent()
        } else {
            self.few.lent()
        }
    }

    /// Adds the key if it is new, and returns whether it is; `None` if that is not known or there is no room.
    pub fn insert(&mut self, key: Key<'a>) -> Result<Option<bool>, AllocError>
        ensures new { IfOk result (λ seen. IfSome seen (λ new. new ≡ not (is_among (key_image key.entry) self.old))) }
        ensures with { IfOk result (λ seen. seen ≡ Some true → IsWith (key_image key.entry) self.old self.new) }
        ensures same { IfOk result (λ seen. seen ≢ Some true → self.new ≡ self.old) }
    {
        if self.is_many {
            if self.many.insert(key)? {
                return Ok(Some(true));
            }
            return Ok(None);
        }
        if self.few.has(&key) {
            return Ok(Some(false));
        }
        if self.few.push(key) {
            return Ok(Some(true));
        }
        Ok(None)
    }
}
