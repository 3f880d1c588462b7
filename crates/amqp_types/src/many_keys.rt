//! Many borrowed keys of a map that hold no other values.

ghost use Rattle.std.specs.Prelude.{◌≡◌, [], map, false, IsTrue, IsFalse, IfOk};
ghost use Rattle.amqp_types.specs.Decoding.{is_among};
ghost use Rattle.amqp_types.specs.Images.{image};
ghost use Rattle.amqp_types.specs.Keys.{key_image, IsWith};
ghost use Rattle.amqp_types.specs.Marks.{image_mark};
ghost use Rattle.amqp_types.specs.Trees.{Number};
ghost use Rattle.amqp_types.specs.declared.kind.Kind.{Kind};

use crate::key::Key;
use crate::marks::{Marks, mark_of};
use std::alloc::{AllocError, Global};
use std::marker::Model;

/// Keys and their marks. A mark is a number, and is looked up in logarithmic time. Keys of different marks are not
/// equal; keys of the same mark may be equal or not.
#[derive(Drop)]
pub struct ManyKeys<'a> {
    keys: Vec<Key<'a>>,
    marks: Marks,
}

impl<'a> Model for ManyKeys<'a> {
    ghost use Rattle.std.specs.Prelude.{ℕ, List, map};
    ghost use Rattle.amqp_types.specs.Keys.{key_image};
    ghost use Rattle.amqp_types.specs.Marks.{AreMarkedBy};

    ghost Value = { List (List ℕ) };

    // Their images.
    ghost view = { λ s. map key_image s.keys.items };

    ghost invariant = { λ s. AreMarkedBy s.marks (map key_image s.keys.items) };
}

impl<'a> ManyKeys<'a> {
    /// Returns a set without keys.
    pub fn new(alloc: Global) -> ManyKeys<'a>
        ensures { result ≡ [] }
    {
        ManyKeys {
            keys: Vec::new(alloc),
            marks: Marks::new(alloc),
        }
    }

    /// Returns all of them.
    pub fn lent(&self) -> &[Key<'a>]
        ensures { map key_image result.now ≡ self.now }
    {
        &self.keys
    }

    /// Adds a key if its mark is new, and returns whether it is.
    pub fn insert(&mut self, key: Key<'a>) -> Result<bool, AllocError>
        ensures new { IfOk result (λ new. IsTrue new → is_among (key_image key.entry) self.old ≡ false) }
        ensures with { IfOk result (λ new. IsTrue new → IsWith (key_image key.entry) self.old self.new) }
        ensures same { IfOk result (λ new. IsFalse new → self.new ≡ self.old) }
    {
        if !self.marks.insert(mark_of_key(&key))? {
            return Ok(false);
        }
        self.keys.push(key)?;
        Ok(true)
    }
}

/// Returns the mark of a key: the mark of its bytes, or of the last eight bytes of a number.
fn mark_of_key(key: &Key<'_>) -> u64
    ensures { result ≡ image_mark (key_image key.now) }
{
    match *key {
        Key::Number(_, number) => number_mark(number),
        Key::Octets(_, octets) => mark_of(octets),
    }
}

/// Returns the mark of the last eight bytes of a number.
fn number_mark(number: u128) -> u64
    ensures { (kind : Kind) → result ≡ image_mark (image (Number kind number)) }
{
    let bytes = number.to_be_bytes();
    let (_, last) = bytes.split_at(8);
    mark_of(last)
}
