//! The keys of a map seen so far, while the map is checked.

ghost use Rattle.std.specs.Prelude.{◌≡◌, [], not, ◌≤◌, length, map, IfOk, IfErr, IsTrue, OnOk, Some};
ghost use Rattle.amqp_types.specs.Decoding.{is_among};
ghost use Rattle.amqp_types.specs.Images.{image};
ghost use Rattle.amqp_types.specs.InHand.{place};
ghost use Rattle.amqp_types.specs.Keys.{key_image, IsWith, Takes, TakesNone};
ghost use Rattle.amqp_types.specs.Reading.{inside, value_by};
ghost use Rattle.amqp_types.specs.Values.{view};

use crate::decoder::read_value;
use crate::fault::ReadFault;
use crate::key::{Key, key_at};
use crate::keys::Keys;
use crate::lent_keys::LentKeys;
use crate::value::Value;
use crate::window::Window;
use std::alloc::{AllocError, Global};
use std::marker::Model;

/// Keys: borrowed as long as none holds other values and marks tell them apart, and otherwise in a set.
#[derive(Drop)]
pub struct SeenKeys<'a> {
    lent: LentKeys<'a>,
    set: Keys,
    is_set: bool,
}

impl<'a> Model for SeenKeys<'a> {
    ghost use Rattle.std.specs.Prelude.{◌≡◌, ℕ, List, [], if◌then◌else◌, false};

    ghost Value = { List (List ℕ) };

    // Their images.
    ghost view = { λ s. if s.is_set then s.set else s.lent };

    ghost invariant = { λ s. s.is_set ≡ false → s.set ≡ [] };
}

impl<'a> SeenKeys<'a> {
    /// Returns a set without keys, for `count` keys in all.
    pub fn new(alloc: Global, count: usize) -> SeenKeys<'a>
        ensures { result ≡ [] }
    {
        SeenKeys {
            lent: LentKeys::new(alloc, count),
            set: Keys::new(alloc),
            is_set: false,
        }
    }

    /// Reads and adds the key at the front; returns the nodes left and the bytes after it. It has to be new.
    pub fn take(
        &mut self,
        alloc: Global,
        depth: usize,
        w: Window,
        nodes: usize,
        bytes: &'a [u8],
    ) -> Result<(usize, &'a [u8]), ReadFault>
        requires { length bytes.now ≤ w.end }
        ensures new { IfOk result (λ x. Takes (value_by (inside depth) w 0 (Some nodes) bytes.now) self.old self.new x.0 x.1.now) }
        ensures none { IfErr result (λ e. TakesNone (value_by (inside depth) w 0 (Some nodes) bytes.now) self.old (ReadFault.DuplicateKey (place w bytes.now)) e) }
        ensures rest { IfOk result (λ x. length x.1.now ≤ length bytes.now) }
    {
        if let Some((key, rest)) = key_at(w, bytes) {
            if !self.insert(alloc, key)? {
                return Err(ReadFault::DuplicateKey(w.place(bytes)));
            }
            return Ok((nodes, rest));
        }
        let (key, left, rest) = read_value(alloc, depth, w, nodes, bytes)?;
        if !self.insert_value(alloc, &key)? {
            return Err(ReadFault::DuplicateKey(w.place(bytes)));
        }
        Ok((left, rest))
    }

    /// Adds a key that holds no other values and returns whether it is new.
    pub fn insert(&mut self, alloc: Global, key: Key<'a>) -> Result<bool, AllocError>
        ensures new { IfOk result (λ new. new ≡ not (is_among (key_image key.entry) self.old)) }
        ensures ok { OnOk result (IsWith (key_image key.entry) self.old self.new) }
    {
        if self.is_set {
            return self.set.insert_key(alloc, &key);
        }
        if let Some(new) = self.lent.insert(key)? {
            return Ok(new);
        }
        self.is_set = true;
        self.set.insert_all(alloc, self.lent.lent())?;
        self.set.insert_key(alloc, &key)
    }

    /// Adds any key and returns whether it is new.
    fn insert_value(&mut self, alloc: Global, key: &Value) -> Result<bool, AllocError>
        ensures new { IfOk result (λ new. new ≡ not (is_among (image (view key.now)) self.old)) }
        ensures ok { IfOk result (λ new. IsTrue new → IsWith (image (view key.now)) self.old self.new) }
    {
        if self.is_set {
            return self.set.insert(alloc, key);
        }
        self.is_set = true;
        self.set.insert_all(alloc, self.lent.lent())?;
        self.set.insert(alloc, key)
    }
}
