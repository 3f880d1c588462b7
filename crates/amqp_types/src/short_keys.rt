//! The keys of a map that has few, as long as they are short and all of one kind.

ghost use Rattle.std.specs.Prelude.{◌≡◌, ℕ, [], ◌++◌, ◌≤◌, List, length, map, Option, Some, None, IfOk, IfErr, IfSome, OnOk};
ghost use Rattle.amqp_types.specs.Decoding.{is_among};
ghost use Rattle.amqp_types.specs.Images.{image};
ghost use Rattle.amqp_types.specs.InHand.{place};
ghost use Rattle.amqp_types.specs.Keys.{Takes, TakesNone};
ghost use Rattle.amqp_types.specs.Reading.{Level, value_by};
ghost use Rattle.amqp_types.specs.Trees.{Octets};
ghost use Rattle.amqp_types.specs.declared.kind.Kind.{Kind};

use crate::fault::ReadFault;
use crate::few_keys::FEW;
use crate::key::{Key, are_same};
use crate::kind::Kind;
use crate::quick_skip::short_octets;
use crate::seen_keys::SeenKeys;
use crate::window::Window;
use std::alloc::{AllocError, Global};
use std::marker::Model;

/// Borrowed keys of one kind whose sizes have one byte, the last one first.
#[derive(Drop)]
pub struct ShortKeys<'a> {
    kind: Kind,
    keys: [&'a [u8]; FEW],
    /// This many places at the front are free.
    free: usize,
}

impl<'a> Model for ShortKeys<'a> {
    ghost use Rattle.std.specs.Prelude.{◌≡◌, ℕ, List, ◌≤◌, length, drop, map};
    ghost use Rattle.amqp_types.specs.Images.{image};
    ghost use Rattle.amqp_types.specs.Trees.{Octets};

    ghost Value = { List (List ℕ) };

    // Their images.
    ghost view = { λ s. map (λ key. image (Octets s.kind key.now)) (drop s.free s.keys) };

    ghost invariant = { λ s. (s.free ≤ 32) × (length s.keys ≡ 32) };
}

impl<'a> ShortKeys<'a> {
    /// Returns a set without keys. `bytes` begin with the first key.
    pub fn new(bytes: &[u8]) -> ShortKeys<'a>
        ensures { result ≡ [] }
    {
        let none: &[u8] = &[];
        ShortKeys {
            kind: first_kind(bytes),
            keys: [none; FEW],
            free: FEW,
        }
    }

    /// Adds the key at the front and returns the bytes after it. Returns `None` if it has another kind or a longer size, or
    /// there is no room. A key equal to an earlier one is `DuplicateKey`.
    pub fn take(&mut self, w: Window, bytes: &'a [u8]) -> Result<Option<&'a [u8]>, ReadFault>
        requires { length bytes.now ≤ w.end }
        ensures new { IfOk result (λ x. IfSome x (λ rest. (inner : Option Level) (nodes : ℕ) → Takes (value_by inner w 0 (Some nodes) bytes.now) self.old self.new nodes rest.now)) }
        ensures same { IfOk result (λ x. x ≡ None → self.new ≡ self.old) }
        ensures none { IfErr result (λ e. (inner : Option Level) (nodes : ℕ) → TakesNone (value_by inner w 0 (Some nodes) bytes.now) self.old (ReadFault.DuplicateKey (place w bytes.now)) e) }
        ensures rest { IfOk result (λ x. IfSome x (λ rest. length rest.now ≤ length bytes.now)) }
    {
        let Some((kind, octets, rest)) = short_octets(bytes) else {
            return Ok(None);
        };
        if kind != self.kind || self.free == 0 {
            return Ok(None);
        }
        if has(&self.keys[self.free..], octets) {
            return Err(ReadFault::DuplicateKey(w.place(bytes)));
        }
        self.free -= 1;
        self.keys[self.free] = octets;
        Ok(Some(rest))
    }

    /// Adds the keys to `seen`.
    pub fn put_into(&self, alloc: Global, seen: &mut SeenKeys<'a>) -> Result<(), AllocError>
        ensures { OnOk result ((octets : List ℕ) → is_among octets seen.new ≡ is_among octets (self.now ++ seen.old)) }
    {
        put_all(alloc, self.kind, &self.keys[self.free..], seen)
    }
}

/// Adds keys of one kind to `seen`.
fn put_all<'a>(
    alloc: Global,
    kind: Kind,
    keys: &[&'a [u8]],
    seen: &mut SeenKeys<'a>,
) -> Result<(), AllocError>
    ensures { OnOk result ((octets : List ℕ) → is_among octets seen.new ≡ is_among octets (map (λ key. image (Octets kind key.now)) keys.now ++ seen.old)) }
{
    for octets in keys {
        seen.insert(alloc, Key::Octets(kind, octets))?;
    }
    Ok(())
}

/// Returns the kind of the value at the front, if its size has one byte, and else `Symbol`.
fn first_kind(bytes: &[u8]) -> Kind {
    match short_octets(bytes) {
        Some((kind, _, _)) => kind,
        None => Kind::Symbol,
    }
}

/// Whether one of the keys of a kind has these bytes.
fn has(keys: &[&[u8]], octets: &[u8]) -> bool
    ensures { (kind : Kind) → result ≡ is_among (image (Octets kind octets.now)) (map (λ key. image (Octets kind key.now)) keys.now) }
{
    for other in keys {
        if are_same(other, octets) {
            return true;
        }
    }
    false
}
