//! A set of a map's keys, which finds equal ones.

ghost use Rattle.std.specs.Prelude.{◌≡◌, ℕ, ◌<◌, ◌^◌, [], not, ◌||◌, ◌++◌, List, length, map, IfOk, OnOk, OnErr};
ghost use Rattle.std.specs.Str.{bytes_eq};
ghost use Rattle.amqp_types.specs.Canonical.{IsRanged};
ghost use Rattle.amqp_types.specs.Decoding.{is_among};
ghost use Rattle.amqp_types.specs.Images.{image};
ghost use Rattle.amqp_types.specs.Keys.{key_image, IsWith};
ghost use Rattle.amqp_types.specs.Values.{view};

use crate::image::{put_image, put_key};
use crate::key::Key;
use crate::value::Value;
use std::alloc::{AllocError, Global};
use std::collections::BTreeSet;
use std::marker::Model;

/// Keys, held by their images. A lookup takes logarithmic time.
#[derive(Drop)]
pub(crate) struct Keys {
    images: BTreeSet<Vec<u8>>,
}

impl Model for Keys {
    ghost Value = { List (List ℕ) };

    ghost view = { λ keys. map (λ key. key.items) keys.images.keys };
}

impl Keys {
    pub(crate) fn new(alloc: Global) -> Keys
        ensures { result ≡ [] }
    {
        Keys {
            images: BTreeSet::new(alloc),
        }
    }

    /// Adds a key and returns whether it is new.
    pub(crate) fn insert(&mut self, alloc: Global, key: &Value) -> Result<bool, AllocError>
        ensures new { IfOk result (λ new. new ≡ not (is_among (image (view key.now)) self.old)) }
        ensures ok { OnOk result ((octets : List ℕ) → is_among octets self.new ≡ (bytes_eq (image (view key.now)) octets || is_among octets self.old)) }
        ensures ranged { OnOk result (IsRanged (view key.now)) }
        ensures short { OnOk result (length (image (view key.now)) < 2 ^ 64) }
        ensures err { OnErr result (self.new ≡ self.old) }
    {
        let mut octets = Vec::new(alloc);
        put_image(key, &mut octets)?;
        Ok(self.images.insert(octets)?)
    }

    /// Adds a key that holds no other values and returns whether it is new.
    pub(crate) fn insert_key(&mut self, alloc: Global, key: &Key<'_>) -> Result<bool, AllocError>
        ensures new { IfOk result (λ new. new ≡ not (is_among (key_image key.now) self.old)) }
        ensures ok { OnOk result (IsWith (key_image key.now) self.old self.new) }
        ensures err { OnErr result (self.new ≡ self.old) }
    {
        let mut octets = Vec::new(alloc);
        put_key(key, &mut octets)?;
        Ok(self.images.insert(octets)?)
    }

    /// Adds keys that hold no other values; any of them may be there already.
    pub(crate) fn insert_all(&mut self, alloc: Global, keys: &[Key<'_>]) -> Result<(), AllocError>
        ensures ok { OnOk result ((octets : List ℕ) → is_among octets self.new ≡ is_among octets (map key_image keys.now ++ self.old)) }
    {
        for key in keys {
            self.insert_key(alloc, key)?;
        }
        Ok(())
    }
}
