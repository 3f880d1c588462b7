//! A delivery-tag, stored without an allocation.
ghost use Rattle.std.specs.Prelude.{◌≡◌, ◌≤◌, ◌<◌, length, IfSome, None};

use std::marker::Model;

/// The most bytes that a tag has [2.8.7].
pub const MAX_TAG: usize = 32;

/// A delivery-tag: up to 32 bytes [2.8.7].
#[derive(Clone, Copy, Debug, PartialEq, Eq)]
pub struct Tag {
    bytes: [u8; 32],
    len: usize,
}

impl Model for Tag {
    ghost use Rattle.std.specs.Prelude.{ℕ, List, length, take};

    ghost Value = { List ℕ };

    ghost use Rattle.amqp_link.specs.Tags.{IsPadded, padded, same_again};

    ghost view = { λ a. take a.len a.bytes };

    ghost invariant = { λ a. IsPadded a.bytes a.len };

    ghost inverse = { λ v. record { bytes = padded v; len = length v } };

    ghost inverse_ok = { λ a h. same_again a h };
}

impl Tag {
    /// Returns the tag of these bytes, or `None` if they are more than [`MAX_TAG`].
    pub fn of(bytes: &[u8]) -> Option<Tag>
        ensures tag { IfSome result (λ tag. tag ≡ bytes.now) }
        ensures none { result ≡ None → 32 < length bytes.now }
    {
        if bytes.len() > MAX_TAG {
            return None;
        }
        Some(Tag::new(bytes))
    }

    /// Makes a tag of these bytes.
    pub(crate) fn new(tag: &[u8]) -> Tag
        requires { length tag.now ≤ 32 }
        ensures { result ≡ tag.now }
    {
        let mut bytes = [0; 32];
        let len = tag.len();
        bytes[..len].copy_from_slice(tag);
        Tag { bytes, len }
    }

    /// Returns the tag's bytes, at most 32.
    pub fn as_bytes(&self) -> &[u8]
        ensures value { result.now ≡ self.now }
        ensures within { length self.now ≤ 32 }
    {
        &self.bytes[..self.len]
    }
}
