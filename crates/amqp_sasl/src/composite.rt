//! Described lists, as the bodies of frames are. [1.4, 5.3.1]
ghost use Rattle.std.specs.Prelude.{◌≡◌, ◌≤◌};
ghost use Rattle.amqp_types.specs.Peeks.{BeginsWithValue};
ghost use Rattle.amqp_types.specs.Spelling.{Spells};
ghost use Rattle.amqp_types.specs.Trees.{Tree, depth_of};
ghost use Rattle.amqp_sasl.specs.Composites.{AreRead, is_code, names, items_of, items_in, items_at};

use crate::fields::Items;
use amqp_types::laws::reading_is_exact;
use amqp_types::{Kind, Peek, peek, skip};

/// Returns the items of the list that is the body of a frame, if this code or this name describes it.
///
/// The body is exactly one value, in any spelling.
#[tactic(auto, unfolding(crate::specs::Composites::items_at))]
pub fn read_items<'a>(code: u64, name: &[u8], body: &'a [u8]) -> Option<Items<'a>>
    ensures { AreRead result (items_at code name.now body.now) }
{
    reading_is_exact();
    let Ok(len) = skip(body, 2) else {
        return None;
    };
    if len < body.len() {
        return None;
    }
    described_items(code, name, body)
}

/// Returns the items of a described list, if it is described so.
fn described_items<'a>(code: u64, name: &[u8], body: &'a [u8]) -> Option<Items<'a>>
    requires { BeginsWithValue body.now }
    ensures { (t : Tree) → Spells t body.now → depth_of t ≤ 2 → AreRead result (items_in code name.now t) }
{
    match peek(body) {
        Peek::Described(descriptor, list) => {
            if names(code, name, descriptor) {
                items_of(list)
            } else {
                None
            }
        }
        _ => None,
    }
}

/// Whether a number is this code: a ulong.
fn is_code(code: u64, kind: Kind, n: u64) -> bool
    ensures { result ≡ is_code code kind n }
{
    match kind {
        Kind::Ulong => n == code,
        _ => false,
    }
}

/// Whether a descriptor is this code or this name.
fn names(code: u64, name: &[u8], descriptor: &[u8]) -> bool
    requires { BeginsWithValue descriptor.now }
    ensures { (t : Tree) → Spells t descriptor.now → result ≡ names code name.now t }
{
    match peek(descriptor) {
        Peek::Unsigned(kind, n) => is_code(code, kind, n),
        Peek::Symbol(octets) => octets == name,
        _ => false,
    }
}

/// Returns the items of a list.
fn items_of(list: &[u8]) -> Option<Items<'_>>
    requires { BeginsWithValue list.now }
    ensures { (t : Tree) → Spells t list.now → depth_of t ≤ 1 → AreRead result (items_of t) }
{
    match peek(list) {
        Peek::List(left, bytes) => Some(Items { left, bytes }),
        _ => None,
    }
}
