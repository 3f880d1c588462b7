//! The address of a target. [3.5.4]

ghost use Rattle.std.specs.Prelude.{◌≡◌, ◌≤◌, ◌++◌, ℕ, List};
ghost use Rattle.amqp_types.specs.Spelling.{Spells};
ghost use Rattle.amqp_types.specs.Trees.{Tree, Trees, depth_of};
ghost use Rattle.amqp_perform.specs.Addresses.{node_of, node_in, node_in_list, node_in_fields, describes_target, target_node, field_in};
ghost use Rattle.amqp_perform.specs.Outcomes.{is_true_tree};
ghost use Rattle.amqp_perform.specs.Targets.{BeginsWith, SpellItems, peeks_target, peeks_true, peeks_node};

use crate::fields::FIELD_DEPTH;
use amqp_types::laws::reading_is_exact;
use amqp_types::{Kind, Peek, peek, skip};

/// What a target says of its node. [3.5.4]
#[derive(Clone, Copy, Debug, PartialEq, Eq)]
pub enum Address<'a> {
    /// Its address, a string.
    Name(&'a str),
    /// It has no address: the sender asks for a node to be made.
    Dynamic,
    /// It has no address, and asks for no node.
    Absent,
    /// There is no target.
    NoTarget,
    /// The address is no string, or this is a target of another type, as a coordinator is.
    Other,
}

/// Returns what a target says of its node, as an attach spells it; no bytes are no target. [3.5.4]
///
/// Bytes may follow the target. What is no value within 30 levels is `Other`. No memory is taken.
pub fn address_of(target: &[u8]) -> Address<'_>
    ensures { node_of result ≡ target_node target.now }
{
    if target.is_empty() {
        return Address::NoTarget;
    }
    reading_is_exact();
    match skip(target, FIELD_DEPTH) {
        Ok(_) => address_in(target),
        Err(_) => Address::Other,
    }
}

/// Returns what a target says of its node. The bytes begin with it.
fn address_in(target: &[u8]) -> Address<'_>
    requires { (t : Tree) × BeginsWith t target.now }
    ensures { (t : Tree) → BeginsWith t target.now → node_of result ≡ node_in t }
{
    match peek(target) {
        Peek::Null => Address::NoTarget,
        Peek::Described(descriptor, list) if is_target(descriptor) => address_in_list(list),
        _ => Address::Other,
    }
}

/// Returns whether a value describes a target: the ulong 0x29 or its symbol, in any spelling. [3.5.4]
fn is_target(descriptor: &[u8]) -> bool
    requires { (t : Tree) × BeginsWith t descriptor.now }
    ensures { (t : Tree) → BeginsWith t descriptor.now → result ≡ describes_target t }
{
    peeks_target(peek(descriptor))
}

fn peeks_target(descriptor: Peek<'_>) -> bool
    ensures { result ≡ peeks_target descriptor.entry }
{
    match descriptor {
        Peek::Unsigned(Kind::Ulong, number) => number == 0x29,
        Peek::Symbol(symbol) => symbol == b"amqp:target:list".as_slice(),
        _ => false,
    }
}

/// Returns what the list says of the node that is described as a target.
fn address_in_list(list: &[u8]) -> Address<'_>
    requires { (t : Tree) × BeginsWith t list.now }
    ensures { (t : Tree) → BeginsWith t list.now → node_of result ≡ node_in_list t }
{
    match peek(list) {
        Peek::List(count, items) => address_in_items(count, items),
        _ => Address::Other,
    }
}

/// Returns what the fields of a target say of its node.
fn address_in_items(count: usize, items: &[u8]) -> Address<'_>
    requires { (ts : Trees) × SpellItems count ts items.now }
    ensures { (ts : Trees) → SpellItems count ts items.now → node_of result ≡ node_in_fields ts }
{
    if count == 0 {
        Address::Absent
    } else {
        address_by(peek(items), is_true_at(4, count, items))
    }
}

/// Returns what the address says, and whether the node is dynamic.
fn address_by(address: Peek<'_>, is_dynamic: bool) -> Address<'_>
    ensures { node_of result ≡ peeks_node address.entry is_dynamic }
{
    match address {
        Peek::String(name) => Address::Name(name),
        Peek::Null if is_dynamic => Address::Dynamic,
        Peek::Null => Address::Absent,
        _ => Address::Other,
    }
}

/// Returns whether the item at this place is there and true.
fn is_true_at(place: usize, count: usize, items: &[u8]) -> bool
    requires { (ts : Trees) × SpellItems count ts items.now }
    ensures { (ts : Trees) → SpellItems count ts items.now → result ≡ is_true_tree (field_in place ts) }
{
    if count == 0 {
        false
    } else if place == 0 {
        peeks_true(peek(items))
    } else {
        is_true_at(place - 1, count - 1, after_first(items))
    }
}

fn peeks_true(value: Peek<'_>) -> bool
    ensures { result ≡ peeks_true value.entry }
{
    matches!(value, Peek::Boolean(true))
}

/// Returns what is after the first item.
fn after_first(items: &[u8]) -> &[u8]
    requires { (t : Tree) × BeginsWith t items.now }
    ensures { (t : Tree) (text rest : List ℕ) → Spells t text → depth_of t ≤ 30 → items.now ≡ text ++ rest → result.now ≡ rest }
{
    match skip(items, FIELD_DEPTH) {
        Ok(len) => &items[len..],
        Err(_) => unreachable!(),
    }
}
