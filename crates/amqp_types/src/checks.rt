//! Checks whether a value is lawful.

ghost use Rattle.std.specs.Prelude.{◌↔◌, IsTrue, IfOk};
ghost use Rattle.amqp_types.specs.Lawful.{ItemsAgree, AllAgree, PairsAgree, KeysApart, KeysDiffer, AllDiffer, PairsDiffer};
ghost use Rattle.amqp_types.specs.Trees.{IsOfKind, AreOfKind};
ghost use Rattle.amqp_types.specs.Values.{view, views, pair_views};

use crate::keys::Keys;
use crate::kind::Kind;
use crate::shape::{Shape, shape_of};
use crate::value::Value;
use std::alloc::{AllocError, Global};

fn is_of_kind(value: &Value, kind: Kind) -> bool
    ensures { IsTrue result ↔ IsOfKind kind (view value.now) }
{
    match shape_of(value) {
        Shape::Number(own, _) => own == kind,
        Shape::Octets(own, _) => own == kind,
        Shape::List(_) => kind == Kind::List,
        Shape::Map(_) => kind == Kind::Map,
        Shape::Array(_, _, _) => kind == Kind::Array,
        Shape::Described(_, _) => false,
    }
}

fn are_of_kind(items: &Vec<Value>, kind: Kind) -> bool
    ensures { IsTrue result ↔ AreOfKind kind (views items.now.items) }
{
    for item in items {
        if !is_of_kind(item, kind) {
            return false;
        }
    }
    true
}

/// Returns whether each array in the value holds only items of its kind. [1.6.24]
#[cycle(agree)]
pub fn items_agree(value: &Value) -> bool
    ensures { IsTrue result ↔ ItemsAgree (view value.now) }
{
    match shape_of(value) {
        Shape::Number(_, _) => true,
        Shape::Octets(_, _) => true,
        Shape::List(items) => all_agree(items),
        Shape::Map(entries) => pairs_agree(entries),
        Shape::Array(descriptors, kind, items) => {
            all_agree(descriptors) && all_agree(items) && are_of_kind(items, kind)
        }
        Shape::Described(descriptor, described) => {
            items_agree(descriptor) && items_agree(described)
        }
    }
}

#[cycle(agree)]
fn all_agree(items: &Vec<Value>) -> bool
    ensures { IsTrue result ↔ AllAgree (views items.now.items) }
{
    for item in items {
        if !items_agree(item) {
            return false;
        }
    }
    true
}

#[cycle(agree)]
fn pairs_agree(entries: &Vec<(Value, Value)>) -> bool
    ensures { IsTrue result ↔ PairsAgree (pair_views entries.now.items) }
{
    for (key, value) in entries {
        if !items_agree(key) || !items_agree(value) {
            return false;
        }
    }
    true
}

/// Whether no two keys are equal. Each key is looked for among the keys after it.
fn keys_apart(alloc: Global, entries: &Vec<(Value, Value)>) -> Result<bool, AllocError>
    ensures { IfOk result (λ apart. IsTrue apart ↔ KeysApart (pair_views entries.now.items)) }
{
    let mut keys = Keys::new(alloc);
    for i in (0..entries.len()).rev() {
        let key = &entries[i].0;
        if !keys.insert(alloc, key)? {
            return Ok(false);
        }
    }
    Ok(true)
}

/// Returns whether no map in the value has two equal keys. [1.6.23]
#[cycle(differ)]
pub fn keys_differ(alloc: Global, value: &Value) -> Result<bool, AllocError>
    ensures { IfOk result (λ differ. IsTrue differ ↔ KeysDiffer (view value.now)) }
{
    match shape_of(value) {
        Shape::Number(_, _) => Ok(true),
        Shape::Octets(_, _) => Ok(true),
        Shape::List(items) => all_differ(alloc, items),
        Shape::Map(entries) => Ok(keys_apart(alloc, entries)? && pairs_differ(alloc, entries)?),
        Shape::Array(descriptors, _, items) => {
            Ok(all_differ(alloc, descriptors)? && all_differ(alloc, items)?)
        }
        Shape::Described(descriptor, described) => {
            Ok(keys_differ(alloc, descriptor)? && keys_differ(alloc, described)?)
        }
    }
}

#[cycle(differ)]
fn all_differ(alloc: Global, items: &Vec<Value>) -> Result<bool, AllocError>
    ensures { IfOk result (λ differ. IsTrue differ ↔ AllDiffer (views items.now.items)) }
{
    for item in items {
        if !keys_differ(alloc, item)? {
            return Ok(false);
        }
    }
    Ok(true)
}

#[cycle(differ)]
fn pairs_differ(alloc: Global, entries: &Vec<(Value, Value)>) -> Result<bool, AllocError>
    ensures { IfOk result (λ differ. IsTrue differ ↔ PairsDiffer (pair_views entries.now.items)) }
{
    for (key, value) in entries {
        if !keys_differ(alloc, key)? || !keys_differ(alloc, value)? {
            return Ok(false);
        }
    }
    Ok(true)
}
