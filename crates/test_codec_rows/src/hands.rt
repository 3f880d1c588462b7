//! Values in hand, by name.

use crate::bytes::bytes_of;
use crate::words::parsed;
use amqp_types::{Kind, Symbol, Value};
use std::alloc::Global;
use test_row_files::Miss;

/// Returns a scalar by its kind and its number or bytes, or one of the values below.
pub fn value_of(alloc: Global, words: &str) -> Result<Value, Miss> {
    let (name, rest) = words.split_once(' ').unwrap_or((words, ""));
    match name {
        "uint" => Ok(Value::Uint(parsed(rest)?)),
        "ulong" => Ok(Value::Ulong(parsed(rest)?)),
        "int" => Ok(Value::Int(parsed(rest)?)),
        "long" => Ok(Value::Long(parsed(rest)?)),
        "char" => Ok(Value::Char(rest.chars().next().ok_or("no such value")?)),
        "float" => Ok(Value::Float(four(&bytes_of(alloc, rest)?)?)),
        "binary" => Ok(Value::Binary(bytes_of(alloc, rest)?)),
        "symbol" => {
            let symbol = Symbol::new(bytes_of(alloc, rest)?);
            Ok(Value::Symbol(symbol.ok_or("no such value")?))
        }
        _ => holder(alloc, words),
    }
}

fn four(bytes: &[u8]) -> Result<[u8; 4], Miss> {
    match bytes {
        [a, b, c, d] => Ok([*a, *b, *c, *d]),
        _ => Err(Miss::Unread("no such value")),
    }
}

/// Returns a value that holds others, or may.
fn holder(alloc: Global, name: &str) -> Result<Value, Miss> {
    match name {
        "list" => Ok(list(alloc)),
        "map" => Ok(Value::Map(Vec::new(alloc))),
        "list-of-two" => Ok(Value::List(vec![in alloc; Value::Uint(1), text(alloc, "a")?]?)),
        "map-of-one" => Ok(Value::Map(vec![in alloc; (Value::Uint(0), Value::Null)]?)),
        "described-list" => described(alloc, Value::Ulong(36), list(alloc)),
        "doubled-map" => doubled(alloc),
        _ => array_of(alloc, name),
    }
}

fn array_of(alloc: Global, name: &str) -> Result<Value, Miss> {
    match name {
        "array-of-uints" => array(
            alloc,
            Kind::Uint,
            vec![in alloc; Value::Uint(1), Value::Uint(2)]?,
        ),
        "array-of-booleans" => array(
            alloc,
            Kind::Boolean,
            vec![in alloc; Value::Boolean(true), Value::Boolean(false)]?,
        ),
        "array-of-lists" => array(alloc, Kind::List, vec![in alloc; list(alloc), list(alloc)]?),
        "array-of-described-lists" => Ok(Value::Array {
            descriptors: vec![in alloc; Value::Ulong(36)]?,
            kind: Kind::List,
            items: vec![in alloc; list(alloc)]?,
        }),
        "mixed-array" => array(
            alloc,
            Kind::Uint,
            vec![in alloc; Value::Uint(1), Value::Int(1)]?,
        ),
        _ => Err(Miss::Unread("no such value")),
    }
}

fn text(alloc: Global, text: &str) -> Result<Value, Miss> {
    Ok(Value::String(String::from_str(alloc, text)?))
}

fn list(alloc: Global) -> Value {
    Value::List(Vec::new(alloc))
}

fn described(alloc: Global, descriptor: Value, value: Value) -> Result<Value, Miss> {
    let descriptor = Box::new(alloc, descriptor)?;
    Ok(Value::Described(descriptor, Box::new(alloc, value)?))
}

fn array(alloc: Global, kind: Kind, items: Vec<Value>) -> Result<Value, Miss> {
    Ok(Value::Array {
        descriptors: Vec::new(alloc),
        kind,
        items,
    })
}

/// Returns a map with the keys `a`, 1 and `a`.
fn doubled(alloc: Global) -> Result<Value, Miss> {
    let mut entries = vec![in alloc; (text(alloc, "a")?, Value::Null)]?;
    entries.push((Value::Uint(1), Value::Null))?;
    entries.push((text(alloc, "a")?, Value::Uint(2)))?;
    Ok(Value::Map(entries))
}

/// Returns the value in this place of another one.
pub fn placed(alloc: Global, place: &str, inner: Value) -> Result<Value, Miss> {
    match place {
        "alone" => Ok(inner),
        "item" => Ok(Value::List(vec![in alloc; inner]?)),
        "key" => Ok(Value::Map(vec![in alloc; (inner, Value::Null)]?)),
        "entry" => Ok(Value::Map(vec![in alloc; (Value::Null, inner)]?)),
        "descriptor" => described(alloc, inner, Value::Null),
        "described" => described(alloc, Value::Null, inner),
        _ => placed_in_array(alloc, place, inner),
    }
}

fn placed_in_array(alloc: Global, place: &str, inner: Value) -> Result<Value, Miss> {
    match place {
        "array-descriptor" => Ok(Value::Array {
            descriptors: vec![in alloc; inner]?,
            kind: Kind::Null,
            items: Vec::new(alloc),
        }),
        "array-item" => {
            let items = vec![in alloc; inner]?;
            array(alloc, Kind::List, vec![in alloc; Value::List(items)]?)
        }
        _ => Err(Miss::Unread("no such value")),
    }
}
