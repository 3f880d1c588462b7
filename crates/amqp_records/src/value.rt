//! Values as JSON.

ghost use Rattle.std.specs.Prelude.{◌≡◌, ◌<◌, ◌≤◌, ◌^◌, IfOk};
ghost use Rattle.serde_json.specs.View.{view};
ghost use Rattle.amqp_records.specs.Lines.{whole_json};

use amqp_dump::LIMITS;
use amqp_types::{ReadFault, Value, decode};
use base64::engine::general_purpose::STANDARD;
use byteorder::{BigEndian, ByteOrder};
use serde_json::{Map, Number, Value as Json, put};
use std::alloc::{AllocError, Global};
use uuid::Uuid;

/// Whole numbers above this one, and below its negative, are strings, since many readers keep numbers as floats.
const LARGEST_WHOLE: u64 = 1 << 53;

/// More levels than any value has that is read within [`LIMITS`].
pub const LEVELS: usize = LIMITS.depth + 1;

/// An object that is being made.
pub type Members = Map<String, Json>;

/// What a binary value is in JSON.
#[derive(Clone, Copy, Debug, PartialEq, Eq)]
pub enum Binaries {
    /// A string: its base64. A string of the same characters is the same.
    Text,
    /// `{"binary":"BASE64"}`, which no string is.
    Object,
}

/// Returns the JSON of the value that these bytes are. If they are none within the limits of `dump`, it is that of the
/// bytes as a binary.
pub fn json_in(alloc: Global, binaries: Binaries, bytes: &[u8]) -> Result<Json, AllocError> {
    match decode(alloc, bytes, LIMITS) {
        Ok((value, len)) if len == bytes.len() => json_of(alloc, LEVELS, binaries, &value),
        Err(ReadFault::NoMemory) => Err(AllocError),
        _ => binary(alloc, binaries, bytes),
    }
}

/// Returns the JSON of a value that has fewer levels than `depth`.
#[cycle(json)]
pub fn json_of(
    alloc: Global,
    depth: usize,
    binaries: Binaries,
    value: &Value,
) -> Result<Json, AllocError> {
    if depth == 0 {
        return Ok(Json::Null);
    }
    match value {
        Value::List(items) => list_of(alloc, depth - 1, binaries, items),
        Value::Array {
            descriptors,
            items,
            ..
        } => array_of(alloc, depth - 1, binaries, descriptors, items),
        Value::Map(entries) => map_of(alloc, depth - 1, binaries, entries),
        Value::Described(descriptor, described) => {
            let mut members = Members::new(alloc);
            put(
                &mut members,
                alloc,
                "descriptor",
                json_of(alloc, depth - 1, binaries, descriptor)?,
            )?;
            put(
                &mut members,
                alloc,
                "value",
                json_of(alloc, depth - 1, binaries, described)?,
            )?;
            Ok(Json::Object(members))
        }
        Value::Binary(octets) => binary(alloc, binaries, octets),
        _ => scalar(alloc, value),
    }
}

/// Returns the list of these items.
#[cycle(json)]
fn list_of(
    alloc: Global,
    depth: usize,
    binaries: Binaries,
    items: &[Value],
) -> Result<Json, AllocError> {
    let mut list = Vec::new(alloc);
    for item in items {
        list.push(json_of(alloc, depth, binaries, item)?)?;
    }
    Ok(Json::Array(list))
}

/// Returns the list of an array's items. If these are described, it returns an object of the descriptors,
/// outermost first, and the list.
#[cycle(json)]
fn array_of(
    alloc: Global,
    depth: usize,
    binaries: Binaries,
    descriptors: &[Value],
    items: &[Value],
) -> Result<Json, AllocError> {
    let items = list_of(alloc, depth, binaries, items)?;
    if descriptors.is_empty() {
        return Ok(items);
    }
    let mut members = Members::new(alloc);
    put(
        &mut members,
        alloc,
        "descriptors",
        list_of(alloc, depth, binaries, descriptors)?,
    )?;
    put(&mut members, alloc, "items", items)?;
    Ok(Json::Object(members))
}

/// Returns an object if all keys are strings or all are symbols, else the list of the pairs.
#[cycle(json)]
fn map_of(
    alloc: Global,
    depth: usize,
    binaries: Binaries,
    entries: &[(Value, Value)],
) -> Result<Json, AllocError> {
    if !are_texts(entries) {
        return pairs_of(alloc, depth, binaries, entries);
    }
    let mut members = Members::new(alloc);
    for (key, value) in entries {
        let value = json_of(alloc, depth, binaries, value)?;
        put(&mut members, alloc, text_of(key).unwrap_or(""), value)?;
    }
    Ok(Json::Object(members))
}

/// Returns the list of the pairs of keys and values.
#[cycle(json)]
fn pairs_of(
    alloc: Global,
    depth: usize,
    binaries: Binaries,
    entries: &[(Value, Value)],
) -> Result<Json, AllocError> {
    let mut list = Vec::new(alloc);
    for (key, value) in entries {
        let mut pair = Vec::new(alloc);
        pair.push(json_of(alloc, depth, binaries, key)?)?;
        pair.push(json_of(alloc, depth, binaries, value)?)?;
        list.push(Json::Array(pair))?;
    }
    Ok(Json::Array(list))
}

/// Returns whether all keys are strings, or all are symbols. Then keys that differ have texts that differ.
fn are_texts(entries: &[(Value, Value)]) -> bool {
    entries
        .iter()
        .all(|entry| matches!(entry.0, Value::String(_)))
        || entries
            .iter()
            .all(|entry| matches!(entry.0, Value::Symbol(_)))
}

/// Returns the text of a string or a symbol.
fn text_of(value: &Value) -> Option<&str> {
    match value {
        Value::String(text) => Some(text),
        Value::Symbol(symbol) => simdutf8::basic::from_utf8(symbol.as_bytes()).ok(),
        _ => None,
    }
}

/// Returns the JSON of a value that holds no others and is no binary.
fn scalar(alloc: Global, value: &Value) -> Result<Json, AllocError> {
    match value {
        Value::Boolean(truth) => Ok(Json::Bool(*truth)),
        Value::Ubyte(number) => Ok(Json::from(*number)),
        Value::Ushort(number) => Ok(Json::from(*number)),
        Value::Uint(number) => Ok(Json::from(*number)),
        Value::Ulong(number) => whole(alloc, *number),
        Value::Byte(number) => Ok(Json::from(*number)),
        Value::Short(number) => Ok(Json::from(*number)),
        Value::Int(number) => Ok(Json::from(*number)),
        Value::Long(number) | Value::Timestamp(number) => signed_whole(alloc, *number),
        Value::Float(octets) => float(alloc, f64::from(BigEndian::read_f32(octets))),
        Value::Double(octets) => float(alloc, BigEndian::read_f64(octets)),
        Value::Decimal32(octets) => hex(alloc, octets),
        Value::Decimal64(octets) => hex(alloc, octets),
        Value::Decimal128(octets) => hex(alloc, octets),
        Value::Char(c) => Json::try_from_str(alloc, c.encode_utf8(&mut [0; 4])),
        Value::Uuid(octets) => {
            let mut room = Uuid::encode_buffer();
            let text = Uuid::from_bytes(*octets)
                .hyphenated()
                .encode_lower(&mut room);
            Json::try_from_str(alloc, text)
        }
        Value::String(_) | Value::Symbol(_) => {
            Json::try_from_str(alloc, text_of(value).unwrap_or(""))
        }
        _ => Ok(Json::Null),
    }
}

/// Returns a whole number, as a string if it is above 2^53.
pub fn whole(alloc: Global, number: u64) -> Result<Json, AllocError>
    ensures { IfOk result (λ json. view json ≡ whole_json number) }
{
    if number > LARGEST_WHOLE {
        return Ok(Json::String(format!(in alloc; "{number}")?));
    }
    Ok(Json::from(number))
}

/// Returns a whole number with a sign, as a string if it is above 2^53 or below -2^53.
fn signed_whole(alloc: Global, number: i64) -> Result<Json, AllocError> {
    if number.unsigned_abs() > LARGEST_WHOLE {
        return Ok(Json::String(format!(in alloc; "{number}")?));
    }
    Ok(Json::from(number))
}

/// Returns a float, as a string if JSON has no such number.
fn float(alloc: Global, number: f64) -> Result<Json, AllocError> {
    match Number::from_f64(number) {
        Some(number) => Ok(Json::Number(number)),
        None if number.is_nan() => Json::try_from_str(alloc, "NaN"),
        None if number > 0.0 => Json::try_from_str(alloc, "Infinity"),
        None => Json::try_from_str(alloc, "-Infinity"),
    }
}

/// Returns the JSON of a binary value.
pub fn binary(alloc: Global, binaries: Binaries, octets: &[u8]) -> Result<Json, AllocError> {
    let text = base64(alloc, octets)?;
    match binaries {
        Binaries::Text => Ok(text),
        Binaries::Object => object_with(alloc, "binary", text),
    }
}

/// Returns an object with one member.
pub fn object_with(alloc: Global, name: &str, value: Json) -> Result<Json, AllocError> {
    let mut members = Members::new(alloc);
    put(&mut members, alloc, name, value)?;
    Ok(Json::Object(members))
}

/// Returns bytes in base64.
pub fn base64(alloc: Global, bytes: &[u8]) -> Result<Json, AllocError> {
    Ok(Json::String(STANDARD.encode(alloc, bytes)?))
}

/// Returns bytes in lower-case hex.
fn hex(alloc: Global, bytes: &[u8]) -> Result<Json, AllocError> {
    Ok(Json::String(hex::encode(alloc, bytes)?))
}
