//! The line of a record for tools: one JSON object.

ghost use Rattle.std.specs.Prelude.{◌≡◌, ◌≤◌, length, IfOk, OnOk};
ghost use Rattle.serde_json.specs.Data.{object};
ghost use Rattle.serde_json.specs.View.{view, members_view};
ghost use Rattle.amqp_records.specs.Lines.{HasNumbers, IsJsonLine};

use crate::ascii::put_ascii;
use crate::record::{HEAD, Record, record_in};
use crate::section::{Section, SectionKind, sections};
use crate::value::{Binaries, LEVELS, Members, base64, json_of, whole};
use amqp_dump::LIMITS;
use amqp_types::{Value, decode};
use serde_json::{Value as Json, put};
use std::alloc::{AllocError, Global};

/// Replaces what `line` held by the line of a record: a JSON object with the members `number`, `channel`,
/// `handle`, `id`, `format`, `size`, and the sections of the message by their names. The bytes of all data
/// sections together are `data` if they are UTF-8, else `data_base64`. If the message's bytes are not sections,
/// they are `bytes_base64`.
pub fn put_line(
    alloc: Global,
    line: &mut Vec<u8>,
    binaries: Binaries,
    number: u64,
    bytes: &[u8],
) -> Result<(), AllocError>
    requires { HEAD ≤ length bytes.now }
    ensures { OnOk result (IsJsonLine number bytes.now line.new.items) }
{
    let object = object_of(alloc, binaries, number, &record_in(bytes))?;
    let text = object.to_string(alloc)?;
    line.clear();
    put_ascii(line, &text)?;
    line.push(b'\n')?;
    Ok(())
}

/// Returns the object of a record.
fn object_of(
    alloc: Global,
    binaries: Binaries,
    number: u64,
    record: &Record<'_>,
) -> Result<Json, AllocError>
    ensures { IfOk result (λ json. HasNumbers number «record».now.channel «record».now.handle «record».now.delivery_id «record».now.message_format (length «record».now.message.now) (view json)) }
{
    let mut members = Members::new(alloc);
    match sections(alloc, record.message)? {
        Some(sections) => put_sections(alloc, &mut members, binaries, &sections)?,
        None => {
            let bytes = base64(alloc, record.message)?;
            put(&mut members, alloc, "bytes_base64", bytes)?;
        }
    }
    put_numbers(alloc, &mut members, number, record)?;
    Ok(Json::Object(members))
}

/// Puts the numbers of a record. No section has their names.
fn put_numbers(
    alloc: Global,
    members: &mut Members,
    number: u64,
    record: &Record<'_>,
) -> Result<(), AllocError>
    ensures { OnOk result (HasNumbers number «record».now.channel «record».now.handle «record».now.delivery_id «record».now.message_format (length «record».now.message.now) (object (members_view members.new.entries))) }
{
    let size = record.message.len() as u64;
    put(members, alloc, "number", whole(alloc, number)?)?;
    put(members, alloc, "channel", Json::from(record.channel))?;
    put(members, alloc, "handle", Json::from(record.handle))?;
    put(members, alloc, "id", Json::from(record.delivery_id))?;
    put(members, alloc, "format", Json::from(record.message_format))?;
    put(members, alloc, "size", Json::from(size))
}

/// Puts the sections of a message.
fn put_sections(
    alloc: Global,
    members: &mut Members,
    binaries: Binaries,
    sections: &[Section<'_>],
) -> Result<(), AllocError> {
    let mut data: Option<Vec<u8>> = None;
    let mut sequences: Option<Vec<Json>> = None;
    for section in sections {
        match section.kind {
            SectionKind::Data => {
                let mut bytes = data.take().unwrap_or(Vec::new(alloc));
                bytes.extend_from_slice(section.data())?;
                data = Some(bytes);
            }
            SectionKind::AmqpSequence => {
                let mut lists = sequences.take().unwrap_or(Vec::new(alloc));
                lists.push(value_of(alloc, binaries, section)?)?;
                sequences = Some(lists);
            }
            _ => {
                let value = value_of(alloc, binaries, section)?;
                put(members, alloc, section.kind.name(), value)?;
            }
        }
    }
    if let Some(bytes) = data {
        put_data(alloc, members, &bytes)?;
    }
    if let Some(lists) = sequences {
        let name = SectionKind::AmqpSequence.name();
        put(members, alloc, name, Json::Array(lists))?;
    }
    Ok(())
}

/// Puts the bytes of a body.
fn put_data(alloc: Global, members: &mut Members, data: &[u8]) -> Result<(), AllocError> {
    match simdutf8::basic::from_utf8(data) {
        Ok(text) => put(members, alloc, "data", Json::try_from_str(alloc, text)?),
        Err(_) => put(members, alloc, "data_base64", base64(alloc, data)?),
    }
}

/// Returns the value of a section, which is known to be within the limits. The fields of a header and of
/// properties have their names, and those that are null are left out.
fn value_of(alloc: Global, binaries: Binaries, section: &Section<'_>) -> Result<Json, AllocError> {
    let Ok((value, _)) = decode(alloc, section.value, LIMITS) else {
        return Err(AllocError);
    };
    match (section.kind, &value) {
        (SectionKind::Header | SectionKind::Properties, Value::List(items)) => {
            fields_of(alloc, binaries, section.kind.fields(), items)
        }
        _ => json_of(alloc, LEVELS, binaries, &value),
    }
}

/// Returns the object of fields that have these names, without those that are null.
fn fields_of(
    alloc: Global,
    binaries: Binaries,
    names: &[&str],
    items: &[Value],
) -> Result<Json, AllocError> {
    let mut members = Members::new(alloc);
    for (name, item) in names.iter().zip(items) {
        match item {
            Value::Null => {}
            _ => {
                let value = json_of(alloc, LEVELS, binaries, item)?;
                put(&mut members, alloc, name, value)?;
            }
        }
    }
    Ok(Json::Object(members))
}
