//! The line of a record for people.

ghost use Rattle.std.specs.Prelude.{◌≡◌, ◌≤◌, length, All, string_bytes, IfOk, OnOk};
ghost use Rattle.amqp_records.specs.Lines.{head_text, IsPrintable, IsTextLine};

use crate::line::put_printable;
use crate::record::{HEAD, Record, record_in};
use crate::section::{Section, SectionKind, sections};
use amqp_dump::{LIMITS, Page, put_hex, put_quoted, put_value};
use std::alloc::{AllocError, Global};

/// Replaces what `line` held by the line of a record: `N channel=C handle=H id=I format=F size=S` and, each after
/// a space, the sections of the message by their names. Values are as `dump` prints them, data that is UTF-8 in
/// quotes. If the bytes are not sections, they follow `bytes`.
pub fn put_line(
    alloc: Global,
    page: &mut Page,
    line: &mut Vec<u8>,
    number: u64,
    bytes: &[u8],
) -> Result<(), AllocError>
    requires { HEAD ≤ length bytes.now }
    ensures { OnOk result (IsTextLine number bytes.now line.new.items) }
{
    let record = record_in(bytes);
    let head = head_of(alloc, number, &record)?;
    page.clear();
    put_message(alloc, page, record.message)?;
    page.end_line()?;
    let shown = page.as_bytes().strip_suffix(b"\n").unwrap_or(&[]);
    line.clear();
    line.extend_from_slice(head.as_bytes())?;
    put_printable(line, shown)?;
    line.push(b'\n')?;
    Ok(())
}

/// Returns the numbers of a record as text.
fn head_of(alloc: Global, number: u64, record: &Record<'_>) -> Result<String, AllocError>
    ensures printable { IfOk result (λ text. All IsPrintable (string_bytes text)) }
    ensures numbers { IfOk result (λ text. string_bytes text ≡ head_text number «record».now.channel «record».now.handle «record».now.delivery_id «record».now.message_format (length «record».now.message.now)) }
{
    let Record {
        channel,
        handle,
        delivery_id,
        message_format,
        message,
    } = *record;
    let size = message.len();
    format!(in alloc;
        "{number} channel={channel} handle={handle} id={delivery_id} format={message_format} size={size}"
    )
}

/// Puts the sections of a message, or its bytes if they are not sections.
fn put_message(alloc: Global, out: &mut Page, message: &[u8]) -> Result<(), AllocError> {
    match sections(alloc, message)? {
        Some(sections) => {
            for section in &sections {
                put_section(out, section);
            }
        }
        None => {
            out.put(b" bytes ");
            put_binary(out, message);
        }
    }
    Ok(())
}

/// Puts a space, the name of a section and its value.
fn put_section(out: &mut Page, section: &Section<'_>) {
    out.put_byte(b' ');
    out.put(section.kind.name().as_bytes());
    out.put_byte(b' ');
    match section.kind {
        SectionKind::Data => put_data(out, section.data()),
        _ => {
            put_value(out, LIMITS.depth, section.value);
        }
    }
}

/// Puts bytes in quotes if they are UTF-8, else in hex.
fn put_data(out: &mut Page, data: &[u8]) {
    if simdutf8::basic::from_utf8(data).is_ok() {
        put_quoted(out, data);
    } else {
        put_binary(out, data);
    }
}

/// Puts bytes as `dump` prints a binary.
fn put_binary(out: &mut Page, bytes: &[u8]) {
    out.put(b"binary:");
    put_hex(out, bytes);
}
