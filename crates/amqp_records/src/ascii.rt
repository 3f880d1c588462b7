//! JSON in ASCII.

ghost use Rattle.std.specs.Prelude.{◌≡◌, ◌++◌, OnOk};
ghost use Rattle.std.specs.List.{flat_map};
ghost use Rattle.std.specs.Str.{chars};
ghost use Rattle.amqp_records.specs.Lines.{ascii_of, escapes_of, unit_escape};

use std::alloc::AllocError;

/// Appends a text of JSON. A character that is not printable ASCII is written as one or two escapes, `\u` and four
/// hex digits each, which is right inside strings.
pub fn put_ascii(line: &mut Vec<u8>, text: &str) -> Result<(), AllocError>
    ensures { OnOk result (line.new.items ≡ line.old.items ++ flat_map ascii_of (chars text.now)) }
{
    for c in text.chars() {
        put_char(line, c)?;
    }
    Ok(())
}

/// Appends a character of JSON.
fn put_char(line: &mut Vec<u8>, c: char) -> Result<(), AllocError>
    ensures { OnOk result (line.new.items ≡ line.old.items ++ ascii_of c) }
{
    if let ' '..='~' = c {
        line.push(c as u8)?;
        return Ok(());
    }
    put_escapes(line, c)
}

/// Appends the escapes of a character: one, or two if its code has more than 16 bits.
fn put_escapes(line: &mut Vec<u8>, c: char) -> Result<(), AllocError>
    ensures { OnOk result (line.new.items ≡ line.old.items ++ escapes_of c) }
{
    let mut room = [0u16; 2];
    for unit in c.encode_utf16(&mut room).iter() {
        put_escape(line, *unit)?;
    }
    Ok(())
}

/// Appends the escape of a unit of UTF-16.
fn put_escape(line: &mut Vec<u8>, unit: u16) -> Result<(), AllocError>
    ensures { OnOk result (line.new.items ≡ line.old.items ++ unit_escape unit) }
{
    let mut digits = [0; 4];
    match hex::encode_to_slice(&unit.to_be_bytes(), &mut digits) {
        Ok(()) => {}
        Err(_) => unreachable!(),
    }
    line.extend_from_slice(b"\\u")?;
    line.extend_from_slice(&digits)
}
