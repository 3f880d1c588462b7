//! Tests `amqp_records` by the rows of `data/`: what is written of files of records, for people and for tools.
//!
//! Bytes are hex. `file TEXT|JSON|N MAX BYTES` answers the lines of a file of records, parted by ` / `, or the
//! bytes of the Nth message, and after them how many records there are, or the fault. `message BYTES` answers the
//! sections of a message in the text for people, and `json BYTES` the JSON object of a record of that message;
//! `value BYTES` the text of a value that is the body of a message. `blocks TEXT|JSON|N MAX BYTES` is `file` for a
//! file of blocks, `whole MAX BYTES` answers how far one is whole, and `put 7:BYTES 8*3:BYTES` the blocks of the
//! records that were put, the last ones three times; of more than 200 bytes their heads alone, the sizes as
//! decimals. `made N` answers the SHA-256 of the JSON lines of the hundred records after the first N of the file
//! that is the first argument, `as-dumped N` how many of their lines show each section as a dump does ([`made`]).
#![tactic(auto)]

mod blocks;
mod made;

use amqp_frame::Device;
use amqp_records::{Output, print_records};
use std::alloc::Global;
use std::{env, fs};
use test_heap::TestHeap;
use test_row_files::words::name_of;
use test_row_files::{Miss, RowFile, Subject};

/// The head of a record but for the length: channel 1, handle 2, delivery-id 3 and format 4.
const HEAD: [u8; 14] = [0, 1, 0, 0, 0, 2, 0, 0, 0, 3, 0, 0, 0, 4];

/// The longest message of the calls that name no other.
const MAX_MESSAGE: u32 = 1 << 30;

/// Calls of which none leaves anything.
#[derive(Drop)]
struct Records {
    /// The file of records that some rows tell of.
    made: Vec<u8>,
}

impl Subject for Records {
    fn begin(&mut self) {}

    fn call(&mut self, alloc: Global, words: &str) -> Result<String, Miss> {
        let (name, words) = name_of(words);
        match name {
            "file" => file(alloc, words),
            "blocks" => blocks::printed(alloc, words),
            "whole" => blocks::whole(alloc, words),
            "put" => blocks::put(alloc, words),
            "message" => message(alloc, words),
            "json" => object(alloc, words),
            "value" => value(alloc, words),
            "made" => made::digest(alloc, &self.made, words),
            "as-dumped" => made::as_dumped(alloc, &self.made, words),
            _ => Err(Miss::Unread("no such call")),
        }
    }

    fn shown(&self, alloc: Global) -> Result<String, Miss> {
        Ok(String::new(alloc))
    }
}

/// Returns what is written of a file of records, and how it ends.
fn file(alloc: Global, words: &str) -> Result<String, Miss> {
    let (form, words) = name_of(words);
    let (max, words) = name_of(words);
    let max = max.parse::<u32>().ok().ok_or("no number")?;
    let bytes = bytes_of(alloc, words)?;
    let output = match form {
        "TEXT" => Output::Text,
        "JSON" => Output::Json,
        _ => Output::Only(form.parse::<u64>().ok().ok_or("no number")?),
    };
    let (written, end) = printed(alloc, &bytes, output, max)?;
    if let Output::Only(_) = output {
        let text = hex::encode(alloc, &written).ok().ok_or("no hex")?;
        return Ok(format!(in alloc; "message={text} / {end}")?);
    }
    let mut lines = String::new(alloc);
    for line in str::from_utf8(&written)
        .ok()
        .ok_or("no text")?
        .split_terminator('\n')
    {
        lines.push_str(line)?;
        lines.push_str(" / ")?;
    }
    lines.push_str(&end)?;
    Ok(lines)
}

/// Returns the sections of a message.
fn message(alloc: Global, words: &str) -> Result<String, Miss> {
    let bytes = bytes_of(alloc, words)?;
    let line = line_of(alloc, &bytes, Output::Text)?;
    let len = bytes.len();
    let head = format!(in alloc; "1 channel=1 handle=2 id=3 format=4 size={len}")?;
    let sections = line.strip_prefix(head.as_str()).ok_or("another head")?;
    Ok(String::from_str(alloc, sections.trim_start())?)
}

/// Returns the object of a record.
fn object(alloc: Global, words: &str) -> Result<String, Miss> {
    line_of(alloc, &bytes_of(alloc, words)?, Output::Json)
}

/// The text of a value, after the name of its section.
fn value(alloc: Global, words: &str) -> Result<String, Miss> {
    let mut section = Vec::from_slice(alloc, &[0, 0x53, 0x77])?;
    section.extend_from_slice(&bytes_of(alloc, words)?)?;
    let line = line_of(alloc, &section, Output::Text)?;
    let len = section.len();
    let head = format!(in alloc; "1 channel=1 handle=2 id=3 format=4 size={len} amqp-value ")?;
    let text = line.strip_prefix(head.as_str()).ok_or("no value")?;
    Ok(String::from_str(alloc, text)?)
}

/// Returns the one line of a record of this message.
fn line_of(alloc: Global, message: &[u8], output: Output) -> Result<String, Miss> {
    let len = u32::try_from(message.len()).ok().ok_or("too long")?;
    let mut record = Vec::from_slice(alloc, &HEAD)?;
    record.extend_from_slice(&len.to_be_bytes())?;
    record.extend_from_slice(message)?;
    let (written, end) = printed(alloc, &record, output, MAX_MESSAGE)?;
    if end.as_str() != "1" {
        return Ok(end);
    }
    let text = str::from_utf8(&written).ok().ok_or("no text")?;
    let line = text.strip_suffix('\n').ok_or("no end of a line")?;
    Ok(String::from_str(alloc, line)?)
}

/// Returns what is written of a file of records, and how it ends.
fn printed(
    alloc: Global,
    file: &[u8],
    output: Output,
    max_message: u32,
) -> Result<(Vec<u8>, String), Miss> {
    let mut file = file;
    let mut written = Vec::new(alloc);
    let told = print_records(
        alloc,
        &mut Device::new(&mut file),
        &mut Device::new(&mut written),
        output,
        max_message,
    );
    let end = match told {
        Ok(count) => format!(in alloc; "{count}")?,
        Err(fault) => format!(in alloc; "fault: {fault}")?,
    };
    Ok((written, end))
}

/// Returns bytes in hex.
pub fn bytes_of(alloc: Global, words: &str) -> Result<Vec<u8>, Miss> {
    hex::decode(alloc, words).ok().ok_or(Miss::Unread("no hex"))
}

fn main(rt: HostRuntime) -> Result<(), Miss> {
    let heap = TestHeap::new(rt.alloc(), 0);
    let mut names = env::args(&rt)?.skip(1);
    let made = names.next().ok_or("no file of records")?;
    let mut records = Records {
        made: fs::read(&rt, made.as_str())?,
    };
    for name in names {
        let text = fs::read_to_string(&rt, name.as_str())?;
        let file = RowFile::read(rt.alloc(), text.as_str())?;
        let report = file.run(rt.alloc(), &heap, &mut records)?;
        rt.print(report.as_str())?;
    }
    Ok(())
}
