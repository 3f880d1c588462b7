//! `amqp records`: what `recv` wrote, printed while it comes.

ghost use Rattle.std.specs.Prelude.{◌≡◌, ◌≢◌, ◌↔◌, ℕ, ◌+◌, ◌-◌, ◌<◌, ◌≤◌, ◌++◌, [], List, Option, true, false, length, take, drop, IsTrue, IfOk, IfErr, OnOk, OnErr, Ok, Err};
ghost use Rattle.std.specs.Io.KnownBytes.{Consumes, Keeps, Appends};
ghost use Rattle.amqp_frame.specs.Devices.{device_inner, has_failed, has_ended, reads_ahead, AppendsFront};
ghost use Rattle.amqp_records.specs.Lines.{IsJsonLine};
ghost use Rattle.amqp_records.specs.Records.{front_of, BeginsNoRecord, IsRecord};
ghost use Rattle.amqp_records.specs.Printing.{IsLineOf, IsWritten, BeginsWriting, HasPrinted, HasBegun, Prints, BreaksOff, IsNothing, IsCut, IsTooLong, BreaksIn};

use crate::faults::RecordsFault;
use crate::record::{Front, HEAD, front_of};
use crate::value::Binaries;
use crate::{json, summary};
use amqp_dump::Page;
use amqp_frame::Device;
use std::alloc::{AllocError, Global};
use std::io::{Read, Write};

/// How many bytes are read at a time.
const PIECE: usize = 65536;

/// What is written of each record.
#[derive(Clone, Copy, Debug, PartialEq, Eq)]
pub enum Output {
    /// A line for people: its numbers, and the sections of its message in the text of `dump`.
    Text,
    /// One JSON object on a line.
    Json,
    /// The message of the record of this number, counted from 1, as it is, and nothing of the others.
    Only(u64),
}

/// The record that is due.
#[derive(Clone, Copy, Debug)]
struct Due {
    /// Its number, from 1.
    number: u64,
    /// Where it begins, in bytes from the start of the file.
    place: u64,
}

/// Room to make a line in.
#[derive(Drop)]
pub struct Scratch {
    page: Page,
    line: Vec<u8>,
}

impl Scratch {
    /// Makes room for a line, and for `capacity` bytes of a message that is shown in it.
    pub fn new(alloc: Global, capacity: usize) -> Result<Scratch, AllocError> {
        Ok(Scratch {
            page: Page::with_capacity(alloc, capacity)?,
            line: Vec::new(alloc),
        })
    }

    /// Returns the line that was made last.
    pub fn line(&self) -> &[u8]
        ensures { result.now ≡ self.now.line.items }
    {
        &self.line
    }
}

/// Reads a file of records to its end, and writes what is wanted of each whole record, in order. It flushes the
/// writer before it reads on. It returns how many records there are. A message has at most `max_message` bytes.
/// Between two reads it keeps less than one record. Neither device may have failed before.
///
/// # Errors
///
/// `Cut` with the place of the first record that is not whole, and `TooLong` with that of the first whose message
/// is longer. All that comes before is written then. `Read` and `Write` if that device has failed, `Endless` if
/// the reader gives 2^64 bytes or more, and `NoMemory` if memory is refused. What was written is then a beginning
/// of what is written of the records that came; after `Read` it is all that is written of those that came whole.
pub fn print_records<R: Read + Drop, W: Write + Drop>(
    alloc: Global,
    reader: &mut Device<R>,
    writer: &mut Device<W>,
    output: Output,
    max_message: u32,
) -> Result<u64, RecordsFault>
    requires reader { ¬ (IsTrue (has_failed reader.old)) }
    requires writer { ¬ (IsTrue (has_failed writer.old)) }
    ensures read { (result ≡ Err RecordsFault.Read) ↔ IsTrue (has_failed reader.new) }
    ensures write { (result ≡ Err RecordsFault.Write) ↔ IsTrue (has_failed writer.new) }
    ensures ended { OnOk result (IsTrue (has_ended reader.new)) }
    ensures printed { IfOk result (λ count. (place : ℕ) × Prints output max_message (R.remaining (device_inner reader.old)) (R.remaining (device_inner reader.new)) (W.contents (device_inner writer.old)) (W.contents (device_inner writer.new)) count place IsNothing) }
    ensures cut { (place : ℕ) → result ≡ Err (RecordsFault.Cut place) → IsTrue (has_ended reader.new)
        × ((count : ℕ) × Prints output max_message (R.remaining (device_inner reader.old)) (R.remaining (device_inner reader.new)) (W.contents (device_inner writer.old)) (W.contents (device_inner writer.new)) count place (IsCut max_message)) }
    ensures long { (place : ℕ) → result ≡ Err (RecordsFault.TooLong place)
        → (count : ℕ) × Prints output max_message (R.remaining (device_inner reader.old)) (R.remaining (device_inner reader.new)) (W.contents (device_inner writer.old)) (W.contents (device_inner writer.new)) count place (IsTooLong max_message) }
    ensures shown { result ≡ Err RecordsFault.Read
        → (count place : ℕ) × Prints output max_message (R.remaining (device_inner reader.old)) (R.remaining (device_inner reader.new)) (W.contents (device_inner writer.old)) (W.contents (device_inner writer.new)) count place (BeginsNoRecord max_message) }
    ensures begun { OnErr result (BreaksOff output max_message (R.remaining (device_inner reader.old)) (R.remaining (device_inner reader.new)) (W.contents (device_inner writer.old)) (W.contents (device_inner writer.new))) }
{
    let page = Page::with_capacity(alloc, PIECE)?;
    let mut piece = vec![in alloc; 0u8; PIECE]?;
    let mut scratch = Scratch {
        page,
        line: Vec::new(alloc),
    };
    print_all(
        alloc,
        reader,
        &mut piece,
        &mut scratch,
        writer,
        output,
        max_message,
    )
}

/// Reads into `piece` until the reader ends or a record is too long, and writes what is wanted of the records that come.
fn print_all<R: Read + Drop, W: Write + Drop>(
    alloc: Global,
    reader: &mut Device<R>,
    piece: &mut [u8],
    scratch: &mut Scratch,
    writer: &mut Device<W>,
    output: Output,
    max_message: u32,
) -> Result<u64, RecordsFault>
    requires reader { ¬ (IsTrue (has_failed reader.old)) }
    requires writer { ¬ (IsTrue (has_failed writer.old)) }
    requires some { 0 < length piece.old }
    ensures read { (result ≡ Err RecordsFault.Read) ↔ IsTrue (has_failed reader.new) }
    ensures write { (result ≡ Err RecordsFault.Write) ↔ IsTrue (has_failed writer.new) }
    ensures ended { OnOk result (IsTrue (has_ended reader.new)) }
    ensures printed { IfOk result (λ count. (place : ℕ) × Prints output max_message (R.remaining (device_inner reader.old)) (R.remaining (device_inner reader.new)) (W.contents (device_inner writer.old)) (W.contents (device_inner writer.new)) count place IsNothing) }
    ensures cut { (place : ℕ) → result ≡ Err (RecordsFault.Cut place) → IsTrue (has_ended reader.new)
        × ((count : ℕ) × Prints output max_message (R.remaining (device_inner reader.old)) (R.remaining (device_inner reader.new)) (W.contents (device_inner writer.old)) (W.contents (device_inner writer.new)) count place (IsCut max_message)) }
    ensures long { (place : ℕ) → result ≡ Err (RecordsFault.TooLong place)
        → (count : ℕ) × Prints output max_message (R.remaining (device_inner reader.old)) (R.remaining (device_inner reader.new)) (W.contents (device_inner writer.old)) (W.contents (device_inner writer.new)) count place (IsTooLong max_message) }
    ensures shown { result ≡ Err RecordsFault.Read
        → (count place : ℕ) × Prints output max_message (R.remaining (device_inner reader.old)) (R.remaining (device_inner reader.new)) (W.contents (device_inner writer.old)) (W.contents (device_inner writer.new)) count place (BeginsNoRecord max_message) }
    ensures begun { OnErr result (BreaksOff output max_message (R.remaining (device_inner reader.old)) (R.remaining (device_inner reader.new)) (W.contents (device_inner writer.old)) (W.contents (device_inner writer.new))) }
{
    let mut arrived = Vec::new(alloc);
    let mut due = Due {
        number: 1,
        place: 0,
    };
    while !reader.ended() {
        let count = read_piece(reader, piece)?;
        print_piece(
            alloc,
            output,
            max_message,
            &piece[..count],
            &mut arrived,
            &mut due,
            scratch,
            writer,
        )?;
        if let Front::TooLong = front_of(&arrived, max_message) {
            return Err(RecordsFault::TooLong(due.place));
        }
    }
    if arrived.is_empty() {
        Ok(due.number - 1)
    } else {
        Err(RecordsFault::Cut(due.place))
    }
}

/// Reads into the front of `piece`, and returns how many bytes came.
fn read_piece<R: Read + Drop>(
    reader: &mut Device<R>,
    piece: &mut [u8],
) -> Result<usize, RecordsFault>
    requires unmarked { ¬ (IsTrue (has_failed reader.old)) }
    requires some { 0 < length piece.old }
    requires going { has_ended reader.old ≡ false }
    ensures read { OnErr result (result ≡ Err RecordsFault.Read) }
    ensures failed { (result ≡ Err RecordsFault.Read) ↔ IsTrue (has_failed reader.new) }
    ensures bound { IfOk result (λ n. n ≤ length piece.new) }
    ensures bytes { IfOk result (λ n. Consumes (R.remaining (device_inner reader.old)) (R.remaining (device_inner reader.new)) (take n piece.new)) }
    ensures kept { OnErr result (Keeps (R.remaining (device_inner reader.old)) (R.remaining (device_inner reader.new))) }
    ensures fewer { OnOk result (reads_ahead reader.new < reads_ahead reader.old) }
{
    match reader.read(piece) {
        Ok(count) => Ok(count),
        Err(_) => Err(RecordsFault::Read),
    }
}

/// Adds a piece to the bytes that arrived, writes what is wanted of the records that are whole now, and drops
/// these.
fn print_piece<W: Write + Drop>(
    alloc: Global,
    output: Output,
    max_message: u32,
    piece: &[u8],
    arrived: &mut Vec<u8>,
    due: &mut Due,
    scratch: &mut Scratch,
    writer: &mut Device<W>,
) -> Result<(), RecordsFault>
    requires { ¬ (IsTrue (has_failed writer.old)) }
    ensures fault { IfErr result BreaksIn }
    ensures read { result ≢ Err RecordsFault.Read }
    ensures write { (result ≡ Err RecordsFault.Write) ↔ IsTrue (has_failed writer.new) }
    ensures none { OnOk result (BeginsNoRecord max_message arrived.new.items) }
    ensures kept { OnOk result (front_of max_message arrived.new.items ≢ Front.TooLong → length arrived.new.items < HEAD + max_message) }
    ensures on { (held : Option (List ℕ)) (came : List ℕ) → HasPrinted output max_message held (W.contents (device_inner writer.old)) due.old.number due.old.place arrived.old.items came
        → OnOk result (HasPrinted output max_message held (W.contents (device_inner writer.new)) due.new.number due.new.place arrived.new.items (came ++ piece.now)) }
    ensures begun { (held : Option (List ℕ)) (came : List ℕ) → HasPrinted output max_message held (W.contents (device_inner writer.old)) due.old.number due.old.place arrived.old.items came
        → OnErr result (HasBegun output max_message held (W.contents (device_inner writer.new)) (came ++ piece.now)) }
{
    arrived.extend_from_slice(piece)?;
    let printed = print_whole(alloc, output, max_message, arrived, due, scratch, writer)?;
    flush(writer)?;
    drop_front(arrived, printed);
    Ok(())
}

/// Drops the first `count` bytes. If that is 0, nothing is moved. Takes no memory.
pub fn drop_front(bytes: &mut Vec<u8>, count: usize)
    requires { count ≤ length bytes.old.items }
    ensures { bytes.new.items ≡ drop count bytes.old.items }
{
    if count == 0 {
        return;
    }
    let len = bytes.len();
    bytes.as_mut_slice().copy_within(count..len, 0);
    bytes.truncate(len - count);
}

/// Writes what is wanted of the whole records at the front, and returns how many bytes they have.
fn print_whole<W: Write + Drop>(
    alloc: Global,
    output: Output,
    max_message: u32,
    bytes: &[u8],
    due: &mut Due,
    scratch: &mut Scratch,
    writer: &mut Device<W>,
) -> Result<usize, RecordsFault>
    requires unmarked { ¬ (IsTrue (has_failed writer.old)) }
    ensures within { IfOk result (λ n. n ≤ length bytes.now) }
    ensures none { IfOk result (λ n. BeginsNoRecord max_message (drop n bytes.now)) }
    ensures fault { IfErr result BreaksIn }
    ensures read { result ≢ Err RecordsFault.Read }
    ensures write { (result ≡ Err RecordsFault.Write) ↔ IsTrue (has_failed writer.new) }
    ensures on { (held : Option (List ℕ)) (came : List ℕ) → HasPrinted output max_message held (W.contents (device_inner writer.old)) due.old.number due.old.place bytes.now came
        → IfOk result (λ n. HasPrinted output max_message held (W.contents (device_inner writer.new)) due.new.number due.new.place (drop n bytes.now) came) }
    ensures begun { (held : Option (List ℕ)) (came : List ℕ) → HasPrinted output max_message held (W.contents (device_inner writer.old)) due.old.number due.old.place bytes.now came
        → OnErr result (HasBegun output max_message held (W.contents (device_inner writer.new)) came) }
{
    let mut at = 0;
    while let Front::Whole(len) = front_of(&bytes[at..], max_message) {
        let record = &bytes[at..at + len];
        print_record(alloc, output, due.number, record, scratch, writer)?;
        pass(due, len)?;
        at += len;
    }
    Ok(at)
}

/// Makes the next record due, after one of `len` bytes.
fn pass(due: &mut Due, len: usize) -> Result<(), RecordsFault>
    ensures fault { OnErr result (result ≡ Err RecordsFault.Endless) }
    ensures number { OnOk result (due.new.number ≡ due.old.number + 1) }
    ensures place { OnOk result (due.new.place ≡ due.old.place + len) }
{
    let Some(number) = due.number.checked_add(1) else {
        return Err(RecordsFault::Endless);
    };
    let Some(place) = due.place.checked_add(len as u64) else {
        return Err(RecordsFault::Endless);
    };
    *due = Due { number, place };
    Ok(())
}

/// Writes what is wanted of the record with this number.
fn print_record<W: Write + Drop>(
    alloc: Global,
    output: Output,
    number: u64,
    bytes: &[u8],
    scratch: &mut Scratch,
    writer: &mut Device<W>,
) -> Result<(), RecordsFault>
    requires unmarked { ¬ (IsTrue (has_failed writer.old)) }
    requires head { HEAD ≤ length bytes.now }
    ensures fault { IfErr result BreaksIn }
    ensures read { result ≢ Err RecordsFault.Read }
    ensures write { (result ≡ Err RecordsFault.Write) ↔ IsTrue (has_failed writer.new) }
    ensures written { OnOk result ((written : List ℕ) × IsWritten output number bytes.now written × Appends (W.contents (device_inner writer.old)) (W.contents (device_inner writer.new)) written) }
    ensures begun { OnErr result (BeginsWriting output number bytes.now (W.contents (device_inner writer.old)) (W.contents (device_inner writer.new))) }
{
    if let Output::Only(wanted) = output {
        if number != wanted {
            return Ok(());
        }
        return write_out(&bytes[HEAD..], writer);
    }
    put_line_of(alloc, output, number, bytes, scratch)?;
    write_out(&scratch.line, writer)
}

/// Replaces the line that was made last by the line of a record.
pub fn put_line_of(
    alloc: Global,
    output: Output,
    number: u64,
    bytes: &[u8],
    scratch: &mut Scratch,
) -> Result<(), AllocError>
    requires { HEAD ≤ length bytes.now }
    ensures { OnOk result (IsLineOf output number bytes.now scratch.new.line.items) }
{
    match output {
        Output::Json => { json::put_line(alloc, &mut scratch.line, Binaries::Text, number, bytes) }
        _ => summary::put_line(alloc, &mut scratch.page, &mut scratch.line, number, bytes),
    }
}

/// Replaces the line that was made last by the JSON object of a record, in which a binary value is
/// `{"binary":"BASE64"}`.
pub fn put_object_of(
    alloc: Global,
    number: u64,
    bytes: &[u8],
    scratch: &mut Scratch,
) -> Result<(), AllocError>
    requires { HEAD ≤ length bytes.now }
    ensures { OnOk result (IsJsonLine number bytes.now scratch.new.line.items) }
{
    json::put_line(alloc, &mut scratch.line, Binaries::Object, number, bytes)
}

/// Writes all of the bytes.
fn write_out<W: Write + Drop>(bytes: &[u8], writer: &mut Device<W>) -> Result<(), RecordsFault>
    requires { ¬ (IsTrue (has_failed writer.old)) }
    ensures fault { OnErr result (result ≡ Err RecordsFault.Write) }
    ensures write { (result ≡ Err RecordsFault.Write) ↔ IsTrue (has_failed writer.new) }
    ensures written { OnOk result (Appends (W.contents (device_inner writer.old)) (W.contents (device_inner writer.new)) bytes.now) }
    ensures begun { OnErr result (AppendsFront (W.contents (device_inner writer.old)) (W.contents (device_inner writer.new)) bytes.now) }
{
    match writer.write_all(bytes) {
        Ok(()) => Ok(()),
        Err(_) => Err(RecordsFault::Write),
    }
}

/// Flushes the writer.
fn flush<W: Write + Drop>(writer: &mut Device<W>) -> Result<(), RecordsFault>
    requires { ¬ (IsTrue (has_failed writer.old)) }
    ensures fault { OnErr result (result ≡ Err RecordsFault.Write) }
    ensures write { (result ≡ Err RecordsFault.Write) ↔ IsTrue (has_failed writer.new) }
    ensures kept { Keeps (W.contents (device_inner writer.old)) (W.contents (device_inner writer.new)) }
{
    match writer.flush() {
        Ok(()) => Ok(()),
        Err(_) => Err(RecordsFault::Write),
    }
}
