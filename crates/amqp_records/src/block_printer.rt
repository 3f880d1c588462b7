//! `amqp records --blocks`: what a gateway wrote, printed while it comes.

ghost use Rattle.std.specs.Prelude.{◌≡◌, ◌≢◌, ◌↔◌, ℕ, ◌+◌, ◌<◌, ◌≤◌, ◌++◌, List, Option, length, take, drop, codes, decimal, string_bytes, IsTrue, IfOk, IfErr, OnOk, OnErr, Err};
ghost use Rattle.std.specs.Io.KnownBytes.{Keeps, Appends};
ghost use Rattle.amqp_frame.specs.Devices.{device_inner, has_failed, has_ended, AppendsFront};
ghost use Rattle.amqp_records.specs.Printing.{IsNothing};
ghost use Rattle.amqp_records.specs.Blocks.{FileBlock, AllRecords, IsTorn, BeginsNoBlock, number_of};
ghost use Rattle.amqp_records.specs.BlockPrinting.{with_connection, IsTold, BeginsTelling, TellsBlock, BeginsToTell, HasTold, HasBegunToTell, TellsBlocks, StopsTelling, IsCutBlock, IsNoBlock, connection_text, behind_brace, BreaksBlocks};

use crate::block_file::{further, read_piece};
use crate::blocks::{BLOCK_HEAD, BlockFront, block_front, number_of};
use crate::faults::BlocksFault;
use crate::printer::{Output, Scratch, drop_front, put_line_of};
use crate::record::{Front, HEAD, front_of};
use amqp_frame::Device;
use std::alloc::{AllocError, Global};
use std::io::{Read, Write};

/// How many bytes are read at a time.
const PIECE: usize = 65536;

/// The block that is due: the number of its first record, from 1, and where it begins.
#[derive(Clone, Copy)]
struct Due {
    number: u64,
    place: u64,
}

/// Reads a file of blocks to its end, and writes what is wanted of each record of the whole blocks, in order. That
/// is the line that [`crate::print_records`] writes, with the number of the connection, or the bytes of one
/// message. It flushes the writer before it reads on. It returns how many records there are; they are counted over
/// the whole file. A message has at most `max_message` bytes. Between two reads it keeps less than one block.
/// Neither device may have failed before.
///
/// # Errors
///
/// `Cut` with the place of the first block that is not whole, and `Block` with the place of the first bytes that
/// are no block and begin none. All that comes before is written then. `Read` and `Write` if that device has
/// failed, `Endless` if the reader gives 2^64 bytes or more, and `NoMemory` if memory is refused. What was written
/// is then a beginning of what is written of the records that came; after `Read` it is all that is written of the
/// blocks that came whole.
pub fn print_blocks<R: Read + Drop, W: Write + Drop>(
    alloc: Global,
    reader: &mut Device<R>,
    writer: &mut Device<W>,
    output: Output,
    max_message: u32,
) -> Result<u64, BlocksFault>
    requires reader { ¬ (IsTrue (has_failed reader.old)) }
    requires writer { ¬ (IsTrue (has_failed writer.old)) }
    ensures read { (result ≡ Err BlocksFault.Read) ↔ IsTrue (has_failed reader.new) }
    ensures write { (result ≡ Err BlocksFault.Write) ↔ IsTrue (has_failed writer.new) }
    ensures ended { OnOk result (IsTrue (has_ended reader.new)) }
    ensures printed { IfOk result (λ count. (place : ℕ) × TellsBlocks output max_message (R.remaining (device_inner reader.old)) (R.remaining (device_inner reader.new)) (W.contents (device_inner writer.old)) (W.contents (device_inner writer.new)) count place IsNothing) }
    ensures cut { (place : ℕ) → result ≡ Err (BlocksFault.Cut place) → IsTrue (has_ended reader.new)
        × ((count : ℕ) × TellsBlocks output max_message (R.remaining (device_inner reader.old)) (R.remaining (device_inner reader.new)) (W.contents (device_inner writer.old)) (W.contents (device_inner writer.new)) count place (IsCutBlock max_message)) }
    ensures block { (place : ℕ) → result ≡ Err (BlocksFault.Block place)
        → (count : ℕ) × TellsBlocks output max_message (R.remaining (device_inner reader.old)) (R.remaining (device_inner reader.new)) (W.contents (device_inner writer.old)) (W.contents (device_inner writer.new)) count place (IsNoBlock max_message) }
    ensures shown { result ≡ Err BlocksFault.Read
        → (count place : ℕ) × TellsBlocks output max_message (R.remaining (device_inner reader.old)) (R.remaining (device_inner reader.new)) (W.contents (device_inner writer.old)) (W.contents (device_inner writer.new)) count place (IsTorn max_message) }
    ensures begun { OnErr result (StopsTelling output max_message (R.remaining (device_inner reader.old)) (R.remaining (device_inner reader.new)) (W.contents (device_inner writer.old)) (W.contents (device_inner writer.new))) }
{
    let mut scratch = Scratch::new(alloc, PIECE)?;
    let mut piece = vec![in alloc; 0u8; PIECE]?;
    print_through(
        alloc,
        reader,
        &mut piece,
        &mut scratch,
        writer,
        output,
        max_message,
    )
}

/// Reads into `piece` until the reader ends or the bytes are no block, and writes what is wanted of the records of
/// the blocks that come.
fn print_through<R: Read + Drop, W: Write + Drop>(
    alloc: Global,
    reader: &mut Device<R>,
    piece: &mut [u8],
    scratch: &mut Scratch,
    writer: &mut Device<W>,
    output: Output,
    max_message: u32,
) -> Result<u64, BlocksFault>
    requires reader { ¬ (IsTrue (has_failed reader.old)) }
    requires writer { ¬ (IsTrue (has_failed writer.old)) }
    requires some { 0 < length piece.old }
    ensures read { (result ≡ Err BlocksFault.Read) ↔ IsTrue (has_failed reader.new) }
    ensures write { (result ≡ Err BlocksFault.Write) ↔ IsTrue (has_failed writer.new) }
    ensures ended { OnOk result (IsTrue (has_ended reader.new)) }
    ensures printed { IfOk result (λ count. (place : ℕ) × TellsBlocks output max_message (R.remaining (device_inner reader.old)) (R.remaining (device_inner reader.new)) (W.contents (device_inner writer.old)) (W.contents (device_inner writer.new)) count place IsNothing) }
    ensures cut { (place : ℕ) → result ≡ Err (BlocksFault.Cut place) → IsTrue (has_ended reader.new)
        × ((count : ℕ) × TellsBlocks output max_message (R.remaining (device_inner reader.old)) (R.remaining (device_inner reader.new)) (W.contents (device_inner writer.old)) (W.contents (device_inner writer.new)) count place (IsCutBlock max_message)) }
    ensures block { (place : ℕ) → result ≡ Err (BlocksFault.Block place)
        → (count : ℕ) × TellsBlocks output max_message (R.remaining (device_inner reader.old)) (R.remaining (device_inner reader.new)) (W.contents (device_inner writer.old)) (W.contents (device_inner writer.new)) count place (IsNoBlock max_message) }
    ensures shown { result ≡ Err BlocksFault.Read
        → (count place : ℕ) × TellsBlocks output max_message (R.remaining (device_inner reader.old)) (R.remaining (device_inner reader.new)) (W.contents (device_inner writer.old)) (W.contents (device_inner writer.new)) count place (IsTorn max_message) }
    ensures begun { OnErr result (StopsTelling output max_message (R.remaining (device_inner reader.old)) (R.remaining (device_inner reader.new)) (W.contents (device_inner writer.old)) (W.contents (device_inner writer.new))) }
{
    let mut arrived = Vec::new(alloc);
    let mut due = Due {
        number: 1,
        place: 0,
    };
    while !reader.ended() {
        let count = read_piece(reader, piece)?;
        print_piece(
            alloc,
            output,
            max_message,
            &piece[..count],
            &mut arrived,
            &mut due,
            scratch,
            writer,
        )?;
        if let BlockFront::NoBlock = block_front(&arrived, max_message) {
            return Err(BlocksFault::Block(due.place));
        }
    }
    if arrived.is_empty() {
        Ok(due.number - 1)
    } else {
        Err(BlocksFault::Cut(due.place))
    }
}

/// Adds a piece to the bytes that arrived, writes what is wanted of the records of the blocks that are whole now,
/// and drops these.
fn print_piece<W: Write + Drop>(
    alloc: Global,
    output: Output,
    max_message: u32,
    piece: &[u8],
    arrived: &mut Vec<u8>,
    due: &mut Due,
    scratch: &mut Scratch,
    writer: &mut Device<W>,
) -> Result<(), BlocksFault>
    requires { ¬ (IsTrue (has_failed writer.old)) }
    ensures fault { IfErr result BreaksBlocks }
    ensures read { result ≢ Err BlocksFault.Read }
    ensures write { (result ≡ Err BlocksFault.Write) ↔ IsTrue (has_failed writer.new) }
    ensures none { OnOk result (BeginsNoBlock max_message arrived.new.items) }
    ensures on { (held : Option (List ℕ)) (came : List ℕ) → HasTold output max_message held (W.contents (device_inner writer.old)) due.old.number due.old.place arrived.old.items came
        → OnOk result (HasTold output max_message held (W.contents (device_inner writer.new)) due.new.number due.new.place arrived.new.items (came ++ piece.now)) }
    ensures begun { (held : Option (List ℕ)) (came : List ℕ) → HasTold output max_message held (W.contents (device_inner writer.old)) due.old.number due.old.place arrived.old.items came
        → OnErr result (HasBegunToTell output max_message held (W.contents (device_inner writer.new)) (came ++ piece.now)) }
{
    arrived.extend_from_slice(piece)?;
    let printed = print_whole(alloc, output, max_message, arrived, due, scratch, writer)?;
    flush(writer)?;
    drop_front(arrived, printed);
    Ok(())
}

/// Writes what is wanted of the records of the whole blocks at the front, and returns how many bytes the blocks
/// have.
fn print_whole<W: Write + Drop>(
    alloc: Global,
    output: Output,
    max_message: u32,
    bytes: &[u8],
    due: &mut Due,
    scratch: &mut Scratch,
    writer: &mut Device<W>,
) -> Result<usize, BlocksFault>
    requires { ¬ (IsTrue (has_failed writer.old)) }
    ensures within { IfOk result (λ n. n ≤ length bytes.now) }
    ensures none { IfOk result (λ n. BeginsNoBlock max_message (drop n bytes.now)) }
    ensures fault { IfErr result BreaksBlocks }
    ensures read { result ≢ Err BlocksFault.Read }
    ensures write { (result ≡ Err BlocksFault.Write) ↔ IsTrue (has_failed writer.new) }
    ensures on { (held : Option (List ℕ)) (came : List ℕ) → HasTold output max_message held (W.contents (device_inner writer.old)) due.old.number due.old.place bytes.now came
        → IfOk result (λ n. HasTold output max_message held (W.contents (device_inner writer.new)) due.new.number due.new.place (drop n bytes.now) came) }
    ensures begun { (held : Option (List ℕ)) (came : List ℕ) → HasTold output max_message held (W.contents (device_inner writer.old)) due.old.number due.old.place bytes.now came
        → OnErr result (HasBegunToTell output max_message held (W.contents (device_inner writer.new)) came) }
{
    let mut at = 0;
    while let BlockFront::Whole(size) = block_front(&bytes[at..], max_message) {
        let block = &bytes[at..at + (BLOCK_HEAD + size)];
        print_block(alloc, output, max_message, block, due, scratch, writer)?;
        at += BLOCK_HEAD + size;
    }
    Ok(at)
}

/// Writes what is wanted of the records of a block, and makes the next block due.
fn print_block<W: Write + Drop>(
    alloc: Global,
    output: Output,
    max_message: u32,
    block: &[u8],
    due: &mut Due,
    scratch: &mut Scratch,
    writer: &mut Device<W>,
) -> Result<(), BlocksFault>
    requires unmarked { ¬ (IsTrue (has_failed writer.old)) }
    requires head { BLOCK_HEAD ≤ length block.now }
    requires records { AllRecords max_message (drop BLOCK_HEAD block.now) }
    ensures fault { IfErr result BreaksBlocks }
    ensures read { result ≢ Err BlocksFault.Read }
    ensures write { (result ≡ Err BlocksFault.Write) ↔ IsTrue (has_failed writer.new) }
    ensures place { OnOk result (due.new.place ≡ due.old.place + length block.now) }
    ensures told { OnOk result (TellsBlock output max_message (number_of block.now) (drop BLOCK_HEAD block.now) (W.contents (device_inner writer.old)) (W.contents (device_inner writer.new)) due.old.number due.new.number) }
    ensures begun { OnErr result (BeginsToTell output max_message (number_of block.now) (drop BLOCK_HEAD block.now) (W.contents (device_inner writer.old)) (W.contents (device_inner writer.new)) due.old.number) }
{
    let connection = number_of(block);
    let place = further(due.place, block.len())?;
    let number = print_each(
        alloc,
        output,
        max_message,
        connection,
        &block[BLOCK_HEAD..],
        due.number,
        scratch,
        writer,
    )?;
    *due = Due { number, place };
    Ok(())
}

/// Writes what is wanted of the records of a connection, the first of which has this number. Returns the number
/// after the last.
fn print_each<W: Write + Drop>(
    alloc: Global,
    output: Output,
    max_message: u32,
    connection: u64,
    records: &[u8],
    first: u64,
    scratch: &mut Scratch,
    writer: &mut Device<W>,
) -> Result<u64, BlocksFault>
    requires unmarked { ¬ (IsTrue (has_failed writer.old)) }
    requires records { AllRecords max_message records.now }
    ensures fault { IfErr result BreaksBlocks }
    ensures read { result ≢ Err BlocksFault.Read }
    ensures write { (result ≡ Err BlocksFault.Write) ↔ IsTrue (has_failed writer.new) }
    ensures told { IfOk result (λ next. TellsBlock output max_message connection records.now (W.contents (device_inner writer.old)) (W.contents (device_inner writer.new)) first next) }
    ensures begun { OnErr result (BeginsToTell output max_message connection records.now (W.contents (device_inner writer.old)) (W.contents (device_inner writer.new)) first) }
{
    let mut number = first;
    let mut at = 0;
    while let Front::Whole(len) = front_of(&records[at..], max_message) {
        let record = &records[at..at + len];
        print_record(alloc, output, connection, number, record, scratch, writer)?;
        number = further(number, 1)?;
        at += len;
    }
    Ok(number)
}

/// Writes what is wanted of the record with this number, of a connection.
fn print_record<W: Write + Drop>(
    alloc: Global,
    output: Output,
    connection: u64,
    number: u64,
    bytes: &[u8],
    scratch: &mut Scratch,
    writer: &mut Device<W>,
) -> Result<(), BlocksFault>
    requires unmarked { ¬ (IsTrue (has_failed writer.old)) }
    requires head { HEAD ≤ length bytes.now }
    ensures fault { IfErr result BreaksBlocks }
    ensures read { result ≢ Err BlocksFault.Read }
    ensures write { (result ≡ Err BlocksFault.Write) ↔ IsTrue (has_failed writer.new) }
    ensures told { OnOk result ((written : List ℕ) × IsTold output connection number bytes.now written × Appends (W.contents (device_inner writer.old)) (W.contents (device_inner writer.new)) written) }
    ensures begun { OnErr result (BeginsTelling output connection number bytes.now (W.contents (device_inner writer.old)) (W.contents (device_inner writer.new))) }
{
    if let Output::Only(wanted) = output {
        if number != wanted {
            return Ok(());
        }
        return write_out(&bytes[HEAD..], writer);
    }
    put_line_of(alloc, output, number, bytes, scratch)?;
    let line = line_with(alloc, output, connection, scratch.line())?;
    write_out(&line, writer)
}

/// Returns a line that begins with the number of its connection.
fn line_with(
    alloc: Global,
    output: Output,
    connection: u64,
    line: &[u8],
) -> Result<Vec<u8>, AllocError>
    ensures { IfOk result (λ whole. whole.items ≡ with_connection output connection line.now) }
{
    let head = connection_text(alloc, output, connection)?;
    let mut whole = Vec::from_slice(alloc, head.as_bytes())?;
    whole.extend_from_slice(behind_brace(output, line))?;
    Ok(whole)
}

/// Returns what a line begins with: the number of the connection.
fn connection_text(alloc: Global, output: Output, connection: u64) -> Result<String, AllocError>
    ensures { IfOk result (λ text. string_bytes text ≡ connection_text output connection) }
{
    match output {
        Output::Json => format!(in alloc; "{{\"connection\":{connection},"),
        _ => format!(in alloc; "connection={connection} "),
    }
}

/// Returns a line without the brace that an object begins with.
fn behind_brace(output: Output, line: &[u8]) -> &[u8]
    ensures { result.now ≡ behind_brace output line.now }
{
    match output {
        Output::Json => line.get(1..).unwrap_or(&[]),
        _ => line,
    }
}

/// Writes all of the bytes.
fn write_out<W: Write + Drop>(bytes: &[u8], writer: &mut Device<W>) -> Result<(), BlocksFault>
    requires { ¬ (IsTrue (has_failed writer.old)) }
    ensures fault { OnErr result (result ≡ Err BlocksFault.Write) }
    ensures write { (result ≡ Err BlocksFault.Write) ↔ IsTrue (has_failed writer.new) }
    ensures written { OnOk result (Appends (W.contents (device_inner writer.old)) (W.contents (device_inner writer.new)) bytes.now) }
    ensures begun { OnErr result (AppendsFront (W.contents (device_inner writer.old)) (W.contents (device_inner writer.new)) bytes.now) }
{
    match writer.write_all(bytes) {
        Ok(()) => Ok(()),
        Err(_) => Err(BlocksFault::Write),
    }
}

/// Flushes the writer.
fn flush<W: Write + Drop>(writer: &mut Device<W>) -> Result<(), BlocksFault>
    requires { ¬ (IsTrue (has_failed writer.old)) }
    ensures fault { OnErr result (result ≡ Err BlocksFault.Write) }
    ensures write { (result ≡ Err BlocksFault.Write) ↔ IsTrue (has_failed writer.new) }
    ensures kept { Keeps (W.contents (device_inner writer.old)) (W.contents (device_inner writer.new)) }
{
    match writer.flush() {
        Ok(()) => Ok(()),
        Err(_) => Err(BlocksFault::Write),
    }
}
