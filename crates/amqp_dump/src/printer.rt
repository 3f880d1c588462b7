//! `amqp dump`: the header and the frames of one direction of a connection, printed as lines while they come.

ghost use Rattle.std.specs.Prelude.{◌≡◌, ◌≢◌, ◌↔◌, ℕ, ◌+◌, ◌-◌, ◌^◌, ◌<◌, ◌≤◌, ◌++◌, [], List, Option, true, false, length, take, IsTrue, IfOk, IfSome, OnOk, OnErr, Ok, Err};
ghost use Rattle.std.specs.Io.KnownBytes.{IsAtEnd, Consumes, Keeps, Appends};
ghost use Rattle.amqp_frame.specs.Devices.{device_inner, has_failed, has_ended, reads_left, reads_ahead};
ghost use Rattle.amqp_dump.specs.Steps.{IsReady, HasTold, taken_by};
ghost use Rattle.amqp_dump.specs.Printing.{Puts, HasPrinted, IsDump, BeginsDump, Dumps, BreaksOff, Shows};
ghost use Rattle.amqp_dump.specs.declared.printer.DumpFault.TheVariants.{NoMemory};

use crate::lines::put_line;
use crate::page::Page;
use crate::scan::Scanner;
use amqp_frame::Device;
use std::alloc::{AllocError, Global};
use std::io::{Read, Write};
use thiserror::Error;

/// How many bytes are read, and how many are printed, at a time.
const PIECE: usize = 65536;

/// Why a dump did not come to its end.
#[derive(Debug, Drop, Error)]
pub enum DumpFault {
    /// The input could not be read.
    #[error("Read")]
    Read,
    /// The lines could not be written.
    #[error("Write")]
    Write,
    /// The input has 2^64 - 1 bytes or more.
    #[error("TooLong")]
    TooLong,
    /// Memory was refused.
    #[error("NoMemory")]
    NoMemory,
}

impl From<AllocError> for DumpFault {
    ghost from_gives = { λ _ e. e ≡ NoMemory };

    fn from(_e: AllocError) -> DumpFault {
        DumpFault::NoMemory
    }
}

/// Prints a line for the header, for each frame and for the first fault, which is the last line.
///
/// Returns true if no fault was printed. Before each read the lines of all frames that came are written. After a
/// fault nothing is read. Neither device may have failed before.
///
/// # Errors
///
/// `Read` and `Write` if that device has failed, `TooLong` if the reader gives 2^64 - 1 bytes or more, and
/// `NoMemory` if memory was refused. What was written is then a beginning of the dump; after `Read` it is the
/// lines of the header and of all frames that came.
pub fn dump<R: Read + Drop, W: Write + Drop>(
    alloc: Global,
    reader: &mut Device<R>,
    writer: &mut Device<W>,
) -> Result<bool, DumpFault>
    requires reader { ¬ (IsTrue (has_failed reader.old)) }
    requires writer { ¬ (IsTrue (has_failed writer.old)) }
    ensures read { (result ≡ Err DumpFault.Read) ↔ IsTrue (has_failed reader.new) }
    ensures write { (result ≡ Err DumpFault.Write) ↔ IsTrue (has_failed writer.new) }
    ensures ended { result ≡ Ok true → IsTrue (has_ended reader.new) }

    // What is written is the dump of the bytes that came, or its beginning, and holds whatever would follow
    // them.
    ensures dumped { IfOk result (Dumps (R.remaining (device_inner reader.old)) (R.remaining (device_inner reader.new)) (W.contents (device_inner writer.old)) (W.contents (device_inner writer.new)) (has_ended reader.new)) }
    ensures begun { OnErr result (BreaksOff (R.remaining (device_inner reader.old)) (R.remaining (device_inner reader.new)) (W.contents (device_inner writer.old)) (W.contents (device_inner writer.new)) (has_ended reader.new)) }
    ensures shown { result ≡ Err DumpFault.Read → Shows (R.remaining (device_inner reader.old)) (R.remaining (device_inner reader.new)) (W.contents (device_inner writer.old)) (W.contents (device_inner writer.new)) }
    ensures long { result ≡ Err DumpFault.TooLong → (bytes : List ℕ) × Consumes (R.remaining (device_inner reader.old)) (R.remaining (device_inner reader.new)) bytes × (2 ^ 64 - 1 ≤ length bytes) }

    // A reader that was not read from before gave all that it had, or what it had left changes nothing.
    ensures end { has_ended reader.old ≡ false → reads_left reader.old ≡ 2 ^ 64 - 1 → result ≡ Ok true → IsAtEnd (R.remaining (device_inner reader.new)) }
    ensures whole { has_ended reader.old ≡ false → reads_left reader.old ≡ 2 ^ 64 - 1 → IfOk result (λ clean. IfSome (R.remaining (device_inner reader.old)) (λ stream. IsDump (W.contents (device_inner writer.old)) (W.contents (device_inner writer.new)) stream true clean)) }
{
    let mut scanner = Scanner::new(alloc)?;
    let mut lines = Page::with_capacity(alloc, PIECE)?;
    let mut piece = vec![in alloc; 0u8; PIECE]?;
    print_all(alloc, reader, &mut scanner, &mut piece, &mut lines, writer)
}

/// Reads into `piece` until the reader ends or a fault was printed, and prints what comes. Returns true if no
/// fault was printed.
fn print_all<R: Read + Drop, W: Write + Drop>(
    alloc: Global,
    reader: &mut Device<R>,
    scanner: &mut Scanner,
    piece: &mut [u8],
    lines: &mut Page,
    writer: &mut Device<W>,
) -> Result<bool, DumpFault>
    requires reader { ¬ (IsTrue (has_failed reader.old)) }
    requires writer { ¬ (IsTrue (has_failed writer.old)) }
    requires some { 0 < length piece.old }
    requires none { HasTold scanner.old [] [] }
    requires empty { lines.old.whole ≡ [] }
    requires line { lines.old.begun ≡ [] }
    ensures read { (result ≡ Err DumpFault.Read) ↔ IsTrue (has_failed reader.new) }
    ensures write { (result ≡ Err DumpFault.Write) ↔ IsTrue (has_failed writer.new) }
    ensures ended { result ≡ Ok true → IsTrue (has_ended reader.new) }

    // What is written is the dump of the bytes that came, or its beginning, and holds whatever would follow
    // them.
    ensures dumped { IfOk result (Dumps (R.remaining (device_inner reader.old)) (R.remaining (device_inner reader.new)) (W.contents (device_inner writer.old)) (W.contents (device_inner writer.new)) (has_ended reader.new)) }
    ensures begun { OnErr result (BreaksOff (R.remaining (device_inner reader.old)) (R.remaining (device_inner reader.new)) (W.contents (device_inner writer.old)) (W.contents (device_inner writer.new)) (has_ended reader.new)) }
    ensures shown { result ≡ Err DumpFault.Read → Shows (R.remaining (device_inner reader.old)) (R.remaining (device_inner reader.new)) (W.contents (device_inner writer.old)) (W.contents (device_inner writer.new)) }
    ensures long { result ≡ Err DumpFault.TooLong → (bytes : List ℕ) × Consumes (R.remaining (device_inner reader.old)) (R.remaining (device_inner reader.new)) bytes × (2 ^ 64 - 1 ≤ length bytes) }

    // A reader that was not read from before gave all that it had, or what it had left changes nothing.
    ensures end { has_ended reader.old ≡ false → reads_left reader.old ≡ 2 ^ 64 - 1 → result ≡ Ok true → IsAtEnd (R.remaining (device_inner reader.new)) }
    ensures whole { has_ended reader.old ≡ false → reads_left reader.old ≡ 2 ^ 64 - 1 → IfOk result (λ clean. IfSome (R.remaining (device_inner reader.old)) (λ stream. IsDump (W.contents (device_inner writer.old)) (W.contents (device_inner writer.new)) stream true clean)) }
{
    while !reader.ended() {
        let count = match read_piece(reader, piece, scanner.taken()) {
            Ok(count) => count,
            Err(fault) => return Err(fault),
        };
        let is_over = print_piece(alloc, scanner, &piece[..count], lines, writer)?;
        if is_over {
            return Ok(false);
        }
    }
    print_end(scanner, lines, writer)
}

/// Reads into the front of `piece`, and returns how many bytes came. `taken` bytes were taken before.
fn read_piece<R: Read + Drop>(
    reader: &mut Device<R>,
    piece: &mut [u8],
    taken: usize,
) -> Result<usize, DumpFault>
    requires unmarked { ¬ (IsTrue (has_failed reader.old)) }
    requires some { 0 < length piece.old }
    requires going { has_ended reader.old ≡ false }
    requires short { taken < 2 ^ 64 - 1 }
    ensures read { (result ≡ Err DumpFault.Read) ↔ IsTrue (has_failed reader.new) }
    ensures write { result ≢ Err DumpFault.Write }
    ensures bound { IfOk result (λ n. n ≤ length piece.new) }
    ensures short { IfOk result (λ n. taken + n < 2 ^ 64 - 1) }
    ensures bytes { IfOk result (λ n. Consumes (R.remaining (device_inner reader.old)) (R.remaining (device_inner reader.new)) (take n piece.new)) }
    ensures came { OnErr result ((bytes : List ℕ) × Consumes (R.remaining (device_inner reader.old)) (R.remaining (device_inner reader.new)) bytes) }
    ensures kept { result ≡ Err DumpFault.Read → Keeps (R.remaining (device_inner reader.old)) (R.remaining (device_inner reader.new)) }
    ensures memory { result ≢ Err DumpFault.NoMemory }
    ensures long { result ≡ Err DumpFault.TooLong → (bytes : List ℕ) × Consumes (R.remaining (device_inner reader.old)) (R.remaining (device_inner reader.new)) bytes × (2 ^ 64 - 1 ≤ taken + length bytes) }
    ensures zero { IfOk result (λ n. (n ≡ 0) ↔ IsTrue (has_ended reader.new)) }
    ensures end { 0 < reads_left reader.old → result ≡ Ok 0 → IsAtEnd (R.remaining (device_inner reader.new)) }
    ensures counts { reads_left reader.new ≡ reads_left reader.old - 1 }
    ensures fewer { OnOk result (reads_ahead reader.new < reads_ahead reader.old) }
{
    match reader.read(piece) {
        Ok(count) if count < usize::MAX - taken => Ok(count),
        Ok(_) => Err(DumpFault::TooLong),
        Err(_) => Err(DumpFault::Read),
    }
}

/// Prints the units that end in `piece`, and returns whether the last one is a fault. No line waits before, nor
/// after success.
fn print_piece<W: Write + Drop>(
    alloc: Global,
    scanner: &mut Scanner,
    piece: &[u8],
    lines: &mut Page,
    writer: &mut Device<W>,
) -> Result<bool, DumpFault>
    requires unmarked { ¬ (IsTrue (has_failed writer.old)) }
    requires ready { IsReady scanner.old }
    requires fits { taken_by scanner.old + length piece.now < 2 ^ 64 }
    requires empty { lines.old.whole ≡ [] }
    requires line { lines.old.begun ≡ [] }
    ensures read { result ≢ Err DumpFault.Read }
    ensures short { result ≢ Err DumpFault.TooLong }
    ensures write { (result ≡ Err DumpFault.Write) ↔ IsTrue (has_failed writer.new) }
    ensures empty { OnOk result (lines.new.whole ≡ []) }
    ensures line { OnOk result (lines.new.begun ≡ []) }
    ensures ready { result ≡ Ok false → IsReady scanner.new }
    ensures on { (held : Option (List ℕ)) (before : List ℕ) → HasPrinted held (W.contents (device_inner writer.old)) [] scanner.old before → result ≡ Ok false
        → HasPrinted held (W.contents (device_inner writer.new)) [] scanner.new (before ++ piece.now) }
    ensures fault { (held : Option (List ℕ)) (before : List ℕ) → HasPrinted held (W.contents (device_inner writer.old)) [] scanner.old before → result ≡ Ok true
        → IsDump held (W.contents (device_inner writer.new)) (before ++ piece.now) false false }
    ensures begun { (held : Option (List ℕ)) (before : List ℕ) → HasPrinted held (W.contents (device_inner writer.old)) [] scanner.old before
        → OnErr result (BeginsDump held (W.contents (device_inner writer.new)) (before ++ piece.now) false) }
{
    let mut at = 0;
    while let Some(is_fault) = scanner.next(alloc, piece, &mut at, lines)? {
        write_many(is_fault, lines, writer)?;
        if is_fault {
            return Ok(true);
        }
    }
    write_lines(lines, writer)?;
    Ok(false)
}

/// Prints what is reported of a stream that ends here, and returns whether it is no fault. No line waits.
fn print_end<W: Write + Drop>(
    scanner: &Scanner,
    lines: &mut Page,
    writer: &mut Device<W>,
) -> Result<bool, DumpFault>
    requires unmarked { ¬ (IsTrue (has_failed writer.old)) }
    requires ready { IsReady scanner.now }
    requires empty { lines.old.whole ≡ [] }
    requires line { lines.old.begun ≡ [] }
    ensures read { result ≢ Err DumpFault.Read }
    ensures short { result ≢ Err DumpFault.TooLong }
    ensures write { (result ≡ Err DumpFault.Write) ↔ IsTrue (has_failed writer.new) }
    ensures dumped { (held : Option (List ℕ)) (bytes : List ℕ) → HasPrinted held (W.contents (device_inner writer.old)) [] scanner.now bytes
        → IfOk result (λ clean. IsDump held (W.contents (device_inner writer.new)) bytes true clean) }
    ensures begun { (held : Option (List ℕ)) (bytes : List ℕ) → HasPrinted held (W.contents (device_inner writer.old)) [] scanner.now bytes
        → OnErr result (BeginsDump held (W.contents (device_inner writer.new)) bytes true) }
{
    match scanner.end() {
        Some(item) => {
            put_line(lines, &item)?;
            write_lines(lines, writer)?;
            Ok(false)
        }
        None => Ok(true),
    }
}

/// Writes the lines that wait, if they are many or the last one is among them.
fn write_many<W: Write + Drop>(
    is_last: bool,
    lines: &mut Page,
    writer: &mut Device<W>,
) -> Result<(), DumpFault>
    requires unmarked { ¬ (IsTrue (has_failed writer.old)) }
    requires line { lines.old.begun ≡ [] }
    ensures write { OnErr result (result ≡ Err DumpFault.Write) }
    ensures failed { (result ≡ Err DumpFault.Write) ↔ IsTrue (has_failed writer.new) }
    ensures empty { IsTrue is_last → OnOk result (lines.new.whole ≡ []) }
    ensures line { OnOk result (lines.new.begun ≡ []) }
    ensures put { OnOk result (Puts [] (W.contents (device_inner writer.old)) (W.contents (device_inner writer.new)) lines.old.whole lines.new.whole) }
    ensures begun { OnErr result ((missing : List ℕ) × Puts [] (W.contents (device_inner writer.old)) (W.contents (device_inner writer.new)) lines.old.whole missing) }
{
    if is_last || lines.len() >= PIECE {
        write_lines(lines, writer)?;
    }
    Ok(())
}

/// Writes the lines that wait.
fn write_lines<W: Write + Drop>(lines: &mut Page, writer: &mut Device<W>) -> Result<(), DumpFault>
    requires unmarked { ¬ (IsTrue (has_failed writer.old)) }
    requires line { lines.old.begun ≡ [] }
    ensures write { OnErr result (result ≡ Err DumpFault.Write) }
    ensures failed { (result ≡ Err DumpFault.Write) ↔ IsTrue (has_failed writer.new) }
    ensures empty { OnOk result (lines.new.whole ≡ []) }
    ensures line { OnOk result (lines.new.begun ≡ []) }
    ensures written { OnOk result (Appends (W.contents (device_inner writer.old)) (W.contents (device_inner writer.new)) (lines.old.whole)) }
    ensures begun { OnErr result ((written missing : List ℕ) × Appends (W.contents (device_inner writer.old)) (W.contents (device_inner writer.new)) written × (lines.old.whole ≡ written ++ missing)) }
{
    write_out(lines.as_bytes(), writer)?;
    lines.clear();
    Ok(())
}

/// Writes all of the bytes.
fn write_out<W: Write + Drop>(bytes: &[u8], writer: &mut Device<W>) -> Result<(), DumpFault>
    requires { ¬ (IsTrue (has_failed writer.old)) }
    ensures write { OnErr result (result ≡ Err DumpFault.Write) }
    ensures failed { (result ≡ Err DumpFault.Write) ↔ IsTrue (has_failed writer.new) }
    ensures written { OnOk result (Appends (W.contents (device_inner writer.old)) (W.contents (device_inner writer.new)) bytes.now) }
    ensures begun { OnErr result ((written missing : List ℕ) × Appends (W.contents (device_inner writer.old)) (W.contents (device_inner writer.new)) written × (bytes.now ≡ written ++ missing)) }
{
    match writer.write_all(bytes) {
        Ok(()) => Ok(()),
        Err(_) => Err(DumpFault::Write),
    }
}
