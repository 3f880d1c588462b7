//! Runs a script.

ghost use Rattle.std.specs.Prelude.{◌≡◌, ◌≢◌, ◌↔◌, ◌≤◌, ℕ, Err, IsTrue, OnErr, IfErr};
ghost use Rattle.std.specs.Io.KnownBytes.{Keeps};
ghost use Rattle.amqp_frame.specs.Devices.{device_inner, has_failed};
ghost use Rattle.amqp_script.specs.declared.replay.ScriptFault.TheVariants.{NoMemory};

use crate::answers::write_answer;
use crate::digits::read_hex;
use crate::limits::{limits_of, line_of};
use crate::lines::{call_of, config_of, fed, is_call, text_in};
use crate::texts::read_text;
use amqp_endpoint::{Config, Endpoint};
use amqp_frame::Device;
use memchr::memchr_iter;
use std::alloc::{AllocError, Global};
use std::io::{Read, Write};
use thiserror::Error;

/// The most bytes that a buffer may have to be used again for the next line.
const KEPT: usize = 65536;

/// The most bytes that are read at once.
const PIECE: usize = 4096;

/// Why a script was not run to its end.
#[derive(Clone, Copy, Debug, PartialEq, Eq, Drop, Error)]
pub enum ScriptFault {
    /// The line with this number, from 1 on, is not valid.
    #[error("line {0}")]
    Line(usize),
    /// The script could not be read.
    #[error("Read")]
    Read,
    /// The answers could not be written.
    #[error("Write")]
    Write,
    /// Memory was refused.
    #[error("NoMemory")]
    NoMemory,
}

impl From<AllocError> for ScriptFault {
    ghost from_gives = { λ _ e. e ≡ NoMemory };

    fn from(_e: AllocError) -> ScriptFault {
        ScriptFault::NoMemory
    }
}

/// Reads a script to its end, checks its lines, and runs them on a new endpoint. After each call it writes the
/// line of the answer. Neither device may have failed before.
///
/// # Errors
///
/// - `Line` with the number of the first bad line, from 1 on. Nothing was run or written.
/// - `Read` if the reader has failed. Nothing was run or written.
/// - `Write` if the writer has failed, and `NoMemory` if memory was refused. The answers that were written are
///   those of the first calls.
pub fn replay_script<R: Read + Drop, W: Write + Drop>(
    alloc: Global,
    reader: &mut Device<R>,
    writer: &mut Device<W>,
) -> Result<(), ScriptFault>
    requires reader { ¬ (IsTrue (has_failed reader.old)) }
    requires writer { ¬ (IsTrue (has_failed writer.old)) }
    ensures read { (result ≡ Err ScriptFault.Read) ↔ IsTrue (has_failed reader.new) }
    ensures write { (result ≡ Err ScriptFault.Write) ↔ IsTrue (has_failed writer.new) }
    ensures line { (n : ℕ) → result ≡ Err (ScriptFault.Line n) → (1 ≤ n) × Keeps (W.contents (device_inner writer.old)) (W.contents (device_inner writer.new)) }
{
    let script = read_script(alloc, reader)?;
    let lines = lines_of(alloc, &script)?;
    let setup = check(alloc, &lines)?;
    run(alloc, setup, &lines, writer)
}

/// Returns all bytes of a script. The errors are `Read` and `NoMemory`.
pub fn read_script<R: Read + Drop>(
    alloc: Global,
    reader: &mut Device<R>,
) -> Result<Vec<u8>, ScriptFault>
    requires { ¬ (IsTrue (has_failed reader.old)) }
    ensures read { (result ≡ Err ScriptFault.Read) ↔ IsTrue (has_failed reader.new) }
    ensures write { result ≢ Err ScriptFault.Write }
    ensures line { (n : ℕ) → result ≢ Err (ScriptFault.Line n) }
{
    let mut script = Vec::new(alloc);
    let mut piece = [0; PIECE];
    while !reader.ended() {
        match reader.read(&mut piece) {
            Ok(count) => script.extend_from_slice(&piece[..count])?,
            Err(_) => return Err(ScriptFault::Read),
        }
    }
    Ok(script)
}

/// Returns the lines of a script. The last one may lack its newline. It is an error if memory is refused.
pub fn lines_of(alloc: Global, script: &[u8]) -> Result<Vec<&[u8]>, AllocError> {
    let text = script.strip_suffix(b"\n".as_slice()).unwrap_or(script);
    let mut lines = Vec::new(alloc);
    let mut start = 0;
    for end in memchr_iter(b'\n', text) {
        lines.push(text.get(start..end).unwrap_or(&[]))?;
        start = end.saturating_add(1);
    }
    lines.push(text.get(start..).unwrap_or(&[]))?;
    Ok(lines)
}

/// The settings of a script, and how many of its lines state them.
#[derive(Drop)]
struct Setup {
    config: Config,
    lines: usize,
}

/// Returns what the first lines set up, if all lines are valid. The errors are `Line` and `NoMemory`.
fn check(alloc: Global, lines: &[&[u8]]) -> Result<Setup, ScriptFault>
    ensures read { result ≢ Err ScriptFault.Read }
    ensures write { result ≢ Err ScriptFault.Write }
    ensures line { (n : ℕ) → result ≡ Err (ScriptFault.Line n) → 1 ≤ n }
{
    let setup = set_up(alloc, lines)?;
    for (index, line) in lines.iter().enumerate().skip(setup.lines) {
        let number = index.saturating_add(1);
        if !is_call(line) {
            return Err(ScriptFault::Line(number));
        }
    }
    Ok(setup)
}

/// Returns what the first line and the lines of limits after it set up. The errors are `Line` and `NoMemory`.
fn set_up(alloc: Global, lines: &[&[u8]]) -> Result<Setup, ScriptFault>
    ensures read { result ≢ Err ScriptFault.Read }
    ensures write { result ≢ Err ScriptFault.Write }
    ensures line { (n : ℕ) → result ≡ Err (ScriptFault.Line n) → 1 ≤ n }
{
    let Some((first, rest)) = lines.split_first() else {
        return Err(ScriptFault::Line(1));
    };
    let config = config_of(alloc, first)?.ok_or(ScriptFault::Line(1))?;
    let limits = limits_of(alloc, rest, b"limit ")?;
    let lines = limits.len().saturating_add(1);
    match config.with_limits(limits) {
        Ok(config) => Ok(Setup { config, lines }),
        Err((fault, _, _)) => Err(ScriptFault::Line(line_of(fault, 2))),
    }
}

/// Runs the lines after those that set up, and writes the line of each answer. The errors are `Write` and
/// `NoMemory`.
fn run<W: Write + Drop>(
    alloc: Global,
    setup: Setup,
    lines: &[&[u8]],
    writer: &mut Device<W>,
) -> Result<(), ScriptFault>
    requires { ¬ (IsTrue (has_failed writer.old)) }
    ensures read { result ≢ Err ScriptFault.Read }
    ensures write { (result ≡ Err ScriptFault.Write) ↔ IsTrue (has_failed writer.new) }
    ensures line { (n : ℕ) → result ≢ Err (ScriptFault.Line n) }
{
    let Setup {
        config,
        lines: first,
    } = setup;
    let mut endpoint = Endpoint::new(alloc, config)?;
    let mut piece = Vec::new(alloc);
    let mut answer = Vec::new(alloc);
    for line in lines.iter().skip(first) {
        empty(alloc, &mut piece);
        empty(alloc, &mut answer);
        answer_to(alloc, &mut endpoint, line, &mut piece, &mut answer)?;
        write_out(&answer, writer)?;
    }
    Ok(())
}

/// Empties a buffer for the next line. If a long line made it large, its memory is given back.
fn empty(alloc: Global, buffer: &mut Vec<u8>) {
    if buffer.capacity() > KEPT {
        *buffer = Vec::new(alloc);
    } else {
        buffer.clear();
    }
}

/// Makes the call that a line asks for, and appends the line of its answer; nothing if it asks for none. The
/// bytes that the line feeds, or those of its text, are then in `piece`. It is an error if memory is refused.
fn answer_to(
    alloc: Global,
    endpoint: &mut Endpoint,
    line: &[u8],
    piece: &mut Vec<u8>,
    answer: &mut Vec<u8>,
) -> Result<(), AllocError> {
    read_bytes(piece, line)?;
    match call_of(line, piece) {
        Some(call) => write_answer(alloc, answer, &endpoint.call(alloc, &call)?),
        None => Ok(()),
    }
}

/// Makes `piece` the bytes that a line feeds, or those of its text; none if it has neither. It is an error if
/// memory is refused.
fn read_bytes(piece: &mut Vec<u8>, line: &[u8]) -> Result<(), AllocError> {
    if let Some(hex) = fed(line) {
        return read_hex(piece, hex);
    }
    match text_in(line) {
        Some(text) => read_text(piece, text),
        None => {
            piece.clear();
            Ok(())
        }
    }
}

/// Writes all of the bytes. The only error is `Write`.
fn write_out<W: Write + Drop>(bytes: &[u8], writer: &mut Device<W>) -> Result<(), ScriptFault>
    requires { ¬ (IsTrue (has_failed writer.old)) }
    ensures read { result ≢ Err ScriptFault.Read }
    ensures write { (result ≡ Err ScriptFault.Write) ↔ IsTrue (has_failed writer.new) }
    ensures line { (n : ℕ) → result ≢ Err (ScriptFault.Line n) }
{
    match writer.write_all(bytes) {
        Ok(()) => Ok(()),
        Err(_) => Err(ScriptFault::Write),
    }
}
