//! A table of limits in a file of its own, with a row on each line.

ghost use Rattle.std.specs.Prelude.{◌≡◌, ◌≢◌, ◌↔◌, ◌≤◌, ℕ, Err, IsTrue};
ghost use Rattle.amqp_frame.specs.Devices.{has_failed};

use crate::lines::row_of;
use crate::replay::{ScriptFault, lines_of, read_script};
use amqp_endpoint::{Config, LimitFault, LinkLimit};
use amqp_frame::Device;
use std::alloc::{AllocError, Global};
use std::io::Read;

/// The most limits that a table may have.
const MAX_LIMITS: usize = 16;

/// Reads a table of limits to its end, a row `PREFIX ALLOWED MAX_MESSAGE` on each line, and returns the
/// settings with it. The device must not have failed before.
///
/// # Errors
///
/// - `Line` with the number of the first bad line, from 1 on. It is no such row, it has a fault of
///   [`Config::with_limits`], or it is the seventeenth.
/// - `Read` if the device has failed.
/// - `NoMemory` if memory was refused.
pub fn read_limits<R: Read + Drop>(
    alloc: Global,
    config: Config,
    reader: &mut Device<R>,
) -> Result<Config, ScriptFault>
    requires { ¬ (IsTrue (has_failed reader.old)) }
    ensures read { (result ≡ Err ScriptFault.Read) ↔ IsTrue (has_failed reader.new) }
    ensures write { result ≢ Err ScriptFault.Write }
    ensures line { (n : ℕ) → result ≡ Err (ScriptFault.Line n) → 1 ≤ n }
{
    let script = read_script(alloc, reader)?;
    let lines = lines_of(alloc, &script)?;
    with_rows(alloc, config, &lines)
}

/// Returns the settings with these rows. The errors are `Line` and `NoMemory`.
fn with_rows(alloc: Global, config: Config, lines: &[&[u8]]) -> Result<Config, ScriptFault>
    ensures read { result ≢ Err ScriptFault.Read }
    ensures write { result ≢ Err ScriptFault.Write }
    ensures line { (n : ℕ) → result ≡ Err (ScriptFault.Line n) → 1 ≤ n }
{
    let limits = limits_of(alloc, lines, &[])?;
    let count = limits.len();
    match config.with_limits(limits) {
        Err((fault, _, _)) => Err(ScriptFault::Line(line_of(fault, 1))),
        Ok(_) if count < lines.len() => Err(ScriptFault::Line(count.saturating_add(1))),
        Ok(config) => Ok(config),
    }
}

/// Returns the limits that the first lines set, at most as many as a table may have. Each such line is
/// `before`, and then a row.
pub fn limits_of(
    alloc: Global,
    lines: &[&[u8]],
    before: &[u8],
) -> Result<Vec<LinkLimit>, AllocError> {
    let mut limits = Vec::new(alloc);
    for line in lines.iter().take(MAX_LIMITS) {
        match row_of(alloc, line.strip_prefix(before).unwrap_or(&[]))? {
            Some(limit) => push(&mut limits, limit)?,
            None => break,
        }
    }
    Ok(limits)
}

/// Appends a limit.
fn push(limits: &mut Vec<LinkLimit>, limit: LinkLimit) -> Result<(), AllocError> {
    match limits.push(limit) {
        Ok(()) => Ok(()),
        Err(failed) => Err(AllocError::from(failed)),
    }
}

/// Returns the number of the line of a limit with a fault, where `first` is that of the first limit.
pub fn line_of(fault: LimitFault, first: usize) -> usize
    requires { 1 ≤ first }
    ensures { 1 ≤ result }
{
    match fault {
        LimitFault::TooMany => first.saturating_add(MAX_LIMITS),
        LimitFault::BadRow(row) | LimitFault::SamePrefix(row) => first.saturating_add(row),
    }
}
