//! The commands that read a spool.

use crate::faults::{CommandFault, DAMAGED, refused};
use crate::stderr::Stderr;
use amqp_spool_records::{SpoolFault, Wanted, check_spool, list_spool, print_spool};
use std::io::{self, Write};
use std::process::ExitCode;
use std::rt::Files;

/// How many bytes a buffer before standard output has.
pub const BUFFER: usize = 65_536;

/// A buffer before standard output.
type Out<'a, R> = io::BufWriter<io::Printer<'a, R>>;

/// Makes a buffer before standard output.
fn buffered<R: Print + AllocGlobal>(rt: &R) -> Result<Out<'_, R>, CommandFault> {
    match io::BufWriter::with_capacity(rt.alloc(), BUFFER, io::writer(rt)) {
        Ok(out) => Ok(out),
        Err(_) => Err(CommandFault::NoMemory),
    }
}

/// Brings what a buffer has to standard output, and returns what came of what was printed to it.
fn flushed<R: Print, T: Drop>(
    mut out: Out<'_, R>,
    printed: Result<T, SpoolFault>,
) -> Result<T, SpoolFault> {
    let went = out.flush();
    let _ = out.into_parts(); // what standard output refused is not tried again
    match printed {
        Ok(_) if went.is_err() => Err(SpoolFault::Write),
        printed => printed,
    }
}

/// Prints the records of a spool to standard output, and what is damaged to standard error.
pub fn spool_records<R: Print + Eprint + Files + AllocGlobal>(
    rt: &R,
    dir: &str,
    wanted: Wanted<'_>,
) -> Result<ExitCode, CommandFault> {
    let mut out = buffered(rt)?;
    let printed = print_spool(rt, rt.alloc(), dir, wanted, &mut out, Stderr(rt));
    let is_well = flushed(out, printed).map(|damaged| damaged == 0);
    ended(rt, dir, is_well)
}

/// Lists the segments of a spool on standard output.
pub fn spool_list<R: Print + Eprint + Files + AllocGlobal>(
    rt: &R,
    dir: &str,
) -> Result<ExitCode, CommandFault> {
    let mut out = buffered(rt)?;
    let listed = list_spool(rt, rt.alloc(), dir, &mut out);
    let is_well = flushed(out, listed).map(|()| true);
    ended(rt, dir, is_well)
}

/// Reads all of a spool, and says what is damaged.
pub fn spool_check<R: Print + Eprint + Files + AllocGlobal>(
    rt: &R,
    dir: &str,
) -> Result<ExitCode, CommandFault> {
    let mut out = buffered(rt)?;
    let checked = check_spool(rt, rt.alloc(), dir, &mut out, Stderr(rt));
    let is_well = flushed(out, checked);
    ended(rt, dir, is_well)
}

/// Returns the exit status of a command that has read the spool in a directory, if that is well, and tells a fault of
/// it.
pub fn ended<R: Eprint>(
    rt: &R,
    dir: &str,
    is_well: Result<bool, SpoolFault>,
) -> Result<ExitCode, CommandFault> {
    match is_well {
        Ok(true) => Ok(ExitCode::SUCCESS),
        Ok(false) => Ok(ExitCode::from(DAMAGED)),
        Err(SpoolFault::Write) => Err(CommandFault::Write),
        Err(fault) => Ok(refused(rt, dir, fault)),
    }
}
