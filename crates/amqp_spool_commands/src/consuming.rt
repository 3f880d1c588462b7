//! The commands on the consumers of a spool.

use crate::faults::{CommandFault, refused};
use amqp_spool::consumers::{self, Consumer, ConsumerFault};
use amqp_spool::{ConsumerName, DirFiles, Exclusive};
use std::process::ExitCode;
use std::rt::Files;
use std::thread;
use std::time::{Clock, Duration};

/// How often a lock is tried that a gateway may hold for a moment.
const TRIES: u32 = 100;

/// How long it is left alone between, in milliseconds.
const PAUSE: u64 = 20;

/// Adds a consumer to the spool in a directory, and prints its name and the number after which it begins.
pub fn spool_add<R>(rt: &R, dir: &str, name: &ConsumerName) -> Result<ExitCode, CommandFault>
where
    R: Print + Eprint + Files + Clock + AllocGlobal,
    R::File: Exclusive,
{
    let files = DirFiles::new(rt, rt.alloc(), dir)?;
    match added(rt, &files, name) {
        Ok(number) => {
            println!(rt; "{name} {number}").map_err(|_| CommandFault::Write)?;
            Ok(ExitCode::SUCCESS)
        }
        Err(fault) => Ok(refused(rt, dir, fault)),
    }
}

/// Adds a consumer, once the lock can be had. Returns its position.
fn added<R>(rt: &R, files: &DirFiles<&R>, name: &ConsumerName) -> Result<u64, ConsumerFault>
where
    R: Files + Clock,
    R::File: Exclusive,
{
    for _ in 0..TRIES {
        match consumers::add(files, name) {
            Err(ConsumerFault::Locked) => thread::sleep(rt, Duration::from_millis(PAUSE)),
            added => return added,
        }
    }
    Err(ConsumerFault::Locked)
}

/// Removes a consumer of the spool in a directory.
pub fn spool_remove<R>(rt: &R, dir: &str, name: &ConsumerName) -> Result<ExitCode, CommandFault>
where
    R: Eprint + Files + Clock + AllocGlobal,
    R::File: Exclusive,
{
    let files = DirFiles::new(rt, rt.alloc(), dir)?;
    Ok(done(rt, dir, removed(rt, &files, name)))
}

/// Removes a consumer, once the locks can be had.
fn removed<R>(rt: &R, files: &DirFiles<&R>, name: &ConsumerName) -> Result<(), ConsumerFault>
where
    R: Files + Clock,
    R::File: Exclusive,
{
    for _ in 0..TRIES {
        match consumers::remove(files, name) {
            Err(ConsumerFault::Locked) => thread::sleep(rt, Duration::from_millis(PAUSE)),
            removed => return removed,
        }
    }
    Err(ConsumerFault::Locked)
}

/// Acknowledges for a consumer the records of the spool in a directory up to a number.
pub fn spool_ack<R>(
    rt: &R,
    dir: &str,
    name: &ConsumerName,
    number: u64,
) -> Result<ExitCode, CommandFault>
where
    R: Eprint + Files + AllocGlobal,
    R::File: Exclusive,
{
    let files = DirFiles::new(rt, rt.alloc(), dir)?;
    Ok(done(rt, dir, acknowledged(&files, name, number)))
}

fn acknowledged<F>(
    files: &DirFiles<F>,
    name: &ConsumerName,
    number: u64,
) -> Result<(), ConsumerFault>
where
    F: Files + Drop,
    F::File: Exclusive,
{
    let mut consumer = Consumer::open(files, name)?;
    consumer.acknowledge(files, number)
}

/// Returns the exit status of a command that prints nothing.
fn done<R: Eprint>(rt: &R, dir: &str, done: Result<(), ConsumerFault>) -> ExitCode {
    match done {
        Ok(()) => ExitCode::SUCCESS,
        Err(fault) => refused(rt, dir, fault),
    }
}

/// Returns up to which number a consumer has acknowledged. A position that can't be read counts as 0, of which standard
/// error is told.
pub fn position<R: Files + Eprint>(
    rt: &R,
    files: &DirFiles<&R>,
    name: &ConsumerName,
) -> Result<u64, ConsumerFault> {
    match consumers::position_of(files, name)? {
        Some(number) => Ok(number),
        None => {
            tell_unread(rt, name);
            Ok(0)
        }
    }
}

/// Opens a consumer for the one that acknowledges. A position that can't be read counts as 0, of which standard error
/// is told.
pub fn opened<R, F>(
    rt: &R,
    files: &DirFiles<F>,
    name: &ConsumerName,
) -> Result<Consumer<F>, ConsumerFault>
where
    R: Eprint,
    F: Files + Drop,
    F::File: Exclusive,
{
    let consumer = Consumer::open(files, name)?;
    if consumer.is_unread() {
        tell_unread(rt, name);
    }
    Ok(consumer)
}

fn tell_unread<R: Eprint>(rt: &R, name: &ConsumerName) {
    let _ = eprintln!(rt; "spool: {name}.at can't be read, and counts as 0");
}
