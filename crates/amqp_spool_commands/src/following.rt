//! `amqp records --spool DIR` with `--consumer` or `--follow`.

use crate::acks::Acks;
use crate::consuming::{opened, position};
use crate::faults::{CommandFault, refused};
use crate::gate::Output;
use crate::pipes::{AwaitInput, Pipes};
use crate::reading::{BUFFER, ended};
use crate::stderr::Stderr;
use amqp_command_line::Begin;
use amqp_spool::consumers::Consumer;
use amqp_spool::{ConsumerName, DirFiles, Exclusive};
use amqp_spool_records::{Damage, Follower, Found, Missing, Printer, SpoolFault, Visitor, Wanted};
use std::cell::RefCell;
use std::io::{self, Input, Write};
use std::net::Net;
use std::process::ExitCode;
use std::rt::Files;
use std::thread;
use std::time::{Clock, Duration};

/// Prints the records of a spool from a place on, up to damage, and looks for more each `poll` milliseconds, if there
/// is one.
pub fn follow_spool<R>(
    rt: &R,
    dir: &str,
    begin: &Begin,
    wanted: Wanted<'_>,
    poll: Option<u32>,
) -> Result<ExitCode, CommandFault>
where
    R: Print + Eprint + Input + AwaitInput + Files + Net + Clock + AllocGlobal,
    R::File: Exclusive,
{
    match begin {
        Begin::After(after) => print_after(rt, dir, *after, wanted, poll),
        Begin::Consumer { name, acks } if *acks => consume(rt, dir, name, wanted, poll),
        Begin::Consumer { name, .. } => read_for(rt, dir, name, wanted, poll),
    }
}

/// Prints the records that a consumer has not acknowledged.
fn read_for<R>(
    rt: &R,
    dir: &str,
    name: &ConsumerName,
    wanted: Wanted<'_>,
    poll: Option<u32>,
) -> Result<ExitCode, CommandFault>
where
    R: Print + Eprint + Files + Clock + AllocGlobal,
{
    let files = DirFiles::new(rt, rt.alloc(), dir)?;
    match position(rt, &files, name) {
        Ok(number) => print_after(rt, dir, Some(number), wanted, poll),
        Err(fault) => Ok(refused(rt, dir, fault)),
    }
}

/// Prints the records after a number to standard output, or all without one.
fn print_after<R>(
    rt: &R,
    dir: &str,
    after: Option<u64>,
    wanted: Wanted<'_>,
    poll: Option<u32>,
) -> Result<ExitCode, CommandFault>
where
    R: Print + Eprint + Files + Clock + AllocGlobal,
{
    let wanted = Wanted { after, ..wanted };
    let read = read_on(rt, dir, wanted, io::writer(rt), poll, &Sleep(rt));
    ended(rt, dir, read)
}

/// Prints the records that a consumer has not acknowledged, and acknowledges what standard input says. No other does
/// meanwhile.
fn consume<R>(
    rt: &R,
    dir: &str,
    name: &ConsumerName,
    wanted: Wanted<'_>,
    poll: Option<u32>,
) -> Result<ExitCode, CommandFault>
where
    R: Print + Eprint + Input + AwaitInput + Files + Net + Clock + AllocGlobal,
    R::File: Exclusive,
{
    let files = DirFiles::new(rt, rt.alloc(), dir)?;
    match opened(rt, &files, name) {
        Ok(consumer) => consume_as(rt, dir, files, consumer, wanted, poll),
        Err(fault) => Ok(refused(rt, dir, fault)),
    }
}

/// Prints the records that an opened consumer has not acknowledged, and acknowledges what standard input says.
fn consume_as<'a, R>(
    rt: &'a R,
    dir: &str,
    files: DirFiles<&'a R>,
    consumer: Consumer<&'a R>,
    wanted: Wanted<'_>,
    poll: Option<u32>,
) -> Result<ExitCode, CommandFault>
where
    R: Print + Eprint + Input + AwaitInput + Files + Net + Clock + AllocGlobal,
{
    match Pipes::new(rt, rt.reader()) {
        Ok(pipes) => {
            let acks = Acks::new(rt, files, consumer, pipes);
            consume_by(rt, dir, acks, wanted, poll)
        }
        Err(_) => Err(CommandFault::Poll),
    }
}

/// Prints the records after those that were acknowledged, and acknowledges what comes.
fn consume_by<R, F>(
    rt: &R,
    dir: &str,
    acks: Acks<'_, R, F>,
    wanted: Wanted<'_>,
    poll: Option<u32>,
) -> Result<ExitCode, CommandFault>
where
    R: Print + Eprint + Input + Files + Clock + AllocGlobal,
    F: Files + Drop,
{
    let after = Some(acks.number());
    let wanted = Wanted { after, ..wanted };
    let acks = RefCell::new(acks);
    let read = read_on(rt, dir, wanted, Output::new(rt, &acks), poll, &acks);
    if end_of(acks, read.is_ok() && poll.is_none()) {
        ended(rt, dir, read)
    } else {
        Ok(ExitCode::FAILURE)
    }
}

/// Acknowledges what has come, or all that comes up to the end of standard input. Returns whether all could be
/// acknowledged.
fn end_of<R, F>(acks: RefCell<Acks<'_, R, F>>, waits: bool) -> bool
where
    R: Eprint + Input + Clock,
    F: Files + Drop,
{
    let mut acks = acks.into_inner();
    if waits {
        acks.take_rest();
    } else {
        acks.wait(Duration::ZERO);
    }
    !acks.has_stopped()
}

/// What is waited for between two looks at a spool.
trait Pace {
    /// Waits at most so long. Returns whether it goes on.
    fn wait(&self, most: Duration) -> bool;
}

/// Time alone is waited for.
#[derive(Clone, Copy)]
struct Sleep<'a, R>(&'a R);

impl<R: Clock> Pace for Sleep<'_, R> {
    fn wait(&self, most: Duration) -> bool {
        thread::sleep(self.0, most);
        true
    }
}

impl<R: Input + Eprint + Clock, F: Files + Drop> Pace for RefCell<Acks<'_, R, F>> {
    fn wait(&self, most: Duration) -> bool {
        match self.try_borrow_mut() {
            Ok(mut acks) => acks.wait(most),
            Err(_) => false,
        }
    }
}

/// Prints the records of a spool to `out`, up to damage. Returns whether there was none.
fn read_on<R, W, P>(
    rt: &R,
    dir: &str,
    wanted: Wanted<'_>,
    out: W,
    poll: Option<u32>,
    pace: &P,
) -> Result<bool, SpoolFault>
where
    R: Eprint + Files + AllocGlobal,
    W: Write + Drop,
    P: Pace,
{
    let Ok(mut out) = io::BufWriter::with_capacity(rt.alloc(), BUFFER, out) else {
        return Err(SpoolFault::NoMemory);
    };
    let read = read_to(rt, dir, wanted, &mut out, poll, pace);
    let _ = out.into_parts(); // what standard output refused is not tried again
    read
}

/// Prints the records of a spool to a buffer, which is flushed after each look.
fn read_to<R, W, P>(
    rt: &R,
    dir: &str,
    wanted: Wanted<'_>,
    out: &mut W,
    poll: Option<u32>,
    pace: &P,
) -> Result<bool, SpoolFault>
where
    R: Eprint + Files + AllocGlobal,
    W: Write,
    P: Pace,
{
    let mut printer = UpToDamage(Printer::new(rt.alloc(), wanted, out, Stderr(rt))?);
    let mut follower = Follower::new(rt, rt.alloc(), dir, wanted.after)?;
    for _ in 0..u64::MAX {
        if !look(&mut follower, &mut printer)? {
            return Ok(false);
        }
        match poll {
            Some(millis) if pace.wait(Duration::from_millis(u64::from(millis))) => {}
            _ => break,
        }
    }
    Ok(true)
}

/// Prints what a follower finds in one look. Returns whether there was no damage.
fn look<R, W, E>(
    follower: &mut Follower<R>,
    printer: &mut UpToDamage<'_, W, E>,
) -> Result<bool, SpoolFault>
where
    R: Files + Drop,
    W: Write + Drop,
    E: Write + Drop,
{
    let looked = follower.go_on(printer);
    printer.0.flush()?;
    if printer.0.damaged() > 0 {
        return Ok(false);
    }
    looked.map(|_| true)
}

/// A printer that ends at damage.
#[derive(Drop)]
struct UpToDamage<'a, W, E>(Printer<'a, W, E>);

impl<W: Write + Drop, E: Write + Drop> Visitor for UpToDamage<'_, W, E> {
    fn segment(&mut self) {
        self.0.segment();
    }

    fn record(&mut self, found: &Found<'_>) -> Result<(), SpoolFault> {
        self.0.record(found)
    }

    fn gap(&mut self, spool: &[u8; 16], missing: &Missing) -> Result<(), SpoolFault> {
        self.0.gap(spool, missing)
    }

    /// Fails, so that nothing after the damage is read.
    fn damage(&mut self, damage: &Damage) -> Result<(), SpoolFault> {
        self.0.damage(damage)?;
        Err(SpoolFault::Write)
    }
}
