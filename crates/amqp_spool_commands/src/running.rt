//! Does what the command line asks for of a spool.

use crate::consuming::{spool_ack, spool_add, spool_remove};
use crate::faults::CommandFault;
use crate::following::follow_spool;
use crate::pipes::AwaitInput;
use crate::reading::{spool_check, spool_list, spool_records};
use amqp_command_line::{Begin, ConsumerTask, SpoolTask};
use amqp_spool::{ConsumerName, Exclusive};
use amqp_spool_records::{Form, Wanted};
use std::io::Input;
use std::net::Net;
use std::process::ExitCode;
use std::rt::Files;
use std::time::Clock;

/// Does this with the spool in a directory. Returns the exit status: 0, 1 for a fault of the spool, of which standard
/// error was told, or 3 for damage.
///
/// # Errors
///
/// What else kept it from its end, of which nothing was told.
pub fn obey<R>(rt: &R, dir: &str, task: &SpoolTask<'_>) -> Result<ExitCode, CommandFault>
where
    R: Print + Eprint + Input + AwaitInput + Files + Net + Clock + AllocGlobal,
    R::File: Exclusive,
{
    match task {
        SpoolTask::Print {
            begin,
            address,
            json,
            poll,
        } => print(rt, dir, begin, wanted_of(*address, *json), *poll),
        SpoolTask::List => spool_list(rt, dir),
        SpoolTask::Check => spool_check(rt, dir),
        SpoolTask::Consumer { name, task } => obey_on(rt, dir, name, *task),
    }
}

/// Does this with a consumer of the spool in a directory.
fn obey_on<R>(
    rt: &R,
    dir: &str,
    name: &ConsumerName,
    task: ConsumerTask,
) -> Result<ExitCode, CommandFault>
where
    R: Print + Eprint + Files + Clock + AllocGlobal,
    R::File: Exclusive,
{
    match task {
        ConsumerTask::Add => spool_add(rt, dir, name),
        ConsumerTask::Remove => spool_remove(rt, dir, name),
        ConsumerTask::Acknowledge(number) => spool_ack(rt, dir, name, number),
    }
}

/// Returns what is printed of a spool: the records whose target has this address, if there is one.
fn wanted_of(address: Option<&str>, json: bool) -> Wanted<'_> {
    Wanted {
        after: None,
        address,
        form: if json { Form::Json } else { Form::Text },
    }
}

/// Prints the records of a spool from a place on: once all that can be read, and else up to damage.
fn print<R>(
    rt: &R,
    dir: &str,
    begin: &Begin,
    wanted: Wanted<'_>,
    poll: Option<u32>,
) -> Result<ExitCode, CommandFault>
where
    R: Print + Eprint + Input + AwaitInput + Files + Net + Clock + AllocGlobal,
    R::File: Exclusive,
{
    match (begin, poll) {
        (Begin::After(after), None) => {
            let after = *after;
            spool_records(rt, dir, Wanted { after, ..wanted })
        }
        _ => follow_spool(rt, dir, begin, wanted, poll),
    }
}
