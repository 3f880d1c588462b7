//! Runs the command that the command line asks for.

use crate::faults::{Fault, USAGE};
use crate::serving::{recv, serve_many};
use amqp_command_line::{Order, SpoolTask, command_line, order_of};
use amqp_dump::dump;
use amqp_frame::Device;
use amqp_receive::BUFFER;
use amqp_records::{BlocksFault, Output, RecordsFault, print_blocks, print_records};
use amqp_script::{ScriptFault, replay_script};
use amqp_send_file::{Fate, FileFault, Why, send_file};
use amqp_spool::Exclusive;
use amqp_spool_commands::AwaitInput;
use clap::error::ErrorKind;
use std::io::Read;
use std::net::Net;
use std::process::ExitCode;
use std::random::RandomSource;
use std::rt::{Env, Files};
use std::time::Clock;
use std::{env, fs, io};

/// Runs the program. The exit status is 0 for success, 1 for a fault, 2 for a command line that asks for no command,
/// and 3 for a spool that is damaged. What went wrong is on standard error, except the fault in a dumped stream.
pub fn run<R>(rt: &R) -> ExitCode
where
    R: Print + Eprint + Input + AwaitInput + Env + Files + Net + Clock + RandomSource + AllocGlobal,
    R::File: Exclusive,
{
    match obey(rt) {
        Ok(status) => status,
        Err(fault) => {
            let _ = eprintln!(rt; "fault: {fault}");
            ExitCode::FAILURE
        }
    }
}

/// Does what the command line asks for.
fn obey<R>(rt: &R) -> Result<ExitCode, Fault>
where
    R: Print + Eprint + Input + AwaitInput + Env + Files + Net + Clock + RandomSource + AllocGlobal,
    R::File: Exclusive,
{
    let words = match words(rt) {
        Ok(words) => words,
        Err(error) => return refuse_words(rt, &error),
    };
    let matches = match command_line(rt.alloc())?.try_get_matches_from(words.as_slice()) {
        Ok(matches) => matches,
        Err(error) => return refuse(rt, &error),
    };
    let order = order_of(&matches);
    match &order {
        Some(order) => follow(rt, order),
        None => Ok(ExitCode::from(USAGE)),
    }
}

/// Does what an order says.
fn follow<R>(rt: &R, order: &Order<'_>) -> Result<ExitCode, Fault>
where
    R: Print + Eprint + Input + AwaitInput + Files + Net + Clock + RandomSource + AllocGlobal,
    R::File: Exclusive,
{
    match order {
        Order::Dump { file } => dump_file(rt, file),
        Order::Recv {
            address,
            settings,
            limits,
            told,
        } => recv(rt, address, *settings, *limits, *told),
        Order::Gateway {
            address,
            settings,
            files,
        } => serve_many(rt, address, *settings, *files),
        Order::Records {
            file,
            output,
            max_message,
            blocks,
        } => records_file(rt, file, *output, *max_message, *blocks),
        Order::Spool { dir, task } => on_spool(rt, dir, task),
        Order::NoName { name } => {
            let _ = eprintln!(rt;
                "error: '{name}' is no name of a consumer: 1 to 64 of a-z, 0-9, - and _, the first a letter or a digit"
            );
            Ok(ExitCode::from(USAGE))
        }
        Order::Gone { option } => {
            let _ = eprintln!(rt; "error: {option} is gone: use --spool DIR --bytes D");
            Ok(ExitCode::from(USAGE))
        }
        Order::Replay { script } => replay_file(rt, script),
        Order::Send { address, file } => send(rt, address, file),
    }
}

/// Returns the words of the command line.
fn words<R: Env + AllocGlobal>(rt: &R) -> io::Result<Vec<String>> {
    Ok(env::args(rt)?.collect(rt.alloc())?)
}

/// Reports that the words of the command line could not be had.
fn refuse_words(rt: &impl Eprint, error: &io::Error) -> Result<ExitCode, Fault> {
    if error.kind() == io::ErrorKind::OutOfMemory {
        return Err(Fault::NoMemory);
    }
    let _ = eprintln!(rt; "error: {error}");
    Ok(ExitCode::from(USAGE))
}

/// Prints why a command line was refused, or the help that it asked for.
fn refuse(rt: &(impl Print + Eprint), error: &clap::Error) -> Result<ExitCode, Fault> {
    if error.kind() == ErrorKind::OutOfMemory {
        return Err(Fault::NoMemory);
    }
    let _ = error.print(rt);
    if error.use_stderr() {
        Ok(ExitCode::from(USAGE))
    } else {
        Ok(ExitCode::SUCCESS)
    }
}

/// Does something with the spool in a directory.
fn on_spool<R>(rt: &R, dir: &str, task: &SpoolTask<'_>) -> Result<ExitCode, Fault>
where
    R: Print + Eprint + Input + AwaitInput + Files + Net + Clock + AllocGlobal,
    R::File: Exclusive,
{
    match amqp_spool_commands::obey(rt, dir, task) {
        Ok(status) => Ok(status),
        Err(fault) => Err(Fault::Spool(fault)),
    }
}

/// The name that stands for standard input.
const STDIN: &str = "-";

/// Dumps a file, or standard input, to standard output.
fn dump_file<R: Print + Input + Files + AllocGlobal>(
    rt: &R,
    path: &str,
) -> Result<ExitCode, Fault> {
    if path == STDIN {
        return dump_from(rt, rt.reader());
    }
    match fs::open(rt, path) {
        Ok(file) => dump_from(rt, file),
        Err(_) => Err(Fault::Open),
    }
}

/// Dumps what a reader gives to standard output, as it comes.
fn dump_from<R: Print + AllocGlobal, I: Read + Drop>(rt: &R, input: I) -> Result<ExitCode, Fault> {
    let mut reader = Device::new(input);
    let mut writer = Device::new(io::writer(rt));
    match dump(rt.alloc(), &mut reader, &mut writer) {
        Ok(true) => Ok(ExitCode::SUCCESS),
        Ok(false) => Ok(ExitCode::FAILURE),
        Err(fault) => Err(Fault::Dump(fault)),
    }
}

/// Prints the records of a file, or of standard input, to standard output.
fn records_file<R: Print + Input + Files + AllocGlobal>(
    rt: &R,
    path: &str,
    output: Output,
    max_message: u32,
    blocks: bool,
) -> Result<ExitCode, Fault> {
    if path == STDIN {
        return records_from(rt, rt.reader(), output, max_message, blocks);
    }
    match fs::open(rt, path) {
        Ok(file) => records_from(rt, file, output, max_message, blocks),
        Err(_) => Err(Fault::Open),
    }
}

/// Prints the records that a reader gives to standard output, as they come. What was printed goes out, however it
/// ends.
fn records_from<R: Print + AllocGlobal, I: Read + Drop>(
    rt: &R,
    input: I,
    output: Output,
    max_message: u32,
    blocks: bool,
) -> Result<ExitCode, Fault> {
    let Ok(buffer) = io::BufWriter::with_capacity(rt.alloc(), BUFFER, io::writer(rt)) else {
        return Err(Fault::NoMemory);
    };
    let mut reader = Device::new(input);
    let mut writer = Device::new(buffer);
    let printed = if blocks {
        blocks_printed(print_blocks(rt.alloc(), &mut reader, &mut writer, output, max_message))
    } else {
        records_printed(print_records(rt.alloc(), &mut reader, &mut writer, output, max_message))
    };
    let _ = writer.flush();
    let _ = writer.into_inner().into_parts(); // what standard output refused is not tried again
    match (printed, output) {
        (Ok(count), Output::Only(number)) if count < number => Err(Fault::Absent),
        (Ok(_), _) => Ok(ExitCode::SUCCESS),
        (Err(fault), _) => Err(fault),
    }
}

/// Returns how many records were printed.
fn records_printed(printed: Result<u64, RecordsFault>) -> Result<u64, Fault> {
    match printed {
        Ok(count) => Ok(count),
        Err(fault) => Err(Fault::Records(fault)),
    }
}

/// Returns how many records of blocks were printed.
fn blocks_printed(printed: Result<u64, BlocksFault>) -> Result<u64, Fault> {
    match printed {
        Ok(count) => Ok(count),
        Err(fault) => Err(Fault::Blocks(fault)),
    }
}

/// Runs a script, with its answers on standard output. They go out many at a time, and all of them at the end,
/// however it ends.
fn replay_file<R: Print + Files + AllocGlobal>(rt: &R, path: &str) -> Result<ExitCode, Fault> {
    let file = match fs::open(rt, path) {
        Ok(file) => file,
        Err(_) => return Err(Fault::Open),
    };
    let Ok(output) = io::BufWriter::with_capacity(rt.alloc(), BUFFER, io::writer(rt)) else {
        return Err(Fault::NoMemory);
    };
    let mut reader = Device::new(file);
    let mut writer = Device::new(output);
    let ran = replay_script(rt.alloc(), &mut reader, &mut writer);
    let flushed = writer.flush();
    let _ = writer.into_inner().into_parts(); // what standard output refused is not tried again
    match ran {
        _ if flushed.is_err() => Err(Fault::Script(ScriptFault::Write)),
        Ok(()) => Ok(ExitCode::SUCCESS),
        Err(fault) => Err(Fault::Script(fault)),
    }
}

/// Sends a file, and prints what became of it on standard output, and the receiver's error on standard error.
fn send<R: Print + Eprint + Files + Net + AllocGlobal>(
    rt: &R,
    address: &str,
    path: &str,
) -> Result<ExitCode, Fault> {
    let Ok(mut why) = Why::new(rt.alloc()) else {
        return Err(Fault::Send(FileFault::NoMemory));
    };
    let fate = match send_file(rt, address, path, &mut why) {
        Ok(fate) => fate,
        Err(fault) => return Err(Fault::Send(fault)),
    };
    let _ = println!(rt; "{fate}");
    if let Some(text) = why.text() {
        let _ = eprintln!(rt; "{text}");
    }
    Ok(match fate {
        Fate::Accepted => ExitCode::SUCCESS,
        _ => ExitCode::FAILURE,
    })
}
