//! Rows of the consumers of a spool in a directory.

use crate::disk::PATH;
use crate::words::{Words, part};
use amqp_spool::consumers::{self, Consumer, ConsumerFault};
use amqp_spool::{ConsumerName, DirFiles, Exclusive};
use std::alloc::Global;
use std::fs::{self, Files};
use test_row_files::Miss;
use test_row_files::words::{name_of, number};

/// Makes a call on the consumers, and puts its answer.
pub fn call<R: Files + Drop>(
    alloc: Global,
    host: R,
    held: &mut Option<Consumer<R>>,
    name: &str,
    words: &str,
    out: &mut String,
) -> Result<(), Miss>
where
    R::File: Exclusive,
{
    let files = DirFiles::new(host, alloc, PATH)?;
    match name {
        "positions" => return put_positions(&files, out),
        "crowd" => return crowd(alloc, &files, words, out),
        _ => {}
    }
    let mut words = Words::of(words);
    let Some(consumer) = ConsumerName::of(words.word()?) else {
        return Ok(out.push_str("no name")?);
    };
    match name {
        "add" => put_added(consumers::add(&files, &consumer), out)?,
        "remove" => put_done(consumers::remove(&files, &consumer), out)?,
        "ack" => put_done(acknowledged(&files, &consumer, words.long()?), out)?,
        "hold" => match Consumer::open(&files, &consumer) {
            Ok(open) => {
                write!(out, "{} unread={}", open.number(), open.is_unread())?;
                *held = Some(open);
            }
            Err(fault) => write!(out, "{fault}")?,
        },
        "position" => put_position(consumers::position_of(&files, &consumer), out)?,
        _ => return Err(Miss::Unread("no such call")),
    }
    Ok(words.end()?)
}

/// Puts a line in place of the position of a consumer: NAME TEXT.
pub fn spoil(rt: &HostRuntime, words: &str) -> Result<(), Miss> {
    let (name, text) = name_of(words);
    let alloc = rt.alloc();
    let path = format!(in alloc; "{PATH}/{name}.at")?;
    let line = format!(in alloc; "{text}\n")?;
    fs::write(rt, path.as_str(), line.as_bytes())?;
    Ok(())
}

/// Adds so many consumers: `c1`, `c2` and so on. Puts after which number the last of them begins.
fn crowd<R: Files + Drop>(
    alloc: Global,
    files: &DirFiles<R>,
    count: &str,
    out: &mut String,
) -> Result<(), Miss>
where
    R::File: Exclusive,
{
    for number in 0..number(count)? {
        let name = format!(in alloc; "c{}", number.saturating_add(1))?;
        let consumer = ConsumerName::of(name.as_str()).ok_or("no name")?;
        out.clear();
        put_added(consumers::add(files, &consumer), out)?;
    }
    Ok(())
}

fn put_added(answer: Result<u64, ConsumerFault>, out: &mut String) -> Result<(), Miss> {
    match answer {
        Ok(number) => write!(out, "{number}")?,
        Err(fault) => write!(out, "{fault}")?,
    }
    Ok(())
}

fn acknowledged<R: Files + Drop>(
    files: &DirFiles<R>,
    name: &ConsumerName,
    number: u64,
) -> Result<(), ConsumerFault>
where
    R::File: Exclusive,
{
    Consumer::open(files, name)?.acknowledge(files, number)
}

fn put_done(answer: Result<(), ConsumerFault>, out: &mut String) -> Result<(), Miss> {
    match answer {
        Ok(()) => out.push_str("()")?,
        Err(fault) => write!(out, "{fault}")?,
    }
    Ok(())
}

fn put_position(answer: Result<Option<u64>, ConsumerFault>, out: &mut String) -> Result<(), Miss> {
    match answer {
        Ok(Some(number)) => write!(out, "{number}")?,
        Ok(None) => out.push_str("unread")?,
        Err(fault) => write!(out, "{fault}")?,
    }
    Ok(())
}

/// Puts where each consumer stands, by their names.
fn put_positions<R: Files + Drop>(files: &DirFiles<R>, out: &mut String) -> Result<(), Miss> {
    let spool = crate::lives::ID;
    let mut standings = match consumers::standings(files, &spool) {
        Ok(standings) => standings,
        Err(fault) => return Ok(write!(out, "{fault}")?),
    };
    standings.sort_unstable_by(|a, b| a.name.as_str().cmp(b.name.as_str()));
    for standing in standings.iter() {
        part(out, " ")?;
        write!(out, "{}:", standing.name)?;
        put_position(Ok(standing.number), out)?;
    }
    Ok(())
}
