//! Tests `amqp_spool_records` by the rows of `data/`: what is printed of spools, and what one hears that follows them.
//!
//! `file NAME BYTES` writes a file of the spool, in hex; `-` is none. `name NAME BYTES` puts a file in the place of the
//! one of this name, and `cut` cuts that one to no bytes; `cut NAME` cuts a file, and `remove NAME` removes it.
//! `remove` alone removes the directory. `again` begins anew.
//!
//! `text` and `json` answer what is printed of the spool, the lines parted by ` / `, and after them what is told of
//! damage, and how many segments are damaged; `after=N` and `address=A` may follow. `list` and `check` answer their
//! lines, `check` whether all is well too. A fault ends an answer.
//!
//! `follow` begins to follow the spool; `after=N` may stand after it. `more` goes on once. It answers what was told, in
//! short, and then whether anything was and which number is due. `more but=N` refuses the record or the gap of this
//! number, and `more but=damage` what is told of damage. `more text` and `more json` answer what is printed. `rest`
//! goes on until nothing comes and what is planned is done; it answers how many records it was told, how many numbers
//! were missing, how much damage, and `in order` if the numbers came in order, each once; `all` in place of `rest`
//! answers how many numbers were one or the other. `id` answers the id of the spool.
//!
//! `plan CALL EVERY STEPS` plans steps, as `file`, `name`, `cut` and `remove`, parted by `;`: the first before the call
//! of the system of this number that a reader makes from then on, each other one so many calls after the one before it.
#![tactic(auto)]

ghost use Rattle.std.specs.Prelude.{◌≤◌};

mod disk;
mod telling;

use crate::disk::{Disk, PATH, Plan};
use crate::telling::{Counter, Refused, Teller};
use amqp_spool_records::{
    Follower, Form, Printer, SpoolFault, Wanted, check_spool, list_spool, print_spool,
};
use std::alloc::Global;
use std::rc::Rc;
use std::{env, fs};
use test_heap::TestHeap;
use test_row_files::words::{hex_of, name_of};
use test_row_files::{Miss, RowFile, Subject};

/// How often `rest` goes on at most.
const TURNS: u32 = 200;

/// A spool in the directory [`PATH`], and one that follows it.
#[derive(Drop)]
struct Spool<'a> {
    rt: &'a HostRuntime,
    plan: Rc<Plan<'a>>,
    follower: Option<Follower<Disk<'a>>>,
}

impl Subject for Spool<'_> {
    fn begin(&mut self) {
        self.follower = None;
        self.plan.clear();
        let _ = fs::remove_dir_all(self.rt, PATH);
        let _ = fs::create_dir(self.rt, PATH);
    }

    fn call(&mut self, alloc: Global, words: &str) -> Result<String, Miss> {
        let (name, rest) = name_of(words);
        match name {
            "text" => self.printed(alloc, rest, Form::Text),
            "json" => self.printed(alloc, rest, Form::Json),
            "list" => self.listed(alloc),
            "check" => self.checked(alloc),
            "more" => self.more(alloc, rest),
            "rest" => self.rest(alloc, true),
            "all" => self.rest(alloc, false),
            "id" => self.id(alloc),
            _ => {
                self.done(alloc, name, rest, words)?;
                Ok(String::from_str(alloc, "()")?)
            }
        }
    }

    fn shown(&self, alloc: Global) -> Result<String, Miss> {
        Ok(String::new(alloc))
    }
}

impl<'a> Spool<'a> {
    /// Makes a call that answers nothing.
    fn done(&mut self, alloc: Global, name: &str, rest: &str, words: &str) -> Result<(), Miss> {
        match name {
            "again" => self.begin(),
            "follow" => self.follow(alloc, rest)?,
            "plan" => self.plan.set(rest)?,
            "remove" if rest.is_empty() => fs::remove_dir_all(self.rt, PATH)?,
            _ => self.plan.step(words)?,
        }
        Ok(())
    }

    /// Begins to follow the spool.
    fn follow(&mut self, alloc: Global, words: &str) -> Result<(), Miss> {
        let after = match words.split_once('=') {
            None => None,
            Some(("after", number)) => Some(number.parse::<u64>().ok().ok_or("no number")?),
            Some(_) => return Err(Miss::Unread("no such word")),
        };
        let disk = Disk(self.plan.clone()?);
        match Follower::new(disk, alloc, PATH, after) {
            Ok(follower) => {
                self.follower = Some(follower);
                Ok(())
            }
            Err(_) => Err(Miss::NoMemory),
        }
    }

    /// Goes on once.
    fn more(&mut self, alloc: Global, words: &str) -> Result<String, Miss> {
        match words {
            "text" => self.more_printed(alloc, Form::Text),
            "json" => self.more_printed(alloc, Form::Json),
            _ => self.more_told(alloc, refused_by(words)?),
        }
    }

    fn more_told(&mut self, alloc: Global, refused: Refused) -> Result<String, Miss> {
        let follower = self.follower.as_mut().ok_or("nobody follows")?;
        let mut teller = Teller::new(alloc, refused);
        let end = went_text(alloc, follower.go_on(&mut teller))?;
        let due = follower.due();
        let mut text = teller.text;
        write!(text, "{end}, {due} due")?;
        Ok(text)
    }

    fn more_printed(&mut self, alloc: Global, form: Form) -> Result<String, Miss> {
        let follower = self.follower.as_mut().ok_or("nobody follows")?;
        let mut out = Vec::new(alloc);
        let mut told = Vec::new(alloc);
        let end = match printed_on(alloc, follower, form, &mut out, &mut told) {
            Ok(damaged) => format!(in alloc; "{damaged} damaged")?,
            Err(fault) => fault_text(alloc, &fault)?,
        };
        joined(alloc, &out, &told, end.as_str())
    }

    /// Goes on until nothing comes.
    fn rest(&mut self, alloc: Global, is_exact: bool) -> Result<String, Miss> {
        let follower = self.follower.as_mut().ok_or("nobody follows")?;
        let mut counter = Counter::new(follower.due());
        match count_rest(follower, &self.plan, &mut counter) {
            Ok(true) => counted(alloc, &counter, is_exact),
            Ok(false) => Err(Miss::Unread("it doesn't end")),
            Err(fault) => fault_text(alloc, &fault),
        }
    }

    fn id(&self, alloc: Global) -> Result<String, Miss> {
        let follower = self.follower.as_ref().ok_or("nobody follows")?;
        match follower.spool() {
            Some(spool) => hex_of(alloc, &spool),
            None => Ok(String::from_str(alloc, "none")?),
        }
    }

    /// Returns what is printed, and what is told.
    fn printed(&self, alloc: Global, words: &str, form: Form) -> Result<String, Miss> {
        let mut wanted = Wanted {
            after: None,
            address: None,
            form,
        };
        for word in words.split_whitespace() {
            match word.split_once('=') {
                Some(("after", number)) => {
                    wanted.after = Some(number.parse::<u64>().ok().ok_or("no number")?);
                }
                Some(("address", address)) => wanted.address = Some(address),
                _ => return Err(Miss::Unread("no such word")),
            }
        }
        let mut out = Vec::new(alloc);
        let mut told = Vec::new(alloc);
        let disk = Disk(self.plan.clone()?);
        let ended = print_spool(disk, alloc, PATH, wanted, &mut out, &mut told);
        let end = match ended {
            Ok(damaged) => format!(in alloc; "{damaged} damaged")?,
            Err(fault) => fault_text(alloc, &fault)?,
        };
        joined(alloc, &out, &told, end.as_str())
    }

    fn listed(&self, alloc: Global) -> Result<String, Miss> {
        let mut out = Vec::new(alloc);
        let end = match list_spool(self.rt, alloc, PATH, &mut out) {
            Ok(()) => String::from_str(alloc, "()")?,
            Err(fault) => fault_text(alloc, &fault)?,
        };
        joined(alloc, &out, &[], end.as_str())
    }

    fn checked(&self, alloc: Global) -> Result<String, Miss> {
        let mut out = Vec::new(alloc);
        let mut told = Vec::new(alloc);
        let disk = Disk(self.plan.clone()?);
        let end = match check_spool(disk, alloc, PATH, &mut out, &mut told) {
            Ok(is_well) => format!(in alloc; "{is_well}")?,
            Err(fault) => fault_text(alloc, &fault)?,
        };
        joined(alloc, &out, &told, end.as_str())
    }
}

/// Goes on until nothing comes and all that is planned is done. Returns `false` if that takes too long.
fn count_rest(
    follower: &mut Follower<Disk<'_>>,
    plan: &Plan<'_>,
    told: &mut Counter,
) -> Result<bool, SpoolFault>
    requires { told.old.next ≤ follower.old }
{
    'turns: for _ in 0..TURNS {
        if !follower.go_on(told)? && plan.is_done() {
            return Ok(true);
        }
    }
    Ok(false)
}

/// Goes on once, and prints what comes. Returns how much damage there was.
fn printed_on(
    alloc: Global,
    follower: &mut Follower<Disk<'_>>,
    form: Form,
    out: &mut Vec<u8>,
    told: &mut Vec<u8>,
) -> Result<u64, SpoolFault> {
    let wanted = Wanted {
        after: None,
        address: None,
        form,
    };
    let mut printer = Printer::new(alloc, wanted, out, told)?;
    follower.go_on(&mut printer)?;
    printer.flush()?;
    Ok(printer.damaged())
}

/// Returns what a visitor refuses, by `but=N` or `but=damage`.
fn refused_by(words: &str) -> Result<Refused, Miss> {
    match words.split_once('=') {
        None => Ok(Refused::Nothing),
        Some(("but", "damage")) => Ok(Refused::Damage),
        Some(("but", number)) => {
            let number = number.parse::<u64>().ok().ok_or("no number")?;
            Ok(Refused::Number(number))
        }
        Some(_) => Err(Miss::Unread("no such word")),
    }
}

fn went_text(alloc: Global, went: Result<bool, SpoolFault>) -> Result<String, Miss> {
    match went {
        Ok(has_told) => Ok(format!(in alloc; "{has_told}")?),
        Err(fault) => fault_text(alloc, &fault),
    }
}

/// Returns what was counted: what came and what was missing, or the numbers of both.
fn counted(alloc: Global, counter: &Counter, is_exact: bool) -> Result<String, Miss> {
    let Counter {
        records,
        missing,
        damaged,
        is_in_order,
        ..
    } = *counter;
    let order = if is_in_order {
        "in order"
    } else {
        "out of order"
    };
    if is_exact {
        Ok(format!(in alloc; "{records} records, {missing} missing, {damaged} damaged, {order}")?)
    } else {
        let all = records.saturating_add(missing);
        Ok(format!(in alloc; "{all} numbers, {damaged} damaged, {order}")?)
    }
}

fn fault_text(alloc: Global, fault: &SpoolFault) -> Result<String, Miss> {
    Ok(format!(in alloc; "fault: {fault}")?)
}

/// Returns the lines that were printed, those that were told, and how it ended, parted by ` / `.
fn joined(alloc: Global, out: &[u8], told: &[u8], end: &str) -> Result<String, Miss> {
    let mut text = String::new(alloc);
    for lines in [out, told] {
        let lines = str::from_utf8(lines).ok().ok_or("no text")?;
        for line in lines.split_terminator('\n') {
            text.push_str(line)?;
            text.push_str(" / ")?;
        }
    }
    text.push_str(end)?;
    Ok(text)
}

fn main(rt: HostRuntime) -> Result<(), Miss> {
    let heap = TestHeap::new(rt.alloc(), 0);
    for name in env::args(&rt)?.skip(1) {
        let text = fs::read_to_string(&rt, name.as_str())?;
        let file = RowFile::read(rt.alloc(), text.as_str())?;
        let mut spool = Spool {
            rt: &rt,
            plan: Rc::new(rt.alloc(), Plan::new(&rt, rt.alloc()))?,
            follower: None,
        };
        let report = file.run(rt.alloc(), &heap, &mut spool)?;
        rt.print(report.as_str())?;
    }
    let _ = fs::remove_dir_all(&rt, PATH);
    Ok(())
}
