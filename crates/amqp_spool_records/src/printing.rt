//! `amqp records --spool`: the records of a spool, printed.

ghost use Rattle.std.specs.Prelude.{◌≤◌, length};

use crate::damage::{Damage, damage_text};
use crate::faults::SpoolFault;
use crate::heading::put_heading;
use crate::members::{put_gap, put_members};
use crate::numbers::{Missing, gap_text};
use crate::target::is_at;
use crate::visiting::{Found, Visitor};
use crate::walk::walk;
use amqp_dump::Page;
use amqp_records::{HEAD, Output, Scratch, put_line_of, put_object_of};
use amqp_spool::DirFiles;
use std::alloc::Global;
use std::fs::Files;
use std::io::Write;

/// How many bytes of a message a line has room for at once. It grows.
const ROOM: usize = 65_536;

/// How a record is printed.
#[derive(Clone, Copy, Debug, PartialEq, Eq)]
pub enum Form {
    /// Two lines for people: what the spool says of it, and the line of `records`.
    Text,
    /// One JSON object on a line.
    Json,
}

/// What is printed of a spool.
#[derive(Clone, Copy, Debug, PartialEq, Eq)]
pub struct Wanted<'a> {
    /// The records after this number. Without it all that are not gone.
    pub after: Option<u64>,
    /// Those alone whose target has this address. Without it all.
    pub address: Option<&'a str>,
    pub form: Form,
}

/// Prints the records of the spool in this directory to `out`, in order, each once, as they are when it is read.
///
/// A record is a JSON object on a line, with the members `spool`, `time`, `life`, `connection`, `peer`, `container`,
/// `user`, `link`, `address`, `tag`, and then those that `records --json` prints of the message, in which `number` is that
/// of the record in the spool, and a binary value is `{"binary":"BASE64"}`. As text it is two lines. The tag is in hex.
///
/// Numbers that are missing are a line too: `gap A to B`, or `{"gap":{"from":A,"to":B},"spool":ID}`. Where a segment is
/// damaged, `told` gets a line, `fault: SEGMENT PLACE Damaged, A to B are missing`, and it goes on with the next one.
/// Returns how many were damaged.
///
/// In memory it holds one batch, the number of each segment, and who sends on the links of one. Nothing is locked and
/// nothing is written: a gateway may write the spool meanwhile.
///
/// # Errors
///
/// `Refused` if the system refuses to read a file, `NoSegments` if the directory has none and `TooManySegments` if it has
/// more than a gateway makes, `Write` if `out` or `told` refuses what is written, `NoMemory` if memory is refused. All that
/// was printed before stays.
pub fn print_spool<R: Files + Drop, W: Write + Drop, E: Write + Drop>(
    rt: R,
    alloc: Global,
    dir: &str,
    wanted: Wanted<'_>,
    out: W,
    told: E,
) -> Result<u64, SpoolFault> {
    let files = DirFiles::new(rt, alloc, dir)?;
    let mut printer = Printer::new(alloc, wanted, out, told)?;
    walk(files, alloc, wanted.after, &mut printer)?;
    Ok(printer.damaged())
}

/// A visitor that prints what it is told of, as [`print_spool`] does.
#[derive(Drop)]
pub struct Printer<'a, W, E> {
    alloc: Global,
    wanted: Wanted<'a>,
    /// Where the text before a record is made.
    page: Page,
    /// Where the record's own line is made.
    scratch: Scratch,
    /// Where JSON is made.
    line: Vec<u8>,
    damaged: u64,
    out: W,
    told: E,
}

impl<'a, W: Write + Drop, E: Write + Drop> Printer<'a, W, E> {
    /// Returns one that prints records, and numbers that are missing, to `out`, and damage to `told`. Which records it
    /// is told of is for the one who goes through the spool to say: `wanted.after` is not looked at.
    ///
    /// # Errors
    ///
    /// `NoMemory` if memory is refused.
    pub fn new(
        alloc: Global,
        wanted: Wanted<'a>,
        out: W,
        told: E,
    ) -> Result<Printer<'a, W, E>, SpoolFault> {
        let page = Page::with_capacity(alloc, ROOM)?;
        let scratch = Scratch::new(alloc, ROOM)?;
        Ok(Printer {
            alloc,
            wanted,
            page,
            scratch,
            line: Vec::new(alloc),
            damaged: 0,
            out,
            told,
        })
    }

    /// Returns how often it was told of damage.
    pub fn damaged(&self) -> u64 {
        self.damaged
    }

    /// Flushes `out` and `told`.
    ///
    /// # Errors
    ///
    /// `Write` if one of them refuses it.
    pub fn flush(&mut self) -> Result<(), SpoolFault> {
        self.out.flush().map_err(|_| SpoolFault::Write)?;
        self.told.flush().map_err(|_| SpoolFault::Write)
    }

    /// Prints a record for people.
    fn put_text(&mut self, found: &Found<'_>) -> Result<(), SpoolFault>
        requires { HEAD ≤ length found.now.sent.«record».now }
    {
        self.page.clear();
        put_heading(self.alloc, &mut self.page, found)?;
        write_out(&mut self.out, self.page.as_bytes())?;
        let record = found.sent.record;
        put_line_of(
            self.alloc,
            Output::Text,
            found.number,
            record,
            &mut self.scratch,
        )?;
        write_out(&mut self.out, self.scratch.line())
    }

    /// Prints a record as JSON.
    fn put_json(&mut self, found: &Found<'_>) -> Result<(), SpoolFault>
        requires { HEAD ≤ length found.now.sent.«record».now }
    {
        put_object_of(
            self.alloc,
            found.number,
            found.sent.record,
            &mut self.scratch,
        )?;
        self.line.clear();
        put_members(self.alloc, &mut self.line, found)?;
        self.line.extend_from_slice(b",")?;
        self.line
            .extend_from_slice(after_brace(self.scratch.line()))?;
        write_out(&mut self.out, &self.line)
    }
}

impl<W: Write + Drop, E: Write + Drop> Visitor for Printer<'_, W, E> {
    fn segment(&mut self) {}

    fn record(&mut self, found: &Found<'_>) -> Result<(), SpoolFault> {
        if !is_at(&found.from, self.wanted.address) {
            return Ok(());
        }
        match self.wanted.form {
            Form::Text => self.put_text(found),
            Form::Json => self.put_json(found),
        }
    }

    fn gap(&mut self, spool: &[u8; 16], missing: &Missing) -> Result<(), SpoolFault> {
        match self.wanted.form {
            Form::Text => {
                let text = gap_text(self.alloc, missing)?;
                write_out(&mut self.out, text.as_bytes())
            }
            Form::Json => {
                self.line.clear();
                put_gap(self.alloc, &mut self.line, spool, missing)?;
                write_out(&mut self.out, &self.line)
            }
        }
    }

    fn damage(&mut self, damage: &Damage) -> Result<(), SpoolFault> {
        self.damaged = self.damaged.saturating_add(1);
        let text = damage_text(self.alloc, damage)?;
        write_out(&mut self.told, text.as_bytes())
    }
}

/// Returns an object without the brace that it begins with.
fn after_brace(line: &[u8]) -> &[u8] {
    line.get(1..).unwrap_or(&[])
}

/// Writes all of the bytes.
pub fn write_out<W: Write>(out: &mut W, bytes: &[u8]) -> Result<(), SpoolFault> {
    out.write_all(bytes).map_err(|_| SpoolFault::Write)
}
