//! Rows of a spool in a directory, through its lives.

ghost use Rattle.amqp_spool.specs.Spools.{IsNew};

use crate::consuming;
use crate::disk::{self, PATH};
use crate::folder::{Failing, Plan};
use crate::host::{Asked, Host, reason_of};
use crate::kept::{CONTAINER, PEER, TAG, TARGET, Told};
use crate::life::{Life, name_of as fault_of, refusal_of};
use crate::segment::Form;
use crate::words::{Words, long, part, word_of};
use amqp_spool::consumers::Consumer;
use amqp_spool::{Call, Dir, Folder, Introduction, JournalFault, OpenError, OpenFault, Spool};
use std::alloc::{AllocError, Global};
use std::io::ErrorKind;
use std::rc::Rc;
use test_row_files::words::{name_of, number, two_numbers};
use test_row_files::{Miss, Subject};

/// How many calls of the system the steps of a script make at most.
const MOST_CALLS: u32 = 10_000;

pub const ID: [u8; 16] = *b"0123456789abcdef";

/// When records arrive.
const ARRIVED: u64 = 1_700_000_000_000;

/// The record of the message `a`.
const RECORD: [u8; 19] = [0, 1, 0, 0, 0, 2, 0, 0, 0, 3, 0, 0, 0, 0, 0, 0, 0, 1, b'a'];

/// What a spool is made with.
#[derive(Clone, Copy)]
struct Limits {
    segment: u64,
    limit: u64,
    batch: u32,
}

/// A spool in the directory [`PATH`].
#[derive(Drop)]
pub struct Lives<'a> {
    rt: &'a HostRuntime,
    plan: &'a Plan,
    asked: Rc<Asked>,
    limits: Limits,
    life: Option<Life<Failing<'a>>>,
    /// A consumer whose lock is held.
    held: Option<Consumer<Host<HostRuntime>>>,
    /// How many secrets were given.
    secrets: u8,
    /// Steps, parted by commas.
    script: String,
}

impl Subject for Lives<'_> {
    fn begin(&mut self) {
        self.forget();
    }

    fn call(&mut self, alloc: Global, words: &str) -> Result<String, Miss> {
        let mut out = String::new(alloc);
        self.answer(alloc, words, &mut out)?;
        Ok(out)
    }

    fn shown(&self, alloc: Global) -> Result<String, Miss> {
        let mut out = String::new(alloc);
        self.put_shown(&mut out)?;
        Ok(out)
    }
}

impl<'a> Lives<'a> {
    pub fn new(rt: &'a HostRuntime, plan: &'a Plan, asked: Rc<Asked>) -> Lives<'a> {
        Lives {
            rt,
            plan,
            asked,
            limits: Limits {
                segment: 0,
                limit: 0,
                batch: 0,
            },
            life: None,
            held: None,
            secrets: 0,
            script: String::new(rt.alloc()),
        }
    }

    /// Removes all that there was.
    fn forget(&mut self) {
        self.life = None;
        self.held = None;
        disk::remove(self.rt);
    }

    fn put_shown(&self, out: &mut String) -> Result<(), Miss> {
        disk::put_shown(self.rt, out)?;
        let waits = match &self.life {
            Some(life) => !life.is_settled(),
            None => false,
        };
        write!(out, " waits={waits}")?;
        Ok(())
    }

    /// Answers a row.
    fn answer(&mut self, alloc: Global, words: &str, out: &mut String) -> Result<(), Miss> {
        match name_of(words) {
            ("script", steps) => {
                self.script.clear();
                self.script.push_str(steps)?;
                done(out)
            }
            ("with", fault) => self.with(alloc, fault, out),
            ("note", "") => {
                self.asked.note(alloc);
                done(out)
            }
            ("asked", "") => Ok(out.push_str(self.asked.noted(alloc)?.as_str())?),
            ("each", reason) => self.each(reason_of(reason)?, out),
            _ => self.step(words, out),
        }
    }

    /// Makes the steps of the script with a fault that these words plan. Puts what was answered in place of `()`, and
    /// what is read in the next life. The steps of a life that did not begin are left out.
    fn with(&mut self, alloc: Global, fault: &str, out: &mut String) -> Result<(), Miss> {
        self.forget();
        self.plan.set(fault)?;
        let script = self.script.clone()?;
        self.make_with(alloc, script.as_str(), out)
    }

    fn make_with(&mut self, alloc: Global, script: &str, out: &mut String) -> Result<(), Miss> {
        for step in script.split(", ") {
            let mut answer = String::new(alloc);
            self.step(step, &mut answer)?;
            put_answer(step, answer.as_str(), out)?;
        }
        if self.plan.clear() {
            part(out, " / ")?;
            out.push_str("no fault")?;
        }
        if self.plan.was_asked() {
            part(out, " / ")?;
            out.push_str("asked after it failed")?;
        }
        part(out, " / ")?;
        out.push_str("open ")?;
        self.open(out)?;
        disk::put_read(self.rt, Form::Brief, out)
    }

    /// Makes the steps of the script again and again. Each time the system refuses the next of its calls. Puts how often
    /// it was, or what was lost.
    fn each(&mut self, reason: ErrorKind, out: &mut String) -> Result<(), Miss> {
        let script = self.script.clone()?;
        let last = self.refuse_each(script.as_str(), reason, out)?;
        if out.is_empty() {
            write!(out, "{last} calls")?;
        }
        Ok(())
    }

    /// Returns the number of the last call that was refused. Puts what a run has lost, and makes no more.
    fn refuse_each(
        &mut self,
        script: &str,
        reason: ErrorKind,
        out: &mut String,
    ) -> Result<u32, Miss> {
        let mut last = 0;
        for number in 1..MOST_CALLS {
            if !self.refuse(script, number, reason, out)? || !out.is_empty() {
                return Ok(last);
            }
            last = number;
        }
        Err(Miss::Unread("too many calls"))
    }

    /// Makes the steps of a script, with the call of this number refused. Returns whether it was. Puts what was lost.
    fn refuse(
        &mut self,
        script: &str,
        number: u32,
        reason: ErrorKind,
        out: &mut String,
    ) -> Result<bool, Miss> {
        self.forget();
        self.asked.refuse(number, reason);
        self.run_refused(script, &mut Told::new(self.rt.alloc()), out)
    }

    /// Makes the steps of a script once. Returns whether a call was refused. Puts what was lost.
    fn run_refused(
        &mut self,
        script: &str,
        told: &mut Told,
        out: &mut String,
    ) -> Result<bool, Miss> {
        let alloc = self.rt.alloc();
        for step in script.split(", ") {
            self.note_step(step, &mut String::new(alloc), told)?;
        }
        let was_refused = self.asked.clear();
        self.put_lost(told, &mut String::new(alloc), out)?;
        Ok(was_refused)
    }

    /// Makes a step, and notes what it answers.
    fn note_step(&mut self, step: &str, answer: &mut String, told: &mut Told) -> Result<(), Miss> {
        let before = self.asked.count();
        self.step(step, answer)?;
        let was_asked = self.asked.count() > before;
        told.note(step, answer.as_str(), was_asked)?;
        if step == "open" && self.life.is_some() {
            told.begin(disk::next_number(self.rt)?);
        }
        Ok(())
    }

    /// Opens the spool once more. Puts what was told and is read, if something of it was lost.
    fn put_lost(&mut self, told: &Told, read: &mut String, out: &mut String) -> Result<(), Miss> {
        let mut opened = String::new(self.rt.alloc());
        self.open(&mut opened)?;
        disk::put_read(self.rt, Form::Line, read)?;
        let read = read.as_str();
        if opened.as_str() != "()" || !told.is_read(read) {
            let told = told.text();
            write!(out, "open {opened}, told {told:?}, read {read:?}")?;
        }
        Ok(())
    }

    /// Makes a step. Segments have at most the bytes of the limit after it.
    fn step(&mut self, words: &str, out: &mut String) -> Result<(), Miss> {
        self.make(words, out)?;
        let bytes = disk::len(self.rt)?;
        if self.life.is_some() && bytes > self.limits.limit {
            out.clear();
            write!(out, "{bytes} bytes are above the limit")?;
        }
        Ok(())
    }

    fn make(&mut self, words: &str, out: &mut String) -> Result<(), Miss> {
        match name_of(words) {
            ("limits", numbers) => self.limit(Words::of(numbers), out),
            ("open", "") => self.open(out),
            ("close", "") => self.close(out),
            ("cut" | "damage" | "lose" | "spoil_end", _) => spoil(self.rt, words, out),
            ("read", "") => disk::put_read(self.rt, Form::Brief, out),
            ("entries", first) => disk::put_entries_of(self.rt, long(first)?, out),
            ("add" | "remove" | "ack" | "hold" | "position" | "positions" | "crowd", _) => {
                self.consume(words, out)
            }
            ("let_go", "") => {
                self.held = None;
                done(out)
            }
            ("spoil", words) => {
                consuming::spoil(self.rt, words)?;
                done(out)
            }
            (name, words) => self.live(name, words, out),
        }
    }

    /// Returns the system.
    fn host(&self) -> Result<Host<HostRuntime>, Miss> {
        Ok(Host {
            rt: *self.rt,
            alloc: self.rt.alloc(),
            asked: self.asked.clone()?,
        })
    }

    /// Makes a call on the consumers.
    fn consume(&mut self, words: &str, out: &mut String) -> Result<(), Miss> {
        let host = self.host()?;
        let (name, words) = name_of(words);
        consuming::call(self.rt.alloc(), host, &mut self.held, name, words, out)
    }

    fn limit(&mut self, mut words: Words<'_>, out: &mut String) -> Result<(), Miss> {
        self.limits = Limits {
            segment: words.long()?,
            limit: words.long()?,
            batch: words.number()?,
        };
        words.end()?;
        done(out)
    }

    /// Ends a life.
    fn close(&mut self, out: &mut String) -> Result<(), Miss> {
        self.life = None;
        done(out)
    }

    /// Begins a life. If there is no room for it, it is tried once more.
    fn open(&mut self, out: &mut String) -> Result<(), Miss> {
        self.life = None;
        self.plan.open();
        let host = self.host()?;
        match Dir::open(host, self.rt.alloc(), PATH, ID) {
            Ok(dir) => out.push_str(self.begin_life(dir))?,
            Err(OpenError::NoMemory) => out.push_str("Err(NoMemory)")?,
            Err(reason) => write!(out, "{reason}")?,
        }
        Ok(())
    }

    /// Begins a life over a directory. Returns its answer.
    fn begin_life(&mut self, dir: Dir<Host<HostRuntime>>) -> &'static str {
        let folder = Failing {
            dir,
            plan: self.plan,
        };
        let Limits {
            segment,
            limit,
            batch,
        } = self.limits;
        let (life, answer) = match Spool::new(folder, self.rt.alloc(), ID, segment, limit, batch) {
            Ok(spool) => started(spool, self.secret()),
            Err(fault) => (None, fault_of(fault)),
        };
        self.life = life;
        answer
    }

    /// Returns another secret each time.
    fn secret(&mut self) -> [u8; 16] {
        self.secrets = self.secrets.wrapping_add(1);
        [self.secrets; 16]
    }

    /// Makes a step of a life.
    fn live(&mut self, name: &str, words: &str, out: &mut String) -> Result<(), Miss> {
        let (alloc, secret) = (self.rt.alloc(), self.secret());
        match &mut self.life {
            Some(life) => call(alloc, life, name, words, secret, out),
            None => Ok(out.push_str("closed")?),
        }
    }
}

/// Cuts, damages or removes a segment, or puts bytes in place of the published end.
fn spoil(rt: &HostRuntime, words: &str, out: &mut String) -> Result<(), Miss> {
    match name_of(words) {
        ("cut", words) => {
            let (first, count) = two_numbers(words)?;
            disk::cut(rt, first, count)?;
        }
        ("damage", words) => {
            let (first, before_end) = two_numbers(words)?;
            disk::damage(rt, first, before_end)?;
        }
        ("lose", first) => disk::lose(rt, number(first)?)?,
        (_, hex) => disk::spoil_end(rt, hex)?,
    }
    done(out)
}

/// Starts a spool. If there is no room for it, it is tried once more. Returns its life, and what it answered.
fn started<'a>(
    spool: Spool<Failing<'a>>,
    secret: [u8; 16],
) -> (Option<Life<Failing<'a>>>, &'static str)
    requires { IsNew spool }
{
    match Life::start(spool, secret) {
        Ok(life) => (Some(life), "()"),
        Err((spool, JournalFault::Full)) => started_again(spool, secret),
        Err((_, fault)) => (None, fault_of(fault)),
    }
}

fn started_again<'a>(
    spool: Spool<Failing<'a>>,
    secret: [u8; 16],
) -> (Option<Life<Failing<'a>>>, &'static str)
    requires { IsNew spool }
{
    match Life::start(spool, secret) {
        Ok(life) => (Some(life), "Full ()"),
        Err(_) => (None, "Full, and not started again"),
    }
}

/// Makes a call of a spool, and puts its answer.
fn call<F: Folder + Drop>(
    alloc: Global,
    life: &mut Life<F>,
    name: &str,
    words: &str,
    secret: [u8; 16],
    out: &mut String,
) -> Result<(), Miss> {
    match name {
        "link" => open_link(life, words, out),
        "held" => Ok(write!(out, "{}", life.held())?),
        "free" => put_freed(life.free(), out),
        "run" => run(alloc, life, words, out),
        _ => Ok(out.push_str(word(alloc, life, name, words, secret)?)?),
    }
}

/// Makes a call of a spool whose answer is a word.
fn word<F: Folder + Drop>(
    alloc: Global,
    life: &mut Life<F>,
    name: &str,
    words: &str,
    secret: [u8; 16],
) -> Result<&'static str, Miss> {
    match name {
        "leave" => {
            life.close_link(number(words)?);
            Ok("()")
        }
        "put" => put(alloc, life, words, 0),
        "put_cut" => put(alloc, life, words, 1),
        "settle" => Ok(settled(life.settle(ARRIVED, secret))),
        "tell" => match put(alloc, life, words, 0)? {
            "()" => Ok(settled(life.settle(ARRIVED, secret))),
            refusal => Ok(refusal),
        },
        "tend" => Ok(settled(life.tend(long(words)?))),
        "publish" => Ok(word_of(life.publish())),
        "has_room" => Ok(word_of(life.has_room(number(words)?))),
        "may_grant" => Ok(word_of(life.may_grant(long(words)?))),
        "is_open" => Ok(word_of(life.is_open(number(words)?))),
        _ => Err(Miss::Unread("no such call")),
    }
}

/// Opens a link, and puts its number.
fn open_link<F: Folder + Drop>(
    life: &mut Life<F>,
    words: &str,
    out: &mut String,
) -> Result<(), Miss> {
    match life.open_link(&link_in(words)?) {
        Ok(link) => write!(out, "{link}")?,
        Err(OpenFault::TooLong) => out.push_str("Err(TooLong)")?,
        Err(OpenFault::NoMemory) => out.push_str("Err(NoMemory)")?,
    }
    Ok(())
}

/// Returns who sends on a link: CONNECTION NAME, and a peer, a container and a target if they are others.
fn link_in(words: &str) -> Result<Introduction<'_>, Miss> {
    let mut words = Words::of(words);
    let connection = words.long()?;
    let name = words.word()?.as_bytes();
    let peer = words.word_or(PEER).as_bytes();
    let container = words.word_or(CONTAINER).as_bytes();
    let target = words.word_or(TARGET).as_bytes();
    words.end()?;
    Ok(Introduction {
        link: 0,
        connection,
        peer,
        container,
        name,
        user: b"",
        kind: 0,
        target,
    })
}

/// Puts a message: LINK MESSAGE, and a tag if it is another. Its record is without so many bytes at its end.
fn put<F: Folder + Drop>(
    alloc: Global,
    life: &mut Life<F>,
    words: &str,
    cut: usize,
) -> Result<&'static str, Miss> {
    let mut words = Words::of(words);
    let link = words.number()?;
    let message = words.word()?;
    let tag = words.word_or(TAG);
    words.end()?;
    match life.put(alloc, link, tag, message, cut) {
        Ok(()) => Ok("()"),
        Err(fault) => Ok(refusal_of(fault)),
    }
}

/// Makes a list of calls, parted by commas, whatever they answer. Each record is that of `a`, with the tag `t`.
fn run<F: Folder + Drop>(
    alloc: Global,
    life: &mut Life<F>,
    steps: &str,
    out: &mut String,
) -> Result<(), Miss> {
    let mut calls = Vec::new(alloc);
    put_calls(steps, &mut calls)?;
    life.run(&calls);
    done(out)
}

fn put_calls<'t>(steps: &'t str, calls: &mut Vec<Call<'t>>) -> Result<(), Miss> {
    for step in steps.split(", ") {
        calls.push(call_in(step)?)?;
    }
    Ok(())
}

fn call_in(step: &str) -> Result<Call<'_>, Miss> {
    match name_of(step) {
        ("link", words) => Ok(Call::OpenLink(link_in(words)?)),
        ("leave", link) => Ok(Call::CloseLink(number(link)?)),
        ("put", link) => Ok(Call::Put {
            link: number(link)?,
            tag: TAG.as_bytes(),
            bytes: &RECORD,
        }),
        ("settle", "") => Ok(Call::Settle {
            arrived: ARRIVED,
            secret: [0; 16],
        }),
        ("tend", passed) => Ok(Call::Tend(long(passed)?)),
        ("free", "") => Ok(Call::Free),
        _ => Err(Miss::Unread("no such call")),
    }
}

fn put_freed(answer: Result<Option<u64>, JournalFault>, out: &mut String) -> Result<(), Miss> {
    match answer {
        Ok(Some(number)) => write!(out, "{number}")?,
        Ok(None) => out.push_str("none")?,
        Err(fault) => out.push_str(fault_of(fault))?,
    }
    Ok(())
}

fn settled(answer: Result<(), JournalFault>) -> &'static str {
    match answer {
        Ok(()) => "()",
        Err(fault) => fault_of(fault),
    }
}

/// Puts what a step answered, unless that says no more than that it was done, or that there is no life.
fn put_answer(step: &str, answer: &str, out: &mut String) -> Result<(), AllocError> {
    if let "()" | "closed" = answer {
        return Ok(());
    }
    if step.starts_with("link ") {
        return Ok(());
    }
    part(out, " / ")?;
    write!(out, "{step} {answer}")
}

fn done(out: &mut String) -> Result<(), Miss> {
    Ok(out.push_str("()")?)
}
