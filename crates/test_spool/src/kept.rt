//! What a script was told, and whether it is read.

use crate::words::{Words, long};
use std::alloc::Global;
use test_row_files::Miss;
use test_row_files::words::name_of;

/// The messages that a script has put, as lines: CONNECTION PEER CONTAINER NAME TARGET TAG MESSAGE.
#[derive(Drop)]
pub struct Told {
    /// Those that were told, each with its number before it.
    told: String,
    /// Those that wait.
    waiting: String,
    /// The links of this life: LINK CONNECTION PEER CONTAINER NAME TARGET.
    links: String,
    /// The number of the next record.
    next: u64,
    /// The number up to which messages may be gone: the directory was asked to let them go, and may have done it.
    passed: u64,
    is_above: bool,
}

impl Told {
    pub fn new(alloc: Global) -> Told {
        Told {
            told: String::new(alloc),
            waiting: String::new(alloc),
            links: String::new(alloc),
            next: 0,
            passed: 0,
            is_above: false,
        }
    }

    /// Notes that a life begins, whose first record has this number.
    pub fn begin(&mut self, next: u64) {
        self.waiting.clear();
        self.links.clear();
        self.next = next;
    }

    /// Notes what a step answered, and whether something was asked of the disk.
    pub fn note(&mut self, step: &str, answer: &str, was_asked: bool) -> Result<(), Miss> {
        if answer.ends_with("above the limit") {
            self.is_above = true;
        }
        match name_of(step) {
            ("link", words) => self.note_link(answer, words),
            ("put", words) if answer == "()" => self.note_put(words),
            ("settle", "") => self.note_settled(answer),
            ("tell", words) => {
                if let "()" | "Full" | "Failed" = answer {
                    self.note_put(words)?;
                }
                self.note_settled(answer)
            }
            ("ack", words) if was_asked => self.note_passed(words),
            ("tend", passed) => {
                if was_asked && answer != "Full" {
                    self.passed = self.passed.max(long(passed)?);
                }
                Ok(())
            }
            _ => Ok(()),
        }
    }

    fn note_link(&mut self, link: &str, words: &str) -> Result<(), Miss> {
        let mut words = Words::of(words);
        let connection = words.word()?;
        let name = words.word()?;
        let peer = words.word_or(PEER);
        let container = words.word_or(CONTAINER);
        let target = words.word_or(TARGET);
        writeln!(
            self.links,
            "{link} {connection} {peer} {container} {name} {target}"
        )?;
        Ok(())
    }

    fn note_put(&mut self, words: &str) -> Result<(), Miss> {
        let mut words = Words::of(words);
        let from = from_of(self.links.as_str(), words.word()?)?;
        let message = words.word()?;
        let tag = words.word_or(TAG);
        writeln!(self.waiting, "{from} {tag} {message}")?;
        Ok(())
    }

    /// Notes that a consumer has acknowledged, or may have: NAME NUMBER.
    fn note_passed(&mut self, words: &str) -> Result<(), Miss> {
        let (_, number) = name_of(words);
        self.passed = self.passed.max(long(number)?);
        Ok(())
    }

    fn note_settled(&mut self, answer: &str) -> Result<(), Miss> {
        if answer == "()" {
            for line in self.waiting.lines() {
                let number = self.next;
                writeln!(self.told, "{number} {line}")?;
                self.next = number.saturating_add(1);
            }
            self.waiting.clear();
        }
        Ok(())
    }

    /// Returns whether no step was above the limit, the numbers of the lines that are read follow each other, and what was
    /// told is among them, but for what may be gone.
    pub fn is_read(&self, read: &str) -> bool {
        for line in self.told.lines() {
            if number_of(line) > self.passed && !has_line(read, line) {
                return false;
            }
        }
        !self.is_above && are_numbered(read)
    }

    /// Returns what was told, as lines.
    pub fn text(&self) -> &str {
        self.told.as_str()
    }
}

/// Returns who sends on a link: CONNECTION PEER CONTAINER NAME TARGET.
fn from_of<'t>(links: &'t str, link: &str) -> Result<&'t str, Miss> {
    for line in links.lines().rev() {
        let (number, from) = name_of(line);
        if number == link {
            return Ok(from);
        }
    }
    Err(Miss::Unread("no such link"))
}

/// Returns the number of a record's line.
fn number_of(line: &str) -> u64 {
    let (number, _) = name_of(line);
    number.parse::<u64>().unwrap_or(u64::MAX)
}

/// Returns whether a text has a line.
fn has_line(text: &str, line: &str) -> bool {
    for it in text.lines() {
        if it == line {
            return true;
        }
    }
    false
}

/// Returns whether the numbers of these lines follow each other.
fn are_numbered(read: &str) -> bool {
    let mut last = 0u64;
    for line in read.lines() {
        let number = number_of(line);
        if last > 0 && number != last.saturating_add(1) {
            return false;
        }
        last = number;
    }
    true
}

/// What a link says of itself besides its name, unless its row says something else.
pub const PEER: &str = "::1";

pub const CONTAINER: &str = "c";

pub const TARGET: &str = "q";

/// The tag of a record, unless its row says another.
pub const TAG: &str = "t";
