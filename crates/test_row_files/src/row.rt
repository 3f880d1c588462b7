//! Runs a row.

use crate::heap::Mark;
use crate::spelling::{Name, spelled};
use crate::words::cut;
use crate::{Heap, Miss, Subject};
use std::alloc::{AllocError, Global};

/// A row, and the number that `{n}` is in it.
#[derive(Clone, Copy)]
pub struct Row<'t> {
    pub text: &'t str,
    pub n: u32,
}

/// The result of the rows of a run.
#[derive(Drop)]
pub struct Tally {
    /// How many rows held.
    pub held: u32,
    /// How many calls were refused memory.
    pub refused: u32,
    /// A line for each row that did not hold.
    pub misses: String,
}

impl Tally {
    pub fn new(alloc: Global) -> Tally {
        Tally {
            held: 0,
            refused: 0,
            misses: String::new(alloc),
        }
    }
}

/// What rows run on, and the result of them.
#[derive(Drop)]
pub struct Run<'r, 't, S> {
    pub alloc: Global,
    pub heap: Heap<'r>,
    pub names: &'r [Name<'t>],
    pub subject: &'r mut S,
    pub mark: Mark,
    pub tally: Tally,
}

impl<S: Subject> Run<'_, '_, S> {
    /// Runs a row, and counts it where it held.
    pub fn row(&mut self, row: Row<'_>) -> Result<(), Miss> {
        let found = match self.missed(row) {
            Ok(None) => {
                self.tally.held = self.tally.held.saturating_add(1);
                return Ok(());
            }
            Ok(Some(found)) => found,
            Err(Miss::Unread(why)) => String::from_str(self.alloc, why)?,
            Err(other) => return Err(other),
        };
        let (text, n) = (row.text, row.n);
        if text.contains("{n") {
            writeln!(self.tally.misses, "    {text} [n = {n}]: {found}")?;
        } else {
            writeln!(self.tally.misses, "    {text}: {found}")?;
        }
        Ok(())
    }

    /// Runs a row, and returns what was found if it did not hold.
    fn missed(&mut self, row: Row<'_>) -> Result<Option<String>, Miss> {
        let text = spelled(self.alloc, self.names, row.n, row.text)?;
        let (call, wanted) = cut(text.as_str(), '|')?;
        let (answer, words) = wanted.split_once('|').unwrap_or((wanted, ""));
        let before = self.subject.shown(self.alloc)?;
        if let Some(found) = self.answered(call, answer.trim(), before.as_str())? {
            return Ok(Some(found));
        }
        let after = self.subject.shown(self.alloc)?;
        if shows(after.as_str(), before.as_str(), words) {
            return Ok(None);
        }
        Ok(Some(self.found("shows", after.as_str())?))
    }

    /// Makes a call, and once more where it may be refused memory and was. Returns what was found in place of the
    /// answer.
    fn answered(&mut self, call: &str, wanted: &str, before: &str) -> Result<Option<String>, Miss> {
        let marked = call.strip_prefix("+ ");
        let call = marked.unwrap_or(call).trim();
        let mut answer = self.call(call)?;
        if answer.starts_with("Err") {
            let after = self.subject.shown(self.alloc)?;
            if after.as_str() != before {
                return Ok(Some(self.found("the error left", after.as_str())?));
            }
        }
        if marked.is_some() && answer.as_str() == "Err(NoMemory)" {
            self.tally.refused = self.tally.refused.saturating_add(1);
            answer = self.call(call)?;
        }
        if answer.as_str() == wanted {
            return Ok(None);
        }
        Ok(Some(self.found("answered", answer.as_str())?))
    }

    fn call(&mut self, call: &str) -> Result<String, Miss> {
        match call.strip_prefix("heap ") {
            Some(words) => {
                let answer = self.mark.call(self.heap, words)?;
                Ok(String::from_str(self.alloc, answer)?)
            }
            None => self.subject.call(self.alloc, call),
        }
    }

    fn found(&self, what: &str, text: &str) -> Result<String, AllocError> {
        let alloc = self.alloc;
        format!(in alloc; "{what} {text}")
    }
}

/// Returns whether what is shown after a call has these words.
fn shows(after: &str, before: &str, words: &str) -> bool {
    words.split_whitespace().all(|word| match word {
        "same" => after == before,
        _ => after.split_whitespace().any(|it| it == word),
    })
}
