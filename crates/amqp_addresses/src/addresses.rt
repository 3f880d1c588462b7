//! The addresses that links may have.
ghost use Rattle.std.specs.Prelude.{◌≡◌, ◌≤◌, length, Some, MatchOption, IfOk, IfErr, option_map, if◌then◌else◌};
ghost use Rattle.std.specs.List.{list_any};
ghost use Rattle.amqp_addresses.specs.Reads.{Gives};
ghost use Rattle.amqp_addresses.specs.Files.{lines, is_same, AllSay, NoTwo, IsFault};
ghost use Rattle.amqp_addresses.specs.Lookups.{HasCredit, IsUnknown, line_of, nearer};
ghost use Rattle.amqp_addresses.specs.Takings.{taken, put};

use crate::entry::{Entry, read_line};
use crate::faults::{AddressesFault, LineFault, ReadFault};
use crate::lines::first_line;
use std::alloc::Global;
use std::marker::Model;

/// The most bytes of a file.
pub const MOST_TEXT: usize = 1_048_576;

/// The most lines with an address.
const MOST_LINES: usize = 1024;

/// Which addresses links may have, and how much credit. It holds the addresses of the file that it was read from, and nothing else.
#[derive(Drop)]
pub struct Addresses {
    entries: Vec<Entry>,
}

impl Model for Addresses {
    ghost use Rattle.std.specs.Prelude.{List};
    ghost use Rattle.amqp_addresses.specs.Lines.{Said};

    ghost Value = { List Said };

    ghost view = { λ a. a.entries.items };
}

impl Addresses {
    /// Reads the text of a file. A line without a credit of its own has `credit`.
    ///
    /// # Errors
    ///
    /// - `TooLarge` if it has more than [`MOST_TEXT`] bytes.
    /// - `Line` with the number of the first bad line, from 1 on, and what is wrong with it.
    /// - `NoMemory` if memory was refused.
    pub fn of(alloc: Global, text: &[u8], credit: u32) -> Result<Addresses, AddressesFault>
        ensures all { IfOk result (λ a. AllSay credit (lines text.now) a) }
        ensures once { IfOk result (λ a. NoTwo a) }
        ensures short { IfOk result (λ _. length text.now ≤ MOST_TEXT) }
        ensures fault { IfErr result (λ e. IsFault credit text.now e) }
    {
        if text.len() > MOST_TEXT {
            return Err(AddressesFault::TooLarge);
        }
        let mut addresses = Addresses {
            entries: Vec::new(alloc),
        };
        let mut number: usize = 0;
        let mut left = Some(text);
        while let Some(rest) = left {
            let (line, behind) = first_line(rest);
            number += 1;
            if let Err(fault) = addresses.take(alloc, line, credit) {
                return Err(fault.at(number));
            }
            left = behind;
        }
        Ok(addresses)
    }

    /// Takes one line more.
    fn take(&mut self, alloc: Global, line: &[u8], credit: u32) -> Result<(), ReadFault>
        ensures { Gives (λ _. self.new) result (taken credit self.old line.now) }
    {
        match read_line(alloc, line, credit)? {
            Some(entry) => self.put(entry),
            None => Ok(()),
        }
    }

    /// Puts one more behind those that there are.
    fn put(&mut self, entry: Entry) -> Result<(), ReadFault>
        ensures { Gives (λ _. self.new) result (put self.old entry) }
    {
        if self.entries.len() >= MOST_LINES {
            return Err(ReadFault::Bad(LineFault::TooMany));
        }
        if self.has(&entry) {
            return Err(ReadFault::Bad(LineFault::Twice));
        }
        self.entries.push(entry)?;
        Ok(())
    }

    /// Returns whether one of them says the same of addresses.
    fn has(&self, entry: &Entry) -> bool
        ensures { result ≡ list_any (λ s. is_same s entry.now) self.now }
    {
        for earlier in &self.entries {
            if earlier.is_same(entry) {
                return true;
            }
        }
        false
    }

    /// Returns the most credit of a link with this address: that of the line of this address alone if there is one, else of the longest
    /// prefix with which it begins. Returns `None` if no line admits it.
    pub fn most(&self, address: &[u8]) -> Option<u32>
        ensures { MatchOption result (IsUnknown address.now self.now) (λ n. HasCredit address.now self.now n) }
    {
        match self.nearest(address) {
            Some(entry) => Some(entry.credit()),
            None => None,
        }
    }

    /// Returns what the line of an address says.
    fn nearest(&self, address: &[u8]) -> Option<&Entry>
        ensures { option_map (λ e. e.now) result ≡ line_of address.now self.now }
    {
        let mut found: Option<&Entry> = None;
        for entry in &self.entries {
            if entry.admits(address) && is_nearer(found, entry) {
                found = Some(entry);
            }
        }
        found
    }
}

/// Returns whether one that admits an address is nearer to it than the one found so far, or none was found.
fn is_nearer(found: Option<&Entry>, entry: &Entry) -> bool
    ensures { nearer (option_map (λ e. e.now) found.entry) (Some entry.now) ≡ (if result then Some entry.now else option_map (λ e. e.now) found.entry) }
{
    match found {
        None => true,
        Some(other) => other.is_nearer(entry),
    }
}
