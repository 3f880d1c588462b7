//! What one line says.
ghost use Rattle.std.specs.Prelude.{◌≡◌, option_map};
ghost use Rattle.amqp_addresses.specs.Reads.{Gives};
ghost use Rattle.amqp_addresses.specs.Lines.{said_by, line_says};
ghost use Rattle.amqp_addresses.specs.Files.{is_same};
ghost use Rattle.amqp_addresses.specs.Lookups.{admits, is_nearer};

use crate::faults::{LineFault, ReadFault};
use crate::lines::{credit_behind, first_word, is_prefix, is_remark};
use crate::spelling::address_in;
use std::alloc::Global;
use std::marker::Model;

/// The most bytes of a line.
const MOST_LINE: usize = 4096;

/// Which addresses a line admits, and the most credit of their links.
#[derive(Drop)]
pub struct Entry {
    address: Vec<u8>,
    is_prefix: bool,
    credit: u32,
}

impl Model for Entry {
    ghost use Rattle.amqp_addresses.specs.Lines.{Said};

    ghost Value = { Said };

    ghost view = { λ a. record { address = a.address.items; is_prefix = a.is_prefix; credit = a.credit } };
}

/// Returns what a line says, if it says something. Without a credit of its own it has this one.
pub fn read_line(alloc: Global, line: &[u8], otherwise: u32) -> Result<Option<Entry>, ReadFault>
    ensures { Gives (λ o. o) result (line_says otherwise line.now) }
{
    if line.len() > MOST_LINE {
        return Err(ReadFault::Bad(LineFault::TooLong));
    }
    if is_remark(line) {
        return Ok(None);
    }
    let (word, behind) = first_word(line);
    let entry = Entry::read(alloc, word, behind, otherwise)?;
    Ok(Some(entry))
}

impl Entry {
    /// Returns what a word and the bytes behind it say.
    fn read(alloc: Global, word: &[u8], behind: &[u8], otherwise: u32) -> Result<Entry, ReadFault>
        ensures { Gives (λ e. e) result (said_by otherwise word.now behind.now) }
    {
        if word.is_empty() {
            return Err(ReadFault::Bad(LineFault::NoAddress));
        }
        let credit = credit_behind(behind, otherwise)?;
        let is_prefix = is_prefix(word);
        let spelling = if is_prefix {
            &word[..word.len() - 1]
        } else {
            word
        };
        let address = address_in(alloc, spelling)?;
        Ok(Entry {
            address,
            is_prefix,
            credit,
        })
    }

    /// Returns the most credit of a link.
    pub fn credit(&self) -> u32
        ensures { result ≡ self.now.credit }
    {
        self.credit
    }

    /// Returns whether it says the same of addresses as another.
    pub fn is_same(&self, other: &Entry) -> bool
        ensures { result ≡ is_same self.now other.now }
    {
        self.is_prefix == other.is_prefix && self.address.as_slice() == other.address.as_slice()
    }

    /// Returns whether it admits an address.
    pub fn admits(&self, address: &[u8]) -> bool
        ensures { result ≡ admits address.now self.now }
    {
        if self.is_prefix {
            address.starts_with(&self.address)
        } else {
            self.address.as_slice() == address
        }
    }

    /// Returns whether another that admits an address is nearer to it.
    pub fn is_nearer(&self, other: &Entry) -> bool
        ensures { result ≡ is_nearer self.now other.now }
    {
        self.is_prefix && (!other.is_prefix || self.address.len() < other.address.len())
    }
}
