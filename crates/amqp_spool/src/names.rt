//! Whose a record is, for a reader of a segment.
ghost use Rattle.std.specs.Prelude.{◌≡◌, ℕ, List, [], option_map, Ok, Err, None, IfOk, IfSome, OnOk, OnErr};
ghost use Rattle.amqp_spool.specs.EntryReading.{introduced_in, recorded_in, HoldsEntries};
ghost use Rattle.amqp_spool.specs.Entries.{Entry as BatchEntry, IsBody};
ghost use Rattle.amqp_spool.specs.Names.{nobody, known};
ghost use Rattle.amqp_spool.specs.NamesRead.{names_of, sender_on, HasTaken, HasRead, Gives, Ends, IsBroken, IsIntroducing};

use crate::entry::{Entries, Entry, Introduction, Record, next_entry};
use std::alloc::{AllocError, Global};
use std::collections::BTreeMap;

/// Why the next record of a body can't be had.
#[derive(Clone, Copy, Debug, PartialEq, Eq)]
pub enum ReadFault {
    /// The bytes that are left begin with no entry.
    Damaged,
    /// Memory was refused.
    NoMemory,
}

impl From<AllocError> for ReadFault {
    ghost use Rattle.std.specs.Prelude.{◌≡◌};
    ghost use Rattle.amqp_spool.specs.declared.names.ReadFault.TheVariants.{NoMemory};

    ghost from_gives = { λ _ e. e ≡ NoMemory };

    fn from(_: AllocError) -> ReadFault {
        ReadFault::NoMemory
    }
}

/// Who sends on each link that was introduced so far in a segment.
#[derive(Drop)]
pub struct Names {
    alloc: Global,
    // by the number of the link
    senders: BTreeMap<u32, Sender>,
}

/// Who sends on a link: an introduction with its texts.
#[derive(Drop)]
struct Sender {
    connection: u64,
    peer: Vec<u8>,
    container: Vec<u8>,
    name: Vec<u8>,
    user: Vec<u8>,
    kind: u8,
    target: Vec<u8>,
}

impl Names {
    /// Returns those at the start of a segment: nobody. It takes no memory.
    pub fn new(alloc: Global) -> Names
        ensures { (link : ℕ) → names_of result link ≡ nobody link }
    {
        Names {
            alloc,
            senders: BTreeMap::new(alloc),
        }
    }

    /// Takes an introduction, in place of one that has the same link. If memory is refused, nothing has changed.
    pub fn take(&mut self, introduction: &Introduction) -> Result<(), AllocError>
        ensures ok { OnOk result ((link : ℕ) → names_of self.new link ≡ known (introduced_in introduction.now) (names_of self.old) link) }
        ensures err { OnErr result ((link : ℕ) → names_of self.new link ≡ names_of self.old link) }
    {
        let sender = Sender::new(self.alloc, introduction)?;
        self.senders.insert(introduction.link, sender)?;
        Ok(())
    }

    /// Returns who sends on a link, as it was introduced last. Returns `None` if it was not introduced.
    pub fn of(&self, link: u32) -> Option<Introduction<'_>>
        ensures { option_map introduced_in result ≡ names_of self.now link }
    {
        let sender = self.senders.get(&link)?;
        Some(sender.on(link))
    }

    /// Reads the next record of a body, and takes the introductions before it. Returns `None` at the end of the body.
    /// Returns `Damaged`, and then each time, if the bytes that are left are not empty and begin with no entry.
    /// Returns `NoMemory` if memory is refused for an introduction. After each error the introductions before that place
    /// are taken, and a later call goes on there.
    pub fn next<'a>(&mut self, entries: &mut Entries<'a>) -> Result<Option<Record<'a>>, ReadFault>
        ensures some { IfOk result (λ o. IfSome o (λ r. HasRead self.old self.new entries.old.rest.now entries.new.rest.now (recorded_in r))) }
        ensures none { result ≡ Ok None → HasTaken self.old self.new entries.old.rest.now [] }
        ensures ended { result ≡ Ok None → entries.new.rest.now ≡ [] }
        ensures gives { IfOk result (λ o. IfSome o (λ r. (es : List BatchEntry) → IsBody entries.old.rest.now es → Gives self.old self.new entries.new.rest.now es (recorded_in r))) }
        ensures ends { result ≡ Ok None → (es : List BatchEntry) → IsBody entries.old.rest.now es → Ends self.old self.new es }
        ensures damaged { result ≡ Err ReadFault.Damaged → HoldsEntries entries.old.rest.now → ⊥ }
        ensures broken { result ≡ Err ReadFault.Damaged → IsBroken entries.new.rest.now }
        ensures waits { result ≡ Err ReadFault.NoMemory → IsIntroducing entries.new.rest.now }
        ensures taken { OnErr result (HasTaken self.old self.new entries.old.rest.now entries.new.rest.now) }
    {
        'introductions: while let Some((entry, rest)) = next_entry(entries.rest) {
            match entry {
                Entry::Introduction(introduction) => self.take(&introduction)?,
                Entry::Record(record) => {
                    entries.rest = rest;
                    return Ok(Some(record));
                }
            }
            entries.rest = rest;
        }
        if entries.is_at_end() {
            Ok(None)
        } else {
            Err(ReadFault::Damaged)
        }
    }
}

impl Sender {
    /// Returns the sender of an introduction.
    fn new(alloc: Global, introduction: &Introduction) -> Result<Sender, AllocError>
        ensures { IfOk result (λ s. sender_on introduction.now.link s ≡ introduced_in introduction.now) }
    {
        Ok(Sender {
            connection: introduction.connection,
            peer: Vec::from_slice(alloc, introduction.peer)?,
            container: Vec::from_slice(alloc, introduction.container)?,
            name: Vec::from_slice(alloc, introduction.name)?,
            user: Vec::from_slice(alloc, introduction.user)?,
            kind: introduction.kind,
            target: Vec::from_slice(alloc, introduction.target)?,
        })
    }

    /// Returns the introduction of this sender on a link.
    fn on(&self, link: u32) -> Introduction<'_>
        ensures { introduced_in result ≡ sender_on link self.now }
    {
        Introduction {
            link,
            connection: self.connection,
            peer: &self.peer,
            container: &self.container,
            name: &self.name,
            user: &self.user,
            kind: self.kind,
            target: &self.target,
        }
    }
}
