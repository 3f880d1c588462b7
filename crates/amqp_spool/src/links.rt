//! The links that are open.

ghost use Rattle.std.specs.Prelude.{◌≡◌, ℕ, ◌<◌, ◌^◌, ◌↔◌, [], None, IfOk, IfErr, OnErr, IsTrue};
ghost use Rattle.std.specs.Option.{option_copied};
ghost use Rattle.amqp_spool.specs.Entries.{IsIntroduced, introduction};
ghost use Rattle.amqp_spool.specs.EntryReading.{introduced_in};
ghost use Rattle.amqp_spool.specs.Waitings.{numbered, link_at, told_here, told_again, IsFrom, IsOpened, IsClosed, IsMarked, KeepsWaiting};
ghost use Rattle.amqp_spool.specs.PutFaults.{RefusesToOpen};

use crate::entry::{Introduction, KIND_MOST, PEER_MOST, TARGET_MOST, introduces, put_introduction};
use slab::Slab;
use std::alloc::{AllocError, AllocFailed, Global};
use std::marker::Model;

/// Why a link is not opened.
#[derive(Clone, Copy, Debug, PartialEq, Eq)]
pub enum OpenFault {
    /// A name is too long.
    TooLong,
    /// Memory was refused, or a link would need a number of more than 32 bits.
    NoMemory,
}

impl From<AllocError> for OpenFault {
    ghost use Rattle.amqp_spool.specs.declared.links.OpenFault.TheVariants.{NoMemory};

    ghost from_gives = { λ _ e. e ≡ NoMemory };

    fn from(_: AllocError) -> OpenFault {
        OpenFault::NoMemory
    }
}

/// An open link.
#[derive(Drop)]
pub struct Link {
    /// Its introduction, as an entry of a batch.
    text: Vec<u8>,
    /// The number of the first record of the batch in which it last had a record, or 0.
    last: u64,
}

impl Model for Link {
    ghost use Rattle.amqp_spool.specs.Waitings.{LinkState};

    ghost Value = { LinkState };

    ghost view = { λ a. record { text = a.text.items; last = a.last } };
}

impl Link {
    /// Returns its introduction, as an entry of a batch.
    pub fn text(&self) -> &[u8]
        ensures { result.now ≡ self.now.text }
    {
        &self.text
    }

    /// Returns what its next record needs before it in a segment that begins with the record of the number `first`: its
    /// introduction, if the segment doesn't know it, else nothing.
    pub fn told_here(&self, first: u64) -> &[u8]
        ensures { result.now ≡ told_here first self.now }
    {
        if self.last < first { &self.text } else { &[] }
    }

    /// Returns what its next record needs before it in a new segment besides that: its introduction, if the segment
    /// that begins with the record of the number `first` knows it, and it has no record yet in the batch that begins
    /// with that of the number `next`, else nothing.
    pub fn told_again(&self, first: u64, next: u64) -> &[u8]
        ensures { result.now ≡ told_again first next self.now }
    {
        if self.last < first || self.last == next {
            &[]
        } else {
            &self.text
        }
    }

    /// Notes that it has a record in the batch that begins with the record of the number `next`.
    fn mark(&mut self, next: u64)
        ensures { self.new ≡ record self.old { last = next } }
    {
        self.last = next;
    }
}

/// The links that are open, each with a number of its own.
#[derive(Drop)]
pub struct Links {
    links: Slab<Link>,
    alloc: Global,
}

impl Model for Links {
    ghost use Rattle.amqp_spool.specs.Waitings.{LinksState};

    ghost Value = { LinksState };

    ghost view = { λ a. a.links.slots };
}

impl Links {
    /// Makes links of which none is open yet. It takes no memory.
    pub fn new(alloc: Global) -> Links
        ensures { result ≡ [] }
    {
        Links {
            links: Slab::new(alloc),
            alloc,
        }
    }

    /// Opens a link, and returns its number, which no other open link has. Its introduction has this number, whatever
    /// number the given one has.
    ///
    /// # Errors
    ///
    /// `TooLong` if a name is too long for an introduction, `NoMemory` if memory is refused, or if the number would
    /// have more than 32 bits. Nothing has changed then.
    pub fn open(&mut self, from: &Introduction) -> Result<u32, OpenFault>
        ensures opened { IfOk result (λ number. IsOpened self.old self.new number (introduced_in from.now)) }
        ensures waits { IfOk result (λ number. KeepsWaiting self.old self.new) }
        ensures reason { IfErr result (λ fault. RefusesToOpen (introduced_in from.now) fault) }
        ensures same { OnErr result (self.new ≡ self.old) }
    {
        if !is_short(from) {
            return Err(OpenFault::TooLong);
        }
        let key = self.links.vacant_key();
        if key > u32::MAX as usize {
            return Err(OpenFault::NoMemory);
        }
        let number = key as u32;
        let text = introduction_of(self.alloc, number, from)?;
        if self.links.insert(Link { text, last: 0 }).is_err() {
            return Err(OpenFault::NoMemory);
        }
        Ok(number)
    }

    /// Forgets a link, and frees its number, which another may get then. If no link has the number, nothing happens.
    pub fn close(&mut self, link: u32)
        ensures closed { IsClosed self.old self.new link }
        ensures absent { link_at self.old link ≡ None → self.new ≡ self.old }
        ensures waits { KeepsWaiting self.old self.new }
    {
        self.links.try_remove(link as usize);
    }

    /// Returns the link of a number, if one is open.
    pub fn get(&self, link: u32) -> Option<&Link>
        ensures { option_copied result ≡ link_at self.now link }
    {
        self.links.get(link as usize)
    }

    /// Returns whether a link is open, and this says who sends on it, whatever number it has.
    pub fn is_from(&self, link: u32, from: &Introduction) -> bool
        ensures { IsTrue result ↔ IsFrom self.now link (numbered link (introduced_in from.now)) }
    {
        match self.get(link) {
            Some(open) => introduces(open.text(), link, from),
            None => false,
        }
    }

    /// Notes that a link has a record in the batch that begins with the record of the number `next`. If no link has
    /// the number, nothing happens.
    pub fn mark(&mut self, link: u32, next: u64)
        ensures { IsMarked self.old self.new link next }
    {
        if let Some(link) = self.links.get_mut(link as usize) {
            link.mark(next);
        }
    }
}

/// Returns whether the names of an introduction are short enough for an entry.
fn is_short(i: &Introduction) -> bool
    ensures short { IsTrue result → (number : ℕ) → number < 2 ^ 32 → IsIntroduced (numbered number (introduced_in i.now)) }
    ensures long { (number : ℕ) → IsIntroduced (numbered number (introduced_in i.now)) → IsTrue result }
{
    i.peer.len() <= PEER_MOST as usize
        && i.container.len() <= u8::MAX as usize
        && i.name.len() <= u8::MAX as usize
        && i.user.len() <= u8::MAX as usize
        && i.kind <= KIND_MOST
        && i.target.len() <= TARGET_MOST as usize
}

/// Returns the text of an introduction, with this number of the link.
fn introduction_of(alloc: Global, link: u32, from: &Introduction) -> Result<Vec<u8>, AllocError>
    requires { IsIntroduced (numbered link (introduced_in from.now)) }
    ensures { IfOk result (λ text. text.items ≡ introduction (numbered link (introduced_in from.now))) }
{
    let mut told = *from;
    told.link = link;
    let mut text = Vec::new(alloc);
    put_introduction(&mut text, &told)?;
    Ok(text)
}
