//! The names of links, and what this side ended.

ghost use Rattle.std.specs.Prelude.{◌≤◌};

use std::alloc::{AllocError, Global};
use std::marker::Model;

/// How many links and sessions are known at most.
const PLACES: usize = 72;

/// The longest name that is kept, in bytes.
const NAME: usize = 255;

/// A session by its channel, or one of its links by its handle.
#[derive(Clone, Copy, Debug, PartialEq, Eq)]
pub struct Place {
    pub channel: u16,
    pub handle: Option<u32>,
}

/// What is known of a place.
#[derive(Drop)]
struct Known {
    place: Place,
    /// Whether this side ended what was there and its peer has not answered.
    is_ended: bool,
    /// The name of the link, filled up with zeros.
    name: [u8; NAME],
    len: usize,
}

/// The names of the links that are attached, and the places whose ends the peer has to answer: at most [`PLACES`]
/// together.
#[derive(Drop)]
pub struct Links {
    known: Vec<Known>,
}

impl Model for Links {
    ghost use Rattle.std.specs.Prelude.{ℕ, ◌≤◌, length};

    ghost Value = { ℕ };

    ghost view = { λ links. length links.known.items };

    ghost invariant = { λ links. length links.known.items ≤ 72 };
}

impl Links {
    /// Makes an empty list. It takes memory for all places, and none after that.
    pub fn new(alloc: Global) -> Result<Links, AllocError> {
        Ok(Links {
            known: Vec::with_capacity(alloc, PLACES)?,
        })
    }

    /// Forgets all.
    pub fn clear(&mut self) {
        self.known.clear();
    }

    /// Returns how many bytes of peers are held.
    pub fn held(&self) -> usize
        ensures { result ≤ 18432 }
    {
        self.known.len() * (NAME + 1)
    }

    /// Keeps the name of a link that attached. A longer name is cut.
    pub fn attach(&mut self, place: Place, name: &[u8]) -> Result<(), AllocError> {
        let len = name.len().min(NAME);
        let mut kept = [0; NAME];
        kept[..len].copy_from_slice(&name[..len]);
        self.know(Known {
            place,
            is_ended: false,
            name: kept,
            len,
        })
    }

    /// Keeps that this side ended what is at a place, so that its peer has to answer.
    pub fn end(&mut self, place: Place) -> Result<(), AllocError> {
        self.know(Known {
            place,
            is_ended: true,
            name: [0; NAME],
            len: 0,
        })
    }

    fn know(&mut self, known: Known) -> Result<(), AllocError> {
        self.forget(known.place);
        if self.known.len() < PLACES {
            self.known.push(known)?;
        }
        Ok(())
    }

    /// Forgets what is at a place, and the links of a session.
    pub fn forget(&mut self, place: Place) {
        self.known.retain(|known| !is_within(known.place, place));
    }

    /// Returns the name of the link at a place, if it is known.
    pub fn name(&self, place: Place) -> Option<&[u8]> {
        let known = self.find(place)?;
        if known.is_ended {
            return None;
        }
        known.name.get(..known.len)
    }

    /// Returns whether this side ended what is at a place and its peer has not answered.
    pub fn is_ended(&self, place: Place) -> bool {
        match self.find(place) {
            Some(known) => known.is_ended,
            None => false,
        }
    }

    fn find(&self, place: Place) -> Option<&Known> {
        self.known.iter().find(|known| known.place == place)
    }
}

/// Returns whether `place` is `other`, or a link of the session `other`.
fn is_within(place: Place, other: Place) -> bool {
    place == other || other.handle.is_none() && place.channel == other.channel
}
