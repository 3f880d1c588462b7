//! The connections whose records come, and the links of the spool that stand for their links.

use amqp_hub::Origin;
use std::alloc::{AllocError, Global};
use std::collections::BTreeMap;

/// How many bytes of an address are kept.
const FROM_MOST: usize = 58;

/// The address that a connection comes from.
#[derive(Clone, Copy)]
pub struct From {
    bytes: [u8; FROM_MOST],
    len: usize,
}

impl From {
    /// The address of a connection of which none was told.
    const NONE: From = From {
        bytes: [0; FROM_MOST],
        len: 0,
    };

    /// Returns what is kept of a text: its first bytes.
    fn of(text: &str) -> From {
        let mut from = From::NONE;
        for (place, byte) in from.bytes.iter_mut().zip(text.as_bytes()) {
            *place = *byte;
        }
        from.len = text.len().min(FROM_MOST);
        from
    }

    pub fn as_bytes(&self) -> &[u8] {
        self.bytes.get(..self.len).unwrap_or(&[])
    }
}

/// A link whose records came.
#[derive(Clone, Copy)]
struct Seen {
    channel: u16,
    handle: u32,
    /// The number of the link in the spool.
    link: u32,
}

impl Seen {
    fn is_of(&self, origin: &Origin) -> bool {
        self.channel == origin.channel && self.handle == origin.handle
    }
}

/// A connection.
#[derive(Drop)]
struct Person {
    from: From,
    links: Vec<Seen>,
    has_left: bool,
}

impl Person {
    /// Returns the link of the spool that stood last for the link of an origin.
    fn link(&self, origin: &Origin) -> Option<u32> {
        let seen = self.links.iter().find(|seen| seen.is_of(origin))?;
        Some(seen.link)
    }
}

/// The connections, by their numbers.
#[derive(Drop)]
pub struct People {
    alloc: Global,
    persons: BTreeMap<u64, Person>,
    /// How many have left whose links are open.
    left: usize,
}

impl People {
    pub fn new(alloc: Global) -> People {
        People {
            alloc,
            persons: BTreeMap::new(alloc),
            left: 0,
        }
    }

    /// Notes where a connection comes from.
    pub fn meet(&mut self, number: u64, from: &str) -> Result<(), AllocError> {
        let person = Person {
            from: From::of(from),
            links: Vec::new(self.alloc),
            has_left: false,
        };
        self.persons.insert(number, person)?;
        Ok(())
    }

    /// Notes that a connection has left.
    pub fn leave(&mut self, number: u64) {
        if let Some(person) = self.persons.get_mut(&number) {
            if !person.has_left {
                person.has_left = true;
                self.left = self.left.saturating_add(1);
            }
        }
    }

    /// Returns where the connection of an origin comes from, and the link of the spool that stood last for the link of
    /// the origin.
    pub fn of(&self, origin: &Origin) -> (From, Option<u32>) {
        match self.persons.get(&origin.number) {
            Some(person) => (person.from, person.link(origin)),
            None => (From::NONE, None),
        }
    }
}

impl People {
    /// Notes which link of the spool stands for the link of an origin from now on.
    pub fn note(&mut self, origin: &Origin, link: u32) -> Result<(), AllocError> {
        if !self.persons.contains_key(&origin.number) {
            self.meet(origin.number, "")?;
        }
        let Some(person) = self.persons.get_mut(&origin.number) else {
            return Err(AllocError);
        };
        if let Some(seen) = person.links.iter_mut().find(|seen| seen.is_of(origin)) {
            seen.link = link;
            return Ok(());
        }
        person.links.push(Seen {
            channel: origin.channel,
            handle: origin.handle,
            link,
        })?;
        Ok(())
    }

    /// Notes that the link of an origin stands for what it stood for before, if it stood for any.
    pub fn put_back(&mut self, origin: &Origin, before: Option<u32>) {
        let Some(person) = self.persons.get_mut(&origin.number) else {
            return;
        };
        match before {
            Some(link) => {
                if let Some(seen) = person.links.iter_mut().find(|seen| seen.is_of(origin)) {
                    seen.link = link;
                }
            }
            None => person.links.retain(|seen| !seen.is_of(origin)),
        }
    }

    /// Takes a link of a connection that has left, and forgets such a connection once it has none. Returns `None` if
    /// none has left.
    pub fn take_left(&mut self) -> Option<u32> {
        if self.left == 0 {
            return None;
        }
        for _ in 0..self.left {
            let Some(number) = self.first_left() else {
                break;
            };
            let link = match self.persons.get_mut(&number) {
                Some(person) => person.links.pop(),
                None => None,
            };
            if let Some(seen) = link {
                return Some(seen.link);
            }
            self.persons.remove(&number);
            self.left = self.left.saturating_sub(1);
        }
        None
    }

    /// Returns the number of the first connection that has left.
    fn first_left(&self) -> Option<u64> {
        let (number, _) = self.persons.iter().find(|(_, person)| person.has_left)?;
        Some(*number)
    }
}
