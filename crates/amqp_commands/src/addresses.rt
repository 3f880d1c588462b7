//! Which links a gateway admits: all, or those to the addresses of a file.

ghost use Rattle.std.specs.Prelude.{◌≤◌, string_len};

use amqp_addresses::{Addresses, AddressesFault, MOST_TEXT};
use amqp_endpoint::Endpoint;
use amqp_gateway::{Admission, Verdict};
use amqp_perform::{Address, address_of};
use amqp_reason::Reason;
use amqp_reason::conditions::NOT_FOUND;
use std::alloc::{AllocError, Global};
use std::fs;
use std::io::{ErrorKind, Read};
use std::rt::Files;
use thiserror::Error;

/// How many bytes of a file are read at once.
const PIECE: usize = 4096;

/// The most bytes of the description of a refusal.
const MOST_DESCRIPTION: usize = 255;

/// What stands before the address in it.
const UNKNOWN: &str = "unknown address: ";

/// What is said of a link whose target has no address.
const NO_ADDRESS: &str = "the target has no address";

/// Why a file of addresses can't be used.
#[derive(Debug, Drop, Error)]
pub enum FileFault {
    #[error("Open")]
    Open,
    #[error("Read")]
    Read,
    #[error(transparent)]
    Addresses(AddressesFault),
}

impl From<AllocError> for FileFault {
    fn from(_e: AllocError) -> FileFault {
        FileFault::Addresses(AddressesFault::NoMemory)
    }
}

/// Reads the addresses of a file, whose lines without a credit of their own have this one.
pub fn read_addresses<R: Files + AllocGlobal>(
    rt: &R,
    path: &str,
    credit: u32,
) -> Result<Addresses, FileFault> {
    let alloc = rt.alloc();
    let mut file = match fs::open(rt, path) {
        Ok(file) => file,
        Err(_) => return Err(FileFault::Open),
    };
    let text = read_text(alloc, &mut file)?;
    match Addresses::of(alloc, &text, credit) {
        Ok(addresses) => Ok(addresses),
        Err(fault) => Err(FileFault::Addresses(fault)),
    }
}

/// Reads a text to its end, or until it is longer than one of addresses may be.
fn read_text<R: Read>(alloc: Global, reader: &mut R) -> Result<Vec<u8>, FileFault> {
    let mut text = Vec::new(alloc);
    let mut piece = [0; PIECE];
    for _ in 0..u64::MAX {
        let count = match reader.read(&mut piece) {
            Ok(count) => count,
            Err(error) if error.kind() == ErrorKind::Interrupted => continue,
            Err(_) => return Err(FileFault::Read),
        };
        text.extend_from_slice(piece.get(..count).unwrap_or(&[]))?;
        if count == 0 || text.len() > MOST_TEXT {
            break;
        }
    }
    Ok(text)
}

/// Admits each link, or those to known addresses alone.
#[derive(Drop)]
pub struct Entrance {
    known: Option<Addresses>,
    /// The description of the last refusal.
    text: String,
}

impl Entrance {
    /// Admits links to these addresses, or each one if there are none.
    pub fn new(alloc: Global, known: Option<Addresses>) -> Result<Entrance, AllocError> {
        let text = match known {
            Some(_) => String::with_capacity(alloc, MOST_DESCRIPTION)?,
            None => String::new(alloc),
        };
        Ok(Entrance { known, text })
    }

    /// Returns the most credit of a link with this address, if it is known.
    fn most(&self, address: &str) -> Option<u32> {
        match &self.known {
            Some(known) => known.most(address.as_bytes()),
            None => None,
        }
    }
}

impl Admission for Entrance {
    fn asks(&self) -> bool {
        self.known.is_some()
    }

    fn verdict(&mut self, endpoint: &Endpoint, channel: u16, handle: u32) -> Verdict<'_> {
        let Some(address) = name_of(endpoint, channel, handle) else {
            return Verdict::Refuse(Reason::described(NOT_FOUND, NO_ADDRESS));
        };
        if let Some(most) = self.most(address) {
            return Verdict::Admit { most };
        }
        describe(&mut self.text, address);
        Verdict::Refuse(Reason::described(NOT_FOUND, self.text.as_str()))
    }
}

/// Returns the address of the target of a link, if it has one.
fn name_of(endpoint: &Endpoint, channel: u16, handle: u32) -> Option<&str> {
    match endpoint.link(channel, handle) {
        Some(link) => name_in(link.target),
        None => None,
    }
}

/// Returns the address of a target, if it has one.
fn name_in(target: &[u8]) -> Option<&str> {
    match address_of(target) {
        Address::Name(name) => Some(name),
        _ => None,
    }
}

/// Makes a text the description of an address that is not known, cut at a character.
fn describe(text: &mut String, address: &str)
    ensures { string_len text.new ≤ MOST_DESCRIPTION }
{
    let room = MOST_DESCRIPTION - UNKNOWN.len();
    let (front, _) = address.split_at(address.floor_char_boundary(room));
    text.clear();
    let _ = text.push_str(UNKNOWN); // there is room for both
    let _ = text.push_str(front);
}
