//! A hostile peer, served.
//!
//! - `settings MAX_FRAME CHANNEL_MAX HANDLE_MAX ALLOWED MAX_MESSAGE WINDOW` of the endpoint, and the credit of a link is what
//!   it is allowed.
//! - `opening BYTES`: what the peer sends at first. Bytes are words of hex text, and `00*40` is a byte this many times.
//! - `unit BYTES`: what it sends then, again and again. `numbered AT WIDTH`: with the next number in this many bytes from there
//!   on, from 0.
//! - `by N`: it sends at most this many bytes at a time. `reads N`: it takes this many bytes, and then none.
//! - `serve N`: serves it until it has sent the unit N times, and answers how the connection ended, or the fault that
//!   ended it. It shows how many bytes it
//!   sent, what it got, as `got=header,open,flow*3`, how many errors and the last one's condition, and the bytes of the records.
//! - `unread N`: feeds the opening, and then the unit N times to an endpoint whose answers nobody reads from then on. It
//!   answers how many units were acted upon, what was held at most, and how it goes on once some bytes are read.
//! - `replace`: serves the opening with each of its bytes replaced by 0, by 255 and by the next number, and answers how many of
//!   these streams end as they should.

use crate::hostile::bytes::bytes_in;
use crate::hostile::peer::{Number, Peer};
use crate::hostile::replaced::count_kept;
use crate::hostile::settings::{SMALL, Settings};
use crate::hostile::tally::Tally;
use crate::hostile::unread::unread;
use amqp_endpoint::{End, Endpoint};
use amqp_frame::{Device, Direct};
use amqp_perform::Outcome;
use amqp_serve::{Policy, ServeFault, serve};
use std::alloc::Global;
use test_row_files::words::{name_of, number, two_numbers};
use test_row_files::{Heap, Miss, Subject};

/// What the peer does, and the result of the last connection with it.
#[derive(Drop)]
pub struct Attack<'a> {
    heap: Heap<'a>,
    settings: Settings,
    opening: Vec<u8>,
    unit: Vec<u8>,
    number: Option<Number>,
    /// How many bytes it sends at a time, and how many it reads.
    most: usize,
    reads: u64,
    shown: String,
}

impl Subject for Attack<'_> {
    fn begin(&mut self) {
        self.settings = SMALL;
        self.opening.clear();
        self.unit.clear();
        self.number = None;
        self.most = usize::MAX;
        self.reads = u64::MAX;
        self.shown.clear();
    }

    fn call(&mut self, alloc: Global, words: &str) -> Result<String, Miss> {
        match name_of(words) {
            ("serve", times) => self.serve(alloc, number(times)?),
            ("unread", times) => {
                let times = number(times)?;
                let (opening, unit) = (self.opening.as_slice(), self.unit.as_slice());
                unread(alloc, self.heap, self.settings, opening, unit, times)
            }
            ("replace", "") => {
                let streams = self.opening.len().saturating_mul(3);
                let kept = count_kept(alloc, self.heap, self.settings, &self.opening)?;
                Ok(format!(in alloc; "{kept} of {streams}")?)
            }
            (name, words) => {
                self.set(alloc, name, words)?;
                Ok(String::from_str(alloc, "()")?)
            }
        }
    }

    fn shown(&self, alloc: Global) -> Result<String, Miss> {
        Ok(String::from_str(alloc, self.shown.as_str())?)
    }
}

impl<'a> Attack<'a> {
    pub fn new(alloc: Global, heap: Heap<'a>) -> Attack<'a> {
        Attack {
            heap,
            settings: SMALL,
            opening: Vec::new(alloc),
            unit: Vec::new(alloc),
            number: None,
            most: usize::MAX,
            reads: u64::MAX,
            shown: String::new(alloc),
        }
    }

    /// Says something of the peer.
    fn set(&mut self, alloc: Global, name: &str, words: &str) -> Result<(), Miss> {
        match name {
            "settings" => self.settings = Settings::of(words)?,
            "opening" => self.opening = bytes_in(alloc, words)?,
            "unit" => self.unit = bytes_in(alloc, words)?,
            "numbered" => {
                let (at, width) = two_numbers(words)?;
                self.number = Some(Number {
                    at: at as usize,
                    width: width as usize,
                    next: 0,
                });
            }
            "by" => self.most = number(words)? as usize,
            "reads" => self.reads = u64::from(number(words)?),
            _ => return Err(Miss::Unread("no such call")),
        }
        Ok(())
    }

    /// Serves the peer.
    fn serve(&mut self, alloc: Global, times: u32) -> Result<String, Miss> {
        let unit = Vec::from_slice(alloc, &self.unit)?;
        let mut peer = Peer::new(&self.opening, unit, self.number, times, self.most);
        let mut tally = Tally::new(alloc, self.reads)?;
        let (end, kept) = recorded(alloc, self.heap, self.settings, &mut peer, &mut tally)?;
        self.shown = shown(alloc, peer.given(), &tally, kept)?;
        told(alloc, end)
    }
}

/// Serves a peer. Returns how the connection ended, and how many bytes the records have.
// Each of these holds one thing: one function that may drop all of it at each exit takes minutes to prove.
fn recorded(
    alloc: Global,
    heap: Heap<'_>,
    settings: Settings,
    peer: &mut Peer<'_>,
    tally: &mut Tally,
) -> Result<(Result<End, ServeFault>, usize), Miss> {
    let mut records = Vec::new(alloc);
    let end = served(heap, settings, peer, tally, &mut records)?;
    Ok((end, records.len()))
}

fn shown(alloc: Global, given: u64, tally: &Tally, kept: usize) -> Result<String, Miss> {
    Ok(format!(in alloc; "sent={given} {tally} records={kept}")?)
}

fn told(alloc: Global, end: Result<End, ServeFault>) -> Result<String, Miss> {
    Ok(match end {
        Ok(end) => format!(in alloc; "{end:?}")?,
        Err(fault) => format!(in alloc; "fault {fault:?}")?,
    })
}

/// Serves a peer by a new endpoint.
fn served(
    heap: Heap<'_>,
    settings: Settings,
    peer: &mut Peer<'_>,
    tally: &mut Tally,
    records: &mut Vec<u8>,
) -> Result<Result<End, ServeFault>, Miss> {
    let mut endpoint = Endpoint::new(heap, settings.config(heap)?)?;
    let policy = Policy {
        credit: settings.allowed,
        outcome: Outcome::Accepted,
    };
    Ok(serve(
        &mut endpoint,
        &mut Device::new(Direct::new(peer)),
        &mut Device::new(Direct::new(tally)),
        &mut Device::new(records),
        policy,
    ))
}
