//! Tests `amqp_proxy` by the rows of `data/`: what headers say, and why one is refused.
//!
//! `feed HEX` brings a piece to the layer, and answers how many bytes it takes and what it says. `said` answers what
//! the header said: where the connection comes from, and the name. `held` answers how many bytes are held.
//! `replay N HEX` brings these bytes to a layer of their own, in pieces of N bytes, and answers what it says, what the
//! header said, and the bytes that are handed on.
#![tactic(auto)]

use amqp_proxy::{Outcome, Proxy, Said, proxy_replay};
use std::alloc::Global;
use std::{env, fs};
use test_heap::TestHeap;
use test_row_files::words::{bytes_of, cut, hex_of, name_of, number};
use test_row_files::{Miss, RowFile, Subject};

/// A layer.
#[derive(Drop)]
struct Layer {
    proxy: Proxy,
}

impl Subject for Layer {
    fn begin(&mut self) {
        self.proxy = Proxy::new();
    }

    fn call(&mut self, alloc: Global, words: &str) -> Result<String, Miss> {
        let (name, rest) = name_of(words);
        match name {
            "feed" => self.feed(alloc, &bytes_of(alloc, rest)?),
            "said" => said(alloc, self.proxy.said()),
            "held" => Ok(format!(in alloc; "{}", self.proxy.held())?),
            "replay" => replay(alloc, rest),
            _ => Err(Miss::Unread("no such call")),
        }
    }

    fn shown(&self, alloc: Global) -> Result<String, Miss> {
        Ok(String::new(alloc))
    }
}

impl Layer {
    /// Brings a piece to it.
    fn feed(&mut self, alloc: Global, piece: &[u8]) -> Result<String, Miss> {
        let fed = self.proxy.feed(piece);
        let outcome = outcome(alloc, fed.outcome)?;
        Ok(format!(in alloc; "{} {outcome}", fed.used)?)
    }
}

/// Returns what a layer says.
fn outcome(alloc: Global, outcome: Outcome) -> Result<String, Miss> {
    match outcome {
        Outcome::More => Ok(String::from_str(alloc, "More")?),
        Outcome::Past => Ok(String::from_str(alloc, "Past")?),
        Outcome::Failed(fault) => Ok(format!(in alloc; "{fault}")?),
    }
}

/// Returns what a header said.
fn said(alloc: Global, said: Said<'_>) -> Result<String, Miss> {
    let source = match said.source {
        Some(source) => format!(in alloc; "{source}")?,
        None => String::from_str(alloc, "None")?,
    };
    match said.name {
        Some(name) => Ok(format!(in alloc; "{source} {name}")?),
        None => Ok(format!(in alloc; "{source} None")?),
    }
}

/// Brings bytes to a layer in pieces of one length.
fn replay(alloc: Global, words: &str) -> Result<String, Miss> {
    let (len, bytes) = cut(words, ' ')?;
    let len: u32 = number(len)?;
    let bytes = bytes_of(alloc, bytes)?;
    let mut pieces = Vec::new(alloc);
    let mut rest = bytes.as_slice();
    for _ in 0..bytes.len() {
        let (piece, others) = rest.split_at(rest.len().min(len as usize));
        pieces.push(piece)?;
        rest = others;
    }
    let replay = proxy_replay(alloc, &pieces)?;
    let outcome = outcome(alloc, replay.proxy.outcome())?;
    let said = said(alloc, replay.proxy.said())?;
    let handed = hex_of(alloc, &replay.handed)?;
    Ok(format!(in alloc; "{outcome} {said} handed={handed}")?)
}

fn main(rt: HostRuntime) -> Result<(), Miss> {
    let heap = TestHeap::new(rt.alloc(), 0);
    for name in env::args(&rt)?.skip(1) {
        let text = fs::read_to_string(&rt, name.as_str())?;
        let file = RowFile::read(rt.alloc(), text.as_str())?;
        let mut subject = Layer {
            proxy: Proxy::new(),
        };
        let report = file.run(rt.alloc(), &heap, &mut subject)?;
        rt.print(report.as_str())?;
    }
    Ok(())
}
