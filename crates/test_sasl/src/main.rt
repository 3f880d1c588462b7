//! Tests `amqp_sasl` by the rows of `data/`: what the layer takes, asks, writes and hands on.
//!
//! `offer WORDS` makes the layer of a new connection, by the words `anonymous`, `plain`, `external` and `optional`. `feed HEX` brings
//! bytes to it, and answers how many it took and what it says. `asked` answers what the host is asked, `admit` and `deny` are the host's
//! answer. `output N` moves out at most N bytes, `handed` are the bytes that it took for the endpoint, `held` is how many bytes it holds,
//! and `kept` how many of its memory are not zero. `replay admit HEX` and `replay deny HEX` bring all bytes to a new layer of the same
//! offer, in pieces of 1 byte, of 2 and so on up to all of them, and answer what came of each, which is the same.
#![tactic(auto)]

use amqp_sasl::{Login, Offer, Outcome, Replay, Sasl, sasl_replay};
use std::alloc::Global;
use std::{env, fs};
use test_heap::TestHeap;
use test_row_files::words::{bytes_of, hex_of, name_of, number};
use test_row_files::{Miss, RowFile, Subject};

/// A layer, and what it offers.
#[derive(Drop)]
struct Layer {
    offer: Offer,
    sasl: Sasl,
}

impl Layer {
    /// Makes the layer of a new connection.
    fn new(offer: Offer) -> Self {
        Layer {
            offer,
            sasl: Sasl::new(offer),
        }
    }
}

impl Subject for Layer {
    fn begin(&mut self) {
        *self = Layer::new(anonymous());
    }

    fn call(&mut self, alloc: Global, words: &str) -> Result<String, Miss> {
        let (name, rest) = name_of(words);
        match name {
            "offer" => *self = Layer::new(offer_of(rest)?),
            "feed" => {
                let fed = self.sasl.feed(&bytes_of(alloc, rest)?);
                return Ok(format!(in alloc; "{} {}", fed.used, word_of(fed.outcome))?);
            }
            "asked" => return self.asked(alloc),
            "admit" => self.answer(true)?,
            "deny" => self.answer(false)?,
            "output" => return self.output(alloc, number(rest)?),
            "handed" => return hex_of(alloc, self.sasl.handed()),
            "held" => return Ok(format!(in alloc; "{}", self.sasl.held())?),
            "kept" => {
                let kept = self.sasl.memory().iter().filter(|byte| **byte != 0).count();
                return Ok(format!(in alloc; "{kept}")?);
            }
            "replay" => return self.replay(alloc, rest),
            _ => return Err(Miss::Unread("no such call")),
        }
        Ok(String::from_str(alloc, "()")?)
    }

    fn shown(&self, alloc: Global) -> Result<String, Miss> {
        Ok(String::new(alloc))
    }
}

impl Layer {
    /// Answers what the host is asked.
    fn asked(&self, alloc: Global) -> Result<String, Miss> {
        let Some(init) = self.sasl.asked() else {
            return Ok(String::from_str(alloc, "nothing")?);
        };
        let host = init.hostname.unwrap_or("none");
        match init.login {
            Login::Anonymous { trace } => {
                let trace = hex_of(alloc, trace)?;
                Ok(format!(in alloc; "anonymous '{trace}' at {host}")?)
            }
            Login::Plain {
                authzid,
                user,
                password,
            } => {
                let authzid = hex_of(alloc, authzid)?;
                let user = hex_of(alloc, user)?;
                let password = hex_of(alloc, password)?;
                Ok(format!(in alloc; "plain '{authzid}' '{user}' '{password}' at {host}")?)
            }
            Login::External { authzid } => {
                let authzid = hex_of(alloc, authzid)?;
                Ok(format!(in alloc; "external '{authzid}' at {host}")?)
            }
        }
    }

    /// Answers for the host.
    fn answer(&mut self, admitted: bool) -> Result<(), Miss> {
        match self.sasl.outcome() {
            Outcome::Ask => {
                self.sasl.admit(admitted);
                Ok(())
            }
            Outcome::More | Outcome::Past | Outcome::Failed => Err(Miss::Unread(
                "nothing is asked",
            )),
        }
    }

    /// Moves out at most so many bytes.
    fn output(&mut self, alloc: Global, most: u32) -> Result<String, Miss> {
        let mut out = Vec::new(alloc);
        out.resize(most as usize, 0)?;
        let len = self.sasl.output(&mut out);
        out.truncate(len);
        hex_of(alloc, &out)
    }

    /// Brings all bytes to a new layer, in pieces of each length.
    fn replay(&self, alloc: Global, words: &str) -> Result<String, Miss> {
        let (answer, hex) = name_of(words);
        let admitted = match answer {
            "admit" => true,
            "deny" => false,
            _ => return Err(Miss::Unread("no answer of a host")),
        };
        let bytes = bytes_of(alloc, hex)?;
        let whole = self.replay_in(alloc, admitted, &bytes, bytes.len().max(1))?;
        for len in 1..bytes.len() {
            if self.replay_in(alloc, admitted, &bytes, len)? != whole {
                return Ok(format!(in alloc; "another in pieces of {len}")?);
            }
        }
        Ok(whole)
    }

    /// Brings the bytes to a new layer, in pieces of this length.
    fn replay_in(
        &self,
        alloc: Global,
        admitted: bool,
        bytes: &[u8],
        len: usize,
    ) -> Result<String, Miss> {
        let mut pieces = Vec::new(alloc);
        let mut rest = bytes;
        for _ in 0..bytes.len() {
            let (piece, others) = rest.split_at(len.min(rest.len()));
            pieces.push(piece)?;
            rest = others;
        }
        told(alloc, &sasl_replay(alloc, self.offer, admitted, &pieces)?)
    }
}

/// An offer of ANONYMOUS alone.
fn anonymous() -> Offer {
    Offer {
        anonymous: true,
        plain: false,
        external: false,
        optional: false,
    }
}

/// Returns the offer that these words name.
fn offer_of(words: &str) -> Result<Offer, Miss> {
    let anonymous = names(words, "anonymous");
    let plain = names(words, "plain");
    let external = names(words, "external");
    if !anonymous && !plain && !external {
        return Err(Miss::Unread("nothing is offered"));
    }
    Ok(Offer {
        anonymous,
        plain,
        external,
        optional: names(words, "optional"),
    })
}

/// Whether a word stands among these.
fn names(words: &str, word: &str) -> bool {
    words.split_whitespace().any(|w| w == word)
}

/// The word of what a layer says.
fn word_of(outcome: Outcome) -> &'static str {
    match outcome {
        Outcome::More => "More",
        Outcome::Ask => "Ask",
        Outcome::Past => "Past",
        Outcome::Failed => "Failed",
    }
}

/// Answers what came of an exchange.
fn told(alloc: Global, replay: &Replay) -> Result<String, Miss> {
    let word = word_of(replay.outcome);
    let written = hex_of(alloc, &replay.written)?;
    let handed = hex_of(alloc, &replay.handed)?;
    Ok(format!(in alloc; "{word} '{written}' '{handed}'")?)
}

fn main(rt: HostRuntime) -> Result<(), Miss> {
    let heap = TestHeap::new(rt.alloc(), 0);
    for name in env::args(&rt)?.skip(1) {
        let text = fs::read_to_string(&rt, name.as_str())?;
        let file = RowFile::read(rt.alloc(), text.as_str())?;
        let mut subject = Layer::new(anonymous());
        let report = file.run(rt.alloc(), &heap, &mut subject)?;
        rt.print(report.as_str())?;
    }
    Ok(())
}
