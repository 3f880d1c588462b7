//! Turns as rows.
//!
//! `open`, `hear KEY HEX`, `hand KEY ROOM`, `heartbeat KEY`, `finish KEY`, `close KEY`, `remove KEY`, `rule KEY CREDIT`, `settle MOST`, `fail`, `held` and
//! `count` are turns of a hub of three connections at most, whose ledger has room for three records. Shown is what was recorded of the
//! last one. `refuse_link KEY CHANNEL HANDLE CONDITION` and `top_up KEY CHANNEL HANDLE MOST` ask the hub for a link. `origins` lists the connection's number, the channel, the handle and the tag of each record in the ledger.

use amqp_endpoint::{Config, End};
use amqp_hub::{Hub, HubFault, Ledger, Origin, Progress, Turn, TurnAnswer};
use amqp_perform::Outcome;
use amqp_reason::Reason;
use amqp_serve::Rule;
use std::alloc::Global;
use test_row_files::words::{bytes_of, hex_of, name_of, number};
use test_row_files::{Heap, Miss, Subject};

/// The rule of all connections: one place of credit for each link at a time.
pub const RULE: Rule = Rule {
    credit: 1,
    mark: 0,
    outcome: Outcome::Accepted,
};

/// How many connections there may be.
pub const LIMIT: usize = 3;

/// How many records the ledger has room for.
pub const ROOM: usize = 3;

/// Returns the settings of each: frames of 512 bytes, channel 0, the handles 0 and 1, four deliveries of 100 bytes
/// for a link, and a window of 100 places.
pub fn settings(heap: Heap<'_>) -> Result<Config<Heap<'_>>, Miss> {
    let name = String::from_str(heap, "r")?;
    Ok(Config::checked(name, 512, 0, 1, 4, 100, 100).ok_or("no settings")?)
}

/// A hub, and what was recorded by its last turn.
#[derive(Drop)]
pub struct Rows<'a> {
    heap: Heap<'a>,
    hub: Hub<Ledger<Heap<'a>>, Heap<'a>>,
    opened: u64,
    recorded: Option<Vec<u8>>,
}

impl<'a> Rows<'a> {
    pub fn new(heap: Heap<'a>) -> Rows<'a> {
        Rows {
            heap,
            hub: Hub::new(heap, LIMIT, Ledger::new(heap, ROOM)),
            opened: 0,
            recorded: None,
        }
    }

    /// Makes a turn, and returns it as it stands in a row.
    fn make(&mut self, alloc: Global, turn: &Turn<'_>) -> Result<String, Miss> {
        let answer = made(&mut self.hub, self.heap, self.opened, turn)?;
        if let TurnAnswer::Opened(_) = answer {
            self.opened = self.opened.saturating_add(1);
        }
        let text = text_of(alloc, &answer)?;
        if let TurnAnswer::Heard { noted, .. } = &answer {
            let mut recorded = Vec::new(alloc);
            recorded.extend_from_slice(noted)?;
            self.recorded = Some(recorded);
        }
        Ok(text)
    }

    /// Returns where the records of the ledger came from.
    fn origins(&self, alloc: Global) -> Result<String, Miss> {
        let mut text = String::new(alloc);
        for record in self.hub.keeper().records() {
            let Origin {
                number,
                channel,
                handle,
                delivery_tag,
            } = record.origin;
            let tag = hex_of(alloc, delivery_tag.as_bytes())?;
            let comma = if text.is_empty() { "" } else { ", " };
            text.push_str(&format!(in alloc; "{comma}{number} {channel} {handle} {tag}")?)?;
        }
        Ok(text)
    }
}

/// The channel, the handle and the last word of a row that asks for a link.
fn link_of(words: &str) -> Result<(u16, u32, &str), Miss> {
    let (channel, rest) = name_of(words);
    let (handle, last) = name_of(rest);
    let channel = u16::try_from(number(channel)?).ok().ok_or("no channel")?;
    Ok((channel, number(handle)?, last))
}

/// Makes a turn of a hub.
fn made<'a>(
    hub: &mut Hub<Ledger<Heap<'a>>, Heap<'a>>,
    heap: Heap<'a>,
    number: u64,
    turn: &Turn<'_>,
) -> Result<TurnAnswer<Heap<'a>>, Miss> {
    let config = settings(heap)?;
    Ok(hub.make(&config, RULE, number, turn)?)
}

impl Subject for Rows<'_> {
    fn begin(&mut self) {
        *self = Rows::new(self.heap);
    }

    fn call(&mut self, alloc: Global, words: &str) -> Result<String, Miss> {
        let (name, rest) = name_of(words);
        let (key, rest) = name_of(rest);
        let key = match key {
            "" => 0,
            word => number(word)? as usize,
        };
        match name {
            "open" => self.make(alloc, &Turn::Open),
            "hear" => {
                let piece = bytes_of(alloc, rest)?;
                self.make(alloc, &Turn::Hear { key, piece: &piece })
            }
            "hand" => {
                let room = number(rest)? as usize;
                self.make(alloc, &Turn::Hand { key, room })
            }
            "heartbeat" => self.make(alloc, &Turn::Heartbeat { key }),
            "finish" => self.make(alloc, &Turn::Finish { key }),
            "close" => self.make(alloc, &Turn::Close { key }),
            "remove" => self.make(alloc, &Turn::Remove { key }),
            "rule" => {
                let rule = Rule {
                    credit: number(rest)?,
                    ..RULE
                };
                self.make(alloc, &Turn::Rule { key, rule })
            }
            "refuse_link" => {
                let (channel, handle, condition) = link_of(rest)?;
                let refused = self
                    .hub
                    .refuse(key, channel, handle, &Reason::new(condition));
                Ok(format!(in alloc; "{refused:?}")?)
            }
            "top_up" => {
                let (channel, handle, most) = link_of(rest)?;
                let granted = self.hub.top_up_link(key, channel, handle, number(most)?);
                Ok(format!(in alloc; "{granted:?}")?)
            }
            "settle" => self.make(alloc, &Turn::Settle { most: Some(key) }),
            "fail" => self.make(alloc, &Turn::Settle { most: None }),
            "held" => self.make(alloc, &Turn::Held),
            "count" => self.make(alloc, &Turn::Count),
            "origins" => self.origins(alloc),
            _ => Err(Miss::Unread("no such turn")),
        }
    }

    fn shown(&self, alloc: Global) -> Result<String, Miss> {
        let recorded = match &self.recorded {
            Some(recorded) => hex_of(alloc, recorded)?,
            None => String::new(alloc),
        };
        Ok(format!(in alloc; "recorded={recorded}")?)
    }
}

/// An answer as it stands in a row.
pub fn text_of(alloc: Global, answer: &TurnAnswer<Heap<'_>>) -> Result<String, Miss> {
    match answer {
        TurnAnswer::Opened(key) => number_text(alloc, *key),
        TurnAnswer::Heard { stepped, .. } => number_text(alloc, stepped.used),
        TurnAnswer::Handed(bytes) => bytes_text(alloc, bytes),
        TurnAnswer::Beat(frame) => bytes_text(alloc, frame),
        TurnAnswer::Ended(end) => end_text(alloc, *end),
        TurnAnswer::Closed | TurnAnswer::Removed | TurnAnswer::Changed => Ok(String::from_str(
            alloc, "Ok(())",
        )?),
        TurnAnswer::Settled(progress) => progress_text(alloc, *progress),
        TurnAnswer::Holds(held) => count_text(alloc, *held),
        TurnAnswer::Counts(count) => count_text(alloc, *count as u64),
        TurnAnswer::Refused(fault) => fault_text(alloc, *fault),
    }
}

fn number_text(alloc: Global, number: usize) -> Result<String, Miss> {
    Ok(format!(in alloc; "Ok({number})")?)
}

fn bytes_text(alloc: Global, bytes: &[u8]) -> Result<String, Miss> {
    let bytes = hex_of(alloc, bytes)?;
    Ok(format!(in alloc; "Ok({bytes})")?)
}

fn end_text(alloc: Global, end: End) -> Result<String, Miss> {
    Ok(format!(in alloc; "Ok({end:?})")?)
}

fn progress_text(alloc: Global, progress: Progress) -> Result<String, Miss> {
    Ok(format!(in alloc; "{progress:?}")?)
}

fn count_text(alloc: Global, count: u64) -> Result<String, Miss> {
    Ok(format!(in alloc; "{count}")?)
}

fn fault_text(alloc: Global, fault: HubFault) -> Result<String, Miss> {
    Ok(format!(in alloc; "Err({fault:?})")?)
}
