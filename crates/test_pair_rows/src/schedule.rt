//! Schedules of a sender and an endpoint, joined by two pipes, as lines of text.
//!
//! A line has the places of the window, and words. `o:700` offers a message of this many bytes, `e:8` and `s:8`
//! move this many bytes to the endpoint and to the sender, `g:1` grants, `w:1` widens, `d:0` drains, and `t:0`
//! takes. `a:7` settles the delivery with this id as accepted, and so do `j:7` as rejected, `l:7` as released, and
//! `m:7` as modified. Before them may stand other settings: `frame:4096` is the largest frame of the endpoint, 512
//! if it is left out, `allowed:1` the deliveries of its link, four without it, and `longest:600` the longest
//! message, 2000 without it.

use amqp_endpoint::Config;
use amqp_pair::{Joined, Turn, joined};
use amqp_perform::Outcome;
use amqp_send::SendConfig;
use std::alloc::Global;
use std::fmt::{self, Display, Formatter};
use test_row_files::Miss;
use test_row_files::words::{cut, number};

/// What the endpoint is set up with.
#[derive(Clone, Copy)]
pub struct Settings {
    pub window: u32,
    pub max_frame: u32,
    pub allowed: u32,
    pub max_message: u32,
}

impl Settings {
    /// Sets what a word names, and returns whether it names a setting.
    fn set(&mut self, kind: &str, n: u32) -> bool {
        match kind {
            "frame" => self.max_frame = n,
            "allowed" => self.allowed = n,
            "longest" => self.max_message = n,
            _ => return false,
        }
        true
    }
}

/// Turns, and what the endpoint is set up with.
#[derive(Drop)]
pub struct Schedule<'a> {
    pub settings: Settings,
    pub turns: Vec<Turn<'a>>,
}

impl<'a> Schedule<'a> {
    /// Makes a schedule without turns.
    pub fn new(alloc: Global, settings: Settings) -> Schedule<'a> {
        Schedule {
            settings,
            turns: Vec::new(alloc),
        }
    }

    /// Returns the schedule of a line. Messages are cut of these bytes.
    pub fn read(alloc: Global, bytes: &'a [u8], line: &str) -> Result<Schedule<'a>, Miss> {
        let (window, words) = cut(line, ' ')?;
        let settings = Settings {
            window: number(window)?,
            max_frame: 512,
            allowed: 4,
            max_message: 2000,
        };
        let mut schedule = Schedule::new(alloc, settings);
        for word in words.split_whitespace() {
            schedule.word(bytes, word)?;
        }
        Ok(schedule)
    }

    fn word(&mut self, bytes: &'a [u8], word: &str) -> Result<(), Miss> {
        let (kind, n) = cut(word, ':')?;
        let n = number(n)?;
        if self.settings.set(kind, n) {
            return Ok(());
        }
        let turn = self.turn(bytes, kind, n)?;
        self.push(turn)
    }

    /// Returns the turn that a word gives.
    fn turn(&self, bytes: &'a [u8], kind: &str, n: u32) -> Result<Turn<'a>, Miss> {
        if kind != "o" {
            return turn_of(kind, n);
        }
        match self.message(bytes, n) {
            Some(message) => Ok(Turn::Offer(message)),
            None => Err(Miss::Unread("too long a message")),
        }
    }

    fn push(&mut self, turn: Turn<'a>) -> Result<(), Miss> {
        self.turns.push(turn)?;
        Ok(())
    }

    /// Returns the bytes that a message of such a length has, if it is offered next: they are not those of the one
    /// before it.
    pub fn message(&self, bytes: &'a [u8], len: u32) -> Option<&'a [u8]> {
        let place = self.turns.len() % 251;
        bytes.get(place..place.saturating_add(len as usize))
    }

    /// Makes the turns.
    pub fn joined(&self, alloc: Global) -> Result<Joined, Miss> {
        let config = Config::checked(
            String::from_str(alloc, "r")?,
            self.settings.max_frame,
            0,
            1,
            self.settings.allowed,
            self.settings.max_message,
            self.settings.window,
        );
        let sender = SendConfig {
            container_id: String::from_str(alloc, "s")?,
            name: String::from_str(alloc, "l")?,
        };
        let config = config.ok_or("refused settings")?;
        Ok(joined(alloc, config, sender, &self.turns)?)
    }
}

/// Returns a turn that is no offer.
fn turn_of<'a>(kind: &str, n: u32) -> Result<Turn<'a>, Miss> {
    let outcome = match kind {
        "e" => return Ok(Turn::ToEndpoint(n as usize)),
        "s" => return Ok(Turn::ToSender(n as usize)),
        "g" => return Ok(Turn::Grant(n)),
        "w" => return Ok(Turn::Widen(n)),
        "d" => return Ok(Turn::Drain),
        "t" => return Ok(Turn::Take),
        "a" => Outcome::Accepted,
        "j" => Outcome::Rejected,
        "l" => Outcome::Released,
        "m" => MODIFIED,
        _ => return Err(Miss::Unread("no such turn")),
    };
    Ok(Turn::Settle { id: n, outcome })
}

/// As what a message is settled that may be sent again.
pub const MODIFIED: Outcome = Outcome::Modified {
    failed: true,
    undeliverable: false,
};

impl<'a> Display for Schedule<'a> {
    fn fmt<W: fmt::Write>(&self, f: &mut Formatter<W>) -> fmt::Result {
        let Settings {
            window,
            max_frame,
            allowed,
            max_message,
        } = self.settings;
        write!(
            f,
            "{window} frame:{max_frame} allowed:{allowed} longest:{max_message}"
        )?;
        for turn in self.turns.iter() {
            let (letter, n) = word_of(*turn);
            write!(f, " {letter}:{n}")?;
        }
        Ok(())
    }
}

/// Returns the letter and the number of a turn's word.
fn word_of(turn: Turn<'_>) -> (char, u64) {
    match turn {
        Turn::Offer(message) => ('o', message.len() as u64),
        Turn::ToEndpoint(n) => ('e', n as u64),
        Turn::ToSender(n) => ('s', n as u64),
        Turn::Grant(n) => ('g', u64::from(n)),
        Turn::Widen(n) => ('w', u64::from(n)),
        Turn::Drain => ('d', 0),
        Turn::Take => ('t', 0),
        Turn::Settle { id, outcome } => (letter_of(outcome), u64::from(id)),
    }
}

fn letter_of(outcome: Outcome) -> char {
    match outcome {
        Outcome::Accepted => 'a',
        Outcome::Rejected => 'j',
        Outcome::Released => 'l',
        Outcome::Modified { .. } => 'm',
    }
}
