//! An endpoint in hand, on the heap of the run.
//!
//! - `config r 512 0 1 4 10 100`: a new one, set up with a copy of these: its name, which may be `255*r`, and the largest frame,
//!   the highest channel and handle, the deliveries of a link, the bytes of a message, and the places of a window.
//! - `feed PARTS`: bytes of the peer, in parts as `crate::parts` has them. Where memory is refused and the unit waits, it answers
//!   `Err(NoMemory)`, and the same call again feeds nothing and answers for both.
//! - `output 100`: what is moved out, in a vector of the heap; `nothing` where that is no byte. `length 100` is the same call, and
//!   answers how many bytes that is. `moved 100` is how many go into so much room in hand.
//! - `grant 0 0 1`, `widen 0 1`, `drain 0 0`, `take 0 0`, `settle 0 7 accepted`, `detach 0 0`, `close`, `heartbeat`, `held` and
//!   `finish` are the calls of these names, with their channel, handle or id, and number.
//! - `message`: the bytes of the last delivery that was taken, copied to the heap. `let_go` drops it.
//! - `watch 255 255`: shows this channel and handle from here on, in place of 0 and 0.
//! - `replay`: makes all calls since `config` anew by `replay`, with a feed of nothing behind each feed, and answers `the same`
//!   where each answers as before. It is `Err(NoMemory)` where a request was refused, be it that the whole was, or that a
//!   feed told so and the feed of nothing behind it gave the answer.
//!
//! It shows the bytes held, but for a unit that waits for memory, the window of the session, and the credit, open and ready
//! deliveries of the link.

use crate::calls::{call_of, place_of, told, told_bytes, told_fed, told_taken};
use crate::parts::{bytes_of_parts, parts_of};
use crate::settings::{config_of, endpoint_of};
use amqp_endpoint::{Answer, Call, Endpoint, Fed, Outcome, replay};
use amqp_link::Taken;
use std::alloc::Global;
use test_row_files::words::{name_of, number};
use test_row_files::{Heap, Miss, Subject};

/// An endpoint, and what was done with it.
#[derive(Drop)]
pub struct Receiving<'a> {
    heap: Heap<'a>,
    endpoint: Option<Endpoint<Heap<'a>>>,
    taken: Option<Taken<Heap<'a>>>,
    /// This many bytes of a unit that waits for memory were fed.
    waiting: usize,
    watched: (u16, u32),
    settings: String,
    made: Vec<Made>,
}

/// A call that was made.
#[derive(Drop)]
struct Made {
    words: String,
    answer: String,
}

impl Subject for Receiving<'_> {
    fn begin(&mut self) {
        self.endpoint = None;
        self.taken = None;
        self.waiting = 0;
        self.watched = (0, 0);
        self.made.clear();
    }

    fn call(&mut self, alloc: Global, words: &str) -> Result<String, Miss> {
        match name_of(words) {
            ("config", settings) => self.set_up(alloc, settings),
            ("feed", bytes) => self.feed(alloc, words, bytes),
            ("take", place) => self.take(alloc, words, place),
            ("replay", "") => self.replay(alloc),
            ("message", "") => self.copied(alloc),
            ("watch", place) => self.watch(alloc, place),
            ("length", room) => self.length(alloc, room),
            ("moved", room) => self.moved(alloc, room),
            ("let_go", "") => {
                self.taken = None;
                Ok(String::from_str(alloc, "()")?)
            }
            _ => self.make(alloc, words),
        }
    }

    fn shown(&self, alloc: Global) -> Result<String, Miss> {
        let Some(endpoint) = &self.endpoint else {
            return Ok(String::from_str(alloc, "none")?);
        };
        let (channel, handle) = self.watched;
        let held = endpoint.held().saturating_sub(self.waiting as u64);
        let window = endpoint.window(channel);
        let link = match endpoint.link(channel, handle) {
            Some(link) => format!(in alloc; "{},{},{}", link.credit, link.opened, link.ready)?,
            None => String::from_str(alloc, "none")?,
        };
        Ok(format!(in alloc; "held={held} window={window:?} link={link}")?)
    }
}

impl<'a> Receiving<'a> {
    pub fn new(alloc: Global, heap: Heap<'a>) -> Receiving<'a> {
        Receiving {
            heap,
            endpoint: None,
            taken: None,
            waiting: 0,
            watched: (0, 0),
            settings: String::new(alloc),
            made: Vec::new(alloc),
        }
    }

    fn endpoint(&mut self) -> Result<&mut Endpoint<Heap<'a>>, Miss> {
        self.endpoint.as_mut().ok_or(Miss::Unread("no endpoint"))
    }

    fn set_up(&mut self, alloc: Global, settings: &str) -> Result<String, Miss> {
        self.begin();
        self.settings = String::from_str(alloc, settings)?;
        match endpoint_of(alloc, self.heap, settings)? {
            Ok(endpoint) => self.endpoint = Some(endpoint),
            Err(_) => return refused(alloc),
        }
        Ok(String::from_str(alloc, "()")?)
    }

    fn watch(&mut self, alloc: Global, place: &str) -> Result<String, Miss> {
        self.watched = place_of(place)?;
        Ok(String::from_str(alloc, "()")?)
    }

    fn feed(&mut self, alloc: Global, words: &str, parts: &str) -> Result<String, Miss> {
        let waited = self.waiting;
        let parts = if waited > 0 { "" } else { parts };
        let piece = bytes_of_parts(alloc, parts)?;
        let fed = self.endpoint()?.feed(&piece);
        let used = waited.saturating_add(fed.used);
        if fed.outcome == Outcome::NoMemory {
            self.waiting = used;
            return refused(alloc);
        }
        self.waiting = 0;
        let outcome = fed.outcome;
        self.noted(alloc, words, told_fed(alloc, Fed { used, outcome })?)
    }

    fn take(&mut self, alloc: Global, words: &str, place: &str) -> Result<String, Miss> {
        let (channel, handle) = place_of(place)?;
        let answer = match self.endpoint()?.take(channel, handle) {
            Err(fault) => format!(in alloc; "Err({fault:?})")?,
            Ok(taken) => {
                let answer = told_taken(alloc, &taken)?;
                self.taken = Some(taken);
                answer
            }
        };
        self.noted(alloc, words, answer)
    }

    /// Makes another call.
    fn make(&mut self, alloc: Global, words: &str) -> Result<String, Miss> {
        let (call, heap) = (call_of(words, &[])?, self.heap);
        match self.endpoint()?.call(heap, &call) {
            Ok(answer) => self.noted(alloc, words, told(alloc, &answer)?),
            Err(_) => refused(alloc),
        }
    }

    fn length(&mut self, alloc: Global, room: &str) -> Result<String, Miss> {
        let (call, heap) = (Call::Output(number(room)?), self.heap);
        match self.endpoint()?.call(heap, &call) {
            Ok(Answer::MovedOut(bytes)) => self.moved_out(alloc, room, &bytes),
            _ => refused(alloc),
        }
    }

    /// Moves bytes out by the call that `output` stands for, but into room of its own.
    fn moved(&mut self, alloc: Global, room: &str) -> Result<String, Miss> {
        let mut bytes = Vec::from_elem(alloc, 0, number(room)? as usize)?;
        let count = self.endpoint()?.output(&mut bytes);
        self.moved_out(alloc, room, bytes.get(..count).unwrap_or(&[]))
    }

    /// Keeps an output and what it moved out, and returns how many bytes that was.
    fn moved_out(&mut self, alloc: Global, room: &str, bytes: &[u8]) -> Result<String, Miss> {
        let words = format!(in alloc; "output {room}")?;
        self.noted(alloc, words.as_str(), told_bytes(alloc, bytes)?)?;
        Ok(format!(in alloc; "{}", bytes.len())?)
    }

    /// Keeps a call and its answer, and returns that.
    fn noted(&mut self, alloc: Global, words: &str, answer: String) -> Result<String, Miss> {
        let told = String::from_str(alloc, answer.as_str())?;
        let words = String::from_str(alloc, words)?;
        self.made.push(Made { words, answer })?;
        Ok(told)
    }

    fn copied(&self, alloc: Global) -> Result<String, Miss> {
        let taken = self.taken.as_ref().ok_or("nothing is taken")?;
        match taken.message.to_vec(self.heap) {
            Ok(message) => parts_of(alloc, message.as_slice()),
            Err(_) => refused(alloc),
        }
    }

    fn replay(&self, alloc: Global) -> Result<String, Miss> {
        let pieces = self.pieces(alloc)?;
        let calls = self.calls(alloc, &pieces)?;
        let Ok(config) = config_of(alloc, self.heap, self.settings.as_str())? else {
            return refused(alloc);
        };
        let Ok((_, answers)) = replay(self.heap, config, &calls) else {
            return refused(alloc);
        };
        compared(alloc, &self.made, answers.as_slice())
    }

    /// Returns what each call feeds.
    fn pieces(&self, alloc: Global) -> Result<Vec<Vec<u8>>, Miss> {
        let mut pieces = Vec::new(alloc);
        for made in self.made.iter() {
            let parts = made.words.strip_prefix("feed").unwrap_or("");
            pieces.push(bytes_of_parts(alloc, parts)?)?;
        }
        Ok(pieces)
    }

    /// Returns the calls, with a feed of nothing after each feed.
    fn calls<'b>(&self, alloc: Global, pieces: &'b [Vec<u8>]) -> Result<Vec<Call<'b>>, Miss> {
        let mut calls = Vec::new(alloc);
        for (made, piece) in self.made.iter().zip(pieces.iter()) {
            let call = call_of(made.words.as_str(), piece)?;
            calls.push(call)?;
            if let Call::Feed(_) = call {
                calls.push(Call::Feed(&[]))?;
            }
        }
        Ok(calls)
    }
}

/// Returns whether calls answered as they did, if one of a feed that was told of refused memory is that of the
/// feed after it.
fn compared(alloc: Global, made: &[Made], answers: &[Answer<Heap<'_>>]) -> Result<String, Miss> {
    let mut answers = answers.iter();
    let mut is_refused = false;
    for call in made {
        let answer = answers.next().ok_or("too few answers")?;
        let found = match answer {
            Answer::Fed(fed) => {
                let again = answers.next().ok_or("too few answers")?;
                is_refused = is_refused || fed.outcome == Outcome::NoMemory;
                told_fed(alloc, joined(*fed, again))?
            }
            _ => told(alloc, answer)?,
        };
        if found.as_str() != call.answer.as_str() {
            return Ok(format!(in alloc; "{} answers {found}", call.words)?);
        }
    }
    if is_refused {
        return refused(alloc);
    }
    Ok(String::from_str(alloc, "the same")?)
}

/// Returns the result of a feed, by the one of nothing after it if it was refused memory.
fn joined(fed: Fed, again: &Answer<Heap<'_>>) -> Fed {
    match (fed.outcome, again) {
        (Outcome::NoMemory, Answer::Fed(again)) => Fed {
            used: fed.used.saturating_add(again.used),
            outcome: again.outcome,
        },
        _ => fed,
    }
}

/// Returns what a call answers that was refused memory.
fn refused(alloc: Global) -> Result<String, Miss> {
    Ok(String::from_str(alloc, "Err(NoMemory)")?)
}
