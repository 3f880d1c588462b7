//! A session on the bench: it is fed the bytes of frames, and what it says is written as frames.
//!
//! `begin 100 4` is a new session: the places of its window, and how many deliveries of ten bytes a link allows.
//! It has the handles 0 and 1. A third number is the peer's largest frame, a fourth how many bytes of a delivery a
//! link allows in place of ten. `said` is what the last call or frame gave to say; `sizes` takes a delivery too,
//! and returns how long its pieces are.

use crate::messages::sizes;
use amqp_link::LinkBounds;
use amqp_perform::{Attach, Detach, Flow, Outcome, Performative, read_body, write_frame};
use amqp_session::{
    Answer, CallFault, Report, Session, SessionFault, SessionTerms, refusal_reply,
    write_attach_reply,
};
use std::alloc::Global;
use std::mem;
use test_row_files::words::{bytes_of, cut, hex_of, name_of, number, two_numbers};
use test_row_files::{Heap, Miss, Subject};

/// A session, and the frames that it said last.
#[derive(Drop)]
pub struct SessionRows<'a> {
    heap: Heap<'a>,
    session: Session<Heap<'a>>,
    /// What its links may keep.
    bounds: LinkBounds,
    /// What a session has that was never begun.
    idle: SessionTerms,
    out: [u8; 256],
    written: usize,
}

fn terms(incoming_window: u32, max_frame_size: u32) -> SessionTerms {
    SessionTerms {
        incoming_window,
        next_outgoing_id: 0,
        handle_max: 1,
        max_frame_size,
    }
}

fn no_places() -> SessionTerms {
    terms(0, u32::MAX)
}

impl<'a> SessionRows<'a> {
    /// One whose session has no places.
    pub fn new(heap: Heap<'a>) -> Result<SessionRows<'a>, Miss> {
        Ok(SessionRows {
            heap,
            session: Session::begin(heap, no_places()),
            bounds: LinkBounds::new(1, 10).ok_or("refused bounds")?,
            idle: no_places(),
            out: [0; 256],
            written: 0,
        })
    }

    fn begin_with(&mut self, words: &str) -> Result<(), Miss> {
        let (window, words) = cut(words, ' ')?;
        let (allowed, words) = name_of(words);
        let (largest, most) = name_of(words);
        let (largest, most) = (number_or(largest, u32::MAX)?, number_or(most, 10)?);
        self.bounds = LinkBounds::new(number(allowed)?, most).ok_or("refused bounds")?;
        self.session = Session::begin(self.heap, terms(number(window)?, largest));
        self.written = 0;
        Ok(())
    }

    /// Feeds a frame without extended header.
    fn feed(&mut self, frame: &[u8]) -> Result<Result<Report, SessionFault>, Miss> {
        let body = frame.get(8..).ok_or("no frame")?;
        let (performative, len) = read_body(body).map_err(|_| Miss::Unread("no body"))?;
        let payload = body.get(len..).ok_or("no payload")?;
        if let Performative::Attach(p) = &performative {
            if p.handle > u32::from(self.session.terms().handle_max) {
                return Err(Miss::Unread("the handle is too large"));
            }
        }
        self.written = 0;
        let done = match self.session.frame(&performative, payload, self.bounds) {
            Ok(done) => done,
            Err(fault) => return Ok(Err(fault)),
        };
        self.say_answer(done.answer, &performative);
        Ok(Ok(done.report))
    }

    fn say_answer(&mut self, answer: Answer, performative: &Performative<'_>) {
        match (answer, performative) {
            (Answer::Flow(flow), _) => self.say(&Performative::Flow(flow)),
            (Answer::Detach(detach), _) => self.say(&Performative::Detach(detach)),
            (Answer::Attach, Performative::Attach(p)) => self.accept(p),
            (Answer::Refusal(detach), Performative::Attach(p)) => self.refuse(p, detach),
            _ => {}
        }
    }

    fn accept(&mut self, attach: &Attach<'_>) {
        if let Some(room) = self.out.get_mut(self.written..) {
            if let Some(len) = write_attach_reply(0, attach, self.bounds, room) {
                self.written = self.written.saturating_add(len);
            }
        }
    }

    fn refuse(&mut self, attach: &Attach<'_>, detach: Detach<'static>) {
        self.say(&Performative::Attach(refusal_reply(attach)));
        self.say(&Performative::Detach(detach));
    }

    fn say(&mut self, performative: &Performative<'_>) {
        if let Some(room) = self.out.get_mut(self.written..) {
            if let Some(len) = write_frame(0, performative, &[], room) {
                self.written = self.written.saturating_add(len);
            }
        }
    }

    fn say_flow(&mut self, flow: Result<Flow<'static>, CallFault>) -> Result<(), CallFault> {
        self.written = 0;
        self.say(&Performative::Flow(flow?));
        Ok(())
    }

    fn grant(&mut self, handle: u32, n: u32) -> Result<(), CallFault> {
        let flow = self.session.grant(handle, n);
        self.say_flow(flow)
    }

    /// Hands a delivery up, and returns its id and its length.
    fn take(&mut self, handle: u32) -> Result<(u32, usize), CallFault> {
        let taken = self.session.take(handle)?;
        Ok((taken.delivery_id, taken.message.len()))
    }

    /// Hands a delivery up, and returns the lengths of its pieces.
    fn take_sizes(&mut self, alloc: Global, handle: u32) -> Result<String, Miss> {
        match self.session.take(handle) {
            Err(fault) => Ok(format!(in alloc; "Err({fault:?})")?),
            Ok(taken) => sizes(alloc, &taken.message),
        }
    }

    fn settle(&mut self, id: u32, outcome: Outcome) -> Result<(), CallFault> {
        self.written = 0;
        let disposition = self.session.settle(id, outcome)?;
        self.say(&Performative::Disposition(disposition));
        Ok(())
    }

    /// Settles the deliveries with these ids, and returns how many they are.
    fn settle_range(&mut self, first: u32, last: u32, outcome: Outcome) -> Result<u32, CallFault> {
        self.written = 0;
        let (disposition, named) = self.session.settle_range(first, last, outcome)?;
        self.say(&Performative::Disposition(disposition));
        Ok(named)
    }

    /// Settles the deliveries that the words name, and says whether the test of it answered the same.
    fn settle_words(&mut self, alloc: Global, words: &str) -> Result<String, Miss> {
        let (first, words) = cut(words, ' ')?;
        let (last, outcome) = cut(words, ' ')?;
        let (first, last, outcome) = (number(first)?, number(last)?, outcome_of(outcome)?);
        let fault = self.session.settle_range_fault(first, last);
        let settled = self.settle_range(first, last, outcome);
        if settled.err() != fault {
            return Err(Miss::Unread("the test of a range says another thing"));
        }
        Ok(format!(in alloc; "{settled:?}")?)
    }

    fn detach(&mut self, handle: u32) -> Result<u32, CallFault> {
        self.written = 0;
        let (detach, dropped) = self.session.detach(handle)?;
        self.say(&Performative::Detach(detach));
        Ok(dropped)
    }

    /// Makes a call of the application.
    fn application_call(&mut self, alloc: Global, name: &str, words: &str) -> Result<String, Miss> {
        match name {
            "widen" => {
                let flow = self.session.widen(number(words)?);
                Ok(format!(in alloc; "{:?}", self.say_flow(flow))?)
            }
            "drain" => {
                let flow = self.session.drain(number(words)?);
                Ok(format!(in alloc; "{:?}", self.say_flow(flow))?)
            }
            "grant" => {
                let (handle, n) = two_numbers(words)?;
                Ok(format!(in alloc; "{:?}", self.grant(handle, n))?)
            }
            "settle" => {
                let (id, outcome) = cut(words, ' ')?;
                let outcome = outcome_of(outcome)?;
                Ok(format!(in alloc; "{:?}", self.settle(number(id)?, outcome))?)
            }
            "settle_range" => self.settle_words(alloc, words),
            "sizes" => self.take_sizes(alloc, number(words)?),
            "take" => Ok(format!(in alloc; "{:?}", self.take(number(words)?))?),
            "detach" => Ok(format!(in alloc; "{:?}", self.detach(number(words)?))?),
            _ => Err(Miss::Unread("no such call")),
        }
    }
}

impl Subject for SessionRows<'_> {
    fn begin(&mut self) {
        self.session = Session::begin(self.heap, self.idle);
        self.written = 0;
    }

    fn call(&mut self, alloc: Global, words: &str) -> Result<String, Miss> {
        let (name, words) = name_of(words);
        match name {
            "begin" => {
                self.begin_with(words)?;
                Ok(String::from_str(alloc, "()")?)
            }
            "feed" => {
                let frame = bytes_of(alloc, words)?;
                let answer = self.feed(frame.as_slice())?;
                Ok(format!(in alloc; "{answer:?}")?)
            }
            "said" => hex_of(alloc, self.out.get(..self.written).unwrap_or(&[])),
            "drop_all" => {
                let dropped = mem::replace(&mut self.session, Session::begin(self.heap, self.idle));
                Ok(format!(in alloc; "{}", dropped.drop_all())?)
            }
            _ => self.application_call(alloc, name, words),
        }
    }

    /// Returns its window, its next-incoming-id, what it holds, and the credit, open and ready deliveries of the
    /// link at the handle 0.
    fn shown(&self, alloc: Global) -> Result<String, Miss> {
        let (window, next) = (self.session.window(), self.session.next_incoming_id());
        let held = self.session.held();
        let link = match self.session.link(0) {
            Some(link) => format!(in alloc; "{},{},{}", link.credit, link.opened, link.ready)?,
            None => String::from_str(alloc, "none")?,
        };
        Ok(format!(in alloc; "held={held} window={window} next={next} link={link}")?)
    }
}

/// Returns the number, or this one where the word is away.
fn number_or(word: &str, absent: u32) -> Result<u32, Miss> {
    if word.is_empty() {
        return Ok(absent);
    }
    number(word)
}

fn outcome_of(word: &str) -> Result<Outcome, Miss> {
    match word {
        "accepted" => Ok(Outcome::Accepted),
        "released" => Ok(Outcome::Released),
        _ => Err(Miss::Unread("no outcome")),
    }
}
