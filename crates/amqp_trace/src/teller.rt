//! What is shown of a connection.

ghost use Rattle.std.specs.Prelude.{◌≤◌};

use crate::answers::{self, Answers};
use crate::frames::{put_cut, put_fault, put_unit};
use crate::line::Line;
use crate::links::Links;
use crate::outlets::{Outlets, Way};
use crate::sentences::{Sentence, put_event};
use crate::unit::Unit;
use crate::words::{Cause, Ending, HowItEnded, refusal};
use crate::{Host, TraceFault};
use amqp_dump::Page;
use amqp_endpoint::{End, Event, Outcome, Scope};
use amqp_frame::FrameFault;
use amqp_perform::Outcome as Settlement;
use amqp_serve::{Done, ServeFault, Stepped};
use std::alloc::{AllocError, Global};
use std::fmt::{Display, Write as _};
use std::io::Write;

/// How many bytes of text are made of a unit. What is left out lies beyond the longest line.
const TEXT: usize = 8192;

/// Shows one connection after another.
#[derive(Drop)]
pub struct Teller<W: Write + Drop, H: Host + Drop> {
    alloc: Global,
    outlets: Outlets<W, H>,
    /// What came and was shown with no step yet.
    came: Unit,
    went: Unit,
    /// What was written in this step.
    answers: Answers,
    sentence: Sentence,
    /// Whether it was shown how the connection ended.
    is_ended: bool,
}

impl<W: Write + Drop, H: Host + Drop> Teller<W, H> {
    pub fn new(
        alloc: Global,
        outlets: Outlets<W, H>,
        outcome: Settlement,
    ) -> Result<Self, AllocError> {
        Ok(Teller {
            alloc,
            outlets,
            came: Unit::new(alloc)?,
            went: Unit::new(alloc)?,
            answers: Answers::new(alloc)?,
            sentence: Sentence {
                text: Line::new(alloc)?,
                page: Page::fixed(alloc, TEXT)?,
                links: Links::new(alloc)?,
                outcome,
            },
            is_ended: false,
        })
    }

    /// Begins the next connection, which has this number.
    pub fn begin(&mut self, number: u64) {
        self.came.restart();
        self.went.restart();
        self.answers.clear();
        self.sentence.links.clear();
        self.is_ended = false;
        self.outlets.begin(number);
    }

    /// Shows that the connection was accepted. Its age counts from now.
    pub fn met<P: Display + Drop>(&mut self, peer: P) {
        self.outlets.begin_now();
        self.sentence.text.clear();
        let _ = write!(self.sentence.text, "connection from {peer}");
        self.outlets.put_event("begin", &self.sentence.text);
    }

    /// Takes bytes that came, of one unit.
    pub fn came(&mut self, bytes: &[u8]) {
        if self.outlets.are_shut() {
            return;
        }
        if self.came.take(bytes).is_err() {
            self.outlets.shut_all(TraceFault::NoMemory);
        }
    }

    /// Takes bytes that were written.
    pub fn went(&mut self, bytes: &[u8]) {
        if !self.outlets.are_shut() && self.keep_answers(bytes).is_err() {
            self.outlets.shut_all(TraceFault::NoMemory);
        }
    }

    /// Shows bytes that were written in no step, and flushes.
    pub fn said(&mut self, bytes: &[u8]) {
        if !self.outlets.are_shut() && self.tell_said(bytes).is_err() {
            self.outlets.shut_all(TraceFault::NoMemory);
        }
        self.outlets.flush();
    }

    /// Shows a step that was made.
    pub fn did(&mut self, stepped: &Stepped) {
        if !self.outlets.are_shut() && self.tell(stepped).is_err() {
            self.outlets.shut_all(TraceFault::NoMemory);
        }
    }

    /// Flushes, since the peer is waited for.
    pub fn waits(&mut self) {
        self.outlets.flush();
    }

    /// Shows how the connection was served, and flushes.
    pub fn end(&mut self, served: Result<End, ServeFault>) {
        self.end_as(Ending(served), HowItEnded(served), served.is_err());
    }

    /// Shows that the host gave the connection up, and flushes.
    pub fn give_up(&mut self, cause: Cause) {
        self.end_as(cause, cause.sentence(), true);
    }

    /// Shows how the connection ended: its word, and its sentence. If the end was shown before, the sentence is
    /// shown again only if it is `asked` for.
    fn end_as<E: Display + Drop, S: Display + Drop>(&mut self, ending: E, how: S, asked: bool) {
        if !self.outlets.are_shut() && self.tell_end(ending, how, asked).is_err() {
            self.outlets.shut_all(TraceFault::NoMemory);
        }
        self.outlets.flush();
    }

    /// Returns how many bytes of peers it holds.
    pub fn held(&self) -> usize
        ensures { result ≤ 43008 }
    {
        self.came.kept_len()
            + self.went.kept_len()
            + self.answers.len()
            + self.sentence.links.held()
    }

    /// Keeps answers until their step is shown. If there is no room for all, those before are shown first.
    fn keep_answers(&mut self, bytes: &[u8]) -> Result<(), AllocError> {
        if !self.outlets.show_frames() {
            return Ok(());
        }
        for piece in bytes.chunks(answers::MOST) {
            if !self.answers.has_room(piece.len()) {
                self.tell_answers()?;
            }
            self.answers.put(piece)?;
        }
        Ok(())
    }

    /// Shows the frames of these bytes.
    fn tell_said(&mut self, bytes: &[u8]) -> Result<(), AllocError> {
        self.keep_answers(bytes)?;
        self.tell_answers()
    }

    /// Shows what came, what it resulted in, and what answered it.
    fn tell(&mut self, stepped: &Stepped) -> Result<(), AllocError> {
        if stepped.told == Outcome::NoMemory {
            return Ok(());
        }
        let is_whole = self.came.is_whole();
        if is_whole {
            self.tell_unit()?;
        } else if is_broken(stepped.told) {
            self.tell_fault();
        }
        self.tell_told(stepped.told, stepped.done.unwrap_or(Done::NOTHING))?;
        self.tell_answers()?;
        if is_whole {
            self.came.go_on();
        }
        Ok(())
    }

    /// Shows the unit that came.
    fn tell_unit(&mut self) -> Result<(), AllocError> {
        if !self.outlets.show_frames() {
            return Ok(());
        }
        let alloc = self.alloc;
        let page = &mut self.sentence.page;
        page.clear();
        put_unit(alloc, page, &self.came)?;
        self.outlets.put_frame(Way::In, page.begun());
        Ok(())
    }

    /// Shows that what came is no frame.
    fn tell_fault(&mut self) {
        let page = &mut self.sentence.page;
        page.clear();
        let fault = self.came.fault().unwrap_or(FrameFault::TooLarge);
        put_fault(page, &self.came, fault);
        self.outlets.put_frame(Way::In, page.begun());
    }

    /// Shows what the bytes resulted in, and what was refused.
    fn tell_told(&mut self, told: Outcome, done: Done) -> Result<(), AllocError> {
        let Done { receipt, topped } = done;
        self.sentence.text.clear();
        match told {
            Outcome::Event(event) => {
                if !self.is_ended {
                    put_event(&mut self.sentence, &self.came, event, receipt)?;
                }
                self.is_ended |= is_last(event);
                self.outlets.put_event(event, &self.sentence.text);
            }
            Outcome::Dead if !self.is_ended => self.tell_refusal(),
            _ => {}
        }
        let refused = topped.refused;
        if refused > 0 {
            self.sentence.text.clear();
            let _ = write!(
                self.sentence.text,
                "{refused} windows and links could not be given what they lack"
            );
            self.outlets.put_word("refused", &self.sentence.text);
        }
        Ok(())
    }

    /// Shows that the peer's header was refused.
    fn tell_refusal(&mut self) {
        let why = refusal(self.came.kept());
        let _ = write!(self.sentence.text, "the connection was refused: {why}");
        self.is_ended = true;
        self.outlets.put_event("refused", &self.sentence.text);
    }

    /// Shows the frames that were written.
    fn tell_answers(&mut self) -> Result<(), AllocError> {
        let alloc = self.alloc;
        put_frames(
            alloc,
            self.answers.as_slice(),
            &mut self.went,
            &mut self.sentence.page,
            &mut self.outlets,
        )?;
        self.answers.clear();
        Ok(())
    }

    /// Shows what no step showed, and how the connection ended.
    fn tell_end<E: Display + Drop, S: Display + Drop>(
        &mut self,
        ending: E,
        how: S,
        asked: bool,
    ) -> Result<(), AllocError> {
        if self.came.is_whole() && !self.is_ended {
            self.tell_unit()?;
        } else if !self.came.is_empty() && !self.is_ended {
            self.tell_cut();
        }
        self.tell_answers()?;
        self.sentence.text.clear();
        if !self.is_ended || asked {
            let _ = write!(self.sentence.text, "{how}");
        }
        self.outlets.put_event(ending, &self.sentence.text);
        Ok(())
    }

    /// Shows that the stream ended inside a unit.
    fn tell_cut(&mut self) {
        let page = &mut self.sentence.page;
        page.clear();
        put_cut(page, &self.came);
        self.outlets.put_frame(Way::In, page.begun());
    }
}

/// Shows the frames that end in these bytes, which were written.
fn put_frames<W: Write + Drop, H: Host + Drop>(
    alloc: Global,
    bytes: &[u8],
    unit: &mut Unit,
    page: &mut Page,
    outlets: &mut Outlets<W, H>,
) -> Result<(), AllocError> {
    let mut at = 0;
    'units: while at < bytes.len() {
        let count = unit.take(&bytes[at..])?;
        if count == 0 {
            break;
        }
        at += count;
        if unit.is_whole() {
            page.clear();
            put_unit(alloc, page, unit)?;
            outlets.put_frame(Way::Out, page.begun());
            unit.go_on();
        }
    }
    Ok(())
}

/// Returns whether this side ended the connection.
fn is_broken(told: Outcome) -> bool {
    matches!(
        told,
        Outcome::Event(Event::Failed {
            scope: Scope::Connection,
            ..
        },)
    )
}

/// Returns whether the event says how the connection ended.
fn is_last(event: Event) -> bool {
    matches!(event, Event::Closed { .. }) || is_broken(Outcome::Event(event))
}
