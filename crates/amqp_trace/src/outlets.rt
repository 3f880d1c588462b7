//! The outlets of a trace, with what its lines begin with.

use crate::line::Line;
use crate::outlet::Outlet;
use crate::{Host, TraceFault, View};
use std::alloc::{AllocError, Global};
use std::fmt::{Display, Write as _};
use std::io::{BufWriter, Write};

/// How many bytes of lines are written at once.
const BUFFER: usize = 8192;

/// Which way a frame goes.
#[derive(Clone, Copy, Debug, PartialEq, Eq)]
pub enum Way {
    /// From the peer.
    In,
    /// To the peer.
    Out,
}

impl Way {
    fn mark(self) -> &'static str {
        match self {
            Way::In => "<-",
            Way::Out => "->",
        }
    }
}

/// Where frames and events are shown, as long as something takes them.
#[derive(Drop)]
pub struct Outlets<W: Write + Drop, H: Host + Drop> {
    host: H,
    frames: Option<Outlet<BufWriter<W>>>,
    events: Option<Outlet<BufWriter<W>>>,
    line: Line,
    /// The number of the connection.
    number: u64,
    /// When it began, in the host's milliseconds.
    began: u64,
}

impl<W: Write + Drop, H: Host + Drop> Outlets<W, H> {
    pub fn new(
        alloc: Global,
        host: H,
        frames: Option<W>,
        events: Option<W>,
    ) -> Result<Self, AllocError> {
        Ok(Outlets {
            host,
            frames: opened(alloc, frames)?,
            events: opened(alloc, events)?,
            line: Line::new(alloc)?,
            number: 0,
            began: 0,
        })
    }

    /// Begins the connection with this number, now. The lines from here on are about it.
    pub fn begin(&mut self, number: u64) {
        self.number = number;
        self.begin_now();
    }

    /// Counts the connection's age from now.
    pub fn begin_now(&mut self) {
        self.began = self.host.millis();
    }

    /// Returns whether nothing takes lines any more.
    pub fn are_shut(&self) -> bool {
        self.frames.is_none() && self.events.is_none()
    }

    /// Returns whether something takes frames.
    pub fn show_frames(&self) -> bool {
        self.frames.is_some()
    }

    /// Shows a frame, or a header.
    pub fn put_frame(&mut self, way: Way, text: &[u8]) {
        self.begin_line();
        let mark = way.mark();
        let _ = write!(self.line, "{mark} ");
        self.line.put(text);
        self.write(View::Frames);
    }

    /// Shows what happened: its word and its sentence among the frames, and its sentence, if it has one, among the
    /// events.
    pub fn put_event<D: Display + Drop>(&mut self, word: D, sentence: &Line) {
        self.put_word(word, sentence);
        if !sentence.is_empty() {
            self.begin_line();
            self.line.put_line(sentence);
            self.write(View::Events);
        }
    }

    /// Shows a word and its sentence among the frames alone.
    pub fn put_word<D: Display + Drop>(&mut self, word: D, sentence: &Line) {
        self.begin_line();
        let _ = write!(self.line, "-- {word}");
        if !sentence.is_empty() {
            self.line.put(b": ");
            self.line.put_line(sentence);
        }
        self.write(View::Frames);
    }

    /// Passes on all lines that were written.
    pub fn flush(&mut self) {
        self.flush_one(View::Frames);
        self.flush_one(View::Events);
    }

    fn flush_one(&mut self, view: View) {
        let Some(outlet) = self.outlet(view) else {
            return;
        };
        if let Err(fault) = outlet.flush() {
            self.shut(view, fault);
        }
    }

    /// Shows nothing any more, for this reason.
    pub fn shut_all(&mut self, fault: TraceFault) {
        self.shut(View::Frames, fault);
        self.shut(View::Events, fault);
    }

    /// Begins a line with the connection's number and how long ago it began.
    fn begin_line(&mut self) {
        let number = self.number;
        let age = self.host.millis().saturating_sub(self.began);
        self.line.clear();
        let _ = write!(self.line, "{number} {age}ms ");
    }

    /// Writes the line.
    fn write(&mut self, view: View) {
        let put = match view {
            View::Frames => put_to(&mut self.frames, &self.line),
            View::Events => put_to(&mut self.events, &self.line),
        };
        if let Err(fault) = put {
            self.shut(view, fault);
        }
    }

    fn outlet(&mut self, view: View) -> &mut Option<Outlet<BufWriter<W>>> {
        match view {
            View::Frames => &mut self.frames,
            View::Events => &mut self.events,
        }
    }

    fn shut(&mut self, view: View, fault: TraceFault) {
        if let Some(outlet) = self.outlet(view).take() {
            let _ = outlet.into_inner().into_parts(); // what was not taken is not tried again
            self.host.lost(view, fault);
        }
    }
}

/// Writes a line to an outlet, if there is one.
fn put_to<B: Write + Drop>(outlet: &mut Option<Outlet<B>>, line: &Line) -> Result<(), TraceFault> {
    match outlet {
        Some(outlet) => outlet.put(line),
        None => Ok(()),
    }
}

/// Returns the outlet of a writer, if there is one.
fn opened<W: Write + Drop>(
    alloc: Global,
    writer: Option<W>,
) -> Result<Option<Outlet<BufWriter<W>>>, AllocError> {
    let Some(writer) = writer else {
        return Ok(None);
    };
    match BufWriter::with_capacity(alloc, BUFFER, writer) {
        Ok(buffered) => Ok(Some(Outlet::new(buffered))),
        Err(_) => Err(AllocError),
    }
}
