//! Tells of what passes at each peer of a gateway, in lines: a trace for each peer, and the files that all of them share.

use amqp_endpoint::End;
use amqp_gateway::{Ending, Watcher};
use amqp_perform::Outcome;
use amqp_serve::{ServeFault, Stepped};
use amqp_trace::{Cause, Host, Trace, TraceFault, View};
use std::alloc::{AllocError, Global};
use std::cell::{Cell, RefCell};
use std::io::{self, ErrorKind, Write};
use std::net::SocketAddr;
use std::rc::Rc;

/// Where the lines of all peers go, if anywhere, and who runs their traces.
#[derive(Drop)]
struct Board<T: Drop, H: Host + Drop> {
    frames: Option<RefCell<T>>,
    events: Option<RefCell<T>>,
    host: H,
    /// Whether frames, or events, are told no more.
    has_lost: [Cell<bool>; 2],
}

impl<T: Drop, H: Host + Drop> Board<T, H> {
    /// Says once that a view is told no more.
    fn lose(&self, view: View, fault: TraceFault) {
        if !self.has_lost(view).replace(true) {
            self.host.lost(view, fault);
        }
    }

    /// What the lines of a view go to, if they go anywhere and none was lost.
    fn open(&self, view: View) -> Option<&RefCell<T>> {
        if self.has_lost(view).get() {
            return None;
        }
        match view {
            View::Frames => self.frames.as_ref(),
            View::Events => self.events.as_ref(),
        }
    }

    fn has_lost(&self, view: View) -> &Cell<bool> {
        let [frames, events] = &self.has_lost;
        match view {
            View::Frames => frames,
            View::Events => events,
        }
    }
}

/// Writes the lines of a view, for one peer of several.
#[derive(Drop)]
struct SharedWriter<T: Drop, H: Host + Drop> {
    board: Rc<Board<T, H>>,
    view: View,
}

impl<T: Write + Drop, H: Host + Drop> Write for SharedWriter<T, H> {
    fn write(&mut self, buf: &[u8]) -> io::Result<usize> {
        let Some(told) = self.board.open(self.view) else {
            return Err(io::Error::from(ErrorKind::Other));
        };
        match told.try_borrow_mut() {
            Ok(mut told) => told.write(buf),
            Err(_) => Err(io::Error::from(ErrorKind::Other)),
        }
    }

    fn flush(&mut self) -> io::Result<()> {
        let Some(told) = self.board.open(self.view) else {
            return Err(io::Error::from(ErrorKind::Other));
        };
        match told.try_borrow_mut() {
            Ok(mut told) => told.flush(),
            Err(_) => Err(io::Error::from(ErrorKind::Other)),
        }
    }
}

/// A writer of the lines of a view, if they go anywhere and none was lost.
fn shared<T: Drop, H: Host + Drop>(
    board: &Rc<Board<T, H>>,
    view: View,
) -> Result<Option<SharedWriter<T, H>>, AllocError> {
    if board.open(view).is_none() {
        return Ok(None);
    }
    Ok(Some(SharedWriter {
        board: board.clone()?,
        view,
    }))
}

/// The host of each trace: it says once for all of them what is lost.
#[derive(Drop)]
struct Voice<T: Drop, H: Host + Drop>(Rc<Board<T, H>>);

impl<T: Drop, H: Host + Drop> Host for Voice<T, H> {
    fn millis(&self) -> u64 {
        self.0.host.millis()
    }

    fn lost(&self, view: View, fault: TraceFault) {
        self.0.lose(view, fault);
    }
}

/// A trace of a peer.
type PeerTrace<T, H> = Trace<SharedWriter<T, H>, Voice<T, H>>;

/// A trace of each peer.
#[derive(Drop)]
pub struct Traces<T: Write + Drop, H: Host + Drop> {
    alloc: Global,
    board: Rc<Board<T, H>>,
    /// By the places of the peers.
    open: Vec<Option<PeerTrace<T, H>>>,
}

impl<T: Write + Drop, H: Host + Drop> Traces<T, H> {
    /// Lines of frames and of events go to these, if there are any. The host has the clock of all peers.
    pub fn new(
        alloc: Global,
        host: H,
        frames: Option<T>,
        events: Option<T>,
    ) -> Result<Self, AllocError> {
        let board = Board {
            frames: frames.map(|told| RefCell::new(told)),
            events: events.map(|told| RefCell::new(told)),
            host,
            has_lost: [Cell::new(false), Cell::new(false)],
        };
        let Ok(board) = Rc::new(alloc, board) else {
            return Err(AllocError);
        };
        Ok(Traces {
            alloc,
            board,
            open: Vec::new(alloc),
        })
    }

    /// Whether anything is told.
    fn is_watching(&self) -> bool {
        self.board.open(View::Frames).is_some() || self.board.open(View::Events).is_some()
    }

    /// Begins the trace of a peer at a place where there is none.
    fn begin(&mut self, at: usize, number: u64, address: SocketAddr) -> Result<(), AllocError> {
        let trace = Trace::new(
            self.alloc,
            Voice(self.board.clone()?),
            shared(&self.board, View::Frames)?,
            shared(&self.board, View::Events)?,
            Outcome::Accepted,
        )?;
        trace.begin(number);
        trace.met(address);
        for _ in self.open.len()..at.saturating_add(1) {
            if self.open.push(None).is_err() {
                return Err(AllocError);
            }
        }
        if let Some(place) = self.open.get_mut(at) {
            *place = Some(trace);
        }
        Ok(())
    }

    fn trace(&self, at: usize) -> Option<&PeerTrace<T, H>> {
        match self.open.get(at) {
            Some(Some(trace)) => Some(trace),
            _ => None,
        }
    }
}

impl<T: Write + Drop, H: Host + Drop> Watcher for Traces<T, H> {
    fn met(&mut self, at: usize, number: u64, address: SocketAddr) {
        if self.is_watching() && self.begin(at, number, address).is_err() {
            self.board.lose(View::Frames, TraceFault::NoMemory);
            self.board.lose(View::Events, TraceFault::NoMemory);
        }
    }

    fn stepped(&mut self, at: usize, taken: &[u8], stepped: &Stepped, answers: &[u8]) {
        if let Some(trace) = self.trace(at) {
            trace.came(taken);
            trace.went(answers);
            trace.did(stepped);
        }
    }

    fn said(&mut self, at: usize, answers: &[u8]) {
        if let Some(trace) = self.trace(at) {
            trace.said(answers);
        }
    }

    fn waits(&mut self, at: usize) {
        if let Some(trace) = self.trace(at) {
            trace.waits();
        }
    }

    fn ended(&mut self, at: usize, ending: Ending, end: Option<End>) {
        let Some(place) = self.open.get_mut(at) else {
            return;
        };
        if let Some(trace) = place.take() {
            match told_of(ending, end) {
                Ok(served) => trace.end(served),
                Err(cause) => trace.give_up(cause),
            }
        }
    }
}

/// What a trace is told of how a connection ended.
fn told_of(ending: Ending, end: Option<End>) -> Result<Result<End, ServeFault>, Cause> {
    Ok(match ending {
        Ending::Closed => Ok(End::Closed),
        Ending::Failed => Ok(End::Failed),
        Ending::Between | Ending::Inside => Ok(end.unwrap_or(End::Between)),
        Ending::Read | Ending::Poll => Err(ServeFault::Read), // of one that ends with `Poll` no trace was begun
        Ending::Write => Err(ServeFault::Write),
        Ending::Sink => Err(ServeFault::Sink),
        Ending::NoMemory => Err(ServeFault::NoMemory),
        Ending::Idle => return Err(Cause::Idle),
        Ending::Slow => return Err(Cause::Slow),
        Ending::Stopped => return Err(Cause::Stopped),
    })
}
