//! A peer that is served, and the lines of it.

use crate::peer::{Desk, Ear, Manner, Nowhere, Paper, Peer, Scene};
use crate::words::bytes_of;
use amqp_endpoint::{Config, End, Endpoint};
use amqp_frame::{AtHand, Device, HoldsBack};
use amqp_perform::Outcome;
use amqp_serve::{Policy, ServeFault, Watch, serve_watched};
use amqp_trace::{Trace, TracedReader, TracedWriter};
use std::alloc::Global;
use std::cell::{Cell, RefCell};
use std::fmt::Write;
use std::io::{self, BufReader, BufWriter};
use test_row_files::Miss;

/// What is requested.
#[derive(Clone, Copy, PartialEq, Eq)]
pub enum Kind {
    Trace,
    Events,
    /// A trace of which long lines are shown in parts.
    Brief,
    /// A trace whose writer takes 300 bytes.
    Lost,
}

/// What a call answers, and shows.
#[derive(Drop)]
pub struct Answer {
    pub lines: String,
    pub held: usize,
    pub longest: usize,
    pub lost: &'static str,
}

/// Serves a peer under a window.
pub fn answered(alloc: Global, window: u32, kind: Kind, words: &str) -> Result<Answer, Miss> {
    let (manner, words) = match words.split_once(' ') {
        Some(("broken", rest)) => (Manner::Breaks, rest),
        Some(("deaf", rest)) => (Manner::IsDeaf, rest),
        _ => (Manner::Leaves, words),
    };
    let mut pieces = Vec::new(alloc);
    for word in words.split_whitespace() {
        pieces.push(bytes_of(alloc, word)?)?;
    }
    let scene = Scene {
        pieces,
        manner,
        desk: Desk {
            millis: Cell::new(1000),
            lost: Cell::new("nothing"),
        },
        paper: Paper {
            lines: RefCell::new(Vec::new(alloc)),
            most: if kind == Kind::Lost { 300 } else { usize::MAX },
        },
        mark: Cell::new(0),
        held: Cell::new(0),
    };
    play(alloc, window, kind, &scene)?;
    let Scene {
        desk,
        paper,
        mark,
        held,
        ..
    } = &scene;
    Ok(Answer {
        lines: lines_of(alloc, paper, mark.get(), kind == Kind::Brief)?,
        held: held.get(),
        longest: longest_in(paper),
        lost: desk.lost.get(),
    })
}

/// Serves the peer of a scene under a trace.
fn play(alloc: Global, window: u32, kind: Kind, scene: &Scene) -> Result<(), Miss> {
    let (frames, events) = match kind {
        Kind::Events => (None, Some(&scene.paper)),
        _ => (Some(&scene.paper), None),
    };
    let trace = Trace::new(alloc, &scene.desk, frames, events, Outcome::Accepted)?;
    let mut endpoint = endpoint_of(alloc, window)?;
    let peer = Peer {
        scene,
        pieces: &scene.pieces,
        sent: 0,
        trace: &trace,
    };
    serve(alloc, &mut endpoint, peer)
}

/// Returns a new endpoint with this window.
fn endpoint_of(alloc: Global, window: u32) -> Result<Endpoint, Miss> {
    let name = String::from_str(alloc, "r")?;
    let config = Config::checked(name, 65536, 1, 1, 2, 10, window).ok_or("no settings")?;
    Ok(Endpoint::new(alloc, config)?)
}

/// Serves the peer, whose number is 1.
// The body borrows what it uses: one that may drop it at each exit takes minutes to prove.
fn serve(alloc: Global, endpoint: &mut Endpoint, peer: Peer<'_, '_>) -> Result<(), Miss> {
    let trace = peer.trace;
    let ear = Ear {
        manner: peer.scene.manner,
    };
    let Ok(input) = BufReader::with_capacity(alloc, 65536, peer) else {
        return Err(Miss::NoMemory);
    };
    let Ok(output) = BufWriter::with_capacity(alloc, 65536, ear) else {
        return Err(Miss::NoMemory);
    };
    trace.begin(1);
    trace.met("nearby");
    let reader = TracedReader::new(input, Some(trace));
    let writer = TracedWriter::new(output, Some(trace));
    trace.end(served_between(endpoint, reader, writer, trace));
    Ok(())
}

/// Serves a peer between a reader and a writer, and reports to a watch. The records go nowhere.
fn served_between<R: AtHand + Drop, W: io::Write + HoldsBack + Drop, T: Watch + Drop>(
    endpoint: &mut Endpoint,
    reader: R,
    writer: W,
    watch: T,
) -> Result<End, ServeFault> {
    let mut watch = watch;
    let policy = Policy {
        credit: 2,
        outcome: Outcome::Accepted,
    };
    serve_watched(
        endpoint,
        &mut Device::new(reader),
        &mut Device::new(writer),
        &mut Device::new(Nowhere),
        policy,
        &mut watch,
    )
}

/// Returns the lines after the mark, parted by ` / `.
fn lines_of(alloc: Global, paper: &Paper, mark: usize, is_brief: bool) -> Result<String, Miss> {
    let Ok(lines) = paper.lines.try_borrow() else {
        return Err(Miss::Unread("the lines are lent"));
    };
    parted_lines(alloc, &lines, mark, is_brief)
}

fn parted_lines(alloc: Global, lines: &[u8], mark: usize, is_brief: bool) -> Result<String, Miss> {
    let text = str::from_utf8(lines).ok().ok_or("no text")?;
    let mut parted = String::new(alloc);
    put_lines(&mut parted, text.get(mark..).unwrap_or(""), is_brief)?;
    Ok(parted)
}

/// Puts lines, parted by ` / `.
fn put_lines(parted: &mut String, text: &str, is_brief: bool) -> Result<(), Miss> {
    for line in text.lines() {
        if !parted.is_empty() {
            parted.push_str(" / ")?;
        }
        put_line(parted, line, is_brief)?;
    }
    Ok(())
}

/// Puts a line, or its parts.
fn put_line(parted: &mut String, line: &str, is_brief: bool) -> Result<(), Miss> {
    let len = line.len();
    match (line.get(..70), line.get(len.saturating_sub(15)..)) {
        (Some(front), Some(end)) if is_brief && len > 100 => {
            let _ = write!(parted, "{front}~{len}~{end}");
        }
        _ => parted.push_str(line)?,
    }
    Ok(())
}

/// Returns how long the longest line is.
fn longest_in(paper: &Paper) -> usize {
    match paper.lines.try_borrow() {
        Ok(lines) => lines
            .split(|byte| *byte == b'\n')
            .map(|line| line.len())
            .max()
            .unwrap_or(0),
        Err(_) => 0,
    }
}
