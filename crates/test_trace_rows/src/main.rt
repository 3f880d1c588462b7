//! Tests what hears of connections that are served, by the rows of `data/`.
//!
//! `trace PIECE ..` serves a peer that sends these pieces, each by a read of its own, and then leaves; `events`
//! tells less. The answer is the lines after the last piece but one, parted by ` / `: all that came before was
//! told when the last was waited for. A piece is hex digits, and `41*300` for bytes this many times, parted by
//! `+`. Each read takes five milliseconds. `broken` and `deaf` before the pieces are a socket that fails after
//! them, or takes nothing. `window N` is the window of the sessions that follow. `brief` is a trace in which of a
//! line of more than 100 bytes its first 70, its length and its last 15 stand; `lost` one whose writer takes 300
//! bytes. After a call `held` is the most that was held of a peer, and `longest` is how long the longest line is.
#![tactic(auto)]

mod peer;
mod served;
mod words;

use crate::served::{Kind, answered};
use std::alloc::Global;
use std::{env, fs};
use test_heap::TestHeap;
use test_row_files::words::{name_of, number};
use test_row_files::{Miss, RowFile, Subject};

/// The window of the sessions that follow, and what the last call showed.
#[derive(Drop)]
struct Told {
    window: u32,
    held: usize,
    longest: usize,
    lost: &'static str,
}

impl Subject for Told {
    fn begin(&mut self) {
        *self = Told::NEW;
    }

    fn call(&mut self, alloc: Global, words: &str) -> Result<String, Miss> {
        let (name, rest) = name_of(words);
        let kind = match name {
            "window" => {
                self.window = number(rest)?;
                return Ok(String::from_str(alloc, "()")?);
            }
            "trace" => Kind::Trace,
            "events" => Kind::Events,
            "brief" => Kind::Brief,
            "lost" => Kind::Lost,
            _ => return Err(Miss::Unread("no such call")),
        };
        let answer = answered(alloc, self.window, kind, rest)?;
        self.held = answer.held;
        self.longest = answer.longest;
        self.lost = answer.lost;
        Ok(answer.lines)
    }

    fn shown(&self, alloc: Global) -> Result<String, Miss> {
        let Told {
            held,
            longest,
            lost,
            ..
        } = *self;
        Ok(format!(in alloc; "held={held} longest={longest} lost={lost}")?)
    }
}

impl Told {
    const NEW: Told = Told {
        window: 100,
        held: 0,
        longest: 0,
        lost: "nothing",
    };
}

fn main(rt: HostRuntime) -> Result<(), Miss> {
    let heap = TestHeap::new(rt.alloc(), 0);
    let mut told = Told::NEW;
    for name in env::args(&rt)?.skip(1) {
        let text = fs::read_to_string(&rt, name.as_str())?;
        let file = RowFile::read(rt.alloc(), text.as_str())?;
        let report = file.run(rt.alloc(), &heap, &mut told)?;
        rt.print(report.as_str())?;
    }
    Ok(())
}
