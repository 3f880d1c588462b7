//! Tests the codec by the rows of `data/`: values, their faults, performatives, what is written, streams cut into units.
//!
//! A call's words are mostly bytes ([`bytes`]). What it answers stands with its function, and in the files.
#![tactic(auto)]

mod bodies;
mod bytes;
mod checking;
mod devices;
mod dumps;
mod generated;
mod hands;
mod peeking;
mod states;
mod stream;
mod values;
mod words;
mod writing;

use crate::devices::Marked;
use crate::stream::Stream;
use crate::values::Limited;
use crate::words::parsed;
use std::alloc::{AllocGlobal, Global};
use std::io::Print;
use std::rt::Files;
use std::{env, fs};
use test_heap::TestHeap;
use test_row_files::words::name_of;
use test_row_files::{Heap, Miss, RowFile, Subject};

/// What the calls that are no single ones are about.
#[derive(Drop)]
enum State<'a> {
    Nothing,
    Stream(Stream<'a>),
    Device(Marked),
}

/// The codec, with what is under way.
#[derive(Drop)]
struct Codec<'a> {
    heap: Heap<'a>,
    state: State<'a>,
}

impl Subject for Codec<'_> {
    fn begin(&mut self) {
        self.state = State::Nothing;
    }

    fn call(&mut self, alloc: Global, words: &str) -> Result<String, Miss> {
        let (name, words) = name_of(words);
        match self.answer(alloc, name, words) {
            Err(Miss::NoMemory) => Ok(String::from_str(alloc, "Err(NoMemory)")?),
            answer => answer,
        }
    }

    fn shown(&self, alloc: Global) -> Result<String, Miss> {
        match &self.state {
            State::Nothing => Ok(String::new(alloc)),
            State::Stream(stream) => Ok(stream.shown(alloc)?),
            State::Device(device) => Ok(device.shown(alloc)?),
        }
    }
}

impl Codec<'_> {
    fn answer(&mut self, alloc: Global, name: &str, words: &str) -> Result<String, Miss> {
        match name {
            "splitter" => self.split(alloc, words),
            "push" | "fill" | "each" | "drop" | "finish" => match &mut self.state {
                State::Stream(stream) => stream.call(alloc, name, words),
                _ => Err(Miss::Unread("no splitter")),
            },
            "device" => self.on_device(alloc, words),
            "split" => stream::split(alloc, self.heap, words),
            "stream" | "dump" | "value" => of_dumps(alloc, name, words),
            "frame"
            | "read"
            | "rewrite"
            | "write"
            | "open"
            | "open-with-nulls"
            | "condition"
            | "outcome"
            | "address" => of_frames(alloc, name, words),
            _ => of_values(alloc, name, words),
        }
    }

    fn split(&mut self, alloc: Global, words: &str) -> Result<String, Miss> {
        self.state = State::Stream(Stream::new(self.heap, parsed(words)?)?);
        Ok(String::from_str(alloc, "()")?)
    }

    fn on_device(&mut self, alloc: Global, words: &str) -> Result<String, Miss> {
        if let State::Device(device) = &mut self.state {
            return device.call(alloc, words);
        }
        let mut device = Marked::new(alloc);
        let answer = device.call(alloc, words)?;
        self.state = State::Device(device);
        Ok(answer)
    }
}

fn of_values(alloc: Global, name: &str, words: &str) -> Result<String, Miss> {
    match name {
        "decode" => values::decode(alloc, words),
        "limits" => values::limits(alloc, words),
        "skip" => values::skip(alloc, words),
        "check" => checking::check(alloc, words),
        "alike" => checking::alike(alloc, words),
        "depth" => values::least(alloc, Limited::Depth, words),
        "nodes" => values::least(alloc, Limited::Nodes, words),
        "codes" => values::codes(alloc),
        "entries" => values::entries(alloc, words),
        "symbol" => values::symbol(alloc, words),
        "laws" => values::call_laws(alloc, words),
        "encode" => writing::encode(alloc, words),
        "make" => writing::make(alloc, words),
        "make-in" => writing::make_in(alloc, words),
        "peek" => peeking::peek(alloc, words),
        "put" => peeking::put(alloc, words),
        _ => Err(Miss::Unread("no such call")),
    }
}

fn of_frames(alloc: Global, name: &str, words: &str) -> Result<String, Miss> {
    match name {
        "read" => bodies::read(alloc, words),
        "frame" => bodies::frame(alloc, words),
        "rewrite" => bodies::rewrite(alloc, words),
        "write" => bodies::write(alloc, words),
        "open" => bodies::open(alloc, words),
        "open-with-nulls" => bodies::open_with_nulls(alloc, words),
        "condition" => states::condition(alloc, words),
        "outcome" => states::outcome(alloc, words),
        "address" => states::address(alloc, words),
        _ => Err(Miss::Unread("no such call")),
    }
}

fn of_dumps(alloc: Global, name: &str, words: &str) -> Result<String, Miss> {
    match name {
        "stream" => dumps::stream(alloc, words),
        "dump" => dumps::behind(alloc, words),
        "value" => dumps::value(alloc, words),
        _ => Err(Miss::Unread("no such call")),
    }
}

fn main(rt: HostRuntime) -> Result<(), Miss> {
    let heap = TestHeap::new(rt.alloc(), 0);
    let mut codec = Codec {
        heap: &heap,
        state: State::Nothing,
    };
    for name in env::args(&rt)?.skip(1) {
        run(&rt, name.as_str(), &heap, &mut codec)?;
    }
    Ok(())
}

fn run<R: Files + Print + AllocGlobal>(
    rt: &R,
    name: &str,
    heap: Heap<'_>,
    codec: &mut Codec<'_>,
) -> Result<(), Miss> {
    let text = fs::read_to_string(rt, name)?;
    let report = report_of(rt.alloc(), text.as_str(), heap, codec)?;
    rt.print(report.as_str())?;
    Ok(())
}

fn report_of(
    alloc: Global,
    text: &str,
    heap: Heap<'_>,
    codec: &mut Codec<'_>,
) -> Result<String, Miss> {
    RowFile::read(alloc, text)?.run(alloc, heap, codec)
}
