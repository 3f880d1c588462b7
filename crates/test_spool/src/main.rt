//! Tests `amqp_spool` by the rows of `data/`.
//!
//! In the rows of `texts` bytes are hex, and `-` is none of them. `head BYTES` answers what the head of a segment says:
//! SPOOL SECRET FIRST BEFORE COUNTED LIFE and its sum; `published BYTES` what an end says: SPOOL FIRST MARK PLACE NEXT;
//! `floor BYTES` what a floor says: SPOOL NUMBER DROPPED; `position BYTES` what the position of a consumer says: SPOOL
//! NUMBER; and `name NAME` whether it may be a consumer's. `scan BYTES` answers where the last whole batch of a segment
//! ends, and the number after it; `batches BYTES` the batches, as PLACE SIZE COUNT FIRST ARRIVED; `entries BYTES` their
//! entries, as `link NUMBER CONNECTION PEER CONTAINER NAME USER KIND TARGET` and `record NUMBER LINK CONNECTION NAME TAG
//! RECORD`; `read PLACE BYTES` the records up to a place, as NUMBER CONNECTION NAME TAG MESSAGE. `body BYTES` answers the
//! entries of a body alone, a record as `record LINK TAG RECORD`, how many bytes are left after them, and whether the
//! body is whole; `senders BYTES` each record of it, who sends on its link by then, and what comes after the last, asked
//! twice. `torn BYTES` cuts the last batch before each byte, and turns a bit of each byte of it: it answers at how many
//! of these a scan finds the batches before it alone, and where they end. The calls that begin with `put-` answer the
//! bytes that are written.
//!
//! The rows of `lives` have a spool in a directory. `limits SEGMENT LIMIT BATCH` are those of the lives that follow.
//! `open` begins a life and `close` ends it. `link CONNECTION NAME` opens a link and answers its number; after the name
//! may stand its peer, its container and its target. `leave LINK` closes it, and `is_open LINK` says whether it is open.
//! `put LINK MESSAGE`, `settle`, `tend PASSED`, `has_room LEN`, `may_grant LEN` and `held` are the calls of the spool,
//! and `tell LINK MESSAGE` is a `put` and a `settle`; after the message may stand its tag. `put_cut LINK MESSAGE` puts a
//! record without its last byte. `run STEPS` makes calls, parted by commas, as one list; its `put LINK` puts the message
//! `a`. `read` answers what is read of the files, as NUMBER:NAME:MESSAGE, and `entries FIRST` what stands in a segment.
//! `cut FIRST COUNT` cuts bytes off a segment, `damage FIRST COUNT` turns a bit so many bytes before its end, and `lose
//! FIRST` removes it. After a call the numbers in the names of the segments are shown, their bytes together, and whether
//! a batch waits. In each life the bytes are within the limit after each call.
//!
//! `script STEPS` keeps calls, parted by commas, and `with FAULT CALL N` makes them in a directory whose Nth call of
//! this kind fails. `done` after it says that it is done all the same, and `then FAULT CALL N` plans another, counted
//! from there on. It answers each step that was not `()`, and what is read in the next life.
//!
//! `note` writes down what the system is asked from then on, and `asked` answers it. No sync is made: it is counted, as
//! each other call of the system, and may be refused as they. `each REASON` makes the steps of `script` as often as they
//! ask the system something, and each time the next of its calls is refused for this reason. It answers how often that
//! was, if each time all that was told is read in the next life: its number, who sent it, its tag and the message. What
//! a `tend` has passed may be gone, if that asked the system something, and did not say that there is no room for it; so
//! may what an `ack` has passed, if that asked something.
//!
//! `add NAME` answers after which number a consumer begins, `remove NAME` removes it, `ack NAME N` moves its position, and
//! `hold NAME` takes its lock until `let_go`, and answers its number. `position NAME` is read without the lock, and
//! `positions` are all, by their names. `free` answers up to which number it removed segments, or `none`, and `publish`
//! whether it could say how far may be read. `crowd COUNT` adds as many consumers, and `spoil NAME TEXT` puts a line in
//! place of a position.
//!
//! The rows of `directory` have the directory alone, over a system that makes each sync. `open ID` opens it and `close`
//! closes it; `also PATH` opens another one besides. `names`, `spool`, `floor`, `read INDEX PLACE LEN`, `append BYTES`,
//! `sync`, `add FIRST BYTES`, `raise_floor N`, `remove_oldest`, `prepare`, `set_reserve LEN`, `give_up_reserve`, `publish
//! FIRST MARK PLACE NEXT`, `published` and `reason` are its calls. Past it `file CALL NAME` asks a file of it: `exists`,
//! `len`, `mode`, `bytes`, `write` with bytes, `link` with what it leads to, `make_dir`, `remove`, `remove_dir`. `hold
//! NAME` opens a file as a reader, and `held` answers how many bytes that one has.
#![tactic(auto)]

mod consuming;
mod directory;
mod disk;
mod files;
mod folder;
mod host;
mod kept;
mod life;
mod lives;
mod segment;
mod texts;
mod torn;
mod words;

use crate::directory::Directory;
use crate::folder::Plan;
use crate::host::Asked;
use crate::lives::Lives;
use crate::texts::Texts;
use std::rc::Rc;
use std::{env, fs};
use test_heap::TestHeap;
use test_row_files::{Heap, Miss, RowFile};

fn main(rt: HostRuntime) -> Result<(), Miss> {
    let heap = TestHeap::new(rt.alloc(), 0);
    for name in env::args(&rt)?.skip(1) {
        print_report(&rt, &heap, name.as_str())?;
    }
    Ok(())
}

/// Runs the rows of a file, and prints the report.
fn print_report(rt: &HostRuntime, heap: Heap<'_>, name: &str) -> Result<(), Miss> {
    let text = fs::read_to_string(rt, name)?;
    let report = report_of(rt, heap, text.as_str())?;
    rt.print(report.as_str())?;
    Ok(())
}

/// Returns the report of the rows of a text.
fn report_of(rt: &HostRuntime, heap: Heap<'_>, text: &str) -> Result<String, Miss> {
    let file = RowFile::read(rt.alloc(), text)?;
    run(rt, heap, &file)
}

fn run(rt: &HostRuntime, heap: Heap<'_>, file: &RowFile<'_>) -> Result<String, Miss> {
    match file.subject() {
        "texts" => file.run(rt.alloc(), heap, &mut Texts),
        "lives" => run_lives(rt, heap, file),
        "directory" => {
            let asked = Rc::new(rt.alloc(), Asked::new(true))?;
            file.run(rt.alloc(), heap, &mut Directory::new(rt, asked))
        }
        _ => Err(Miss::Unread("no such subject")),
    }
}

fn run_lives(rt: &HostRuntime, heap: Heap<'_>, file: &RowFile<'_>) -> Result<String, Miss> {
    let asked = Rc::new(rt.alloc(), Asked::new(false))?;
    run_planned(rt, heap, file, &Plan::new(), asked)
}

fn run_planned(
    rt: &HostRuntime,
    heap: Heap<'_>,
    file: &RowFile<'_>,
    plan: &Plan,
    asked: Rc<Asked>,
) -> Result<String, Miss> {
    file.run(rt.alloc(), heap, &mut Lives::new(rt, plan, asked))
}
