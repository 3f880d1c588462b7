//! The tests of the layers from outside. The arguments name the files of `data/` to run. One whose name ends in `.amqp` is a
//! stream that a real sender wrote, which is received. Each other one has rows, and says by its `subject` whether they are calls
//! on a link, on a session, lines of scripts, calls on an endpoint, streams to be served, calls on a sender, or what a hostile
//! peer does; `test_row_files` has their format.
#![tactic(auto)]

mod calls;
mod captures;
mod endpoint;
mod hostile;
mod link;
mod messages;
mod paced;
mod parts;
mod pieces;
mod quotes;
mod script;
mod sender;
mod server;
mod session;
mod settings;
mod tables;
mod words;

use crate::endpoint::Receiving;
use crate::hostile::Attack;
use crate::link::LinkRows;
use crate::script::Script;
use crate::sender::Sending;
use crate::server::Server;
use crate::session::SessionRows;
use std::alloc::Global;
use std::{env, fs};
use test_heap::TestHeap;
use test_row_files::{Heap, Miss, RowFile};

fn main(rt: HostRuntime) -> Result<(), Miss> {
    let heap = TestHeap::new(rt.alloc(), 0);
    for name in env::args(&rt)?.skip(1) {
        if name.as_str().ends_with(".amqp") {
            let received = captures::received(&rt, name.as_str())?;
            println!(rt; "{name}: {received}")?;
        } else {
            let text = fs::read_to_string(&rt, name.as_str())?;
            let file = RowFile::read(rt.alloc(), text.as_str())?;
            rt.print(report_of(rt.alloc(), &heap, &file)?.as_str())?;
        }
    }
    Ok(())
}

/// Returns the result of the rows of a file.
fn report_of(alloc: Global, heap: Heap<'_>, file: &RowFile<'_>) -> Result<String, Miss> {
    match file.subject() {
        "link" => file.run(alloc, heap, &mut LinkRows::new(heap)?),
        "session" => file.run(alloc, heap, &mut SessionRows::new(heap)?),
        "script" => file.run(alloc, heap, &mut Script::new(alloc)),
        "endpoint" => file.run(alloc, heap, &mut Receiving::new(alloc, heap)),
        "server" => file.run(alloc, heap, &mut Server::new(alloc, heap)),
        "sender" => file.run(alloc, heap, &mut Sending::new(alloc, heap)),
        "hostile" => file.run(alloc, heap, &mut Attack::new(alloc, heap)),
        _ => Err(Miss::Unread("no such subject")),
    }
}
