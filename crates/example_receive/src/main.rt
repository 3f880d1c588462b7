//! Receives the messages of one connection, and prints them: a whole program on the library `amqp_endpoint`, from the socket
//! to the message, to begin an application with.
//!
//!     example_receive --listen HOST:PORT    serves the first connection that comes there
//!     example_receive FILE                  the same over what a peer sent, from a file; the answers are thrown away
//!
//! `connection` moves the bytes, and `application` does what they ask for.
#![tactic(auto)]

mod application;
mod connection;

use crate::connection::serve;
use anyhow::{Result, bail};
use std::io::{self, BufReader};
use std::net::{Net, OpenListener, OpenStream, TcpListener};
use std::rt::Files;
use std::{env, fs};

fn main(rt: HostRuntime) -> Result<()> {
    let words: Vec<String> = env::args(&rt)?.skip(1).collect(rt.alloc())?;
    match words.as_slice() {
        [file] => replay(&rt, file.as_str()),
        [option, address] if option.as_str() == "--listen" => listen(&rt, address.as_str()),
        _ => bail!("usage: example_receive --listen HOST:PORT, or example_receive FILE"),
    }
}

/// Serves the first connection that comes to an address.
fn listen<R: Net + Print + AllocGlobal>(rt: &R, address: &str) -> Result<()> {
    let (stream, _) = TcpListener::bind(rt, address)?.accept()?;
    stream.set_nodelay(true)?; // answers are small, and none waits for the next
    let output = stream.try_clone()?;
    serve(rt, BufReader::new(rt.alloc(), stream)?, output)
}

/// Serves a connection whose peer sent what stands in a file.
fn replay<R: Files + Print + AllocGlobal>(rt: &R, path: &str) -> Result<()> {
    let file = fs::open(rt, path)?;
    serve(rt, BufReader::new(rt.alloc(), file)?, io::sink())
}
