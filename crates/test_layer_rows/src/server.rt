//! Whole connections, served over readers and writers in memory.
//!
//! `serve HEX by N` serves a peer that sends these bytes, at most N of them at a time into a buffer, and returns
//! how it ended. It shows what was written to the peer, and what was recorded. `serve HEX and M of MORE by N` has
//! M bytes of some more besides; `nothing` may stand for no bytes.

use amqp_endpoint::{Config, End, Endpoint};
use amqp_frame::{Device, Direct};
use amqp_perform::Outcome;
use amqp_serve::{Policy, ServeFault, serve};
use std::alloc::Global;
use std::io::{self, BufReader, Read};
use test_row_files::words::{bytes_of, hex_of, number};
use test_row_files::{Heap, Miss, Subject};

/// The result of the last connection.
#[derive(Drop)]
pub struct Server<'a> {
    heap: Heap<'a>,
    written: Vec<u8>,
    recorded: Vec<u8>,
}

impl Subject for Server<'_> {
    fn begin(&mut self) {
        self.written.clear();
        self.recorded.clear();
    }

    fn call(&mut self, alloc: Global, words: &str) -> Result<String, Miss> {
        let words = words.strip_prefix("serve ").ok_or("no such call")?;
        let (bytes, most) = words.split_once(" by ").ok_or("no by")?;
        let stream = stream_of(alloc, bytes)?;
        let source = Source {
            rest: &stream,
            most: number(most)? as usize,
        };
        let end = self.serve(alloc, source)?;
        Ok(format!(in alloc; "{end:?}")?)
    }

    fn shown(&self, alloc: Global) -> Result<String, Miss> {
        let written = hex_of(alloc, &self.written)?;
        let recorded = hex_of(alloc, &self.recorded)?;
        Ok(format!(in alloc; "written={written} recorded={recorded}")?)
    }
}

impl<'a> Server<'a> {
    pub fn new(alloc: Global, heap: Heap<'a>) -> Server<'a> {
        Server {
            heap,
            written: Vec::new(alloc),
            recorded: Vec::new(alloc),
        }
    }

    /// Serves a peer by an endpoint of the container 'r', with frames of 512 bytes, channel 0, the handles 0 and 1, four
    /// deliveries of ten bytes for a link, and a window of 100 places. A link gets one place of credit at a time.
    fn serve(
        &mut self,
        alloc: Global,
        source: Source<'_>,
    ) -> Result<Result<End, ServeFault>, Miss> {
        let name = String::from_str(self.heap, "r")?;
        let config = Config::checked(name, 512, 0, 1, 4, 10, 100).ok_or("no settings")?;
        let policy = Policy {
            credit: 1,
            outcome: Outcome::Accepted,
        };
        let mut endpoint = Endpoint::new(self.heap, config)?;
        let (mut written, mut recorded) = (Vec::new(alloc), Vec::new(alloc));
        let end = serve(
            &mut endpoint,
            &mut Device::new(BufReader::new(alloc, source)?),
            &mut Device::new(Direct::new(&mut written)),
            &mut Device::new(&mut recorded),
            policy,
        );
        self.written = written;
        self.recorded = recorded;
        Ok(end)
    }
}

/// Returns the bytes that a call names.
fn stream_of(alloc: Global, words: &str) -> Result<Vec<u8>, Miss> {
    let Some((whole, part)) = words.split_once(" and ") else {
        return named_bytes(alloc, words);
    };
    let (count, more) = part.split_once(" of ").ok_or("no of")?;
    let more = bytes_of(alloc, more)?;
    let front = more.get(..number(count)? as usize).ok_or("too few bytes")?;
    let mut stream = named_bytes(alloc, whole)?;
    stream.extend_from_slice(front)?;
    Ok(stream)
}

fn named_bytes(alloc: Global, word: &str) -> Result<Vec<u8>, Miss> {
    match word {
        "nothing" => Ok(Vec::new(alloc)),
        hex => bytes_of(alloc, hex),
    }
}

/// Gives at most this many bytes at a time.
#[derive(Drop)]
struct Source<'s> {
    rest: &'s [u8],
    most: usize,
}

impl Read for Source<'_> {
    fn read(&mut self, buf: &mut [u8]) -> io::Result<usize> {
        let count = buf.len().min(self.rest.len()).min(self.most);
        buf[..count].copy_from_slice(&self.rest[..count]);
        self.rest = &self.rest[count..];
        Ok(count)
    }
}
