//! A connection as its own bytes alone give it.

use crate::lists::Came;
use crate::rows::RULE;
use amqp_endpoint::{Config, End, Endpoint};
use amqp_frame::{Device, Direct, HoldsBack};
use amqp_hub::TurnAnswer;
use amqp_serve::{ServeFault, Server};
use std::alloc::Global;
use std::io::Write;
use test_row_files::{Heap, Miss};

/// The close of this side [2.7.9].
const CLOSE: &[u8] = b"\x00\x00\x00\x0c\x02\x00\x00\x00\x00S\x18E";

/// What the turns of a list say of a connection.
#[derive(Drop)]
pub struct Life {
    /// The bytes that its peer sends, how many were taken, and how many of them were served.
    stream: Vec<u8>,
    taken: usize,
    served: usize,
    told: Vec<u8>,
    recorded: Vec<u8>,
    end: Option<End>,
    closed: bool,
}

impl Life {
    pub fn new(alloc: Global, stream: Vec<u8>) -> Life {
        Life {
            stream,
            taken: 0,
            served: 0,
            told: Vec::new(alloc),
            recorded: Vec::new(alloc),
            end: None,
            closed: false,
        }
    }

    /// Returns the bytes that are to come.
    pub fn rest(&self) -> &[u8] {
        self.stream.get(self.taken..).unwrap_or(&[])
    }

    /// Notes an answer, and says whether the connection is still there.
    pub fn goes_on(&mut self, answer: TurnAnswer<Heap<'_>>, came: &mut Came) -> Result<bool, Miss> {
        match answer {
            TurnAnswer::Heard { stepped, noted, .. } => {
                self.taken = self.taken.saturating_add(stepped.used);
                match stepped.done {
                    Ok(_) => self.served = self.taken,
                    Err(ServeFault::NoMemory) => came.starved = came.starved.saturating_add(1),
                    Err(_) => return Ok(false),
                }
                self.recorded.extend_from_slice(&noted)?;
            }
            TurnAnswer::Handed(bytes) => self.told.extend_from_slice(&bytes)?,
            TurnAnswer::Ended(end) => self.end = Some(end),
            TurnAnswer::Closed => self.closed = true,
            _ => {}
        }
        Ok(true)
    }

    /// Returns why it is not what its own bytes give, if it isn't.
    pub fn difference(&self, alloc: Global) -> Result<Option<&'static str>, Miss> {
        let name = String::from_str(alloc, "r")?;
        let config = Config::checked(name, 512, 0, 1, 4, 100, 100).ok_or("no settings")?;
        let mut server = Server::new(Endpoint::new(alloc, config)?);
        self.difference_from(alloc, &mut server)
    }

    /// Returns why it is not what this server, which is new, makes of its own bytes, if it isn't.
    fn difference_from(
        &self,
        alloc: Global,
        server: &mut Server,
    ) -> Result<Option<&'static str>, Miss> {
        let mut writer = Device::new(Direct::new(Vec::new(alloc)));
        let mut sink = Device::new(Vec::new(alloc));
        let is_all = self.is_served_whole(server, &mut writer, &mut sink)?;
        let mut told = writer.into_inner().into_inner();
        self.tell_close(&mut told)?;
        let Ok(end) = server.finish() else {
            return Ok(Some("no end"));
        };
        Ok(self.judged(is_all, &told, &sink.into_inner(), end))
    }

    /// Serves its bytes, and returns whether none is left.
    // The body borrows what it uses: one that may drop it at each exit takes minutes to prove.
    fn is_served_whole<W: Write + HoldsBack + Drop, S: Write + Drop>(
        &self,
        server: &mut Server,
        writer: &mut Device<W>,
        sink: &mut Device<S>,
    ) -> Result<bool, Miss> {
        let mut rest = self.stream.get(..self.served).ok_or("too few bytes")?;
        for _ in 0..self.served {
            let used = step(server, rest, writer, sink)?;
            rest = rest.get(used..).unwrap_or(&[]);
            if rest.is_empty() {
                break;
            }
        }
        Ok(rest.is_empty())
    }

    /// Tells the close of this side, if it has closed the connection.
    fn tell_close(&self, told: &mut Vec<u8>) -> Result<(), Miss> {
        if self.closed {
            told.extend_from_slice(CLOSE)?;
        }
        Ok(())
    }

    /// Returns why it is not what a server made of its bytes, if it isn't.
    fn judged(&self, is_all: bool, told: &[u8], recorded: &[u8], end: End) -> Option<&'static str> {
        if !is_all {
            Some("more was taken")
        } else if self.told.as_slice() != told {
            Some("other bytes are told")
        } else if self.recorded.as_slice() != recorded {
            Some("other records")
        } else if self.end.is_some_and(|how| how != end) {
            Some("another end")
        } else {
            None
        }
    }
}

/// Makes a step of a server, whose ends have not failed, and returns how many bytes it used.
fn step<W: Write + HoldsBack + Drop, S: Write + Drop>(
    server: &mut Server,
    piece: &[u8],
    writer: &mut Device<W>,
    sink: &mut Device<S>,
) -> Result<usize, Miss> {
    if writer.failed() || sink.failed() {
        return Err(Miss::NoMemory);
    }
    let stepped = server.step(RULE, piece, writer, sink);
    if stepped.done.is_err() {
        return Err(Miss::NoMemory);
    }
    Ok(stepped.used)
}
