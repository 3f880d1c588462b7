//! The pair a second time, and naively: frames in place of bytes, of which only the lengths are kept, and counts that never go
//! round. It is written from the standard, and has nothing of the code beside it but the names of its answers.

mod endpoint;
mod sender;
mod sizes;
mod way;

use crate::naive::endpoint::{Endpoint, Handed};
use crate::naive::sender::Sender;
use crate::naive::way::Way;
use crate::schedule::Settings;
use amqp_endpoint::{CallFault, Fed};
use amqp_pair::{Turn, TurnAnswer};
use amqp_perform::Outcome;
use std::alloc::{AllocError, Global};

/// What the sender says.
#[derive(Clone, Copy)]
enum Sent<'a> {
    Header,
    Open,
    Begin,
    Attach,
    /// Only the first transfer of a delivery has its id [2.6.14].
    Transfer {
        id: Option<u32>,
        payload: &'a [u8],
        more: bool,
    },
    Flow {
        transfers: u64,
        count: u64,
    },
}

/// What the endpoint says.
#[derive(Clone, Copy)]
enum Reply {
    Header,
    Open {
        max_frame: u64,
    },
    Begin {
        window: u64,
    },
    Attach,
    /// How many transfers may be sent in all [2.5.6].
    Flow {
        most_transfers: u64,
        of_link: Option<OfLink>,
    },
    Disposition {
        id: u32,
        outcome: Outcome,
    },
}

/// How far the delivery-count may come [2.6.7].
#[derive(Clone, Copy)]
struct OfLink {
    most_count: u64,
    drain: bool,
}

/// Both ends, and what is on its way between them.
#[derive(Drop)]
pub struct Naive<'a> {
    sender: Sender<'a>,
    endpoint: Endpoint,
    to_endpoint: Way<Sent<'a>>,
    to_sender: Way<Reply>,
    pub taken: Vec<Handed>,
}

impl<'a> Naive<'a> {
    pub fn new(alloc: Global, settings: Settings) -> Result<Naive<'a>, AllocError> {
        let mut to_endpoint = Way::new(alloc);
        Ok(Naive {
            sender: Sender::new(&mut to_endpoint)?,
            endpoint: Endpoint::new(alloc, settings),
            to_endpoint,
            to_sender: Way::new(alloc),
            taken: Vec::new(alloc),
        })
    }

    /// Makes a turn, and says what it is answered.
    pub fn make(&mut self, turn: Turn<'a>) -> Result<TurnAnswer, AllocError> {
        match turn {
            Turn::Offer(message) => {
                let fault = self.sender.offer(message, &mut self.to_endpoint)?;
                Ok(match fault {
                    Some(fault) => TurnAnswer::NotTakenOver(fault),
                    None => TurnAnswer::TakenOver,
                })
            }
            Turn::ToEndpoint(n) => self.feed_endpoint(n),
            Turn::ToSender(n) => self.feed_sender(n),
            Turn::Grant(n) => Ok(answer(self.endpoint.grant(n, &mut self.to_sender)?)),
            Turn::Widen(n) => Ok(answer(self.endpoint.widen(n, &mut self.to_sender)?)),
            Turn::Drain => Ok(answer(self.endpoint.drain(&mut self.to_sender)?)),
            Turn::Settle { id, outcome } => {
                let fault = self.endpoint.settle(id, outcome, &mut self.to_sender)?;
                Ok(answer(fault))
            }
            Turn::Take => self.take(),
        }
    }

    /// The sender writes on as soon as its bytes are in the pipe.
    fn feed_endpoint(&mut self, n: usize) -> Result<TurnAnswer, AllocError> {
        self.to_endpoint.fill(n);
        self.sender.write_all(&mut self.to_endpoint)?;
        let (used, outcome) = self
            .endpoint
            .feed(&mut self.to_endpoint, &mut self.to_sender)?;
        Ok(TurnAnswer::EndpointFed(Fed { used, outcome }))
    }

    fn feed_sender(&mut self, n: usize) -> Result<TurnAnswer, AllocError> {
        self.to_sender.fill(n);
        let (used, news) = self
            .sender
            .feed(&mut self.to_sender, &mut self.to_endpoint)?;
        Ok(TurnAnswer::SenderFed { used, news })
    }

    fn take(&mut self) -> Result<TurnAnswer, AllocError> {
        match self.endpoint.take() {
            Ok(handed) => {
                self.taken.push(handed)?;
                Ok(TurnAnswer::HandedUp)
            }
            Err(fault) => Ok(TurnAnswer::Refused(fault)),
        }
    }

    /// Returns whether the session's window has no place.
    pub fn has_no_place(&self) -> bool {
        self.endpoint.has_no_place()
    }

    /// Returns how many messages came whole that are as long as they may be.
    pub fn longest(&self) -> u64 {
        self.endpoint.longest
    }

    /// Returns how often a frame waited at the sender, since that had too little room.
    pub fn times_blocked(&self) -> u64 {
        self.sender.times_blocked
    }

    /// Returns how often the pipe to the endpoint was full when it was fed, and that to the sender.
    pub fn times_full(&self) -> (u64, u64) {
        (self.to_endpoint.times_full, self.to_sender.times_full)
    }
}

fn answer(fault: Option<CallFault>) -> TurnAnswer {
    match fault {
        Some(fault) => TurnAnswer::Refused(fault),
        None => TurnAnswer::Accepted,
    }
}
