//! A gateway: an application over an endpoint that settles late, out of order or by ranges, and tops up at half.

use crate::desk::Desk;
use crate::digest::Digest;
use crate::failure::Failure;
use crate::numbers::Numbers;
use crate::peer::{Head, Peer};
use amqp_endpoint::{Config, End, Endpoint, Event, Outcome};
use amqp_perform::{Outcome as Settlement, ReceiverSettleMode};
use std::alloc::Global;
use std::io::Read;

/// The deliveries that a link may have open.
const ALLOWED: u32 = 1024;

/// The places of a session's window.
const WINDOW: u32 = 2048;

/// The bytes that an endpoint may have to send.
const OUTPUT: usize = 8192;

/// How the deliveries that wait for it are settled.
#[derive(Clone, Copy)]
enum Way {
    /// All at once.
    Range,
    /// One by one, as they came.
    Rising,
    /// One by one, the last one first.
    Falling,
    /// One by one, every seventh.
    Mixed,
}

/// What a session of the gateway has to settle.
#[derive(Drop)]
struct Waiting {
    ids: Vec<u32>,
}

/// What its sender sends next on a session, and how many it sent since it settled.
#[derive(Clone, Copy)]
struct Sent {
    id: u32,
    first: u32,
    unsettled: u32,
}

/// A gateway under way.
#[derive(Drop)]
struct Gateway {
    endpoint: Endpoint,
    room: Vec<u8>,
    waiting: Vec<Waiting>,
    /// It settles once this many wait.
    depth: u32,
    way: Way,
}

/// Messages of 50 to 300 bytes come on many links, and are settled when many wait.
pub fn run(desk: &mut Desk) -> Result<(), Failure> {
    let numbers = &mut desk.numbers;
    let sessions = numbers.of_these(&[1, 1, 2, 16, 256]);
    let links = numbers
        .of_these(&[1, 2, 16, 256])
        .min(4096 / sessions.max(1));
    let is_second = numbers.is_one_of(3);
    let depth = if is_second {
        numbers.of_these(&[1, 10, 100, 500])
    } else {
        numbers.of_these(&[1, 10, 100, 1000])
    };
    let by_fills = numbers.is_one_of(2);
    let way = match numbers.below(4) {
        0 => Way::Rising,
        1 => Way::Falling,
        2 => Way::Mixed,
        _ => Way::Range,
    };
    let mode = if is_second {
        ReceiverSettleMode::Second
    } else {
        ReceiverSettleMode::First
    };
    open(&mut desk.peer, sessions, links, mode)?;
    let messages = desk.size.of(8192, 200);
    let mut sent = new_sessions(desk, sessions)?;
    for _ in 0..messages {
        send(
            &mut desk.peer,
            &mut desk.numbers,
            &mut sent,
            links,
            depth,
            is_second,
        )?;
    }
    desk.peer.close()?;
    let mut gateway = Gateway::new(desk.alloc, sessions, depth, way)?;
    gateway.receive(
        &desk.peer.bytes,
        by_fills,
        &mut desk.answers,
        &mut desk.records,
    )
}

/// The peer opens, and begins this many sessions of this many links.
fn open(
    peer: &mut Peer,
    sessions: u32,
    links: u32,
    mode: ReceiverSettleMode,
) -> Result<(), Failure> {
    peer.open(&[])?;
    for channel in 0..sessions {
        let channel = (channel & 0xff) as u16;
        peer.begin(channel, 0)?;
        for handle in 0..links {
            peer.attach(channel, (handle & 0xff) as u8, mode, &[])?;
        }
    }
    Ok(())
}

/// Returns what is sent on this many sessions, at first.
fn new_sessions(desk: &mut Desk, sessions: u32) -> Result<Vec<Sent>, Failure> {
    let mut sent = Vec::new(desk.alloc);
    for _ in 0..sessions {
        let id = desk.numbers.word();
        sent.push(Sent {
            id,
            first: id,
            unsettled: 0,
        })?;
    }
    Ok(sent)
}

/// The peer sends a message on one of its links. Those of mode second it settles once it was told of this many.
fn send(
    peer: &mut Peer,
    numbers: &mut Numbers,
    sent: &mut [Sent],
    links: u32,
    depth: u32,
    is_second: bool,
) -> Result<(), Failure> {
    let channel = numbers.below((sent.len() as u64 & 0xffff) as u32);
    let handle = (numbers.below(links) & 0xff) as u8;
    let settled = numbers.is_one_of(8);
    let payload = numbers.between(50, 300);
    let Some(session) = sent.get_mut(channel as usize) else {
        return Ok(());
    };
    let channel = (channel & 0xff) as u16;
    let head = Head {
        channel,
        handle,
        id: session.id,
        settled,
        more: false,
    };
    peer.transfer(head, numbers, payload)?;
    if !settled {
        session.unsettled = session.unsettled.wrapping_add(1);
    }
    if is_second && session.unsettled == depth {
        peer.settle(channel, session.first, session.id)?;
        session.unsettled = 0;
        session.first = session.id.wrapping_add(1);
    }
    session.id = session.id.wrapping_add(1);
    Ok(())
}

impl Gateway {
    fn new(alloc: Global, sessions: u32, depth: u32, way: Way) -> Result<Gateway, Failure> {
        let mut waiting = Vec::new(alloc);
        for _ in 0..sessions {
            waiting.push(Waiting {
                ids: Vec::new(alloc),
            })?;
        }
        Ok(Gateway {
            endpoint: new_endpoint(alloc, ALLOWED)?,
            room: Vec::from_elem(alloc, 0, OUTPUT)?,
            waiting,
            depth,
            way,
        })
    }

    /// Receives what the peer sends, in pieces of 4,096 bytes or as many as the endpoint asks for.
    fn receive(
        &mut self,
        stream: &[u8],
        by_fills: bool,
        answers: &mut Digest,
        records: &mut Digest,
    ) -> Result<(), Failure> {
        for piece in stream.chunks(4096) {
            let mut rest = piece;
            for _ in 0..piece.len() {
                if rest.is_empty() {
                    break;
                }
                let outcome = if by_fills {
                    let count = rest.read(self.endpoint.spare())?;
                    self.endpoint.filled(count).outcome
                } else {
                    let fed = self.endpoint.feed(rest);
                    rest = rest.get(fed.used..).unwrap_or(&[]);
                    fed.outcome
                };
                self.follow(outcome, answers, records)?;
            }
            self.move_out(answers)?;
        }
        is_closed(&mut self.endpoint)
    }

    fn follow(
        &mut self,
        outcome: Outcome,
        answers: &mut Digest,
        records: &mut Digest,
    ) -> Result<(), Failure> {
        match outcome {
            Outcome::More => {}
            Outcome::Event(Event::Begun { .. }) | Outcome::Blocked => self.move_out(answers)?,
            Outcome::Event(Event::Attached { channel, handle }) => {
                self.endpoint.grant(channel, handle, ALLOWED)?;
                self.move_out(answers)?;
            }
            Outcome::Event(Event::Ready { channel, handle }) => {
                self.take(channel, handle, answers, records)?;
            }
            Outcome::Event(Event::Settled { channel, count }) => {
                records.number(channel as u64)?;
                records.number(count as u64)?;
            }
            Outcome::Event(Event::Closed { dropped }) => records.number(dropped as u64)?,
            Outcome::Event(_) => records.number(7)?,
            Outcome::NoMemory => records.number(9)?,
            Outcome::Dead => records.number(10)?,
        }
        Ok(())
    }

    /// Takes a message, settles those that wait if they are many, and tops up.
    fn take(
        &mut self,
        channel: u16,
        handle: u32,
        answers: &mut Digest,
        records: &mut Digest,
    ) -> Result<(), Failure> {
        let taken = self.endpoint.take(channel, handle)?;
        records.number(taken.delivery_id as u64)?;
        records.add(taken.message.piece(0))?;
        let mut is_full = false;
        if !taken.settled {
            if let Some(waiting) = self.waiting.get_mut(channel as usize) {
                waiting.ids.push(taken.delivery_id)?;
                is_full = waiting.ids.len() >= self.depth as usize;
            }
        }
        if is_full {
            self.settle(channel, answers, records)?;
        }
        if let Some(places) = self.endpoint.window(channel) {
            if places <= WINDOW / 2 {
                self.endpoint.widen(channel, WINDOW.saturating_sub(places))?;
            }
        }
        self.top_up(channel, handle, answers)
    }

    /// Gives a link credit where half of it is used up.
    fn top_up(&mut self, channel: u16, handle: u32, answers: &mut Digest) -> Result<(), Failure> {
        let Some(link) = self.endpoint.link(channel, handle) else {
            return Ok(());
        };
        let lacking = ALLOWED
            .saturating_sub(link.opened)
            .saturating_sub(link.credit);
        if lacking > 0 && link.credit <= ALLOWED / 2 {
            self.endpoint.grant(channel, handle, lacking)?;
            self.move_out(answers)?;
        }
        Ok(())
    }

    /// Settles the deliveries of a session that wait for it.
    fn settle(
        &mut self,
        channel: u16,
        answers: &mut Digest,
        records: &mut Digest,
    ) -> Result<(), Failure> {
        let Some(waiting) = self.waiting.get_mut(channel as usize) else {
            return Ok(());
        };
        let ids = &mut waiting.ids;
        if let (Way::Range, [first, .., last]) = (self.way, ids.as_slice()) {
            let settled = self
                .endpoint
                .settle_range(channel, *first, *last, Settlement::Accepted)?;
            ids.clear();
            return Ok(records.number(settled as u64)?);
        }
        let count = ids.len();
        for number in 0..count {
            let at = match self.way {
                Way::Range | Way::Rising => number,
                Way::Falling => count.saturating_sub(number).saturating_sub(1),
                Way::Mixed => number.wrapping_mul(7).checked_rem(count).unwrap_or(0),
            };
            if let Some(id) = ids.get(at) {
                let told = self.endpoint.settle(channel, *id, Settlement::Accepted);
                records.number(told.is_ok() as u64)?;
            }
            if number % 64 == 63 {
                empty(&mut self.endpoint, &mut self.room, answers)?;
            }
        }
        ids.clear();
        Ok(())
    }

    fn move_out(&mut self, answers: &mut Digest) -> Result<(), Failure> {
        empty(&mut self.endpoint, &mut self.room, answers)
    }
}

/// Returns an endpoint with ample bounds, whose links may have this many deliveries open.
pub fn new_endpoint(alloc: Global, allowed: u32) -> Result<Endpoint, Failure> {
    let name = String::from_str(alloc, "gateway")?;
    let checked = Config::checked(name, 65536, 255, 255, allowed, 1 << 20, WINDOW);
    Ok(Endpoint::new(alloc, checked.ok_or(Failure::Settings)?)?)
}

/// An error if the peer has not closed the connection.
pub fn is_closed(endpoint: &mut Endpoint) -> Result<(), Failure> {
    match endpoint.finish() {
        End::Closed => Ok(()),
        end => Err(Failure::Ended(end)),
    }
}

/// Moves out all that waits to be sent.
pub fn empty(
    endpoint: &mut Endpoint,
    room: &mut [u8],
    answers: &mut Digest,
) -> Result<(), Failure> {
    let count = endpoint.output(room);
    Ok(answers.add(room.get(..count).unwrap_or(&[]))?)
}
